// The texts of names.
ghost use Rattle.std.specs.Prelude.{◌≡◌, ℕ, ◌<◌, ◌^◌, decimal, Some};
ghost use Rattle.zone_spec.specs.Names.{IsNameOf, is_name, name_text};
ghost use Rattle.pstore_records.specs.Candidates.{IsCandidate, IsDumpCandidate};

use arrayvec::ArrayString;
use itoa::Buffer;
use zone_spec::Name;

/// Whether two names are the same.
pub fn is_name(name: Name, other: Name) -> bool
    ensures { result ≡ is_name name other }
{
    name == other
}

/// Writes the text of a name, such as `dmesg-ramoops-3.enc.z`, in at most 30 bytes (`fs/pstore/inode.c`,
/// `pstore_mkfile`). Takes no memory.
pub fn name_text(name: Name, out: &mut ArrayString<30>)
    ensures { out.new.bytes ≡ name_text name }
{
    out.clear();
    match name {
        Name::Dump { index, packed } => {
            let mut digits = Buffer::new();
            out.push_str("dmesg-ramoops-");
            out.push_str(digits.format(index));
            out.push_str(if packed { ".enc.z" } else { "" });
        }
        Name::Console => out.push_str("console-ramoops-0"),
        Name::Pmsg => out.push_str("pmsg-ramoops-0"),
        Name::Ftrace => out.push_str("ftrace-ramoops-0"),
    }
}

/// The dump of a number that is below 2^32, where it is written in this way.
fn numbered(digits: &str, packed: bool) -> Option<Name>
    ensures { (index : ℕ) → index < 2 ^ 32 → digits.now ≡ decimal index → result ≡ Some (Name.Dump index packed) }
{
    match digits.parse() {
        Ok(index) => Some(Name::Dump { index, packed }),
        Err(_) => None,
    }
}

/// The only dump that the text after `dmesg-ramoops-` can name.
fn dump_candidate(rest: &str) -> Option<Name>
    ensures { IsDumpCandidate rest.now result }
{
    match rest.split_once('.') {
        Some((digits, _)) => numbered(digits, true),
        None => numbered(rest, false),
    }
}

/// The only name whose text this can be.
fn candidate(text: &str) -> Option<Name>
    ensures { IsCandidate text.now result }
{
    if text == "console-ramoops-0" {
        return Some(Name::Console);
    }
    if text == "pmsg-ramoops-0" {
        return Some(Name::Pmsg);
    }
    if text == "ftrace-ramoops-0" {
        return Some(Name::Ftrace);
    }
    match text.strip_prefix("dmesg-ramoops-") {
        Some(rest) => dump_candidate(rest),
        None => None,
    }
}

/// The name with this text, or `None` where no name has it: a dump's number is below 2^32 and has no leading zeros.
/// No two names have one text. Takes no memory.
pub fn find(text: &str) -> Option<Name>
    ensures name { IsNameOf text.now result }
    ensures only { IsCandidate text.now result }
{
    let name = candidate(text)?;
    let mut written = ArrayString::new();
    name_text(name, &mut written);
    if written.as_str() == text {
        Some(name)
    } else {
        None
    }
}
