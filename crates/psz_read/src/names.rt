// The names of records.
ghost use Rattle.std.specs.Prelude.{◌≡◌, ◌≤◌, length};
ghost use Rattle.psz_spec.specs.Records.{name_text as name_text_of};
ghost use Rattle.psz_spec.specs.Parts.{part_name as part_name_of};

use arrayvec::ArrayString;
use itoa::Buffer;
use psz_spec::{Kind, Name, Part};

fn dump_text(index: u32, packed: bool, out: &mut ArrayString<40>)
    ensures { out.new.bytes ≡ name_text_of (Name.Dump index packed) }
{
    let mut digits = Buffer::new();
    out.clear();
    out.push_str("dmesg-pstore_blk-");
    out.push_str(digits.format(index));
    if packed {
        out.push_str(".enc.z");
    }
}

fn plain_text(text: &'static str, out: &mut ArrayString<40>)
    requires { length text.now ≤ 40 }
    ensures { out.new.bytes ≡ text.now }
{
    out.clear();
    out.push_str(text);
}

/// Writes the text of a name; that of a packed dump ends in `.enc.z`. Takes no memory.
pub fn name_text(name: Name, out: &mut ArrayString<40>)
    ensures { out.new.bytes ≡ name_text_of name }
{
    match name {
        Name::Dump { index, packed } => dump_text(index, packed, out),
        Name::Ftrace => plain_text("ftrace-pstore_blk-0", out),
        Name::Pmsg => plain_text("pmsg-pstore_blk-0", out),
        Name::Console => plain_text("console-pstore_blk-0", out),
    }
}

/// The name of a part's record.
pub fn part_name(part: &Part) -> Name
    ensures { result ≡ part_name_of part.now }
{
    match part.zone.kind {
        Kind::Dump => Name::Dump {
            index: part.zone.index,
            packed: match part.header {
                Some(header) => header.packed,
                None => false,
            },
        },
        Kind::Ftrace => Name::Ftrace,
        Kind::Pmsg => Name::Pmsg,
        Kind::Console => Name::Console,
    }
}
