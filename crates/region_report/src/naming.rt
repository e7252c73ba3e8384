// The names of records in a mounted pstore.
ghost use Rattle.std.specs.Prelude.{◌≡◌};
ghost use Rattle.zone_spec.specs.Names.{name_text as region_text_of};
ghost use Rattle.psz_spec.specs.Records.{name_text as storage_text_of};
ghost use Rattle.report_spec.specs.Origins.{storage_name, name_in};

use arrayvec::ArrayString;
use itoa::Buffer;
use pstore_records::name_text;
use report_spec::Origin;
use zone_spec::Name;

fn region_text(name: Name, out: &mut ArrayString<40>)
    ensures { out.new.bytes ≡ region_text_of name }
{
    let mut text = ArrayString::new();
    name_text(name, &mut text);
    out.clear();
    out.push_str(text.as_str());
}

fn storage_text(name: Name, out: &mut ArrayString<40>)
    ensures { out.new.bytes ≡ storage_text_of (storage_name name) }
{
    out.clear();
    match name {
        Name::Dump { index, packed } => {
            let mut digits = Buffer::new();
            out.push_str("dmesg-pstore_blk-");
            out.push_str(digits.format(index));
            out.push_str(if packed { ".enc.z" } else { "" });
        }
        Name::Console => out.push_str("console-pstore_blk-0"),
        Name::Pmsg => out.push_str("pmsg-pstore_blk-0"),
        Name::Ftrace => out.push_str("ftrace-pstore_blk-0"),
    }
}

/// Writes the name of a record's file in a mounted pstore. Takes no memory.
pub fn file_name(origin: Origin, name: Name, out: &mut ArrayString<40>)
    ensures { out.new.bytes ≡ name_in origin name }
{
    match origin {
        Origin::Region => region_text(name, out),
        Origin::Storage => storage_text(name, out),
    }
}
