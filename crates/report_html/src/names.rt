// The name of a record, and a link to it.
ghost use Rattle.std.specs.Prelude.{◌≡◌, ◌++◌, OnOk};
ghost use Rattle.report_spec.specs.Origins.{name_in};
ghost use Rattle.report_html.specs.Pieces.{link_text};

use arrayvec::ArrayString;
use region_report::{Origin, file_name};
use std::alloc::AllocError;
use zone_spec::Name;

/// Appends the name of a record's file.
pub fn push_name(out: &mut Vec<u8>, origin: Origin, name: Name) -> Result<(), AllocError>
    ensures { OnOk result (out.new.items ≡ out.old.items ++ name_in origin name) }
{
    let mut text = ArrayString::new();
    file_name(origin, name, &mut text);
    out.extend_from_slice(text.as_str().as_bytes())
}

/// Appends a link to a record, in its name.
pub fn push_link(out: &mut Vec<u8>, origin: Origin, name: Name) -> Result<(), AllocError>
    ensures { OnOk result (out.new.items ≡ out.old.items ++ link_text origin name) }
{
    out.extend_from_slice(b"<a href=\"#")?;
    push_name(out, origin, name)?;
    out.extend_from_slice(b"\">")?;
    push_name(out, origin, name)?;
    out.extend_from_slice(b"</a>")?;
    Ok(())
}
