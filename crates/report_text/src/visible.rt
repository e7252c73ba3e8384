// Bytes as a terminal may show them.
ghost use Rattle.std.specs.Prelude.{◌≡◌, ◌++◌, ◌<◌, OnOk, true};
ghost use Rattle.std.specs.List.{list_all};
ghost use Rattle.report_spec.specs.Escaped.{is_plain, shown, hex_digit};
ghost use Rattle.report_spec.specs.Visible.{is_visible, visible_byte, visible};

use std::alloc::AllocError;

/// Whether a byte is shown as it is.
pub fn is_plain(b: u8) -> bool
    ensures { result ≡ is_plain b }
{
    b == 9 || b == 10 || (32 <= b && b < 127 && b != 92)
}

fn hex_digit(n: u8) -> u8
    requires { n < 16 }
    ensures { result ≡ hex_digit n }
{
    if n < 10 { 48 + n } else { 87 + n }
}

fn push_byte(out: &mut Vec<u8>, b: u8) -> Result<(), AllocError>
    ensures byte { OnOk result (out.new.items ≡ out.old.items ++ visible_byte b) }
    ensures range { b < 256 }
{
    if is_plain(b) {
        out.extend_from_slice(&[b])
    } else {
        out.extend_from_slice(&[92, 120, hex_digit(b / 16), hex_digit(b % 16)])
    }
}

/// Appends the bytes in a visible form.
pub fn push_visible(out: &mut Vec<u8>, bytes: &[u8]) -> Result<(), AllocError>
    requires { list_all is_visible out.old.items ≡ true }
    ensures bytes { OnOk result (out.new.items ≡ out.old.items ++ visible bytes.now) }
    ensures visible { OnOk result (list_all is_visible out.new.items ≡ true) }
{
    for b in bytes {
        push_byte(out, *b)?;
    }
    Ok(())
}
