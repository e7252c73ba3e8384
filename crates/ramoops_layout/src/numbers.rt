// The numbers that parameters write.
ghost use Rattle.std.specs.Prelude.{◌≡◌, ◌≤◌, length, drop, if◌then◌else◌, Some, None};
ghost use Rattle.std.specs.Option.{option_copied};
ghost use Rattle.grammar_spec.specs.Numbers.{number_of, digits_number, begins};

// What stands after this front.
pub fn behind<'a>(text: &'a str, front: &str) -> Option<&'a str>
    ensures { option_copied result ≡ (if begins front.now text.now then Some (drop (length front.now) text.now)
        else None) }
{
    text.strip_prefix(front)
}

fn digits(text: &str, base: u32) -> Option<u32>
    requires low { 2 ≤ base }
    requires high { base ≤ 16 }
    ensures { result ≡ digits_number base text.now }
{
    if text.starts_with('+') {
        return None;
    }
    u32::from_str_radix(text, base).ok()
}

/// The number that a parameter's value writes: decimal without a leading 0, `0x` or `0X` and hexadecimal digits, or `0`
/// and octal digits (`lib/kstrtox.c`), below 2^32.
pub fn number(text: &str) -> Option<u32>
    ensures { result ≡ number_of text.now }
{
    if let Some(hexadecimal) = behind(text, "0x").or(behind(text, "0X")) {
        return digits(hexadecimal, 16);
    }
    match behind(text, "0") {
        Some(octal) if !octal.is_empty() => digits(octal, 8),
        _ => digits(text, 10),
    }
}
