// Times.
ghost use Rattle.std.specs.Prelude.{◌≡◌, ◌++◌, ◌<◌, OnOk};
ghost use Rattle.report_spec.specs.Moments.{day_text as text_of_day, six_text as text_of_six, micros_text, dated_text};
ghost use Rattle.report_spec.specs.Moments.{undated_text, moment_text, unit_text, long_text};

use itoa::Buffer;
use pmsg::{date_of, date_text, digit};
use std::alloc::AllocError;
use zone_spec::Time;

/// The time of the day, of seconds of it, such as `23:44:14`.
fn day_text(secs: u32) -> [u8; 8]
    ensures { result ≡ text_of_day secs }
{
    let (hour, minute, second) = (secs / 3600, secs / 60 % 60, secs % 60);
    [
        digit(hour, 10),
        digit(hour, 1),
        b':',
        digit(minute, 10),
        digit(minute, 1),
        b':',
        digit(second, 10),
        digit(second, 1),
    ]
}

fn six_text(n: u32) -> [u8; 6]
    ensures { result ≡ text_of_six n }
{
    [
        digit(n, 100_000),
        digit(n, 10_000),
        digit(n, 1000),
        digit(n, 100),
        digit(n, 10),
        digit(n, 1),
    ]
}

/// Appends microseconds with six digits, or more where they need them.
fn push_micros(out: &mut Vec<u8>, micros: u32) -> Result<(), AllocError>
    ensures { OnOk result (out.new.items ≡ out.old.items ++ micros_text micros) }
{
    if micros < 1_000_000 {
        return out.extend_from_slice(&six_text(micros));
    }
    let mut digits = Buffer::new();
    out.extend_from_slice(digits.format(u64::from(micros)).as_bytes())
}

fn push_dated(out: &mut Vec<u8>, days: u32, secs: u32, micros: u32) -> Result<(), AllocError>
    requires { days < 100_000 }
    ensures { OnOk result (out.new.items ≡ out.old.items ++ dated_text days secs micros) }
{
    out.extend_from_slice(&date_text(date_of(days)))?;
    out.extend_from_slice(b" ")?;
    out.extend_from_slice(&day_text(secs))?;
    out.extend_from_slice(b".")?;
    push_micros(out, micros)?;
    out.extend_from_slice(b" UTC")
}

fn push_undated(out: &mut Vec<u8>, time: Time) -> Result<(), AllocError>
    ensures { OnOk result (out.new.items ≡ out.old.items ++ undated_text time) }
{
    let mut digits = Buffer::new();
    out.extend_from_slice(digits.format(time.secs).as_bytes())?;
    out.extend_from_slice(b".")?;
    push_micros(out, time.micros)?;
    out.extend_from_slice(b" s")
}

/// Appends a time in UTC, or in seconds since 1970 from 17 October 2243 on.
pub fn push_moment(out: &mut Vec<u8>, time: Time) -> Result<(), AllocError>
    ensures { OnOk result (out.new.items ≡ out.old.items ++ moment_text time) }
{
    let days = time.secs / 86_400;
    if days < 100_000 {
        push_dated(out, days as u32, (time.secs % 86_400) as u32, time.micros)
    } else {
        push_undated(out, time)
    }
}

/// Appends a number of one unit and a number of a smaller one, in parentheses.
fn push_units(
    out: &mut Vec<u8>,
    large: u64,
    unit: &str,
    small: u64,
    end: &str,
) -> Result<(), AllocError>
    ensures { OnOk result (out.new.items
        ≡ out.old.items ++ unit_text large unit.now small end.now) }
{
    let mut digits = Buffer::new();
    out.extend_from_slice(b" (")?;
    out.extend_from_slice(digits.format(large).as_bytes())?;
    out.extend_from_slice(unit.as_bytes())?;
    out.extend_from_slice(digits.format(small).as_bytes())?;
    out.extend_from_slice(end.as_bytes())
}

/// Appends seconds in larger units, from a minute on.
pub fn push_long(out: &mut Vec<u8>, seconds: u64) -> Result<(), AllocError>
    ensures { OnOk result (out.new.items ≡ out.old.items ++ long_text seconds) }
{
    if seconds < 60 {
        Ok(())
    } else if seconds < 3600 {
        push_units(out, seconds / 60, " min ", seconds % 60, " s)")
    } else if seconds < 86_400 {
        push_units(out, seconds / 3600, " h ", seconds / 60 % 60, " min)")
    } else {
        push_units(out, seconds / 86_400, " d ", seconds / 3600 % 24, " h)")
    }
}
