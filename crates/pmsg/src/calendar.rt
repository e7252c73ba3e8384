// The date of a day.
ghost use Rattle.std.specs.Prelude.{◌≡◌, ◌<◌, ◌≤◌};
ghost use Rattle.pmsg_spec.specs.Calendar.{is_leap as is_leap_year, year_len as len_of_year, month_len as len_of_month};
ghost use Rattle.pmsg_spec.specs.Calendar.{in_year as date_in_year, date_of as date_is};

use pmsg_spec::Date;

fn is_leap(year: u32) -> bool
    ensures { result ≡ is_leap_year year }
{
    year % 4 == 0 && (year % 100 != 0 || year % 400 == 0)
}

fn year_len(year: u32) -> u32
    ensures len { result ≡ len_of_year year }
    ensures least { 365 ≤ result }
{
    if is_leap(year) { 366 } else { 365 }
}

fn month_len(year: u32, month: u32) -> u32
    ensures len { result ≡ len_of_month year month }
{
    if month == 2 {
        if is_leap(year) { 29 } else { 28 }
    } else if month == 4 || month == 6 || month == 9 || month == 11 {
        30
    } else {
        31
    }
}

fn in_year(year: u32, day: u32) -> Date
    requires { day < 366 }
    ensures { result ≡ date_in_year 11 year 1 day }
{
    let mut month = 1;
    let mut days = day;
    'months: while month < 12 && month_len(year, month) <= days {
        days -= month_len(year, month);
        month += 1;
    }
    Date {
        year,
        month,
        day: days + 1,
    }
}

/// The date so many days after 1 January 1970.
pub fn date_of(days: u32) -> Date
    requires { days < 100_000 }
    ensures { result ≡ date_is days }
{
    let mut year = 1970;
    let mut left = days;
    'years: while year_len(year) <= left {
        left -= year_len(year);
        year += 1;
    }
    in_year(year, left)
}
