//! Valid time texts.

ghost use Rattle.std.specs.Prelude.{◌≡◌, ◌<◌, ◌-◌, slice_index};
ghost use Rattle.rq_texts.specs.TimeText as spec;

fn is_leap(year: u32) -> bool
    ensures { result ≡ spec.is_leap year }
{
    year % 4 == 0 && (year % 100 != 0 || year % 400 == 0)
}

fn days_in(year: u32, month: u32) -> u32
    ensures { result ≡ spec.days_in year month }
{
    if month == 2 {
        if is_leap(year) { 29 } else { 28 }
    } else if month == 4 || month == 6 || month == 9 || month == 11 {
        30
    } else {
        31
    }
}

fn at(s: &[u8], i: usize) -> u8
    ensures { result ≡ slice_index s.now i }
{
    match s.get(i) {
        Some(byte) => *byte,
        None => 0,
    }
}

fn two_digits(s: &[u8], i: usize) -> bool
    requires { i < 100 }
    ensures { result ≡ spec.two_digits s.now i }
{
    at(s, i).is_ascii_digit() && at(s, i + 1).is_ascii_digit()
}

fn two(s: &[u8], i: usize) -> u32
    requires { i < 100 }
    ensures value { result ≡ spec.two s.now i }
    ensures small { result < 3000 }
{
    u32::from(at(s, i).saturating_sub(48)) * 10 + u32::from(at(s, i + 1).saturating_sub(48))
}

fn within(low: u32, high: u32, n: u32) -> bool
    ensures { result ≡ spec.within low high n }
{
    low <= n && n <= high
}

fn starts_with_date(s: &[u8]) -> bool
    ensures { result ≡ spec.starts_with_date s.now }
{
    two_digits(s, 0)
        && two_digits(s, 2)
        && at(s, 4) == b'-'
        && two_digits(s, 5)
        && at(s, 7) == b'-'
        && two_digits(s, 8)
        && within(1, 12, two(s, 5))
        && within(
            1,
            days_in(two(s, 0) * 100 + two(s, 2), two(s, 5)),
            two(s, 8),
        )
}

fn is_time_of_day(s: &[u8]) -> bool
    ensures { result ≡ spec.is_time_of_day s.now }
{
    two_digits(s, 11)
        && at(s, 13) == b':'
        && two_digits(s, 14)
        && at(s, 16) == b':'
        && two_digits(s, 17)
        && two(s, 11) < 24
        && two(s, 14) < 60
        && two(s, 17) < 60
}

fn ends_with_time(s: &[u8]) -> bool
    ensures { result ≡ spec.ends_with_time s.now }
{
    at(s, 10) == b' ' && is_time_of_day(s)
}

/// Whether the bytes are `YYYY-MM-DD` or `YYYY-MM-DD HH:MM:SS` of a day that there is.
#[tactic(auto, unfolding(crate::specs::TimeText::is_time_text))]
pub fn is_time_text(s: &[u8]) -> bool
    ensures { result ≡ spec.is_time_text s.now }
{
    starts_with_date(s) && (s.len() == 10 || (s.len() == 19 && ends_with_time(s)))
}
