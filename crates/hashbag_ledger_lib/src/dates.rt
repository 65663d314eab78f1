//! Dates as texts: `2026-02-28`.
ghost use Rattle.std.specs.Prelude.{◌≡◌, ◌≤◌, ◌==◌, get_or};
ghost use Rattle.std.specs.Char.{is_ascii_digit};
ghost use Rattle.hashbag_ledger_lib.specs.Dates.{days_in, days_in_february, digit_at, has_form, is_date, is_day_of, is_leap, is_pair_at, pair_at};

// Returns whether a year has a 29 February.
fn is_leap(year: usize) -> bool
    ensures { result ≡ is_leap year }
{
    year % 4 == 0 && (year % 100 != 0 || year % 400 == 0)
}

// Returns how many days a February has.
fn days_in_february(year: usize) -> usize
    ensures { result ≡ days_in_february year }
{
    if is_leap(year) { 29 } else { 28 }
}

// Returns how many days a month has.
fn days_in(year: usize, month: usize) -> usize
    ensures { result ≡ days_in year month }
{
    if month == 2 {
        return days_in_february(year);
    }
    if month == 4 || month == 6 || month == 9 || month == 11 {
        return 30;
    }
    31
}

// Returns the digit at this place, as a number.
fn digit_at(bytes: &[u8], at: usize) -> usize
    ensures digit { result ≡ digit_at bytes.now at }
    ensures small { result ≤ 255 }
{
    match bytes.get(at) {
        Some(byte) => byte.saturating_sub(48) as usize,
        None => 0,
    }
}

// Returns the two digits at these places, as one number.
fn pair_at(bytes: &[u8], first: usize, second: usize) -> usize
    ensures pair { result ≡ pair_at bytes.now first second }
    ensures small { result ≤ 2805 }
{
    digit_at(bytes, first) * 10 + digit_at(bytes, second)
}

// Returns whether a digit is at this place.
fn is_digit_at(bytes: &[u8], at: usize) -> bool
    ensures { result ≡ is_ascii_digit (get_or bytes.now at 0) }
{
    match bytes.get(at) {
        Some(byte) => byte.is_ascii_digit(),
        None => false,
    }
}

// Returns whether digits are at both places.
fn is_pair_at(bytes: &[u8], first: usize, second: usize) -> bool
    ensures { result ≡ is_pair_at bytes.now first second }
{
    is_digit_at(bytes, first) && is_digit_at(bytes, second)
}

// Returns whether a hyphen is at this place.
fn is_hyphen_at(bytes: &[u8], at: usize) -> bool
    ensures { result ≡ (get_or bytes.now at 0 == 45) }
{
    match bytes.get(at) {
        Some(byte) => *byte == b'-',
        None => false,
    }
}

// Returns whether these bytes have the form of a date.
fn has_form(bytes: &[u8]) -> bool
    ensures { result ≡ has_form bytes.now }
{
    let is_year = is_pair_at(bytes, 0, 1) && is_pair_at(bytes, 2, 3);
    let is_day = is_pair_at(bytes, 5, 6) && is_pair_at(bytes, 8, 9);
    let is_split = is_hyphen_at(bytes, 4) && is_hyphen_at(bytes, 7);
    bytes.len() == 10 && (is_year && (is_day && is_split))
}

// Returns whether a year has this month, and the month this day.
fn is_day_of(year: usize, month: usize, day: usize) -> bool
    ensures { result ≡ is_day_of year month day }
{
    let is_month = 1 <= month && month <= 12;
    let days = days_in(year, month);
    is_month && (1 <= day && day <= days)
}

/// Returns whether a text is a date of the proleptic Gregorian calendar, in the form `2026-02-28`.
pub fn is_date(text: &str) -> bool
    ensures { result ≡ is_date text.now }
{
    let bytes = text.as_bytes();
    let year = pair_at(bytes, 0, 1) * 100 + pair_at(bytes, 2, 3);
    let month = pair_at(bytes, 5, 6);
    let day = pair_at(bytes, 8, 9);
    has_form(bytes) && is_day_of(year, month, day)
}
