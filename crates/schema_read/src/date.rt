//! Dates as texts.

ghost use Rattle.std.specs.Prelude.{◌≡◌, ◌-◌, ◌<◌, ◌≤◌, IsTrue, length, slice_index};
ghost use Rattle.schema_read.specs.Dates.{is_digit, digit, is_date_text, day_number, day_named};

use jiff_core::civil::Date;

/// Returns the digit at a place as a number.
fn digit_at(bytes: &[u8], i: usize) -> u8
    requires within { i < length bytes.now }
    requires is_digit { IsTrue (is_digit (slice_index bytes.now i)) }
    ensures value { result ≡ digit bytes.now i }
    ensures small { result ≤ 9 }
{
    bytes[i] - b'0'
}

fn is_date(bytes: &[u8]) -> bool
    ensures { result ≡ is_date_text bytes.now }
{
    bytes.len() == 10
        && bytes[0].is_ascii_digit()
        && bytes[1].is_ascii_digit()
        && bytes[2].is_ascii_digit()
        && bytes[3].is_ascii_digit()
        && bytes[5].is_ascii_digit()
        && bytes[6].is_ascii_digit()
        && bytes[8].is_ascii_digit()
        && bytes[9].is_ascii_digit()
        && bytes[4] == b'-'
        && bytes[7] == b'-'
}

fn number_of_day(year: u16, month: u8, day: u8) -> Option<i32>
    requires year { year ≤ 9999 }
    requires month { month ≤ 99 }
    requires day { day ≤ 99 }
    ensures { result ≡ day_number year month day }
{
    if year < 1 {
        return None;
    }
    match Date::new(year as i16, month as i8, day as i8) {
        Ok(date) => Some(date.to_unix_epoch_day()),
        Err(_) => None,
    }
}

/// Returns the day number of the date that a text names, or None for any other text. A date has ten bytes YYYY-MM-DD,
/// and its day exists in a year from 0001 to 9999. Day 0 is 1970-01-01.
pub fn day_of_text(text: &str) -> Option<i32>
    ensures { result ≡ day_named text.now }
{
    let bytes = text.as_bytes();
    if !is_date(bytes) {
        return None;
    }
    let thousands = 1000 * digit_at(bytes, 0) as u16 + 100 * digit_at(bytes, 1) as u16;
    let year = thousands + 10 * digit_at(bytes, 2) as u16 + digit_at(bytes, 3) as u16;
    let month = 10 * digit_at(bytes, 5) + digit_at(bytes, 6);
    let day = 10 * digit_at(bytes, 8) + digit_at(bytes, 9);
    number_of_day(year, month, day)
}
