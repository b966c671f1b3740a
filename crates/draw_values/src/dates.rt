//! Dates, as pieces and onto a page.

ghost use Rattle.std.specs.Prelude.{◌≡◌, ◌≤◌, ◌+◌, ◌++◌, length, neg_ℤ, pos, ◌≤ℤ◌};
ghost use Rattle.line_pages.specs.Pieces.{piece_text};
ghost use Rattle.draw_values.specs.Dates.{date_digits, date_text};

use crate::digits::prepend_digits;
use jiff_core::civil::Date;
use line_pages::{PageBuf, Piece};

/// Appends the date of a day: 10 bytes, which must be free. Days count from 1970-01-01, which is day 0. The year must be 1 to 9999.
#[inline(always)]
pub fn put_date(day: i64, buf: &mut PageBuf)
    requires first_day { neg_ℤ (pos 719162) ≤ℤ day }
    requires last_day { day ≤ℤ pos 2932896 }
    requires room { length buf.old.text + 10 ≤ buf.old.room }
    ensures text { buf.new ≡ record buf.old { text = buf.old.text ++ date_text day } }
    ensures size { length (date_text day) ≡ 10 }
{
    buf.put_piece(&day_piece(day, Piece::new()));
}

/// Returns the date of a day, as `put_date` writes it, before the piece `rest` of at most 6 bytes.
#[inline(always)]
pub fn day_piece(day: i64, rest: Piece) -> Piece
    requires first_day { neg_ℤ (pos 719162) ≤ℤ day }
    requires last_day { day ≤ℤ pos 2932896 }
    requires room { length (piece_text rest) ≤ 6 }
    ensures text { piece_text result ≡ date_text day ++ piece_text rest }
    ensures size { length (date_text day) ≡ 10 }
{
    match Date::from_unix_epoch_day(day) {
        Ok(date) => date_piece(date.year as u64, date.month, date.day, rest),
        Err(_) => unreachable!(),
    }
}

/// Returns a year, a month and a day as YYYY-MM-DD, before the piece `rest` of at most 6 bytes.
#[inline(always)]
fn date_piece(year: u64, month: u8, day: u8, rest: Piece) -> Piece
    requires { length (piece_text rest) ≤ 6 }
    ensures { piece_text result ≡ date_digits year month day ++ piece_text rest }
{
    let end = prepend_digits(rest, u64::from(day), 2).prepend(b'-');
    let month_on = prepend_digits(end, u64::from(month), 2).prepend(b'-');
    prepend_digits(month_on, year, 4)
}
