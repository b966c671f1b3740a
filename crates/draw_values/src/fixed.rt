//! Fixed numbers onto a page.

ghost use Rattle.std.specs.Prelude.{◌≡◌, ◌<◌, ◌≤◌, ◌+◌, ◌^◌, [], ◌∷◌, ◌++◌, length, unsigned_abs};
ghost use Rattle.line_pages.specs.Pieces.{piece_text};
ghost use Rattle.line_pages.specs.Digits.{last_digits};
ghost use Rattle.draw_values.specs.Digits.{pointed, signed_pointed};
ghost use Rattle.draw_values.specs.Values.{number_text};

use crate::digits::prepend_digits;
use crate::leaf_numbers::Number;
use fixed_divisors::FixedDivisor;
use line_pages::{Digits, PageBuf, Piece};

/// Appends a number with its point. At most 9 digits may stand after the point, and 21 bytes must be free.
pub fn put_number(number: Number, buf: &mut PageBuf)
    requires decimals { number.decimals ≤ 9 }
    requires room { length buf.old.text + 21 ≤ buf.old.room }
    ensures text { buf.new ≡ record buf.old { text = buf.old.text ++ number_text number } }
    ensures size { length (number_text number) ≤ 21 }
{
    let unit = FixedDivisor::new(10u64.pow(number.decimals));
    put_fixed(number.value, number.decimals, &unit, buf);
}

/// Appends a number with a point before its last `decimals` digits, 0 to 9. `unit` is 10 to the power of `decimals`. 21 bytes must
/// be free.
#[inline(always)]
pub(crate) fn put_fixed(value: i64, decimals: u32, unit: &FixedDivisor, buf: &mut PageBuf)
    requires decimals { decimals ≤ 9 }
    requires unit { unit.now ≡ 10 ^ decimals }
    requires room { length buf.old.text + 21 ≤ buf.old.room }
    ensures text { buf.new ≡ record buf.old { text = buf.old.text ++ signed_pointed decimals value } }
    ensures size { length (signed_pointed decimals value) ≤ 21 }
{
    if value < 0 {
        buf.put_piece(&Piece::of_byte(b'-'));
    }
    put_pointed(value.unsigned_abs(), decimals, unit, buf);
}

/// Appends a number that isn't negative, with a point before its last `decimals` digits. 20 bytes must be free.
#[inline(always)]
fn put_pointed(number: u64, decimals: u32, unit: &FixedDivisor, buf: &mut PageBuf)
    requires number { number ≤ 2 ^ 63 }
    requires decimals { decimals ≤ 9 }
    requires unit { unit.now ≡ 10 ^ decimals }
    requires room { length buf.old.text + 20 ≤ buf.old.room }
    ensures text { buf.new ≡ record buf.old { text = buf.old.text ++ pointed decimals number } }
    ensures size { length (pointed decimals number) ≤ 20 }
{
    buf.put_number(unit.quotient(number));
    if decimals > 0 {
        buf.put_piece(&fraction(number, decimals));
    }
}

/// Returns a point and the last `count` digits of a number.
#[inline(always)]
fn fraction(number: u64, count: u32) -> Piece
    requires { count ≤ 9 }
    ensures text { piece_text result ≡ 46 ∷ last_digits count number }
    ensures length { length (piece_text result) ≡ count + 1 }
{
    prepend_digits(Piece::new(), number, count).prepend(b'.')
}

/// Returns a number of at most 13 digits, with a point before its last `decimals` digits, and the byte after it.
#[inline(always)]
pub(crate) fn fixed_piece(
    digits: &Digits,
    value: i64,
    decimals: u32,
    unit: &FixedDivisor,
    behind: u8,
) -> Piece
    requires short { unsigned_abs value < 10 ^ 13 }
    requires decimals { decimals ≤ 9 }
    requires unit { unit.now ≡ 10 ^ decimals }
    ensures { piece_text result ≡ signed_pointed decimals value ++ behind ∷ [] }
{
    let piece = pointed_piece(digits, value.unsigned_abs(), decimals, unit, behind);
    if value < 0 {
        piece.prepend(b'-')
    } else {
        piece
    }
}

/// Returns a number that isn't negative, of at most 13 digits, with its point and the byte after it.
#[inline(always)]
fn pointed_piece(
    digits: &Digits,
    number: u64,
    decimals: u32,
    unit: &FixedDivisor,
    behind: u8,
) -> Piece
    requires short { number < 10 ^ 13 }
    requires decimals { decimals ≤ 9 }
    requires unit { unit.now ≡ 10 ^ decimals }
    ensures text { piece_text result ≡ pointed decimals number ++ behind ∷ [] }
    ensures size { length (piece_text result) ≤ 15 }
{
    if decimals == 0 {
        return digits.piece(number, behind);
    }
    let fraction = digits.last_before(number, decimals, Piece::of_byte(behind));
    digits.before(unit.quotient(number), fraction.prepend(b'.'))
}
