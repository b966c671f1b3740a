//! Whole numbers that a draw chooses, onto a page.

ghost use Rattle.std.specs.Prelude.{◌≡◌, ◌≤◌, ◌+◌, ◌<◌, ◌^◌, [], ◌∷◌, ◌++◌, length, pos, unsigned_abs, ◌-ℤ◌, ◌<ℤ◌, ◌≤ℤ◌};
ghost use Rattle.std.specs.Fmt.{signed_decimal};
ghost use Rattle.line_pages.specs.Pieces.{piece_text};
ghost use Rattle.schema_facts.specs.Choices.{choices as choices_of};
ghost use Rattle.draw_values.specs.Values.{chosen};

use fixed_divisors::FixedDivisor;
use line_pages::{Digits, PageBuf, Piece};

/// Returns the number that a draw chooses among those from `lo` to `hi` in steps of `step`. `choices` is how many there are.
#[inline(always)]
pub(crate) fn chosen(lo: i64, hi: i64, step: u64, choices: &FixedDivisor, draw: u64) -> i64
    requires ordered { lo ≤ℤ hi }
    requires near { (hi -ℤ lo) <ℤ pos (2 ^ 63) }
    requires step { 1 ≤ step }
    requires choices { choices.now ≡ choices_of lo hi step }
    ensures exact { result ≡ chosen lo hi step draw }
    ensures least { lo ≤ℤ result }
    ensures greatest { result ≤ℤ hi }
{
    let past = step * choices.remainder(draw);
    lo + past as i64
}

/// Appends a number in decimal, with a minus sign if it is negative. 20 bytes must be free.
#[inline(always)]
pub(crate) fn put_whole(value: i64, buf: &mut PageBuf)
    requires { length buf.old.text + 20 ≤ buf.old.room }
    ensures text { buf.new ≡ record buf.old { text = buf.old.text ++ signed_decimal value } }
    ensures size { length (signed_decimal value) ≤ 20 }
{
    buf.put_signed(value);
}

/// Returns a number of at most 14 digits in decimal, with a minus sign if it is negative, and the byte after it.
#[inline(always)]
pub(crate) fn whole_piece(digits: &Digits, value: i64, behind: u8) -> Piece
    requires { unsigned_abs value + 1 < 10 ^ 14 }
    ensures { piece_text result ≡ signed_decimal value ++ behind ∷ [] }
{
    let piece = digits.piece(value.unsigned_abs(), behind);
    if value < 0 {
        piece.prepend(b'-')
    } else {
        piece
    }
}
