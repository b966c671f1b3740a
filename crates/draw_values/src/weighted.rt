//! Groups that a draw chooses by their weights, and what they stand for.

ghost use Rattle.std.specs.Prelude.{◌≡◌, ◌<◌, ◌≤◌, ◌+◌, ◌-◌, ◌^◌, [], ◌++◌, length, sum, slice_index_or, pos, ◌+ℤ◌, ◌<ℤ◌};
ghost use Rattle.schema_facts.specs.FieldSizes.{greatest_by};
ghost use Rattle.draw_values.specs.Values.{chosen_group};

use fixed_divisors::FixedDivisor;
use line_pages::{PageBuf, Piece};
use row_text::WrittenTexts;
use weight_tables::Weights;

/// Returns the group that a draw chooses. `total` is the sum of the weights.
#[inline(always)]
pub(crate) fn chosen_group(weights: &Weights, total: &FixedDivisor, draw: u64) -> usize
    requires { total.now ≡ sum weights.now }
    ensures exact { result ≡ chosen_group weights.now draw }
    ensures within { result < length weights.now }
{
    weights.select(total.remainder(draw))
}

/// Returns the number that a draw chooses among the numbers from `lo` on, one for each weight. `total` is the sum of the weights.
/// There are at most 4096 weights.
#[inline(always)]
pub(crate) fn skewed(lo: i64, weights: &Weights, total: &FixedDivisor, draw: u64) -> i64
    requires few { length weights.now ≤ 4096 }
    requires last { (lo +ℤ pos (length weights.now - 1)) <ℤ pos (2 ^ 63) }
    requires total { total.now ≡ sum weights.now }
    ensures exact { result ≡ lo +ℤ pos (chosen_group weights.now draw) }
    ensures near { chosen_group weights.now draw < 4096 }
{
    lo + chosen_group(weights, total, draw) as i64
}

/// Appends the entry of a group, as it is written. The size of the greatest entry must be free.
#[inline(always)]
pub(crate) fn put_entry(entries: &WrittenTexts, group: usize, buf: &mut PageBuf)
    requires group { group < length entries.now }
    requires room { length buf.old.text + greatest_by length entries.now ≤ buf.old.room }
    ensures text { buf.new ≡ record buf.old { text = buf.old.text ++ slice_index_or entries.now group [] } }
    ensures size { length (slice_index_or entries.now group []) ≤ greatest_by length entries.now }
{
    put_text(entries.get(group), buf);
}

/// Appends a text. A text of one byte is copied as a piece.
#[inline(always)]
fn put_text(text: &[u8], buf: &mut PageBuf)
    requires { length buf.old.text + length text.now ≤ buf.old.room }
    ensures { buf.new ≡ record buf.old { text = buf.old.text ++ text.now } }
{
    if text.len() == 1 {
        buf.put_piece(&Piece::of_byte(text[0]));
    } else {
        buf.put(text);
    }
}
