//! The days of units, and their dates over a run.

ghost use Rattle.std.specs.Prelude.{◌≡◌, ℕ, ◌<◌, ◌≤◌, ◌*◌, [], length, map, neg_ℤ, pos, slice_index, slice_index_or, ◌+ℤ◌, ◌≤ℤ◌};
ghost use Rattle.line_pages.specs.Pieces.{piece_text};
ghost use Rattle.schema_plan.specs.Limits.{IsDateRange};
ghost use Rattle.draw_values.specs.Dates.{date_text};
ghost use Rattle.draw_values.specs.ReadyValues.{IsUnitDay, ready_day};
ghost use Rattle.draw_values.specs.Runs.{AreOfLength, run_row, with_behind};

use crate::dates::day_piece;
use crate::runs::RunRows;
use crate::values::RowAt;
use line_pages::Piece;
use schema_plan::ReadyUnitDate;

/// Returns the day that a row shows.
#[inline(always)]
pub(crate) fn day_of_row(date: &ReadyUnitDate, at: RowAt) -> i64
    requires { IsUnitDay date.now at }
    ensures { result ≡ ready_day date.now at }
{
    if date.changed {
        day_of_unit(date.start, date.step, at.changed)
    } else {
        day_of_unit(date.start, date.step, at.born)
    }
}

/// Returns the day of a unit. The day of unit 0 is `start`, and each unit is `step` days after the one before.
#[inline(always)]
pub(crate) fn day_of_unit(start: i32, step: u64, unit: u64) -> i64
    requires { IsDateRange start (start +ℤ pos (step * unit)) }
    ensures { result ≡ start +ℤ pos (step * unit) }
{
    i64::from(start) + (step * unit) as i64
}

/// Makes the dates that a run's rows show, each with the byte after it.
#[inline(always)]
pub(crate) fn fill_unit_dates(
    date: &ReadyUnitDate,
    rows: RunRows<'_>,
    behind: u8,
    pieces: &mut [Piece],
)
    requires days { (i : ℕ) → i < length pieces.old → IsUnitDay date.now (run_row rows i) }
    requires lengths { AreOfLength (length pieces.old) rows }
    ensures { (i : ℕ) → i < length pieces.old → slice_index_or (map piece_text pieces.new) i [] ≡ with_behind behind (date_text (ready_day date.now (run_row rows.entry i))) }
{
    if date.changed {
        fill_days_of_units(date.start, date.step, rows.changes, behind, pieces);
    } else {
        fill_days_of_units(date.start, date.step, rows.births, behind, pieces);
    }
}

/// Makes the dates of units, each with the byte after it.
#[inline(always)]
fn fill_days_of_units(start: i32, step: u64, units: &[u64], behind: u8, pieces: &mut [Piece])
    requires days { (i : ℕ) → i < length units.now → IsDateRange start (start +ℤ pos (step * slice_index units.now i)) }
    requires lengths { length units.now ≡ length pieces.old }
    ensures { (i : ℕ) → i < length pieces.old → slice_index_or (map piece_text pieces.new) i [] ≡ with_behind behind (date_text (start +ℤ pos (step * slice_index units.now i))) }
{
    for (i, piece) in pieces.iter_mut().enumerate() {
        let day = day_of_unit(start, step, units[i]);
        *piece = day_piece(day, Piece::of_byte(behind));
    }
}
