//! The dates after dates of a run's rows, as pieces.

ghost use Rattle.std.specs.Prelude.{◌≡◌, ◌<◌, ◌≤◌, ℕ, ◌+◌, ◌+ℤ◌, ◌*◌, get_or, length, pos, true};
ghost use Rattle.line_pages.specs.Pieces.{piece_text};
ghost use Rattle.schema_facts.specs.Ends.{IsInRange};
ghost use Rattle.schema_facts.specs.Layout.{column_at};
ghost use Rattle.row_lines.specs.RunFields.{AreMade, AreRowsOf, asked_for, size_for};
ghost use Rattle.row_lines.specs.RunValues.{AreDays};
ghost use Rattle.row_lines.specs.Runs.{layout_for, text_at, text_behind};
ghost use Rattle.row_lines.specs.TableLines.{behind_of};
ghost use Rattle.row_lines.specs.Totals.{IsDated};

use crate::cohort_lines::CohortLines;
use crate::run_buf::ValueBuf;
use crate::runs::RunLines;
use draw_values::{CohortValues, RunNumbers, RunRows, fill_dates_of};
use life_intervals::cohort;
use line_pages::Piece;
use schema_plan::ReadyKind;
use std::sync::ledger::Ledger;
use step_count::Steps;

impl<'a> RunLines<'a> {
    /// Makes the fields of the column at a place, which must be one of dates after dates.
    pub(crate) fn put_dates<L: Ledger>(
        &self,
        column: usize,
        rows: RunRows<'_>,
        behind: u8,
        numbers: &mut RunNumbers,
        values: &mut ValueBuf,
        pieces: &mut [Piece],
        steps: &mut Steps<L>,
    )
        requires column { column < length (layout_for self.now).columns }
        requires dated { IsDated (column_at (layout_for self.now).columns column).kind }
        requires behind { behind ≡ behind_of self.now.plan self.now.table column }
        requires rows { AreRowsOf self.now rows }
        requires pieces { length pieces.old ≡ length rows.ordinals.now }
        ensures made { AreMade self.now rows.entry.ordinals.now pieces.new 0 column }
        ensures steps { steps.new ≤ steps.old + length rows.entry.ordinals.now * asked_for self.now column }
    {
        let count = rows.ordinals.len();
        let all_days = &mut values.values[..];
        let all_more = &mut values.operands[..];
        let days = &mut all_days[..count];
        let more = &mut all_more[..count];
        if self.put_days(column, rows, numbers, days, more) {
            self.put_dates_of(column, rows, days, behind, numbers, pieces);
        } else {
            self.put_each_date(column, rows, behind, pieces, steps);
        }
    }

    /// Finds the days that the rows show in the column at a place, for all rows at once. Returns false if it can't: if a date is
    /// followed that can be null or that is looked up. If a field of the column itself is null, its day is the one that it would
    /// show.
    fn put_days(
        &self,
        column: usize,
        rows: RunRows<'_>,
        numbers: &mut RunNumbers,
        days: &mut [i64],
        more: &mut [i64],
    ) -> bool
        requires column { column < length (layout_for self.now).columns }
        requires rows { AreRowsOf self.now rows }
        requires days { length days.old ≡ length rows.ordinals.now }
        requires more { length more.old ≡ length rows.ordinals.now }
        ensures { result ≡ true → AreDays self.now rows.entry.ordinals.now days.new column }
    {
        let plan = self.rows.plan();
        let _limits = plan.schema(); // a date is after one of an earlier column
        let columns = plan.columns(self.table);
        let own = self.lines.columns();
        let ReadyKind::After(after) = &columns[column].kind else {
            return own[column].put_days(plan, rows, numbers, days);
        };
        let of = after.of as usize;
        if columns[of].null > 0 || !self.put_days(of, rows, numbers, days, more) {
            return false;
        }
        own[column].put_days_after(plan, after, rows, numbers, more);
        add_all(days, more);
        true
    }

    /// Makes the fields of the column at a place, which must be one of dates after dates, from the days that the rows show.
    fn put_dates_of(
        &self,
        column: usize,
        rows: RunRows<'_>,
        days: &[i64],
        behind: u8,
        numbers: &mut RunNumbers,
        pieces: &mut [Piece],
    )
        requires column { column < length (layout_for self.now).columns }
        requires dated { IsDated (column_at (layout_for self.now).columns column).kind }
        requires behind { behind ≡ behind_of self.now.plan self.now.table column }
        requires rows { AreRowsOf self.now rows }
        requires days { AreDays self.now rows.ordinals.now days.now column }
        requires same { length days.now ≡ length rows.ordinals.now }
        requires pieces { length pieces.old ≡ length rows.ordinals.now }
        ensures { AreMade self.now rows.entry.ordinals.now pieces.new 0 column }
    {
        let own = self.lines.columns();
        fill_dates_of(days, behind, pieces);
        own[column].null_out(self.rows.plan(), rows, numbers, pieces);
    }

    /// Makes the fields of the column at a place, which must be one of dates after dates, row by row.
    fn put_each_date<L: Ledger>(
        &self,
        column: usize,
        rows: RunRows<'_>,
        behind: u8,
        pieces: &mut [Piece],
        steps: &mut Steps<L>,
    )
        requires column { column < length (layout_for self.now).columns }
        requires dated { IsDated (column_at (layout_for self.now).columns column).kind }
        requires behind { behind ≡ behind_of self.now.plan self.now.table column }
        requires rows { AreRowsOf self.now rows }
        requires pieces { length pieces.old ≡ length rows.ordinals.now }
        ensures made { AreMade self.now rows.entry.ordinals.now pieces.new 0 column }
        ensures steps { steps.new ≤ steps.old + length rows.entry.ordinals.now * asked_for self.now column }
    {
        let mut lines = CohortLines::new(self.rows, self.table, 0, self.unit);
        for row in 0..rows.ordinals.len() {
            self.turn_to(rows.births[row], &mut lines);
            pieces[row] = self.date_piece(column, row, rows, &lines, behind, steps);
        }
    }

    /// Returns a row's field in the column at a place, which must be one of dates after dates, and the byte after it. `lines` are those
    /// of the row's cohort.
    #[inline(always)]
    fn date_piece<L: Ledger>(
        &self,
        column: usize,
        row: usize,
        rows: RunRows<'_>,
        lines: &CohortLines<'_>,
        behind: u8,
        steps: &mut Steps<L>,
    ) -> Piece
        requires column { column < length (layout_for self.now).columns }
        requires dated { IsDated (column_at (layout_for self.now).columns column).kind }
        requires behind { behind ≡ behind_of self.now.plan self.now.table column }
        requires row { row < length rows.ordinals.now }
        requires rows { AreRowsOf self.now rows }
        requires lines { lines.now ≡ record { plan = self.now.plan; table = self.now.table; born = get_or rows.births.now row 0; unit = self.now.unit } }
        ensures text { piece_text result ≡ text_behind self.now (get_or rows.entry.ordinals.now row 0) column }
        ensures size { length (text_at self.now (get_or rows.entry.ordinals.now row 0) column) ≤ size_for self.now column }
        ensures steps { steps.new ≤ steps.old + asked_for self.now column }
    {
        let plan = self.rows.plan();
        let (born, changed) = (rows.births[row], rows.changes[row]);
        let index = rows.ordinals[row] - cohort(plan, self.table, born).first;
        let columns = self.lines.columns();
        let values = CohortValues::kept(plan, self.table, columns, born, changed);
        lines.date_piece(column, index, &values, behind, steps)
    }
}

/// Adds to each number the one at the same place of another list. Each sum must be in the range from -(2^63 - 1) to 2^63 - 1.
fn add_all(numbers: &mut [i64], more: &[i64])
    requires lengths { length more.now ≡ length numbers.old }
    requires range { (i : ℕ) → i < length numbers.old → IsInRange (get_or numbers.old i (pos 0) +ℤ get_or more.now i (pos 0)) }
    ensures { (i : ℕ) → i < length numbers.old → get_or numbers.new i (pos 0) ≡ get_or numbers.old i (pos 0) +ℤ get_or more.now i (pos 0) }
{
    for (i, number) in numbers.iter_mut().enumerate() {
        *number += more[i];
    }
}
