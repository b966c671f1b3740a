//! The fields of lines side by side in one column, as pieces.

ghost use Rattle.std.specs.Prelude.{◌≡◌, ◌<◌, ◌≤◌, ℕ, ℤ, ◌+ℤ◌, ◌*◌, false, get_or, length, pos, true};
ghost use Rattle.schema_facts.specs.Ends.{IsInRange};
ghost use Rattle.schema_plan.specs.declared.ready.ReadyAfter.{ReadyAfter};
ghost use Rattle.detail_lines.specs.LineRuns.{AreDays, AreFields, AreLines};
ghost use Rattle.detail_lines.specs.Made.{IsParentAt, own_over, ready_over};

use crate::detail_lines::{DetailLines, ParentAt, byte_behind};
use crate::line_run::{LineRun, MOST_AT_ONCE};
use draw_values::{RunNumbers, fill_dates_of};
use line_pages::Piece;
use row_lines::Join;
use schema_plan::{ReadyKind, ReadyLeaf};

impl<'a> DetailLines<'a> {
    /// Makes the fields of lines in the column at a place. Returns false if they aren't made so.
    pub(crate) fn put_column(
        &self,
        column: usize,
        at: &ParentAt<'_>,
        run: &LineRun<'_>,
        count: usize,
        drawn: &mut RunNumbers,
        values: &mut [i64],
        operands: &mut [i64],
        parents: &mut [Piece],
        pieces: &mut [Piece],
    ) -> bool
        requires column { column < own_over self.now }
        requires at { IsParentAt self.now at.now }
        requires lines { AreLines self.now at.now.unit count run.now }
        requires values { length values.old ≡ count }
        requires operands { length operands.old ≡ count }
        requires parents { length parents.old ≡ MOST_AT_ONCE }
        requires pieces { length pieces.old ≡ count }
        ensures { result ≡ true → AreFields self.now at.now.unit count run.now pieces.new 0 column }
    {
        let columns = self.ready();
        match &columns[column].kind {
            ReadyKind::Drawn(leaf) => self.put_drawn(column, leaf, at, run, count, drawn, pieces),
            ReadyKind::Lookup(lookup) => {
                self.put_shown(column, lookup, at, run, count, drawn, parents, pieces)
            }
            ReadyKind::After(_) => {
                self.put_dates(column, at, run, count, drawn, values, operands, pieces)
            }
            ReadyKind::Sum { of } => {
                let of = of.as_slice();
                let join = Join::Sum;
                self.put_totals(
                    column, of, join, at, run, count, drawn, values, operands, pieces,
                )
            }
            ReadyKind::Product { of } => {
                let of = of.as_slice();
                let join = Join::Product;
                self.put_totals(
                    column, of, join, at, run, count, drawn, values, operands, pieces,
                )
            }
            _ => false,
        }
    }

    /// Makes the fields of lines in a column of drawn values. Returns false if a field can be too long for a piece.
    fn put_drawn(
        &self,
        column: usize,
        leaf: &ReadyLeaf,
        at: &ParentAt<'_>,
        run: &LineRun<'_>,
        count: usize,
        drawn: &mut RunNumbers,
        pieces: &mut [Piece],
    ) -> bool
        requires column { column < own_over self.now }
        requires drawn { (ready_over self.now column).kind ≡ ReadyKind.Drawn leaf.now }
        requires at { IsParentAt self.now at.now }
        requires lines { AreLines self.now at.now.unit count run.now }
        requires pieces { length pieces.old ≡ count }
        ensures { result ≡ true → AreFields self.now at.now.unit count run.now pieces.new 0 column }
    {
        let _limits = self.declared(); // units are small, and so are columns
        let columns = self.ready();
        let prepared = self.prepared();
        let own = &prepared[column];
        if !own.is_short() {
            return false;
        }
        let rows = run.drawn_rows(count);
        own.fill(self.digits(), &columns[column], rows, drawn, pieces);
        true
    }

    /// Makes the fields of lines in a column of dates after dates. Returns false if a date is followed that can be null, or one of the parent that isn't drawn and no unit's.
    fn put_dates(
        &self,
        column: usize,
        at: &ParentAt<'_>,
        run: &LineRun<'_>,
        count: usize,
        drawn: &mut RunNumbers,
        days: &mut [i64],
        more: &mut [i64],
        pieces: &mut [Piece],
    ) -> bool
        requires column { column < own_over self.now }
        requires dated { (after : ReadyAfter) × ((ready_over self.now column).kind ≡ ReadyKind.After after) }
        requires at { IsParentAt self.now at.now }
        requires lines { AreLines self.now at.now.unit count run.now }
        requires days { length days.old ≡ count }
        requires more { length more.old ≡ count }
        requires pieces { length pieces.old ≡ count }
        ensures { result ≡ true → AreFields self.now at.now.unit count run.now pieces.new 0 column }
    {
        let _limits = self.declared(); // a date is after one of an earlier column
        if !self.put_days(column, at, run, count, drawn, days, more) {
            return false;
        }
        let columns = self.ready();
        let prepared = self.prepared();
        let behind = byte_behind(self.delimiter(), self.columns(), column);
        fill_dates_of(days, behind, pieces);
        prepared[column].null_out(&columns[column], run.drawn_rows(count), drawn, pieces);
        true
    }

    /// Finds the days that lines show in the column at a place. Returns false if it can't: if a date is followed that can be null, or one of
    /// the parent that isn't drawn and no unit's. If a field of the column itself is null, its day is the one that it would show.
    fn put_days(
        &self,
        column: usize,
        at: &ParentAt<'_>,
        run: &LineRun<'_>,
        count: usize,
        drawn: &mut RunNumbers,
        days: &mut [i64],
        more: &mut [i64],
    ) -> bool
        requires column { column < own_over self.now }
        requires at { IsParentAt self.now at.now }
        requires lines { AreLines self.now at.now.unit count run.now }
        requires days { length days.old ≡ count }
        requires more { length more.old ≡ count }
        ensures { result ≡ true → AreDays self.now at.now.unit count run.now days.new column }
    {
        let _limits = self.declared(); // a date is after one of an earlier column
        let columns = self.ready();
        let prepared = self.prepared();
        let own = &columns[column];
        let rows = run.drawn_rows(count);
        let after = match &own.kind {
            ReadyKind::Drawn(_) => return prepared[column].put_days(own, rows, drawn, days),
            ReadyKind::Lookup(lookup) => {
                return self.put_shown_days(column, lookup, at, run, count, drawn, days);
            }
            ReadyKind::After(after) => after,
            _ => return false,
        };
        let of = after.of as usize;
        if columns[of].null > 0 || !self.put_days(of, at, run, count, drawn, days, more) {
            return false;
        }
        prepared[column].put_days_after(own.changes, after, rows, drawn, more);
        add_all(days, more);
        true
    }
}

/// Adds to each number the one at the same place of another list. Each sum must be in the range from -(2^63 - 1) to 2^63 - 1.
fn add_all(numbers: &mut [i64], more: &[i64])
    requires lengths { length more.now ≡ length numbers.old }
    requires range { (i : ℕ) → i < length numbers.old → IsInRange (get_or numbers.old i (pos 0) +ℤ get_or more.now i (pos 0)) }
    ensures { (i : ℕ) → i < length numbers.old → get_or numbers.new i (pos 0) ≡ get_or numbers.old i (pos 0) +ℤ get_or more.now i (pos 0) }
{
    for (i, number) in numbers.iter_mut().enumerate() {
        *number += more[i];
    }
}
