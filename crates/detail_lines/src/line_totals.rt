//! The sums and the products of lines side by side, as pieces.

ghost use Rattle.std.specs.Prelude.{◌≡◌, ◌<◌, ◌≤◌, length, true};
ghost use Rattle.schema_facts.specs.FactsBefore.{facts_among};
ghost use Rattle.row_lines.specs.TableLines.{are_small};
ghost use Rattle.detail_lines.specs.LineRuns.{AreFields, AreLines, AreTotals, IsTotalAt, digits_over, total_kind};
ghost use Rattle.detail_lines.specs.Made.{IsParentAt, own_over, ready_over};

use crate::detail_lines::{DetailLines, ParentAt, byte_behind};
use crate::line_run::LineRun;
use draw_values::{RunNumbers, fill_numbers};
use line_pages::Piece;
use row_lines::{Join, are_small, join_all, start_of};

impl<'a> DetailLines<'a> {
    /// Makes the fields of lines in the column at a place, which must be a sum or a product of the columns `of`. Returns false if it can't: if
    /// an operand can be null or isn't drawn, or a total can have more than 13 digits.
    pub(crate) fn put_totals(
        &self,
        column: usize,
        of: &[u64],
        join: Join,
        at: &ParentAt<'_>,
        run: &LineRun<'_>,
        count: usize,
        drawn: &mut RunNumbers,
        totals: &mut [i64],
        operands: &mut [i64],
        pieces: &mut [Piece],
    ) -> bool
        requires column { column < own_over self.now }
        requires total { (ready_over self.now column).kind ≡ total_kind join of.now }
        requires at { IsParentAt self.now at.now }
        requires lines { AreLines self.now at.now.unit count run.now }
        requires totals { length totals.old ≡ count }
        requires operands { length operands.old ≡ count }
        requires pieces { length pieces.old ≡ count }
        ensures { result ≡ true → AreFields self.now at.now.unit count run.now pieces.new 0 column }
    {
        if !are_small(self.facts(column).numbers) {
            return false;
        }
        if !self.join_columns(column, of, join, at, run, count, drawn, totals, operands) {
            return false;
        }
        self.put_totals_of(column, at, run, count, drawn, totals, pieces);
        true
    }

    /// Joins the operands of a sum or a product for all lines at once. Returns false if it can't: if an operand can be null or isn't drawn. If a
    /// field of the column itself is null, its total is the one that it would hold.
    fn join_columns(
        &self,
        column: usize,
        of: &[u64],
        join: Join,
        at: &ParentAt<'_>,
        run: &LineRun<'_>,
        count: usize,
        drawn: &mut RunNumbers,
        totals: &mut [i64],
        operands: &mut [i64],
    ) -> bool
        requires column { column < own_over self.now }
        requires total { (ready_over self.now column).kind ≡ total_kind join of.now }
        requires at { IsParentAt self.now at.now }
        requires lines { AreLines self.now at.now.unit count run.now }
        requires totals { length totals.old ≡ count }
        requires operands { length operands.old ≡ count }
        ensures { result ≡ true → AreTotals self.now at.now.unit count run.now totals.new column }
    {
        let _ = at;
        let columns = self.ready();
        let prepared = self.prepared();
        let rows = run.drawn_rows(count);
        let start = start_of(join, self.decimals(column));
        totals.fill(start.value);
        for place in of {
            let place = *place as usize;
            let own = &columns[place];
            if own.null > 0 {
                return false;
            }
            let Some(decimals) = prepared[place].put_numbers(own, rows, drawn, operands) else {
                return false;
            };
            let more = start.decimals.saturating_sub(decimals);
            join_all(join, more, totals, operands);
        }
        true
    }

    /// Makes the fields of lines in the column at a place, which must be a sum or a product, from the totals of the lines.
    fn put_totals_of(
        &self,
        column: usize,
        at: &ParentAt<'_>,
        run: &LineRun<'_>,
        count: usize,
        drawn: &mut RunNumbers,
        totals: &[i64],
        pieces: &mut [Piece],
    )
        requires column { column < own_over self.now }
        requires total { IsTotalAt self.now column }
        requires small { are_small (facts_among self.now.kept.facts column).numbers ≡ true }
        requires at { IsParentAt self.now at.now }
        requires lines { AreLines self.now at.now.unit count run.now }
        requires totals { AreTotals self.now at.now.unit count run.now totals.now column }
        requires same { length totals.now ≡ count }
        requires pieces { length pieces.old ≡ count }
        ensures { AreFields self.now at.now.unit count run.now pieces.new 0 column }
    {
        let _ = at;
        let columns = self.ready();
        let prepared = self.prepared();
        let decimals = self.decimals(column);
        let behind = byte_behind(self.delimiter(), self.columns(), column);
        fill_numbers(self.digits(), totals, decimals, behind, pieces);
        prepared[column].null_out(&columns[column], run.drawn_rows(count), drawn, pieces);
    }

    /// Returns how many digits stand after the point of the numbers of the column at a place, which must be a sum or a product.
    fn decimals(&self, column: usize) -> u32
        requires column { column < own_over self.now }
        requires total { IsTotalAt self.now column }
        ensures digits { result ≡ digits_over self.now column }
        ensures few { result ≤ 9 }
    {
        let _limits = self.ready(); // a total has at most 9 digits after the point
        match self.facts(column).numbers {
            Some(numbers) => numbers.decimals as u32,
            None => 0,
        }
    }
}
