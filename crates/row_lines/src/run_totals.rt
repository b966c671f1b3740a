//! The sums and the products of a run's rows, as pieces.

ghost use Rattle.std.specs.Prelude.{◌≡◌, ◌<◌, ◌≤◌, ℕ, ◌+◌, ◌*◌, ◌+ℤ◌, ◌*ℤ◌, IfSome, get_or, is_some, length, pos, true};
ghost use Rattle.schema_facts.specs.ColumnFacts.{field_facts};
ghost use Rattle.schema_facts.specs.Ends.{IsInRange};
ghost use Rattle.schema_facts.specs.Layout.{column_at, layout_of};
ghost use Rattle.draw_values.specs.CohortValues.{IsNumberOf};
ghost use Rattle.row_lines.specs.RunFields.{AreMade, AreRowsOf, asked_for};
ghost use Rattle.row_lines.specs.RunValues.{AreTold, AreTotals, digits_in, value_of};
ghost use Rattle.row_lines.specs.Runs.{layout_for, text_at};
ghost use Rattle.row_lines.specs.TableLines.{are_small, behind_of};
ghost use Rattle.row_lines.specs.Totals.{is_total, joined_by, operand_by, total_kind, total_text};

use crate::bytes::null_piece;
use crate::cohort_fields::CohortFields;
use crate::cohort_lines::CohortLines;
use crate::derived::Join;
use crate::run_buf::ValueBuf;
use crate::run_columns::put_nulls;
use crate::runs::RunLines;
use draw_values::{CohortValues, Number, RunNumbers, RunRows, fill_numbers};
use life_intervals::cohort;
use line_pages::Piece;
use std::sync::ledger::Ledger;
use step_count::Steps;

impl<'a> RunLines<'a> {
    /// Makes the fields of the column at a place, which must be a sum or a product of the columns `of`, with numbers of at most 13
    /// digits.
    pub(crate) fn put_totals<L: Ledger>(
        &self,
        column: usize,
        of: &[u64],
        join: Join,
        rows: RunRows<'_>,
        live: &mut [bool],
        behind: u8,
        numbers: &mut RunNumbers,
        values: &mut ValueBuf,
        pieces: &mut [Piece],
        steps: &mut Steps<L>,
    )
        requires column { column < length (layout_for self.now).columns }
        requires total { (column_at (layout_for self.now).columns column).kind ≡ total_kind join of.now }
        requires small { are_small (field_facts (layout_of self.now.plan) self.now.table column).numbers ≡ true }
        requires behind { behind ≡ behind_of self.now.plan self.now.table column }
        requires rows { AreRowsOf self.now rows }
        requires live { length live.old ≡ length rows.ordinals.now }
        requires pieces { length pieces.old ≡ length rows.ordinals.now }
        ensures made { AreMade self.now rows.entry.ordinals.now pieces.new 0 column }
        ensures steps { steps.new ≤ steps.old + length rows.entry.ordinals.now * asked_for self.now column }
    {
        let count = rows.ordinals.len();
        let all_totals = &mut values.values[..];
        let all_operands = &mut values.operands[..];
        let totals = &mut all_totals[..count];
        let operands = &mut all_operands[..count];
        if self.join_columns(column, of, join, rows, numbers, totals, operands) {
            self.put_totals_of(column, rows, totals, behind, numbers, pieces);
        } else {
            self.put_each_total(column, rows, totals, live, behind, pieces, steps);
        }
    }

    /// Joins the operands of a sum or a product for all rows at once. Returns false if it can't: if an operand can be null or isn't
    /// drawn. If a field of the column itself is null, its total is the one that it would hold.
    fn join_columns(
        &self,
        column: usize,
        of: &[u64],
        join: Join,
        rows: RunRows<'_>,
        numbers: &mut RunNumbers,
        totals: &mut [i64],
        operands: &mut [i64],
    ) -> bool
        requires column { column < length (layout_for self.now).columns }
        requires total { (column_at (layout_for self.now).columns column).kind ≡ total_kind join of.now }
        requires rows { AreRowsOf self.now rows }
        requires totals { length totals.old ≡ length rows.ordinals.now }
        requires operands { length operands.old ≡ length rows.ordinals.now }
        ensures { result ≡ true → AreTotals self.now rows.entry.ordinals.now totals.new column }
    {
        let plan = self.rows.plan();
        let columns = plan.columns(self.table);
        let own = self.lines.columns();
        let fields = CohortFields::new(self.rows, self.table, 0, self.unit);
        let start = fields.start(column, of, join);
        totals.fill(start.value);
        for place in of {
            let place = *place as usize;
            if columns[place].null > 0 {
                return false;
            }
            let Some(decimals) = own[place].put_numbers(plan, rows, numbers, operands) else {
                return false;
            };
            let more = start.decimals.saturating_sub(decimals);
            join_all(join, more, totals, operands);
        }
        true
    }

    /// Makes the fields of the column at a place, which must be a sum or a product, from the totals of the rows.
    fn put_totals_of(
        &self,
        column: usize,
        rows: RunRows<'_>,
        totals: &[i64],
        behind: u8,
        numbers: &mut RunNumbers,
        pieces: &mut [Piece],
    )
        requires column { column < length (layout_for self.now).columns }
        requires total { is_total (column_at (layout_for self.now).columns column).kind ≡ true }
        requires small { are_small (field_facts (layout_of self.now.plan) self.now.table column).numbers ≡ true }
        requires behind { behind ≡ behind_of self.now.plan self.now.table column }
        requires rows { AreRowsOf self.now rows }
        requires totals { AreTotals self.now rows.ordinals.now totals.now column }
        requires same { length totals.now ≡ length rows.ordinals.now }
        requires pieces { length pieces.old ≡ length rows.ordinals.now }
        ensures { AreMade self.now rows.entry.ordinals.now pieces.new 0 column }
    {
        let decimals = self.decimals(column);
        fill_numbers(self.digits, totals, decimals, behind, pieces);
        let own = self.lines.columns();
        own[column].null_out(self.rows.plan(), rows, numbers, pieces);
    }

    /// Returns how many digits stand after the point of the numbers of the column at a place, which must be a sum or a product.
    fn decimals(&self, column: usize) -> u32
        requires column { column < length (layout_for self.now).columns }
        requires total { is_total (column_at (layout_for self.now).columns column).kind ≡ true }
        ensures digits { result ≡ digits_in self.now column }
        ensures few { result ≤ 9 }
    {
        match self.rows.plan().numbers(self.table, column) {
            Some(numbers) => numbers.decimals as u32,
            None => 0,
        }
    }

    /// Makes the fields of the column at a place, which must be a sum or a product, row by row.
    fn put_each_total<L: Ledger>(
        &self,
        column: usize,
        rows: RunRows<'_>,
        totals: &mut [i64],
        live: &mut [bool],
        behind: u8,
        pieces: &mut [Piece],
        steps: &mut Steps<L>,
    )
        requires column { column < length (layout_for self.now).columns }
        requires total { is_total (column_at (layout_for self.now).columns column).kind ≡ true }
        requires small { are_small (field_facts (layout_of self.now.plan) self.now.table column).numbers ≡ true }
        requires behind { behind ≡ behind_of self.now.plan self.now.table column }
        requires rows { AreRowsOf self.now rows }
        requires totals { length totals.old ≡ length rows.ordinals.now }
        requires live { length live.old ≡ length rows.ordinals.now }
        requires pieces { length pieces.old ≡ length rows.ordinals.now }
        ensures made { AreMade self.now rows.entry.ordinals.now pieces.new 0 column }
        ensures steps { steps.new ≤ steps.old + length rows.entry.ordinals.now * asked_for self.now column }
    {
        self.find_totals(column, rows, totals, live, steps);
        let decimals = self.decimals(column);
        fill_numbers(self.digits, totals, decimals, behind, pieces);
        put_nulls(live, null_piece(behind), pieces);
    }

    /// Finds what the rows hold in the column at a place, which must be a sum or a product, row by row. `live` tells which rows hold
    /// a number. The total of any other row is 0.
    fn find_totals<L: Ledger>(
        &self,
        column: usize,
        rows: RunRows<'_>,
        totals: &mut [i64],
        live: &mut [bool],
        steps: &mut Steps<L>,
    )
        requires column { column < length (layout_for self.now).columns }
        requires total { is_total (column_at (layout_for self.now).columns column).kind ≡ true }
        requires small { are_small (field_facts (layout_of self.now.plan) self.now.table column).numbers ≡ true }
        requires rows { AreRowsOf self.now rows }
        requires totals { length totals.old ≡ length rows.ordinals.now }
        requires live { length live.old ≡ length rows.ordinals.now }
        ensures told { AreTold self.now rows.entry.ordinals.now live.new totals.new column }
        ensures steps { steps.new ≤ steps.old + length rows.entry.ordinals.now * asked_for self.now column }
    {
        let mut lines = CohortLines::new(self.rows, self.table, 0, self.unit);
        for row in 0..rows.ordinals.len() {
            self.turn_to(rows.births[row], &mut lines);
            let (held, value) = told(self.total_at(column, row, rows, &lines, steps));
            live[row] = held;
            totals[row] = value;
        }
    }

    /// Returns the number that a row holds in the column at a place, which must be a sum or a product. Returns None if the field is
    /// null. `lines` are those of the row's cohort.
    #[inline(always)]
    fn total_at<L: Ledger>(
        &self,
        column: usize,
        row: usize,
        rows: RunRows<'_>,
        lines: &CohortLines<'_>,
        steps: &mut Steps<L>,
    ) -> Option<Number>
        requires column { column < length (layout_for self.now).columns }
        requires total { is_total (column_at (layout_for self.now).columns column).kind ≡ true }
        requires row { row < length rows.ordinals.now }
        requires rows { AreRowsOf self.now rows }
        requires lines { lines.now ≡ record { plan = self.now.plan; table = self.now.table; born = get_or rows.births.now row 0; unit = self.now.unit } }
        ensures text { text_at self.now (get_or rows.entry.ordinals.now row 0) column ≡ total_text result }
        ensures within { IfSome result (IsNumberOf (field_facts (layout_of self.now.plan) self.now.table column).numbers) }
        ensures steps { steps.new ≤ steps.old + asked_for self.now column }
    {
        let plan = self.rows.plan();
        let (born, changed) = (rows.births[row], rows.changes[row]);
        let index = rows.ordinals[row] - cohort(plan, self.table, born).first;
        let columns = self.lines.columns();
        let values = CohortValues::kept(plan, self.table, columns, born, changed);
        lines.total(column, index, &values, steps)
    }
}

/// Returns whether there is a number, and its value, or else 0.
fn told(number: Option<Number>) -> (bool, i64)
    ensures held { result.0 ≡ is_some number }
    ensures value { result.1 ≡ value_of number }
{
    match number {
        Some(number) => (true, number.value),
        None => (false, 0),
    }
}

/// Joins each total so far with one more operand, which takes so many more digits in a sum, at most 9. The operands, also with these
/// digits, and the totals, so far and with the operands, must be in the range from -(2^63 - 1) to 2^63 - 1.
pub fn join_all(join: Join, more: u32, totals: &mut [i64], operands: &[i64])
    requires more { more ≤ 9 }
    requires lengths { length operands.now ≡ length totals.old }
    requires so_far { (i : ℕ) → i < length totals.old → IsInRange (get_or totals.old i (pos 0)) }
    requires operands { (i : ℕ) → i < length totals.old → IsInRange (get_or operands.now i (pos 0)) }
    requires scaled { (i : ℕ) → i < length totals.old → IsInRange (operand_by join more (get_or operands.now i (pos 0))) }
    requires total { (i : ℕ) → i < length totals.old → IsInRange (joined_by join more (get_or totals.old i (pos 0)) (get_or operands.now i (pos 0))) }
    ensures { (i : ℕ) → i < length totals.old → get_or totals.new i (pos 0) ≡ joined_by join more (get_or totals.old i (pos 0)) (get_or operands.now i (pos 0)) }
{
    match join {
        Join::Sum => add_scaled(10i64.pow(more), totals, operands),
        Join::Product => multiply_all(totals, operands),
    }
}

/// Adds to each total the operand at the same place times a factor.
fn add_scaled(factor: i64, totals: &mut [i64], operands: &[i64])
    requires lengths { length operands.now ≡ length totals.old }
    requires so_far { (i : ℕ) → i < length totals.old → IsInRange (get_or totals.old i (pos 0)) }
    requires operands { (i : ℕ) → i < length totals.old → IsInRange (get_or operands.now i (pos 0)) }
    requires scaled { (i : ℕ) → i < length totals.old → IsInRange (get_or operands.now i (pos 0) *ℤ factor) }
    requires total { (i : ℕ) → i < length totals.old → IsInRange (get_or totals.old i (pos 0) +ℤ get_or operands.now i (pos 0) *ℤ factor) }
    ensures { (i : ℕ) → i < length totals.old → get_or totals.new i (pos 0) ≡ get_or totals.old i (pos 0) +ℤ get_or operands.now i (pos 0) *ℤ factor }
{
    for (i, total) in totals.iter_mut().enumerate() {
        *total += operands[i] * factor;
    }
}

/// Multiplies each total by the operand at the same place.
fn multiply_all(totals: &mut [i64], operands: &[i64])
    requires lengths { length operands.now ≡ length totals.old }
    requires so_far { (i : ℕ) → i < length totals.old → IsInRange (get_or totals.old i (pos 0)) }
    requires operands { (i : ℕ) → i < length totals.old → IsInRange (get_or operands.now i (pos 0)) }
    requires total { (i : ℕ) → i < length totals.old → IsInRange (get_or totals.old i (pos 0) *ℤ get_or operands.now i (pos 0)) }
    ensures { (i : ℕ) → i < length totals.old → get_or totals.new i (pos 0) ≡ get_or totals.old i (pos 0) *ℤ get_or operands.now i (pos 0) }
{
    for (i, total) in totals.iter_mut().enumerate() {
        *total *= operands[i];
    }
}
