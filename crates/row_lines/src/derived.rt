//! The days and the numbers of a row from which dates after dates, sums and products are made. They are read as they are drawn, through
//! other columns of the row and through rows of earlier tables, and never from a text.

ghost use Rattle.std.specs.Prelude.{◌≡◌, ◌<◌, ◌≤◌, ℕ, ◌+◌, ◌++◌, IfSome, Some, is_some, length, map, sum_by, true};
ghost use Rattle.std.specs.List.{fold};
ghost use Rattle.cohort_sizes.specs.Births.{cohort_size};
ghost use Rattle.schema_facts.specs.ColumnFacts.{field_cost, field_facts};
ghost use Rattle.schema_facts.specs.Ends.{IsInRange};
ghost use Rattle.schema_facts.specs.FieldCosts.{choice_cost_of};
ghost use Rattle.schema_facts.specs.FieldSizes.{greatest_by};
ghost use Rattle.schema_facts.specs.Layout.{column_at, layout_of};
ghost use Rattle.draw_values.specs.CohortValues.{IsDayOf, IsNumberOf};
ghost use Rattle.draw_values.specs.Values.{put_of};
ghost use Rattle.row_lines.specs.CohortLines.{LinesOf, layout_for, values_at};
ghost use Rattle.row_lines.specs.Derived.{columns_before, decimals_of, with_operand};
ghost use Rattle.row_lines.specs.Lookups.{IsLookupOf};
ghost use Rattle.row_lines.specs.Parts.{cited_for, cited_size, cited_text};
ghost use Rattle.row_lines.specs.Totals.{IsDated, IsParentOf, IsTotalOf, day_for, digits_for, is_total, join_of, joined_operand, number_for, operands_for, start_of};

use crate::cohort_fields::CohortFields;
use draw_values::{CohortValues, Number, Put, put_date, put_number};
use life_intervals::{birth, cohort};
use line_pages::PageBuf;
use schema_plan::{ReadyKind, ReadyLookup};
use std::sync::ledger::Ledger;
use step_count::Steps;

/// How the operands of a total are joined.
#[derive(Clone, Copy, Debug, PartialEq, Eq)]
pub enum Join {
    /// They are added.
    Sum,
    /// They are multiplied.
    Product,
}

/// A row of an earlier table, to read columns that don't move.
#[derive(Drop)]
pub(crate) struct ParentRow<'a> {
    fields: CohortFields<'a>,
    values: CohortValues<'a>,
    index: u64,
}

impl<'a> CohortFields<'a> {
    /// Returns the parent's row that the lookup in the column at a place shows.
    fn parent_row<L: Ledger>(
        &self,
        column: usize,
        lookup: &ReadyLookup,
        index: u64,
        steps: &mut Steps<L>,
    ) -> ParentRow<'a>
        requires lookup { IsLookupOf self.now column lookup.now }
        requires row { index < cohort_size (layout_for self.now).births self.now.born }
        ensures row { IsParentOf self.now index lookup.now result }
        ensures steps { steps.new ≤ steps.old + choice_cost_of (column_at (layout_for self.now).columns lookup.now.via).kind }
    {
        let plan = self.rows.plan();
        let _limits = plan.schema(); // lookups are within their limits
        let columns = self.columns;
        let ReadyKind::Reference(reference) = &columns[lookup.via as usize].kind else {
            unreachable!();
        };
        let ordinal = self.parent(lookup.via as u32, reference, index, steps);
        let born = birth(plan, lookup.parent, ordinal);
        ParentRow {
            fields: CohortFields::new(self.rows, lookup.parent, born, self.unit),
            values: CohortValues::new(plan, lookup.parent, born, born),
            index: ordinal - cohort(plan, lookup.parent, born).first,
        }
    }

    /// Returns the day that the row shows in the column at a place. Returns None if the field is null or the column isn't dated.
    pub(crate) fn day<L: Ledger>(
        &self,
        column: usize,
        index: u64,
        values: &CohortValues<'_>,
        steps: &mut Steps<L>,
    ) -> Option<i64>
        requires column { column < length (layout_for self.now).columns }
        requires row { index < cohort_size (layout_for self.now).births self.now.born }
        requires values { values.now ≡ values_at self.now values.now.changed }
        ensures day { (n : ℕ) → columns_before self.now.table column < n → result ≡ day_for self.now index values.now.changed n column }
        ensures within { IfSome result (IsDayOf (field_facts (layout_of self.now.plan) self.now.table column).days) }
        ensures steps { steps.new ≤ steps.old + field_cost (layout_of self.now.plan) self.now.table column }
    {
        let ordinal = self.ordinal(index);
        if values.is_null(column, ordinal) {
            return None;
        }
        let columns = self.columns;
        match &columns[column].kind {
            ReadyKind::After(after) => {
                let earlier = self.day(after.of as usize, index, values, steps)?;
                Some(earlier + values.days_after(column, after, ordinal))
            }
            ReadyKind::Lookup(lookup) => {
                let parent = self.parent_row(column, lookup, index, steps);
                let shown = lookup.column as usize;
                parent
                    .fields
                    .day(shown, parent.index, &parent.values, steps)
            }
            _ => values.day(column, ordinal),
        }
    }

    /// Returns the number that the row holds in the column at a place. Returns None if the field is null or the column isn't numeric.
    #[cycle(numbers)]
    pub(crate) fn number<L: Ledger>(
        &self,
        column: usize,
        index: u64,
        values: &CohortValues<'_>,
        steps: &mut Steps<L>,
    ) -> Option<Number>
        requires column { column < length (layout_for self.now).columns }
        requires row { index < cohort_size (layout_for self.now).births self.now.born }
        requires values { values.now ≡ values_at self.now values.now.changed }
        ensures number { (n : ℕ) → columns_before self.now.table column < n → result ≡ number_for self.now index values.now.changed n column }
        ensures within { IfSome result (IsNumberOf (field_facts (layout_of self.now.plan) self.now.table column).numbers) }
        ensures steps { steps.new ≤ steps.old + field_cost (layout_of self.now.plan) self.now.table column }
    {
        let ordinal = self.ordinal(index);
        if values.is_null(column, ordinal) {
            return None;
        }
        let columns = self.columns;
        match &columns[column].kind {
            ReadyKind::Sum { of } => {
                self.total(column, of.as_slice(), Join::Sum, index, values, steps)
            }
            ReadyKind::Product { of } => {
                self.total(column, of.as_slice(), Join::Product, index, values, steps)
            }
            ReadyKind::Lookup(lookup) => {
                let parent = self.parent_row(column, lookup, index, steps);
                let shown = lookup.column as usize;
                parent
                    .fields
                    .number(shown, parent.index, &parent.values, steps)
            }
            _ => values.number(column, ordinal),
        }
    }

    /// Returns what the operands of a sum or a product in the column at a place come to. Returns None if one of them is null.
    #[cycle(numbers)]
    fn total<L: Ledger>(
        &self,
        column: usize,
        of: &[u64],
        join: Join,
        index: u64,
        values: &CohortValues<'_>,
        steps: &mut Steps<L>,
    ) -> Option<Number>
        requires total { IsTotalOf self.now column of.now join }
        requires row { index < cohort_size (layout_for self.now).births self.now.born }
        requires values { values.now ≡ values_at self.now values.now.changed }
        ensures total { (n : ℕ) → columns_before self.now.table column ≤ n →
            result ≡ fold (with_operand (join_of join)) (Some (start_of join (digits_for self.now of.now))) (operands_for self.now index values.now.changed n of.now) }
        ensures digits { is_some result ≡ true → (n : ℕ) → columns_before self.now.table column ≤ n →
            greatest_by decimals_of (operands_for self.now index values.now.changed n of.now) ≡ digits_for self.now of.now }
        ensures within { IfSome result (IsNumberOf (field_facts (layout_of self.now.plan) self.now.table column).numbers) }
        ensures steps { steps.new ≤ steps.old + sum_by (field_cost (layout_of self.now.plan) self.now.table) of.now }
    {
        let mut total = self.start(column, of, join);
        for operand in of {
            let operand = self.number(*operand as usize, index, values, steps)?;
            total = joined(join, total, operand);
        }
        Some(total)
    }

    /// Returns the number from which the operands of the total in the column at a place are joined. A sum has the most digits after the
    /// point of any operand.
    pub(crate) fn start(&self, column: usize, of: &[u64], join: Join) -> Number
        requires { IsTotalOf self.now column of.now join }
        ensures { result ≡ start_of join (digits_for self.now of.now) }
    {
        match join {
            Join::Sum => start_of(join, self.decimals(column)),
            Join::Product => start_of(join, 0),
        }
    }

    /// Returns how many digits stand after the point of the numbers of the column at a place, which must be a total.
    fn decimals(&self, column: usize) -> u32
        requires { IfSome (field_facts (layout_of self.now.plan) self.now.table column).numbers (λ numbers. numbers.decimals ≤ 9) }
        ensures { IfSome (field_facts (layout_of self.now.plan) self.now.table column).numbers (λ numbers. result ≡ numbers.decimals) }
    {
        match self.rows.plan().numbers(self.table, column) {
            Some(numbers) => numbers.decimals as u32,
            None => 0,
        }
    }

    /// Appends the date of the column at a place, which must be one of dates after dates. A null field appends nothing.
    pub(crate) fn put_day<L: Ledger>(
        &self,
        column: usize,
        index: u64,
        values: &CohortValues<'_>,
        buf: &mut PageBuf,
        steps: &mut Steps<L>,
    ) -> Put
        requires column { column < length (layout_for self.now).columns }
        requires dated { IsDated (column_at (layout_for self.now).columns column).kind }
        requires row { index < cohort_size (layout_for self.now).births self.now.born }
        requires values { values.now ≡ values_at self.now values.now.changed }
        requires room { length buf.old.text + cited_size self.now column ≤ buf.old.room }
        ensures put { result ≡ put_of (cited_for self.now index values.now.changed column) }
        ensures text { buf.new ≡ record buf.old { text = buf.old.text ++ cited_text self.now index values.now.changed column } }
        ensures size { length (cited_text self.now index values.now.changed column) ≤ cited_size self.now column }
        ensures steps { steps.new ≤ steps.old + field_cost (layout_of self.now.plan) self.now.table column }
    {
        let _limits = self.rows.plan().schema(); // such dates are of the calendar
        match self.day(column, index, values, steps) {
            Some(day) => {
                put_date(day, buf);
                Put::Text
            }
            None => Put::Null,
        }
    }

    /// Appends the number of the column at a place, which must be a sum or a product. A null field appends nothing.
    pub(crate) fn put_total<L: Ledger>(
        &self,
        column: usize,
        index: u64,
        values: &CohortValues<'_>,
        buf: &mut PageBuf,
        steps: &mut Steps<L>,
    ) -> Put
        requires column { column < length (layout_for self.now).columns }
        requires total { is_total (column_at (layout_for self.now).columns column).kind ≡ true }
        requires row { index < cohort_size (layout_for self.now).births self.now.born }
        requires values { values.now ≡ values_at self.now values.now.changed }
        requires room { length buf.old.text + cited_size self.now column ≤ buf.old.room }
        ensures put { result ≡ put_of (cited_for self.now index values.now.changed column) }
        ensures text { buf.new ≡ record buf.old { text = buf.old.text ++ cited_text self.now index values.now.changed column } }
        ensures size { length (cited_text self.now index values.now.changed column) ≤ cited_size self.now column }
        ensures steps { steps.new ≤ steps.old + field_cost (layout_of self.now.plan) self.now.table column }
    {
        let _limits = self.rows.plan().schema(); // totals have at most 9 digits after the point
        match self.number(column, index, values, steps) {
            Some(number) => {
                put_number(number, buf);
                Put::Text
            }
            None => Put::Null,
        }
    }
}

/// Returns the number from which the operands of a total are joined. `digits` is the most digits after the point of any operand, which a sum
/// has too.
pub fn start_of(join: Join, digits: u32) -> Number
    ensures { result ≡ start_of join digits }
{
    match join {
        Join::Sum => Number {
            value: 0,
            decimals: digits,
        },
        Join::Product => Number {
            value: 1,
            decimals: 0,
        },
    }
}

/// Joins a total so far with one more operand. What it comes to must have at most 9 digits after the point, and it and the operand, with
/// the digits of a sum, must be in the range from -(2^63 - 1) to 2^63 - 1.
pub fn joined(join: Join, so_far: Number, operand: Number) -> Number
    requires decimals { (join_of join so_far operand).decimals ≤ 9 }
    requires operand { IsInRange (joined_operand join so_far operand) }
    requires total { IsInRange (join_of join so_far operand).value }
    ensures { result ≡ join_of join so_far operand }
{
    match join {
        Join::Sum => {
            let more = so_far.decimals.saturating_sub(operand.decimals);
            Number {
                value: so_far.value + operand.value * 10i64.pow(more),
                decimals: so_far.decimals,
            }
        }
        Join::Product => Number {
            value: so_far.value * operand.value,
            decimals: so_far.decimals + operand.decimals,
        },
    }
}
