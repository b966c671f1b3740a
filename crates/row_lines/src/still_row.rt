//! A row, to read its columns that don't move and are no lookups.

ghost use Rattle.std.specs.Prelude.{◌≡◌, ◌<◌, ◌≤◌, ◌+◌, ◌++◌, IfSome, length};
ghost use Rattle.cohort_sizes.specs.Births.{LiesIn};
ghost use Rattle.schema_facts.specs.ColumnFacts.{field_cost, field_facts};
ghost use Rattle.schema_facts.specs.FieldSizes.{size_at};
ghost use Rattle.schema_facts.specs.Layout.{layout_of};
ghost use Rattle.schema_plan.specs.Limits.{IsStillColumn};
ghost use Rattle.draw_values.specs.CohortValues.{IsDayOf, IsNumberOf};
ghost use Rattle.life_intervals.specs.Generator.{last_unit, table_of};
ghost use Rattle.row_lines.specs.Lookups.{day_held, number_held, text_held};

use crate::cohort_fields::CohortFields;
use draw_values::{CohortValues, Number};
use life_intervals::{Rows, cohort};
use line_pages::PageBuf;
use std::marker::Model;
use std::sync::ledger::Ledger;
use step_count::Steps;

/// A row of a table at a unit, to read its columns that don't move and are no lookups. A contract sees the plan, the table, the unit and the
/// row's ordinal.
#[derive(Drop)]
pub struct StillRow<'a> {
    fields: CohortFields<'a>,
    values: CohortValues<'a>,
    index: u64,
}

impl<'a> Model for StillRow<'a> {
    ghost use Rattle.row_lines.specs.CohortLines.{ordinal_of};
    ghost use Rattle.row_lines.specs.Lookups.{IsStillRow, StillRowOf};

    ghost Value = { StillRowOf };

    ghost view = { λ r. record { plan = r.fields.plan; table = r.fields.table; unit = r.fields.unit; ordinal = ordinal_of r.fields r.index } };

    ghost invariant = { λ r. IsStillRow r.fields r.values r.index };
}

impl<'a> StillRow<'a> {
    /// Returns the row of an ordinal that is born at unit `born`, as it is at `unit`.
    #[inline(always)]
    pub fn new(rows: &'a Rows<'a>, table: u32, ordinal: u64, born: u64, unit: u64) -> StillRow<'a>
        requires table { table < length rows.now.schema.tables }
        requires lies { LiesIn (table_of rows.now table).births born ordinal }
        requires born { born ≤ unit }
        requires unit { unit ≤ last_unit rows.now }
        ensures { result ≡ record { plan = rows.now; table = table; unit = unit; ordinal = ordinal } }
    {
        let plan = rows.plan();
        let _limits = plan.schema(); // each table is within its limits
        StillRow {
            fields: CohortFields::new(rows, table, born, unit),
            values: CohortValues::new(plan, table, born, born),
            index: ordinal - cohort(plan, table, born).first,
        }
    }

    /// Appends the field of the column at a place. Its greatest size must be free.
    #[inline(always)]
    pub fn put<L: Ledger>(&self, column: usize, buf: &mut PageBuf, steps: &mut Steps<L>)
        requires column { IsStillColumn (table_of self.now.plan self.now.table) column }
        requires room { length buf.old.text + size_at (layout_of self.now.plan).delimiter (table_of self.now.plan self.now.table).columns column ≤ buf.old.room }
        ensures text { buf.new ≡ record buf.old { text = buf.old.text ++ text_held self.now.plan self.now.table self.now.unit self.now.ordinal column } }
        ensures size { length (text_held self.now.plan self.now.table self.now.unit self.now.ordinal column) ≤ size_at (layout_of self.now.plan).delimiter (table_of self.now.plan self.now.table).columns column }
        ensures steps { steps.new ≤ steps.old + field_cost (layout_of self.now.plan) self.now.table column }
    {
        self.fields
            .put(column, self.index, None, &self.values, buf, steps);
    }

    /// Returns the day that the row shows in the column at a place. Returns None if the field is null or the column isn't dated.
    pub fn day<L: Ledger>(&self, column: usize, steps: &mut Steps<L>) -> Option<i64>
        requires { IsStillColumn (table_of self.now.plan self.now.table) column }
        ensures day { result ≡ day_held self.now.plan self.now.table self.now.unit self.now.ordinal column }
        ensures within { IfSome result (IsDayOf (field_facts (layout_of self.now.plan) self.now.table column).days) }
        ensures steps { steps.new ≤ steps.old + field_cost (layout_of self.now.plan) self.now.table column }
    {
        self.fields.day(column, self.index, &self.values, steps)
    }

    /// Returns the number that the row holds in the column at a place. Returns None if the field is null or the column isn't numeric.
    pub fn number<L: Ledger>(&self, column: usize, steps: &mut Steps<L>) -> Option<Number>
        requires { IsStillColumn (table_of self.now.plan self.now.table) column }
        ensures number { result ≡ number_held self.now.plan self.now.table self.now.unit self.now.ordinal column }
        ensures within { IfSome result (IsNumberOf (field_facts (layout_of self.now.plan) self.now.table column).numbers) }
        ensures steps { steps.new ≤ steps.old + field_cost (layout_of self.now.plan) self.now.table column }
    {
        self.fields.number(column, self.index, &self.values, steps)
    }
}
