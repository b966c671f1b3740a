//! The values of the rows with one unit of birth and one unit of last change. What doesn't change from row to row is worked out
//! once.

ghost use Rattle.std.specs.Prelude.{◌≡◌, ◌<◌, ◌≤◌, ℕ, ◌+◌, ◌++◌, IfSome, true, length, map, slice_index};
ghost use Rattle.philox_seeds.specs.SeedTree.{unit_seed as unit_seed_of};
ghost use Rattle.row_text.specs.Fields.{field_text};
ghost use Rattle.schema_facts.specs.Choices.{choices};
ghost use Rattle.schema_facts.specs.Ends.{IsBetween};
ghost use Rattle.schema_facts.specs.Layout.{column_at, layout_of};
ghost use Rattle.schema_plan.specs.Limits.{IsAfterRange};
ghost use Rattle.draw_values.specs.CohortValues.{IsDayOf, IsNumberOf, day_for, facts_for, is_null_for, number_for, table_for, row_for, value_size_for, value_for};
ghost use Rattle.draw_values.specs.ReadyValues.{row_draws};
ghost use Rattle.draw_values.specs.Runs.{AreColumnsOf, RunColumnOf};
ghost use Rattle.draw_values.specs.Values.{chosen, draws_at, is_own, put_of, written};

use crate::Put;
use crate::fields::{Drawn, chooser_of, is_null, put_field};
use crate::leaf_numbers::{Number, days_after, own_day, own_number};
use crate::run_column::RunColumn;
use crate::values::RowAt;
use line_pages::PageBuf;
use philox_seeds::{column_seed, table_seed, unit_seed};
use schema_plan::{Plan, ReadyAfter, ReadyColumn};
use std::marker::Model;

/// Where the seeds of a table's columns come from.
#[derive(Drop)]
pub(crate) enum Seeds<'a> {
    /// The seed of the table.
    Table(u64),
    /// The prepared columns of the table.
    Columns(&'a [RunColumn]),
}

/// The values of the rows of a table with one unit of birth and one unit of last change. A contract sees the plan, the table and
/// the two units.
#[derive(Drop)]
pub struct CohortValues<'a> {
    plan: &'a Plan,
    table: u32,
    columns: &'a [ReadyColumn],
    born: u64,
    changed: u64,
    seeds: Seeds<'a>,
}

impl<'a> Model for CohortValues<'a> {
    ghost use Rattle.draw_values.specs.CohortValues.{AreValuesOf, ValuesOf};

    ghost Value = { ValuesOf };

    ghost view = { λ v. record { plan = v.plan.now; table = v.table; born = v.born; changed = v.changed } };

    ghost invariant = { λ v. AreValuesOf (record { plan = v.plan.now; table = v.table; born = v.born; changed = v.changed }) v.columns.now v.seeds };
}

impl<'a> CohortValues<'a> {
    /// Returns the values of the table's rows that are born at the unit `born` and last changed at the unit `changed`. For rows
    /// that never changed, `changed` is `born`.
    #[inline(always)]
    pub fn new(plan: &'a Plan, table: u32, born: u64, changed: u64) -> CohortValues<'a>
        requires table { table < length plan.now.schema.tables }
        requires born { born ≤ (layout_of plan.now).units }
        requires changed { changed ≤ (layout_of plan.now).units }
        ensures { result ≡ record { plan = plan.now; table = table; born = born; changed = changed } }
    {
        CohortValues {
            plan,
            table,
            columns: plan.columns(table),
            born,
            changed,
            seeds: Seeds::Table(table_seed(plan.seed(), table)),
        }
    }

    /// Returns the values as `new` does, but from the table's prepared columns. So no kept seed is made again.
    #[inline(always)]
    pub fn kept(
        plan: &'a Plan,
        table: u32,
        columns: &'a [RunColumn],
        born: u64,
        changed: u64,
    ) -> CohortValues<'a>
        requires table { table < length plan.now.schema.tables }
        requires columns { AreColumnsOf plan.now table columns.now }
        requires born { born ≤ (layout_of plan.now).units }
        requires changed { changed ≤ (layout_of plan.now).units }
        ensures { result ≡ record { plan = plan.now; table = table; born = born; changed = changed } }
    {
        CohortValues {
            plan,
            table,
            columns: plan.columns(table),
            born,
            changed,
            seeds: Seeds::Columns(columns),
        }
    }

    /// Returns the seed from which the fields of the column at a place are drawn.
    #[inline(always)]
    fn seed(&self, column: usize) -> u64
        requires { column < length (table_for self.now).columns }
        ensures { (ordinal : ℕ) → row_draws result ordinal ≡ draws_at (layout_of self.now.plan) self.now.table (row_for self.now ordinal) column }
    {
        let columns = self.columns;
        let unit = if columns[column].changes {
            self.changed
        } else {
            self.born
        };
        match self.seeds {
            Seeds::Table(seed) => unit_seed(column_seed(seed, column as u32), unit),
            Seeds::Columns(kept) => kept_seed(kept, column, unit),
        }
    }

    /// Whether the row's field is drawn to be null in the column at a place. The column can be of any kind. A case that is null
    /// because its pick column's field is null doesn't count.
    #[inline(always)]
    pub fn is_null(&self, column: usize, ordinal: u64) -> bool
        requires { column < length (table_for self.now).columns }
        ensures { result ≡ is_null_for self.now column ordinal }
    {
        let columns = self.columns;
        is_null(columns[column].null, self.seed(column), ordinal)
    }

    /// Returns the day that the row shows in the column at a place by its units or its own draws. The column can be of any kind.
    /// Returns None if it shows no such day. If the field is null, the day is the one that it would show.
    #[inline(always)]
    pub fn day(&self, column: usize, ordinal: u64) -> Option<i64>
        requires { column < length (table_for self.now).columns }
        ensures exact { result ≡ day_for self.now column ordinal }
        ensures within { IfSome result (IsDayOf (facts_for self.now column).days) }
    {
        let columns = self.columns;
        let at = RowAt {
            ordinal,
            born: self.born,
            changed: self.changed,
        };
        own_day(&columns[column].kind, self.seed(column), at)
    }

    /// Returns by how many days the row's date in the column at a place follows another one, as it is drawn.
    #[inline(always)]
    pub fn days_after(&self, column: usize, after: &ReadyAfter, ordinal: u64) -> i64
        requires column { column < length (table_for self.now).columns }
        requires range { IsAfterRange after.now.lo after.now.hi }
        requires choices { after.now.choices ≡ choices after.now.lo after.now.hi 1 }
        ensures exact { result ≡ chosen after.now.lo after.now.hi 1 (draws_at (layout_of self.now.plan) self.now.table (row_for self.now ordinal) column 1) }
        ensures range { IsBetween after.now.lo after.now.hi result }
    {
        days_after(after, self.seed(column), ordinal)
    }

    /// Returns the number that is drawn for the row in the column at a place. The column can be of any kind. Returns None if none is
    /// drawn. If the field is null, the number is the one that it would hold.
    #[inline(always)]
    pub fn number(&self, column: usize, ordinal: u64) -> Option<Number>
        requires { column < length (table_for self.now).columns }
        ensures exact { result ≡ number_for self.now column ordinal }
        ensures within { IfSome result (IsNumberOf (facts_for self.now column).numbers) }
    {
        let columns = self.columns;
        own_number(&columns[column].kind, self.seed(column), ordinal)
    }

    /// Appends the row's field in the column at a place, as it is written. A null field appends nothing. The column must be one of
    /// units, drawn values, cases or entries in turn. The greatest size of the column's fields must be free.
    #[inline(always)]
    pub fn put(&self, column: usize, ordinal: u64, buf: &mut PageBuf) -> Put
        requires column { column < length (table_for self.now).columns }
        requires own { is_own (column_at (table_for self.now).columns column).kind ≡ true }
        requires room { length buf.old.text + value_size_for self.now column ≤ buf.old.room }
        ensures put { result ≡ put_of (value_for self.now column ordinal) }
        ensures text { buf.new ≡ record buf.old { text = buf.old.text ++ written (layout_of self.now.plan).delimiter (value_for self.now column ordinal) } }
        ensures size { length (field_text (layout_of self.now.plan).delimiter (value_for self.now column ordinal)) ≤ value_size_for self.now column }
    {
        let columns = self.columns;
        let own = &columns[column];
        let chooser = chooser_of(column, own);
        let at = RowAt {
            ordinal,
            born: self.born,
            changed: self.changed,
        };
        put_field(
            Drawn {
                column: own,
                seed: self.seed(column),
            },
            Drawn {
                column: &columns[chooser],
                seed: self.seed(chooser),
            },
            at,
            buf,
        )
    }
}

/// Returns the seed, at a unit, of the prepared column at a place.
#[inline(always)]
fn kept_seed(columns: &[RunColumn], column: usize, unit: u64) -> u64
    requires { column < length columns.now }
    ensures { result ≡ unit_seed_of (slice_index (map (λ (run : RunColumnOf). run.seed) columns.now) column) unit }
{
    columns[column].seeds().at(unit)
}
