//! Keys: the numbers from a base on that a table's rows hold, cohort by cohort. If keys are scrambled, their order within each
//! cohort is drawn.

ghost use Rattle.std.specs.Prelude.{◌≡◌, ◌≢◌, ◌<◌, ◌≤◌, ◌↔◌, ℕ, ◌+◌, ◌^◌, Some, IfSome, IsNone, length};
ghost use Rattle.schema_facts.specs.Lineage.{one_if};
ghost use Rattle.life_intervals.specs.Found.{IsFound};
ghost use Rattle.life_intervals.specs.Generator.{generator_of, last_unit, rows_in_all, table_of};
ghost use Rattle.life_intervals.specs.Keys.{key_in_cohort, key_of};

use crate::births::{birth, born, cohort};
use crate::found::{FoundRow, find};
use crate::orders::Purpose;
use crate::rows::Rows;
use schema_plan::Plan;
use std::sync::ledger::Ledger;
use step_count::Steps;

impl<'a> Rows<'a> {
    /// Returns the key of a found row. Takes one step if the keys are scrambled, else none.
    #[inline]
    pub fn found_key<L: Ledger>(&self, table: u32, row: FoundRow, steps: &mut Steps<L>) -> u64
        requires table { table < length self.now.schema.tables }
        requires row { IsFound self.now table row }
        ensures key { result ≡ key_of (generator_of self.now) table (last_unit self.now) row.ordinal }
        ensures in_cohort { result ≡ key_in_cohort (generator_of self.now) table row.born row.index }
        ensures limit { result < 2 ^ 63 }
        ensures steps { steps.new ≡ steps.old + one_if (table_of self.now table).key.scramble }
    {
        let plan = self.plan();
        let _limits = plan.table(table);
        let first = cohort(plan, table, row.born).first;
        let order = self.order(table, Purpose::Keys, row.born);
        plan.keys(table).base + (first + order.place(row.index, steps))
    }

    /// Returns the key of the row of ordinal `j`. No other row of the table has this key. Takes one step if the keys are scrambled,
    /// else none.
    pub fn key<L: Ledger>(&self, table: u32, j: u64, steps: &mut Steps<L>) -> u64
        requires table { table < length self.now.schema.tables }
        requires row { j < rows_in_all self.now table }
        ensures key { result ≡ key_of (generator_of self.now) table (last_unit self.now) j }
        ensures steps { steps.new ≡ steps.old + one_if (table_of self.now table).key.scramble }
    {
        self.found_key(table, find(self.plan(), table, j), steps)
    }

    /// Returns the ordinal of the row that has a key, among the rows of the units 0 to the last. Returns None exactly if no row has
    /// the key. Takes at most one step, and none if the keys aren't scrambled.
    pub fn row_of_key<L: Ledger>(&self, table: u32, key: u64, steps: &mut Steps<L>) -> Option<u64>
        requires { table < length self.now.schema.tables }
        ensures within { IfSome result (λ j. j < rows_in_all self.now table) }
        ensures has_it { IfSome result (λ j. key_of (generator_of self.now) table (last_unit self.now) j ≡ key) }
        ensures found { (j : ℕ) → j < rows_in_all self.now table →
            key_of (generator_of self.now) table (last_unit self.now) j ≡ key → result ≡ Some j }
        ensures none { IsNone result ↔ ((j : ℕ) → j < rows_in_all self.now table →
            key_of (generator_of self.now) table (last_unit self.now) j ≢ key) }
        ensures steps { steps.new ≤ steps.old + one_if (table_of self.now table).key.scramble }
    {
        let plan = self.plan();
        let base = plan.keys(table).base;
        if key < base || key - base >= born(plan, table, plan.units()) {
            return None;
        }
        let unit = birth(plan, table, key - base);
        let first = cohort(plan, table, unit).first;
        let order = self.order(table, Purpose::Keys, unit);
        Some(first + order.unplace(key - base - first, steps))
    }
}

/// Returns the key of the row of ordinal `j`. No other row of the table has this key. Takes one step if the keys are scrambled,
/// else none.
pub fn key<L: Ledger>(plan: &Plan, table: u32, j: u64, steps: &mut Steps<L>) -> u64
    requires table { table < length plan.now.schema.tables }
    requires row { j < rows_in_all plan.now table }
    ensures key { result ≡ key_of (generator_of plan.now) table (last_unit plan.now) j }
    ensures steps { steps.new ≡ steps.old + one_if (table_of plan.now table).key.scramble }
{
    Rows::of(plan).key(table, j, steps)
}

/// Returns the ordinal of the row that has a key, among the rows of the units 0 to the last. Returns None exactly if no row has the
/// key. Takes at most one step, and none if the keys aren't scrambled.
pub fn row_of_key<L: Ledger>(plan: &Plan, table: u32, key: u64, steps: &mut Steps<L>) -> Option<u64>
    requires { table < length plan.now.schema.tables }
    ensures within { IfSome result (λ j. j < rows_in_all plan.now table) }
    ensures has_it { IfSome result (λ j. key_of (generator_of plan.now) table (last_unit plan.now) j ≡ key) }
    ensures found { (j : ℕ) → j < rows_in_all plan.now table →
        key_of (generator_of plan.now) table (last_unit plan.now) j ≡ key → result ≡ Some j }
    ensures none { IsNone result ↔ ((j : ℕ) → j < rows_in_all plan.now table →
        key_of (generator_of plan.now) table (last_unit plan.now) j ≢ key) }
    ensures steps { steps.new ≤ steps.old + one_if (table_of plan.now table).key.scramble }
{
    Rows::of(plan).row_of_key(table, key, steps)
}
