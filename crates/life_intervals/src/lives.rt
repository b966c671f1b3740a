//! The ends of rows' own lives, what lives tell of all rows of a cohort, and the last changes of rows.

ghost use Rattle.std.specs.Prelude.{◌≡◌, ◌+◌, ◌<◌, ◌≤◌, ◌⊎◌, Some, length};
ghost use Rattle.std.specs.Option.{option_map};
ghost use Rattle.cohort_sizes.specs.Births.{born_count};
ghost use Rattle.schema_facts.specs.Lineage.{one_if};
ghost use Rattle.life_intervals.specs.Changes.{change_span, due_by, last_due};
ghost use Rattle.life_intervals.specs.CohortLives.{survival_at};
ghost use Rattle.life_intervals.specs.CohortOrders.{do_lives_differ, do_updates_differ};
ghost use Rattle.life_intervals.specs.CohortParents.{asked_for_change};
ghost use Rattle.life_intervals.specs.Found.{IsFound};
ghost use Rattle.life_intervals.specs.Generator.{generator_of, last_unit, rows_in_all, table_of};
ghost use Rattle.life_intervals.specs.Intervals.{change_unit, is_after, own_death};
ghost use Rattle.life_intervals.specs.Rows.{life_by};

use crate::found::{FoundRow, find};
use crate::orders::Purpose;
use crate::rows::Rows;
use schema_facts::Span;
use schema_plan::Plan;
use std::sync::ledger::Ledger;
use step_count::Steps;

/// What lives tell, at one unit, of the rows that are born at another.
#[derive(Clone, Copy, Debug, PartialEq, Eq)]
pub enum Survival {
    /// Each row is alive: the shortest life ends later.
    Sure,
    /// A row is alive or not by the length of its own life and of its parents' lives.
    Drawn,
    /// No row is alive: the longest life has ended.
    Over,
}

/// Returns how many units a row lives by itself, by its place among the lives of its cohort.
#[inline(always)]
pub(crate) fn lifetime(life: Span, place: u64) -> u64
    requires ordered { life.least ≤ life.most }
    requires limit { life.most ≤ 20000 }
    ensures exact { Some result ≡ life_by (Some life) place }
    ensures least { life.least ≤ result }
    ensures most { result ≤ life.most }
{
    life.least + place % (life.most - life.least + 1)
}

/// Returns the last of the units `first`, `first` + `period`, and so on, up to `unit`. Returns `born` if `first` comes after
/// `unit`.
#[inline(always)]
pub(crate) fn last_due(born: u64, first: u64, period: u64, unit: u64) -> u64
    requires { 1 ≤ period }
    ensures { result ≡ last_due born first period unit }
{
    if unit < first {
        born
    } else {
        unit - (unit - first) % period
    }
}

/// Whether a row that is born at the unit `born` is alive at `unit`, if it lives for `life` units. None is a life without an end.
fn is_within(life: Option<u64>, born: u64, unit: u64) -> bool
    ensures { result ≡ is_after (option_map (λ l. born + l) life) unit }
{
    match life {
        Some(life) => born.checked_add(life).is_none_or(|end| unit < end),
        None => true,
    }
}

/// Returns what lives tell, at `unit`, of the rows of a table that are born at unit `born`. It is found by the shortest and the
/// longest life that a row's own life and its parents' lives leave.
pub fn survival_at(plan: &Plan, table: u32, born: u64, unit: u64) -> Survival
    requires table { table < length plan.now.schema.tables }
    requires born { born ≤ last_unit plan.now }
    ensures { result ≡ survival_at plan.now table born unit }
{
    if is_within(plan.sure_life(table), born, unit) {
        Survival::Sure
    } else if is_within(plan.longest_life(table), born, unit) {
        Survival::Drawn
    } else {
        Survival::Over
    }
}

impl<'a> Rows<'a> {
    /// Returns the unit at which a found row's own life ends, or None if it has no end of its own. Takes one step if lives of the
    /// table differ, else none.
    #[inline]
    pub fn found_own_death<L: Ledger>(
        &self,
        table: u32,
        row: FoundRow,
        steps: &mut Steps<L>,
    ) -> Option<u64>
        requires table { table < length self.now.schema.tables }
        requires row { IsFound self.now table row }
        ensures death { result ≡ own_death (generator_of self.now) table (last_unit self.now) row.ordinal }
        ensures steps { steps.new ≡ steps.old + one_if (do_lives_differ (table_of self.now table).life) }
    {
        let Some(life) = self.plan().life(table) else {
            return None;
        };
        let _limits = self.plan().schema(); // there are at most 10,000 units
        let order = self.order(table, Purpose::Lives, row.born);
        let place = order.place(row.index, steps);
        Some(row.born + lifetime(life, place))
    }

    /// Returns the unit at which the own life of the row of ordinal `j` ends, or None if it has no end of its own. Takes one step
    /// if lives of the table differ, else none.
    pub fn own_death<L: Ledger>(&self, table: u32, j: u64, steps: &mut Steps<L>) -> Option<u64>
        requires table { table < length self.now.schema.tables }
        requires row { j < rows_in_all self.now table }
        ensures death { result ≡ own_death (generator_of self.now) table (last_unit self.now) j }
        ensures steps { steps.new ≡ steps.old + one_if (do_lives_differ (table_of self.now table).life) }
    {
        self.found_own_death(table, find(self.plan(), table, j), steps)
    }

    /// Returns the last unit up to `t` at which a found row is due, or its birth. Takes one step if rows of a cohort can be due at
    /// different units, else none.
    #[inline]
    fn last_due_unit<L: Ledger>(
        &self,
        table: u32,
        row: FoundRow,
        t: u64,
        steps: &mut Steps<L>,
    ) -> u64
        requires table { table < length self.now.schema.tables }
        requires row { IsFound self.now table row }
        ensures unit { result ≡ due_by (generator_of self.now).order table (table_of self.now table) row.born row.index t }
        ensures steps { steps.new ≡ steps.old + one_if (do_updates_differ (table_of self.now table).update) }
    {
        let Some(period) = self.plan().update(table) else {
            return row.born;
        };
        let _limits = self.plan().schema(); // there are at most 10,000 units
        let order = self.order(table, Purpose::Updates, row.born);
        let place = order.place(row.index, steps);
        last_due(row.born, row.born + (1 + place % period), period, t)
    }

    /// Returns the unit at which a found row last changed by unit `t`, or its birth if it hasn't changed. The row must be born by
    /// `t`. A row changes when it is due and when it loses a parent. Its death doesn't count. Takes at most one step if rows of a
    /// cohort can be due at different units. For each nulling reference it takes at most what chooses the parent and the cost of the parent's
    /// death.
    #[inline]
    pub fn found_change<L: Ledger>(
        &self,
        table: u32,
        row: FoundRow,
        t: u64,
        steps: &mut Steps<L>,
    ) -> u64
        requires table { table < length self.now.schema.tables }
        requires row { IsFound self.now table row }
        requires born { row.born ≤ t }
        requires unit { t ≤ last_unit self.now }
        ensures unit { result ≡ change_unit (generator_of self.now) table t row.ordinal }
        ensures from { row.born ≤ result }
        ensures within { result ≤ t }
        ensures recent { (result ≡ row.born) ⊎ (t < result + change_span (table_of self.now table) t) }
        ensures steps { steps.new ≤ steps.old + asked_for_change self.now table }
    {
        let _sound = self.plan().schema(); // so a period is of a unit at least
        if row.born == t {
            return t;
        }
        self.drawn_change(table, row, t, steps)
    }

    /// Returns the unit of a found row's last change by `t`, by its last due unit and its losses.
    fn drawn_change<L: Ledger>(
        &self,
        table: u32,
        row: FoundRow,
        t: u64,
        steps: &mut Steps<L>,
    ) -> u64
        requires table { table < length self.now.schema.tables }
        requires row { IsFound self.now table row }
        requires born { row.born ≤ t }
        requires unit { t ≤ last_unit self.now }
        ensures unit { result ≡ change_unit (generator_of self.now) table t row.ordinal }
        ensures least { steps.old + one_if (do_updates_differ (table_of self.now table).update) ≤ steps.new }
        ensures most { steps.new ≤ steps.old + asked_for_change self.now table }
    {
        let _sound = self.plan().schema(); // so a row loses a parent when that dies
        let due = self.last_due_unit(table, row, t, steps);
        self.last_loss(table, row, due, t, steps)
    }

    /// Returns the unit at which the row of ordinal `j` last changed by unit `t`, or its birth if it hasn't changed. The row must
    /// be born by `t`. A row changes when it is due and when it loses a parent. Its death doesn't count. Takes one step if rows of
    /// a cohort can be due at different units. For each nulling reference it takes at most what chooses the parent and the cost of the parent's
    /// death.
    pub fn last_change<L: Ledger>(&self, table: u32, j: u64, t: u64, steps: &mut Steps<L>) -> u64
        requires table { table < length self.now.schema.tables }
        requires unit { t ≤ last_unit self.now }
        requires born { j < born_count (table_of self.now table).births t }
        ensures unit { result ≡ change_unit (generator_of self.now) table t j }
        ensures within { result ≤ t }
        ensures least { steps.old + one_if (do_updates_differ (table_of self.now table).update) ≤ steps.new }
        ensures most { steps.new ≤ steps.old + asked_for_change self.now table }
    {
        self.drawn_change(table, find(self.plan(), table, j), t, steps)
    }
}

/// Returns the unit at which the own life of the row of ordinal `j` ends, or None if it has no end of its own. Takes one step if
/// lives of the table differ, else none.
pub fn own_death<L: Ledger>(plan: &Plan, table: u32, j: u64, steps: &mut Steps<L>) -> Option<u64>
    requires table { table < length plan.now.schema.tables }
    requires row { j < rows_in_all plan.now table }
    ensures death { result ≡ own_death (generator_of plan.now) table (last_unit plan.now) j }
    ensures steps { steps.new ≡ steps.old + one_if (do_lives_differ (table_of plan.now table).life) }
{
    Rows::of(plan).own_death(table, j, steps)
}

/// Returns the unit at which the row of ordinal `j` last changed by unit `t`, or its birth if it hasn't changed. The row must be
/// born by `t`. A row changes when it is due and when it loses a parent. Its death doesn't count. Takes one step if rows of a
/// cohort can be due at different units. For each nulling reference it takes at most what chooses the parent and the cost of the parent's death.
pub fn last_change<L: Ledger>(plan: &Plan, table: u32, j: u64, t: u64, steps: &mut Steps<L>) -> u64
    requires table { table < length plan.now.schema.tables }
    requires unit { t ≤ last_unit plan.now }
    requires born { j < born_count (table_of plan.now table).births t }
    ensures unit { result ≡ change_unit (generator_of plan.now) table t j }
    ensures within { result ≤ t }
    ensures least { steps.old + one_if (do_updates_differ (table_of plan.now table).update) ≤ steps.new }
    ensures most { steps.new ≤ steps.old + asked_for_change plan.now table }
{
    Rows::of(plan).last_change(table, j, t, steps)
}
