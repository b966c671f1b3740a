//! The deaths of a run's rows that come by a unit. The parents of all rows of a run are found side by side, and then their parents.

ghost use Rattle.std.specs.Prelude.{◌≡◌, ◌+◌, ◌-◌, ◌*◌, ◌%◌, ◌^◌, ◌<◌, ◌≤◌, ℕ, All, Some, get_or, length, map, true};
ghost use Rattle.cohort_sizes.specs.Births.{LiesIn};
ghost use Rattle.schema_facts.specs.Layout.{layout_of};
ghost use Rattle.schema_plan.specs.Limits.{IsLife};
ghost use Rattle.schema_facts.specs.Lineage.{one_if};
ghost use Rattle.life_intervals.specs.CohortLives.{survival_at};
ghost use Rattle.life_intervals.specs.CohortOrders.{do_lives_differ};
ghost use Rattle.life_intervals.specs.CohortParents.{IsReferenceOf, asked_for_death, parent_cost, reference_by};
ghost use Rattle.life_intervals.specs.Ends.{AreEarlier, AreEnds, earlier_end};
ghost use Rattle.life_intervals.specs.Generator.{generator_of, last_unit, table_of};
ghost use Rattle.life_intervals.specs.Intervals.{death, own_death, parent_of};
ghost use Rattle.life_intervals.specs.RunParents.{AreKnownOf};
ghost use Rattle.life_intervals.specs.Runs.{IsRun};

use crate::lives::{Survival, survival_at};
use crate::orders::Purpose;
use crate::parents::never_dies;
use crate::rows::Rows;
use crate::runs::end_of_part;
use fixed_divisors::FixedDivisor;
use schema_facts::Span;
use schema_plan::{Plan, ReadyKind, ReadyReference};
use std::sync::ledger::Ledger;
use step_count::Steps;

/// The most rows whose parents are found side by side.
pub const MOST_ROWS: usize = 256;

/// Whether all rows that are born at some units are sure to be alive at unit `t`.
pub(crate) fn are_sure(plan: &Plan, table: u32, births: &[u64], t: u64) -> bool
    requires table { table < length plan.now.schema.tables }
    requires births { (i : ℕ) → i < length births.now → get_or births.now i 0 ≤ last_unit plan.now }
    ensures { result ≡ true → (i : ℕ) → i < length births.now → survival_at plan.now table (get_or births.now i 0) t ≡ Survival.Sure }
{
    if never_dies(plan, table) {
        return true;
    }
    for i in 0..births.len() {
        match survival_at(plan, table, births[i], t) {
            Survival::Sure => {}
            _ => return false,
        }
    }
    true
}

/// Whether none of the rows that are born at some units is alive at unit `t`.
pub(crate) fn are_over(plan: &Plan, table: u32, births: &[u64], t: u64) -> bool
    requires table { table < length plan.now.schema.tables }
    requires births { (i : ℕ) → i < length births.now → get_or births.now i 0 ≤ last_unit plan.now }
    ensures { result ≡ true → (i : ℕ) → i < length births.now → survival_at plan.now table (get_or births.now i 0) t ≡ Survival.Over }
{
    for i in 0..births.len() {
        match survival_at(plan, table, births[i], t) {
            Survival::Over => {}
            _ => return false,
        }
    }
    true
}

/// Replaces each end with the end of the life that its place decides, if that is earlier. `lengths` is the number of lengths of
/// life. The shortest life ends at unit `first`.
fn put_earlier(first: u64, lengths: &FixedDivisor, places: &[u64], ends: &mut [u64])
    requires first { first ≤ 2 ^ 32 }
    requires lengths { lengths.now ≤ 2 ^ 32 }
    requires same_length { length ends.old ≡ length places.now }
    ensures same_length { length ends.new ≡ length places.now }
    ensures each { (i : ℕ) → i < length places.now → get_or ends.new i 0 ≡ earlier_end (get_or ends.old i 0) (Some (first + get_or places.now i 0 % lengths.now)) }
{
    let lengths = *lengths; // a copy, so that no write to the ends can change it
    for i in 0..places.len() {
        ends[i] = ends[i].min(first + lengths.remainder(places[i]));
    }
}

impl<'a> Rows<'a> {
    /// Replaces each end with the death of its row, if that is earlier. An end is at most `t` + 1, and rows are born by `t`. So an
    /// end up to `t` is a death, and any other says that none has come. Each row takes at most one step if lives of the table
    /// differ. For each cascading reference it takes at most what chooses the parent and the cost of the parent's death. If all rows are sure to
    /// be alive, none takes a step.
    #[cycle(ends)]
    pub(crate) fn put_ends<L: Ledger>(
        &self,
        table: u32,
        t: u64,
        ordinals: &[u64],
        births: &[u64],
        ends: &mut [u64],
        steps: &mut Steps<L>,
    )
        requires table { table < length self.now.schema.tables }
        requires unit { t ≤ last_unit self.now }
        requires few { length ordinals.now ≤ MOST_ROWS }
        requires run { IsRun self.now table t ordinals.now births.now }
        requires ends { AreEnds t ordinals.now ends.old }
        ensures ends { AreEarlier (death (generator_of self.now) table (last_unit self.now)) ordinals.now ends.old ends.new }
        ensures steps { steps.new ≤ steps.old + length ordinals.now * asked_for_death self.now table }
    {
        let _sound = self.plan().schema(); // so lives say of all rows of a cohort
        if are_sure(self.plan(), table, births, t) {
            return;
        }
        let mut all_parents = [0; MOST_ROWS];
        let all = &mut all_parents[..];
        let parents = &mut all[..ordinals.len()];
        let mut all_births = [0; MOST_ROWS];
        let all = &mut all_births[..];
        let parents_births = &mut all[..ordinals.len()];
        self.put_drawn_ends(
            table,
            t,
            ordinals,
            births,
            ends,
            parents,
            parents_births,
            steps,
        );
    }

    /// Replaces the ends as `put_ends` does, by the rows' own lives and their parents' lives. Keeps the parents that it found last,
    /// with their units of birth. Returns the column of their reference, or None if no parents had to be found.
    #[cycle(ends)]
    pub(crate) fn put_drawn_ends<L: Ledger>(
        &self,
        table: u32,
        t: u64,
        ordinals: &[u64],
        births: &[u64],
        ends: &mut [u64],
        parents: &mut [u64],
        parents_births: &mut [u64],
        steps: &mut Steps<L>,
    ) -> Option<usize>
        requires table { table < length self.now.schema.tables }
        requires unit { t ≤ last_unit self.now }
        requires few { length ordinals.now ≤ MOST_ROWS }
        requires run { IsRun self.now table t ordinals.now births.now }
        requires ends { AreEnds t ordinals.now ends.old }
        requires parents_many { length parents.old ≡ length ordinals.now }
        requires births_many { length parents_births.old ≡ length ordinals.now }
        ensures ends { AreEarlier (death (generator_of self.now) table (last_unit self.now)) ordinals.now ends.old ends.new }
        ensures known { AreKnownOf self.now table t ordinals.now result parents.new parents_births.new }
        ensures steps { steps.new ≤ steps.old + length ordinals.now * asked_for_death self.now table }
    {
        let _sound = self.plan().schema(); // so a row dies with its parents
        self.put_own_ends(table, t, ordinals, births, ends, steps);
        let mut by = None;
        for (column, ready) in self.plan().columns(table).iter().enumerate() {
            if let ReadyKind::Reference(reference) = &ready.kind {
                if !reference.nulls {
                    by = self.put_parents_ends(
                        table,
                        column,
                        reference,
                        t,
                        ordinals,
                        births,
                        ends,
                        by,
                        parents,
                        parents_births,
                        steps,
                    );
                }
            }
        }
        by
    }

    /// Replaces each end with the death of the row's parent, if that is earlier, by the reference in the column at a place. Keeps
    /// the parents if it finds them, and returns the column of the parents that are kept. Each row takes one step and at most the
    /// cost of the parent's death. If no row of the parent's table ever dies, no step is taken and the parents by `by` stay.
    #[cycle(ends)]
    pub(crate) fn put_parents_ends<L: Ledger>(
        &self,
        table: u32,
        column: usize,
        reference: &ReadyReference,
        t: u64,
        ordinals: &[u64],
        births: &[u64],
        ends: &mut [u64],
        by: Option<usize>,
        parents: &mut [u64],
        parents_births: &mut [u64],
        steps: &mut Steps<L>,
    ) -> Option<usize>
        requires table { table < length self.now.schema.tables }
        requires reference { IsReferenceOf self.now table column reference.now }
        requires unit { t ≤ last_unit self.now }
        requires few { length ordinals.now ≤ MOST_ROWS }
        requires run { IsRun self.now table t ordinals.now births.now }
        requires ends { AreEnds t ordinals.now ends.old }
        requires known { AreKnownOf self.now table t ordinals.now by parents.old parents_births.old }
        ensures ends { AreEarlier (λ j. death (generator_of self.now) reference.now.parent (last_unit self.now) (parent_of (generator_of self.now) table (last_unit self.now) j (reference_by column reference.now))) ordinals.now ends.old ends.new }
        ensures known { AreKnownOf self.now table t ordinals.now result parents.new parents_births.new }
        ensures steps { steps.new ≤ steps.old + length ordinals.now * parent_cost (layout_of self.now).tables (reference_by column reference.now) }
    {
        let _limits = self.plan().schema(); // the parent's table is an earlier one
        if never_dies(self.plan(), reference.parent) {
            return by;
        }
        self.find_parents(
            table,
            column,
            reference,
            t,
            ordinals,
            births,
            parents,
            parents_births,
            steps,
        );
        self.put_ends(reference.parent, t, parents, parents_births, ends, steps);
        Some(column)
    }

    /// Replaces each end with the end of the row's own life, if that is earlier. Each row takes at most one step if lives of the
    /// table differ, else none.
    fn put_own_ends<L: Ledger>(
        &self,
        table: u32,
        t: u64,
        ordinals: &[u64],
        births: &[u64],
        ends: &mut [u64],
        steps: &mut Steps<L>,
    )
        requires table { table < length self.now.schema.tables }
        requires unit { t ≤ last_unit self.now }
        requires few { length ordinals.now ≤ MOST_ROWS }
        requires run { IsRun self.now table t ordinals.now births.now }
        requires ends { AreEnds t ordinals.now ends.old }
        ensures ends { AreEarlier (own_death (generator_of self.now) table (last_unit self.now)) ordinals.now ends.old ends.new }
        ensures steps { steps.new ≤ steps.old + length ordinals.now * one_if (do_lives_differ (table_of self.now table).life) }
    {
        let Some(life) = self.plan().life(table) else {
            return;
        };
        let _limits = self.plan().schema(); // there are at most 10,000 units
        let lengths = FixedDivisor::new(life.most - life.least + 1);
        let mut all_places = [0; MOST_ROWS];
        let places = &mut all_places[..];
        let mut from = 0;
        while from < births.len() {
            let until = end_of_part(births, from);
            let born = births[from];
            if born + life.least <= t {
                self.put_part_own_ends(
                    table,
                    life,
                    &lengths,
                    born,
                    &ordinals[from..until],
                    &mut places[..until - from],
                    &mut ends[from..until],
                    steps,
                );
            }
            from = until;
        }
    }

    /// Replaces the ends of rows that are born at unit `born` with the ends of their own lives, if these are earlier. They are
    /// found by the rows' places among the lives of their cohort.
    #[inline]
    fn put_part_own_ends<L: Ledger>(
        &self,
        table: u32,
        life: Span,
        lengths: &FixedDivisor,
        born: u64,
        ordinals: &[u64],
        places: &mut [u64],
        ends: &mut [u64],
        steps: &mut Steps<L>,
    )
        requires table { table < length self.now.schema.tables }
        requires life { Some life ≡ (table_of self.now table).life }
        requires limits { IsLife life }
        requires lengths { lengths.now ≡ life.most - life.least + 1 }
        requires unit { born ≤ last_unit self.now }
        requires some { 1 ≤ length ordinals.now }
        requires lie { All (λ j. LiesIn (table_of self.now table).births born j) ordinals.now }
        requires places { length places.old ≡ length ordinals.now }
        requires same_length { length ends.old ≡ length ordinals.now }
        ensures ends { AreEarlier (own_death (generator_of self.now) table (last_unit self.now)) ordinals.now ends.old ends.new }
        ensures steps { steps.new ≡ steps.old + length ordinals.now * one_if (do_lives_differ (table_of self.now table).life) }
    {
        let _limits = self.plan().schema(); // there are at most 10,000 units
        self.put_places(table, Purpose::Lives, born, ordinals, places, steps);
        put_earlier(born + life.least, lengths, places, ends);
    }
}
