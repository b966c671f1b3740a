//! Runs of rows. What is told of each row of a run stands in slices of one length. Adjacent rows that are born at one unit are
//! taken together.

ghost use Rattle.std.specs.Prelude.{◌≡◌, ◌+◌, ◌-◌, ◌*◌, ◌%◌, ◌<◌, ◌≤◌, ◌^◌, ◌⊎◌, ℕ, All, Some, false, get_or, length, map, nat_lt};
ghost use Rattle.cohort_sizes.specs.Births.{LiesIn, born_count};
ghost use Rattle.schema_facts.specs.Layout.{layout_of};
ghost use Rattle.schema_facts.specs.Lineage.{choice_cost, loss_cost, one_if};
ghost use Rattle.life_intervals.specs.Changes.{change_span, last_due, later_change};
ghost use Rattle.life_intervals.specs.CohortOrders.{do_lives_differ, do_updates_differ, due_for, is_drawn, place_for};
ghost use Rattle.life_intervals.specs.CohortParents.{IsReferenceOf, asked_for_change, asked_for_death, parent_cost, reference_by};
ghost use Rattle.life_intervals.specs.Generator.{generator_of, last_unit, table_of};
ghost use Rattle.life_intervals.specs.Intervals.{change_unit, death, is_after, is_live, own_death, parent_of};
ghost use Rattle.life_intervals.specs.Keys.{key_of};
ghost use Rattle.life_intervals.specs.RunParents.{AreKnownOf};
ghost use Rattle.life_intervals.specs.Runs.{IsRun};

use crate::births::{birth, cohort};
use crate::orders::Purpose;
use crate::parents::has_nullings;
use crate::rows::Rows;
use crate::run_ends::{MOST_ROWS, are_over, are_sure};
use fixed_divisors::FixedDivisor;
use schema_plan::{ReadyKind, ReadyReference};
use std::sync::ledger::Ledger;
use step_count::Steps;

/// Returns where the part of a run ends that begins at `from`. A part has rows of one unit of birth, and at most as many as have
/// their parents found side by side.
#[inline]
pub(crate) fn end_of_part(births: &[u64], from: usize) -> usize
    requires { from < length births.now }
    ensures after { from < result }
    ensures within { result ≤ length births.now }
    ensures few { result ≤ from + MOST_ROWS }
    ensures same { (i : ℕ) → from ≤ i → i < result → get_or births.now i 0 ≡ get_or births.now from 0 }
{
    let born = births[from];
    let end = from + (births.len() - from).min(MOST_ROWS);
    let mut until = from + 1;
    while until < end && births[until] == born {
        until += 1;
    }
    until
}

/// Puts the indices of rows that are born at one unit. Their cohort begins with the ordinal `first`.
fn put_indices(ordinals: &[u64], first: u64, indices: &mut [u64])
    requires begun { All (λ j. first ≤ j) ordinals.now }
    requires same_length { length indices.old ≡ length ordinals.now }
    ensures { indices.new ≡ map (λ j. j - first) ordinals.now }
{
    for i in 0..ordinals.len() {
        indices[i] = ordinals[i] - first;
    }
}

/// Returns the last unit up to `t` at which the row with a place is due, or `born`, its unit of birth.
#[inline(always)]
fn last_due_by(born: u64, period: &FixedDivisor, t: u64, place: u64) -> u64
    requires some { 1 ≤ period.now }
    requires born { born ≤ 10000 }
    requires limit { period.now ≤ 10000 }
    ensures { result ≡ last_due born (born + (1 + place % period.now)) period.now t }
{
    let first = born + (1 + period.remainder(place));
    if t < first {
        born
    } else {
        t - period.remainder(t - first)
    }
}

/// Whether a row's own life lasts past unit `t`. The row is born at unit `born`, and its place decides its life. A life has at
/// least `least` units, and `lengths` is the number of lengths.
#[inline(always)]
fn is_within_life(least: u64, lengths: &FixedDivisor, born: u64, t: u64, place: u64) -> bool
    requires least { least ≤ 20000 }
    requires born { born ≤ 10000 }
    requires lengths { lengths.now ≤ 20001 }
    ensures { result ≡ nat_lt t (born + (least + place % lengths.now)) }
{
    t < born + (least + lengths.remainder(place))
}

/// Replaces each number with one unit.
fn put_unit(units: &mut [u64], unit: u64)
    ensures same { (i : ℕ) → i < length units.old → get_or units.new i 0 ≡ unit }
    ensures same_length { length units.new ≡ length units.old }
{
    for i in 0..units.len() {
        units[i] = unit;
    }
}

/// Puts the flag `all` for each row.
fn put_live(live: &mut [bool], all: bool)
    ensures same { (i : ℕ) → i < length live.old → get_or live.new i false ≡ all }
    ensures same_length { length live.new ≡ length live.old }
{
    for i in 0..live.len() {
        live[i] = all;
    }
}

/// Puts for each end whether it comes after unit `t`.
fn put_lasting(ends: &[u64], t: u64, live: &mut [bool])
    requires { length live.old ≡ length ends.now }
    ensures { live.new ≡ map (λ end. nat_lt t end) ends.now }
{
    for i in 0..ends.len() {
        live[i] = t < ends[i];
    }
}

/// Replaces each change with the end at the same place, if that is later and comes by unit `t`.
fn put_later(ends: &[u64], t: u64, changes: &mut [u64])
    requires { length changes.old ≡ length ends.now }
    ensures same_length { length changes.new ≡ length ends.now }
    ensures each { (i : ℕ) → i < length ends.now → get_or changes.new i 0 ≡ later_change t (get_or changes.old i 0) (Some (get_or ends.now i 0)) }
{
    for i in 0..ends.len() {
        changes[i] = later(changes[i], ends[i], t);
    }
}

/// Returns the later of a change and an end, if the end comes by unit `t`; else the change.
#[inline(always)]
fn later(change: u64, end: u64, t: u64) -> u64
    ensures { result ≡ later_change t change (Some end) }
{
    if end <= t { change.max(end) } else { change }
}

/// Replaces places with the last units up to `t` at which their rows are due, or with `born`, the rows' unit of birth.
fn put_due_units(places: &mut [u64], born: u64, period: u64, t: u64)
    requires period { 1 ≤ period }
    requires born { born ≤ 10000 }
    requires limit { period ≤ 10000 }
    ensures { places.new ≡ map (λ place. last_due born (born + (1 + place % period)) period t) places.old }
{
    let periods = FixedDivisor::new(period);
    for i in 0..places.len() {
        places[i] = last_due_by(born, &periods, t, places[i]);
    }
}

/// Adds `start` to each number.
pub(crate) fn add_start(numbers: &mut [u64], start: u64)
    requires limit { start < 2 ^ 63 }
    requires limits { All (λ j. j < 2 ^ 40) numbers.old }
    ensures { numbers.new ≡ map (λ j. start + j) numbers.old }
{
    for i in 0..numbers.len() {
        numbers[i] = start + numbers[i];
    }
}

impl<'a> Rows<'a> {
    /// Puts the units of birth of rows that are born by unit `t`.
    pub fn put_births(&self, table: u32, t: u64, ordinals: &[u64], births: &mut [u64])
        requires table { table < length self.now.schema.tables }
        requires unit { t ≤ last_unit self.now }
        requires rows { (i : ℕ) → i < length ordinals.now → get_or ordinals.now i 0 < born_count (table_of self.now table).births t }
        requires same_length { length births.old ≡ length ordinals.now }
        ensures { IsRun self.now table t ordinals.now births.new }
    {
        for i in 0..ordinals.len() {
            births[i] = self.birth_by(table, t, ordinals[i]);
        }
    }

    /// Returns the unit of birth of the row of ordinal `j`, which must be born by unit `t`.
    #[inline(always)]
    fn birth_by(&self, table: u32, t: u64, j: u64) -> u64
        requires table { table < length self.now.schema.tables }
        requires unit { t ≤ last_unit self.now }
        requires row { j < born_count (table_of self.now table).births t }
        ensures lies { LiesIn (table_of self.now table).births result j }
        ensures within { result ≤ t }
    {
        birth(self.plan(), table, j)
    }

    /// Puts the places in an order of rows that are born at unit `born`.
    pub(crate) fn put_places<L: Ledger>(
        &self,
        table: u32,
        purpose: Purpose,
        born: u64,
        ordinals: &[u64],
        places: &mut [u64],
        steps: &mut Steps<L>,
    )
        requires table { table < length self.now.schema.tables }
        requires unit { born ≤ last_unit self.now }
        requires some { 1 ≤ length ordinals.now }
        requires lie { All (λ j. LiesIn (table_of self.now table).births born j) ordinals.now }
        requires same_length { length places.old ≡ length ordinals.now }
        ensures places { places.new ≡ map (λ j. place_for self.now table purpose born j) ordinals.now }
        ensures steps { steps.new ≡ steps.old + length ordinals.now * one_if (is_drawn (table_of self.now table) purpose) }
    {
        put_indices(ordinals, cohort(self.plan(), table, born).first, places);
        self.order(table, purpose, born).places(places, steps);
    }

    /// Puts the keys of rows that are born at unit `born`.
    fn put_part_keys<L: Ledger>(
        &self,
        table: u32,
        born: u64,
        ordinals: &[u64],
        keys: &mut [u64],
        steps: &mut Steps<L>,
    )
        requires table { table < length self.now.schema.tables }
        requires unit { born ≤ last_unit self.now }
        requires some { 1 ≤ length ordinals.now }
        requires lie { All (λ j. LiesIn (table_of self.now table).births born j) ordinals.now }
        requires same_length { length keys.old ≡ length ordinals.now }
        ensures keys { keys.new ≡ map (λ j. key_of (generator_of self.now) table (last_unit self.now) j) ordinals.now }
        ensures steps { steps.new ≡ steps.old + length ordinals.now * one_if (table_of self.now table).key.scramble }
    {
        self.put_places(table, Purpose::Keys, born, ordinals, keys, steps);
        let plan = self.plan();
        let _table = plan.table(table); // its base is at most 2^62
        let _limits = plan.schema(); // it has at most 2^40 rows
        add_start(
            keys,
            plan.keys(table).base + cohort(plan, table, born).first,
        );
    }

    /// Puts the keys of rows. Each row takes one step if the keys are scrambled, else none.
    pub fn put_keys<L: Ledger>(
        &self,
        table: u32,
        ordinals: &[u64],
        births: &[u64],
        keys: &mut [u64],
        steps: &mut Steps<L>,
    )
        requires table { table < length self.now.schema.tables }
        requires run { IsRun self.now table (last_unit self.now) ordinals.now births.now }
        requires same_length { length keys.old ≡ length ordinals.now }
        ensures keys { (i : ℕ) → i < length ordinals.now → get_or keys.new i 0 ≡ key_of (generator_of self.now) table (last_unit self.now) (get_or ordinals.now i 0) }
        ensures same_length { length keys.new ≡ length ordinals.now }
        ensures steps { steps.new ≡ steps.old + length ordinals.now * one_if (table_of self.now table).key.scramble }
    {
        let mut from = 0;
        while from < births.len() {
            let until = end_of_part(births, from);
            self.put_part_keys(
                table,
                births[from],
                &ordinals[from..until],
                &mut keys[from..until],
                steps,
            );
            from = until;
        }
    }

    /// Puts the ordinals of the parents, by a reference, that the rows of unit `born` are born with.
    fn put_part_parents<L: Ledger>(
        &self,
        table: u32,
        column: u32,
        reference: &ReadyReference,
        born: u64,
        ordinals: &[u64],
        parents: &mut [u64],
        steps: &mut Steps<L>,
    )
        requires table { table < length self.now.schema.tables }
        requires reference { IsReferenceOf self.now table column reference.now }
        requires unit { born ≤ last_unit self.now }
        requires some { 1 ≤ length ordinals.now }
        requires lie { All (λ j. LiesIn (table_of self.now table).births born j) ordinals.now }
        requires same_length { length parents.old ≡ length ordinals.now }
        ensures parents { parents.new ≡ map (λ j. parent_of (generator_of self.now) table (last_unit self.now) j (reference_by column reference.now)) ordinals.now }
        ensures born { All (λ parent. parent < born_count (table_of self.now reference.now.parent).births born) parents.new }
        ensures steps { steps.new ≡ steps.old + length ordinals.now * choice_cost reference.now.drawn }
    {
        self.put_places(
            table,
            Purpose::Parents(column),
            born,
            ordinals,
            parents,
            steps,
        );
        let _limits = self.plan().schema(); // the reference is within its limits
        let _columns = self.plan().columns(table); // and there are at most 64 columns
        let window = self.window(table, column, reference, born);
        let deal = self.deal(table, column, reference, born, &window);
        window.put_parents(reference, &deal, parents, steps);
    }

    /// Puts the ordinals of the parents that rows are born with, by the reference in the column at a place. Each row takes one
    /// step, and one more if the reference is drawn.
    pub fn put_parents<L: Ledger>(
        &self,
        table: u32,
        column: u32,
        reference: &ReadyReference,
        ordinals: &[u64],
        births: &[u64],
        parents: &mut [u64],
        steps: &mut Steps<L>,
    )
        requires table { table < length self.now.schema.tables }
        requires reference { IsReferenceOf self.now table column reference.now }
        requires run { IsRun self.now table (last_unit self.now) ordinals.now births.now }
        requires same_length { length parents.old ≡ length ordinals.now }
        ensures parents { (i : ℕ) → i < length ordinals.now → get_or parents.new i 0 ≡ parent_of (generator_of self.now) table (last_unit self.now) (get_or ordinals.now i 0) (reference_by column reference.now) }
        ensures born { (i : ℕ) → i < length ordinals.now → get_or parents.new i 0 < born_count (table_of self.now reference.now.parent).births (get_or births.now i 0) }
        ensures same_length { length parents.new ≡ length ordinals.now }
        ensures steps { steps.new ≡ steps.old + length ordinals.now * choice_cost reference.now.drawn }
    {
        let _sound = self.plan().schema(); // so each row has a parent
        let mut from = 0;
        while from < births.len() {
            let until = end_of_part(births, from);
            self.put_part_parents(
                table,
                column,
                reference,
                births[from],
                &ordinals[from..until],
                &mut parents[from..until],
                steps,
            );
            from = until;
        }
    }

    /// Puts the last units up to `t` at which the rows of unit `born` are due, or `born` for a row that wasn't due yet.
    fn put_part_due<L: Ledger>(
        &self,
        table: u32,
        t: u64,
        born: u64,
        ordinals: &[u64],
        changes: &mut [u64],
        steps: &mut Steps<L>,
    )
        requires table { table < length self.now.schema.tables }
        requires born { born ≤ t }
        requires unit { t ≤ last_unit self.now }
        requires some { 1 ≤ length ordinals.now }
        requires lie { All (λ j. LiesIn (table_of self.now table).births born j) ordinals.now }
        requires same_length { length changes.old ≡ length ordinals.now }
        ensures changes { changes.new ≡ map (λ j. due_for self.now table t born j) ordinals.now }
        ensures steps { steps.new ≤ steps.old + length ordinals.now * one_if (do_updates_differ (table_of self.now table).update) }
    {
        let _limits = self.plan().schema(); // there are at most 10,000 units
        match self.plan().update(table) {
            Some(period) if born < t => {
                self.put_places(table, Purpose::Updates, born, ordinals, changes, steps);
                put_due_units(changes, born, period, t);
            }
            _ => put_unit(changes, born),
        }
    }

    /// Puts the units of the last changes, up to unit `t`, of rows that are born at unit `born`.
    fn put_part_changes<L: Ledger>(
        &self,
        table: u32,
        t: u64,
        born: u64,
        ordinals: &[u64],
        changes: &mut [u64],
        steps: &mut Steps<L>,
    )
        requires table { table < length self.now.schema.tables }
        requires born { born ≤ t }
        requires unit { t ≤ last_unit self.now }
        requires some { 1 ≤ length ordinals.now }
        requires few { length ordinals.now ≤ MOST_ROWS }
        requires lie { All (λ j. LiesIn (table_of self.now table).births born j) ordinals.now }
        requires same_length { length changes.old ≡ length ordinals.now }
        ensures changes { changes.new ≡ map (λ j. change_unit (generator_of self.now) table t j) ordinals.now }
        ensures steps { steps.new ≤ steps.old + length ordinals.now * asked_for_change self.now table }
    {
        self.put_part_due(table, t, born, ordinals, changes, steps);
        if born < t && has_nullings(self.plan(), table) {
            self.put_losses(table, t, born, ordinals, changes, steps);
        }
    }

    /// Replaces the due units with later losses, to make them the units of the last changes.
    fn put_losses<L: Ledger>(
        &self,
        table: u32,
        t: u64,
        born: u64,
        ordinals: &[u64],
        changes: &mut [u64],
        steps: &mut Steps<L>,
    )
        requires table { table < length self.now.schema.tables }
        requires born { born ≤ t }
        requires unit { t ≤ last_unit self.now }
        requires few { length ordinals.now ≤ MOST_ROWS }
        requires lie { All (λ j. LiesIn (table_of self.now table).births born j) ordinals.now }
        requires due { changes.old ≡ map (λ j. due_for self.now table t born j) ordinals.now }
        ensures changes { changes.new ≡ map (λ j. change_unit (generator_of self.now) table t j) ordinals.now }
        ensures steps { steps.new ≤ steps.old + length ordinals.now * loss_cost (layout_of self.now).tables table }
    {
        let _sound = self.plan().schema(); // so a row loses a parent when that dies
        let mut all_births = [0; MOST_ROWS];
        let all = &mut all_births[..];
        let births = &mut all[..ordinals.len()];
        put_unit(births, born);
        let mut all_parents = [0; MOST_ROWS];
        let all = &mut all_parents[..];
        let parents = &mut all[..ordinals.len()];
        let mut all_parents_births = [0; MOST_ROWS];
        let all = &mut all_parents_births[..];
        let parents_births = &mut all[..ordinals.len()];
        for (column, ready) in self.plan().columns(table).iter().enumerate() {
            if let ReadyKind::Reference(reference) = &ready.kind {
                if reference.nulls {
                    self.put_losses_by(
                        table,
                        column,
                        reference,
                        t,
                        ordinals,
                        births,
                        changes,
                        parents,
                        parents_births,
                        steps,
                    );
                }
            }
        }
    }

    /// Replaces each change with the loss of the row's parent, if that is later and comes by unit `t`. The loss is by the reference
    /// in the column at a place.
    fn put_losses_by<L: Ledger>(
        &self,
        table: u32,
        column: usize,
        reference: &ReadyReference,
        t: u64,
        ordinals: &[u64],
        births: &[u64],
        changes: &mut [u64],
        parents: &mut [u64],
        parents_births: &mut [u64],
        steps: &mut Steps<L>,
    )
        requires table { table < length self.now.schema.tables }
        requires reference { IsReferenceOf self.now table column reference.now }
        requires unit { t ≤ last_unit self.now }
        requires few { length ordinals.now ≤ MOST_ROWS }
        requires run { IsRun self.now table t ordinals.now births.now }
        requires same_length { length changes.old ≡ length ordinals.now }
        requires parents_many { length parents.old ≡ length ordinals.now }
        requires births_many { length parents_births.old ≡ length ordinals.now }
        ensures same_length { length changes.new ≡ length ordinals.now }
        ensures each { (i : ℕ) → i < length ordinals.now → get_or changes.new i 0 ≡ later_change t (get_or changes.old i 0) (death (generator_of self.now) reference.now.parent (last_unit self.now) (parent_of (generator_of self.now) table (last_unit self.now) (get_or ordinals.now i 0) (reference_by column reference.now))) }
        ensures steps { steps.new ≤ steps.old + length ordinals.now * parent_cost (layout_of self.now).tables (reference_by column reference.now) }
    {
        let _limits = self.plan().schema(); // there are at most 10,000 units
        let mut all_ends = [0; MOST_ROWS];
        let all = &mut all_ends[..];
        let ends = &mut all[..ordinals.len()];
        put_unit(ends, t + 1);
        self.put_parents_ends(
            table,
            column,
            reference,
            t,
            ordinals,
            births,
            ends,
            None,
            parents,
            parents_births,
            steps,
        );
        put_later(ends, t, changes);
    }

    /// Puts the units of the rows' last changes up to unit `t`, or their births if they haven't changed. The rows must be born by
    /// `t`. A row changes when it is due and when it loses a parent. Deaths don't count. Each row takes at most one step, and none
    /// if all rows of a cohort are due at the same units, or never. For each nulling reference it takes at most what chooses the parent and the
    /// cost of the parent's death.
    pub fn put_changes<L: Ledger>(
        &self,
        table: u32,
        t: u64,
        ordinals: &[u64],
        births: &[u64],
        changes: &mut [u64],
        steps: &mut Steps<L>,
    )
        requires table { table < length self.now.schema.tables }
        requires unit { t ≤ last_unit self.now }
        requires run { IsRun self.now table t ordinals.now births.now }
        requires same_length { length changes.old ≡ length ordinals.now }
        ensures changes { (i : ℕ) → i < length ordinals.now → get_or changes.new i 0 ≡ change_unit (generator_of self.now) table t (get_or ordinals.now i 0) }
        ensures from { (i : ℕ) → i < length ordinals.now → get_or births.now i 0 ≤ get_or changes.new i 0 }
        ensures within { (i : ℕ) → i < length ordinals.now → get_or changes.new i 0 ≤ t }
        ensures recent { (i : ℕ) → i < length ordinals.now →
            (get_or changes.new i 0 ≡ get_or births.now i 0) ⊎ (t < get_or changes.new i 0 + change_span (table_of self.now table) t) }
        ensures same_length { length changes.new ≡ length ordinals.now }
        ensures steps { steps.new ≤ steps.old + length ordinals.now * asked_for_change self.now table }
    {
        let _sound = self.plan().schema(); // so a period is of a unit at least
        let mut from = 0;
        while from < births.len() {
            let until = end_of_part(births, from);
            self.put_part_changes(
                table,
                t,
                births[from],
                &ordinals[from..until],
                &mut changes[from..until],
                steps,
            );
            from = until;
        }
    }

    /// Puts which of a run's rows are alive at unit `t`, by which they must be born. Keeps the parents that it found last, with
    /// their units of birth. Returns the column of their reference, or None if no parents had to be found. Each row takes at most
    /// as many steps as in `put_lives`.
    pub fn put_run_lives<L: Ledger>(
        &self,
        table: u32,
        t: u64,
        ordinals: &[u64],
        births: &[u64],
        live: &mut [bool],
        parents: &mut [u64],
        parents_births: &mut [u64],
        steps: &mut Steps<L>,
    ) -> Option<usize>
        requires table { table < length self.now.schema.tables }
        requires unit { t ≤ last_unit self.now }
        requires few { length ordinals.now ≤ MOST_ROWS }
        requires run { IsRun self.now table t ordinals.now births.now }
        requires same_length { length live.old ≡ length ordinals.now }
        requires parents_many { length parents.old ≡ length ordinals.now }
        requires births_many { length parents_births.old ≡ length ordinals.now }
        ensures live { live.new ≡ map (λ j. is_live (generator_of self.now) table t j) ordinals.now }
        ensures known { AreKnownOf self.now table t ordinals.now result parents.new parents_births.new }
        ensures steps { steps.new ≤ steps.old + length ordinals.now * asked_for_death self.now table }
    {
        let _sound = self.plan().schema(); // so lives say of all rows of a cohort
        let plan = self.plan();
        if are_sure(plan, table, births, t) {
            put_live(live, true);
            None
        } else if are_over(plan, table, births, t) {
            put_live(live, false);
            None
        } else {
            self.put_drawn_lives(
                table,
                t,
                ordinals,
                births,
                live,
                parents,
                parents_births,
                steps,
            )
        }
    }

    /// Puts which rows are alive, as `put_run_lives` does, by the rows' own lives and their parents' lives.
    fn put_drawn_lives<L: Ledger>(
        &self,
        table: u32,
        t: u64,
        ordinals: &[u64],
        births: &[u64],
        live: &mut [bool],
        parents: &mut [u64],
        parents_births: &mut [u64],
        steps: &mut Steps<L>,
    ) -> Option<usize>
        requires table { table < length self.now.schema.tables }
        requires unit { t ≤ last_unit self.now }
        requires few { length ordinals.now ≤ MOST_ROWS }
        requires run { IsRun self.now table t ordinals.now births.now }
        requires same_length { length live.old ≡ length ordinals.now }
        requires parents_many { length parents.old ≡ length ordinals.now }
        requires births_many { length parents_births.old ≡ length ordinals.now }
        ensures live { live.new ≡ map (λ j. is_live (generator_of self.now) table t j) ordinals.now }
        ensures known { AreKnownOf self.now table t ordinals.now result parents.new parents_births.new }
        ensures steps { steps.new ≤ steps.old + length ordinals.now * asked_for_death self.now table }
    {
        let _sound = self.plan().schema(); // so a death is for good
        let mut all_ends = [0; MOST_ROWS];
        let all = &mut all_ends[..];
        let ends = &mut all[..ordinals.len()];
        put_unit(ends, t + 1);
        let by = self.put_drawn_ends(
            table,
            t,
            ordinals,
            births,
            ends,
            parents,
            parents_births,
            steps,
        );
        put_lasting(ends, t, live);
        by
    }

    /// Puts which rows of unit `born` have own lives that last past unit `t`.
    fn put_part_own_lives<L: Ledger>(
        &self,
        table: u32,
        t: u64,
        born: u64,
        ordinals: &[u64],
        live: &mut [bool],
        steps: &mut Steps<L>,
    )
        requires table { table < length self.now.schema.tables }
        requires born { born ≤ t }
        requires unit { t ≤ last_unit self.now }
        requires some { 1 ≤ length ordinals.now }
        requires lie { All (λ j. LiesIn (table_of self.now table).births born j) ordinals.now }
        requires same_length { length live.old ≡ length ordinals.now }
        ensures live { live.new ≡ map (λ j. is_after (own_death (generator_of self.now) table t j) t) ordinals.now }
        ensures steps { steps.new ≤ steps.old + length ordinals.now * one_if (do_lives_differ (table_of self.now table).life) }
    {
        let Some(life) = self.plan().life(table) else {
            put_live(live, true);
            return;
        };
        let _limits = self.plan().schema(); // there are at most 10,000 units
        let first = cohort(self.plan(), table, born).first;
        let order = self.order(table, Purpose::Lives, born);
        let lengths = FixedDivisor::new(life.most - life.least + 1);
        for i in 0..ordinals.len() {
            let place = order.place(ordinals[i] - first, steps);
            live[i] = is_within_life(life.least, &lengths, born, t, place);
        }
    }

    /// Puts which rows are alive at unit `t`, by which they must be born. Each row takes at most one step if lives of the table
    /// differ. For each cascading reference it takes at most what chooses the parent and the cost of the parent's death. Up to 256 adjacent rows
    /// take no step if all are sure to be alive or none is alive.
    pub fn put_lives<L: Ledger>(
        &self,
        table: u32,
        t: u64,
        ordinals: &[u64],
        births: &[u64],
        live: &mut [bool],
        steps: &mut Steps<L>,
    )
        requires table { table < length self.now.schema.tables }
        requires unit { t ≤ last_unit self.now }
        requires run { IsRun self.now table t ordinals.now births.now }
        requires same_length { length live.old ≡ length ordinals.now }
        ensures live { (i : ℕ) → i < length ordinals.now → get_or live.new i false ≡ is_live (generator_of self.now) table t (get_or ordinals.now i 0) }
        ensures same_length { length live.new ≡ length ordinals.now }
        ensures steps { steps.new ≤ steps.old + length ordinals.now * asked_for_death self.now table }
    {
        let mut all_parents = [0; MOST_ROWS];
        let parents = &mut all_parents[..];
        let mut all_parents_births = [0; MOST_ROWS];
        let parents_births = &mut all_parents_births[..];
        let mut from = 0;
        while from < births.len() {
            let count = (births.len() - from).min(MOST_ROWS);
            let until = from + count;
            self.put_run_lives(
                table,
                t,
                &ordinals[from..until],
                &births[from..until],
                &mut live[from..until],
                &mut parents[..count],
                &mut parents_births[..count],
                steps,
            );
            from = until;
        }
    }

    /// Puts which rows have own lives that last past unit `t`, by which they must be born. A row is alive if, besides, its parents
    /// by cascading references are alive (`laws::rows_live_while_their_parents_do`). `put_parents`, `put_births` and `put_lives`
    /// tell this of parents that are found once. Each row takes one step if lives of the table differ, else none.
    pub fn put_own_lives<L: Ledger>(
        &self,
        table: u32,
        t: u64,
        ordinals: &[u64],
        births: &[u64],
        live: &mut [bool],
        steps: &mut Steps<L>,
    )
        requires table { table < length self.now.schema.tables }
        requires unit { t ≤ last_unit self.now }
        requires run { IsRun self.now table t ordinals.now births.now }
        requires same_length { length live.old ≡ length ordinals.now }
        ensures live { (i : ℕ) → i < length ordinals.now → get_or live.new i false ≡ is_after (own_death (generator_of self.now) table t (get_or ordinals.now i 0)) t }
        ensures same_length { length live.new ≡ length ordinals.now }
        ensures steps { steps.new ≤ steps.old + length ordinals.now * one_if (do_lives_differ (table_of self.now table).life) }
    {
        let mut from = 0;
        while from < births.len() {
            let until = end_of_part(births, from);
            self.put_part_own_lives(
                table,
                t,
                births[from],
                &ordinals[from..until],
                &mut live[from..until],
                steps,
            );
            from = until;
        }
    }
}
