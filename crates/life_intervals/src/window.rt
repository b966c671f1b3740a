//! The candidates among which a cohort's rows choose their parents by a reference.

ghost use Rattle.std.specs.Prelude.{◌≡◌, ◌+◌, ◌-◌, ◌*◌, ◌<◌, ◌≤◌, ◌^◌, All, length, map, max, sum};
ghost use Rattle.id_permutation.specs.Order.{order_steps, place_in};
ghost use Rattle.cohort_sizes.specs.Births.{born_count};
ghost use Rattle.schema_facts.specs.References.{IsSpread, first_in_window};
ghost use Rattle.life_intervals.specs.CohortParents.{window_by};
ghost use Rattle.life_intervals.specs.Generator.{last_unit, table_of};
ghost use Rattle.life_intervals.specs.References.{choice};

use crate::births::{born, cohort};
use crate::runs::add_start;
use fixed_divisors::FixedDivisor;
use id_permutation::Order;
use schema_plan::{Plan, ReadyReference};
use std::sync::ledger::Ledger;
use step_count::Steps;

/// The rows that are born in the window of a reference.
#[derive(Clone, Copy)]
pub(crate) struct CandidateWindow {
    /// The ordinal of the first row.
    pub(crate) first: u64,
    /// The number of rows; 1 if there are none, so that it can divide.
    pub(crate) count: FixedDivisor,
}

/// Returns the ordinal of the first row of a table that is born in a window that ends at `unit`.
fn first_in_window(plan: &Plan, table: u32, window: Option<u64>, unit: u64) -> u64
    requires table { table < length plan.now.schema.tables }
    requires unit { unit ≤ last_unit plan.now }
    ensures { result ≡ first_in_window (table_of plan.now table).births window unit }
{
    let start = match window {
        Some(units) => unit.saturating_sub(units),
        None => 0,
    };
    cohort(plan, table, start).first
}

/// Returns how many rows of a table are born from an ordinal on up to `unit`, as a divisor; 1 if there are none.
fn count_from(plan: &Plan, table: u32, first: u64, unit: u64) -> FixedDivisor
    requires table { table < length plan.now.schema.tables }
    requires unit { unit ≤ last_unit plan.now }
    ensures { result ≡ max 1 (born_count (table_of plan.now table).births unit - first) }
{
    let count = born(plan, table, unit).saturating_sub(first);
    FixedDivisor::new(count.max(1))
}

/// Returns the number of the candidate that a place in a cohort chooses among `count` candidates, by a spread.
#[inline(always)]
fn chosen(reference: &ReadyReference, count: &FixedDivisor, place: u64) -> u64
    requires place { place < 2 ^ 40 }
    requires groups { reference.now.groups ≡ length reference.now.spread }
    requires total { reference.now.total ≡ sum reference.now.spread }
    requires spread { IsSpread reference.now.spread }
    ensures exact { result ≡ choice reference.now.spread count.now place }
    ensures below { result < count.now }
{
    let turn = reference.total.divide(place);
    let group = reference.spread.select(turn.remainder) as u64;
    count.remainder(turn.quotient * reference.groups + group)
}

impl CandidateWindow {
    /// Returns the window of a reference for the rows of its table that are born at a unit.
    pub(crate) fn of_cohort(plan: &Plan, reference: &ReadyReference, unit: u64) -> CandidateWindow
        requires parent { reference.now.parent < length plan.now.schema.tables }
        requires unit { unit ≤ last_unit plan.now }
        ensures { result ≡ window_by plan.now reference.now unit }
    {
        let first = first_in_window(plan, reference.parent, reference.window, unit);
        CandidateWindow {
            first,
            count: count_from(plan, reference.parent, first, unit),
        }
    }

    /// Returns the ordinal of the parent that a place in the cohort chooses, as its candidates are dealt.
    #[inline(always)]
    pub(crate) fn parent<L: Ledger>(
        &self,
        reference: &ReadyReference,
        deal: &Order<'_>,
        place: u64,
        steps: &mut Steps<L>,
    ) -> u64
        requires place { place < 2 ^ 40 }
        requires first { self.now.first ≤ 2 ^ 40 }
        requires count { self.now.count ≤ 2 ^ 40 }
        requires deal { deal.now.size ≡ self.now.count }
        requires groups { reference.now.groups ≡ length reference.now.spread }
        requires total { reference.now.total ≡ sum reference.now.spread }
        requires spread { IsSpread reference.now.spread }
        ensures parent { result ≡ self.now.first + place_in deal.now (choice reference.now.spread self.now.count place) }
        ensures steps { steps.new ≡ steps.old + order_steps deal.now }
    {
        self.first + deal.place(chosen(reference, &self.count, place), steps)
    }

    /// Replaces places in the cohort with the numbers, in turn, of the candidates that they choose.
    fn put_numbers(&self, reference: &ReadyReference, places: &mut [u64])
        requires places { All (λ place. place < 2 ^ 40) places.old }
        requires groups { reference.now.groups ≡ length reference.now.spread }
        requires total { reference.now.total ≡ sum reference.now.spread }
        requires spread { IsSpread reference.now.spread }
        ensures { places.new ≡ map (λ place. choice reference.now.spread self.now.count place) places.old }
    {
        let count = self.count; // a copy, so that no write to the places can change it
        for i in 0..places.len() {
            places[i] = chosen(reference, &count, places[i]);
        }
    }

    /// Replaces places in the cohort with the ordinals of the parents that they choose, as their candidates are dealt.
    pub(crate) fn put_parents<L: Ledger>(
        &self,
        reference: &ReadyReference,
        deal: &Order<'_>,
        places: &mut [u64],
        steps: &mut Steps<L>,
    )
        requires places { All (λ place. place < 2 ^ 40) places.old }
        requires first { self.now.first ≤ 2 ^ 40 }
        requires some { 1 ≤ self.now.count }
        requires count { self.now.count ≤ 2 ^ 40 }
        requires deal { deal.now.size ≡ self.now.count }
        requires groups { reference.now.groups ≡ length reference.now.spread }
        requires total { reference.now.total ≡ sum reference.now.spread }
        requires spread { IsSpread reference.now.spread }
        ensures parents { places.new ≡ map (λ place. self.now.first + place_in deal.now (choice reference.now.spread self.now.count place)) places.old }
        ensures steps { steps.new ≡ steps.old + length places.old * order_steps deal.now }
    {
        self.put_numbers(reference, places);
        deal.places(places, steps);
        add_start(places, self.first);
    }
}
