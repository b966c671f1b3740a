//! The orders of cohorts: of keys, lives, updates and chosen parents.

ghost use Rattle.std.specs.Prelude.{◌≡◌, ◌<◌, ◌≤◌, if◌then◌else◌, length, Some, None};
ghost use Rattle.philox_seeds.specs.SeedTree.{deal_seed};
ghost use Rattle.schema_facts.specs.Layout.{layout_of};
ghost use Rattle.life_intervals.specs.CohortOrders.{do_lives_differ, do_updates_differ, is_drawn, order_for, order_seed};
ghost use Rattle.life_intervals.specs.CohortParents.{IsReferenceOf, deal_by, window_by};
ghost use Rattle.life_intervals.specs.Generator.{last_unit, table_of};

use crate::births::cohort;
use crate::wanted::Wanted;
use crate::window::CandidateWindow;
use philox_seeds::{
    deal_seed, key_order_seed, life_order_seed, reference_order_seed, update_order_seed,
};
use schema_facts::Span;
use schema_plan::{Plan, ReadyReference};

/// What a row's place in an order of its cohort decides.
#[derive(Clone, Copy)]
pub(crate) enum Purpose {
    /// The row's key.
    Keys,
    /// How many units the row lives by itself.
    Lives,
    /// The units at which the row is due.
    Updates,
    /// The row's parent, by the reference in the column at a place.
    Parents(u32),
}

/// Whether rows of a table can live for different numbers of units.
fn do_lives_differ(life: Option<Span>) -> bool
    ensures { result ≡ do_lives_differ life }
{
    match life {
        Some(span) => span.least < span.most,
        None => false,
    }
}

/// Whether rows of one cohort can be due at different units.
fn do_updates_differ(update: Option<u64>) -> bool
    ensures { result ≡ do_updates_differ update }
{
    match update {
        Some(period) => period > 1,
        None => false,
    }
}

/// Whether places of a table's rows are drawn, so that what they decide can differ from row to row.
pub(crate) fn is_drawn(plan: &Plan, table: u32, purpose: Purpose) -> bool
    requires { table < length plan.now.schema.tables }
    ensures { result ≡ is_drawn (table_of plan.now table) purpose }
{
    match purpose {
        Purpose::Keys => plan.keys(table).scramble,
        Purpose::Lives => do_lives_differ(plan.life(table)),
        Purpose::Updates => do_updates_differ(plan.update(table)),
        Purpose::Parents(_) => true,
    }
}

/// Returns the seed of an order of the rows of a table that are born at a unit.
fn order_seed(plan: &Plan, table: u32, purpose: Purpose, unit: u64) -> u64
    requires { table < length plan.now.schema.tables }
    ensures { result ≡ order_seed plan.now table purpose unit }
{
    let seed = plan.seed();
    match purpose {
        Purpose::Keys => key_order_seed(seed, table, unit),
        Purpose::Lives => life_order_seed(seed, table, unit),
        Purpose::Updates => update_order_seed(seed, table, unit),
        Purpose::Parents(column) => reference_order_seed(seed, table, column, unit),
    }
}

/// Returns the order of the rows of a table that are born at a unit. It has a seed if their places are drawn.
pub(crate) fn wanted(plan: &Plan, table: u32, purpose: Purpose, unit: u64) -> Wanted
    requires table { table < length plan.now.schema.tables }
    requires unit { unit ≤ last_unit plan.now }
    ensures { result ≡ order_for plan.now table purpose unit }
{
    let size = cohort(plan, table, unit).size;
    Wanted {
        size,
        seed: if is_drawn(plan, table, purpose) && size > 0 {
            Some(order_seed(plan, table, purpose, unit))
        } else {
            None
        },
    }
}

/// Returns the order in which the candidates of the rows of a table that are born at a unit are dealt, by the reference in the column at
/// a place. It has a seed if the reference is drawn.
pub(crate) fn wanted_deal(
    plan: &Plan,
    table: u32,
    column: u32,
    reference: &ReadyReference,
    unit: u64,
    window: &CandidateWindow,
) -> Wanted
    requires table { table < length plan.now.schema.tables }
    requires reference { IsReferenceOf plan.now table column reference.now }
    requires column { column < 64 }
    requires unit { unit ≤ last_unit plan.now }
    requires window { window.now ≡ window_by plan.now reference.now unit }
    ensures { result ≡ deal_by plan.now table column reference.now unit }
{
    let _limits = plan.schema(); // a table has at most 2^40 rows
    Wanted {
        size: window.count.number(),
        seed: seed_of_deal(plan, table, column, reference, unit),
    }
}

/// Returns the seed of this order, or None if the reference deals in turn.
fn seed_of_deal(
    plan: &Plan,
    table: u32,
    column: u32,
    reference: &ReadyReference,
    unit: u64,
) -> Option<u64>
    requires { column < 64 }
    ensures { result ≡ (if reference.now.drawn then Some (deal_seed (layout_of plan.now).seed table column unit) else None) }
{
    if reference.drawn {
        Some(deal_seed(plan.seed(), table, column, unit))
    } else {
        None
    }
}
