//! The candidates of a unit that lose a parent, and the sorting of all candidates.

ghost use Rattle.std.specs.Prelude.{◌≡◌, ℕ, ◌+◌, ◌<◌, ◌≤◌, All, OnOk, false, filter, length, nat_lt, true};
ghost use Rattle.std.specs.List.Sorted.{IsNonDecreasing, IsPartitionPoint, IsStrictlyIncreasing};
ghost use Rattle.cohort_sizes.specs.Births.{born_count};
ghost use Rattle.schema_facts.specs.References.{first_in_window, references_of};
ghost use Rattle.life_intervals.specs.CohortParents.{IsReferenceOf, reference_by};
ghost use Rattle.life_intervals.specs.Generator.{generator_of, last_unit, table_of};
ghost use Rattle.life_intervals.specs.Intervals.{dying};
ghost use Rattle.update_box.specs.Candidates.{children_near, is_on_ready, losing, losing_by, pairs, pairs_at, pairs_by, references_on};
ghost use Rattle.update_box.specs.Found.{HasDying};
ghost use Rattle.update_box.specs.Ordinals.{is_one_of, lies_within};
ghost use Rattle.life_intervals.specs.FoundAt.{AreAppended};

use crate::table_rows::TableRows;
use life_intervals::{Rows, born, cohort};
use out_of_memory::Memory;
use schema_model::OnDelete;
use schema_plan::{Plan, ReadyKind, ReadyReference};
use std::sync::ledger::Ledger;
use step_count::Steps;

/// Returns the first ordinal of the parent rows that are born in the window of the cohort of unit `unit`.
fn first_in_window(plan: &Plan, reference: &ReadyReference, unit: u64) -> u64
    requires parent { reference.now.parent < length plan.now.schema.tables }
    requires unit { unit ≤ last_unit plan.now }
    ensures { result ≡ first_in_window (table_of plan.now reference.now.parent).births reference.now.window unit }
{
    let start = match reference.window {
        Some(units) => unit.saturating_sub(units),
        None => 0,
    };
    cohort(plan, reference.parent, start).first
}

/// Counts the ordinals below a limit. The ordinals don't fall.
fn count_below(ordinals: &[u64], limit: u64) -> usize
    requires { IsNonDecreasing ordinals.now }
    ensures bound { result ≤ length ordinals.now }
    ensures parted { IsPartitionPoint (λ ordinal. nat_lt ordinal limit ≡ true) (λ ordinal. nat_lt ordinal limit ≡ false) ordinals.now result }
{
    ordinals.partition_point(|ordinal| *ordinal < limit)
}

/// Returns the ordinals from `first` up to `end`. The ordinals don't fall.
fn within(ordinals: &[u64], first: u64, end: u64) -> &[u64]
    requires { IsNonDecreasing ordinals.now }
    ensures { result.now ≡ filter (lies_within first end) ordinals.now }
{
    let rest = &ordinals[count_below(ordinals, first)..];
    &rest[..count_below(rest, end)]
}

/// Returns the parent rows that are born in the window of the cohort of unit `unit`. `parents` holds ordinals that don't fall.
fn near<'a>(plan: &Plan, reference: &ReadyReference, unit: u64, parents: &'a [u64]) -> &'a [u64]
    requires parent { reference.now.parent < length plan.now.schema.tables }
    requires unit { unit ≤ last_unit plan.now }
    requires order { IsNonDecreasing parents.now }
    ensures { result.now ≡ filter (lies_within (first_in_window (table_of plan.now reference.now.parent).births reference.now.window unit) (born_count (table_of plan.now reference.now.parent).births unit)) parents.now }
{
    let first = first_in_window(plan, reference, unit);
    within(parents, first, born(plan, reference.parent, unit))
}

/// Appends to a list the children that some rows have by a reference, in the cohort born at `unit`. `parents` holds ordinals that don't fall,
/// and only those that are born in the window are asked. Takes at most one step for each child, and one for each of those parents if the
/// reference is drawn. If the cohort is empty it takes none.
fn push_children_near<L: Ledger>(
    rows: &Rows<'_>,
    table: u32,
    column: u32,
    reference: &ReadyReference,
    unit: u64,
    parents: &[u64],
    list: &mut Vec<u64>,
    steps: &mut Steps<L>,
) -> Result<(), Memory>
    requires table { table < length rows.now.schema.tables }
    requires reference { IsReferenceOf rows.now table column reference.now }
    requires unit { unit ≤ last_unit rows.now }
    requires order { IsNonDecreasing parents.now }
    ensures rows { OnOk result (AreAppended (children_near rows.now table (reference_by column reference.now) unit parents.now) list.old.items list.new.items) }
    ensures steps { steps.new ≤ steps.old + pairs_at rows.now table (reference_by column reference.now) unit parents.now + length (children_near rows.now table (reference_by column reference.now) unit parents.now) }
{
    let plan = rows.plan();
    let _limits = plan.schema(); // the parent's table is an earlier one
    if cohort(plan, table, unit).size == 0 {
        return Ok(());
    }
    let near = near(plan, reference, unit, parents);
    if near.is_empty() {
        return Ok(());
    }
    rows.push_children(table, column, reference, unit, near, list, steps)
}

/// Appends to a list the rows of a table whose parent by a reference dies at unit `t`. The rows are born before `t`. `column` is the place of
/// the reference's column, and `parents` holds the parent rows that die at `t`. Takes at most one step for each row. If the reference is drawn,
/// it takes one more for each of `parents` at each earlier unit whose cohort isn't empty and in whose window that parent is born.
fn push_losing<L: Ledger>(
    rows: &Rows<'_>,
    table: u32,
    column: u32,
    reference: &ReadyReference,
    parents: &[u64],
    t: u64,
    list: &mut Vec<u64>,
    steps: &mut Steps<L>,
) -> Result<(), Memory>
    requires table { table < length rows.now.schema.tables }
    requires reference { IsReferenceOf rows.now table column reference.now }
    requires parents { parents.now ≡ dying (generator_of rows.now) reference.now.parent t }
    requires unit { t ≤ last_unit rows.now }
    ensures rows { OnOk result (AreAppended (losing rows.now table t (reference_by column reference.now)) list.old.items list.new.items) }
    ensures steps { steps.new ≤ steps.old + length (losing rows.now table t (reference_by column reference.now)) + pairs rows.now table t (reference_by column reference.now) }
{
    let _limits = rows.plan().schema(); // a row's parent is born in the window
    if parents.is_empty() {
        return Ok(());
    }
    for unit in 0..t {
        push_children_near(rows, table, column, reference, unit, parents, list, steps)?;
    }
    Ok(())
}

/// Tells whether a reference does `on_delete` to a row when its parent is deleted.
fn is_on(on_delete: OnDelete, reference: &ReadyReference) -> bool
    ensures { result ≡ is_on_ready on_delete reference.now }
{
    match on_delete {
        OnDelete::Cascade => !reference.nulls,
        OnDelete::Null => reference.nulls,
    }
}

/// Appends to a list the rows of a table that lose a parent at unit `t`, for each reference of the kind `on_delete`. The rows are born before
/// `t`. `before` holds the deleted rows of the earlier tables. Takes at most one step for each row, and for each drawn reference one for each
/// pair of a parent that dies and an earlier unit whose cohort isn't empty and in whose window it is born.
pub(crate) fn push_losing_by<L: Ledger>(
    rows: &Rows<'_>,
    table: u32,
    on_delete: OnDelete,
    t: u64,
    before: &[TableRows],
    list: &mut Vec<u64>,
    steps: &mut Steps<L>,
) -> Result<(), Memory>
    requires table { table < length rows.now.schema.tables }
    requires unit { t ≤ last_unit rows.now }
    requires parents { All (λ reference. HasDying rows.now t before.now reference.parent) (references_of (table_of rows.now table)) }
    ensures rows { OnOk result (AreAppended (losing_by rows.now table t (references_on on_delete (table_of rows.now table))) list.old.items list.new.items) }
    ensures steps { steps.new ≤ steps.old + length (losing_by rows.now table t (references_on on_delete (table_of rows.now table))) + pairs_by rows.now table t (references_on on_delete (table_of rows.now table)) }
{
    for (column, ready) in rows.plan().columns(table).iter().enumerate() {
        if let ReadyKind::Reference(reference) = &ready.kind {
            if is_on(on_delete, reference) {
                let parents = before[reference.parent as usize].deleted.as_slice();
                push_losing(
                    rows,
                    table,
                    column as u32,
                    reference,
                    parents,
                    t,
                    list,
                    steps,
                )?;
            }
        }
    }
    Ok(())
}

/// Sorts ordinals in rising order and removes duplicates.
pub(crate) fn put_in_order(list: &mut Vec<u64>)
    ensures rising { IsStrictlyIncreasing list.new.items }
    ensures same { (ordinal : ℕ) → is_one_of list.new.items ordinal ≡ is_one_of list.old.items ordinal }
    ensures bound { length list.new.items ≤ length list.old.items }
{
    list.sort_unstable();
    list.dedup();
}
