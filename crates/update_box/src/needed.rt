//! The tables in which a unit's deletions are searched for.

ghost use Rattle.std.specs.Prelude.{◌≡◌, ℕ, ◌<◌, ◌≤◌, ◌⊎◌, All, IfOk, Some, length, true};
ghost use Rattle.schema_facts.specs.References.{references_of};
ghost use Rattle.life_intervals.specs.Generator.{table_of};
ghost use Rattle.update_box.specs.Found.{AreNeeded, is_needed, refers_to};

use out_of_memory::Memory;
use schema_plan::{Plan, ReadyKind};
use std::alloc::Global;

/// Marks the tables to which the table at a place refers, if that table is marked itself.
fn mark_parents(plan: &Plan, place: u32, marks: &mut Vec<bool>)
    requires place { place < length plan.now.schema.tables }
    requires marks { length marks.old.items ≡ length plan.now.schema.tables }
    ensures all { length marks.new.items ≡ length marks.old.items }
    ensures kept { (other : ℕ) → is_needed marks.old.items other ≡ true → is_needed marks.new.items other ≡ true }
    ensures later { (other : ℕ) → place ≤ other → is_needed marks.new.items other ≡ is_needed marks.old.items other }
    ensures no_others { (other : ℕ) → is_needed marks.new.items other ≡ true → (is_needed marks.old.items other ≡ true) ⊎ ((is_needed marks.old.items place ≡ true) × (refers_to plan.now place other ≡ true)) }
    ensures parents { is_needed marks.old.items place ≡ true → All (λ reference. is_needed marks.new.items reference.parent ≡ true) (references_of (table_of plan.now place)) }
{
    let _limits = plan.schema(); // a parent's table is an earlier one
    if !marks[place as usize] {
        return;
    }
    for ready in plan.columns(place) {
        if let ReadyKind::Reference(reference) = &ready.kind {
            marks[reference.parent as usize] = true;
        }
    }
}

/// Returns a mark for each table: the table at a place is marked, and each table to which a marked table refers.
fn tables_behind(alloc: Global, plan: &Plan, place: u32) -> Result<Vec<bool>, Memory>
    ensures { IfOk result (λ needed. AreNeeded plan.now (Some place) needed.items) }
{
    let count = plan.tables();
    let mut marks = vec![in alloc; false; count as usize]?;
    if place < count {
        marks[place as usize] = true;
        for before in 0..place + 1 {
            mark_parents(plan, place - before, &mut marks);
        }
    }
    Ok(marks)
}

/// Tells for each table whether it is needed to find what a unit changes in the chosen tables. The chosen tables are needed, and each table
/// to which a needed table refers.
pub(crate) fn needed_tables(
    alloc: Global,
    plan: &Plan,
    table: Option<u32>,
) -> Result<Vec<bool>, Memory>
    ensures { IfOk result (λ needed. AreNeeded plan.now table needed.items) }
{
    let _limits = plan.schema(); // a parent's table is one of them
    match table {
        None => Ok(vec![in alloc; true; plan.tables() as usize]?),
        Some(place) => tables_behind(alloc, plan, place),
    }
}
