//! The rows of a table that a unit updates.

ghost use Rattle.std.specs.Prelude.{◌≡◌, ◌+◌, ◌*◌, ◌<◌, ◌≤◌, All, IfOk, OnOk, is_none, length};
ghost use Rattle.schema_facts.specs.Layout.{layout_of};
ghost use Rattle.schema_facts.specs.Lineage.{death_cost, sure_life};
ghost use Rattle.schema_facts.specs.References.{references_of};
ghost use Rattle.life_intervals.specs.Generator.{generator_of, last_unit, table_of};
ghost use Rattle.life_intervals.specs.Intervals.{changing};
ghost use Rattle.update_box.specs.Candidates.{due, is_young, looked_at_to_update, pairs_to_update};
ghost use Rattle.update_box.specs.Found.{HasDying};
ghost use Rattle.life_intervals.specs.FoundAt.{AreAppended};

use crate::candidates::{push_losing_by, put_in_order};
use crate::fates::{Fate, keep};
use crate::table_rows::TableRows;
use life_intervals::Rows;
use out_of_memory::Memory;
use schema_model::OnDelete;
use schema_plan::Plan;
use std::alloc::Global;
use std::sync::ledger::Ledger;
use step_count::Steps;

/// Tells whether the longest life of a row that is born at unit `born` ends after unit `t`. The row is born by `t`.
fn is_young(plan: &Plan, table: u32, born: u64, t: u64) -> bool
    requires table { table < length plan.now.schema.tables }
    requires born { born ≤ t }
    ensures { result ≡ is_young plan.now table born t }
{
    match plan.longest_life(table) {
        Some(life) => t - born < life,
        None => true,
    }
}

/// Appends to a list the rows of a table that are due at unit `t`. The rows are born before `t`, in cohorts whose longest life ends after
/// `t`. Takes at most one step for each row.
fn push_all_due<L: Ledger>(
    rows: &Rows<'_>,
    table: u32,
    t: u64,
    list: &mut Vec<u64>,
    steps: &mut Steps<L>,
) -> Result<(), Memory>
    requires table { table < length rows.now.schema.tables }
    requires unit { t ≤ last_unit rows.now }
    ensures rows { OnOk result (AreAppended (due rows.now table t) list.old.items list.new.items) }
    ensures steps { steps.new ≤ steps.old + length (due rows.now table t) }
{
    for born in 0..t {
        if is_young(rows.plan(), table, born, t) {
            rows.push_due(table, born, t, list, steps)?;
        }
    }
    Ok(())
}

/// Tells whether no row of a table ever dies.
fn is_endless(plan: &Plan, table: u32) -> bool
    requires { table < length plan.now.schema.tables }
    ensures { result ≡ is_none (sure_life (layout_of plan.now).tables table) }
{
    plan.sure_life(table).is_none()
}

/// Returns the rows of a table that unit `t` updates, in rising order. `before` holds the deleted rows of the earlier tables. Returns
/// `Memory` if memory runs out.
pub(crate) fn updates<L: Ledger>(
    alloc: Global,
    rows: &Rows<'_>,
    table: u32,
    t: u64,
    before: &[TableRows],
    steps: &mut Steps<L>,
) -> Result<Vec<u64>, Memory>
    requires table { table < length rows.now.schema.tables }
    requires some { 1 ≤ t }
    requires unit { t ≤ last_unit rows.now }
    requires parents { All (λ reference. HasDying rows.now t before.now reference.parent) (references_of (table_of rows.now table)) }
    ensures rows { IfOk result (λ list. list.items ≡ changing (generator_of rows.now) table t) }
    ensures steps { steps.new ≤ steps.old + looked_at_to_update rows.now table t * (1 + death_cost (layout_of rows.now).tables table) + pairs_to_update rows.now table t }
{
    let _sound = rows.plan().schema(); // so a row changes where it is due or loses a parent
    let mut list = Vec::new(alloc);
    push_all_due(rows, table, t, &mut list, steps)?;
    push_losing_by(rows, table, OnDelete::Null, t, before, &mut list, steps)?;
    put_in_order(&mut list);
    if !is_endless(rows.plan(), table) {
        keep(rows, table, Fate::Lives, t, &mut list, steps);
    }
    Ok(list)
}
