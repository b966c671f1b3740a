//! The rows of a table that a unit deletes.

ghost use Rattle.std.specs.Prelude.{◌≡◌, ◌+◌, ◌*◌, ◌<◌, ◌≤◌, All, IfOk, OnOk, count_by, length, nat_lt};
ghost use Rattle.schema_facts.specs.Layout.{layout_of};
ghost use Rattle.schema_facts.specs.Lineage.{death_cost};
ghost use Rattle.schema_facts.specs.References.{references_of};
ghost use Rattle.life_intervals.specs.Generator.{generator_of, last_unit, table_of};
ghost use Rattle.life_intervals.specs.Intervals.{dying};
ghost use Rattle.update_box.specs.Candidates.{ending, endings, is_cascade, looked_at_to_delete, pairs_to_delete};
ghost use Rattle.update_box.specs.Found.{HasDying};
ghost use Rattle.life_intervals.specs.FoundAt.{AreAppended};

use crate::candidates::{push_losing_by, put_in_order};
use crate::fates::{Fate, keep};
use crate::table_rows::TableRows;
use life_intervals::Rows;
use out_of_memory::Memory;
use schema_model::OnDelete;
use schema_plan::{Plan, ReadyColumn, ReadyKind};
use std::alloc::Global;
use std::sync::ledger::Ledger;
use step_count::Steps;

/// Appends to a list the rows of a table whose own lives end at unit `t`. The rows are born before `t`. Takes at most one step for each row.
fn push_all_ending<L: Ledger>(
    rows: &Rows<'_>,
    table: u32,
    t: u64,
    list: &mut Vec<u64>,
    steps: &mut Steps<L>,
) -> Result<(), Memory>
    requires table { table < length rows.now.schema.tables }
    requires unit { t ≤ last_unit rows.now }
    ensures rows { OnOk result (AreAppended (ending rows.now table t) list.old.items list.new.items) }
    ensures steps { steps.new ≤ steps.old + length (ending rows.now table t) }
{
    for born in 0..t {
        rows.push_ending(table, born, t, list, steps)?;
    }
    Ok(())
}

/// Tells whether a column is a cascading reference.
fn is_cascade(column: &ReadyColumn) -> bool
    ensures { result ≡ is_cascade column.now }
{
    match &column.kind {
        ReadyKind::Reference(reference) => !reference.nulls,
        _ => false,
    }
}

/// Counts the cascading references among columns.
fn count_cascades(columns: &[ReadyColumn]) -> usize
    ensures { result ≡ count_by is_cascade columns.now }
{
    let mut count = 0;
    for column in columns {
        if is_cascade(column) {
            count += 1;
        }
    }
    count
}

/// Tells whether more than one thing can end a row of a table: its own life, or the death of a parent by a cascading reference.
fn has_many_endings(plan: &Plan, table: u32) -> bool
    requires { table < length plan.now.schema.tables }
    ensures { result ≡ nat_lt 1 (endings (table_of plan.now table)) }
{
    let cascades = count_cascades(plan.columns(table));
    match plan.life(table) {
        Some(_) => cascades > 0,
        None => cascades > 1,
    }
}

/// Returns the rows of a table that unit `t` deletes, in rising order. `before` holds the deleted rows of the earlier tables. Returns
/// `Memory` if memory runs out.
pub(crate) fn deletions<L: Ledger>(
    alloc: Global,
    rows: &Rows<'_>,
    table: u32,
    t: u64,
    before: &[TableRows],
    steps: &mut Steps<L>,
) -> Result<Vec<u64>, Memory>
    requires table { table < length rows.now.schema.tables }
    requires unit { t ≤ last_unit rows.now }
    requires parents { All (λ reference. HasDying rows.now t before.now reference.parent) (references_of (table_of rows.now table)) }
    ensures rows { IfOk result (λ list. list.items ≡ dying (generator_of rows.now) table t) }
    ensures steps { steps.new ≤ steps.old + looked_at_to_delete rows.now table t * (1 + death_cost (layout_of rows.now).tables table) + pairs_to_delete rows.now table t }
{
    let _sound = rows.plan().schema(); // so a row dies with its parents
    let mut list = Vec::new(alloc);
    push_all_ending(rows, table, t, &mut list, steps)?;
    push_losing_by(rows, table, OnDelete::Cascade, t, before, &mut list, steps)?;
    put_in_order(&mut list);
    if has_many_endings(rows.plan(), table) {
        keep(rows, table, Fate::Dies, t, &mut list, steps);
    }
    Ok(list)
}
