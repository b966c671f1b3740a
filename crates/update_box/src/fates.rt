//! Which candidates a unit deletes, and which live on.

ghost use Rattle.std.specs.Prelude.{◌≡◌, ◌+◌, ◌*◌, ◌<◌, ◌≤◌, All, filter, length};
ghost use Rattle.cohort_sizes.specs.Births.{first_ordinal};
ghost use Rattle.schema_facts.specs.Layout.{layout_of};
ghost use Rattle.schema_facts.specs.Lineage.{death_cost};
ghost use Rattle.life_intervals.specs.Generator.{last_unit, table_of};
ghost use Rattle.update_box.specs.Candidates.{dies_at, lives_at};
ghost use Rattle.update_box.specs.Fates.{has_fate};

use life_intervals::{Rows, Survival, find, survival_at};
use std::sync::ledger::Ledger;
use step_count::Steps;

/// What can happen to a row at a unit.
#[derive(Clone, Copy)]
pub(crate) enum Fate {
    /// The row dies at the unit.
    Dies,
    /// The row is alive at the unit.
    Lives,
}

/// Tells whether a row dies at unit `t`. The row is born before `t`. Takes at most as many steps as the cost of a death.
fn dies<L: Ledger>(rows: &Rows<'_>, table: u32, ordinal: u64, t: u64, steps: &mut Steps<L>) -> bool
    requires table { table < length rows.now.schema.tables }
    requires unit { t ≤ last_unit rows.now }
    requires born { ordinal < first_ordinal (table_of rows.now table).births t }
    ensures dies { result ≡ dies_at rows.now table t ordinal }
    ensures steps { steps.new ≤ steps.old + death_cost (layout_of rows.now).tables table }
{
    match rows.death(table, ordinal, steps) {
        Some(death) => death == t,
        None => false,
    }
}

/// Tells whether a row is alive at unit `t`. The row is born before `t`. Takes no step if its whole cohort surely lives, and otherwise at
/// most as many as the cost of a death.
fn lives<L: Ledger>(rows: &Rows<'_>, table: u32, ordinal: u64, t: u64, steps: &mut Steps<L>) -> bool
    requires table { table < length rows.now.schema.tables }
    requires unit { t ≤ last_unit rows.now }
    requires born { ordinal < first_ordinal (table_of rows.now table).births t }
    ensures lives { result ≡ lives_at rows.now table t ordinal }
    ensures steps { steps.new ≤ steps.old + death_cost (layout_of rows.now).tables table }
{
    let plan = rows.plan();
    let _sound = plan.schema(); // so a death asks at most its cost
    let row = find(plan, table, ordinal);
    if let Survival::Sure = survival_at(plan, table, row.born, t) {
        return true;
    }
    rows.is_live(table, row, t, steps)
}

/// Tells whether a row has a fate at unit `t`. The row is born before `t`.
fn has_fate<L: Ledger>(
    rows: &Rows<'_>,
    table: u32,
    ordinal: u64,
    fate: Fate,
    t: u64,
    steps: &mut Steps<L>,
) -> bool
    requires table { table < length rows.now.schema.tables }
    requires unit { t ≤ last_unit rows.now }
    requires born { ordinal < first_ordinal (table_of rows.now table).births t }
    ensures fate { result ≡ has_fate rows.now table t fate ordinal }
    ensures steps { steps.new ≤ steps.old + death_cost (layout_of rows.now).tables table }
{
    match fate {
        Fate::Dies => dies(rows, table, ordinal, t, steps),
        Fate::Lives => lives(rows, table, ordinal, t, steps),
    }
}

/// Keeps the rows in a list that have a fate at unit `t`, in their order. The rows are born before `t`. Takes for each row at most as many
/// steps as the cost of a death.
pub(crate) fn keep<L: Ledger>(
    rows: &Rows<'_>,
    table: u32,
    fate: Fate,
    t: u64,
    list: &mut Vec<u64>,
    steps: &mut Steps<L>,
)
    requires table { table < length rows.now.schema.tables }
    requires unit { t ≤ last_unit rows.now }
    requires born { All (λ ordinal. ordinal < first_ordinal (table_of rows.now table).births t) list.old.items }
    ensures kept { list.new.items ≡ filter (has_fate rows.now table t fate) list.old.items }
    ensures steps { steps.new ≤ steps.old + length list.old.items * death_cost (layout_of rows.now).tables table }
{
    let mut kept = 0;
    for i in 0..list.len() {
        let ordinal = list[i];
        if has_fate(rows, table, ordinal, fate, t, steps) {
            list[kept] = ordinal;
            kept += 1;
        }
    }
    list.truncate(kept);
}
