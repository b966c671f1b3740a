//! Where the references of a row lead.

ghost use Rattle.std.specs.Prelude.{◌≡◌, ◌<◌, ◌≤◌, length, take};
ghost use Rattle.life_intervals.specs.CohortParents.{IsReferenceOf, held_in, reference_by};
ghost use Rattle.life_intervals.specs.Found.{IsFound, cohort_of_row};
ghost use Rattle.life_intervals.specs.Generator.{generator_of, last_unit};
ghost use Rattle.life_intervals.specs.Intervals.{row_at};
ghost use Rattle.keeper_play.specs.Statements.{reference_to, refs_of};
ghost use Rattle.keeper_play.specs.declared.refs.TheConstants.{MOST_REFS};

use life_intervals::{FoundRow, Rows};
use row_keeper::RefTo;
use schema_plan::{ReadyKind, ReadyReference};
use std::sync::ledger::Ledger;
use step_count::Steps;

/// The most references of a row: one for each column of a table.
pub(crate) const MOST_REFS: usize = 64;

/// Room for the references of a row.
pub(crate) const NO_REFS: [RefTo; MOST_REFS] = [RefTo {
    column: 0,
    table: 0,
    key: 0,
}; MOST_REFS];

/// Finds where the references of a found row lead at unit `t`. The row is born by `t`. Puts them at the front of `refs`, in the order of
/// their columns and without the null ones, and returns how many there are.
pub(crate) fn find_refs<L: Ledger>(
    rows: &Rows<'_>,
    table: u32,
    row: FoundRow,
    t: u64,
    refs: &mut [RefTo],
    steps: &mut Steps<L>,
) -> usize
    requires table { table < length rows.now.schema.tables }
    requires row { IsFound rows.now table row }
    requires born { row.born ≤ t }
    requires unit { t ≤ last_unit rows.now }
    requires room { MOST_REFS ≤ length refs.old }
    ensures within { result ≤ length refs.new }
    ensures refs { take result refs.new ≡ refs_of (generator_of rows.now) table (row_at (generator_of rows.now) table t row.ordinal) }
{
    let _limits = rows.plan().schema(); // a table has no more columns than there is room for
    let mut count = 0;
    for (column, ready) in rows.plan().columns(table).iter().enumerate() {
        if let ReadyKind::Reference(reference) = &ready.kind {
            if let Some(found) = find_ref(rows, table, row, column as u32, reference, t, steps) {
                refs[count] = found;
                count += 1;
            }
        }
    }
    count
}

/// Returns where the reference of the column at a place leads; None if it is null at unit `t`.
fn find_ref<L: Ledger>(
    rows: &Rows<'_>,
    table: u32,
    row: FoundRow,
    column: u32,
    reference: &ReadyReference,
    t: u64,
    steps: &mut Steps<L>,
) -> Option<RefTo>
    requires table { table < length rows.now.schema.tables }
    requires row { IsFound rows.now table row }
    requires reference { IsReferenceOf rows.now table column reference.now }
    ensures { result ≡ reference_to (generator_of rows.now) row.born (reference_by column reference.now, held_in (cohort_of_row rows.now table row) row.index t (reference_by column reference.now)) }
{
    let _limits = rows.plan().schema(); // the reference leads to an earlier table
    let parent = rows.found_held_parent(table, row, column, reference, t, steps)?;
    Some(RefTo {
        column,
        table: reference.parent,
        key: rows.key(reference.parent, parent, steps),
    })
}
