//! The rows of one table that a unit changes.

ghost use Rattle.std.specs.Prelude.{◌≡◌, ◌+◌, ◌*◌, ◌<◌, ◌≤◌, All, IfOk, length};
ghost use Rattle.schema_facts.specs.Layout.{layout_of};
ghost use Rattle.schema_facts.specs.References.{references_of};
ghost use Rattle.schema_facts.specs.TableFacts.{cost};
ghost use Rattle.life_intervals.specs.Generator.{generator_of, last_unit, table_of};
ghost use Rattle.update_box.specs.Candidates.{candidates};
ghost use Rattle.update_box.specs.Found.{HasDying, deletions_alone};
ghost use Rattle.update_box.specs.TableLists.{lists_of, no_lists};
ghost use Rattle.update_box.specs.UnitLists.{table_lists};

use crate::deletions::deletions;
use crate::updates::updates;
use life_intervals::{Cohort, Rows, cohort};
use out_of_memory::Memory;
use std::alloc::Global;
use std::sync::ledger::Ledger;
use step_count::Steps;

/// What a unit changes in a table: the rows that it deletes and updates, and the cohort that it inserts.
pub(crate) struct TableRows {
    /// The ordinals of the rows that the unit deletes, in rising order.
    pub(crate) deleted: Vec<u64>,
    /// The ordinals of the rows that the unit updates, in rising order.
    pub(crate) updated: Vec<u64>,
    /// The cohort that the unit inserts.
    pub(crate) inserted: Cohort,
}

impl Drop for TableRows {
    fn drop(self) {
        let TableRows {
            deleted,
            updated,
            inserted: _,
        } = self;
        drop(deleted);
        drop(updated);
    }
}

impl TableRows {
    /// Returns empty lists and an empty cohort.
    pub(crate) fn none(alloc: Global) -> TableRows
        ensures { lists_of result ≡ no_lists }
    {
        TableRows {
            deleted: Vec::new(alloc),
            updated: Vec::new(alloc),
            inserted: Cohort { first: 0, size: 0 },
        }
    }

    /// Returns only the rows of a table that unit `t` deletes. `before` holds the deleted rows of the earlier tables. Returns `Memory` if
    /// memory runs out.
    pub(crate) fn deleted_at<L: Ledger>(
        alloc: Global,
        rows: &Rows<'_>,
        table: u32,
        t: u64,
        before: &[TableRows],
        steps: &mut Steps<L>,
    ) -> Result<TableRows, Memory>
        requires table { table < length rows.now.schema.tables }
        requires unit { t ≤ last_unit rows.now }
        requires parents { All (λ reference. HasDying rows.now t before.now reference.parent) (references_of (table_of rows.now table)) }
        ensures rows { IfOk result (λ lists. lists_of lists ≡ deletions_alone rows.now t table) }
        ensures steps { steps.new ≤ steps.old + cost (layout_of rows.now) table * candidates rows.now table t }
    {
        let _sound = rows.plan().schema(); // so its tables are within their limits
        let deleted = deletions(alloc, rows, table, t, before, steps)?;
        Ok(TableRows {
            deleted,
            updated: Vec::new(alloc),
            inserted: Cohort { first: 0, size: 0 },
        })
    }

    /// Returns the rows of a table that the step to unit `t` deletes, updates and inserts. `before` holds the deleted rows of the earlier
    /// tables. Returns `Memory` if memory runs out.
    pub(crate) fn changed_at<L: Ledger>(
        alloc: Global,
        rows: &Rows<'_>,
        table: u32,
        t: u64,
        before: &[TableRows],
        steps: &mut Steps<L>,
    ) -> Result<TableRows, Memory>
        requires table { table < length rows.now.schema.tables }
        requires some { 1 ≤ t }
        requires unit { t ≤ last_unit rows.now }
        requires parents { All (λ reference. HasDying rows.now t before.now reference.parent) (references_of (table_of rows.now table)) }
        ensures rows { IfOk result (λ lists. lists_of lists ≡ table_lists rows.now t table) }
        ensures steps { steps.new ≤ steps.old + cost (layout_of rows.now) table * candidates rows.now table t }
    {
        let _sound = rows.plan().schema(); // so the simulation has a closed form
        let deleted = deletions(alloc, rows, table, t, before, steps)?;
        let updated = updates(alloc, rows, table, t, before, steps)?;
        Ok(TableRows {
            deleted,
            updated,
            inserted: cohort(rows.plan(), table, t),
        })
    }
}
