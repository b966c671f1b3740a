//! The parents of a run's rows, found once for all fields that need them.

ghost use Rattle.std.specs.Prelude.{◌≡◌, ◌≤◌, ◌+◌, ◌*◌, None, Some, length};
ghost use Rattle.schema_facts.specs.Lineage.{choice_cost};
ghost use Rattle.life_intervals.specs.CohortParents.{IsReferenceOf};
ghost use Rattle.row_lines.specs.RunFields.{AreRowsOf};
ghost use Rattle.row_lines.specs.RunParents.{AreKnown, AreParents, is_by};

use crate::runs::RunLines;
use draw_values::RunRows;
use schema_plan::ReadyReference;
use std::marker::Model;
use std::sync::ledger::Ledger;
use step_count::Steps;

/// The parents of a run's rows by the reference in a column: their ordinals and their units of birth. A contract sees both lists
/// and the column, which is None if the parents aren't found.
#[derive(Drop)]
pub(crate) struct Parents<'a> {
    pub(crate) by: Option<usize>,
    pub(crate) ordinals: &'a mut [u64],
    pub(crate) births: &'a mut [u64],
}

impl<'a> Model for Parents<'a> {
    ghost use Rattle.row_lines.specs.RunParents.{ParentsOf};

    ghost Value = { ParentsOf };

    ghost view = { λ p. record { by = p.by; ordinals = p.ordinals.now; births = p.births.now } };
}

impl<'a> Parents<'a> {
    /// Returns the parents' ordinals.
    #[inline(always)]
    pub(crate) fn ordinals(&self) -> &[u64]
        ensures { result.now ≡ self.now.ordinals }
    {
        &*self.ordinals
    }

    /// Returns the parents' units of birth.
    #[inline(always)]
    pub(crate) fn births(&self) -> &[u64]
        ensures { result.now ≡ self.now.births }
    {
        &*self.births
    }

    /// Whether these are the parents by the reference in a column.
    fn is_by(&self, column: usize) -> bool
        ensures { result ≡ is_by self.now column }
    {
        match self.by {
            Some(by) => by == column,
            None => false,
        }
    }
}

impl<'a> RunLines<'a> {
    /// Finds the rows' parents by the reference in the column at a place, unless they are known. Each row takes at most one step, and
    /// one more if the reference is drawn.
    pub(crate) fn find_parents<L: Ledger>(
        &self,
        column: usize,
        reference: &ReadyReference,
        rows: RunRows<'_>,
        parents: &mut Parents<'_>,
        steps: &mut Steps<L>,
    )
        requires reference { IsReferenceOf self.now.plan self.now.table column reference.now }
        requires rows { AreRowsOf self.now rows }
        requires known { AreKnown self.now rows.ordinals.now parents.old }
        ensures found { AreParents self.now rows.entry.ordinals.now column reference.now parents.new }
        ensures known { AreKnown self.now rows.entry.ordinals.now parents.new }
        ensures steps { steps.new ≤ steps.old + length rows.entry.ordinals.now * choice_cost reference.now.drawn }
    {
        if !parents.is_by(column) {
            let ordinals = &mut *parents.ordinals;
            let births = &mut *parents.births;
            self.rows.find_parents(
                self.table,
                column,
                reference,
                self.unit,
                rows.ordinals,
                rows.births,
                ordinals,
                births,
                steps,
            );
            parents.by = Some(column);
        }
    }
}
