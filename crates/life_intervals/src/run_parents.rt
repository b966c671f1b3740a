//! The parents of a run's rows, with their units of birth.

ghost use Rattle.std.specs.Prelude.{◌≡◌, ◌<◌, ◌≤◌, ◌+◌, ◌*◌, length};
ghost use Rattle.schema_facts.specs.Lineage.{choice_cost};
ghost use Rattle.life_intervals.specs.CohortParents.{IsReferenceOf};
ghost use Rattle.life_intervals.specs.Generator.{last_unit};
ghost use Rattle.life_intervals.specs.RunParents.{AreParentsOf};
ghost use Rattle.life_intervals.specs.Runs.{IsRun};

use crate::rows::Rows;
use schema_plan::ReadyReference;
use std::sync::ledger::Ledger;
use step_count::Steps;

impl<'a> Rows<'a> {
    /// Puts the ordinals and the units of birth of the parents that rows are born with, by the reference in the column at a place.
    /// The rows must be born by unit `t`. Each row takes one step, and one more if the reference is drawn.
    pub fn find_parents<L: Ledger>(
        &self,
        table: u32,
        column: usize,
        reference: &ReadyReference,
        t: u64,
        ordinals: &[u64],
        births: &[u64],
        parents: &mut [u64],
        parents_births: &mut [u64],
        steps: &mut Steps<L>,
    )
        requires table { table < length self.now.schema.tables }
        requires reference { IsReferenceOf self.now table column reference.now }
        requires unit { t ≤ last_unit self.now }
        requires run { IsRun self.now table t ordinals.now births.now }
        requires parents_many { length parents.old ≡ length ordinals.now }
        requires births_many { length parents_births.old ≡ length ordinals.now }
        ensures found { AreParentsOf self.now table t ordinals.now column reference.now parents.new parents_births.new }
        ensures steps { steps.new ≡ steps.old + length ordinals.now * choice_cost reference.now.drawn }
    {
        let _limits = self.plan().schema(); // the parent's table is an earlier one
        let _columns = self.plan().columns(table); // and there are at most 64 columns
        self.put_parents(
            table,
            column as u32,
            reference,
            ordinals,
            births,
            parents,
            steps,
        );
        self.put_births(reference.parent, t, parents, parents_births);
    }
}
