//! The parents of rows, the units up to which rows have them, and the deaths of rows.

ghost use Rattle.std.specs.Prelude.{◌≡◌, ℕ, ◌+◌, ◌<◌, ◌≤◌, IfSome, Some, false, is_none, is_some, length, true};
ghost use Rattle.std.specs.List.{list_any};
ghost use Rattle.cohort_sizes.specs.Births.{born_count};
ghost use Rattle.schema_facts.specs.Layout.{layout_of};
ghost use Rattle.schema_facts.specs.Lineage.{choice_cost, death_cost, lesser_life, loss_cost, sure_life};
ghost use Rattle.schema_plan.specs.Ready.{ready_columns};
ghost use Rattle.schema_facts.specs.References.{Reference, reference_at};
ghost use Rattle.life_intervals.specs.Changes.{has_nullings, last_change, later_change};
ghost use Rattle.life_intervals.specs.CohortParents.{IsReferenceOf, asked_for_death, cascades_cost, held_cost, held_in, is_nulling, losses_in, parent_cost, parent_death_in, parent_in, parents_death_in, reference_by};
ghost use Rattle.life_intervals.specs.Found.{IsFound, cohort_of_row};
ghost use Rattle.life_intervals.specs.Generator.{generator_of, last_unit, rows_in_all, table_of};
ghost use Rattle.life_intervals.specs.Intervals.{death, held_parent, held_until, is_after, is_live, parent_of};
ghost use Rattle.life_intervals.specs.Simulation.{holds_row, rows_at};

use crate::found::{FoundRow, find};
use crate::orders::Purpose;
use crate::rows::Rows;
use schema_plan::{Plan, ReadyColumn, ReadyKind, ReadyReference};
use std::sync::ledger::Ledger;
use step_count::Steps;

impl<'a> Rows<'a> {
    /// Returns the ordinal of the parent that a found row is born with, by the reference in the column at a place. Takes one step, and one
    /// more if the reference is drawn.
    #[inline]
    pub fn found_parent<L: Ledger>(
        &self,
        table: u32,
        row: FoundRow,
        column: u32,
        reference: &ReadyReference,
        steps: &mut Steps<L>,
    ) -> u64
        requires table { table < length self.now.schema.tables }
        requires row { IsFound self.now table row }
        requires reference { IsReferenceOf self.now table column reference.now }
        ensures parent { result ≡ parent_in (cohort_of_row self.now table row) row.index (reference_by column reference.now) }
        ensures born { result < born_count (table_of self.now reference.now.parent).births row.born }
        ensures steps { steps.new ≡ steps.old + choice_cost reference.now.drawn }
    {
        let _limits = self.plan().schema(); // the reference is within its limits
        let _columns = self.plan().columns(table); // and there are at most 64 columns
        let order = self.order(table, Purpose::Parents(column), row.born);
        let window = self.window(table, column, reference, row.born);
        let deal = self.deal(table, column, reference, row.born, &window);
        let place = order.place(row.index, steps);
        window.parent(reference, &deal, place, steps)
    }

    /// Returns the ordinal of the parent that a found row still has at unit `t`, by the reference in the column at a place. Returns
    /// None if the reference has become null. Takes one step, one more if the reference is drawn, and for a nulling reference at most
    /// the cost of the parent's death more.
    #[inline]
    pub fn found_held_parent<L: Ledger>(
        &self,
        table: u32,
        row: FoundRow,
        column: u32,
        reference: &ReadyReference,
        t: u64,
        steps: &mut Steps<L>,
    ) -> Option<u64>
        requires table { table < length self.now.schema.tables }
        requires row { IsFound self.now table row }
        requires reference { IsReferenceOf self.now table column reference.now }
        ensures held { result ≡ held_in (cohort_of_row self.now table row) row.index t (reference_by column reference.now) }
        ensures born { IfSome result (λ parent. parent < born_count (table_of self.now reference.now.parent).births row.born) }
        ensures steps { steps.new ≤ steps.old + held_cost (layout_of self.now).tables (reference_by column reference.now) }
    {
        let _limits = self.plan().schema(); // the parent's table is an earlier one
        let parent = self.found_parent(table, row, column, reference, steps);
        if !reference.nulls {
            return Some(parent);
        }
        if never_dies(self.plan(), reference.parent) {
            return Some(parent);
        }
        let loss = self.death(reference.parent, parent, steps);
        held_until(loss, t, parent)
    }

    /// Returns the last of `change` and of the units up to `t` at which a found row loses a parent. For each nulling reference it
    /// takes at most what chooses the parent and the cost of the parent's death.
    pub(crate) fn last_loss<L: Ledger>(
        &self,
        table: u32,
        row: FoundRow,
        change: u64,
        t: u64,
        steps: &mut Steps<L>,
    ) -> u64
        requires table { table < length self.now.schema.tables }
        requires row { IsFound self.now table row }
        ensures change { result ≡ last_change t change (losses_in (cohort_of_row self.now table row) row.index) }
        ensures least { steps.old ≤ steps.new }
        ensures most { steps.new ≤ steps.old + loss_cost (layout_of self.now).tables table }
    {
        let _limits = self.plan().schema(); // each reference is within its limits
        let mut last = change;
        for (column, ready) in self.plan().columns(table).iter().enumerate() {
            if let ReadyKind::Reference(reference) = &ready.kind {
                if reference.nulls {
                    let loss = self.parent_death(table, row, column as u32, reference, steps);
                    last = later_change(last, loss, t);
                }
            }
        }
        last
    }

    /// Returns the unit at which a found row's parent dies, by the reference in the column at a place. Returns None if the parent
    /// never dies. Takes what chooses the parent and at most the cost of the death. Takes none if no row of the parent's table ever dies.
    #[cycle(deaths)]
    fn parent_death<L: Ledger>(
        &self,
        table: u32,
        row: FoundRow,
        column: u32,
        reference: &ReadyReference,
        steps: &mut Steps<L>,
    ) -> Option<u64>
        requires table { table < length self.now.schema.tables }
        requires row { IsFound self.now table row }
        requires reference { IsReferenceOf self.now table column reference.now }
        ensures death { result ≡ parent_death_in (cohort_of_row self.now table row) row.index (reference_by column reference.now) }
        ensures least { steps.old ≤ steps.new }
        ensures steps { steps.new ≤ steps.old + parent_cost (layout_of self.now).tables (reference_by column reference.now) }
    {
        let _limits = self.plan().schema(); // the parent's table is an earlier one
        if never_dies(self.plan(), reference.parent) {
            return None;
        }
        let parent = self.found_parent(table, row, column, reference, steps);
        self.death(reference.parent, parent, steps)
    }

    /// Returns the unit of the first death among a found row's parents by cascading references. Returns None if no such parent ever
    /// dies. For each of these references it takes at most what chooses the parent and the cost of the parent's death.
    #[cycle(deaths)]
    fn first_death<L: Ledger>(&self, table: u32, row: FoundRow, steps: &mut Steps<L>) -> Option<u64>
        requires table { table < length self.now.schema.tables }
        requires row { IsFound self.now table row }
        ensures death { result ≡ parents_death_in (cohort_of_row self.now table row) row.index }
        ensures least { steps.old ≤ steps.new }
        ensures steps { steps.new ≤ steps.old + cascades_cost (layout_of self.now).tables table }
    {
        let _limits = self.plan().schema(); // each reference is within its limits
        let mut first = None;
        for (column, ready) in self.plan().columns(table).iter().enumerate() {
            if let ReadyKind::Reference(reference) = &ready.kind {
                if !reference.nulls {
                    let death = self.parent_death(table, row, column as u32, reference, steps);
                    first = earlier(first, death);
                }
            }
        }
        first
    }

    /// Returns the unit at which a found row dies, by its own life or with the first parent by a cascading reference. Returns None
    /// if it never dies. Takes one step if lives of the table differ. For each cascading reference it takes at most what chooses the
    /// parent and the cost of the parent's death.
    #[cycle(deaths)]
    pub fn found_death<L: Ledger>(
        &self,
        table: u32,
        row: FoundRow,
        steps: &mut Steps<L>,
    ) -> Option<u64>
        requires table { table < length self.now.schema.tables }
        requires row { IsFound self.now table row }
        ensures death { result ≡ death (generator_of self.now) table (last_unit self.now) row.ordinal }
        ensures least { steps.old ≤ steps.new }
        ensures steps { steps.new ≤ steps.old + asked_for_death self.now table }
    {
        let _sound = self.plan().schema(); // so a row dies with its parents
        let own = self.found_own_death(table, row, steps);
        earlier(own, self.first_death(table, row, steps))
    }

    /// Returns the unit at which the row of ordinal `j` dies, by its own life or with the first parent by a cascading reference.
    /// Returns None if it never dies. Takes at most as many steps as the cost of a death.
    #[cycle(deaths)]
    pub fn death<L: Ledger>(&self, table: u32, j: u64, steps: &mut Steps<L>) -> Option<u64>
        requires table { table < length self.now.schema.tables }
        requires row { j < rows_in_all self.now table }
        ensures death { result ≡ death (generator_of self.now) table (last_unit self.now) j }
        ensures least { steps.old ≤ steps.new }
        ensures steps { steps.new ≤ steps.old + death_cost (layout_of self.now).tables table }
    {
        let _sound = self.plan().schema(); // so a death asks at most its cost
        self.found_death(table, find(self.plan(), table, j), steps)
    }

    /// Whether a found row is alive at unit `t`, by which it must be born. Takes at most as many steps as the row's death.
    #[inline]
    pub fn is_live<L: Ledger>(
        &self,
        table: u32,
        row: FoundRow,
        t: u64,
        steps: &mut Steps<L>,
    ) -> bool
        requires table { table < length self.now.schema.tables }
        requires row { IsFound self.now table row }
        requires born { row.born ≤ t }
        requires unit { t ≤ last_unit self.now }
        ensures live { result ≡ is_live (generator_of self.now) table t row.ordinal }
        ensures steps { steps.new ≤ steps.old + asked_for_death self.now table }
    {
        let _sound = self.plan().schema(); // so a death is for good
        is_past(self.found_death(table, row, steps), t)
    }

    /// Returns the ordinal of the parent that the row of ordinal `j` is born with, by the reference in the column at a place. Takes
    /// one step, and one more if the reference is drawn.
    pub fn parent<L: Ledger>(&self, table: u32, j: u64, column: u32, steps: &mut Steps<L>) -> u64
        requires table { table < length self.now.schema.tables }
        requires row { j < rows_in_all self.now table }
        requires reference { is_some (reference_at (table_of self.now table) column) ≡ true }
        ensures parent { (reference : Reference) → reference_at (table_of self.now table) column ≡ Some reference →
            result ≡ parent_of (generator_of self.now) table (last_unit self.now) j reference }
        ensures within { (reference : Reference) → reference_at (table_of self.now table) column ≡ Some reference →
            result < rows_in_all self.now reference.parent }
        ensures steps { (reference : Reference) → reference_at (table_of self.now table) column ≡ Some reference →
            steps.new ≡ steps.old + choice_cost reference.drawn }
    {
        let ReadyKind::Reference(reference) = &self.plan().columns(table)[column as usize].kind
        else {
            unreachable!()
        };
        let row = find(self.plan(), table, j);
        self.found_parent(table, row, column, reference, steps)
    }

    /// Returns the ordinal of the parent that the row of ordinal `j` still has at unit `t`, by the reference in the column at a
    /// place. The row must be born by `t`. Returns None if the reference has become null. Takes one step, one more if the reference is
    /// drawn, and for a nulling reference at most the cost of the parent's death more.
    pub fn held_parent<L: Ledger>(
        &self,
        table: u32,
        j: u64,
        column: u32,
        t: u64,
        steps: &mut Steps<L>,
    ) -> Option<u64>
        requires table { table < length self.now.schema.tables }
        requires unit { t ≤ last_unit self.now }
        requires born { j < born_count (table_of self.now table).births t }
        requires reference { is_some (reference_at (table_of self.now table) column) ≡ true }
        ensures held { (reference : Reference) → reference_at (table_of self.now table) column ≡ Some reference →
            result ≡ held_parent (generator_of self.now) table t j reference }
        ensures within { (reference : Reference) → reference_at (table_of self.now table) column ≡ Some reference →
            IfSome result (λ parent. parent < rows_in_all self.now reference.parent) }
        ensures steps { (reference : Reference) → reference_at (table_of self.now table) column ≡ Some reference →
            steps.new ≤ steps.old + held_cost (layout_of self.now).tables reference }
    {
        let _sound = self.plan().schema(); // so a row loses a parent when that dies
        let ReadyKind::Reference(reference) = &self.plan().columns(table)[column as usize].kind
        else {
            unreachable!()
        };
        let row = find(self.plan(), table, j);
        self.found_held_parent(table, row, column, reference, t, steps)
    }
}

/// Whether no row of a table ever dies, neither by its own life nor with a parent.
#[inline]
pub(crate) fn never_dies(plan: &Plan, table: u32) -> bool
    requires { table < length plan.now.schema.tables }
    ensures { result ≡ is_none (sure_life (layout_of plan.now).tables table) }
{
    plan.sure_life(table).is_none()
}

/// Whether a death comes after unit `t`. None stands for a death that never comes.
#[inline(always)]
fn is_past(death: Option<u64>, t: u64) -> bool
    ensures { result ≡ is_after death t }
{
    match death {
        Some(death) => t < death,
        None => true,
    }
}

/// Returns the earlier of two deaths. None stands for a death that never comes.
#[inline(always)]
fn earlier(death: Option<u64>, other: Option<u64>) -> Option<u64>
    ensures { result ≡ lesser_life death other }
{
    match (death, other) {
        (None, other) => other,
        (Some(death), None) => Some(death),
        (Some(death), Some(other)) => Some(death.min(other)),
    }
}

/// Returns a parent at unit `t`, or None if it is lost by then. None as the loss stands for one that never comes.
#[inline(always)]
fn held_until(loss: Option<u64>, t: u64, parent: u64) -> Option<u64>
    ensures { result ≡ held_until loss t parent }
{
    match loss {
        Some(loss) if loss <= t => None,
        _ => Some(parent),
    }
}

/// Returns the later of a change and a loss, if the loss has come by unit `t`; else the change. None stands for a loss that never
/// comes.
#[inline(always)]
fn later_change(change: u64, loss: Option<u64>, t: u64) -> u64
    ensures { result ≡ later_change t change loss }
{
    match loss {
        Some(loss) if loss <= t => change.max(loss),
        _ => change,
    }
}

/// Whether a table has nulling references.
pub(crate) fn has_nullings(plan: &Plan, table: u32) -> bool
    requires { table < length plan.now.schema.tables }
    ensures { result ≡ has_nullings (table_of plan.now table) }
{
    has_nulling_column(plan.columns(table))
}

/// Whether some columns have a nulling reference.
fn has_nulling_column(columns: &[ReadyColumn]) -> bool
    ensures { result ≡ list_any is_nulling columns.now }
{
    columns.iter().any(|column| is_nulling(column))
}

/// Whether a column is a nulling reference.
fn is_nulling(column: &ReadyColumn) -> bool
    ensures { result ≡ is_nulling column.now }
{
    match &column.kind {
        ReadyKind::Reference(reference) => reference.nulls,
        _ => false,
    }
}

/// Returns the ordinal of the parent that the row of ordinal `j` is born with, by the reference in the column at a place. If the
/// reference is cascading, the parent is held at each unit at which the row is held. Takes one step, and one more if the reference is
/// drawn.
pub fn parent<L: Ledger>(plan: &Plan, table: u32, j: u64, column: u32, steps: &mut Steps<L>) -> u64
    requires table { table < length plan.now.schema.tables }
    requires row { j < rows_in_all plan.now table }
    requires reference { is_some (reference_at (table_of plan.now table) column) ≡ true }
    ensures parent { (reference : Reference) → reference_at (table_of plan.now table) column ≡ Some reference →
        result ≡ parent_of (generator_of plan.now) table (last_unit plan.now) j reference }
    ensures within { (reference : Reference) → reference_at (table_of plan.now table) column ≡ Some reference →
        result < rows_in_all plan.now reference.parent }
    ensures held { (reference : Reference) → reference_at (table_of plan.now table) column ≡ Some reference → reference.nulls ≡ false →
        (t : ℕ) → t ≤ last_unit plan.now → holds_row (rows_at (generator_of plan.now) table t) j ≡ true →
        holds_row (rows_at (generator_of plan.now) reference.parent t) result ≡ true }
    ensures steps { (reference : Reference) → reference_at (table_of plan.now table) column ≡ Some reference →
        steps.new ≡ steps.old + choice_cost reference.drawn }
{
    let _sound = plan.schema(); // so it is there as long as the row is
    Rows::of(plan).parent(table, j, column, steps)
}

/// Returns the ordinal of the parent that the row of ordinal `j` still has at unit `t`, by the reference in the column at a place.
/// The row must be born by `t`. Returns None if the reference has become null. Takes one step, one more if the reference is drawn, and
/// for a nulling reference at most the cost of the parent's death more.
pub fn held_parent<L: Ledger>(
    plan: &Plan,
    table: u32,
    j: u64,
    column: u32,
    t: u64,
    steps: &mut Steps<L>,
) -> Option<u64>
    requires table { table < length plan.now.schema.tables }
    requires unit { t ≤ last_unit plan.now }
    requires born { j < born_count (table_of plan.now table).births t }
    requires reference { is_some (reference_at (table_of plan.now table) column) ≡ true }
    ensures held { (reference : Reference) → reference_at (table_of plan.now table) column ≡ Some reference →
        result ≡ held_parent (generator_of plan.now) table t j reference }
    ensures alive { (reference : Reference) → reference_at (table_of plan.now table) column ≡ Some reference →
        holds_row (rows_at (generator_of plan.now) table t) j ≡ true →
        IfSome result (λ parent. holds_row (rows_at (generator_of plan.now) reference.parent t) parent ≡ true) }
    ensures within { (reference : Reference) → reference_at (table_of plan.now table) column ≡ Some reference →
        IfSome result (λ parent. parent < rows_in_all plan.now reference.parent) }
    ensures steps { (reference : Reference) → reference_at (table_of plan.now table) column ≡ Some reference →
        steps.new ≤ steps.old + held_cost (layout_of plan.now).tables reference }
{
    let _sound = plan.schema(); // so it is there as long as the row is
    Rows::of(plan).held_parent(table, j, column, t, steps)
}

/// Returns the unit at which the row of ordinal `j` dies, by its own life or with the first parent by a cascading reference.
/// Returns None if it never dies. Takes at most as many steps as the cost of a death.
pub fn death<L: Ledger>(plan: &Plan, table: u32, j: u64, steps: &mut Steps<L>) -> Option<u64>
    requires table { table < length plan.now.schema.tables }
    requires row { j < rows_in_all plan.now table }
    ensures death { result ≡ death (generator_of plan.now) table (last_unit plan.now) j }
    ensures least { steps.old ≤ steps.new }
    ensures steps { steps.new ≤ steps.old + death_cost (layout_of plan.now).tables table }
{
    Rows::of(plan).death(table, j, steps)
}
