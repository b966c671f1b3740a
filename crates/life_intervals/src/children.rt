//! The children of rows. The rows of a cohort that have a given parent are found by the places at which they choose it.

ghost use Rattle.std.specs.Prelude.{◌≡◌, ◌+◌, ◌-◌, ◌*◌, ◌<◌, ◌≤◌, ◌++◌, ◌^◌, OnErr, OnOk, Some, is_some, length, sum, true};
ghost use Rattle.std.specs.List.{range_with_len};
ghost use Rattle.id_permutation.specs.Order.{order_steps};
ghost use Rattle.schema_facts.specs.Lineage.{one_if};
ghost use Rattle.schema_facts.specs.References.{IsSpread, Reference, reference_at};
ghost use Rattle.life_intervals.specs.Blocks.{block_below, places_choosing, places_of_parent};
ghost use Rattle.life_intervals.specs.Children.{IsCandidate, candidate_count, child_block, children_of_each, deal_number, number_block};
ghost use Rattle.life_intervals.specs.CohortParents.{IsReferenceOf, reference_by};
ghost use Rattle.life_intervals.specs.FoundAt.{AreAppended, GoesOn};
ghost use Rattle.life_intervals.specs.Generator.{last_unit, table_of};

use crate::births::cohort;
use crate::orders::{Purpose, wanted_deal};
use crate::rows::Rows;
use crate::window::CandidateWindow;
use id_permutation::Order;
use out_of_memory::Memory;
use schema_plan::{Plan, ReadyKind, ReadyReference};
use std::marker::Brand;
use std::sync::ledger::{Blank, Ledger};
use step_count::Steps;

/// Adjacent places of a cohort.
#[derive(Clone, Copy, Debug, PartialEq, Eq)]
pub struct Block {
    /// The first place.
    pub first: u64,
    /// The number of places.
    pub size: u64,
}

/// Returns the block of a spread with a number, cut off at the place `size`. Returns None exactly if the block would begin at or
/// past `size`.
fn block_below(reference: &ReadyReference, size: u64, number: u64) -> Option<Block>
    requires size { size ≤ 2 ^ 40 }
    requires groups { reference.now.groups ≡ length reference.now.spread }
    requires total { reference.now.total ≡ sum reference.now.spread }
    requires spread { IsSpread reference.now.spread }
    ensures { result ≡ block_below reference.now.spread size number }
{
    if number >= size {
        return None; // each block before it has a place
    }
    let turn = number / reference.groups;
    let group = (number % reference.groups) as usize;
    let first = turn * reference.total.number() + reference.spread.weight_before(group);
    if first >= size {
        return None;
    }
    Some(Block {
        first,
        size: reference.spread.weight(group).min(size - first),
    })
}

/// Returns the number of the row `parent` among the candidates of the cohort born at `unit`, counted from 0 in the order in which they are
/// dealt. They are dealt by the reference in the column at a place. The parent must be born in the reference's window. Takes one step
/// if the reference is drawn, else none.
pub fn deal_number<L: Ledger>(
    plan: &Plan,
    table: u32,
    column: u32,
    parent: u64,
    unit: u64,
    steps: &mut Steps<L>,
) -> u64
    requires table { table < length plan.now.schema.tables }
    requires unit { unit ≤ last_unit plan.now }
    requires reference { is_some (reference_at (table_of plan.now table) column) ≡ true }
    requires parent { (reference : Reference) → reference_at (table_of plan.now table) column ≡ Some reference → IsCandidate plan.now reference unit parent }
    ensures number { (reference : Reference) → reference_at (table_of plan.now table) column ≡ Some reference →
        result ≡ deal_number plan.now table reference unit parent }
    ensures below { (reference : Reference) → reference_at (table_of plan.now table) column ≡ Some reference →
        result < candidate_count plan.now reference unit }
    ensures steps { (reference : Reference) → reference_at (table_of plan.now table) column ≡ Some reference →
        steps.new ≡ steps.old + one_if reference.drawn }
{
    let _limits = plan.schema(); // the reference is within its limits
    let ReadyKind::Reference(reference) = &plan.columns(table)[column as usize].kind else {
        unreachable!()
    };
    let window = CandidateWindow::of_cohort(plan, reference, unit);
    wanted_deal(plan, table, column, reference, unit, &window)
        .by_rounds()
        .unplace(parent - window.first, steps)
}

/// Returns the block of places of the cohort born at `unit` at which its rows choose the candidate that is dealt with a number, in a turn
/// counted from 0, up to 2^40. They choose it by the reference in the column at a place. Returns None exactly if the block would begin
/// at or past the cohort's size. After the first None all later turns have None.
pub fn number_block(
    plan: &Plan,
    table: u32,
    column: u32,
    number: u64,
    unit: u64,
    turn: u64,
) -> Option<Block>
    requires table { table < length plan.now.schema.tables }
    requires unit { unit ≤ last_unit plan.now }
    requires reference { is_some (reference_at (table_of plan.now table) column) ≡ true }
    requires number { (reference : Reference) → reference_at (table_of plan.now table) column ≡ Some reference → number < candidate_count plan.now reference unit }
    ensures { (reference : Reference) → reference_at (table_of plan.now table) column ≡ Some reference →
        result ≡ number_block plan.now table reference number unit turn }
{
    let _limits = plan.schema(); // the reference is within its limits
    let ReadyKind::Reference(reference) = &plan.columns(table)[column as usize].kind else {
        unreachable!()
    };
    let window = CandidateWindow::of_cohort(plan, reference, unit);
    let before = turn.saturating_mul(window.count.number()); // no cohort has as many rows as what saturates
    let number = before.saturating_add(number);
    block_below(reference, cohort(plan, table, unit).size, number)
}

/// Returns the block of places of the cohort born at `unit` at which its rows choose the row `parent`, in a turn counted from 0.
/// They choose it by the reference in the column at a place. The parent must be born in the reference's window. Returns None
/// exactly if the block would begin at or past the cohort's size. After the first None all later turns have None.
pub fn child_block(
    plan: &Plan,
    table: u32,
    column: u32,
    parent: u64,
    unit: u64,
    turn: u64,
) -> Option<Block>
    requires table { table < length plan.now.schema.tables }
    requires unit { unit ≤ last_unit plan.now }
    requires reference { is_some (reference_at (table_of plan.now table) column) ≡ true }
    requires parent { (reference : Reference) → reference_at (table_of plan.now table) column ≡ Some reference → IsCandidate plan.now reference unit parent }
    ensures { (reference : Reference) → reference_at (table_of plan.now table) column ≡ Some reference →
        result ≡ child_block plan.now table reference parent unit turn }
{
    let number = uncounted_number::<Brand>(plan, table, column, parent, unit, Blank::new(1));
    number_block(plan, table, column, number, unit, turn)
}

/// Returns the number of the row `parent` as the candidates are dealt, and leaves its steps uncounted.
fn uncounted_number<B: Ledger>(
    plan: &Plan,
    table: u32,
    column: u32,
    parent: u64,
    unit: u64,
    blank: Blank,
) -> u64
    requires name { blank.name ≡ B.name }
    requires parts { blank.parts ≡ B.parts }
    requires some { 0 < blank.parts }
    requires table { table < length plan.now.schema.tables }
    requires unit { unit ≤ last_unit plan.now }
    requires reference { is_some (reference_at (table_of plan.now table) column) ≡ true }
    requires parent { (reference : Reference) → reference_at (table_of plan.now table) column ≡ Some reference → IsCandidate plan.now reference unit parent }
    ensures number { (reference : Reference) → reference_at (table_of plan.now table) column ≡ Some reference →
        result ≡ deal_number plan.now table reference unit parent }
    ensures below { (reference : Reference) → reference_at (table_of plan.now table) column ≡ Some reference →
        result < candidate_count plan.now reference unit }
{
    let mut steps = Steps::<B>::new(blank);
    deal_number(plan, table, column, parent, unit, &mut steps)
}

/// Appends the places of a block to a list.
fn push_block(block: Block, places: &mut Vec<u64>) -> Result<(), Memory>
    requires first { block.first ≤ 2 ^ 40 }
    requires size { block.size ≤ 2 ^ 40 }
    ensures places { OnOk result (places.new.items ≡ places.old.items ++ range_with_len block.first block.size) }
    ensures before { GoesOn places.old.items places.new.items }
{
    for i in 0..block.size {
        places.push(block.first + i)?;
    }
    Ok(())
}

/// Appends to a list the places below `size` at which a spread chooses a candidate. `candidate` is its number among `count`
/// candidates.
fn push_choosing(
    reference: &ReadyReference,
    size: u64,
    count: u64,
    candidate: u64,
    places: &mut Vec<u64>,
) -> Result<(), Memory>
    requires size { size ≤ 2 ^ 40 }
    requires count { count ≤ 2 ^ 40 }
    requires candidate { candidate < count }
    requires groups { reference.now.groups ≡ length reference.now.spread }
    requires total { reference.now.total ≡ sum reference.now.spread }
    requires spread { IsSpread reference.now.spread }
    ensures places { OnOk result (places.new.items ≡ places.old.items ++ places_choosing reference.now.spread size count candidate) }
    ensures before { GoesOn places.old.items places.new.items }
{
    let mut number = candidate;
    while let Some(block) = block_below(reference, size, number) {
        push_block(block, places)?;
        number += count;
    }
    Ok(())
}

/// Appends to a list the places below `size` at which a row is chosen as a parent from a window, as its rows are dealt.
fn push_places_of<L: Ledger>(
    reference: &ReadyReference,
    window: &CandidateWindow,
    deal: &Order<'_>,
    size: u64,
    parent: u64,
    places: &mut Vec<u64>,
    steps: &mut Steps<L>,
) -> Result<(), Memory>
    requires size { size ≤ 2 ^ 40 }
    requires count { window.now.count ≤ 2 ^ 40 }
    requires some { 1 ≤ window.now.count }
    requires deal { deal.now.size ≡ window.now.count }
    requires groups { reference.now.groups ≡ length reference.now.spread }
    requires total { reference.now.total ≡ sum reference.now.spread }
    requires spread { IsSpread reference.now.spread }
    ensures places { OnOk result (places.new.items ≡ places.old.items ++ places_of_parent reference.now.spread deal.now window.now.first size parent) }
    ensures before { GoesOn places.old.items places.new.items }
    ensures least { steps.old ≤ steps.new }
    ensures steps { steps.new ≤ steps.old + order_steps deal.now }
{
    let count = window.count.number();
    if parent < window.first || parent - window.first >= count {
        return Ok(());
    }
    let number = deal.unplace(parent - window.first, steps);
    push_choosing(reference, size, count, number, places)?;
    Ok(())
}

impl<'a> Rows<'a> {
    /// Appends the ordinals of the children that some rows have by the reference of a column, in the cohort born at `unit`. The
    /// children of one parent come after those of the parent before, each parent's in no special order. A parent that isn't born in
    /// the reference's window has none. Takes one step for each child, and one for each parent if the reference is drawn. At `Memory`
    /// the list still begins with what it held, and no step is taken for a child.
    pub fn push_children<L: Ledger>(
        &self,
        table: u32,
        column: u32,
        reference: &ReadyReference,
        unit: u64,
        parents: &[u64],
        children: &mut Vec<u64>,
        steps: &mut Steps<L>,
    ) -> Result<(), Memory>
        requires table { table < length self.now.schema.tables }
        requires reference { IsReferenceOf self.now table column reference.now }
        requires unit { unit ≤ last_unit self.now }
        ensures children { OnOk result (AreAppended (children_of_each self.now table (reference_by column reference.now) unit parents.now) children.old.items children.new.items) }
        ensures before { GoesOn children.old.items children.new.items }
        ensures memory { OnErr result (steps.new ≤ steps.old + length parents.now * one_if reference.now.drawn) }
        ensures least { steps.old ≤ steps.new }
        ensures steps { steps.new ≤ steps.old + length parents.now * one_if reference.now.drawn + length (children_of_each self.now table (reference_by column reference.now) unit parents.now) }
    {
        let _limits = self.plan().schema(); // the reference is within its limits
        let _columns = self.plan().columns(table); // and there are at most 64 columns
        let window = self.window(table, column, reference, unit);
        let deal = self.deal(table, column, reference, unit, &window);
        let size = cohort(self.plan(), table, unit).size;
        let from = children.len();
        for parent in parents {
            push_places_of(reference, &window, &deal, size, *parent, children, steps)?;
        }
        self.put_rows_from(table, Purpose::Parents(column), unit, from, children, steps);
        Ok(())
    }
}
