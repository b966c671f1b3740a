//! The orders that are kept of a table's cohorts.

ghost use Rattle.std.specs.Prelude.{◌≡◌, ◌+◌, ◌<◌, ◌≤◌, ◌++◌, ◌∷◌, [], IfOk, IfSome, OnOk, length, sum_by};
ghost use Rattle.life_intervals.specs.CohortOrders.{order_for};
ghost use Rattle.life_intervals.specs.CohortParents.{IsReferenceOf, deal_by, window_by};
ghost use Rattle.life_intervals.specs.Generator.{last_unit};
ghost use Rattle.life_intervals.specs.JobOrders.{AreAllParentOrders, AreParentOrders, AreTableOrders, IsKeptByUnit, entries_of_parent, entries_of_table};
ghost use Rattle.schema_facts.specs.Dictionaries.{Project};

use crate::asked::{Asked, are_places_asked, rows_to_one_change, table_entries};
use crate::births::cohort;
use crate::orders::{Purpose, is_drawn, wanted, wanted_deal};
use crate::wanted::Wanted;
use crate::window::CandidateWindow;
use id_permutation::{KeptOrders, Order};
use out_of_memory::Memory;
use schema_plan::{Plan, ReadyKind, ReadyReference};
use std::alloc::Global;

/// The room that is left for a job's orders.
#[derive(Drop)]
pub(crate) struct Room {
    /// How many entries the orders' tables can still have.
    pub(crate) entries: u64,
    /// How many orders can still be kept.
    pub(crate) orders: u64,
    /// The least size of a cohort whose orders have tables.
    pub(crate) least: u64,
    /// Whether the job asks only for what a unit changes, and so for few rows of an older cohort.
    pub(crate) changes: bool,
}

/// The orders in which a table's cohorts choose parents by a reference, unit by unit from 0, the cohorts' windows, and the orders in
/// which their candidates are dealt, if these are drawn.
pub(crate) struct ParentOrders {
    pub(crate) orders: KeptOrders,
    pub(crate) windows: Vec<CandidateWindow>,
    pub(crate) deals: KeptOrders,
}

impl Drop for ParentOrders {
    fn drop(self) {
        let ParentOrders {
            orders,
            windows,
            deals,
        } = self;
        drop(orders);
        drop(windows);
        drop(deals);
    }
}

/// The orders that are kept of a table's cohorts, unit by unit from 0: those of keys, lives and updates, and for each column those
/// by its reference, if it is one.
pub(crate) struct TableOrders {
    keys: KeptOrders,
    lives: KeptOrders,
    updates: KeptOrders,
    parents: Vec<ParentOrders>,
}

impl Drop for TableOrders {
    fn drop(self) {
        let TableOrders {
            keys,
            lives,
            updates,
            parents,
        } = self;
        drop(keys);
        drop(lives);
        drop(updates);
        drop(parents);
    }
}

/// Whether the tables of an order of an older cohort pay for a job that asks only for what a unit changes, and so for few places.
/// Making two entries takes about the time that the tables save at a place.
fn do_tables_pay(plan: &Plan, table: u32, purpose: Purpose, size: u64) -> bool
    requires { table < length plan.now.schema.tables }
{
    table_entries(size) / 2 <= size / rows_to_one_change(plan, table, purpose)
}

/// Returns how many entries the tables of an order can have. Returns 0 if the cohort is smaller than those that have tables, or if
/// too few places of its rows are asked for at unit `last`.
fn entries_for(
    plan: &Plan,
    table: u32,
    purpose: Purpose,
    unit: u64,
    last: u64,
    size: u64,
    room: &Room,
) -> u64
    requires table { table < length plan.now.schema.tables }
    requires unit { unit ≤ last_unit plan.now }
    ensures { result ≤ room.now.entries }
{
    let few = room.changes && unit < last;
    if size >= room.least
        && (!few || do_tables_pay(plan, table, purpose, size))
        && are_places_asked(plan, table, purpose, unit, last)
    {
        room.entries
    } else {
        0
    }
}

/// Keeps the order of the rows of a table that are born at a unit.
fn push_order(
    plan: &Plan,
    table: u32,
    purpose: Purpose,
    unit: u64,
    last: u64,
    kept: &mut KeptOrders,
    room: &mut Room,
) -> Result<(), Memory>
    requires table { table < length plan.now.schema.tables }
    requires unit { unit ≤ last_unit plan.now }
    ensures order { IfOk result (λ _. kept.new.orders ≡ kept.old.orders ++ order_for plan.now table purpose unit ∷ []) }
    ensures entries { IfOk result (λ _. kept.new.entries + room.new.entries ≡ kept.old.entries + room.old.entries) }
    ensures least { room.new.least ≡ room.old.least }
{
    let Wanted { size, seed } = wanted(plan, table, purpose, unit);
    let given = entries_for(plan, table, purpose, unit, last, size, room);
    let before = kept.entries();
    kept.push(size, seed, given)?;
    room.entries -= kept.entries() - before;
    Ok(())
}

/// Returns the orders of a table's cohorts of the units 0 to `last`. Returns none unless they are asked for, are permutations, and
/// have room.
fn kept_orders(
    alloc: Global,
    plan: &Plan,
    table: u32,
    purpose: Purpose,
    asked: bool,
    last: u64,
    room: &mut Room,
) -> Result<KeptOrders, Memory>
    requires table { table < length plan.now.schema.tables }
    requires unit { last ≤ last_unit plan.now }
    ensures kept { IfOk result (λ kept. IsKeptByUnit (order_for plan.now table purpose) kept.orders) }
    ensures count { IfOk result (λ kept. length kept.orders ≤ last + 1) }
    ensures entries { IfOk result (λ kept. kept.entries + room.new.entries ≡ room.old.entries) }
{
    let _limits = plan.schema(); // there are at most 10,000 units
    let mut kept = KeptOrders::new(alloc);
    let count = last + 1;
    if !asked || count > room.orders || !is_drawn(plan, table, purpose) {
        return Ok(kept);
    }
    room.orders -= count;
    for unit in 0..count {
        push_order(plan, table, purpose, unit, last, &mut kept, room)?;
    }
    Ok(kept)
}

/// Returns the windows of a reference for the cohorts of the units before `count`.
fn windows_of(
    alloc: Global,
    plan: &Plan,
    reference: &ReadyReference,
    count: u64,
) -> Result<Vec<CandidateWindow>, Memory>
    requires parent { reference.now.parent < length plan.now.schema.tables }
    requires unit { count ≤ last_unit plan.now + 1 }
    ensures windows { IfOk result (λ windows. IsKeptByUnit (window_by plan.now reference.now) windows.items) }
    ensures count { IfOk result (λ windows. length windows.items ≡ count) }
{
    let _limits = plan.schema(); // there are at most 10,000 units
    let mut windows = Vec::new(alloc);
    for unit in 0..count {
        windows.push(CandidateWindow::of_cohort(plan, reference, unit))?;
    }
    Ok(windows)
}

/// Returns how many entries the tables of the order of a cohort's candidates can have. Returns 0 if too few rows of the cohort are asked
/// for at unit `last`, since making two entries takes about the time that the tables save at a row.
fn deal_entries(
    plan: &Plan,
    table: u32,
    column: u32,
    unit: u64,
    last: u64,
    candidates: u64,
    room: &Room,
) -> u64
    requires table { table < length plan.now.schema.tables }
    requires unit { unit ≤ last_unit plan.now }
    ensures { result ≤ room.now.entries }
{
    let few = room.changes && unit < last;
    let rows = cohort(plan, table, unit).size;
    if !few
        && table_entries(candidates) / 2 <= rows
        && are_places_asked(plan, table, Purpose::Parents(column), unit, last)
    {
        room.entries
    } else {
        0
    }
}

/// Keeps the order in which the candidates of the rows of a table that are born at a unit are dealt, by the reference in the column at a
/// place.
fn push_deal(
    plan: &Plan,
    table: u32,
    column: u32,
    reference: &ReadyReference,
    unit: u64,
    last: u64,
    window: &CandidateWindow,
    kept: &mut KeptOrders,
    room: &mut Room,
) -> Result<(), Memory>
    requires table { table < length plan.now.schema.tables }
    requires reference { IsReferenceOf plan.now table column reference.now }
    requires unit { unit ≤ last_unit plan.now }
    requires window { window.now ≡ window_by plan.now reference.now unit }
    ensures deal { IfOk result (λ _. kept.new.orders ≡ kept.old.orders ++ deal_by plan.now table column reference.now unit ∷ []) }
    ensures entries { IfOk result (λ _. kept.new.entries + room.new.entries ≡ kept.old.entries + room.old.entries) }
{
    let _columns = plan.columns(table); // there are at most 64
    let Wanted { size, seed } = wanted_deal(plan, table, column, reference, unit, window);
    let given = deal_entries(plan, table, column, unit, last, size, room);
    let held = kept.entries();
    kept.push(size, seed, given)?;
    room.entries -= kept.entries() - held;
    Ok(())
}

/// Returns the orders in which a reference deals the candidates of its table's cohorts, one for each window. The windows are those of
/// the units from 0 on. Returns none unless they are drawn and have room.
fn kept_deals(
    alloc: Global,
    plan: &Plan,
    table: u32,
    column: u32,
    reference: &ReadyReference,
    windows: &[CandidateWindow],
    last: u64,
    room: &mut Room,
) -> Result<KeptOrders, Memory>
    requires table { table < length plan.now.schema.tables }
    requires reference { IsReferenceOf plan.now table column reference.now }
    requires windows { IsKeptByUnit (window_by plan.now reference.now) windows.now }
    requires unit { length windows.now ≤ last_unit plan.now + 1 }
    ensures kept { IfOk result (λ kept. IsKeptByUnit (deal_by plan.now table column reference.now) kept.orders) }
    ensures entries { IfOk result (λ kept. kept.entries + room.new.entries ≡ room.old.entries) }
{
    let mut kept = KeptOrders::new(alloc);
    let count = windows.len() as u64;
    if !reference.drawn || count > room.orders {
        return Ok(kept);
    }
    room.orders -= count;
    for unit in 0..count {
        push_deal(
            plan,
            table,
            column,
            reference,
            unit,
            last,
            &windows[unit as usize],
            &mut kept,
            room,
        )?;
    }
    Ok(kept)
}

impl ParentOrders {
    /// Returns no orders.
    fn none(alloc: Global) -> ParentOrders
        ensures kept { (plan : Project) (table column : _) → AreParentOrders plan table column result }
        ensures entries { entries_of_parent result ≡ 0 }
    {
        ParentOrders {
            orders: KeptOrders::new(alloc),
            windows: Vec::new(alloc),
            deals: KeptOrders::new(alloc),
        }
    }

    /// Returns the orders of a reference, which must be the one in the column at a place.
    fn of_reference(
        alloc: Global,
        plan: &Plan,
        table: u32,
        column: u32,
        reference: &ReadyReference,
        last: u64,
        room: &mut Room,
    ) -> Result<ParentOrders, Memory>
        requires table { table < length plan.now.schema.tables }
        requires reference { IsReferenceOf plan.now table column reference.now }
        requires unit { last ≤ last_unit plan.now }
        ensures kept { IfOk result (λ kept. AreParentOrders plan.now table column kept) }
        ensures entries { IfOk result (λ kept. entries_of_parent kept + room.new.entries ≡ room.old.entries) }
    {
        let _limits = plan.schema(); // the parent's table is an earlier one
        let purpose = Purpose::Parents(column);
        let orders = kept_orders(alloc, plan, table, purpose, true, last, room)?;
        let windows = windows_of(alloc, plan, reference, orders.len() as u64)?;
        let deals = kept_deals(
            alloc,
            plan,
            table,
            column,
            reference,
            windows.as_slice(),
            last,
            room,
        )?;
        Ok(ParentOrders {
            orders,
            windows,
            deals,
        })
    }
}

/// Returns for each column of a table the orders by its reference, if it is one. Returns an empty list if they aren't asked for.
fn parent_orders(
    alloc: Global,
    plan: &Plan,
    table: u32,
    asked: bool,
    last: u64,
    room: &mut Room,
) -> Result<Vec<ParentOrders>, Memory>
    requires table { table < length plan.now.schema.tables }
    requires unit { last ≤ last_unit plan.now }
    ensures kept { IfOk result (λ parents. AreAllParentOrders plan.now table parents.items) }
    ensures entries { IfOk result (λ parents. sum_by entries_of_parent parents.items + room.new.entries ≡ room.old.entries) }
{
    let mut parents = Vec::new(alloc);
    if !asked {
        return Ok(parents);
    }
    for (column, ready) in plan.columns(table).iter().enumerate() {
        let kept = match &ready.kind {
            ReadyKind::Reference(reference) => {
                ParentOrders::of_reference(
                    alloc,
                    plan,
                    table,
                    column as u32,
                    reference,
                    last,
                    room,
                )?
            }
            _ => ParentOrders::none(alloc),
        };
        parents.push(kept)?;
    }
    Ok(parents)
}

impl TableOrders {
    /// Makes the orders that are asked for.
    pub(crate) fn new(
        alloc: Global,
        plan: &Plan,
        table: u32,
        asked: Asked,
        last: u64,
        room: &mut Room,
    ) -> Result<TableOrders, Memory>
        requires table { table < length plan.now.schema.tables }
        requires unit { last ≤ last_unit plan.now }
        ensures kept { IfOk result (λ kept. AreTableOrders plan.now table kept) }
        ensures entries { IfOk result (λ kept. entries_of_table kept + room.new.entries ≡ room.old.entries) }
    {
        let keys = kept_orders(alloc, plan, table, Purpose::Keys, asked.keys, last, room)?;
        let lives = kept_orders(alloc, plan, table, Purpose::Lives, asked.lives, last, room)?;
        let updates = kept_orders(
            alloc,
            plan,
            table,
            Purpose::Updates,
            asked.updates,
            last,
            room,
        )?;
        let parents = parent_orders(alloc, plan, table, asked.parents, last, room)?;
        Ok(TableOrders {
            keys,
            lives,
            updates,
            parents,
        })
    }

    /// Returns the orders of a purpose, if any are kept.
    #[inline]
    fn of_purpose(&self, purpose: Purpose) -> Option<&KeptOrders>
        ensures { IfSome result (λ kept. (plan : Project) (table : _) → AreTableOrders plan table self.now → IsKeptByUnit (order_for plan table purpose) kept.now.orders) }
    {
        match purpose {
            Purpose::Keys => Some(&self.keys),
            Purpose::Lives => Some(&self.lives),
            Purpose::Updates => Some(&self.updates),
            Purpose::Parents(column) => match self.parents.get(column as usize) {
                Some(parents) => Some(&parents.orders),
                None => None,
            },
        }
    }

    /// Returns the order of a unit's cohort, if it is kept.
    #[inline]
    pub(crate) fn order(&self, purpose: Purpose, unit: u64) -> Option<Order<'_>>
        ensures { IfSome result (λ order. (plan : Project) (table : _) → AreTableOrders plan table self.now → order ≡ order_for plan table purpose unit) }
    {
        let kept = self.of_purpose(purpose)?;
        if unit < kept.len() as u64 {
            Some(kept.get(unit as usize))
        } else {
            None
        }
    }

    /// Returns the window of a unit's cohort by the reference in the column at a place, if it is kept.
    #[inline]
    pub(crate) fn window(&self, column: u32, unit: u64) -> Option<CandidateWindow>
        ensures { IfSome result (λ window. (plan : Project) (table : _) (reference : ReadyReference) → AreTableOrders plan table self.now → IsReferenceOf plan table column reference → window ≡ window_by plan reference unit) }
    {
        let parents = self.parents.get(column as usize)?;
        if unit < parents.windows.len() as u64 {
            Some(parents.windows[unit as usize])
        } else {
            None
        }
    }

    /// Returns the order in which the candidates of a unit's cohort are dealt by the reference in the column at a place, if it is kept.
    #[inline]
    pub(crate) fn deal(&self, column: u32, unit: u64) -> Option<Order<'_>>
        ensures { IfSome result (λ deal. (plan : Project) (table : _) (reference : ReadyReference) → AreTableOrders plan table self.now → IsReferenceOf plan table column reference → deal ≡ deal_by plan table column reference unit) }
    {
        let parents = self.parents.get(column as usize)?;
        if unit < parents.deals.len() as u64 {
            Some(parents.deals.get(unit as usize))
        } else {
            None
        }
    }
}
