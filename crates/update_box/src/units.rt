//! The rows that a unit changes, table by table.

ghost use Rattle.std.specs.Prelude.{◌≡◌, ◌+◌, ◌*◌, ◌<◌, ◌≤◌, All, IfOk, length, map, slice_index_or, true, ℕ};
ghost use Rattle.std.specs.List.{range_with_len};
ghost use Rattle.schema_facts.specs.Layout.{layout_of};
ghost use Rattle.schema_facts.specs.References.{references_of};
ghost use Rattle.schema_facts.specs.TableFacts.{cost};
ghost use Rattle.life_intervals.specs.Generator.{last_unit, table_of};
ghost use Rattle.update_box.specs.Candidates.{candidates, cost_of_unit};
ghost use Rattle.update_box.specs.Found.{AreNeeded, HasDying, is_something, kept_if_chosen, lists_as_needed, lists_sought, sought_of};
ghost use Rattle.update_box.specs.TableLists.{HoldLists, chosen_lists, is_chosen, lists_of, table_lists_at};
ghost use Rattle.update_box.specs.UnitLists.{unit_lists};
ghost use Rattle.update_box.specs.declared.table_rows.TableRows.{TableRows};

use crate::needed::needed_tables;
use crate::table_rows::TableRows;
use life_intervals::{Cohort, JobOrders, Rows};
use out_of_memory::Memory;
use schema_plan::Plan;
use std::alloc::Global;
use std::marker::Model;
use std::sync::ledger::Ledger;
use step_count::Steps;

/// The rows that a unit deletes and updates, and the cohort that it inserts, table by table. A table that isn't chosen has no rows here. A
/// contract sees the unit and the lists.
pub struct UnitRows {
    unit: u64,
    tables: Vec<TableRows>,
}

impl Drop for UnitRows {
    fn drop(self) {
        let UnitRows { unit: _, tables } = self;
        drop(tables);
    }
}

impl Model for UnitRows {
    ghost use Rattle.std.specs.Prelude.{map};
    ghost use Rattle.update_box.specs.UnitLists.{UnitLists};
    ghost use Rattle.update_box.specs.TableLists.{lists_of};

    ghost Value = { UnitLists };

    ghost view = { λ r. record { unit = r.unit; tables = map lists_of r.tables.items } };
}

impl UnitRows {
    /// Returns the unit.
    pub fn unit(&self) -> u64
        ensures { result ≡ self.now.unit }
    {
        self.unit
    }

    /// Returns the ordinals of the rows of a table that the unit deletes, in rising order.
    pub fn dels(&self, table: u32) -> &[u64]
        requires { table < length self.now.tables }
        ensures { result.now ≡ (table_lists_at self.now table).deleted }
    {
        self.tables[table as usize].deleted.as_slice()
    }

    /// Returns the ordinals of the rows of a table that the unit updates, in rising order.
    pub fn upds(&self, table: u32) -> &[u64]
        requires { table < length self.now.tables }
        ensures { result.now ≡ (table_lists_at self.now table).updated }
    {
        self.tables[table as usize].updated.as_slice()
    }

    /// Returns the cohort of a table that the unit inserts.
    pub fn ins(&self, table: u32) -> Cohort
        requires { table < length self.now.tables }
        ensures { result ≡ (table_lists_at self.now table).inserted }
    {
        self.tables[table as usize].inserted
    }
}

/// Returns the rows that the step to unit `t` deletes, updates and inserts, table by table. Returns `Memory` if memory runs out. Takes at
/// most as many steps as the cost of the unit: for each candidate of each table, the cost of a row of that table.
pub fn unit_rows<L: Ledger>(
    alloc: Global,
    plan: &Plan,
    t: u64,
    steps: &mut Steps<L>,
) -> Result<UnitRows, Memory>
    requires some { 1 ≤ t }
    requires unit { t ≤ last_unit plan.now }
    ensures lists { IfOk result (λ rows. rows ≡ unit_lists plan.now t) }
    ensures steps { steps.new ≤ steps.old + cost_of_unit plan.now t }
{
    let orders = JobOrders::for_changes(alloc, plan, 0, plan.tables(), t)?;
    let rows = Rows::with(plan, &orders);
    rows_of_unit(alloc, &rows, None, t, steps)
}

/// Returns the rows that the step to unit `t` changes, with the orders of `rows`. If a table is chosen, it searches other tables only for
/// deletions that the chosen one needs, and leaves their lists empty. Returns `Memory` if memory runs out.
pub fn rows_of_unit<L: Ledger>(
    alloc: Global,
    rows: &Rows<'_>,
    table: Option<u32>,
    t: u64,
    steps: &mut Steps<L>,
) -> Result<UnitRows, Memory>
    requires some { 1 ≤ t }
    requires unit { t ≤ last_unit rows.now }
    ensures lists { IfOk result (λ lists. lists ≡ chosen_lists rows.now t table) }
    ensures held { IfOk result (HoldLists rows.now t table) }
    ensures steps { steps.new ≤ steps.old + cost_of_unit rows.now t }
{
    let _limits = rows.plan().schema(); // there are at most 64 tables
    let needed = needed_tables(alloc, rows.plan(), table)?;
    let mut tables = all_sought(alloc, rows, table, needed.as_slice(), t, steps)?;
    leave_chosen(alloc, table, &mut tables);
    Ok(UnitRows { unit: t, tables })
}

/// Tells whether the table at a place is chosen. If none is named, each is.
fn is_chosen(table: Option<u32>, place: u32) -> bool
    ensures { result ≡ is_chosen table place }
{
    match table {
        None => true,
        Some(one) => place == one,
    }
}

/// What is searched for in a table.
#[derive(Clone, Copy)]
enum Sought {
    /// All that the unit changes.
    Changes,
    /// Only what the unit deletes, for tables that refer to this table.
    Deletions,
    /// Nothing.
    Nothing,
}

/// Returns what is searched for in the table at a place.
fn what_is_sought(table: Option<u32>, needed: bool, place: u32) -> Sought
    ensures { result ≡ sought_of table needed place }
{
    if is_chosen(table, place) {
        Sought::Changes
    } else if needed {
        Sought::Deletions
    } else {
        Sought::Nothing
    }
}

/// Returns the rows that are searched for in the table at a place. If any are, `before` holds the deleted rows of the tables to which it
/// refers.
fn rows_sought<L: Ledger>(
    alloc: Global,
    rows: &Rows<'_>,
    sought: Sought,
    place: u32,
    t: u64,
    before: &[TableRows],
    steps: &mut Steps<L>,
) -> Result<TableRows, Memory>
    requires place { place < length rows.now.schema.tables }
    requires some { 1 ≤ t }
    requires unit { t ≤ last_unit rows.now }
    requires parents { is_something sought ≡ true → All (λ reference. HasDying rows.now t before.now reference.parent) (references_of (table_of rows.now place)) }
    ensures rows { IfOk result (λ lists. lists_of lists ≡ lists_sought rows.now t place sought) }
    ensures steps { steps.new ≤ steps.old + cost (layout_of rows.now) place * candidates rows.now place t }
{
    match sought {
        Sought::Changes => TableRows::changed_at(alloc, rows, place, t, before, steps),
        Sought::Deletions => TableRows::deleted_at(alloc, rows, place, t, before, steps),
        Sought::Nothing => Ok(TableRows::none(alloc)),
    }
}

/// Returns the rows that are searched for in each table, in order. `needed` tells for each table whether it is needed.
fn all_sought<L: Ledger>(
    alloc: Global,
    rows: &Rows<'_>,
    table: Option<u32>,
    needed: &[bool],
    t: u64,
    steps: &mut Steps<L>,
) -> Result<Vec<TableRows>, Memory>
    requires needed { AreNeeded rows.now table needed.now }
    requires some { 1 ≤ t }
    requires unit { t ≤ last_unit rows.now }
    ensures lists { IfOk result (λ tables. map lists_of tables.items ≡ map (lists_as_needed rows.now t table needed.now) (range_with_len 0 (length rows.now.schema.tables))) }
    ensures steps { steps.new ≤ steps.old + cost_of_unit rows.now t }
{
    let _limits = rows.plan().schema(); // a parent's table is an earlier one
    let mut tables = Vec::new(alloc);
    for place in 0..rows.plan().tables() {
        let sought = what_is_sought(table, needed[place as usize], place);
        tables.push(rows_sought(alloc, rows, sought, place, t, tables.as_slice(), steps)?)?;
    }
    Ok(tables)
}

/// Empties the lists of the tables that aren't chosen.
fn leave_chosen(alloc: Global, table: Option<u32>, tables: &mut Vec<TableRows>)
    requires { length tables.old.items ≤ 64 }
    ensures all { length tables.new.items ≡ length tables.old.items }
    ensures each { (place : ℕ) (d : TableRows) → place < length tables.old.items → lists_of (slice_index_or tables.new.items place d) ≡ kept_if_chosen table place (lists_of (slice_index_or tables.old.items place d)) }
{
    for place in 0..tables.len() {
        if !is_chosen(table, place as u32) {
            tables[place] = TableRows::none(alloc);
        }
    }
}
