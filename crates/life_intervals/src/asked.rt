//! The orders that a job asks for, and the size from which cohorts have tables for them.

ghost use Rattle.std.specs.Prelude.{◌≡◌, ◌+◌, ◌<◌, ◌≤◌, IfOk, length};
ghost use Rattle.life_intervals.specs.Generator.{last_unit};

use crate::births::cohort;
use crate::lives::{Survival, survival_at};
use crate::orders::{Purpose, is_drawn};
use crate::parents::never_dies;
use out_of_memory::Memory;
use schema_plan::{Plan, ReadyColumn, ReadyKind};
use std::alloc::Global;

/// The orders of a table's cohorts that a job asks for.
#[derive(Clone, Copy)]
pub(crate) struct Asked {
    /// Whether it asks for the orders of keys.
    pub(crate) keys: bool,
    /// Whether it asks for the orders of lives.
    pub(crate) lives: bool,
    /// Whether it asks for the orders of updates.
    pub(crate) updates: bool,
    /// Whether it asks for the orders in which rows choose parents.
    pub(crate) parents: bool,
}

/// Asks for the parents by the references among some columns of a table. Their keys are asked for if the table's lines are. What tells
/// their deaths is asked for if they can die, but for a nulling reference only if the lines are asked for.
fn ask_for_parents(plan: &Plan, columns: &[ReadyColumn], lines: bool, asked: &mut [Asked])
    requires { length asked.old ≤ length plan.now.schema.tables }
    ensures { length asked.new ≡ length asked.old }
{
    for column in columns {
        if let ReadyKind::Reference(reference) = &column.kind {
            let place = reference.parent as usize;
            if place < asked.len() {
                let dies = (lines || !reference.nulls) && !never_dies(plan, reference.parent);
                asked[place].keys |= lines;
                asked[place].lives |= dies;
                asked[place].parents |= dies;
            }
        }
    }
}

/// Returns what a job asks of the tables up to its last one. It asks for all orders of the tables from `from` on, whose lines it
/// has. Of the tables to which references lead it asks for keys and for what tells deaths.
pub(crate) fn asked_tables(
    alloc: Global,
    plan: &Plan,
    from: u32,
    count: u32,
) -> Result<Vec<Asked>, Memory>
    requires { from + count ≤ length plan.now.schema.tables }
    ensures { IfOk result (λ asked. length asked.items ≡ from + count) }
{
    let _limits = plan.schema(); // there are at most 64 tables
    let mut asked = Vec::new(alloc);
    for table in 0..from + count {
        let lines = from <= table;
        asked.push(Asked {
            keys: lines,
            lives: lines,
            updates: lines,
            parents: lines,
        })?;
    }
    for back in 0..from + count {
        let table = from + count - 1 - back;
        if asked[table as usize].parents {
            let lines = from <= table;
            ask_for_parents(plan, plan.columns(table), lines, asked.as_mut_slice());
        }
    }
    Ok(asked)
}

/// Whether places of a cohort's rows are asked for at unit `last`, for their lines or for what the unit changes. None are if no row
/// was alive at the unit before. Places of lives are asked for only if some row isn't sure to be alive.
pub(crate) fn are_places_asked(
    plan: &Plan,
    table: u32,
    purpose: Purpose,
    unit: u64,
    last: u64,
) -> bool
    requires table { table < length plan.now.schema.tables }
    requires unit { unit ≤ last_unit plan.now }
{
    if survival_at(plan, table, unit, last.saturating_sub(1)) == Survival::Over {
        return false;
    }
    match purpose {
        Purpose::Lives => survival_at(plan, table, unit, last) != Survival::Sure,
        _ => true,
    }
}

/// How many orders of a cohort with living rows are asked for: the order of lives, if lives are drawn, and the other orders.
#[derive(Clone, Copy)]
struct Wish {
    lives: u64,
    others: u64,
}

/// Returns how many orders of a table's cohort are asked for.
fn wish_of(plan: &Plan, table: u32, asked: Asked) -> Wish
    requires { table < length plan.now.schema.tables }
{
    let keys = asked.keys && is_drawn(plan, table, Purpose::Keys);
    let lives = asked.lives && is_drawn(plan, table, Purpose::Lives);
    let updates = asked.updates && is_drawn(plan, table, Purpose::Updates);
    let mut others = u64::from(keys) + u64::from(updates);
    if asked.parents {
        for column in plan.columns(table) {
            if matches!(column.kind, ReadyKind::Reference(_)) {
                others = others.saturating_add(1);
            }
        }
    }
    Wish {
        lives: u64::from(lives),
        others,
    }
}

/// Returns about how many rows of an older cohort there are for each row whose place a unit asks for, for what it changes. This is
/// the number of units at which rows can be due, or the number of the table's lengths of life.
pub(crate) fn rows_to_one_change(plan: &Plan, table: u32, purpose: Purpose) -> u64
    requires { table < length plan.now.schema.tables }
    ensures { 1 ≤ result }
{
    let lengths = match plan.life(table) {
        Some(life) => life.most - life.least + 1,
        None => 1,
    };
    match purpose {
        Purpose::Lives => lengths,
        _ => plan.update(table).unwrap_or(lengths),
    }
}

/// The least size of a cohort that has tables. For fewer rows the bound of `table_entries` is greater than the number of rows.
const LEAST_SIZE: u64 = 42;

/// Returns a bound on the entries of the tables of an order of `size` rows; 0 if tables of as many entries don't pay.
pub(crate) fn table_entries(size: u64) -> u64 {
    if size < LEAST_SIZE {
        return 0;
    }
    let entries = 6 * (size.isqrt() + 1);
    if size <= 1 << 32 && entries <= size {
        entries
    } else {
        0
    }
}

/// Returns how many orders of a table's cohort are asked for at unit `last`, among those of `wish`.
fn orders_asked(plan: &Plan, table: u32, wish: Wish, unit: u64, last: u64) -> u64
    requires table { table < length plan.now.schema.tables }
    requires unit { unit ≤ last_unit plan.now }
{
    let mut orders = 0u64;
    if are_places_asked(plan, table, Purpose::Lives, unit, last) {
        orders = wish.lives;
    }
    if are_places_asked(plan, table, Purpose::Keys, unit, last) {
        orders = orders.saturating_add(wish.others);
    }
    orders
}

/// Adds the entries of the orders of a table's cohorts for unit `last`, by the number of bits of the cohorts' sizes.
fn add_entries(plan: &Plan, table: u32, asked: Asked, last: u64, entries: &mut [u64])
    requires table { table < length plan.now.schema.tables }
    requires unit { last ≤ last_unit plan.now }
    ensures { length entries.new ≡ length entries.old }
{
    let _limits = plan.schema(); // there are at most 10,000 units
    let wish = wish_of(plan, table, asked);
    for unit in 0..last + 1 {
        let size = cohort(plan, table, unit).size;
        let each = table_entries(size);
        let bits = (64 - size.leading_zeros()) as usize;
        if each > 0 && bits < entries.len() {
            let orders = orders_asked(plan, table, wish, unit, last);
            entries[bits] = entries[bits].saturating_add(orders.saturating_mul(each));
        }
    }
}

/// Returns the least size of a cohort that has tables: `LEAST_SIZE`, or a greater power of two. The cohorts of at least this size
/// have at most `most` entries together, for the orders of some tables at unit `last`.
pub(crate) fn least_size(plan: &Plan, asked: &[Asked], last: u64, most: u64) -> u64
    requires tables { length asked.now ≤ length plan.now.schema.tables }
    requires unit { last ≤ last_unit plan.now }
{
    let _limits = plan.schema(); // there are at most 64 tables
    let mut entries = [0; 64];
    for table in 0..asked.len() {
        add_entries(plan, table as u32, asked[table], last, &mut entries);
    }
    let mut sum: u64 = 0;
    for bits in (0..64).rev() {
        sum = sum.saturating_add(entries[bits]);
        if sum > most {
            return (1 << bits).max(LEAST_SIZE);
        }
    }
    LEAST_SIZE
}
