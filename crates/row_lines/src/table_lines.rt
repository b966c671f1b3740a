//! What the lines of a table's rows are made from, worked out once for all runs.

ghost use Rattle.std.specs.Prelude.{◌≡◌, ◌<◌, ◌≤◌, IfOk, length};
ghost use Rattle.life_intervals.specs.Generator.{last_unit, table_of};
ghost use Rattle.row_lines.specs.TableLines.{AreTableLines, are_small, column_of, has_short_keys, is_short_at, is_short_shown, shown_of};

use crate::bytes::byte_behind;
use draw_values::RunColumn;
use life_intervals::born;
use out_of_memory::Memory;
use schema_facts::Numbers;
use schema_plan::{Plan, ReadyKind};
use std::alloc::Global;
use std::marker::Model;

/// The first number of more than 15 digits.
const LONG: u64 = 1_000_000_000_000_000;

/// The first number of more than 13 digits.
const LONG_NUMBER: u64 = 10_000_000_000_000;

/// What the lines of a table's rows at a unit are made from, worked out once for a job. A contract sees the columns that are
/// prepared for runs, the parents' columns that their lookups show, and which columns are made as pieces.
pub struct TableLines {
    columns: Vec<RunColumn>,
    shown: Vec<Option<RunColumn>>,
    short: Vec<bool>,
}

impl Drop for TableLines {
    fn drop(self) {
        let TableLines {
            columns,
            shown,
            short,
        } = self;
        drop(columns);
        drop(shown);
        drop(short);
    }
}

impl Model for TableLines {
    ghost use Rattle.row_lines.specs.TableLines.{TableLinesOf};

    ghost Value = { TableLinesOf };

    ghost view = { λ l. record { columns = l.columns.items; shown = l.shown.items; short = l.short.items } };
}

impl TableLines {
    /// Makes this for the lines of a table at a unit. Makes nothing at `Memory`.
    pub fn new(alloc: Global, plan: &Plan, table: u32, unit: u64) -> Result<TableLines, Memory>
        requires table { table < length plan.now.schema.tables }
        requires unit { unit ≤ last_unit plan.now }
        ensures { IfOk result (λ lines. AreTableLines plan.now table lines) }
    {
        let count = plan.columns(table).len();
        let mut columns = Vec::new(alloc);
        let mut shown = Vec::new(alloc);
        let mut short = Vec::new(alloc);
        for column in 0..count {
            let own = table_column(alloc, plan, table, column, unit)?;
            let looked_up = shown_column(alloc, plan, table, column, unit)?;
            short.push(is_short(plan, table, column, &own, &looked_up))?;
            columns.push(own)?;
            shown.push(looked_up)?;
        }
        Ok(TableLines {
            columns,
            shown,
            short,
        })
    }

    /// Returns the columns, prepared for runs.
    #[inline(always)]
    pub(crate) fn columns(&self) -> &[RunColumn]
        ensures { result.now ≡ self.now.columns }
    {
        self.columns.as_slice()
    }

    /// Returns, for each lookup, the column that it shows.
    #[inline(always)]
    pub(crate) fn shown(&self) -> &[Option<RunColumn>]
        ensures { result.now ≡ self.now.shown }
    {
        self.shown.as_slice()
    }

    /// Returns which columns are made as pieces.
    #[inline(always)]
    pub(crate) fn short(&self) -> &[bool]
        ensures { result.now ≡ self.now.short }
    {
        self.short.as_slice()
    }
}

/// Prepares the column at a place for runs, with the byte after its fields.
fn table_column(
    alloc: Global,
    plan: &Plan,
    table: u32,
    column: usize,
    unit: u64,
) -> Result<RunColumn, Memory>
    requires table { table < length plan.now.schema.tables }
    requires column { column < length (table_of plan.now table).columns }
    requires unit { unit ≤ last_unit plan.now }
    ensures { IfOk result (λ made. made ≡ column_of plan.now table column) }
{
    let _limits = plan.table(table); // it has at most 64 columns
    let behind = byte_behind(plan, table, column);
    RunColumn::new(alloc, plan, table, column as u32, behind, unit)
}

/// Prepares for runs the column of the parent's table that a lookup shows, with the byte after the lookup's fields. Returns None if
/// the column isn't a lookup.
fn shown_column(
    alloc: Global,
    plan: &Plan,
    table: u32,
    column: usize,
    unit: u64,
) -> Result<Option<RunColumn>, Memory>
    requires table { table < length plan.now.schema.tables }
    requires column { column < length (table_of plan.now table).columns }
    requires unit { unit ≤ last_unit plan.now }
    ensures { IfOk result (λ shown. shown ≡ shown_of plan.now table column) }
{
    let _limits = plan.schema(); // each lookup shows a column of an earlier table
    let columns = plan.columns(table);
    let ReadyKind::Lookup(lookup) = &columns[column].kind else {
        return Ok(None);
    };
    let behind = byte_behind(plan, table, column);
    let made = RunColumn::new(
        alloc,
        plan,
        lookup.parent,
        lookup.column as u32,
        behind,
        unit,
    )?;
    Ok(Some(made))
}

/// Whether each key of a table has at most 15 digits.
pub(crate) fn has_short_keys(plan: &Plan, table: u32) -> bool
    requires { table < length plan.now.schema.tables }
    ensures { result ≡ has_short_keys plan.now table }
{
    let _limits = plan.table(table); // its base is at most 2^62
    plan.keys(table).base + born(plan, table, plan.units()) <= LONG
}

/// Whether the fields of the column at a place of a table are made as pieces. `made` is the column, prepared for runs.
fn is_short(
    plan: &Plan,
    table: u32,
    column: usize,
    made: &RunColumn,
    shown: &Option<RunColumn>,
) -> bool
    requires table { table < length plan.now.schema.tables }
    requires column { column < length (table_of plan.now table).columns }
    requires made { made.now ≡ column_of plan.now table column }
    requires shown { shown.now ≡ shown_of plan.now table column }
    ensures { result ≡ is_short_at plan.now table column }
{
    let _limits = plan.schema(); // each reference is to an earlier table
    let columns = plan.columns(table);
    match &columns[column].kind {
        ReadyKind::Key => has_short_keys(plan, table),
        ReadyKind::Reference(reference) => has_short_keys(plan, reference.parent),
        ReadyKind::Lookup(_) => shown_is_short(shown),
        ReadyKind::After(_) => true,
        ReadyKind::Sum { .. } | ReadyKind::Product { .. } => {
            are_small(plan.numbers(table, column))
        }
        _ => made.is_short(),
    }
}

/// Whether each of the numbers of a column has at most 13 digits. False if the column isn't numeric.
pub fn are_small(numbers: Option<Numbers>) -> bool
    ensures { result ≡ are_small numbers }
{
    match numbers {
        Some(numbers) => {
            numbers.least.unsigned_abs() < LONG_NUMBER
                && numbers.greatest.unsigned_abs() < LONG_NUMBER
        }
        None => false,
    }
}

/// Whether a lookup shows a column whose fields are made as pieces.
fn shown_is_short(shown: &Option<RunColumn>) -> bool
    ensures { result ≡ is_short_shown shown.now }
{
    match shown {
        Some(shown) => shown.is_short(),
        None => false,
    }
}
