//! Hints on what a schema doesn't have: the range of the option.

use crate::Ended;
use crate::grouped::put_grouped;
use crate::schema::plan_of;
use pd_outside::Library;
use request_words::{Format, Mode, Request};
use schema_plan::Plan;
use sql_lines::statement_reach;
use std::alloc::{AllocError, Global};

/// The most bytes that the pages of all workers can have together.
const PAGE_BYTES: u64 = 67_108_864;

/// How many pages each worker has.
const PAGES: u64 = 8;

/// How many bytes more than a line of its table a line of an undo text can have.
const UNDO_BYTES: u64 = 26;

/// Appends the range of the option that is out of it.
pub(crate) fn put_range<L: Library>(
    alloc: Global,
    ended: &Ended<'_>,
    request: &Request,
    library: &mut L,
    hints: &mut String,
) -> Result<(), AllocError> {
    let Some(option) = ended.behind("out of range: --") else {
        return Ok(());
    };
    match plan_of(alloc, request.schema.as_str(), library) {
        Some(plan) => put_range_in(&plan, request, option, hints),
        None if option == "package" => put_pages("lines", hints),
        None => Ok(()),
    }
}

/// Appends the range of an option over a plan.
fn put_range_in(
    plan: &Plan,
    request: &Request,
    option: &str,
    hints: &mut String,
) -> Result<(), AllocError> {
    match option {
        "unit" => put_numbers(option, first_unit(request.mode), plan.units(), hints),
        "from" => put_numbers(option, 0, last_from(plan, request), hints),
        "to" => put_numbers(option, 0, last_to(plan, request), hints),
        "node" => put_numbers(option, 0, request.nodes.saturating_sub(1), hints),
        "table" => put_tables(plan, hints),
        "key" => put_keys(plan, request, hints),
        "package" => put_package(plan, request, hints),
        "format" => put_format(plan, request.format, hints),
        _ => Ok(()),
    }
}

/// Appends the numbers that an option can have.
fn put_numbers(option: &str, first: u64, last: u64, hints: &mut String) -> Result<(), AllocError> {
    write!(hints, "hint: --{option} is ")?;
    put_grouped(first, hints)?;
    hints.push_str(" to ")?;
    put_grouped(last, hints)?;
    hints.push_str("\n")
}

/// Returns the first unit that a mode takes. Unit 0 changes nothing.
fn first_unit(mode: Mode) -> u64 {
    match mode {
        Mode::Unit | Mode::DetailsUnit | Mode::Undo => 1,
        _ => 0,
    }
}

/// Returns the last unit of the tables that are read.
fn last_from(plan: &Plan, request: &Request) -> u64 {
    match request.mode {
        Mode::Revert => plan.units(),
        _ => request.to.min(plan.units()),
    }
}

/// Returns the last unit of the tables that are written.
fn last_to(plan: &Plan, request: &Request) -> u64 {
    match request.mode {
        Mode::Revert => request.from.min(plan.units()),
        _ => plan.units(),
    }
}

/// Appends the names of the tables.
fn put_tables(plan: &Plan, hints: &mut String) -> Result<(), AllocError> {
    hints.push_str("hint: --table is one of")?;
    let mut comma = " ";
    for table in plan.schema().tables.as_slice() {
        hints.push_str(comma)?;
        hints.push_str(table.name.as_str())?;
        comma = ", ";
    }
    hints.push_str("\n")
}

/// Appends the keys that rows of the table have.
fn put_keys(plan: &Plan, request: &Request, hints: &mut String) -> Result<(), AllocError> {
    let Some(name) = &request.table else {
        return Ok(());
    };
    let Some(table) = plan.table_named(name.as_str()) else {
        return Ok(());
    };
    let rows = plan.cohorts(table).born(plan.units());
    if rows == 0 {
        return writeln!(hints, "hint: the table never has a row");
    }
    let base = plan.keys(table).base;
    put_numbers("key", base, base.saturating_add(rows - 1), hints)
}

/// Appends how many bytes a format takes.
fn put_format(plan: &Plan, format: Format, hints: &mut String) -> Result<(), AllocError> {
    if format == Format::Csv {
        return writeln!(
            hints,
            "hint: the texts have at most 268,435,456 bytes together, counted in the format copy"
        );
    }
    hints.push_str("hint: a statement has at most 131,072 bytes, and the longest here may have ")?;
    put_grouped(statement_reach(plan), hints)?;
    hints.push_str("\n")
}

/// Appends how many bytes pages can have, and how many rows a package can have then.
fn put_package(plan: &Plan, request: &Request, hints: &mut String) -> Result<(), AllocError> {
    let (entries, bytes) = match (request.mode, request.format) {
        (Mode::Snapshot | Mode::Unit, Format::Sql) => ("statements", statement_reach(plan)),
        (Mode::Snapshot | Mode::Unit, _) => ("lines", plan.reach()),
        (Mode::Undo, _) => ("lines", plan.reach().saturating_add(UNDO_BYTES)),
        _ => return put_pages("lines", hints),
    };
    put_pages(entries, hints)?;
    let pages = PAGES.saturating_mul(u64::from(request.workers));
    let most = PAGE_BYTES
        .checked_div(pages.saturating_mul(bytes))
        .unwrap_or(0);
    if most == 0 {
        return writeln!(hints, "hint: ask for fewer --workers");
    }
    put_numbers("package", 1, most, hints)
}

/// Appends how many bytes pages can have. `entries` is what packages are of.
fn put_pages(entries: &str, hints: &mut String) -> Result<(), AllocError> {
    writeln!(
        hints,
        "hint: the pages have at most 67,108,864 bytes together: each worker has 8, and each has room for a package of the longest {entries}"
    )
}
