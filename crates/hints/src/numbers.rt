//! The numbers by which a rule is broken.

use crate::grouped::put_grouped;
use crate::rules::{Broken, put_name};
use schema_facts::{TableFacts, place_of_table};
use schema_model::{Column, Kind, Leaf, Part, Parts, Schema, Table, Text, Window};
use schema_plan::cohort_size;
use std::alloc::AllocError;

/// The greatest last unit.
const MAX_UNITS: i64 = 10_000;

/// Appends the numbers by which a rule is broken, if it is broken by numbers.
pub(crate) fn put_numbers(broken: &Broken<'_>, hints: &mut String) -> Result<(), AllocError> {
    match broken.column() {
        Some(column) => put_numbers_of_column(broken, column, hints),
        None => match broken.table() {
            Some(table) => put_numbers_of_table(broken, table, hints),
            None => put_numbers_of_schema(broken, hints),
        },
    }
}

fn put_numbers_of_schema(broken: &Broken<'_>, hints: &mut String) -> Result<(), AllocError> {
    let schema = broken.schema;
    match broken.number {
        1 => writeln!(hints, "hint: seed {}, units {}", schema.seed, schema.units),
        2 => writeln!(hints, "hint: {} tables", schema.tables.len()),
        _ => Ok(()),
    }
}

fn put_numbers_of_table(
    broken: &Broken<'_>,
    table: &Table,
    hints: &mut String,
) -> Result<(), AllocError> {
    match broken.number {
        4 => writeln!(hints, "hint: {} columns", table.columns.len()),
        6 => put_births(broken.schema, table, hints),
        7 => match table.life {
            Some(life) => writeln!(hints, "hint: life [{}, {}]", life.lo, life.hi),
            None => Ok(()),
        },
        8 => match table.update {
            Some(units) => writeln!(hints, "hint: update {units}"),
            None => Ok(()),
        },
        23 => match broken.facts() {
            Some(facts) => put_counted("cost ", facts.cost, "", hints),
            None => Ok(()),
        },
        24 => match broken.facts() {
            Some(facts) => put_counted("size ", facts.max_line, " bytes", hints),
            None => Ok(()),
        },
        _ => Ok(()),
    }
}

/// Appends a line with a number between words.
fn put_counted(
    before: &str,
    number: u64,
    behind: &str,
    hints: &mut String,
) -> Result<(), AllocError> {
    hints.push_str("hint: ")?;
    hints.push_str(before)?;
    put_grouped(number, hints)?;
    writeln!(hints, "{behind}")
}

/// Appends how many rows of a table are born.
fn put_births(schema: &Schema, table: &Table, hints: &mut String) -> Result<(), AllocError> {
    writeln!(hints, "hint: rows {} at unit 0", table.rows)?;
    let mut sum: u64 = 0;
    for unit in 0..last_of(schema).saturating_add(1) {
        sum = sum.saturating_add(cohort_size(table, unit));
    }
    put_counted("sum ", sum, " rows", hints)
}

/// Returns the last unit of a schema, between its limits.
fn last_of(schema: &Schema) -> u64 {
    schema.units.clamp(0, MAX_UNITS) as u64
}

fn put_numbers_of_column(
    broken: &Broken<'_>,
    column: &Column,
    hints: &mut String,
) -> Result<(), AllocError> {
    match &column.kind {
        Kind::Key { base, .. } if broken.number == 5 => writeln!(hints, "hint: base {base}"),
        Kind::Leaf(leaf) if 9 <= broken.number && broken.number <= 14 => put_leaf(leaf, hints),
        Kind::List { file } if broken.number == 13 => {
            writeln!(hints, "hint: a name of {} bytes", file.len())
        }
        Kind::Template { parts } if broken.number == 15 && !is_one_to_32(parts.len()) => {
            writeln!(hints, "hint: {} parts", parts.len())
        }
        Kind::Template { parts } if broken.number == 29 => put_widths(parts, hints),
        Kind::Case { branches, .. } if broken.number == 16 => {
            writeln!(hints, "hint: {} branches", branches.len())
        }
        Kind::Ref { table, window, .. } if broken.number == 19 => {
            put_window(broken, table, *window, hints)
        }
        Kind::Ref { table, window, .. } if broken.number == 20 => {
            put_orphan(broken, table, *window, hints)
        }
        Kind::Ref { spread, .. } if broken.number == 21 => {
            writeln!(hints, "hint: {} numbers", spread.len())
        }
        Kind::BornDate { step, .. } | Kind::ChangedDate { step, .. } if broken.number == 26 => {
            writeln!(hints, "hint: step {step}, units {}", broken.schema.units)
        }
        Kind::After { of, lo, hi } if broken.number == 27 => {
            writeln!(hints, "hint: of \"{}\", lo {lo}, hi {hi}", of.as_str())
        }
        Kind::Sum { of } | Kind::Product { of } if broken.number == 28 => {
            writeln!(hints, "hint: {} names", of.len())
        }
        _ if broken.number == 25 => {
            writeln!(
                hints,
                "hint: null {}, changes {}",
                column.null, column.changes
            )
        }
        _ => Ok(()),
    }
}

/// Whether a template can have so many parts.
fn is_one_to_32(parts: usize) -> bool {
    1 <= parts && parts <= 32
}

/// Appends the columns that are padded, and their widths.
fn put_widths(parts: &Parts, hints: &mut String) -> Result<(), AllocError> {
    for part in parts.as_slice() {
        if let Part::Padded { column, width } = part {
            writeln!(hints, "hint: column \"{}\", width {width}", column.as_str())?;
        }
    }
    Ok(())
}

/// Appends the numbers of a leaf.
fn put_leaf(leaf: &Leaf, hints: &mut String) -> Result<(), AllocError> {
    match leaf {
        Leaf::Int { lo, hi, step } => writeln!(hints, "hint: lo {lo}, hi {hi}, step {step}"),
        Leaf::Fixed { lo, hi, decimals } => {
            writeln!(hints, "hint: lo {lo}, hi {hi}, decimals {decimals}")
        }
        Leaf::Pick { entries, weights } => {
            let (entries, weights) = (entries.len(), weights.len());
            writeln!(hints, "hint: {entries} entries, {weights} weights")
        }
        Leaf::Skew { lo, size, power } => {
            writeln!(hints, "hint: lo {lo}, size {size}, power {power}")
        }
        Leaf::Dict { file } => writeln!(hints, "hint: a name of {} bytes", file.len()),
        Leaf::Words { file: _, lo, hi }
        | Leaf::Chars {
            alphabet: _,
            lo,
            hi,
        } => writeln!(hints, "hint: lo {lo}, hi {hi}"),
        Leaf::Date { lo: _, hi: _ } | Leaf::Uuid => Ok(()),
    }
}

/// Returns the table of a name, with its facts.
fn parent_of<'a>(broken: &Broken<'a>, name: &Text) -> Option<(&'a Table, &'a TableFacts)> {
    let tables = broken.schema.tables.as_slice();
    let place = place_of_table(tables, name);
    Some((tables.get(place)?, broken.facts.get(place)?))
}

/// Appends a window, and the sure life of the parents.
fn put_window(
    broken: &Broken<'_>,
    name: &Text,
    window: Window,
    hints: &mut String,
) -> Result<(), AllocError> {
    match window {
        Window::Units(units) => write!(hints, "hint: window {units}, ")?,
        Window::All => hints.push_str("hint: window \"all\", ")?,
    }
    hints.push_str("sure life of ")?;
    put_name(name, hints)?;
    let sure_life = match parent_of(broken, name) {
        Some((_, facts)) => facts.lineage.sure_life,
        None => None,
    };
    match sure_life {
        Some(units) => writeln!(hints, " {units}"),
        None => hints.push_str(" without end\n"),
    }
}

/// Appends the first unit at which rows are born and no parent is in the window.
fn put_orphan(
    broken: &Broken<'_>,
    name: &Text,
    window: Window,
    hints: &mut String,
) -> Result<(), AllocError> {
    let Some(table) = broken.table() else {
        return Ok(());
    };
    let Some((parent, _)) = parent_of(broken, name) else {
        return Ok(());
    };
    match first_orphan(table, parent, window, last_of(broken.schema)) {
        Some(unit) => {
            match window {
                Window::Units(units) => write!(hints, "hint: window {units}: ")?,
                Window::All => hints.push_str("hint: ")?,
            }
            write!(
                hints,
                "at unit {unit} rows are born, and the window has none of "
            )?;
            put_name(name, hints)?;
            hints.push_str("\n")
        }
        None => Ok(()),
    }
}

/// Returns the first unit at which rows of a table are born and no parent is born in the window, up to a last unit.
fn first_orphan(table: &Table, parent: &Table, window: Window, last: u64) -> Option<u64> {
    let mut youngest = None;
    for unit in 0..last.saturating_add(1) {
        if cohort_size(parent, unit) > 0 {
            youngest = Some(unit);
        }
        if cohort_size(table, unit) > 0 && !reaches(window, youngest, unit) {
            return Some(unit);
        }
    }
    None
}

/// Whether a window at a unit has the unit of the youngest parents, if there are any.
fn reaches(window: Window, youngest: Option<u64>, unit: u64) -> bool {
    match (window, youngest) {
        (_, None) => false,
        (Window::All, Some(_)) => true,
        (Window::Units(units), Some(birth)) => {
            units >= 0 && unit.saturating_sub(birth) <= units as u64
        }
    }
}
