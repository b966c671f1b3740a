//! Hints on a broken rule: the place by its names, its line, the rule, and the numbers that break it.

use crate::lines::{Spot, line_of, put_line};
use crate::numbers::put_numbers;
use schema_check::is_name;
use schema_facts::TableFacts;
use schema_model::{Column, Schema, Table, Text};
use schema_read::Place;
use std::alloc::AllocError;

/// A broken rule, with the schema and its facts. Tables and columns count from 1, and 0 means that there is none.
#[derive(Clone, Copy)]
pub(crate) struct Broken<'a> {
    /// The rule's number in messages.
    pub(crate) number: u32,
    /// The number of the table.
    pub(crate) table: u64,
    /// The number of the column.
    pub(crate) column: u64,
    /// The schema.
    pub(crate) schema: &'a Schema,
    /// The facts of its first tables.
    pub(crate) facts: &'a [TableFacts],
}

impl<'a> Broken<'a> {
    /// Returns the table.
    pub(crate) fn table(&self) -> Option<&'a Table> {
        self.schema.tables.as_slice().get(place_of(self.table)?)
    }

    /// Returns the column.
    pub(crate) fn column(&self) -> Option<&'a Column> {
        self.table()?.columns.as_slice().get(place_of(self.column)?)
    }

    /// Returns the facts of the table.
    pub(crate) fn facts(&self) -> Option<&'a TableFacts> {
        self.facts.get(place_of(self.table)?)
    }

    /// Returns where the place stands among the tables and columns.
    fn spot(&self) -> Spot {
        let columns = match self.table() {
            Some(table) => table.columns.len() as u64,
            None => 0,
        };
        Spot {
            place: Place {
                table: self.table,
                column: self.column,
                branch: 0,
            },
            tables: self.schema.tables.len() as u64,
            columns,
        }
    }
}

/// Returns the place, counted from 0, of a number that counts from 1.
fn place_of(number: u64) -> Option<usize> {
    match number {
        0 => None,
        _ => Some((number - 1) as usize),
    }
}

/// Returns a rule in one sentence.
fn rule_words(number: u32) -> &'static str {
    match number {
        1 => "`seed` is at least 0, and `units` is 0 to 10,000",
        2 => "there are 1 to 64 tables",
        3 => "each table has a name that no earlier one has",
        4 =>
            "each table has 1 to 64 columns, each with a name that no earlier one of the table has",
        5 => "the first column of each table is its only key, and `base` is 0 to 2^62",
        6 => "at most 2^40 rows of a table are born up to `units`",
        7 => "`life` is two numbers from 1 to 20,000, the first at most the second",
        8 => "`update` is 1 to 10,000",
        9 => "`lo` is at most `hi`, `step` is at least 1, and `decimals` is 0 to 9",
        10 => "`lo` isn't after `hi`",
        11 => "there are 1 to 256 entries, each with a weight of at least 1",
        12 => "`size` is 1 to 4,096, and `power` is 1 to 3",
        13 => "names of word lists have 1 to 255 bytes, and at most 64 differ",
        14 =>
            "`lo` and `hi` are 0 to 1,000, `lo` is at most `hi`, and an alphabet has 1 to 256 characters",
        15 =>
            "a template has 1 to 32 parts, each citing an earlier column that is no template, no case and no lookup",
        16 => "a case goes by an earlier `pick`, and has a branch for each entry",
        17 => "a case or template without `changes = true` cites no column that moves",
        18 => "a reference names an earlier table, and a table has at most 8 of them",
        19 =>
            "a window is at least 0 and less than the sure life of the parents; \"all\" is for parents that never die",
        20 => "at each unit at which rows are born, some parent is born in the window",
        21 => "`spread` has 1 to 64 numbers from 1 to 1,000",
        22 =>
            "a lookup goes by an earlier cascading reference, and shows a column that doesn't move and is no lookup",
        23 => "the cost of a row is at most 4,096",
        24 => "a line has at most 65,536 bytes, by the greatest sizes of its fields",
        _ => late_rule_words(number),
    }
}

/// Returns what one of the rules says that are tried last: those from 25 on.
fn late_rule_words(number: u32) -> &'static str {
    match number {
        25 =>
            "`null` is 0 to 999, and `null` and `changes = true` stand only with kinds that take them",
        26 => "`step` is 0 to 3,660, and the day of unit `units` is at most 9999-12-31",
        27 =>
            "`of` names an earlier dated column that doesn't move, `lo` and `hi` are -36,525 to 36,525, and all days are of the years 0001 to 9999",
        28 =>
            "`of` names earlier numeric columns that don't move, 1 to 8 of a sum and 2 to 4 of a product, and the result stays within 64 bits, 9 digits after the point and 64 drawn values",
        29 =>
            "the `width` of a part is 1 to 64, and it cites a `key`, `born`, `changed`, `int`, `skew` or `ref`",
        _ => "",
    }
}

/// Appends a broken rule: where, which, and by which numbers.
pub(crate) fn put_rule(
    text: &str,
    broken: &Broken<'_>,
    hints: &mut String,
) -> Result<(), AllocError> {
    hints.push_str("hint: ")?;
    put_place(broken, hints)?;
    put_line(line_of(text, broken.spot(), None), hints)?;
    writeln!(hints, ": {}", rule_words(broken.number))?;
    put_numbers(broken, hints)
}

/// Appends the names of a place, as `orders.customer`.
fn put_place(broken: &Broken<'_>, hints: &mut String) -> Result<(), AllocError> {
    let Some(table) = broken.table() else {
        return hints.push_str("the schema");
    };
    put_name(&table.name, hints)?;
    match broken.column() {
        Some(column) => {
            hints.push_str(".")?;
            put_name(&column.name, hints)
        }
        None => Ok(()),
    }
}

/// Appends a name, in quotes if it isn't of the form of names.
pub(crate) fn put_name(name: &Text, hints: &mut String) -> Result<(), AllocError> {
    let text = name.as_str();
    if is_name(name) {
        hints.push_str(text)
    } else {
        write!(hints, "{text:?}")
    }
}
