//! Hints on the keys of a schema.

use crate::lines::{Spot, line_of, put_line};
use schema_read::{Expected, Place, SchemaKey};
use std::alloc::{AllocError, Global};
use toml::{Table, Value};

/// The keys of the schema as a whole.
const TOP_KEYS: &str = "seed, units, delimiter, table";

/// The keys of a table.
const TABLE_KEYS: &str = "name, rows, insert, life, update, column";

/// The keys of a column of any kind.
const COLUMN_KEYS: &str = "name, kind, changes, null";

/// The keys of a branch of any kind.
const BRANCH_KEYS: &str = "kind";

/// The kinds that a branch can have.
const LEAF_KINDS: &str = "int, fixed, date, pick, skew, dict, words, chars, uuid";

/// The kinds that only a column can have.
const OTHER_KINDS: &str =
    "key, born, changed, born_date, changed_date, list, template, case, after, sum, product, ref, lookup";

/// Returns the keys of a kind, beside those of any kind.
fn own_keys(kind: &str) -> &'static str {
    match kind {
        "key" => "base, scramble",
        "int" => "lo, hi, step",
        "fixed" => "lo, hi, decimals",
        "date" => "lo, hi",
        "pick" => "entries, weights",
        "skew" => "lo, size, power",
        "dict" => "file",
        "list" => "file",
        "born_date" => "start, step",
        "changed_date" => "start, step",
        "words" => "file, lo, hi",
        "chars" => "alphabet, lo, hi",
        "template" => "parts",
        "case" => "on, branches",
        "after" => "of, lo, hi",
        "sum" => "of",
        "product" => "of",
        "ref" => "table, window, spread, on_delete, deal",
        "lookup" => "via, column",
        _ => "",
    }
}

/// Appends where a text stops being TOML, and why.
pub(crate) fn put_syntax(alloc: Global, text: &str, hints: &mut String) -> Result<(), AllocError> {
    let Err(error) = toml::table_from_str(alloc, text) else {
        return Ok(());
    };
    let why = error.message();
    match error.span() {
        Some(span) => {
            let (line, column) = position_of(text, span.start);
            writeln!(hints, "hint: line {line}, column {column}: {why}")
        }
        None => Ok(()),
    }
}

/// Returns the line and the column of a byte, both from 1. A column counts characters.
fn position_of(text: &str, at: usize) -> (u64, u64) {
    let mut line: u64 = 1;
    let mut column: u64 = 1;
    for byte in text.as_bytes().iter().take(at) {
        if *byte == b'\n' {
            line = line.saturating_add(1);
            column = 1;
        } else if *byte & 0xC0 != 0x80 {
            column = column.saturating_add(1);
        }
    }
    (line, column)
}

/// Returns the tables of a list under a key.
pub(crate) fn list_at<'a>(members: &'a Table, key: &str) -> &'a [Value] {
    match members.get(key) {
        Some(Value::Array(items)) => items.as_slice(),
        _ => &[],
    }
}

/// Returns the members of an item of a list, by its number, counted from 1.
fn item_at<'a>(members: &'a Table, key: &str, number: u64) -> Option<&'a Table> {
    let place = (number as usize).checked_sub(1)?;
    list_at(members, key).get(place)?.as_table()
}

/// Returns the members of a place.
fn members_at(document: &Table, place: Place) -> Option<&Table> {
    if place.table == 0 {
        return Some(document);
    }
    let table = item_at(document, "table", place.table)?;
    if place.column == 0 {
        return Some(table);
    }
    let column = item_at(table, "column", place.column)?;
    if place.branch == 0 {
        return Some(column);
    }
    item_at(column, "branches", place.branch)
}

/// Returns where a place stands among the tables and columns of a document. A branch stands where its column does.
fn spot_of(document: &Table, place: Place) -> Spot {
    let columns = match item_at(document, "table", place.table) {
        Some(table) => list_at(table, "column").len() as u64,
        None => 0,
    };
    Spot {
        place,
        tables: list_at(document, "table").len() as u64,
        columns,
    }
}

/// Returns the line of a key of a place, or of the place itself if the key's line isn't sure.
fn line_in(text: &str, spot: Spot, key: &str) -> Option<u64> {
    let key = if spot.place.branch == 0 {
        key
    } else {
        "branches"
    };
    match line_of(text, spot, Some(key)) {
        Some(line) => Some(line),
        None => line_of(text, spot, None),
    }
}

/// Appends a wrong key: its line, and what may stand there.
pub(crate) fn put_key_hints(
    alloc: Global,
    text: &str,
    place: Place,
    key: SchemaKey,
    expected: Expected,
    hints: &mut String,
) -> Result<(), AllocError> {
    let Ok(document) = toml::table_from_str(alloc, text) else {
        return Ok(());
    };
    let Some(members) = members_at(&document, place) else {
        return Ok(());
    };
    let spot = spot_of(&document, place);
    match key {
        SchemaKey::Other => put_unknown(text, spot, members, hints),
        _ => {
            let name = key.name();
            put_value(name, members, line_in(text, spot, name), hints)?;
            put_expected(expected, hints)
        }
    }
}

/// Appends a key that has no place where it stands, and the keys that have.
fn put_unknown(
    text: &str,
    spot: Spot,
    members: &Table,
    hints: &mut String,
) -> Result<(), AllocError> {
    let (common, own) = keys_at(spot.place, members);
    for name in members.keys() {
        let name = name.as_str();
        if !is_listed(common, name) && !is_listed(own, name) {
            write!(hints, "hint: {name:?}")?;
            put_line(line_in(text, spot, name), hints)?;
            return put_known(common, own, hints);
        }
    }
    Ok(())
}

/// Appends the keys that have a place, after one that has none.
fn put_known(common: &str, own: &str, hints: &mut String) -> Result<(), AllocError> {
    let comma = if own.is_empty() { "" } else { ", " };
    writeln!(hints, ": the keys here are {common}{comma}{own}")
}

/// Returns the keys of a place: those of any kind, and those of its own.
fn keys_at(place: Place, members: &Table) -> (&'static str, &'static str) {
    if place.table == 0 {
        return (TOP_KEYS, "");
    }
    if place.column == 0 {
        return (TABLE_KEYS, "");
    }
    let own = match members.get("kind") {
        Some(Value::String(kind)) => own_keys(kind.as_str()),
        _ => "",
    };
    if place.branch == 0 {
        (COLUMN_KEYS, own)
    } else {
        (BRANCH_KEYS, own)
    }
}

/// Whether a key is one of a list.
fn is_listed(keys: &str, name: &str) -> bool {
    keys.split(", ").any(|key| key == name)
}

/// Appends a key, its line, and what its value is.
pub(crate) fn put_value(
    name: &str,
    members: &Table,
    line: Option<u64>,
    hints: &mut String,
) -> Result<(), AllocError> {
    write!(hints, "hint: `{name}`")?;
    put_line(line, hints)?;
    match members.get(name) {
        None => hints.push_str(" is missing"),
        Some(Value::Datetime(date)) => write!(
            hints,
            " is a date without quotes: a date is a text here, \"{date}\""
        ),
        Some(value) => write!(hints, " is of the type {}", value.type_str()),
    }?;
    hints.push_str("\n")
}

/// Appends what may stand at a key.
pub(crate) fn put_expected(expected: Expected, hints: &mut String) -> Result<(), AllocError> {
    match expected {
        Expected::KindName => writeln!(hints, "hint: the kinds are {OTHER_KINDS}, {LEAF_KINDS}"),
        Expected::LeafName => writeln!(hints, "hint: the leaf kinds are {LEAF_KINDS}"),
        _ => writeln!(hints, "hint: write {}", sample_of(expected)),
    }
}

/// Returns what may stand at a key, by an example.
fn sample_of(expected: Expected) -> &'static str {
    match expected {
        Expected::Whole => "a whole number of 64 bits, such as 7",
        Expected::TextValue => "a text in quotes, such as \"orders\"",
        Expected::Flag => "true or false, without quotes",
        Expected::DelimiterName => "\"tab\" or \"bar\"",
        Expected::TableList => "a table under double brackets, such as [[table]]",
        Expected::TwoWholes => "two whole numbers, such as [2, 5]",
        Expected::KindName | Expected::LeafName => "the name of a kind, such as \"int\"",
        Expected::DateText => "a date in quotes, such as \"1999-12-31\"",
        Expected::TextList => "texts in brackets, such as [\"a\", \"b\"]",
        Expected::Wholes => "whole numbers in brackets, such as [1, 2]",
        Expected::PartList => "texts and columns, such as [\"no. \", { column = \"id\" }]",
        Expected::WindowValue => "a whole number, such as 3, or \"all\"",
        Expected::InsertValue => "a whole number, such as 10, or phases, such as [[1, 10], [5, 0]]",
        Expected::DeleteName => "\"cascade\" or \"null\"",
        Expected::DealName => "\"turn\" or \"drawn\"",
        Expected::NoSuchKey => "no such key",
    }
}
