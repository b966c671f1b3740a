//! Hints on a declaration of a detail table: its keys and its rules.

use crate::keys::{list_at, put_expected, put_syntax, put_value};
use crate::lines::{Spot, line_of, put_line};
use crate::schema::{put_no_utf8, text_of};
use pd_outside::Library;
use schema_read::{Expected, KindName, Place, SchemaKey, Wanted, keys_of_kind, leaf_of_name};
use std::alloc::{AllocError, Global};
use toml::{Table, Value};

/// The keys of the document, in order.
const TOP_KEYS: [Wanted; 6] = [
    Wanted::Required(SchemaKey::Seed, Expected::Whole),
    Wanted::Required(SchemaKey::Name, Expected::TextValue),
    Wanted::Required(SchemaKey::Parent, Expected::TextValue),
    Wanted::Required(SchemaKey::Lo, Expected::Whole),
    Wanted::Required(SchemaKey::Hi, Expected::Whole),
    Wanted::Required(SchemaKey::Column, Expected::TableList),
];

/// The keys of a column of any kind.
const COLUMN_KEYS: [Wanted; 4] = [
    Wanted::Required(SchemaKey::Name, Expected::TextValue),
    Wanted::Required(SchemaKey::Kind, Expected::TextValue),
    Wanted::Optional(SchemaKey::Changes, Expected::Flag),
    Wanted::Optional(SchemaKey::Null, Expected::Whole),
];

/// The key of a column that shows one of the parent.
const PARENT_KEYS: [Wanted; 1] = [Wanted::Required(SchemaKey::Column, Expected::TextValue)];

/// The kinds that a column can have.
const KINDS: &str =
    "int, fixed, date, pick, skew, dict, words, chars, uuid, parent, after, sum, product";

/// Returns a rule in one sentence, by its number in messages.
fn rule_words(number: &str) -> &'static str {
    match number {
        "1" => "`seed` is at least 0, and no table of the schema has this `name`",
        "2" => "`parent` names a table of the schema",
        "3" => "`lo` is 0 to `hi`, and `hi` is 1 to 64",
        "4" =>
            "there are 1 to 32 columns with different names, each within the limits of its kind; `of` names earlier columns of the file, and a `parent` shows a column that doesn't move and is no lookup",
        "5" =>
            "the lines of one row have at most 65,536 bytes together, by the greatest sizes of their fields",
        "6" => "names of word lists have 1 to 255 bytes, and at most 64 differ",
        _ => "",
    }
}

/// Appends the rule that a declaration breaks.
pub(crate) fn put_details_rule(
    name: &str,
    number: &str,
    hints: &mut String,
) -> Result<(), AllocError> {
    writeln!(hints, "hint: {name:?}: {}", rule_words(number))
}

/// Appends what is wrong with the form of the declaration in a file.
pub(crate) fn put_details_hints<L: Library>(
    alloc: Global,
    name: &str,
    library: &mut L,
    hints: &mut String,
) -> Result<(), AllocError> {
    let Some(bytes) = text_of(alloc, name, library) else {
        return Ok(());
    };
    let text = match std::str::from_utf8(bytes.as_slice()) {
        Ok(text) => text,
        Err(error) => return put_no_utf8(error.valid_up_to(), hints),
    };
    match toml::table_from_str(alloc, text) {
        Ok(document) => put_first_wrong(text, &document, hints),
        Err(_) => put_syntax(alloc, text, hints),
    }
}

/// Whether a value is what a key wants, as far as its type tells.
fn fits(expected: Expected, value: &Value) -> bool {
    match expected {
        Expected::Whole => value.is_integer(),
        Expected::Flag => value.is_bool(),
        Expected::TextList => match value {
            Value::Array(items) => items.as_slice().iter().all(|item| item.is_str()),
            _ => false,
        },
        Expected::Wholes => match value {
            Value::Array(items) => items.as_slice().iter().all(|item| item.is_integer()),
            _ => false,
        },
        Expected::TableList => match value {
            Value::Array(items) => items.as_slice().iter().all(|item| item.is_table()),
            _ => false,
        },
        _ => value.is_str(),
    }
}

/// Appends what may stand at a key.
fn put_sample(expected: Expected, hints: &mut String) -> Result<(), AllocError> {
    match expected {
        Expected::TableList => hints.push_str("hint: write columns, each under [[column]]\n"),
        _ => put_expected(expected, hints),
    }
}

/// Whether a name is that of a kind that a column can have.
fn is_kind(name: &str) -> bool {
    KINDS.split(", ").any(|kind| kind == name)
}

/// Returns the keys of a kind, beside those of any kind.
fn own_keys(kind: &str) -> &'static [Wanted] {
    match kind {
        "parent" => &PARENT_KEYS,
        "after" => keys_of_kind(KindName::After),
        "sum" => keys_of_kind(KindName::Sum),
        "product" => keys_of_kind(KindName::Product),
        _ => match leaf_of_name(kind) {
            Some(leaf) => keys_of_kind(KindName::Leaf(leaf)),
            None => &[],
        },
    }
}

/// Appends the first wrong key of a declaration.
fn put_first_wrong(text: &str, document: &Table, hints: &mut String) -> Result<(), AllocError> {
    let columns = list_at(document, "column");
    if put_wrong_in(text, spot_of(columns, 0), document, &TOP_KEYS, &[], hints)? {
        return Ok(());
    }
    let mut number: u64 = 0;
    for column in columns {
        number = number.saturating_add(1);
        if let Some(members) = column.as_table() {
            if put_wrong_column(text, spot_of(columns, number), members, hints)? {
                return Ok(());
            }
        }
    }
    Ok(())
}

/// Returns where a column stands, by its number, counted from 1. The number 0 means the document as a whole.
fn spot_of(columns: &[Value], number: u64) -> Spot {
    Spot {
        place: Place {
            table: 0,
            column: number,
            branch: 0,
        },
        tables: 0,
        columns: columns.len() as u64,
    }
}

/// Appends the first wrong key of a column. Returns whether there is one.
fn put_wrong_column(
    text: &str,
    spot: Spot,
    members: &Table,
    hints: &mut String,
) -> Result<bool, AllocError> {
    match members.get("kind") {
        Some(Value::String(kind)) => {
            let name = kind.as_str();
            if is_kind(name) {
                put_wrong_in(text, spot, members, &COLUMN_KEYS, own_keys(name), hints)
            } else {
                put_other_kind(text, spot, name, hints)
            }
        }
        _ => put_wrong_in(text, spot, members, &COLUMN_KEYS, &[], hints),
    }
}

/// Appends a kind that no column of a detail table has.
fn put_other_kind(
    text: &str,
    spot: Spot,
    kind: &str,
    hints: &mut String,
) -> Result<bool, AllocError> {
    write!(hints, "hint: kind {kind:?}")?;
    put_line(line_in(text, spot, "kind"), hints)?;
    writeln!(hints, ": the kinds of a detail table are {KINDS}")?;
    Ok(true)
}

/// Returns the line of a key, or of its place if the key's line isn't sure.
fn line_in(text: &str, spot: Spot, key: &str) -> Option<u64> {
    match line_of(text, spot, Some(key)) {
        Some(line) => Some(line),
        None => line_of(text, spot, None),
    }
}

/// Appends the first wrong key of a place. Returns whether there is one.
fn put_wrong_in(
    text: &str,
    spot: Spot,
    members: &Table,
    common: &[Wanted],
    own: &[Wanted],
    hints: &mut String,
) -> Result<bool, AllocError> {
    for wanted in common.iter().chain(own.iter()) {
        if !is_right(members, *wanted) {
            let name = wanted.key().name();
            put_value(name, members, line_in(text, spot, name), hints)?;
            put_sample(wanted.expected(), hints)?;
            return Ok(true);
        }
    }
    for name in members.keys() {
        let name = name.as_str();
        if !is_known(common, name) && !is_known(own, name) {
            write!(hints, "hint: {name:?}")?;
            put_line(line_in(text, spot, name), hints)?;
            put_known(common, own, hints)?;
            return Ok(true);
        }
    }
    Ok(false)
}

/// Whether a place has a key right.
fn is_right(members: &Table, wanted: Wanted) -> bool {
    match members.get(wanted.key().name()) {
        Some(value) => fits(wanted.expected(), value),
        None => wanted.may_be_missing(),
    }
}

/// Whether a name is that of one of some keys.
fn is_known(keys: &[Wanted], name: &str) -> bool {
    keys.iter().any(|wanted| wanted.key().name() == name)
}

/// Appends the keys that have a place, after one that has none.
fn put_known(common: &[Wanted], own: &[Wanted], hints: &mut String) -> Result<(), AllocError> {
    hints.push_str(": the keys here are")?;
    put_names(common, true, hints)?;
    put_names(own, common.is_empty(), hints)?;
    hints.push_str("\n")
}

/// Appends the names of some keys, with a comma before each but the first one.
fn put_names(keys: &[Wanted], is_first: bool, hints: &mut String) -> Result<(), AllocError> {
    let mut is_first = is_first;
    for wanted in keys {
        hints.push_str(if is_first { " " } else { ", " })?;
        hints.push_str(wanted.key().name())?;
        is_first = false;
    }
    Ok(())
}
