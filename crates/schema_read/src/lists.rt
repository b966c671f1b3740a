//! Lists of a document, read as sequences.

ghost use Rattle.std.specs.Prelude.{◌≡◌, [], map, Option, IfOk};
ghost use Rattle.toml.specs.Data.{Data, as_integer, as_str};
ghost use Rattle.toml.specs.View.{view, table_view};
ghost use Rattle.schema_read.specs.Types.{all_read, as_list_of, as_part, as_phase, one_phase, as_phases, part_of_table};
ghost use Rattle.schema_read.specs.Values.{value_under, value_or};

use crate::members::member;
use crate::schema_key::SchemaKey;
use crate::types::{array_elements, cited_name, padded_column, phase_of_value};
use out_of_memory::Memory;
use schema_model::{Part, Phase, Phases, Sequence, Text};
use std::alloc::Global;
use toml::{Table, Value};

/// A type as which the elements of an array are read.
pub trait Element: Drop {
    ghost read: { Data → Option Self };

    /// Reads the element from a value, or returns None if the value isn't one. Refuses if memory is wanting.
    fn of_value(alloc: Global, value: &Value) -> Result<Option<Self>, Memory>
    where
        Self: Sized,
        ensures { IfOk result (λ found. found ≡ read (view value.now)) };
}

impl Element for Text {
    ghost read = { as_str };

    fn of_value(alloc: Global, value: &Value) -> Result<Option<Text>, Memory> {
        match value.as_str() {
            Some(text) => Ok(Some(Text::of(alloc, text)?)),
            None => Ok(None),
        }
    }
}

impl Element for i64 {
    ghost read = { as_integer };

    fn of_value(_alloc: Global, value: &Value) -> Result<Option<i64>, Memory> {
        Ok(value.as_integer())
    }
}

impl Element for Phase {
    ghost read = { as_phase };

    fn of_value(_alloc: Global, value: &Value) -> Result<Option<Phase>, Memory> {
        Ok(phase_of_value(value))
    }
}

impl Element for Part {
    ghost read = { as_part };

    fn of_value(alloc: Global, value: &Value) -> Result<Option<Part>, Memory> {
        match value.as_str() {
            Some(text) => Ok(Some(Part::Literal(Text::of(alloc, text)?))),
            None => match value.as_table() {
                Some(members) => part_of_table(alloc, members),
                None => Ok(None),
            },
        }
    }
}

/// Reads a part that cites a column from a table, or returns None if the table isn't one.
fn part_of_table(alloc: Global, members: &Table) -> Result<Option<Part>, Memory>
    ensures { IfOk result (λ found. found ≡ part_of_table (table_view members.now)) }
{
    match cited_name(members) {
        Some(name) => Ok(Some(Part::Cited(Text::of(alloc, name)?))),
        None => match padded_column(members) {
            Some((column, width)) => {
                let column = Text::of(alloc, column)?;
                Ok(Some(Part::Padded { column, width }))
            }
            None => Ok(None),
        },
    }
}

fn sequence_of<T: Element>(alloc: Global, items: &[Value]) -> Result<Option<Sequence<T>>, Memory>
    ensures { IfOk result (λ found. found ≡ all_read T.read (map view items.now)) }
{
    let mut sequence = Sequence::new(alloc);
    for item in items {
        match T::of_value(alloc, item)? {
            Some(element) => sequence.push(element)?,
            None => return Ok(None),
        }
    }
    Ok(Some(sequence))
}

/// Reads the elements of an array. Returns None if the value is no array or an element is of another type.
fn sequence_of_value<T: Element>(
    alloc: Global,
    value: &Value,
) -> Result<Option<Sequence<T>>, Memory>
    ensures { IfOk result (λ found. found ≡ as_list_of T.read (view value.now)) }
{
    match array_elements(value) {
        Some(items) => sequence_of(alloc, items),
        None => Ok(None),
    }
}

/// Reads the elements of the array under a key. Returns None if there is no array or an element is of another type.
pub fn list_if_any<T: Element>(
    alloc: Global,
    table: &Table,
    key: SchemaKey,
) -> Result<Option<Sequence<T>>, Memory>
    ensures { IfOk result (λ found. found ≡ value_under (as_list_of T.read) key (table_view table.now)) }
{
    match member(table, key) {
        Some(value) => sequence_of_value(alloc, value),
        None => Ok(None),
    }
}

/// Reads the elements of the array under a key. Returns the empty sequence where `list_if_any` returns None.
pub fn list_at<T: Element>(
    alloc: Global,
    table: &Table,
    key: SchemaKey,
) -> Result<Sequence<T>, Memory>
    ensures { IfOk result (λ found. found ≡ value_or (as_list_of T.read) [] key (table_view table.now)) }
{
    match list_if_any(alloc, table, key)? {
        Some(found) => Ok(found),
        None => Ok(Sequence::new(alloc)),
    }
}

/// Returns the one phase of a constant rate, from unit 1 on.
pub fn one_phase_of(alloc: Global, rate: i64) -> Result<Phases, Memory>
    ensures { IfOk result (λ phases. phases ≡ one_phase rate) }
{
    let mut phases = Phases::new(alloc);
    phases.push(Phase { from: 1, rate })?;
    Ok(phases)
}

/// Reads the phases of a whole number or of an array of pairs. Returns None for any other value.
fn phases_of_value(alloc: Global, value: &Value) -> Result<Option<Phases>, Memory>
    ensures { IfOk result (λ found. found ≡ as_phases (view value.now)) }
{
    match value.as_integer() {
        Some(rate) => Ok(Some(one_phase_of(alloc, rate)?)),
        None => sequence_of_value(alloc, value),
    }
}

/// Reads the phases under a key, or returns None if there are none.
pub fn phases_if_any(alloc: Global, table: &Table, key: SchemaKey) -> Result<Option<Phases>, Memory>
    ensures { IfOk result (λ found. found ≡ value_under as_phases key (table_view table.now)) }
{
    match member(table, key) {
        Some(value) => phases_of_value(alloc, value),
        None => Ok(None),
    }
}
