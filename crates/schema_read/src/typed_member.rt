//! The values under the keys of a table. A key that is missing, or whose value is of another type, has none.

ghost use Rattle.std.specs.Prelude.{◌≡◌, IfOk};
ghost use Rattle.std.specs.Option.{option_copied};
ghost use Rattle.toml.specs.Data.{as_bool, as_integer, as_str};
ghost use Rattle.toml.specs.View.{table_view};
ghost use Rattle.schema_read.specs.Document.{members_of_values};
ghost use Rattle.schema_read.specs.Shape.{kind_of, leaf_of};
ghost use Rattle.schema_read.specs.Types.{as_deal, as_delimiter, as_life, as_day, as_window, as_deletion};
ghost use Rattle.schema_read.specs.Values.{value_under, whole, text, tables};

use crate::kind_name::{KindName, LeafName};
use crate::members::member;
use crate::schema_key::SchemaKey;
use crate::types::{
    day_of, deal_of, deletion_of, delimiter_of, kind_of, leaf_kind_of, life_of_value,
    table_elements, window_of,
};
use out_of_memory::Memory;
use schema_model::{Deal, Delimiter, Life, OnDelete, Text, Window};
use std::alloc::Global;
use toml::{Table, Value};

/// Returns the whole number under a key.
pub fn whole_if_any(table: &Table, key: SchemaKey) -> Option<i64>
    ensures { result ≡ value_under as_integer key (table_view table.now) }
{
    member(table, key)?.as_integer()
}

/// Returns the whole number under a key, or 0 if there is none.
pub fn whole_at(table: &Table, key: SchemaKey) -> i64
    ensures { result ≡ whole key (table_view table.now) }
{
    whole_if_any(table, key).unwrap_or(0)
}

/// Returns the flag under a key.
pub fn flag_if_any(table: &Table, key: SchemaKey) -> Option<bool>
    ensures { result ≡ value_under as_bool key (table_view table.now) }
{
    member(table, key)?.as_bool()
}

/// Returns the delimiter under a key.
pub fn delimiter_if_any(table: &Table, key: SchemaKey) -> Option<Delimiter>
    ensures { result ≡ value_under as_delimiter key (table_view table.now) }
{
    delimiter_of(member(table, key)?)
}

/// Returns the life under a key: two whole numbers.
pub fn life_if_any(table: &Table, key: SchemaKey) -> Option<Life>
    ensures { result ≡ value_under as_life key (table_view table.now) }
{
    life_of_value(member(table, key)?)
}

/// Returns the day number of the date under a key.
pub fn day_if_any(table: &Table, key: SchemaKey) -> Option<i32>
    ensures { result ≡ value_under as_day key (table_view table.now) }
{
    day_of(member(table, key)?)
}

/// Returns the window under a key.
pub fn window_if_any(table: &Table, key: SchemaKey) -> Option<Window>
    ensures { result ≡ value_under as_window key (table_view table.now) }
{
    window_of(member(table, key)?)
}

/// Returns what a deletion does, from the name under a key.
pub fn deletion_if_any(table: &Table, key: SchemaKey) -> Option<OnDelete>
    ensures { result ≡ value_under as_deletion key (table_view table.now) }
{
    deletion_of(member(table, key)?)
}

/// Returns the order in which parents are dealt, from the name under a key.
pub fn deal_if_any(table: &Table, key: SchemaKey) -> Option<Deal>
    ensures { result ≡ value_under as_deal key (table_view table.now) }
{
    deal_of(member(table, key)?)
}

/// Returns the kind of a column, or `born` if none is named.
pub fn kind_at(column: &Table) -> KindName
    ensures { result ≡ kind_of (table_view column.now) }
{
    match member(column, SchemaKey::Kind) {
        Some(value) => kind_of(value).unwrap_or(KindName::Born),
        None => KindName::Born,
    }
}

/// Returns the leaf kind of a branch, or `int` if none is named.
pub fn leaf_kind_at(branch: &Table) -> LeafName
    ensures { result ≡ leaf_of (table_view branch.now) }
{
    match member(branch, SchemaKey::Kind) {
        Some(value) => leaf_kind_of(value).unwrap_or(LeafName::Int),
        None => LeafName::Int,
    }
}

/// Returns the text under a key, or None if there is none.
pub fn str_if_any(table: &Table, key: SchemaKey) -> Option<&str>
    ensures { option_copied result ≡ value_under as_str key (table_view table.now) }
{
    member(table, key)?.as_str()
}

/// Copies the text under a key, or returns the empty text if there is none. Refuses if memory is wanting.
pub fn text_at(alloc: Global, table: &Table, key: SchemaKey) -> Result<Text, Memory>
    ensures { IfOk result (λ found. found ≡ text key (table_view table.now)) }
{
    match member(table, key) {
        Some(value) => match value.as_str() {
            Some(found) => Text::of(alloc, found),
            None => Ok(Text::new(alloc)),
        },
        None => Ok(Text::new(alloc)),
    }
}

/// Returns the tables of the list under a key, or none if there is no such list.
pub fn tables_at(table: &Table, key: SchemaKey) -> &[Value]
    ensures { members_of_values result.now ≡ tables key (table_view table.now) }
{
    match member(table, key) {
        Some(value) => match table_elements(value) {
            Some(items) => items,
            None => &[],
        },
        None => &[],
    }
}
