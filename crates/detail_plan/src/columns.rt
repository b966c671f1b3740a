//! The columns that a document declares.

ghost use Rattle.std.specs.Prelude.{◌≡◌, IfOk};
ghost use Rattle.toml.specs.View.{table_view};
ghost use Rattle.detail_plan.specs.Form.{as_column, column_given, column_of, kind_given, kind_under};

use crate::detail::{DetailColumn, DetailKind};
use crate::kind_name::{DetailKindName, kind_of_name};
use crate::wanted::{COLUMN_KEYS, own_keys};
use out_of_memory::Memory;
use schema_read::{
    Element, SchemaKey, flag_if_any, has_right_keys, list_at, read_leaf, str_if_any, text_at,
    whole_at,
};
use std::alloc::Global;
use toml::{Table, Value};

impl Element for DetailColumn {
    ghost read = { as_column };

    fn of_value(alloc: Global, value: &Value) -> Result<Option<DetailColumn>, Memory> {
        match value.as_table() {
            Some(members) => column_given(alloc, members),
            None => Ok(None),
        }
    }
}

/// Reads the column that a table declares. Returns None if one of its keys is wrong.
fn column_given(alloc: Global, members: &Table) -> Result<Option<DetailColumn>, Memory>
    ensures { IfOk result (λ found. found ≡ column_given (table_view members.now)) }
{
    let Some(kind) = kind_under(members) else {
        return Ok(None);
    };
    if has_right_keys(members, &COLUMN_KEYS, own_keys(kind)) {
        Ok(Some(read_column(alloc, members, kind)?))
    } else {
        Ok(None)
    }
}

/// Returns the kind that a table names, or None if it names none.
fn kind_under(members: &Table) -> Option<DetailKindName>
    ensures { result ≡ kind_under (table_view members.now) }
{
    match str_if_any(members, SchemaKey::Kind) {
        Some(name) => kind_of_name(name),
        None => None,
    }
}

/// Reads a column of a kind. A key that is missing or of another type gives its default.
fn read_column(alloc: Global, members: &Table, kind: DetailKindName) -> Result<DetailColumn, Memory>
    ensures { IfOk result (λ read. read ≡ column_of kind (table_view members.now)) }
{
    let name = text_at(alloc, members, SchemaKey::Name)?;
    let kind = read_kind(alloc, members, kind)?;
    Ok(DetailColumn {
        name,
        kind,
        changes: flag_if_any(members, SchemaKey::Changes).unwrap_or(false),
        null: whole_at(members, SchemaKey::Null),
    })
}

/// Reads what a column of a kind holds.
fn read_kind(alloc: Global, members: &Table, kind: DetailKindName) -> Result<DetailKind, Memory>
    ensures { IfOk result (λ read. read ≡ kind_given kind (table_view members.now)) }
{
    match kind {
        DetailKindName::Leaf(leaf) => Ok(DetailKind::Leaf(read_leaf(alloc, members, leaf)?)),
        DetailKindName::Parent => Ok(DetailKind::Parent {
            column: text_at(alloc, members, SchemaKey::Column)?,
        }),
        DetailKindName::After => Ok(DetailKind::After {
            of: text_at(alloc, members, SchemaKey::Of)?,
            lo: whole_at(members, SchemaKey::Lo),
            hi: whole_at(members, SchemaKey::Hi),
        }),
        DetailKindName::Sum => Ok(DetailKind::Sum {
            of: list_at(alloc, members, SchemaKey::Of)?,
        }),
        DetailKindName::Product => Ok(DetailKind::Product {
            of: list_at(alloc, members, SchemaKey::Of)?,
        }),
    }
}
