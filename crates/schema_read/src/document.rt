//! The schema of a document, from the values under its keys.

ghost use Rattle.std.specs.Prelude.{◌≡◌, map, IfOk, option_map};
ghost use Rattle.toml.specs.Data.{as_table};
ghost use Rattle.toml.specs.View.{table_view};
ghost use Rattle.schema_read.specs.Shape.{column, table, schema};
ghost use Rattle.schema_read.specs.Values.{tables};

use crate::column_kind::read_kind;
use crate::lists::{Element, list_at, one_phase_of, phases_if_any};
use crate::schema_key::SchemaKey;
use crate::typed_member::{
    delimiter_if_any, flag_if_any, kind_at, life_if_any, text_at, whole_at, whole_if_any,
};
use out_of_memory::Memory;
use schema_model::{Column, Columns, Delimiter, Schema, Table, Tables};
use std::alloc::Global;
use toml::Value;

fn read_column(alloc: Global, members: &toml::Table) -> Result<Column, Memory>
    ensures { IfOk result (λ read. read ≡ column (table_view members.now)) }
{
    let name = text_at(alloc, members, SchemaKey::Name)?;
    let kind = read_kind(alloc, members, kind_at(members))?;
    Ok(Column {
        name,
        kind,
        changes: flag_if_any(members, SchemaKey::Changes).unwrap_or(false),
        null: whole_at(members, SchemaKey::Null),
    })
}

impl Element for Column {
    ghost read = { λ d. option_map column (as_table d) };

    fn of_value(alloc: Global, value: &Value) -> Result<Option<Column>, Memory> {
        match value.as_table() {
            Some(members) => Ok(Some(read_column(alloc, members)?)),
            None => Ok(None),
        }
    }
}

/// Reads the columns of a table, in order.
fn read_columns(alloc: Global, members: &toml::Table) -> Result<Columns, Memory>
    ensures { IfOk result (λ columns. columns ≡ map column (tables SchemaKey.Column (table_view members.now))) }
{
    list_at(alloc, members, SchemaKey::Column)
}

fn read_table(alloc: Global, members: &toml::Table) -> Result<Table, Memory>
    ensures { IfOk result (λ read. read ≡ table (table_view members.now)) }
{
    let name = text_at(alloc, members, SchemaKey::Name)?;
    let insert = match phases_if_any(alloc, members, SchemaKey::Insert)? {
        Some(phases) => phases,
        None => one_phase_of(alloc, 0)?,
    };
    let columns = read_columns(alloc, members)?;
    Ok(Table {
        name,
        rows: whole_at(members, SchemaKey::Rows),
        insert,
        life: life_if_any(members, SchemaKey::Life),
        update: whole_if_any(members, SchemaKey::Update),
        columns,
    })
}

impl Element for Table {
    ghost read = { λ d. option_map table (as_table d) };

    fn of_value(alloc: Global, value: &Value) -> Result<Option<Table>, Memory> {
        match value.as_table() {
            Some(members) => Ok(Some(read_table(alloc, members)?)),
            None => Ok(None),
        }
    }
}

/// Reads the tables of a schema, in order.
fn read_tables(alloc: Global, members: &toml::Table) -> Result<Tables, Memory>
    ensures { IfOk result (λ read. read ≡ map table (tables SchemaKey.Table (table_view members.now))) }
{
    list_at(alloc, members, SchemaKey::Table)
}

/// Reads the schema from the keys of a document. A key that is missing or of another type gives its default.
pub fn read_document(alloc: Global, members: &toml::Table) -> Result<Schema, Memory>
    ensures { IfOk result (λ read. read ≡ schema (table_view members.now)) }
{
    let tables = read_tables(alloc, members)?;
    Ok(Schema {
        seed: whole_at(members, SchemaKey::Seed),
        units: whole_at(members, SchemaKey::Units),
        delimiter: delimiter_if_any(members, SchemaKey::Delimiter).unwrap_or(Delimiter::Tab),
        tables,
    })
}
