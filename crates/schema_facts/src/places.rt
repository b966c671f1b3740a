//! Names resolved to places, which count from 0. A name that nothing has gives the place past the last one.

ghost use Rattle.std.specs.Prelude.{◌≡◌, ◌≤◌, length};
ghost use Rattle.std.specs.List.{position};
ghost use Rattle.schema_facts.specs.Layout.{columns_of, keys_of, keys_of_kind, place_of_parent, parent_via, place_of_column, place_of_table};
ghost use Rattle.schema_facts.specs.Names.{same_text};

use crate::counts::count;
use crate::layout::Keys;
use schema_model::{Column, Kind, Table, Text};

/// Returns the place of the table with a name.
pub fn place_of_table(tables: &[Table], name: &Text) -> usize
    ensures place { result ≡ place_of_table tables.now name.now }
    ensures within { result ≤ length tables.now }
{
    find_table(tables, name).unwrap_or(tables.len())
}

/// Returns the place of the first table with a name, or None if there is none.
fn find_table(tables: &[Table], name: &Text) -> Option<usize>
    ensures { result ≡ position (λ table. same_text table.name name.now) tables.now }
{
    tables.iter().position(|table| table.name == *name)
}

/// Returns the place of the column with a name.
pub fn place_of_column(columns: &[Column], name: &Text) -> usize
    ensures place { result ≡ place_of_column columns.now name.now }
    ensures within { result ≤ length columns.now }
{
    find_column(columns, name).unwrap_or(columns.len())
}

/// Returns the place of the first column with a name, or None if there is none.
fn find_column(columns: &[Column], name: &Text) -> Option<usize>
    ensures { result ≡ position (λ column. same_text column.name name.now) columns.now }
{
    columns.iter().position(|column| column.name == *name)
}

/// Returns the place of the parent table that a kind names. A kind that names none gives the place past the last table.
fn parent_of(tables: &[Table], kind: &Kind) -> usize
    ensures place { result ≡ place_of_parent tables.now kind.now }
    ensures within { result ≤ length tables.now }
{
    match kind {
        Kind::Ref { table, .. } => place_of_table(tables, table),
        _ => tables.len(),
    }
}

/// Returns the place of the table that the column with a name refers to.
pub fn parent_via(tables: &[Table], columns: &[Column], via: &Text) -> usize
    ensures place { result ≡ parent_via tables.now columns.now via.now }
    ensures within { result ≤ length tables.now }
{
    let place = place_of_column(columns, via);
    if place < columns.len() {
        parent_of(tables, &columns[place].kind)
    } else {
        tables.len()
    }
}

/// Returns the columns of the table at a place. Past the last table there are none.
pub fn columns_of(tables: &[Table], place: usize) -> &[Column]
    ensures { result.now ≡ columns_of tables.now place }
{
    match tables.get(place) {
        Some(table) => table.columns.as_slice(),
        None => &[],
    }
}

/// Returns the keys of a table, by its first column.
pub(crate) fn keys_of(columns: &[Column]) -> Keys
    ensures { result ≡ keys_of columns.now }
{
    match columns {
        [first, ..] => keys_of_kind(&first.kind),
        [] => Keys {
            base: 0,
            scramble: false,
        },
    }
}

/// Returns the keys that a column of a kind holds.
fn keys_of_kind(kind: &Kind) -> Keys
    ensures { result ≡ keys_of_kind kind.now }
{
    match kind {
        Kind::Key { base, scramble } => Keys {
            base: count(*base),
            scramble: *scramble,
        },
        _ => Keys {
            base: 0,
            scramble: false,
        },
    }
}
