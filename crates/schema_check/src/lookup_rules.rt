//! What the rules ask of lookups.

ghost use Rattle.std.specs.Prelude.{◌≡◌, ◌<◌, length};
ghost use Rattle.schema_plan.specs.Rules.{has_still_column, is_looked_up, is_lookup, is_lookup_kind, kind_at};

use crate::column_rules::moves;
use schema_facts::{columns_of, place_of_column, place_of_table};
use schema_model::{Column, Kind, OnDelete, Table, Text};

/// Whether the column at a place keeps the rule of lookups. A lookup names an earlier cascading reference, and a column of the parent's
/// table that doesn't move and is no lookup.
pub(crate) fn is_lookup(tables: &[Table], columns: &[Column], place: usize) -> bool
    requires { place < length columns.now }
    ensures { result ≡ is_lookup tables.now columns.now place (kind_at columns.now place) }
{
    match &columns[place].kind {
        Kind::Lookup { via, column } => {
            let reference = place_of_column(columns, via);
            reference < place && is_looked_up(tables, &columns[reference].kind, column)
        }
        _ => true,
    }
}

/// Whether a kind is a cascading reference, and its table has a column of this name that doesn't move and is no lookup.
fn is_looked_up(tables: &[Table], kind: &Kind, name: &Text) -> bool
    ensures { result ≡ is_looked_up tables.now kind.now name.now }
{
    match kind {
        Kind::Ref {
            table,
            on_delete,
            ..
        } => match on_delete {
            OnDelete::Cascade => {
                has_still_column(columns_of(tables, place_of_table(tables, table)), name)
            }
            OnDelete::Null => false,
        },
        _ => false,
    }
}

/// Whether some columns have one of this name that doesn't move and is no lookup.
pub fn has_still_column(columns: &[Column], name: &Text) -> bool
    ensures { result ≡ has_still_column columns.now name.now }
{
    let place = place_of_column(columns, name);
    place < columns.len() && !moves(&columns[place]) && !is_lookup_kind(&columns[place].kind)
}

fn is_lookup_kind(kind: &Kind) -> bool
    ensures { result ≡ is_lookup_kind kind.now }
{
    matches!(kind, Kind::Lookup { .. })
}
