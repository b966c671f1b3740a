//! The first wrong key of a document. The search takes no memory.

ghost use Rattle.std.specs.Prelude.{◌≡◌, ◌++◌, find, not};
ghost use Rattle.std.specs.Option.{option_copied};
ghost use Rattle.toml.specs.View.{table_view};
ghost use Rattle.schema_read.specs.Document.{members_of_value, members_of_values};
ghost use Rattle.schema_read.specs.Shape.{are_right, column_place, table_place, branch_wrong, branches_wrong, column_wrong, table_wrong, first_wrong_key};
ghost use Rattle.schema_read.specs.Wanted.{is_right_in, first_of, further_key, first_wrong, each_from};

use crate::fault::{Expected, Place, Wrong};
use crate::fits::fits;
use crate::kind_name::KindName;
use crate::members::{has_only, member};
use crate::schema_key::SchemaKey;
use crate::typed_member::{kind_at, leaf_kind_at, tables_at};
use crate::wanted::{
    BRANCH_KEYS, COLUMN_KEYS, TABLE_KEYS, TOP_KEYS, Wanted, keys_of_kind, keys_of_leaf,
};
use toml::{Table, Value};

/// Whether a table has a wanted key right: of the wanted type, or missing if it can be.
fn is_right(members: &Table, wanted: Wanted) -> bool
    ensures { result ≡ is_right_in (table_view members.now) wanted }
{
    match member(members, wanted.key()) {
        Some(value) => fits(wanted.expected(), value),
        None => wanted.may_be_missing(),
    }
}

/// Returns the first wanted key that a table has wrong. The common keys come first, then those of its own kind.
fn first_not_right<'a>(
    members: &Table,
    common: &'a [Wanted],
    own: &'a [Wanted],
) -> Option<&'a Wanted>
    ensures { option_copied result ≡ find (λ wanted. not (is_right_in (table_view members.now) wanted)) (common.now ++ own.now) }
{
    common
        .iter()
        .chain(own.iter())
        .find(|wanted| !is_right(members, **wanted))
}

/// Returns the first wanted key that a table has wrong, with the table's place.
fn first_of(place: Place, members: &Table, common: &[Wanted], own: &[Wanted]) -> Option<Wrong>
    ensures { result ≡ first_of place (common.now ++ own.now) (table_view members.now) }
{
    match first_not_right(members, common, own) {
        Some(wanted) => Some(Wrong {
            place,
            key: wanted.key(),
            expected: wanted.expected(),
        }),
        None => None,
    }
}

/// Reports a further key, if a table has one beside the common keys and those of its own kind.
fn further_key(place: Place, members: &Table, common: &[Wanted], own: &[Wanted]) -> Option<Wrong>
    ensures { result ≡ further_key place (common.now ++ own.now) (table_view members.now) }
{
    if has_only(members, common, own) {
        None
    } else {
        Some(Wrong {
            place,
            key: SchemaKey::Other,
            expected: Expected::NoSuchKey,
        })
    }
}

/// Returns the first wrong key of a table: of its wanted keys, and then any further key.
fn first_wrong(place: Place, members: &Table, common: &[Wanted], own: &[Wanted]) -> Option<Wrong>
    ensures { result ≡ first_wrong place (common.now ++ own.now) (table_view members.now) }
{
    match first_of(place, members, common, own) {
        Some(wrong) => Some(wrong),
        None => further_key(place, members, common, own),
    }
}

/// Whether a table has each of these keys right, and no others. The common keys come first, then those of its own kind.
pub fn has_right_keys(members: &Table, common: &[Wanted], own: &[Wanted]) -> bool
    ensures { result ≡ are_right (common.now ++ own.now) (table_view members.now) }
{
    first_wrong(Place::TOP, members, common, own).is_none()
}

/// Returns the first wrong key of a branch.
fn wrong_in_branch_members(place: Place, members: &Table) -> Option<Wrong>
    ensures { result ≡ branch_wrong place.table place.column place.branch (table_view members.now) }
{
    let own = keys_of_leaf(leaf_kind_at(members));
    first_wrong(place, members, &BRANCH_KEYS, own)
}

/// Returns the first wrong key of the branch at a place. A value that is no table has no keys.
fn wrong_in_branch(place: Place, item: &Value) -> Option<Wrong>
    ensures { result ≡ branch_wrong place.table place.column place.branch (members_of_value item.now) }
{
    match item.as_table() {
        Some(members) => wrong_in_branch_members(place, members),
        None => Some(Wrong {
            place,
            key: SchemaKey::Kind,
            expected: Expected::LeafName,
        }),
    }
}

/// Returns the first wrong key of the branches of a case.
fn wrong_in_branches(place: Place, items: &[Value]) -> Option<Wrong>
    ensures { result ≡ each_from (branch_wrong place.table place.column) 1 (members_of_values items.now) }
{
    for (i, item) in items.iter().enumerate() {
        let at = Place {
            table: place.table,
            column: place.column,
            branch: i as u64 + 1,
        };
        if let Some(wrong) = wrong_in_branch(at, item) {
            return Some(wrong);
        }
    }
    None
}

/// Returns the first wrong key of the places inside a column of a kind.
fn wrong_in_kind(place: Place, members: &Table, kind: KindName) -> Option<Wrong>
    ensures { result ≡ branches_wrong place.table place.column kind (table_view members.now) }
{
    match kind {
        KindName::Case => wrong_in_branches(place, tables_at(members, SchemaKey::Branches)),
        _ => None,
    }
}

/// Returns the first wrong key of a column: of its own keys, and then of the places inside.
fn wrong_in_column_members(place: Place, members: &Table) -> Option<Wrong>
    requires { place ≡ column_place place.table place.column }
    ensures { result ≡ column_wrong place.table place.column (table_view members.now) }
{
    let kind = kind_at(members);
    match first_wrong(place, members, &COLUMN_KEYS, keys_of_kind(kind)) {
        Some(wrong) => Some(wrong),
        None => wrong_in_kind(place, members, kind),
    }
}

/// Returns the first wrong key of the column at a place. A value that is no table has no keys.
fn wrong_in_column(place: Place, item: &Value) -> Option<Wrong>
    requires { place ≡ column_place place.table place.column }
    ensures { result ≡ column_wrong place.table place.column (members_of_value item.now) }
{
    match item.as_table() {
        Some(members) => wrong_in_column_members(place, members),
        None => Some(Wrong {
            place,
            key: SchemaKey::Name,
            expected: Expected::TextValue,
        }),
    }
}

/// Returns the first wrong key of the columns of a table.
fn wrong_in_columns(place: Place, items: &[Value]) -> Option<Wrong>
    ensures { result ≡ each_from (column_wrong place.table) 1 (members_of_values items.now) }
{
    for (i, item) in items.iter().enumerate() {
        let at = Place {
            table: place.table,
            column: i as u64 + 1,
            branch: 0,
        };
        if let Some(wrong) = wrong_in_column(at, item) {
            return Some(wrong);
        }
    }
    None
}

/// Returns the first wrong key of a table: of its own keys, and then of its columns.
fn wrong_in_table_members(place: Place, members: &Table) -> Option<Wrong>
    requires { place ≡ table_place place.table }
    ensures { result ≡ table_wrong place.table (table_view members.now) }
{
    match first_wrong(place, members, &TABLE_KEYS, &[]) {
        Some(wrong) => Some(wrong),
        None => wrong_in_columns(place, tables_at(members, SchemaKey::Column)),
    }
}

/// Returns the first wrong key of the table at a place. A value that is no table has no keys.
fn wrong_in_table(place: Place, item: &Value) -> Option<Wrong>
    requires { place ≡ table_place place.table }
    ensures { result ≡ table_wrong place.table (members_of_value item.now) }
{
    match item.as_table() {
        Some(members) => wrong_in_table_members(place, members),
        None => Some(Wrong {
            place,
            key: SchemaKey::Name,
            expected: Expected::TextValue,
        }),
    }
}

/// Returns the first wrong key of the tables of a schema.
fn wrong_in_tables(items: &[Value]) -> Option<Wrong>
    ensures { result ≡ each_from table_wrong 1 (members_of_values items.now) }
{
    for (i, item) in items.iter().enumerate() {
        let at = Place {
            table: i as u64 + 1,
            column: 0,
            branch: 0,
        };
        if let Some(wrong) = wrong_in_table(at, item) {
            return Some(wrong);
        }
    }
    None
}

/// Returns the first wrong key of a document: of its own keys, and then of its tables.
pub fn first_wrong_key(members: &Table) -> Option<Wrong>
    ensures { result ≡ first_wrong_key (table_view members.now) }
{
    match first_wrong(Place::TOP, members, &TOP_KEYS, &[]) {
        Some(wrong) => Some(wrong),
        None => wrong_in_tables(tables_at(members, SchemaKey::Table)),
    }
}
