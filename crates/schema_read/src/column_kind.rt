//! The kind of a column, from the values under its keys.

ghost use Rattle.std.specs.Prelude.{◌≡◌, [], ◌∷◌, map, pos, IfOk, option_map};
ghost use Rattle.toml.specs.Data.{as_table};
ghost use Rattle.toml.specs.View.{table_view};
ghost use Rattle.schema_read.specs.Shape.{kind_value, branch};
ghost use Rattle.schema_read.specs.Values.{tables};

use crate::kind_name::KindName;
use crate::leaf_kind::read_leaf;
use crate::lists::{Element, list_at, list_if_any};
use crate::schema_key::SchemaKey;
use crate::typed_member::{
    day_if_any, deal_if_any, deletion_if_any, flag_if_any, leaf_kind_at, text_at, whole_at,
    whole_if_any, window_if_any,
};
use out_of_memory::Memory;
use schema_model::{Deal, Kind, Leaf, Leaves, Longs, OnDelete, Window};
use std::alloc::Global;
use toml::{Table, Value};

impl Element for Leaf {
    ghost read = { λ d. option_map branch (as_table d) };

    fn of_value(alloc: Global, value: &Value) -> Result<Option<Leaf>, Memory> {
        match value.as_table() {
            Some(members) => Ok(Some(read_leaf(alloc, members, leaf_kind_at(members))?)),
            None => Ok(None),
        }
    }
}

/// Reads the branches of a case, in order.
fn read_branches(alloc: Global, members: &Table) -> Result<Leaves, Memory>
    ensures { IfOk result (λ branches. branches ≡ map branch (tables SchemaKey.Branches (table_view members.now))) }
{
    list_at(alloc, members, SchemaKey::Branches)
}

/// Returns the spread of a reference that states none: the one weight 1.
fn even_spread(alloc: Global) -> Result<Longs, Memory>
    ensures { IfOk result (λ spread. spread ≡ pos 1 ∷ []) }
{
    let mut spread = Longs::new(alloc);
    spread.push(1)?;
    Ok(spread)
}

fn read_reference(alloc: Global, members: &Table) -> Result<Kind, Memory>
    ensures { IfOk result (λ kind. kind ≡ kind_value KindName.Ref (table_view members.now)) }
{
    let table = text_at(alloc, members, SchemaKey::Table)?;
    let spread = match list_if_any(alloc, members, SchemaKey::Spread)? {
        Some(spread) => spread,
        None => even_spread(alloc)?,
    };
    Ok(Kind::Ref {
        table,
        window: window_if_any(members, SchemaKey::Window).unwrap_or(Window::All),
        spread,
        on_delete: deletion_if_any(members, SchemaKey::OnDelete).unwrap_or(OnDelete::Cascade),
        deal: deal_if_any(members, SchemaKey::Deal).unwrap_or(Deal::Turn),
    })
}

fn read_lookup(alloc: Global, members: &Table) -> Result<Kind, Memory>
    ensures { IfOk result (λ kind. kind ≡ kind_value KindName.Lookup (table_view members.now)) }
{
    let via = text_at(alloc, members, SchemaKey::Via)?;
    let column = text_at(alloc, members, SchemaKey::Column)?;
    Ok(Kind::Lookup { via, column })
}

fn read_case(alloc: Global, members: &Table) -> Result<Kind, Memory>
    ensures { IfOk result (λ kind. kind ≡ kind_value KindName.Case (table_view members.now)) }
{
    let on = text_at(alloc, members, SchemaKey::On)?;
    let branches = read_branches(alloc, members)?;
    Ok(Kind::Case { on, branches })
}

fn read_after(alloc: Global, members: &Table) -> Result<Kind, Memory>
    ensures { IfOk result (λ kind. kind ≡ kind_value KindName.After (table_view members.now)) }
{
    Ok(Kind::After {
        of: text_at(alloc, members, SchemaKey::Of)?,
        lo: whole_at(members, SchemaKey::Lo),
        hi: whole_at(members, SchemaKey::Hi),
    })
}

/// Reads the kind of this name from the keys of a column.
pub fn read_kind(alloc: Global, members: &Table, kind: KindName) -> Result<Kind, Memory>
    ensures { IfOk result (λ read. read ≡ kind_value kind (table_view members.now)) }
{
    match kind {
        KindName::Key => Ok(Kind::Key {
            base: whole_at(members, SchemaKey::Base),
            scramble: flag_if_any(members, SchemaKey::Scramble).unwrap_or(false),
        }),
        KindName::Born => Ok(Kind::Born),
        KindName::Changed => Ok(Kind::Changed),
        KindName::Template => Ok(Kind::Template {
            parts: list_at(alloc, members, SchemaKey::Parts)?,
        }),
        KindName::Case => read_case(alloc, members),
        KindName::Ref => read_reference(alloc, members),
        KindName::Lookup => read_lookup(alloc, members),
        KindName::List => Ok(Kind::List {
            file: text_at(alloc, members, SchemaKey::File)?,
        }),
        KindName::BornDate => Ok(Kind::BornDate {
            start: day_if_any(members, SchemaKey::Start).unwrap_or(0),
            step: whole_if_any(members, SchemaKey::Step).unwrap_or(1),
        }),
        KindName::ChangedDate => Ok(Kind::ChangedDate {
            start: day_if_any(members, SchemaKey::Start).unwrap_or(0),
            step: whole_if_any(members, SchemaKey::Step).unwrap_or(1),
        }),
        KindName::After => read_after(alloc, members),
        KindName::Sum => Ok(Kind::Sum {
            of: list_at(alloc, members, SchemaKey::Of)?,
        }),
        KindName::Product => Ok(Kind::Product {
            of: list_at(alloc, members, SchemaKey::Of)?,
        }),
        KindName::Leaf(leaf) => Ok(Kind::Leaf(read_leaf(alloc, members, leaf)?)),
    }
}
