//! The leaf kinds, from the values under their keys.

ghost use Rattle.std.specs.Prelude.{◌≡◌, map, pos, IfOk};
ghost use Rattle.toml.specs.View.{table_view};
ghost use Rattle.schema_read.specs.Shape.{leaf_given, pick};
ghost use Rattle.schema_read.specs.Values.{value_or};

use crate::kind_name::LeafName;
use crate::lists::{list_at, list_if_any};
use crate::schema_key::SchemaKey;
use crate::typed_member::{day_if_any, text_at, whole_at, whole_if_any};
use out_of_memory::Memory;
use schema_model::{Leaf, Longs, Text, Texts};
use std::alloc::Global;
use toml::Table;

/// Returns a weight of 1 for each entry.
fn equal_weights(alloc: Global, entries: &[Text]) -> Result<Longs, Memory>
    ensures { IfOk result (λ weights. weights ≡ map (λ _. pos 1) entries.now) }
{
    let mut weights = Longs::new(alloc);
    for entry in entries {
        weights.push(1)?;
    }
    Ok(weights)
}

fn read_pick(alloc: Global, members: &Table) -> Result<Leaf, Memory>
    ensures { IfOk result (λ leaf. leaf ≡ pick (table_view members.now)) }
{
    let entries: Texts = list_at(alloc, members, SchemaKey::Entries)?;
    let weights = match list_if_any(alloc, members, SchemaKey::Weights)? {
        Some(weights) => weights,
        None => equal_weights(alloc, entries.as_slice())?,
    };
    Ok(Leaf::Pick { entries, weights })
}

/// Reads the leaf kind of this name from the keys of a column or a branch.
pub fn read_leaf(alloc: Global, members: &Table, kind: LeafName) -> Result<Leaf, Memory>
    ensures { IfOk result (λ leaf. leaf ≡ leaf_given kind (table_view members.now)) }
{
    match kind {
        LeafName::Int => Ok(Leaf::Int {
            lo: whole_at(members, SchemaKey::Lo),
            hi: whole_at(members, SchemaKey::Hi),
            step: whole_if_any(members, SchemaKey::Step).unwrap_or(1),
        }),
        LeafName::Fixed => Ok(Leaf::Fixed {
            lo: whole_at(members, SchemaKey::Lo),
            hi: whole_at(members, SchemaKey::Hi),
            decimals: whole_at(members, SchemaKey::Decimals),
        }),
        LeafName::Date => Ok(Leaf::Date {
            lo: day_if_any(members, SchemaKey::Lo).unwrap_or(0),
            hi: day_if_any(members, SchemaKey::Hi).unwrap_or(0),
        }),
        LeafName::Pick => read_pick(alloc, members),
        LeafName::Skew => Ok(Leaf::Skew {
            lo: whole_at(members, SchemaKey::Lo),
            size: whole_at(members, SchemaKey::Size),
            power: whole_at(members, SchemaKey::Power),
        }),
        LeafName::Dict => Ok(Leaf::Dict {
            file: text_at(alloc, members, SchemaKey::File)?,
        }),
        LeafName::Words => Ok(Leaf::Words {
            file: text_at(alloc, members, SchemaKey::File)?,
            lo: whole_at(members, SchemaKey::Lo),
            hi: whole_at(members, SchemaKey::Hi),
        }),
        LeafName::Chars => Ok(Leaf::Chars {
            alphabet: text_at(alloc, members, SchemaKey::Alphabet)?,
            lo: whole_at(members, SchemaKey::Lo),
            hi: whole_at(members, SchemaKey::Hi),
        }),
        LeafName::Uuid => Ok(Leaf::Uuid),
    }
}
