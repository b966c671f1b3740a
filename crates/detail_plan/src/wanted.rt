//! The keys that each place of the document must or can have.

ghost use Rattle.std.specs.Prelude.{◌≡◌};
ghost use Rattle.detail_plan.specs.Kinds.{kind_keys};

use crate::kind_name::DetailKindName;
use schema_read::{Expected, KindName, SchemaKey, Wanted, keys_of_kind};

/// The keys of the document as a whole.
pub(crate) const TOP_KEYS: [Wanted; 6] = [
    Wanted::Required(SchemaKey::Seed, Expected::Whole),
    Wanted::Required(SchemaKey::Lo, Expected::Whole),
    Wanted::Required(SchemaKey::Hi, Expected::Whole),
    Wanted::Required(SchemaKey::Name, Expected::TextValue),
    Wanted::Required(SchemaKey::Parent, Expected::TextValue),
    Wanted::Required(SchemaKey::Column, Expected::TableList),
];

/// The keys of a column of any kind.
pub(crate) const COLUMN_KEYS: [Wanted; 4] = [
    Wanted::Required(SchemaKey::Name, Expected::TextValue),
    Wanted::Required(SchemaKey::Kind, Expected::TextValue),
    Wanted::Optional(SchemaKey::Changes, Expected::Flag),
    Wanted::Optional(SchemaKey::Null, Expected::Whole),
];

const PARENT_KEYS: [Wanted; 1] = [Wanted::Required(SchemaKey::Column, Expected::TextValue)];

/// Returns the keys that belong to this kind of column.
pub(crate) fn own_keys(kind: DetailKindName) -> &'static [Wanted]
    ensures { result.now ≡ kind_keys kind }
{
    match kind {
        DetailKindName::Leaf(leaf) => keys_of_kind(KindName::Leaf(leaf)),
        DetailKindName::Parent => &PARENT_KEYS,
        DetailKindName::After => keys_of_kind(KindName::After),
        DetailKindName::Sum => keys_of_kind(KindName::Sum),
        DetailKindName::Product => keys_of_kind(KindName::Product),
    }
}
