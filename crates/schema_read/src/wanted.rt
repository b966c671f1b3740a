//! The keys that each place of a document must or can have.

ghost use Rattle.std.specs.Prelude.{◌≡◌};
ghost use Rattle.schema_read.specs.Shape.{leaf_keys, kind_keys};

use crate::fault::Expected;
use crate::kind_name::{KindName, LeafName};
use crate::schema_key::SchemaKey;

/// A key that a place must or can have, with the type of its value.
#[derive(Clone, Copy)]
pub enum Wanted {
    /// A key that must be there.
    Required(SchemaKey, Expected),
    /// A key that can be missing.
    Optional(SchemaKey, Expected),
}

impl Wanted {
    ghost use Rattle.schema_read.specs.Wanted.{wanted_key, expected_of, may_be_missing};

    /// Returns the key.
    pub fn key(self) -> SchemaKey
        ensures { result ≡ wanted_key self }
    {
        match self {
            Wanted::Required(key, _) | Wanted::Optional(key, _) => key,
        }
    }

    /// Returns the type that the key wants.
    pub fn expected(self) -> Expected
        ensures { result ≡ expected_of self }
    {
        match self {
            Wanted::Required(_, expected) | Wanted::Optional(_, expected) => expected,
        }
    }

    /// Whether the key can be missing.
    pub fn may_be_missing(self) -> bool
        ensures { result ≡ may_be_missing self }
    {
        match self {
            Wanted::Required(..) => false,
            Wanted::Optional(..) => true,
        }
    }
}

/// The keys of the document as a whole.
pub const TOP_KEYS: [Wanted; 4] = [
    Wanted::Required(SchemaKey::Seed, Expected::Whole),
    Wanted::Required(SchemaKey::Units, Expected::Whole),
    Wanted::Optional(SchemaKey::Delimiter, Expected::DelimiterName),
    Wanted::Required(SchemaKey::Table, Expected::TableList),
];

/// The keys of a table.
pub const TABLE_KEYS: [Wanted; 6] = [
    Wanted::Required(SchemaKey::Name, Expected::TextValue),
    Wanted::Required(SchemaKey::Rows, Expected::Whole),
    Wanted::Optional(SchemaKey::Insert, Expected::InsertValue),
    Wanted::Optional(SchemaKey::Life, Expected::TwoWholes),
    Wanted::Optional(SchemaKey::Update, Expected::Whole),
    Wanted::Required(SchemaKey::Column, Expected::TableList),
];

/// The keys of a column of any kind.
pub const COLUMN_KEYS: [Wanted; 4] = [
    Wanted::Required(SchemaKey::Name, Expected::TextValue),
    Wanted::Required(SchemaKey::Kind, Expected::KindName),
    Wanted::Optional(SchemaKey::Changes, Expected::Flag),
    Wanted::Optional(SchemaKey::Null, Expected::Whole),
];

/// The keys of a part of a template that cites a column.
pub const PART_KEYS: [Wanted; 1] = [Wanted::Required(SchemaKey::Column, Expected::TextValue)];

/// The further key of a part that pads what it cites.
pub const PADDED_KEYS: [Wanted; 1] = [Wanted::Required(SchemaKey::Width, Expected::Whole)];

/// The keys of a branch of any kind.
pub const BRANCH_KEYS: [Wanted; 1] = [Wanted::Required(SchemaKey::Kind, Expected::LeafName)];

const INT_KEYS: [Wanted; 3] = [
    Wanted::Required(SchemaKey::Lo, Expected::Whole),
    Wanted::Required(SchemaKey::Hi, Expected::Whole),
    Wanted::Optional(SchemaKey::Step, Expected::Whole),
];

const FIXED_KEYS: [Wanted; 3] = [
    Wanted::Required(SchemaKey::Lo, Expected::Whole),
    Wanted::Required(SchemaKey::Hi, Expected::Whole),
    Wanted::Required(SchemaKey::Decimals, Expected::Whole),
];

const DATE_KEYS: [Wanted; 2] = [
    Wanted::Required(SchemaKey::Lo, Expected::DateText),
    Wanted::Required(SchemaKey::Hi, Expected::DateText),
];

const PICK_KEYS: [Wanted; 2] = [
    Wanted::Required(SchemaKey::Entries, Expected::TextList),
    Wanted::Optional(SchemaKey::Weights, Expected::Wholes),
];

const SKEW_KEYS: [Wanted; 3] = [
    Wanted::Required(SchemaKey::Lo, Expected::Whole),
    Wanted::Required(SchemaKey::Size, Expected::Whole),
    Wanted::Required(SchemaKey::Power, Expected::Whole),
];

const DICT_KEYS: [Wanted; 1] = [Wanted::Required(SchemaKey::File, Expected::TextValue)];

const WORDS_KEYS: [Wanted; 3] = [
    Wanted::Required(SchemaKey::File, Expected::TextValue),
    Wanted::Required(SchemaKey::Lo, Expected::Whole),
    Wanted::Required(SchemaKey::Hi, Expected::Whole),
];

const CHARS_KEYS: [Wanted; 3] = [
    Wanted::Required(SchemaKey::Alphabet, Expected::TextValue),
    Wanted::Required(SchemaKey::Lo, Expected::Whole),
    Wanted::Required(SchemaKey::Hi, Expected::Whole),
];

/// Returns the keys that belong to this leaf kind, in a column or a branch.
pub fn keys_of_leaf(kind: LeafName) -> &'static [Wanted]
    ensures { result.now ≡ leaf_keys kind }
{
    match kind {
        LeafName::Int => &INT_KEYS,
        LeafName::Fixed => &FIXED_KEYS,
        LeafName::Date => &DATE_KEYS,
        LeafName::Pick => &PICK_KEYS,
        LeafName::Skew => &SKEW_KEYS,
        LeafName::Dict => &DICT_KEYS,
        LeafName::Words => &WORDS_KEYS,
        LeafName::Chars => &CHARS_KEYS,
        LeafName::Uuid => &[],
    }
}

const KEY_KEYS: [Wanted; 2] = [
    Wanted::Required(SchemaKey::Base, Expected::Whole),
    Wanted::Optional(SchemaKey::Scramble, Expected::Flag),
];

const TEMPLATE_KEYS: [Wanted; 1] = [Wanted::Required(SchemaKey::Parts, Expected::PartList)];

const CASE_KEYS: [Wanted; 2] = [
    Wanted::Required(SchemaKey::On, Expected::TextValue),
    Wanted::Required(SchemaKey::Branches, Expected::TableList),
];

const REFERENCE_KEYS: [Wanted; 5] = [
    Wanted::Required(SchemaKey::Table, Expected::TextValue),
    Wanted::Required(SchemaKey::Window, Expected::WindowValue),
    Wanted::Optional(SchemaKey::Spread, Expected::Wholes),
    Wanted::Optional(SchemaKey::OnDelete, Expected::DeleteName),
    Wanted::Optional(SchemaKey::Deal, Expected::DealName),
];

const LOOKUP_KEYS: [Wanted; 2] = [
    Wanted::Required(SchemaKey::Via, Expected::TextValue),
    Wanted::Required(SchemaKey::Column, Expected::TextValue),
];

const LIST_KEYS: [Wanted; 1] = [Wanted::Required(SchemaKey::File, Expected::TextValue)];

const UNIT_DATE_KEYS: [Wanted; 2] = [
    Wanted::Required(SchemaKey::Start, Expected::DateText),
    Wanted::Optional(SchemaKey::Step, Expected::Whole),
];

const AFTER_KEYS: [Wanted; 3] = [
    Wanted::Required(SchemaKey::Of, Expected::TextValue),
    Wanted::Required(SchemaKey::Lo, Expected::Whole),
    Wanted::Required(SchemaKey::Hi, Expected::Whole),
];

const OPERAND_KEYS: [Wanted; 1] = [Wanted::Required(SchemaKey::Of, Expected::TextList)];

/// Returns the keys that belong to this kind of column.
pub fn keys_of_kind(kind: KindName) -> &'static [Wanted]
    ensures { result.now ≡ kind_keys kind }
{
    match kind {
        KindName::Key => &KEY_KEYS,
        KindName::Born | KindName::Changed => &[],
        KindName::Template => &TEMPLATE_KEYS,
        KindName::Case => &CASE_KEYS,
        KindName::Ref => &REFERENCE_KEYS,
        KindName::Lookup => &LOOKUP_KEYS,
        KindName::List => &LIST_KEYS,
        KindName::BornDate | KindName::ChangedDate => &UNIT_DATE_KEYS,
        KindName::After => &AFTER_KEYS,
        KindName::Sum | KindName::Product => &OPERAND_KEYS,
        KindName::Leaf(leaf) => keys_of_leaf(leaf),
    }
}
