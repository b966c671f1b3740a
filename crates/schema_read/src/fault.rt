//! What can be wrong with a schema's document.

use crate::schema_key::SchemaKey;

/// A place in a schema's document. Tables, columns and branches count from 1. A number is 0 if the place isn't inside
/// such an item.
#[derive(Clone, Copy, Debug, PartialEq, Eq)]
pub struct Place {
    /// The table, from 1; or 0.
    pub table: u64,
    /// The column of the table, from 1; or 0.
    pub column: u64,
    /// The branch of the column, from 1; or 0.
    pub branch: u64,
}

impl Place {
    /// The document as a whole.
    pub const TOP: Place = Place {
        table: 0,
        column: 0,
        branch: 0,
    };
}

/// The type of value that a key wants.
#[derive(Clone, Copy, Debug, PartialEq, Eq)]
pub enum Expected {
    /// A whole number of 64 bits with a sign.
    Whole,
    /// A text.
    TextValue,
    /// `true` or `false`.
    Flag,
    /// The text `tab` or `bar`.
    DelimiterName,
    /// An array whose elements are all tables.
    TableList,
    /// An array of two whole numbers.
    TwoWholes,
    /// The name of a kind.
    KindName,
    /// The name of a leaf kind.
    LeafName,
    /// A day as the ten bytes YYYY-MM-DD, of a year from 0001 to 9999.
    DateText,
    /// An array whose elements are all texts.
    TextList,
    /// An array whose elements are all whole numbers.
    Wholes,
    /// An array whose elements are texts, and tables with the one key `column`, a text.
    PartList,
    /// A whole number or the text `all`.
    WindowValue,
    /// A whole number, or an array whose elements are all arrays of two whole numbers.
    InsertValue,
    /// The text `cascade` or `null`.
    DeleteName,
    /// The text `turn` or `drawn`.
    DealName,
    /// Nothing: the key has no place here.
    NoSuchKey,
}

/// A wrong key, with its place and the type that it wants.
#[derive(Clone, Copy, Debug, PartialEq, Eq)]
pub struct Wrong {
    /// The place at which the key is wrong.
    pub place: Place,
    /// The key. It is `Other` if a key has no place there.
    pub key: SchemaKey,
    /// The type that the key wants.
    pub expected: Expected,
}
