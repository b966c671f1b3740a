//! The declaration in a document, as plain data.

use schema_model::{Leaf, Sequence, Text, Texts};

/// A detail table: lines for each row of its parent. Each line has the row's key and a number, counted from 1.
#[derive(Debug, PartialEq)]
pub struct Detail {
    /// The number from which everything random in it is drawn.
    pub seed: i64,
    /// The fewest lines of a row.
    pub lo: i64,
    /// The most lines of a row.
    pub hi: i64,
    /// The detail table's name.
    pub name: Text,
    /// The name of the table on whose rows the lines hang.
    pub parent: Text,
    /// The columns after the key and the number, in the order of a line's fields.
    pub columns: DetailColumns,
}

impl Drop for Detail {
    fn drop(self) {
        let Detail {
            seed: _,
            lo: _,
            hi: _,
            name,
            parent,
            columns,
        } = self;
        drop(name);
        drop(parent);
        drop(columns);
    }
}

/// A column of a detail table.
#[derive(Debug, PartialEq)]
pub struct DetailColumn {
    /// The column's name.
    pub name: Text,
    /// What its fields hold.
    pub kind: DetailKind,
    /// Whether its fields are drawn anew when the parent's row changes.
    pub changes: bool,
    /// How many fields of a thousand are null.
    pub null: i64,
}

impl Drop for DetailColumn {
    fn drop(self) {
        let DetailColumn {
            name,
            kind,
            changes: _,
            null: _,
        } = self;
        drop(name);
        drop(kind);
    }
}

/// What the fields of a column hold.
#[derive(Debug, PartialEq)]
pub enum DetailKind {
    /// A value that is drawn for the field only.
    Leaf(Leaf),
    /// The field of the parent's row in the column of this name.
    Parent { column: Text },
    /// A date from `lo` to `hi` days after the date of the column named `of`.
    After { of: Text, lo: i64, hi: i64 },
    /// The sum of the numbers of the named columns.
    Sum { of: Texts },
    /// The product of the numbers of the named columns.
    Product { of: Texts },
}

impl Drop for DetailKind {
    fn drop(self) {
        match self {
            DetailKind::Leaf(leaf) => drop(leaf),
            DetailKind::Parent { column } => drop(column),
            DetailKind::After { of, lo: _, hi: _ } => drop(of),
            DetailKind::Sum { of } | DetailKind::Product { of } => drop(of),
        }
    }
}

/// The columns of a detail table, in order.
pub type DetailColumns = Sequence<DetailColumn>;
