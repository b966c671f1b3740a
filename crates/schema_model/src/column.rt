//! The columns of a table and their kinds.

use crate::{Leaves, Longs, Parts, Text, Texts};

/// A column of a table.
#[derive(Debug, PartialEq)]
pub struct Column {
    /// The column's name.
    pub name: Text,
    /// What its fields hold.
    pub kind: Kind,
    /// Whether its fields are drawn anew when a row changes.
    pub changes: bool,
    /// How many fields of a thousand are null.
    pub null: i64,
}

impl Drop for Column {
    fn drop(self) {
        let Column {
            name,
            kind,
            changes: _,
            null: _,
        } = self;
        drop(name);
        drop(kind);
    }
}

/// What the fields of a column hold.
#[derive(Debug, PartialEq)]
pub enum Kind {
    /// The key of the row: numbers from `base` on. With `scramble` the keys of a unit are in a drawn order.
    Key {
        base: i64,
        scramble: bool,
    },
    /// The unit of the row's birth.
    Born,
    /// The unit of the row's last change, or of its birth.
    Changed,
    /// A value that is drawn for the field only.
    Leaf(Leaf),
    /// The parts, one after the other.
    Template {
        parts: Parts,
    },
    /// A branch. The pick column named `on` selects it: entry i of that column selects branch i.
    Case {
        on: Text,
        branches: Leaves,
    },
    /// The key of a row of the table of this name, born in the window. The candidates are divided into groups, and the
    /// spread has a weight for each group.
    Ref {
        table: Text,
        window: Window,
        spread: Longs,
        on_delete: OnDelete,
        deal: Deal,
    },
    /// A field of another row. The reference column named `via` selects the row, and `column` names the row's column.
    Lookup {
        via: Text,
        column: Text,
    },
    /// An entry of the dictionary of this name: the rows take the entries in turn, and begin again after the last.
    List {
        file: Text,
    },
    /// The date of the unit of the row's birth. Unit 0 is the day `start`, and each unit is `step` days after the one before.
    BornDate {
        start: i32,
        step: i64,
    },
    /// The same of the unit of the row's last change, or of its birth.
    ChangedDate {
        start: i32,
        step: i64,
    },
    /// A date from `lo` to `hi` days after the date of the column named `of`.
    After {
        of: Text,
        lo: i64,
        hi: i64,
    },
    /// The sum of the numbers of the named columns.
    Sum {
        of: Texts,
    },
    /// The product of the numbers of the named columns.
    Product {
        of: Texts,
    },
}

impl Drop for Kind {
    fn drop(self) {
        match self {
            Kind::Key {
                base: _,
                scramble: _,
            }
            | Kind::Born
            | Kind::Changed
            | Kind::BornDate { start: _, step: _ }
            | Kind::ChangedDate { start: _, step: _ } => {}
            Kind::Leaf(leaf) => drop(leaf),
            Kind::Template { parts } => drop(parts),
            Kind::Case { on, branches } => {
                drop(on);
                drop(branches);
            }
            Kind::Ref {
                table,
                window: _,
                spread,
                on_delete: _,
                deal: _,
            } => {
                drop(table);
                drop(spread);
            }
            Kind::Lookup { via, column } => {
                drop(via);
                drop(column);
            }
            Kind::List { file } => drop(file),
            Kind::After { of, lo: _, hi: _ } => drop(of),
            Kind::Sum { of } | Kind::Product { of } => drop(of),
        }
    }
}

/// A value that is drawn for a field only.
#[derive(Debug, PartialEq)]
pub enum Leaf {
    /// A whole number from `lo` to `hi`: `lo` plus a multiple of `step`.
    Int { lo: i64, hi: i64, step: i64 },
    /// A number with a point before its last `decimals` digits. Without the point it is a whole number from `lo` to `hi`.
    Fixed { lo: i64, hi: i64, decimals: i64 },
    /// A date from day `lo` to day `hi`. Day 0 is 1970-01-01.
    Date { lo: i32, hi: i32 },
    /// One of the entries. The weights say how often each is drawn.
    Pick { entries: Texts, weights: Longs },
    /// A number from `lo` to `lo + size - 1`. The k-th has the weight 1 / k^power.
    Skew { lo: i64, size: i64, power: i64 },
    /// An entry of the dictionary of this name.
    Dict { file: Text },
    /// From `lo` to `hi` entries of the dictionary of this name, with a space between each two.
    Words { file: Text, lo: i64, hi: i64 },
    /// From `lo` to `hi` characters of the alphabet.
    Chars { alphabet: Text, lo: i64, hi: i64 },
    /// A UUID of version 4.
    Uuid,
}

impl Drop for Leaf {
    fn drop(self) {
        match self {
            Leaf::Int {
                lo: _,
                hi: _,
                step: _,
            }
            | Leaf::Fixed {
                lo: _,
                hi: _,
                decimals: _,
            }
            | Leaf::Date { lo: _, hi: _ }
            | Leaf::Skew {
                lo: _,
                size: _,
                power: _,
            }
            | Leaf::Uuid => {}
            Leaf::Pick { entries, weights } => {
                drop(entries);
                drop(weights);
            }
            Leaf::Dict { file } | Leaf::Words { file, lo: _, hi: _ } => drop(file),
            Leaf::Chars {
                alphabet,
                lo: _,
                hi: _,
            } => drop(alphabet),
        }
    }
}

/// A part of a template.
#[derive(Debug, PartialEq)]
pub enum Part {
    /// A fixed text.
    Literal(Text),
    /// The field of the column of this name.
    Cited(Text),
    /// The field of the column of this name, filled with zeros up to `width` bytes. The zeros stand after a minus sign, and before
    /// all else.
    Padded { column: Text, width: i64 },
}

impl Drop for Part {
    fn drop(self) {
        match self {
            Part::Literal(text) | Part::Cited(text) => drop(text),
            Part::Padded { column, width: _ } => drop(column),
        }
    }
}

/// The units in which the parent of a row can be born.
#[derive(Clone, Copy, Debug, PartialEq, Eq)]
pub enum Window {
    /// From this many units before the row's own birth to its birth.
    Units(i64),
    /// All units up to the row's own birth.
    All,
}

/// What happens to a row when its parent is deleted.
#[derive(Clone, Copy, Debug, PartialEq, Eq)]
pub enum OnDelete {
    /// The row is deleted too.
    Cascade,
    /// The row stays, and the reference becomes null.
    Null,
}

/// The order in which a cohort's rows choose among the candidates for their parents.
#[derive(Clone, Copy, Debug, PartialEq, Eq)]
pub enum Deal {
    /// In turn: from the oldest candidate on.
    Turn,
    /// In an order of the candidates that is drawn for each cohort.
    Drawn,
}
