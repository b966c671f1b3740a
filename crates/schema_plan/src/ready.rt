//! Columns as a plan keeps them: all is worked out that doesn't change from row to row.

use crate::ready_words::ReadyWords;
use fixed_divisors::FixedDivisor;
use row_text::WrittenTexts;
use schema_model::Sequence;
use weight_tables::Weights;

/// A column, ready for rows.
pub struct ReadyColumn {
    /// What its fields hold.
    pub kind: ReadyKind,
    /// Whether its fields are drawn anew when a row changes.
    pub changes: bool,
    /// How many fields of a thousand are null.
    pub null: u64,
}

impl Drop for ReadyColumn {
    fn drop(self) {
        let ReadyColumn {
            kind,
            changes: _,
            null: _,
        } = self;
        drop(kind);
    }
}

/// What the fields of a column hold, ready for rows. A column is named by its place in its table, counted from 0.
pub enum ReadyKind {
    /// The key of the row.
    Key,
    /// The unit of the row's birth.
    Born,
    /// The unit of the row's last change, or of its birth.
    Changed,
    /// A value that is drawn for the field only.
    Drawn(ReadyLeaf),
    /// The parts, one after the other.
    Template {
        parts: Sequence<ReadyPart>,
    },
    /// A branch. The pick column at place `on` selects it: entry i of that column selects branch i.
    Case {
        on: u64,
        branches: Sequence<ReadyLeaf>,
    },
    /// The key of the parent.
    Reference(ReadyReference),
    /// A field of the parent that the row has by one of its references.
    Lookup(ReadyLookup),
    /// One of the words, which the rows take in turn.
    List(ReadyList),
    /// The date of a unit.
    UnitDate(ReadyUnitDate),
    /// A date after that of another column.
    After(ReadyAfter),
    /// The sum of the numbers of the columns at some places.
    Sum {
        of: Sequence<u64>,
    },
    /// The product of the numbers of the columns at some places.
    Product {
        of: Sequence<u64>,
    },
}

impl Drop for ReadyKind {
    fn drop(self) {
        match self {
            ReadyKind::Key
            | ReadyKind::Born
            | ReadyKind::Changed
            | ReadyKind::Lookup(_)
            | ReadyKind::UnitDate(_)
            | ReadyKind::After(_) => {}
            ReadyKind::Drawn(it) => drop(it),
            ReadyKind::Template { parts } => drop(parts),
            ReadyKind::Case { on: _, branches } => drop(branches),
            ReadyKind::Reference(it) => drop(it),
            ReadyKind::List(it) => drop(it),
            ReadyKind::Sum { of } | ReadyKind::Product { of } => drop(of),
        }
    }
}

/// How a row's parent is chosen, ready for rows.
#[derive(Debug)]
pub struct ReadyReference {
    /// The place of the parent's table in the schema, counted from 0.
    pub parent: u32,
    /// How many units older than its child a parent can be. None sets no bound.
    pub window: Option<u64>,
    /// The weights of the spread.
    pub spread: Weights,
    /// The number of weights.
    pub groups: u64,
    /// The sum of the weights.
    pub total: FixedDivisor,
    /// Whether the reference becomes null when the parent is deleted. Otherwise its row is deleted too.
    pub nulls: bool,
    /// Whether the candidates are dealt in a drawn order. Otherwise they are dealt in turn.
    pub drawn: bool,
}

impl Drop for ReadyReference {
    fn drop(self) {
        let ReadyReference {
            parent: _,
            window: _,
            spread,
            groups: _,
            total: _,
            nulls: _,
            drawn: _,
        } = self;
        drop(spread);
    }
}

/// Where a lookup finds its field.
#[derive(Clone, Copy, Debug, PartialEq, Eq)]
pub struct ReadyLookup {
    /// The place of the reference in the lookup's table, counted from 0.
    pub via: u64,
    /// The place of the parent's table in the schema, counted from 0.
    pub parent: u32,
    /// The place of the shown column in the parent's table, counted from 0.
    pub column: u64,
}

/// The words of a list, ready for rows.
pub struct ReadyList {
    /// The words, in the order of the file.
    pub words: ReadyWords,
    /// The number of words.
    pub count: FixedDivisor,
}

impl Drop for ReadyList {
    fn drop(self) {
        let ReadyList { words, count: _ } = self;
        drop(words);
    }
}

/// The dates of the units, ready for rows.
#[derive(Clone, Copy, Debug, PartialEq, Eq)]
pub struct ReadyUnitDate {
    /// Whether a row shows the unit of its last change. Otherwise it shows the unit of its birth.
    pub changed: bool,
    /// The day of unit 0. Day 0 is 1970-01-01.
    pub start: i32,
    /// The days from one unit to the next.
    pub step: u64,
}

/// The dates after those of another column, ready for rows.
#[derive(Clone, Copy, Debug)]
pub struct ReadyAfter {
    /// The place of the column that is followed, counted from 0.
    pub of: u64,
    /// By how many days a date follows at least.
    pub lo: i64,
    /// By how many days it follows at most.
    pub hi: i64,
    /// The number of these numbers of days.
    pub choices: FixedDivisor,
}

/// A part of a template, ready for rows.
#[derive(Debug)]
pub enum ReadyPart {
    /// A text, as it is written.
    Literal(Sequence<u8>),
    /// The field of the column at a place, filled with zeros up to `width` bytes. With a width of 0 it stands as it is.
    Cited { column: u64, width: u64 },
}

impl Drop for ReadyPart {
    fn drop(self) {
        match self {
            ReadyPart::Cited {
                column: _,
                width: _,
            } => {}
            ReadyPart::Literal(it) => drop(it),
        }
    }
}

/// A value that is drawn for a field, ready for rows.
#[derive(Drop)]
pub enum ReadyLeaf {
    /// One of so many choices from `lo` to `hi`, each `step` past the one before.
    Int {
        lo: i64,
        hi: i64,
        step: u64,
        choices: FixedDivisor,
    },
    /// One of so many choices from `lo` to `hi`, whose last `decimals` digits stand after a point: `unit` is 10 to their number.
    Fixed {
        lo: i64,
        hi: i64,
        choices: FixedDivisor,
        decimals: u32,
        unit: FixedDivisor,
    },
    /// One of so many days from `lo` to `hi`, counted from 1970-01-01, which is day 0.
    Date {
        lo: i32,
        hi: i32,
        choices: FixedDivisor,
    },
    /// One of the entries, as they are written, each as often as its weight says; `total` is the sum of the weights.
    Pick {
        entries: WrittenTexts,
        weights: Weights,
        total: FixedDivisor,
    },
    /// A number from `lo` on, one for each weight, as often as that says; `total` is the sum of the weights.
    Skew {
        lo: i64,
        weights: Weights,
        total: FixedDivisor,
    },
    /// `lo` characters or more: one of so many numbers of them, each one of so many characters, as they are written.
    Chars {
        lo: u64,
        lengths: FixedDivisor,
        characters: WrittenTexts,
        count: FixedDivisor,
    },
    /// One of the words, each as often as its weight says.
    Dict(ReadyWords),
    /// `lo` words or more: one of so many numbers of them, each one of the words, as often as its weight says.
    Words {
        lo: u64,
        lengths: FixedDivisor,
        words: ReadyWords,
    },
    /// A UUID of version 4.
    Uuid,
}
