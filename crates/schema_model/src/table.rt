//! A schema and its tables.

use crate::{Columns, Phases, Tables, Text};

/// The byte between the fields of a line.
#[derive(Clone, Copy, Debug, PartialEq, Eq)]
pub enum Delimiter {
    /// A horizontal tab.
    Tab,
    /// A vertical bar.
    Bar,
}

/// A schema: the content of its text as a whole.
#[derive(Debug, PartialEq)]
pub struct Schema {
    /// The number from which everything random is drawn.
    pub seed: i64,
    /// The last unit of time. The first is unit 0.
    pub units: i64,
    /// The byte between the fields of a line.
    pub delimiter: Delimiter,
    /// The tables, in the order of the schema.
    pub tables: Tables,
}

impl Drop for Schema {
    fn drop(self) {
        let Schema {
            seed: _,
            units: _,
            delimiter: _,
            tables,
        } = self;
        drop(tables);
    }
}

/// A phase of a table: how many rows are born at each unit, from a first unit on. It lasts until the next phase begins.
#[derive(Clone, Copy, Debug, PartialEq, Eq)]
pub struct Phase {
    /// The phase's first unit.
    pub from: i64,
    /// The number of rows that are born at each of its units.
    pub rate: i64,
}

/// How many units a row lives: `lo` to `hi`.
#[derive(Clone, Copy, Debug, PartialEq, Eq)]
pub struct Life {
    /// The shortest life, in units.
    pub lo: i64,
    /// The longest life, in units.
    pub hi: i64,
}

/// A table: how many rows are born, how long they live, and what they hold.
#[derive(Debug, PartialEq)]
pub struct Table {
    /// The table's name.
    pub name: Text,
    /// The number of rows that are born at unit 0.
    pub rows: i64,
    /// The numbers of rows that are born at later units, as phases.
    pub insert: Phases,
    /// How long rows live. Without it they live for ever.
    pub life: Option<Life>,
    /// The number of units from one change of a row to its next. Without it rows never change.
    pub update: Option<i64>,
    /// The columns, in the order of a line's fields.
    pub columns: Columns,
}

impl Drop for Table {
    fn drop(self) {
        let Table {
            name,
            rows: _,
            insert,
            life: _,
            update: _,
            columns,
        } = self;
        drop(name);
        drop(insert);
        drop(columns);
    }
}
