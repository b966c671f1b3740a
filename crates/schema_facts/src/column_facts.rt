//! The facts of a column, which don't change from row to row.

ghost use Rattle.std.specs.Prelude.{◌≡◌, List, map};
ghost use Rattle.schema_facts.specs.Capped.{capped_column};
ghost use Rattle.schema_facts.specs.ColumnFacts.{facts_of_columns, facts_of_kind};
ghost use Rattle.schema_facts.specs.Dictionaries.{Dictionary};
ghost use Rattle.schema_facts.specs.FactsBefore.{facts_among, facts_in};
ghost use Rattle.schema_facts.specs.Layout.{column_at, columns_of, kind_layout, parent_via, place_of_column, table_layout, table_layouts};
ghost use Rattle.schema_facts.specs.declared.column_facts.ColumnFacts.{ColumnFacts};

use crate::days::{Days, days_of_kind};
use crate::facts::TableFacts;
use crate::field_costs::cost_of_field;
use crate::limits::MAX_ITEMS;
use crate::numbers::{Numbers, numbers_of_kind};
use crate::places::{columns_of, parent_via, place_of_column};
use schema_model::{Kind, Table, Text};

/// The facts of a column, which don't change from row to row.
#[derive(Clone, Copy, Debug, PartialEq, Eq)]
pub struct ColumnFacts {
    /// The most permutations that a field asks, once it is known which references are null.
    pub cost: u64,
    /// The days that the fields show; None if the column isn't dated.
    pub days: Option<Days>,
    /// The numbers that the fields hold; None if the column isn't numeric.
    pub numbers: Option<Numbers>,
}

/// The facts of a column of the empty text.
pub(crate) const NO_COLUMN_FACTS: ColumnFacts = ColumnFacts {
    cost: 0,
    days: None,
    numbers: None,
};

/// What is there when the facts of a column are worked out.
#[derive(Drop)]
pub(crate) struct FactsBefore<'a> {
    /// The tables of the schema.
    pub tables: &'a [Table],
    /// The facts of the tables before the column's own.
    pub earlier: &'a [TableFacts],
    /// The column's table.
    pub table: &'a Table,
    /// The facts of the columns before.
    pub columns: &'a [ColumnFacts],
}

/// Returns the facts of the column with a name, if it stands before. Otherwise it returns `NO_COLUMN_FACTS`.
pub(crate) fn facts_named(before: &FactsBefore<'_>, name: &Text) -> ColumnFacts
    ensures { result ≡ facts_among before.now.columns.now (place_of_column before.now.table.now.columns name.now) }
{
    let place = place_of_column(before.table.columns.as_slice(), name);
    facts_among(before.columns, place)
}

/// Returns the facts of the column that a lookup shows, if its table stands before. Otherwise it returns `NO_COLUMN_FACTS`.
pub(crate) fn facts_looked_up(before: &FactsBefore<'_>, via: &Text, column: &Text) -> ColumnFacts
    ensures { result ≡ facts_in (map (λ facts. facts.columns) before.now.earlier.now) (parent_via before.now.tables.now before.now.table.now.columns via.now)
        (place_of_column (columns_of before.now.tables.now (parent_via before.now.tables.now before.now.table.now.columns via.now)) column.now) }
{
    let parent = parent_via(before.tables, before.table.columns.as_slice(), via);
    let column = place_of_column(columns_of(before.tables, parent), column);
    if parent < before.earlier.len() {
        before.earlier[parent].column(column)
    } else {
        NO_COLUMN_FACTS
    }
}

/// Returns the facts of the column at a place among some. Past the last one it returns `NO_COLUMN_FACTS`.
pub fn facts_among(columns: &[ColumnFacts], place: usize) -> ColumnFacts
    ensures { result ≡ facts_among columns.now place }
{
    if place < columns.len() {
        columns[place]
    } else {
        NO_COLUMN_FACTS
    }
}

/// Returns the facts of the first 64 columns of a table, in order. Those past the last column are `NO_COLUMN_FACTS`.
pub fn facts_of_columns(
    units: u64,
    tables: &[Table],
    earlier: &[TableFacts],
    table: &Table,
) -> [ColumnFacts; MAX_ITEMS]
    ensures { (dictionaries : List Dictionary) (given : List (List ColumnFacts)) → map (λ facts. facts.columns) earlier.now ≡ map (map capped_column) given →
        result ≡ map capped_column (facts_of_columns units (table_layouts dictionaries tables.now) given (table_layout dictionaries tables.now table.now)) }
{
    let mut facts = [NO_COLUMN_FACTS; MAX_ITEMS];
    for place in 0..MAX_ITEMS {
        let before = FactsBefore {
            tables,
            earlier,
            table,
            columns: &facts[..place],
        };
        facts[place] = facts_at(units, &before, place);
    }
    facts
}

/// Returns the facts of the column at a place.
fn facts_at(units: u64, before: &FactsBefore<'_>, place: usize) -> ColumnFacts
    ensures { (dictionaries : List Dictionary) → result ≡ capped_column (facts_of_kind units (table_layouts dictionaries before.now.tables.now)
        (table_layout dictionaries before.now.tables.now before.now.table.now) (map (λ facts. facts.columns) before.now.earlier.now) before.now.columns.now
        (column_at (table_layout dictionaries before.now.tables.now before.now.table.now).columns place).kind) }
{
    let columns = before.table.columns.as_slice();
    if place < columns.len() {
        facts_of_kind(units, before, &columns[place].kind)
    } else {
        NO_COLUMN_FACTS
    }
}

/// Returns the facts of a column of a kind.
fn facts_of_kind(units: u64, before: &FactsBefore<'_>, kind: &Kind) -> ColumnFacts
    ensures { (dictionaries : List Dictionary) → result ≡ capped_column (facts_of_kind units (table_layouts dictionaries before.now.tables.now)
        (table_layout dictionaries before.now.tables.now before.now.table.now) (map (λ facts. facts.columns) before.now.earlier.now) before.now.columns.now
        (kind_layout dictionaries before.now.tables.now before.now.table.now.columns kind.now)) }
{
    ColumnFacts {
        cost: cost_of_field(before, kind),
        days: days_of_kind(units, before, kind),
        numbers: numbers_of_kind(before, kind),
    }
}
