//! The cost of telling which references in a line are null.

ghost use Rattle.std.specs.Prelude.{◌≡◌, List, map, sum_by};
ghost use Rattle.schema_facts.specs.Capped.{capped};
ghost use Rattle.schema_facts.specs.Dictionaries.{Dictionary};
ghost use Rattle.schema_facts.specs.Layout.{column_at, column_layout, kind_layout, part_layout};
ghost use Rattle.schema_facts.specs.Lineage.{null_cost_of, null_cost_of_field, null_cost_of_line, null_cost_of_part};
ghost use Rattle.schema_model.specs.declared.column.Column.{Column};

use crate::facts::TableFacts;
use crate::lineage::lineage_at;
use crate::places::{place_of_column, place_of_table};
use schema_model::{Column, Kind, OnDelete, Part, Table};

/// Returns the most permutations that it takes to tell which references in a line of these columns are null.
pub(crate) fn null_cost_of_line(tables: &[Table], earlier: &[TableFacts], columns: &[Column]) -> u64
    ensures { (dictionaries : List Dictionary) →
        result ≡ capped (null_cost_of_line (map (λ facts. facts.lineage) earlier.now) (map (column_layout dictionaries tables.now columns.now) columns.now)) }
{
    let mut cost: u64 = 0;
    for column in columns {
        cost = cost.saturating_add(null_cost_of_field(tables, earlier, columns, &column.kind));
    }
    cost
}

/// Returns the most permutations for the references that one field shows. The columns are those of its table.
fn null_cost_of_field(
    tables: &[Table],
    earlier: &[TableFacts],
    columns: &[Column],
    kind: &Kind,
) -> u64
    ensures { (dictionaries : List Dictionary) →
        result ≡ capped (null_cost_of_field (map (λ facts. facts.lineage) earlier.now) (map (column_layout dictionaries tables.now columns.now) columns.now)
        (kind_layout dictionaries tables.now columns.now kind.now)) }
{
    match kind {
        Kind::Template { parts } => {
            null_cost_of_parts(tables, earlier, columns, parts.as_slice())
        }
        _ => null_cost_of(tables, earlier, kind),
    }
}

/// Returns the most permutations for the references that the parts of a template cite.
fn null_cost_of_parts(
    tables: &[Table],
    earlier: &[TableFacts],
    columns: &[Column],
    parts: &[Part],
) -> u64
    ensures { (dictionaries : List Dictionary) →
        result ≡ capped (sum_by (null_cost_of_part (map (λ facts. facts.lineage) earlier.now) (map (column_layout dictionaries tables.now columns.now) columns.now))
        (map (part_layout columns.now) parts.now)) }
{
    let mut cost: u64 = 0;
    for part in parts {
        cost = cost.saturating_add(null_cost_of_part(tables, earlier, columns, part));
    }
    cost
}

/// Returns the most permutations for the column that a part of a template cites.
fn null_cost_of_part(
    tables: &[Table],
    earlier: &[TableFacts],
    columns: &[Column],
    part: &Part,
) -> u64
    ensures { (dictionaries : List Dictionary) →
        result ≡ null_cost_of_part (map (λ facts. facts.lineage) earlier.now) (map (column_layout dictionaries tables.now columns.now) columns.now)
        (part_layout columns.now part.now) }
{
    match part {
        Part::Literal(_) => 0,
        Part::Cited(name) | Part::Padded { column: name, .. } => {
            null_cost_at(tables, earlier, columns, place_of_column(columns, name))
        }
    }
}

/// Returns the most permutations for the column at a place.
fn null_cost_at(tables: &[Table], earlier: &[TableFacts], columns: &[Column], place: usize) -> u64
    ensures { (dictionaries : List Dictionary) →
        result ≡ null_cost_of (map (λ facts. facts.lineage) earlier.now) (column_at (map (column_layout dictionaries tables.now columns.now) columns.now) place).kind }
{
    if place < columns.len() {
        null_cost_of(tables, earlier, &columns[place].kind)
    } else {
        0
    }
}

/// Returns the most permutations that tell whether a reference of this kind is null.
fn null_cost_of(tables: &[Table], earlier: &[TableFacts], kind: &Kind) -> u64
    ensures { (dictionaries : List Dictionary) (columns : List Column) →
        result ≡ null_cost_of (map (λ facts. facts.lineage) earlier.now) (kind_layout dictionaries tables.now columns kind.now) }
{
    match kind {
        Kind::Ref {
            table,
            on_delete,
            ..
        } => match on_delete {
            OnDelete::Cascade => 0,
            OnDelete::Null => lineage_at(earlier, place_of_table(tables, table)).death_cost,
        },
        _ => 0,
    }
}
