//! Field costs: the most permutations that a field asks.

ghost use Rattle.std.specs.Prelude.{◌≡◌, ◌+◌, List, map, sum_by};
ghost use Rattle.schema_facts.specs.Capped.{capped};
ghost use Rattle.schema_facts.specs.Dictionaries.{Dictionary};
ghost use Rattle.schema_facts.specs.FieldCosts.{choice_cost_of, cost_among, cost_of_field, cost_of_part};
ghost use Rattle.schema_facts.specs.Layout.{column_at, column_layout, is_drawn_deal, kind_layout, part_layout, place_of_column, table_at, table_layout, table_layouts};
ghost use Rattle.schema_facts.specs.Lineage.{choice_cost, one_if};
ghost use Rattle.schema_model.specs.declared.column.Column.{Column};
ghost use Rattle.schema_model.specs.declared.table.Table.{Table};

use crate::column_facts::{FactsBefore, facts_looked_up, facts_named};
use crate::layout::is_drawn_deal;
use crate::lineage::choice_cost;
use crate::places::{keys_of, place_of_column, place_of_table};
use schema_model::{Column, Deal, Kind, Part, Table, Text};

/// Returns the most permutations that a field of a kind asks, once it is known which references are null.
pub(crate) fn cost_of_field(before: &FactsBefore<'_>, kind: &Kind) -> u64
    ensures { (dictionaries : List Dictionary) → result ≡ capped (cost_of_field (table_layouts dictionaries before.now.tables.now)
        (table_layout dictionaries before.now.tables.now before.now.table.now) (map (λ facts. facts.columns) before.now.earlier.now) before.now.columns.now
        (kind_layout dictionaries before.now.tables.now before.now.table.now.columns kind.now)) }
{
    match kind {
        Kind::Key { .. } => u64::from(keys_of(before.table.columns.as_slice()).scramble),
        Kind::Template { parts } => cost_of_parts(before, parts.as_slice()),
        Kind::Ref { table, deal, .. } => {
            cost_of_reference(before.tables, place_of_table(before.tables, table), *deal)
        }
        Kind::Lookup { via, column } => facts_looked_up(before, via, column)
            .cost
            .saturating_add(choice_cost_via(before.table.columns.as_slice(), via)),
        Kind::After { of, .. } => facts_named(before, of).cost,
        Kind::Sum { of } | Kind::Product { of } => cost_of_named(before, of.as_slice()),
        _ => 0,
    }
}

/// Returns the cost of a reference to the table at a place: what chooses the parent, and one more permutation if the parent's keys are
/// scrambled.
fn cost_of_reference(tables: &[Table], parent: usize, deal: Deal) -> u64
    ensures { (dictionaries : List Dictionary) →
        result ≡ choice_cost (is_drawn_deal deal) + one_if (table_at (table_layouts dictionaries tables.now) parent).key.scramble }
{
    let scramble = parent < tables.len() && keys_of(tables[parent].columns.as_slice()).scramble;
    choice_cost(is_drawn_deal(deal)) + u64::from(scramble)
}

/// Returns how many permutations choose the parent by the reference in the named column. Any other column counts as one in turn.
fn choice_cost_via(columns: &[Column], via: &Text) -> u64
    ensures { (dictionaries : List Dictionary) (tables : List Table) →
        result ≡ choice_cost_of (column_at (map (column_layout dictionaries tables columns.now) columns.now) (place_of_column columns.now via.now)).kind }
{
    let column = place_of_column(columns, via);
    if column < columns.len() {
        choice_cost_of(&columns[column].kind)
    } else {
        choice_cost(false)
    }
}

/// Returns how many permutations choose the parent by the reference of this kind. Any other kind counts as one in turn.
fn choice_cost_of(kind: &Kind) -> u64
    ensures { (dictionaries : List Dictionary) (tables : List Table) (columns : List Column) →
        result ≡ choice_cost_of (kind_layout dictionaries tables columns kind.now) }
{
    match kind {
        Kind::Ref { deal, .. } => choice_cost(is_drawn_deal(*deal)),
        _ => choice_cost(false),
    }
}

/// Returns the cost of all parts of a template together.
fn cost_of_parts(before: &FactsBefore<'_>, parts: &[Part]) -> u64
    ensures { result ≡ capped (sum_by (cost_of_part before.now.columns.now) (map (part_layout before.now.table.now.columns) parts.now)) }
{
    let mut cost: u64 = 0;
    for part in parts {
        cost = cost.saturating_add(cost_of_part(before, part));
    }
    cost
}

/// Returns the cost of a part of a template.
fn cost_of_part(before: &FactsBefore<'_>, part: &Part) -> u64
    ensures { result ≡ cost_of_part before.now.columns.now (part_layout before.now.table.now.columns part.now) }
{
    match part {
        Part::Literal(_) => 0,
        Part::Cited(name) | Part::Padded { column: name, .. } => facts_named(before, name).cost,
    }
}

/// Returns the cost of some named columns together.
fn cost_of_named(before: &FactsBefore<'_>, names: &[Text]) -> u64
    ensures { result ≡ capped (sum_by (cost_among before.now.columns.now) (map (place_of_column before.now.table.now.columns) names.now)) }
{
    let mut cost: u64 = 0;
    for name in names {
        cost = cost.saturating_add(facts_named(before, name).cost);
    }
    cost
}
