//! What rows take over from the tables that they refer to.

ghost use Rattle.std.specs.Prelude.{◌≡◌, List, length, map};
ghost use Rattle.schema_facts.specs.Capped.{capped_lineage};
ghost use Rattle.schema_facts.specs.Dictionaries.{Dictionary};
ghost use Rattle.schema_facts.specs.Layout.{kind_layout, span_of, table_layout, table_layouts, window_layout};
ghost use Rattle.schema_facts.specs.Lineage.{choice_cost, lesser_life, lineage_at, lineage_of, own_lineage, with_kind, with_loss, with_parent};
ghost use Rattle.std.specs.Option.{option_map};
ghost use Rattle.schema_model.specs.declared.column.Column.{Column};
ghost use Rattle.schema_facts.specs.declared.lineage.Lineage.{Lineage};

use crate::counts::count;
use crate::facts::TableFacts;
use crate::layout::{Span, is_drawn_deal};
use crate::null_costs::null_cost_of_line;
use crate::places::place_of_table;
use schema_model::{Kind, Life, OnDelete, Table, Window};

/// How long the rows of a table live, what their death costs, and what telling their lost parents costs.
#[derive(Clone, Copy, Debug, PartialEq, Eq)]
pub struct Lineage {
    /// How many units a row lives at least; None if that is unbounded.
    pub sure_life: Option<u64>,
    /// How many units a row lives at most; None if that is unbounded.
    pub longest_life: Option<u64>,
    /// The most permutations asked to find the unit of a row's death.
    pub death_cost: u64,
    /// The most permutations asked to find when a row lost the parents that it outlives.
    pub loss_cost: u64,
    /// The most permutations asked to tell which references in a row's line are null.
    pub null_cost: u64,
}

/// The lineage of a table whose rows never die.
pub(crate) const ENDLESS: Lineage = Lineage {
    sure_life: None,
    longest_life: None,
    death_cost: 0,
    loss_cost: 0,
    null_cost: 0,
};

/// Returns the lineage of a table, from the facts of the tables before it.
pub(crate) fn lineage_of(tables: &[Table], earlier: &[TableFacts], table: &Table) -> Lineage
    ensures { (dictionaries : List Dictionary) (given : List Lineage) → map (λ facts. facts.lineage) earlier.now ≡ map capped_lineage given →
        result ≡ capped_lineage (lineage_of given (table_layout dictionaries tables.now table.now)) }
{
    let columns = table.columns.as_slice();
    let mut lineage = own_lineage(table.life);
    for column in columns {
        lineage = with_kind(tables, earlier, lineage, &column.kind);
    }
    Lineage {
        null_cost: null_cost_of_line(tables, earlier, columns),
        ..lineage
    }
}

/// Returns the lineage that a table's own life gives.
fn own_lineage(life: Option<Life>) -> Lineage
    ensures { result ≡ own_lineage (option_map span_of life) }
{
    match life {
        None => ENDLESS,
        Some(life) => Lineage {
            sure_life: Some(count(life.lo)),
            longest_life: Some(count(life.hi)),
            death_cost: 1,
            loss_cost: 0,
            null_cost: 0,
        },
    }
}

/// Returns how many units a row lives at least and at most.
pub fn span_of(life: Life) -> Span
    ensures { result ≡ span_of life }
{
    Span {
        least: count(life.lo),
        most: count(life.hi),
    }
}

/// Returns a lineage with what a column of this kind adds. A reference adds a parent: the row is deleted with the parent or outlives it.
/// No other kind adds one.
fn with_kind(tables: &[Table], earlier: &[TableFacts], own: Lineage, kind: &Kind) -> Lineage
    ensures { (dictionaries : List Dictionary) (given : List Lineage) (before : Lineage) (columns : List Column) →
        map (λ facts. facts.lineage) earlier.now ≡ map capped_lineage given → own ≡ capped_lineage before →
        result ≡ capped_lineage (with_kind given before (kind_layout dictionaries tables.now columns kind.now)) }
{
    match kind {
        Kind::Ref {
            table,
            window,
            on_delete,
            deal,
            ..
        } => {
            let parent = lineage_at(earlier, place_of_table(tables, table));
            let drawn = is_drawn_deal(*deal);
            match on_delete {
                OnDelete::Cascade => with_parent(own, parent, *window, drawn),
                OnDelete::Null => with_loss(own, parent, drawn),
            }
        }
        _ => own,
    }
}

/// Returns the lineage of the table at a place among the earlier ones. Past their end it returns `ENDLESS`.
pub fn lineage_at(earlier: &[TableFacts], place: usize) -> Lineage
    ensures { result ≡ lineage_at (map (λ facts. facts.lineage) earlier.now) place }
{
    if place < earlier.len() {
        earlier[place].lineage
    } else {
        ENDLESS
    }
}

/// Returns how many permutations choose a row's parent by a reference: the one that places the row, and in a drawn deal that of the
/// candidates.
pub(crate) fn choice_cost(drawn: bool) -> u64
    ensures { result ≡ choice_cost drawn }
{
    1 + u64::from(drawn)
}

/// Returns a lineage with one more parent, with whom the row is deleted.
fn with_parent(own: Lineage, parent: Lineage, window: Window, drawn: bool) -> Lineage
    ensures { result ≡ capped_lineage (with_parent own parent (window_layout window) drawn) }
{
    let older = match window {
        Window::Units(units) => count(units),
        Window::All => 0,
    };
    let sure_life = parent.sure_life.map(|life| life.saturating_sub(older));
    Lineage {
        sure_life: lesser_life(own.sure_life, sure_life),
        longest_life: lesser_life(own.longest_life, parent.longest_life),
        death_cost: own
            .death_cost
            .saturating_add(parent.death_cost.saturating_add(choice_cost(drawn))),
        ..own
    }
}

/// Returns a lineage with one more parent, whom the row outlives.
fn with_loss(own: Lineage, parent: Lineage, drawn: bool) -> Lineage
    ensures { result ≡ capped_lineage (with_loss own parent drawn) }
{
    let asked = parent.death_cost.saturating_add(choice_cost(drawn));
    Lineage {
        loss_cost: own.loss_cost.saturating_add(asked),
        ..own
    }
}

/// Returns the lesser of two lives. None is a life without a bound.
fn lesser_life(life: Option<u64>, other: Option<u64>) -> Option<u64>
    ensures { result ≡ lesser_life life other }
{
    match (life, other) {
        (None, other) => other,
        (Some(life), None) => Some(life),
        (Some(life), Some(other)) => Some(life.min(other)),
    }
}
