//! The columns of tables, made ready for rows.

ghost use Rattle.std.specs.Prelude.{◌≡◌, ◌≤◌, ℕ, List, All, IfOk, length, map, sum};
ghost use Rattle.std.specs.List.{range_with_len};
ghost use Rattle.schema_facts.specs.Choices.{choices};
ghost use Rattle.schema_facts.specs.Counts.{count};
ghost use Rattle.schema_facts.specs.Dictionaries.{Dictionary, project_of};
ghost use Rattle.schema_facts.specs.Layout.{becomes_null, column_layout, is_drawn_deal, kind_layout, layout_of, leaf_layout, place_of_column, window_layout};
ghost use Rattle.schema_plan.specs.Limits.{CanBeReady, IsAfterRange, IsInLimits, IsLeafInLimits};
ghost use Rattle.schema_plan.specs.Ready.{ready_column, ready_columns, ready_kind, ready_leaf, ready_reference};
ghost use Rattle.schema_facts.specs.References.{IsSpread};

use crate::ready::{
    ReadyAfter, ReadyColumn, ReadyKind, ReadyLeaf, ReadyList, ReadyLookup, ReadyReference,
    ReadyUnitDate,
};
use crate::ready_leaves::{choices, counts, ready_leaf};
use crate::ready_parts::ready_parts;
use crate::ready_words::{Lexicon, ReadyWords};
use fixed_divisors::FixedDivisor;
use out_of_memory::Memory;
use schema_facts::{
    Dictionaries, becomes_null, columns_of, count, delimiter_byte, is_drawn_deal, parent_via,
    place_of_column, place_of_table,
};
use schema_model::{Column, Deal, Kind, Leaf, OnDelete, Schema, Sequence, Table, Text, Window};
use std::alloc::Global;
use weight_tables::Weights;

/// Makes ready the columns of each table of a schema within its limits, in order. Refuses if memory is wanting.
pub(crate) fn ready_tables(
    alloc: Global,
    schema: &Schema,
    dictionaries: &Dictionaries,
) -> Result<Vec<Sequence<ReadyColumn>>, Memory>
    requires { IsInLimits (project_of schema.now dictionaries.now) }
    ensures { IfOk result (λ ready. ready.items
        ≡ map (ready_columns (layout_of (project_of schema.now dictionaries.now))) (range_with_len 0 (length schema.now.tables))) }
{
    let lexicon = Lexicon::new(alloc, delimiter_byte(schema.delimiter), dictionaries)?;
    let tables = schema.tables.as_slice();
    let mut ready = Vec::with_capacity(alloc, tables.len())?;
    for table in tables {
        let columns = table.columns.as_slice();
        ready.push(ready_columns(alloc, &lexicon, tables, columns)?)?;
    }
    Ok(ready)
}

/// Makes ready the columns of a table, in order. Their kinds are within the limits.
pub(crate) fn ready_columns(
    alloc: Global,
    lexicon: &Lexicon<'_>,
    tables: &[Table],
    columns: &[Column],
) -> Result<Sequence<ReadyColumn>, Memory>
    requires tables { length tables.now ≤ 64 }
    requires columns { All (λ column. CanBeReady lexicon.now.dictionaries column.kind) columns.now }
    ensures { IfOk result (λ ready. ready
        ≡ map (λ column. ready_column lexicon.now.delimiter (column_layout lexicon.now.dictionaries tables.now columns.now column)) columns.now) }
{
    let mut ready = Sequence::new(alloc);
    for column in columns {
        ready.push(ready_column(alloc, lexicon, tables, columns, column)?)?;
    }
    Ok(ready)
}

/// Makes ready one column of a table. Its kind is within the limits.
fn ready_column(
    alloc: Global,
    lexicon: &Lexicon<'_>,
    tables: &[Table],
    columns: &[Column],
    column: &Column,
) -> Result<ReadyColumn, Memory>
    requires tables { length tables.now ≤ 64 }
    requires kind { CanBeReady lexicon.now.dictionaries column.now.kind }
    ensures { IfOk result (λ ready. ready ≡ ready_column lexicon.now.delimiter (column_layout lexicon.now.dictionaries tables.now columns.now column.now)) }
{
    let kind = ready_kind(alloc, lexicon, tables, columns, &column.kind)?;
    Ok(ReadyColumn {
        kind,
        changes: column.changes,
        null: count(column.null),
    })
}

/// Makes ready the kind of a column of a table. The kind is within the limits.
fn ready_kind(
    alloc: Global,
    lexicon: &Lexicon<'_>,
    tables: &[Table],
    columns: &[Column],
    kind: &Kind,
) -> Result<ReadyKind, Memory>
    requires tables { length tables.now ≤ 64 }
    requires kind { CanBeReady lexicon.now.dictionaries kind.now }
    ensures { IfOk result (λ ready. ready ≡ ready_kind lexicon.now.delimiter (kind_layout lexicon.now.dictionaries tables.now columns.now kind.now)) }
{
    match kind {
        Kind::Key { .. } => Ok(ReadyKind::Key),
        Kind::Born => Ok(ReadyKind::Born),
        Kind::Changed => Ok(ReadyKind::Changed),
        Kind::Leaf(leaf) => Ok(ReadyKind::Drawn(ready_leaf(alloc, lexicon, leaf)?)),
        Kind::Template { parts } => {
            let parts = ready_parts(alloc, lexicon.delimiter(), columns, parts.as_slice())?;
            Ok(ReadyKind::Template { parts })
        }
        Kind::Case { on, branches } => {
            let on = place_of_column(columns, on) as u64;
            let branches = ready_branches(alloc, lexicon, branches.as_slice())?;
            Ok(ReadyKind::Case { on, branches })
        }
        Kind::Ref {
            table,
            window,
            spread,
            on_delete,
            deal,
        } => {
            let parent = place_of_table(tables, table) as u32;
            let spread = spread.as_slice();
            let reference = ready_reference(alloc, parent, *window, spread, *on_delete, *deal)?;
            Ok(ReadyKind::Reference(reference))
        }
        Kind::Lookup { via, column } => {
            Ok(ReadyKind::Lookup(ready_lookup(tables, columns, via, column)))
        }
        Kind::List { file } => Ok(ReadyKind::List(ready_list(lexicon.words(file)?))),
        Kind::BornDate { start, step } => Ok(dates_of_units(false, *start, *step)),
        Kind::ChangedDate { start, step } => Ok(dates_of_units(true, *start, *step)),
        Kind::After { of, lo, hi } => Ok(dates_after(columns, of, *lo, *hi)),
        Kind::Sum { of } => Ok(ReadyKind::Sum {
            of: places_of(alloc, columns, of.as_slice())?,
        }),
        Kind::Product { of } => Ok(ReadyKind::Product {
            of: places_of(alloc, columns, of.as_slice())?,
        }),
    }
}

/// Makes ready the dates from `lo` to `hi` days after those of the named column.
fn dates_after(columns: &[Column], of: &Text, lo: i64, hi: i64) -> ReadyKind
    requires { IsAfterRange lo hi }
    ensures { result ≡ ReadyKind.After (record { of = place_of_column columns.now of.now; lo = lo; hi = hi; choices = choices lo hi 1 }) }
{
    ReadyKind::After(ReadyAfter {
        of: place_of_column(columns, of) as u64,
        lo,
        hi,
        choices: choices(lo, hi, 1),
    })
}

/// Returns the places of some named columns, in order.
fn places_of(alloc: Global, columns: &[Column], names: &[Text]) -> Result<Sequence<u64>, Memory>
    ensures { IfOk result (λ places. places ≡ map (place_of_column columns.now) names.now) }
{
    let mut places = Sequence::new(alloc);
    for name in names {
        places.push(place_of_column(columns, name) as u64)?;
    }
    Ok(places)
}

/// Makes ready the dates of the units.
fn dates_of_units(changed: bool, start: i32, step: i64) -> ReadyKind
    ensures { result ≡ ReadyKind.UnitDate (record { changed = changed; start = start; step = count step }) }
{
    ReadyKind::UnitDate(ReadyUnitDate {
        changed,
        start,
        step: count(step),
    })
}

/// Makes ready the words of a list.
fn ready_list(words: ReadyWords) -> ReadyList
    requires { 1 ≤ length words.entries }
    ensures { result ≡ record { words = words; count = length words.entries } }
{
    ReadyList {
        count: FixedDivisor::new(words.len() as u64),
        words,
    }
}

/// Makes ready a reference to the table at a place.
fn ready_reference(
    alloc: Global,
    parent: u32,
    window: Window,
    spread: &[i64],
    on_delete: OnDelete,
    deal: Deal,
) -> Result<ReadyReference, Memory>
    requires { IsSpread (map count spread.now) }
    ensures { IfOk result (λ ready. ready ≡ ready_reference parent (window_layout window) (map count spread.now) (becomes_null on_delete) (is_drawn_deal deal)) }
{
    let weights = Weights::new(alloc, &counts(alloc, spread)?)?;
    let total = FixedDivisor::new(weights.total());
    Ok(ReadyReference {
        parent,
        window: units_of(window),
        spread: weights,
        groups: spread.len() as u64,
        total,
        nulls: becomes_null(on_delete),
        drawn: is_drawn_deal(deal),
    })
}

/// Makes ready a lookup of a table. It names one of the table's references, and a column of the parent's table.
fn ready_lookup(tables: &[Table], columns: &[Column], via: &Text, column: &Text) -> ReadyLookup
    requires { length tables.now ≤ 64 }
    ensures { (delimiter : ℕ) (dictionaries : List Dictionary) → ReadyKind.Lookup result ≡ ready_kind delimiter (kind_layout dictionaries tables.now columns.now (Kind.Lookup via.now column.now)) }
{
    let parent = parent_via(tables, columns, via);
    ReadyLookup {
        via: place_of_column(columns, via) as u64,
        parent: parent as u32,
        column: place_of_column(columns_of(tables, parent), column) as u64,
    }
}

/// Returns how many units older than its child a parent can be. None sets no bound.
fn units_of(window: Window) -> Option<u64>
    ensures { result ≡ window_layout window }
{
    match window {
        Window::Units(units) => Some(count(units)),
        Window::All => None,
    }
}

/// Makes ready the branches of a case, in order. Each is within its limits.
fn ready_branches(
    alloc: Global,
    lexicon: &Lexicon<'_>,
    branches: &[Leaf],
) -> Result<Sequence<ReadyLeaf>, Memory>
    requires { All (λ leaf. IsLeafInLimits (leaf_layout lexicon.now.dictionaries leaf)) branches.now }
    ensures { IfOk result (λ ready. ready ≡ map (λ leaf. ready_leaf lexicon.now.delimiter (leaf_layout lexicon.now.dictionaries leaf)) branches.now) }
{
    let mut ready = Sequence::new(alloc);
    for branch in branches {
        ready.push(ready_leaf(alloc, lexicon, branch)?)?;
    }
    Ok(ready)
}
