//! What the rules ask of references.

ghost use Rattle.std.specs.Prelude.{◌≡◌, ◌<◌, ◌≤◌, ◌||◌, false, length, nat_le, nat_lt};
ghost use Rattle.std.specs.List.{list_all};
ghost use Rattle.std.specs.Option.{option_map_or};
ghost use Rattle.cohort_sizes.specs.Births.{cohort_size};
ghost use Rattle.schema_facts.specs.Counts.{count};
ghost use Rattle.schema_facts.specs.Layout.{births_of, place_of_table, window_layout};
ghost use Rattle.schema_facts.specs.References.{window_start};
ghost use Rattle.schema_plan.specs.Rules.{has_parent_rows, has_parents, is_between, is_reference, is_spread, is_target, is_window, is_within_life, kind_at, references_before, table_in};

use crate::candidate::Candidate;
use crate::rules::MAX_UNITS;
use schema_facts::{MAX_ITEMS, count, lineage_at, place_of_table};
use schema_model::{Column, Kind, Schema, Table, Text, Window};
use schema_plan::cohort_size;

/// The most references of a table.
const MAX_REFERENCES: usize = 8;

/// The most weights of a spread.
const MAX_WEIGHTS: usize = 64;

/// The greatest weight of a spread.
const MAX_WEIGHT: i64 = 1_000;

fn is_reference(kind: &Kind) -> bool
    ensures { result ≡ is_reference kind.now }
{
    matches!(kind, Kind::Ref { .. })
}

/// Returns how many of the columns before a place are references.
fn references_before(columns: &[Column], place: usize) -> usize
    requires { place ≤ length columns.now }
    ensures count { result ≡ references_before columns.now place }
    ensures limit { result ≤ place }
{
    let mut count = 0;
    for column in &columns[..place] {
        if is_reference(&column.kind) {
            count += 1;
        }
    }
    count
}

/// Whether a column keeps the rule of targets. A reference names an earlier table, and a table has at most 8 references.
pub(crate) fn is_target(tables: &[Table], table: usize, columns: &[Column], column: usize) -> bool
    requires { column < length columns.now }
    ensures { result ≡ is_target tables.now table (references_before columns.now column) (kind_at columns.now column) }
{
    match &columns[column].kind {
        Kind::Ref { table: parent, .. } => {
            place_of_table(tables, parent) < table
                && references_before(columns, column) < MAX_REFERENCES
        }
        _ => true,
    }
}

/// Whether each row that is born in a window is alive at the window's end, by the sure life of such rows.
fn is_within_life(sure_life: Option<u64>, window: Window) -> bool
    ensures { result ≡ is_within_life sure_life window }
{
    match (window, sure_life) {
        (Window::All, sure_life) => sure_life.is_none(),
        (Window::Units(units), None) => 0 <= units,
        (Window::Units(units), Some(life)) => 0 <= units && count(units) < life,
    }
}

/// Whether a kind keeps the rule of windows. The window of a reference is within the sure life of the parent's rows.
pub(crate) fn is_window(candidate: &Candidate<'_>, kind: &Kind) -> bool
    ensures { result ≡ is_window candidate.now kind.now }
{
    match kind {
        Kind::Ref { table, window, .. } => is_window_of(candidate, table, *window),
        _ => true,
    }
}

/// Whether a window is within the sure life of the named table's rows. It is true past the first 64 tables.
fn is_window_of(candidate: &Candidate<'_>, parent: &Text, window: Window) -> bool
    ensures { (spread on_delete deal : _) → result ≡ is_window candidate.now (Kind.Ref parent.now window spread on_delete deal) }
{
    let parent = place_of_table(candidate.schema().tables.as_slice(), parent);
    if parent >= MAX_ITEMS {
        return true;
    }
    is_within_life(lineage_at(candidate.facts(), parent).sure_life, window)
}

/// Returns how many rows of the table at a place are born at a unit. Past the last table there are none.
fn cohort_size_at(tables: &[Table], place: usize, unit: u64) -> u64
    ensures { result ≡ cohort_size (births_of (table_in tables.now place)) unit }
{
    if place < tables.len() {
        cohort_size(&tables[place], unit)
    } else {
        0
    }
}

/// Whether each cohort of the child's table up to unit `last` has a row of the parent's table in its window. An empty cohort needs none.
fn has_parent_rows(tables: &[Table], child: usize, parent: usize, window: Window, last: u64) -> bool
    requires { last ≤ 10000 }
    ensures { result ≡ has_parent_rows last (births_of (table_in tables.now child)) (births_of (table_in tables.now parent)) (window_layout window) }
{
    let mut latest = None;
    for unit in 0..last + 1 {
        if cohort_size_at(tables, parent, unit) > 0 {
            latest = Some(unit);
        }
        if cohort_size_at(tables, child, unit) > 0 && !reaches(window, unit, latest) {
            return false;
        }
    }
    true
}

/// Whether `has_parent_rows` holds up to the last unit of a schema. It is true if that unit is past the greatest.
fn has_candidates(tables: &[Table], child: usize, parent: usize, window: Window, units: i64) -> bool
    ensures { result ≡ (nat_lt 10000 (count units)
        || has_parent_rows (count units) (births_of (table_in tables.now child)) (births_of (table_in tables.now parent)) (window_layout window)) }
{
    let last = count(units);
    last > MAX_UNITS as u64 || has_parent_rows(tables, child, parent, window, last)
}

/// Whether a window that ends at `unit` reaches back to unit `latest`. It is false if there is no such unit.
fn reaches(window: Window, unit: u64, latest: Option<u64>) -> bool
    ensures { result ≡ option_map_or (nat_le (window_start (window_layout window) unit)) latest false }
{
    match (latest, window) {
        (None, _) => false,
        (Some(_), Window::All) => true,
        (Some(latest), Window::Units(older)) => unit <= latest.saturating_add(count(older)),
    }
}

/// Whether a kind of the table at a place has parents at each unit, if it is a reference.
pub(crate) fn has_parents(schema: &Schema, table: usize, kind: &Kind) -> bool
    ensures { result ≡ has_parents schema.now table kind.now }
{
    match kind {
        Kind::Ref {
            table: parent,
            window,
            ..
        } => {
            let tables = schema.tables.as_slice();
            has_candidates(
                tables,
                table,
                place_of_table(tables, parent),
                *window,
                schema.units,
            )
        }
        _ => true,
    }
}

/// Whether a kind keeps the rule of spreads. A reference has 1 to 64 weights from 1 to 1,000 each.
pub(crate) fn is_spread(kind: &Kind) -> bool
    ensures { result ≡ is_spread kind.now }
{
    match kind {
        Kind::Ref { spread, .. } => {
            1 <= spread.len() && spread.len() <= MAX_WEIGHTS && are_weights(spread.as_slice())
        }
        _ => true,
    }
}

fn are_weights(weights: &[i64]) -> bool
    ensures { result ≡ list_all (is_between 1 1000) weights.now }
{
    weights
        .iter()
        .all(|weight| 1 <= *weight && *weight <= MAX_WEIGHT)
}
