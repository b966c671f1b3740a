//! What the rules ask of columns that cite others, of changes and of nulls.

ghost use Rattle.std.specs.Prelude.{◌≡◌, ◌<◌, ◌≤◌, ◌||◌, length};
ghost use Rattle.std.specs.List.{list_all};
ghost use Rattle.schema_facts.specs.Layout.{place_of_column};
ghost use Rattle.schema_plan.specs.Rules.{cites_still, is_case, is_change, is_citable, is_moving_kind, is_null_share, is_part, is_pick_of, is_still_kind, is_still_part, is_template, kind_at, may_be_redrawn, moves_at};

use schema_facts::{becomes_null, place_of_column};
use schema_model::{Column, Kind, Leaf, Part, Text};

/// The most parts of a template.
const MAX_PARTS: usize = 32;

/// The most fields of a thousand that can be null.
const MAX_NULL: i64 = 999;

/// Whether the column at a place keeps the rule of templates. A template has 1 to 32 parts. Each is a text or cites an
/// earlier column that is no template, case or lookup.
pub(crate) fn is_template(columns: &[Column], place: usize) -> bool
    requires { place < length columns.now }
    ensures { result ≡ is_template columns.now place (kind_at columns.now place) }
{
    match &columns[place].kind {
        Kind::Template { parts } => {
            1 <= parts.len()
                && parts.len() <= MAX_PARTS
                && are_parts(columns, place, parts.as_slice())
        }
        _ => true,
    }
}

/// Whether the template at a place can have each of some parts.
fn are_parts(columns: &[Column], place: usize, parts: &[Part]) -> bool
    requires { place < length columns.now }
    ensures { result ≡ list_all (is_part columns.now place) parts.now }
{
    parts.iter().all(|part| is_part(columns, place, part))
}

fn is_part(columns: &[Column], place: usize, part: &Part) -> bool
    requires { place < length columns.now }
    ensures { result ≡ is_part columns.now place part.now }
{
    match part {
        Part::Literal(_) => true,
        Part::Cited(name) | Part::Padded { column: name, .. } => {
            let cited = place_of_column(columns, name);
            cited < place && is_citable(&columns[cited].kind)
        }
    }
}

fn is_citable(kind: &Kind) -> bool
    ensures { result ≡ is_citable kind.now }
{
    match kind {
        Kind::Template { .. } | Kind::Case { .. } | Kind::Lookup { .. } => false,
        _ => true,
    }
}

/// Whether the column at a place keeps the rule of cases. A case names an earlier pick with as many entries as it has branches.
pub(crate) fn is_case(columns: &[Column], place: usize) -> bool
    requires { place < length columns.now }
    ensures { result ≡ is_case columns.now place (kind_at columns.now place) }
{
    match &columns[place].kind {
        Kind::Case { on, branches } => {
            let pick = place_of_column(columns, on);
            pick < place && is_pick_of(branches.len(), &columns[pick].kind)
        }
        _ => true,
    }
}

/// Whether a kind is a pick of `count` entries.
fn is_pick_of(count: usize, kind: &Kind) -> bool
    ensures { result ≡ is_pick_of count kind.now }
{
    match kind {
        Kind::Leaf(Leaf::Pick { entries, .. }) => entries.len() == count,
        _ => false,
    }
}

/// Whether the column at a place changes, or cites no column that moves. Only templates and cases cite columns.
pub(crate) fn cites_still(columns: &[Column], place: usize) -> bool
    requires { place < length columns.now }
    ensures { result ≡ cites_still columns.now place }
{
    let column = &columns[place];
    column.changes || is_still_kind(columns, &column.kind)
}

/// Whether a kind cites no column that moves.
fn is_still_kind(columns: &[Column], kind: &Kind) -> bool
    ensures { result ≡ is_still_kind columns.now kind.now }
{
    match kind {
        Kind::Template { parts } => are_still(columns, parts.as_slice()),
        Kind::Case { on, .. } => !is_moving(columns, on),
        _ => true,
    }
}

/// Whether no part of some cites a column that moves.
fn are_still(columns: &[Column], parts: &[Part]) -> bool
    ensures { result ≡ list_all (is_still_part columns.now) parts.now }
{
    parts.iter().all(|part| is_still_part(columns, part))
}

fn is_still_part(columns: &[Column], part: &Part) -> bool
    ensures { result ≡ is_still_part columns.now part.now }
{
    match part {
        Part::Literal(_) => true,
        Part::Cited(name) | Part::Padded { column: name, .. } => !is_moving(columns, name),
    }
}

/// Whether the column with a name moves: it changes, or is of a kind that moves.
pub(crate) fn is_moving(columns: &[Column], name: &Text) -> bool
    ensures { result ≡ moves_at columns.now (place_of_column columns.now name.now) }
{
    let place = place_of_column(columns, name);
    place < columns.len() && moves(&columns[place])
}

pub(crate) fn moves(column: &Column) -> bool
    ensures { result ≡ (column.now.changes || is_moving_kind column.now.kind) }
{
    column.changes || is_moving_kind(&column.kind)
}

/// Whether the fields of a kind move though they aren't drawn anew. These are the unit of a row's last change, its date, and a
/// reference that becomes null.
fn is_moving_kind(kind: &Kind) -> bool
    ensures { result ≡ is_moving_kind kind.now }
{
    match kind {
        Kind::Changed | Kind::ChangedDate { .. } => true,
        Kind::Ref { on_delete, .. } => becomes_null(*on_delete),
        _ => false,
    }
}

/// Whether a column changes only if its kind can.
pub(crate) fn is_change(column: &Column) -> bool
    ensures { result ≡ is_change column.now.kind column.now.changes }
{
    !column.changes || may_change(&column.kind)
}

/// Whether the fields of a kind can be drawn anew when a row changes. Keys, units, lists and fields that follow from other rows can't.
fn may_change(kind: &Kind) -> bool
    ensures { result ≡ may_be_redrawn kind.now }
{
    matches!(
        kind,
        Kind::Leaf(_)
            | Kind::Template { .. }
            | Kind::Case { .. }
            | Kind::After { .. }
            | Kind::Sum { .. }
            | Kind::Product { .. }
    )
}

/// Whether at most 999 fields of a thousand are null. In a key or a reference none is.
pub(crate) fn is_null_share(column: &Column) -> bool
    ensures { result ≡ is_null_share column.now.kind column.now.null }
{
    match &column.kind {
        Kind::Key { .. } | Kind::Ref { .. } => column.null == 0,
        _ => 0 <= column.null && column.null <= MAX_NULL,
    }
}
