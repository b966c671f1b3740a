//! Values of the types that keys want.

ghost use Rattle.std.specs.Prelude.{◌≡◌, option_map, map, is_some};
ghost use Rattle.std.specs.List.{list_all};
ghost use Rattle.std.specs.Option.{option_copied};
ghost use Rattle.toml.specs.Data.{Data, as_array, as_integer, as_str, as_table};
ghost use Rattle.toml.specs.View.{view, table_view};
ghost use Rattle.schema_read.specs.Document.{elements, members_of_values};
ghost use Rattle.schema_read.specs.Types.{as_list_of, delimiter_named, as_delimiter, pair_of, as_pair, as_life, as_phase, as_kind, as_leaf, as_day, cited, padded, window_named, as_window, deletion_named, as_deletion, deal_named, as_deal};

use crate::date::day_of_text;
use crate::kind_name::{KindName, LeafName, kind_of_name, leaf_of_name};
use crate::members::{has_only, member};
use crate::schema_key::SchemaKey;
use crate::wanted::{PADDED_KEYS, PART_KEYS};
use schema_model::{Deal, Delimiter, Life, OnDelete, Phase, Window};
use toml::{Table, Value};

fn delimiter_of_name(name: &str) -> Option<Delimiter>
    ensures { result ≡ delimiter_named name.now }
{
    match name {
        "tab" => Some(Delimiter::Tab),
        "bar" => Some(Delimiter::Bar),
        _ => None,
    }
}

/// Returns the delimiter that the text `tab` or `bar` names, or None for any other value.
pub fn delimiter_of(value: &Value) -> Option<Delimiter>
    ensures { result ≡ as_delimiter (view value.now) }
{
    match value.as_str() {
        Some(name) => delimiter_of_name(name),
        None => None,
    }
}

/// Returns the kind that a text names, or None for any other value.
pub fn kind_of(value: &Value) -> Option<KindName>
    ensures { result ≡ as_kind (view value.now) }
{
    match value.as_str() {
        Some(name) => kind_of_name(name),
        None => None,
    }
}

/// Returns the leaf kind that a text names, or None for any other value.
pub fn leaf_kind_of(value: &Value) -> Option<LeafName>
    ensures { result ≡ as_leaf (view value.now) }
{
    match value.as_str() {
        Some(name) => leaf_of_name(name),
        None => None,
    }
}

/// Returns the day number of a date, or None for any other value.
pub fn day_of(value: &Value) -> Option<i32>
    ensures { result ≡ as_day (view value.now) }
{
    match value.as_str() {
        Some(text) => day_of_text(text),
        None => None,
    }
}

fn window_of_name(name: &str) -> Option<Window>
    ensures { result ≡ window_named name.now }
{
    match name {
        "all" => Some(Window::All),
        _ => None,
    }
}

/// Returns the window of a whole number or of the text `all`, or None for any other value.
pub fn window_of(value: &Value) -> Option<Window>
    ensures { result ≡ as_window (view value.now) }
{
    match value.as_integer() {
        Some(units) => Some(Window::Units(units)),
        None => match value.as_str() {
            Some(name) => window_of_name(name),
            None => None,
        },
    }
}

fn deletion_of_name(name: &str) -> Option<OnDelete>
    ensures { result ≡ deletion_named name.now }
{
    match name {
        "cascade" => Some(OnDelete::Cascade),
        "null" => Some(OnDelete::Null),
        _ => None,
    }
}

/// Returns what a deletion does, from the text `cascade` or `null`, or None for any other value.
pub fn deletion_of(value: &Value) -> Option<OnDelete>
    ensures { result ≡ as_deletion (view value.now) }
{
    match value.as_str() {
        Some(name) => deletion_of_name(name),
        None => None,
    }
}

fn deal_of_name(name: &str) -> Option<Deal>
    ensures { result ≡ deal_named name.now }
{
    match name {
        "turn" => Some(Deal::Turn),
        "drawn" => Some(Deal::Drawn),
        _ => None,
    }
}

/// Returns the order in which parents are dealt, from the text `turn` or `drawn`, or None for any other value.
pub fn deal_of(value: &Value) -> Option<Deal>
    ensures { result ≡ as_deal (view value.now) }
{
    match value.as_str() {
        Some(name) => deal_of_name(name),
        None => None,
    }
}

/// Returns the name of the column that a table cites, if `column` is its only key and is a text. Returns None otherwise.
pub fn cited_name(members: &Table) -> Option<&str>
    ensures { option_copied result ≡ cited (table_view members.now) }
{
    if has_only(members, &PART_KEYS, &[]) {
        member(members, SchemaKey::Column)?.as_str()
    } else {
        None
    }
}

/// Returns the column that a table cites and the width to which it is padded, if `column`, a text, and `width`, a whole number, are its
/// only keys. Returns None otherwise.
pub fn padded_column(members: &Table) -> Option<(&str, i64)>
    ensures { option_map (λ at. (at.0.now, at.1)) result ≡ padded (table_view members.now) }
{
    if has_only(members, &PART_KEYS, &PADDED_KEYS) {
        let column = member(members, SchemaKey::Column)?.as_str()?;
        let width = member(members, SchemaKey::Width)?.as_integer()?;
        Some((column, width))
    } else {
        None
    }
}

/// Returns the elements of an array, or None for any other value.
pub fn array_elements(value: &Value) -> Option<&[Value]>
    ensures { option_map (λ items. map view items.now) result ≡ option_map elements (as_array (view value.now)) }
{
    match value.as_array() {
        Some(items) => Some(items.as_slice()),
        None => None,
    }
}

fn pair_of_items(items: &[Value]) -> Option<(i64, i64)>
    ensures { result ≡ pair_of (map view items.now) }
{
    let (first, others) = items.split_first()?;
    let (second, further) = others.split_first()?;
    if !further.is_empty() {
        return None;
    }
    Some((first.as_integer()?, second.as_integer()?))
}

/// Returns the two whole numbers of an array, or None for any other value.
fn pair_of_value(value: &Value) -> Option<(i64, i64)>
    ensures { result ≡ as_pair (view value.now) }
{
    match array_elements(value) {
        Some(items) => pair_of_items(items),
        None => None,
    }
}

/// Returns the life of two whole numbers, or None for any other value.
pub fn life_of_value(value: &Value) -> Option<Life>
    ensures { result ≡ as_life (view value.now) }
{
    match pair_of_value(value) {
        Some((lo, hi)) => Some(Life { lo, hi }),
        None => None,
    }
}

/// Returns the phase of two whole numbers, or None for any other value.
pub fn phase_of_value(value: &Value) -> Option<Phase>
    ensures { result ≡ as_phase (view value.now) }
{
    match pair_of_value(value) {
        Some((from, rate)) => Some(Phase { from, rate }),
        None => None,
    }
}

fn are_tables(items: &[Value]) -> bool
    ensures { result ≡ list_all (λ v. is_some (as_table (view v))) items.now }
{
    items.iter().all(|item| item.is_table())
}

/// Returns the elements of an array of tables, or None for any other value.
pub fn table_elements(value: &Value) -> Option<&[Value]>
    ensures { option_map (λ items. members_of_values items.now) result ≡ as_list_of as_table (view value.now) }
{
    match array_elements(value) {
        Some(items) => { if are_tables(items) { Some(items) } else { None } }
        None => None,
    }
}
