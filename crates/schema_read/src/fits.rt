//! Whether values are of the types that keys want.

ghost use Rattle.std.specs.Prelude.{◌≡◌, is_some};
ghost use Rattle.std.specs.List.{list_all};
ghost use Rattle.toml.specs.Data.{as_integer, as_str};
ghost use Rattle.toml.specs.View.{view, table_view};
ghost use Rattle.schema_read.specs.Types.{as_list_of, as_part, as_phase, fits, part_of_table};

use crate::fault::Expected;
use crate::types::{
    array_elements, cited_name, day_of, deal_of, deletion_of, delimiter_of, kind_of, leaf_kind_of,
    life_of_value, padded_column, phase_of_value, table_elements, window_of,
};
use toml::{Table, Value};

fn are_texts(items: &[Value]) -> bool
    ensures { result ≡ list_all (λ v. is_some (as_str (view v))) items.now }
{
    items.iter().all(|item| item.is_str())
}

/// Whether a value is an array of texts.
fn is_text_list(value: &Value) -> bool
    ensures { result ≡ is_some (as_list_of as_str (view value.now)) }
{
    match array_elements(value) {
        Some(items) => are_texts(items),
        None => false,
    }
}

fn are_wholes(items: &[Value]) -> bool
    ensures { result ≡ list_all (λ v. is_some (as_integer (view v))) items.now }
{
    items.iter().all(|item| item.is_integer())
}

/// Whether a value is an array of whole numbers.
fn is_whole_list(value: &Value) -> bool
    ensures { result ≡ is_some (as_list_of as_integer (view value.now)) }
{
    match array_elements(value) {
        Some(items) => are_wholes(items),
        None => false,
    }
}

fn are_phases(items: &[Value]) -> bool
    ensures { result ≡ list_all (λ v. is_some (as_phase (view v))) items.now }
{
    items.iter().all(|item| phase_of_value(item).is_some())
}

/// Whether a value is an array of pairs of whole numbers.
fn is_phase_list(value: &Value) -> bool
    ensures { result ≡ is_some (as_list_of as_phase (view value.now)) }
{
    match array_elements(value) {
        Some(items) => are_phases(items),
        None => false,
    }
}

/// Whether a table is a part of a template, which cites a column as it stands or padded.
fn is_citation(members: &Table) -> bool
    ensures { result ≡ is_some (part_of_table (table_view members.now)) }
{
    match cited_name(members) {
        Some(_) => true,
        None => padded_column(members).is_some(),
    }
}

fn is_part(value: &Value) -> bool
    ensures { result ≡ is_some (as_part (view value.now)) }
{
    match value.as_str() {
        Some(_) => true,
        None => match value.as_table() {
            Some(members) => is_citation(members),
            None => false,
        },
    }
}

fn are_parts(items: &[Value]) -> bool
    ensures { result ≡ list_all (λ v. is_some (as_part (view v))) items.now }
{
    items.iter().all(|item| is_part(item))
}

/// Whether a value is an array of parts of a template.
fn is_part_list(value: &Value) -> bool
    ensures { result ≡ is_some (as_list_of as_part (view value.now)) }
{
    match array_elements(value) {
        Some(items) => are_parts(items),
        None => false,
    }
}

/// Whether a value is of the expected type.
pub fn fits(expected: Expected, value: &Value) -> bool
    ensures { result ≡ fits expected (view value.now) }
{
    match expected {
        Expected::Whole => value.is_integer(),
        Expected::TextValue => value.is_str(),
        Expected::Flag => value.is_bool(),
        Expected::DelimiterName => delimiter_of(value).is_some(),
        Expected::TableList => table_elements(value).is_some(),
        Expected::TwoWholes => life_of_value(value).is_some(),
        Expected::KindName => kind_of(value).is_some(),
        Expected::LeafName => leaf_kind_of(value).is_some(),
        Expected::DateText => day_of(value).is_some(),
        Expected::TextList => is_text_list(value),
        Expected::Wholes => is_whole_list(value),
        Expected::PartList => is_part_list(value),
        Expected::WindowValue => window_of(value).is_some(),
        Expected::InsertValue => value.is_integer() || is_phase_list(value),
        Expected::DeleteName => deletion_of(value).is_some(),
        Expected::DealName => deal_of(value).is_some(),
        Expected::NoSuchKey => false,
    }
}
