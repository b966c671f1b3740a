//! The rules of the columns of a table that stands beside a schema. Each is a rule of the schema's own columns.

ghost use Rattle.std.specs.Prelude.{◌≡◌, ◌<◌, IfOk, length};
ghost use Rattle.std.specs.List.{list_all};
ghost use Rattle.schema_plan.specs.Citations.{citable_in, may_cite_in};
ghost use Rattle.schema_plan.specs.Rules.{are_columns_supplied, are_in_range, is_supplied_kind_by, keeps_column_rules};

use crate::column_rules::{is_change, is_null_share};
use crate::later_date_rules::is_later_date;
use crate::leaf_rules::{
    are_date_ranges, are_length_ranges, are_number_ranges, are_skew_ranges, are_weighted,
};
use crate::rules::is_new_column;
use crate::total_rules::is_total;
use out_of_memory::Memory;
use schema_facts::{ColumnFacts, Dictionaries};
use schema_model::{Column, Kind, Texts};
use schema_plan::{CitedNames, copied_names, is_citable_kind, is_supplied_kind, leaves_of};
use std::alloc::Global;

/// Whether the column at a place, by its facts, keeps the rules on the names of columns, on drawn values, on changes and nulls, on dates
/// after dates, and on sums and products.
pub fn keeps_column_rules(facts: ColumnFacts, columns: &[Column], place: usize) -> bool
    requires { place < length columns.now }
    ensures { result ≡ keeps_column_rules facts columns.now place }
{
    let column = &columns[place];
    is_new_column(columns, place)
        && are_in_range(&column.kind)
        && is_null_share(column)
        && is_change(column)
        && is_later_date(facts.days, columns, place)
        && is_total(facts.numbers, columns, place)
}

/// Whether what is drawn for a kind is in its range.
fn are_in_range(kind: &Kind) -> bool
    ensures { result ≡ are_in_range kind.now }
{
    let leaves = leaves_of(kind);
    are_number_ranges(leaves)
        && are_date_ranges(leaves)
        && are_weighted(leaves)
        && are_skew_ranges(leaves)
        && are_length_ranges(leaves)
}

/// Whether some columns cite only dictionaries that they can cite and that are there. A name has 1 to 255 bytes, and at most 64 different
/// names are cited.
pub fn are_columns_supplied(dictionaries: &Dictionaries, columns: &[Column]) -> bool
    ensures { result ≡ are_columns_supplied dictionaries.now columns.now }
{
    are_supplied(&CitedNames::of_columns(columns), dictionaries, columns)
}

/// Whether some columns cite only names that can be cited and have a dictionary.
fn are_supplied(names: &CitedNames<'_>, dictionaries: &Dictionaries, columns: &[Column]) -> bool
    ensures { result ≡ list_all (λ column. is_supplied_kind_by names.now dictionaries.now column.kind) columns.now }
{
    columns.iter().all(|column| is_supplied_kind(names, dictionaries, &column.kind))
}

/// Returns the names of the dictionaries that some columns cite, each once, in the order of their first citations. Returns None if one can't
/// be cited. A name has 1 to 255 bytes, and at most 64 different names are cited. Refuses if memory is wanting.
pub fn column_citations(alloc: Global, columns: &[Column]) -> Result<Option<Texts>, Memory>
    ensures { IfOk result (λ names. names ≡ citable_in columns.now) }
{
    let names = CitedNames::of_columns(columns);
    if are_citable(&names, columns) {
        Ok(Some(copied_names(alloc, &names)?))
    } else {
        Ok(None)
    }
}

/// Whether some columns cite only names that can be cited.
fn are_citable(names: &CitedNames<'_>, columns: &[Column]) -> bool
    ensures { result ≡ may_cite_in names.now columns.now }
{
    columns
        .iter()
        .all(|column| is_citable_kind(names, &column.kind))
}
