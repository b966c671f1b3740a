//! What the rules ask of sums and products.

ghost use Rattle.std.specs.Prelude.{◌≡◌, ◌<◌, length};
ghost use Rattle.schema_plan.specs.Rules.{are_still_names, is_total, joins, kind_at};

use crate::column_rules::is_moving;
use schema_facts::Numbers;
use schema_model::{Column, Kind, Text};

/// The most operands of a sum.
const MAX_SUMMANDS: usize = 8;

/// The fewest operands of a product.
const MIN_FACTORS: usize = 2;

/// The most operands of a product.
const MAX_FACTORS: usize = 4;

/// Whether the column at a place keeps the rule of sums and products. Such a column has numbers: each operand is an earlier numeric column,
/// and nothing leaves the range. No operand moves, unless the column changes itself.
pub(crate) fn is_total(numbers: Option<Numbers>, columns: &[Column], place: usize) -> bool
    requires { place < length columns.now }
    ensures { result ≡ is_total numbers columns.now place (kind_at columns.now place) }
{
    match &columns[place].kind {
        Kind::Sum { of } => {
            1 <= of.len()
                && of.len() <= MAX_SUMMANDS
                && joins(numbers, columns, place, of.as_slice())
        }
        Kind::Product { of } => {
            MIN_FACTORS <= of.len()
                && of.len() <= MAX_FACTORS
                && joins(numbers, columns, place, of.as_slice())
        }
        _ => true,
    }
}

/// Whether the column at a place has numbers, and joins no column that moves unless it changes itself.
fn joins(numbers: Option<Numbers>, columns: &[Column], place: usize, of: &[Text]) -> bool
    requires { place < length columns.now }
    ensures { result ≡ joins numbers columns.now place of.now }
{
    numbers.is_some() && (columns[place].changes || are_still_names(columns, of))
}

/// Whether none of some names is that of a column that moves.
fn are_still_names(columns: &[Column], names: &[Text]) -> bool
    ensures { result ≡ are_still_names columns.now names.now }
{
    names.iter().all(|name| !is_moving(columns, name))
}
