//! The numbers that numeric columns hold.

ghost use Rattle.std.specs.Prelude.{◌≡◌, ◌≤◌, IfSome, List, map};
ghost use Rattle.schema_facts.specs.Dictionaries.{Dictionary};
ghost use Rattle.schema_facts.specs.Layout.{kind_layout, leaf_layout, place_of_column};
ghost use Rattle.schema_facts.specs.Numbers.{decimals_of, drawn_numbers, greater, in_range, joined, lesser, most_decimals, numbers_of_kind, numbers_of_leaf, operands, plus, product_end, product_of, start_from, sum_end, sum_of, times};

use crate::column_facts::{FactsBefore, facts_looked_up, facts_named};
use crate::counts::count;
use schema_model::{Kind, Leaf, Text};

/// The most digits after the point of a sum or a product.
const MAX_DECIMALS: u64 = 9;

/// The most drawn values that are read to make a sum or a product.
const MAX_READS: u64 = 64;

/// The numbers that the fields of a column hold, as they stand without the point.
#[derive(Clone, Copy, Debug, PartialEq, Eq)]
pub struct Numbers {
    /// The number of digits after the point.
    pub decimals: u64,
    /// The least number.
    pub least: i64,
    /// The greatest number.
    pub greatest: i64,
    /// How many drawn values are read to make a number.
    pub reads: u64,
}

/// Returns the numbers of a column of a kind, or None if the kind isn't numeric.
pub(crate) fn numbers_of_kind(before: &FactsBefore<'_>, kind: &Kind) -> Option<Numbers>
    ensures { (dictionaries : List Dictionary) → result ≡ numbers_of_kind (map (λ facts. facts.columns) before.now.earlier.now) before.now.columns.now
        (kind_layout dictionaries before.now.tables.now before.now.table.now.columns kind.now) }
{
    match kind {
        Kind::Leaf(leaf) => numbers_of_leaf(leaf),
        Kind::Lookup { via, column } => facts_looked_up(before, via, column).numbers,
        Kind::Sum { of } => sum_of(before, of.as_slice()),
        Kind::Product { of } => product_of(before, of.as_slice()),
        _ => None,
    }
}

/// Returns the numbers of a drawn value, or None if it isn't a number.
fn numbers_of_leaf(leaf: &Leaf) -> Option<Numbers>
    ensures { (dictionaries : List Dictionary) → result ≡ numbers_of_leaf (leaf_layout dictionaries leaf.now) }
{
    match leaf {
        Leaf::Int { lo, hi, .. } => Some(drawn_numbers(0, *lo, *hi)),
        Leaf::Fixed { lo, hi, decimals } => Some(drawn_numbers(count(*decimals), *lo, *hi)),
        Leaf::Skew { lo, size, .. } => {
            let last = lo.checked_add((*size).max(1) - 1)?;
            Some(drawn_numbers(0, *lo, last))
        }
        _ => None,
    }
}

/// Returns the numbers from a least to a greatest one, each read from one drawn value.
fn drawn_numbers(decimals: u64, least: i64, greatest: i64) -> Numbers
    ensures { result ≡ drawn_numbers decimals least greatest }
{
    Numbers {
        decimals,
        least,
        greatest,
        reads: 1,
    }
}

/// Returns the one number from which operands are joined.
fn start_from(decimals: u64, number: i64) -> Numbers
    ensures { result ≡ start_from decimals number }
{
    Numbers {
        decimals,
        least: number,
        greatest: number,
        reads: 0,
    }
}

/// Returns the numbers of a sum, or None if its rule is broken.
fn sum_of(before: &FactsBefore<'_>, names: &[Text]) -> Option<Numbers>
    ensures { result ≡ sum_of (operands before.now.columns.now (map (place_of_column before.now.table.now.columns) names.now)) }
{
    let decimals = most_decimals(before, names);
    if decimals > MAX_DECIMALS {
        return None;
    }
    let mut sum = start_from(decimals, 0);
    for name in names {
        sum = plus(sum, facts_named(before, name).numbers?)?;
    }
    Some(sum)
}

/// Returns the numbers of a product, or None if its rule is broken.
fn product_of(before: &FactsBefore<'_>, names: &[Text]) -> Option<Numbers>
    ensures { result ≡ product_of (operands before.now.columns.now (map (place_of_column before.now.table.now.columns) names.now)) }
{
    let mut product = start_from(0, 1);
    for name in names {
        product = times(product, facts_named(before, name).numbers?)?;
    }
    Some(product)
}

/// Returns the most digits after the point of any of some named columns.
fn most_decimals(before: &FactsBefore<'_>, names: &[Text]) -> u64
    ensures { result ≡ most_decimals (operands before.now.columns.now (map (place_of_column before.now.table.now.columns) names.now)) }
{
    let mut most = 0;
    for name in names {
        most = most.max(decimals_of(facts_named(before, name).numbers));
    }
    most
}

/// Returns the number of digits after the point of an operand. It is 0 if the operand isn't numeric.
fn decimals_of(operand: Option<Numbers>) -> u64
    ensures { result ≡ decimals_of operand }
{
    match operand {
        Some(numbers) => numbers.decimals,
        None => 0,
    }
}

/// Returns a sum so far with one more operand, or None if that breaks the rule.
fn plus(sum: Numbers, operand: Numbers) -> Option<Numbers>
    requires { sum.decimals ≤ 9 }
    ensures value { result ≡ plus sum operand }
    ensures digits { IfSome result (λ after. after.decimals ≡ sum.decimals) }
{
    let more = sum.decimals.saturating_sub(operand.decimals);
    joined(
        sum.decimals,
        sum_end(more, sum.least, operand.least),
        sum_end(more, sum.greatest, operand.greatest),
        sum.reads.saturating_add(operand.reads),
    )
}

/// Returns an end of a sum so far with that of one more operand, which has `more` digits more in the sum. Returns None if one leaves the
/// range.
fn sum_end(more: u64, sum: i64, end: i64) -> Option<i64>
    requires { more ≤ 9 }
    ensures { result ≡ sum_end more sum end }
{
    let scaled = in_range(end.checked_mul(10i64.pow(more as u32))?)?;
    in_range(sum.checked_add(scaled)?)
}

/// Returns a product so far with one more operand, or None if that breaks the rule.
fn times(product: Numbers, operand: Numbers) -> Option<Numbers>
    ensures { result ≡ times product operand }
{
    let a = product_end(product.least, operand.least);
    let b = product_end(product.least, operand.greatest);
    let c = product_end(product.greatest, operand.least);
    let d = product_end(product.greatest, operand.greatest);
    joined(
        product.decimals.saturating_add(operand.decimals),
        lesser(lesser(a, b), lesser(c, d)),
        greater(greater(a, b), greater(c, d)),
        product.reads.saturating_add(operand.reads),
    )
}

/// Returns an end of a product so far times one of one more operand. Returns None if one leaves the range.
fn product_end(product: i64, end: i64) -> Option<i64>
    ensures { result ≡ product_end product end }
{
    let end = in_range(end)?;
    in_range(product.checked_mul(end)?)
}

/// Returns a number, or None if it is the least of 64 bits.
fn in_range(number: i64) -> Option<i64>
    ensures { result ≡ in_range number }
{
    if number == i64::MIN {
        None
    } else {
        Some(number)
    }
}

/// Returns the lesser of two numbers, or None if one is out of range.
fn lesser(one: Option<i64>, other: Option<i64>) -> Option<i64>
    ensures { result ≡ lesser one other }
{
    Some(one?.min(other?))
}

/// Returns the greater of two numbers, or None if one is out of range.
fn greater(one: Option<i64>, other: Option<i64>) -> Option<i64>
    ensures { result ≡ greater one other }
{
    Some(one?.max(other?))
}

/// Returns the numbers between two ends. Returns None if an end is out of range, or if there are too many digits after the point or
/// too many reads.
fn joined(decimals: u64, least: Option<i64>, greatest: Option<i64>, reads: u64) -> Option<Numbers>
    ensures { result ≡ joined decimals least greatest reads }
{
    let least = least?;
    let greatest = greatest?;
    if decimals > MAX_DECIMALS || reads > MAX_READS {
        return None;
    }
    Some(Numbers {
        decimals,
        least,
        greatest,
        reads,
    })
}
