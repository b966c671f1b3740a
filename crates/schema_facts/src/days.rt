//! The days that dated columns show.

ghost use Rattle.std.specs.Prelude.{◌≡◌, ◌+ℤ◌, ◌*◌, List, map, pos};
ghost use Rattle.schema_facts.specs.Counts.{count};
ghost use Rattle.schema_facts.specs.Days.{days_after, days_between, days_in, days_of_kind, days_of_leaf, in_calendar};
ghost use Rattle.schema_facts.specs.Dictionaries.{Dictionary};
ghost use Rattle.schema_facts.specs.Layout.{kind_layout, leaf_layout};

use crate::column_facts::{FactsBefore, facts_looked_up, facts_named};
use crate::counts::count;
use schema_model::{Kind, Leaf};

/// The day 0001-01-01.
const FIRST_DAY: i64 = -719_162;

/// The day 9999-12-31.
const LAST_DAY: i64 = 2_932_896;

/// The days that the fields of a column show. Day 0 is 1970-01-01.
#[derive(Clone, Copy, Debug, PartialEq, Eq)]
pub struct Days {
    /// The first day that a field can show.
    pub least: i32,
    /// The last day that a field can show.
    pub greatest: i32,
}

/// Returns the days of a column of a kind, in a schema with this last unit. Returns None if the kind isn't dated.
pub(crate) fn days_of_kind(units: u64, before: &FactsBefore<'_>, kind: &Kind) -> Option<Days>
    ensures { (dictionaries : List Dictionary) → result ≡ days_of_kind units (map (λ facts. facts.columns) before.now.earlier.now) before.now.columns.now
        (kind_layout dictionaries before.now.tables.now before.now.table.now.columns kind.now) }
{
    match kind {
        Kind::Leaf(leaf) => days_of_leaf(leaf),
        Kind::BornDate { start, step } | Kind::ChangedDate { start, step } => {
            days_of_units(units, *start, *step)
        }
        Kind::Lookup { via, column } => facts_looked_up(before, via, column).days,
        Kind::After { of, lo, hi } => days_after(*lo, *hi, facts_named(before, of).days?),
        _ => None,
    }
}

/// Returns the days of a drawn value, or None if it isn't a date.
fn days_of_leaf(leaf: &Leaf) -> Option<Days>
    ensures { (dictionaries : List Dictionary) → result ≡ days_of_leaf (leaf_layout dictionaries leaf.now) }
{
    match leaf {
        Leaf::Date { lo, hi } => {
            days_in(in_calendar(i64::from(*lo)), in_calendar(i64::from(*hi)))
        }
        _ => None,
    }
}

/// Returns the days of the units up to a last one, from `start` on, `step` days a unit.
fn days_of_units(units: u64, start: i32, step: i64) -> Option<Days>
    ensures { result ≡ days_between start (start +ℤ pos (count step * units)) }
{
    days_in(
        in_calendar(i64::from(start)),
        day_of_unit(start, count(step), units),
    )
}

/// Returns the day of a unit. Returns None if it isn't of the years 1 to 9999.
fn day_of_unit(start: i32, step: u64, unit: u64) -> Option<i32>
    ensures { result ≡ in_calendar (start +ℤ pos (step * unit)) }
{
    day_past(start, step.checked_mul(unit)?)
}

/// Returns the day that is `days` days after another. Returns None if it isn't of the years 1 to 9999.
fn day_past(day: i32, days: u64) -> Option<i32>
    ensures { result ≡ in_calendar (day +ℤ pos days) }
{
    if days > i64::MAX as u64 {
        return None;
    }
    day_after(day, days as i64)
}

/// Returns the days from `lo` to `hi` days after others.
fn days_after(lo: i64, hi: i64, days: Days) -> Option<Days>
    ensures { result ≡ days_after lo hi days }
{
    days_in(day_after(days.least, lo), day_after(days.greatest, hi))
}

/// Returns the day that is `days` days after another. Returns None if it isn't of the years 1 to 9999.
fn day_after(day: i32, days: i64) -> Option<i32>
    ensures { result ≡ in_calendar (day +ℤ days) }
{
    in_calendar(i64::from(day).checked_add(days)?)
}

/// Returns a day. Returns None if it isn't of the years 1 to 9999.
fn in_calendar(day: i64) -> Option<i32>
    ensures { result ≡ in_calendar day }
{
    if FIRST_DAY <= day && day <= LAST_DAY {
        Some(day as i32)
    } else {
        None
    }
}

/// Returns the days between two ends. Returns None if an end isn't in the calendar, or if they are in the wrong order.
fn days_in(least: Option<i32>, greatest: Option<i32>) -> Option<Days>
    ensures { result ≡ days_in least greatest }
{
    let least = least?;
    let greatest = greatest?;
    if least > greatest {
        return None;
    }
    Some(Days { least, greatest })
}
