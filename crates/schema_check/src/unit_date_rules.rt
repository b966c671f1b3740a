//! What the rules ask of the dates of units.

ghost use Rattle.std.specs.Prelude.{◌≡◌, ◌*◌, ◌≤◌, ◌+ℤ◌, ◌≤ℤ◌, int_le, pos};
ghost use Rattle.schema_facts.specs.Counts.{count};
ghost use Rattle.schema_plan.specs.Rules.{are_unit_days, is_unit_date};

use crate::leaf_rules::{FIRST_DAY, LAST_DAY};
use crate::rules::MAX_UNITS;
use schema_facts::count;
use schema_model::Kind;

/// The most days from one unit to the next.
const MAX_STEP: i64 = 3_660;

/// Whether a kind keeps the rule of the dates of units, in a schema with this last unit.
pub(crate) fn is_unit_date(units: i64, kind: &Kind) -> bool
    ensures { result ≡ is_unit_date units kind.now }
{
    match kind {
        Kind::BornDate { start, step } | Kind::ChangedDate { start, step } => {
            are_unit_days(units, *start, *step)
        }
        _ => true,
    }
}

/// Whether the days from `start` on, `step` days a unit, are of the years 1 to 9999 up to the last unit. More than 10,000 units
/// break an earlier rule, and then nothing is asked of the last day.
fn are_unit_days(units: i64, start: i32, step: i64) -> bool
    ensures { result ≡ are_unit_days units start step }
{
    FIRST_DAY <= start
        && 0 <= step
        && step <= MAX_STEP
        && (units > MAX_UNITS || is_last_day(units, start, step))
}

/// Whether the day of the last unit is at most 9999-12-31.
fn is_last_day(units: i64, start: i32, step: i64) -> bool
    requires units { units ≤ℤ pos 10000 }
    requires step { step ≤ℤ pos 3660 }
    ensures { result ≡ int_le (start +ℤ pos (count step * count units)) (pos 2932896) }
{
    is_day_past(start, count(step) * count(units))
}

/// Whether the day `days` days after another is at most 9999-12-31.
fn is_day_past(start: i32, days: u64) -> bool
    requires { days ≤ 36600000 }
    ensures { result ≡ int_le (start +ℤ pos days) (pos 2932896) }
{
    i64::from(start) + days as i64 <= i64::from(LAST_DAY)
}
