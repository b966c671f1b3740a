//! The rule on the phases of a table's births.

ghost use Rattle.std.specs.Prelude.{◌≡◌, ◌≤◌, pos};
ghost use Rattle.cohort_sizes.specs.Births.{born_count};
ghost use Rattle.schema_facts.specs.Capped.{capped};
ghost use Rattle.schema_facts.specs.Layout.{births_of};
ghost use Rattle.schema_plan.specs.Rules.{are_phases, do_phases_rise, is_row_count};

use crate::rules::MAX_UNITS;
use schema_facts::count;
use schema_model::{Phase, Table};
use schema_plan::cohort_size;

/// The most phases of a table.
const MAX_PHASES: usize = 64;

/// The last unit at which a phase can begin.
const MAX_BEGIN: i64 = 10_000;

/// The most rows that can be born in a table up to the last unit.
const MAX_ROWS: u64 = 1 << 40;

/// Whether a table keeps the rule of births: no number is negative, the phases rise, and at most 2^40 rows are born by the last unit. If the
/// last unit is past the greatest, the rows aren't counted.
pub(crate) fn is_row_count(units: i64, table: &Table) -> bool
    ensures { result ≡ is_row_count units table.now }
{
    0 <= table.rows
        && are_phases(table.insert.as_slice())
        && (MAX_UNITS < units || rows_by(count(units), table) <= MAX_ROWS)
}

/// Returns how many rows of a table are born by a unit.
fn rows_by(unit: u64, table: &Table) -> u64
    requires { unit ≤ 10000 }
    ensures { result ≡ capped (born_count (births_of table.now) unit) }
{
    let mut rows: u64 = 0;
    for born in 0..unit + 1 {
        rows = rows.saturating_add(cohort_size(table, born));
    }
    rows
}

/// Whether there are 1 to 64 phases, the first begins at unit 1, and they rise.
fn are_phases(phases: &[Phase]) -> bool
    ensures { result ≡ are_phases phases.now }
{
    match phases.first() {
        Some(first) => first.from == 1 && phases.len() <= MAX_PHASES && do_phases_rise(phases),
        None => false,
    }
}

/// Whether each phase begins after the one before it. The first begins after unit 0, none begins too late, and no rate is
/// negative.
fn do_phases_rise(phases: &[Phase]) -> bool
    ensures { result ≡ do_phases_rise (pos 0) phases.now }
{
    let mut before = 0;
    for phase in phases {
        if phase.from <= before || MAX_BEGIN < phase.from || phase.rate < 0 {
            return false;
        }
        before = phase.from;
    }
    true
}
