//! How many rows are born, and when.

ghost use Rattle.std.specs.Prelude.{◌≡◌, ◌<◌, ◌≤◌, ◌^◌, length};
ghost use Rattle.cohort_sizes.specs.Births.{LiesIn, birth, born_count};
ghost use Rattle.life_intervals.specs.CohortKeys.{IsCohort};
ghost use Rattle.life_intervals.specs.Generator.{last_unit, rows_in_all, table_of};

use cohort_sizes::Cohort;
use schema_plan::Plan;

/// Returns how many rows of a table are born in the units 0 to `t`.
#[inline]
pub fn born(plan: &Plan, table: u32, t: u64) -> u64
    requires table { table < length plan.now.schema.tables }
    requires unit { t ≤ last_unit plan.now }
    ensures count { result ≡ born_count (table_of plan.now table).births t }
    ensures limit { result ≤ 2 ^ 40 }
{
    plan.cohorts(table).born(t)
}

/// Returns the rows of a table that are born at unit `b`.
#[inline]
pub fn cohort(plan: &Plan, table: u32, b: u64) -> Cohort
    requires table { table < length plan.now.schema.tables }
    requires unit { b ≤ last_unit plan.now }
    ensures { IsCohort plan.now table b result }
{
    plan.cohorts(table).cohort(b)
}

/// Returns the unit at which the row of ordinal `j` is born: the unit whose cohort has the row.
#[inline]
pub fn birth(plan: &Plan, table: u32, j: u64) -> u64
    requires table { table < length plan.now.schema.tables }
    requires row { j < rows_in_all plan.now table }
    ensures unit { result ≡ birth (table_of plan.now table).births (last_unit plan.now) j }
    ensures within { result ≤ last_unit plan.now }
    ensures lies { LiesIn (table_of plan.now table).births result j }
{
    plan.cohorts(table).birth(j)
}
