//! Rows of a table, found by their ordinals or in their cohorts.

ghost use Rattle.std.specs.Prelude.{◌≡◌, ◌<◌, ◌≤◌, length};
ghost use Rattle.cohort_sizes.specs.Births.{cohort_size};
ghost use Rattle.life_intervals.specs.Found.{IsFound};
ghost use Rattle.life_intervals.specs.Generator.{last_unit, rows_in_all, table_of};

use crate::births::{birth, cohort};
use schema_plan::Plan;

/// A found row of a table. Its birth is worked out once.
#[derive(Clone, Copy, Debug, PartialEq, Eq)]
pub struct FoundRow {
    /// The row's place in the order of birth in its table, from 0.
    pub ordinal: u64,
    /// The unit of the row's birth.
    pub born: u64,
    /// The row's place in its cohort, from 0.
    pub index: u64,
}

/// Returns the row of ordinal `j`.
#[inline]
pub fn find(plan: &Plan, table: u32, j: u64) -> FoundRow
    requires table { table < length plan.now.schema.tables }
    requires row { j < rows_in_all plan.now table }
    ensures found { IsFound plan.now table result }
    ensures ordinal { result.ordinal ≡ j }
{
    let born = birth(plan, table, j);
    FoundRow {
        ordinal: j,
        born,
        index: j - cohort(plan, table, born).first,
    }
}

/// Returns the row with an index in the cohort of unit `born`.
#[inline]
pub fn row_of_cohort(plan: &Plan, table: u32, born: u64, index: u64) -> FoundRow
    requires table { table < length plan.now.schema.tables }
    requires unit { born ≤ last_unit plan.now }
    requires row { index < cohort_size (table_of plan.now table).births born }
    ensures found { IsFound plan.now table result }
    ensures born { result.born ≡ born }
    ensures index { result.index ≡ index }
{
    FoundRow {
        ordinal: cohort(plan, table, born).first + index,
        born,
        index,
    }
}
