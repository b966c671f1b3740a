//! Cohorts.

/// The rows that are born at one unit.
#[derive(Clone, Copy, Debug, PartialEq, Eq)]
pub struct Cohort {
    /// The ordinal of the cohort's first row, which is the number of rows that are born before the unit.
    pub first: u64,
    /// The number of the cohort's rows.
    pub size: u64,
}
