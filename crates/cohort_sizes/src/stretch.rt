//! Stretches of units with one number of births at each unit.

use fixed_divisors::FixedDivisor;

/// Consecutive units with one number of births at each unit.
#[derive(Clone, Copy, Debug)]
pub(crate) struct Stretch {
    /// The first unit.
    pub from: u64,
    /// The unit after the last.
    pub until: u64,
    /// The ordinal of the first row that is born in the stretch.
    pub first: u64,
    /// The ordinal after that of the last row that is born in the stretch.
    pub end: u64,
    /// The number of rows that are born at each unit.
    pub size: u64,
    /// The divisor by the number of rows that are born at each unit; by 1 if that number is 0.
    pub divisor: FixedDivisor,
}
