//! Rates of birth.

/// How many rows are born at each unit, from a unit on until another rate begins.
#[derive(Clone, Copy, Debug, PartialEq, Eq)]
pub struct Rate {
    /// The rate's first unit.
    pub from: u64,
    /// The number of rows that are born at each unit.
    pub rows: u64,
}
