//! The rows of a run, and the numbers on which its loops work.

/// The most rows of a run.
pub const RUN_LIMIT: usize = 256;

/// Rows of one table, as slices of one length. Each slice has a number for each row.
#[derive(Clone, Copy)]
pub struct RunRows<'a> {
    /// The rows' places in the order of birth in the table, from 0.
    pub ordinals: &'a [u64],
    /// The units of the rows' births.
    pub births: &'a [u64],
    /// The units of the rows' last changes; for a row that never changed, the unit of its birth.
    pub changes: &'a [u64],
}

/// The numbers on which the loops of a run work.
#[derive(Drop)]
pub struct RunNumbers {
    pub(crate) seeds: [u64; RUN_LIMIT],
    pub(crate) draws: [u64; RUN_LIMIT],
    pub(crate) entries: [u64; RUN_LIMIT],
}

impl RunNumbers {
    /// Returns room for the numbers of a run.
    pub fn new() -> RunNumbers {
        RunNumbers {
            seeds: [0; RUN_LIMIT],
            draws: [0; RUN_LIMIT],
            entries: [0; RUN_LIMIT],
        }
    }
}
