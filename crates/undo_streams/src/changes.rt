//! What a unit changes in a table.

use life_intervals::Cohort;

/// What a unit changes in a table, as its undo text tells it. Rows are ordinals in rising order.
#[derive(Clone, Copy)]
pub struct Changes<'a> {
    /// The rows that the unit deletes.
    pub deleted: &'a [u64],
    /// The place, from 0, of each deleted row among the rows that the table holds at the unit before.
    pub places: &'a [u64],
    /// The rows that the unit updates.
    pub updated: &'a [u64],
    /// The cohort that the unit inserts.
    pub inserted: Cohort,
}
