//! Which statements are made.

/// Which statements are made, and of which rows.
#[derive(Clone, Copy, Debug)]
pub enum Stated<'a> {
    /// The insertions of the rows with ordinals from `from` up to the one before `to` that are alive at a unit.
    Inserted { from: u64, to: u64, unit: u64 },
    /// The deletions of the rows of these ordinals.
    Deleted { ordinals: &'a [u64] },
    /// The updates of the rows of these ordinals, as they are at a unit. A table that has only its key has none.
    Updated { ordinals: &'a [u64], unit: u64 },
}
