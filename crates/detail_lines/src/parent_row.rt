//! Rows of the parent.

/// What the lines of a row follow from: its key, its ordinal, and the units of its birth and of its last change.
/// Keys alone need no change.
#[derive(Clone, Copy, Debug)]
pub(crate) struct ParentRow {
    pub(crate) key: u64,
    pub(crate) ordinal: u64,
    pub(crate) born: u64,
    pub(crate) changed: u64,
}

/// Rows as four lists. Each row has one place in all of them.
#[derive(Clone, Copy)]
pub struct ParentRows<'a> {
    /// The rows' keys.
    pub keys: &'a [u64],
    /// The rows' places in the order of birth in the parent, from 0.
    pub ordinals: &'a [u64],
    /// The units of the rows' births.
    pub births: &'a [u64],
    /// The units of the rows' last changes; for a row that never changed, the unit of its birth. Not read where lines are made as keys only.
    pub changes: &'a [u64],
}

impl<'a> ParentRows<'a> {
    ghost use Rattle.std.specs.Prelude.{◌≡◌, ◌<◌, ◌≤◌, ◌+◌, ◌-◌, ℕ};
    ghost use Rattle.detail_lines.specs.Made.{AreMany, row_of};

    /// Returns the row at place `i` of `many`.
    #[inline(always)]
    pub(crate) fn row(&self, i: usize, many: usize) -> ParentRow
        requires many { AreMany many self.now }
        requires within { i < many }
        ensures { result ≡ row_of self.now i }
    {
        let _ = many;
        ParentRow {
            key: self.keys[i],
            ordinal: self.ordinals[i],
            born: self.births[i],
            changed: self.changes[i],
        }
    }

    /// Returns the rows from the place `first` up to the one before `end`, of `many`.
    pub(crate) fn part(&self, first: usize, end: usize, many: usize) -> ParentRows<'a>
        requires many { AreMany many self.now }
        requires ordered { first ≤ end }
        requires within { end ≤ many }
        ensures many { AreMany (end - first) result }
        ensures rows { (i : ℕ) → i < end - first → row_of result i ≡ row_of self.now (first + i) }
    {
        let _ = many;
        ParentRows {
            keys: &self.keys[first..end],
            ordinals: &self.ordinals[first..end],
            births: &self.births[first..end],
            changes: &self.changes[first..end],
        }
    }
}
