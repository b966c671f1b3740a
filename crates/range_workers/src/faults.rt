//! The faults of this crate.

/// Why the packages of a job weren't all written.
#[derive(Clone, Copy, Debug, PartialEq, Eq)]
pub enum RunFault {
    /// A call of the shelf failed, and its count of faults rose. The shelf holds a prefix of the due files.
    Write,
    /// Memory ran out before the first file was begun.
    Memory,
}
