//! When files are synced.

/// When a finished file is on its device: at its end, or when the system writes it there.
#[derive(Clone, Copy, Debug, PartialEq, Eq)]
pub enum Syncing {
    /// A file is synced at its end, if the system can sync it. An error that a device tells late is told then.
    AtEnd,
    /// Files aren't synced.
    Never,
}
