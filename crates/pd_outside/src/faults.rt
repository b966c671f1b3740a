//! The faults of the outside. Want of memory is always a cause of its own.

ghost use Rattle.std.specs.Prelude.{◌≡◌};
ghost use Rattle.pd_outside.specs.declared.faults.ReadFault.TheVariants as fault;

use std::alloc::AllocError;
use thiserror::Error;

/// A call of a `Library` or a `Shelf` failed: its count of faults rose.
#[derive(Clone, Copy, Debug, PartialEq, Eq)]
pub struct Failed;

/// A write failed: the shelf's count of faults rose, and a prefix of the bytes was written.
#[derive(Clone, Copy, Debug, PartialEq, Eq)]
pub struct WriteFailed;

/// Why a whole file wasn't read.
#[derive(Clone, Copy, Debug, PartialEq, Eq, Error)]
pub enum ReadFault {
    /// A call of the library failed: its count of faults rose.
    #[error("read failed")]
    Failed,
    /// The file is longer than the limit.
    #[error("too long")]
    TooLong,
    /// Memory ran out.
    #[error("out of memory")]
    Memory,
}

impl From<AllocError> for ReadFault {
    ghost from_gives = { λ _ e. e ≡ fault.Memory };

    fn from(_: AllocError) -> Self {
        ReadFault::Memory
    }
}
