//! Why bytes give no dictionary.

ghost use Rattle.std.specs.Prelude.{◌≡◌};
ghost use Rattle.dictionaries.specs.declared.fault.DictFault.TheVariants as dict_fault;

use out_of_memory::Memory;
use std::alloc::{AllocError, AllocFailed};
use thiserror::Error;

/// Why bytes give no dictionary. Lines count from 1, empty lines too.
#[derive(Clone, Copy, Debug, PartialEq, Eq, Error)]
pub enum DictFault {
    /// The bytes aren't UTF-8.
    #[error("not UTF-8 at byte {at}")]
    NotUtf8 {
        /// The length of the longest prefix that is UTF-8, in bytes.
        at: u64,
    },
    /// A text is longer than 255 bytes.
    #[error("long entry at line {line}")]
    LongEntry {
        /// The number of the text's line.
        line: u64,
    },
    /// The part of a line after its first tab isn't one to seven decimal digits with a value from 1 to 1,000,000.
    #[error("bad weight at line {line}")]
    BadWeight {
        /// The number of the line.
        line: u64,
    },
    /// There are more than 1,000,000 entries.
    #[error("too many entries at line {line}")]
    TooMany {
        /// The number of the line with entry 1,000,001.
        line: u64,
    },
    /// There is no entry.
    #[error("empty")]
    Empty,
    /// Memory ran out.
    #[error("out of memory")]
    Memory,
}

impl From<AllocError> for DictFault {
    ghost from_gives = { λ _ fault. fault ≡ dict_fault.Memory };

    fn from(_error: AllocError) -> DictFault {
        DictFault::Memory
    }
}

impl<T: Drop> From<AllocFailed<T>> for DictFault {
    ghost from_gives = { λ _ fault. fault ≡ dict_fault.Memory };

    fn from(_error: AllocFailed<T>) -> DictFault {
        DictFault::Memory
    }
}

impl From<Memory> for DictFault {
    ghost from_gives = { λ _ fault. fault ≡ dict_fault.Memory };

    fn from(_error: Memory) -> DictFault {
        DictFault::Memory
    }
}
