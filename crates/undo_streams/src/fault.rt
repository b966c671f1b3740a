//! Why a table isn't reverted.

ghost use Rattle.std.specs.Prelude.{◌≡◌};

use out_of_memory::Memory;
use stream_apply::ApplyFault;

/// Why bytes aren't a table's text, or an undo text that applies to it: what is wrong with the first line at fault. `line` is the number of
/// that line, from 1.
#[derive(Clone, Copy, Debug, PartialEq, Eq)]
pub enum RevertFault {
    /// The line has no line feed, is no line of a table or of an undo text, or comes after a line of a later part.
    BadLine { line: u64 },
    /// An earlier line of the same bytes has the key of this line.
    DoubleKey { line: u64 },
    /// The line drops or sets a key that the table doesn't hold.
    NoSuchKey { line: u64 },
    /// The line adds a key that the table already holds.
    KeyExists { line: u64 },
    /// The place at which the line is added isn't greater than that of the line added before, or is greater than the length of the list.
    BadPlace { line: u64 },
    /// Memory ran out.
    Memory,
}

impl From<Memory> for RevertFault {
    ghost use Rattle.undo_streams.specs.declared.fault.RevertFault.TheVariants.{Memory};

    ghost from_gives = { λ _ fault. fault ≡ Memory };

    fn from(_memory: Memory) -> RevertFault {
        RevertFault::Memory
    }
}

impl From<ApplyFault> for RevertFault {
    ghost use Rattle.undo_streams.specs.Reverting.{revert_fault_of};

    ghost from_gives = { λ applied fault. fault ≡ revert_fault_of applied };

    fn from(applied: ApplyFault) -> RevertFault {
        match applied {
            ApplyFault::BadLine { line } => RevertFault::BadLine { line },
            ApplyFault::DoubleKey { line } => RevertFault::DoubleKey { line },
            ApplyFault::NoSuchKey { line } => RevertFault::NoSuchKey { line },
            ApplyFault::KeyExists { line } => RevertFault::KeyExists { line },
            ApplyFault::Memory => RevertFault::Memory,
        }
    }
}
