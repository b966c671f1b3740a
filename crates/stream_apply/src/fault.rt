//! Why bytes aren't applied to a table.

ghost use Rattle.std.specs.Prelude.{◌≡◌};

use out_of_memory::Memory;

/// Why bytes aren't a table's text, or not a stream for a table: what is wrong with the first line at fault. `line` is the number of that
/// line, from 1.
#[derive(Clone, Copy, Debug, PartialEq, Eq)]
pub enum ApplyFault {
    /// The line has no line feed, is no line body, or has no key: too few fields or a null one. Or it has more fields than a key where it
    /// must be a key only.
    BadLine { line: u64 },
    /// An earlier line of the same bytes has the key of this line.
    DoubleKey { line: u64 },
    /// The table holds no line with the key of this line.
    NoSuchKey { line: u64 },
    /// The table already holds a line with the key of this line.
    KeyExists { line: u64 },
    /// Memory ran out.
    Memory,
}

impl From<Memory> for ApplyFault {
    ghost use Rattle.stream_apply.specs.declared.fault.ApplyFault.TheVariants.{Memory};

    ghost from_gives = { λ _ fault. fault ≡ Memory };

    fn from(_memory: Memory) -> ApplyFault {
        ApplyFault::Memory
    }
}
