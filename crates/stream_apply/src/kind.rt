//! What bytes hold.

ghost use Rattle.std.specs.Prelude.{◌≡◌};
ghost use Rattle.stream_apply.specs.InTurn.{next_kind};
ghost use Rattle.stream_apply.specs.Streams as streams;

/// What bytes hold: a table's own lines, or the lines of a stream for the table.
#[derive(Clone, Copy, Debug, PartialEq, Eq)]
pub enum InputKind {
    /// The lines of a table.
    Snapshot,
    /// The keys of lines that are dropped, one key a line.
    Deletes,
    /// Lines that replace the lines with their keys.
    Updates,
    /// Lines that are appended to the table.
    Inserts,
}

impl InputKind {
    /// Tells whether each line is only a key.
    pub(crate) fn holds_keys_alone(self) -> bool
        ensures { result ≡ streams.holds_keys_alone self }
    {
        matches!(self, InputKind::Deletes)
    }

    /// Tells whether the table must hold the key of each line. If not, it must hold none of them.
    pub fn wants_held(self) -> bool
        ensures { result ≡ streams.wants_held self }
    {
        matches!(self, InputKind::Deletes | InputKind::Updates)
    }

    /// Returns the kind of the bytes that are applied next.
    pub(crate) fn next(self) -> InputKind
        ensures { result ≡ next_kind self }
    {
        match self {
            InputKind::Snapshot => InputKind::Deletes,
            InputKind::Deletes => InputKind::Updates,
            InputKind::Updates => InputKind::Inserts,
            InputKind::Inserts => InputKind::Deletes,
        }
    }
}
