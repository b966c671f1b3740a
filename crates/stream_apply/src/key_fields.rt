//! Which fields of a line are its key.

ghost use Rattle.std.specs.Prelude.{◌≡◌};
ghost use Rattle.stream_apply.specs.Streams.{key_count};

/// The number of fields at the front of a line that are its key.
#[derive(Clone, Copy, Debug, PartialEq, Eq)]
pub enum KeyFields {
    /// The first field.
    One,
    /// The first two fields.
    Two,
}

impl KeyFields {
    /// Returns the number of fields.
    pub(crate) fn count(self) -> usize
        ensures { result ≡ key_count self }
    {
        match self {
            KeyFields::One => 1,
            KeyFields::Two => 2,
        }
    }
}
