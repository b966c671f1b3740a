//! A short text in an array.

ghost use Rattle.std.specs.Prelude.{◌≡◌, ◌≤◌, ◌+◌, [], ◌++◌, length};

use std::marker::Model;

/// A text of up to 512 bytes that takes no memory.
#[derive(Drop)]
pub struct Message {
    bytes: [u8; Message::ROOM],
    len: usize,
}

impl Model for Message {
    ghost use Rattle.std.specs.Prelude.{◌≤◌, ℕ, List, take};

    ghost Value = { List ℕ };

    ghost view = { λ m. take m.len m.bytes };

    ghost invariant = { λ m. m.len ≤ 512 };
}

impl Message {
    /// The most bytes that a message can hold.
    pub const ROOM: usize = 512;

    /// Returns an empty message.
    pub fn new() -> Message
        ensures { result ≡ [] }
    {
        Message {
            bytes: [0; Message::ROOM],
            len: 0,
        }
    }

    /// Appends the bytes, which must fit.
    pub fn put(&mut self, bytes: &[u8])
        requires { length self.old + length bytes.now ≤ Message.ROOM }
        ensures { self.new ≡ self.old ++ bytes.now }
    {
        let end = self.len + bytes.len();
        self.bytes[self.len..end].copy_from_slice(bytes);
        self.len = end;
    }

    /// Returns the bytes so far.
    pub fn text(&self) -> &[u8]
        ensures text { result.now ≡ self.now }
        ensures within { length result.now ≤ Message.ROOM }
    {
        &self.bytes[..self.len]
    }
}
