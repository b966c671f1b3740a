//! A buffer with a fixed room.

ghost use Rattle.std.specs.Prelude.{◌≡◌, ◌≤◌, ◌+◌, ◌-◌, [], ◌++◌, length, take, IfOk};
ghost use Rattle.line_pages.specs.Pieces.{piece_text};

use crate::Piece;
use out_of_memory::Memory;
use std::alloc::Global;
use std::marker::Model;

/// Bytes that grow up to a room, which is set when the buffer is made. Only `with_room` takes memory.
#[derive(Drop)]
pub struct PageBuf {
    /// The text, followed by bytes that no call shows.
    pub(crate) bytes: Vec<u8>,
    pub(crate) len: usize,
    room: usize,
}

impl Model for PageBuf {
    ghost use Rattle.std.specs.Prelude.{length, take};
    ghost use Rattle.line_pages.specs.Pages.{Page, IsWithinRoom};

    ghost Value = { Page };

    ghost view = { λ p. record { text = take p.len p.bytes.items; room = p.room } };

    ghost invariant = { λ p. IsWithinRoom p.len p.room (length p.bytes.items) };
}

impl PageBuf {
    /// The number of bytes after the room. They let a piece of any length be written as `Piece::ROOM` bytes.
    const SLACK: usize = Piece::ROOM;

    /// Returns an empty buffer of `room` bytes. Returns `Memory` if memory runs out.
    pub fn with_room(alloc: Global, room: usize) -> Result<PageBuf, Memory>
        ensures { IfOk result (λ page. page ≡ record { text = []; room = room }) }
    {
        let size = room.checked_add(PageBuf::SLACK).ok_or(Memory)?;
        let bytes = Vec::from_elem(alloc, 0, size)?;
        Ok(PageBuf {
            bytes,
            len: 0,
            room,
        })
    }

    /// Appends the bytes. They fit in the free room.
    pub fn put(&mut self, bytes: &[u8])
        requires { length self.old.text + length bytes.now ≤ self.old.room }
        ensures { self.new ≡ record self.old { text = self.old.text ++ bytes.now } }
    {
        let end = self.len + bytes.len();
        self.bytes[self.len..end].copy_from_slice(bytes);
        self.len = end;
    }

    /// Appends the piece. It fits in the free room.
    #[inline(always)]
    pub fn put_piece(&mut self, piece: &Piece)
        requires { length self.old.text + length (piece_text piece.now) ≤ self.old.room }
        ensures { self.new ≡ record self.old { text = self.old.text ++ piece_text piece.now } }
    {
        self.len = piece.paste(self.bytes.as_mut_slice(), self.len);
    }

    /// Returns the bytes so far.
    pub fn text(&self) -> &[u8]
        ensures { result.now ≡ self.now.text }
    {
        &self.bytes[..self.len]
    }

    /// Keeps the first `len` bytes.
    pub fn cut(&mut self, len: usize)
        requires { len ≤ length self.old.text }
        ensures { self.new ≡ record self.old { text = take len self.old.text } }
    {
        self.len = len;
    }

    /// Empties the buffer.
    pub fn clear(&mut self)
        ensures { self.new ≡ record self.old { text = [] } }
    {
        self.len = 0;
    }

    /// Returns the number of bytes that fit in all.
    #[inline(always)]
    pub fn room(&self) -> usize
        ensures { result ≡ self.now.room }
    {
        self.room
    }

    /// Returns the number of bytes that still fit.
    pub fn free(&self) -> usize
        ensures free { length self.now.text + result ≡ self.now.room }
    {
        self.room - self.len
    }
}
