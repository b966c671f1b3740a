//! Numbers with zeros before their digits.

ghost use Rattle.std.specs.Prelude.{◌≡◌, ◌≤◌, ◌+◌, ◌++◌, drop, length, take};
ghost use Rattle.line_pages.specs.Padding.{padded, sign_size, with_zeros};

use crate::PageBuf;

/// The most zeros before a number.
const MOST: usize = 64;

/// As many zeros as can stand before a number.
const ZEROS: [u8; MOST] = [b'0'; MOST];

impl PageBuf {
    /// Fills the text from a place on with zeros up to `width` bytes, at most 64. The zeros stand after a minus sign, and before all else.
    /// A text that has as many bytes or more stays as it is. The filled text fits in the room.
    #[inline(always)]
    pub fn pad(&mut self, from: usize, width: usize)
        requires from { from ≤ length self.old.text }
        requires width { width ≤ 64 }
        requires room { from + width ≤ self.old.room }
        ensures { self.new ≡ record self.old { text = take from self.old.text ++ padded width (drop from self.old.text) } }
    {
        let missing = width.saturating_sub(self.len - from);
        if 0 < missing {
            self.put_zeros(from, missing);
        }
    }

    /// Puts zeros, at most 64, into the text from a place on. They stand after a minus sign, and before all else. They fit in the free room.
    fn put_zeros(&mut self, from: usize, zeros: usize)
        requires from { from ≤ length self.old.text }
        requires few { zeros ≤ 64 }
        requires room { length self.old.text + zeros ≤ self.old.room }
        ensures { self.new ≡ record self.old { text = take from self.old.text ++ with_zeros zeros (drop from self.old.text) } }
    {
        let digits = from + sign_size(&self.text()[from..]);
        let end = digits + zeros;
        self.bytes.copy_within(digits..self.len, end);
        self.bytes[digits..end].copy_from_slice(&ZEROS[..zeros]);
        self.len += zeros;
    }
}

/// Returns the number of bytes of the minus sign with which a text begins: 1, or 0 if it begins with none.
fn sign_size(text: &[u8]) -> usize
    ensures { result ≡ sign_size text.now }
{
    match text.first() {
        Some(b'-') => 1,
        _ => 0,
    }
}
