//! Numbers onto a page.

ghost use Rattle.std.specs.Prelude.{◌≡◌, ◌≤◌, ◌<◌, ◌+◌, ◌^◌, ◌++◌, length, decimal};
ghost use Rattle.std.specs.Fmt.{signed_decimal};

use crate::{PageBuf, Piece};
use itoa::Buffer;

/// The first number with too many digits for a piece.
const LONG: u64 = 1_000_000_000_000_000;

impl PageBuf {
    /// Appends a number in decimal. It fits in the free room.
    #[inline(always)]
    pub fn put_number(&mut self, number: u64)
        requires { length self.old.text + length (decimal number) ≤ self.old.room }
        ensures { self.new ≡ record self.old { text = self.old.text ++ decimal number } }
    {
        if number < LONG {
            self.put_piece(&Piece::of_number(number));
        } else {
            self.put_long_number(number);
        }
    }

    /// Appends a number in decimal, with a minus sign if it is negative. It fits in the free room.
    #[inline(always)]
    pub fn put_signed(&mut self, number: i64)
        requires { length self.old.text + length (signed_decimal number) ≤ self.old.room }
        ensures { self.new ≡ record self.old { text = self.old.text ++ signed_decimal number } }
    {
        if number < 0 {
            self.put_piece(&Piece::of_byte(b'-'));
        }
        self.put_number(number.unsigned_abs());
    }

    #[inline(never)]
    fn put_long_number(&mut self, number: u64)
        requires { length self.old.text + length (decimal number) ≤ self.old.room }
        ensures { self.new ≡ record self.old { text = self.old.text ++ decimal number } }
    {
        let mut digits = Buffer::new();
        self.put(digits.format(number).as_bytes());
    }
}
