//! Short texts in a word.

ghost use Rattle.std.specs.Prelude.{◌≡◌, ◌<◌, ◌≤◌, ◌+◌, ◌-◌, ◌^◌, [], ◌∷◌, ◌++◌, length, take, drop, decimal};
ghost use Rattle.std.specs.Fmt.{signed_decimal};

/// A text of at most `Piece::ROOM` bytes. It is copied as fast as a number.
#[derive(Clone, Copy)]
pub struct Piece {
    /// The bytes, the first one lowest.
    word: u128,
    /// The number of bytes.
    len: u64,
    ghost short: { len ≤ 16 },
    ghost fits: { word < 256 ^ len },
}

impl Piece {
    ghost use Rattle.line_pages.specs.Pieces.{low_bytes, piece_text};

    /// The most bytes of a piece, such as a number of 15 digits and a delimiter.
    pub const ROOM: usize = 16;

    /// Returns a piece without bytes.
    #[inline(always)]
    pub fn new() -> Piece
        ensures { piece_text result ≡ [] }
    {
        Piece { word: 0, len: 0 }
    }

    /// Returns a piece of bytes, which fit.
    #[inline]
    pub fn of(bytes: &[u8]) -> Piece
        requires { length bytes.now ≤ Piece.ROOM }
        ensures { piece_text result ≡ bytes.now }
    {
        let mut piece = Piece::new();
        for i in 0..bytes.len() {
            piece = piece.prepend(bytes[bytes.len() - 1 - i]);
        }
        piece
    }

    /// Returns a piece of one byte.
    #[inline(always)]
    pub fn of_byte(byte: u8) -> Piece
        ensures { piece_text result ≡ byte ∷ [] }
    {
        Piece::new().prepend(byte)
    }

    /// Returns a number of at most 15 digits in decimal.
    #[inline(always)]
    pub fn of_number(number: u64) -> Piece
        requires { number < 10 ^ 15 }
        ensures { piece_text result ≡ decimal number }
    {
        Piece::new().prepend_number(number)
    }

    /// Returns a number in decimal, with a minus sign if it is negative. It fits.
    #[inline(always)]
    pub fn of_signed(number: i64) -> Piece
        requires { length (signed_decimal number) ≤ Piece.ROOM }
        ensures { piece_text result ≡ signed_decimal number }
    {
        Piece::new().prepend_signed(number)
    }

    /// Returns the last `count` bytes, 1 to 8, of a word of eight.
    #[inline(always)]
    pub(crate) fn of_last_bytes(word: u64, count: u32) -> Piece
        requires some { 1 ≤ count }
        requires few { count ≤ 8 }
        ensures { piece_text result ≡ drop (8 - count) (low_bytes 8 word) }
    {
        Piece {
            word: u128::from(word >> (8 * (8 - count))),
            len: u64::from(count),
        }
    }

    /// Returns the last `count` bytes, 1 to 8, of a word of eight, followed by a byte.
    #[inline(always)]
    pub(crate) fn of_last_bytes_with(word: u64, count: u32, end: u8) -> Piece
        requires some { 1 ≤ count }
        requires few { count ≤ 8 }
        ensures { piece_text result ≡ drop (8 - count) (low_bytes 8 word) ++ end ∷ [] }
    {
        let nine = u128::from(word) + (u128::from(end) << 64);
        Piece {
            word: nine >> (8 * (8 - count)),
            len: u64::from(count) + 1,
        }
    }

    /// Returns the number of bytes.
    #[inline(always)]
    pub fn len(&self) -> usize
        ensures len { result ≡ length (piece_text self.now) }
        ensures within { result ≤ Piece.ROOM }
    {
        self.len as usize
    }

    /// Returns the byte followed by the piece. Both fit together.
    #[inline(always)]
    pub fn prepend(self, byte: u8) -> Piece
        requires { length (piece_text self) < Piece.ROOM }
        ensures { piece_text result ≡ byte ∷ piece_text self }
    {
        Piece {
            word: self.word * 256 + u128::from(byte),
            len: self.len + 1,
        }
    }

    /// Returns the piece followed by the byte. Both fit together.
    #[inline(always)]
    pub fn with(self, byte: u8) -> Piece
        requires { length (piece_text self) < Piece.ROOM }
        ensures { piece_text result ≡ piece_text self ++ byte ∷ [] }
    {
        self.then(Piece::of_byte(byte))
    }

    /// Returns the piece followed by another. The piece has fewer than 16 bytes, and both fit together.
    #[inline(always)]
    pub fn then(self, rest: Piece) -> Piece
        requires some { length (piece_text self) < Piece.ROOM }
        requires room { length (piece_text self) + length (piece_text rest) ≤ Piece.ROOM }
        ensures { piece_text result ≡ piece_text self ++ piece_text rest }
    {
        Piece {
            word: self.word + (rest.word << (8 * self.len)),
            len: self.len + rest.len,
        }
    }

    /// Returns the number in decimal followed by the piece. Both fit together.
    #[inline(always)]
    pub fn prepend_number(self, number: u64) -> Piece
        requires { length (decimal number) + length (piece_text self) ≤ Piece.ROOM }
        ensures { piece_text result ≡ decimal number ++ piece_text self }
    {
        let mut piece = self;
        let mut rest = number;
        while rest >= 10 {
            piece = piece.prepend(b'0' + (rest % 10) as u8);
            rest /= 10;
        }
        piece.prepend(b'0' + rest as u8)
    }

    /// Returns the number in decimal, with a minus sign if it is negative, followed by the piece. Both fit together.
    #[inline(always)]
    pub fn prepend_signed(self, number: i64) -> Piece
        requires { length (signed_decimal number) + length (piece_text self) ≤ Piece.ROOM }
        ensures { piece_text result ≡ signed_decimal number ++ piece_text self }
    {
        if number < 0 {
            self.prepend_number(number.unsigned_abs()).prepend(b'-')
        } else {
            self.prepend_number(number.unsigned_abs())
        }
    }

    /// Writes the piece from position `at` on and returns where it ends. Always writes 16 bytes, whatever the piece's length.
    #[inline(always)]
    pub(crate) fn paste(&self, bytes: &mut [u8], at: usize) -> usize
        requires { at + 16 ≤ length bytes.old }
        ensures end { result ≡ at + length (piece_text self.now) }
        ensures text { take result bytes.new ≡ take at bytes.old ++ piece_text self.now }
    {
        let low = (self.word % (1 << 64)) as u64;
        let high = (self.word >> 64) as u64;
        bytes[at..at + 8].copy_from_slice(&low.to_le_bytes());
        bytes[at + 8..at + 16].copy_from_slice(&high.to_le_bytes());
        at + self.len as usize
    }
}
