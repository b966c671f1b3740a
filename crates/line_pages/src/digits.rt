//! Numbers as pieces, by a table of the texts of four digits.

ghost use Rattle.std.specs.Prelude.{◌≡◌, ◌<◌, ◌≤◌, ◌+◌, ◌^◌, [], ◌∷◌, ◌++◌, All, length, map, decimal};
ghost use Rattle.line_pages.specs.Pieces.{low_bytes, piece_text};
ghost use Rattle.line_pages.specs.Digits.{last_digits, AreFours, HasDigits};

use crate::Piece;
use out_of_memory::Memory;
use std::alloc::Global;

/// The number of numbers with up to four digits.
const FOURS: u32 = 10_000;

/// The first number with more than eight digits.
const LONG: u64 = 100_000_000;

/// Eight digits 0 in a word, 16 less in the last one. What eight digits have beyond these begins with a byte 0 for each 0 that leads, and the last
/// byte is never 0.
const NO_DIGITS: u64 = 0x2030_3030_3030_3030;

/// The texts of the numbers below 10,000, four digits each. Longer numbers are put together from them.
#[derive(Debug, Drop)]
pub struct Digits {
    /// The bytes of each text, the first one lowest.
    fours: Vec<u32>,
    ghost table: { AreFours fours.items },
}

impl Digits {
    /// Makes the texts, which take 40,000 bytes. Returns `Memory` if memory runs out.
    pub fn new(alloc: Global) -> Result<Digits, Memory> {
        let mut fours = Vec::with_capacity(alloc, FOURS as usize)?;
        for number in 0..FOURS {
            fours.push(four_digits(number))?;
        }
        Ok(Digits { fours })
    }

    /// Returns a number of at most 15 digits in decimal, with the byte `end` after it.
    #[inline(always)]
    pub fn piece(&self, number: u64, end: u8) -> Piece
        requires { number < 10 ^ 15 }
        ensures { piece_text result ≡ decimal number ++ end ∷ [] }
    {
        number_with(&self.fours, number, end)
    }

    /// Returns a number of at most 15 digits in decimal, with a piece after it. Both fit together.
    #[inline(always)]
    pub fn before(&self, number: u64, rest: Piece) -> Piece
        requires number { number < 10 ^ 15 }
        requires room { length (decimal number) + length (piece_text rest) ≤ Piece.ROOM }
        ensures { piece_text result ≡ decimal number ++ piece_text rest }
    {
        number_before(&self.fours, number, rest)
    }

    /// Returns the last `count` digits of a number, 1 to 9, zeros included, with a piece after them. Both fit together.
    #[inline(always)]
    pub fn last_before(&self, number: u64, count: u32, rest: Piece) -> Piece
        requires some { 1 ≤ count }
        requires few { count ≤ 9 }
        requires room { count + length (piece_text rest) ≤ Piece.ROOM }
        ensures { piece_text result ≡ last_digits count number ++ piece_text rest }
    {
        if count <= 8 {
            return last_piece(&self.fours, number, count).then(rest);
        }
        last_piece(&self.fours, number, 8)
            .then(rest)
            .prepend(b'0' + (number / LONG % 10) as u8)
    }

    /// Makes each piece the text of its number, with the byte `end` after it. A number has at most 15 digits. There are as many pieces as
    /// numbers.
    pub fn fill(&self, numbers: &[u64], end: u8, pieces: &mut [Piece])
        requires numbers { All (λ number. number < 10 ^ 15) numbers.now }
        requires lengths { length numbers.now ≡ length pieces.old }
        ensures { map piece_text pieces.new ≡ map (λ number. decimal number ++ end ∷ []) numbers.now }
    {
        let fours = self.fours.as_slice();
        for (i, piece) in pieces.iter_mut().enumerate() {
            *piece = number_with(fours, numbers[i], end);
        }
    }
}

/// Returns the four digits of a number below 10,000, zeros included, in a word. The first digit is lowest.
fn four_digits(number: u32) -> u32
    requires { number < 10000 }
    ensures { low_bytes 4 result ≡ last_digits 4 number }
{
    let first = 48 + number / 1000;
    let second = 48 + number / 100 % 10;
    let third = 48 + number / 10 % 10;
    let fourth = 48 + number % 10;
    first + second * 256 + third * 65536 + fourth * 16_777_216
}

/// Returns the eight digits of a number below 100,000,000, zeros included, in a word. The first digit is lowest.
#[inline(always)]
fn eight_digits(fours: &[u32], number: u64) -> u64
    requires fours { AreFours fours.now }
    requires number { number < 10 ^ 8 }
    ensures { low_bytes 8 result ≡ last_digits 8 number }
{
    let high = u64::from(fours[(number / 10_000) as usize]);
    let low = u64::from(fours[(number % 10_000) as usize]);
    high + low * (1 << 32)
}

/// Returns the last `count` digits of a number, 1 to 8, zeros included.
#[inline(always)]
fn last_piece(fours: &[u32], number: u64, count: u32) -> Piece
    requires fours { AreFours fours.now }
    requires some { 1 ≤ count }
    requires few { count ≤ 8 }
    ensures text { piece_text result ≡ last_digits count number }
    ensures length { length (piece_text result) ≡ count }
{
    Piece::of_last_bytes(eight_digits(fours, number % LONG), count)
}

/// Returns the eight digits of a number below 100,000,000, zeros included, in a word, and the number of digits without the zeros that lead. The first
/// digit is lowest.
#[inline(always)]
fn counted_digits(fours: &[u32], number: u64) -> (u64, u32)
    requires fours { AreFours fours.now }
    requires number { number < 10 ^ 8 }
    ensures digits { low_bytes 8 result.0 ≡ last_digits 8 number }
    ensures count { HasDigits number result.1 }
    ensures few { result.1 ≤ 8 }
{
    let digits = eight_digits(fours, number);
    let zeros = (digits - NO_DIGITS).trailing_zeros() % 64 / 8;
    (digits, 8 - zeros)
}

/// Returns a number of at most eight digits in decimal.
#[inline(always)]
fn short_piece(fours: &[u32], number: u64) -> Piece
    requires fours { AreFours fours.now }
    requires number { number < 10 ^ 8 }
    ensures text { piece_text result ≡ decimal number }
    ensures short { length (piece_text result) ≤ 8 }
{
    let (digits, count) = counted_digits(fours, number);
    Piece::of_last_bytes(digits, count)
}

/// Returns a number of at most eight digits in decimal, with a byte after it.
#[inline(always)]
fn short_with(fours: &[u32], number: u64, end: u8) -> Piece
    requires fours { AreFours fours.now }
    requires number { number < 10 ^ 8 }
    ensures { piece_text result ≡ decimal number ++ end ∷ [] }
{
    let (digits, count) = counted_digits(fours, number);
    Piece::of_last_bytes_with(digits, count, end)
}

/// Returns a number of at most 15 digits in decimal, with a byte after it.
#[inline(always)]
fn number_with(fours: &[u32], number: u64, end: u8) -> Piece
    requires fours { AreFours fours.now }
    requires number { number < 10 ^ 15 }
    ensures { piece_text result ≡ decimal number ++ end ∷ [] }
{
    if number < LONG {
        return short_with(fours, number, end);
    }
    let low = Piece::of_last_bytes_with(eight_digits(fours, number % LONG), 8, end);
    short_piece(fours, number / LONG).then(low)
}

/// Returns a number of at most 15 digits in decimal, with a piece after it. Both fit together.
#[inline(always)]
fn number_before(fours: &[u32], number: u64, rest: Piece) -> Piece
    requires fours { AreFours fours.now }
    requires number { number < 10 ^ 15 }
    requires room { length (decimal number) + length (piece_text rest) ≤ Piece.ROOM }
    ensures { piece_text result ≡ decimal number ++ piece_text rest }
{
    if number < LONG {
        return short_piece(fours, number).then(rest);
    }
    let low = last_piece(fours, number, 8).then(rest);
    short_piece(fours, number / LONG).then(low)
}
