//! Digits before a piece.

ghost use Rattle.std.specs.Prelude.{◌≡◌, ◌≤◌, ◌+◌, ◌++◌, length};
ghost use Rattle.line_pages.specs.Pieces.{piece_text};
ghost use Rattle.line_pages.specs.Digits.{last_digits};

use line_pages::Piece;

/// Returns the last `count` digits of a number before the piece. They must fit.
#[inline(always)]
pub(crate) fn prepend_digits(piece: Piece, number: u64, count: u32) -> Piece
    requires { count + length (piece_text piece) ≤ Piece.ROOM }
    ensures text { piece_text result ≡ last_digits count number ++ piece_text piece }
    ensures length { length (piece_text result) ≡ count + length (piece_text piece) }
{
    let mut piece = piece;
    let mut rest = number;
    for _ in 0..count {
        piece = piece.prepend(b'0' + (rest % 10) as u8);
        rest /= 10;
    }
    piece
}
