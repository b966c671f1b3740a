//! Rows of pieces onto a page.

ghost use Rattle.std.specs.Prelude.{◌≡◌, ◌<◌, ◌≤◌, ◌+◌, ◌*◌, ◌++◌, length, take};
ghost use Rattle.line_pages.specs.Rows.{row_of_pieces, rows_of_pieces};

use crate::{PageBuf, Piece};

impl PageBuf {
    /// Appends the first `count` rows of pieces. `pieces` has one column after the other, each over `stride` rows. The pieces of a row are
    /// appended one after the other. All fit in the free room.
    pub fn put_rows(&mut self, pieces: &[Piece], columns: usize, stride: usize, count: usize)
        requires pieces { columns * stride ≤ length pieces.now }
        requires rows { count ≤ stride }
        requires room { length self.old.text + length (rows_of_pieces pieces.now columns stride count) ≤ self.old.room }
        ensures { self.new ≡ record self.old { text = self.old.text ++ rows_of_pieces pieces.now columns stride count } }
    {
        let bytes = self.bytes.as_mut_slice();
        self.len = paste_rows(bytes, self.len, pieces, columns, stride, count);
    }
}

/// Writes rows of pieces from position `start` on and returns where they end. At least 16 bytes are spare after them.
#[inline(always)]
fn paste_rows(
    bytes: &mut [u8],
    start: usize,
    pieces: &[Piece],
    columns: usize,
    stride: usize,
    count: usize,
) -> usize
    requires pieces { columns * stride ≤ length pieces.now }
    requires rows { count ≤ stride }
    requires room { start + length (rows_of_pieces pieces.now columns stride count) + 16 ≤ length bytes.old }
    ensures end { result ≡ start + length (rows_of_pieces pieces.now columns stride count) }
    ensures text { take result bytes.new ≡ take start bytes.old ++ rows_of_pieces pieces.now columns stride count }
{
    let mut end = start;
    for row in 0..count {
        end = paste_row(bytes, end, pieces, columns, stride, row);
    }
    end
}

/// Writes a row of pieces from position `start` on and returns where it ends. At least 16 bytes are spare after it.
#[inline(always)]
fn paste_row(
    bytes: &mut [u8],
    start: usize,
    pieces: &[Piece],
    columns: usize,
    stride: usize,
    row: usize,
) -> usize
    requires pieces { columns * stride ≤ length pieces.now }
    requires row { row < stride }
    requires room { start + length (row_of_pieces pieces.now columns stride row) + 16 ≤ length bytes.old }
    ensures end { result ≡ start + length (row_of_pieces pieces.now columns stride row) }
    ensures text { take result bytes.new ≡ take start bytes.old ++ row_of_pieces pieces.now columns stride row }
{
    let mut end = start;
    let mut place = row;
    for _column in 0..columns {
        end = pieces[place].paste(bytes, end);
        place += stride;
    }
    end
}
