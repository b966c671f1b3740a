//! The buffers on which the loops of a run work.

use draw_values::{ItemizedField, RunNumbers};
use line_pages::Piece;

/// The most rows of a run. More rows at once are no faster.
pub(crate) const MOST_ROWS: usize = 256;

/// The number of pieces that the columns of a run share.
pub(crate) const PIECES: usize = 1024;

/// Rows of a table, side by side: their ordinals, their units of birth, and whether each is alive.
#[derive(Drop)]
pub(crate) struct RowBuf {
    pub(crate) ordinals: [u64; MOST_ROWS],
    pub(crate) births: [u64; MOST_ROWS],
    pub(crate) live: [bool; MOST_ROWS],
}

impl RowBuf {
    fn new() -> RowBuf {
        RowBuf {
            ordinals: [0; MOST_ROWS],
            births: [0; MOST_ROWS],
            live: [false; MOST_ROWS],
        }
    }
}

/// The days or the numbers of rows in one column, and in another that they are joined with.
#[derive(Drop)]
pub(crate) struct ValueBuf {
    pub(crate) values: [i64; MOST_ROWS],
    pub(crate) operands: [i64; MOST_ROWS],
}

/// What the fields of rows are made from: the units of their last changes, their keys, the keys of their parents by one reference,
/// their days or numbers in one column, a piece for each field, and what is drawn for fields of several items.
#[derive(Drop)]
pub(crate) struct FieldBuf {
    pub(crate) changes: [u64; MOST_ROWS],
    pub(crate) keys: [u64; MOST_ROWS],
    pub(crate) parent_keys: [u64; MOST_ROWS],
    pub(crate) numbers: RunNumbers,
    pub(crate) values: ValueBuf,
    pub(crate) pieces: [Piece; PIECES],
    pub(crate) items: [ItemizedField; PIECES],
}

/// The buffers on which the loops of a run work: its rows, their parents by one reference, and what their fields are made from.
/// They are made once for many runs. Nothing is kept from one run to the next.
#[derive(Drop)]
pub struct RunBuf {
    pub(crate) rows: RowBuf,
    pub(crate) parents: RowBuf,
    pub(crate) fields: FieldBuf,
}

impl RunBuf {
    /// Returns room for a run.
    pub fn new() -> RunBuf {
        RunBuf {
            rows: RowBuf::new(),
            parents: RowBuf::new(),
            fields: FieldBuf {
                changes: [0; MOST_ROWS],
                keys: [0; MOST_ROWS],
                parent_keys: [0; MOST_ROWS],
                numbers: RunNumbers::new(),
                values: ValueBuf {
                    values: [0; MOST_ROWS],
                    operands: [0; MOST_ROWS],
                },
                pieces: [Piece::new(); PIECES],
                items: [ItemizedField::new(); PIECES],
            },
        }
    }
}
