//! Lines side by side, and the buffers on which the loops over them work.

ghost use Rattle.std.specs.Prelude.{◌≡◌, ◌<◌, ◌≤◌, ℕ, ◌+◌, ◌^◌, length};
ghost use Rattle.draw_values.specs.Runs.{AreOfLength, run_row};
ghost use Rattle.detail_lines.specs.LineRuns.{AreAmong, AreLines, AreListed, AreSpread, HasRoom, drawn_row, listed_lines, run_text};
ghost use Rattle.detail_lines.specs.Made.{AreMany, LinesOver};

use crate::parent_row::{ParentRow, ParentRows};
use draw_values::{ItemizedField, RunNumbers, RunRows};
use line_pages::Piece;

/// The most lines side by side. More at once are no faster.
pub(crate) const MOST_AT_ONCE: usize = 256;

/// The number of pieces that lines side by side share: as many as 64 lines of 32 columns need with their keys and numbers.
pub(crate) const PIECES: usize = 2176;

/// Lines side by side. Each has one place in all lists.
#[derive(Clone, Copy)]
pub(crate) struct LineRun<'a> {
    /// The row of the parent for each line.
    pub(crate) rows: ParentRows<'a>,
    /// The lines' numbers among those of their row, counted from 1.
    pub(crate) numbers: &'a [u64],
    /// The ordinals by which their fields are drawn.
    pub(crate) drawn: &'a [u64],
    /// The rows of the parent, each once. A row may have no line.
    pub(crate) parents: ParentRows<'a>,
    /// The place of each line's row among these.
    pub(crate) places: &'a [u64],
}

impl<'a> LineRun<'a> {
    /// Returns the lines as rows whose fields are drawn.
    pub(crate) fn drawn_rows(&self, many: usize) -> RunRows<'a>
        requires rows { AreMany many self.now.rows }
        requires drawn { length self.now.drawn.now ≡ many }
        ensures lengths { AreOfLength many result }
        ensures rows { (k : ℕ) → k < many → run_row result k ≡ drawn_row self.now k }
    {
        let _ = many;
        RunRows {
            ordinals: self.drawn,
            births: self.rows.births,
            changes: self.rows.changes,
        }
    }
}

/// The lists of lines side by side.
#[derive(Drop)]
pub(crate) struct LineLists {
    pub(crate) keys: [u64; MOST_AT_ONCE],
    pub(crate) ordinals: [u64; MOST_AT_ONCE],
    pub(crate) births: [u64; MOST_AT_ONCE],
    pub(crate) changes: [u64; MOST_AT_ONCE],
    pub(crate) numbers: [u64; MOST_AT_ONCE],
    pub(crate) drawn: [u64; MOST_AT_ONCE],
    pub(crate) places: [u64; MOST_AT_ONCE],
}

impl LineLists {
    /// Each list has room for all lines side by side.
    pub(crate) fn has_room(&self)
        ensures { HasRoom self.now }
    {
        let _keys = &self.keys[..];
        let _ordinals = &self.ordinals[..];
        let _births = &self.births[..];
        let _changes = &self.changes[..];
        let _numbers = &self.numbers[..];
        let _drawn = &self.drawn[..];
        let _places = &self.places[..];
    }

    /// Puts so many lines of a row from a place on, numbered from 1. `place` is the row's among the rows of the lines.
    pub(crate) fn spread(&mut self, row: &ParentRow, place: u64, from: usize, count: usize)
        requires within { from + count ≤ MOST_AT_ONCE }
        requires room { HasRoom self.old }
        requires small { row.now.ordinal < 2 ^ 40 }
        requires few { count ≤ 64 }
        ensures room { HasRoom self.new }
        ensures spread { AreSpread row.now place from count self.old self.new }
    {
        let ParentRow {
            key,
            ordinal,
            born,
            changed,
        } = *row;
        let first = 64 * ordinal;
        for k in 0..count {
            let at = from + k;
            self.keys[at] = key;
            self.ordinals[at] = ordinal;
            self.births[at] = born;
            self.changes[at] = changed;
            self.numbers[at] = k as u64 + 1;
            self.drawn[at] = first + k as u64;
            self.places[at] = place;
        }
    }

    /// Returns the first `many` lines, over the rows of the parent whose lines they are.
    pub(crate) fn first<'a>(&'a self, parents: ParentRows<'a>, many: usize) -> LineRun<'a>
        requires room { HasRoom self.now }
        requires few { many ≤ MOST_AT_ONCE }
        ensures lines { (over : LinesOver) (unit : ℕ) → AreListed over unit many self.now → AreAmong over unit many parents.entry self.now → AreLines over unit many result }
        ensures text { (over : LinesOver) (unit : ℕ) → run_text over unit result many ≡ listed_lines over unit self.now many }
    {
        LineRun {
            rows: ParentRows {
                keys: &self.keys[..many],
                ordinals: &self.ordinals[..many],
                births: &self.births[..many],
                changes: &self.changes[..many],
            },
            numbers: &self.numbers[..many],
            drawn: &self.drawn[..many],
            parents,
            places: &self.places[..many],
        }
    }
}

/// The buffers on which the loops over lines work. Nothing is kept in them from some lines to the next. Making them costs as much as some
/// hundred short lines.
#[derive(Drop)]
pub struct LineBuf {
    pub(crate) lists: LineLists,
    pub(crate) draws: RunNumbers,
    pub(crate) values: [i64; MOST_AT_ONCE],
    pub(crate) operands: [i64; MOST_AT_ONCE],
    /// A piece for each row of the parent.
    pub(crate) parents: [Piece; MOST_AT_ONCE],
    pub(crate) pieces: [Piece; PIECES],
    pub(crate) items: [ItemizedField; PIECES],
}

impl LineBuf {
    /// Returns room for lines side by side.
    pub fn new() -> LineBuf {
        LineBuf {
            lists: LineLists {
                keys: [0; MOST_AT_ONCE],
                ordinals: [0; MOST_AT_ONCE],
                births: [0; MOST_AT_ONCE],
                changes: [0; MOST_AT_ONCE],
                numbers: [0; MOST_AT_ONCE],
                drawn: [0; MOST_AT_ONCE],
                places: [0; MOST_AT_ONCE],
            },
            draws: RunNumbers::new(),
            values: [0; MOST_AT_ONCE],
            operands: [0; MOST_AT_ONCE],
            parents: [Piece::new(); MOST_AT_ONCE],
            pieces: [Piece::new(); PIECES],
            items: [ItemizedField::new(); PIECES],
        }
    }
}
