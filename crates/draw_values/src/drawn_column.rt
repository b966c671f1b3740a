//! A column that is prepared for runs by itself, whatever table it stands in.

ghost use Rattle.std.specs.Prelude.{◌≡◌, ℕ, ◌<◌, ◌≤◌, IfOk, if◌then◌else◌, length, map, slice_index, slice_index_or, [], true};
ghost use Rattle.philox_seeds.specs.SeedTree.{draw as draw_of};
ghost use Rattle.line_pages.specs.Pieces.{piece_text};
ghost use Rattle.draw_values.specs.ReadyValues.{IsReady};
ghost use Rattle.draw_values.specs.Runs.{AreOfLength, AreRunRows, HaveDays, IsReadyDrawn, drawn_column, drawn_field, is_short_alone, is_short_leaf, kept_texts, leaf_texts, null_behind, run_seed, short_value, text_by, with_behind};
ghost use Rattle.draw_values.specs.Values.{is_null};

use crate::column_seeds::ColumnSeeds;
use crate::fields::NULL_DRAW;
use crate::kept::{is_itemized, is_short, kept_pieces, text_piece};
use crate::leaves::FIRST_DRAW;
use crate::run_loops::{put_draws, put_nulls, put_run_seeds};
use crate::run_pieces::{fill_in_turn, fill_leaf, fill_units};
use crate::runs::{RunNumbers, RunRows};
use crate::unit_dates::fill_unit_dates;
use line_pages::{Digits, Piece};
use out_of_memory::Memory;
use schema_plan::{ReadyColumn, ReadyKind, ReadyLeaf};
use std::alloc::Global;
use std::marker::Model;

/// The most units for which a column's seeds are kept.
pub(crate) const SEED_ROOM: u64 = 4096;

/// A column that is prepared for runs by itself: its seeds, the byte after its fields, and the pieces of its entries. Each call is given
/// the ready column from which it was prepared. A contract sees all this.
pub struct DrawnColumn {
    seeds: ColumnSeeds,
    pub(crate) behind: u8,
    short: bool,
    itemized: bool,
    pub(crate) kept: Vec<Piece>,
}

impl Drop for DrawnColumn {
    fn drop(self) {
        let DrawnColumn {
            seeds,
            behind: _,
            short: _,
            itemized: _,
            kept,
        } = self;
        drop(seeds);
        drop(kept);
    }
}

impl Model for DrawnColumn {
    ghost use Rattle.std.specs.Prelude.{map};
    ghost use Rattle.line_pages.specs.Pieces.{piece_text};
    ghost use Rattle.draw_values.specs.Runs.{DrawnColumnOf};

    ghost Value = { DrawnColumnOf };

    ghost view = { λ c. record { seed = c.seeds; behind = c.behind; short = c.short; itemized = c.itemized; texts = map piece_text c.kept.items } };
}

impl DrawnColumn {
    /// Prepares a ready column whose seed is `seed`. `behind` is the byte after each field. The seeds at the units 0 to `last` are kept,
    /// up to a limit. Makes nothing at `Memory`.
    pub fn new(
        alloc: Global,
        own: &ReadyColumn,
        seed: u64,
        behind: u8,
        last: u64,
    ) -> Result<DrawnColumn, Memory>
        requires { IsReadyDrawn own.now.kind }
        ensures { IfOk result (λ made. made ≡ drawn_column own.now.kind seed behind) }
    {
        let seeds = ColumnSeeds::below(alloc, seed, last, SEED_ROOM)?;
        let kept = kept_pieces(alloc, &own.kind, behind)?;
        Ok(DrawnColumn {
            seeds,
            behind,
            short: is_short(&own.kind),
            itemized: is_itemized(&own.kind),
            kept,
        })
    }

    /// Returns the column's seeds.
    #[inline(always)]
    pub fn seeds(&self) -> &ColumnSeeds
        ensures { result.now ≡ self.now.seed }
    {
        &self.seeds
    }

    /// Whether each field, also a null, makes a piece together with the byte after it. Then `fill` can be called, unless the column is
    /// one of cases.
    #[inline(always)]
    pub fn is_short(&self) -> bool
        ensures { result ≡ self.now.short }
    {
        self.short
    }

    /// Whether each field is null or of several items, each of which makes a piece. Then `itemize` and `put_itemized` can be called.
    #[inline(always)]
    pub fn is_itemized(&self) -> bool
        ensures { result ≡ self.now.itemized }
    {
        self.itemized
    }

    /// Makes the fields of a run's rows in the column, each with the byte after it. Each must make a piece. The column must be one of
    /// units, drawn values or entries in turn.
    pub fn fill(
        &self,
        digits: &Digits,
        own: &ReadyColumn,
        rows: RunRows<'_>,
        numbers: &mut RunNumbers,
        pieces: &mut [Piece],
    )
        requires ready { IsReadyDrawn own.now.kind }
        requires short { is_short_alone own.now.kind ≡ true }
        requires kept { self.now.texts ≡ kept_texts self.now.behind own.now.kind }
        requires rows { AreRunRows 10000 (length pieces.old) rows }
        requires days { HaveDays own.now.kind (length pieces.old) rows }
        ensures text { (i : ℕ) → i < length pieces.old → slice_index_or (map piece_text pieces.new) i [] ≡ drawn_field self.now own.now rows.entry i }
        ensures short { (i : ℕ) → i < length pieces.old → length (short_value self.now.seed own.now.changes own.now.kind rows.entry i) ≤ 15 }
    {
        self.fill_values(digits, own, rows, numbers, pieces);
        self.null_out(own, rows, numbers, pieces);
    }

    /// Makes the values of a run's rows in a ready column, also for null fields.
    #[inline(always)]
    fn fill_values(
        &self,
        digits: &Digits,
        own: &ReadyColumn,
        rows: RunRows<'_>,
        numbers: &mut RunNumbers,
        pieces: &mut [Piece],
    )
        requires ready { IsReadyDrawn own.now.kind }
        requires short { is_short_alone own.now.kind ≡ true }
        requires kept { self.now.texts ≡ kept_texts self.now.behind own.now.kind }
        requires rows { AreRunRows 10000 (length pieces.old) rows }
        requires days { HaveDays own.now.kind (length pieces.old) rows }
        ensures { (i : ℕ) → i < length pieces.old → slice_index_or (map piece_text pieces.new) i [] ≡ with_behind self.now.behind (short_value self.now.seed own.now.changes own.now.kind rows.entry i) }
    {
        match &own.kind {
            ReadyKind::Born => fill_units(digits, rows.births, self.behind, pieces),
            ReadyKind::Changed => fill_units(digits, rows.changes, self.behind, pieces),
            ReadyKind::Drawn(leaf) => {
                let count = pieces.len();
                let all_seeds = &mut numbers.seeds[..];
                let all_draws = &mut numbers.draws[..];
                let seeds = &mut all_seeds[..count];
                let draws = &mut all_draws[..count];
                self.fill_drawn(digits, own.changes, leaf, rows, seeds, draws, pieces);
            }
            ReadyKind::List(list) => {
                let count = pieces.len();
                let all_places = &mut numbers.entries[..];
                let places = &mut all_places[..count];
                fill_in_turn(
                    list,
                    self.kept.as_slice(),
                    rows.ordinals,
                    places,
                    self.behind,
                    pieces,
                );
            }
            ReadyKind::UnitDate(date) => fill_unit_dates(date, rows, self.behind, pieces),
            _ => unreachable!(),
        }
    }

    /// Makes the drawn values of a leaf whose texts are short. `changes` tells if the fields are drawn anew when a row changes.
    #[inline(always)]
    fn fill_drawn(
        &self,
        digits: &Digits,
        changes: bool,
        leaf: &ReadyLeaf,
        rows: RunRows<'_>,
        seeds: &mut [u64],
        draws: &mut [u64],
        pieces: &mut [Piece],
    )
        requires ready { IsReady leaf.now }
        requires short { is_short_leaf leaf.now ≡ true }
        requires kept { self.now.texts ≡ leaf_texts self.now.behind leaf.now }
        requires lengths { AreOfLength (length pieces.old) rows }
        requires seeds { length seeds.old ≡ length pieces.old }
        requires draws { length draws.old ≡ length pieces.old }
        ensures { (i : ℕ) → i < length pieces.old → slice_index_or (map piece_text pieces.new) i [] ≡ with_behind self.now.behind (text_by leaf.now (draw_of (run_seed self.now.seed changes rows.entry i) 1)) }
    {
        self.put_run_draws(FIRST_DRAW, changes, rows, seeds, draws);
        fill_leaf(
            digits,
            leaf,
            Some(self.kept.as_slice()),
            draws,
            self.behind,
            pieces,
        );
    }

    /// Finds the seeds of a run's rows. `changes` tells if the fields are drawn anew when a row changes.
    #[inline(always)]
    pub(crate) fn put_seeds(&self, changes: bool, rows: RunRows<'_>, seeds: &mut [u64])
        requires { AreOfLength (length seeds.old) rows }
        ensures { (i : ℕ) → i < length seeds.old → slice_index seeds.new i ≡ run_seed self.now.seed changes rows.entry i }
    {
        put_run_seeds(&self.seeds, changes, rows, seeds);
    }

    /// Makes draw `n` of each row of a run, and the seeds of these draws.
    #[inline(always)]
    pub(crate) fn put_run_draws(
        &self,
        n: u32,
        changes: bool,
        rows: RunRows<'_>,
        seeds: &mut [u64],
        draws: &mut [u64],
    )
        requires lengths { AreOfLength (length seeds.old) rows }
        requires same { length draws.old ≡ length seeds.old }
        ensures { (i : ℕ) → i < length draws.old → slice_index draws.new i ≡ draw_of (run_seed self.now.seed changes rows.entry i) n }
    {
        self.put_seeds(changes, rows, seeds);
        put_draws(n, seeds, draws);
    }

    /// Replaces a row's piece with a null and the byte after it, if the row's field is drawn to be null in the ready column. Leaves
    /// the other pieces.
    pub fn null_out(
        &self,
        own: &ReadyColumn,
        rows: RunRows<'_>,
        numbers: &mut RunNumbers,
        pieces: &mut [Piece],
    )
        requires few { length pieces.old ≤ 256 }
        requires lengths { AreOfLength (length pieces.old) rows }
        ensures { (i : ℕ) → i < length pieces.old → slice_index_or (map piece_text pieces.new) i []
            ≡ (if is_null own.now.null (draw_of (run_seed self.now.seed own.now.changes rows.entry i)) then null_behind self.now.behind else slice_index_or (map piece_text pieces.old) i []) }
    {
        if own.null == 0 {
            return;
        }
        let count = pieces.len();
        let all_seeds = &mut numbers.seeds[..];
        let all_draws = &mut numbers.draws[..];
        let seeds = &mut all_seeds[..count];
        let draws = &mut all_draws[..count];
        self.put_null_pieces(own, rows, seeds, draws, pieces);
    }

    /// Replaces the pieces of null fields, as `null_out` does, in a column with some null fields.
    #[inline(always)]
    fn put_null_pieces(
        &self,
        own: &ReadyColumn,
        rows: RunRows<'_>,
        seeds: &mut [u64],
        draws: &mut [u64],
        pieces: &mut [Piece],
    )
        requires lengths { AreOfLength (length pieces.old) rows }
        requires seeds { length seeds.old ≡ length pieces.old }
        requires draws { length draws.old ≡ length pieces.old }
        ensures { (i : ℕ) → i < length pieces.old → slice_index_or (map piece_text pieces.new) i []
            ≡ (if is_null own.now.null (draw_of (run_seed self.now.seed own.now.changes rows.entry i)) then null_behind self.now.behind else slice_index_or (map piece_text pieces.old) i []) }
    {
        self.put_run_draws(NULL_DRAW, own.changes, rows, seeds, draws);
        put_nulls(own.null, draws, text_piece(b"\\N", self.behind), pieces);
    }
}
