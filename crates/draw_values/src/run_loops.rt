//! The loops over the numbers of a run. Each loop does one thing to each number, so that a processor takes several at a time.

ghost use Rattle.std.specs.Prelude.{◌≡◌, ℕ, ◌<◌, ◌≤◌, ◌%◌, [], if◌then◌else◌, length, map, nat_lt, slice_index, slice_index_or, sum};
ghost use Rattle.philox_seeds.specs.SeedTree.{draw as draw_of, row_seed as row_seed_of, unit_seed as unit_seed_of};
ghost use Rattle.line_pages.specs.Pieces.{piece_text};
ghost use Rattle.draw_values.specs.Runs.{AreOfLength, run_seed};
ghost use Rattle.draw_values.specs.Values.{chosen_group};

use crate::column_seeds::ColumnSeeds;
use crate::runs::RunRows;
use fixed_divisors::FixedDivisor;
use line_pages::Piece;
use philox_seeds::{draws as make_draws, row_seed};
use schema_plan::ReadyWords;
use weight_tables::Weights;

/// Fills `seeds` with the seeds of a column at the units of the same places.
#[inline(always)]
pub(crate) fn put_unit_seeds(column: &ColumnSeeds, units: &[u64], seeds: &mut [u64])
    requires { length units.now ≡ length seeds.old }
    ensures { (i : ℕ) → i < length seeds.old → slice_index seeds.new i ≡ unit_seed_of column.now (slice_index units.now i) }
{
    for (i, seed) in seeds.iter_mut().enumerate() {
        *seed = column.at(units[i]);
    }
}

/// Replaces each unit's seed with the seed of the row below it that has the ordinal of the same place.
#[inline(always)]
pub(crate) fn put_row_seeds(ordinals: &[u64], seeds: &mut [u64])
    requires { length ordinals.now ≡ length seeds.old }
    ensures { (i : ℕ) → i < length seeds.old → slice_index seeds.new i ≡ row_seed_of (slice_index seeds.old i) (slice_index ordinals.now i) }
{
    for (i, seed) in seeds.iter_mut().enumerate() {
        *seed = row_seed(*seed, ordinals[i]);
    }
}

/// Finds the seeds of a run's rows in a column with these seeds. `changes` tells if the fields are drawn anew when a row changes.
#[inline(always)]
pub fn put_run_seeds(column: &ColumnSeeds, changes: bool, rows: RunRows<'_>, seeds: &mut [u64])
    requires { AreOfLength (length seeds.old) rows }
    ensures { (i : ℕ) → i < length seeds.old → slice_index seeds.new i ≡ run_seed column.now changes rows.entry i }
{
    put_unit_seeds(column, units_of(changes, rows), seeds);
    put_row_seeds(rows.ordinals, seeds);
}

/// Returns the units at which the fields of a run's rows are drawn. `changes` tells if the fields are drawn anew when a row
/// changes.
#[inline(always)]
fn units_of<'a>(changes: bool, rows: RunRows<'a>) -> &'a [u64]
    ensures { result.now ≡ (if changes then rows.entry.changes.now else rows.entry.births.now) }
{
    if changes { rows.changes } else { rows.births }
}

/// Fills `draws` with draw `n` of the seeds of the same places.
#[inline(always)]
pub(crate) fn put_draws(n: u32, seeds: &[u64], draws: &mut [u64])
    requires { length seeds.now ≡ length draws.old }
    ensures { draws.new ≡ map (λ seed. draw_of seed n) seeds.now }
{
    draws.copy_from_slice(seeds);
    make_draws(draws, n);
}

/// Replaces each draw with the number of the group that it chooses. `total` is the sum of the weights.
#[inline(always)]
pub(crate) fn choose_groups(weights: &Weights, total: &FixedDivisor, draws: &mut [u64])
    requires { total.now ≡ sum weights.now }
    ensures groups { (i : ℕ) → i < length draws.old → slice_index draws.new i ≡ chosen_group weights.now (slice_index draws.old i) }
    ensures within { (i : ℕ) → i < length draws.old → slice_index draws.new i < length weights.now }
{
    let _some = total.number(); // it is at least 1
    total.remainders(draws);
    weights.select_all(draws);
}

/// Replaces each draw with the place of the word that it chooses.
#[inline(always)]
pub(crate) fn choose_words(words: &ReadyWords, draws: &mut [u64])
    ensures places { (i : ℕ) → i < length draws.old → slice_index draws.new i ≡ chosen_group words.now.weights (slice_index draws.old i) }
    ensures within { (i : ℕ) → i < length draws.old → slice_index draws.new i < length words.now.entries }
{
    for number in draws.iter_mut() {
        *number = words.choose(*number) as u64;
    }
}

/// Replaces each piece with the kept piece that the number of the same place selects.
#[inline(always)]
pub fn fill_kept(kept: &[Piece], numbers: &[u64], pieces: &mut [Piece])
    requires lengths { length numbers.now ≡ length pieces.old }
    requires within { (i : ℕ) → i < length numbers.now → slice_index numbers.now i < length kept.now }
    ensures { (i : ℕ) → i < length pieces.old → slice_index_or (map piece_text pieces.new) i [] ≡ slice_index_or (map piece_text kept.now) (slice_index numbers.now i) [] }
{
    for (i, piece) in pieces.iter_mut().enumerate() {
        *piece = kept[numbers[i] as usize];
    }
}

/// Replaces a piece with the null piece if the remainder of its draw by 1000 is less than `null`.
#[inline(always)]
pub(crate) fn put_nulls(null: u64, draws: &[u64], null_piece: Piece, pieces: &mut [Piece])
    requires { length draws.now ≡ length pieces.old }
    ensures { (i : ℕ) → i < length pieces.old → slice_index_or (map piece_text pieces.new) i []
        ≡ (if nat_lt (slice_index draws.now i % 1000) null then piece_text null_piece else slice_index_or (map piece_text pieces.old) i []) }
{
    for (i, piece) in pieces.iter_mut().enumerate() {
        *piece = selected(draws[i] % 1000 < null, null_piece, *piece);
    }
}

/// Returns the first piece if `is_first` is true, else the other, without a branch.
#[inline(always)]
fn selected(is_first: bool, first: Piece, other: Piece) -> Piece
    ensures { piece_text result ≡ (if is_first then piece_text first else piece_text other) }
{
    if is_first { first } else { other }
}
