//! The seeds and the draws of many rows at once, in place. Each loop does one thing to each number, without a branch, so that a
//! processor takes several at a time.

ghost use Rattle.std.specs.Prelude.{◌≡◌, ℕ, ◌+◌, ◌<◌, ◌≤◌, ◌^◌, EachIndex, length, map, slice_index};
ghost use Rattle.std.specs.List.{range_with_len};
ghost use Rattle.philox_seeds.specs.SeedTree.{draw, row_seed};

use crate::tree::{draw, row_seed};

/// Replaces each seed with its draw number `n`.
#[inline]
pub fn draws(seeds: &mut [u64], n: u32)
    ensures { seeds.new ≡ map (λ seed. draw seed n) seeds.old }
{
    for seed in seeds.iter_mut() {
        *seed = draw(*seed, n);
    }
}

/// Replaces each ordinal with the seed of its row, below one unit's seed.
#[inline]
pub fn row_seeds(unit_seed: u64, ordinals: &mut [u64])
    ensures { ordinals.new ≡ map (row_seed unit_seed) ordinals.old }
{
    for ordinal in ordinals.iter_mut() {
        *ordinal = row_seed(unit_seed, *ordinal);
    }
}

/// Fills `seeds` with the seeds of the rows with the ordinals from `first` on, below one unit's seed.
#[inline]
pub fn run_row_seeds(unit_seed: u64, first: u64, seeds: &mut [u64])
    requires { first + length seeds.old ≤ 2 ^ 64 }
    ensures { seeds.new ≡ map (row_seed unit_seed) (range_with_len first (length seeds.old)) }
{
    for (i, seed) in seeds.iter_mut().enumerate() {
        *seed = row_seed(unit_seed, first + i as u64);
    }
}

/// Replaces each unit's seed with the seed of a row below it. The row at place 0 has the ordinal `first`, and each next one the
/// next ordinal.
#[inline]
pub fn run_row_seeds_by_unit(first: u64, seeds: &mut [u64])
    requires { first + length seeds.old ≤ 2 ^ 64 }
    ensures { EachIndex seeds.old (λ i. slice_index seeds.new i ≡ row_seed (slice_index seeds.old i) (first + i)) }
{
    for (i, seed) in seeds.iter_mut().enumerate() {
        *seed = row_seed(*seed, first + i as u64);
    }
}
