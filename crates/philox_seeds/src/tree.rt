//! The tree of seeds. Each seed keys the generator, and a counter names the seed or the draw below it.

ghost use Rattle.std.specs.Prelude.{◌≡◌, ◌<◌, ℕ, slice_index};
ghost use Rattle.philox_seeds.specs.Philox.{high_word, low_word};
ghost use Rattle.philox_seeds.specs.SeedTree.{number_of_words, keyed_number, child, table_seed, column_seed, unit_seed, row_seed, draw, permutation_seed, key_order_seed, life_order_seed, update_order_seed, reference_order_seed, deal_seed};

use crate::block::{Key, Words, block, high_word, low_word};

/// The column that stands for the order of a table's keys.
const KEY_COLUMN: u32 = 64;

/// The column that stands for the order of a table's lives.
const LIFE_COLUMN: u32 = 65;

/// The column that stands for the order of a table's updates.
const UPDATE_COLUMN: u32 = 66;

/// What a reference's column is moved on by, for the order of its candidates.
const DEAL_COLUMNS: u32 = 128;

const TABLE_LEVEL: u32 = 1;

const COLUMN_LEVEL: u32 = 2;

const UNIT_LEVEL: u32 = 3;

const ROW_LEVEL: u32 = 4;

const DRAW_LEVEL: u32 = 5;

#[inline(always)]
fn joined(low: u32, high: u32) -> u64
    ensures { result ≡ number_of_words low high }
{
    u64::from(high) << 32 | u64::from(low)
}

#[inline(always)]
#[tactic(auto, unfolding(crate::specs::SeedTree::keyed_number))]
fn number_at(seed: u64, counter: Words) -> u64
    ensures { result ≡ keyed_number seed counter.c0 counter.c1 counter.c2 counter.c3 }
{
    let key = Key {
        k0: low_word(seed),
        k1: high_word(seed),
    };
    let block = block(counter, key);
    joined(block.c0, block.c1)
}

/// Returns the number of 64 bits that `seed`, as the key of Philox4x32-10, gives at `counter`: word 0 of the block, and word 1
/// above it.
#[inline(always)]
pub fn keyed_number(seed: u64, counter: [u32; 4]) -> u64
    ensures number { result ≡ keyed_number seed (slice_index counter 0) (slice_index counter 1) (slice_index counter 2) (slice_index counter 3) }
{
    let words = Words {
        c0: counter[0],
        c1: counter[1],
        c2: counter[2],
        c3: counter[3],
    };
    number_at(seed, words)
}

/// Returns the seed below `seed` at `index` of `level`: the number at the counter (low word, high word of the index, level, 0).
#[inline(always)]
#[tactic(auto, unfolding(crate::specs::SeedTree::child))]
pub fn child(seed: u64, level: u32, index: u64) -> u64
    ensures seed { result ≡ child seed level index }
{
    let counter = Words {
        c0: low_word(index),
        c1: high_word(index),
        c2: level,
        c3: 0,
    };
    number_at(seed, counter)
}

/// Returns the seed of the table with this place in the schema, from 0, below the project's seed.
#[inline]
pub fn table_seed(seed: u64, table: u32) -> u64
    ensures seed { result ≡ table_seed seed table }
{
    child(seed, TABLE_LEVEL, u64::from(table))
}

/// Returns the seed of the column with this place in its table, from 0, below the table's seed.
#[inline]
pub fn column_seed(seed: u64, column: u32) -> u64
    ensures seed { result ≡ column_seed seed column }
{
    child(seed, COLUMN_LEVEL, u64::from(column))
}

/// Returns the seed of a time unit, below a column's seed.
#[inline(always)]
pub fn unit_seed(seed: u64, unit: u64) -> u64
    ensures seed { result ≡ unit_seed seed unit }
{
    child(seed, UNIT_LEVEL, unit)
}

/// Returns the seed of the row with this ordinal, its place in the order of birth in its table, below a unit's seed.
#[inline(always)]
pub fn row_seed(seed: u64, ordinal: u64) -> u64
    ensures seed { result ≡ row_seed seed ordinal }
{
    child(seed, ROW_LEVEL, ordinal)
}

/// Returns draw number `n` of a seed: the number at the counter (n, 0, 5, 0).
#[inline(always)]
#[tactic(auto, unfolding(crate::specs::SeedTree::draw))]
pub fn draw(seed: u64, n: u32) -> u64
    ensures number { result ≡ draw seed n }
{
    let counter = Words {
        c0: n,
        c1: 0,
        c2: DRAW_LEVEL,
        c3: 0,
    };
    number_at(seed, counter)
}

/// Returns the seed of the order of a cohort's keys. The cohort is of the table with this place and is born at this time unit. The
/// seed is below the project's seed.
#[inline]
pub fn key_order_seed(seed: u64, table: u32, unit: u64) -> u64
    ensures seed { result ≡ key_order_seed seed table unit }
{
    order_seed(seed, table, KEY_COLUMN, unit)
}

/// Returns the seed of the order of a cohort's lives.
#[inline]
pub fn life_order_seed(seed: u64, table: u32, unit: u64) -> u64
    ensures seed { result ≡ life_order_seed seed table unit }
{
    order_seed(seed, table, LIFE_COLUMN, unit)
}

/// Returns the seed of the order of a cohort's updates.
#[inline]
pub fn update_order_seed(seed: u64, table: u32, unit: u64) -> u64
    ensures seed { result ≡ update_order_seed seed table unit }
{
    order_seed(seed, table, UPDATE_COLUMN, unit)
}

/// Returns the seed of the order in which a cohort's rows choose parents by the reference in the column with this place.
#[inline]
pub fn reference_order_seed(seed: u64, table: u32, column: u32, unit: u64) -> u64
    ensures seed { result ≡ reference_order_seed seed table column unit }
{
    order_seed(seed, table, column, unit)
}

/// Returns the seed of the order in which the drawn reference in the column with this place deals its candidates to a cohort. A table has
/// at most 64 columns.
#[inline]
pub fn deal_seed(seed: u64, table: u32, column: u32, unit: u64) -> u64
    requires { column < 64 }
    ensures seed { result ≡ deal_seed seed table column unit }
{
    order_seed(seed, table, DEAL_COLUMNS + column, unit)
}

/// Returns the seed of an order of a cohort, for a column or for a number that stands for a purpose.
#[inline]
fn order_seed(seed: u64, table: u32, column: u32, unit: u64) -> u64
    ensures { result ≡ permutation_seed seed table column unit }
{
    unit_seed(column_seed(table_seed(seed, table), column), unit)
}
