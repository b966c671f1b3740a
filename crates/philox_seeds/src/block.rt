//! The block of Philox4x32-10: ten rounds over the four words of a counter.

ghost use Rattle.std.specs.Prelude.{◌≡◌, ℕ, ◌∷◌, [], slice_index};
ghost use Rattle.philox_seeds.specs.Philox.{high_word, low_word, philox_round, next_key, philox4x32_10, listed_words};

const MULTIPLIER_0: u64 = 0xD251_1F53;

const MULTIPLIER_1: u64 = 0xCD9E_8D57;

const WEYL_0: u32 = 0x9E37_79B9;

const WEYL_1: u32 = 0xBB67_AE85;

const ROUNDS: u32 = 10;

/// The four words of a counter, or of the result of some rounds.
#[derive(Clone, Copy)]
pub struct Words {
    pub c0: u32,
    pub c1: u32,
    pub c2: u32,
    pub c3: u32,
}

/// The two words of a key.
#[derive(Clone, Copy)]
pub struct Key {
    pub k0: u32,
    pub k1: u32,
}

/// Returns the high 32 bits.
#[inline(always)]
pub fn high_word(x: u64) -> u32
    ensures { result ≡ high_word x }
{
    (x >> 32) as u32
}

/// Returns the low 32 bits.
#[inline(always)]
pub fn low_word(x: u64) -> u32
    ensures { result ≡ low_word x }
{
    (x % (1 << 32)) as u32
}

#[inline(always)]
#[tactic(auto, unfolding(crate::specs::Philox::philox_round))]
fn round(words: Words, key: Key) -> Words
    ensures { result ≡ philox_round words key }
{
    let product_0 = MULTIPLIER_0 * u64::from(words.c0);
    let product_1 = MULTIPLIER_1 * u64::from(words.c2);
    Words {
        c0: high_word(product_1) ^ words.c1 ^ key.k0,
        c1: low_word(product_1),
        c2: high_word(product_0) ^ words.c3 ^ key.k1,
        c3: low_word(product_0),
    }
}

#[inline(always)]
#[tactic(auto, unfolding(crate::specs::Philox::next_key))]
fn next_key(key: Key) -> Key
    ensures { result ≡ next_key key }
{
    Key {
        k0: key.k0.wrapping_add(WEYL_0),
        k1: key.k1.wrapping_add(WEYL_1),
    }
}

/// Returns the block of a counter under a key: ten rounds, with the next key after each.
#[inline(always)]
pub fn block(counter: Words, key: Key) -> Words
    ensures { result ≡ philox4x32_10 counter key }
{
    let mut words = counter;
    let mut key = key;
    for _ in 0..ROUNDS {
        words = round(words, key);
        key = next_key(key);
    }
    words
}

/// Returns the block of Philox4x32-10 at `counter` under `key`, with the words in the order of the paper.
#[inline(always)]
pub fn philox4x32_10(counter: [u32; 4], key: [u32; 2]) -> [u32; 4]
    ensures block { result ≡ listed_words (philox4x32_10
        (record {
          c0 = slice_index counter 0;
          c1 = slice_index counter 1;
          c2 = slice_index counter 2;
          c3 = slice_index counter 3;
        })
        (record { k0 = slice_index key 0; k1 = slice_index key 1 })) }
{
    let words = Words {
        c0: counter[0],
        c1: counter[1],
        c2: counter[2],
        c3: counter[3],
    };
    let key = Key {
        k0: key[0],
        k1: key[1],
    };
    let block = block(words, key);
    [block.c0, block.c1, block.c2, block.c3]
}
