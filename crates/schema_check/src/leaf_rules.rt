//! What the rules ask of drawn values.

ghost use Rattle.std.specs.Prelude.{◌≡◌, ◌-◌, ◌^◌, ◌&&◌, ◌+ℤ◌, ◌-ℤ◌, ◌≤ℤ◌, int_le, length, map, nat_le, pos, sum};
ghost use Rattle.std.specs.List.{list_all};
ghost use Rattle.std.specs.Str.{chars};
ghost use Rattle.schema_facts.specs.Capped.{capped};
ghost use Rattle.schema_facts.specs.Counts.{count};
ghost use Rattle.schema_plan.specs.Rules.{is_date_range, is_length_between, is_length_range, is_number_range, is_range, is_skew_range, is_weighted};

use schema_facts::count;
use schema_model::Leaf;

/// The most digits after a point.
const MAX_DECIMALS: i64 = 9;

/// The day 0001-01-01, where day 0 is 1970-01-01.
pub(crate) const FIRST_DAY: i32 = -719_162;

/// The day 9999-12-31, where day 0 is 1970-01-01.
pub(crate) const LAST_DAY: i32 = 2_932_896;

/// The most entries of a pick.
const MAX_ENTRIES: usize = 256;

/// The greatest sum of weights.
const MAX_TOTAL: u64 = 1 << 32;

/// The most numbers of a skew.
const MAX_SIZE: i64 = 4_096;

/// The greatest power of a skew.
const MAX_POWER: i64 = 3;

/// The most words or characters of a text.
const MAX_LENGTH: i64 = 1_000;

/// The most characters of an alphabet.
const MAX_CHARACTERS: usize = 256;

/// Whether the numbers among some drawn values have ranges. Their steps are at least 1, or their decimals 0 to 9.
pub(crate) fn are_number_ranges(leaves: &[Leaf]) -> bool
    ensures { result ≡ list_all is_number_range leaves.now }
{
    leaves.iter().all(|leaf| is_number_range(leaf))
}

/// Whether the dates among some drawn values have ranges from 0001-01-01 to 9999-12-31.
pub(crate) fn are_date_ranges(leaves: &[Leaf]) -> bool
    ensures { result ≡ list_all is_date_range leaves.now }
{
    leaves.iter().all(|leaf| is_date_range(leaf))
}

/// Whether the picks among some drawn values have 1 to 256 entries, a weight of at least 1 for each, and a sum of at most 2^32.
pub(crate) fn are_weighted(leaves: &[Leaf]) -> bool
    ensures { result ≡ list_all is_weighted leaves.now }
{
    leaves.iter().all(|leaf| is_weighted(leaf))
}

/// Whether the skews among some drawn values have 1 to 4,096 numbers of 64 bits, and a power from 1 to 3.
pub(crate) fn are_skew_ranges(leaves: &[Leaf]) -> bool
    ensures { result ≡ list_all is_skew_range leaves.now }
{
    leaves.iter().all(|leaf| is_skew_range(leaf))
}

/// Whether the words and characters among some drawn values have lengths from 0 to 1,000, and alphabets of 1 to 256 characters.
pub(crate) fn are_length_ranges(leaves: &[Leaf]) -> bool
    ensures { result ≡ list_all is_length_range leaves.now }
{
    leaves.iter().all(|leaf| is_length_range(leaf))
}

fn is_number_range(leaf: &Leaf) -> bool
    ensures { result ≡ is_number_range leaf.now }
{
    match leaf {
        Leaf::Int { lo, hi, step } => is_range(*lo, *hi) && 1 <= *step,
        Leaf::Fixed { lo, hi, decimals } => {
            is_range(*lo, *hi) && 0 <= *decimals && *decimals <= MAX_DECIMALS
        }
        _ => true,
    }
}

/// Whether `hi` is at least `lo`, and at most 2^63 - 1 more.
pub fn is_range(lo: i64, hi: i64) -> bool
    ensures { result ≡ is_range lo hi }
{
    lo <= hi && hi.checked_sub(lo).is_some()
}

fn is_date_range(leaf: &Leaf) -> bool
    ensures { result ≡ is_date_range leaf.now }
{
    match leaf {
        Leaf::Date { lo, hi } => FIRST_DAY <= *lo && *lo <= *hi && *hi <= LAST_DAY,
        _ => true,
    }
}

fn is_weighted(leaf: &Leaf) -> bool
    ensures { result ≡ is_weighted leaf.now }
{
    match leaf {
        Leaf::Pick { entries, weights } => {
            1 <= entries.len()
                && entries.len() <= MAX_ENTRIES
                && weights.len() == entries.len()
                && are_weights(weights.as_slice())
        }
        _ => true,
    }
}

/// Whether each of some weights is at least 1, and their sum is at most 2^32.
fn are_weights(weights: &[i64]) -> bool
    ensures { result ≡ (list_all (int_le (pos 1)) weights.now && nat_le (sum (map count weights.now)) (2 ^ 32)) }
{
    are_positive(weights) && total(weights) <= MAX_TOTAL
}

fn are_positive(weights: &[i64]) -> bool
    ensures { result ≡ list_all (int_le (pos 1)) weights.now }
{
    weights.iter().all(|weight| 1 <= *weight)
}

/// Returns the sum of some weights, at most 2^64 - 1.
fn total(weights: &[i64]) -> u64
    ensures { result ≡ capped (sum (map count weights.now)) }
{
    let mut total: u64 = 0;
    for weight in weights {
        total = total.saturating_add(count(*weight));
    }
    total
}

fn is_skew_range(leaf: &Leaf) -> bool
    ensures { result ≡ is_skew_range leaf.now }
{
    match leaf {
        Leaf::Skew { lo, size, power } => {
            1 <= *size
                && *size <= MAX_SIZE
                && 1 <= *power
                && *power <= MAX_POWER
                && is_last_in_range(*lo, *size)
        }
        _ => true,
    }
}

/// Whether the last of `size` numbers from `lo` on is at most 2^63 - 1.
fn is_last_in_range(lo: i64, size: i64) -> bool
    requires { pos 1 ≤ℤ size }
    ensures { result ≡ int_le (lo +ℤ (size -ℤ pos 1)) (pos (2 ^ 63 - 1)) }
{
    lo.checked_add(size - 1).is_some()
}

fn is_length_range(leaf: &Leaf) -> bool
    ensures { result ≡ is_length_range leaf.now }
{
    match leaf {
        Leaf::Words { lo, hi, .. } => is_length_between(*lo, *hi),
        Leaf::Chars { alphabet, lo, hi } => {
            is_length_between(*lo, *hi) && is_alphabet(alphabet.as_str())
        }
        _ => true,
    }
}

/// Whether `lo` is at least 0, `hi` at least `lo`, and `hi` at most the greatest length.
fn is_length_between(lo: i64, hi: i64) -> bool
    ensures { result ≡ is_length_between lo hi }
{
    0 <= lo && lo <= hi && hi <= MAX_LENGTH
}

/// Whether an alphabet has 1 to 256 characters.
fn is_alphabet(alphabet: &str) -> bool
    ensures { result ≡ (nat_le 1 (length (chars alphabet.now)) && nat_le (length (chars alphabet.now)) 256) }
{
    let characters = character_count(alphabet);
    1 <= characters && characters <= MAX_CHARACTERS
}

/// Returns the number of characters of a text, not of its bytes.
fn character_count(text: &str) -> usize
    ensures { result ≡ length (chars text.now) }
{
    text.chars().count()
}
