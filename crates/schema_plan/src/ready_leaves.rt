//! Drawn values, made ready for rows.

ghost use Rattle.std.specs.Prelude.{◌≡◌, ◌≤◌, ◌+◌, ◌-◌, ◌^◌, IfOk, encode_utf8, length, map, sum};
ghost use Rattle.std.specs.Str.{chars};
ghost use Rattle.row_text.specs.Fields.{escaped_text};
ghost use Rattle.weight_tables.specs.Harmonic.{harmonic_weights};
ghost use Rattle.schema_facts.specs.Choices.{choices};
ghost use Rattle.schema_facts.specs.Counts.{count};
ghost use Rattle.schema_facts.specs.Layout.{leaf_layout};
ghost use Rattle.schema_plan.specs.Limits.{IsAlphabet, IsDateRange, IsLeafInLimits, IsLengthRange, IsRange, IsSkew, IsWeighted};
ghost use Rattle.schema_plan.specs.Ready.{ready_leaf};

use crate::ready::ReadyLeaf;
use crate::ready_words::{Lexicon, ReadyWords};
use fixed_divisors::FixedDivisor;
use out_of_memory::Memory;
use row_text::WrittenTexts;
use schema_facts::count;
use schema_model::{Leaf, Text};
use std::alloc::Global;
use weight_tables::Weights;

/// Makes ready a drawn value within its limits. Refuses if memory is wanting.
pub(crate) fn ready_leaf(
    alloc: Global,
    lexicon: &Lexicon<'_>,
    leaf: &Leaf,
) -> Result<ReadyLeaf, Memory>
    requires { IsLeafInLimits (leaf_layout lexicon.now.dictionaries leaf.now) }
    ensures { IfOk result (λ ready. ready ≡ ready_leaf lexicon.now.delimiter (leaf_layout lexicon.now.dictionaries leaf.now)) }
{
    let delimiter = lexicon.delimiter();
    match leaf {
        Leaf::Int { lo, hi, step } => Ok(ready_int(*lo, *hi, *step)),
        Leaf::Fixed { lo, hi, decimals } => Ok(ready_fixed(*lo, *hi, *decimals)),
        Leaf::Date { lo, hi } => Ok(ready_date(*lo, *hi)),
        Leaf::Pick { entries, weights } => {
            ready_pick(alloc, delimiter, entries.as_slice(), weights.as_slice())
        }
        Leaf::Skew { lo, size, power } => ready_skew(alloc, *lo, *size, *power),
        Leaf::Chars { alphabet, lo, hi } => {
            ready_chars(alloc, delimiter, alphabet.as_str(), *lo, *hi)
        }
        Leaf::Dict { file } => Ok(ReadyLeaf::Dict(lexicon.words(file)?)),
        Leaf::Words { file, lo, hi } => {
            let words = lexicon.words(file)?;
            Ok(ready_text(words, *lo, *hi))
        }
        Leaf::Uuid => Ok(ReadyLeaf::Uuid),
    }
}

/// Returns how many numbers there are from `lo` to `hi` in steps. The first is `lo`.
pub(crate) fn choices(lo: i64, hi: i64, step: u64) -> FixedDivisor
    requires range { IsRange lo hi }
    requires step { 1 ≤ step }
    ensures { result ≡ choices lo hi step }
{
    FixedDivisor::new((hi - lo) as u64 / step + 1)
}

fn ready_int(lo: i64, hi: i64, step: i64) -> ReadyLeaf
    requires range { IsRange lo hi }
    requires step { 1 ≤ count step }
    ensures { result ≡ ReadyLeaf.Int lo hi (count step) (choices lo hi (count step)) }
{
    let step = count(step);
    ReadyLeaf::Int {
        lo,
        hi,
        step,
        choices: choices(lo, hi, step),
    }
}

fn ready_fixed(lo: i64, hi: i64, decimals: i64) -> ReadyLeaf
    requires range { IsRange lo hi }
    requires decimals { count decimals ≤ 9 }
    ensures { result ≡ ReadyLeaf.Fixed lo hi (choices lo hi 1) (count decimals) (10 ^ count decimals) }
{
    let decimals = count(decimals) as u32;
    ReadyLeaf::Fixed {
        lo,
        hi,
        choices: choices(lo, hi, 1),
        decimals,
        unit: FixedDivisor::new(10u64.pow(decimals)),
    }
}

fn ready_date(lo: i32, hi: i32) -> ReadyLeaf
    requires { IsDateRange lo hi }
    ensures { result ≡ ReadyLeaf.Date lo hi (choices lo hi 1) }
{
    ReadyLeaf::Date {
        lo,
        hi,
        choices: choices(i64::from(lo), i64::from(hi), 1),
    }
}

fn ready_pick(
    alloc: Global,
    delimiter: u8,
    entries: &[Text],
    weights: &[i64],
) -> Result<ReadyLeaf, Memory>
    requires { IsWeighted entries.now (map count weights.now) }
    ensures { IfOk result (λ ready. ready ≡ ReadyLeaf.Pick (map (escaped_text delimiter) entries.now)
        (map count weights.now) (sum (map count weights.now))) }
{
    let entries = written_entries(alloc, delimiter, entries)?;
    let weights = Weights::new(alloc, &counts(alloc, weights)?)?;
    let total = FixedDivisor::new(weights.total());
    Ok(ReadyLeaf::Pick {
        entries,
        weights,
        total,
    })
}

/// Returns the entries as they are written.
fn written_entries(alloc: Global, delimiter: u8, entries: &[Text]) -> Result<WrittenTexts, Memory>
    ensures { IfOk result (λ written. written ≡ map (escaped_text delimiter) entries.now) }
{
    let mut written = WrittenTexts::new(alloc);
    for entry in entries {
        written.push(entry.as_str().as_bytes(), delimiter)?;
    }
    Ok(written)
}

/// Returns numbers of a schema as counts.
pub(crate) fn counts(alloc: Global, numbers: &[i64]) -> Result<Vec<u64>, Memory>
    ensures { IfOk result (λ counts. counts.items ≡ map count numbers.now) }
{
    let mut counts = Vec::with_capacity(alloc, numbers.len())?;
    for number in numbers {
        counts.push(count(*number))?;
    }
    Ok(counts)
}

fn ready_skew(alloc: Global, lo: i64, size: i64, power: i64) -> Result<ReadyLeaf, Memory>
    requires { IsSkew lo (count size) (count power) }
    ensures { IfOk result (λ ready. ready ≡ ReadyLeaf.Skew lo (harmonic_weights (count size) (count power))
        (sum (harmonic_weights (count size) (count power)))) }
{
    let weights = Weights::harmonic(alloc, count(size) as u32, count(power) as u32)?;
    let total = FixedDivisor::new(weights.total());
    Ok(ReadyLeaf::Skew { lo, weights, total })
}

fn ready_text(words: ReadyWords, lo: i64, hi: i64) -> ReadyLeaf
    requires { IsLengthRange (count lo) (count hi) }
    ensures { result ≡ ReadyLeaf.Words (count lo) (count hi - count lo + 1) words }
{
    ReadyLeaf::Words {
        lo: count(lo),
        lengths: FixedDivisor::new(count(hi) - count(lo) + 1),
        words,
    }
}

fn ready_chars(
    alloc: Global,
    delimiter: u8,
    alphabet: &str,
    lo: i64,
    hi: i64,
) -> Result<ReadyLeaf, Memory>
    requires alphabet { IsAlphabet alphabet.now }
    requires lengths { IsLengthRange (count lo) (count hi) }
    ensures { IfOk result (λ ready. ready ≡ ReadyLeaf.Chars (count lo) (count hi - count lo + 1)
        (map (λ c. escaped_text delimiter (encode_utf8 c)) (chars alphabet.now)) (length (chars alphabet.now))) }
{
    let characters = written_characters(alloc, delimiter, alphabet)?;
    let number = FixedDivisor::new(characters.len() as u64);
    Ok(ReadyLeaf::Chars {
        lo: count(lo),
        lengths: FixedDivisor::new(count(hi) - count(lo) + 1),
        characters,
        count: number,
    })
}

/// Returns the characters of an alphabet as they are written.
fn written_characters(alloc: Global, delimiter: u8, alphabet: &str) -> Result<WrittenTexts, Memory>
    ensures { IfOk result (λ written. written ≡ map (λ c. escaped_text delimiter (encode_utf8 c)) (chars alphabet.now)) }
{
    let mut written = WrittenTexts::new(alloc);
    let mut bytes = [0; 4];
    for c in alphabet.chars() {
        written.push(c.encode_utf8(&mut bytes).as_bytes(), delimiter)?;
    }
    Ok(written)
}
