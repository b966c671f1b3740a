//! The pieces of drawn values over a run, by their draws. There is one loop for each kind. Each piece has the byte after its field.

ghost use Rattle.std.specs.Prelude.{◌≡◌, ℕ, ◌<◌, ◌≤◌, ◌+◌, ◌-◌, ◌%◌, ◌^◌, [], IfSome, decimal, length, map, neg_ℤ, pos, slice_index, slice_index_or, sum, true, ◌+ℤ◌, ◌-ℤ◌, ◌<ℤ◌, ◌≤ℤ◌};
ghost use Rattle.std.specs.Fmt.{signed_decimal};
ghost use Rattle.std.specs.List.{list_all};
ghost use Rattle.line_pages.specs.Pieces.{piece_text};
ghost use Rattle.schema_facts.specs.Choices.{choices as choices_of};
ghost use Rattle.draw_values.specs.Dates.{date_text};
ghost use Rattle.draw_values.specs.Digits.{signed_pointed};
ghost use Rattle.draw_values.specs.ReadyValues.{IsReady, IsReadyList, ready_entry_in_turn};
ghost use Rattle.draw_values.specs.Runs.{is_short_leaf, is_short_number, is_short_text, leaf_texts, text_by, with_behind};
ghost use Rattle.draw_values.specs.Values.{chosen as chosen_of, chosen_group};

use crate::dates::day_piece;
use crate::fixed::fixed_piece;
use crate::kept::{DAY_ROOM, WORD_ROOM, text_piece};
use crate::numbers::{chosen, whole_piece};
use crate::run_loops::{choose_groups, choose_words, fill_kept};
use crate::weighted::skewed;
use fixed_divisors::FixedDivisor;
use line_pages::{Digits, Piece};
use row_text::WrittenTexts;
use schema_plan::{ReadyLeaf, ReadyList, ReadyWords};
use weight_tables::Weights;

/// Makes the pieces of units of at most 5 digits. Neighbours often have one unit, and then its piece is made once.
#[inline(always)]
pub(crate) fn fill_units(digits: &Digits, units: &[u64], behind: u8, pieces: &mut [Piece])
    requires lengths { length units.now ≡ length pieces.old }
    requires small { (i : ℕ) → i < length units.now → slice_index units.now i ≤ 10000 }
    ensures { (i : ℕ) → i < length pieces.old → slice_index_or (map piece_text pieces.new) i [] ≡ with_behind behind (decimal (slice_index units.now i)) }
{
    let mut unit = 0;
    let mut made = digits.piece(unit, behind);
    for (i, piece) in pieces.iter_mut().enumerate() {
        made = unit_piece(digits, units[i], unit, made, behind);
        unit = units[i];
        *piece = made;
    }
}

/// Returns the piece of a unit with the byte after it. Returns the piece `made` if it is of the same unit.
#[inline(always)]
fn unit_piece(digits: &Digits, unit: u64, made_of: u64, made: Piece, behind: u8) -> Piece
    requires small { unit ≤ 10000 }
    requires made { piece_text made ≡ with_behind behind (decimal made_of) }
    ensures { piece_text result ≡ with_behind behind (decimal unit) }
{
    if unit == made_of {
        made
    } else {
        digits.piece(unit, behind)
    }
}

/// Makes the values that draws give of a leaf whose texts are short. `kept` holds the leaf's kept pieces, if they are given.
#[inline(always)]
pub(crate) fn fill_leaf(
    digits: &Digits,
    leaf: &ReadyLeaf,
    kept: Option<&[Piece]>,
    draws: &mut [u64],
    behind: u8,
    pieces: &mut [Piece],
)
    requires ready { IsReady leaf.now }
    requires short { is_short_leaf leaf.now ≡ true }
    requires kept { IfSome kept (λ kept. map piece_text kept.now ≡ leaf_texts behind leaf.now) }
    requires lengths { length draws.old ≡ length pieces.old }
    ensures { (i : ℕ) → i < length pieces.old → slice_index_or (map piece_text pieces.new) i [] ≡ with_behind behind (text_by leaf.now (slice_index draws.old i)) }
{
    match leaf {
        ReadyLeaf::Int {
            lo,
            hi,
            step,
            choices,
        } => fill_whole(digits, *lo, *hi, *step, choices, draws, behind, pieces),
        ReadyLeaf::Fixed {
            lo,
            hi,
            choices,
            decimals,
            unit,
        } => fill_fixed(
            digits, *lo, *hi, choices, *decimals, unit, draws, behind, pieces,
        ),
        ReadyLeaf::Date { lo, hi, choices } => {
            fill_dates(*lo, *hi, choices, kept, draws, behind, pieces);
        }
        ReadyLeaf::Pick {
            entries,
            weights,
            total,
        } => fill_picked(entries, weights, total, kept, draws, behind, pieces),
        ReadyLeaf::Skew { lo, weights, total } => {
            fill_skewed(digits, *lo, weights, total, draws, behind, pieces);
        }
        ReadyLeaf::Dict(words) => fill_chosen(words, kept, draws, behind, pieces),
        _ => unreachable!(),
    }
}

/// Makes whole numbers.
#[inline(always)]
fn fill_whole(
    digits: &Digits,
    lo: i64,
    hi: i64,
    step: u64,
    choices: &FixedDivisor,
    draws: &[u64],
    behind: u8,
    pieces: &mut [Piece],
)
    requires ordered { lo ≤ℤ hi }
    requires near { (hi -ℤ lo) <ℤ pos (2 ^ 63) }
    requires step { 1 ≤ step }
    requires choices { choices.now ≡ choices_of lo hi step }
    requires short_lo { is_short_number lo ≡ true }
    requires short_hi { is_short_number hi ≡ true }
    requires lengths { length draws.now ≡ length pieces.old }
    ensures { (i : ℕ) → i < length pieces.old → slice_index_or (map piece_text pieces.new) i [] ≡ with_behind behind (signed_decimal (chosen_of lo hi step (slice_index draws.now i))) }
{
    let divisor = *choices;
    for (i, piece) in pieces.iter_mut().enumerate() {
        let value = chosen(lo, hi, step, &divisor, draws[i]);
        *piece = whole_piece(digits, value, behind);
    }
}

/// Makes numbers with a point.
#[inline(always)]
fn fill_fixed(
    digits: &Digits,
    lo: i64,
    hi: i64,
    choices: &FixedDivisor,
    decimals: u32,
    unit: &FixedDivisor,
    draws: &[u64],
    behind: u8,
    pieces: &mut [Piece],
)
    requires ordered { lo ≤ℤ hi }
    requires near { (hi -ℤ lo) <ℤ pos (2 ^ 63) }
    requires choices { choices.now ≡ choices_of lo hi 1 }
    requires decimals { decimals ≤ 9 }
    requires unit { unit.now ≡ 10 ^ decimals }
    requires short_lo { is_short_number lo ≡ true }
    requires short_hi { is_short_number hi ≡ true }
    requires lengths { length draws.now ≡ length pieces.old }
    ensures { (i : ℕ) → i < length pieces.old → slice_index_or (map piece_text pieces.new) i [] ≡ with_behind behind (signed_pointed decimals (chosen_of lo hi 1 (slice_index draws.now i))) }
{
    let divisor = *choices;
    let unit = *unit;
    for (i, piece) in pieces.iter_mut().enumerate() {
        let value = chosen(lo, hi, 1, &divisor, draws[i]);
        *piece = fixed_piece(digits, value, decimals, &unit, behind);
    }
}

/// Makes dates.
#[inline(always)]
fn fill_dates(
    lo: i32,
    hi: i32,
    choices: &FixedDivisor,
    kept: Option<&[Piece]>,
    draws: &mut [u64],
    behind: u8,
    pieces: &mut [Piece],
)
    requires ready { IsReady (ReadyLeaf.Date lo hi choices.now) }
    requires kept { IfSome kept (λ kept. map piece_text kept.now ≡ leaf_texts behind (ReadyLeaf.Date lo hi choices.now)) }
    requires lengths { length draws.old ≡ length pieces.old }
    ensures { (i : ℕ) → i < length pieces.old → slice_index_or (map piece_text pieces.new) i [] ≡ with_behind behind (date_text (chosen_of lo hi 1 (slice_index draws.old i))) }
{
    match kept {
        Some(kept) => fill_kept_dates(lo, hi, choices, kept, draws, behind, pieces),
        None => fill_days(i64::from(lo), i64::from(hi), choices, draws, behind, pieces),
    }
}

/// Makes dates, from the kept days if there are few enough days to keep.
#[inline(always)]
fn fill_kept_dates(
    lo: i32,
    hi: i32,
    choices: &FixedDivisor,
    kept: &[Piece],
    draws: &mut [u64],
    behind: u8,
    pieces: &mut [Piece],
)
    requires ready { IsReady (ReadyLeaf.Date lo hi choices.now) }
    requires kept { map piece_text kept.now ≡ leaf_texts behind (ReadyLeaf.Date lo hi choices.now) }
    requires lengths { length draws.old ≡ length pieces.old }
    ensures { (i : ℕ) → i < length pieces.old → slice_index_or (map piece_text pieces.new) i [] ≡ with_behind behind (date_text (chosen_of lo hi 1 (slice_index draws.old i))) }
{
    if choices.number() <= DAY_ROOM {
        choices.remainders(draws);
        fill_kept(kept, draws, pieces);
    } else {
        fill_days(i64::from(lo), i64::from(hi), choices, draws, behind, pieces);
    }
}

/// Makes dates whose pieces aren't kept.
#[inline(always)]
fn fill_days(
    lo: i64,
    hi: i64,
    choices: &FixedDivisor,
    draws: &[u64],
    behind: u8,
    pieces: &mut [Piece],
)
    requires first_day { neg_ℤ (pos 719162) ≤ℤ lo }
    requires ordered { lo ≤ℤ hi }
    requires last_day { hi ≤ℤ pos 2932896 }
    requires choices { choices.now ≡ choices_of lo hi 1 }
    requires lengths { length draws.now ≡ length pieces.old }
    ensures { (i : ℕ) → i < length pieces.old → slice_index_or (map piece_text pieces.new) i [] ≡ with_behind behind (date_text (chosen_of lo hi 1 (slice_index draws.now i))) }
{
    let divisor = *choices;
    for (i, piece) in pieces.iter_mut().enumerate() {
        let day = chosen(lo, hi, 1, &divisor, draws[i]);
        *piece = day_piece(day, Piece::of_byte(behind));
    }
}

/// Makes skewed numbers.
#[inline(always)]
fn fill_skewed(
    digits: &Digits,
    lo: i64,
    weights: &Weights,
    total: &FixedDivisor,
    draws: &[u64],
    behind: u8,
    pieces: &mut [Piece],
)
    requires few { length weights.now ≤ 4096 }
    requires last { (lo +ℤ pos (length weights.now - 1)) <ℤ pos (2 ^ 63) }
    requires total { total.now ≡ sum weights.now }
    requires short { is_short_number lo ≡ true }
    requires lengths { length draws.now ≡ length pieces.old }
    ensures { (i : ℕ) → i < length pieces.old → slice_index_or (map piece_text pieces.new) i [] ≡ with_behind behind (signed_decimal (lo +ℤ pos (chosen_group weights.now (slice_index draws.now i)))) }
{
    for (i, piece) in pieces.iter_mut().enumerate() {
        let value = skewed(lo, weights, total, draws[i]);
        *piece = whole_piece(digits, value, behind);
    }
}

/// Makes entries that weights choose.
#[inline(always)]
fn fill_picked(
    entries: &WrittenTexts,
    weights: &Weights,
    total: &FixedDivisor,
    kept: Option<&[Piece]>,
    draws: &mut [u64],
    behind: u8,
    pieces: &mut [Piece],
)
    requires ready { IsReady (ReadyLeaf.Pick entries.now weights.now total.now) }
    requires short { list_all is_short_text entries.now ≡ true }
    requires kept { IfSome kept (λ kept. map piece_text kept.now ≡ map (with_behind behind) entries.now) }
    requires lengths { length draws.old ≡ length pieces.old }
    ensures { (i : ℕ) → i < length pieces.old → slice_index_or (map piece_text pieces.new) i [] ≡ with_behind behind (slice_index_or entries.now (chosen_group weights.now (slice_index draws.old i)) []) }
{
    choose_groups(weights, total, draws);
    match kept {
        Some(kept) => fill_kept(kept, draws, pieces),
        None => fill_entries(entries, draws, behind, pieces),
    }
}

/// Makes the entries at places whose pieces aren't kept.
#[inline(always)]
fn fill_entries(entries: &WrittenTexts, places: &[u64], behind: u8, pieces: &mut [Piece])
    requires short { list_all is_short_text entries.now ≡ true }
    requires within { (i : ℕ) → i < length places.now → slice_index places.now i < length entries.now }
    requires lengths { length places.now ≡ length pieces.old }
    ensures { (i : ℕ) → i < length pieces.old → slice_index_or (map piece_text pieces.new) i [] ≡ with_behind behind (slice_index_or entries.now (slice_index places.now i) []) }
{
    for (i, piece) in pieces.iter_mut().enumerate() {
        *piece = text_piece(entries.get(places[i] as usize), behind);
    }
}

/// Makes the entries of a list that rows with these ordinals take. Their places are put into `places`.
#[inline(always)]
pub(crate) fn fill_in_turn(
    list: &ReadyList,
    kept: &[Piece],
    ordinals: &[u64],
    places: &mut [u64],
    behind: u8,
    pieces: &mut [Piece],
)
    requires ready { IsReadyList list.now }
    requires short { list_all is_short_text list.now.words.entries ≡ true }
    requires kept { map piece_text kept.now ≡ leaf_texts behind (ReadyLeaf.Dict list.now.words) }
    requires ordinals { length ordinals.now ≡ length pieces.old }
    requires places { length places.old ≡ length pieces.old }
    ensures { (i : ℕ) → i < length pieces.old → slice_index_or (map piece_text pieces.new) i [] ≡ with_behind behind (ready_entry_in_turn list.now (slice_index ordinals.now i)) }
{
    put_places(list, ordinals, places);
    fill_places(&list.words, Some(kept), places, behind, pieces);
}

/// Finds the places of the entries that rows with these ordinals take.
#[inline(always)]
fn put_places(list: &ReadyList, ordinals: &[u64], places: &mut [u64])
    requires ready { IsReadyList list.now }
    requires lengths { length ordinals.now ≡ length places.old }
    ensures exact { (i : ℕ) → i < length places.old → slice_index places.new i ≡ slice_index ordinals.now i % list.now.count }
    ensures within { (i : ℕ) → i < length places.old → slice_index places.new i < length list.now.words.entries }
{
    let _some = list.count.number(); // it is at least 1
    places.copy_from_slice(ordinals);
    list.count.remainders(places);
}

/// Makes the words that draws choose. If pieces are given, a list of at most 65,536 words has all its pieces among them.
#[inline(always)]
fn fill_chosen(
    words: &ReadyWords,
    kept: Option<&[Piece]>,
    draws: &mut [u64],
    behind: u8,
    pieces: &mut [Piece],
)
    requires short { list_all is_short_text words.now.entries ≡ true }
    requires kept { IfSome kept (λ kept. map piece_text kept.now ≡ leaf_texts behind (ReadyLeaf.Dict words.now)) }
    requires lengths { length draws.old ≡ length pieces.old }
    ensures { (i : ℕ) → i < length pieces.old → slice_index_or (map piece_text pieces.new) i [] ≡ with_behind behind (slice_index_or words.now.entries (chosen_group words.now.weights (slice_index draws.old i)) []) }
{
    choose_words(words, draws);
    fill_places(words, kept, draws, behind, pieces);
}

/// Makes the words at places, from the kept pieces if these are given and the words are few enough to keep.
#[inline(always)]
fn fill_places(
    words: &ReadyWords,
    kept: Option<&[Piece]>,
    places: &[u64],
    behind: u8,
    pieces: &mut [Piece],
)
    requires short { list_all is_short_text words.now.entries ≡ true }
    requires kept { IfSome kept (λ kept. map piece_text kept.now ≡ leaf_texts behind (ReadyLeaf.Dict words.now)) }
    requires within { (i : ℕ) → i < length places.now → slice_index places.now i < length words.now.entries }
    requires lengths { length places.now ≡ length pieces.old }
    ensures { (i : ℕ) → i < length pieces.old → slice_index_or (map piece_text pieces.new) i [] ≡ with_behind behind (slice_index_or words.now.entries (slice_index places.now i) []) }
{
    match kept {
        Some(kept) if words.len() <= WORD_ROOM => fill_kept(kept, places, pieces),
        _ => fill_words(words, places, behind, pieces),
    }
}

/// Makes the words at places whose pieces aren't kept.
#[inline(always)]
fn fill_words(words: &ReadyWords, places: &[u64], behind: u8, pieces: &mut [Piece])
    requires short { list_all is_short_text words.now.entries ≡ true }
    requires within { (i : ℕ) → i < length places.now → slice_index places.now i < length words.now.entries }
    requires lengths { length places.now ≡ length pieces.old }
    ensures { (i : ℕ) → i < length pieces.old → slice_index_or (map piece_text pieces.new) i [] ≡ with_behind behind (slice_index_or words.now.entries (slice_index places.now i) []) }
{
    for (i, piece) in pieces.iter_mut().enumerate() {
        *piece = text_piece(words.entry(places[i] as usize), behind);
    }
}
