//! What is kept of a column to make its fields fast: the pieces of its entries or days, each with the byte after it.

ghost use Rattle.std.specs.Prelude.{◌≡◌, [], ◌<◌, ◌≤◌, ◌+◌, ◌-◌, ◌++◌, ◌∷◌, IfOk, length, map, neg_ℤ, pos, true, ◌+ℤ◌, ◌≤ℤ◌};
ghost use Rattle.std.specs.List.{list_all, range_with_len};
ghost use Rattle.line_pages.specs.Pieces.{piece_text};
ghost use Rattle.draw_values.specs.Dates.{date_text};
ghost use Rattle.draw_values.specs.ReadyValues.{IsReady};
ghost use Rattle.draw_values.specs.Runs.{IsReadyDrawn, choices_kept, is_itemized, is_itemized_leaf, is_short, is_short_leaf, is_short_number, is_short_text, items_of, kept_texts, leaf_texts, with_behind};

use crate::dates::day_piece;
use line_pages::Piece;
use out_of_memory::Memory;
use row_text::WrittenTexts;
use schema_plan::{ReadyKind, ReadyLeaf, ReadyWords};
use std::alloc::Global;

/// The most bytes of a text that makes a piece together with the byte after it.
const SHORT: usize = 15;

/// The first number of more than 13 digits.
const LONG_NUMBER: u64 = 10_000_000_000_000;

/// The most days whose pieces are kept.
pub(crate) const DAY_ROOM: u64 = 4096;

/// The most words whose pieces are kept.
pub(crate) const WORD_ROOM: usize = 65_536;

/// Whether each text of a column, also a null, is known to make a piece together with the byte after it.
pub(crate) fn is_short(kind: &ReadyKind) -> bool
    ensures { result ≡ is_short kind.now }
{
    match kind {
        ReadyKind::Born => true,
        ReadyKind::Changed => true,
        ReadyKind::Drawn(leaf) => is_short_leaf(leaf),
        ReadyKind::Case { branches, .. } => are_short_leaves(branches.as_slice()),
        ReadyKind::List(list) => are_short_words(&list.words),
        ReadyKind::UnitDate(_) => true,
        _ => false,
    }
}

/// Whether each text of some drawn values is known to be short.
fn are_short_leaves(leaves: &[ReadyLeaf]) -> bool
    ensures { result ≡ list_all is_short_leaf leaves.now }
{
    for leaf in leaves {
        if !is_short_leaf(leaf) {
            return false;
        }
    }
    true
}

/// Whether each text of a drawn value is known to be short.
fn is_short_leaf(leaf: &ReadyLeaf) -> bool
    ensures { result ≡ is_short_leaf leaf.now }
{
    match leaf {
        ReadyLeaf::Int { lo, hi, .. } => is_short_number(*lo) && is_short_number(*hi),
        ReadyLeaf::Fixed { lo, hi, .. } => is_short_number(*lo) && is_short_number(*hi),
        ReadyLeaf::Date { .. } => true,
        ReadyLeaf::Pick { entries, .. } => are_short(entries),
        ReadyLeaf::Skew { lo, .. } => is_short_number(*lo),
        ReadyLeaf::Chars { .. } => false,
        ReadyLeaf::Dict(words) => are_short_words(words),
        ReadyLeaf::Words { .. } => false,
        ReadyLeaf::Uuid => false,
    }
}

/// Whether a column's texts have several items, each known to be short.
pub(crate) fn is_itemized(kind: &ReadyKind) -> bool
    ensures { result ≡ is_itemized kind.now }
{
    match kind {
        ReadyKind::Drawn(leaf) => is_itemized_leaf(leaf),
        _ => false,
    }
}

/// Whether a drawn value has several items, each known to be short.
fn is_itemized_leaf(leaf: &ReadyLeaf) -> bool
    ensures { result ≡ is_itemized_leaf leaf.now }
{
    match leaf {
        ReadyLeaf::Chars { characters, .. } => are_short(characters),
        ReadyLeaf::Words { words, .. } => words.len() <= WORD_ROOM && are_short_words(words),
        _ => false,
    }
}

/// Whether a number has at most 13 digits.
fn is_short_number(number: i64) -> bool
    ensures { result ≡ is_short_number number }
{
    number.unsigned_abs() < LONG_NUMBER
}

/// Whether each of some texts has at most 15 bytes.
fn are_short(texts: &WrittenTexts) -> bool
    ensures { result ≡ list_all is_short_text texts.now }
{
    for i in 0..texts.len() {
        if texts.get(i).len() > SHORT {
            return false;
        }
    }
    true
}

/// Whether each of some words has at most 15 bytes as it is written.
fn are_short_words(words: &ReadyWords) -> bool
    ensures { result ≡ list_all is_short_text words.now.entries }
{
    for i in 0..words.len() {
        if words.entry(i).len() > SHORT {
            return false;
        }
    }
    true
}

/// Returns a text of at most 15 bytes and the byte after it.
#[inline(always)]
pub(crate) fn text_piece(bytes: &[u8], behind: u8) -> Piece
    requires { length bytes.now ≤ 15 }
    ensures { piece_text result ≡ bytes.now ++ behind ∷ [] }
{
    let mut piece = Piece::of_byte(behind);
    for i in 0..bytes.len() {
        piece = piece.prepend(bytes[bytes.len() - 1 - i]);
    }
    piece
}

/// Makes the pieces that are kept of a column.
pub(crate) fn kept_pieces(alloc: Global, kind: &ReadyKind, behind: u8) -> Result<Vec<Piece>, Memory>
    requires { IsReadyDrawn kind.now }
    ensures { IfOk result (λ pieces. map piece_text pieces.items ≡ kept_texts behind kind.now) }
{
    match kind {
        ReadyKind::Drawn(leaf) if is_short_leaf(leaf) => leaf_pieces(alloc, leaf, behind),
        ReadyKind::Drawn(leaf) if is_itemized_leaf(leaf) => item_pieces(alloc, leaf),
        ReadyKind::List(list) => list_pieces(alloc, &list.words, behind),
        _ => Ok(Vec::new(alloc)),
    }
}

/// Makes the pieces that are kept of words which rows take in turn.
fn list_pieces(alloc: Global, words: &ReadyWords, behind: u8) -> Result<Vec<Piece>, Memory>
    ensures { IfOk result (λ pieces. map piece_text pieces.items ≡ leaf_texts behind (ReadyLeaf.Dict words.now)) }
{
    if words.len() <= WORD_ROOM && are_short_words(words) {
        word_pieces(alloc, words, behind)
    } else {
        Ok(Vec::new(alloc))
    }
}

/// Makes the pieces that are kept of a drawn value whose texts are short.
fn leaf_pieces(alloc: Global, leaf: &ReadyLeaf, behind: u8) -> Result<Vec<Piece>, Memory>
    requires ready { IsReady leaf.now }
    requires short { is_short_leaf leaf.now ≡ true }
    ensures { IfOk result (λ pieces. map piece_text pieces.items ≡ map (with_behind behind) (choices_kept leaf.now)) }
{
    match leaf {
        ReadyLeaf::Date { lo, choices, .. } if choices.number() <= DAY_ROOM => {
            day_pieces(alloc, i64::from(*lo), choices.number(), behind)
        }
        ReadyLeaf::Pick { entries, .. } => entry_pieces(alloc, entries, behind),
        ReadyLeaf::Dict(words) if words.len() <= WORD_ROOM => word_pieces(alloc, words, behind),
        _ => Ok(Vec::new(alloc)),
    }
}

/// Makes the pieces of `count` days from a first one on.
fn day_pieces(alloc: Global, first: i64, count: u64, behind: u8) -> Result<Vec<Piece>, Memory>
    requires few { count ≤ 4096 }
    requires first_day { neg_ℤ (pos 719162) ≤ℤ first }
    requires last_day { (first +ℤ pos count) ≤ℤ pos 2932897 }
    ensures { IfOk result (λ pieces. map piece_text pieces.items ≡ map (with_behind behind) (map (λ day. date_text (first +ℤ pos day)) (range_with_len 0 count))) }
{
    let mut pieces = Vec::new(alloc);
    for day in 0..count {
        let date = day_past(first, day);
        pieces.push(day_piece(date, Piece::of_byte(behind)))?;
    }
    Ok(pieces)
}

/// Returns the day that is `days` days after another.
fn day_past(first: i64, days: u64) -> i64
    requires few { days < 4096 }
    requires last_day { first ≤ℤ pos 2932896 }
    ensures { result ≡ first +ℤ pos days }
{
    first + days as i64
}

/// Makes the pieces of some texts.
fn entry_pieces(alloc: Global, entries: &WrittenTexts, behind: u8) -> Result<Vec<Piece>, Memory>
    requires { list_all is_short_text entries.now ≡ true }
    ensures { IfOk result (λ pieces. map piece_text pieces.items ≡ map (with_behind behind) entries.now) }
{
    let mut pieces = Vec::new(alloc);
    for i in 0..entries.len() {
        pieces.push(text_piece(entries.get(i), behind))?;
    }
    Ok(pieces)
}

/// Makes the pieces of some words.
fn word_pieces(alloc: Global, words: &ReadyWords, behind: u8) -> Result<Vec<Piece>, Memory>
    requires { list_all is_short_text words.now.entries ≡ true }
    ensures { IfOk result (λ pieces. map piece_text pieces.items ≡ map (with_behind behind) words.now.entries) }
{
    let mut pieces = Vec::new(alloc);
    for i in 0..words.len() {
        pieces.push(text_piece(words.entry(i), behind))?;
    }
    Ok(pieces)
}

/// Makes the pieces of the items of a value, with no byte after them.
fn item_pieces(alloc: Global, leaf: &ReadyLeaf) -> Result<Vec<Piece>, Memory>
    requires { is_itemized_leaf leaf.now ≡ true }
    ensures { IfOk result (λ pieces. map piece_text pieces.items ≡ items_of leaf.now) }
{
    match leaf {
        ReadyLeaf::Chars { characters, .. } => bare_entries(alloc, characters),
        ReadyLeaf::Words { words, .. } => bare_words(alloc, words),
        _ => Ok(Vec::new(alloc)),
    }
}

/// Makes the pieces of some texts, with no byte after them.
fn bare_entries(alloc: Global, entries: &WrittenTexts) -> Result<Vec<Piece>, Memory>
    requires { list_all is_short_text entries.now ≡ true }
    ensures { IfOk result (λ pieces. map piece_text pieces.items ≡ entries.now) }
{
    let mut pieces = Vec::new(alloc);
    for i in 0..entries.len() {
        pieces.push(Piece::of(entries.get(i)))?;
    }
    Ok(pieces)
}

/// Makes the pieces of some words, with no byte after them.
fn bare_words(alloc: Global, words: &ReadyWords) -> Result<Vec<Piece>, Memory>
    requires { list_all is_short_text words.now.entries ≡ true }
    ensures { IfOk result (λ pieces. map piece_text pieces.items ≡ words.now.entries) }
{
    let mut pieces = Vec::new(alloc);
    for i in 0..words.len() {
        pieces.push(Piece::of(words.entry(i)))?;
    }
    Ok(pieces)
}
