//! Values of several items: characters or words. The numbers of items are drawn over a run. The items are drawn field by field,
//! several draws side by side.

ghost use Rattle.std.specs.Prelude.{◌≡◌, ℕ, ◌<◌, ◌≤◌, ◌+◌, ◌%◌, ◌^◌, ◌++◌, [], None, Some, flat_map, if◌then◌else◌, length, map, nat_lt, slice_index, slice_index_or, true};
ghost use Rattle.std.specs.List.{range_with_len};
ghost use Rattle.philox_seeds.specs.SeedTree.{draw as draw_of};
ghost use Rattle.line_pages.specs.Pieces.{piece_text};
ghost use Rattle.line_pages.specs.Rows.{piece_text_at};
ghost use Rattle.draw_values.specs.Items.{item_count, item_place, item_texts, is_spaced, space_before};
ghost use Rattle.draw_values.specs.ReadyValues.{IsReady, ready_size};
ghost use Rattle.draw_values.specs.Runs.{is_itemized_leaf, items_of};
ghost use Rattle.draw_values.specs.Values.{Draws};

use crate::run_loops::choose_words;
use fixed_divisors::FixedDivisor;
use line_pages::{PageBuf, Piece};
use philox_seeds::draw;
use schema_plan::ReadyLeaf;

/// The draw of the first item. The draw before it tells the number of items.
const FIRST_ITEM: u32 = 2;

/// How many items are drawn side by side.
const AT_ONCE: usize = 16;

/// What is drawn for a field of several items before the items themselves.
#[derive(Clone, Copy)]
pub struct ItemizedField {
    /// The seed of the field's row.
    pub(crate) seed: u64,
    /// The number of items; None if the field is null.
    pub(crate) count: Option<u64>,
}

impl ItemizedField {
    /// Returns room for what is drawn for a field.
    pub fn new() -> ItemizedField {
        ItemizedField {
            seed: 0,
            count: None,
        }
    }
}

/// Puts the seed of each field's row and the field's number of items. That number is `lo` plus the remainder of the draw by
/// `lengths`.
#[inline(always)]
pub(crate) fn put_counts(
    lo: u64,
    lengths: &FixedDivisor,
    seeds: &[u64],
    draws: &[u64],
    fields: &mut [ItemizedField],
)
    requires few { lo + lengths.now ≤ 1001 }
    requires seeds { length seeds.now ≡ length fields.old }
    requires draws { length draws.now ≡ length fields.old }
    ensures { (i : ℕ) (d : ItemizedField) → i < length fields.old →
        slice_index_or fields.new i d ≡ record { seed = slice_index seeds.now i; count = Some (lo + slice_index draws.now i % lengths.now) } }
{
    for (i, field) in fields.iter_mut().enumerate() {
        *field = ItemizedField {
            seed: seeds[i],
            count: Some(lo + lengths.remainder(draws[i])),
        };
    }
}

/// Makes a field null if the remainder of its draw by 1000 is less than `null`.
#[inline(always)]
pub(crate) fn put_null_counts(null: u64, draws: &[u64], fields: &mut [ItemizedField])
    requires { length draws.now ≡ length fields.old }
    ensures { (i : ℕ) (d : ItemizedField) → i < length fields.old →
        slice_index_or fields.new i d
        ≡ record { seed = (slice_index_or fields.old i d).seed; count = if nat_lt (slice_index draws.now i % 1000) null then None else (slice_index_or fields.old i d).count } }
{
    for (i, field) in fields.iter_mut().enumerate() {
        *field = field_unless(draws[i] % 1000 < null, *field);
    }
}

/// Returns the field, made null if `null` is true.
#[inline(always)]
fn field_unless(null: bool, field: ItemizedField) -> ItemizedField
    ensures { result ≡ record { seed = field.seed; count = if null then None else field.count } }
{
    ItemizedField {
        seed: field.seed,
        count: if null { None } else { field.count },
    }
}

/// Appends `count` items of a value, drawn with the seed of a row. `kept` holds the items to choose from. The greatest size of the
/// value must be free.
#[inline(always)]
pub(crate) fn put_items(leaf: &ReadyLeaf, kept: &[Piece], count: u64, seed: u64, page: &mut PageBuf)
    requires ready { IsReady leaf.now }
    requires itemized { is_itemized_leaf leaf.now ≡ true }
    requires kept { map piece_text kept.now ≡ items_of leaf.now }
    requires count { (number : ℕ) × (count ≡ item_count leaf.now number) }
    requires room { length page.old.text + ready_size leaf.now ≤ page.old.room }
    ensures text { page.new ≡ record page.old { text = page.old.text ++ item_texts leaf.now (draw_of seed) 0 count } }
    ensures size { length (item_texts leaf.now (draw_of seed) 0 count) ≤ ready_size leaf.now }
{
    let _most = most_items(leaf); // they fit, and each has a draw
    let mut draws = [0; AT_ONCE];
    let all_draws = &mut draws[..];
    let mut done = 0;
    while done < count {
        let some = (count - done).min(AT_ONCE as u64);
        let few = &mut all_draws[..some as usize];
        put_some_items(leaf, kept, done, seed, few, page);
        done += some;
    }
}

/// Returns the most items that a value can have.
#[inline(always)]
fn most_items(leaf: &ReadyLeaf) -> u64
    requires ready { IsReady leaf.now }
    requires itemized { is_itemized_leaf leaf.now ≡ true }
    ensures most { (number : ℕ) → item_count leaf.now number ≤ result }
    ensures few { result ≤ 1000 }
    ensures size { (draws : Draws) (count : ℕ) → count ≤ result → length (item_texts leaf.now draws 0 count) ≤ ready_size leaf.now }
{
    match leaf {
        ReadyLeaf::Chars { lo, lengths, .. } => *lo + lengths.number() - 1,
        ReadyLeaf::Words { lo, lengths, .. } => *lo + lengths.number() - 1,
        _ => unreachable!(),
    }
}

/// Appends as many items as there are draws, from the place `first` of the value on. They must fit.
#[inline(always)]
fn put_some_items(
    leaf: &ReadyLeaf,
    kept: &[Piece],
    first: u64,
    seed: u64,
    draws: &mut [u64],
    page: &mut PageBuf,
)
    requires ready { IsReady leaf.now }
    requires itemized { is_itemized_leaf leaf.now ≡ true }
    requires kept { map piece_text kept.now ≡ items_of leaf.now }
    requires few { first + length draws.old ≤ 1000 }
    requires room { length page.old.text + length (item_texts leaf.now (draw_of seed) first (length draws.old)) ≤ page.old.room }
    ensures { page.new ≡ record page.old { text = page.old.text ++ item_texts leaf.now (draw_of seed) first (length draws.old) } }
{
    put_item_draws(seed, FIRST_ITEM + first as u32, draws);
    choose_items(leaf, draws);
    put_pieces(kept, draws, is_spaced(leaf), first, page);
}

/// Fills `draws` with draws of a seed, from the draw `first` on.
#[inline(always)]
fn put_item_draws(seed: u64, first: u32, draws: &mut [u64])
    requires { first + length draws.old ≤ 2 ^ 32 }
    ensures { (i : ℕ) → i < length draws.old → slice_index draws.new i ≡ draw_of seed (first + i) }
{
    for (i, number) in draws.iter_mut().enumerate() {
        *number = draw(seed, first + i as u32);
    }
}

/// Replaces each draw with the place of the item that it chooses.
#[inline(always)]
fn choose_items(leaf: &ReadyLeaf, draws: &mut [u64])
    requires ready { IsReady leaf.now }
    requires itemized { is_itemized_leaf leaf.now ≡ true }
    ensures places { (i : ℕ) → i < length draws.old → slice_index draws.new i ≡ item_place leaf.now (slice_index draws.old i) }
    ensures within { (i : ℕ) → i < length draws.old → slice_index draws.new i < length (items_of leaf.now) }
{
    match leaf {
        ReadyLeaf::Chars { count, .. } => choose_evenly(count, draws),
        ReadyLeaf::Words { words, .. } => choose_words(words, draws),
        _ => unreachable!(),
    }
}

/// Replaces each draw with its remainder by `count`, the number of items to choose from.
#[inline(always)]
fn choose_evenly(count: &FixedDivisor, draws: &mut [u64])
    ensures places { (i : ℕ) → i < length draws.old → slice_index draws.new i ≡ slice_index draws.old i % count.now }
    ensures within { (i : ℕ) → i < length draws.old → slice_index draws.new i < count.now }
{
    let _some = count.number(); // it is at least 1
    count.remainders(draws);
}

/// Whether a space stands between two items.
#[inline(always)]
fn is_spaced(leaf: &ReadyLeaf) -> bool
    ensures { result ≡ is_spaced leaf.now }
{
    match leaf {
        ReadyLeaf::Words { .. } => true,
        _ => false,
    }
}

/// Appends the kept items at the given places, from the place `first` of the value on. If `spaced` is true, a space stands between
/// two items. They must fit.
#[inline(always)]
fn put_pieces(kept: &[Piece], places: &[u64], spaced: bool, first: u64, page: &mut PageBuf)
    requires within { (i : ℕ) → i < length places.now → slice_index places.now i < length kept.now }
    requires few { first + length places.now < 2 ^ 64 }
    requires room { length page.old.text + length (flat_map (λ i. space_before spaced (first + i) ++ piece_text_at kept.now (slice_index places.now i)) (range_with_len 0 (length places.now))) ≤ page.old.room }
    ensures { page.new ≡ record page.old { text = page.old.text ++ flat_map (λ i. space_before spaced (first + i) ++ piece_text_at kept.now (slice_index places.now i)) (range_with_len 0 (length places.now)) } }
{
    for (i, place) in places.iter().enumerate() {
        put_space(spaced, first + i as u64, page);
        page.put_piece(&kept[*place as usize]);
    }
}

/// Appends the space before the item at a place, if there is one.
#[inline(always)]
fn put_space(spaced: bool, place: u64, page: &mut PageBuf)
    requires { length page.old.text + length (space_before spaced place) ≤ page.old.room }
    ensures { page.new ≡ record page.old { text = page.old.text ++ space_before spaced place } }
{
    if spaced && place > 0 {
        page.put_piece(&Piece::of_byte(b' '));
    }
}
