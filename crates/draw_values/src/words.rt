//! Drawn words of dictionaries, onto a page.

ghost use Rattle.std.specs.Prelude.{◌≡◌, ◌<◌, ◌≤◌, ◌+◌, ◌==◌, ◌++◌, ◌∷◌, [], if◌then◌else◌, length, min, slice_index_or};
ghost use Rattle.philox_seeds.specs.SeedTree.{draw as draw_of};
ghost use Rattle.schema_facts.specs.FieldSizes.{greatest_by, joined_size};
ghost use Rattle.draw_values.specs.Values.{chosen_group, drawn_words};

use line_pages::{PageBuf, Piece};
use philox_seeds::draw;
use schema_plan::ReadyWords;

/// The draw of the first word. The draw before it tells the number of words.
const FIRST_WORD: u32 = 2;

/// Appends the word that a draw chooses, as it is written. The size of the greatest word must be free.
#[inline(always)]
pub(crate) fn put_word(words: &ReadyWords, draw: u64, buf: &mut PageBuf)
    requires { length buf.old.text + greatest_by length words.now.entries ≤ buf.old.room }
    ensures text { buf.new ≡ record buf.old { text = buf.old.text ++ slice_index_or words.now.entries (chosen_group words.now.weights draw) [] } }
    ensures size { length (slice_index_or words.now.entries (chosen_group words.now.weights draw) []) ≤ greatest_by length words.now.entries }
{
    put_entry(words, words.choose(draw), buf);
}

/// Appends the word at a place, as it is written. The size of the greatest word must be free.
#[inline(always)]
pub(crate) fn put_entry(words: &ReadyWords, place: usize, buf: &mut PageBuf)
    requires place { place < length words.now.entries }
    requires room { length buf.old.text + greatest_by length words.now.entries ≤ buf.old.room }
    ensures text { buf.new ≡ record buf.old { text = buf.old.text ++ slice_index_or words.now.entries place [] } }
    ensures size { length (slice_index_or words.now.entries place []) ≤ greatest_by length words.now.entries }
{
    buf.put(words.entry(place));
}

/// Appends `number` words, as they are written, with a space between two. Each is chosen by a draw of its own. `number` times the
/// size of the greatest word must be free, and a byte for each space.
#[inline(always)]
pub(crate) fn put_words(words: &ReadyWords, number: u64, seed: u64, buf: &mut PageBuf)
    requires number { number ≤ 1000 }
    requires room { length buf.old.text + joined_size number (greatest_by length words.now.entries) ≤ buf.old.room }
    ensures text { buf.new ≡ record buf.old { text = buf.old.text ++ drawn_words words.now (draw_of seed) number } }
    ensures size { length (drawn_words words.now (draw_of seed) number) ≤ joined_size number (greatest_by length words.now.entries) }
{
    for k in 0..number as u32 {
        put_space(k, buf);
        put_word(words, draw(seed, FIRST_WORD + k), buf);
    }
}

/// Appends the space before a word. The first word has none.
#[inline(always)]
fn put_space(word: u32, buf: &mut PageBuf)
    requires { length buf.old.text + min word 1 ≤ buf.old.room }
    ensures { buf.new ≡ record buf.old { text = buf.old.text ++ (if word == 0 then [] else 32 ∷ []) } }
{
    if word > 0 {
        buf.put_piece(&Piece::of_byte(b' '));
    }
}
