//! Values that are drawn for one field, onto a page.

ghost use Rattle.std.specs.Prelude.{◌≡◌, ◌≤◌, ◌+◌, ◌++◌, length};
ghost use Rattle.philox_seeds.specs.SeedTree.{draw as draw_of};
ghost use Rattle.draw_values.specs.ReadyValues.{IsReady, ready_size, ready_text};

use crate::characters::put_characters;
use crate::dates::put_date;
use crate::fixed::put_fixed;
use crate::numbers::{chosen, put_whole};
use crate::uuids::put_uuid;
use crate::weighted::{chosen_group, put_entry, skewed};
use crate::words::{put_word, put_words};
use line_pages::PageBuf;
use philox_seeds::draw;
use schema_plan::ReadyLeaf;

/// The first draw of a value. Draw 0 is kept for nulls.
pub(crate) const FIRST_DRAW: u32 = 1;

/// Appends the value that is drawn with the seed of a row, as it is written. Its greatest size must be free.
#[inline(always)]
pub fn put_leaf(leaf: &ReadyLeaf, seed: u64, buf: &mut PageBuf)
    requires ready { IsReady leaf.now }
    requires room { length buf.old.text + ready_size leaf.now ≤ buf.old.room }
    ensures text { buf.new ≡ record buf.old { text = buf.old.text ++ ready_text leaf.now (draw_of seed) } }
    ensures size { length (ready_text leaf.now (draw_of seed)) ≤ ready_size leaf.now }
{
    let draw = draw(seed, FIRST_DRAW);
    match leaf {
        ReadyLeaf::Int {
            lo,
            hi,
            step,
            choices,
        } => put_whole(chosen(*lo, *hi, *step, choices, draw), buf),
        ReadyLeaf::Fixed {
            lo,
            hi,
            choices,
            decimals,
            unit,
        } => put_fixed(chosen(*lo, *hi, 1, choices, draw), *decimals, unit, buf),
        ReadyLeaf::Date { lo, hi, choices } => {
            let day = chosen(i64::from(*lo), i64::from(*hi), 1, choices, draw);
            put_date(day, buf);
        }
        ReadyLeaf::Pick {
            entries,
            weights,
            total,
        } => put_entry(entries, chosen_group(weights, total, draw), buf),
        ReadyLeaf::Skew { lo, weights, total } => {
            put_whole(skewed(*lo, weights, total, draw), buf);
        }
        ReadyLeaf::Chars {
            lo,
            lengths,
            characters,
            count,
        } => put_characters(characters, count, *lo + lengths.remainder(draw), seed, buf),
        ReadyLeaf::Dict(words) => put_word(words, draw, buf),
        ReadyLeaf::Words { lo, lengths, words } => {
            put_words(words, *lo + lengths.remainder(draw), seed, buf);
        }
        ReadyLeaf::Uuid => put_uuid(draw, seed, buf),
    }
}
