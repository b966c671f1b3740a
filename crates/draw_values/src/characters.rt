//! Texts of drawn characters, onto a page.

ghost use Rattle.std.specs.Prelude.{◌≡◌, ◌≤◌, ◌+◌, ◌*◌, ◌++◌, length};
ghost use Rattle.philox_seeds.specs.SeedTree.{draw as draw_of};
ghost use Rattle.schema_facts.specs.FieldSizes.{greatest_by};
ghost use Rattle.draw_values.specs.ReadyValues.{chosen_texts};

use crate::weighted::put_entry;
use fixed_divisors::FixedDivisor;
use line_pages::PageBuf;
use philox_seeds::draw;
use row_text::WrittenTexts;

/// The draw of the first character. The draw before it tells the number of characters.
const FIRST_CHARACTER: u32 = 2;

/// Appends `number` characters, as they are written. Each is chosen by a draw of its own among the `count` characters. `number`
/// times the size of the greatest character must be free.
#[inline(always)]
pub(crate) fn put_characters(
    characters: &WrittenTexts,
    count: &FixedDivisor,
    number: u64,
    seed: u64,
    buf: &mut PageBuf,
)
    requires count { count.now ≡ length characters.now }
    requires number { number ≤ 1000 }
    requires room { length buf.old.text + number * greatest_by length characters.now ≤ buf.old.room }
    ensures text { buf.new ≡ record buf.old { text = buf.old.text ++ chosen_texts characters.now (draw_of seed) number } }
    ensures size { length (chosen_texts characters.now (draw_of seed) number) ≤ number * greatest_by length characters.now }
{
    for k in 0..number as u32 {
        let character = count.remainder(draw(seed, FIRST_CHARACTER + k));
        put_entry(characters, character as usize, buf);
    }
}
