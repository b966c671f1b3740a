//! The laws of values, each the contract of a function that does nothing.
//!
//! Days are counted from 1970-01-01, which is day 0.

ghost use Rattle.std.specs.Prelude.{◌≡◌, ℕ, ◌+◌, ◌*◌, ◌^◌, ◌<◌, ◌≤◌, ℤ, pos, neg_ℤ, ◌+ℤ◌, ◌≤ℤ◌, ◌%◌, List, [], ◌∷◌, None, Some, codes, encode_utf8, flat_map, length, option_map, slice_index};
ghost use Rattle.std.specs.Fmt.{signed_decimal};
ghost use Rattle.std.specs.List.{range_with_len};
ghost use Rattle.dictionaries.specs.WordList.{WordList};
ghost use Rattle.jiff_core.specs.Calendar.{IsCivilDate, days_from_civil};
ghost use Rattle.row_text.specs.Fields.{escaped_text};
ghost use Rattle.schema_facts.specs.Choices.{choices};
ghost use Rattle.schema_facts.specs.Layout.{chars_leaf, date_leaf, dict_leaf, fixed_leaf, int_leaf, pick_leaf, skew_leaf, uuid_leaf, words_leaf};
ghost use Rattle.schema_plan.specs.ReadyWords.{written_words};
ghost use Rattle.draw_values.specs.Dates.{date_digits, date_text};
ghost use Rattle.draw_values.specs.Digits.{signed_pointed};
ghost use Rattle.uuid.specs.Parts.{variant_of};
ghost use Rattle.uuid.specs.Text.{parsed};
ghost use Rattle.uuid.specs.Uuid.{version_num};
ghost use Rattle.draw_values.specs.Uuids.{uuid_bytes, uuid_text};
ghost use Rattle.draw_values.specs.Values.{Draws, chosen, drawn_characters, drawn_words, leaf_day, leaf_number, leaf_value, number_text, unless_null};

use uuid::Variant;

/// A draw chooses a number of the range. A draw less than the number of choices chooses the number that many steps past the first.
pub fn a_draw_chooses_a_number_of_the_range()
    ensures within { (lo hi : ℤ) (step draw : ℕ) → lo ≤ℤ hi → 1 ≤ step →
        (lo ≤ℤ chosen lo hi step draw) × (chosen lo hi step draw ≤ℤ hi) }
    ensures each { (lo hi : ℤ) (step number : ℕ) → number < choices lo hi step →
        chosen lo hi step number ≡ lo +ℤ pos (step * number) }
{}

/// The date of a day is the calendar's date with this day number, for the years from 1 on.
pub fn dates_are_those_of_the_calendar()
    ensures { (year month day : ℕ) → 1 ≤ year → IsCivilDate (pos year) month day →
        date_text (days_from_civil (pos year) month day) ≡ date_digits year month day }
{}

/// Numbers and dates hold nothing that must be escaped.
pub fn numbers_and_dates_are_written_as_they_are()
    ensures whole { (delimiter : ℕ) (number : ℤ) →
        escaped_text delimiter (signed_decimal number) ≡ signed_decimal number }
    ensures fixed { (delimiter decimals : ℕ) (number : ℤ) →
        escaped_text delimiter (signed_pointed decimals number) ≡ signed_pointed decimals number }
    ensures date { (delimiter : ℕ) (day : ℤ) →
        escaped_text delimiter (date_text day) ≡ date_text day }
{}

/// A text of characters is written character by character.
pub fn characters_are_written_one_by_one()
    ensures { (delimiter : ℕ) (characters : List ℕ) (draw : Draws) (count : ℕ) →
        escaped_text delimiter (drawn_characters characters draw count)
        ≡ flat_map (λ k. escaped_text delimiter (encode_utf8 (slice_index characters (draw (2 + k) % length characters)))) (range_with_len 0 count) }
{}

/// A text of words is written word by word, with a space between two.
pub fn words_are_written_one_by_one()
    ensures { (delimiter : ℕ) (words : WordList) (draw : Draws) (count : ℕ) →
        escaped_text delimiter (drawn_words words draw count) ≡ drawn_words (written_words delimiter words) draw count }
{}

/// The UUID of two draws is of version 4 and of the variant of RFC 9562. Its text reads back as its bytes. The text has 36 bytes,
/// none of which must be escaped.
pub fn uuids_are_of_version_4()
    ensures version { (first second : ℕ) → version_num (uuid_bytes first second) ≡ 4 }
    ensures variant { (first second : ℕ) → variant_of (slice_index (uuid_bytes first second) 8) ≡ Variant.RFC4122 }
    ensures text { (first second : ℕ) → parsed (uuid_text first second) ≡ Some (uuid_bytes first second) }
    ensures size { (first second : ℕ) → length (uuid_text first second) ≡ 36 }
    ensures written { (delimiter first second : ℕ) →
        escaped_text delimiter (uuid_text first second) ≡ uuid_text first second }
{}

/// A drawn date is written as that of its day, and a drawn number as its digits with the point where it belongs.
pub fn drawn_days_and_numbers_are_those_that_are_written()
    ensures date { (lo hi : ℤ) (draw : Draws) →
        leaf_value (date_leaf lo hi) draw ≡ option_map date_text (leaf_day (date_leaf lo hi) draw) }
    ensures int { (lo hi : ℤ) (step : ℕ) (draw : Draws) →
        leaf_value (int_leaf lo hi step) draw ≡ option_map number_text (leaf_number (int_leaf lo hi step) draw) }
    ensures fixed { (lo hi : ℤ) (decimals : ℕ) (draw : Draws) →
        leaf_value (fixed_leaf lo hi decimals) draw ≡ option_map number_text (leaf_number (fixed_leaf lo hi decimals) draw) }
    ensures skew { (lo : ℤ) (size power : ℕ) (draw : Draws) →
        leaf_value (skew_leaf lo size power) draw ≡ option_map number_text (leaf_number (skew_leaf lo size power) draw) }
{}

/// Values worked out by hand. Draw n is 2 * n + 1, so the draw that is used is 3. For the skew, draw n is n * 10^9.
/// For the UUID, draw 1 has the digits 0123456789abcdef in base 16, and draw 2 twice as much, 02468acf13579bde.
pub fn worked_values()
    ensures int { leaf_value (int_leaf (neg_ℤ (pos 5)) (pos 9) 4) (λ n. 2 * n + 1) ≡ Some (codes "7") }
    ensures fixed { leaf_value (fixed_leaf (neg_ℤ (pos 8)) (pos 0) 2) (λ n. 2 * n + 1) ≡ Some (codes "-0.05") }
    ensures whole { leaf_value (fixed_leaf (pos 1231) (pos 1234) 0) (λ n. 2 * n + 1) ≡ Some (codes "1234") }
    ensures date { leaf_value (date_leaf (pos 19779) (pos 20000)) (λ n. 2 * n + 1) ≡ Some (codes "2024-02-29") }
    ensures pick { leaf_value (pick_leaf (codes "a" ∷ codes "b" ∷ codes "c" ∷ []) (1 ∷ 2 ∷ 3 ∷ [])) (λ n. 2 * n + 1) ≡ Some (codes "c") }
    ensures skew { leaf_value (skew_leaf (neg_ℤ (pos 2)) 2 1) (λ n. n * 10 ^ 9) ≡ Some (codes "-1") }
    ensures dict { leaf_value (dict_leaf (record { entries = codes "a" ∷ codes "b" ∷ []; weights = 1 ∷ 4 ∷ [] })) (λ n. 2 * n + 1) ≡ Some (codes "b") }
    ensures words { leaf_value (words_leaf (record { entries = codes "a" ∷ codes "b" ∷ []; weights = 1 ∷ 4 ∷ [] }) 2 3) (λ n. 2 * n + 1) ≡ Some (codes "a b b") }
    ensures chars { leaf_value (chars_leaf (codes "ab|") 1 2) (λ n. 2 * n + 1) ≡ Some (codes "|b") }
    ensures uuid { leaf_value uuid_leaf (λ n. n * 81985529216486895) ≡ Some (codes "01234567-89ab-4def-8246-8acf13579bde") }
{}

/// A field is null if the remainder of draw 0 by 1000 is less than the column's nulls in a thousand. Here draw 0 is 1,003.
pub fn worked_nulls()
    ensures null { unless_null 4 (λ n. n + 1003) (Some (codes "7")) ≡ None }
    ensures held { unless_null 3 (λ n. n + 1003) (Some (codes "7")) ≡ Some (codes "7") }
    ensures never { unless_null 0 (λ n. n + 1003) (Some (codes "7")) ≡ Some (codes "7") }
{}

/// Dates of the standard calendar: the first day, the day before day 0, a leap day, the day after the February of a century, and
/// the last day.
pub fn worked_dates()
    ensures first { date_text (neg_ℤ (pos 719162)) ≡ codes "0001-01-01" }
    ensures before_0 { date_text (neg_ℤ (pos 1)) ≡ codes "1969-12-31" }
    ensures leap_day { date_text (pos 11016) ≡ codes "2000-02-29" }
    ensures century { date_text (neg_ℤ (pos 25508)) ≡ codes "1900-03-01" }
    ensures last { date_text (pos 2932896) ≡ codes "9999-12-31" }
{}
