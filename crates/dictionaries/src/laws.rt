//! The laws of word lists, each the contract of a function that does nothing.

ghost use Rattle.std.specs.Prelude.{◌≡◌, ℕ, All, List, Ok};
ghost use Rattle.dictionaries.specs.WordList.{WordList, IsWordList};
ghost use Rattle.dictionaries.specs.Grammar.{dictionary_of};
ghost use Rattle.dictionaries.specs.Written.{IsPlain, written_list};

/// A list that is read has 1 to 1,000,000 entries, each of at most 255 bytes in UTF-8. It has as many weights, each from 1 to
/// 1,000,000. So their sum is at most 2^40.
pub fn what_is_read_is_a_word_list()
    ensures { (bytes : List ℕ) (list : WordList) → dictionary_of bytes ≡ Ok list → IsWordList list }
{}

/// A word list whose entries have no tab and no line feed can be written and read back. It is written as a byte order mark and a
/// line for each entry. The line has the entry, a tab and the weight in decimal.
pub fn a_word_list_can_be_written()
    ensures { (list : WordList) → IsWordList list → All IsPlain list.entries → dictionary_of (written_list list) ≡ Ok list }
{}
