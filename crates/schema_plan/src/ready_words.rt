//! Dictionaries, made ready for rows.

ghost use Rattle.std.specs.Prelude.{◌≡◌, IfOk, map};
ghost use Rattle.row_text.specs.Fields.{escaped_text};
ghost use Rattle.schema_facts.specs.Dictionaries.{Dictionary as Named};
ghost use Rattle.schema_plan.specs.ReadyWords.{written_words};

use dictionaries::Dictionary;
use fixed_divisors::FixedDivisor;
use out_of_memory::Memory;
use row_text::WrittenTexts;
use schema_facts::{Dictionaries, NamedWords};
use schema_model::Text;
use std::alloc::Global;
use std::marker::Model;
use std::sync::Arc;

/// A word list, ready for rows. A contract sees the entries as they are written, and their weights. All columns that draw from
/// one dictionary share its entries.
pub struct ReadyWords {
    entries: Arc<WrittenTexts, Global>,
    words: Arc<Dictionary, Global>,
    /// The sum of the weights.
    total: FixedDivisor,
}

impl Drop for ReadyWords {
    fn drop(self) {
        let ReadyWords {
            entries,
            words,
            total: _,
        } = self;
        drop(entries);
        drop(words);
    }
}

impl Model for ReadyWords {
    ghost use Rattle.std.specs.Arc.{arc_value};
    ghost use Rattle.dictionaries.specs.WordList.{WordList};
    ghost use Rattle.schema_plan.specs.ReadyWords.{AreReadyWords};

    ghost Value = { WordList };

    ghost view = { λ r. record { entries = arc_value r.entries; weights = (arc_value r.words).weights } };

    ghost invariant = { λ r. AreReadyWords (arc_value r.entries) (arc_value r.words) r.total };
}

impl ReadyWords {
    ghost use Rattle.std.specs.Prelude.{◌≡◌, ◌<◌, ◌%◌, length, slice_get, sum, IfOk, Some};
    ghost use Rattle.weight_tables.specs.Weights.{selected};
    ghost use Rattle.schema_plan.specs.ReadyWords.{written_words};

    /// Makes ready a named dictionary. Its entries are kept as they are written with a delimiter.
    fn new(alloc: Global, delimiter: u8, named: &NamedWords) -> Result<ReadyWords, Memory>
        ensures { IfOk result (λ ready. ready ≡ written_words delimiter named.now.words) }
    {
        let entries = Arc::new(alloc, written_entries(alloc, delimiter, named.words())?)?;
        let words = named.shared()?;
        let total = FixedDivisor::new(words.weight_total());
        Ok(ReadyWords {
            entries,
            words,
            total,
        })
    }

    /// Returns another handle to this word list. Refuses if memory is wanting.
    fn shared(&self) -> Result<ReadyWords, Memory>
        ensures { IfOk result (λ ready. ready ≡ self.now) }
    {
        let total = self.words.weight_total();
        Ok(ReadyWords {
            entries: Arc::try_clone(&self.entries)?,
            words: Arc::try_clone(&self.words)?,
            total: FixedDivisor::new(total),
        })
    }

    /// Returns the number of entries.
    pub fn len(&self) -> usize
        ensures { result ≡ length self.now.entries }
    {
        self.entries.len()
    }

    /// Returns the entry at place `i`, counted from 0, as it is written.
    #[inline]
    pub fn entry(&self, i: usize) -> &[u8]
        requires { i < length self.now.entries }
        ensures { slice_get self.now.entries i ≡ Some result.now }
    {
        self.entries.get(i)
    }

    /// Returns the place of the entry that a draw chooses. The draw is taken modulo the sum of the weights, and each entry has as
    /// many of the remainders as its weight says.
    #[inline]
    pub fn choose(&self, draw: u64) -> usize
        ensures exact { result ≡ selected self.now.weights (draw % sum self.now.weights) }
        ensures within { result < length self.now.entries }
    {
        self.words.select(self.total.remainder(draw))
    }
}

/// Returns the entries of a word list as they are written.
fn written_entries(alloc: Global, delimiter: u8, words: &Dictionary) -> Result<WrittenTexts, Memory>
    ensures { IfOk result (λ written. written ≡ map (escaped_text delimiter) words.now.entries) }
{
    let mut written = WrittenTexts::new(alloc);
    for i in 0..words.len() {
        written.push(words.entry(i).as_bytes(), delimiter)?;
    }
    Ok(written)
}

/// The dictionaries and the delimiter of a schema, with the entries as they are written.
#[derive(Drop)]
pub(crate) struct Lexicon<'a> {
    delimiter: u8,
    dictionaries: &'a Dictionaries,
    ready: Vec<ReadyWords>,
}

impl<'a> Model for Lexicon<'a> {
    ghost use Rattle.std.specs.Prelude.{◌≡◌, map};
    ghost use Rattle.schema_facts.specs.Dictionaries.{Dictionary};
    ghost use Rattle.schema_plan.specs.ReadyWords.{Spelling, written_words};

    ghost Value = { Spelling };

    ghost view = { λ l. record { delimiter = l.delimiter; dictionaries = l.dictionaries.now } };

    ghost invariant = { λ l. l.ready.items ≡ map (λ (d : Dictionary). written_words l.delimiter d.words) l.dictionaries.now };
}

impl<'a> Lexicon<'a> {
    ghost use Rattle.std.specs.Prelude.{◌≡◌, IfOk};
    ghost use Rattle.dictionaries.specs.WordList.{IsWordList};
    ghost use Rattle.schema_facts.specs.Dictionaries.{words_named};
    ghost use Rattle.schema_plan.specs.ReadyWords.{written_words};

    /// Makes ready all dictionaries with a delimiter. Refuses if memory is wanting.
    pub(crate) fn new(
        alloc: Global,
        delimiter: u8,
        dictionaries: &'a Dictionaries,
    ) -> Result<Lexicon<'a>, Memory>
        ensures { IfOk result (λ lexicon. lexicon ≡ record { delimiter = delimiter; dictionaries = dictionaries.now }) }
    {
        let ready = ready_words(alloc, delimiter, dictionaries.as_slice())?;
        Ok(Lexicon {
            delimiter,
            dictionaries,
            ready,
        })
    }

    /// Returns the byte between two fields.
    pub(crate) fn delimiter(&self) -> u8
        ensures { result ≡ self.now.delimiter }
    {
        self.delimiter
    }

    /// Returns the word list of the first dictionary with a name. There must be one.
    pub(crate) fn words(&self, name: &Text) -> Result<ReadyWords, Memory>
        requires { IsWordList (words_named self.now.dictionaries name.now) }
        ensures { IfOk result (λ ready. ready ≡ written_words self.now.delimiter (words_named self.now.dictionaries name.now)) }
    {
        self.ready_words(name).shared()
    }

    /// Borrows the word list of the first dictionary with a name. There must be one.
    fn ready_words(&self, name: &Text) -> &ReadyWords
        requires { IsWordList (words_named self.now.dictionaries name.now) }
        ensures { result.now ≡ written_words self.now.delimiter (words_named self.now.dictionaries name.now) }
    {
        let place = self.dictionaries.place_of(name.as_str());
        &self.ready[place]
    }
}

/// Makes ready each dictionary, in order.
fn ready_words(
    alloc: Global,
    delimiter: u8,
    dictionaries: &[NamedWords],
) -> Result<Vec<ReadyWords>, Memory>
    ensures { IfOk result (λ ready. ready.items ≡ map (λ (named : Named). written_words delimiter named.words) dictionaries.now) }
{
    let mut ready = Vec::with_capacity(alloc, dictionaries.len())?;
    for named in dictionaries {
        ready.push(ReadyWords::new(alloc, delimiter, named)?)?;
    }
    Ok(ready)
}
