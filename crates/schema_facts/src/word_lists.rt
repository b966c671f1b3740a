//! Dictionaries: word lists with names.

ghost use Rattle.std.specs.Prelude.{◌≡◌, length};
ghost use Rattle.schema_facts.specs.FieldSizes.{entry_size};

use crate::field_sizes::written_size;
use dictionaries::Dictionary;
use out_of_memory::Memory;
use schema_model::Text;
use std::alloc::Global;
use std::marker::Model;
use std::sync::Arc;

/// A word list with its name, and the size of its greatest entry as it is written.
pub struct NamedWords {
    name: Text,
    words: Arc<Dictionary, Global>,
    /// The size of the greatest entry in bytes, if tabs delimit fields.
    between_tabs: u64,
    /// The size of the greatest entry in bytes, if bars delimit fields.
    between_bars: u64,
}

impl Drop for NamedWords {
    fn drop(self) {
        let NamedWords {
            name,
            words,
            between_tabs: _,
            between_bars: _,
        } = self;
        drop(name);
        drop(words);
    }
}

impl Model for NamedWords {
    ghost use Rattle.std.specs.Prelude.{◌≡◌};
    ghost use Rattle.std.specs.Arc.{arc_value};
    ghost use Rattle.schema_facts.specs.Dictionaries.{Dictionary};
    ghost use Rattle.schema_facts.specs.FieldSizes.{entry_size};

    ghost Value = { Dictionary };

    ghost view = { λ n. record { name = n.name; words = arc_value n.words } };

    ghost invariant = { λ n. (n.between_tabs ≡ entry_size 9 (arc_value n.words)) × (n.between_bars ≡ entry_size 124 (arc_value n.words)) };
}

impl NamedWords {
    ghost use Rattle.std.specs.Prelude.{◌≡◌, IfOk};
    ghost use Rattle.schema_facts.specs.FieldSizes.{entry_size};

    /// Gives a word list this name. Refuses if memory is wanting.
    fn new(alloc: Global, name: &str, words: Dictionary) -> Result<NamedWords, Memory>
        ensures { IfOk result (λ named. named ≡ record { name = name.now; words = words }) }
    {
        let between_tabs = greatest_entry(b'\t', &words);
        let between_bars = greatest_entry(b'|', &words);
        let name = Text::of(alloc, name)?;
        let words = Arc::new(alloc, words)?;
        Ok(NamedWords {
            name,
            words,
            between_tabs,
            between_bars,
        })
    }

    /// Returns the word list.
    pub fn words(&self) -> &Dictionary
        ensures { result.now ≡ self.now.words }
    {
        &self.words
    }

    /// Returns another handle to the word list. Refuses if memory is wanting.
    pub fn shared(&self) -> Result<Arc<Dictionary, Global>, Memory>
        ensures { IfOk result (λ words. words.value ≡ self.now.words) }
    {
        Ok(Arc::try_clone(&self.words)?)
    }

    /// Returns another handle to the word list with its name. Refuses if memory is wanting.
    fn handle(&self, alloc: Global) -> Result<NamedWords, Memory>
        ensures { IfOk result (λ named. named ≡ self.now) }
    {
        let name = Text::of(alloc, self.name.as_str())?;
        let words = self.shared()?;
        Ok(NamedWords {
            name,
            words,
            between_tabs: self.between_tabs,
            between_bars: self.between_bars,
        })
    }

    /// Returns the size of the greatest entry as it is written, in bytes.
    fn entry_size(&self, delimiter: u8) -> u64
        ensures { result ≡ entry_size delimiter self.now.words }
    {
        match delimiter {
            b'\t' => self.between_tabs,
            b'|' => self.between_bars,
            _ => greatest_entry(delimiter, &self.words),
        }
    }
}

/// Returns the size of the greatest entry of a word list as it is written, in bytes.
fn greatest_entry(delimiter: u8, words: &Dictionary) -> u64
    ensures { result ≡ entry_size delimiter words.now }
{
    let mut most = 0;
    for i in 0..words.len() {
        most = most.max(written_size(delimiter, words.entry(i).as_bytes()));
    }
    most
}

/// Dictionaries in order. A contract sees a list of names with word lists.
pub struct Dictionaries {
    alloc: Global,
    items: Vec<NamedWords>,
}

impl Drop for Dictionaries {
    fn drop(self) {
        let Dictionaries { alloc: _, items } = self;
        drop(items);
    }
}

impl Model for Dictionaries {
    ghost use Rattle.std.specs.Prelude.{List};
    ghost use Rattle.schema_facts.specs.Dictionaries.{AreWordLists, Dictionary};

    ghost Value = { List Dictionary };

    ghost view = { λ d. d.items.items };

    ghost invariant = { λ d. AreWordLists d.items.items };
}

impl Dictionaries {
    ghost use Rattle.std.specs.Prelude.{◌≡◌, ◌==◌, [], ◌∷◌, ◌++◌, IfOk, OnErr, OnOk, find, is_some, length};
    ghost use Rattle.std.specs.List.{position, position_or_len};
    ghost use Rattle.std.specs.Option.{option_copied};
    ghost use Rattle.dictionaries.specs.WordList.{IsWordList};
    ghost use Rattle.schema_facts.specs.Dictionaries.{AreWordLists, dictionary_named, words_named};
    ghost use Rattle.schema_facts.specs.FieldSizes.{entry_size};
    ghost use Rattle.schema_facts.specs.Names.{same_text};

    /// Returns no dictionaries. It takes no memory.
    pub fn new(alloc: Global) -> Dictionaries
        ensures { result ≡ [] }
    {
        Dictionaries {
            alloc,
            items: Vec::new(alloc),
        }
    }

    /// Appends a dictionary with its name. If memory is wanting, the others stay as they were and the dictionary is dropped.
    pub fn push(&mut self, name: &str, dictionary: Dictionary) -> Result<(), Memory>
        ensures appended { OnOk result (self.new ≡ self.old ++ record { name = name.now; words = dictionary } ∷ []) }
        ensures unchanged { OnErr result (self.new ≡ self.old) }
    {
        let _limits = dictionary.len(); // it is a word list
        let named = NamedWords::new(self.alloc, name, dictionary)?;
        self.items.push(named)?;
        Ok(())
    }

    /// Returns these dictionaries and then others. They share the word lists. Refuses if memory is wanting.
    pub fn followed_by(&self, others: &Dictionaries) -> Result<Dictionaries, Memory>
        ensures { IfOk result (λ all. all ≡ self.now ++ others.now) }
    {
        let mut all = Dictionaries::new(self.alloc);
        all.append(self)?;
        all.append(others)?;
        Ok(all)
    }

    /// Appends others, which share their word lists. If memory is wanting, some of them are appended.
    fn append(&mut self, others: &Dictionaries) -> Result<(), Memory>
        ensures { OnOk result (self.new ≡ self.old ++ others.now) }
    {
        let _limits = others.len(); // each is a word list
        let items = others.as_slice();
        for named in items {
            self.append_one(named)?;
        }
        Ok(())
    }

    /// Appends one more, which shares its word list.
    fn append_one(&mut self, named: &NamedWords) -> Result<(), Memory>
        requires { IsWordList named.now.words }
        ensures { OnOk result (self.new ≡ self.old ++ named.now ∷ []) }
    {
        let handle = named.handle(self.alloc)?;
        self.items.push(handle)?;
        Ok(())
    }

    /// Returns the number of dictionaries.
    pub fn len(&self) -> usize
        ensures count { result ≡ length self.now }
        ensures lists { AreWordLists self.now }
    {
        self.items.len()
    }

    /// Whether there are no dictionaries.
    pub fn is_empty(&self) -> bool
        ensures { result ≡ (length self.now == 0) }
    {
        self.items.is_empty()
    }

    /// Returns the first word list with a name, or None exactly if none has it.
    pub fn named(&self, name: &str) -> Option<&Dictionary>
        ensures { option_copied result ≡ dictionary_named self.now name.now }
    {
        match self.find(name) {
            Some(named) => Some(named.words()),
            None => None,
        }
    }

    /// Whether a dictionary has this name.
    pub fn has(&self, name: &str) -> bool
        ensures { result ≡ is_some (dictionary_named self.now name.now) }
    {
        self.named(name).is_some()
    }

    /// Returns the first dictionary with a name, or None if there is none.
    fn find(&self, name: &str) -> Option<&NamedWords>
        ensures { option_copied result ≡ find (λ named. same_text named.name name.now) self.now }
    {
        self.items.iter().find(|named| named.name.as_str() == name)
    }

    /// Returns the place of the first dictionary with a name, counted from 0. If none has it, returns the place past the last one.
    pub fn place_of(&self, name: &str) -> usize
        ensures { result ≡ position_or_len (λ named. same_text named.name name.now) self.now }
    {
        self.position(name).unwrap_or(self.len())
    }

    /// Returns the place of the first dictionary with a name, or None if there is none.
    fn position(&self, name: &str) -> Option<usize>
        ensures { result ≡ position (λ named. same_text named.name name.now) self.now }
    {
        self.items
            .iter()
            .position(|named| named.name.as_str() == name)
    }

    /// Returns the size of the greatest entry of a named dictionary as it is written, in bytes. It is 0 if none has the name.
    pub(crate) fn entry_size(&self, delimiter: u8, name: &str) -> u64
        ensures { result ≡ entry_size delimiter (words_named self.now name.now) }
    {
        match self.find(name) {
            Some(named) => named.entry_size(delimiter),
            None => 0,
        }
    }

    /// Returns the dictionaries, in order.
    pub fn as_slice(&self) -> &[NamedWords]
        ensures { result.now ≡ self.now }
    {
        self.items.as_slice()
    }
}
