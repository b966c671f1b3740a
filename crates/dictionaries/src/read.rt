//! The dictionary that bytes stand for.

ghost use Rattle.std.specs.Prelude.{◌≡◌, ◌≢◌, ◌<◌, ◌+◌, [], ◌∷◌, ◌++◌, Ok, Err, Some, None, IfOk, IfErr, IsOk, IsTrue, OnOk, length};
ghost use Rattle.dictionaries.specs.Grammar.{dictionary_of, entry_lines, first_fault_from, word_list, without_mark};

use crate::entries::Entries;
use crate::line::{read_line, strip_carriage_return};
use crate::{DictFault, Dictionary};
use std::alloc::Global;

/// The entries of lines and their weights, one for each entry. All entries are counted, but they are kept only while memory lasts.
/// So each line is tried, and want of memory is told only if all lines are right.
#[derive(Drop)]
struct Draft {
    entries: Entries,
    weights: Vec<u64>,
    count: usize,
    is_whole: bool,
}

impl Draft {
    /// Returns a draft without entries.
    fn new(alloc: Global) -> Draft
        ensures entries { result.entries ≡ [] }
        ensures weights { result.weights.items ≡ [] }
        ensures count { result.count ≡ 0 }
        ensures whole { IsTrue result.is_whole }
    {
        Draft {
            entries: Entries::new(alloc),
            weights: Vec::new(alloc),
            count: 0,
            is_whole: true,
        }
    }

    /// Adds an entry and its weight.
    fn keep(&mut self, entry: &str, weight: u64)
        requires { self.old.count < 1000000 }
        ensures count { self.new.count ≡ self.old.count + 1 }
        ensures whole { IsTrue self.new.is_whole → IsTrue self.old.is_whole }
        ensures entries { IsTrue self.new.is_whole → self.new.entries ≡ self.old.entries ++ entry.now ∷ [] }
        ensures weights { IsTrue self.new.is_whole → self.new.weights.items ≡ self.old.weights.items ++ weight ∷ [] }
    {
        self.count += 1;
        self.is_whole = self.is_whole
            && self.entries.push(entry).is_ok()
            && self.weights.push(weight).is_ok();
    }
}

/// Returns the text without a byte order mark at its start.
fn without_mark(text: &str) -> &str
    ensures { result.now ≡ without_mark text.now }
{
    text.strip_prefix('\u{feff}').unwrap_or(text)
}

/// Returns the entries of a text's lines, or the first fault of a line.
fn read_lines(alloc: Global, text: &str) -> Result<Draft, DictFault>
    ensures right { OnOk result (first_fault_from 1 (entry_lines text.now) ≡ None) }
    ensures count { IfOk result (λ draft. draft.count ≡ length (entry_lines text.now)) }
    ensures read { IfOk result (λ draft. IsTrue draft.is_whole →
        word_list (entry_lines text.now) ≡ record { entries = draft.entries; weights = draft.weights.items }) }
    ensures refused { IfErr result (λ fault. first_fault_from 1 (entry_lines text.now) ≡ Some fault) }
    ensures no_memory { IfErr result (λ fault. fault ≢ DictFault.Memory) }
{
    let mut draft = Draft::new(alloc);
    let mut number = 0u64;
    for part in text.split('\n') {
        number += 1;
        let line = strip_carriage_return(part);
        if line.is_empty() {
            continue;
        }
        let (entry, weight) = read_line(line, number, draft.count)?;
        draft.keep(entry, weight);
    }
    Ok(draft)
}

/// Returns the dictionary of the bytes, or their first fault. The fault that they aren't UTF-8 comes first. Then come the faults of
/// the lines, line by line, and then the fault that there is no entry. In one line a long text comes first, then a bad weight, then
/// one entry too many. Want of memory is told only of bytes that are a word list.
pub fn read_dictionary(alloc: Global, bytes: &[u8]) -> Result<Dictionary, DictFault>
    ensures read { IfOk result (λ dictionary. dictionary_of bytes.now ≡ Ok dictionary) }
    ensures refused { IfErr result (λ fault. fault ≢ DictFault.Memory → dictionary_of bytes.now ≡ Err fault) }
    ensures memory { IfErr result (λ fault. fault ≡ DictFault.Memory → IsOk (dictionary_of bytes.now)) }
{
    let text = match std::str::from_utf8(bytes) {
        Ok(text) => text,
        Err(error) => {
            return Err(DictFault::NotUtf8 {
                at: error.valid_up_to() as u64,
            });
        }
    };
    let draft = read_lines(alloc, without_mark(text))?;
    if draft.count == 0 {
        return Err(DictFault::Empty);
    }
    if !draft.is_whole {
        return Err(DictFault::Memory);
    }
    let Draft {
        entries,
        weights,
        ..
    } = draft;
    let dictionary = Dictionary::new(alloc, entries, &weights)?;
    Ok(dictionary)
}
