//! A dictionary: weighted entries, among which a number selects one.

use crate::entries::Entries;
use out_of_memory::Memory;
use std::alloc::Global;
use std::marker::Model;
use weight_tables::Weights;

/// A word list of 1 to 1,000,000 entries. An entry has at most 255 bytes, and a weight from 1 to 1,000,000. A contract sees the
/// entries and their weights.
#[derive(Debug)]
pub struct Dictionary {
    entries: Entries,
    weights: Weights,
}

impl Drop for Dictionary {
    fn drop(self) {
        let Dictionary { entries, weights } = self;
        drop(entries);
        drop(weights);
    }
}

impl Model for Dictionary {
    ghost use Rattle.dictionaries.specs.WordList.{WordList, IsWordList};

    ghost Value = { WordList };

    ghost view = { λ d. record { entries = d.entries; weights = d.weights } };

    ghost invariant = { λ d. IsWordList (record { entries = d.entries; weights = d.weights }) };
}

impl Dictionary {
    ghost use Rattle.std.specs.Prelude.{◌≡◌, ◌==◌, ◌<◌, ◌≤◌, ◌^◌, length, sum, slice_get, Some, IfOk};
    ghost use Rattle.weight_tables.specs.Weights.{selected};
    ghost use Rattle.dictionaries.specs.WordList.{IsWordList};

    /// Returns the dictionary of entries with these weights, one for each entry.
    pub(crate) fn new(
        alloc: Global,
        entries: Entries,
        weights: &[u64],
    ) -> Result<Dictionary, Memory>
        requires { IsWordList (record { entries = entries; weights = weights.now }) }
        ensures { IfOk result (λ dictionary. dictionary ≡ record { entries = entries; weights = weights.now }) }
    {
        let weights = Weights::new(alloc, weights)?;
        Ok(Dictionary { entries, weights })
    }

    /// Returns the number of entries.
    pub fn len(&self) -> usize
        ensures exact { result ≡ length self.now.entries }
        ensures bounds { IsWordList self.now }
    {
        self.entries.len()
    }

    /// Whether there is no entry. That is never the case.
    pub fn is_empty(&self) -> bool
        ensures { result ≡ (length self.now.entries == 0) }
    {
        self.len() == 0
    }

    /// Returns the entry at index `i`, from 0.
    pub fn entry(&self, i: usize) -> &str
        requires { i < length self.now.entries }
        ensures exact { slice_get self.now.entries i ≡ Some result.now }
        ensures short { length result.now ≤ 255 }
    {
        self.entries.get(i)
    }

    /// Returns the sum of the weights, from 1 to 10^12.
    pub fn weight_total(&self) -> u64
        ensures exact { result ≡ sum self.now.weights }
        ensures some { 1 ≤ result }
        ensures small { result ≤ 2 ^ 40 }
    {
        self.weights.total()
    }

    /// Returns the index of the entry that `x` selects: the first entry whose prefix sum exceeds `x`. `x` is from 0 to the sum of
    /// the weights - 1. The prefix sum of an entry is the sum of the weights up to and including its own.
    pub fn select(&self, x: u64) -> usize
        requires { x < sum self.now.weights }
        ensures exact { result ≡ selected self.now.weights x }
        ensures within { result < length self.now.entries }
    {
        self.weights.select(x)
    }
}
