//! The entries of a dictionary, kept in one text.

ghost use Rattle.std.specs.Prelude.{◌≡◌, ◌<◌, ◌∷◌, length, slice_index};

use std::alloc::{AllocError, Global};
use std::marker::Model;

/// Texts in order. They stand one after the other in one text, with the places of their ends. A contract sees the list of their
/// bytes.
#[derive(Debug, Drop)]
pub struct Entries {
    text: String,
    ends: Vec<usize>,
}

impl Model for Entries {
    ghost use Rattle.std.specs.Prelude.{ℕ, List, string_bytes};
    ghost use Rattle.dictionaries.specs.Pieces.{pieces_from, IsCutFrom};

    ghost Value = { List (List ℕ) };

    ghost view = { λ e. pieces_from 0 (string_bytes e.text) e.ends.items };

    ghost invariant = { λ e. IsCutFrom 0 (string_bytes e.text) e.ends.items };
}

impl Entries {
    ghost use Rattle.std.specs.Prelude.{◌≡◌, ◌<◌, [], ◌∷◌, ◌++◌, length, slice_get, Some, OnOk, OnErr};

    /// Returns no entries. Takes no memory.
    pub fn new(alloc: Global) -> Entries
        ensures { result ≡ [] }
    {
        Entries {
            text: String::new(alloc),
            ends: Vec::new(alloc),
        }
    }

    /// Returns the number of entries.
    pub fn len(&self) -> usize
        ensures { result ≡ length self.now }
    {
        self.ends.len()
    }

    /// Returns the entry at index `i`, from 0.
    pub fn get(&self, i: usize) -> &str
        requires { i < length self.now }
        ensures { slice_get self.now i ≡ Some result.now }
    {
        let start = start_of(&self.ends, i);
        &self.text.as_str()[start..self.ends[i]]
    }

    /// Appends an entry. If memory runs out, the entries stay as they were.
    pub fn push(&mut self, entry: &str) -> Result<(), AllocError>
        ensures appended { OnOk result (self.new ≡ self.old ++ entry.now ∷ []) }
        ensures unchanged { OnErr result (self.new ≡ self.old) }
    {
        self.ends.reserve(1)?;
        self.text.push_str(entry)?;
        self.ends.push_reserved(self.text.len());
        Ok(())
    }
}

/// Returns where text `i` begins, of texts that end at these places: at the end of the text before it.
fn start_of(ends: &[usize], i: usize) -> usize
    requires { i < length ends.now }
    ensures { result ≡ slice_index (0 ∷ ends.now) i }
{
    if i == 0 { 0 } else { ends[i - 1] }
}
