//! The names under which the packages of a job are written.

ghost use Rattle.std.specs.Prelude.{◌≡◌, ◌<◌, ◌+◌, ◌++◌, ◌∷◌, [], OnErr, OnOk, drop, length};
ghost use Rattle.range_workers.specs.Marks.{end_before, mark_at};

use out_of_memory::Memory;
use std::alloc::Global;
use std::marker::Model;

/// Where the packages of a job go: a list of marks, each a package number with a name. Packages from a mark's number on, up to the next
/// mark's, are written under its name.
#[derive(Drop)]
pub struct Marks {
    entries: Vec<Entry>,
}

/// A mark: the number of its first package, and its name.
#[derive(Drop)]
struct Entry {
    first: u64,
    name: String,
}

impl Model for Marks {
    ghost use Rattle.std.specs.Prelude.{List, map};
    ghost use Rattle.range_workers.specs.Marks.{Mark};
    ghost use Rattle.range_workers.specs.Entry.{mark_of};

    ghost Value = { List Mark };

    ghost view = { λ marks. map mark_of marks.entries.items };
}

impl Marks {
    /// Returns a list without marks.
    pub fn new(alloc: Global) -> Marks
        ensures { result ≡ [] }
    {
        Marks {
            entries: Vec::new(alloc),
        }
    }

    /// Adds a mark at the end: the packages from number `first` on are written under `name`. At `Memory` the list stays as it was.
    pub fn push(&mut self, first: u64, name: &str) -> Result<(), Memory>
        ensures ok { OnOk result (self.new ≡ self.old ++ record { first = first; name = name.now } ∷ []) }
        ensures err { OnErr result (self.new ≡ self.old) }
    {
        let alloc = *self.entries.allocator();
        let name = String::from_str(alloc, name)?;
        self.entries.push(Entry { first, name })?;
        Ok(())
    }

    /// Returns the number of marks.
    pub(crate) fn len(&self) -> usize
        ensures { result ≡ length self.now }
    {
        self.entries.len()
    }

    /// Returns the name of mark `i`, counted from 0.
    pub(crate) fn name(&self, i: usize) -> &str
        requires { i < length self.now }
        ensures { result.now ≡ (mark_at self.now i).name }
    {
        self.entries[i].name.as_str()
    }

    /// Returns the number of the first package under mark `i`.
    pub(crate) fn first(&self, i: usize) -> u64
        requires { i < length self.now }
        ensures { result ≡ (mark_at self.now i).first }
    {
        self.entries[i].first
    }

    /// Returns the number after the last package under mark `i`, of `count` packages in all.
    #[tactic(auto, using(crate::proofs::MarkLemmas::end_before_mark, crate::proofs::MarkLemmas::end_before_none))]
    pub(crate) fn end(&self, i: usize, count: u64) -> u64
        requires { i < length self.now }
        ensures { result ≡ end_before count (drop (i + 1) self.now) }
    {
        if i == self.len() - 1 {
            count
        } else {
            self.first(i + 1)
        }
    }
}
