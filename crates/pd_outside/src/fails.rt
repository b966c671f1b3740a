//! The failures that a form in memory is told to have.

ghost use Rattle.std.specs.Prelude.{◌≡◌, ◌↔◌, [], ◌∷◌, ◌++◌, Contains, IsTrue, OnOk, OnErr};
ghost use Rattle.pd_outside.specs.StatedFails.{is_call, states_call};

use out_of_memory::Memory;
use std::alloc::Global;
use std::marker::Model;

/// The calls of a `MemLibrary` that fail, as pairs of a file's name and a call's number. On a file, `start` is call 1, and the
/// first `read` after it is call 2.
#[derive(Drop)]
pub struct LibraryFails {
    fails: Vec<NamedCall>,
}

#[derive(Drop)]
struct NamedCall {
    name: String,
    call: u64,
}

/// A call of a `MemShelf` that fails: the n-th of its kind, counted from 1 over the shelf's life.
#[derive(Clone, Copy, Debug, PartialEq, Eq)]
pub enum ShelfFail {
    /// The n-th `begin`.
    Begin(u64),
    /// The n-th `write`.
    Write(u64),
    /// The n-th `end`.
    End(u64),
}

/// The calls of a `MemShelf` that fail.
#[derive(Drop)]
pub struct ShelfFails {
    fails: Vec<ShelfFail>,
}

impl Model for LibraryFails {
    ghost use Rattle.std.specs.Prelude.{List, map};
    ghost use Rattle.pd_outside.specs.StatedFails.{NameAndCall};
    ghost use Rattle.pd_outside.specs.NamedCall.{name_and_call};

    ghost Value = { List NameAndCall };

    ghost view = { λ f. map name_and_call f.fails.items };
}

impl Model for ShelfFails {
    ghost use Rattle.std.specs.Prelude.{List};
    ghost use Rattle.pd_outside.specs.declared.fails.ShelfFail.{ShelfFail};

    ghost Value = { List ShelfFail };

    ghost view = { λ f. f.fails.items };
}

impl NamedCall {
    ghost use Rattle.pd_outside.specs.NamedCall.{name_and_call};

    fn is_on(&self, name: &str, call: u64) -> bool
        ensures { result ≡ is_call name.now call (name_and_call self.now) }
    {
        self.call == call && self.name.as_str() == name
    }
}

impl LibraryFails {
    /// Returns a list of no failures.
    pub fn new(alloc: Global) -> Self
        ensures { result ≡ [] }
    {
        LibraryFails {
            fails: Vec::new(alloc),
        }
    }

    /// Makes a call on a file of a name fail too. At `Memory` the list is as before.
    pub fn push(&mut self, name: &str, call: u64) -> Result<(), Memory>
        ensures ok { OnOk result (self.new ≡ self.old ++ record { name = name.now; call = call } ∷ []) }
        ensures err { OnErr result (self.new ≡ self.old) }
    {
        let alloc = *self.fails.allocator();
        let name = String::from_str(alloc, name)?;
        self.fails.push(NamedCall { name, call })?;
        Ok(())
    }

    pub(crate) fn states(&self, name: &str, call: u64) -> bool
        ensures { result ≡ states_call self.now name.now call }
    {
        for fail in &self.fails {
            if fail.is_on(name, call) {
                return true;
            }
        }
        false
    }
}

impl ShelfFails {
    /// Returns a list of no failures.
    pub fn new(alloc: Global) -> Self
        ensures { result ≡ [] }
    {
        ShelfFails {
            fails: Vec::new(alloc),
        }
    }

    /// Makes a call fail too. At `Memory` the list is as before.
    pub fn push(&mut self, fail: ShelfFail) -> Result<(), Memory>
        ensures ok { OnOk result (self.new ≡ self.old ++ fail ∷ []) }
        ensures err { OnErr result (self.new ≡ self.old) }
    {
        self.fails.push(fail)?;
        Ok(())
    }

    pub(crate) fn states(&self, fail: ShelfFail) -> bool
        ensures { IsTrue result ↔ Contains self.now fail }
    {
        self.fails.contains(&fail)
    }
}
