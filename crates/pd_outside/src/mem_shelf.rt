//! A shelf in memory.

ghost use Rattle.std.specs.Prelude.{◌≡◌, ◌<◌, ◌≤◌, ◌+◌, [], None, Some, false, length, min, take, Contains, IsTrue, IsErr, IfOk, OnOk, OnErr, ◌++◌, IsSome, string_bytes, is_ok, is_err, is_some};
ghost use Rattle.std.proofs.Common.{rules};
ghost use Rattle.std.specs.Option.{option_map, option_to_list};
ghost use Rattle.pd_outside.specs.Faults.{CallMade, exact_counts, Rose, counted, faults_after};
ghost use Rattle.pd_outside.specs.Entry.{file_of};
ghost use Rattle.pd_outside.specs.Files.{File};
ghost use Rattle.pd_outside.specs.InMemory.{IsCounted};
ghost use Rattle.pd_outside.specs.Shelf.{begin_file, append_bytes, end_file, bytes_begun};
ghost use Rattle.pd_outside.specs.declared.fails.ShelfFail.TheVariants as fail;

use crate::files::Entry;
use crate::{Failed, Files, Shelf, ShelfFail, ShelfFails};
use out_of_memory::Memory;
use std::alloc::Global;
use std::marker::Model;

/// A shelf that keeps its files in memory, with stated failures. It tells all its meanings.
///
/// A call fails if a stated failure says so, or if no memory is left for what it keeps. Each failed call counts as a fault, and
/// still counts as a call of its kind.
pub struct MemShelf {
    alloc: Global,
    fails: ShelfFails,
    step: usize,
    finished: Files,
    begun: Option<Entry>,
    begins: u64,
    writes: u64,
    ends: u64,
    faults: u64,
    last_failed: bool,
}

impl Drop for MemShelf {
    fn drop(self) {
        let MemShelf {
            alloc: _,
            fails,
            step: _,
            finished,
            begun,
            begins: _,
            writes: _,
            ends: _,
            faults: _,
            last_failed: _,
        } = self;
        drop(fails);
        drop(finished);
        drop(begun);
    }
}

impl Model for MemShelf {
    ghost use Rattle.pd_outside.specs.InMemory.{Writing};
    ghost use Rattle.pd_outside.specs.MemShelf.{writing_of, TakesSome};

    ghost Value = { Writing };

    ghost view = { writing_of };

    ghost invariant = { TakesSome };
}

impl MemShelf {
    /// Returns an empty shelf with the failures, on which no call was made. A write takes at most `step` bytes.
    pub fn new(alloc: Global, fails: ShelfFails, step: usize) -> Self
        requires { 0 < step }
        ensures { result ≡ record {
          held = record { finished = []; begun = None };
          fails = fails;
          step = step;
          begins = 0;
          writes = 0;
          ends = 0;
          faults = 0;
          last_failed = false;
        } }
    {
        MemShelf {
            alloc,
            fails,
            step,
            finished: Files::new(alloc),
            begun: None,
            begins: 0,
            writes: 0,
            ends: 0,
            faults: 0,
            last_failed: false,
        }
    }

    /// Returns the finished files, in order.
    pub fn finished(&self) -> &Files
        ensures { result.now ≡ self.now.held.finished }
    {
        &self.finished
    }

    /// Returns the name of the begun file; None exactly if no file is begun.
    pub fn begun(&self) -> Option<&str>
        ensures { option_map (λ name. name.now) result ≡ option_map (λ (file : File). file.name) self.now.held.begun }
    {
        match &self.begun {
            Some(entry) => Some(entry.name.as_str()),
            None => None,
        }
    }

    /// Returns the bytes of the begun file so far; no bytes if no file is begun.
    pub fn begun_bytes(&self) -> &[u8]
        ensures { result.now ≡ bytes_begun self.now.held }
    {
        match &self.begun {
            Some(entry) => &entry.bytes,
            None => &[],
        }
    }
}

/// Returns an empty file of a name.
fn empty_file(alloc: Global, name: &str) -> Result<Entry, Memory>
    ensures { IfOk result (λ entry. file_of entry ≡ record { name = name.now; bytes = [] }) }
{
    Ok(Entry {
        name: String::from_str(alloc, name)?,
        bytes: Vec::new(alloc),
    })
}

/// Appends the piece to the begun file. At `Memory` all is as before.
fn append(begun: &mut Option<Entry>, piece: &[u8]) -> Result<(), Memory>
    requires { IsSome begun.old }
    ensures ok { OnOk result (option_map file_of begun.new ≡ option_map (λ entry. record { name = string_bytes entry.name; bytes = entry.bytes.items ++ piece.now }) begun.old) }
    ensures err { OnErr result (option_map file_of begun.new ≡ option_map file_of begun.old) }
{
    if let Some(entry) = begun {
        entry.bytes.extend_from_slice(piece)?;
    }
    Ok(())
}

/// Appends the begun file to the finished files. At `Memory` all is as before.
fn finish(begun: &mut Option<Entry>, finished: &mut Files) -> Result<(), Memory>
    ensures ok { OnOk result (finished.new ≡ finished.old ++ option_to_list (option_map file_of begun.old)) }
    ensures none { OnOk result (option_map file_of begun.new ≡ None) }
    ensures err { OnErr result (finished.new ≡ finished.old) }
    ensures err_begun { OnErr result (option_map file_of begun.new ≡ option_map file_of begun.old) }
{
    if let Some(entry) = begun.take() {
        if let Err(entry) = finished.push_entry(entry) {
            *begun = Some(entry);
            return Err(Memory);
        }
    }
    Ok(())
}

impl Shelf for MemShelf {
    ghost held = { λ m. Some m.held };

    ghost is_begun = { λ m. is_some m.held.begun };

    ghost counts = { λ m. exact_counts m.faults m.last_failed };

    ghost told_alike = { λ m. Prim.search rules };

    fn begin(&mut self, name: &str) -> Result<(), Failed>
        requires { is_some self.old.held.begun ≡ false }
        ensures begun { is_some self.new.held.begun ≡ is_ok result }
        ensures held { OnOk result (Some self.new.held ≡ option_map (begin_file name.now) (Some self.old.held)) }
        ensures unchanged { OnErr result (Some self.new.held ≡ Some self.old.held) }
        ensures counts { CallMade result (exact_counts self.old.faults self.old.last_failed) (exact_counts self.new.faults self.new.last_failed) }

        // It fails if a stated failure says so, and else only for want of memory.
        ensures stated { Contains self.old.fails (fail.Begin (counted self.old.begins)) → IsErr result }
        ensures counted { IsCounted result self.old self.new }
        ensures call { self.new.begins ≡ counted self.old.begins }
        ensures other_calls { (self.new.writes ≡ self.old.writes) × (self.new.ends ≡ self.old.ends) }
    {
        self.last_failed = false;
        self.begins = self.begins.saturating_add(1);
        if !self.fails.states(ShelfFail::Begin(self.begins)) {
            if let Ok(entry) = empty_file(self.alloc, name) {
                self.begun = Some(entry);
                return Ok(());
            }
        }
        self.faults = self.faults.saturating_add(1);
        self.last_failed = true;
        Err(Failed)
    }

    fn write(&mut self, piece: &[u8]) -> Result<usize, Failed>
        requires begun { IsTrue (is_some self.old.held.begun) }
        requires not_empty { 0 < length piece.now }

        ensures some { IfOk result (λ n. 1 ≤ n) }
        ensures within { IfOk result (λ n. n ≤ length piece.now) }
        ensures held { IfOk result (λ n. Some self.new.held ≡ option_map (append_bytes (take n piece.now)) (Some self.old.held)) }
        ensures unchanged { OnErr result (Some self.new.held ≡ Some self.old.held) }
        ensures begun { IsTrue (is_some self.new.held.begun) }
        ensures counts { CallMade result (exact_counts self.old.faults self.old.last_failed) (exact_counts self.new.faults self.new.last_failed) }

        // It takes as much as its step allows. It fails if a stated failure says so, and else only for want of memory.
        ensures most { IfOk result (λ n. n ≡ min self.old.step (length piece.now)) }
        ensures stated { Contains self.old.fails (fail.Write (counted self.old.writes)) → IsErr result }
        ensures counted { IsCounted result self.old self.new }
        ensures call { self.new.writes ≡ counted self.old.writes }
        ensures other_calls { (self.new.begins ≡ self.old.begins) × (self.new.ends ≡ self.old.ends) }
    {
        self.last_failed = false;
        self.writes = self.writes.saturating_add(1);
        let n = self.step.min(piece.len());
        if !self.fails.states(ShelfFail::Write(self.writes))
            && append(&mut self.begun, &piece[..n]).is_ok()
        {
            return Ok(n);
        }
        self.faults = self.faults.saturating_add(1);
        self.last_failed = true;
        Err(Failed)
    }

    fn end(&mut self) -> Result<(), Failed>
        requires { IsTrue (is_some self.old.held.begun) }
        ensures begun { is_some self.new.held.begun ≡ is_err result }
        ensures held { OnOk result (Some self.new.held ≡ option_map end_file (Some self.old.held)) }
        ensures unchanged { OnErr result (Some self.new.held ≡ Some self.old.held) }
        ensures counts { CallMade result (exact_counts self.old.faults self.old.last_failed) (exact_counts self.new.faults self.new.last_failed) }

        // It fails if a stated failure says so, and else only for want of memory.
        ensures stated { Contains self.old.fails (fail.End (counted self.old.ends)) → IsErr result }
        ensures counted { IsCounted result self.old self.new }
        ensures call { self.new.ends ≡ counted self.old.ends }
        ensures other_calls { (self.new.begins ≡ self.old.begins) × (self.new.writes ≡ self.old.writes) }
    {
        self.last_failed = false;
        self.ends = self.ends.saturating_add(1);
        if !self.fails.states(ShelfFail::End(self.ends))
            && finish(&mut self.begun, &mut self.finished).is_ok()
        {
            return Ok(());
        }
        self.faults = self.faults.saturating_add(1);
        self.last_failed = true;
        Err(Failed)
    }
}
