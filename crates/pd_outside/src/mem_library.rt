//! A library in memory.

ghost use Rattle.std.specs.Prelude.{◌≡◌, ◌<◌, ◌≤◌, ◌+◌, ◌^◌, ◌⊎◌, ◌++◌, [], ◌∷◌, None, Some, false, true, length, min, IsTrue, IfOk, OnOk, OnErr, IfSome, IfNone, is_ok, is_err, is_some, slice_get, map, take, string_bytes};
ghost use Rattle.std.proofs.Common.{rules};
ghost use Rattle.std.specs.Option.{option_map};
ghost use Rattle.std.specs.Result.{result_unwrap_or};
ghost use Rattle.pd_outside.specs.Faults.{CallMade, counted, exact_count};
ghost use Rattle.pd_outside.specs.Files.{file_named, file_at};
ghost use Rattle.pd_outside.specs.Library.{left, start_file, take_bytes, stop, ReadsPrefix, ask, AskedAtMost};
ghost use Rattle.pd_outside.specs.InMemory.{Reading, start_fails, read_fails};
ghost use Rattle.pd_outside.specs.MemLibrary.{IsIn, rest_of};

use crate::{Failed, Files, Library, LibraryFails};
use out_of_memory::Memory;
use std::alloc::Global;
use std::marker::Model;

/// A library over files in memory, with stated failures. It tells all its meanings.
///
/// A call fails if a stated failure says so. A `start` also fails if no file has the name, or if no memory is left to keep the
/// name. Each failed call counts as a fault.
pub struct MemLibrary {
    files: Files,
    fails: LibraryFails,
    asked: Vec<String>,
    started: Option<Started>,
    taken: u64,
    faults: u64,
}

impl Drop for MemLibrary {
    fn drop(self) {
        let MemLibrary {
            files,
            fails,
            asked,
            started: _,
            taken: _,
            faults: _,
        } = self;
        drop(files);
        drop(fails);
        drop(asked);
    }
}

/// A started file.
#[derive(Clone, Copy)]
struct Started {
    /// The number of the file.
    file: usize,
    /// The place of the first byte that is left.
    place: usize,
    /// How many calls were made on the file since its start, the start included.
    calls: u64,
}

impl Model for MemLibrary {
    ghost use Rattle.pd_outside.specs.InMemory.{Reading};
    ghost use Rattle.pd_outside.specs.MemLibrary.{reading_of, IsAtPlace};

    ghost Value = { Reading };

    ghost view = { reading_of };

    ghost invariant = { IsAtPlace };
}

impl MemLibrary {
    /// Returns a library that holds the files and has the failures. Nothing was asked, started or taken, and no call was made.
    pub fn new(alloc: Global, files: Files, fails: LibraryFails) -> Self
        ensures files { result.content ≡ record { files = files; started = None } }
        ensures fails { result.fails ≡ fails }
        ensures asked { result.asked ≡ [] }
        ensures calls { result.calls ≡ 0 }
        ensures taken { result.taken ≡ 0 }
        ensures faults { result.faults ≡ 0 }
    {
        MemLibrary {
            files,
            fails,
            asked: Vec::new(alloc),
            started: None,
            taken: 0,
            faults: 0,
        }
    }

    /// Returns how many names were asked so far.
    pub fn asked_len(&self) -> usize
        ensures { result ≡ length self.now.asked }
    {
        self.asked.len()
    }

    /// Returns the name that was asked as number `i`, counted from 0.
    pub fn asked_name(&self, i: usize) -> &str
        requires { i < length self.now.asked }
        ensures { slice_get self.now.asked i ≡ Some result.now }
    {
        self.asked[i].as_str()
    }
}

/// Appends a copy of the name. At `Memory` the list is as before.
fn keep_name(asked: &mut Vec<String>, name: &str) -> Result<(), Memory>
    ensures ok { OnOk result (map string_bytes asked.new.items ≡ map string_bytes asked.old.items ++ name.now ∷ []) }
    ensures err { OnErr result (asked.new.items ≡ asked.old.items) }
{
    let alloc = *asked.allocator();
    let name = String::from_str(alloc, name)?;
    asked.push(name)?;
    Ok(())
}

/// Returns the number of the first file of a name; None if no file has it.
pub(crate) fn number_of(files: &Files, name: &str) -> Option<usize>
    ensures absent { IfNone result (file_named files.now name.now ≡ None) }
    ensures within { IfSome result (λ i. i < length files.now) }
    ensures name { IfSome result (λ i. (file_at files.now i).name ≡ name.now) }
    ensures bytes { IfSome result (λ i. file_named files.now name.now ≡ Some (file_at files.now i).bytes) }
{
    for i in 0..files.len() {
        if files.name(i) == name {
            return Some(i);
        }
    }
    None
}

impl Library for MemLibrary {
    ghost content = { λ m. Some m.content };

    ghost asked = { λ m. Some m.asked };

    ghost is_started = { λ m. is_some m.content.started };

    ghost taken = { λ m. m.taken };

    ghost counts = { λ m. exact_count m.faults };

    ghost told_alike = { λ m. Prim.search rules };

    fn start(&mut self, name: &str) -> Result<(), Failed>
        ensures started { is_some self.new.content.started ≡ is_ok result }
        ensures content { OnOk result (Some self.new.content ≡ Some (start_file name.now self.old.content)) }
        ensures stopped { OnErr result (Some self.new.content ≡ Some (stop self.old.content)) }
        ensures asked { OnOk result (Some self.new.asked ≡ ask name.now (Some self.old.asked)) }
        ensures asked_at_most { AskedAtMost name.now (Some self.old.asked) (Some self.new.asked) }
        ensures taken { self.new.taken ≡ 0 }
        ensures counts { CallMade result (exact_count self.old.faults) (exact_count self.new.faults) }

        // It fails if a stated failure says so or the name is absent, and else only for want of memory.
        ensures stated { OnOk result (start_fails self.old name.now ≡ false) }
        ensures no_other { OnErr result ((start_fails self.old name.now ≡ true) ⊎ (self.new.asked ≡ self.old.asked)) }
        ensures call { OnOk result (self.new.calls ≡ 1) }
        ensures fails { self.new.fails ≡ self.old.fails }
    {
        self.started = None;
        self.taken = 0;
        let kept = keep_name(&mut self.asked, name);
        if kept.is_ok() && !self.fails.states(name, 1) {
            if let Some(file) = number_of(&self.files, name) {
                self.started = Some(Started {
                    file,
                    place: 0,
                    calls: 1,
                });
                return Ok(());
            }
        }
        self.faults = self.faults.saturating_add(1);
        Err(Failed)
    }

    fn read(&mut self, into: &mut [u8]) -> Result<usize, Failed>
        requires started { IsTrue (is_some self.old.content.started) }
        requires not_empty { 0 < length into.old }
        requires countable { self.old.taken + length into.old < 2 ^ 64 }

        ensures within { IfOk result (λ n. n ≤ length into.old) }
        ensures prefix { IfOk result (λ n. IfSome (Some self.old.content) (λ c. ReadsPrefix (left c) n into.new)) }
        ensures content { IfOk result (λ n. Some self.new.content ≡ option_map (take_bytes n) (Some self.old.content)) }
        ensures started { is_some self.new.content.started ≡ is_ok result }
        ensures stopped { OnErr result (Some self.new.content ≡ option_map stop (Some self.old.content)) }
        ensures taken { self.new.taken ≡ self.old.taken + result_unwrap_or result 0 }
        ensures asked { Some self.new.asked ≡ Some self.old.asked }
        ensures counts { CallMade result (exact_count self.old.faults) (exact_count self.new.faults) }

        // It fails exactly if a stated failure says so, and takes all that fits.
        ensures stated { is_err result ≡ read_fails self.old }
        ensures most { IfOk result (λ n. n ≡ min (length into.old) (length (left self.old.content))) }
        ensures call { OnOk result (self.new.calls ≡ counted self.old.calls) }
        ensures fails { self.new.fails ≡ self.old.fails }
    {
        let started = match self.started {
            Some(started) => started,
            None => return Ok(0),
        };
        let calls = started.calls.saturating_add(1);
        if self.fails.states(self.files.name(started.file), calls) {
            self.started = None;
            self.faults = self.faults.saturating_add(1);
            return Err(Failed);
        }
        let n = copy_prefix(bytes_from(&self.files, started), into);
        self.started = Some(Started {
            file: started.file,
            place: started.place + n,
            calls,
        });
        self.taken += n as u64;
        Ok(n)
    }
}

/// Returns the bytes that are left of the started file.
fn bytes_from(files: &Files, started: Started) -> &[u8]
    requires { IsIn files.now started }
    ensures rest { result.now ≡ rest_of files.now started }
    ensures countable { started.place + length result.now < 2 ^ 64 }
{
    &files.bytes(started.file)[started.place..]
}

/// Copies what fits to the beginning of `into`, and returns how many bytes.
pub(crate) fn copy_prefix(from: &[u8], into: &mut [u8]) -> usize
    ensures count { result ≡ min (length into.old) (length from.now) }
    ensures prefix { take result into.new ≡ take result from.now }
{
    let n = into.len().min(from.len());
    into[..n].copy_from_slice(&from[..n]);
    n
}
