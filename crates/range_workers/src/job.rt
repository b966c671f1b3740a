//! The packages of a job, made by one worker or by several, and written in order.

ghost use Rattle.std.specs.Prelude.{◌≡◌, ◌⊎◌, ◌<◌, ◌≤◌, ◌+◌, ◌∷◌, [], false, IsErrOf, IsTrue, OnErr, OnOk};
ghost use Rattle.std.specs.Option.{option_map};
ghost use Rattle.pd_outside.specs.Faults.{CallsMade, FailedAtLast, Unfailed};
ghost use Rattle.pd_outside.specs.Shelf.{AppendedPrefixOf, HoldsPrefixOf, append_bytes, finish_files};
ghost use Rattle.range_workers.specs.Makers.{IsReadyToMake};
ghost use Rattle.range_workers.specs.Marks.{AreMarksOf, due_files, texts};

use crate::makers::Makers;
use crate::{Marks, Packer, RunFault};
use pd_outside::{Failed, Gate, Shelf, WriteFailed, write_all};
use std::alloc::Global;
use std::thread::Threads;

/// Makes package `n`, after it has entered the gate, and appends its text to the begun file. Writes by one `write_all` if the text isn't
/// empty.
fn write_package<R: Threads + Sync, P: Packer + Sync, S: Shelf, G: Gate + Sync>(
    rt: &R,
    packer: &P,
    n: u64,
    makers: &mut Makers,
    shelf: &mut S,
    gate: &G,
) -> Result<(), WriteFailed>
    requires begun { IsTrue (S.is_begun shelf.old) }
    requires number { n < P.count packer.now }
    requires ready { IsReadyToMake (P.text packer.now) (P.count packer.now) (P.room packer.now) n makers.old }
    ensures text { OnOk result (S.held shelf.new ≡ option_map (append_bytes (P.text packer.now n)) (S.held shelf.old)) }
    ensures prefix { OnErr result (AppendedPrefixOf (P.text packer.now n) (S.held shelf.old) (S.held shelf.new)) }
    ensures counts { CallsMade result (S.counts shelf.old) (S.counts shelf.new) }
    ensures begun { IsTrue (S.is_begun shelf.new) }
    ensures ready { IsReadyToMake (P.text packer.now) (P.count packer.now) (P.room packer.now) (n + 1) makers.new }
{
    makers.turn(rt, packer, gate, n);
    if makers.text().is_empty() {
        return Ok(());
    }
    write_all(shelf, makers.text())
}

/// Makes the packages from `first` up to `end`, and appends their texts to the begun file.
fn write_packages<R: Threads + Sync, P: Packer + Sync, S: Shelf, G: Gate + Sync>(
    rt: &R,
    packer: &P,
    first: u64,
    end: u64,
    makers: &mut Makers,
    shelf: &mut S,
    gate: &G,
) -> Result<(), WriteFailed>
    requires begun { IsTrue (S.is_begun shelf.old) }
    requires ordered { first ≤ end }
    requires within { end ≤ P.count packer.now }
    requires ready { IsReadyToMake (P.text packer.now) (P.count packer.now) (P.room packer.now) first makers.old }
    ensures text { OnOk result (S.held shelf.new ≡ option_map (append_bytes (texts (P.text packer.now) first end)) (S.held shelf.old)) }
    ensures prefix { OnErr result (AppendedPrefixOf (texts (P.text packer.now) first end) (S.held shelf.old) (S.held shelf.new)) }
    ensures counts { CallsMade result (S.counts shelf.old) (S.counts shelf.new) }
    ensures begun { IsTrue (S.is_begun shelf.new) }
    ensures ready { OnOk result (IsReadyToMake (P.text packer.now) (P.count packer.now) (P.room packer.now) end makers.new) }
{
    let mut n = first;
    while n < end {
        match write_package(rt, packer, n, makers, shelf, gate) {
            Ok(()) => {}
            Err(WriteFailed) => return Err(WriteFailed),
        }
        n += 1;
    }
    Ok(())
}

/// Writes the file `name`, with the packages from `first` up to `end`.
fn write_file<R: Threads + Sync, P: Packer + Sync, S: Shelf, G: Gate + Sync>(
    rt: &R,
    packer: &P,
    name: &str,
    first: u64,
    end: u64,
    makers: &mut Makers,
    shelf: &mut S,
    gate: &G,
) -> Result<(), WriteFailed>
    requires none_begun { S.is_begun shelf.old ≡ false }
    requires ordered { first ≤ end }
    requires within { end ≤ P.count packer.now }
    requires ready { IsReadyToMake (P.text packer.now) (P.count packer.now) (P.room packer.now) first makers.old }
    ensures file { OnOk result (S.held shelf.new ≡ option_map (finish_files (record { name = name.now; bytes = texts (P.text packer.now) first end } ∷ [])) (S.held shelf.old)) }
    ensures prefix { OnErr result (HoldsPrefixOf (record { name = name.now; bytes = texts (P.text packer.now) first end } ∷ []) (S.held shelf.old) (S.held shelf.new)) }
    ensures counts { CallsMade result (S.counts shelf.old) (S.counts shelf.new) }
    ensures none_begun { OnOk result (S.is_begun shelf.new ≡ false) }
    ensures ready { OnOk result (IsReadyToMake (P.text packer.now) (P.count packer.now) (P.room packer.now) end makers.new) }
{
    match shelf.begin(name) {
        Ok(()) => {}
        Err(Failed) => return Err(WriteFailed),
    }
    match write_packages(rt, packer, first, end, makers, shelf, gate) {
        Ok(()) => {}
        Err(WriteFailed) => return Err(WriteFailed),
    }
    match shelf.end() {
        Ok(()) => Ok(()),
        Err(Failed) => Err(WriteFailed),
    }
}

/// Writes the files of all marks, one after the other.
fn write_files<R: Threads + Sync, P: Packer + Sync, S: Shelf, G: Gate + Sync>(
    rt: &R,
    packer: &P,
    marks: &Marks,
    makers: &mut Makers,
    shelf: &mut S,
    gate: &G,
) -> Result<(), WriteFailed>
    requires marks { AreMarksOf (P.count packer.now) marks.now }
    requires none_begun { S.is_begun shelf.old ≡ false }
    requires ready { IsReadyToMake (P.text packer.now) (P.count packer.now) (P.room packer.now) 0 makers.old }
    ensures files { OnOk result (S.held shelf.new ≡ option_map (finish_files (due_files (P.text packer.now) (P.count packer.now) marks.now)) (S.held shelf.old)) }
    ensures prefix { OnErr result (HoldsPrefixOf (due_files (P.text packer.now) (P.count packer.now) marks.now) (S.held shelf.old) (S.held shelf.new)) }
    ensures counts { CallsMade result (S.counts shelf.old) (S.counts shelf.new) }
    ensures none_begun { OnOk result (S.is_begun shelf.new ≡ false) }
{
    let count = packer.count();
    for i in 0..marks.len() {
        let end = marks.end(i, count);
        match write_file(
            rt,
            packer,
            marks.name(i),
            marks.first(i),
            end,
            makers,
            shelf,
            gate,
        ) {
            Ok(()) => {}
            Err(WriteFailed) => return Err(WriteFailed),
        }
    }
    Ok(())
}

/// Makes all packages of a job by `workers` workers, and writes them. For each mark it begins the file with the mark's name, appends the
/// texts of the packages in order up to the next mark, and ends the file. Each package enters the gate once, before it is made. Each text
/// that isn't empty is written by one `write_all`.
///
/// One worker is the caller itself. Several workers claim the packages in threads, in rounds of four packages for each worker. None of them
/// computes while a round is written.
///
/// Returns `Write` only if one call of the shelf failed, the last one; the shelf then holds a prefix of the due files. Returns `Memory` only before the
/// first file is begun.
pub fn run<R: Threads + Sync, P: Packer + Sync, S: Shelf, G: Gate + Sync>(
    rt: &R,
    alloc: Global,
    packer: &P,
    marks: &Marks,
    workers: u32,
    shelf: &mut S,
    gate: &G,
) -> Result<(), RunFault>
    requires some { 1 ≤ workers }
    requires few { workers ≤ 64 }
    requires marks { AreMarksOf (P.count packer.now) marks.now }
    requires none_begun { S.is_begun shelf.old ≡ false }
    ensures files { OnOk result (S.held shelf.new ≡ option_map (finish_files (due_files (P.text packer.now) (P.count packer.now) marks.now)) (S.held shelf.old)) }
    ensures prefix { IsErrOf result RunFault.Write → HoldsPrefixOf (due_files (P.text packer.now) (P.count packer.now) marks.now) (S.held shelf.old) (S.held shelf.new) }
    ensures failed { IsErrOf result RunFault.Write → FailedAtLast (S.counts shelf.old) (S.counts shelf.new) }
    ensures memory { IsErrOf result RunFault.Memory → shelf.new ≡ shelf.old }
    ensures unfailed { OnOk result (Unfailed (S.counts shelf.old) (S.counts shelf.new)) }
    ensures none_begun { OnOk result (S.is_begun shelf.new ≡ false) }
{
    let mut makers = match Makers::new(alloc, workers, packer.room()) {
        Ok(makers) => makers,
        Err(_) => return Err(RunFault::Memory),
    };
    match write_files(rt, packer, marks, &mut makers, shelf, gate) {
        Ok(()) => Ok(()),
        Err(WriteFailed) => Err(RunFault::Write),
    }
}
