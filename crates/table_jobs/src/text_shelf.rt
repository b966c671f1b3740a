//! Files that are written into memory, up to a limit.

ghost use Rattle.std.specs.Prelude.{◌≡◌, ◌≤◌, ◌+◌, Some, is_some};
ghost use Rattle.pd_outside.specs.Faults.{Rose, counted, exact_counts};
ghost use Rattle.table_jobs.specs.InMemory.{bytes_held, no_files};

use pd_outside::{Failed, Files, MemShelf, Shelf, ShelfFails};
use std::alloc::Global;

/// The most bytes that all files can have together.
pub(crate) const TEXT_LIMIT: usize = 268_435_456;

/// A shelf in memory that takes one byte more than the limit of all its files, and then fails. So files that are too long are told
/// from want of memory, and no byte after that one is kept.
pub(crate) struct TextShelf {
    shelf: MemShelf,
    /// How many more bytes the shelf takes.
    room: usize,
    faults: u64,
    last_failed: bool,
    ghost counted: { bytes_held shelf.held + room ≡ 268435457 },
}

impl Drop for TextShelf {
    fn drop(self) {
        let TextShelf {
            shelf,
            room: _,
            faults: _,
            last_failed: _,
        } = self;
        drop(shelf);
    }
}

impl TextShelf {
    ghost use Rattle.std.specs.Prelude.{◌↔◌, ◌<◌, IsTrue, false};
    ghost use Rattle.pd_outside.specs.Shelf.{Held};

    /// Returns a shelf without a file.
    pub(crate) fn new(alloc: Global) -> TextShelf
        ensures held { result.shelf.held ≡ no_files }
        ensures left { result.room ≡ 268435457 }
    {
        TextShelf {
            shelf: MemShelf::new(alloc, ShelfFails::new(alloc), usize::MAX),
            room: TEXT_LIMIT + 1,
            faults: 0,
            last_failed: false,
        }
    }

    /// Returns the finished files, in order.
    pub(crate) fn finished(&self) -> &Files
        ensures { result.now ≡ self.now.shelf.held.finished }
    {
        self.shelf.finished()
    }

    /// Whether more bytes than the limit were written.
    pub(crate) fn is_past_limit(&self) -> bool
        ensures past { IsTrue result ↔ (268435456 < bytes_held self.now.shelf.held) }
    {
        self.room == 0
    }

    /// Counts a failed call and returns its error.
    fn failed(&mut self) -> Failed
        ensures shelf { self.new.shelf ≡ self.old.shelf }
        ensures room { self.new.room ≡ self.old.room }
        ensures faults { self.new.faults ≡ counted self.old.faults }
        ensures never_falls { self.old.faults ≤ self.new.faults }
        ensures cause { Rose self.old.faults self.new.faults }
        ensures last { IsTrue self.new.last_failed }
    {
        self.faults = self.faults.saturating_add(1);
        self.last_failed = true;
        Failed
    }
}

impl Shelf for TextShelf {
    ghost use Rattle.std.proofs.Common.{rules};

    ghost held = { λ m. Some m.shelf.held };

    ghost is_begun = { λ m. is_some m.shelf.held.begun };

    ghost counts = { λ m. exact_counts m.faults m.last_failed };

    ghost told_alike = { λ m. Prim.search rules };

    fn begin(&mut self, name: &str) -> Result<(), Failed> {
        match self.shelf.begin(name) {
            Ok(()) => {
                self.last_failed = false;
                Ok(())
            }
            Err(_) => Err(self.failed()),
        }
    }

    fn write(&mut self, piece: &[u8]) -> Result<usize, Failed> {
        let size = piece.len().min(self.room);
        if size == 0 {
            return Err(self.failed());
        }
        match self.shelf.write(&piece[..size]) {
            Ok(taken) => {
                self.room -= taken;
                self.last_failed = false;
                Ok(taken)
            }
            Err(_) => Err(self.failed()),
        }
    }

    fn end(&mut self) -> Result<(), Failed> {
        match self.shelf.end() {
            Ok(()) => {
                self.last_failed = false;
                Ok(())
            }
            Err(_) => Err(self.failed()),
        }
    }
}
