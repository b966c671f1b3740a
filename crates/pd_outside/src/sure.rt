//! An outside that never fails.

ghost use Rattle.std.specs.Prelude.{◌≡◌, ◌<◌, ◌+◌, ◌^◌, None, Some, false, is_some, length};
ghost use Rattle.std.proofs.Common.{rules};
ghost use Rattle.pd_outside.specs.Faults.{exact_count, exact_counts};
ghost use Rattle.pd_outside.specs.Sure.{IsOpened, left_of};

use crate::mem_library::{copy_prefix, number_of};
use crate::{Failed, Files, Library, Shelf};
use std::marker::Model;

/// A library over files in memory that never fails. If no file has a name, it starts an empty file. It tells its files, but not the
/// names asked, so it takes no memory.
#[derive(Drop)]
pub struct SureLibrary {
    files: Files,
    started: Option<Opened>,
    taken: u64,
}

/// A started file.
#[derive(Clone, Copy)]
struct Opened {
    /// The number of the file; None if no file has the name.
    file: Option<usize>,
    /// The place of the first byte that is left.
    place: usize,
}

impl Model for SureLibrary {
    ghost use Rattle.pd_outside.specs.Sure.{AreAtPlace, SureReading, sure_reading};

    ghost Value = { SureReading };

    ghost view = { sure_reading };

    ghost invariant = { AreAtPlace };
}

impl SureLibrary {
    /// Returns a library that holds the files. Nothing was started or taken.
    pub fn new(files: Files) -> Self
        ensures files { result.content ≡ record { files = files; started = None } }
        ensures taken { result.taken ≡ 0 }
    {
        SureLibrary {
            files,
            started: None,
            taken: 0,
        }
    }
}

/// Returns the bytes that are left of a started file.
fn bytes_left(files: &Files, opened: Opened) -> &[u8]
    requires { IsOpened files.now opened }
    ensures rest { result.now ≡ left_of files.now opened }
    ensures countable { opened.place + length result.now < 2 ^ 64 }
{
    match opened.file {
        Some(number) => &files.bytes(number)[opened.place..],
        None => &[],
    }
}

impl Library for SureLibrary {
    ghost content = { λ m. Some m.content };

    ghost asked = { λ m. None };

    ghost is_started = { λ m. is_some m.content.started };

    ghost taken = { λ m. m.taken };

    ghost counts = { λ m. exact_count 0 };

    ghost told_alike = { λ m. Prim.search rules };

    fn start(&mut self, name: &str) -> Result<(), Failed> {
        self.started = Some(Opened {
            file: number_of(&self.files, name),
            place: 0,
        });
        self.taken = 0;
        Ok(())
    }

    fn read(&mut self, into: &mut [u8]) -> Result<usize, Failed> {
        let Some(opened) = self.started else {
            unreachable!()
        };
        let n = copy_prefix(bytes_left(&self.files, opened), into);
        self.started = Some(Opened {
            file: opened.file,
            place: opened.place + n,
        });
        self.taken += n as u64;
        Ok(n)
    }
}

/// A shelf that never fails. It takes each piece whole, keeps nothing, and tells nothing of its files.
#[derive(Clone, Copy, Debug, PartialEq, Eq)]
pub struct SureShelf {
    is_begun: bool,
}

impl SureShelf {
    /// Returns a shelf on which no file is begun.
    pub fn new() -> Self
        ensures { result.is_begun ≡ false }
    {
        SureShelf { is_begun: false }
    }
}

impl Shelf for SureShelf {
    ghost held = { λ m. None };

    ghost is_begun = { λ m. m.is_begun };

    ghost counts = { λ m. exact_counts 0 false };

    ghost told_alike = { λ m. tt };

    fn begin(&mut self, _name: &str) -> Result<(), Failed> {
        self.is_begun = true;
        Ok(())
    }

    fn write(&mut self, piece: &[u8]) -> Result<usize, Failed> {
        Ok(piece.len())
    }

    fn end(&mut self) -> Result<(), Failed> {
        self.is_begun = false;
        Ok(())
    }
}
