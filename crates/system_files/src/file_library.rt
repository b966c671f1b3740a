//! The files of the system that are read.

ghost use Rattle.std.specs.Prelude.{◌≡◌, false, None, is_some};
ghost use Rattle.pd_outside.specs.Faults.{exact_count};

use crate::last_fault::{FileName, LastFault};
use crate::reading::Reading;
use pd_outside::{Failed, Library};
use std::fs::File;
use std::rt::Files;

/// The files of the system, read one at a time. It can't tell what they hold, nor which were asked.
///
/// A name is a path. A start fails if the file can't be opened, such as an absent file. Each error of the system counts as a
/// fault. A read that a signal breaks off is no fault: it is made again. A read of no byte is the end of the file.
#[derive(Drop)]
pub struct FileLibrary<R: Files> {
    rt: R,
    reading: Reading<R::File>,
    name: FileName,
}

impl<R: Files> FileLibrary<R> {
    /// Returns a library in which nothing is started or taken, and no call failed.
    pub fn new(rt: R) -> Self
        ensures started { is_some result.reading.started ≡ false }
        ensures taken { result.reading.taken ≡ 0 }
        ensures faults { result.reading.faults ≡ 0 }
    {
        FileLibrary {
            rt,
            reading: Reading::new(),
            name: FileName::new(),
        }
    }

    /// Returns the file of the last call that failed, and the system's reason. Returns None if no call failed.
    pub fn last_fault(&self) -> Option<LastFault> {
        Some(LastFault::new(self.name, self.reading.reason()?))
    }
}

impl<R: Files> Library for FileLibrary<R> {
    ghost content = { λ _. None };

    ghost asked = { λ _. None };

    ghost is_started = { λ library. is_some library.reading.started };

    ghost taken = { λ library. library.reading.taken };

    ghost counts = { λ library. exact_count library.reading.faults };

    ghost told_alike = { λ _. tt };

    fn start(&mut self, name: &str) -> Result<(), Failed> {
        self.name.set(name);
        self.reading.start(File::open(&self.rt, name))
    }

    fn read(&mut self, into: &mut [u8]) -> Result<usize, Failed> {
        self.reading.read(into)
    }
}
