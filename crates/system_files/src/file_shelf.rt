//! The files of the system that are written, and the standard output.

ghost use Rattle.std.specs.Prelude.{◌≡◌, false, None, is_some};
ghost use Rattle.pd_outside.specs.Faults.{exact_counts};

use crate::Syncing;
use crate::last_fault::{FileName, LastFault};
use crate::output::Output;
use crate::places::Places;
use crate::writing::Writing;
use pd_outside::{Failed, Shelf};
use std::alloc::Global;
use std::io::Stdout;
use std::rt::Files;

/// The files of the system and the standard output, written one after the other. It can't tell what they hold.
///
/// A name is a path, and `-` is the standard output. No folder is made. An absent file is created. A regular file stays as it is
/// until the new one is whole. The new one is written beside it, as `NAME.part`, and takes its place at the end. If the folder
/// refuses another file, the file itself is opened and emptied. A link to a regular file is followed. Anything else, such as a pipe
/// or a device, is opened as it is.
///
/// Bytes gather in a buffer of 16 KiB. The buffer is written out when the next bytes don't fit, and at the end. A text of 16 KiB or
/// more goes to the system directly, after the gathered bytes. At the end a file is synced, if that is wanted. So a failure can
/// show later than at the call that brought the bytes, but no later than at the end. An error from closing a file, after the sync,
/// is lost.
///
/// Each error of the system counts as a fault. So does a write of which the system takes no byte, and a buffer for which there is
/// no memory.
#[derive(Drop)]
pub struct FileShelf<R: Files> {
    places: Places<R>,
    writing: Writing<Output<R::File>>,
    name: FileName,
}

impl<R: Files> FileShelf<R> {
    /// Returns a shelf on which nothing is begun, and no call failed. Files are synced at their end.
    pub fn new(rt: R, alloc: Global, stdout: Stdout) -> Self
        ensures begun { is_some result.writing.begun ≡ false }
        ensures faults { result.writing.faults ≡ 0 }
        ensures last_failed { result.writing.last_failed ≡ false }
    {
        FileShelf::with_syncing(rt, alloc, stdout, Syncing::AtEnd)
    }

    /// Returns a shelf on which nothing is begun, and no call failed. `syncing` says when files are synced.
    pub fn with_syncing(rt: R, alloc: Global, stdout: Stdout, syncing: Syncing) -> Self
        ensures begun { is_some result.writing.begun ≡ false }
        ensures faults { result.writing.faults ≡ 0 }
        ensures last_failed { result.writing.last_failed ≡ false }
    {
        FileShelf {
            places: Places::new(rt, alloc, stdout, syncing),
            writing: Writing::new(),
            name: FileName::new(),
        }
    }

    /// Returns the file of the last call that failed, and the system's reason. Returns None if no call failed.
    pub fn last_fault(&self) -> Option<LastFault> {
        Some(LastFault::new(self.name, self.writing.reason()?))
    }
}

impl<R: Files> Shelf for FileShelf<R> {
    ghost held = { λ _. None };

    ghost is_begun = { λ shelf. is_some shelf.writing.begun };

    ghost counts = { λ shelf. exact_counts shelf.writing.faults shelf.writing.last_failed };

    ghost told_alike = { λ _. tt };

    fn begin(&mut self, name: &str) -> Result<(), Failed> {
        self.name.set(name);
        let opened = self.places.open(name);
        self.writing.begin(opened)
    }

    fn write(&mut self, piece: &[u8]) -> Result<usize, Failed> {
        self.writing.write(piece)
    }

    fn end(&mut self) -> Result<(), Failed> {
        self.writing.end(&self.places)
    }
}
