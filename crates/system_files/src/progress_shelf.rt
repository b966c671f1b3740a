//! A shelf whose progress is told.

ghost use Rattle.std.specs.Prelude.{◌≡◌};

use crate::progress::Progress;
use pd_outside::{Failed, Shelf};
use std::io::Write;
use std::rt::Clock;

/// A shelf that also shows a line on how far its file has come: the name, the bytes and the rate, once a second. The line goes to
/// an output of its own. It is cleared when the file ends or a call fails. What the shelf holds and answers stays the same.
#[derive(Drop)]
pub struct ProgressShelf<S, C, W> {
    shelf: S,
    progress: Progress<C, W>,
}

impl<S: Shelf + Drop, C: Clock + Drop, W: Write + Drop> ProgressShelf<S, C, W> {
    /// Returns the shelf with its progress told to `to`, by a clock. Nothing is told if `to` is None. Nothing is told while `-` is
    /// written if `-` shares the place with `to`, such as a terminal.
    pub fn new(shelf: S, clock: C, to: Option<W>, shares_output: bool) -> Self
        ensures { result.shelf ≡ shelf }
    {
        ProgressShelf {
            shelf,
            progress: Progress::new(clock, to, shares_output),
        }
    }

    /// Returns the shelf itself.
    pub fn shelf(&self) -> &S
        ensures { result.now ≡ self.now.shelf }
    {
        &self.shelf
    }
}

impl<S: Shelf + Drop, C: Clock + Drop, W: Write + Drop> Shelf for ProgressShelf<S, C, W> {
    ghost held = { λ it. S.held it.shelf };

    ghost is_begun = { λ it. S.is_begun it.shelf };

    ghost counts = { λ it. S.counts it.shelf };

    ghost told_alike = { λ it. S.told_alike it.shelf };

    fn begin(&mut self, name: &str) -> Result<(), Failed> {
        let begun = self.shelf.begin(name);
        self.progress.begin(name);
        begun
    }

    fn write(&mut self, piece: &[u8]) -> Result<usize, Failed> {
        let written = self.shelf.write(piece);
        match written {
            Ok(n) => self.progress.count(n),
            Err(_) => self.progress.clear(),
        }
        written
    }

    fn end(&mut self) -> Result<(), Failed> {
        let ended = self.shelf.end();
        self.progress.clear();
        ended
    }
}
