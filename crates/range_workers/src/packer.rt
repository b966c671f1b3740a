//! What makes the packages of a job.

ghost use Rattle.std.specs.Prelude.{◌≡◌, ◌<◌, ◌≤◌, ◌^◌, [], ℕ, List, length};

use line_pages::PageBuf;

/// The packages of a job, numbered from 0. A package's text depends neither on the worker that makes it nor on the time.
pub trait Packer {
    /// The text of the package with a number.
    ghost text: { Self → ℕ → List ℕ };

    /// The number of packages.
    ghost count: { Self → ℕ };

    /// The room, in bytes, that a page needs for each text to fit.
    ghost room: { Self → ℕ };

    /// Returns the number of packages, at most 2^60.
    fn count(&self) -> u64
        ensures count { result ≡ count self.now }
        ensures most { result ≤ 2 ^ 60 };

    /// Returns the room, in bytes, that `pack` needs on a page.
    fn room(&self) -> usize
        ensures { result ≡ room self.now };

    /// Makes package `n` and puts its text on an empty page. The text has at most as many bytes as the packer's room. Takes no memory.
    fn pack(&self, n: u64, page: &mut PageBuf)
        requires number { n < count self.now }
        requires empty { page.old.text ≡ [] }
        requires room { room self.now ≤ page.old.room }
        ensures text { page.new ≡ record page.old { text = text self.now n } }
        ensures size { length (text self.now n) ≤ room self.now };
}
