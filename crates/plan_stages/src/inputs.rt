//! The bytes of files that were read.

use pd_outside::ReadFault;
use std::alloc::{AllocError, Global};
use std::marker::Model;

/// The bytes of some files, in order. A contract sees a list with the bytes of each file.
#[derive(Drop)]
pub struct Inputs {
    files: Vec<Vec<u8>>,
}

/// Which file isn't read, and why.
#[derive(Clone, Copy, Debug, PartialEq, Eq)]
pub struct UnreadInput {
    /// The place of the file's name in the list, counted from 0.
    pub number: usize,
    /// Why the file isn't read. `TooLong` means that it has more bytes than the files before it leave of the limit.
    pub cause: ReadFault,
}

impl Model for Inputs {
    ghost use Rattle.std.specs.Prelude.{ℕ, List, map};

    ghost Value = { List (List ℕ) };

    ghost view = { λ i. map (λ file. file.items) i.files.items };
}

impl Inputs {
    ghost use Rattle.std.specs.Prelude.{◌≡◌, ◌==◌, ◌<◌, [], ◌∷◌, ◌++◌, length, map, slice_get, OnOk, OnErr, Some};

    /// Returns no files. It takes no memory.
    pub fn new(alloc: Global) -> Inputs
        ensures { result ≡ [] }
    {
        Inputs {
            files: Vec::new(alloc),
        }
    }

    /// Returns the number of files.
    pub fn len(&self) -> usize
        ensures { result ≡ length self.now }
    {
        self.files.len()
    }

    /// Whether there are no files.
    pub fn is_empty(&self) -> bool
        ensures { result ≡ (length self.now == 0) }
    {
        self.files.is_empty()
    }

    /// Returns the bytes of file number `i`, counted from 0.
    pub fn get(&self, i: usize) -> &[u8]
        requires { i < length self.now }
        ensures { slice_get self.now i ≡ Some result.now }
    {
        self.files[i].as_slice()
    }

    /// Returns all files, in order.
    pub fn as_slice(&self) -> &[Vec<u8>]
        ensures { map (λ file. file.items) result.now ≡ self.now }
    {
        self.files.as_slice()
    }

    /// Appends the bytes of a file. If memory is wanting, the others stay as they were.
    pub fn push(&mut self, bytes: Vec<u8>) -> Result<(), AllocError>
        ensures appended { OnOk result (self.new ≡ self.old ++ bytes.items ∷ []) }
        ensures unchanged { OnErr result (self.new ≡ self.old) }
    {
        self.files.push(bytes)?;
        Ok(())
    }
}
