//! A list of files in memory.

ghost use Rattle.std.specs.Prelude.{◌≡◌, ◌<◌, ◌↔◌, [], ◌∷◌, ◌++◌, length, IsTrue, IfErr, OnOk, OnErr};
ghost use Rattle.pd_outside.specs.Files.{file_at};

use out_of_memory::Memory;
use std::alloc::Global;
use std::marker::Model;

/// A list of files, each with a name and bytes, in the order of pushing them. A name can stand twice.
#[derive(Drop)]
pub struct Files {
    entries: Vec<Entry>,
}

#[derive(Drop)]
pub(crate) struct Entry {
    pub(crate) name: String,
    pub(crate) bytes: Vec<u8>,
}

impl Model for Files {
    ghost use Rattle.std.specs.Prelude.{List};
    ghost use Rattle.pd_outside.specs.Files.{File};
    ghost use Rattle.pd_outside.specs.Entry.{files_of};

    ghost Value = { List File };

    ghost view = { λ f. files_of f.entries.items };
}

impl Files {
    ghost use Rattle.pd_outside.specs.Entry.{file_of};

    /// Returns a list of no files.
    pub fn new(alloc: Global) -> Self
        ensures { result ≡ [] }
    {
        Files {
            entries: Vec::new(alloc),
        }
    }

    /// Appends a file. At `Memory` the list is as before.
    pub fn push(&mut self, name: &str, bytes: &[u8]) -> Result<(), Memory>
        ensures ok { OnOk result (self.new ≡ self.old ++ record { name = name.now; bytes = bytes.now } ∷ []) }
        ensures err { OnErr result (self.new ≡ self.old) }
    {
        let alloc = *self.entries.allocator();
        let entry = Entry {
            name: String::from_str(alloc, name)?,
            bytes: Vec::from_slice(alloc, bytes)?,
        };
        self.entries.push(entry)?;
        Ok(())
    }

    /// Appends a file that is already in memory. If memory runs out, gives the file back, and the list is as before.
    pub(crate) fn push_entry(&mut self, entry: Entry) -> Result<(), Entry>
        ensures ok { OnOk result (self.new ≡ self.old ++ file_of entry ∷ []) }
        ensures err { OnErr result (self.new ≡ self.old) }
        ensures given_back { IfErr result (λ back. back ≡ entry) }
    {
        match self.entries.push(entry) {
            Ok(()) => Ok(()),
            Err(failed) => Err(failed.value),
        }
    }

    /// Returns the number of files.
    pub fn len(&self) -> usize
        ensures { result ≡ length self.now }
    {
        self.entries.len()
    }

    /// Whether there is no file.
    pub fn is_empty(&self) -> bool
        ensures { IsTrue result ↔ (self.now ≡ []) }
    {
        self.entries.is_empty()
    }

    /// Returns the name of file number `i`, counted from 0.
    pub fn name(&self, i: usize) -> &str
        requires { i < length self.now }
        ensures { result.now ≡ (file_at self.now i).name }
    {
        self.entries[i].name.as_str()
    }

    /// Returns the bytes of file number `i`, counted from 0.
    pub fn bytes(&self, i: usize) -> &[u8]
        requires { i < length self.now }
        ensures { result.now ≡ (file_at self.now i).bytes }
    {
        &self.entries[i].bytes
    }
}
