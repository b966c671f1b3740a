//! The system's files, on which some calls fail.

use std::cell::Cell;
use std::fs::{Files, Metadata, OpenFile, OpenOptions};
use std::io;
use std::io::{ErrorKind, Read, Seek, SeekFrom, Write};

// Which calls fail. The first `unopened` openings are refused. On an opened file a signal breaks off the first `broken_off` reads. A write past `room` bytes finds no room.
// `sync` is the error of syncing the file; None if syncing works.
#[derive(Clone, Copy)]
pub(crate) struct Faults {
    pub(crate) unopened: u32,
    pub(crate) broken_off: u32,
    pub(crate) room: usize,
    pub(crate) sync: Option<ErrorKind>,
}

impl Faults {
    // Returns no faults.
    pub(crate) fn none() -> Faults {
        Faults {
            unopened: 0,
            broken_off: 0,
            room: usize::MAX,
            sync: None,
        }
    }
}

#[derive(Drop)]
pub(crate) struct FaultyFiles<R> {
    files: R,
    faults: Faults,
    unopened: Cell<u32>,
}

#[derive(Drop)]
pub(crate) struct FaultyFile<F> {
    file: F,
    left: Faults,
}

impl<R: Files> FaultyFiles<R> {
    pub(crate) fn new(files: R, faults: Faults) -> Self {
        FaultyFiles {
            files,
            faults,
            unopened: Cell::new(faults.unopened),
        }
    }
}

impl<F: Read> Read for FaultyFile<F> {
    fn read(&mut self, into: &mut [u8]) -> io::Result<usize> {
        if self.left.broken_off > 0 {
            self.left.broken_off -= 1;
            return Err(ErrorKind::Interrupted.into());
        }
        self.file.read(into)
    }
}

impl<F: Write> Write for FaultyFile<F> {
    fn write(&mut self, bytes: &[u8]) -> io::Result<usize> {
        let fitting = bytes.len().min(self.left.room);
        if fitting < bytes.len() && fitting == 0 {
            return Err(ErrorKind::StorageFull.into());
        }
        let written = self.file.write(&bytes[..fitting])?;
        self.left.room = self.left.room.saturating_sub(written);
        Ok(written)
    }

    fn flush(&mut self) -> io::Result<()> {
        self.file.flush()
    }
}

impl<F: Seek> Seek for FaultyFile<F> {
    fn seek(&mut self, to: SeekFrom) -> io::Result<u64> {
        self.file.seek(to)
    }
}

impl<F: OpenFile> OpenFile for FaultyFile<F> {
    fn metadata(&self) -> io::Result<Metadata> {
        self.file.metadata()
    }

    fn set_len(&self, size: u64) -> io::Result<()> {
        self.file.set_len(size)
    }

    fn sync_all(&self) -> io::Result<()> {
        match self.left.sync {
            Some(kind) => Err(kind.into()),
            None => self.file.sync_all(),
        }
    }

    fn sync_data(&self) -> io::Result<()> {
        self.sync_all()
    }
}

impl<R: Files> Files for FaultyFiles<R> {
    type File = FaultyFile<R::File>;

    type Dir = R::Dir;

    fn open_file(&self, how: &OpenOptions, path: &str) -> io::Result<Self::File> {
        if let Some(left) = self.unopened.get().checked_sub(1) {
            self.unopened.set(left);
            return Err(ErrorKind::Other.into());
        }
        Ok(FaultyFile {
            file: self.files.open_file(how, path)?,
            left: self.faults,
        })
    }

    fn open_dir(&self, path: &str) -> io::Result<R::Dir> {
        self.files.open_dir(path)
    }

    fn metadata(&self, path: &str) -> io::Result<Metadata> {
        self.files.metadata(path)
    }

    fn symlink_metadata(&self, path: &str) -> io::Result<Metadata> {
        self.files.symlink_metadata(path)
    }

    fn copy(&self, from: &str, to: &str) -> io::Result<u64> {
        self.files.copy(from, to)
    }

    fn rename(&self, from: &str, to: &str) -> io::Result<()> {
        self.files.rename(from, to)
    }

    fn remove_file(&self, path: &str) -> io::Result<()> {
        self.files.remove_file(path)
    }

    fn create_dir(&self, path: &str) -> io::Result<()> {
        self.files.create_dir(path)
    }

    fn remove_dir(&self, path: &str) -> io::Result<()> {
        self.files.remove_dir(path)
    }

    fn remove_dir_all<B: std::alloc::Allocator>(&self, alloc: B, path: &str) -> io::Result<()> {
        self.files.remove_dir_all(alloc, path)
    }
}
