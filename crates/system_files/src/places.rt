//! Opening the files that are written, and putting them in their places.

ghost use Rattle.std.specs.Prelude.{◌≡◌, ◌≢◌, ◌++◌, IfOk, codes, string_bytes};
ghost use Rattle.system_files.specs.declared.places.Target.TheVariants.{Path, Standard};

use crate::Syncing;
use crate::output::Output;
use crate::writing::Finish;
use std::alloc::Global;
use std::fs::{File, Metadata, OpenFile, OpenOptions};
use std::io::{BufWriter, ErrorKind, Stdout};
use std::os::unix::fs::MetadataExt;
use std::rt::Files;
use std::{fs, io};

/// The bytes that are gathered before the system is asked to write them. A longer text isn't copied into the buffer: calls with so
/// many bytes cost no more per byte than longer ones.
const BUFFER: usize = 1 << 14;

/// The end of the name of a file that isn't whole yet.
const PART: &str = ".part";

/// The system's files by their names, and the standard output.
///
/// If a regular file has the name, it stays until the new one is whole. The new one is written beside it, under the name with
/// `.part` after it, and takes its place at the end. If the folder refuses another file, the file itself is opened. Every other
/// name is opened as it is.
pub(crate) struct Places<R: Files> {
    rt: R,
    alloc: Global,
    stdout: Stdout,
    syncing: Syncing,
    beside: Option<Beside>,
}

impl<R: Files + Drop> Drop for Places<R> {
    fn drop(self) {
        let Places {
            rt,
            alloc: _,
            stdout: _,
            syncing: _,
            beside,
        } = self;
        drop(rt);
        drop(beside);
    }
}

/// A file that is written beside the file whose place it takes.
struct Beside {
    /// The path of the file that is written.
    part: String,
    /// The path of the file whose place it takes.
    name: String,
}

impl Drop for Beside {
    fn drop(self) {
        let Beside { part, name } = self;
        drop(part);
        drop(name);
    }
}

/// Where an output goes.
enum Target<'a> {
    /// To the standard output.
    Standard,
    /// To the file of a path.
    Path(&'a str),
}

/// Returns where the output of a name goes. Only `-` alone is the standard output. Each other name is a path, as it stands.
fn target_of(name: &str) -> Target<'_>
    ensures standard { name.now ≡ codes "-" → result ≡ Standard }
    ensures path { name.now ≢ codes "-" → result ≡ Path name.entry }
{
    if name == "-" {
        Target::Standard
    } else {
        Target::Path(name)
    }
}

impl<R: Files> Places<R> {
    /// Returns the places over a system's files and its standard output.
    pub(crate) fn new(rt: R, alloc: Global, stdout: Stdout, syncing: Syncing) -> Self {
        Places {
            rt,
            alloc,
            stdout,
            syncing,
            beside: None,
        }
    }

    /// Opens the output of a name, empty, with a buffer before it.
    pub(crate) fn open(&mut self, name: &str) -> io::Result<BufWriter<Output<R::File>>> {
        self.beside = None;
        let output = match target_of(name) {
            Target::Standard => Output::Standard(self.stdout),
            Target::Path(path) => Output::File(self.open_path(path)?),
        };
        BufWriter::with_capacity(self.alloc, BUFFER, output)
    }

    /// Opens the file of a path, or makes the file beside it.
    fn open_path(&mut self, path: &str) -> io::Result<R::File> {
        match fs::metadata(&self.rt, path) {
            Ok(found) if found.is_file() => self.open_beside(path, &found),
            _ => File::create(&self.rt, path),
        }
    }

    /// Makes the file beside the file of a path, which must be writable. In a folder where no file can be made, opens the file
    /// itself.
    fn open_beside(&mut self, path: &str, found: &Metadata) -> io::Result<R::File> {
        let name = self.followed(path)?;
        let part = self.part_of(name.as_str())?;
        drop(
            OpenOptions::new()
                .write(true)
                .open(&self.rt, name.as_str())?,
        );
        match self.made(part.as_str(), found) {
            Ok(file) => {
                self.beside = Some(Beside { part, name });
                Ok(file)
            }
            Err(error) if error.kind() == ErrorKind::PermissionDenied => {
                File::create(&self.rt, path)
            }
            Err(error) => Err(error),
        }
    }

    /// Returns the path of the file to which a path leads. It is the path itself if that is no link.
    fn followed(&self, path: &str) -> io::Result<String> {
        if fs::symlink_metadata(&self.rt, path)?.is_symlink() {
            let found = self.rt.canonicalize(self.alloc, path)?;
            return Ok(String::from_str(self.alloc, found.as_str())?);
        }
        Ok(String::from_str(self.alloc, path)?)
    }

    /// Returns the path of the file beside another.
    fn part_of(&self, name: &str) -> io::Result<String>
        ensures { IfOk result (λ part. string_bytes part ≡ name.now ++ codes ".part") }
    {
        let mut part = String::from_str(self.alloc, name)?;
        part.push_str(PART)?;
        Ok(part)
    }

    /// Makes a file at a path, and removes what an earlier run left there. It gets the owner and the mode of another file, as far
    /// as the system allows.
    fn made(&self, part: &str, like: &Metadata) -> io::Result<R::File> {
        let file = match File::create_new(&self.rt, part) {
            Err(error) if error.kind() == ErrorKind::AlreadyExists => {
                fs::remove_file(&self.rt, part)?;
                File::create_new(&self.rt, part)?
            }
            made => made?,
        };
        let _ = self.rt.chown(part, Some(like.uid()), Some(like.gid()));
        let _ = file.set_permissions(like.permissions());
        Ok(file)
    }
}

impl<R: Files> Finish<Output<R::File>> for Places<R> {
    fn finish(&self, output: &Output<R::File>) -> io::Result<()> {
        if self.syncing == Syncing::AtEnd {
            output.sync()?;
        }
        match &self.beside {
            Some(Beside { part, name }) => fs::rename(&self.rt, part.as_str(), name.as_str()),
            None => Ok(()),
        }
    }
}
