//! Which file a call failed on last, and why.

use std::io;

/// The most bytes of a name that are kept.
const NAME_ROOM: usize = 1024;

/// The file of the call that failed last, and the system's reason.
#[derive(Clone, Copy)]
pub struct LastFault {
    file: FileName,
    reason: io::Error,
}

impl LastFault {
    /// Joins a file's name and a reason.
    pub(crate) fn new(file: FileName, reason: io::Error) -> LastFault {
        LastFault { file, reason }
    }

    /// Returns the name that the call was given, or None if the name is too long to be kept.
    pub fn name(&self) -> Option<&str> {
        self.file.text()
    }

    /// Returns why the call failed.
    pub fn reason(&self) -> io::Error {
        self.reason
    }
}

/// The name of the file that is read or written, kept without memory.
#[derive(Clone, Copy)]
pub(crate) struct FileName {
    bytes: [u8; NAME_ROOM],
    len: Option<usize>,
}

impl FileName {
    /// Returns no name.
    pub(crate) fn new() -> FileName {
        FileName {
            bytes: [0; NAME_ROOM],
            len: None,
        }
    }

    /// Keeps a name in place of the one before.
    pub(crate) fn set(&mut self, name: &str) {
        let len = name.len();
        if len <= NAME_ROOM {
            self.bytes[..len].copy_from_slice(name.as_bytes());
            self.len = Some(len);
        } else {
            self.len = None;
        }
    }

    /// Returns the name, or None if there is none or it wasn't kept.
    fn text(&self) -> Option<&str> {
        let bytes = self.bytes.get(..self.len?)?;
        std::str::from_utf8(bytes).ok()
    }
}
