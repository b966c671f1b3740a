//! Where bytes are written to: a file or the standard output.

use std::fs::OpenFile;
use std::io;
use std::io::{ErrorKind, Stdout, Write};

/// An open file, or the standard output.
#[derive(Drop)]
pub(crate) enum Output<F> {
    Standard(Stdout),
    File(F),
}

impl<F: Write> Write for Output<F> {
    fn write(&mut self, bytes: &[u8]) -> io::Result<usize> {
        match self {
            Output::Standard(stdout) => stdout.write(bytes),
            Output::File(file) => file.write(bytes),
        }
    }

    fn flush(&mut self) -> io::Result<()> {
        match self {
            Output::Standard(stdout) => stdout.flush(),
            Output::File(file) => file.flush(),
        }
    }
}

impl<F: OpenFile> Output<F> {
    /// Waits until the system has the file on its device. Doesn't sync the standard output, and passes over what can't be synced,
    /// such as a pipe or a terminal.
    pub(crate) fn sync(&self) -> io::Result<()> {
        let Output::File(file) = self else {
            return Ok(());
        };
        match file.sync_all() {
            Err(error) if is_unfit(error.kind()) => Ok(()),
            synced => synced,
        }
    }
}

/// Whether the error means that the system can't sync such a file, whatever it holds.
fn is_unfit(kind: ErrorKind) -> bool {
    matches!(kind, ErrorKind::InvalidInput | ErrorKind::Unsupported)
}
