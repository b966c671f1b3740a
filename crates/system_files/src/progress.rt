//! How far the writing of files has come, told to a terminal.

use std::io;
use std::io::{Cursor, Write};
use std::rt::Clock;
use std::time::Instant;

/// The fewest bytes that are written between two looks at the clock.
const BYTES_A_LOOK: u64 = 1 << 14;

/// The most bytes of a name that are shown. The names of the program's own files are shorter.
const NAME_ROOM: usize = 48;

/// The most bytes of a line: a name, two numbers and the text between them.
const LINE_ROOM: usize = 160;

/// Moves the cursor to the line's beginning and clears the line.
const CLEARED: &[u8] = b"\r\x1b[K";

/// How far the file that is written has come: its name, its bytes, and the rate since the line before. They stand in one line,
/// which is written over once a second. If something fails here, the line is missing, and nothing else changes.
#[derive(Drop)]
pub(crate) struct Progress<C, W> {
    /// The clock that is looked at.
    clock: C,
    /// Where the line is written; None to write no line.
    to: Option<W>,
    /// Whether the standard output shares the place of the line, as a terminal.
    shares_output: bool,
    /// Whether the line is told for the file that is written.
    is_told: bool,
    /// The file's name, cut to its room.
    name: Cursor<[u8; NAME_ROOM]>,
    /// The bytes written of the file.
    bytes: u64,
    /// The bytes counted since the last look at the clock.
    unlooked: u64,
    /// The bytes counted since the last line.
    untold: u64,
    /// When the last line was told, or the clock was first read.
    told_at: Option<Instant>,
    /// Whether a line is shown.
    is_shown: bool,
}

impl<C: Clock + Drop, W: Write + Drop> Progress<C, W> {
    /// Returns a progress of which nothing is told yet. Without an output nothing ever is.
    pub(crate) fn new(clock: C, to: Option<W>, shares_output: bool) -> Self {
        Progress {
            clock,
            to,
            shares_output,
            is_told: false,
            name: Cursor::new([0; NAME_ROOM]),
            bytes: 0,
            unlooked: 0,
            untold: 0,
            told_at: None,
            is_shown: false,
        }
    }

    /// Begins a file of a path.
    pub(crate) fn begin(&mut self, path: &str) {
        let is_output = path == "-";
        self.is_told = self.to.is_some() && !(is_output && self.shares_output);
        if self.is_told {
            let name = if is_output {
                "standard output"
            } else {
                path.rsplit('/').next().unwrap_or(path)
            };
            self.name = Cursor::new([0; NAME_ROOM]);
            let _ = self.name.write(name.as_bytes());
            self.bytes = 0;
            if self.told_at.is_none() {
                self.told_at = Instant::now(&self.clock).ok();
            }
        }
    }

    /// Counts further bytes as written.
    pub(crate) fn count(&mut self, bytes: usize) {
        if self.is_told {
            self.bytes = self.bytes.saturating_add(bytes as u64);
            self.unlooked = self.unlooked.saturating_add(bytes as u64);
            self.untold = self.untold.saturating_add(bytes as u64);
            if self.unlooked >= BYTES_A_LOOK {
                self.unlooked = 0;
                self.look();
            }
        }
    }

    /// Clears the line, if one is shown.
    pub(crate) fn clear(&mut self) {
        if self.is_shown {
            self.is_shown = false;
            if let Some(to) = &mut self.to {
                let _ = to.write_all(CLEARED);
            }
        }
    }

    /// Looks at the clock, and tells the progress if a second has passed since the last line.
    fn look(&mut self) {
        let Ok(now) = Instant::now(&self.clock) else {
            return;
        };
        let Some(before) = self.told_at else {
            self.told_at = Some(now);
            return;
        };
        let passed = now.duration_since(before);
        if passed.as_secs() == 0 {
            return;
        }
        let millis = passed
            .as_secs()
            .saturating_mul(1000)
            .saturating_add(passed.subsec_millis() as u64);
        let _ = self.tell(self.untold / millis.max(1));
        self.untold = 0;
        self.told_at = Some(now);
    }

    /// Writes the line of the file, with a rate in bytes a millisecond.
    fn tell(&mut self, rate: u64) -> io::Result<()> {
        let Some(to) = &mut self.to else {
            return Ok(());
        };
        let mut line = Cursor::new([0; LINE_ROOM]);
        line.write_all(b"\rpdgf: ")?;
        line.write_all(written(&self.name))?;
        let kilobytes = self.bytes / 1000;
        write!(
            line,
            ": {}.{} MB, {}.{} MB/s\x1b[K",
            kilobytes / 1000,
            kilobytes % 1000 / 100,
            rate / 1000,
            rate % 1000 / 100
        )?;
        self.is_shown = true;
        to.write_all(written(&line))
    }
}

/// Returns what was written to an array.
fn written<const N: usize>(cursor: &Cursor<[u8; N]>) -> &[u8] {
    let bytes = cursor.get_ref().as_slice();
    &bytes[..(cursor.position() as usize).min(bytes.len())]
}
