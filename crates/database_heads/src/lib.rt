//! Whether a database of SQLite lists anything, told by the beginning of its first page: as its file has it, or as the log beside it does
//! (SQLite's "Database File Format" and "WAL-mode File Format").
//!
//! No clause says what a file holds: the system doesn't tell.
#![tactic(auto)]

ghost use Rattle.std.specs.Prelude.{IfOk, IsTrue};
ghost use Rattle.sqlite_disk.specs.Memory.{memory_is_usable};

use sqlite_disk::{Disk, Files, Memory};
use sqlite_wal::{probe_frames, probe_page_size};
use std::alloc::Global;
use std::fs::{self, File};
use std::io::{self, ErrorKind, Read};

/// The first bytes of a file of SQLite.
const MAGIC: &[u8] = b"SQLite format 3\0";

/// The number of bytes of the first page that are read: the header of the file, and that of the tree with the schema.
const HEAD: usize = 108;

/// The position of the kind of the tree's first page.
const KIND_AT: usize = 100;

/// The kind of a page that lists everything by itself.
const LEAF: u8 = 13;

/// The position of the number of its entries, which takes two bytes.
const COUNT_AT: usize = 103;

/// The greatest length of a log that is read, in bytes.
const MOST_LOG: u64 = 67_108_864;

/// The number of bytes before the first frame of a log.
const LOG_HEADER: usize = 32;

/// The number of bytes of a frame before its page.
const FRAME_HEADER: usize = 24;

/// The beginning of a first page.
type Head = [u8; HEAD];

/// Tells whether the database in the file at `path` has a table, an index or a view. `log` is the path of its log, if one may stand there. A
/// file that is no database lists nothing. Fails if `path` is no file, if the system refuses a call, or if the log can't be read.
pub fn lists_objects(rt: &HostRuntime, path: &str, log: Option<&str>) -> io::Result<bool> {
    if !fs::metadata(rt, path)?.is_file() {
        return Err(io::Error::from(ErrorKind::InvalidInput));
    }
    let head = head_of(rt, path)?;
    let logged = match log {
        Some(log) => head_in_log(rt, log, &head)?,
        None => None,
    };
    Ok(has_entries(&logged.unwrap_or(head)))
}

/// Returns the beginning of the first page as the log at a path has it; None if the log has none. `head` is the beginning of the file.
fn head_in_log(rt: &HostRuntime, path: &str, head: &Head) -> io::Result<Option<Head>> {
    let log = fs::symlink_metadata(rt, path)?;
    if !log.is_file() || log.len() == 0 || log.len() > MOST_LOG {
        return Ok(None);
    }
    let bytes = fs::read(rt, path)?;
    last_head(rt.alloc(), bytes.as_slice(), head)
}

/// Returns the beginning of a file, with zeros after its end.
fn head_of(rt: &HostRuntime, path: &str) -> io::Result<Head> {
    let mut file = File::open(rt, path)?;
    let mut head = [0; HEAD];
    let mut bytes = Vec::new(rt.alloc());
    (&mut file).take(HEAD as u64).read_to_end(&mut bytes)?;
    copy_head(&mut head, bytes.as_slice());
    Ok(head)
}

/// Copies the first bytes of a text to the beginning of a head.
fn copy_head(head: &mut Head, bytes: &[u8]) {
    for (into, byte) in head.iter_mut().zip(bytes) {
        *into = *byte;
    }
}

/// Tells whether the tree that a first page begins has entries, or pages below it.
fn has_entries(head: &Head) -> bool {
    head.starts_with(MAGIC)
        && (head[KIND_AT] != LEAF || head[COUNT_AT] != 0 || head[COUNT_AT + 1] != 0)
}

/// Returns the beginning of the last first page that a log commits; None if it commits none.
fn last_head(alloc: Global, log: &[u8], head: &Head) -> io::Result<Option<Head>> {
    let mut files = Files {
        log: disk_of(alloc, log)?,
        db: disk_of(alloc, head)?,
    };
    let Some(size) = probe_page_size(&mut files)? else {
        return Ok(None);
    };
    let Ok(pages) = probe_frames(alloc, &mut files.log, size) else {
        return Err(io::Error::from(ErrorKind::InvalidData));
    };
    let Some(frame) = last_of_first_page(pages.as_slice()) else {
        return Ok(None);
    };
    let start = frame
        .saturating_mul(size.bytes() + FRAME_HEADER)
        .saturating_add(LOG_HEADER + FRAME_HEADER);
    let mut last = [0; HEAD];
    copy_head(&mut last, log.get(start..).unwrap_or(&[]));
    Ok(Some(last))
}

/// Returns the number of the last frame that has page 1.
fn last_of_first_page(pages: &[u32]) -> Option<usize> {
    let mut last = None;
    for (frame, page) in pages.iter().enumerate() {
        if *page == 1 {
            last = Some(frame);
        }
    }
    last
}

/// Returns a disk in memory that has the bytes.
fn disk_of(alloc: Global, bytes: &[u8]) -> io::Result<Memory>
    ensures { IfOk result (λ disk. IsTrue (memory_is_usable disk)) }
{
    let mut disk = Memory::new(alloc);
    disk.write_at(0, bytes)?;
    Ok(disk)
}
