//! What no clause says of a progress that is told: its text, when it comes, and that telling it can fail.

ghost use Rattle.std.specs.Prelude.{◌≡◌, false, OnOk};

use pd_outside::{MemShelf, Shelf, ShelfFails, write_all};
use std::alloc::{AllocError, Global};
use std::cell::Cell;
use std::fs::File;
use std::rt::Clock;
use std::test::Fail;
use std::time::Duration;
use std::{fs, io};
use system_files::{FileShelf, ProgressShelf};

// A clock that goes on by `step` milliseconds each time it is looked at.
#[derive(Drop)]
struct Ticking {
    millis: Cell<u64>,
    step: u64,
}

impl Ticking {
    fn new(step: u64) -> Self {
        Ticking {
            millis: Cell::new(0),
            step,
        }
    }
}

impl Clock for Ticking {
    fn monotonic(&self) -> io::Result<Duration> {
        let now = self.millis.get();
        self.millis.set(now.wrapping_add(self.step));
        Ok(Duration::from_millis(now))
    }

    fn since_1970(&self) -> io::Result<Duration> {
        Ok(Duration::ZERO)
    }
}

// Returns `count` bytes. It is a function of its own so that no proof unfolds them.
fn dots(alloc: Global, count: usize) -> Result<Vec<u8>, AllocError> {
    Vec::from_elem(alloc, b'.', count)
}

// Writes a file in three writes, of 1,000,000, 500,000 and 2 bytes.
fn write_file<S: Shelf>(alloc: Global, shelf: &mut S, name: &str) -> Result<(), Fail>
    requires { S.is_begun shelf.old ≡ false }
    ensures { OnOk result (S.is_begun shelf.new ≡ false) }
{
    shelf.begin(name)?;
    write_all(shelf, dots(alloc, 1_000_000)?.as_slice())?;
    write_all(shelf, dots(alloc, 500_000)?.as_slice())?;
    write_all(shelf, b".\n")?;
    shelf.end()?;
    Ok(())
}

// Returns what is told of two files of three writes each. The last write is too short for a look at the clock.
fn told(
    alloc: Global,
    first: &str,
    second: &str,
    step: u64,
    shares_output: bool,
) -> Result<Vec<u8>, Fail> {
    let mut told = Vec::new(alloc);
    let shelf = MemShelf::new(alloc, ShelfFails::new(alloc), 1 << 20);
    let mut shelf = ProgressShelf::new(shelf, Ticking::new(step), Some(&mut told), shares_output);
    write_file(alloc, &mut shelf, first)?;
    write_file(alloc, &mut shelf, second)?;
    drop(shelf);
    Ok(told)
}

// Nothing is told of the standard output if the same terminal shows it.
#[test]
fn a_line_is_told_each_second_and_cleared_at_the_end(rt: HostRuntime) -> Result<(), Fail> {
    let each = told(rt.alloc(), "a/b/orders.tbl", "-", 1000, true)?;
    assert_eq!(rt;
        each.as_slice(),
        b"\rpdgf: orders.tbl: 1.0 MB, 1.0 MB/s\x1b[K\rpdgf: orders.tbl: 1.5 MB, 0.5 MB/s\x1b[K\r\x1b[K".as_slice()
    );
    let each_other = told(rt.alloc(), "-", "b.tbl", 500, false)?;
    assert_eq!(rt;
        each_other.as_slice(),
        b"\rpdgf: standard output: 1.5 MB, 1.5 MB/s\x1b[K\r\x1b[K\rpdgf: b.tbl: 1.5 MB, 1.5 MB/s\x1b[K\r\x1b[K".as_slice()
    );
    let none = told(rt.alloc(), "a.tbl", "b.tbl", 100, false)?;
    assert_eq!(rt; none.as_slice(), b"".as_slice());
    Ok(())
}

// The output of the progress refuses each byte.
#[test]
fn a_progress_that_cannot_be_told_changes_nothing(rt: HostRuntime) -> Result<(), Fail> {
    let name = "progress_test.txt";
    let full = File::create(&rt, "/dev/full")?;
    let mut shelf = ProgressShelf::new(
        FileShelf::new(&rt, rt.alloc(), rt.stdout()),
        Ticking::new(1000),
        Some(full),
        false,
    );
    write_file(rt.alloc(), &mut shelf, name)?;
    let text = fs::read_to_string(&rt, name)?;
    assert_eq!(rt; text.len(), 1_500_002);
    assert!(rt; text.as_str().ends_with("..\n"));
    fs::remove_file(&rt, name)?;
    Ok(())
}
