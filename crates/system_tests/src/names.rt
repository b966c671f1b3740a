//! Names, as they reach the system: whole, and each opened once.

ghost use Rattle.std.specs.Prelude.{◌≡◌, false, OnOk};

use crate::faulty::{Faults, FaultyFiles};
use pd_outside::{Library, Shelf, read_whole, write_all};
use std::alloc::{AllocError, Global};
use std::fs;
use std::test::Fail;
use system_files::{FileLibrary, FileShelf, Syncing};

// Names that could be taken for the standard output, for another file, or for no name.
const NAMES: [&str; 7] = [
    "x-",
    "-x",
    "--",
    " spaced ",
    "ended.part",
    "größe",
    "two\nlines",
];

fn write_file<S: Shelf>(shelf: &mut S, name: &str, text: &[u8]) -> Result<(), Fail>
    requires { S.is_begun shelf.old ≡ false }
    ensures { OnOk result (S.is_begun shelf.new ≡ false) }
{
    shelf.begin(name)?;
    write_all(shelf, text)?;
    shelf.end()?;
    Ok(())
}

// Each file holds its own name, so two names that came to one file would show.
#[test]
fn a_name_is_taken_as_it_stands(rt: HostRuntime) -> Result<(), Fail> {
    for name in NAMES {
        let mut shelf = FileShelf::new(rt, rt.alloc(), rt.stdout());
        write_file(&mut shelf, name, name.as_bytes())?;
    }
    for name in NAMES {
        assert_eq!(rt; fs::read_to_string(&rt, name)?.as_str(), name);
        let mut library = FileLibrary::new(rt);
        let bytes = read_whole(rt.alloc(), &mut library, name, 100)?;
        assert_eq!(rt; bytes.as_slice(), name.as_bytes());
        fs::remove_file(&rt, name)?;
    }
    Ok(())
}

// Returns a path of more than 300 bytes to the file of this name here.
fn long_path(alloc: Global, name: &str) -> Result<String, AllocError> {
    let mut path = String::new(alloc);
    for _ in 0..150 {
        path.push_str("./")?;
    }
    path.push_str(name)?;
    Ok(path)
}

// The paths of three tables differ only after 300 bytes. Each is written twice, the second time beside the first, and read.
#[test]
fn long_paths_are_told_apart(rt: HostRuntime) -> Result<(), Fail> {
    let tables = ["customer_test.tbl", "orders_test.tbl", "lines_test.tbl"];
    for _ in 0..2 {
        for table in tables {
            let path = long_path(rt.alloc(), table)?;
            let mut shelf = FileShelf::new(rt, rt.alloc(), rt.stdout());
            write_file(&mut shelf, path.as_str(), table.as_bytes())?;
        }
    }
    for table in tables {
        assert_eq!(rt; fs::read_to_string(&rt, table)?.as_str(), table);
        let path = long_path(rt.alloc(), table)?;
        let mut library = FileLibrary::new(rt);
        let bytes = read_whole(rt.alloc(), &mut library, path.as_str(), 100)?;
        assert_eq!(rt; bytes.as_slice(), table.as_bytes());
        fs::remove_file(&rt, table)?;
    }
    Ok(())
}

// The system refuses one opening, and would grant the next.
#[test]
fn a_refused_opening_is_not_tried_again(rt: HostRuntime) -> Result<(), Fail> {
    let name = "unopened_test.txt";
    let mut faults = Faults::none();
    faults.unopened = 1;
    let files = FaultyFiles::new(rt, faults);
    let mut shelf = FileShelf::with_syncing(files, rt.alloc(), rt.stdout(), Syncing::AtEnd);
    let is_begun = shelf.begin(name).is_ok();
    assert!(rt; !is_begun && !fs::exists(&rt, name)?);
    write_file(&mut shelf, name, b"seven\n")?;
    let mut library = FileLibrary::new(FaultyFiles::new(rt, faults));
    let is_started = library.start(name).is_ok();
    assert!(rt; !is_started);
    let bytes = read_whole(rt.alloc(), &mut library, name, 100)?;
    assert_eq!(rt; bytes.as_slice(), b"seven\n".as_slice());
    fs::remove_file(&rt, name)?;
    Ok(())
}
