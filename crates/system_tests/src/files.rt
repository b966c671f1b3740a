//! What no clause says of the adapters: which bytes stand on the disk, and what the system takes for a failure.

ghost use Rattle.std.specs.Prelude.{◌≡◌, false, OnOk};

use pd_outside::{Library, ReadFault, Shelf, read_whole, write_all};
use std::alloc::{AllocError, Global};
use std::fs;
use std::io::ErrorKind;
use std::test::Fail;
use system_files::{FileLibrary, FileShelf, LastFault};

// Returns a path of more than 300 bytes to the file of this name here.
fn long_path(alloc: Global, name: &str) -> Result<String, AllocError> {
    let mut path = String::new(alloc);
    for _ in 0..150 {
        path.push_str("./")?;
    }
    path.push_str(name)?;
    Ok(path)
}

#[test]
fn a_file_is_read_from_its_start_to_its_end(rt: HostRuntime) -> Result<(), Fail> {
    let name = "file_library_test.txt";
    fs::write(&rt, name, "seven\n")?;
    let mut library = FileLibrary::new(rt);
    let bytes = read_whole(rt.alloc(), &mut library, name, 100)?;
    assert_eq!(rt; bytes.as_slice(), b"seven\n".as_slice());
    let path = long_path(rt.alloc(), name)?;
    let bytes = read_whole(rt.alloc(), &mut library, path.as_str(), 100)?;
    assert_eq!(rt; bytes.as_slice(), b"seven\n".as_slice());
    fs::remove_file(&rt, name)?;
    Ok(())
}

// An absent file, a file in an absent folder, and a folder that is opened as a file. Then a file is read nonetheless.
#[test]
fn failed_reads_are_told(rt: HostRuntime) -> Result<(), Fail> {
    let name = "failed_reads_test.txt";
    fs::write(&rt, name, "seven\n")?;
    let mut library = FileLibrary::new(rt);
    for wrong in ["absent_test.txt", "no_such_folder_test/a.txt", "."] {
        match read_whole(rt.alloc(), &mut library, wrong, 100) {
            Ok(_) => panic!(rt; "it is read"),
            Err(fault) => assert_eq!(rt; fault, ReadFault::Failed),
        }
    }
    let bytes = read_whole(rt.alloc(), &mut library, name, 100)?;
    assert_eq!(rt; bytes.as_slice(), b"seven\n".as_slice());
    fs::remove_file(&rt, name)?;
    Ok(())
}

// Returns more bytes than a buffer holds. It is a function of its own so that no proof unfolds its bytes.
fn many_dots(alloc: Global) -> Result<Vec<u8>, AllocError> {
    Vec::from_elem(alloc, b'.', 1_000_000)
}

fn write_file<S: Shelf>(shelf: &mut S, name: &str, middle: &[u8]) -> Result<(), Fail>
    requires { S.is_begun shelf.old ≡ false }
    ensures { OnOk result (S.is_begun shelf.new ≡ false) }
{
    shelf.begin(name)?;
    write_all(shelf, b"first")?;
    write_all(shelf, middle)?;
    write_all(shelf, b"last\n")?;
    shelf.end()?;
    Ok(())
}

#[test]
fn a_file_is_written_from_its_start(rt: HostRuntime) -> Result<(), Fail> {
    let name = "file_shelf_test.txt";
    let path = long_path(rt.alloc(), name)?;
    let mut shelf = FileShelf::new(rt, rt.alloc(), rt.stdout());
    write_file(&mut shelf, path.as_str(), many_dots(rt.alloc())?.as_slice())?;
    let text = fs::read_to_string(&rt, name)?;
    assert_eq!(rt; text.len(), 1_000_010);
    assert!(rt; text.as_str().starts_with("first.") && text.as_str().ends_with(".last\n"));
    write_file(&mut shelf, name, b", ")?;
    assert_eq!(rt; fs::read_to_string(&rt, name)?.as_str(), "first, last\n");
    fs::remove_file(&rt, name)?;
    Ok(())
}

// An absent folder, and a folder in place of the file. Then a file is written nonetheless.
#[test]
fn failed_begins_are_told(rt: HostRuntime) -> Result<(), Fail> {
    let name = "failed_begins_test.txt";
    let mut shelf = FileShelf::new(rt, rt.alloc(), rt.stdout());
    let folder = shelf.begin("no_such_folder_test/a.txt").is_err();
    assert!(rt; folder, "no folder is made");
    assert!(rt; !fs::exists(&rt, "no_such_folder_test")?);
    let file = shelf.begin(".").is_err();
    assert!(rt; file, "a folder is no file");
    write_file(&mut shelf, name, b", ")?;
    assert_eq!(rt; fs::read_to_string(&rt, name)?.as_str(), "first, last\n");
    fs::remove_file(&rt, name)?;
    Ok(())
}

// A full device takes no byte. A text that the buffer can't hold is refused at once, and a shorter text at the end. A text that is
// refused at once isn't kept, so the file ends, and another is written.
#[test]
fn a_full_device_is_told(rt: HostRuntime) -> Result<(), Fail> {
    let name = "full_device_test.txt";
    let mut shelf = FileShelf::new(rt, rt.alloc(), rt.stdout());
    shelf.begin("/dev/full")?;
    let at_once = write_all(&mut shelf, many_dots(rt.alloc())?.as_slice()).is_err();
    assert!(rt; at_once);
    shelf.end()?;
    write_file(&mut shelf, name, b", ")?;
    assert_eq!(rt; fs::read_to_string(&rt, name)?.as_str(), "first, last\n");
    fs::remove_file(&rt, name)?;
    shelf.begin("/dev/full")?;
    write_all(&mut shelf, b"gathered")?;
    let at_the_end = shelf.end().is_err();
    assert!(rt; at_the_end);
    Ok(())
}

fn is_fault(fault: Option<LastFault>, name: &str, kind: ErrorKind) -> bool {
    match fault {
        Some(fault) => fault.name() == Some(name) && fault.reason().kind() == kind,
        None => false,
    }
}

// The file and the reason of the call that failed last are kept: of an absent file, of a folder that is read, and of a full device.
#[test]
fn the_last_fault_is_kept(rt: HostRuntime) -> Result<(), Fail> {
    let mut library = FileLibrary::new(rt);
    assert!(rt; library.last_fault().is_none(), "no call failed");
    let absent = read_whole(rt.alloc(), &mut library, "absent_test.txt", 100).is_err();
    assert!(rt; absent && is_fault(library.last_fault(), "absent_test.txt", ErrorKind::NotFound));
    let folder = read_whole(rt.alloc(), &mut library, ".", 100).is_err();
    assert!(rt; folder && is_fault(library.last_fault(), ".", ErrorKind::IsADirectory));
    let mut shelf = FileShelf::new(rt, rt.alloc(), rt.stdout());
    assert!(rt; shelf.last_fault().is_none(), "no call failed");
    shelf.begin("/dev/full")?;
    write_all(&mut shelf, b"gathered")?;
    let full = shelf.end().is_err();
    assert!(rt; full && is_fault(shelf.last_fault(), "/dev/full", ErrorKind::StorageFull));
    Ok(())
}
