//! What no clause says of a file that takes the place of another: what stands there when, and what a failure leaves.

use crate::faulty::{Faults, FaultyFiles};
use pd_outside::{Library, Shelf, read_whole, write_all};
use std::alloc::{AllocError, Global};
use std::fs;
use std::io::ErrorKind;
use std::os::unix::fs::{PermissionsExt, symlink};
use std::test::Fail;
use system_files::{FileLibrary, FileShelf, Syncing};

// Returns more bytes than a buffer holds. It is a function of its own so that no proof unfolds its bytes.
fn dots(alloc: Global) -> Result<Vec<u8>, AllocError> {
    Vec::from_elem(alloc, b'.', 100_000)
}

// The old file stands while the new one is written beside it. Then the new one stands, with the old one's mode. What an earlier run
// left beside it is no hindrance.
#[test]
fn a_file_stands_until_the_new_one_is_whole(rt: HostRuntime) -> Result<(), Fail> {
    let (name, part) = ("stands_test.txt", "stands_test.txt.part");
    fs::write(&rt, name, "old\n")?;
    fs::write(&rt, part, "of an earlier run\n")?;
    fs::set_permissions(&rt, name, fs::Permissions::from_mode(0o640))?;
    let mut shelf = FileShelf::new(rt, rt.alloc(), rt.stdout());
    shelf.begin(name)?;
    write_all(&mut shelf, dots(rt.alloc())?.as_slice())?;
    write_all(&mut shelf, b"new\n")?;
    assert_eq!(rt; fs::read_to_string(&rt, name)?.as_str(), "old\n");
    assert_eq!(rt; fs::metadata(&rt, part)?.len(), 100_000);
    shelf.end()?;
    let text = fs::read_to_string(&rt, name)?;
    assert_eq!(rt; text.len(), 100_004);
    assert!(rt; text.as_str().ends_with(".new\n"));
    assert!(rt; !fs::exists(&rt, part)?);
    assert_eq!(rt;
        fs::metadata(&rt, name)?.permissions().mode() & 0o777,
        0o640
    );
    fs::remove_file(&rt, name)?;
    Ok(())
}

// A link to a file is followed, and stays a link.
#[test]
fn a_link_is_followed(rt: HostRuntime) -> Result<(), Fail> {
    let (name, link) = ("followed_test.txt", "link_test.txt");
    fs::write(&rt, name, "old\n")?;
    symlink(&rt, name, link)?;
    let mut shelf = FileShelf::new(rt, rt.alloc(), rt.stdout());
    shelf.begin(link)?;
    write_all(&mut shelf, b"new\n")?;
    assert_eq!(rt; fs::read_to_string(&rt, name)?.as_str(), "old\n");
    shelf.end()?;
    assert_eq!(rt; fs::read_to_string(&rt, name)?.as_str(), "new\n");
    assert!(rt; fs::symlink_metadata(&rt, link)?.is_symlink());
    assert!(rt; !fs::exists(&rt, "link_test.txt.part")?);
    fs::remove_file(&rt, link)?;
    fs::remove_file(&rt, name)?;
    Ok(())
}

// If a folder has the name of the file to write beside the old one, no file is begun, and the old one stands.
#[test]
fn a_folder_beside_it_is_a_failed_begin(rt: HostRuntime) -> Result<(), Fail> {
    let (name, part) = ("hindered_test.txt", "hindered_test.txt.part");
    fs::write(&rt, name, "old\n")?;
    fs::create_dir(&rt, part)?;
    let mut shelf = FileShelf::new(rt, rt.alloc(), rt.stdout());
    let is_failed = shelf.begin(name).is_err();
    fs::remove_dir(&rt, part)?;
    assert!(rt; is_failed);
    assert_eq!(rt; fs::read_to_string(&rt, name)?.as_str(), "old\n");
    fs::remove_file(&rt, name)?;
    Ok(())
}

// If a device has room for 70,000 bytes, the old file stands, and the part holds those bytes.
#[test]
fn a_full_device_leaves_the_old_file(rt: HostRuntime) -> Result<(), Fail> {
    let (name, part) = ("full_test.txt", "full_test.txt.part");
    fs::write(&rt, name, "old\n")?;
    let mut faults = Faults::none();
    faults.room = 70_000;
    let files = FaultyFiles::new(rt, faults);
    let mut shelf = FileShelf::with_syncing(files, rt.alloc(), rt.stdout(), Syncing::AtEnd);
    shelf.begin(name)?;
    let is_failed = write_all(&mut shelf, dots(rt.alloc())?.as_slice()).is_err();
    assert!(rt; is_failed);
    drop(shelf);
    assert_eq!(rt; fs::read_to_string(&rt, name)?.as_str(), "old\n");
    assert_eq!(rt; fs::metadata(&rt, part)?.len(), 70_000);
    fs::remove_file(&rt, name)?;
    fs::remove_file(&rt, part)?;
    Ok(())
}

// Whether a file is ended, on a device that gives the answer when the file is to be synced.
fn is_ended(
    rt: HostRuntime,
    name: &str,
    answer: ErrorKind,
    syncing: Syncing,
) -> Result<bool, Fail> {
    let mut faults = Faults::none();
    faults.sync = Some(answer);
    let files = FaultyFiles::new(rt, faults);
    let mut shelf = FileShelf::with_syncing(files, rt.alloc(), rt.stdout(), syncing);
    shelf.begin(name)?;
    write_all(&mut shelf, b"new\n")?;
    Ok(shelf.end().is_ok())
}

// An error that a device tells late is a failure, and the old file stands. It is no failure that a device can't sync, and nothing
// is told if syncing isn't wanted.
#[test]
fn a_failed_sync_is_told(rt: HostRuntime) -> Result<(), Fail> {
    let (name, part) = ("synced_test.txt", "synced_test.txt.part");
    fs::write(&rt, name, "old\n")?;
    let at_end = Syncing::AtEnd;
    assert!(rt; !is_ended(rt, name, ErrorKind::StorageFull, at_end)?);
    assert_eq!(rt; fs::read_to_string(&rt, name)?.as_str(), "old\n");
    assert_eq!(rt; fs::read_to_string(&rt, part)?.as_str(), "new\n");
    assert!(rt; is_ended(rt, name, ErrorKind::StorageFull, Syncing::Never)?);
    assert_eq!(rt; fs::read_to_string(&rt, name)?.as_str(), "new\n");
    assert!(rt; is_ended(rt, name, ErrorKind::InvalidInput, at_end)?);
    assert!(rt; !fs::exists(&rt, part)?);
    fs::remove_file(&rt, name)?;
    Ok(())
}

// A read that a signal breaks off is made again.
#[test]
fn a_read_that_is_broken_off_is_made_again(rt: HostRuntime) -> Result<(), Fail> {
    let name = "broken_off_test.txt";
    fs::write(&rt, name, "seven\n")?;
    let mut faults = Faults::none();
    faults.broken_off = 3;
    let mut library = FileLibrary::new(FaultyFiles::new(rt, faults));
    let bytes = read_whole(rt.alloc(), &mut library, name, 100)?;
    assert_eq!(rt; bytes.as_slice(), b"seven\n".as_slice());
    fs::remove_file(&rt, name)?;
    Ok(())
}
