//! What stands beside a store in the system's files.

use crate::tables::number;
use row_keeper::Keeper;
use sql_keeper::{RowTables, SqlKeeper, SystemDatabases};
use sqlite::Connection;
use std::fs;

// How a database was left.
#[derive(Clone, Copy, PartialEq, Eq)]
enum Left {
    // One file, read and written with a rollback journal.
    Alone,
    // A file that is read and written with a log, and a log beside it.
    WithLog,
    // Nothing stands there.
    Gone,
    Other,
}

fn exists(rt: HostRuntime, name: &str) -> bool {
    fs::exists(&rt, name).unwrap_or(true)
}

// Tells whether both bytes of a file's header that tell how it is written and read are this one.
fn has_mode(rt: HostRuntime, name: &str, mode: u8) -> bool {
    match fs::read(&rt, name) {
        Ok(bytes) => is_byte(bytes.as_slice(), 18, mode) && is_byte(bytes.as_slice(), 19, mode),
        Err(_) => false,
    }
}

fn is_byte(bytes: &[u8], at: usize, byte: u8) -> bool {
    at < bytes.len() && bytes[at] == byte
}

fn ending(rt: HostRuntime, name: &str, log: &str) -> Left {
    let has_log = exists(rt, log);
    if !exists(rt, name) {
        if has_log { Left::Other } else { Left::Gone }
    } else if !has_log && has_mode(rt, name, 1) {
        Left::Alone
    } else if has_log && has_mode(rt, name, 2) {
        Left::WithLog
    } else {
        Left::Other
    }
}

// Plays one row into a store, finishes it or breaks off, and tells how it was left. Returns `Other` if a call is refused.
fn played(rt: HostRuntime, name: &str, log: &str, is_finished: bool) -> Left {
    let mut keeper = SqlKeeper::new(SystemDatabases::new(&rt));
    if keeper.start(name).is_err() {
        return Left::Other;
    }
    let is_put = keeper.put(0, 1, &[], b"1\t0\n").is_ok();
    let is_made = is_put && (!is_finished || keeper.finish().is_ok());
    if let Some(tables) = keeper.into_tables() {
        tables.close();
    }
    if is_made {
        ending(rt, name, log)
    } else {
        Left::Other
    }
}

// Returns how many rows a store has.
fn rows(rt: HostRuntime, name: &str) -> Option<i64> {
    let mut database = Connection::open(&rt, name).ok()?;
    let count = number(&mut database, "SELECT count(*) FROM kept_row");
    if database.close().is_ok() {
        count
    } else {
        None
    }
}

fn remove(rt: HostRuntime, name: &str, log: &str) {
    let _ = fs::remove_file(&rt, name);
    let _ = fs::remove_file(&rt, log);
}

// A store that was broken off leaves no file, and a finished one stands alone.
#[test]
fn a_finished_store_stands_alone(rt: HostRuntime) {
    let (name, log) = ("alone_test.db", "alone_test.db-wal");
    let broken_off = played(rt, name, log, false);
    let finished = played(rt, name, log, true);
    let count = rows(rt, name);
    remove(rt, name, log);
    assert!(rt; broken_off == Left::Gone);
    assert!(rt; finished == Left::Alone);
    assert!(rt; count == Some(1));
}

// Makes a database of somebody else, without a table, and tells how it was left.
fn others(rt: HostRuntime, name: &str, log: &str) -> Left {
    let Ok(mut database) = Connection::open(&rt, name) else {
        return Left::Other;
    };
    let is_made = database
        .execute_batch("CREATE TABLE mine (a); DROP TABLE mine")
        .is_ok();
    let is_closed = database.close().is_ok();
    if is_made && is_closed {
        ending(rt, name, log)
    } else {
        Left::Other
    }
}

// A database of somebody else keeps its mode and its log if the store is broken off, and stands alone if it is finished.
#[test]
fn a_database_keeps_its_mode_where_nothing_is_committed(rt: HostRuntime) {
    let (name, log) = ("others_test.db", "others_test.db-wal");
    let before = others(rt, name, log);
    let broken_off = played(rt, name, log, false);
    let finished = played(rt, name, log, true);
    let count = rows(rt, name);
    remove(rt, name, log);
    assert!(rt; before == Left::WithLog);
    assert!(rt; broken_off == Left::WithLog);
    assert!(rt; finished == Left::Alone);
    assert!(rt; count == Some(1));
}

fn make_with_sums(rt: HostRuntime, name: &str) -> bool {
    match Connection::open_with_sums(&rt, name) {
        Ok(database) => database.close().is_ok(),
        Err(_) => false,
    }
}

// The mode stands in a page, so it isn't changed if pages have checksums: the file still opens, and no page is told as damaged.
#[test]
fn a_database_with_checksums_keeps_its_mode(rt: HostRuntime) {
    let (name, log) = ("sums_test.db", "sums_test.db-wal");
    let is_made = make_with_sums(rt, name);
    let finished = played(rt, name, log, true);
    let count = rows(rt, name);
    remove(rt, name, log);
    assert!(rt; is_made && finished == Left::WithLog);
    assert!(rt; count == Some(1));
}
