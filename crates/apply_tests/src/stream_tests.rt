//! A table of three lines, and streams for it, worked out by hand.

use std::alloc::Global;
use stream_apply::{Applier, ApplyFault, KeyFields};

const TABLE: &[u8] = b"1\ta\n2\tb\n3\tc\n";

/// Returns the text that a chain of calls makes of a table.
fn text_behind(
    alloc: Global,
    table: &[u8],
    deletes: &[u8],
    updates: &[u8],
    inserts: &[u8],
) -> Result<Vec<u8>, ApplyFault> {
    let applier = Applier::load(alloc, table, KeyFields::One, 9)?;
    let applier = applier.delete(deletes)?;
    let applier = applier.update(updates)?;
    let applier = applier.insert(inserts)?;
    Ok(applier.text()?)
}

/// Tells whether a result is a text.
fn gives(given: Result<Vec<u8>, ApplyFault>, text: &[u8]) -> bool {
    match given {
        Ok(bytes) => bytes.as_slice() == text,
        Err(_) => false,
    }
}

/// Tells whether a result is a fault.
fn fails(given: Result<Vec<u8>, ApplyFault>, fault: ApplyFault) -> bool {
    match given {
        Ok(_) => false,
        Err(told) => told == fault,
    }
}

#[test]
fn lines_are_dropped_replaced_and_appended(rt: HostRuntime) {
    let alloc = rt.alloc();
    assert!(&rt; gives(text_behind(alloc, TABLE, b"", b"", b""), TABLE));
    assert!(&rt;
        gives(
            text_behind(alloc, TABLE, b"2\n", b"3\tx\n1\ty\n", b"5\t\\N\n2\tagain\n"),
            b"1\ty\n3\tx\n5\t\\N\n2\tagain\n"
        )
    );
    assert!(&rt;
        gives(
            text_behind(alloc, TABLE, b"3\n1\n2\n", b"", b"1\t\n"),
            b"1\t\n"
        )
    );
    assert!(&rt; gives(text_behind(alloc, b"", b"", b"", b""), b""));
}

#[test]
fn the_first_fault_of_a_table_is_told(rt: HostRuntime) {
    let alloc = rt.alloc();
    assert!(&rt;
        fails(
            text_behind(alloc, b"1\ta\n2\tb", b"", b"", b""),
            ApplyFault::BadLine { line: 2 }
        )
    );
    assert!(&rt;
        fails(
            text_behind(alloc, b"1\ta\n\\N\tb\n", b"", b"", b""),
            ApplyFault::BadLine { line: 2 }
        )
    );
    assert!(&rt;
        fails(
            text_behind(alloc, b"1\ta\n2\tb\n1\tc\n", b"", b"", b""),
            ApplyFault::DoubleKey { line: 3 }
        )
    );
}

#[test]
fn the_first_fault_of_deletions_is_told(rt: HostRuntime) {
    let alloc = rt.alloc();
    assert!(&rt;
        fails(
            text_behind(alloc, TABLE, b"1\n2\tb\n", b"", b""),
            ApplyFault::BadLine { line: 2 }
        )
    );
    assert!(&rt;
        fails(
            text_behind(alloc, TABLE, b"4\n4\n", b"", b""),
            ApplyFault::NoSuchKey { line: 1 }
        )
    );
    assert!(&rt;
        fails(
            text_behind(alloc, TABLE, b"1\n1\n", b"", b""),
            ApplyFault::DoubleKey { line: 2 }
        )
    );
}

#[test]
fn the_first_fault_of_updates_and_insertions_is_told(rt: HostRuntime) {
    let alloc = rt.alloc();
    assert!(&rt;
        fails(
            text_behind(alloc, TABLE, b"1\n", b"1\tz\n", b""),
            ApplyFault::NoSuchKey { line: 1 }
        )
    );
    assert!(&rt;
        fails(
            text_behind(alloc, TABLE, b"", b"2\tz\n2\tz\n", b""),
            ApplyFault::DoubleKey { line: 2 }
        )
    );
    assert!(&rt;
        fails(
            text_behind(alloc, TABLE, b"", b"", b"4\tz\n4\tz\n"),
            ApplyFault::DoubleKey { line: 2 }
        )
    );
    assert!(&rt;
        fails(
            text_behind(alloc, TABLE, b"", b"", b"4\tz\n3\tz\n"),
            ApplyFault::KeyExists { line: 2 }
        )
    );
}
