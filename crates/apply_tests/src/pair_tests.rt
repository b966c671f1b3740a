//! A table whose lines are known by their first two fields, and streams for it, worked out by hand.

use std::alloc::Global;
use stream_apply::{Applier, ApplyFault, KeyFields};

const TABLE: &[u8] = b"1|1|5\n1|2|5\n2|1|5\n2|2|5\n3|1|5\n3|2|5\n";

/// Returns the text that a chain of calls makes of a table.
fn text_behind(
    alloc: Global,
    table: &[u8],
    deletes: &[u8],
    updates: &[u8],
    inserts: &[u8],
) -> Result<Vec<u8>, ApplyFault> {
    let applier = Applier::load(alloc, table, KeyFields::Two, 124)?;
    let applier = applier.delete(deletes)?;
    let applier = applier.update(updates)?;
    let applier = applier.insert(inserts)?;
    Ok(applier.text()?)
}

/// Tells whether a result is a text.
fn gives(given: Result<Vec<u8>, ApplyFault>, text: &[u8]) -> bool {
    match given {
        Ok(bytes) => bytes.as_slice() == text,
        Err(_) => false,
    }
}

/// Tells whether a result is a fault.
fn fails(given: Result<Vec<u8>, ApplyFault>, fault: ApplyFault) -> bool {
    match given {
        Ok(_) => false,
        Err(told) => told == fault,
    }
}

#[test]
fn lines_are_known_by_both_fields(rt: HostRuntime) {
    let alloc = rt.alloc();
    assert!(&rt; gives(text_behind(alloc, TABLE, b"", b"", b""), TABLE));
    assert!(&rt;
        gives(
            text_behind(
                alloc,
                TABLE,
                b"1|1\n1|2\n",
                b"3|1|6\n3|2|6\n",
                b"4|1|5\n4|2|5\n"
            ),
            b"2|1|5\n2|2|5\n3|1|6\n3|2|6\n4|1|5\n4|2|5\n"
        )
    );
    assert!(&rt;
        gives(
            text_behind(
                alloc,
                b"1|23|a\n12|3|b\n",
                b"12|3\n",
                b"1|23|c\n",
                b"1|2|d\n123||e\n|123\n"
            ),
            b"1|23|c\n1|2|d\n123||e\n|123\n"
        )
    );
    assert!(&rt;
        gives(
            text_behind(
                alloc,
                b"a\\||b|c\na|\\|b|c\n",
                b"a|\\|b\n",
                b"a\\||b|d\n",
                b""
            ),
            b"a\\||b|d\n"
        )
    );
}

#[test]
fn the_first_fault_of_a_table_is_told(rt: HostRuntime) {
    let alloc = rt.alloc();
    assert!(&rt;
        fails(
            text_behind(alloc, b"1|1|5\n1\n", b"", b"", b""),
            ApplyFault::BadLine { line: 2 }
        )
    );
    assert!(&rt;
        fails(
            text_behind(alloc, b"1|1|5\n1|\\N|5\n", b"", b"", b""),
            ApplyFault::BadLine { line: 2 }
        )
    );
    assert!(&rt;
        fails(
            text_behind(alloc, b"\\N|1|5\n", b"", b"", b""),
            ApplyFault::BadLine { line: 1 }
        )
    );
    assert!(&rt;
        fails(
            text_behind(alloc, b"1|1|5\n1|2|5\n1|1|6\n", b"", b"", b""),
            ApplyFault::DoubleKey { line: 3 }
        )
    );
}

#[test]
fn the_first_fault_of_deletions_is_told(rt: HostRuntime) {
    let alloc = rt.alloc();
    assert!(&rt;
        fails(
            text_behind(alloc, TABLE, b"1|1\n1|2|5\n", b"", b""),
            ApplyFault::BadLine { line: 2 }
        )
    );
    assert!(&rt;
        fails(
            text_behind(alloc, TABLE, b"1|1\n1\n", b"", b""),
            ApplyFault::BadLine { line: 2 }
        )
    );
    assert!(&rt;
        fails(
            text_behind(alloc, TABLE, b"1|3\n", b"", b""),
            ApplyFault::NoSuchKey { line: 1 }
        )
    );
}

#[test]
fn the_first_fault_of_updates_and_insertions_is_told(rt: HostRuntime) {
    let alloc = rt.alloc();
    assert!(&rt;
        fails(
            text_behind(alloc, TABLE, b"", b"1|1|6\n4|1|6\n", b""),
            ApplyFault::NoSuchKey { line: 2 }
        )
    );
    assert!(&rt;
        fails(
            text_behind(alloc, TABLE, b"", b"", b"4|1|5\n3|2|5\n"),
            ApplyFault::KeyExists { line: 2 }
        )
    );
}
