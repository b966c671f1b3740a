//! Tables and undo texts for them, worked out by hand.

use std::alloc::{AllocError, Global};
use undo_streams::{RevertFault, RevertedAt, Reverter, revert_in_turn};

const CUSTOMERS: &[u8] = b"2\t1\t2\n3\t2\t3\n4\t3\t3\n";

const TABLE: &[u8] = b"1\ta\n2\tb\n3\tc\n";

/// Returns the text of a table after an undo text is applied to it.
fn text_before(alloc: Global, table: &[u8], undo: &[u8]) -> Result<Vec<u8>, RevertFault> {
    let reverter = Reverter::load(alloc, table, 9)?;
    let reverter = reverter.undo(undo)?;
    Ok(reverter.text()?)
}

/// Tells whether a result is a text.
fn gives(given: Result<Vec<u8>, RevertFault>, text: &[u8]) -> bool {
    match given {
        Ok(bytes) => bytes.as_slice() == text,
        Err(_) => false,
    }
}

/// Tells whether a result is a fault.
fn fails(given: Result<Vec<u8>, RevertFault>, fault: RevertFault) -> bool {
    match given {
        Ok(_) => false,
        Err(told) => told == fault,
    }
}

#[test]
fn a_unit_is_undone(rt: HostRuntime) {
    let alloc = rt.alloc();
    let undo = b"drop\t4\nset\t3\t2\t2\nadd\t0\t1\t0\t1\n".as_slice();
    assert!(&rt;
        gives(
            text_before(alloc, CUSTOMERS, undo),
            b"1\t0\t1\n2\t1\t2\n3\t2\t2\n"
        )
    );
    let undo = b"drop\t4\nadd\t0\t1\t1\nadd\t1\t2\t1\nadd\t2\t3\t1\n".as_slice();
    assert!(&rt; gives(text_before(alloc, b"4\t2\n", undo), b"1\t1\n2\t1\n3\t1\n"));
    assert!(&rt; gives(text_before(alloc, TABLE, b""), TABLE));
}

#[test]
fn drops_and_sets_go_by_keys_and_adds_by_places(rt: HostRuntime) {
    let alloc = rt.alloc();
    let undo = b"drop\t3\ndrop\t1\nset\t2\tx\nadd\t0\t9\t\\N\nadd\t2\t8\n".as_slice();
    assert!(&rt; gives(text_before(alloc, TABLE, undo), b"9\t\\N\n2\tx\n8\n"));
    let undo = b"add\t1\t4\tl\nadd\t4\t5\tm\n".as_slice();
    assert!(&rt;
        gives(
            text_before(alloc, TABLE, undo),
            b"1\ta\n4\tl\n2\tb\n3\tc\n5\tm\n"
        )
    );
}

#[test]
fn lines_of_no_undo_text_are_told(rt: HostRuntime) {
    let alloc = rt.alloc();
    let bad = RevertFault::BadLine { line: 2 };
    assert!(&rt; fails(text_before(alloc, TABLE, b"drop\t1\ndrop\t2"), bad));
    assert!(&rt; fails(text_before(alloc, TABLE, b"drop\t1\nset\t2\t\\q\n"), bad));
    assert!(&rt; fails(text_before(alloc, TABLE, b"drop\t1\nput\t2\tx\n"), bad));
    assert!(&rt; fails(text_before(alloc, TABLE, b"set\t1\tx\ndrop\t2\n"), bad));
    assert!(&rt; fails(text_before(alloc, TABLE, b"drop\t1\nset\t\\N\tx\n"), bad));
    assert!(&rt; fails(text_before(alloc, TABLE, b"drop\t1\nset\n"), bad));
    assert!(&rt; fails(text_before(alloc, TABLE, b"drop\t1\ndrop\t2\tb\n"), bad));
    assert!(&rt; fails(text_before(alloc, TABLE, b"drop\t1\nadd\t00\t9\n"), bad));
    assert!(&rt;
        fails(
            text_before(alloc, TABLE, b"drop\t1\nadd\t10000000000000\t9\n"),
            bad
        )
    );
    assert!(&rt; fails(text_before(alloc, TABLE, b"drop\t1\nadd\t0\n"), bad));
}

#[test]
fn keys_and_places_at_fault_are_told(rt: HostRuntime) {
    let alloc = rt.alloc();
    let double = RevertFault::DoubleKey { line: 2 };
    assert!(&rt; fails(text_before(alloc, TABLE, b"drop\t1\nadd\t9\t1\n"), double));
    let absent = RevertFault::NoSuchKey { line: 1 };
    assert!(&rt; fails(text_before(alloc, TABLE, b"set\t4\tx\nset\t4\tx\n"), absent));
    let there = RevertFault::KeyExists { line: 1 };
    assert!(&rt; fails(text_before(alloc, TABLE, b"add\t9\t3\n"), there));
    let place = RevertFault::BadPlace { line: 2 };
    assert!(&rt; fails(text_before(alloc, TABLE, b"add\t1\t4\nadd\t1\t5\n"), place));
    let undo = b"drop\t4\nset\t3\t2\t2\nadd\t9\t1\t0\t1\n".as_slice();
    let past = RevertFault::BadPlace { line: 3 };
    assert!(&rt; fails(text_before(alloc, CUSTOMERS, undo), past));
    assert!(&rt;
        fails(
            text_before(alloc, b"1\n2\n1\n", b""),
            RevertFault::DoubleKey { line: 3 }
        )
    );
}

/// Returns inputs with the bytes of texts.
fn inputs_of(alloc: Global, texts: &[&[u8]]) -> Result<Vec<Vec<u8>>, AllocError> {
    let mut inputs = Vec::new(alloc);
    for text in texts {
        inputs.push(text.to_vec(alloc)?)?;
    }
    Ok(inputs)
}

#[test]
fn units_are_undone_in_turn(rt: HostRuntime) {
    let alloc = rt.alloc();
    let first = b"drop\t3\n".as_slice();
    let inputs = inputs_of(alloc, &[TABLE, first, b"set\t2\ty\n"]).expect(&rt, "memory");
    assert!(&rt; inputs.len() == 3);
    assert!(&rt;
        match revert_in_turn(alloc, &inputs, 9) {
            Ok(bytes) => bytes.as_slice() == b"1\ta\n2\ty\n".as_slice(),
            Err(_) => false,
        }
    );
    let inputs = inputs_of(alloc, &[TABLE, first, b"set\t2\ty\nset\t3\tz\n"]).expect(&rt, "memory");
    assert!(&rt; inputs.len() == 3);
    let told = RevertedAt {
        place: 2,
        fault: RevertFault::NoSuchKey { line: 2 },
    };
    assert!(&rt;
        match revert_in_turn(alloc, &inputs, 9) {
            Ok(_) => false,
            Err(fault) => fault == told,
        }
    );
}
