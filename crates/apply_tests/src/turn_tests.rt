//! A table of three lines, and the streams of two units for it, worked out by hand.

use std::alloc::{AllocError, Global};
use stream_apply::{ApplyFault, KeyFields, TurnFault, apply_in_turn};

const TABLE: &[u8] = b"1\ta\n2\tb\n3\tc\n";

/// Returns inputs with the bytes of texts.
fn inputs_of(alloc: Global, texts: &[&[u8]]) -> Result<Vec<Vec<u8>>, AllocError> {
    let mut inputs = Vec::new(alloc);
    for text in texts {
        inputs.push(text.to_vec(alloc)?)?;
    }
    Ok(inputs)
}

/// Tells whether inputs make a text.
fn make(alloc: Global, texts: &[&[u8]], text: &[u8]) -> bool {
    let Ok(inputs) = inputs_of(alloc, texts) else {
        return false;
    };
    match apply_in_turn(alloc, &inputs, KeyFields::One, 9) {
        Ok(bytes) => bytes.as_slice() == text,
        Err(_) => false,
    }
}

/// Tells whether inputs are refused for a fault at a place.
fn fail(alloc: Global, texts: &[&[u8]], place: usize, fault: ApplyFault) -> bool {
    let Ok(inputs) = inputs_of(alloc, texts) else {
        return false;
    };
    match apply_in_turn(alloc, &inputs, KeyFields::One, 9) {
        Ok(_) => false,
        Err(told) => told == TurnFault { place, fault },
    }
}

#[test]
fn two_units_are_applied_in_turn(rt: HostRuntime) {
    let alloc = rt.alloc();
    assert!(&rt; make(alloc, &[], b""));
    assert!(&rt; make(alloc, &[TABLE], TABLE));
    assert!(&rt; make(alloc, &[TABLE, b"2\n"], b"1\ta\n3\tc\n"));
    assert!(&rt;
        make(
            alloc,
            &[
                TABLE,
                b"2\n",
                b"3\tx\n",
                b"4\td\n2\te\n",
                b"1\n4\n",
                b"2\tf\n",
                b"5\tg\n"
            ],
            b"3\tx\n2\tf\n5\tg\n"
        )
    );
}

#[test]
fn the_first_fault_is_told_with_its_place(rt: HostRuntime) {
    let alloc = rt.alloc();
    assert!(&rt; fail(alloc, &[b"1\ta"], 0, ApplyFault::BadLine { line: 1 }));
    assert!(&rt;
        fail(
            alloc,
            &[TABLE, b"2\n", b"", b"4\td\n", b"1\n2\n", b"", b""],
            4,
            ApplyFault::NoSuchKey { line: 2 }
        )
    );
    assert!(&rt;
        fail(
            alloc,
            &[TABLE, b"2\n", b"", b"4\td\n", b"", b"", b"2\te\n4\tf\n"],
            6,
            ApplyFault::KeyExists { line: 2 }
        )
    );
    assert!(&rt;
        fail(
            alloc,
            &[TABLE, b"", b"4\tz\n", b"", b"5\n"],
            2,
            ApplyFault::NoSuchKey { line: 1 }
        )
    );
}
