//! Texts of detail tables and streams that are applied to them, worked out by hand.

use detail_rows::{DetailApplyFault, apply_details};
use std::alloc::Global;
use std::process::Abort;

const TEXT: &[u8] = b"1\t1\ta\n1\t2\tb\n2\t1\tc\n";

/// Two lines for each of three customers, and the changes of a unit.
const ITEMS: [&[u8]; 4] = [
    b"1\t1\t5\n1\t2\t5\n2\t1\t5\n2\t2\t5\n3\t1\t5\n3\t2\t5\n",
    b"1\t1\n1\t2\n",
    b"3\t1\t5\n3\t2\t5\n",
    b"4\t1\t5\n4\t2\t5\n",
];

const ITEMS_BEHIND: &[u8] = b"2\t1\t5\n2\t2\t5\n3\t1\t5\n3\t2\t5\n4\t1\t5\n4\t2\t5\n";

/// Lines whose keys look alike. Both fields are the key, not only one of them, nor the two joined without the delimiter.
const ALIKE: [&[u8]; 4] = [b"1\t11\n11\t1\n", b"11\t1\n", b"1\t11\t\n", b"11\t11\n"];

/// A text, its deletions, updates and insertions, and the text after them.
const APPLIED: [([&[u8]; 4], &[u8]); 6] = [
    ([TEXT, b"", b"", b""], TEXT),
    ([b"", b"", b"", b"1\t1\n"], b"1\t1\n"),
    (ITEMS, ITEMS_BEHIND),
    (
        [TEXT, b"1\t2\n", b"2\t1\t\\N\n1\t1\n", b"2\t2\n1\t2\tz\n"],
        b"1\t1\n2\t1\t\\N\n2\t2\n1\t2\tz\n",
    ),
    (ALIKE, b"1\t11\t\n11\t11\n"),
    ([b"\t\n", b"\t\n", b"", b"1\t\n\t1\n"], b"1\t\n\t1\n"),
];

/// Cases with bars between the fields.
const WITH_BARS: [([&[u8]; 4], &[u8]); 1] = [(
    [b"1|1|\\|\n1|2|\\t\n", b"1|1\n", b"1|2|a\n", b"1|3\n"],
    b"1|2|a\n1|3\n",
)];

fn assert_applied(rt: &impl Abort, alloc: Global, cases: &[([&[u8]; 4], &[u8])], has_bars: bool) {
    for ([text, deletes, updates, inserts], behind) in cases {
        let delimiter = if has_bars { b'|' } else { b'\t' };
        let made = apply_details(alloc, text, deletes, updates, inserts, delimiter);
        let is_made = match &made {
            Ok(bytes) => bytes.as_slice() == *behind,
            Err(_) => false,
        };
        assert!(rt; is_made, "{made:?} of {text:?}");
    }
}

#[test]
fn lines_are_deleted_updated_and_inserted(rt: HostRuntime) {
    assert_applied(&rt, rt.alloc(), &APPLIED, false);
    assert_applied(&rt, rt.alloc(), &WITH_BARS, true);
}

/// What is wrong with a line.
#[derive(Clone, Copy)]
enum Wrong {
    Line,
    Double,
    Absent,
    Held,
}

/// The first fault of a case, with its input and its line. The inputs are a text and its deletions, updates and insertions.
const REFUSED: [(Wrong, u32, u64, [&[u8]; 4]); 28] = [
    // no line feed, or no line body
    (Wrong::Line, 0, 2, [b"1\t1\n2\t1", b"", b"", b""]),
    (Wrong::Line, 1, 1, [TEXT, b"1\t1", b"", b""]),
    (Wrong::Line, 2, 1, [TEXT, b"", b"1\t1\t\\q\n", b""]),
    (Wrong::Line, 3, 1, [TEXT, b"", b"", b"3\t1\tx\\\n"]),
    // fewer than two fields
    (Wrong::Line, 0, 2, [b"1\t1\n1\n", b"", b"", b""]),
    (Wrong::Line, 1, 1, [TEXT, b"\n", b"", b""]),
    (Wrong::Line, 2, 1, [TEXT, b"", b"1\n", b""]),
    (Wrong::Line, 3, 2, [TEXT, b"", b"", b"3\t1\n3\n"]),
    // one of the first two is null
    (Wrong::Line, 0, 1, [b"\\N\t1\n", b"", b"", b""]),
    (Wrong::Line, 0, 1, [b"1\t\\N\n", b"", b"", b""]),
    (Wrong::Line, 1, 1, [TEXT, b"1\t\\N\n", b"", b""]),
    (Wrong::Line, 2, 1, [TEXT, b"", b"\\N\t1\ta\n", b""]),
    (Wrong::Line, 3, 1, [TEXT, b"", b"", b"3\t\\N\ta\n"]),
    // more than two fields in a line to be deleted
    (Wrong::Line, 1, 2, [TEXT, b"1\t1\n1\t2\tb\n", b"", b""]),
    (Wrong::Line, 1, 1, [TEXT, b"1\t1\t\n", b"", b""]),
    // two lines with one key
    (
        Wrong::Double,
        0,
        3,
        [b"1\t1\n1\t2\n1\t1\tx\n", b"", b"", b""],
    ),
    (Wrong::Double, 1, 3, [TEXT, b"1\t1\n2\t1\n1\t1\n", b"", b""]),
    (Wrong::Double, 2, 2, [TEXT, b"", b"1\t1\ta\n1\t1\tb\n", b""]),
    (Wrong::Double, 3, 2, [TEXT, b"", b"", b"3\t1\ta\n3\t1\tb\n"]),
    // a key that isn't held, and one that is
    (Wrong::Absent, 1, 1, [TEXT, b"1\t3\n", b"", b""]),
    (Wrong::Absent, 2, 2, [TEXT, b"", b"1\t1\tx\n3\t1\tx\n", b""]),
    (Wrong::Absent, 2, 1, [TEXT, b"1\t1\n", b"1\t1\tx\n", b""]),
    (Wrong::Held, 3, 2, [TEXT, b"", b"", b"2\t2\tx\n2\t1\tx\n"]),
    // several faults: the first input, in it the first line, and in this line the first fault
    (Wrong::Double, 0, 2, [b"1\t1\n1\t1\n", b"1\n", b"", b""]),
    (Wrong::Absent, 1, 1, [TEXT, b"9\t9\n1\n", b"1\n", b"1\n"]),
    (Wrong::Absent, 2, 1, [TEXT, b"", b"9\t9\n", b"1\n"]),
    (Wrong::Line, 1, 2, [TEXT, b"1\t1\n1\t1\t2\n", b"", b""]),
    (Wrong::Double, 3, 2, [TEXT, b"", b"", b"3\t1\n3\t1\n1\t1\n"]),
];

fn fault_of(wrong: Wrong, input: u32, line: u64) -> DetailApplyFault {
    match wrong {
        Wrong::Line => DetailApplyFault::BadLine { input, line },
        Wrong::Double => DetailApplyFault::DoubleKey { input, line },
        Wrong::Absent => DetailApplyFault::NoSuchKey { input, line },
        Wrong::Held => DetailApplyFault::KeyExists { input, line },
    }
}

fn assert_refused(rt: &impl Abort, alloc: Global, cases: &[(Wrong, u32, u64, [&[u8]; 4])]) {
    for (wrong, input, line, [text, deletes, updates, inserts]) in cases {
        let told = apply_details(alloc, text, deletes, updates, inserts, 9).err();
        let due = Some(fault_of(*wrong, *input, *line));
        assert!(rt; told == due, "{told:?}, and not {due:?}");
    }
}

#[test]
fn the_first_fault_is_told(rt: HostRuntime) {
    assert_refused(&rt, rt.alloc(), &REFUSED);
}
