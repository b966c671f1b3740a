//! Word lists that are read, with their entries worked out by hand.

use dictionaries::{DictFault, Dictionary, read_dictionary};
use std::alloc::Global;
use std::process::Abort;

fn assert_entry(rt: &impl Abort, dictionary: &Dictionary, i: usize, entry: &str) {
    assert!(rt; i < dictionary.len() && dictionary.entry(i) == entry);
}

fn assert_selects(rt: &impl Abort, dictionary: &Dictionary, x: u64, i: usize) {
    assert!(rt; x < dictionary.weight_total() && dictionary.select(x) == i);
}

/// Asserts that each entry is selected by as many numbers as its weight says, after the numbers of the entry before it.
fn assert_entries(rt: &impl Abort, alloc: Global, bytes: &[u8], entries: &[(&str, u64)]) {
    let dictionary = read_dictionary(alloc, bytes).expect(rt, "refused");
    let mut end = 0u64;
    assert!(rt; dictionary.len() == entries.len());
    for (i, (entry, weight)) in entries.iter().enumerate() {
        assert_entry(rt, &dictionary, i, entry);
        assert_selects(rt, &dictionary, end, i);
        end = end.wrapping_add(*weight);
        assert_selects(rt, &dictionary, end.wrapping_sub(1), i);
    }
    assert!(rt; dictionary.weight_total() == end);
}

const ENTRIES: [(&[u8], &[(&str, u64)]); 15] = [
    (b"Ann\t3\r\n\r\nBo\r\n", &[("Ann", 3), ("Bo", 1)]),
    // The end of the last line, empty lines, and carriage returns.
    (b"a", &[("a", 1)]),
    (b"a\n", &[("a", 1)]),
    (b"a\t2\r", &[("a", 2)]),
    (b"\n\r\na\t2\n\r\n\nb", &[("a", 2), ("b", 1)]),
    (b"a\r\r\n\r\r", &[("a\r", 1), ("\r", 1)]),
    (b"\ra\rb\n", &[("\ra\rb", 1)]),
    // A byte order mark, which counts as one only at the beginning.
    (b"\xEF\xBB\xBFa\t7\nb", &[("a", 7), ("b", 1)]),
    (b"\xEF\xBB\xBF\xEF\xBB\xBFa", &[("\u{feff}a", 1)]),
    (b"a\n\xEF\xBB\xBF\n", &[("a", 1), ("\u{feff}", 1)]),
    // The text before the first tab, which can be empty, and characters of several bytes.
    (b"\t3\na\t4", &[("", 3), ("a", 4)]),
    (
        b"Zo\xC3\xAB\t2\r\n\xCE\xBA \xF0\x9F\x98\x80\n",
        &[("Zoë", 2), ("κ 😀", 1)],
    ),
    // The smallest weight, the greatest, and one with leading zeros.
    (b"a\t1\nb\t1000000\n", &[("a", 1), ("b", 1_000_000)]),
    (b"a\t0000001", &[("a", 1)]),
    (b"a\t0999999", &[("a", 999_999)]),
];

fn try_entries(rt: &impl Abort, alloc: Global, cases: &[(&[u8], &[(&str, u64)])]) {
    for (bytes, entries) in cases {
        assert_entries(rt, alloc, bytes, entries);
    }
}

fn assert_refused(rt: &impl Abort, alloc: Global, bytes: &[u8], fault: DictFault) {
    assert!(rt; read_dictionary(alloc, bytes).err() == Some(fault));
}

const FAULTS: [(&[u8], DictFault); 31] = [
    (b"", DictFault::Empty),
    (b"\n\n", DictFault::Empty),
    (b"\r\n\n\r", DictFault::Empty),
    (b"\xEF\xBB\xBF", DictFault::Empty),
    (b"\xEF\xBB\xBF\r\n", DictFault::Empty),
    (b"Ann\t0", DictFault::BadWeight { line: 1 }),
    (b"a\t1000001", DictFault::BadWeight { line: 1 }),
    (b"a\t9999999", DictFault::BadWeight { line: 1 }),
    (b"a\t00000001", DictFault::BadWeight { line: 1 }),
    (b"a\t", DictFault::BadWeight { line: 1 }),
    (b"a\t\r\n", DictFault::BadWeight { line: 1 }),
    (b"a\t1\r\r\n", DictFault::BadWeight { line: 1 }),
    (b"a\t+1", DictFault::BadWeight { line: 1 }),
    (b"a\t-1", DictFault::BadWeight { line: 1 }),
    (b"a\t 1", DictFault::BadWeight { line: 1 }),
    (b"a\t1\t1", DictFault::BadWeight { line: 1 }),
    (b"a\tb\t1", DictFault::BadWeight { line: 1 }),
    (b"\t", DictFault::BadWeight { line: 1 }),
    // A digit that isn't an ASCII one.
    (b"a\t\xD9\xA1", DictFault::BadWeight { line: 1 }),
    (b"A\n\xFF", DictFault::NotUtf8 { at: 2 }),
    (b"\xFF", DictFault::NotUtf8 { at: 0 }),
    (b"ab\xC0\x80c", DictFault::NotUtf8 { at: 2 }),
    // A byte order mark counts, also a truncated one. What isn't UTF-8 is told before a fault of a line.
    (b"\xEF\xBB\xBFa\xC3", DictFault::NotUtf8 { at: 4 }),
    (b"\xEF\xBB", DictFault::NotUtf8 { at: 0 }),
    (b"a\t0\n\xE2\x82", DictFault::NotUtf8 { at: 4 }),
    // Of two faulty lines the first is told. Lines without an entry count.
    (b"a\nb\t0\nc\tx", DictFault::BadWeight { line: 2 }),
    (b"\n\r\na\t0", DictFault::BadWeight { line: 3 }),
    (
        b"\xEF\xBB\xBF\na\nb\n\nc\tx\n",
        DictFault::BadWeight { line: 5 },
    ),
    (b"a\r\nb\t\n\n", DictFault::BadWeight { line: 2 }),
    (b"\xEF\xBB\xBF\t0", DictFault::BadWeight { line: 1 }),
    (b"a\n\t\xEF\xBB\xBF1", DictFault::BadWeight { line: 2 }),
];

fn try_faults(rt: &impl Abort, alloc: Global, cases: &[(&[u8], DictFault)]) {
    for (bytes, fault) in cases {
        assert_refused(rt, alloc, bytes, *fault);
    }
}

/// Repeats a piece, and appends the rest.
fn repeated(rt: &impl Abort, alloc: Global, piece: &[u8], count: usize, rest: &[u8]) -> Vec<u8> {
    let mut bytes = piece.repeat(alloc, count).expect(rt, "memory");
    bytes.extend_from_slice(rest).expect(rt, "memory");
    bytes
}

/// What follows 255 letters.
const SHORT: [&[u8]; 5] = [b"", b"\t1", b"\t1000000\n", b"\r\n", b"\r"];

fn try_short(rt: &impl Abort, alloc: Global, rests: &[&[u8]]) {
    for rest in rests {
        let bytes = repeated(rt, alloc, b"x", 255, rest);
        let dictionary = read_dictionary(alloc, &bytes).expect(rt, "refused");
        assert!(rt; dictionary.len() == 1 && dictionary.entry(0).len() == 255);
    }
}

#[test]
fn entries_are_read_with_their_weights(rt: HostRuntime) {
    try_entries(&rt, rt.alloc(), &ENTRIES);
    try_short(&rt, rt.alloc(), &SHORT);
}

/// A piece, how often it is repeated, what follows, and the fault. A long entry is told before a bad weight, and before a fault of a later
/// line. One has 254 letters and a character of two bytes. The entry 1,000,001 is told at its line, after the other faults of that line.
const REPEATED: [(&[u8], usize, &[u8], DictFault); 9] = [
    (b"x", 256, b"", DictFault::LongEntry { line: 1 }),
    (b"x", 256, b"\t1", DictFault::LongEntry { line: 1 }),
    (b"x", 256, b"\t0", DictFault::LongEntry { line: 1 }),
    (b"x", 256, b"\na\t0", DictFault::LongEntry { line: 1 }),
    (b"x", 256, b"\r", DictFault::LongEntry { line: 1 }),
    (b"x", 254, b"\xC3\xAB", DictFault::LongEntry { line: 1 }),
    (
        b"a\n",
        1_000_000,
        b"a\n",
        DictFault::TooMany { line: 1_000_001 },
    ),
    (
        b"a\n",
        1_000_000,
        b"\nlast",
        DictFault::TooMany { line: 1_000_002 },
    ),
    (
        b"a\n",
        1_000_000,
        b"a\t0\n",
        DictFault::BadWeight { line: 1_000_001 },
    ),
];

fn try_repeated(rt: &impl Abort, alloc: Global, cases: &[(&[u8], usize, &[u8], DictFault)]) {
    for (piece, count, rest, fault) in cases {
        let bytes = repeated(rt, alloc, piece, *count, rest);
        assert_refused(rt, alloc, &bytes, *fault);
    }
}

#[test]
fn the_first_fault_is_told(rt: HostRuntime) {
    try_faults(&rt, rt.alloc(), &FAULTS);
    try_repeated(&rt, rt.alloc(), &REPEATED);
}

#[test]
fn a_million_entries_are_read(rt: HostRuntime) {
    let bytes = repeated(&rt, rt.alloc(), b"a\n", 999_999, b"\nlast\t1000000\n\n");
    let dictionary = read_dictionary(rt.alloc(), &bytes).expect(&rt, "refused");
    assert!(rt; dictionary.len() == 1_000_000 && dictionary.weight_total() == 1_999_999);
    assert_entry(&rt, &dictionary, 0, "a");
    assert_entry(&rt, &dictionary, 999_999, "last");
    assert_selects(&rt, &dictionary, 999_998, 999_998);
    assert_selects(&rt, &dictionary, 999_999, 999_999);
    assert_selects(&rt, &dictionary, 1_999_998, 999_999);
}

fn crosses_threads<T: Send + Sync>(_value: &T) {}

#[test]
fn dictionaries_cross_threads(rt: HostRuntime) {
    crosses_threads(&read_dictionary(rt.alloc(), b"a").expect(&rt, "refused"));
}
