//! What no clause says of the devices: calls succeed with ample memory, and a table of failures gives its failures.

ghost use Rattle.std.specs.Prelude.{◌<◌, ◌^◌, None};

use pd_outside::{
    Failed, Files, Gate, Library, LibraryFails, MemLibrary, MemShelf, Message, OpenGate, ReadFault,
    Shelf, ShelfFail, ShelfFails, read_whole, write_all,
};
use std::alloc::Global;
use std::process::Abort;

// A library that gives one byte at a time, and tells nothing of its files.
#[derive(Drop)]
struct Drip {
    inner: MemLibrary,
}

impl Library for Drip {
    ghost content = { λ _. None };

    ghost asked = { λ _. None };

    ghost is_started = { λ d. ⟦<MemLibrary as Library>⟧.is_started d.inner };

    ghost taken = { λ d. ⟦<MemLibrary as Library>⟧.taken d.inner };

    ghost counts = { λ d. ⟦<MemLibrary as Library>⟧.counts d.inner };

    ghost told_alike = { λ _. tt };

    fn start(&mut self, name: &str) -> Result<(), Failed> {
        self.inner.start(name)
    }

    fn read(&mut self, into: &mut [u8]) -> Result<usize, Failed> {
        self.inner.read(&mut into[..1])
    }
}

// Returns two files of one name, and an empty file.
fn files_of(rt: &impl Abort, alloc: Global) -> Files {
    let mut files = Files::new(alloc);
    for (name, bytes) in [("a", b"first".as_slice()), ("b", b""), ("a", b"second")] {
        files.push(name, bytes).expect(rt, "memory");
    }
    files
}

// Returns a library of these files, on which a call on `a` fails.
fn failing(rt: &impl Abort, alloc: Global, call: u64) -> MemLibrary {
    let mut fails = LibraryFails::new(alloc);
    fails.push("a", call).expect(rt, "memory");
    MemLibrary::new(alloc, files_of(rt, alloc), fails)
}

#[test]
fn lists_keep_what_is_pushed(rt: HostRuntime) {
    let files = files_of(&rt, rt.alloc());
    assert!(rt; files.len() == 3 && !files.is_empty());
    assert!(rt; files.name(2) == "a" && files.bytes(2) == b"second".as_slice());
    let mut message = Message::new();
    message.put(b"ab");
    message.put(b"c");
    assert!(rt; message.text() == b"abc".as_slice());
    OpenGate.enter(0);
    crosses_threads(&OpenGate);
}

// Workers share such a value.
fn crosses_threads<T: Send + Sync>(_value: &T) {}

fn assert_read<L: Library>(
    rt: &impl Abort,
    alloc: Global,
    library: &mut L,
    name: &str,
    limit: u64,
    want: Result<&[u8], ReadFault>,
)
    requires { limit < 2 ^ 32 }
{
    match read_whole(alloc, library, name, limit) {
        Ok(bytes) => assert!(rt; want == Ok(bytes.as_slice()), "{name} is read to {limit}"),
        Err(fault) => assert!(rt; want == Err(fault), "{name} is refused at {limit}"),
    }
}

// Reads one of the files, where a call on `a` fails.
fn assert_read_of_two(
    rt: &impl Abort,
    alloc: Global,
    call: u64,
    name: &str,
    limit: u64,
    want: Result<&[u8], ReadFault>,
)
    requires { limit < 2 ^ 32 }
{
    let mut library = failing(rt, alloc, call);
    assert_read(rt, alloc, &mut library, name, limit, want);
    assert!(rt; library.asked_len() == 1);
    assert!(rt; library.asked_name(0) == name, "the name of {call}");
}

// The name, the call on `a` that fails and the limit, then the answer.
#[test]
fn files_are_read_whole_or_refused(rt: HostRuntime) {
    let cases: [(&str, u64, u64, Result<&[u8], ReadFault>); 9] = [
        ("a", 0, 5, Ok(b"first")),
        ("a", 0, 4, Err(ReadFault::TooLong)),
        ("a", 0, 0, Err(ReadFault::TooLong)),
        ("b", 0, 0, Ok(b"")),
        ("c", 0, 9, Err(ReadFault::Failed)),
        ("a", 1, 9, Err(ReadFault::Failed)),
        ("a", 2, 9, Err(ReadFault::Failed)),
        ("a", 3, 9, Err(ReadFault::Failed)),
        ("a", 4, 9, Ok(b"first")),
    ];
    for (name, call, limit, want) in cases {
        assert!(rt; limit < 10);
        assert_read_of_two(&rt, rt.alloc(), call, name, limit, want);
    }
}

// The longest name of a file that is read.
const LONG: &str =
    "............................................................................................................................................................................................................................................................................................................";

// Reads a file of a size, and compares whether it is read.
fn assert_size(rt: &impl Abort, alloc: Global, name: &str, size: usize, limit: u64, is_read: bool)
    requires { limit < 2 ^ 32 }
{
    let bytes = Vec::from_elem(alloc, b'.', size).expect(rt, "memory");
    let mut files = Files::new(alloc);
    files.push(name, &bytes).expect(rt, "memory");
    let mut library = MemLibrary::new(alloc, files, LibraryFails::new(alloc));
    if is_read {
        assert_read(rt, alloc, &mut library, name, limit, Ok(&bytes));
    } else {
        assert_read(
            rt,
            alloc,
            &mut library,
            name,
            limit,
            Err(ReadFault::TooLong),
        );
    }
}

// The name of the file and its size, the limit, and whether it is read.
#[test]
fn files_at_the_edges_of_sizes_are_read(rt: HostRuntime) {
    for (name, size, limit, is_read) in [
        (".", 0, 0, true),
        (".", 1, 1, true),
        (".", 1, 0, false),
        (LONG, 65_535, 65_535, true),
        (".", 65_536, 65_536, true),
        (".", 65_536, 65_535, false),
        (LONG, 65_537, 65_537, true),
        (".", 65_537, 65_536, false),
        (".", 131_073, 131_072, false),
    ] {
        assert!(rt; limit < 200_000);
        assert_size(&rt, rt.alloc(), name, size, limit, is_read);
    }
}

// Each start counts calls anew, and a byte at a time takes more calls: the start, five bytes and the end are seven. The third byte
// is past the limit of two.
#[test]
fn short_reads_are_joined(rt: HostRuntime) {
    let inner = failing(&rt, rt.alloc(), 7);
    let mut library = Drip { inner };
    assert_read(&rt, rt.alloc(), &mut library, "b", 9, Ok(b""));
    assert_read(
        &rt,
        rt.alloc(),
        &mut library,
        "a",
        9,
        Err(ReadFault::Failed),
    );
    assert_read(
        &rt,
        rt.alloc(),
        &mut library,
        "a",
        2,
        Err(ReadFault::TooLong),
    );
}

// Whether the file was written and ended.
fn is_written(rt: &impl Abort, shelf: &mut MemShelf, name: &str, bytes: &[u8]) -> bool {
    assert!(rt; shelf.begun().is_none());
    if shelf.begin(name).is_err() || write_all(shelf, bytes).is_err() {
        return false;
    }
    shelf.end().is_ok()
}

// Writes the file `x` to a shelf that takes a byte at a time, where a call fails. Compares how far it came: the begun file, its
// bytes, and the number of finished files.
fn assert_written(
    rt: &impl Abort,
    alloc: Global,
    fail: ShelfFail,
    begun: Option<&str>,
    bytes: &[u8],
    finished: usize,
) {
    let mut shelf = failing_shelf(rt, alloc, fail, 1);
    let is_ended = is_written(rt, &mut shelf, "x", b"abc");
    assert!(rt; is_ended == (finished == 1));
    assert!(rt; shelf.begun() == begun && shelf.begun_bytes() == bytes);
    let files = shelf.finished();
    assert!(rt; files.len() == finished);
    if files.len() == 1 {
        assert!(rt; files.name(0) == "x" && files.bytes(0) == b"abc".as_slice());
    }
}

fn failing_shelf(rt: &impl Abort, alloc: Global, fail: ShelfFail, step: usize) -> MemShelf
    requires { 0 < step }
{
    let mut fails = ShelfFails::new(alloc);
    fails.push(fail).expect(rt, "memory");
    MemShelf::new(alloc, fails, step)
}

#[test]
fn short_writes_are_joined_and_stop_at_a_failure(rt: HostRuntime) {
    let cases: [(ShelfFail, Option<&str>, &[u8], usize); 6] = [
        (ShelfFail::Begin(1), None, b"", 0),
        (ShelfFail::Write(1), Some("x"), b"", 0),
        (ShelfFail::Write(2), Some("x"), b"a", 0),
        (ShelfFail::End(1), Some("x"), b"abc", 0),
        (ShelfFail::Begin(2), None, b"", 1),
        (ShelfFail::Write(4), None, b"", 1),
    ];
    for (fail, begun, bytes, finished) in cases {
        assert_written(&rt, rt.alloc(), fail, begun, bytes, finished);
    }
}

// The second write fails, but the second begin before it doesn't.
#[test]
fn only_the_stated_call_fails(rt: HostRuntime) {
    let mut shelf = failing_shelf(&rt, rt.alloc(), ShelfFail::Write(2), 1000);
    assert!(rt; is_written(&rt, &mut shelf, "x", b"ab"));
    assert!(rt; !is_written(&rt, &mut shelf, "y", b"c"));
    assert!(rt; shelf.begun() == Some("y"));
}
