//! Files that are read in turn, over files in memory.

use pd_outside::{Files, LibraryFails, MemLibrary, ReadFault};
use plan_stages::{Inputs, UnreadInput, read_in_turn};
use schema_model::{Text, Texts};
use std::alloc::Global;
use std::process::Abort;

// What is read, and what reading it must come to.
#[derive(Clone, Copy)]
struct Case<'a> {
    names: &'a [&'a str],
    // The call that fails, by the name of its file.
    fail: (&'a str, u64),
    limit: u64,
    want: Result<&'a [&'a str], UnreadInput>,
    // How many names are asked.
    asked: usize,
}

// Returns a library of three files, of 5, 0 and 6 bytes, on which one call fails.
fn library_with(rt: &impl Abort, alloc: Global, fail: (&str, u64)) -> MemLibrary {
    let mut files = Files::new(alloc);
    for (name, bytes) in [("a", b"first".as_slice()), ("b", b""), ("c", b"second")] {
        files.push(name, bytes).expect(rt, "memory");
    }
    let mut fails = LibraryFails::new(alloc);
    fails.push(fail.0, fail.1).expect(rt, "memory");
    MemLibrary::new(alloc, files, fails)
}

fn texts_of(rt: &impl Abort, alloc: Global, names: &[&str]) -> Texts {
    let mut texts = Texts::new(alloc);
    for name in names {
        let text = Text::of(alloc, name).expect(rt, "memory");
        texts.push(text).expect(rt, "memory");
    }
    texts
}

fn assert_held(rt: &impl Abort, inputs: &Inputs, want: &[&str]) {
    assert!(rt; inputs.len() == want.len() && inputs.is_empty() == want.is_empty());
    for (place, text) in want.iter().enumerate() {
        assert!(rt; place < inputs.len());
        assert!(rt; inputs.get(place) == text.as_bytes(), "input {place}");
    }
}

fn assert_asked(rt: &impl Abort, library: &MemLibrary, names: &[&str], asked: usize) {
    assert!(rt; library.asked_len() == asked && asked <= names.len());
    for place in 0..asked {
        assert!(rt; library.asked_name(place) == names[place], "name {place}");
    }
}

fn assert_read(rt: &impl Abort, alloc: Global, case: Case) {
    assert!(rt; case.limit < 100);
    let mut library = library_with(rt, alloc, case.fail);
    let names = texts_of(rt, alloc, case.names);
    match (
        read_in_turn(alloc, &mut library, &names, case.limit),
        case.want,
    ) {
        (Ok(inputs), Ok(want)) => assert_held(rt, &inputs, want),
        (Err(fault), Err(want)) => assert!(rt; fault == want, "fault at {}", fault.number),
        _ => assert!(rt; false, "one is read and the other refused"),
    }
    assert_asked(rt, &library, case.names, case.asked);
}

const THREE: Case<'static> = Case {
    names: &["a", "b", "c"],
    fail: ("a", 0),
    limit: 11,
    want: Ok(&["first", "", "second"]),
    asked: 3,
};

const TWICE: Case<'static> = Case {
    names: &["a", "a"],
    limit: 10,
    want: Ok(&["first", "first"]),
    asked: 2,
    ..THREE
};

fn refused(number: usize, cause: ReadFault) -> Result<&'static [&'static str], UnreadInput> {
    Err(UnreadInput { number, cause })
}

#[test]
fn inputs_are_read_up_to_their_sum(rt: HostRuntime) {
    let none = Case {
        names: &[],
        limit: 0,
        want: Ok(&[]),
        asked: 0,
        ..THREE
    };
    for case in [THREE, TWICE, none] {
        assert_read(&rt, rt.alloc(), case);
    }
}

// The limit, and the number of the file that is too long.
#[test]
fn the_first_with_which_they_pass_the_limit_is_too_long(rt: HostRuntime) {
    for (limit, number) in [(10, 2), (5, 2), (4, 0), (0, 0)] {
        let want = refused(number, ReadFault::TooLong);
        let asked = number + 1;
        let case = Case {
            limit,
            want,
            asked,
            ..THREE
        };
        assert_read(&rt, rt.alloc(), case);
    }
    let want = refused(1, ReadFault::TooLong);
    assert_read(
        &rt,
        rt.alloc(),
        Case {
            limit: 9,
            want,
            ..TWICE
        },
    );
}

#[test]
fn absent_files_and_failing_reads_end_it(rt: HostRuntime) {
    let want = refused(1, ReadFault::Failed);
    let absent = Case {
        names: &["a", "d", "c"],
        want,
        asked: 2,
        ..THREE
    };
    let failing = Case {
        fail: ("b", 2),
        want,
        asked: 2,
        ..THREE
    };
    for case in [absent, failing] {
        assert_read(&rt, rt.alloc(), case);
    }
}
