//! Mode apply over files in memory. What the modes snapshot and unit write gives the later snapshot, and an input at fault is told.

use pd_outside::{Files, LibraryFails, MemLibrary, MemShelf, OpenGate, ShelfFails};
use pdgf_run::{Report, pdgf};
use run_cases::schemas::{ONE, SALES};
use run_cases::{REFUSED, Run, check_run_over, idle_keeper, words_of};
use std::alloc::Global;
use std::process::Abort;
use std::thread::Threads;

// Appends files, each with a name and bytes, to others.
fn push_all(rt: &impl Abort, files: &mut Files, named: &[(&str, &[u8])]) {
    for (name, bytes) in named {
        files.push(name, bytes).expect(rt, "memory");
    }
}

// Returns a library that holds the files. No call on it fails.
fn library_with(alloc: Global, files: Files) -> MemLibrary {
    MemLibrary::new(alloc, files, LibraryFails::new(alloc))
}

// Appends the files that a run of the words writes to others.
fn push_written<R: Threads + Sync + Abort>(
    rt: &R,
    alloc: Global,
    library: &mut MemLibrary,
    line: &str,
    files: &mut Files,
) {
    let mut shelf = MemShelf::new(alloc, ShelfFails::new(alloc), 1000);
    assert!(rt; shelf.begun().is_none());
    let words = words_of(alloc, line).expect(rt, "memory");
    let mut keeper = idle_keeper(alloc);
    let Report { status, .. } = pdgf(
        rt,
        alloc,
        &words,
        library,
        &mut shelf,
        &OpenGate,
        &mut keeper,
    );
    assert_eq!(rt; status, 0, "{line}");
    let written = shelf.finished();
    for number in 0..written.len() {
        let bytes = written.bytes(number);
        files.push(written.name(number), bytes).expect(rt, "memory");
    }
}

// Appends the files that a run of the words writes over the sales only.
fn push_sales<R: Threads + Sync + Abort>(rt: &R, alloc: Global, line: &str, files: &mut Files) {
    let mut own = Files::new(alloc);
    push_all(rt, &mut own, &[("s.toml", SALES.as_bytes())]);
    let mut library = library_with(alloc, own);
    push_written(rt, alloc, &mut library, line, files);
}

fn assert_alike(rt: &impl Abort, made: &Files, wanted: &Files) {
    assert!(rt; made.len() == wanted.len());
    for number in 0..made.len() {
        let alike = made.name(number) == wanted.name(number)
            && made.bytes(number) == wanted.bytes(number);
        assert!(rt; alike, "file {number}");
    }
}

fn assert_two_units<R: Threads + Sync + Abort>(rt: &R, alloc: Global) {
    let mut inputs = Files::new(alloc);
    push_all(rt, &mut inputs, &[("s.toml", SALES.as_bytes())]);
    push_sales(
        rt,
        alloc,
        "pdgf snapshot s.toml --unit 2 --out d",
        &mut inputs,
    );
    push_sales(rt, alloc, "pdgf unit s.toml --unit 3 --out d", &mut inputs);
    push_sales(rt, alloc, "pdgf unit s.toml --unit 4 --out d", &mut inputs);
    let mut wanted = Files::new(alloc);
    push_sales(rt, alloc, "pdgf snapshot s.toml --unit 4", &mut wanted);
    push_sales(
        rt,
        alloc,
        "pdgf snapshot s.toml --unit 4 --out o",
        &mut wanted,
    );
    let mut library = library_with(alloc, inputs);
    let mut made = Files::new(alloc);
    let words = "pdgf apply s.toml --from 2 --to 4 --in d";
    push_written(rt, alloc, &mut library, words, &mut made);
    let words = "pdgf apply s.toml --from 2 --to 4 --in d --out o";
    push_written(rt, alloc, &mut library, words, &mut made);
    assert_alike(rt, &made, &wanted);
}

#[test]
fn two_units_give_the_later_snapshot(rt: HostRuntime) {
    assert_two_units(&rt, rt.alloc());
}

const AT_FAULT: Run<'static> = Run {
    name: "an update of a key that isn't there, before an insertion of one that is",
    words: "pdgf apply s.toml --from 1 --to 2 --in d --out o",
    status: 9,
    message: "pdgf: apply: t.2.upd line 2: no such key\n",
    ..REFUSED
};

#[test]
fn the_first_fault_is_told_and_no_file_is_begun(rt: HostRuntime) {
    let mut files = Files::new(rt.alloc());
    push_all(
        &rt,
        &mut files,
        &[
            ("s.toml", ONE.as_bytes()),
            ("d/t.tbl", b"1\t0\n2\t1\n"),
            ("d/t.2.del", b""),
            ("d/t.2.upd", b"1\t2\n3\t2\n"),
            ("d/t.2.ins", b"2\t2\n"),
        ],
    );
    let mut library = library_with(rt.alloc(), files);
    check_run_over(&rt, rt.alloc(), &mut library, &AT_FAULT).expect(
        &rt,
        "a run as it is written down",
    );
}
