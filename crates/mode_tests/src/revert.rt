//! Mode revert over files in memory. A unit's undo texts and the texts at the unit give the earlier snapshot, and an input at fault
//! is told.

use pd_outside::{Files, LibraryFails, MemLibrary};
use run_cases::Held::Text;
use run_cases::schemas::TRADE;
use run_cases::{DONE, REFUSED, Run, check_run_over};
use std::alloc::Global;
use std::process::Abort;
use std::thread::Threads;

const CUSTOMER_UNDO: &str = "drop\t4\nset\t3\t2\t2\nadd\t0\t1\t0\t1\n";

// Returns the inputs for going back from unit 3 to unit 2. The customers' undo text has the given bytes.
fn inputs_with(rt: &impl Abort, alloc: Global, customer_undo: &str) -> MemLibrary {
    let mut files = Files::new(alloc);
    for (name, text) in &[
        ("s.toml", TRADE),
        ("d/customer.tbl", "2\t1\t2\n3\t2\t3\n4\t3\t3\n"),
        ("d/customer.3.undo", customer_undo),
        ("d/orders.tbl", "4\t2\n"),
        (
            "d/orders.3.undo",
            "drop\t4\nadd\t0\t1\t1\nadd\t1\t2\t1\nadd\t2\t3\t1\n",
        ),
    ] {
        files.push(name, text.as_bytes()).expect(rt, "memory");
    }
    MemLibrary::new(alloc, files, LibraryFails::new(alloc))
}

fn assert_reverts<R: Threads + Sync + Abort>(rt: &R, alloc: Global, undo: &str, run: &Run) {
    let mut library = inputs_with(rt, alloc, undo);
    check_run_over(rt, alloc, &mut library, run).expect(rt, "a run as it is written down");
}

static BACK: [Run<'static>; 3] = [
    Run {
        name: "both tables in a directory",
        words: "pdgf revert s.toml --from 3 --to 2 --in d --out out",
        finished: &[
            ("out/customer.tbl", Text("1\t0\t1\n2\t1\t2\n3\t2\t2\n")),
            ("out/orders.tbl", Text("1\t1\n2\t1\n3\t1\n")),
        ],
        ..DONE
    },
    Run {
        name: "one table on the standard output",
        words: "pdgf revert s.toml --from 3 --to 2 --in d --table orders",
        finished: &[("-", Text("1\t1\n2\t1\n3\t1\n"))],
        ..DONE
    },
    Run {
        name: "no unit is undone",
        words: "pdgf revert s.toml --from 3 --to 3 --in d --table orders",
        finished: &[("-", Text("4\t2\n"))],
        ..DONE
    },
];

#[test]
fn the_earlier_snapshot_is_made(rt: HostRuntime) {
    for run in &BACK {
        assert_reverts(&rt, rt.alloc(), CUSTOMER_UNDO, run);
    }
}

const UNDONE: Run<'static> = Run {
    name: "an undo text at fault",
    words: "pdgf revert s.toml --from 3 --to 2 --in d --out out",
    status: 9,
    ..REFUSED
};

static AT_FAULT: [(&str, &str); 3] = [
    (
        "drop\t4\nset\t3\t2\t2\nadd\t9\t1\t0\t1\n",
        "pdgf: revert: customer.3.undo line 3: bad place\n",
    ),
    (
        "drop\t4\ndrop\t1\n",
        "pdgf: revert: customer.3.undo line 2: no such key\n",
    ),
    (
        "set\t3\t2\t2\ndrop\t4\n",
        "pdgf: revert: customer.3.undo line 2: bad line\n",
    ),
];

fn assert_undone<R: Threads + Sync + Abort>(rt: &R, alloc: Global, undo: &str, message: &str) {
    let run = Run { message, ..UNDONE };
    assert_reverts(rt, alloc, undo, &run);
}

#[test]
fn undo_texts_at_fault_are_told_and_no_file_is_begun(rt: HostRuntime) {
    for (undo, message) in &AT_FAULT {
        assert_undone(&rt, rt.alloc(), undo, message);
    }
}

const OUT_OF_RANGE: Run<'static> = Run {
    status: 8,
    ..REFUSED
};

static RANGES: [Run<'static>; 3] = [
    Run {
        name: "the later unit first",
        words: "pdgf revert s.toml --from 99 --to 100 --in d --table none",
        message: "pdgf: out of range: --from\n",
        ..OUT_OF_RANGE
    },
    Run {
        name: "then the earlier one",
        words: "pdgf revert s.toml --from 2 --to 3 --in d --table none",
        message: "pdgf: out of range: --to\n",
        ..OUT_OF_RANGE
    },
    Run {
        name: "then the table",
        words: "pdgf revert s.toml --from 3 --to 2 --in d --table none",
        message: "pdgf: out of range: --table\n",
        ..OUT_OF_RANGE
    },
];

#[test]
fn units_and_tables_out_of_range_are_told_in_order(rt: HostRuntime) {
    for run in &RANGES {
        assert_reverts(&rt, rt.alloc(), CUSTOMER_UNDO, run);
    }
}
