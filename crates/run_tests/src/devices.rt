//! Devices of which one call fails, and inputs that are at fault: what a run leaves then.

use pd_outside::{Files, LibraryFails, MemLibrary, ShelfFail};
use run_cases::Held::Text;
use run_cases::schemas::TRADE;
use run_cases::{DONE, Held, REFUSED, Run, STOPPED, check_run_over, check_runs, library_of};
use std::alloc::Global;
use std::process::Abort;
use std::thread::Threads;

const CUSTOMERS: (&str, Held<'static>) = ("out/customer.tbl", Text("1\t0\t1\n2\t1\t2\n3\t2\t2\n"));

const ORDERS: (&str, Held<'static>) = ("out/orders.tbl", Text("1\t1\n2\t1\n3\t1\n"));

const LINE_BY_LINE: &str = "pdgf snapshot s.toml --unit 2 --out out --workers 1 --package 1";

static WRITES: [Run<'static>; 6] = [
    Run {
        name: "the first file isn't begun",
        schema: TRADE,
        words: LINE_BY_LINE,
        fail: ShelfFail::Begin(1),
        ..STOPPED
    },
    Run {
        name: "its first line isn't written",
        schema: TRADE,
        words: LINE_BY_LINE,
        fail: ShelfFail::Write(1),
        begun: Some("out/customer.tbl"),
        ..STOPPED
    },
    Run {
        name: "it isn't ended",
        schema: TRADE,
        words: LINE_BY_LINE,
        fail: ShelfFail::End(1),
        begun: Some("out/customer.tbl"),
        begun_bytes: "1\t0\t1\n2\t1\t2\n3\t2\t2\n",
        ..STOPPED
    },
    Run {
        name: "the second file isn't begun",
        schema: TRADE,
        words: LINE_BY_LINE,
        fail: ShelfFail::Begin(2),
        finished: &[CUSTOMERS],
        ..STOPPED
    },
    Run {
        name: "its third line isn't written",
        schema: TRADE,
        words: LINE_BY_LINE,
        fail: ShelfFail::Write(6),
        begun: Some("out/orders.tbl"),
        begun_bytes: "1\t1\n2\t1\n",
        finished: &[CUSTOMERS],
        ..STOPPED
    },
    Run {
        name: "a byte at a time",
        schema: TRADE,
        words: LINE_BY_LINE,
        step: 1,
        finished: &[CUSTOMERS, ORDERS],
        ..DONE
    },
];

#[test]
fn a_failed_write_leaves_the_files_before_it(rt: HostRuntime) {
    check_runs(&rt, rt.alloc(), &WRITES).expect(&rt, "runs as they are written down");
}

const UNREAD: Run<'static> = Run {
    name: "a schema that isn't read",
    schema: TRADE,
    words: LINE_BY_LINE,
    status: 5,
    message: "pdgf: read failed\n",
    ..REFUSED
};

fn assert_asked_alone(rt: &impl Abort, library: &MemLibrary) {
    assert!(rt; library.asked_len() == 1 && library.asked_name(0) == "s.toml");
}

// The start of the schema and the first two reads fail in turn. The second read comes at the end of the schema's bytes.
#[test]
fn a_failed_read_begins_no_file(rt: HostRuntime) {
    for call in [1, 2, 3] {
        let schema = TRADE.as_bytes();
        let fail = ("s.toml", call);
        let mut library = library_of(rt.alloc(), schema, [None, None], fail).expect(&rt, "memory");
        check_run_over(&rt, rt.alloc(), &mut library, &UNREAD).expect(
            &rt,
            "a run as it is written down",
        );
        assert_asked_alone(&rt, &library);
    }
}

#[test]
fn an_absent_schema_begins_no_file(rt: HostRuntime) {
    let files = Files::new(rt.alloc());
    let mut library = MemLibrary::new(rt.alloc(), files, LibraryFails::new(rt.alloc()));
    check_run_over(&rt, rt.alloc(), &mut library, &UNREAD).expect(
        &rt,
        "a run as it is written down",
    );
    assert_asked_alone(&rt, &library);
}

// Returns the inputs of the step to unit 3. The input at the place `other` holds other bytes.
fn inputs_with(rt: &impl Abort, alloc: Global, other: usize, bytes: &str) -> MemLibrary {
    let mut files = Files::new(alloc);
    files.push("s.toml", TRADE.as_bytes()).expect(rt, "memory");
    for (place, (name, text)) in INPUTS.iter().enumerate() {
        let text = if place == other { bytes } else { *text };
        files.push(name, text.as_bytes()).expect(rt, "memory");
    }
    MemLibrary::new(alloc, files, LibraryFails::new(alloc))
}

static INPUTS: [(&str, &str); 8] = [
    ("d/customer.tbl", "1\t0\t1\n2\t1\t2\n3\t2\t2\n"),
    ("d/customer.3.del", "1\n"),
    ("d/customer.3.upd", "3\t2\t3\n"),
    ("d/customer.3.ins", "4\t3\t3\n"),
    ("d/orders.tbl", "1\t1\n2\t1\n3\t1\n"),
    ("d/orders.3.del", "1\n2\n3\n"),
    ("d/orders.3.upd", ""),
    ("d/orders.3.ins", "4\t2\n"),
];

const UNAPPLIED: Run<'static> = Run {
    name: "an input that can't be applied",
    words: "pdgf apply s.toml --from 2 --to 3 --in d --out out",
    status: 9,
    ..REFUSED
};

static AT_FAULT: [(usize, &str, &str); 3] = [
    (
        5,
        "1\n1\n",
        "pdgf: apply: orders.3.del line 2: double key\n",
    ),
    (
        2,
        "3\t2\t3",
        "pdgf: apply: customer.3.upd line 1: bad line\n",
    ),
    (
        3,
        "3\t3\t3\n",
        "pdgf: apply: customer.3.ins line 1: key exists\n",
    ),
];

fn assert_unapplied<R: Threads + Sync + Abort>(
    rt: &R,
    alloc: Global,
    place: usize,
    bytes: &str,
    message: &str,
) {
    let mut library = inputs_with(rt, alloc, place, bytes);
    let run = Run {
        message,
        ..UNAPPLIED
    };
    check_run_over(rt, alloc, &mut library, &run).expect(rt, "a run as it is written down");
}

#[test]
fn inputs_at_fault_are_told_and_no_file_is_begun(rt: HostRuntime) {
    for (place, bytes, message) in &AT_FAULT {
        assert_unapplied(&rt, rt.alloc(), *place, bytes, message);
    }
}

fn assert_cut<R: Threads + Sync + Abort>(rt: &R, alloc: Global, size: usize, message: &str) {
    let schema = TRADE.as_bytes();
    let cut = &schema[..size.min(schema.len())];
    let mut library = library_of(alloc, cut, [None, None], ("", 1)).expect(rt, "memory");
    let run = Run {
        name: "a schema that is cut",
        words: LINE_BY_LINE,
        status: 3,
        message,
        ..REFUSED
    };
    check_run_over(rt, alloc, &mut library, &run).expect(rt, "a run as it is written down");
}

// Returns what is told of the text cut after `size` bytes. After a whole line the next required key is missing.
fn told_of_cut(size: usize) -> &'static str {
    match size {
        8 | 9 => "pdgf: schema: top key units: expected whole number\n",
        18 | 19 => "pdgf: schema: top key table: expected list of tables\n",
        28 | 29 => "pdgf: schema: table 1 key name: expected text\n",
        46 | 47 => "pdgf: schema: table 1 key rows: expected whole number\n",
        55 | 56 => "pdgf: schema: table 1 key column: expected list of tables\n",
        _ => "pdgf: schema: not TOML\n",
    }
}

#[test]
fn a_schema_that_is_cut_is_refused(rt: HostRuntime) {
    for size in 1..61 {
        assert_cut(&rt, rt.alloc(), size, told_of_cut(size));
    }
}
