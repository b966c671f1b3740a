//! Jobs by several workers, with packages of other sizes, and in shares: the same bytes. The texts are worked out by hand from the
//! rules.

use pd_outside::{Gate, MemShelf, ShelfFail, ShelfFails};
use pdgf_run::{Report, default_package, pdgf};
use run_cases::Held::Text;
use run_cases::schemas::SALES;
use run_cases::{DONE, Held, REFUSED, Run, STOPPED, check_runs, idle_keeper, library_of, words_of};
use std::process::Abort;
use std::sync::atomic::{AtomicU64, Ordering};
use std::thread::Threads;

const CUSTOMERS: (&str, Held<'static>) = ("out/customer.tbl", Text("1\t0\t1\n2\t1\t2\n3\t2\t2\n"));

const SNAPSHOT: [(&str, Held<'static>); 3] = [
    CUSTOMERS,
    ("out/orders.tbl", Text("1\t1\n2\t1\n3\t1\n")),
    ("out/lines.tbl", Text("1\t1\n2\t2\n3\t3\n")),
];

const UNIT: [(&str, Held<'static>); 9] = [
    ("out/customer.3.del", Text("1\n")),
    ("out/customer.3.upd", Text("3\t2\t3\n")),
    ("out/customer.3.ins", Text("4\t3\t3\n")),
    ("out/orders.3.del", Text("1\n2\n3\n")),
    ("out/orders.3.upd", Text("")),
    ("out/orders.3.ins", Text("4\t2\n")),
    ("out/lines.3.del", Text("1\n2\n3\n")),
    ("out/lines.3.upd", Text("")),
    ("out/lines.3.ins", Text("4\t4\n")),
];

const WHOLE_SNAPSHOT: Run<'static> = Run {
    schema: SALES,
    finished: &SNAPSHOT,
    ..DONE
};

static SNAPSHOTS: [Run<'static>; 7] = [
    Run {
        name: "one worker, a row at a time",
        words: "pdgf snapshot s.toml --unit 2 --out out --workers 1 --package 1",
        ..WHOLE_SNAPSHOT
    },
    Run {
        name: "one worker, two rows at a time",
        words: "pdgf snapshot s.toml --unit 2 --out out --workers 1 --package 2",
        ..WHOLE_SNAPSHOT
    },
    Run {
        name: "one worker, all rows at once",
        words: "pdgf snapshot s.toml --unit 2 --out out --workers 1 --package 1000",
        ..WHOLE_SNAPSHOT
    },
    Run {
        name: "three workers, a row at a time",
        words: "pdgf snapshot s.toml --unit 2 --out out --workers 3 --package 1",
        ..WHOLE_SNAPSHOT
    },
    Run {
        name: "three workers, two rows at a time",
        words: "pdgf snapshot s.toml --unit 2 --out out --workers 3 --package 2",
        ..WHOLE_SNAPSHOT
    },
    Run {
        name: "more workers than rows",
        words: "pdgf snapshot s.toml --unit 2 --out out --workers 64 --package 1",
        ..WHOLE_SNAPSHOT
    },
    Run {
        name: "more workers than packages",
        words: "pdgf snapshot s.toml --unit 2 --out out --workers 64 --package 1000",
        ..WHOLE_SNAPSHOT
    },
];

const WHOLE_UNIT: Run<'static> = Run {
    schema: SALES,
    finished: &UNIT,
    ..DONE
};

static UNITS: [Run<'static>; 7] = [
    Run {
        name: "one worker, a row at a time",
        words: "pdgf unit s.toml --unit 3 --out out --workers 1 --package 1",
        ..WHOLE_UNIT
    },
    Run {
        name: "one worker, two rows at a time",
        words: "pdgf unit s.toml --unit 3 --out out --workers 1 --package 2",
        ..WHOLE_UNIT
    },
    Run {
        name: "one worker, all rows at once",
        words: "pdgf unit s.toml --unit 3 --out out --workers 1 --package 1000",
        ..WHOLE_UNIT
    },
    Run {
        name: "three workers, a row at a time",
        words: "pdgf unit s.toml --unit 3 --out out --workers 3 --package 1",
        ..WHOLE_UNIT
    },
    Run {
        name: "three workers, two rows at a time",
        words: "pdgf unit s.toml --unit 3 --out out --workers 3 --package 2",
        ..WHOLE_UNIT
    },
    Run {
        name: "more workers than rows",
        words: "pdgf unit s.toml --unit 3 --out out --workers 64 --package 1",
        ..WHOLE_UNIT
    },
    Run {
        name: "more workers than packages",
        words: "pdgf unit s.toml --unit 3 --out out --workers 64 --package 1000",
        ..WHOLE_UNIT
    },
];

#[test]
fn workers_and_packages_give_the_same_bytes(rt: HostRuntime) {
    check_runs(&rt, rt.alloc(), &SNAPSHOTS).expect(&rt, "runs as they are written down");
    check_runs(&rt, rt.alloc(), &UNITS).expect(&rt, "runs as they are written down");
}

static SHARES: [Run<'static>; 6] = [
    Run {
        name: "the first third of the customers, where the first is gone",
        schema: SALES,
        words: "pdgf snapshot s.toml --unit 3 --table customer --node 0 --nodes 3",
        finished: &[("-", Text(""))],
        ..DONE
    },
    Run {
        name: "the second third",
        schema: SALES,
        words: "pdgf snapshot s.toml --unit 3 --table customer --node 1 --nodes 3",
        finished: &[("-", Text("2\t1\t2\n"))],
        ..DONE
    },
    Run {
        name: "the third third",
        schema: SALES,
        words: "pdgf snapshot s.toml --unit 3 --table customer --node 2 --nodes 3 --package 1",
        finished: &[("-", Text("3\t2\t3\n4\t3\t3\n"))],
        ..DONE
    },
    Run {
        name: "the first half of a unit",
        schema: SALES,
        words: "pdgf unit s.toml --unit 3 --nodes 2",
        finished: &[("-", Text("1\n1\n"))],
        ..DONE
    },
    Run {
        name: "the second half of a unit",
        schema: SALES,
        words: "pdgf unit s.toml --unit 3 --table orders --node 1 --nodes 2 --out out",
        finished: &[
            ("out/orders.3.del", Text("2\n3\n")),
            ("out/orders.3.upd", Text("")),
            ("out/orders.3.ins", Text("4\t2\n")),
        ],
        ..DONE
    },
    Run {
        name: "one of more nodes than rows",
        schema: SALES,
        words: "pdgf snapshot s.toml --unit 2 --table orders --node 1023 --nodes 1024",
        finished: &[("-", Text("3\t1\n"))],
        ..DONE
    },
];

#[test]
fn nodes_have_their_shares(rt: HostRuntime) {
    check_runs(&rt, rt.alloc(), &SHARES).expect(&rt, "runs as they are written down");
}

// The longest line of the tables has 42 bytes: 8 * 64 * 3,120 * 42 is 67,092,480.
static RANGES: [Run<'static>; 5] = [
    Run {
        name: "as large as packages may be",
        schema: SALES,
        words: "pdgf snapshot s.toml --unit 2 --out out --workers 64 --package 3120",
        finished: &SNAPSHOT,
        ..DONE
    },
    Run {
        name: "a package too large",
        schema: SALES,
        words: "pdgf snapshot s.toml --unit 2 --workers 64 --package 3121",
        status: 8,
        message: "pdgf: out of range: --package\n",
        ..REFUSED
    },
    Run {
        name: "a node that is none",
        schema: SALES,
        words: "pdgf snapshot s.toml --unit 2 --workers 64 --package 3121 --node 3 --nodes 3",
        status: 8,
        message: "pdgf: out of range: --node\n",
        ..REFUSED
    },
    Run {
        name: "a second node of one",
        schema: SALES,
        words: "pdgf unit s.toml --unit 2 --node 1",
        status: 8,
        message: "pdgf: out of range: --node\n",
        ..REFUSED
    },
    Run {
        name: "a table before a node",
        schema: SALES,
        words: "pdgf unit s.toml --unit 2 --node 1 --table bills",
        status: 8,
        message: "pdgf: out of range: --table\n",
        ..REFUSED
    },
];

#[test]
fn nodes_and_packages_are_within_their_ranges(rt: HostRuntime) {
    check_runs(&rt, rt.alloc(), &RANGES).expect(&rt, "runs as they are written down");
    assert_eq!(rt; default_package(4, 42), 1000);
    assert_eq!(rt; default_package(64, 65_536), 2);
}

static FAILING: [Run<'static>; 3] = [
    Run {
        name: "the third line",
        schema: SALES,
        words: "pdgf snapshot s.toml --unit 2 --out out --workers 1 --package 1",
        fail: ShelfFail::Write(3),
        begun: Some("out/customer.tbl"),
        begun_bytes: "1\t0\t1\n2\t1\t2\n",
        ..STOPPED
    },
    Run {
        name: "the third line of the second file, by three workers",
        schema: SALES,
        words: "pdgf snapshot s.toml --unit 2 --out out --workers 3 --package 1",
        fail: ShelfFail::Write(6),
        begun: Some("out/orders.tbl"),
        begun_bytes: "1\t1\n2\t1\n",
        finished: &[CUSTOMERS],
        ..STOPPED
    },
    Run {
        name: "the second file, by three workers",
        schema: SALES,
        words: "pdgf snapshot s.toml --unit 2 --out out --workers 3 --package 1",
        fail: ShelfFail::Begin(2),
        finished: &[CUSTOMERS],
        ..STOPPED
    },
];

#[test]
fn files_of_workers_are_written_as_far_as_the_shelf_goes(rt: HostRuntime) {
    check_runs(&rt, rt.alloc(), &FAILING).expect(&rt, "runs as they are written down");
}

const EIGHT: &str = r#"seed = 1
units = 0
[[table]]
name = "t"
rows = 8
[[table.column]]
name = "id"
kind = "key"
base = 1
"#;

/// A gate that holds the package that enters first, until a number of others have entered.
#[derive(Drop)]
struct HoldingGate {
    others: u64,
    entered: AtomicU64,
    /// How often each of eight packages entered, a byte each.
    times: AtomicU64,
    given_up: AtomicU64,
}

impl Gate for HoldingGate {
    fn enter(&self, package: u64) {
        let byte = if package < 8 { 1 << (8 * package) } else { 2 };
        self.times.fetch_add(byte, Ordering::SeqCst);
        if self.entered.fetch_add(1, Ordering::SeqCst) == 0 {
            self.hold();
        }
    }
}

impl HoldingGate {
    fn hold(&self) {
        for _ in 0..1_000_000_000u64 {
            if self.entered.load(Ordering::SeqCst) > self.others {
                return;
            }
        }
        self.given_up.store(1, Ordering::SeqCst);
    }
}

// Runs eight packages by two workers. The gate holds the package that enters first.
fn assert_held<R: Threads + Sync + Abort>(rt: &R, alloc: std::alloc::Global, others: u64) {
    let gate = HoldingGate {
        others,
        entered: AtomicU64::new(0),
        times: AtomicU64::new(0),
        given_up: AtomicU64::new(0),
    };
    let mut library = library_of(alloc, EIGHT.as_bytes(), [None, None], ("", 1)).expect(
        rt, "memory",
    );
    let mut shelf = MemShelf::new(alloc, ShelfFails::new(alloc), 1000);
    assert!(rt; shelf.begun().is_none());
    let words = "pdgf snapshot s.toml --unit 0 --workers 2 --package 1";
    let words = words_of(alloc, words).expect(rt, "memory");
    let mut keeper = idle_keeper(alloc);
    let Report { status, .. } = pdgf(
        rt,
        alloc,
        &words,
        &mut library,
        &mut shelf,
        &gate,
        &mut keeper,
    );
    assert_eq!(rt; status, 0);
    let files = shelf.finished();
    assert!(rt; files.len() == 1 && files.bytes(0) == b"1\n2\n3\n4\n5\n6\n7\n8\n".as_slice());
    assert_eq!(rt; gate.given_up.load(Ordering::SeqCst), 0, "no other entered");
    assert_eq!(rt;
        gate.times.load(Ordering::SeqCst),
        0x0101_0101_0101_0101,
        "each once"
    );
}

#[test]
fn two_packages_are_made_at_once(rt: HostRuntime) {
    assert_held(&rt, rt.alloc(), 1);
}

#[test]
fn a_free_worker_takes_what_a_held_one_leaves(rt: HostRuntime) {
    assert_held(&rt, rt.alloc(), 5);
}
