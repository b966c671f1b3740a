//! Mode undo over files in memory. The texts are worked out by hand from the rules.

use run_cases::Held::Text;
use run_cases::schemas::SALES;
use run_cases::{DONE, Held, REFUSED, Run, check_runs};

const CUSTOMERS: &str = "drop\t4\nset\t3\t2\t2\nadd\t0\t1\t0\t1\n";

const FILES: [(&str, Held<'static>); 3] = [
    ("d/customer.3.undo", Text(CUSTOMERS)),
    (
        "d/orders.3.undo",
        Text("drop\t4\nadd\t0\t1\t1\nadd\t1\t2\t1\nadd\t2\t3\t1\n"),
    ),
    (
        "d/lines.3.undo",
        Text("drop\t4\nadd\t0\t1\t1\nadd\t1\t2\t2\nadd\t2\t3\t3\n"),
    ),
];

const WHOLE: Run<'static> = Run {
    schema: SALES,
    finished: &FILES,
    ..DONE
};

static RUNS: [Run<'static>; 5] = [
    Run {
        name: "all tables",
        words: "pdgf undo s.toml --unit 3 --out d",
        ..WHOLE
    },
    Run {
        name: "a line at a time by three workers",
        words: "pdgf undo s.toml --unit 3 --out d --workers 3 --package 1",
        ..WHOLE
    },
    Run {
        name: "two lines at a time",
        words: "pdgf undo s.toml --unit 3 --out d --package 2",
        ..WHOLE
    },
    Run {
        name: "one table",
        words: "pdgf undo s.toml --unit 3 --table customer",
        finished: &[("-", Text(CUSTOMERS))],
        ..WHOLE
    },
    Run {
        name: "all tables in one",
        words: "pdgf undo s.toml --unit 1",
        finished: &[("-", Text("drop\t2\nset\t1\t0\t0\ndrop\t2\ndrop\t2\n"))],
        ..WHOLE
    },
];

static REFUSALS: [Run<'static>; 5] = [
    Run {
        name: "unit 0, of no table",
        words: "pdgf undo s.toml --unit 0 --table x",
        message: "pdgf: out of range: --unit\n",
        ..OUT_OF_RANGE
    },
    Run {
        name: "a unit past the last",
        words: "pdgf undo s.toml --unit 6",
        message: "pdgf: out of range: --unit\n",
        ..OUT_OF_RANGE
    },
    Run {
        name: "no table, with packages that are too large",
        words: "pdgf undo s.toml --unit 3 --table x --package 1000000 --workers 64",
        message: "pdgf: out of range: --table\n",
        ..OUT_OF_RANGE
    },
    Run {
        name: "packages that the longer lines make too large",
        words: "pdgf undo s.toml --unit 3 --package 130000 --workers 1",
        message: "pdgf: out of range: --package\n",
        ..OUT_OF_RANGE
    },
    Run {
        name: "a node",
        words: "pdgf undo s.toml --unit 3 --node 0",
        status: 2,
        message: "pdgf: usage: unwanted --node\n",
        ..OUT_OF_RANGE
    },
];

const OUT_OF_RANGE: Run<'static> = Run {
    schema: SALES,
    status: 8,
    ..REFUSED
};

#[test]
fn units_are_undone_table_by_table(rt: HostRuntime) {
    check_runs(&rt, rt.alloc(), &RUNS).expect(&rt, "runs as they are written down");
}

#[test]
fn what_is_out_of_range_is_told(rt: HostRuntime) {
    check_runs(&rt, rt.alloc(), &REFUSALS).expect(&rt, "runs as they are written down");
}
