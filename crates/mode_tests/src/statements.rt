//! Rows and changes as statements of SQL, over files in memory. The statements are worked out by hand from the rules.

use run_cases::Held::Text;
use run_cases::schemas::{ONE, TRADE};
use run_cases::{DONE, Held, REFUSED, Run, check_runs};

const CUSTOMER_AT_0: &str = "INSERT INTO \"customer\" VALUES (1, 0, 0);\n";

const AT_0: &str = "INSERT INTO \"customer\" VALUES (1, 0, 0);
INSERT INTO \"orders\" VALUES (1, 1);
";

const UPDATED: &str = "UPDATE \"customer\" SET \"born\" = 2, \"changed\" = 3 WHERE \"id\" = 3;\n";

const DELETED: &str = "DELETE FROM \"customer\" WHERE \"id\" = 1;\n";

const INSERTED: &str = "INSERT INTO \"customer\" VALUES (4, 3, 3);\n";

const UNIT_3: &str = "UPDATE \"customer\" SET \"born\" = 2, \"changed\" = 3 WHERE \"id\" = 3;
DELETE FROM \"orders\" WHERE \"id\" = 1;
DELETE FROM \"orders\" WHERE \"id\" = 2;
DELETE FROM \"orders\" WHERE \"id\" = 3;
DELETE FROM \"customer\" WHERE \"id\" = 1;
INSERT INTO \"customer\" VALUES (4, 3, 3);
INSERT INTO \"orders\" VALUES (4, 2);
";

const FILES: [(&str, Held<'static>); 6] = [
    ("d/customer.3.del.sql", Text(DELETED)),
    ("d/customer.3.upd.sql", Text(UPDATED)),
    ("d/customer.3.ins.sql", Text(INSERTED)),
    (
        "d/orders.3.del.sql",
        Text(
            "DELETE FROM \"orders\" WHERE \"id\" = 1;
DELETE FROM \"orders\" WHERE \"id\" = 2;
DELETE FROM \"orders\" WHERE \"id\" = 3;
",
        ),
    ),
    ("d/orders.3.upd.sql", Text("")),
    (
        "d/orders.3.ins.sql",
        Text("INSERT INTO \"orders\" VALUES (4, 2);\n"),
    ),
];

const WHOLE: Run<'static> = Run {
    schema: TRADE,
    ..DONE
};

static RUNS: [Run<'static>; 7] = [
    Run {
        name: "a snapshot, in the largest packages",
        words: "pdgf snapshot s.toml --unit 0 --format sql --workers 64 --package 471",
        finished: &[("-", Text(AT_0))],
        ..WHOLE
    },
    Run {
        name: "a snapshot in a directory",
        words: "pdgf snapshot s.toml --unit 0 --format sql --table customer --out d",
        finished: &[("d/customer.sql", Text(CUSTOMER_AT_0))],
        ..WHOLE
    },
    Run {
        name: "a unit, a row at a time by three workers",
        words: "pdgf unit s.toml --unit 3 --format sql --workers 3 --package 1",
        finished: &[("-", Text(UNIT_3))],
        ..WHOLE
    },
    Run {
        name: "a unit in a directory, table by table",
        words: "pdgf unit s.toml --unit 3 --format sql --out d",
        finished: &FILES,
        ..WHOLE
    },
    Run {
        name: "the share of the first node",
        words: "pdgf unit s.toml --unit 3 --format sql --nodes 2 --node 0",
        finished: &[("-", Text("DELETE FROM \"orders\" WHERE \"id\" = 1;\n"))],
        ..WHOLE
    },
    Run {
        name: "one table of a unit that only inserts",
        words: "pdgf unit s.toml --unit 2 --format sql --table orders",
        finished: &[("-", Text("INSERT INTO \"orders\" VALUES (3, 1);\n"))],
        ..WHOLE
    },
    Run {
        name: "a table that grows",
        schema: ONE,
        words: "pdgf unit s.toml --unit 2 --format sql",
        finished: &[("-", Text("INSERT INTO \"t\" VALUES (3, 2);\n"))],
        ..DONE
    },
];

static REFUSALS: [Run<'static>; 4] = [
    Run {
        name: "packages that statements make too large",
        schema: TRADE,
        words: "pdgf snapshot s.toml --unit 0 --format sql --workers 64 --package 472",
        status: 8,
        message: "pdgf: out of range: --package\n",
        ..REFUSED
    },
    Run {
        name: "no node, with such packages",
        schema: TRADE,
        words: "pdgf unit s.toml --unit 1 --format sql --node 1 --workers 64 --package 472",
        status: 8,
        message: "pdgf: out of range: --node\n",
        ..REFUSED
    },
    Run {
        name: "statements that are to be read",
        words: "pdgf apply s.toml --from 2 --to 2 --in d --format sql --header x",
        status: 2,
        message: "pdgf: usage: bad format\n",
        ..REFUSED
    },
    Run {
        name: "names before statements",
        words: "pdgf snapshot s.toml --unit 2 --format sql --header names",
        status: 2,
        message: "pdgf: usage: unwanted --header\n",
        ..REFUSED
    },
];

#[test]
fn statements_are_written_in_order(rt: HostRuntime) {
    check_runs(&rt, rt.alloc(), &RUNS).expect(&rt, "runs as they are written down");
}

#[test]
fn what_cannot_be_stated_is_refused(rt: HostRuntime) {
    check_runs(&rt, rt.alloc(), &REFUSALS).expect(&rt, "runs as they are written down");
}
