//! What requests write, as far as the shelf goes. The texts are worked out by hand from the rules.

use pd_outside::ShelfFail;
use run_cases::Held::Text;
use run_cases::schemas::{CHANGING, EMPTY, MORTAL, MOST_ROWS, ONE, ONE_SCRAMBLED, SALES, THREE};
use run_cases::{DONE, Held, ONE_AT_2, Run, STOPPED, check_runs};

const THREE_OUT: &str = "pdgf snapshot s.toml --unit 1 --out d";

// The three files that `THREE_OUT` asks for.
const A: (&str, Held<'static>) = ("d/a.tbl", Text("1\n2\n3\n"));

const B: (&str, Held<'static>) = ("d/b.tbl", Text("10\t0\n"));

const C: (&str, Held<'static>) = ("d/c.tbl", Text("0\t1\n1\t1\n"));

static FAILING: [Run<'static>; 10] = [
    Run {
        name: "one file",
        fail: ShelfFail::Begin(2),
        finished: &[("-", Text(ONE_AT_2))],
        ..DONE
    },
    Run {
        name: "one file, a byte at a time",
        fail: ShelfFail::Begin(2),
        step: 1,
        finished: &[("-", Text(ONE_AT_2))],
        ..DONE
    },
    Run {
        name: "no file",
        fail: ShelfFail::Begin(1),
        ..STOPPED
    },
    Run {
        name: "no line",
        fail: ShelfFail::Write(1),
        begun: Some("-"),
        ..STOPPED
    },
    Run {
        name: "one line",
        fail: ShelfFail::Write(5),
        step: 1,
        begun: Some("-"),
        begun_bytes: "1\t0\n",
        ..STOPPED
    },
    Run {
        name: "no end",
        fail: ShelfFail::End(1),
        begun: Some("-"),
        begun_bytes: ONE_AT_2,
        ..STOPPED
    },
    Run {
        name: "three files",
        schema: THREE,
        words: THREE_OUT,
        fail: ShelfFail::Begin(4),
        finished: &[A, B, C],
        ..DONE
    },
    Run {
        name: "no second file",
        schema: THREE,
        words: THREE_OUT,
        fail: ShelfFail::Begin(2),
        finished: &[A],
        ..STOPPED
    },
    Run {
        name: "an empty second file",
        schema: THREE,
        words: THREE_OUT,
        fail: ShelfFail::Write(7),
        step: 1,
        begun: Some("d/b.tbl"),
        finished: &[A],
        ..STOPPED
    },
    Run {
        name: "a line of the third file",
        schema: THREE,
        words: THREE_OUT,
        fail: ShelfFail::Write(16),
        step: 1,
        begun: Some("d/c.tbl"),
        begun_bytes: "0\t1\n",
        finished: &[A, B],
        ..STOPPED
    },
];

#[test]
fn files_are_written_as_far_as_the_shelf_goes(rt: HostRuntime) {
    check_runs(&rt, rt.alloc(), &FAILING).expect(&rt, "runs as they are written down");
}

static REQUESTS: [Run<'static>; 9] = [
    Run {
        name: "check one table",
        schema: ONE,
        words: "pdgf check s.toml",
        finished: &[("-", Text("t\t3\tnone\t1\t27\n"))],
        ..DONE
    },
    Run {
        name: "check scrambled keys",
        schema: ONE_SCRAMBLED,
        words: "pdgf check s.toml",
        finished: &[("-", Text("t\t3\tnone\t2\t27\n"))],
        ..DONE
    },
    Run {
        name: "scrambled keys in cohorts of one",
        schema: ONE_SCRAMBLED,
        words: "pdgf snapshot s.toml --unit 2",
        finished: &[("-", Text(ONE_AT_2))],
        ..DONE
    },
    Run {
        name: "check three tables",
        schema: THREE,
        words: "pdgf check s.toml",
        finished: &[(
            "-",
            Text("a\t3\tnone\t1\t21\nb\t1\tnone\t1\t27\nc\t2\tnone\t1\t27\n"),
        )],
        ..DONE
    },
    Run {
        name: "three tables in turn",
        schema: THREE,
        words: "pdgf snapshot s.toml --unit 1",
        finished: &[("-", Text("1\n2\n3\n10\t0\n0\t1\n1\t1\n"))],
        ..DONE
    },
    Run {
        name: "the second table alone",
        schema: THREE,
        words: "pdgf snapshot s.toml --table b --unit 1",
        finished: &[("-", Text("10\t0\n"))],
        ..DONE
    },
    Run {
        name: "the third table in a file",
        schema: THREE,
        words: "pdgf snapshot s.toml --out d --table c --unit 1",
        finished: &[("d/c.tbl", Text("0\t1\n1\t1\n"))],
        ..DONE
    },
    Run {
        name: "no row at the first unit",
        schema: THREE,
        words: "pdgf snapshot s.toml --unit 0 --table c",
        finished: &[("-", Text(""))],
        ..DONE
    },
    Run {
        name: "a table with no row",
        schema: EMPTY,
        words: "pdgf snapshot s.toml --unit 2 --out out",
        finished: &[("out/t.tbl", Text(""))],
        ..DONE
    },
];

#[test]
fn requests_come_to_their_files(rt: HostRuntime) {
    check_runs(&rt, rt.alloc(), &REQUESTS).expect(&rt, "runs as they are written down");
}

static REFERENCES: [Run<'static>; 4] = [
    Run {
        name: "check the sales",
        schema: SALES,
        words: "pdgf check s.toml",
        finished: &[(
            "-",
            Text("customer\t6\t3\t3\t33\norders\t6\t1\t5\t42\nlines\t6\t1\t6\t42\n"),
        )],
        ..DONE
    },
    Run {
        name: "the sales in files",
        schema: SALES,
        words: "pdgf snapshot s.toml --unit 2 --out out",
        finished: &[
            ("out/customer.tbl", Text("1\t0\t1\n2\t1\t2\n3\t2\t2\n")),
            ("out/orders.tbl", Text("1\t1\n2\t1\n3\t1\n")),
            ("out/lines.tbl", Text("1\t1\n2\t2\n3\t3\n")),
        ],
        ..DONE
    },
    Run {
        name: "a unit of the sales in files",
        schema: SALES,
        words: "pdgf unit s.toml --unit 3 --out out",
        finished: &[
            ("out/customer.3.del", Text("1\n")),
            ("out/customer.3.upd", Text("3\t2\t3\n")),
            ("out/customer.3.ins", Text("4\t3\t3\n")),
            ("out/orders.3.del", Text("1\n2\n3\n")),
            ("out/orders.3.upd", Text("")),
            ("out/orders.3.ins", Text("4\t2\n")),
            ("out/lines.3.del", Text("1\n2\n3\n")),
            ("out/lines.3.upd", Text("")),
            ("out/lines.3.ins", Text("4\t4\n")),
        ],
        ..DONE
    },
    Run {
        name: "a unit of the lines",
        schema: SALES,
        words: "pdgf unit s.toml --unit 3 --table lines",
        finished: &[("-", Text("1\n2\n3\n4\t4\n"))],
        ..DONE
    },
];

#[test]
fn references_come_to_their_files(rt: HostRuntime) {
    check_runs(&rt, rt.alloc(), &REFERENCES).expect(&rt, "runs as they are written down");
}

// Which rows are alive at each unit, and when they changed last.
static LIVES: [Run<'static>; 10] = [
    Run {
        name: "mortal at 0",
        schema: MORTAL,
        words: "pdgf snapshot s.toml --unit 0",
        finished: &[("-", Text("1\t0\n"))],
        ..DONE
    },
    Run {
        name: "mortal at 1",
        schema: MORTAL,
        words: "pdgf snapshot s.toml --unit 1",
        finished: &[("-", Text("1\t0\n2\t1\n"))],
        ..DONE
    },
    Run {
        name: "mortal at 2",
        schema: MORTAL,
        words: "pdgf snapshot s.toml --unit 2",
        finished: &[("-", Text("2\t1\n3\t2\n"))],
        ..DONE
    },
    Run {
        name: "changing at 0",
        schema: CHANGING,
        words: "pdgf snapshot s.toml --unit 0",
        finished: &[("-", Text("1\t0\t0\n"))],
        ..DONE
    },
    Run {
        name: "changing at 1",
        schema: CHANGING,
        words: "pdgf snapshot s.toml --unit 1",
        finished: &[("-", Text("1\t0\t1\n2\t1\t1\n"))],
        ..DONE
    },
    Run {
        name: "changing at 2",
        schema: CHANGING,
        words: "pdgf snapshot s.toml --unit 2",
        finished: &[("-", Text("1\t0\t1\n2\t1\t2\n3\t2\t2\n"))],
        ..DONE
    },
    Run {
        name: "changing at 3",
        schema: CHANGING,
        words: "pdgf snapshot s.toml --unit 3",
        finished: &[("-", Text("1\t0\t3\n2\t1\t2\n3\t2\t3\n4\t3\t3\n"))],
        ..DONE
    },
    Run {
        name: "changing at 4",
        schema: CHANGING,
        words: "pdgf snapshot s.toml --unit 4",
        finished: &[("-", Text("2\t1\t4\n3\t2\t3\n4\t3\t4\n5\t4\t4\n"))],
        ..DONE
    },
    Run {
        name: "check mortal",
        schema: MORTAL,
        words: "pdgf check s.toml",
        finished: &[("-", Text("t\t3\t2\t2\t27\n"))],
        ..DONE
    },
    Run {
        name: "check changing",
        schema: CHANGING,
        words: "pdgf check s.toml",
        finished: &[("-", Text("t\t5\t4\t3\t33\n"))],
        ..DONE
    },
];

#[test]
fn lives_and_changes_are_as_worked_out(rt: HostRuntime) {
    check_runs(&rt, rt.alloc(), &LIVES).expect(&rt, "runs as they are written down");
}

// What a unit deletes, updates and inserts, in one file and in a file each.
static UNITS: [Run<'static>; 8] = [
    Run {
        name: "mortal at 1",
        schema: MORTAL,
        words: "pdgf unit s.toml --unit 1",
        finished: &[("-", Text("2\t1\n"))],
        ..DONE
    },
    Run {
        name: "mortal at 2",
        schema: MORTAL,
        words: "pdgf unit s.toml --unit 2",
        finished: &[("-", Text("1\n3\t2\n"))],
        ..DONE
    },
    Run {
        name: "changing at 1",
        schema: CHANGING,
        words: "pdgf unit s.toml --unit 1",
        finished: &[("-", Text("1\t0\t1\n2\t1\t1\n"))],
        ..DONE
    },
    Run {
        name: "changing at 3",
        schema: CHANGING,
        words: "pdgf unit s.toml --unit 3",
        finished: &[("-", Text("1\t0\t3\n3\t2\t3\n4\t3\t3\n"))],
        ..DONE
    },
    Run {
        name: "changing at 4",
        schema: CHANGING,
        words: "pdgf unit s.toml --unit 4",
        finished: &[("-", Text("1\n2\t1\t4\n4\t3\t4\n5\t4\t4\n"))],
        ..DONE
    },
    Run {
        name: "changing at 4 in files",
        schema: CHANGING,
        words: "pdgf unit s.toml --unit 4 --out d",
        finished: &[
            ("d/t.4.del", Text("1\n")),
            ("d/t.4.upd", Text("2\t1\t4\n4\t3\t4\n")),
            ("d/t.4.ins", Text("5\t4\t4\n")),
        ],
        ..DONE
    },
    Run {
        name: "three at 1 in files",
        schema: THREE,
        words: "pdgf unit s.toml --unit 1 --out d",
        finished: &[
            ("d/a.1.del", Text("")),
            ("d/a.1.upd", Text("")),
            ("d/a.1.ins", Text("3\n")),
            ("d/b.1.del", Text("")),
            ("d/b.1.upd", Text("")),
            ("d/b.1.ins", Text("")),
            ("d/c.1.del", Text("")),
            ("d/c.1.upd", Text("")),
            ("d/c.1.ins", Text("0\t1\n1\t1\n")),
        ],
        ..DONE
    },
    Run {
        name: "the third of three in files",
        schema: THREE,
        words: "pdgf unit s.toml --table c --unit 1 --out d",
        finished: &[
            ("d/c.1.del", Text("")),
            ("d/c.1.upd", Text("")),
            ("d/c.1.ins", Text("0\t1\n1\t1\n")),
        ],
        ..DONE
    },
];

#[test]
fn changes_of_a_unit_are_as_worked_out(rt: HostRuntime) {
    check_runs(&rt, rt.alloc(), &UNITS).expect(&rt, "runs as they are written down");
}

// When a row is born and gone, how it stands at a unit, and what it holds if it is alive then.
static ROWS: [Run<'static>; 8] = [
    Run {
        name: "a living row",
        schema: SALES,
        words: "pdgf row s.toml --table customer --key 1 --unit 2",
        finished: &[(
            "-",
            Text("born 0\ngone 3\nstate live\nchanged 1\n1\t0\t1\n"),
        )],
        ..DONE
    },
    Run {
        name: "a row at its birth",
        schema: SALES,
        words: "pdgf row s.toml --unit 0 --key 1 --table customer",
        finished: &[(
            "-",
            Text("born 0\ngone 3\nstate live\nchanged 0\n1\t0\t0\n"),
        )],
        ..DONE
    },
    Run {
        name: "a row that is gone",
        schema: SALES,
        words: "pdgf row s.toml --table customer --key 1 --unit 3",
        finished: &[("-", Text("born 0\ngone 3\nstate dead\n"))],
        ..DONE
    },
    Run {
        name: "a row to be born",
        schema: SALES,
        words: "pdgf row s.toml --table customer --key 5 --unit 2",
        finished: &[("-", Text("born 4\ngone never\nstate unborn\n"))],
        ..DONE
    },
    Run {
        name: "a row that goes with its parent",
        schema: SALES,
        words: "pdgf row s.toml --table orders --key 4 --unit 3",
        finished: &[("-", Text("born 3\ngone 4\nstate live\nchanged 3\n4\t2\n"))],
        ..DONE
    },
    Run {
        name: "a row that went with its parent",
        schema: SALES,
        words: "pdgf row s.toml --table lines --key 4 --unit 4",
        finished: &[("-", Text("born 3\ngone 4\nstate dead\n"))],
        ..DONE
    },
    Run {
        name: "a row with a scrambled key",
        schema: ONE_SCRAMBLED,
        words: "pdgf row s.toml --table t --key 2 --unit 2",
        finished: &[(
            "-",
            Text("born 1\ngone never\nstate live\nchanged 1\n2\t1\n"),
        )],
        ..DONE
    },
    Run {
        name: "the last of most rows",
        schema: MOST_ROWS,
        words: "pdgf row s.toml --table t --key 1099511627776 --unit 0",
        finished: &[(
            "-",
            Text("born 0\ngone never\nstate live\nchanged 0\n1099511627776\n"),
        )],
        ..DONE
    },
];

#[test]
fn rows_are_told_as_worked_out(rt: HostRuntime) {
    check_runs(&rt, rt.alloc(), &ROWS).expect(&rt, "runs as they are written down");
}
