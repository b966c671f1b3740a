//! Modes details and details-unit over files in memory: the text of a detail table at a unit, what a unit changes in it, and what
//! is refused. Any number of workers and any package size give the same. The texts are worked out by hand.

use crate::details_applied::assert_details;
use run_cases::{DONE, Held, REFUSED, Run};

const AT_2: &str = "1\t1\t5\n1\t2\t5\n2\t1\t5\n2\t2\t5\n3\t1\t5\n3\t2\t5\n";

const CHANGED_AT_3: [(&str, Held<'static>); 3] = [
    ("o/item.3.del", Held::Text("1\t1\n1\t2\n")),
    ("o/item.3.upd", Held::Text("3\t1\t5\n3\t2\t5\n")),
    ("o/item.3.ins", Held::Text("4\t1\t5\n4\t2\t5\n")),
];

const TEXTS: [Run<'static>; 5] = [
    Run {
        name: "a text, on the standard output",
        words: "pdgf details s.toml --spec i.toml --unit 2",
        finished: &[("-", Held::Text(AT_2))],
        ..DONE
    },
    Run {
        name: "a text, in a directory, by one worker in packages of one row",
        words: "pdgf details s.toml --spec i.toml --unit 2 --out o --workers 1 --package 1",
        finished: &[("o/item.tbl", Held::Text(AT_2))],
        ..DONE
    },
    Run {
        name: "a text, by three workers in packages of two rows",
        words: "pdgf details s.toml --spec i.toml --unit 2 --workers 3 --package 2",
        finished: &[("-", Held::Text(AT_2))],
        ..DONE
    },
    Run {
        name: "what a unit changes, in a directory",
        words: "pdgf details-unit s.toml --spec i.toml --unit 3 --out o",
        finished: &CHANGED_AT_3,
        ..DONE
    },
    Run {
        name: "what a unit changes, on the standard output",
        words: "pdgf details-unit s.toml --spec i.toml --unit 3 --workers 2 --package 1",
        finished: &[(
            "-",
            Held::Text("1\t1\n1\t2\n3\t1\t5\n3\t2\t5\n4\t1\t5\n4\t2\t5\n"),
        )],
        ..DONE
    },
];

#[test]
fn lines_and_changes_are_told(rt: HostRuntime) {
    assert_details(&rt, rt.alloc(), b"", &TEXTS);
}

const REFUSALS: [Run<'static>; 7] = [
    Run {
        name: "65 lines, before a unit out of its range",
        words: "pdgf details s.toml --spec many.toml --unit 99",
        status: 4,
        message: "pdgf: rule E3\n",
        ..REFUSED
    },
    Run {
        name: "a declaration that is no TOML",
        words: "pdgf details-unit s.toml --spec none.toml --unit 3 --out o",
        status: 3,
        message: "pdgf: details: not TOML\n",
        ..REFUSED
    },
    Run {
        name: "no declaration",
        words: "pdgf details s.toml --spec absent.toml --unit 2",
        status: 5,
        message: "pdgf: read failed\n",
        ..REFUSED
    },
    Run {
        name: "a unit past the last",
        words: "pdgf details s.toml --spec i.toml --unit 9",
        status: 8,
        message: "pdgf: out of range: --unit\n",
        ..REFUSED
    },
    Run {
        name: "a unit past the last, of which the changes are asked",
        words: "pdgf details-unit s.toml --spec i.toml --unit 9",
        status: 8,
        message: "pdgf: out of range: --unit\n",
        ..REFUSED
    },
    Run {
        name: "unit 0, which changes nothing",
        words: "pdgf details-unit s.toml --spec i.toml --unit 0",
        status: 8,
        message: "pdgf: out of range: --unit\n",
        ..REFUSED
    },
    Run {
        name: "packages that the pages don't take",
        words: "pdgf details s.toml --spec i.toml --unit 2 --workers 64 --package 1000000",
        status: 8,
        message: "pdgf: out of range: --package\n",
        ..REFUSED
    },
];

#[test]
fn what_is_asked_wrongly_is_refused(rt: HostRuntime) {
    assert_details(&rt, rt.alloc(), b"", &REFUSALS);
}
