//! Mode details-apply over files in memory. A unit's streams of a detail table give its later text, and an input at fault is told.
//! The texts are worked out by hand.

use pd_outside::{Files, LibraryFails, MemLibrary};
use run_cases::schemas::TRADE;
use run_cases::{DONE, Held, REFUSED, Run, check_run_over};
use std::alloc::Global;
use std::process::Abort;
use std::thread::Threads;

/// Two lines for each customer, each with the quantity 5.
const ITEMS: &[u8] = br#"seed = 1
name = "item"
parent = "customer"
lo = 2
hi = 2

[[column]]
name = "qty"
kind = "int"
lo = 5
hi = 5
"#;

/// From 2 to 65 lines for each customer: more than a row can have.
const TOO_MANY: &[u8] = br#"seed = 1
name = "item"
parent = "customer"
lo = 2
hi = 65

[[column]]
name = "qty"
kind = "int"
lo = 5
hi = 5
"#;

const AT_2: &[u8] = b"1\t1\t5\n1\t2\t5\n2\t1\t5\n2\t2\t5\n3\t1\t5\n3\t2\t5\n";

const AT_3: &str = "2\t1\t5\n2\t2\t5\n3\t1\t5\n3\t2\t5\n4\t1\t5\n4\t2\t5\n";

// Returns a library of the schema, the declarations and a unit's streams. The stream of deletions has the bytes.
fn library_with(rt: &impl Abort, alloc: Global, deleted: &[u8]) -> MemLibrary {
    let mut files = Files::new(alloc);
    for (name, bytes) in [
        ("s.toml", TRADE.as_bytes()),
        ("i.toml", ITEMS),
        ("many.toml", TOO_MANY),
        ("none.toml", b"seed = "),
        ("other.toml", b"seed = 1\n"),
        ("d/item.tbl", AT_2),
        ("d/item.3.del", deleted),
        ("d/item.3.upd", b"3\t1\t5\n3\t2\t5\n"),
        ("d/item.3.ins", b"4\t1\t5\n4\t2\t5\n"),
    ] {
        files.push(name, bytes).expect(rt, "memory");
    }
    MemLibrary::new(alloc, files, LibraryFails::new(alloc))
}

pub(crate) fn assert_details<R: Threads + Sync + Abort>(
    rt: &R,
    alloc: Global,
    deleted: &[u8],
    runs: &[Run<'_>],
) {
    for run in runs {
        let mut library = library_with(rt, alloc, deleted);
        check_run_over(rt, alloc, &mut library, run).expect(rt, "a run as it is written down");
    }
}

const APPLIED: [Run<'static>; 3] = [
    Run {
        name: "a unit, on the standard output",
        words: "pdgf details-apply s.toml --spec i.toml --from 2 --to 3 --in d",
        finished: &[("-", Held::Text(AT_3))],
        ..DONE
    },
    Run {
        name: "a unit, in a directory",
        words: "pdgf details-apply s.toml --spec i.toml --from 2 --to 3 --in d --out o",
        finished: &[("o/item.tbl", Held::Text(AT_3))],
        ..DONE
    },
    Run {
        name: "no unit",
        words: "pdgf details-apply s.toml --spec i.toml --from 2 --to 2 --in d --out o",
        finished: &[(
            "o/item.tbl",
            Held::Text("1\t1\t5\n1\t2\t5\n2\t1\t5\n2\t2\t5\n3\t1\t5\n3\t2\t5\n"),
        )],
        ..DONE
    },
];

#[test]
fn a_unit_gives_the_later_text(rt: HostRuntime) {
    assert_details(&rt, rt.alloc(), b"1\t1\n1\t2\n", &APPLIED);
}

const AT_FAULT: [Run<'static>; 1] = [Run {
    name: "a third field of a line that is deleted",
    words: "pdgf details-apply s.toml --spec i.toml --from 2 --to 3 --in d --out o",
    status: 9,
    message: "pdgf: apply: item.3.del line 2: bad line\n",
    ..REFUSED
}];

const REFUSALS: [Run<'static>; 6] = [
    Run {
        name: "a declaration that is no TOML, before a unit out of its range",
        words: "pdgf details-apply s.toml --spec none.toml --from 3 --to 2 --in d",
        status: 3,
        message: "pdgf: details: not TOML\n",
        ..REFUSED
    },
    Run {
        name: "a declaration of another form",
        words: "pdgf details-apply s.toml --spec other.toml --from 2 --to 3 --in d",
        status: 3,
        message: "pdgf: details: wrong form\n",
        ..REFUSED
    },
    Run {
        name: "a rule that is broken, before a unit out of its range",
        words: "pdgf details-apply s.toml --spec many.toml --from 2 --to 9 --in d",
        status: 4,
        message: "pdgf: rule E3\n",
        ..REFUSED
    },
    Run {
        name: "the first unit past the last",
        words: "pdgf details-apply s.toml --spec i.toml --from 9 --to 8 --in d",
        status: 8,
        message: "pdgf: out of range: --from\n",
        ..REFUSED
    },
    Run {
        name: "the last unit past the schema's",
        words: "pdgf details-apply s.toml --spec i.toml --from 2 --to 9 --in d",
        status: 8,
        message: "pdgf: out of range: --to\n",
        ..REFUSED
    },
    Run {
        name: "no file of the text",
        words: "pdgf details-apply s.toml --spec i.toml --from 2 --to 3 --in e",
        status: 5,
        message: "pdgf: read failed\n",
        ..REFUSED
    },
];

#[test]
fn what_is_at_fault_is_told_first(rt: HostRuntime) {
    assert_details(&rt, rt.alloc(), b"1\t1\n1\t2\t5\n", &AT_FAULT);
    assert_details(&rt, rt.alloc(), b"1\t1\n1\t2\n", &REFUSALS);
}
