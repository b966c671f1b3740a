//! The word lists that a declaration cites: those that are read for it, and the rule on them.

use crate::fixtures::{BILLS, SALES, joined, numbered, plan_of, word_lists};
use detail_plan::{DetailFault, check_detail, detail_citations, read_detail};
use schema_check::check;
use schema_facts::Dictionaries;
use schema_plan::Plan;
use schema_read::read_schema;
use std::alloc::Global;
use std::process::Abort;

/// A table with a word list of its own.
const TABLE: &str =
    "seed=1\nunits=0\ntable=[{name='t',rows=1,column=[{name='id',kind='key',base=1},{name='n',kind='dict',file='names'}]}]\n";

/// The keys before the columns.
const FRONT: &str = "seed=1\nname='item'\nparent='t'\nlo=1\nhi=1\ncolumn=[";

/// Returns the plan of the table.
fn plan_of_table(rt: &impl Abort, alloc: Global) -> Plan {
    let schema = read_schema(alloc, TABLE.as_bytes()).expect(rt, "no schema");
    check(alloc, schema, word_lists(rt, alloc, &["names"])).expect(rt, "no plan")
}

/// Asserts which word lists a text cites beyond those of the schema, in order. None stands for a refusal.
fn assert_cited(rt: &impl Abort, alloc: Global, text: &str, due: Option<&[&str]>) {
    let plan = plan_of_table(rt, alloc);
    let detail = read_detail(alloc, text.as_bytes()).expect(rt, "nothing declared");
    match detail_citations(alloc, &plan, &detail) {
        Ok(names) => {
            let due = due.expect(rt, "cited");
            assert!(rt; names.len() == due.len(), "{text}");
            for (name, other) in names.as_slice().iter().zip(due.iter()) {
                assert!(rt; name.as_str() == *other, "{text}");
            }
        }
        Err(fault) => {
            assert!(rt;
                due.is_none() && fault == DetailFault::Rule { number: 6 },
                "{text}"
            );
        }
    }
}

/// Columns, and the word lists that they cite beyond those of the schema.
const CITED: [(&str, Option<&[&str]>); 9] = [
    ("{name='a',kind='uuid'}", Some(&[])),
    ("{name='a',kind='dict',file='names'}", Some(&[])),
    (
        "{name='a',kind='words',file='b',lo=1,hi=1},{name='c',kind='dict',file='names'},{name='d',kind='dict',file='a'},{name='e',kind='dict',file='b'}",
        Some(&["b", "a"]),
    ),
    (
        "{name='a',kind='dict',file='c'},{name='b',kind='words',file='Names',lo=9,hi=1},{name='a',kind='dict',file='b'},{name='d',kind='dict',file='c'}",
        Some(&["c", "Names", "b"]),
    ),
    (
        "{name='a',kind='pick',entries=['x']},{name='p',kind='parent',column='n'},{name='s',kind='sum',of=['x']},{name='t',kind='after',of='x',lo=0,hi=0}",
        Some(&[]),
    ),
    ("{name='a',kind='words',file='',lo=1,hi=1}", None),
    ("{name='a',kind='dict',file=''}", None),
    (
        "{name='a',kind='dict',file='names'},{name='b',kind='dict',file=''}",
        None,
    ),
    ("{name='a',kind='int',lo=2,hi=1}", Some(&[])),
];

#[test]
fn word_lists_beyond_those_of_the_schema_are_cited(rt: HostRuntime) {
    for (columns, due) in CITED {
        let text = joined(&rt, rt.alloc(), &[FRONT, columns, "]\n"]);
        assert_cited(&rt, rt.alloc(), text.as_str(), due);
    }
    let pieces = numbered(&rt, rt.alloc(), "{name='a',kind='dict',file='f", 65, "'},");
    let text = joined(&rt, rt.alloc(), &[FRONT, pieces.as_str(), "]\n"]);
    assert_cited(&rt, rt.alloc(), text.as_str(), None);
}

#[test]
fn names_of_word_lists_have_at_most_255_bytes(rt: HostRuntime) {
    for (size, is_right) in [(255, true), (256, false)] {
        let name = "f".repeat(rt.alloc(), size).expect(&rt, "memory");
        let pieces = [
            FRONT,
            "{name='a',kind='dict',file='",
            name.as_str(),
            "'}]\n",
        ];
        let text = joined(&rt, rt.alloc(), &pieces);
        let names = [name.as_str()];
        let due: Option<&[&str]> = if is_right { Some(&names) } else { None };
        assert_cited(&rt, rt.alloc(), text.as_str(), due);
    }
}

/// The keys before the parent, columns, the word lists that are handed in, and the rule that is told, or 0.
const CASES: [(&str, &str, &[&str], u32); 6] = [
    ("seed=1", "{name='a',kind='dict',file='one'}", &["one"], 0),
    ("seed=1", "{name='a',kind='dict',file='one'}", &[], 6),
    ("seed=1", "{name='a',kind='dict',file='one'}", &["two"], 6),
    ("seed=1", "{name='a',kind='dict',file='names'}", &[], 0),
    ("seed=-1", "{name='a',kind='dict',file=''}", &[""], 6),
    ("seed=-1", "{name='a',kind='dict',file='one'}", &["one"], 1),
];

/// Returns the number of the first rule that a declaration breaks over a plan, or 0 if it keeps all.
fn told_of(rt: &impl Abort, alloc: Global, plan: &Plan, text: &str, names: &[&str]) -> u32 {
    let detail = read_detail(alloc, text.as_bytes()).expect(rt, "nothing declared");
    match check_detail(alloc, plan, detail, word_lists(rt, alloc, names)) {
        Ok(_) => 0,
        Err(DetailFault::Rule { number }) => number,
        Err(DetailFault::Memory) => panic!(rt; "memory"),
    }
}

#[test]
fn word_lists_are_tried_first(rt: HostRuntime) {
    let plan = plan_of_table(&rt, rt.alloc());
    for (seed, columns, names, due) in CASES {
        let front = "\nname='item'\nparent='t'\nlo=1\nhi=1\ncolumn=[";
        let text = joined(&rt, rt.alloc(), &[seed, front, columns, "]\n"]);
        let told = told_of(&rt, rt.alloc(), &plan, text.as_str(), names);
        assert!(rt; told == due, "{told}: {text}");
    }
}

/// Pieces of `BILLS` with what stands in their places, and the rule that is told, or 0.
const CHANGED: [(&[(&str, &str)], u32); 6] = [
    (&[], 0),
    (&[("column = \"born\"", "column = \"changed\"")], 4),
    (&[("seed = 1", "seed = -1")], 1),
    (&[("\"one.txt\"", "\"\"")], 6),
    (&[("\"one.txt\"", "\"two.txt\"")], 6),
    (&[("seed = 1", "seed = -1"), ("\"one.txt\"", "\"\"")], 6),
];

#[test]
fn changed_declarations_break_a_rule(rt: HostRuntime) {
    let plan = plan_of(&rt, rt.alloc(), SALES);
    for (changes, due) in CHANGED {
        let mut text = joined(&rt, rt.alloc(), &[BILLS]);
        for (piece, other) in changes {
            text = text
                .as_str()
                .replace(rt.alloc(), piece, other)
                .expect(&rt, "memory");
        }
        let told = told_of(&rt, rt.alloc(), &plan, text.as_str(), &["one.txt"]);
        assert!(rt; told == due, "{told}: {text}");
    }
}
