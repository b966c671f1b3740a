//! The helpers that try the cases of tests. If memory is wanting, the test ends.

use schema_check::{CheckFault, check};
use schema_facts::Dictionaries;
use schema_plan::Plan;
use schema_read::read_schema;
use std::alloc::Global;
use std::process::Abort;

/// A broken rule with its table and its column, which count from 1; 0 means that there is none. None means that all rules are kept.
pub(crate) type Told = Option<(u32, u64, u64)>;

/// Returns the fault that tells of a broken rule.
pub(crate) fn fault_of(told: Told) -> Option<CheckFault> {
    match told {
        Some((number, table, column)) => Some(CheckFault::Rule {
            number,
            table,
            column,
        }),
        None => None,
    }
}

/// Asserts what the check of a text tells.
pub(crate) fn assert_told(
    rt: &impl Abort,
    alloc: Global,
    text: &str,
    dictionaries: Dictionaries,
    told: Told,
) {
    let schema = read_schema(alloc, text.as_bytes()).expect(rt, "no schema");
    let fault = check(alloc, schema, dictionaries).err();
    assert!(rt; fault == fault_of(told), "{text}");
}

/// Joins the pieces, one after the other.
pub(crate) fn joined(rt: &impl Abort, alloc: Global, pieces: &[&str]) -> String {
    pieces.concat(alloc).expect(rt, "memory")
}

/// Asserts what the check of the joined pieces tells, without dictionaries.
pub(crate) fn try_text(rt: &impl Abort, alloc: Global, pieces: &[&str], told: Told) {
    let text = joined(rt, alloc, pieces);
    assert_told(rt, alloc, text.as_str(), Dictionaries::new(alloc), told);
}

/// Asserts what the check tells of each text, joined between a front and an end.
pub(crate) fn try_texts(
    rt: &impl Abort,
    alloc: Global,
    front: &str,
    cases: &[(&str, Told)],
    end: &str,
) {
    for (inner, told) in cases {
        try_text(rt, alloc, &[front, inner, end], *told);
    }
}

/// Asserts of each text, joined between a front and an end, that it keeps a rule or breaks it at one place.
pub(crate) fn try_rule(
    rt: &impl Abort,
    alloc: Global,
    broken: (u32, u64, u64),
    front: &str,
    cases: &[(&str, bool)],
    end: &str,
) {
    for (inner, is_kept) in cases {
        let told = if *is_kept { None } else { Some(broken) };
        try_text(rt, alloc, &[front, inner, end], told);
    }
}

/// Returns the plan of a text that is accepted.
pub(crate) fn plan_of(
    rt: &impl Abort,
    alloc: Global,
    text: &str,
    dictionaries: Dictionaries,
) -> Plan {
    let schema = read_schema(alloc, text.as_bytes()).expect(rt, "no schema");
    check(alloc, schema, dictionaries).expect(rt, "refused")
}

/// Joins the numbers from 0 on, `count` of them, each between `front` and `end`.
pub(crate) fn numbered(
    rt: &impl Abort,
    alloc: Global,
    front: &str,
    count: usize,
    end: &str,
) -> String {
    let mut text = String::new(alloc);
    for number in 0..count {
        let piece = format!(in alloc; "{front}{number}{end}").expect(rt, "memory");
        text.push_str(piece.as_str()).expect(rt, "memory");
    }
    text
}

/// Repeats a weight, with a comma after each.
fn run(rt: &impl Abort, alloc: Global, run: (usize, i64)) -> String {
    let weight = format!(in alloc; "{},", run.1).expect(rt, "memory");
    weight.as_str().repeat(alloc, run.0).expect(rt, "memory")
}

/// Repeats two weights, one run after the other, with a comma after each weight.
pub(crate) fn weights(
    rt: &impl Abort,
    alloc: Global,
    first: (usize, i64),
    second: (usize, i64),
) -> String {
    let first = run(rt, alloc, first);
    let second = run(rt, alloc, second);
    joined(rt, alloc, &[first.as_str(), second.as_str()])
}
