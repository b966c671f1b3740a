//! The word lists that a schema cites. The expected places follow from the wording of the rule.

use crate::cases::{Told, assert_told, fault_of, joined, numbered};
use dictionaries::read_dictionary;
use schema_check::citations;
use schema_facts::Dictionaries;
use schema_read::read_schema;
use std::alloc::Global;
use std::process::Abort;

/// Asserts how many names a text cites, in the order of their first citations, and which stand from a place on.
fn assert_cited(
    rt: &impl Abort,
    alloc: Global,
    text: &str,
    count: usize,
    from: usize,
    expected: &[&str],
) {
    let schema = read_schema(alloc, text.as_bytes()).expect(rt, "no schema");
    let names = citations(alloc, &schema).expect(rt, "refused");
    assert!(rt; names.len() == count);
    for (i, name) in expected.iter().enumerate() {
        let place = from.wrapping_add(i);
        assert!(rt;
            place < names.len() && names.get(place).as_str() == *name,
            "{name}"
        );
    }
}

/// Asserts that the names that a text cites are refused.
fn assert_refused(rt: &impl Abort, alloc: Global, text: &str, told: Told) {
    let schema = read_schema(alloc, text.as_bytes()).expect(rt, "no schema");
    assert!(rt; citations(alloc, &schema).err() == fault_of(told), "{text}");
}

const CITED_TWICE: &str = "seed=-1
units=0
table=[{name='t',rows=1,column=[
    {name='id',kind='key',base=1},
    {name='c1',kind='dict',file='b'},
    {name='c2',kind='dict',file='a'},
    {name='c3',kind='dict',file='b'},
]}]";

const CITED_ONCE: &str = "seed=-1
units=0
table=[{name='t',rows=1,column=[
    {name='id',kind='key',base=1},
    {name='c1',kind='dict',file='b'},
    {name='c2',kind='dict',file='a'},
    {name='c3',kind='dict',file='c'},
]}]";

const CITED_WITHOUT_NAME: &str = "seed=-1
units=0
table=[{name='t',rows=1,column=[
    {name='id',kind='key',base=1},
    {name='c1',kind='dict',file='b'},
    {name='c2',kind='dict',file=''},
    {name='c3',kind='dict',file='c'},
]}]";

/// A list cites its word list at its place, as a drawn word does.
const CITED_BY_LISTS: &str = "seed=-1
units=0
table=[{name='t',rows=1,column=[
    {name='id',kind='key',base=1},
    {name='c1',kind='list',file='b'},
    {name='c2',kind='dict',file='a'},
    {name='c3',kind='list',file='a'},
    {name='c4',kind='list',file='c'},
]}]";

const LIST_WITHOUT_NAME: &str = "seed=-1
units=0
table=[{name='t',rows=1,column=[
    {name='id',kind='key',base=1},
    {name='c1',kind='dict',file='b'},
    {name='c2',kind='list',file=''},
    {name='c3',kind='dict',file='c'},
]}]";

#[test]
fn lists_cite_as_drawn_words_do(rt: HostRuntime) {
    assert_cited(&rt, rt.alloc(), CITED_BY_LISTS, 3, 0, &["b", "a", "c"]);
    assert_refused(&rt, rt.alloc(), LIST_WITHOUT_NAME, Some((13, 1, 3)));
}

#[test]
fn names_are_cited_once_in_order(rt: HostRuntime) {
    assert_cited(&rt, rt.alloc(), CITED_TWICE, 2, 0, &["b", "a"]);
    assert_cited(&rt, rt.alloc(), CITED_ONCE, 3, 0, &["b", "a", "c"]);
    assert_refused(&rt, rt.alloc(), CITED_WITHOUT_NAME, Some((13, 1, 3)));
}

const BEFORE_NAME: &str =
    "seed=1\nunits=0\ntable=[{name='t',rows=1,column=[{name='id',kind='key',base=1},{name='c1',kind='dict',file='";

fn assert_longest(rt: &impl Abort, alloc: Global) {
    let name = "n".repeat(alloc, 255).expect(rt, "memory");
    let text = joined(rt, alloc, &[BEFORE_NAME, name.as_str(), "'}]}]"]);
    assert_cited(rt, alloc, text.as_str(), 1, 0, &[name.as_str()]);
}

const BETWEEN_NAMES: &str =
    "seed=-1\nunits=0\ntable=[{name='t',rows=1,column=[{name='id',kind='key',base=1},{name='c1',kind='dict',file='b'},{name='c2',kind='dict',file='";

fn assert_longer(rt: &impl Abort, alloc: Global) {
    let name = "n".repeat(alloc, 256).expect(rt, "memory");
    let end = "'},{name='c3',kind='dict',file=''}]}]";
    let text = joined(rt, alloc, &[BETWEEN_NAMES, name.as_str(), end]);
    assert_refused(rt, alloc, text.as_str(), Some((13, 1, 3)));
}

#[test]
fn names_have_at_most_255_bytes(rt: HostRuntime) {
    assert_longest(&rt, rt.alloc());
    assert_longer(&rt, rt.alloc());
}

/// Makes a key, a pick, and a case with a word list for each entry of the pick. `branch` stands before the number of each list.
fn branching(rt: &impl Abort, alloc: Global, entries: usize, branch: &str) -> String {
    let branches = numbered(rt, alloc, branch, entries, "'},");
    let entries = "'x',".repeat(alloc, entries).expect(rt, "memory");
    let pieces = [
        "{name='c0',kind='key',base=1},{name='c1',kind='pick',entries=[",
        entries.as_str(),
        "]},{name='c2',kind='case',on='c1',branches=[",
        branches.as_str(),
        "]}",
    ];
    joined(rt, alloc, &pieces)
}

/// Makes a text of two tables, each with the columns of `branching`.
fn branching_twice(rt: &impl Abort, alloc: Global, first: usize, second: usize) -> String {
    let first = branching(rt, alloc, first, "{kind='dict',file='a");
    let second = branching(rt, alloc, second, "{kind='dict',file='b");
    let pieces = [
        "seed=1\nunits=0\ntable=[{name='t0',rows=1,column=[",
        first.as_str(),
        "]},{name='t1',rows=1,column=[",
        second.as_str(),
        "]}]",
    ];
    joined(rt, alloc, &pieces)
}

#[test]
fn at_most_64_names_are_cited(rt: HostRuntime) {
    let alloc = rt.alloc();
    let text = branching_twice(&rt, alloc, 63, 1);
    assert_cited(&rt, alloc, text.as_str(), 64, 62, &["a62", "b0"]);
    let text = branching_twice(&rt, alloc, 40, 25);
    assert_refused(&rt, alloc, text.as_str(), Some((13, 2, 3)));
    let text = branching_twice(&rt, alloc, 65, 1);
    assert_refused(&rt, alloc, text.as_str(), Some((13, 1, 3)));
}

/// Appends a word list to the others.
fn push_words(rt: &impl Abort, alloc: Global, all: &mut Dictionaries, name: &str, bytes: &[u8]) {
    let words = read_dictionary(alloc, bytes).expect(rt, "no dictionary");
    all.push(name, words).expect(rt, "memory");
}

/// Makes two word lists with these names and the same bytes.
pub(crate) fn word_lists(
    rt: &impl Abort,
    alloc: Global,
    first: &str,
    second: &str,
    bytes: &[u8],
) -> Dictionaries {
    let mut all = Dictionaries::new(alloc);
    push_words(rt, alloc, &mut all, first, bytes);
    push_words(rt, alloc, &mut all, second, bytes);
    all
}

/// The seed, the two cited names, the two given names, and what is told.
type Given = (
    &'static str,
    &'static str,
    &'static str,
    &'static str,
    &'static str,
    Told,
);

// A missing dictionary is told before a broken seed. The seed is told if no dictionary is missing.
const GIVEN: [Given; 5] = [
    ("1", "a", "b", "b", "a", None),
    ("-1", "a", "b", "c", "a", Some((13, 1, 3))),
    ("-1", "b", "a", "a", "", Some((13, 1, 2))),
    ("-1", "a", "a", "a", "a", Some((1, 0, 0))),
    ("1", "a", "a", "", "a", None),
];

fn try_given(rt: &impl Abort, alloc: Global, cases: &[Given]) {
    let before =
        "\nunits=0\ntable=[{name='t',rows=1,column=[{name='id',kind='key',base=1},{name='c1',kind='dict',file='";
    let between = "'},{name='c2',kind='dict',file='";
    for (seed, first, second, given, other, told) in cases {
        let pieces = ["seed=", seed, before, first, between, second, "'}]}]"];
        let text = joined(rt, alloc, &pieces);
        let dictionaries = word_lists(rt, alloc, given, other, b"Ann\t3\nBo\n");
        assert_told(rt, alloc, text.as_str(), dictionaries, *told);
    }
}

#[test]
fn each_dictionary_is_there(rt: HostRuntime) {
    try_given(&rt, rt.alloc(), &GIVEN);
}
