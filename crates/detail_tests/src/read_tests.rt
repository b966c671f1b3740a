//! Declarations that are read: what they declare, or why they declare nothing, worked out by hand.

use crate::fixtures::joined;
use detail_plan::{DetailReadFault, read_detail};
use std::alloc::Global;
use std::process::Abort;

/// A declaration with all keys and kinds. No rule accepts its numbers and names, since reading tries no rule.
const TEXT: &str = r#"
hi = -16
column = [
    { kind = "int", hi = -9223372036854775808, lo = 9223372036854775807, name = "" },
    { name = "B", kind = "pick", entries = [] },
    { name = "B", kind = "pick", entries = ["", "a\tb", "é"], changes = true },
    { name = "c", kind = "int", lo = 1, hi = 2, step = 0, changes = false, null = -1 },
    { name = "p", kind = "pick", entries = ["a"], weights = [2, 3], null = 7 },
    { name = "f", kind = "fixed", lo = 5, hi = 6, decimals = 2 },
    { name = "d", kind = "date", lo = "1970-01-02", hi = "1969-12-31" },
    { name = "s", kind = "skew", lo = 1, size = 2, power = 3 },
    { name = "w", kind = "words", file = "x", lo = 1, hi = 2 },
    { name = "e", kind = "chars", alphabet = "é", lo = 1, hi = 2 },
    { name = "u", kind = "uuid" },
    { name = "l", kind = "dict", file = "" },
    { name = "q", kind = "parent", column = "born" },
    { name = "a", kind = "after", of = "d", lo = -1, hi = 1 },
    { name = "t", kind = "sum", of = ["c", "c"] },
    { name = "m", kind = "product", of = [], changes = true },
]
parent = "None"
name = 'no name'
lo = 0x46
seed = -7
"#;

/// The detail table that `TEXT` declares, as `{:?}` writes it.
const DETAIL: &str = concat!(
    r#"Detail { seed: -7, lo: 70, hi: -16, name: Text { text: "no name" }, parent: Text { text: "None" }, columns: Sequence { items: ["#,
    r#"DetailColumn { name: Text { text: "" }, kind: Leaf(Int { lo: 9223372036854775807, hi: -9223372036854775808, step: 1 }), changes: false, null: 0 }, "#,
    r#"DetailColumn { name: Text { text: "B" }, kind: Leaf(Pick { entries: Sequence { items: [] }, weights: Sequence { items: [] } }), changes: false, null: 0 }, "#,
    r#"DetailColumn { name: Text { text: "B" }, kind: Leaf(Pick { entries: Sequence { items: [Text { text: "" }, Text { text: "a\tb" }, Text { text: "é" }] }, weights: Sequence { items: [1, 1, 1] } }), changes: true, null: 0 }, "#,
    r#"DetailColumn { name: Text { text: "c" }, kind: Leaf(Int { lo: 1, hi: 2, step: 0 }), changes: false, null: -1 }, "#,
    r#"DetailColumn { name: Text { text: "p" }, kind: Leaf(Pick { entries: Sequence { items: [Text { text: "a" }] }, weights: Sequence { items: [2, 3] } }), changes: false, null: 7 }, "#,
    r#"DetailColumn { name: Text { text: "f" }, kind: Leaf(Fixed { lo: 5, hi: 6, decimals: 2 }), changes: false, null: 0 }, "#,
    r#"DetailColumn { name: Text { text: "d" }, kind: Leaf(Date { lo: 1, hi: -1 }), changes: false, null: 0 }, "#,
    r#"DetailColumn { name: Text { text: "s" }, kind: Leaf(Skew { lo: 1, size: 2, power: 3 }), changes: false, null: 0 }, "#,
    r#"DetailColumn { name: Text { text: "w" }, kind: Leaf(Words { file: Text { text: "x" }, lo: 1, hi: 2 }), changes: false, null: 0 }, "#,
    r#"DetailColumn { name: Text { text: "e" }, kind: Leaf(Chars { alphabet: Text { text: "é" }, lo: 1, hi: 2 }), changes: false, null: 0 }, "#,
    r#"DetailColumn { name: Text { text: "u" }, kind: Leaf(Uuid), changes: false, null: 0 }, "#,
    r#"DetailColumn { name: Text { text: "l" }, kind: Leaf(Dict { file: Text { text: "" } }), changes: false, null: 0 }, "#,
    r#"DetailColumn { name: Text { text: "q" }, kind: Parent { column: Text { text: "born" } }, changes: false, null: 0 }, "#,
    r#"DetailColumn { name: Text { text: "a" }, kind: After { of: Text { text: "d" }, lo: -1, hi: 1 }, changes: false, null: 0 }, "#,
    r#"DetailColumn { name: Text { text: "t" }, kind: Sum { of: Sequence { items: [Text { text: "c" }, Text { text: "c" }] } }, changes: false, null: 0 }, "#,
    r#"DetailColumn { name: Text { text: "m" }, kind: Product { of: Sequence { items: [] } }, changes: true, null: 0 }"#,
    "] } }",
);

#[test]
fn each_key_is_read(rt: HostRuntime) {
    let detail = read_detail(rt.alloc(), TEXT.as_bytes()).expect(&rt, "nothing declared");
    let told = format!(in rt.alloc(); "{detail:?}").expect(&rt, "memory");
    assert!(rt; told.as_str() == DETAIL, "{told}");
}

/// The keys of a declaration, each with its right line and with one of another type.
const TOP: [(&str, &str); 6] = [
    ("seed=1\n", "seed='1'\n"),
    ("lo=1\n", "lo=1.0\n"),
    ("hi=2\n", "hi=[2]\n"),
    ("name='item'\n", "name=1\n"),
    ("parent='customer'\n", "parent=true\n"),
    ("column=[]\n", "column={}\n"),
];

/// The keys of a declaration before its columns.
const FRONT: &str = "seed=1\nlo=1\nhi=2\nname='item'\nparent='customer'\n[[column]]\n";

/// The keys of a column of numbers, as in `TOP`.
const INT: [(&str, &str); 4] = [
    ("name='qty'\n", "name=['qty']\n"),
    ("kind='int'\n", "kind=1\n"),
    ("lo=5\n", "lo='5'\n"),
    ("hi=5\n", "hi=true\n"),
];

/// The keys of a column of entries, as in `TOP`.
const PICK: [(&str, &str); 3] = [
    ("name='mark'\n", "name=1\n"),
    ("kind='pick'\n", "kind=['pick']\n"),
    ("entries=['a','b']\n", "entries='a'\n"),
];

/// Joins the right lines. At place `at` another line stands in place of the right one.
fn with_line(
    rt: &impl Abort,
    alloc: Global,
    front: &str,
    lines: &[(&str, &str)],
    at: usize,
    other: &str,
) -> String {
    let mut text = joined(rt, alloc, &[front]);
    for (place, (right, _)) in lines.iter().enumerate() {
        let line = if place == at { other } else { *right };
        text.push_str(line).expect(rt, "memory");
    }
    text
}

/// Asserts that a text declares nothing, for this reason.
fn assert_refused(rt: &impl Abort, alloc: Global, text: &[u8], fault: DetailReadFault) {
    let told = read_detail(alloc, text).err();
    assert!(rt; told == Some(fault), "{told:?}: {text:?}");
}

/// Asserts that each key must be there and be of its type.
fn assert_required(rt: &impl Abort, alloc: Global, front: &str, lines: &[(&str, &str)]) {
    let right = with_line(rt, alloc, front, lines, lines.len(), "");
    assert!(rt;
        read_detail(alloc, right.as_str().as_bytes()).is_ok(),
        "{right}"
    );
    for (at, (_, wrong)) in lines.iter().enumerate() {
        for other in ["", *wrong] {
            let text = with_line(rt, alloc, front, lines, at, other);
            let bytes = text.as_str().as_bytes();
            assert_refused(rt, alloc, bytes, DetailReadFault::WrongForm);
        }
    }
}

#[test]
fn each_key_is_required_and_of_its_type(rt: HostRuntime) {
    assert_required(&rt, rt.alloc(), "", &TOP);
    assert_required(&rt, rt.alloc(), FRONT, &INT);
    assert_required(&rt, rt.alloc(), FRONT, &PICK);
}

/// Columns that follow the front, and whether their keys are right.
const COLUMNS: [(&str, bool); 28] = [
    ("name='c'\nkind='int'\nlo=1\nhi=1\n", true),
    ("name='c'\nkind='int'\nlo=1\nhi=1\nchanges=1\n", false),
    ("name='c'\nkind='int'\nlo=1\nhi=1\nentries=['a']\n", false),
    ("name='c'\nkind='int'\nlo=1\nhi=1\nnull=0\n", true),
    ("name='c'\nkind='int'\nlo=1\nhi=1\nnull='0'\n", false),
    ("name='c'\nkind='int'\nlo=1\nhi=1\nstep='1'\n", false),
    ("name='c'\nkind='pick'\nentries=['a']\n", true),
    (
        "name='c'\nkind='pick'\nentries=['a']\nchanges='true'\n",
        false,
    ),
    ("name='c'\nkind='pick'\nentries=['a']\nlo=1\n", false),
    ("name='c'\nkind='pick'\nentries=['a', 1]\n", false),
    ("name='c'\nkind='pick'\nentries=['a']\nweights=[1]\n", true),
    (
        "name='c'\nkind='pick'\nentries=['a']\nweights=['1']\n",
        false,
    ),
    ("name='c'\nkind='Int'\nlo=1\nhi=1\n", false),
    ("name='c'\nkind='words'\nlo=1\nhi=1\n", false),
    ("name='c'\nkind='pick'\nentries=['a']\n[further]\n", false),
    ("name='c'\nkind='uuid'\n", true),
    ("name='c'\nkind='uuid'\nlo=1\n", false),
    (
        "name='c'\nkind='date'\nlo='2024-02-30'\nhi='2024-03-01'\n",
        false,
    ),
    ("name='c'\nkind='parent'\n", false),
    ("name='c'\nkind='parent'\ncolumn=1\n", false),
    ("name='c'\nkind='parent'\ncolumn='id'\nvia='x'\n", false),
    ("name='c'\nkind='after'\nlo=1\nhi=1\n", false),
    ("name='c'\nkind='sum'\nof='c'\n", false),
    ("name='c'\nkind='product'\nof=['c', 1]\n", false),
    ("name='c'\nkind='born'\n", false),
    ("name='c'\nkind='template'\nparts=['a']\n", false),
    ("name='c'\nkind='lookup'\nvia='a'\ncolumn='b'\n", false),
    ("name='c'\nkind='list'\nfile='a'\n", false),
];

/// Whole texts that are no document or have a wrong key.
const TEXTS: [(&[u8], DetailReadFault); 7] = [
    (b"seed = ", DetailReadFault::Syntax),
    (b"seed=1\nseed=1\n", DetailReadFault::Syntax),
    (b"name='\xff'\n", DetailReadFault::Syntax),
    (b"", DetailReadFault::WrongForm),
    (
        b"seed=1\nlo=1\nhi=2\nname='i'\nparent='c'\ncolumn=[1]\n",
        DetailReadFault::WrongForm,
    ),
    (
        b"seed=1\nlo=1\nhi=2\nname='i'\nparent='c'\ncolumn=[]\nunits=1\n",
        DetailReadFault::WrongForm,
    ),
    (
        b"seed=1\nlo=1\nhi=2\nname='i'\nparent='c'\ncolumn=[]\nchanges=true\n",
        DetailReadFault::WrongForm,
    ),
];

fn assert_columns(rt: &impl Abort, alloc: Global, cases: &[(&str, bool)]) {
    for (column, is_right) in cases {
        let text = joined(rt, alloc, &[FRONT, column]);
        let told = read_detail(alloc, text.as_str().as_bytes()).err();
        let due = if *is_right {
            None
        } else {
            Some(DetailReadFault::WrongForm)
        };
        assert!(rt; told == due, "{text}");
    }
}

#[test]
fn wrong_keys_and_texts_that_are_no_document_are_refused(rt: HostRuntime) {
    assert_columns(&rt, rt.alloc(), &COLUMNS);
    for (text, fault) in TEXTS {
        assert_refused(&rt, rt.alloc(), text, fault);
    }
}
