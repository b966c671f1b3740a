//! A text that is read, and its schema, worked out by hand.

use schema_model::Delimiter;
use schema_read::read_schema;

const TEXT: &str = r#"
seed = -7
units = 0x10
delimiter = "bar"
[[table]]
name = "all"
rows = 3
insert = 4
life = [2, 5]
update = 6
column = [
    {name="c", kind="key", base=1, scramble=true},
    {name="c", kind="born"},
    {name="c", kind="int", lo=-9223372036854775808, hi=9, step=3},
    {name="c", kind="fixed", lo=1, hi=9, decimals=2},
    {name="c", kind="date", lo="0001-01-01", hi="9999-12-31"},
    {name="c", kind="pick", entries=["Oslo", "Rome"], weights=[5, -2]},
    {name="c", kind="skew", lo=1, size=9, power=2},
    {name="c", kind="dict", file="names.txt"},
    {name="c", kind="words", file="names.txt", lo=0, hi=4},
    {name="c", kind="chars", alphabet="äb", lo=8, hi=9},
    {name="c", kind="uuid", changes=true, null=7},
    {name="c", kind="template", parts=["r", {column="id"}, {column="id", width=9}]},
    {name="c", kind="case", on="x", branches=[{kind="dict", file="f"}, {kind="date", lo="1970-01-01", hi="2000-03-01"}, {kind="uuid"}]},
    {name="c", kind="ref", table="p", window=9, spread=[1, 2], on_delete="null", deal="drawn"},
    {name="c", kind="lookup", via="p", column="city"},
    {name="c", kind="list", file="names.txt"},
    {name="c", kind="born_date", start="0001-01-01", step=7},
    {name="c", kind="changed_date", start="2000-03-01", step=-1},
]
[[table]]
name = "defaults"
rows = 1
column = [
    {name="c", kind="changed", changes=true, null=100},
    {name="c", kind="key", base=1},
    {name="c", kind="int", lo=1, hi=9},
    {name="c", kind="pick", entries=["a", "b"]},
    {name="c", kind="ref", table="p", window="all"},
    {name="c", kind="template", parts=[]},
    {name="c", kind="born_date", start="1970-01-01"},
    {name="c", kind="changed_date", start="9999-12-31"},
]
[[table]]
name = "phases"
rows = 20
insert = [[1, 20], [6, 50], [6, -1], [0, 0]]
column = [{name="c", kind="ref", table="p", window=1, on_delete="cascade", deal="turn"}]
[[table]]
name = "no phase"
rows = 1
insert = []
column = []
"#;

/// The schema of `TEXT`, as `{:?}` writes it. The days are those of the calendar: 0001-01-01 is day -719162, 9999-12-31 is day 2932896
/// and 2000-03-01 is day 11017.
const SCHEMA: &str = concat!(
    "Schema { seed: -7, units: 16, delimiter: Bar, tables: Sequence { items: [",
    r#"Table { name: Text { text: "all" }, rows: 3, insert: Sequence { items: [Phase { from: 1, rate: 4 }] }, life: Some(Life { lo: 2, hi: 5 }), update: Some(6), columns: Sequence { items: ["#,
    r#"Column { name: Text { text: "c" }, kind: Key { base: 1, scramble: true }, changes: false, null: 0 }, "#,
    r#"Column { name: Text { text: "c" }, kind: Born, changes: false, null: 0 }, "#,
    r#"Column { name: Text { text: "c" }, kind: Leaf(Int { lo: -9223372036854775808, hi: 9, step: 3 }), changes: false, null: 0 }, "#,
    r#"Column { name: Text { text: "c" }, kind: Leaf(Fixed { lo: 1, hi: 9, decimals: 2 }), changes: false, null: 0 }, "#,
    r#"Column { name: Text { text: "c" }, kind: Leaf(Date { lo: -719162, hi: 2932896 }), changes: false, null: 0 }, "#,
    r#"Column { name: Text { text: "c" }, kind: Leaf(Pick { entries: Sequence { items: [Text { text: "Oslo" }, Text { text: "Rome" }] }, weights: Sequence { items: [5, -2] } }), changes: false, null: 0 }, "#,
    r#"Column { name: Text { text: "c" }, kind: Leaf(Skew { lo: 1, size: 9, power: 2 }), changes: false, null: 0 }, "#,
    r#"Column { name: Text { text: "c" }, kind: Leaf(Dict { file: Text { text: "names.txt" } }), changes: false, null: 0 }, "#,
    r#"Column { name: Text { text: "c" }, kind: Leaf(Words { file: Text { text: "names.txt" }, lo: 0, hi: 4 }), changes: false, null: 0 }, "#,
    r#"Column { name: Text { text: "c" }, kind: Leaf(Chars { alphabet: Text { text: "äb" }, lo: 8, hi: 9 }), changes: false, null: 0 }, "#,
    r#"Column { name: Text { text: "c" }, kind: Leaf(Uuid), changes: true, null: 7 }, "#,
    r#"Column { name: Text { text: "c" }, kind: Template { parts: Sequence { items: [Literal(Text { text: "r" }), Cited(Text { text: "id" }), Padded { column: Text { text: "id" }, width: 9 }] } }, changes: false, null: 0 }, "#,
    r#"Column { name: Text { text: "c" }, kind: Case { on: Text { text: "x" }, branches: Sequence { items: [Dict { file: Text { text: "f" } }, Date { lo: 0, hi: 11017 }, Uuid] } }, changes: false, null: 0 }, "#,
    r#"Column { name: Text { text: "c" }, kind: Ref { table: Text { text: "p" }, window: Units(9), spread: Sequence { items: [1, 2] }, on_delete: Null, deal: Drawn }, changes: false, null: 0 }, "#,
    r#"Column { name: Text { text: "c" }, kind: Lookup { via: Text { text: "p" }, column: Text { text: "city" } }, changes: false, null: 0 }, "#,
    r#"Column { name: Text { text: "c" }, kind: List { file: Text { text: "names.txt" } }, changes: false, null: 0 }, "#,
    r#"Column { name: Text { text: "c" }, kind: BornDate { start: -719162, step: 7 }, changes: false, null: 0 }, "#,
    r#"Column { name: Text { text: "c" }, kind: ChangedDate { start: 11017, step: -1 }, changes: false, null: 0 }"#,
    "] } }, ",
    r#"Table { name: Text { text: "defaults" }, rows: 1, insert: Sequence { items: [Phase { from: 1, rate: 0 }] }, life: None, update: None, columns: Sequence { items: ["#,
    r#"Column { name: Text { text: "c" }, kind: Changed, changes: true, null: 100 }, "#,
    r#"Column { name: Text { text: "c" }, kind: Key { base: 1, scramble: false }, changes: false, null: 0 }, "#,
    r#"Column { name: Text { text: "c" }, kind: Leaf(Int { lo: 1, hi: 9, step: 1 }), changes: false, null: 0 }, "#,
    r#"Column { name: Text { text: "c" }, kind: Leaf(Pick { entries: Sequence { items: [Text { text: "a" }, Text { text: "b" }] }, weights: Sequence { items: [1, 1] } }), changes: false, null: 0 }, "#,
    r#"Column { name: Text { text: "c" }, kind: Ref { table: Text { text: "p" }, window: All, spread: Sequence { items: [1] }, on_delete: Cascade, deal: Turn }, changes: false, null: 0 }, "#,
    r#"Column { name: Text { text: "c" }, kind: Template { parts: Sequence { items: [] } }, changes: false, null: 0 }, "#,
    r#"Column { name: Text { text: "c" }, kind: BornDate { start: 0, step: 1 }, changes: false, null: 0 }, "#,
    r#"Column { name: Text { text: "c" }, kind: ChangedDate { start: 2932896, step: 1 }, changes: false, null: 0 }"#,
    "] } }, ",
    r#"Table { name: Text { text: "phases" }, rows: 20, "#,
    "insert: Sequence { items: [Phase { from: 1, rate: 20 }, Phase { from: 6, rate: 50 }, Phase { from: 6, rate: -1 }, Phase { from: 0, rate: 0 }] }, ",
    "life: None, update: None, columns: Sequence { items: [",
    r#"Column { name: Text { text: "c" }, kind: Ref { table: Text { text: "p" }, window: Units(1), spread: Sequence { items: [1] }, on_delete: Cascade, deal: Turn }, changes: false, null: 0 }"#,
    "] } }, ",
    r#"Table { name: Text { text: "no phase" }, rows: 1, insert: Sequence { items: [] }, life: None, update: None, columns: Sequence { items: [] } }"#,
    "] } }",
);

#[test]
fn each_kind_is_read(rt: HostRuntime) {
    let schema = read_schema(rt.alloc(), TEXT.as_bytes()).expect(&rt, "no schema");
    let told = format!(in rt.alloc(); "{schema:?}").expect(&rt, "memory");
    assert!(rt; told.as_str() == SCHEMA, "{told}");
}

#[test]
fn no_table_is_read(rt: HostRuntime) {
    let empty = read_schema(rt.alloc(), b"seed=1\nunits=1\ntable=[]").expect(&rt, "no schema");
    assert!(rt; empty.tables.is_empty() && empty.delimiter == Delimiter::Tab);
}
