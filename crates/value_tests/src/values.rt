//! Values that are worked out by hand, and values from an independent program. The program is written in Python from the rules of seeds and
//! values and shares no code (docs/SECOND_PROGRAM.md).

ghost use Rattle.std.specs.Prelude.{◌≡◌, ◌<◌, ◌≤◌, ℕ, ◌-◌, ◌^◌, pos, neg_ℤ, [], ◌∷◌, Some, codes, length, map, true};
ghost use Rattle.std.specs.Bool.{OnTrue};
ghost use Rattle.schema_facts.specs.Layout.{column_at, int_leaf, layout_of, table_at};
ghost use Rattle.schema_facts.specs.TableFacts.{max_line};
ghost use Rattle.draw_values.specs.Values.{is_own, leaf_value, size_at};

use draw_values::{CohortValues, Put, RowAt, put_value};
use line_pages::PageBuf;
use row_cases::{plan_of, with_text};
use schema_plan::{Plan, ReadyKind, ReadyLeaf};
use std::alloc::Global;
use std::process::Abort;

/// Tells whether the first table has a column of units, of drawn values or of entries in turn at a place.
fn is_own_column(plan: &Plan, column: usize) -> bool
    requires { 0 < length plan.now.schema.tables }
    ensures within { OnTrue result (column < length (table_at (layout_of plan.now).tables 0).columns) }
    ensures own { OnTrue result (is_own (column_at (table_at (layout_of plan.now).tables 0).columns column).kind ≡ true) }
    ensures size { OnTrue result (size_at (layout_of plan.now) 0 column ≤ max_line (layout_of plan.now) 0) }
{
    match plan.columns(0).get(column) {
        Some(ready) => match &ready.kind {
            ReadyKind::Born
            | ReadyKind::Changed
            | ReadyKind::Drawn(_)
            | ReadyKind::Case { .. }
            | ReadyKind::List(_)
            | ReadyKind::UnitDate(_) => true,
            _ => false,
        },
        None => false,
    }
}

/// Tells whether the column at a place in the first table is a case.
fn is_case(plan: &Plan, column: usize) -> bool
    requires { 0 < length plan.now.schema.tables }
{
    match plan.columns(0).get(column) {
        Some(ready) => matches!(ready.kind, ReadyKind::Case { .. }),
        None => false,
    }
}

/// Appends what a field holds, and a semicolon.
fn push_field(put: Put, field: &[u8], text: &mut Vec<u8>) -> bool {
    let field = if put == Put::Null { b"\\N" } else { field };
    text.extend_from_slice(field).is_ok() && text.push(b';').is_ok()
}

/// Appends what a row of the first table holds in a column, as the values of its cohort put it. If the field is null and no case, its draw
/// says so.
fn put_in_cohort(
    alloc: Global,
    plan: &Plan,
    values: &CohortValues<'_>,
    column: usize,
    at: RowAt,
    text: &mut Vec<u8>,
) -> bool
    requires table { 0 < length plan.now.schema.tables }
    requires values { values.now ≡ record { plan = plan.now; table = 0; born = at.born; changed = at.changed } }
    requires column { column < length (table_at (layout_of plan.now).tables 0).columns }
    requires own { is_own (column_at (table_at (layout_of plan.now).tables 0).columns column).kind ≡ true }
    requires size { size_at (layout_of plan.now) 0 column ≤ max_line (layout_of plan.now) 0 }
{
    match PageBuf::with_room(alloc, plan.max_line(0) as usize) {
        Ok(page) => {
            let mut page = page;
            let put = values.put(column, at.ordinal, &mut page);
            let null = values.is_null(column, at.ordinal);
            push_field(put, page.text(), text)
                && (null == (put == Put::Null) || is_case(plan, column))
        }
        Err(_) => false,
    }
}

/// Appends what a row of the first table holds in a column, as `put_value` puts it.
fn put_alone(alloc: Global, plan: &Plan, column: usize, at: RowAt, text: &mut Vec<u8>) -> bool
    requires table { 0 < length plan.now.schema.tables }
    requires column { column < length (table_at (layout_of plan.now).tables 0).columns }
    requires own { is_own (column_at (table_at (layout_of plan.now).tables 0).columns column).kind ≡ true }
    requires size { size_at (layout_of plan.now) 0 column ≤ max_line (layout_of plan.now) 0 }
    requires born { at.born ≤ (layout_of plan.now).units }
    requires changed { at.changed ≤ (layout_of plan.now).units }
{
    let _limits = plan.columns(0); // there are at most 64
    match PageBuf::with_room(alloc, plan.max_line(0) as usize) {
        Ok(page) => {
            let mut page = page;
            let put = put_value(plan, 0, column as u32, at, &mut page);
            push_field(put, page.text(), text)
        }
        Err(_) => false,
    }
}

/// Appends what a row of the first table holds in the columns after its key, as both calls put it, with a semicolon after each.
fn put_row(
    alloc: Global,
    plan: &Plan,
    at: RowAt,
    in_cohort: &mut Vec<u8>,
    alone: &mut Vec<u8>,
) -> bool {
    if plan.tables() != 1 || at.born > plan.units() || at.changed > plan.units() {
        return false;
    }
    let values = CohortValues::new(plan, 0, at.born, at.changed);
    let mut is_put = true;
    for column in 1..plan.columns(0).len() {
        is_put = is_put
            && is_own_column(plan, column)
            && put_in_cohort(alloc, plan, &values, column, at, in_cohort)
            && put_alone(alloc, plan, column, at, alone);
    }
    is_put
}

/// Tells whether a row of the first table holds a text in the columns after its key.
fn holds(alloc: Global, plan: &Plan, at: RowAt, expected: &str) -> bool {
    let mut in_cohort = Vec::new(alloc);
    let mut alone = Vec::new(alloc);
    put_row(alloc, plan, at, &mut in_cohort, &mut alone)
        && in_cohort.as_slice() == expected.as_bytes()
        && alone.as_slice() == expected.as_bytes()
}

/// Asserts what rows of the first table hold, given by their ordinals and the units of their births and last changes.
fn assert_rows(rt: &impl Abort, alloc: Global, parts: &[&str], rows: &[(u64, u64, u64, &str)]) {
    let plan = plan_of(alloc, parts).expect(rt, "an accepted schema");
    for (ordinal, born, changed, expected) in rows {
        let at = RowAt {
            ordinal: *ordinal,
            born: *born,
            changed: *changed,
        };
        assert!(rt;
            holds(alloc, &plan, at, expected),
            "case {ordinal} of {born}"
        );
    }
}

/// A table with the seed 7, with four rows at unit 0 and two at each of five more.
const FEW: &str = r#"
seed = 7
units = 5
[[table]]
name = "t"
rows = 4
insert = 2
"#;

/// The same table with bars between the fields.
const FEW_WITH_BARS: &str = r#"
seed = 7
units = 5
delimiter = "bar"
[[table]]
name = "t"
rows = 4
insert = 2
"#;

/// Columns of keys, of units of birth and of each kind of drawn value, none of them null. Three more are null at times: a number, a pick, and
/// a case by that pick. Two entries hold what is escaped. An alphabet has a letter of two bytes, and a letter that is escaped between bars.
const ALL_KINDS: &str = r#"
column = [
    { name = "id", kind = "key", base = 1 },
    { name = "born", kind = "born" },
    { name = "by_3", kind = "int", lo = -5, hi = 20, step = 3 },
    { name = "below_0", kind = "int", lo = -9223372036854775808, hi = -1 },
    { name = "from_0", kind = "int", lo = 0, hi = 9223372036854775807 },
    { name = "cents", kind = "fixed", lo = -5000, hi = 5000, decimals = 2 },
    { name = "whole", kind = "fixed", lo = -9, hi = 9, decimals = 0 },
    { name = "billionths", kind = "fixed", lo = -999, hi = 999, decimals = 9 },
    { name = "day", kind = "date", lo = "0001-01-01", hi = "9999-12-31" },
    { name = "leap", kind = "date", lo = "2000-02-28", hi = "2000-03-01" },
    { name = "word", kind = "pick", entries = ["a\\b|c\td", "plain", "x|y", "", "last"], weights = [3, 1, 2, 1, 5] },
    { name = "rank", kind = "skew", lo = -3, size = 7, power = 1 },
    { name = "steep", kind = "skew", lo = 100, size = 4096, power = 3 },
    { name = "code", kind = "chars", alphabet = "ab|é", lo = 0, hi = 5 },
    { name = "digit", kind = "int", lo = 0, hi = 9, null = 400 },
    { name = "sort", kind = "pick", entries = ["a\\b|c\td", "plain", "x|y", "", "last"], weights = [3, 1, 2, 1, 5], null = 300 },
    { name = "by_sort", kind = "case", on = "sort", null = 100, branches = [
        { kind = "int", lo = 10, hi = 19 },
        { kind = "int", lo = 20, hi = 29 },
        { kind = "int", lo = 30, hi = 39 },
        { kind = "int", lo = 40, hi = 49 },
        { kind = "chars", alphabet = "ab|é", lo = 0, hi = 5 },
    ] },
]
"#;

/// Units, numbers and cases: some columns change, and others don't. The cases are by a pick that stays as it is, and by one that changes.
const COLUMNS_THAT_CHANGE: &str = r#"
column = [
    { name = "id", kind = "key", base = 1 },
    { name = "born", kind = "born" },
    { name = "changed", kind = "changed" },
    { name = "still", kind = "int", lo = 0, hi = 999999 },
    { name = "moving", kind = "int", lo = 0, hi = 999999, changes = true },
    { name = "at_times", kind = "int", lo = 0, hi = 999999, changes = true, null = 500 },
    { name = "sort", kind = "pick", entries = ["a\\b|c\td", "plain", "x|y", "", "last"], weights = [3, 1, 2, 1, 5], null = 300 },
    { name = "still_by_sort", kind = "case", on = "sort", branches = [
        { kind = "int", lo = 10, hi = 19 },
        { kind = "int", lo = 20, hi = 29 },
        { kind = "int", lo = 30, hi = 39 },
        { kind = "int", lo = 40, hi = 49 },
        { kind = "chars", alphabet = "ab|é", lo = 0, hi = 5 },
    ] },
    { name = "by_sort", kind = "case", on = "sort", changes = true, branches = [
        { kind = "int", lo = 10, hi = 19 },
        { kind = "int", lo = 20, hi = 29 },
        { kind = "int", lo = 30, hi = 39 },
        { kind = "int", lo = 40, hi = 49 },
        { kind = "chars", alphabet = "ab|é", lo = 0, hi = 5 },
    ] },
    { name = "state", kind = "pick", entries = ["a\\b|c\td", "plain", "x|y", "", "last"], weights = [3, 1, 2, 1, 5], changes = true, null = 300 },
    { name = "by_state", kind = "case", on = "state", changes = true, null = 100, branches = [
        { kind = "int", lo = 10, hi = 19 },
        { kind = "int", lo = 20, hi = 29 },
        { kind = "int", lo = 30, hi = 39 },
        { kind = "int", lo = 40, hi = 49 },
        { kind = "chars", alphabet = "ab|é", lo = 0, hi = 5 },
    ] },
]
"#;

/// Words of a dictionary: one word, up to four words, and two words or null.
const WORDS: &str = r#"
column = [
    { name = "id", kind = "key", base = 1 },
    { name = "word", kind = "dict", file = "n" },
    { name = "some", kind = "words", file = "n", lo = 0, hi = 4 },
    { name = "two", kind = "words", file = "n", lo = 2, hi = 2, null = 500 },
]
"#;

/// The schema of one row at each unit, whose last column holds UUIDs.
const ONE_WITH_UUIDS: &str = r#"
seed = 1
units = 2
[[table]]
name = "t"
rows = 1
insert = 1
column = [
    { name = "id", kind = "key", base = 1 },
    { name = "born", kind = "born" },
    { name = "u", kind = "uuid" },
]
"#;

/// UUIDs: one that stays, one that changes and is null at times, and one for the first entry of a pick.
const UUIDS: &str = r#"
column = [
    { name = "id", kind = "key", base = 1 },
    { name = "still", kind = "uuid" },
    { name = "moving", kind = "uuid", changes = true, null = 400 },
    { name = "sort", kind = "pick", entries = ["a", "b"] },
    { name = "by_sort", kind = "case", on = "sort", branches = [{ kind = "uuid" }, { kind = "int", lo = 1, hi = 9 }] },
]
"#;

const ROWS: &[(u64, u64, u64, &str)] = &[
    (
        0,
        0,
        0,
        "0;4;-1301148152031528877;1646713118542009436;-20.21;5;-0.000000130;3308-03-17;2000-03-01;;-3;100;|;\\N;a\\\\b|c\\td;13;",
    ),
    (
        1,
        0,
        0,
        "0;-5;-7168664074685475188;5679114685750042959;35.60;-3;-0.000000675;6556-04-07;2000-02-29;last;-1;100;||a;4;\\N;\\N;",
    ),
    (
        3,
        0,
        0,
        "0;13;-5141894393530882224;1560041756983882477;-11.36;1;-0.000000988;2557-09-13;2000-03-01;last;3;100;ébaa;0;last;é|;",
    ),
    (
        4,
        1,
        1,
        "1;16;-3708718578705328411;4541888477291126794;6.20;-5;0.000000069;5091-07-05;2000-02-28;last;3;104;é||;5;\\N;\\N;",
    ),
    (
        6,
        2,
        2,
        "2;7;-3485567071594094168;6417096489469501226;-31.13;3;-0.000000186;6229-10-20;2000-03-01;a\\\\b|c\\td;1;100;a|;3;a\\\\b|c\\td;10;",
    ),
];

const ROWS_WITH_BARS: &[(u64, u64, u64, &str)] = &[(
    6,
    2,
    2,
    "2;7;-3485567071594094168;6417096489469501226;-31.13;3;-0.000000186;6229-10-20;2000-03-01;a\\\\b\\|c\\td;1;100;a\\|;3;a\\\\b\\|c\\td;10;",
)];

// The texts are those of the Python program.
#[test]
fn values_of_some_rows(rt: HostRuntime) {
    assert_rows(&rt, rt.alloc(), &[FEW, ALL_KINDS], ROWS);
}

// The text is that of the Python program.
#[test]
fn values_between_bars(rt: HostRuntime) {
    assert_rows(&rt, rt.alloc(), &[FEW_WITH_BARS, ALL_KINDS], ROWS_WITH_BARS);
}

const CHANGED_ROWS: &[(u64, u64, u64, &str)] = &[
    (0, 1, 1, "1;1;767936;566084;378317;last;;éa;last;a|;"),
    (0, 1, 3, "1;3;767936;314603;64628;last;;aa;\\N;\\N;"),
    (0, 3, 3, "3;3;515091;314603;64628;last;ébbab;aa;\\N;\\N;"),
    (1, 0, 2, "0;2;300620;518894;870426;plain;20;25;\\N;\\N;"),
    (
        1,
        0,
        5,
        "0;5;300620;14137;286381;plain;20;22;a\\\\b|c\\td;15;",
    ),
    (4, 1, 2, "1;2;447397;327457;\\N;;40;43;x|y;\\N;"),
    (4, 1, 3, "1;3;447397;319022;351648;;40;41;last;bb|;"),
    (4, 3, 3, "3;3;96738;319022;351648;\\N;\\N;\\N;last;bb|;"),
];

// The texts are those of the Python program. In a column that changes, the unit of the last change takes the place of the unit of birth.
#[test]
fn values_of_changed_rows(rt: HostRuntime) {
    assert_rows(&rt, rt.alloc(), &[FEW, COLUMNS_THAT_CHANGE], CHANGED_ROWS);
}

const ONE_UUID_ROWS: &[(u64, u64, u64, &str)] = &[
    (0, 0, 0, "0;e1c6ab5c-6a70-4089-a025-5b41f18cb1de;"),
    (1, 1, 1, "1;eb34f47f-1e9f-4e72-9e40-fe9a08c20d9e;"),
    (2, 2, 2, "2;a85b28d7-c798-4bfe-a436-327bbd164253;"),
];

const UUID_ROWS: &[(u64, u64, u64, &str)] = &[
    (0, 0, 0, "a9be72f2-e54d-4f8a-a946-cb655c39f077;\\N;b;9;"),
    (
        0,
        0,
        3,
        "a9be72f2-e54d-4f8a-a946-cb655c39f077;a1eee56c-792f-4a97-93bd-74157da0e1c7;b;9;",
    ),
    (
        1,
        0,
        2,
        "f177e896-7948-4d7a-8b5e-1e1efdcceaf5;\\N;a;4ed044b7-aad5-414f-9ae6-ce4990a6a469;",
    ),
    (
        3,
        0,
        5,
        "60554a2b-d69b-4e81-9521-60a6cd8ff83a;5e5066eb-5571-4937-a606-e13c329d1b9c;a;15a661b6-67cc-42ed-b323-a5bb57544bec;",
    ),
    (
        4,
        1,
        1,
        "eac1a9ae-3663-4b88-b4be-695211243027;52d64f0e-cd0d-4ec1-9543-93a7a72d8aa1;b;8;",
    ),
    (4, 1, 3, "eac1a9ae-3663-4b88-b4be-695211243027;\\N;b;8;"),
    (
        8,
        3,
        4,
        "647c7a00-d973-4c1b-960c-ef222c6dfdf1;4daa15d7-753c-4b9c-9e0f-9e315a407fd5;a;fcfe3d80-4208-4c41-80e8-cb258fba20e0;",
    ),
];

// The texts were worked out twice, by programs that share no code.
#[test]
fn uuids_of_some_rows(rt: HostRuntime) {
    assert_rows(&rt, rt.alloc(), &[ONE_WITH_UUIDS], ONE_UUID_ROWS);
}

// The texts are those of the Python program.
#[test]
fn uuids_of_changed_rows(rt: HostRuntime) {
    assert_rows(&rt, rt.alloc(), &[FEW, UUIDS], UUID_ROWS);
}

const WORD_ROWS: &[(u64, u64, u64, &str)] = &[
    (0, 0, 0, "Ann;A\\|b;A\\|b Ann;"),
    (2, 0, 0, "Bo;;Bo A\\|b;"),
    (3, 0, 0, "A\\|b;;\\N;"),
    (4, 1, 1, "Ann;Ann;Ann Bo;"),
    (7, 2, 2, "Bo;A\\|b;\\N;"),
];

// The texts are those of the Python program.
#[test]
fn words_of_some_rows(rt: HostRuntime) {
    assert_rows(&rt, rt.alloc(), &[FEW_WITH_BARS, WORDS], WORD_ROWS);
}

/// Words that the rows take in turn, and dates: of the units of birth, day by day and year by year, and of the units of the last changes.
const TURNS_AND_DATES: &str = r#"
column = [
    { name = "id", kind = "key", base = 1, scramble = true },
    { name = "turn", kind = "list", file = "n" },
    { name = "leap", kind = "born_date", start = "2024-02-28" },
    { name = "year", kind = "born_date", start = "2024-01-31", step = 366 },
    { name = "month", kind = "changed_date", start = "2024-01-01", step = 31 },
    { name = "same", kind = "changed_date", start = "0001-01-01", step = 0 },
    { name = "at_times", kind = "list", file = "n", null = 500 },
]
"#;

// By hand: row 3 takes the first of the three words again, whatever its key and its place in its cohort. The last column's draws are those of
// the Python program.
const TURN_ROWS: &[(u64, u64, u64, &str)] = &[
    (
        0,
        0,
        0,
        "Ann;2024-02-28;2024-01-31;2024-01-01;0001-01-01;\\N;",
    ),
    (
        1,
        0,
        2,
        "Bo;2024-02-28;2024-01-31;2024-03-03;0001-01-01;\\N;",
    ),
    (
        2,
        0,
        3,
        "A\\|b;2024-02-28;2024-01-31;2024-04-03;0001-01-01;A\\|b;",
    ),
    (
        3,
        0,
        1,
        "Ann;2024-02-28;2024-01-31;2024-02-01;0001-01-01;Ann;",
    ),
    (
        4,
        1,
        1,
        "Bo;2024-02-29;2025-01-31;2024-02-01;0001-01-01;Bo;",
    ),
    (
        7,
        2,
        3,
        "Bo;2024-03-01;2026-02-01;2024-04-03;0001-01-01;\\N;",
    ),
    (
        13,
        5,
        5,
        "Bo;2024-03-04;2029-02-03;2024-06-04;0001-01-01;\\N;",
    ),
];

#[test]
fn turns_and_dates_of_some_rows(rt: HostRuntime) {
    assert_rows(
        &rt,
        rt.alloc(),
        &[FEW_WITH_BARS, TURNS_AND_DATES],
        TURN_ROWS,
    );
}

/// Of the numbers of a range in steps, each draw chooses the one with its text.
fn draws_choose_whole_numbers()
    ensures below_0 { map (λ (draw : ℕ). leaf_value (int_leaf (neg_ℤ (pos (2 ^ 63))) (neg_ℤ (pos 1)) 1) (λ _. draw))
        (0 ∷ (2 ^ 64 - 1) ∷ (2 ^ 63) ∷ [])
        ≡ Some (codes "-9223372036854775808") ∷ Some (codes "-1") ∷ Some (codes "-9223372036854775808") ∷ [] }
    ensures ends { leaf_value (int_leaf (neg_ℤ (pos (2 ^ 63))) (neg_ℤ (pos 1)) (2 ^ 63 - 1)) (λ _. 1) ≡ Some (codes "-1") }
    ensures from_0 { map (λ (draw : ℕ). leaf_value (int_leaf (pos 0) (pos (2 ^ 63 - 1)) 1) (λ _. draw))
        (0 ∷ (2 ^ 64 - 1) ∷ [])
        ≡ Some (codes "0") ∷ Some (codes "9223372036854775807") ∷ [] }
    ensures greatest { leaf_value (int_leaf (pos (2 ^ 63 - 1)) (pos (2 ^ 63 - 1)) 1) (λ _. 2 ^ 64 - 1) ≡ Some (codes "9223372036854775807") }
    ensures steps { map (λ (draw : ℕ). leaf_value (int_leaf (neg_ℤ (pos 5)) (pos 5) 3) (λ _. draw))
        (3 ∷ 4 ∷ 9 ∷ [])
        ≡ Some (codes "4") ∷ Some (codes "-5") ∷ Some (codes "-2") ∷ [] }
    ensures wide_step { leaf_value (int_leaf (neg_ℤ (pos 5)) (pos 5) (2 ^ 64 - 1)) (λ _. 2 ^ 64 - 1) ≡ Some (codes "-5") }
    ensures to_0 { leaf_value (int_leaf (neg_ℤ (pos 1)) (pos 0) 1) (λ _. 7) ≡ Some (codes "0") }
{}

/// Columns of keys and of one value: the text before the keys of the value's column. The text after them is `END`.
const KEY_AND: &str = r#"
column = [
    { name = "id", kind = "key", base = 1 },
    { name = "value", "#;

const END: &str = r#" },
]
"#;

/// Columns of one number: their keys, no day, and how the number is written.
const NUMBERS: &[(&str, Option<i32>, &str)] = &[
    (
        r#"kind = "int", lo = -9223372036854775808, hi = -9223372036854775808"#,
        None,
        "-9223372036854775808;",
    ),
    (r#"kind = "int", lo = -5, hi = -5"#, None, "-5;"),
    (r#"kind = "int", lo = -2, hi = -2"#, None, "-2;"),
    (r#"kind = "int", lo = -1, hi = -1"#, None, "-1;"),
    (r#"kind = "int", lo = 0, hi = 0"#, None, "0;"),
    (r#"kind = "int", lo = 4, hi = 4"#, None, "4;"),
    (
        r#"kind = "int", lo = 9223372036854775807, hi = 9223372036854775807"#,
        None,
        "9223372036854775807;",
    ),
    (
        r#"kind = "fixed", lo = -5, hi = -5, decimals = 2"#,
        None,
        "-0.05;",
    ),
    (
        r#"kind = "fixed", lo = 1234, hi = 1234, decimals = 0"#,
        None,
        "1234;",
    ),
    (
        r#"kind = "fixed", lo = 0, hi = 0, decimals = 0"#,
        None,
        "0;",
    ),
    (
        r#"kind = "fixed", lo = 0, hi = 0, decimals = 2"#,
        None,
        "0.00;",
    ),
    (
        r#"kind = "fixed", lo = -99, hi = -99, decimals = 2"#,
        None,
        "-0.99;",
    ),
    (
        r#"kind = "fixed", lo = -100, hi = -100, decimals = 2"#,
        None,
        "-1.00;",
    ),
    (
        r#"kind = "fixed", lo = 7, hi = 7, decimals = 1"#,
        None,
        "0.7;",
    ),
    (
        r#"kind = "fixed", lo = 1000000001, hi = 1000000001, decimals = 9"#,
        None,
        "1.000000001;",
    ),
    (
        r#"kind = "fixed", lo = -9223372036854775808, hi = -9223372036854775808, decimals = 9"#,
        None,
        "-9223372036.854775808;",
    ),
    (
        r#"kind = "fixed", lo = -9223372036854775808, hi = -9223372036854775808, decimals = 0"#,
        None,
        "-9223372036854775808;",
    ),
    (
        r#"kind = "fixed", lo = 9223372036854775807, hi = 9223372036854775807, decimals = 1"#,
        None,
        "922337203685477580.7;",
    ),
];

/// Columns of one date: their keys, the day, counted from day 0, 1970-01-01, and how the date is written. The day numbers are those of
/// Python's `datetime`.
const DATES: &[(&str, Option<i32>, &str)] = &[
    (
        r#"kind = "date", lo = "0001-01-01", hi = "0001-01-01""#,
        Some(-719_162),
        "0001-01-01;",
    ),
    (
        r#"kind = "date", lo = "0001-12-31", hi = "0001-12-31""#,
        Some(-718_798),
        "0001-12-31;",
    ),
    (
        r#"kind = "date", lo = "0004-02-29", hi = "0004-02-29""#,
        Some(-718_008),
        "0004-02-29;",
    ),
    (
        r#"kind = "date", lo = "0400-02-29", hi = "0400-02-29""#,
        Some(-573_372),
        "0400-02-29;",
    ),
    (
        r#"kind = "date", lo = "1582-10-10", hi = "1582-10-10""#,
        Some(-141_432),
        "1582-10-10;",
    ),
    (
        r#"kind = "date", lo = "1900-02-28", hi = "1900-02-28""#,
        Some(-25_509),
        "1900-02-28;",
    ),
    (
        r#"kind = "date", lo = "1900-03-01", hi = "1900-03-01""#,
        Some(-25_508),
        "1900-03-01;",
    ),
    (
        r#"kind = "date", lo = "1969-12-31", hi = "1969-12-31""#,
        Some(-1),
        "1969-12-31;",
    ),
    (
        r#"kind = "date", lo = "1970-01-01", hi = "1970-01-01""#,
        Some(0),
        "1970-01-01;",
    ),
    (
        r#"kind = "date", lo = "2000-02-29", hi = "2000-02-29""#,
        Some(11_016),
        "2000-02-29;",
    ),
    (
        r#"kind = "date", lo = "2000-03-01", hi = "2000-03-01""#,
        Some(11_017),
        "2000-03-01;",
    ),
    (
        r#"kind = "date", lo = "2000-12-31", hi = "2000-12-31""#,
        Some(11_322),
        "2000-12-31;",
    ),
    (
        r#"kind = "date", lo = "2024-02-29", hi = "2024-02-29""#,
        Some(19_782),
        "2024-02-29;",
    ),
    (
        r#"kind = "date", lo = "2100-02-28", hi = "2100-02-28""#,
        Some(47_540),
        "2100-02-28;",
    ),
    (
        r#"kind = "date", lo = "2100-03-01", hi = "2100-03-01""#,
        Some(47_541),
        "2100-03-01;",
    ),
    (
        r#"kind = "date", lo = "9999-01-01", hi = "9999-01-01""#,
        Some(2_932_532),
        "9999-01-01;",
    ),
    (
        r#"kind = "date", lo = "9999-12-31", hi = "9999-12-31""#,
        Some(2_932_896),
        "9999-12-31;",
    ),
];

/// Tells whether the column after the key holds dates from a day on. If no day is given, any column will do.
fn begins_with(plan: &Plan, day: Option<i32>) -> bool
    requires { 0 < length plan.now.schema.tables }
{
    match plan.columns(0).get(1) {
        Some(ready) => match (&ready.kind, day) {
            (ReadyKind::Drawn(ReadyLeaf::Date { lo, .. }), Some(day)) => *lo == day,
            (_, Some(_)) => false,
            (_, None) => true,
        },
        None => false,
    }
}

fn has_value(alloc: Global, plan: &Plan, day: Option<i32>, text: &str) -> bool {
    let at = RowAt {
        ordinal: 0,
        born: 0,
        changed: 0,
    };
    plan.tables() == 1 && begins_with(plan, day) && holds(alloc, plan, at, text)
}

fn assert_values(rt: &impl Abort, alloc: Global, values: &[(&str, Option<i32>, &str)]) {
    for (place, (keys, day, text)) in values.iter().enumerate() {
        let parts = [FEW, KEY_AND, *keys, END];
        let plan = plan_of(alloc, &parts).expect(rt, "an accepted schema");
        assert!(rt; has_value(alloc, &plan, *day, text), "case {place} of 1");
    }
}

// By hand, and proved: the call does nothing.
#[test]
fn whole_numbers_reach_both_ends_of_their_range(_rt: HostRuntime) {
    draws_choose_whole_numbers();
}

#[test]
fn numbers_keep_their_sign_and_zeros(rt: HostRuntime) {
    assert_values(&rt, rt.alloc(), NUMBERS);
}

#[test]
fn dates_keep_leap_days_apart(rt: HostRuntime) {
    assert_values(&rt, rt.alloc(), DATES);
}

/// Units, each with the first row that is born at it and the row after its last.
const UNITS: &[(u64, u64, u64)] = &[
    (0, 0, 1000),
    (1, 1000, 1010),
    (2, 1010, 1020),
    (3, 1020, 1030),
    (4, 1030, 1040),
    (5, 1040, 1050),
];

/// Tells whether all rows of the units have a checksum.
fn has_checksum(alloc: Global, plan: &Plan, sum: u64) -> bool {
    let mut in_cohort = Vec::new(alloc);
    let mut alone = Vec::new(alloc);
    let mut is_put = true;
    for (born, first, past) in UNITS {
        for ordinal in *first..*past {
            let at = RowAt {
                ordinal,
                born: *born,
                changed: *born,
            };
            is_put = is_put && put_row(alloc, plan, at, &mut in_cohort, &mut alone);
        }
    }
    is_put && with_text(0, &in_cohort) == sum && with_text(0, &alone) == sum
}

const MANY: &str = r#"
seed = 7
units = 5
[[table]]
name = "t"
rows = 1000
insert = 10
"#;

const MANY_WITH_BARS: &str = r#"
seed = 7
units = 5
delimiter = "bar"
[[table]]
name = "t"
rows = 1000
insert = 10
"#;

fn assert_checksum(rt: &impl Abort, alloc: Global, parts: &[&str], sum: u64) {
    let plan = plan_of(alloc, parts).expect(rt, "an accepted schema");
    assert!(rt; has_checksum(alloc, &plan, sum));
}

// The checksums are those of the Python program, over 1,050 rows.
#[test]
fn values_of_many_rows(rt: HostRuntime) {
    assert_checksum(
        &rt,
        rt.alloc(),
        &[MANY, ALL_KINDS],
        12_429_313_703_229_295_597,
    );
    assert_checksum(
        &rt,
        rt.alloc(),
        &[MANY_WITH_BARS, ALL_KINDS],
        14_872_582_688_233_119_221,
    );
}
