//! Lines, key lines and reports that are worked out by hand, and texts from an independent program. The program is written in Python from the
//! rules of cohorts, keys and lines and shares no code (docs/SECOND_PROGRAM.md).

ghost use Rattle.std.specs.Prelude.{◌≡◌, ◌*◌, ◌<◌, ◌≤◌, length, true};
ghost use Rattle.cohort_sizes.specs.Births.{born_count};
ghost use Rattle.schema_facts.specs.Layout.{layout_of};
ghost use Rattle.schema_facts.specs.TableFacts.{max_line};
ghost use Rattle.life_intervals.specs.Generator.{generator_of, last_unit, table_of};
ghost use Rattle.life_intervals.specs.Intervals.{is_live};

use crate::fixtures::{DRAWN, FIVE_PARENTS, HUGE, ORDERS, SALES, has_parents, is_row};
use crate::told::{Told, assert_all};
use life_intervals::{JobOrders, Rows, born, key, parent};
use line_pages::{Digits, PageBuf};
use row_cases::with_text;
use row_lines::{RunBuf, RunLines, TableLines, live, put_key, put_line, row_report};
use schema_plan::Plan;
use std::alloc::Global;
use std::marker::Brand;
use std::sync::ledger::{Blank, Ledger};
use step_count::Steps;

/// Tells whether a row has a line at a unit. The row is alive then.
fn is_line<L: Ledger>(
    alloc: Global,
    plan: &Plan,
    table: u32,
    row: u64,
    unit: u64,
    line: &str,
    steps: &mut Steps<L>,
) -> bool
    requires table { table < length plan.now.schema.tables }
    requires unit { unit ≤ last_unit plan.now }
    requires born { row < born_count (table_of plan.now table).births unit }
    requires alive { is_live (generator_of plan.now) table unit row ≡ true }
{
    match PageBuf::with_room(alloc, plan.max_line(table) as usize) {
        Ok(page) => {
            let mut page = page;
            put_line(plan, table, row, unit, &mut page, steps);
            page.text() == line.as_bytes()
        }
        Err(_) => false,
    }
}

fn has_line<L: Ledger>(
    alloc: Global,
    plan: &Plan,
    table: u32,
    row: u64,
    unit: u64,
    line: &str,
    steps: &mut Steps<L>,
) -> bool {
    is_row(plan, table, row)
        && unit <= plan.units()
        && row < born(plan, table, unit)
        && live(plan, table, row, unit, steps)
        && is_line(alloc, plan, table, row, unit, line, steps)
}

fn has_key_line<L: Ledger>(
    alloc: Global,
    plan: &Plan,
    table: u32,
    row: u64,
    line: &str,
    steps: &mut Steps<L>,
) -> bool {
    if !is_row(plan, table, row) {
        return false;
    }
    match PageBuf::with_room(alloc, 21) {
        Ok(page) => {
            let mut page = page;
            put_key(plan, table, row, &mut page, steps);
            page.text() == line.as_bytes()
        }
        Err(_) => false,
    }
}

fn is_live_at<L: Ledger>(
    plan: &Plan,
    table: u32,
    row: u64,
    unit: u64,
    is_live: bool,
    steps: &mut Steps<L>,
) -> bool {
    is_row(plan, table, row)
        && unit <= plan.units()
        && live(plan, table, row, unit, steps) == is_live
}

fn has_report<L: Ledger>(
    alloc: Global,
    plan: &Plan,
    table: u32,
    key: u64,
    unit: u64,
    report: &str,
    steps: &mut Steps<L>,
) -> bool {
    if table >= plan.tables() || unit > plan.units() || plan.max_line(table) > 100 {
        return false;
    }
    match PageBuf::with_room(alloc, 228) {
        Ok(page) => {
            let mut page = page;
            let found = row_report(plan, table, key, unit, &mut page, steps);
            found != report.is_empty() && page.text() == report.as_bytes()
        }
        Err(_) => false,
    }
}

/// Returns the key of the parent of a row by the column after the key. The parent is in the table at place 0. None if there is none.
fn key_of_parent<L: Ledger>(
    plan: &Plan,
    table: u32,
    row: u64,
    steps: &mut Steps<L>,
) -> Option<u64> {
    if !is_row(plan, table, row) || !has_parents(plan, table) {
        return None;
    }
    let parent = parent(plan, table, row, 1, steps);
    if is_row(plan, 0, parent) {
        Some(key(plan, 0, parent, steps))
    } else {
        None
    }
}

fn is_child<L: Ledger>(
    alloc: Global,
    plan: &Plan,
    table: u32,
    row: u64,
    own: &str,
    steps: &mut Steps<L>,
) -> bool {
    let parent = key_of_parent(plan, table, row, steps).unwrap_or(0);
    match format!(in alloc; "{own}\t{parent}\n") {
        Ok(line) => has_line(alloc, plan, table, row, 0, line.as_str(), steps),
        Err(_) => false,
    }
}

/// The number of rows that go onto a page. It doesn't divide the number of rows of a run.
const ROWS_AT_ONCE: u64 = 100;

/// Returns a checksum of the lines of all rows of a table, page by page.
fn text_checksum<L: Ledger>(
    lines: &RunLines<'_>,
    page: &mut PageBuf,
    rows: u64,
    steps: &mut Steps<L>,
) -> u64
    requires rows { rows ≤ born_count (table_of lines.now.plan lines.now.table).births lines.now.unit }
    requires room { 100 * max_line (layout_of lines.now.plan) lines.now.table ≤ page.old.room }
{
    let mut work = RunBuf::new();
    let mut sum = 0;
    let mut first = 0;
    while first < rows {
        let count = (rows - first).min(ROWS_AT_ONCE);
        page.clear();
        lines.put_run(first, count, &mut work, page, steps);
        sum = with_text(sum, page.text());
        first += count;
    }
    sum
}

/// Returns a checksum of the text of the first table at its last unit; None if memory runs out.
fn text_sum<L: Ledger>(alloc: Global, plan: &Plan, steps: &mut Steps<L>) -> Option<u64>
    requires table { 0 < length plan.now.schema.tables }
    requires short { max_line (layout_of plan.now) 0 ≤ 100 }
{
    let unit = plan.units();
    let orders = JobOrders::new(alloc, plan, 0, 1, unit).ok()?;
    let digits = Digits::new(alloc).ok()?;
    let lines = TableLines::new(alloc, plan, 0, unit).ok()?;
    let rows = Rows::with(plan, &orders);
    let lines = RunLines::new(&rows, &lines, &digits, 0, unit);
    let room = 100 * plan.max_line(0);
    let mut page = PageBuf::with_room(alloc, room as usize).ok()?;
    Some(text_checksum(&lines, &mut page, born(plan, 0, unit), steps))
}

fn has_text<L: Ledger>(alloc: Global, plan: &Plan, sum: u64, steps: &mut Steps<L>) -> bool {
    plan.tables() == 1 && plan.max_line(0) <= 100 && text_sum(alloc, plan, steps) == Some(sum)
}

/// Tells whether a statement on lines holds.
pub(crate) fn has_lines_as_told<L: Ledger>(
    alloc: Global,
    plan: &Plan,
    table: u32,
    number: u64,
    told: Told<'_>,
    steps: &mut Steps<L>,
) -> bool {
    match told {
        Told::Line(unit, line) => has_line(alloc, plan, table, number, unit, line, steps),
        Told::KeyLine(line) => has_key_line(alloc, plan, table, number, line, steps),
        Told::Live(unit, live) => is_live_at(plan, table, number, unit, live, steps),
        Told::Report(unit, report) => has_report(alloc, plan, table, number, unit, report, steps),
        Told::Child(own) => is_child(alloc, plan, table, number, own, steps),
        Told::Text(sum) => has_text(alloc, plan, sum, steps),
        _ => false,
    }
}

/// One row at each of three units.
const ONE: &str = r#"
seed = 7
units = 2
[[table]]
name = "t"
rows = 1
insert = 1
"#;

/// The same schema with the seed 1.
const ONE_OF_SEED_1: &str = r#"
seed = 1
units = 2
[[table]]
name = "t"
rows = 1
insert = 1
"#;

/// A table with as many rows as can be, all at unit 0.
const LARGE: &str = r#"
seed = 7
units = 0
[[table]]
name = "t"
rows = 1099511627776
"#;

/// A table with one row at each unit except 0, over as many units as there can be.
const LONG: &str = r#"
seed = 7
units = 10000
[[table]]
name = "t"
rows = 0
insert = 1
"#;

const BIRTHS: &str = r#"
column = [
    { name = "id", kind = "key", base = 1 },
    { name = "born", kind = "born" },
]
"#;

const SCRAMBLED_BIRTHS: &str = r#"
column = [
    { name = "id", kind = "key", base = 1, scramble = true },
    { name = "born", kind = "born" },
]
"#;

/// Scrambled keys, units of birth, half of them null, and labels, 300 in 1,000 of them null. A label is an r, the key, a tab, the unit of
/// birth, a mark and the key again.
const LABELLED: &str = r#"
seed = 7
units = 2
[[table]]
name = "t"
rows = 4
insert = 2
column = [
    { name = "id", kind = "key", base = 1, scramble = true },
    { name = "born", kind = "born", null = 500 },
    { name = "label", kind = "template", null = 300, parts = [
        "r", { column = "id" }, "\t", { column = "born" }, "!", { column = "id" },
    ] },
]
"#;

/// An owner at each unit, who lives for two units, and a row of theirs. Its code has padded numbers: the key, a number below 0, one that is
/// longer than its width, a drawn one, the owner, and the unit of birth.
const PADDED: &str = r#"
seed = 7
units = 5
[[table]]
name = "owners"
rows = 1
insert = 1
life = [2, 2]
column = [{ name = "id", kind = "key", base = 40 }]
[[table]]
name = "t"
rows = 1
insert = 1
column = [
    { name = "id", kind = "key", base = 1 },
    { name = "below", kind = "int", lo = -5, hi = -5 },
    { name = "long", kind = "int", lo = 12345, hi = 12345 },
    { name = "drawn", kind = "skew", lo = 42, size = 1, power = 1 },
    { name = "owner", kind = "ref", table = "owners", window = 0, on_delete = "null" },
    { name = "born", kind = "born" },
    { name = "code", kind = "template", changes = true, parts = [
        "c", { column = "id", width = 3 }, "/", { column = "below", width = 4 }, "/", { column = "long", width = 3 }, "/",
        { column = "drawn", width = 4 }, "/", { column = "owner", width = 3 }, "/", { column = "born", width = 2 },
    ] },
]
"#;

/// Four parents with scrambled keys, and four children of any of the parents.
const SCRAMBLED_PARENTS: &str = r#"
seed = 7
units = 0
[[table]]
name = "parents"
rows = 4
column = [{ name = "id", kind = "key", base = 1, scramble = true }]
[[table]]
name = "children"
rows = 4
column = [
    { name = "id", kind = "key", base = 1 },
    { name = "parent", kind = "ref", table = "parents", window = "all" },
]
"#;

/// Ends a text that ends within the column of a customer. The customers are dealt in a drawn order, and a lookup shows when theirs was born.
const DRAWN_AND_SHOWN: &str = r#", deal = "drawn" },
    { name = "since", kind = "lookup", via = "customer", column = "born" },
]
"#;

/// A day, and one that comes 1 to 30 days after it.
const DUES: &str = r#"
column = [
    { name = "id", kind = "key", base = 1 },
    { name = "born", kind = "born" },
    { name = "d", kind = "date", lo = "2024-02-28", hi = "2024-02-28" },
    { name = "due", kind = "after", of = "d", lo = 1, hi = 30 },
]
"#;

/// A day, one that comes two days after it, and one two days before that.
const THERE_AND_BACK: &str = r#"
column = [
    { name = "id", kind = "key", base = 1 },
    { name = "born", kind = "born" },
    { name = "d", kind = "date", lo = "2024-02-28", hi = "2024-02-28" },
    { name = "due", kind = "after", of = "d", lo = 2, hi = 2 },
    { name = "again", kind = "after", of = "due", lo = -2, hi = -2 },
]
"#;

/// 12.34, 3, -0.05 and 0.050, and products and sums of these.
const TOTALS: &str = r#"
column = [
    { name = "id", kind = "key", base = 1 },
    { name = "born", kind = "born" },
    { name = "p", kind = "fixed", lo = 1234, hi = 1234, decimals = 2 },
    { name = "n", kind = "int", lo = 3, hi = 3 },
    { name = "m", kind = "fixed", lo = -5, hi = -5, decimals = 2 },
    { name = "s", kind = "fixed", lo = 50, hi = 50, decimals = 3 },
    { name = "a", kind = "product", of = ["p", "n"] },
    { name = "b", kind = "sum", of = ["p", "n"] },
    { name = "c", kind = "product", of = ["m", "n"] },
    { name = "d", kind = "sum", of = ["m", "s"] },
    { name = "e", kind = "sum", of = ["a", "b", "c", "d"] },
]
"#;

/// A number that a double doesn't hold, and its sum with 0.
const PAST_A_DOUBLE: &str = r#"
column = [
    { name = "id", kind = "key", base = 1 },
    { name = "born", kind = "born" },
    { name = "x", kind = "int", lo = 9007199254740993, hi = 9007199254740993 },
    { name = "y", kind = "int", lo = 0, hi = 0 },
    { name = "z", kind = "sum", of = ["x", "y"] },
]
"#;

/// 1,000 rows at unit 0, and 10 at each later unit.
const THOUSAND: &str = r#"
seed = 7
units = 5
[[table]]
name = "t"
rows = 1000
insert = 10
"#;

/// A row at each unit. It lives for three units and changes every two.
const CUSTOMERS: &str = r#"
seed = 7
units = 5
[[table]]
name = "customers"
rows = 1
insert = 1
life = [3, 3]
update = 2
column = [
    { name = "id", kind = "key", base = 1 },
    { name = "born", kind = "born" },
    { name = "changed", kind = "changed" },
]
"#;

const KEYS: &str = r#"
column = [{ name = "id", kind = "key", base = 1 }]
"#;

/// One row at each of three units.
const ONE_ROWS: &[(u32, u64, Told<'static>)] = &[
    (0, 0, Told::Line(2, "1\t0\n")),
    (0, 1, Told::Line(2, "2\t1\n")),
    (0, 2, Told::Line(2, "3\t2\n")),
    (0, 0, Told::KeyLine("1\n")),
    (0, 1, Told::KeyLine("2\n")),
    (0, 2, Told::KeyLine("3\n")),
];

const TOTAL_LINE: &str = "1\t0\t12.34\t3\t-0.05\t0.050\t37.02\t15.34\t-0.15\t0.000\t52.210\n";

// By hand, but for the three drawn days, which are those of the Python program.
const DAYS_AND_TOTALS: &[(&[&str], &[(u32, u64, Told<'static>)])] = &[
    (
        &[ONE_OF_SEED_1, DUES],
        &[
            (0, 0, Told::Line(2, "1\t0\t2024-02-28\t2024-02-29\n")),
            (0, 1, Told::Line(2, "2\t1\t2024-02-28\t2024-03-12\n")),
            (0, 2, Told::Line(2, "3\t2\t2024-02-28\t2024-03-06\n")),
        ],
    ),
    (
        &[ONE, THERE_AND_BACK],
        &[(
            0,
            0,
            Told::Line(0, "1\t0\t2024-02-28\t2024-03-01\t2024-02-28\n"),
        )],
    ),
    (&[ONE, TOTALS], &[(0, 0, Told::Line(0, TOTAL_LINE))]),
    (
        &[ONE, PAST_A_DOUBLE],
        &[(
            0,
            0,
            Told::Line(0, "1\t0\t9007199254740993\t0\t9007199254740993\n"),
        )],
    ),
];

#[test]
fn dates_follow_dates_and_numbers_are_joined(rt: HostRuntime) {
    assert_all::<Brand>(&rt, rt.alloc(), DAYS_AND_TOTALS, Blank::new(1));
}

// By hand: a cohort of one row has its key in place, and padded numbers. From the Python program: the last key of the large table, scrambled; a label, a label
// that cites a null unit, and a null label; and the checksums of texts of 1,050 lines.
const LINES: &[(&[&str], &[(u32, u64, Told<'static>)])] = &[
    (&[ONE, BIRTHS], ONE_ROWS),
    (&[ONE, SCRAMBLED_BIRTHS], ONE_ROWS),
    (
        &[LARGE, BIRTHS],
        &[
            (0, 1_099_511_627_775, Told::Line(0, "1099511627776\t0\n")),
            (0, 1_099_511_627_775, Told::KeyLine("1099511627776\n")),
        ],
    ),
    (
        &[LARGE, SCRAMBLED_BIRTHS],
        &[
            (0, 1_099_511_627_775, Told::Line(0, "91737330597\t0\n")),
            (0, 1_099_511_627_775, Told::KeyLine("91737330597\n")),
        ],
    ),
    (
        &[LONG, BIRTHS],
        &[
            (0, 9_999, Told::Line(10_000, "10000\t10000\n")),
            (0, 9_999, Told::KeyLine("10000\n")),
        ],
    ),
    (
        &[LABELLED],
        &[
            (0, 0, Told::Line(2, "3\t\\N\t\\N\n")),
            (0, 0, Told::KeyLine("3\n")),
            (0, 3, Told::Line(2, "1\t0\tr1\\t0!1\n")),
            (0, 3, Told::KeyLine("1\n")),
            (0, 4, Told::Line(2, "6\t1\tr6\\t1!6\n")),
            (0, 4, Told::KeyLine("6\n")),
            (0, 5, Told::Line(2, "5\t\\N\tr5\\t!5\n")),
            (0, 5, Told::KeyLine("5\n")),
        ],
    ),
    (
        &[PADDED],
        &[
            (
                1,
                0,
                Told::Line(1, "1\t-5\t12345\t42\t40\t0\tc001/-005/12345/0042/040/00\n"),
            ),
            (
                1,
                0,
                Told::Line(2, "1\t-5\t12345\t42\t\\N\t0\tc001/-005/12345/0042//00\n"),
            ),
            (
                1,
                1,
                Told::Line(2, "2\t-5\t12345\t42\t41\t1\tc002/-005/12345/0042/041/01\n"),
            ),
        ],
    ),
    (
        &[THOUSAND, BIRTHS],
        &[(0, 0, Told::Text(9_241_165_838_321_129_305))],
    ),
    (
        &[THOUSAND, SCRAMBLED_BIRTHS],
        &[(0, 0, Told::Text(9_490_844_110_043_729_951))],
    ),
];

#[test]
fn lines_and_keys(rt: HostRuntime) {
    assert_all::<Brand>(&rt, rt.alloc(), LINES, Blank::new(1));
}

// By hand: a row that lives for two units is there from its birth on, as long as it lives. The orders 0 to 2 are of customer 0, and order 3
// of customer 1. Order 0 dies with its customer at unit 3. The keys of scrambled parents are those of `life_intervals`. The parents that are
// drawn are from the Python program. A row that shows what it looks up shows it of such a parent.
const FAMILIES: &[(&[&str], &[(u32, u64, Told<'static>)])] = &[
    (
        &[ONE, "life = [2, 2]", BIRTHS],
        &[
            (0, 0, Told::Live(0, true)),
            (0, 0, Told::Live(1, true)),
            (0, 0, Told::Live(2, false)),
            (0, 1, Told::Live(0, false)),
            (0, 1, Told::Live(1, true)),
            (0, 1, Told::Live(2, true)),
            (0, 2, Told::Live(1, false)),
            (0, 2, Told::Live(2, true)),
        ],
    ),
    (
        &[SALES],
        &[
            (0, 0, Told::Line(2, "1\t0\t1\n")),
            (0, 1, Told::Line(2, "2\t1\t2\n")),
            (0, 2, Told::Line(2, "3\t2\t2\n")),
            (1, 0, Told::Line(2, "1\t1\t0\n")),
            (1, 1, Told::Line(2, "2\t1\t0\n")),
            (1, 2, Told::Line(2, "3\t1\t0\n")),
            (1, 3, Told::Line(3, "4\t2\t1\n")),
            (2, 0, Told::Line(2, "1\t1\to1\t1\n")),
            (2, 1, Told::Line(2, "2\t2\to2\t1\n")),
            (2, 2, Told::Line(2, "3\t3\to3\t1\n")),
            (2, 3, Told::Line(3, "4\t4\to4\t2\n")),
            (1, 0, Told::Live(2, true)),
            (1, 0, Told::Live(3, false)),
        ],
    ),
    (
        &[FIVE_PARENTS, DRAWN],
        &[
            (1, 0, Told::Line(3, "1\t2\n")),
            (1, 1, Told::Line(3, "2\t4\n")),
            (1, 6, Told::Line(3, "7\t1\n")),
            (1, 7, Told::Line(3, "8\t3\n")),
        ],
    ),
    (
        &[HUGE, DRAWN],
        &[
            (1, 0, Told::Line(1, "1\t565695466259\n")),
            (1, 1, Told::Line(1, "2\t1087946718330\n")),
        ],
    ),
    (
        &[ORDERS, DRAWN],
        &[
            (1, 3, Told::Line(4, "4\t3\n")),
            (1, 3, Told::Live(5, false)),
            (1, 5, Told::Line(5, "6\t4\n")),
        ],
    ),
    (
        &[ORDERS, DRAWN_AND_SHOWN],
        &[
            (1, 3, Told::Line(4, "4\t3\t2\n")),
            (1, 5, Told::Line(5, "6\t4\t3\n")),
        ],
    ),
    (
        &[SCRAMBLED_PARENTS],
        &[
            (1, 0, Told::Child("1")),
            (1, 1, Told::Child("2")),
            (1, 2, Told::Child("3")),
            (1, 3, Told::Child("4")),
        ],
    ),
];

#[test]
fn families(rt: HostRuntime) {
    assert_all::<Brand>(&rt, rt.alloc(), FAMILIES, Blank::new(1));
}

// By hand: a row is there for three units from its birth. It changes one unit after its birth, and then every two. A table that has only keys
// holds each row to its end. An order of a drawn customer, who is from the Python program, goes with the customer.
const REPORTS: &[(&[&str], &[(u32, u64, Told<'static>)])] = &[
    (
        &[CUSTOMERS],
        &[
            (
                0,
                1,
                Told::Report(2, "born 0\ngone 3\nstate live\nchanged 1\n1\t0\t1\n"),
            ),
            (0, 1, Told::Report(3, "born 0\ngone 3\nstate dead\n")),
            (
                0,
                3,
                Told::Report(2, "born 2\ngone 5\nstate live\nchanged 2\n3\t2\t2\n"),
            ),
            (0, 5, Told::Report(2, "born 4\ngone never\nstate unborn\n")),
            (
                0,
                5,
                Told::Report(5, "born 4\ngone never\nstate live\nchanged 5\n5\t4\t5\n"),
            ),
            (0, 0, Told::Report(2, "")),
            (0, 7, Told::Report(2, "")),
        ],
    ),
    (
        &[ORDERS, DRAWN],
        &[
            (
                1,
                4,
                Told::Report(4, "born 3\ngone 5\nstate live\nchanged 3\n4\t3\n"),
            ),
            (1, 4, Told::Report(5, "born 3\ngone 5\nstate dead\n")),
        ],
    ),
    (
        &[LARGE, KEYS],
        &[
            (
                0,
                1_099_511_627_776,
                Told::Report(
                    0,
                    "born 0\ngone never\nstate live\nchanged 0\n1099511627776\n",
                ),
            ),
            (0, 1_099_511_627_777, Told::Report(0, "")),
        ],
    ),
];

#[test]
fn reports_on_rows(rt: HostRuntime) {
    assert_all::<Brand>(&rt, rt.alloc(), REPORTS, Blank::new(1));
}
