//! Statements that are worked out by hand, in packages of several sizes.

ghost use Rattle.std.specs.Prelude.{◌≡◌, ◌<◌, ◌≤◌, IfSome, length};
ghost use Rattle.life_intervals.specs.Generator.{last_unit};
ghost use Rattle.update_box.specs.Packages.{IsJobOf};
ghost use Rattle.update_box.specs.Prepared.{ArePrepared, IsAmong};
ghost use Rattle.update_box.specs.TableLists.{HasLists};

use line_pages::PageBuf;
use range_workers::Packer;
use schema_check::check;
use schema_facts::Dictionaries;
use schema_plan::Plan;
use schema_read::read_schema;
use sql_lines::{StatementPacker, put_literal, statement_reach};
use std::alloc::Global;
use std::marker::Brand;
use std::process::Abort;
use std::sync::ledger::{Blank, Ledger};
use step_count::Steps;
use update_box::{Content, Job, PreparedTables, UnitRows, rows_of_unit};

/// Customers and orders. One customer is born at each unit, lives three units and changes every two. An order is of the oldest customer of
/// the last three units.
const SALES: &str = r#"
seed = 7
units = 5
[[table]]
name = "customer"
rows = 1
insert = 1
life = [3, 3]
update = 2
column = [
    { name = "id", kind = "key", base = 1 },
    { name = "born", kind = "born" },
    { name = "changed", kind = "changed" },
]
[[table]]
name = "orders"
rows = 1
insert = 1
life = [9, 9]
column = [
    { name = "id", kind = "key", base = 1 },
    { name = "customer", kind = "ref", table = "customer", window = 2 },
]
"#;

/// A row whose texts hold quotes, backslashes and a tab, whose fixed number is below 1, and which has a null field.
const TEXTS: &str = r#"
seed = 1
units = 0
[[table]]
name = "t"
rows = 1
column = [
    { name = "id", kind = "key", base = 1 },
    { name = "born", kind = "born" },
    { name = "name", kind = "pick", entries = ["it's"] },
    { name = "rate", kind = "fixed", lo = -5, hi = -5, decimals = 2 },
    { name = "none", kind = "int", lo = 0, hi = 9, null = 999 },
    { name = "path", kind = "pick", entries = ["a\\b\tc"] },
    { name = "none_too", kind = "pick", entries = ["x"], null = 999 },
]
"#;

/// A table of keys that change, though no update says it, and one that looks up a number and a text.
const KEYS: &str = r#"
seed = 1
units = 2
[[table]]
name = "k"
rows = 1
insert = 1
update = 1
column = [{ name = "id", kind = "key", base = 7 }]
[[table]]
name = "p"
rows = 1
column = [
    { name = "id", kind = "key", base = 1 },
    { name = "n", kind = "int", lo = 5, hi = 5 },
    { name = "s", kind = "pick", entries = ["q"] },
    { name = "c", kind = "case", on = "s", branches = [{ kind = "int", lo = 7, hi = 7 }] },
    { name = "d", kind = "case", on = "s", branches = [{ kind = "pick", entries = ["w"] }] },
]
[[table]]
name = "l"
rows = 1
column = [
    { name = "id", kind = "key", base = 1 },
    { name = "p", kind = "ref", table = "p", window = 0 },
    { name = "n", kind = "lookup", via = "p", column = "n" },
    { name = "s", kind = "lookup", via = "p", column = "s" },
]
"#;

fn plan_of(rt: &impl Abort, alloc: Global, text: &str) -> Plan {
    let Ok(schema) = read_schema(alloc, text.as_bytes()) else {
        panic!(rt; "no schema");
    };
    let Ok(plan) = check(alloc, schema, Dictionaries::new(alloc)) else {
        panic!(rt; "no plan");
    };
    plan
}

/// Appends all packages of a packer, one after the other. Returns false if memory runs out.
fn pack_all(alloc: Global, packer: &StatementPacker<'_>, text: &mut Vec<u8>) -> bool {
    let Ok(mut page) = PageBuf::with_room(alloc, packer.room()) else {
        return false;
    };
    for n in 0..packer.count() {
        page.clear();
        packer.pack(n, &mut page);
        if text.extend_from_slice(page.text()).is_err() {
            return false;
        }
    }
    true
}

/// Returns what the lines of a table at a unit need; None if memory runs out.
fn prepared(alloc: Global, plan: &Plan, unit: u64, table: u32) -> Option<PreparedTables>
    requires unit { unit ≤ last_unit plan.now }
    requires table { table < length plan.now.schema.tables }
    ensures tables { IfSome result (ArePrepared plan.now) }
    ensures among { IfSome result (λ tables. IsAmong tables table) }
{
    match PreparedTables::new(alloc, plan, unit, Some(table)) {
        Ok(tables) => Some(tables),
        Err(_) => None,
    }
}

/// Returns what a unit changes in a table; None if memory runs out.
fn lists_of<B: Ledger>(
    alloc: Global,
    plan: &Plan,
    tables: &PreparedTables,
    unit: u64,
    table: u32,
    steps: &mut Steps<B>,
) -> Option<UnitRows>
    requires tables { ArePrepared plan.now tables.now }
    requires later { 1 ≤ unit }
    requires unit { unit ≤ last_unit plan.now }
    requires table { table < length plan.now.schema.tables }
    ensures { IfSome result (λ lists. HasLists plan.now unit lists table) }
{
    let rows = tables.rows(plan);
    match rows_of_unit(alloc, &rows, Some(table), unit, steps) {
        Ok(lists) => Some(lists),
        Err(_) => None,
    }
}

/// Returns the statements of a content of a table at a unit, in packages of at most `size` rows; None if memory runs out.
fn statements<B: Ledger>(
    alloc: Global,
    plan: &Plan,
    unit: u64,
    table: u32,
    content: Content,
    size: u64,
    blank: Blank,
) -> Option<Vec<u8>>
    requires name { blank.name ≡ B.name }
    requires parts { blank.parts ≡ B.parts }
    requires some { 0 < blank.parts }
    requires later { 1 ≤ unit }
    requires unit { unit ≤ last_unit plan.now }
    requires table { table < length plan.now.schema.tables }
    requires some_row { 1 ≤ size }
    requires limit { size ≤ 1000000 }
{
    let mut steps = Steps::<B>::new(blank);
    let mut text = Vec::new(alloc);
    let tables = prepared(alloc, plan, unit, table)?;
    let lists = lists_of(alloc, plan, &tables, unit, table, &mut steps)?;
    let job = Job {
        unit,
        table: Some(table),
        package: size,
        node: 0,
        nodes: 1,
    };
    match StatementPacker::of_changes(alloc, plan, &tables, &lists, &job, table, content) {
        Ok(packer) if pack_all(alloc, &packer, &mut text) => Some(text),
        _ => None,
    }
}

/// Returns the insertions of the rows that a table holds at a unit; None if memory runs out.
fn insertions(alloc: Global, plan: &Plan, unit: u64, table: u32) -> Option<Vec<u8>>
    requires unit { unit ≤ last_unit plan.now }
    requires table { table < length plan.now.schema.tables }
{
    let mut text = Vec::new(alloc);
    let tables = prepared(alloc, plan, unit, table)?;
    let job = Job {
        unit,
        table: Some(table),
        package: 1000,
        node: 0,
        nodes: 1,
    };
    match StatementPacker::of_held(alloc, plan, &tables, &job, table) {
        Ok(packer) if pack_all(alloc, &packer, &mut text) => Some(text),
        _ => None,
    }
}

/// Tells whether the insertions of the rows that a table holds at a unit are a given text.
fn are_inserted(alloc: Global, plan: &Plan, unit: u64, table: u32, text: &str) -> bool {
    if plan.units() < unit || plan.tables() <= table {
        return false;
    }
    match insertions(alloc, plan, unit, table) {
        Some(made) => made.as_slice() == text.as_bytes(),
        None => false,
    }
}

/// Tells whether the statements of a content of a table at a unit are a given text, in packages of at most `size` rows.
fn are_stated(
    alloc: Global,
    plan: &Plan,
    unit: u64,
    table: u32,
    content: Content,
    size: u64,
    text: &str,
) -> bool {
    if unit < 1 || plan.units() < unit || plan.tables() <= table || size < 1 || 1_000_000 < size {
        return false;
    }
    match statements::<Brand>(alloc, plan, unit, table, content, size, Blank::new(1)) {
        Some(made) => made.as_slice() == text.as_bytes(),
        None => false,
    }
}

const DELETIONS: &str =
    "DELETE FROM \"orders\" WHERE \"id\" = 1;\nDELETE FROM \"orders\" WHERE \"id\" = 2;\nDELETE FROM \"orders\" WHERE \"id\" = 3;\n";

#[test]
fn a_unit_is_stated_in_packages_of_any_size(rt: HostRuntime) {
    let alloc = rt.alloc();
    let plan = plan_of(&rt, alloc, SALES);
    for size in [1, 2, 1000] {
        let update = "UPDATE \"customer\" SET \"born\" = 2, \"changed\" = 3 WHERE \"id\" = 3;\n";
        assert!(rt;
            are_stated(alloc, &plan, 3, 0, Content::Updated, size, update),
            "update by {size}"
        );
        let deletion = "DELETE FROM \"customer\" WHERE \"id\" = 1;\n";
        assert!(rt;
            are_stated(alloc, &plan, 3, 0, Content::Deleted, size, deletion),
            "deletion by {size}"
        );
        let insertion = "INSERT INTO \"customer\" VALUES (4, 3, 3);\n";
        assert!(rt;
            are_stated(alloc, &plan, 3, 0, Content::Inserted, size, insertion),
            "insertion by {size}"
        );
        assert!(rt;
            are_stated(alloc, &plan, 3, 1, Content::Updated, size, ""),
            "no update by {size}"
        );
        assert!(rt;
            are_stated(alloc, &plan, 3, 1, Content::Deleted, size, DELETIONS),
            "deletions by {size}"
        );
    }
}

#[test]
fn texts_stand_between_quotes(rt: HostRuntime) {
    let alloc = rt.alloc();
    let plan = plan_of(&rt, alloc, TEXTS);
    let row = "INSERT INTO \"t\" VALUES (1, 0, 'it''s', -0.05, NULL, 'a\\b\tc', NULL);\n";
    assert!(rt; are_inserted(alloc, &plan, 0, 0, row));
}

/// A price, a number and their product, a pick, a case of a number, a day, and one two days after it.
const BILL: &str = r#"
seed = 7
units = 2
[[table]]
name = "t"
rows = 1
insert = 1
column = [
    { name = "id", kind = "key", base = 1 },
    { name = "born", kind = "born" },
    { name = "p", kind = "fixed", lo = 1234, hi = 1234, decimals = 2 },
    { name = "n", kind = "int", lo = 3, hi = 3 },
    { name = "a", kind = "product", of = ["p", "n"] },
    { name = "k", kind = "pick", entries = ["x"] },
    { name = "c", kind = "case", on = "k", branches = [{ kind = "int", lo = 7, hi = 7 }] },
    { name = "d", kind = "date", lo = "2024-02-28", hi = "2024-02-28" },
    { name = "due", kind = "after", of = "d", lo = 2, hi = 2 },
]
"#;

#[test]
fn totals_stand_bare_and_dates_between_quotes(rt: HostRuntime) {
    let alloc = rt.alloc();
    let plan = plan_of(&rt, alloc, BILL);
    let row =
        "INSERT INTO \"t\" VALUES (1, 0, 12.34, 3, 37.02, 'x', 7, '2024-02-28', '2024-03-01');\n";
    assert!(rt; are_inserted(alloc, &plan, 0, 0, row));
}

#[test]
fn keys_alone_are_not_updated(rt: HostRuntime) {
    let alloc = rt.alloc();
    let plan = plan_of(&rt, alloc, KEYS);
    assert!(rt; are_stated(alloc, &plan, 2, 0, Content::Updated, 1000, ""));
    let rows =
        "INSERT INTO \"k\" VALUES (7);\nINSERT INTO \"k\" VALUES (8);\nINSERT INTO \"k\" VALUES (9);\n";
    assert!(rt; are_inserted(alloc, &plan, 2, 0, rows));
    assert!(rt;
        are_inserted(
            alloc,
            &plan,
            0,
            1,
            "INSERT INTO \"p\" VALUES (1, 5, 'q', 7, 'w');\n"
        )
    );
    assert!(rt;
        are_inserted(
            alloc,
            &plan,
            0,
            2,
            "INSERT INTO \"l\" VALUES (1, 1, 5, 'q');\n"
        )
    );
}

#[test]
fn statements_have_a_reach(rt: HostRuntime) {
    let plan = plan_of(&rt, rt.alloc(), SALES);
    assert_eq!(rt; statement_reach(&plan), 278);
}

#[test]
fn a_literal_is_put(rt: HostRuntime) {
    let Ok(mut page) = PageBuf::with_room(rt.alloc(), 20) else {
        return;
    };
    put_literal(&mut page, Some(b"'\\"), false);
    put_literal(&mut page, Some(b"'"), true);
    put_literal(&mut page, None, true);
    assert_eq!(rt; page.text(), b"'''\\''NULL".as_slice());
}
