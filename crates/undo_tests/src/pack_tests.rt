//! Undo texts that are worked out by hand, in packages of several sizes.

ghost use Rattle.std.specs.Prelude.{◌≡◌, ◌<◌, ◌≤◌, ◌-◌, length};
ghost use Rattle.life_intervals.specs.Generator.{last_unit};
ghost use Rattle.undo_streams.specs.Places.{places_of};
ghost use Rattle.update_box.specs.TableLists.{table_lists_at};
ghost use Rattle.update_box.specs.UnitLists.{unit_lists};

use life_intervals::Rows;
use line_pages::{Digits, PageBuf};
use out_of_memory::Memory;
use range_workers::Packer;
use row_lines::{RunLines, TableLines};
use schema_check::check;
use schema_facts::Dictionaries;
use schema_plan::Plan;
use schema_read::read_schema;
use std::alloc::Global;
use std::marker::Brand;
use std::process::Abort;
use std::sync::ledger::{Blank, Ledger};
use step_count::Steps;
use undo_streams::{Changes, UndoPacker, places};
use update_box::{UnitRows, unit_rows};

/// Customers and orders. One customer is born at each unit, lives three units and changes every two. An order is of the oldest customer of
/// the last three units.
const SALES: &str = r#"
seed = 7
units = 5
[[table]]
name = "customer"
rows = 1
insert = 1
life = [3, 3]
update = 2
column = [
    { name = "id", kind = "key", base = 1 },
    { name = "born", kind = "born" },
    { name = "changed", kind = "changed" },
]
[[table]]
name = "orders"
rows = 1
insert = 1
life = [9, 9]
column = [
    { name = "id", kind = "key", base = 1 },
    { name = "customer", kind = "ref", table = "customer", window = 2 },
]
"#;

fn plan_of(rt: &impl Abort, alloc: Global, text: &str) -> Plan {
    let Ok(schema) = read_schema(alloc, text.as_bytes()) else {
        panic!(rt; "no schema");
    };
    let Ok(plan) = check(alloc, schema, Dictionaries::new(alloc)) else {
        panic!(rt; "no plan");
    };
    plan
}

/// Returns all packages of a packer, one after the other; None if memory runs out.
fn packed(alloc: Global, packer: &UndoPacker<'_>) -> Option<Vec<u8>> {
    let mut text = Vec::new(alloc);
    let Ok(mut page) = PageBuf::with_room(alloc, packer.room()) else {
        return None;
    };
    for n in 0..packer.count() {
        page.clear();
        packer.pack(n, &mut page);
        if text.extend_from_slice(page.text()).is_err() {
            return None;
        }
    }
    Some(text)
}

/// Returns the packer of the undo text of a table for the lists of a unit.
fn packer_of<'a>(
    alloc: Global,
    rows: &'a Rows<'a>,
    before: RunLines<'a>,
    lists: &'a UnitRows,
    found: &'a [u64],
    table: u32,
    size: u64,
) -> Result<UndoPacker<'a>, Memory>
    requires table { table < length rows.now.schema.tables }
    requires later { 1 ≤ lists.now.unit }
    requires unit { lists.now.unit ≤ last_unit rows.now }
    requires lists { lists.now ≡ unit_lists rows.now lists.now.unit }
    requires before { before ≡ record { plan = rows.now; table = table; unit = lists.now.unit - 1 } }
    requires found { found.now ≡ places_of rows.now table (lists.now.unit - 1) (table_lists_at lists.now table).deleted }
    requires some_line { 1 ≤ size }
    requires limit { size ≤ 1000000 }
{
    let _sound = rows.plan().schema(); // so each cohort is within its limits
    let changes = Changes {
        deleted: lists.dels(table),
        places: found,
        updated: lists.upds(table),
        inserted: lists.ins(table),
    };
    UndoPacker::new(alloc, rows, before, table, lists.unit(), changes, size)
}

/// Returns the undo text of a table at a unit, in packages of at most `size` lines; None if memory runs out.
fn undo_text<L: Ledger>(
    alloc: Global,
    plan: &Plan,
    table: u32,
    t: u64,
    size: u64,
    steps: &mut Steps<L>,
) -> Option<Vec<u8>>
    requires table { table < length plan.now.schema.tables }
    requires later { 1 ≤ t }
    requires unit { t ≤ last_unit plan.now }
    requires some_line { 1 ≤ size }
    requires limit { size ≤ 1000000 }
{
    let _limits = plan.schema(); // so the table held each row that the unit deletes
    let rows = Rows::of(plan);
    let Ok(lists) = unit_rows(alloc, plan, t, steps) else {
        return None;
    };
    let Ok(found) = places(alloc, &rows, table, t - 1, lists.dels(table), steps) else {
        return None;
    };
    let (Ok(lines), Ok(digits)) = (
        TableLines::new(alloc, plan, table, t - 1),
        Digits::new(alloc),
    ) else {
        return None;
    };
    let before = RunLines::new(&rows, &lines, &digits, table, t - 1);
    match packer_of(alloc, &rows, before, &lists, found.as_slice(), table, size) {
        Ok(packer) => packed(alloc, &packer),
        Err(_) => None,
    }
}

/// Tells whether the undo text of a table at a unit is a given text, in packages of at most `size` lines.
fn is_undone<L: Ledger>(
    alloc: Global,
    plan: &Plan,
    table: u32,
    t: u64,
    size: u64,
    text: &[u8],
    steps: &mut Steps<L>,
) -> bool {
    if t < 1 || plan.units() < t || plan.tables() <= table || size < 1 || 1_000_000 < size {
        return false;
    }
    match undo_text(alloc, plan, table, t, size, steps) {
        Some(made) => made.as_slice() == text,
        None => false,
    }
}

const CUSTOMERS: &[u8] = b"drop\t4\nset\t3\t2\t2\nadd\t0\t1\t0\t1\n";

const ORDERS: &[u8] = b"drop\t4\nadd\t0\t1\t1\nadd\t1\t2\t1\nadd\t2\t3\t1\n";

fn assert_undone<L: Ledger>(rt: &impl Abort, alloc: Global, blank: Blank)
    requires name { blank.name ≡ L.name }
    requires parts { blank.parts ≡ L.parts }
    requires some { 0 < blank.parts }
{
    let mut counted = Steps::<L>::new(blank);
    let steps = &mut counted;
    let plan = plan_of(rt, alloc, SALES);
    for size in [1, 2, 3, 1000] {
        assert!(rt;
            is_undone(alloc, &plan, 0, 3, size, CUSTOMERS, steps),
            "customers by {size}"
        );
        assert!(rt;
            is_undone(alloc, &plan, 1, 3, size, ORDERS, steps),
            "orders by {size}"
        );
    }
    assert!(rt;
        is_undone(alloc, &plan, 1, 1, 1000, b"drop\t2\n", steps),
        "unit 1"
    );
}

#[test]
fn a_unit_is_undone_in_packages_of_any_size(rt: HostRuntime) {
    assert_undone::<Brand>(&rt, rt.alloc(), Blank::new(1));
}
