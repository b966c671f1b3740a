//! Values from outside: lists of small tables that are worked out by hand, and lists of a larger one from an independent program. The program
//! is written in Python from the rules of the simulation and shares no code (docs/SECOND_PROGRAM.md).

ghost use Rattle.std.specs.Prelude.{◌≡◌, ◌<◌, ◌≤◌, length};
ghost use Rattle.life_intervals.specs.Generator.{last_unit};

use crate::fixtures::{DRAWN, HUGE, IN_TURN, ORDERS, SALES, is_row};
use crate::told::{Ordinals, Told, assert_all};
use life_intervals::{Cohort, birth, born, death, last_change};
use out_of_memory::Memory;
use row_cases::{plan_of, with_number};
use schema_plan::Plan;
use std::alloc::{AllocError, Global};
use std::marker::Brand;
use std::sync::ledger::{Blank, Ledger};
use std::test::Fail;
use step_count::Steps;
use update_box::{UnitRows, unit_rows};

fn are(rows: &[u64], told: Ordinals<'_>) -> bool {
    match told {
        Ordinals::Are(expected) => rows == expected,
        Ordinals::Count(count, expected) => {
            let mut sum = 0;
            for row in rows {
                sum = with_number(sum, *row);
            }
            rows.len() == count && sum == expected
        }
    }
}

fn has_changes(
    rows: &UnitRows,
    table: u32,
    deleted: Ordinals<'_>,
    updated: Ordinals<'_>,
    inserted: Cohort,
) -> bool
    requires { table < length rows.now.tables }
{
    are(rows.dels(table), deleted) && are(rows.upds(table), updated) && rows.ins(table) == inserted
}

/// Tells whether a unit changes what a statement says in a table.
pub(crate) fn changes_as_told<L: Ledger>(
    alloc: Global,
    plan: &Plan,
    table: u32,
    unit: u64,
    told: Told<'_>,
    steps: &mut Steps<L>,
) -> bool {
    let Told::Changes(deleted, updated, first, size) = told else {
        return false;
    };
    if unit < 1 || unit > plan.units() || table >= plan.tables() {
        return false;
    }
    match unit_rows(alloc, plan, unit, steps) {
        Ok(rows) => {
            rows.unit() == unit
                && has_changes(&rows, table, deleted, updated, Cohort { first, size })
        }
        Err(_) => false,
    }
}

/// A row at each unit. It lives for two units.
const MORTAL: &str = r#"
seed = 7
units = 4
[[table]]
name = "t"
rows = 1
insert = 1
life = [2, 2]
column = [{ name = "id", kind = "key", base = 1 }]
"#;

/// A row at each unit. It lives for four units.
const CHANGING: &str = r#"
seed = 7
units = 6
[[table]]
name = "t"
rows = 1
insert = 1
life = [4, 4]
update = 2
column = [{ name = "id", kind = "key", base = 1 }]
"#;

/// A table whose 300 rows of unit 0 have different lives and changes.
const LARGER: &str = r#"
seed = 7
units = 6
[[table]]
name = "t"
rows = 300
insert = 20
life = [2, 5]
update = 3
column = [{ name = "id", kind = "key", base = 1, scramble = true }]
"#;

/// Customers and orders as in a small shop. An order goes with its customer. Remarks on orders outlive the orders.
const SHOP: &str = r#"
seed = 2024
units = 24
[[table]]
name = "customer"
rows = 3000
insert = 30
life = [10, 19]
update = 6
column = [{ name = "id", kind = "key", base = 1, scramble = true }]
[[table]]
name = "orders"
rows = 6000
insert = 60
life = [12, 30]
column = [
    { name = "id", kind = "key", base = 1 },
    { name = "customer", kind = "ref", table = "customer", window = 9, spread = [1, 1, 2, 5] },
]
[[table]]
name = "remark"
rows = 4000
insert = 40
update = 5
column = [
    { name = "id", kind = "key", base = 1 },
    { name = "orders", kind = "ref", table = "orders", window = 0, spread = [3, 1], on_delete = "null" },
]
"#;

// By hand: rows live for two units, or live for four and change at the ages 1 and 3. An order is of the oldest customer of its window, so
// orders 0 to 2 are of customer 0, who dies at unit 3. Order 3 is of customer 1. A line is of the order of its unit. From the Python program:
// drawn customers, of whom customer 2 has the orders 3 and 4 and dies at unit 5, and the numbers of the larger table.
const TABLES: &[(&[&str], &[(u32, u64, Told<'static>)])] = &[
    (
        &[MORTAL],
        &[
            (
                0,
                1,
                Told::Changes(Ordinals::Are(&[]), Ordinals::Are(&[]), 1, 1),
            ),
            (
                0,
                2,
                Told::Changes(Ordinals::Are(&[0]), Ordinals::Are(&[]), 2, 1),
            ),
            (
                0,
                3,
                Told::Changes(Ordinals::Are(&[1]), Ordinals::Are(&[]), 3, 1),
            ),
            (
                0,
                4,
                Told::Changes(Ordinals::Are(&[2]), Ordinals::Are(&[]), 4, 1),
            ),
        ],
    ),
    (
        &[CHANGING],
        &[
            (
                0,
                1,
                Told::Changes(Ordinals::Are(&[]), Ordinals::Are(&[0]), 1, 1),
            ),
            (
                0,
                2,
                Told::Changes(Ordinals::Are(&[]), Ordinals::Are(&[1]), 2, 1),
            ),
            (
                0,
                3,
                Told::Changes(Ordinals::Are(&[]), Ordinals::Are(&[0, 2]), 3, 1),
            ),
            (
                0,
                4,
                Told::Changes(Ordinals::Are(&[0]), Ordinals::Are(&[1, 3]), 4, 1),
            ),
            (
                0,
                5,
                Told::Changes(Ordinals::Are(&[1]), Ordinals::Are(&[2, 4]), 5, 1),
            ),
            (
                0,
                6,
                Told::Changes(Ordinals::Are(&[2]), Ordinals::Are(&[3, 5]), 6, 1),
            ),
        ],
    ),
    (
        &[SALES],
        &[
            (
                0,
                3,
                Told::Changes(Ordinals::Are(&[0]), Ordinals::Are(&[2]), 3, 1),
            ),
            (
                1,
                3,
                Told::Changes(Ordinals::Are(&[0, 1, 2]), Ordinals::Are(&[]), 3, 1),
            ),
            (
                2,
                3,
                Told::Changes(Ordinals::Are(&[0, 1, 2]), Ordinals::Are(&[]), 3, 1),
            ),
        ],
    ),
    (
        &[HUGE, IN_TURN],
        &[
            (
                0,
                1,
                Told::Changes(Ordinals::Are(&[]), Ordinals::Are(&[]), 1_099_511_627_775, 1),
            ),
            (
                1,
                1,
                Told::Changes(Ordinals::Are(&[]), Ordinals::Are(&[]), 1, 1),
            ),
        ],
    ),
    (
        &[ORDERS, DRAWN],
        &[
            (
                1,
                4,
                Told::Changes(Ordinals::Are(&[]), Ordinals::Are(&[]), 4, 1),
            ),
            (
                1,
                5,
                Told::Changes(Ordinals::Are(&[3, 4]), Ordinals::Are(&[]), 5, 1),
            ),
        ],
    ),
    (
        &[LARGER],
        &[
            (
                0,
                1,
                Told::Changes(
                    Ordinals::Count(0, 0),
                    Ordinals::Count(100, 11_045_530_965_034_260_265),
                    300,
                    20,
                ),
            ),
            (
                0,
                2,
                Told::Changes(
                    Ordinals::Count(75, 18_198_970_329_443_324_737),
                    Ordinals::Count(82, 12_008_463_823_287_537_212),
                    320,
                    20,
                ),
            ),
            (
                0,
                3,
                Told::Changes(
                    Ordinals::Count(80, 10_808_466_508_335_604_351),
                    Ordinals::Count(59, 3_862_043_155_133_554_218),
                    340,
                    20,
                ),
            ),
            (
                0,
                4,
                Told::Changes(
                    Ordinals::Count(85, 2_252_893_688_869_345_310),
                    Ordinals::Count(44, 17_840_246_835_995_527_560),
                    360,
                    20,
                ),
            ),
            (
                0,
                5,
                Told::Changes(
                    Ordinals::Count(90, 6_936_739_866_874_783_261),
                    Ordinals::Count(16, 7_130_282_922_571_438_732),
                    380,
                    20,
                ),
            ),
            (
                0,
                6,
                Told::Changes(
                    Ordinals::Count(20, 12_765_703_532_418_090_129),
                    Ordinals::Count(16, 12_437_086_227_510_991_730),
                    400,
                    20,
                ),
            ),
        ],
    ),
];

#[test]
fn units_change_tables(rt: HostRuntime) {
    assert_all::<Brand>(&rt, rt.alloc(), TABLES, Blank::new(1));
}

/// Tells whether a unit's lists of a table are those found by asking each row that is born before the unit.
fn are_as_asked<L: Ledger>(
    alloc: Global,
    plan: &Plan,
    rows: &UnitRows,
    table: u32,
    unit: u64,
    steps: &mut Steps<L>,
) -> Result<bool, AllocError>
    requires table { table < length rows.now.tables }
    requires unit { unit ≤ last_unit plan.now }
    requires some { 1 ≤ unit }
{
    let mut deleted = Vec::new(alloc);
    let mut updated = Vec::new(alloc);
    if table >= plan.tables() {
        return Ok(false);
    }
    for row in 0..born(plan, table, unit) {
        if !is_row(plan, table, row) || birth(plan, table, row) == unit {
            continue;
        }
        match death(plan, table, row, steps) {
            Some(death) if death < unit => {}
            Some(death) if death == unit => deleted.push(row)?,
            _ if last_change(plan, table, row, unit, steps) == unit => updated.push(row)?,
            _ => {}
        }
    }
    Ok(rows.dels(table) == deleted.as_slice() && rows.upds(table) == updated.as_slice())
}

/// Tells whether unit 12 changes in each table what asking each row finds, and deletes `deleted` rows of the first table.
fn changes_as_asked<L: Ledger>(
    alloc: Global,
    plan: &Plan,
    deleted: usize,
    blank: Blank,
) -> Result<bool, Memory>
    requires name { blank.name ≡ L.name }
    requires parts { blank.parts ≡ L.parts }
    requires some { 0 < blank.parts }
{
    if plan.units() < 12 {
        return Ok(false);
    }
    let mut steps = Steps::<L>::new(blank);
    let rows = unit_rows(alloc, plan, 12, &mut steps)?;
    for table in 0..plan.tables() {
        if !are_as_asked(alloc, plan, &rows, table, 12, &mut steps)? {
            return Ok(false);
        }
    }
    Ok(plan.tables() > 0 && rows.dels(0).len() == deleted)
}

// By hand: one in ten customers of unit 0 lives for 12 units, one in ten of unit 1 for 11, and one in ten of unit 2 for 10.
#[test]
fn lists_are_those_that_are_asked_for(rt: HostRuntime) -> Result<(), Fail> {
    let plan = plan_of(rt.alloc(), &[SHOP]).expect(&rt, "an accepted schema");
    assert!(rt; changes_as_asked::<Brand>(rt.alloc(), &plan, 306, Blank::new(1))?);
    Ok(())
}
