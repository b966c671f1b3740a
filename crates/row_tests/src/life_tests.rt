//! Values from outside: cohorts, short lives and deaths with parents that are worked out by hand, and keys, lives, changes and parents from
//! an independent program. The program is written in Python from the rules and shares no code (docs/SECOND_PROGRAM.md).

ghost use Rattle.std.specs.Prelude.{◌≡◌, ◌^◌, ◌<◌, ◌≤◌, [], ◌∷◌, Some, length, map, true};
ghost use Rattle.cohort_sizes.specs.Births.{cohort_size};
ghost use Rattle.life_intervals.specs.Changes.{last_due};
ghost use Rattle.life_intervals.specs.Generator.{last_unit, table_of};
ghost use Rattle.life_intervals.specs.JobOrders.{AreOrdersOf};
ghost use Rattle.life_intervals.specs.Rows.{life_by};

use crate::fixtures::{DRAWN, FIVE_PARENTS, IN_TURN, SALES, has_parents, is_row};
use crate::told::{Told, assert_all};
use life_intervals::{
    Cohort, JobOrders, Rows, Survival, birth, born, cohort, death, key, last_change, own_death,
    parent, row_of_cohort, row_of_key, survival_at,
};
use row_cases::with_number;
use schema_plan::Plan;
use std::alloc::Global;
use std::marker::Brand;
use std::sync::ledger::{Blank, Ledger};
use step_count::Steps;

fn has_births(plan: &Plan, table: u32, unit: u64, first: u64, size: u64, all: u64) -> bool {
    table < plan.tables()
        && unit <= plan.units()
        && cohort(plan, table, unit) == Cohort { first, size }
        && born(plan, table, unit) == all
}

fn has_key<L: Ledger>(
    plan: &Plan,
    table: u32,
    row: u64,
    number: u64,
    steps: &mut Steps<L>,
) -> bool {
    is_row(plan, table, row)
        && key(plan, table, row, steps) == number
        && row_of_key(plan, table, number, steps) == Some(row)
}

fn is_no_key<L: Ledger>(plan: &Plan, table: u32, number: u64, steps: &mut Steps<L>) -> bool {
    table < plan.tables() && row_of_key(plan, table, number, steps).is_none()
}

/// Returns checksums of the keys of a table, one after the other: without kept orders, and with them.
fn key_checksums<L: Ledger>(plan: &Plan, orders: &JobOrders, steps: &mut Steps<L>) -> (u64, u64)
    requires table { 0 < length plan.now.schema.tables }
    requires orders { AreOrdersOf plan.now orders.now }
{
    let rows = Rows::with(plan, orders);
    let mut sum = 0u64;
    let mut kept = 0u64;
    for row in 0..born(plan, 0, plan.units()) {
        sum = with_number(sum, key(plan, 0, row, steps));
        kept = with_number(kept, rows.key(0, row, steps));
    }
    (sum, kept)
}

fn has_keys<L: Ledger>(alloc: Global, plan: &Plan, sum: u64, steps: &mut Steps<L>) -> bool {
    if plan.tables() != 1 {
        return false;
    }
    match JobOrders::new(alloc, plan, 0, 1, plan.units()) {
        Ok(orders) => {
            let (asked, kept) = key_checksums(plan, &orders, steps);
            asked == sum && kept == sum
        }
        Err(_) => false,
    }
}

fn is_still(plan: &Plan, table: u32) -> bool {
    table < plan.tables() && plan.life(table).is_none() && plan.update(table).is_none()
}

fn has_own_death<L: Ledger>(
    plan: &Plan,
    table: u32,
    row: u64,
    end: Option<u64>,
    steps: &mut Steps<L>,
) -> bool {
    is_row(plan, table, row) && own_death(plan, table, row, steps) == end
}

fn dies_at<L: Ledger>(plan: &Plan, table: u32, row: u64, end: u64, steps: &mut Steps<L>) -> bool {
    is_row(plan, table, row) && death(plan, table, row, steps) == Some(end)
}

fn changed_at<L: Ledger>(
    plan: &Plan,
    table: u32,
    row: u64,
    unit: u64,
    changed: u64,
    steps: &mut Steps<L>,
) -> bool {
    table < plan.tables()
        && unit <= plan.units()
        && row < born(plan, table, unit)
        && last_change(plan, table, row, unit, steps) == changed
}

fn has_parent<L: Ledger>(
    plan: &Plan,
    table: u32,
    row: u64,
    number: u64,
    steps: &mut Steps<L>,
) -> bool {
    is_row(plan, table, row)
        && has_parents(plan, table)
        && parent(plan, table, row, 1, steps) == number
}

fn survives(plan: &Plan, table: u32, born: u64, ages: &[Survival]) -> bool {
    if table >= plan.tables() || born > plan.units() {
        return false;
    }
    let mut unit = born;
    for survival in ages {
        if survival_at(plan, table, born, unit) != *survival {
            return false;
        }
        unit = unit.wrapping_add(1);
    }
    true
}

/// Tells whether a row of the cohort of a unit is alive at another unit, and when it changed last. The row is named by its index in the
/// cohort.
fn row_at<L: Ledger>(
    rows: &Rows<'_>,
    table: u32,
    birth: u64,
    unit: u64,
    index: u64,
    steps: &mut Steps<L>,
) -> (bool, u64)
    requires table { table < length rows.now.schema.tables }
    requires birth { birth ≤ unit }
    requires unit { unit ≤ last_unit rows.now }
    requires row { index < cohort_size (table_of rows.now table).births birth }
{
    let row = row_of_cohort(rows.plan(), table, birth, index);
    (
        rows.is_live(table, row, unit, steps),
        rows.found_change(table, row, unit, steps),
    )
}

fn has_rows<L: Ledger>(
    plan: &Plan,
    birth: u64,
    unit: u64,
    rows: &[(bool, u64)],
    steps: &mut Steps<L>,
) -> bool
    requires table { 0 < length plan.now.schema.tables }
    requires birth { birth ≤ unit }
    requires unit { unit ≤ last_unit plan.now }
{
    let by_rounds = Rows::of(plan);
    let size = cohort(plan, 0, birth).size;
    let mut index = 0;
    let mut is_told = true;
    for (live, changed) in rows {
        if index < size {
            let (is_live, last) = row_at(&by_rounds, 0, birth, unit, index, steps);
            is_told = is_told && is_live == *live && last == *changed;
            index += 1;
        } else {
            is_told = false;
        }
    }
    is_told
}

fn is_cohort<L: Ledger>(
    plan: &Plan,
    birth: u64,
    unit: u64,
    survival: Survival,
    rows: &[(bool, u64)],
    steps: &mut Steps<L>,
) -> bool {
    plan.tables() == 1
        && birth <= unit
        && unit <= plan.units()
        && survival_at(plan, 0, birth, unit) == survival
        && has_rows(plan, birth, unit, rows, steps)
}

/// Returns a checksum with a further number for each row of a cohort: whether it is alive, and when it changed last.
fn with_cohort<L: Ledger>(
    rows: &Rows<'_>,
    birth: u64,
    unit: u64,
    before: u64,
    steps: &mut Steps<L>,
) -> u64
    requires table { 0 < length rows.now.schema.tables }
    requires birth { birth ≤ unit }
    requires unit { unit ≤ last_unit rows.now }
{
    let mut sum = before;
    for index in 0..cohort(rows.plan(), 0, birth).size {
        let (live, changed) = row_at(rows, 0, birth, unit, index, steps);
        sum = with_number(sum, changed.wrapping_mul(2).wrapping_add(u64::from(live)));
    }
    sum
}

/// Returns the checksum of all cohorts at a unit, with kept orders.
fn row_checksum<L: Ledger>(plan: &Plan, unit: u64, orders: &JobOrders, steps: &mut Steps<L>) -> u64
    requires table { 0 < length plan.now.schema.tables }
    requires unit { unit ≤ last_unit plan.now }
    requires orders { AreOrdersOf plan.now orders.now }
{
    let _limits = plan.schema(); // there are at most 10,000 units
    let rows = Rows::with(plan, orders);
    let mut sum = 0u64;
    for birth in 0..unit + 1 {
        sum = with_cohort(&rows, birth, unit, sum, steps);
    }
    sum
}

fn has_all_rows<L: Ledger>(
    alloc: Global,
    plan: &Plan,
    unit: u64,
    sum: u64,
    steps: &mut Steps<L>,
) -> bool {
    if plan.tables() != 1 || unit > plan.units() {
        return false;
    }
    match JobOrders::new(alloc, plan, 0, 1, unit) {
        Ok(orders) => row_checksum(plan, unit, &orders, steps) == sum,
        Err(_) => false,
    }
}

/// Tells whether the first row of the table at place 1 is alive at a unit.
fn is_first_live<L: Ledger>(rows: &Rows<'_>, unit: u64, steps: &mut Steps<L>) -> bool
    requires table { 1 < length rows.now.schema.tables }
    requires row { 0 < cohort_size (table_of rows.now 1).births 0 }
    requires unit { unit ≤ last_unit rows.now }
{
    let (live, _) = row_at(rows, 1, 0, unit, 0, steps);
    live
}

/// Tells whether the first row of the table at place 1 is alive at a unit or not, as told, with kept orders and without.
fn is_first_as_told<L: Ledger>(
    alloc: Global,
    plan: &Plan,
    unit: u64,
    live: bool,
    steps: &mut Steps<L>,
) -> bool {
    if plan.tables() != 3 || cohort(plan, 1, 0).size != 1 || unit > plan.units() {
        return false;
    }
    match JobOrders::new(alloc, plan, 1, 1, unit) {
        Ok(orders) => {
            is_first_live(&Rows::with(plan, &orders), unit, steps) == live
                && is_first_live(&Rows::of(plan), unit, steps) == live
        }
        Err(_) => false,
    }
}

/// Tells whether a statement on births and keys holds.
pub(crate) fn has_keys_as_told<L: Ledger>(
    alloc: Global,
    plan: &Plan,
    table: u32,
    number: u64,
    told: Told<'_>,
    steps: &mut Steps<L>,
) -> bool {
    match told {
        Told::Births(first, size, all) => has_births(plan, table, number, first, size, all),
        Told::Birth(unit) => is_row(plan, table, number) && birth(plan, table, number) == unit,
        Told::Key(key) => has_key(plan, table, number, key, steps),
        Told::NoKey => is_no_key(plan, table, number, steps),
        Told::Keys(sum) => has_keys(alloc, plan, sum, steps),
        _ => false,
    }
}

/// Tells whether a statement on the lives, changes and parents of rows holds.
pub(crate) fn lives_as_told<L: Ledger>(
    plan: &Plan,
    table: u32,
    row: u64,
    told: Told<'_>,
    steps: &mut Steps<L>,
) -> bool {
    match told {
        Told::Endless => has_own_death(plan, table, row, None, steps),
        Told::OwnDeath(end) => {
            has_own_death(plan, table, row, Some(end), steps)
                && dies_at(plan, table, row, end, steps)
        }
        Told::Death(end) => dies_at(plan, table, row, end, steps),
        Told::Change(unit, changed) => changed_at(plan, table, row, unit, changed, steps),
        Told::Parent(parent) => has_parent(plan, table, row, parent, steps),
        _ => false,
    }
}

/// Tells whether a statement on cohorts holds.
pub(crate) fn has_cohorts_as_told<L: Ledger>(
    alloc: Global,
    plan: &Plan,
    table: u32,
    unit: u64,
    told: Told<'_>,
    steps: &mut Steps<L>,
) -> bool {
    match told {
        Told::Still => is_still(plan, table),
        Told::Ages(ages) => survives(plan, table, unit, ages),
        Told::Cohort(at, survival, rows) => is_cohort(plan, unit, at, survival, rows, steps),
        Told::Rows(sum) => has_all_rows(alloc, plan, unit, sum, steps),
        Told::FirstLive(live) => is_first_as_told(alloc, plan, unit, live, steps),
        _ => false,
    }
}

/// 1,000 rows at unit 0, and 10 at each of five more.
const THOUSAND: &str = r#"
seed = 7
units = 5
[[table]]
name = "t"
rows = 1000
insert = 10
"#;

const KEYS: &str = r#"
column = [{ name = "id", kind = "key", base = 1 }]
"#;

const SCRAMBLED_KEYS: &str = r#"
column = [{ name = "id", kind = "key", base = 1, scramble = true }]
"#;

/// Three rows at each of the units 1 and 2, none at unit 3, and one at each later unit.
const PHASES: &str = r#"
seed = 7
units = 6
[[table]]
name = "t"
rows = 2
insert = [[1, 3], [3, 0], [4, 1]]
"#;

/// As many rows as a table can have, in one cohort.
const ONE_LARGE_COHORT: &str = r#"
seed = 7
units = 0
[[table]]
name = "t"
rows = 1099511627776
"#;

/// Cohorts of equal size, one at each unit except 0. The size follows the text.
const MANY_COHORTS: &str = r#"
seed = 7
units = 10000
[[table]]
name = "t"
rows = 0
insert = "#;

/// Lives of three to five units, one after the other by place.
fn lives_by_place()
    ensures differ { map (life_by (Some (record { least = 3; most = 5 }))) (0 ∷ 1 ∷ 2 ∷ 3 ∷ 2 ^ 40 ∷ [])
        ≡ Some 3 ∷ Some 4 ∷ Some 5 ∷ Some 3 ∷ Some 4 ∷ [] }
    ensures same { life_by (Some (record { least = 7; most = 7 })) 9 ≡ Some 7 }
{}

/// A row that is born at unit 2 is due at 4, 7, 10 and so on. A row that is born at unit 5 is due at each unit from 6 on.
fn last_due_units()
    ensures at_times { map (last_due 2 4 3) (2 ∷ 3 ∷ 4 ∷ 6 ∷ 7 ∷ 9 ∷ 10 ∷ []) ≡ 2 ∷ 2 ∷ 4 ∷ 4 ∷ 7 ∷ 7 ∷ 10 ∷ [] }
    ensures always { map (last_due 5 6 1) (5 ∷ 6 ∷ 9 ∷ []) ≡ 5 ∷ 6 ∷ 9 ∷ [] }
{}

// By hand, and proved: the calls do nothing.
#[test]
fn lives_and_changes_by_place(_rt: HostRuntime) {
    lives_by_place();
    last_due_units();
}

/// Rows that live for two units and change every two: three at unit 0, and two at each of five more.
const TWO_UNITS: &str = r#"
seed = 7
units = 5
[[table]]
name = "t"
rows = 3
insert = 2
life = [2, 2]
update = 2
column = [{ name = "id", kind = "key", base = 1 }]
"#;

/// One cohort of as many rows as a table can have, with short lives.
const LARGE_OF_SHORT_LIVES: &str = r#"
seed = 7
units = 20
[[table]]
name = "t"
rows = 1099511627776
life = [3, 9]
update = 4
column = [{ name = "id", kind = "key", base = 1 }]
"#;

/// Rows that live for one to four units and change every three.
const SHORT_LIVES: &str = r#"
seed = 7
units = 5
[[table]]
name = "t"
rows = 1000
insert = 10
life = [1, 4]
update = 3
column = [{ name = "id", kind = "key", base = 1 }]
"#;

/// What lives say of customers from their births on. They live for three units.
const CUSTOMER_AGES: &[Survival] = &[
    Survival::Sure,
    Survival::Sure,
    Survival::Sure,
    Survival::Over,
    Survival::Over,
];

/// What lives say of orders and of lines from their births on. They live one unit at least, with a customer of two units before, and three at
/// most.
const ORDER_AGES: &[Survival] = &[
    Survival::Sure,
    Survival::Drawn,
    Survival::Drawn,
    Survival::Over,
    Survival::Over,
];

/// Thirteen rows that choose among four, by a spread of three weights.
const SPREAD: &str = r#"
seed = 7
units = 0
[[table]]
name = "parents"
rows = 4
column = [{ name = "id", kind = "key", base = 1 }]
[[table]]
name = "children"
rows = 13
column = [
    { name = "id", kind = "key", base = 1 },
    { name = "parent", kind = "ref", table = "parents", window = "all", spread = [1, 2, 3] },
]
"#;

/// A chain of eight tables of one row, each of which refers to the table before it. The row of the first table lives for two units.
const CHAIN: &str = r#"
seed = 7
units = 3
table = [
    { name = "t0", rows = 1, life = [2, 2], column = [{ name = "id", kind = "key", base = 1 }] },
    { name = "t1", rows = 1, column = [{ name = "id", kind = "key", base = 1 }, { name = "parent", kind = "ref", table = "t0", window = 0 }] },
    { name = "t2", rows = 1, column = [{ name = "id", kind = "key", base = 1 }, { name = "parent", kind = "ref", table = "t1", window = 0 }] },
    { name = "t3", rows = 1, column = [{ name = "id", kind = "key", base = 1 }, { name = "parent", kind = "ref", table = "t2", window = 0 }] },
    { name = "t4", rows = 1, column = [{ name = "id", kind = "key", base = 1 }, { name = "parent", kind = "ref", table = "t3", window = 0 }] },
    { name = "t5", rows = 1, column = [{ name = "id", kind = "key", base = 1 }, { name = "parent", kind = "ref", table = "t4", window = 0 }] },
    { name = "t6", rows = 1, column = [{ name = "id", kind = "key", base = 1 }, { name = "parent", kind = "ref", table = "t5", window = 0 }] },
    { name = "t7", rows = 1, column = [{ name = "id", kind = "key", base = 1 }, { name = "parent", kind = "ref", table = "t6", window = 0 }] },
]
"#;

// By hand, except for the keys of scrambled rows and the checksums of all keys, which are from the Python program. Tables pay off for the
// 1,000 rows of unit 0, and not for 10 rows.
const BIRTHS_AND_KEYS: &[(&[&str], &[(u32, u64, Told<'static>)])] = &[
    (
        &[THOUSAND, KEYS],
        &[
            (0, 0, Told::Births(0, 1000, 1000)),
            (0, 1, Told::Births(1000, 10, 1010)),
            (0, 5, Told::Births(1040, 10, 1050)),
            (0, 0, Told::Birth(0)),
            (0, 999, Told::Birth(0)),
            (0, 1000, Told::Birth(1)),
            (0, 1009, Told::Birth(1)),
            (0, 1010, Told::Birth(2)),
            (0, 1049, Told::Birth(5)),
            (0, 0, Told::Keys(962_663_571_871_257_377)),
        ],
    ),
    (
        &[THOUSAND, SCRAMBLED_KEYS],
        &[(0, 0, Told::Keys(6_009_505_196_028_058_877))],
    ),
    (
        &[PHASES, KEYS],
        &[
            (0, 0, Told::Births(0, 2, 2)),
            (0, 1, Told::Births(2, 3, 5)),
            (0, 2, Told::Births(5, 3, 8)),
            (0, 3, Told::Births(8, 0, 8)),
            (0, 4, Told::Births(8, 1, 9)),
            (0, 6, Told::Births(10, 1, 11)),
            (0, 1, Told::Birth(0)),
            (0, 2, Told::Birth(1)),
            (0, 7, Told::Birth(2)),
            (0, 8, Told::Birth(4)),
            (0, 9, Told::Birth(5)),
            (0, 10, Told::Birth(6)),
            (0, 8, Told::Key(9)),
            (0, 12, Told::NoKey),
        ],
    ),
    (
        &[ONE_LARGE_COHORT, KEYS],
        &[
            (0, 0, Told::Key(1)),
            (0, 1_099_511_627_775, Told::Key(1_099_511_627_776)),
            (0, 0, Told::NoKey),
            (0, 1_099_511_627_777, Told::NoKey),
        ],
    ),
    (
        &[ONE_LARGE_COHORT, SCRAMBLED_KEYS],
        &[
            (0, 0, Told::Key(890_456_380_348)),
            (0, 1_099_511_627_775, Told::Key(91_737_330_597)),
            (0, 0, Told::NoKey),
            (0, 1_099_511_627_777, Told::NoKey),
        ],
    ),
    (
        &[MANY_COHORTS, "3", KEYS],
        &[
            (0, 0, Told::Key(1)),
            (0, 29_999, Told::Key(30_000)),
            (0, 0, Told::NoKey),
            (0, 30_001, Told::NoKey),
        ],
    ),
    (
        &[MANY_COHORTS, "3", SCRAMBLED_KEYS],
        &[
            (0, 0, Told::Key(3)),
            (0, 2, Told::Key(1)),
            (0, 3, Told::Key(6)),
            (0, 29_995, Told::Key(29_997)),
            (0, 29_996, Told::Key(29_996)),
            (0, 0, Told::NoKey),
            (0, 30_001, Told::NoKey),
        ],
    ),
    (
        &[MANY_COHORTS, "0", SCRAMBLED_KEYS],
        &[(0, 0, Told::NoKey), (0, 1, Told::NoKey)],
    ),
];

#[test]
fn births_and_keys(rt: HostRuntime) {
    assert_all::<Brand>(&rt, rt.alloc(), BIRTHS_AND_KEYS, Blank::new(1));
}

// By hand: rows that neither die nor change, and rows that live for two units. All others, and the units of changes, are from the Python
// program. Tables pay off for the 1,000 rows of unit 0 at the units at which only some of them are alive.
const LIVES_AND_CHANGES: &[(&[&str], &[(u32, u64, Told<'static>)])] = &[
    (
        &[THOUSAND, KEYS],
        &[
            (0, 0, Told::Still),
            (0, 0, Told::Endless),
            (0, 999, Told::Endless),
            (0, 1000, Told::Endless),
            (0, 1049, Told::Endless),
            (0, 0, Told::Change(5, 0)),
            (0, 999, Told::Change(5, 0)),
            (0, 1000, Told::Change(5, 1)),
            (0, 1049, Told::Change(5, 5)),
        ],
    ),
    (
        &[TWO_UNITS],
        &[
            (0, 0, Told::OwnDeath(2)),
            (0, 2, Told::OwnDeath(2)),
            (0, 3, Told::OwnDeath(3)),
            (0, 4, Told::OwnDeath(3)),
            (0, 6, Told::OwnDeath(4)),
            (0, 12, Told::OwnDeath(7)),
            (0, 0, Told::Change(0, 0)),
            (0, 0, Told::Change(1, 0)),
            (0, 0, Told::Change(2, 2)),
            (0, 0, Told::Change(3, 2)),
            (0, 0, Told::Change(5, 4)),
            (0, 1, Told::Change(1, 1)),
            (0, 1, Told::Change(4, 3)),
            (0, 1, Told::Change(5, 5)),
            (0, 3, Told::Change(1, 1)),
            (0, 3, Told::Change(2, 1)),
            (0, 3, Told::Change(4, 3)),
            (0, 4, Told::Change(2, 2)),
            (0, 7, Told::Change(4, 4)),
            (0, 8, Told::Change(4, 3)),
            (0, 12, Told::Change(5, 5)),
            (0, 0, Told::Cohort(0, Survival::Sure, &[])),
            (
                0,
                0,
                Told::Cohort(1, Survival::Sure, &[(true, 0), (true, 1), (true, 1)]),
            ),
            (
                0,
                0,
                Told::Cohort(2, Survival::Over, &[(false, 2), (false, 1), (false, 1)]),
            ),
            (
                0,
                2,
                Told::Cohort(3, Survival::Sure, &[(true, 3), (true, 2)]),
            ),
            (0, 3, Told::Cohort(4, Survival::Sure, &[])),
            (0, 3, Told::Cohort(5, Survival::Over, &[])),
        ],
    ),
    (
        &[LARGE_OF_SHORT_LIVES],
        &[
            (0, 0, Told::OwnDeath(7)),
            (0, 1, Told::OwnDeath(9)),
            (0, 2, Told::OwnDeath(5)),
            (0, 123_456_789_012, Told::OwnDeath(3)),
            (0, 1_099_511_627_775, Told::OwnDeath(4)),
            (0, 0, Told::Change(2, 0)),
            (0, 0, Told::Change(3, 3)),
            (0, 0, Told::Change(20, 19)),
            (0, 1, Told::Change(0, 0)),
            (0, 1, Told::Change(1, 1)),
            (0, 1, Told::Change(8, 5)),
            (0, 123_456_789_012, Told::Change(17, 17)),
            (0, 1_099_511_627_775, Told::Change(1, 0)),
            (0, 1_099_511_627_775, Told::Change(2, 2)),
            (0, 1_099_511_627_775, Told::Change(9, 6)),
            (0, 1_099_511_627_775, Told::Change(20, 18)),
        ],
    ),
    (
        &[SHORT_LIVES],
        &[
            (0, 0, Told::OwnDeath(1)),
            (0, 1, Told::OwnDeath(3)),
            (0, 999, Told::OwnDeath(1)),
            (
                0,
                2,
                Told::Cohort(
                    4,
                    Survival::Drawn,
                    &[
                        (true, 2),
                        (false, 4),
                        (true, 3),
                        (true, 2),
                        (false, 3),
                        (false, 4),
                        (true, 3),
                        (false, 4),
                        (false, 3),
                        (false, 2),
                    ],
                ),
            ),
            (0, 0, Told::Rows(15_875_042_177_868_366_480)),
            (0, 1, Told::Rows(4_209_821_931_422_870_454)),
            (0, 2, Told::Rows(1_475_948_409_998_533_915)),
            (0, 3, Told::Rows(7_076_330_622_691_067_159)),
            (0, 4, Told::Rows(8_145_987_253_550_613_097)),
            (0, 5, Told::Rows(2_468_710_959_954_332_253)),
        ],
    ),
];

#[test]
fn lives_and_changes(rt: HostRuntime) {
    assert_all::<Brand>(&rt, rt.alloc(), LIVES_AND_CHANGES, Blank::new(1));
}

// By hand: customers 0 and 1 die at the units 3 and 4. The orders 0 to 2 are of customer 0, and order 3 of customer 1. The first row of the
// chain dies at unit 2, and the others with it. The parents by a spread, and those that are dealt in turn and drawn, are from the Python
// program.
const FAMILIES: &[(&[&str], &[(u32, u64, Told<'static>)])] = &[
    (
        &[SALES],
        &[
            (1, 0, Told::Parent(0)),
            (1, 1, Told::Parent(0)),
            (1, 2, Told::Parent(0)),
            (1, 3, Told::Parent(1)),
            (2, 0, Told::Parent(0)),
            (2, 2, Told::Parent(2)),
            (2, 3, Told::Parent(3)),
            (0, 0, Told::Death(3)),
            (0, 1, Told::Death(4)),
            (0, 5, Told::Death(8)),
            (1, 0, Told::Death(3)),
            (1, 1, Told::Death(3)),
            (1, 2, Told::Death(3)),
            (1, 3, Told::Death(4)),
            (2, 0, Told::Death(3)),
            (2, 2, Told::Death(3)),
            (2, 3, Told::Death(4)),
            (0, 0, Told::Ages(CUSTOMER_AGES)),
            (0, 1, Told::Ages(CUSTOMER_AGES)),
            (0, 2, Told::Ages(CUSTOMER_AGES)),
            (1, 0, Told::Ages(ORDER_AGES)),
            (1, 1, Told::Ages(ORDER_AGES)),
            (1, 2, Told::Ages(ORDER_AGES)),
            (2, 0, Told::Ages(ORDER_AGES)),
            (2, 1, Told::Ages(ORDER_AGES)),
            (2, 2, Told::Ages(ORDER_AGES)),
            (1, 2, Told::FirstLive(true)),
            (1, 3, Told::FirstLive(false)),
        ],
    ),
    (
        &[SPREAD],
        &[
            (1, 0, Told::Parent(3)),
            (1, 1, Told::Parent(2)),
            (1, 2, Told::Parent(2)),
            (1, 3, Told::Parent(0)),
            (1, 4, Told::Parent(1)),
            (1, 5, Told::Parent(2)),
            (1, 6, Told::Parent(1)),
            (1, 7, Told::Parent(2)),
            (1, 8, Told::Parent(1)),
            (1, 9, Told::Parent(1)),
            (1, 10, Told::Parent(1)),
            (1, 11, Told::Parent(0)),
            (1, 12, Told::Parent(0)),
        ],
    ),
    (
        &[FIVE_PARENTS, DRAWN],
        &[
            (1, 0, Told::Parent(1)),
            (1, 1, Told::Parent(3)),
            (1, 2, Told::Parent(1)),
            (1, 3, Told::Parent(4)),
            (1, 4, Told::Parent(0)),
            (1, 5, Told::Parent(4)),
            (1, 6, Told::Parent(0)),
            (1, 7, Told::Parent(2)),
        ],
    ),
    (
        &[FIVE_PARENTS, IN_TURN],
        &[
            (1, 0, Told::Parent(0)),
            (1, 1, Told::Parent(1)),
            (1, 2, Told::Parent(1)),
            (1, 3, Told::Parent(0)),
            (1, 4, Told::Parent(1)),
            (1, 5, Told::Parent(0)),
            (1, 6, Told::Parent(1)),
            (1, 7, Told::Parent(0)),
        ],
    ),
    (
        &[CHAIN],
        &[
            (7, 0, Told::Parent(0)),
            (0, 0, Told::Death(2)),
            (1, 0, Told::Death(2)),
            (7, 0, Told::Death(2)),
        ],
    ),
];

#[test]
fn families(rt: HostRuntime) {
    assert_all::<Brand>(&rt, rt.alloc(), FAMILIES, Blank::new(1));
}
