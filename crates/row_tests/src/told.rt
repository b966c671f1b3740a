//! Statements on tables, and whether they hold.

ghost use Rattle.std.specs.Prelude.{◌≡◌, ◌<◌};

use crate::child_tests::dealt_as_told;
use crate::life_tests::{has_cohorts_as_told, has_keys_as_told, lives_as_told};
use crate::line_tests::has_lines_as_told;
use crate::update_tests::changes_as_told;
use life_intervals::{Block, Survival};
use row_cases::plan_of;
use schema_plan::Plan;
use std::alloc::Global;
use std::process::Abort;
use std::sync::ledger::{Blank, Ledger};
use step_count::Steps;

/// Ordinals of rows.
#[derive(Clone, Copy)]
pub(crate) enum Ordinals<'a> {
    /// The ordinals themselves.
    Are(&'a [u64]),
    /// How many there are, and a checksum of all.
    Count(usize, u64),
}

/// A statement on a row, a key or a unit of a table.
#[derive(Clone, Copy)]
pub(crate) enum Told<'a> {
    /// The first row that is born at the unit, how many are born at it, and how many by it.
    Births(u64, u64, u64),
    /// The unit at which the row is born.
    Birth(u64),
    /// The key of the row.
    Key(u64),
    /// No row has the key.
    NoKey,
    /// A checksum of the keys of all rows, one after the other.
    Keys(u64),
    /// The row's own life has no end.
    Endless,
    /// The unit at which the row's own life ends, and the row dies.
    OwnDeath(u64),
    /// The unit at which the row dies.
    Death(u64),
    /// A unit, and the unit at which the row changed last by then.
    Change(u64, u64),
    /// The row's parent by the column after the key.
    Parent(u64),
    /// A unit, the number with which the row is dealt to the unit's cohort of the table, by the column after the key, and the places of
    /// the cohort at which it is chosen first.
    Dealt(u64, u64, Option<Block>),
    /// The table has no life and no update.
    Still,
    /// What lives say of the rows that are born at the unit, at each unit from it on.
    Ages(&'a [Survival]),
    /// A later unit, and what lives say at it of the rows that are born at the unit. For the first of them: whether they are alive then, and
    /// when they changed last.
    Cohort(u64, Survival, &'a [(bool, u64)]),
    /// A checksum of all rows that are born by the unit: whether they are alive at it, and when they changed last.
    Rows(u64),
    /// Whether the first row of unit 0 is alive at the unit, with kept orders and without.
    FirstLive(bool),
    /// A unit, and the row's line at it.
    Line(u64, &'a str),
    /// The row's key line.
    KeyLine(&'a str),
    /// A unit, and whether the table holds the row at it.
    Live(u64, bool),
    /// A unit, and the report at it on the row with the key. It is empty if no row has the key.
    Report(u64, &'a str),
    /// The row's line at unit 0 is this key and the key of its parent in the table at place 0.
    Child(&'a str),
    /// A checksum of the table's text at its last unit, up to which all rows live.
    Text(u64),
    /// What the unit deletes, what it updates, and the first and the number of the rows that it inserts.
    Changes(Ordinals<'a>, Ordinals<'a>, u64, u64),
}

fn is_as_told<L: Ledger>(
    alloc: Global,
    plan: &Plan,
    table: u32,
    number: u64,
    told: Told<'_>,
    steps: &mut Steps<L>,
) -> bool {
    match told {
        Told::Births(..) | Told::Birth(_) | Told::Key(_) | Told::NoKey | Told::Keys(_) => {
            has_keys_as_told(alloc, plan, table, number, told, steps)
        }
        Told::Endless | Told::OwnDeath(_) | Told::Death(_) | Told::Change(..) | Told::Parent(_) => {
            lives_as_told(plan, table, number, told, steps)
        }
        Told::Still | Told::Ages(_) | Told::Cohort(..) | Told::Rows(_) | Told::FirstLive(_) => {
            has_cohorts_as_told(alloc, plan, table, number, told, steps)
        }
        Told::Changes(..) => changes_as_told(alloc, plan, table, number, told, steps),
        Told::Dealt(..) => dealt_as_told(plan, table, number, told, steps),
        _ => has_lines_as_told(alloc, plan, table, number, told, steps),
    }
}

/// Asserts that statements hold. Each schema comes as the parts of its text. Each statement comes with the place of its table and the number
/// of a row, a key or a unit.
pub(crate) fn assert_all<L: Ledger>(
    rt: &impl Abort,
    alloc: Global,
    schemas: &[(&[&str], &[(u32, u64, Told<'_>)])],
    blank: Blank,
)
    requires name { blank.name ≡ L.name }
    requires parts { blank.parts ≡ L.parts }
    requires some { 0 < blank.parts }
{
    let mut steps = Steps::<L>::new(blank);
    for (parts, cases) in schemas {
        let plan = plan_of(alloc, parts).expect(rt, "an accepted schema");
        for (table, number, told) in *cases {
            let holds = is_as_told(alloc, &plan, *table, *number, *told, &mut steps);
            assert!(rt; holds, "case {number} of {table}");
        }
    }
}
