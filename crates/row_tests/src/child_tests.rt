//! With which number each candidate is dealt to a cohort, and at which places of the cohort it is chosen. The numbers are from the independent
//! program (docs/SECOND_PROGRAM.md), the places are worked out by hand from them.

ghost use Rattle.std.specs.Prelude.{◌≡◌, ◌<◌, ◌≤◌, Some, is_some, length, true};
ghost use Rattle.schema_facts.specs.References.{Reference, reference_at};
ghost use Rattle.life_intervals.specs.Children.{IsCandidate};
ghost use Rattle.life_intervals.specs.Generator.{last_unit, table_of};

use crate::fixtures::{DRAWN, FIVE_PARENTS, IN_TURN};
use crate::told::{Told, assert_all};
use life_intervals::{Block, born, child_block, deal_number};
use schema_plan::{Plan, ReadyKind};
use std::marker::Brand;
use std::sync::ledger::{Blank, Ledger};
use step_count::Steps;

/// Tells whether the column after the key refers to any row that is born by a unit, and a row is one of those.
fn is_candidate(plan: &Plan, table: u32, row: u64, unit: u64) -> bool
    requires table { table < length plan.now.schema.tables }
    requires unit { unit ≤ last_unit plan.now }
    ensures reference { result ≡ true → is_some (reference_at (table_of plan.now table) 1) ≡ true }
    ensures candidate { result ≡ true → (reference : Reference) → reference_at (table_of plan.now table) 1 ≡ Some reference → IsCandidate plan.now reference unit row }
{
    let columns = plan.columns(table);
    if columns.len() < 2 {
        return false;
    }
    match &columns[1].kind {
        ReadyKind::Reference(reference) => {
            reference.window.is_none()
                && reference.parent < plan.tables()
                && row < born(plan, reference.parent, unit)
        }
        _ => false,
    }
}

/// Tells whether a statement on a candidate holds.
pub(crate) fn dealt_as_told<L: Ledger>(
    plan: &Plan,
    table: u32,
    row: u64,
    told: Told<'_>,
    steps: &mut Steps<L>,
) -> bool {
    let Told::Dealt(unit, number, block) = told else {
        return false;
    };
    table < plan.tables()
        && unit <= plan.units()
        && is_candidate(plan, table, row, unit)
        && deal_number(plan, table, 1, row, unit, steps) == number
        && child_block(plan, table, 1, row, unit, 0) == block
}

const FIRST: Option<Block> = Some(Block { first: 0, size: 1 });

const SECOND: Option<Block> = Some(Block { first: 1, size: 1 });

// A cohort of two rows chooses the candidates that are dealt first and second.
const CANDIDATES: &[(&[&str], &[(u32, u64, Told<'static>)])] = &[
    (
        &[FIVE_PARENTS, DRAWN],
        &[
            (1, 0, Told::Dealt(1, 2, None)),
            (1, 1, Told::Dealt(1, 1, SECOND)),
            (1, 2, Told::Dealt(1, 3, None)),
            (1, 3, Told::Dealt(1, 4, None)),
            (1, 4, Told::Dealt(1, 0, FIRST)),
            (1, 0, Told::Dealt(2, 1, SECOND)),
            (1, 4, Told::Dealt(2, 0, FIRST)),
        ],
    ),
    (
        &[FIVE_PARENTS, IN_TURN],
        &[
            (1, 0, Told::Dealt(1, 0, FIRST)),
            (1, 1, Told::Dealt(1, 1, SECOND)),
            (1, 4, Told::Dealt(1, 4, None)),
        ],
    ),
];

#[test]
fn candidates_of_cohorts(rt: HostRuntime) {
    assert_all::<Brand>(&rt, rt.alloc(), CANDIDATES, Blank::new(1));
}
