//! The days and the numbers that are drawn, for fields that are worked out from other columns.

ghost use Rattle.std.specs.Prelude.{◌≡◌};
ghost use Rattle.philox_seeds.specs.SeedTree.{draw as draw_of};
ghost use Rattle.schema_facts.specs.Choices.{choices};
ghost use Rattle.schema_facts.specs.Ends.{IsBetween};
ghost use Rattle.schema_plan.specs.Limits.{IsAfterRange};
ghost use Rattle.draw_values.specs.ReadyValues.{HasDay, IsReady, ready_leaf_day, ready_leaf_number, ready_own_day, ready_own_number, row_draws};
ghost use Rattle.draw_values.specs.Runs.{IsReadyDrawn};
ghost use Rattle.draw_values.specs.Values.{chosen};

use crate::leaves::FIRST_DRAW;
use crate::numbers::chosen;
use crate::unit_dates::day_of_row;
use crate::values::RowAt;
use crate::weighted::skewed;
use philox_seeds::{draw, row_seed};
use schema_plan::{ReadyAfter, ReadyKind, ReadyLeaf};

/// A number with a point before its last digits.
#[derive(Clone, Copy, Debug, PartialEq, Eq)]
pub struct Number {
    /// The number as it stands without its point.
    pub value: i64,
    /// How many of its digits stand after the point.
    pub decimals: u32,
}

/// Returns the day that a row's field shows by its units or its draws, if it isn't null. `seed` is the column's at the row's unit.
/// Returns None if fields of this kind show no day of their own.
#[inline(always)]
pub(crate) fn own_day(kind: &ReadyKind, seed: u64, at: RowAt) -> Option<i64>
    requires ready { IsReadyDrawn kind.now }
    requires day { HasDay kind.now at }
    ensures { result ≡ ready_own_day at (row_draws seed at.ordinal) kind.now }
{
    match kind {
        ReadyKind::Drawn(leaf) => leaf_day(leaf, row_seed(seed, at.ordinal)),
        ReadyKind::UnitDate(date) => Some(day_of_row(date, at)),
        _ => None,
    }
}

/// Returns the number that is drawn for a row's field, if the field isn't null. `seed` is the column's at the row's unit. Returns
/// None if no number is drawn for fields of this kind.
#[inline(always)]
pub(crate) fn own_number(kind: &ReadyKind, seed: u64, ordinal: u64) -> Option<Number>
    requires { IsReadyDrawn kind.now }
    ensures { result ≡ ready_own_number (row_draws seed ordinal) kind.now }
{
    match kind {
        ReadyKind::Drawn(leaf) => leaf_number(leaf, row_seed(seed, ordinal)),
        _ => None,
    }
}

/// Returns by how many days a row's date follows another one, as it is drawn. `seed` is the column's at the row's unit.
#[inline(always)]
pub fn days_after(after: &ReadyAfter, seed: u64, ordinal: u64) -> i64
    requires range { IsAfterRange after.now.lo after.now.hi }
    requires choices { after.now.choices ≡ choices after.now.lo after.now.hi 1 }
    ensures exact { result ≡ chosen after.now.lo after.now.hi 1 (row_draws seed ordinal 1) }
    ensures range { IsBetween after.now.lo after.now.hi result }
{
    let draw = draw(row_seed(seed, ordinal), FIRST_DRAW);
    chosen(after.lo, after.hi, 1, &after.choices, draw)
}

/// Returns the day that is drawn with the seed of a row. Returns None if the value is no date.
#[inline(always)]
pub fn leaf_day(leaf: &ReadyLeaf, seed: u64) -> Option<i64>
    requires { IsReady leaf.now }
    ensures { result ≡ ready_leaf_day leaf.now (draw_of seed) }
{
    match leaf {
        ReadyLeaf::Date { lo, hi, choices } => {
            let draw = draw(seed, FIRST_DRAW);
            Some(chosen(i64::from(*lo), i64::from(*hi), 1, choices, draw))
        }
        _ => None,
    }
}

/// Returns the number that is drawn with the seed of a row. Returns None if the value is no number.
#[inline(always)]
pub fn leaf_number(leaf: &ReadyLeaf, seed: u64) -> Option<Number>
    requires { IsReady leaf.now }
    ensures { result ≡ ready_leaf_number leaf.now (draw_of seed) }
{
    let (value, decimals) = match leaf {
        ReadyLeaf::Int {
            lo,
            hi,
            step,
            choices,
        } => (chosen(*lo, *hi, *step, choices, draw(seed, FIRST_DRAW)), 0),
        ReadyLeaf::Fixed {
            lo,
            hi,
            choices,
            decimals,
            ..
        } => (
            chosen(*lo, *hi, 1, choices, draw(seed, FIRST_DRAW)),
            *decimals,
        ),
        ReadyLeaf::Skew { lo, weights, total } => {
            (skewed(*lo, weights, total, draw(seed, FIRST_DRAW)), 0)
        }
        _ => return None,
    };
    Some(Number { value, decimals })
}
