//! The days and the numbers that a column gives for a run, for fields that are worked out from other columns. Such fields are made
//! from days and numbers.

ghost use Rattle.std.specs.Prelude.{◌≡◌, ℕ, ◌<◌, ◌≤◌, ◌-◌, ◌*◌, ◌^◌, [], false, IfSome, length, map, None, pos, slice_index, slice_index_or, Some, sum, true, unsigned_abs, ◌+ℤ◌, ◌-ℤ◌, ◌<ℤ◌, ◌≤ℤ◌};
ghost use Rattle.philox_seeds.specs.SeedTree.{draw as draw_of};
ghost use Rattle.line_pages.specs.Pieces.{piece_text};
ghost use Rattle.schema_facts.specs.Choices.{choices as choices_of};
ghost use Rattle.schema_facts.specs.ColumnFacts.{field_facts};
ghost use Rattle.schema_facts.specs.Ends.{IsBetween, IsInCalendar};
ghost use Rattle.schema_facts.specs.Layout.{layout_of};
ghost use Rattle.schema_plan.specs.Limits.{IsAfterRange, IsDateRange};
ghost use Rattle.draw_values.specs.CohortValues.{IsDayOf, IsNumberOf};
ghost use Rattle.draw_values.specs.Dates.{date_text};
ghost use Rattle.draw_values.specs.ReadyValues.{IsReady, IsUnitDay, ready_day, ready_leaf_day, ready_leaf_number, ready_own_day, ready_own_number};
ghost use Rattle.draw_values.specs.Runs.{AreOfLength, AreRunRows, HaveDays, IsReadyDrawn, IsRunColumn, day_in, number_in, run_row, run_seed, with_behind};
ghost use Rattle.draw_values.specs.Values.{Draws, chosen as chosen_of, chosen_group, draws_at, number_text};

use crate::dates::day_piece;
use crate::drawn_column::DrawnColumn;
use crate::fixed::fixed_piece;
use crate::leaves::FIRST_DRAW;
use crate::numbers::chosen;
use crate::run_column::RunColumn;
use crate::runs::{RunNumbers, RunRows};
use crate::unit_dates::day_of_unit;
use crate::values::RowAt;
use crate::weighted::skewed;
use fixed_divisors::FixedDivisor;
use line_pages::{Digits, Piece};
use schema_plan::{Plan, ReadyAfter, ReadyColumn, ReadyKind, ReadyLeaf, ReadyUnitDate};
use weight_tables::Weights;

impl RunColumn {
    /// Finds the days that a run's rows show in the column by their units or their own draws. The column can be of any kind.
    /// Returns false if its rows show no such days. A null field's day is the one that it would show.
    pub fn put_days(
        &self,
        plan: &Plan,
        rows: RunRows<'_>,
        numbers: &mut RunNumbers,
        days: &mut [i64],
    ) -> bool
        requires column { IsRunColumn plan.now self.now }
        requires rows { AreRunRows (layout_of plan.now).units (length days.old) rows }
        ensures exact { result ≡ true → (i : ℕ) → i < length days.old → day_in plan.now self.now (run_row rows.entry i) ≡ Some (slice_index_or days.new i (pos 0)) }
        ensures within { result ≡ true → (i : ℕ) → i < length days.old → IsDayOf (field_facts (layout_of plan.now) self.now.table self.now.column).days (slice_index_or days.new i (pos 0)) }
        ensures none { result ≡ false → (at : RowAt) → day_in plan.now self.now at ≡ None }
    {
        let columns = plan.columns(self.table);
        let own = &columns[self.column as usize];
        self.drawn.put_days(own, rows, numbers, days)
    }

    /// Finds the numbers that are drawn for a run's rows in the column. The column can be of any kind. Returns how many of their
    /// digits stand after the point. Returns None if no numbers are drawn. A null field's number is the one that it would hold.
    pub fn put_numbers(
        &self,
        plan: &Plan,
        rows: RunRows<'_>,
        numbers: &mut RunNumbers,
        values: &mut [i64],
    ) -> Option<u32>
        requires column { IsRunColumn plan.now self.now }
        requires rows { AreRunRows (layout_of plan.now).units (length values.old) rows }
        ensures exact { IfSome result (λ decimals. (i : ℕ) → i < length values.old → number_in plan.now self.now (run_row rows.entry i) ≡ Some (record { value = slice_index_or values.new i (pos 0); decimals = decimals })) }
        ensures within { IfSome result (λ decimals. (i : ℕ) → i < length values.old → IsNumberOf (field_facts (layout_of plan.now) self.now.table self.now.column).numbers (record { value = slice_index_or values.new i (pos 0); decimals = decimals })) }
        ensures none { result ≡ None → (at : RowAt) → number_in plan.now self.now at ≡ None }
    {
        let columns = plan.columns(self.table);
        let own = &columns[self.column as usize];
        self.drawn.put_numbers(own, rows, numbers, values)
    }

    /// Finds by how many days a run's dates in the column follow other ones, as they are drawn.
    pub fn put_days_after(
        &self,
        plan: &Plan,
        after: &ReadyAfter,
        rows: RunRows<'_>,
        numbers: &mut RunNumbers,
        days: &mut [i64],
    )
        requires column { IsRunColumn plan.now self.now }
        requires rows { AreRunRows (layout_of plan.now).units (length days.old) rows }
        requires range { IsAfterRange after.now.lo after.now.hi }
        requires choices { after.now.choices ≡ choices_of after.now.lo after.now.hi 1 }
        ensures exact { (i : ℕ) → i < length days.old → slice_index_or days.new i (pos 0) ≡ chosen_of after.now.lo after.now.hi 1 (draws_at (layout_of plan.now) self.now.table (run_row rows.entry i) self.now.column 1) }
        ensures range { (i : ℕ) → i < length days.old → IsBetween after.now.lo after.now.hi (slice_index_or days.new i (pos 0)) }
    {
        let columns = plan.columns(self.table);
        let own = &columns[self.column as usize];
        self.drawn
            .put_days_after(own.changes, after, rows, numbers, days);
    }
}

impl DrawnColumn {
    /// Finds the days that a run's rows show in the column by their units or their own draws. The column can be of any kind.
    /// Returns false if its rows show no such days. A null field's day is the one that it would show.
    pub fn put_days(
        &self,
        own: &ReadyColumn,
        rows: RunRows<'_>,
        numbers: &mut RunNumbers,
        days: &mut [i64],
    ) -> bool
        requires ready { IsReadyDrawn own.now.kind }
        requires few { length days.old ≤ 256 }
        requires lengths { AreOfLength (length days.old) rows }
        requires days { HaveDays own.now.kind (length days.old) rows }
        ensures exact { result ≡ true → (i : ℕ) → i < length days.old → ready_own_day (run_row rows.entry i) (draw_of (run_seed self.now.seed own.now.changes rows.entry i)) own.now.kind ≡ Some (slice_index_or days.new i (pos 0)) }
        ensures none { result ≡ false → (at : RowAt) → (draw : Draws) → ready_own_day at draw own.now.kind ≡ None }
    {
        match &own.kind {
            ReadyKind::Drawn(leaf) => self.put_drawn_days(own.changes, leaf, rows, numbers, days),
            ReadyKind::UnitDate(date) => {
                put_unit_days(date, rows, days);
                true
            }
            _ => false,
        }
    }

    /// Finds the days that are drawn of a leaf for a run's rows. Returns false if the leaf is no date. `changes` tells if the fields
    /// are drawn anew when a row changes.
    #[inline(always)]
    fn put_drawn_days(
        &self,
        changes: bool,
        leaf: &ReadyLeaf,
        rows: RunRows<'_>,
        numbers: &mut RunNumbers,
        days: &mut [i64],
    ) -> bool
        requires ready { IsReady leaf.now }
        requires few { length days.old ≤ 256 }
        requires lengths { AreOfLength (length days.old) rows }
        ensures exact { result ≡ true → (i : ℕ) → i < length days.old → ready_leaf_day leaf.now (draw_of (run_seed self.now.seed changes rows.entry i)) ≡ Some (slice_index_or days.new i (pos 0)) }
        ensures none { result ≡ false → (draw : Draws) → ready_leaf_day leaf.now draw ≡ None }
    {
        match leaf {
            ReadyLeaf::Date { lo, hi, choices } => {
                let (lo, hi) = (i64::from(*lo), i64::from(*hi));
                self.put_chosen(changes, lo, hi, 1, choices, rows, numbers, days);
                true
            }
            _ => false,
        }
    }

    /// Finds the numbers that are drawn for a run's rows in the column. The column can be of any kind. Returns how many of their
    /// digits stand after the point. Returns None if no numbers are drawn. A null field's number is the one that it would hold.
    pub fn put_numbers(
        &self,
        own: &ReadyColumn,
        rows: RunRows<'_>,
        numbers: &mut RunNumbers,
        values: &mut [i64],
    ) -> Option<u32>
        requires ready { IsReadyDrawn own.now.kind }
        requires few { length values.old ≤ 256 }
        requires lengths { AreOfLength (length values.old) rows }
        ensures exact { IfSome result (λ decimals. (i : ℕ) → i < length values.old → ready_own_number (draw_of (run_seed self.now.seed own.now.changes rows.entry i)) own.now.kind ≡ Some (record { value = slice_index_or values.new i (pos 0); decimals = decimals })) }
        ensures none { result ≡ None → (draw : Draws) → ready_own_number draw own.now.kind ≡ None }
    {
        match &own.kind {
            ReadyKind::Drawn(leaf) => {
                self.put_drawn_numbers(own.changes, leaf, rows, numbers, values)
            }
            _ => None,
        }
    }

    /// Finds the numbers that are drawn of a leaf for a run's rows. Returns how many of their digits stand after the point. Returns
    /// None if the leaf is no number. `changes` tells if the fields are drawn anew when a row changes.
    #[inline(always)]
    fn put_drawn_numbers(
        &self,
        changes: bool,
        leaf: &ReadyLeaf,
        rows: RunRows<'_>,
        numbers: &mut RunNumbers,
        values: &mut [i64],
    ) -> Option<u32>
        requires ready { IsReady leaf.now }
        requires few { length values.old ≤ 256 }
        requires lengths { AreOfLength (length values.old) rows }
        ensures exact { IfSome result (λ decimals. (i : ℕ) → i < length values.old → ready_leaf_number leaf.now (draw_of (run_seed self.now.seed changes rows.entry i)) ≡ Some (record { value = slice_index_or values.new i (pos 0); decimals = decimals })) }
        ensures none { result ≡ None → (draw : Draws) → ready_leaf_number leaf.now draw ≡ None }
    {
        match leaf {
            ReadyLeaf::Int {
                lo,
                hi,
                step,
                choices,
            } => {
                self.put_chosen(changes, *lo, *hi, *step, choices, rows, numbers, values);
                Some(0)
            }
            ReadyLeaf::Fixed {
                lo,
                hi,
                choices,
                decimals,
                ..
            } => {
                self.put_chosen(changes, *lo, *hi, 1, choices, rows, numbers, values);
                Some(*decimals)
            }
            ReadyLeaf::Skew { lo, weights, total } => {
                self.put_skewed(changes, *lo, weights, total, rows, numbers, values);
                Some(0)
            }
            _ => None,
        }
    }

    /// Finds by how many days a run's dates in the column follow other ones, as they are drawn. `changes` tells if the fields are drawn anew
    /// when a row changes.
    pub fn put_days_after(
        &self,
        changes: bool,
        after: &ReadyAfter,
        rows: RunRows<'_>,
        numbers: &mut RunNumbers,
        days: &mut [i64],
    )
        requires few { length days.old ≤ 256 }
        requires lengths { AreOfLength (length days.old) rows }
        requires range { IsAfterRange after.now.lo after.now.hi }
        requires choices { after.now.choices ≡ choices_of after.now.lo after.now.hi 1 }
        ensures exact { (i : ℕ) → i < length days.old → slice_index_or days.new i (pos 0) ≡ chosen_of after.now.lo after.now.hi 1 (draw_of (run_seed self.now.seed changes rows.entry i) 1) }
        ensures range { (i : ℕ) → i < length days.old → IsBetween after.now.lo after.now.hi (slice_index_or days.new i (pos 0)) }
    {
        let choices = &after.choices;
        self.put_chosen(changes, after.lo, after.hi, 1, choices, rows, numbers, days);
    }

    /// Finds the numbers from `lo` to `hi` in steps of `step` that the first draws of a run's rows choose. `choices` is how many
    /// there are. `changes` tells if the fields are drawn anew when a row changes.
    #[inline(always)]
    fn put_chosen(
        &self,
        changes: bool,
        lo: i64,
        hi: i64,
        step: u64,
        choices: &FixedDivisor,
        rows: RunRows<'_>,
        numbers: &mut RunNumbers,
        values: &mut [i64],
    )
        requires ordered { lo ≤ℤ hi }
        requires near { (hi -ℤ lo) <ℤ pos (2 ^ 63) }
        requires step { 1 ≤ step }
        requires choices { choices.now ≡ choices_of lo hi step }
        requires few { length values.old ≤ 256 }
        requires lengths { AreOfLength (length values.old) rows }
        ensures { (i : ℕ) → i < length values.old → slice_index_or values.new i (pos 0) ≡ chosen_of lo hi step (draw_of (run_seed self.now.seed changes rows.entry i) 1) }
    {
        let count = values.len();
        let all_seeds = &mut numbers.seeds[..];
        let all_draws = &mut numbers.draws[..];
        let seeds = &mut all_seeds[..count];
        let draws = &mut all_draws[..count];
        self.put_run_draws(FIRST_DRAW, changes, rows, seeds, draws);
        choose_whole(lo, hi, step, choices, draws, values);
    }

    /// Finds the skewed numbers that the first draws of a run's rows choose. `total` is the sum of the weights. `changes` tells if
    /// the fields are drawn anew when a row changes.
    #[inline(always)]
    fn put_skewed(
        &self,
        changes: bool,
        lo: i64,
        weights: &Weights,
        total: &FixedDivisor,
        rows: RunRows<'_>,
        numbers: &mut RunNumbers,
        values: &mut [i64],
    )
        requires many { length weights.now ≤ 4096 }
        requires last { (lo +ℤ pos (length weights.now - 1)) <ℤ pos (2 ^ 63) }
        requires total { total.now ≡ sum weights.now }
        requires few { length values.old ≤ 256 }
        requires lengths { AreOfLength (length values.old) rows }
        ensures { (i : ℕ) → i < length values.old → slice_index_or values.new i (pos 0) ≡ lo +ℤ pos (chosen_group weights.now (draw_of (run_seed self.now.seed changes rows.entry i) 1)) }
    {
        let count = values.len();
        let all_seeds = &mut numbers.seeds[..];
        let all_draws = &mut numbers.draws[..];
        let seeds = &mut all_seeds[..count];
        let draws = &mut all_draws[..count];
        self.put_run_draws(FIRST_DRAW, changes, rows, seeds, draws);
        choose_skewed(lo, weights, total, draws, values);
    }
}

/// Finds the days that a run's rows show in a column of the dates of units.
#[inline(always)]
fn put_unit_days(date: &ReadyUnitDate, rows: RunRows<'_>, days: &mut [i64])
    requires days { (i : ℕ) → i < length days.old → IsUnitDay date.now (run_row rows i) }
    requires lengths { AreOfLength (length days.old) rows }
    ensures { (i : ℕ) → i < length days.old → slice_index_or days.new i (pos 0) ≡ ready_day date.now (run_row rows.entry i) }
{
    if date.changed {
        put_days_of_units(date.start, date.step, rows.changes, days);
    } else {
        put_days_of_units(date.start, date.step, rows.births, days);
    }
}

/// Finds the days of units. The day of unit 0 is `start`, and each unit is `step` days after the one before.
#[inline(always)]
fn put_days_of_units(start: i32, step: u64, units: &[u64], days: &mut [i64])
    requires days { (i : ℕ) → i < length units.now → IsDateRange start (start +ℤ pos (step * slice_index units.now i)) }
    requires lengths { length units.now ≡ length days.old }
    ensures { (i : ℕ) → i < length days.old → slice_index_or days.new i (pos 0) ≡ start +ℤ pos (step * slice_index units.now i) }
{
    for (i, day) in days.iter_mut().enumerate() {
        *day = day_of_unit(start, step, units[i]);
    }
}

/// Finds the numbers from `lo` to `hi` in steps of `step` that draws choose. `choices` is how many there are.
#[inline(always)]
fn choose_whole(
    lo: i64,
    hi: i64,
    step: u64,
    choices: &FixedDivisor,
    draws: &[u64],
    values: &mut [i64],
)
    requires ordered { lo ≤ℤ hi }
    requires near { (hi -ℤ lo) <ℤ pos (2 ^ 63) }
    requires step { 1 ≤ step }
    requires choices { choices.now ≡ choices_of lo hi step }
    requires lengths { length draws.now ≡ length values.old }
    ensures { (i : ℕ) → i < length values.old → slice_index_or values.new i (pos 0) ≡ chosen_of lo hi step (slice_index draws.now i) }
{
    let divisor = *choices;
    for (i, value) in values.iter_mut().enumerate() {
        *value = chosen(lo, hi, step, &divisor, draws[i]);
    }
}

/// Finds the skewed numbers that draws choose. `total` is the sum of the weights.
#[inline(always)]
fn choose_skewed(
    lo: i64,
    weights: &Weights,
    total: &FixedDivisor,
    draws: &[u64],
    values: &mut [i64],
)
    requires few { length weights.now ≤ 4096 }
    requires last { (lo +ℤ pos (length weights.now - 1)) <ℤ pos (2 ^ 63) }
    requires total { total.now ≡ sum weights.now }
    requires lengths { length draws.now ≡ length values.old }
    ensures { (i : ℕ) → i < length values.old → slice_index_or values.new i (pos 0) ≡ lo +ℤ pos (chosen_group weights.now (slice_index draws.now i)) }
{
    for (i, value) in values.iter_mut().enumerate() {
        *value = skewed(lo, weights, total, draws[i]);
    }
}

/// Makes the dates of some days, each with the byte after it. The years must be 1 to 9999.
pub fn fill_dates_of(days: &[i64], behind: u8, pieces: &mut [Piece])
    requires days { (i : ℕ) → i < length days.now → IsInCalendar (slice_index_or days.now i (pos 0)) }
    requires lengths { length days.now ≡ length pieces.old }
    ensures { (i : ℕ) → i < length pieces.old → slice_index_or (map piece_text pieces.new) i [] ≡ with_behind behind (date_text (slice_index_or days.now i (pos 0))) }
{
    for (i, piece) in pieces.iter_mut().enumerate() {
        *piece = day_piece(days[i], Piece::of_byte(behind));
    }
}

/// Makes some numbers of at most 13 digits, with a point before their last `decimals` digits, at most 9, each with the byte after
/// it.
pub fn fill_numbers(
    digits: &Digits,
    values: &[i64],
    decimals: u32,
    behind: u8,
    pieces: &mut [Piece],
)
    requires short { (i : ℕ) → i < length values.now → unsigned_abs (slice_index_or values.now i (pos 0)) < 10 ^ 13 }
    requires decimals { decimals ≤ 9 }
    requires lengths { length values.now ≡ length pieces.old }
    ensures { (i : ℕ) → i < length pieces.old → slice_index_or (map piece_text pieces.new) i [] ≡ with_behind behind (number_text (record { value = slice_index_or values.now i (pos 0); decimals = decimals })) }
{
    let unit = FixedDivisor::new(10u64.pow(decimals));
    for (i, piece) in pieces.iter_mut().enumerate() {
        *piece = fixed_piece(digits, values[i], decimals, &unit, behind);
    }
}
