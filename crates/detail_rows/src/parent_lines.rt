//! The lines for rows of the parent, named by their ordinals and made in runs.

ghost use Rattle.std.specs.Prelude.{◌≡◌, ◌<◌, ◌≤◌, ℕ, ◌+◌, ◌*◌, ◌^◌, ◌++◌, IfOk, get_or, length, map, take};
ghost use Rattle.life_intervals.specs.Generator.{generator_of, last_unit};
ghost use Rattle.life_intervals.specs.Intervals.{change_unit, is_live};
ghost use Rattle.life_intervals.specs.Runs.{IsRun};
ghost use Rattle.detail_plan.specs.Kept.{KeepsRules};
ghost use Rattle.detail_lines.specs.Lines.{parent_place};
ghost use Rattle.detail_lines.specs.Made.{AreMany, AreToldRows};
ghost use Rattle.detail_lines.specs.Rows.{born_by};
ghost use Rattle.detail_rows.specs.Packages.{first_born, listed_text, living_from, size_born};

use detail_lines::{DetailLines, LineBuf, LineKind, ParentAt, ParentRows};
use detail_plan::DetailPlan;
use life_intervals::{Cohort, MOST_ROWS, Rows, born, cohort};
use line_pages::PageBuf;
use out_of_memory::Memory;
use row_lines::{keep, put_range};
use schema_plan::Plan;
use std::alloc::Global;
use std::marker::Model;
use std::sync::ledger::Ledger;
use step_count::Steps;

/// The lines for the rows of a detail table's parent, with what doesn't change from row to row. A contract sees the plan and the detail table.
#[derive(Drop)]
pub(crate) struct ParentLines<'a> {
    rows: Rows<'a>,
    lines: DetailLines<'a>,
    table: u32,
}

impl<'a> Model for ParentLines<'a> {
    ghost use Rattle.detail_lines.specs.Made.{LinesOver};
    ghost use Rattle.detail_rows.specs.Parent.{AreParentLines};

    ghost Value = { LinesOver };

    ghost view = { λ l. record { plan = l.rows; kept = l.lines.kept } };

    ghost invariant = { λ l. AreParentLines (record { plan = l.rows; kept = l.lines.kept }) l.lines l.table };
}

/// Returns the place of a detail table's parent in a plan's schema. The detail table must keep its rules over the plan.
pub fn parent_of(plan: &Plan, detail: &DetailPlan) -> u32
    requires { KeepsRules plan.now detail.now }
    ensures place { result ≡ parent_place plan.now detail.now.detail }
    ensures within { result < length plan.now.schema.tables }
{
    match plan.table_named(detail.detail().parent.as_str()) {
        Some(table) => table,
        None => unreachable!(),
    }
}

impl<'a> ParentLines<'a> {
    /// Makes ready the lines for the rows of a detail table's parent. The detail table must keep its rules over the plan. Refuses if memory is
    /// wanting.
    pub(crate) fn new(
        alloc: Global,
        rows: Rows<'a>,
        detail: &'a DetailPlan,
    ) -> Result<ParentLines<'a>, Memory>
        requires { KeepsRules rows detail.now }
        ensures { IfOk result (λ lines. lines ≡ record { plan = rows.entry; kept = detail.now }) }
    {
        let plan = rows.plan();
        let table = parent_of(plan, detail);
        let lines = DetailLines::new(alloc, plan, detail)?;
        Ok(ParentLines { rows, lines, table })
    }

    /// Returns the rows of the plan.
    fn rows(&self) -> &Rows<'a>
        ensures { result.now ≡ self.now.plan }
    {
        &self.rows
    }

    /// Returns the lines of the detail table.
    fn lines(&self) -> &DetailLines<'a>
        ensures value { result.now ≡ self.now }
        ensures keeps { KeepsRules self.now.plan self.now.kept }
    {
        &self.lines
    }

    /// Returns the place of the parent in the schema.
    pub(crate) fn table(&self) -> u32
        ensures place { result ≡ parent_place self.now.plan self.now.kept.detail }
        ensures within { result < length self.now.plan.schema.tables }
    {
        self.table
    }

    /// Returns the last unit.
    pub(crate) fn last_unit(&self) -> u64
        ensures { result ≡ last_unit self.now.plan }
    {
        self.rows().plan().units()
    }

    /// Returns the greatest size of all lines of a row, in bytes.
    pub(crate) fn reach(&self) -> u64
        ensures reach { result ≡ self.now.kept.reach }
        ensures most { result ≤ 65536 }
    {
        self.lines().reach()
    }

    /// Returns how many rows of the parent are born by unit `t`.
    pub(crate) fn born(&self, t: u64) -> u64
        requires { t ≤ last_unit self.now.plan }
        ensures count { result ≡ born_by self.now.plan self.now.kept t }
        ensures limit { result ≤ 2 ^ 40 }
    {
        born(self.rows().plan(), self.table(), t)
    }

    /// Returns the rows of the parent that are born at unit `t`.
    pub(crate) fn cohort(&self, t: u64) -> Cohort
        requires { t ≤ last_unit self.now.plan }
        ensures first { result.first ≡ first_born self.now.plan self.now.kept t }
        ensures size { result.size ≡ size_born self.now.plan self.now.kept t }
        ensures within { result.first + result.size ≡ born_by self.now.plan self.now.kept t }
        ensures limit { born_by self.now.plan self.now.kept t ≤ 2 ^ 40 }
    {
        let _most = self.born(t); // there are at most 2^40
        cohort(self.rows().plan(), self.table(), t)
    }

    /// Puts the units at which rows changed last by unit `t`. For keys only it puts nothing.
    fn put_changes<L: Ledger>(
        &self,
        kind: LineKind,
        t: u64,
        ordinals: &[u64],
        births: &[u64],
        changes: &mut [u64],
        steps: &mut Steps<L>,
    )
        requires unit { t ≤ last_unit self.now.plan }
        requires run { IsRun self.now.plan (parent_place self.now.plan self.now.kept.detail) t ordinals.now births.now }
        requires same_length { length changes.old ≡ length ordinals.now }
        ensures same_length { length changes.new ≡ length ordinals.now }
        ensures changes { kind ≡ LineKind.Whole → (i : ℕ) → i < length ordinals.now → get_or changes.new i 0 ≡ change_unit (generator_of self.now.plan) (parent_place self.now.plan self.now.kept.detail) t (get_or ordinals.now i 0) }
    {
        match kind {
            LineKind::Whole => {
                let table = self.table();
                self.rows()
                    .put_changes(table, t, ordinals, births, changes, steps);
            }
            LineKind::KeysAlone => {}
        }
    }

    /// Appends the lines at unit `t` of some rows, from their keys, births and changes. The rows are born by the unit.
    fn put_told<L: Ledger>(
        &self,
        kind: LineKind,
        t: u64,
        told: &ParentRows<'_>,
        work: &mut LineBuf,
        page: &mut PageBuf,
        steps: &mut Steps<L>,
    )
        requires unit { t ≤ last_unit self.now.plan }
        requires few { length told.now.ordinals.now ≤ MOST_ROWS }
        requires many { AreMany (length told.now.ordinals.now) told.now }
        requires told { AreToldRows self.now t kind told.now }
        requires room { length page.old.text + length told.now.ordinals.now * self.now.kept.reach ≤ page.old.room }
        ensures text { page.new ≡ record page.old { text = page.old.text ++ listed_text self.now.plan self.now.kept kind t told.now.ordinals.now } }
        ensures size { length (listed_text self.now.plan self.now.kept kind t told.now.ordinals.now) ≤ length told.now.ordinals.now * self.now.kept.reach }
    {
        let at = ParentAt {
            rows: self.rows(),
            table: self.table(),
            unit: t,
        };
        self.lines()
            .put_rows(kind, &at, told, told.ordinals.len(), work, page, steps);
    }

    /// Appends the lines at unit `t` of the rows of these ordinals. The rows are born by the unit, and no more than a run has.
    fn put_run<L: Ledger>(
        &self,
        kind: LineKind,
        t: u64,
        ordinals: &[u64],
        work: &mut LineBuf,
        page: &mut PageBuf,
        steps: &mut Steps<L>,
    )
        requires few { length ordinals.now ≤ MOST_ROWS }
        requires unit { t ≤ last_unit self.now.plan }
        requires rows { (i : ℕ) → i < length ordinals.now → get_or ordinals.now i 0 < born_by self.now.plan self.now.kept t }
        requires room { length page.old.text + length ordinals.now * self.now.kept.reach ≤ page.old.room }
        ensures text { page.new ≡ record page.old { text = page.old.text ++ listed_text self.now.plan self.now.kept kind t ordinals.now } }
        ensures size { length (listed_text self.now.plan self.now.kept kind t ordinals.now) ≤ length ordinals.now * self.now.kept.reach }
    {
        let table = self.table();
        let many = ordinals.len();
        let mut all_births = [0; MOST_ROWS];
        let all = &mut all_births[..];
        let births = &mut all[..many];
        self.rows().put_births(table, t, ordinals, births);
        let mut all_changes = [0; MOST_ROWS];
        let all = &mut all_changes[..];
        let changes = &mut all[..many];
        self.put_changes(kind, t, ordinals, births, changes, steps);
        let mut all_keys = [0; MOST_ROWS];
        let all = &mut all_keys[..];
        let keys = &mut all[..many];
        self.rows().put_keys(table, ordinals, births, keys, steps);
        let told = ParentRows {
            keys,
            ordinals,
            births,
            changes,
        };
        self.put_told(kind, t, &told, work, page, steps);
    }

    /// Appends the lines at unit `t` of the rows of these ordinals, run by run. The rows are born by the unit.
    pub(crate) fn put_listed<L: Ledger>(
        &self,
        kind: LineKind,
        t: u64,
        ordinals: &[u64],
        page: &mut PageBuf,
        steps: &mut Steps<L>,
    )
        requires unit { t ≤ last_unit self.now.plan }
        requires rows { (i : ℕ) → i < length ordinals.now → get_or ordinals.now i 0 < born_by self.now.plan self.now.kept t }
        requires room { length page.old.text + length ordinals.now * self.now.kept.reach ≤ page.old.room }
        ensures text { page.new ≡ record page.old { text = page.old.text ++ listed_text self.now.plan self.now.kept kind t ordinals.now } }
        ensures size { length (listed_text self.now.plan self.now.kept kind t ordinals.now) ≤ length ordinals.now * self.now.kept.reach }
    {
        let mut work = LineBuf::new();
        let mut done = 0;
        while done < ordinals.len() {
            let some = (ordinals.len() - done).min(MOST_ROWS);
            self.put_run(
                kind,
                t,
                &ordinals[done..done + some],
                &mut work,
                page,
                steps,
            );
            done += some;
        }
    }

    /// Appends the lines at unit `t` of the living among `some` rows from ordinal `first` on. The rows are born by the unit, and no more than a
    /// run has.
    fn put_living_run<L: Ledger>(
        &self,
        t: u64,
        first: u64,
        some: usize,
        work: &mut LineBuf,
        page: &mut PageBuf,
        steps: &mut Steps<L>,
    )
        requires few { some ≤ MOST_ROWS }
        requires unit { t ≤ last_unit self.now.plan }
        requires rows { first + some ≤ born_by self.now.plan self.now.kept t }
        requires room { length page.old.text + some * self.now.kept.reach ≤ page.old.room }
        ensures text { page.new ≡ record page.old { text = page.old.text ++ listed_text self.now.plan self.now.kept LineKind.Whole t (living_from self.now.plan self.now.kept t first some) } }
        ensures size { length (listed_text self.now.plan self.now.kept LineKind.Whole t (living_from self.now.plan self.now.kept t first some)) ≤ some * self.now.kept.reach }
    {
        let mut all_ordinals = [0; MOST_ROWS];
        let all = &mut all_ordinals[..];
        let ordinals = &mut all[..some];
        let living = self.find_living(t, first, some, ordinals, steps);
        self.put_run(LineKind::Whole, t, &ordinals[..living], work, page, steps);
    }

    /// Puts the ordinals of the living among `some` rows from ordinal `first` on at the beginning of a list of `some` places. Returns how many
    /// rows are alive.
    fn find_living<L: Ledger>(
        &self,
        t: u64,
        first: u64,
        some: usize,
        ordinals: &mut [u64],
        steps: &mut Steps<L>,
    ) -> usize
        requires few { some ≤ MOST_ROWS }
        requires length { length ordinals.old ≡ some }
        requires unit { t ≤ last_unit self.now.plan }
        requires rows { first + some ≤ born_by self.now.plan self.now.kept t }
        ensures within { result ≤ some }
        ensures living { take result ordinals.new ≡ living_from self.now.plan self.now.kept t first some }
    {
        let _most = self.born(t); // there are at most 2^40
        let table = self.table();
        put_range(ordinals, first);
        let mut all_births = [0; MOST_ROWS];
        let all = &mut all_births[..];
        let births = &mut all[..some];
        self.rows().put_births(table, t, ordinals, births);
        let mut all_live = [false; MOST_ROWS];
        let all = &mut all_live[..];
        let live = &mut all[..some];
        self.put_lives(t, ordinals, births, live, steps);
        keep(ordinals, live)
    }

    /// Puts for each row whether it is alive at unit `t`.
    fn put_lives<L: Ledger>(
        &self,
        t: u64,
        ordinals: &[u64],
        births: &[u64],
        live: &mut [bool],
        steps: &mut Steps<L>,
    )
        requires few { length ordinals.now ≤ MOST_ROWS }
        requires unit { t ≤ last_unit self.now.plan }
        requires run { IsRun self.now.plan (parent_place self.now.plan self.now.kept.detail) t ordinals.now births.now }
        requires same_length { length live.old ≡ length ordinals.now }
        ensures { live.new ≡ map (is_live (generator_of self.now.plan) (parent_place self.now.plan self.now.kept.detail) t) ordinals.now }
    {
        let table = self.table();
        let many = ordinals.len();
        let mut all_parents = [0; MOST_ROWS];
        let all = &mut all_parents[..];
        let parents = &mut all[..many];
        let mut all_parents_births = [0; MOST_ROWS];
        let all = &mut all_parents_births[..];
        let parents_births = &mut all[..many];
        let _ = self.rows().put_run_lives(
            table,
            t,
            ordinals,
            births,
            live,
            parents,
            parents_births,
            steps,
        );
    }

    /// Appends the lines at unit `t` of the living among `count` rows from ordinal `first` on. The rows are born by the unit.
    pub(crate) fn put_living<L: Ledger>(
        &self,
        t: u64,
        first: u64,
        count: u64,
        page: &mut PageBuf,
        steps: &mut Steps<L>,
    )
        requires unit { t ≤ last_unit self.now.plan }
        requires rows { first + count ≤ born_by self.now.plan self.now.kept t }
        requires room { length page.old.text + count * self.now.kept.reach ≤ page.old.room }
        ensures text { page.new ≡ record page.old { text = page.old.text ++ listed_text self.now.plan self.now.kept LineKind.Whole t (living_from self.now.plan self.now.kept t first count) } }
        ensures size { length (listed_text self.now.plan self.now.kept LineKind.Whole t (living_from self.now.plan self.now.kept t first count)) ≤ count * self.now.kept.reach }
    {
        let _most = self.born(t); // there are at most 2^40
        let mut work = LineBuf::new();
        let mut done = 0;
        while done < count {
            let some = (count - done).min(MOST_ROWS as u64);
            self.put_living_run(t, first + done, some as usize, &mut work, page, steps);
            done += some;
        }
    }
}
