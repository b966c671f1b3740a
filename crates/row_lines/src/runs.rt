//! The lines of a table's rows at a unit, run by run. A run makes the fields of up to 256 rows, column by column, as pieces. Then
//! it puts the lines together from the pieces.

ghost use Rattle.std.specs.Prelude.{◌≡◌, ◌<◌, ◌≤◌, ℕ, ◌+◌, ◌*◌, ◌++◌, [], All, get_or, length, take, true};
ghost use Rattle.cohort_sizes.specs.Births.{born_count};
ghost use Rattle.schema_facts.specs.Layout.{layout_of};
ghost use Rattle.schema_facts.specs.TableFacts.{cost, line_cost, max_line};
ghost use Rattle.life_intervals.specs.CohortLives.{survival_at};
ghost use Rattle.life_intervals.specs.CohortParents.{asked_for_death};
ghost use Rattle.life_intervals.specs.Generator.{generator_of, last_unit, table_of};
ghost use Rattle.life_intervals.specs.Intervals.{is_live};
ghost use Rattle.row_lines.specs.RunFields.{HasSizes};
ghost use Rattle.row_lines.specs.RunParents.{AreKnown};
ghost use Rattle.row_lines.specs.Runs.{AreLiving, listed_text, living_from, run_text};
ghost use Rattle.row_lines.specs.TableLines.{AreTableLines};

use crate::kept::{keep, keep_found, put_range};
use crate::run_buf::{FieldBuf, MOST_ROWS, PIECES, RunBuf};
use crate::run_parents::Parents;
use crate::table_lines::TableLines;
use draw_values::RunRows;
use life_intervals::{Rows, Survival, cohort, survival_at};
use line_pages::{Digits, PageBuf};
use std::marker::Model;
use std::sync::ledger::Ledger;
use step_count::Steps;

/// The living rows among a run's rows.
#[derive(Clone, Copy)]
struct Living {
    /// The number of living rows.
    count: usize,
    /// The column of the reference by which their parents are found; None if they aren't found.
    by: Option<usize>,
}

/// The lines of a table's rows at a unit, by the orders that are kept for a job. A contract sees the plan, the table and the unit.
#[derive(Drop)]
pub struct RunLines<'a> {
    pub(crate) rows: &'a Rows<'a>,
    pub(crate) lines: &'a TableLines,
    pub(crate) digits: &'a Digits,
    pub(crate) table: u32,
    pub(crate) unit: u64,
}

impl<'a> Model for RunLines<'a> {
    ghost use Rattle.row_lines.specs.Runs.{RunLinesOf};
    ghost use Rattle.row_lines.specs.RunFields.{AreRunLines};

    ghost Value = { RunLinesOf };

    ghost view = { λ l. record { plan = l.rows.now; table = l.table; unit = l.unit } };

    ghost invariant = { λ l. AreRunLines (record { plan = l.rows.now; table = l.table; unit = l.unit }) l.lines.now };
}

impl<'a> RunLines<'a> {
    /// Returns the lines of a table at a unit, made from what is worked out for the table.
    pub fn new(
        rows: &'a Rows<'a>,
        lines: &'a TableLines,
        digits: &'a Digits,
        table: u32,
        unit: u64,
    ) -> RunLines<'a>
        requires table { table < length rows.now.schema.tables }
        requires unit { unit ≤ last_unit rows.now }
        requires lines { AreTableLines rows.now table lines.now }
        ensures { result ≡ record { plan = rows.now; table = table; unit = unit } }
    {
        let plan = rows.plan();
        let _limits = plan.schema(); // each table is within its limits
        let _columns = plan.columns(table); // and so are its columns
        RunLines {
            rows,
            lines,
            digits,
            table,
            unit,
        }
    }

    /// Returns the number of the table's columns.
    pub(crate) fn column_count(&self) -> usize
        ensures many { result ≡ length (table_of self.now.plan self.now.table).columns }
        ensures some { 1 ≤ result }
        ensures few { result ≤ 64 }
    {
        self.rows.plan().columns(self.table).len()
    }

    /// Returns the most rows of a run. The columns share the pieces, so a table with many columns has fewer rows in a run.
    fn rows_at_once(&self) -> usize
        ensures some { 1 ≤ result }
        ensures rows { result ≤ MOST_ROWS }
        ensures pieces { result * length (table_of self.now.plan self.now.table).columns ≤ PIECES }
    {
        MOST_ROWS.min(PIECES / self.column_count())
    }

    /// Returns the first unit whose cohort can have living rows, up to the unit of the lines.
    fn first_unit(&self) -> u64
        ensures within { result ≤ self.now.unit }
        ensures over { (born : ℕ) → born < result → survival_at self.now.plan self.now.table born self.now.unit ≡ Survival.Over }
    {
        let plan = self.rows.plan();
        for born in 0..self.unit {
            match survival_at(plan, self.table, born, self.unit) {
                Survival::Over => {}
                _ => return born,
            }
        }
        self.unit
    }

    /// Returns the ordinal of the first row that can be alive. No row before it is alive, since the longest life of each has ended.
    pub fn first_living(&self) -> u64
        ensures within { result ≤ born_count (table_of self.now.plan self.now.table).births self.now.unit }
        ensures none { run_text self.now 0 result ≡ [] }
    {
        let born = self.first_unit();
        cohort(self.rows.plan(), self.table, born).first
    }

    /// Appends the lines of the living rows among `count` rows, from the row of ordinal `first` on. The rows must be born by the
    /// unit. The size of the table's greatest line must be free for each row. Each row takes at most as many permutations as its
    /// cost.
    pub fn put_run<L: Ledger>(
        &self,
        first: u64,
        count: u64,
        work: &mut RunBuf,
        page: &mut PageBuf,
        steps: &mut Steps<L>,
    )
        requires rows { first + count ≤ born_count (table_of self.now.plan self.now.table).births self.now.unit }
        requires room { length page.old.text + count * max_line (layout_of self.now.plan) self.now.table ≤ page.old.room }
        ensures text { page.new ≡ record page.old { text = page.old.text ++ run_text self.now first count } }
        ensures size { length (run_text self.now first count) ≤ count * max_line (layout_of self.now.plan) self.now.table }
        ensures fields { All (HasSizes self.now) (living_from self.now first count) }
        ensures steps { steps.new ≤ steps.old + count * cost (layout_of self.now.plan) self.now.table }
    {
        let _limits = self.rows.plan().table(self.table); // it has at most 2^40 rows
        let most = self.rows_at_once();
        let mut done = 0;
        while done < count {
            let some = (count - done).min(most as u64);
            self.put_rows(first + done, some as usize, work, page, steps);
            done += some;
        }
    }

    /// Appends the lines of the rows of these ordinals, which must be born by the unit and alive. The size of the table's greatest
    /// line must be free for each row. Each row takes at most as many permutations as the cost of a line.
    pub fn put_listed<L: Ledger>(
        &self,
        ordinals: &[u64],
        work: &mut RunBuf,
        page: &mut PageBuf,
        steps: &mut Steps<L>,
    )
        requires rows { (i : ℕ) → i < length ordinals.now → get_or ordinals.now i 0 < born_count (table_of self.now.plan self.now.table).births self.now.unit }
        requires alive { (i : ℕ) → i < length ordinals.now → is_live (generator_of self.now.plan) self.now.table self.now.unit (get_or ordinals.now i 0) ≡ true }
        requires room { length page.old.text + length ordinals.now * max_line (layout_of self.now.plan) self.now.table ≤ page.old.room }
        ensures text { page.new ≡ record page.old { text = page.old.text ++ listed_text self.now ordinals.now } }
        ensures size { length (listed_text self.now ordinals.now) ≤ length ordinals.now * max_line (layout_of self.now.plan) self.now.table }
        ensures fields { All (HasSizes self.now) ordinals.now }
        ensures steps { steps.new ≤ steps.old + length ordinals.now * line_cost (layout_of self.now.plan) self.now.table }
    {
        let most = self.rows_at_once();
        let mut done = 0;
        while done < ordinals.len() {
            let some = (ordinals.len() - done).min(most);
            self.put_few(&ordinals[done..done + some], work, page, steps);
            done += some;
        }
    }

    /// Appends the lines of listed rows, at most as many as a run has.
    fn put_few<L: Ledger>(
        &self,
        listed: &[u64],
        work: &mut RunBuf,
        page: &mut PageBuf,
        steps: &mut Steps<L>,
    )
        requires few { length listed.now ≤ MOST_ROWS }
        requires pieces { length listed.now * length (table_of self.now.plan self.now.table).columns ≤ PIECES }
        requires rows { (i : ℕ) → i < length listed.now → get_or listed.now i 0 < born_count (table_of self.now.plan self.now.table).births self.now.unit }
        requires alive { (i : ℕ) → i < length listed.now → is_live (generator_of self.now.plan) self.now.table self.now.unit (get_or listed.now i 0) ≡ true }
        requires room { length page.old.text + length listed.now * max_line (layout_of self.now.plan) self.now.table ≤ page.old.room }
        ensures text { page.new ≡ record page.old { text = page.old.text ++ listed_text self.now listed.now } }
        ensures size { length (listed_text self.now listed.now) ≤ length listed.now * max_line (layout_of self.now.plan) self.now.table }
        ensures fields { All (HasSizes self.now) listed.now }
        ensures steps { steps.new ≤ steps.old + length listed.now * line_cost (layout_of self.now.plan) self.now.table }
    {
        let all = &mut work.rows.births[..];
        let births = &mut all[..listed.len()];
        self.rows.put_births(self.table, self.unit, listed, births);
        let all = &mut work.parents.ordinals[..];
        let parents_ordinals = &mut all[..listed.len()];
        let all = &mut work.parents.births[..];
        let parents_births = &mut all[..listed.len()];
        let mut parents = Parents {
            by: None,
            ordinals: parents_ordinals,
            births: parents_births,
        };
        let all = &mut work.parents.live[..];
        let live = &mut all[..listed.len()];
        self.put_living(
            listed,
            births,
            &mut parents,
            live,
            &mut work.fields,
            page,
            steps,
        );
    }

    /// Appends the lines of the living rows among `count` rows, at most as many as a run has.
    fn put_rows<L: Ledger>(
        &self,
        first: u64,
        count: usize,
        work: &mut RunBuf,
        page: &mut PageBuf,
        steps: &mut Steps<L>,
    )
        requires few { count ≤ MOST_ROWS }
        requires pieces { count * length (table_of self.now.plan self.now.table).columns ≤ PIECES }
        requires rows { first + count ≤ born_count (table_of self.now.plan self.now.table).births self.now.unit }
        requires room { length page.old.text + count * max_line (layout_of self.now.plan) self.now.table ≤ page.old.room }
        ensures text { page.new ≡ record page.old { text = page.old.text ++ run_text self.now first count } }
        ensures size { length (run_text self.now first count) ≤ count * max_line (layout_of self.now.plan) self.now.table }
        ensures fields { All (HasSizes self.now) (living_from self.now first count) }
        ensures steps { steps.new ≤ steps.old + count * cost (layout_of self.now.plan) self.now.table }
    {
        let _limits = self.rows.plan().schema(); // the cost of a row has its death in
        let all = &mut work.rows.ordinals[..];
        let ordinals = &mut all[..count];
        let all = &mut work.rows.births[..];
        let births = &mut all[..count];
        let all = &mut work.rows.live[..];
        let live = &mut all[..count];
        let all = &mut work.parents.ordinals[..];
        let parents_ordinals = &mut all[..count];
        let all = &mut work.parents.births[..];
        let parents_births = &mut all[..count];
        let living = self.find_living(
            first,
            ordinals,
            births,
            live,
            parents_ordinals,
            parents_births,
            steps,
        );
        let count = living.count;
        let (ordinals, births) = (&ordinals[..count], &births[..count]);
        let mut parents = Parents {
            by: living.by,
            ordinals: &mut parents_ordinals[..count],
            births: &mut parents_births[..count],
        };
        let all = &mut work.parents.live[..];
        let live = &mut all[..count];
        self.put_living(
            ordinals,
            births,
            &mut parents,
            live,
            &mut work.fields,
            page,
            steps,
        );
    }

    /// Puts the ordinals of the living rows, and their units of birth, at the start of the lists. The rows are those from the
    /// ordinal `first` on, as many as the lists are long. If the parents were found, theirs are put in the same way.
    fn find_living<L: Ledger>(
        &self,
        first: u64,
        ordinals: &mut [u64],
        births: &mut [u64],
        live: &mut [bool],
        parents: &mut [u64],
        parents_births: &mut [u64],
        steps: &mut Steps<L>,
    ) -> Living
        requires few { length ordinals.old ≤ MOST_ROWS }
        requires births { length births.old ≡ length ordinals.old }
        requires live { length live.old ≡ length ordinals.old }
        requires parents { length parents.old ≡ length ordinals.old }
        requires parents_births { length parents_births.old ≡ length ordinals.old }
        requires rows { first + length ordinals.old ≤ born_count (table_of self.now.plan self.now.table).births self.now.unit }
        ensures few { result.count ≤ length ordinals.old }
        ensures ordinals { take result.count ordinals.new ≡ living_from self.now first (length ordinals.old) }
        ensures living { AreLiving self.now (take result.count ordinals.new) (take result.count births.new) }
        ensures known { AreKnown self.now (take result.count ordinals.new) (record { by = result.by; ordinals = take result.count parents.new; births = take result.count parents_births.new }) }
        ensures steps { steps.new ≤ steps.old + length ordinals.old * asked_for_death self.now.plan self.now.table }
    {
        let _limits = self.rows.plan().table(self.table); // it has at most 2^40 rows
        put_range(ordinals, first);
        self.rows
            .put_births(self.table, self.unit, ordinals, births);
        let by = self.rows.put_run_lives(
            self.table,
            self.unit,
            ordinals,
            births,
            live,
            parents,
            parents_births,
            steps,
        );
        keep_found(by, parents, live);
        keep_found(by, parents_births, live);
        keep(births, live);
        Living {
            count: keep(ordinals, live),
            by,
        }
    }

    /// Appends the lines of living rows, by their units of birth and by their parents, if these were found.
    fn put_living<L: Ledger>(
        &self,
        ordinals: &[u64],
        births: &[u64],
        parents: &mut Parents<'_>,
        live: &mut [bool],
        fields: &mut FieldBuf,
        page: &mut PageBuf,
        steps: &mut Steps<L>,
    )
        requires few { length ordinals.now ≤ MOST_ROWS }
        requires pieces { length ordinals.now * length (table_of self.now.plan self.now.table).columns ≤ PIECES }
        requires living { AreLiving self.now ordinals.now births.now }
        requires known { AreKnown self.now ordinals.now parents.old }
        requires live { length live.old ≡ length ordinals.now }
        requires room { length page.old.text + length ordinals.now * max_line (layout_of self.now.plan) self.now.table ≤ page.old.room }
        ensures text { page.new ≡ record page.old { text = page.old.text ++ listed_text self.now ordinals.now } }
        ensures size { length (listed_text self.now ordinals.now) ≤ length ordinals.now * max_line (layout_of self.now.plan) self.now.table }
        ensures fields { All (HasSizes self.now) ordinals.now }
        ensures steps { steps.new ≤ steps.old + length ordinals.now * line_cost (layout_of self.now.plan) self.now.table }
    {
        let count = ordinals.len();
        let all = &mut fields.changes[..];
        let changes = &mut all[..count];
        self.rows
            .put_changes(self.table, self.unit, ordinals, births, changes, steps);
        let all = &mut fields.keys[..];
        let keys = &mut all[..count];
        self.rows
            .put_keys(self.table, ordinals, births, keys, steps);
        let rows = RunRows {
            ordinals,
            births,
            changes,
        };
        let pieces = &mut fields.pieces[..];
        let items = &mut fields.items[..];
        let parent_keys = &mut fields.parent_keys[..];
        self.put_columns(
            rows,
            keys,
            parents,
            live,
            parent_keys,
            &mut fields.numbers,
            &mut fields.values,
            pieces,
            steps,
        );
        self.itemize_columns(rows, &mut fields.numbers, items);
        self.put_lines(rows, keys, pieces, items, page, steps);
    }
}
