//! The lines of rows side by side: gathered from the rows, made column by column as pieces, and put together from these.

ghost use Rattle.std.specs.Prelude.{◌≡◌, ◌<◌, ◌≤◌, ℕ, ◌+◌, ◌-◌, ◌*◌, ◌^◌, ◌++◌, All, false, flat_map, get_or, length, true};
ghost use Rattle.std.specs.List.{range_with_len};
ghost use Rattle.schema_facts.specs.Counts.{count};
ghost use Rattle.life_intervals.specs.Generator.{last_unit};
ghost use Rattle.detail_plan.specs.Rules.{line_size};
ghost use Rattle.detail_lines.specs.LineRuns.{AreFields, AreHeads, AreLines, AreListed, ArePlaced, HasRoom, count_seed, listed_lines, run_text};
ghost use Rattle.detail_lines.specs.Lines.{layout_beside, lines_of_draw};
ghost use Rattle.detail_lines.specs.Made.{AreMany, AreToldRows, IsParentAt, made_row, made_rows, own_over, row_of, told_count};

use crate::detail_lines::{DetailLines, LineKind, ParentAt};
use crate::line_run::{LineBuf, LineLists, LineRun, MOST_AT_ONCE, PIECES};
use crate::parent_row::ParentRows;
use crate::shown::MOST_COLUMNS;
use draw_values::{ItemizedField, RunNumbers, fill_kept, put_run_seeds};
use line_pages::{PageBuf, Piece};
use philox_seeds::draws;
use row_lines::are_all;
use std::sync::ledger::Ledger;
use step_count::Steps;

/// The draw that tells how many lines a row has.
const COUNT_DRAW: u32 = 1;

/// The first number of more than 15 digits.
const LONG: u64 = 1_000_000_000_000_000;

/// Some rows, whose lines stand side by side.
#[derive(Clone, Copy)]
struct Gathered {
    /// The place of the row after the last one.
    end: usize,
    /// How many lines they have.
    lines: usize,
}

/// Whether each key has at most 15 digits.
fn are_short(keys: &[u64]) -> bool
    ensures { result ≡ true → All (λ key. key < 10 ^ 15) keys.now }
{
    for key in keys {
        if *key >= LONG {
            return false;
        }
    }
    true
}

impl<'a> DetailLines<'a> {
    /// Returns the most lines side by side. The columns share the pieces. All lines of a row have room.
    fn most_at_once(&self) -> usize
        ensures row { 64 ≤ result }
        ensures few { result ≤ MOST_AT_ONCE }
        ensures pieces { result * (own_over self.now + 2) ≤ PIECES }
    {
        MOST_AT_ONCE.min(PIECES / (self.columns() + 2))
    }

    /// Puts how many lines each row has.
    fn put_counts(&self, rows: &ParentRows<'_>, many: usize, counts: &mut [u64])
        requires many { AreMany many rows.now }
        requires same { length counts.old ≡ many }
        ensures { (i : ℕ) → i < many → get_or counts.new i 0 ≡ told_count self.now (row_of rows.now i) }
    {
        self.put_count_seeds(rows, many, counts);
        draws(counts, COUNT_DRAW);
        self.put_counts_of(counts);
    }

    /// Puts the seed of each row from which the number of its lines is drawn.
    fn put_count_seeds(&self, rows: &ParentRows<'_>, many: usize, seeds: &mut [u64])
        requires many { AreMany many rows.now }
        requires same { length seeds.old ≡ many }
        ensures { (i : ℕ) → i < many → get_or seeds.new i 0 ≡ count_seed self.now (row_of rows.now i) }
    {
        put_run_seeds(self.counts(), false, rows.drawn_rows(many), seeds);
    }

    /// Replaces each draw by the number of lines that it gives.
    fn put_counts_of(&self, draws: &mut [u64])
        ensures { (i : ℕ) → i < length draws.old → get_or draws.new i 0 ≡ lines_of_draw (layout_beside self.now.plan self.now.kept) (get_or draws.old i 0) }
    {
        for draw in draws.iter_mut() {
            *draw = self.count_of(*draw);
        }
    }

    /// Gathers the lines of the rows from the place `first` on, as many rows as have at most `most` lines.
    fn gather(
        &self,
        t: u64,
        rows: &ParentRows<'_>,
        first: usize,
        many: usize,
        counts: &[u64],
        most: usize,
        lists: &mut LineLists,
    ) -> Gathered
        requires unit { t ≤ last_unit self.now.plan }
        requires many { AreMany many rows.now }
        requires told { AreToldRows self.now t LineKind.Whole rows.now }
        requires first { first < many }
        requires same { length counts.now ≡ many }
        requires counts { (i : ℕ) → i < many → get_or counts.now i 0 ≡ told_count self.now (row_of rows.now i) }
        requires row { 64 ≤ most }
        requires few { most ≤ MOST_AT_ONCE }
        requires room { HasRoom lists.old }
        ensures some { first < result.end }
        ensures within { result.end ≤ many }
        ensures few { result.lines ≤ most }
        ensures bound { result.lines ≤ (result.end - first) * count self.now.kept.detail.hi }
        ensures listed { AreListed self.now t result.lines lists.new }
        ensures placed { ArePlaced rows.now first (result.end - first) result.lines lists.new }
        ensures text { listed_lines self.now t lists.new result.lines ≡ flat_map (λ i. made_row self.now LineKind.Whole t (row_of rows.now i).ordinal) (range_with_len first (result.end - first)) }
    {
        let _limits = self.declared(); // a row has at most 64 lines, and ordinals are small
        let mut lines = 0;
        for i in first..many {
            let count = counts[i] as usize;
            if lines + count > most {
                return Gathered { end: i, lines };
            }
            lists.spread(&rows.row(i, many), (i - first) as u64, lines, count);
            lines += count;
        }
        Gathered { end: many, lines }
    }

    /// Makes the keys and the numbers of lines, each with the delimiter after it. Returns false if a key is too long.
    fn put_heads(
        &self,
        at: &ParentAt<'_>,
        run: &LineRun<'_>,
        count: usize,
        parents: &mut [Piece],
        pieces: &mut [Piece],
    ) -> bool
        requires lines { AreLines self.now at.now.unit count run.now }
        requires parents { length parents.old ≡ MOST_AT_ONCE }
        requires pieces { 2 * count ≤ length pieces.old }
        ensures heads { result ≡ true → AreHeads self.now count run.now pieces.new }
        ensures keys { result ≡ true → (k : ℕ) → k < count → get_or run.now.rows.keys.now k 0 < 10 ^ 15 }
    {
        let _ = at;
        let keys = run.parents.keys;
        if !are_short(keys) {
            return false;
        }
        let of_parents = &mut parents[..keys.len()];
        self.digits().fill(keys, self.delimiter(), of_parents);
        fill_kept(of_parents, run.places, &mut pieces[0..count]);
        fill_kept(self.numbers(), run.numbers, &mut pieces[count..2 * count]);
        true
    }

    /// Makes the fields of lines, column by column, after the keys and the numbers. `made` tells of which columns they are made.
    fn put_columns(
        &self,
        at: &ParentAt<'_>,
        run: &LineRun<'_>,
        count: usize,
        drawn: &mut RunNumbers,
        values: &mut [i64],
        operands: &mut [i64],
        parents: &mut [Piece],
        made: &mut [bool],
        pieces: &mut [Piece],
    )
        requires at { IsParentAt self.now at.now }
        requires lines { AreLines self.now at.now.unit count run.now }
        requires values { length values.old ≡ count }
        requires operands { length operands.old ≡ count }
        requires parents { length parents.old ≡ MOST_AT_ONCE }
        requires flags { length made.old ≡ own_over self.now }
        requires pieces { count * (own_over self.now + 2) ≤ length pieces.old }
        ensures heads { AreHeads self.now count run.now pieces.old → AreHeads self.now count run.now pieces.new }
        ensures flags { length made.new ≡ own_over self.now }
        ensures fields { (column : ℕ) → column < own_over self.now → get_or made.new column false ≡ true → AreFields self.now at.now.unit count run.now pieces.new ((column + 2) * count) column }
    {
        for column in 0..self.columns() {
            let start = (column + 2) * count;
            let fields = &mut pieces[start..start + count];
            made[column] = self.put_column(
                column, at, run, count, drawn, values, operands, parents, fields,
            );
        }
    }

    /// Appends lines if they can be made side by side. Else it appends nothing and returns false.
    fn put_run(
        &self,
        at: &ParentAt<'_>,
        run: &LineRun<'_>,
        count: usize,
        drawn: &mut RunNumbers,
        values: &mut [i64],
        operands: &mut [i64],
        parents: &mut [Piece],
        pieces: &mut [Piece],
        items: &mut [ItemizedField],
        page: &mut PageBuf,
    ) -> bool
        requires at { IsParentAt self.now at.now }
        requires lines { AreLines self.now at.now.unit count run.now }
        requires values { length values.old ≡ count }
        requires operands { length operands.old ≡ count }
        requires parents { length parents.old ≡ MOST_AT_ONCE }
        requires pieces { count * (own_over self.now + 2) ≤ length pieces.old }
        requires items { length items.old ≡ length pieces.old }
        requires room { length page.old.text + count * line_size self.now.plan self.now.kept.lists self.now.kept.detail ≤ page.old.room }
        ensures size { result ≡ true → length (run_text self.now at.now.unit run.now count) ≤ count * line_size self.now.plan self.now.kept.lists self.now.kept.detail }
        ensures put { result ≡ true → page.new ≡ record page.old { text = page.old.text ++ run_text self.now at.now.unit run.now count } }
        ensures unput { result ≡ false → page.new ≡ page.old }
    {
        let _limits = self.declared(); // there is a column, and there are few
        if !self.put_heads(at, run, count, parents, pieces) {
            return false;
        }
        let mut all_made = [false; MOST_COLUMNS];
        let all = &mut all_made[..];
        let made = &mut all[..self.columns()];
        self.put_columns(
            at, run, count, drawn, values, operands, parents, made, pieces,
        );
        if are_all(made) {
            page.put_rows(pieces, self.columns() + 2, count, count);
            return true;
        }
        if !self.can_be_mixed(made) {
            return false;
        }
        self.itemize_columns(at, run, count, drawn, items);
        self.put_mixed_lines(at, run, count, made, pieces, items, page);
        true
    }

    /// Appends all lines of some rows, one row after the other: those from the place `first` up to the one before `end`.
    fn put_rows_between<L: Ledger>(
        &self,
        at: &ParentAt<'_>,
        rows: &ParentRows<'_>,
        first: usize,
        end: usize,
        many: usize,
        page: &mut PageBuf,
        steps: &mut Steps<L>,
    )
        requires at { IsParentAt self.now at.now }
        requires many { AreMany many rows.now }
        requires ordered { first ≤ end }
        requires within { end ≤ many }
        requires told { AreToldRows self.now at.now.unit LineKind.Whole rows.now }
        requires room { length page.old.text + (end - first) * self.now.kept.reach ≤ page.old.room }
        ensures text { page.new ≡ record page.old { text = page.old.text ++ flat_map (λ i. made_row self.now LineKind.Whole at.now.unit (row_of rows.now i).ordinal) (range_with_len first (end - first)) } }
        ensures size { length (flat_map (λ i. made_row self.now LineKind.Whole at.now.unit (row_of rows.now i).ordinal) (range_with_len first (end - first))) ≤ (end - first) * self.now.kept.reach }
    {
        let mut all_seeds = [0; MOST_COLUMNS];
        let all = &mut all_seeds[..];
        let seeds = &mut all[..self.columns()];
        for i in first..end {
            let row = rows.row(i, many);
            self.put_seeds(&row, seeds);
            self.put_lines(at, &row, seeds, page, steps);
        }
    }

    /// Appends all lines of some rows from the place `first` on, as many rows as have room side by side. Returns the place of the row after them.
    fn put_some_rows<L: Ledger>(
        &self,
        at: &ParentAt<'_>,
        rows: &ParentRows<'_>,
        first: usize,
        many: usize,
        counts: &[u64],
        work: &mut LineBuf,
        page: &mut PageBuf,
        steps: &mut Steps<L>,
    ) -> usize
        requires at { IsParentAt self.now at.now }
        requires many { AreMany many rows.now }
        requires told { AreToldRows self.now at.now.unit LineKind.Whole rows.now }
        requires first { first < many }
        requires same { length counts.now ≡ many }
        requires counts { (i : ℕ) → i < many → get_or counts.now i 0 ≡ told_count self.now (row_of rows.now i) }
        requires few { many ≤ 256 }
        requires work { HasRoom work.old.lists }
        requires room { length page.old.text + (many - first) * self.now.kept.reach ≤ page.old.room }
        ensures work { HasRoom work.new.lists }
        ensures some { first < result }
        ensures within { result ≤ many }
        ensures text { page.new ≡ record page.old { text = page.old.text ++ flat_map (λ i. made_row self.now LineKind.Whole at.now.unit (row_of rows.now i).ordinal) (range_with_len first (result - first)) } }
        ensures size { length (flat_map (λ i. made_row self.now LineKind.Whole at.now.unit (row_of rows.now i).ordinal) (range_with_len first (result - first))) ≤ (result - first) * self.now.kept.reach }
    {
        let _limits = self.declared(); // all lines of a row are within the reach
        let found = self.gather(
            at.unit,
            rows,
            first,
            many,
            counts,
            self.most_at_once(),
            &mut work.lists,
        );
        let count = found.lines;
        let parents = rows.part(first, found.end, many);
        let run = work.lists.first(parents, count);
        let all_values = &mut work.values[..];
        let all_operands = &mut work.operands[..];
        let values = &mut all_values[..count];
        let operands = &mut all_operands[..count];
        let of_parents = &mut work.parents[..];
        let pieces = &mut work.pieces[..];
        let items = &mut work.items[..];
        if !self.put_run(
            at,
            &run,
            count,
            &mut work.draws,
            values,
            operands,
            of_parents,
            pieces,
            items,
            page,
        ) {
            self.put_rows_between(at, rows, first, found.end, many, page, steps);
        }
        found.end
    }

    /// Appends all lines of the first `many` rows, side by side where they can be made so.
    pub(crate) fn put_runs<L: Ledger>(
        &self,
        at: &ParentAt<'_>,
        rows: &ParentRows<'_>,
        many: usize,
        work: &mut LineBuf,
        page: &mut PageBuf,
        steps: &mut Steps<L>,
    )
        requires at { IsParentAt self.now at.now }
        requires few { many ≤ 256 }
        requires many { AreMany many rows.now }
        requires told { AreToldRows self.now at.now.unit LineKind.Whole rows.now }
        requires room { length page.old.text + many * self.now.kept.reach ≤ page.old.room }
        ensures text { page.new ≡ record page.old { text = page.old.text ++ made_rows self.now LineKind.Whole at.now.unit rows.now many } }
        ensures size { length (made_rows self.now LineKind.Whole at.now.unit rows.now many) ≤ many * self.now.kept.reach }
    {
        let mut all_counts = [0; MOST_AT_ONCE];
        let all = &mut all_counts[..];
        let counts = &mut all[..many];
        self.put_counts(rows, many, counts);
        work.lists.has_room();
        let mut done = 0;
        while done < many {
            done = self.put_some_rows(at, rows, done, many, counts, work, page, steps);
        }
    }
}
