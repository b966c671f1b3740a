//! The lines of a detail table for rows of its parent, one row after the other.

ghost use Rattle.std.specs.Prelude.{◌≡◌, ◌<◌, ◌≤◌, ◌+◌, ◌*◌, ◌^◌, ◌++◌, ◌∷◌, IfOk, decimal, if◌then◌else◌, length, map};
ghost use Rattle.std.specs.List.{range_with_len};
ghost use Rattle.line_pages.specs.Pieces.{piece_text};
ghost use Rattle.philox_seeds.specs.SeedTree.{column_seed};
ghost use Rattle.cohort_sizes.specs.Births.{LiesIn};
ghost use Rattle.schema_facts.specs.Counts.{count};
ghost use Rattle.schema_facts.specs.FactsBefore.{facts_among};
ghost use Rattle.schema_plan.specs.Limits.{IsInLimits as IsPlanInLimits};
ghost use Rattle.life_intervals.specs.Generator.{last_unit, table_of};
ghost use Rattle.row_lines.specs.Runs.{behind};
ghost use Rattle.detail_plan.specs.Kept.{KeepsRules};
ghost use Rattle.detail_plan.specs.Limits.{IsInLimits};
ghost use Rattle.detail_plan.specs.Rules.{line_size};
ghost use Rattle.detail_lines.specs.LineRuns.{is_drawn};
ghost use Rattle.detail_lines.specs.Lines.{count_column, layout_beside, lines_of_draw};
ghost use Rattle.detail_lines.specs.Shown.{IsWide};
ghost use Rattle.detail_lines.specs.Made.{AreMany, AreSeeds, AreSeedsBefore, AreToldRows, IsParentAt, IsToldRow, column_seeds, delimiter_over, detail_seed, made_key_line, made_line, made_row, made_rows, number_texts, own_over, prepared_columns, row_of, shown_columns, told_at, told_count};

use crate::line::DetailLine;
use crate::line_parents::{is_short_shown, shown_columns};
use crate::line_run::LineBuf;
use crate::parent_row::{ParentRow, ParentRows};
use crate::shown::{MOST_COLUMNS, Shown};
use detail_plan::{Detail, DetailPlan};
use draw_values::{ColumnSeeds, DrawnColumn, RunColumn};
use fixed_divisors::FixedDivisor;
use life_intervals::Rows;
use line_pages::{Digits, PageBuf, Piece};
use out_of_memory::Memory;
use philox_seeds::{column_seed, draw, row_seed, table_seed, unit_seed};
use row_lines::StillRow;
use schema_facts::{ColumnFacts, count};
use schema_plan::{Plan, ReadyColumn, ReadyKind};
use std::alloc::Global;
use std::marker::Model;
use std::sync::ledger::Ledger;
use step_count::Steps;

/// The column number whose seed draws how many lines a row has.
const COUNT_COLUMN: u32 = 32;

/// The most units for which the seeds of numbers of lines are kept.
const SEED_ROOM: u64 = 4096;

/// The most lines of a row.
const MOST_LINES: u64 = 64;

/// The size of the longest key and number of a line with the delimiter between them, in bytes.
const HEAD_SIZE: usize = 23;

/// How the lines of a row are written.
#[derive(Clone, Copy, Debug, PartialEq, Eq)]
pub enum LineKind {
    /// As whole lines.
    Whole,
    /// As keys only.
    KeysAlone,
}

/// The parent's table at a unit.
#[derive(Clone, Copy)]
pub struct ParentAt<'a> {
    /// The rows of the plan.
    pub rows: &'a Rows<'a>,
    /// The parent's place in the schema.
    pub table: u32,
    /// The unit.
    pub unit: u64,
}

/// The lines of a detail table, with what doesn't change from line to line. A contract sees the plan and the detail table.
pub struct DetailLines<'a> {
    plan: &'a Plan,
    detail: &'a DetailPlan,
    delimiter: u8,
    counts: ColumnSeeds,
    least: u64,
    spread: FixedDivisor,
    seeds: Vec<u64>,
    columns: Vec<DrawnColumn>,
    shown: Vec<Option<RunColumn>>,
    digits: Digits,
    numbers: Vec<Piece>,
    in_runs: bool,
}

impl Drop for DetailLines<'_> {
    fn drop(self) {
        let DetailLines {
            plan: _,
            detail: _,
            delimiter: _,
            counts,
            least: _,
            spread: _,
            seeds,
            columns,
            shown,
            digits,
            numbers,
            in_runs: _,
        } = self;
        drop(counts);
        drop(seeds);
        drop(columns);
        drop(shown);
        drop(digits);
        drop(numbers);
    }
}

impl<'a> Model for DetailLines<'a> {
    ghost use Rattle.std.specs.Prelude.{map};
    ghost use Rattle.line_pages.specs.Pieces.{piece_text};
    ghost use Rattle.detail_lines.specs.Made.{AreKept, LinesOver};

    ghost Value = { LinesOver };

    ghost view = { λ l. record { plan = l.plan.now; kept = l.detail.now } };

    ghost invariant = { λ l. AreKept (record { plan = l.plan.now; kept = l.detail.now }) l.delimiter l.counts l.least l.spread l.seeds.items l.columns.items l.shown.items (map piece_text l.numbers.items) };
}

/// Returns the seeds of the first `many` columns below a seed.
fn column_seeds(alloc: Global, seed: u64, many: u32) -> Result<Vec<u64>, Memory>
    ensures { IfOk result (λ seeds. seeds.items ≡ map (column_seed seed) (range_with_len 0 many)) }
{
    let mut seeds = Vec::with_capacity(alloc, many as usize)?;
    for column in 0..many {
        seeds.push(column_seed(seed, column))?;
    }
    Ok(seeds)
}

/// Prepares the columns of a detail table for runs. `seed` is the detail table's.
fn line_columns(
    alloc: Global,
    plan: &Plan,
    detail: &DetailPlan,
    seed: u64,
) -> Result<Vec<DrawnColumn>, Memory>
    requires keeps { KeepsRules plan.now detail.now }
    requires seed { seed ≡ detail_seed detail.now }
    ensures { IfOk result (λ made. made.items ≡ prepared_columns (record { plan = plan.now; kept = detail.now })) }
{
    let many = detail.detail().columns.len();
    let columns = detail.columns();
    let mut made = Vec::with_capacity(alloc, many)?;
    for column in 0..many {
        let behind = byte_behind(plan.delimiter(), many, column);
        let seed = column_seed(seed, column as u32);
        made.push(DrawnColumn::new(alloc, &columns[column], seed, behind, plan.units())?)?;
    }
    Ok(made)
}

/// Makes the texts of the numbers of lines, from 0 to the greatest, each with the delimiter after it.
fn number_pieces(alloc: Global, digits: &Digits, delimiter: u8) -> Result<Vec<Piece>, Memory>
    ensures { IfOk result (λ made. map piece_text made.items ≡ number_texts delimiter) }
{
    let mut made = Vec::with_capacity(alloc, MOST_LINES as usize + 1)?;
    for number in 0..MOST_LINES + 1 {
        made.push(digits.piece(number, delimiter))?;
    }
    Ok(made)
}

/// Returns the byte after the field of the column at a place, of so many: the delimiter, or the line feed after the last one.
pub(crate) fn byte_behind(delimiter: u8, many: usize, column: usize) -> u8
    requires { column < many }
    ensures { result ≡ behind delimiter many column }
{
    if column + 1 == many { b'\n' } else { delimiter }
}

/// Whether lines are tried side by side. Any answer gives the same lines: they are made one by one where they don't come side by side.
fn come_in_runs(columns: &[ReadyColumn], shown: &[Option<RunColumn>]) -> bool {
    for (i, shown) in shown.iter().enumerate() {
        let is_made = match columns.get(i) {
            Some(own) => comes_in_runs(columns, own, shown),
            None => false,
        };
        if !is_made {
            return false;
        }
    }
    true
}

/// Whether the fields of a column are tried for lines side by side.
fn comes_in_runs(columns: &[ReadyColumn], own: &ReadyColumn, shown: &Option<RunColumn>) -> bool {
    match &own.kind {
        ReadyKind::Drawn(_) => true,
        ReadyKind::Lookup(_) => is_short_shown(shown),
        ReadyKind::After(after) => match columns.get(after.of as usize) {
            Some(column) => column.null == 0 && shows_days(&column.kind),
            None => false,
        },
        ReadyKind::Sum { of } | ReadyKind::Product { of } => are_drawn(columns, of.as_slice()),
        _ => false,
    }
}

/// Whether the days of a column are found for lines side by side.
fn shows_days(kind: &ReadyKind) -> bool {
    match kind {
        ReadyKind::Drawn(_) | ReadyKind::After(_) | ReadyKind::Lookup(_) => true,
        _ => false,
    }
}

/// Whether the columns at some places are drawn, and are never null.
fn are_drawn(columns: &[ReadyColumn], places: &[u64]) -> bool {
    for place in places {
        let is_drawn = match columns.get(*place as usize) {
            Some(column) => column.null == 0 && is_drawn(&column.kind),
            None => false,
        };
        if !is_drawn {
            return false;
        }
    }
    true
}

/// Whether the fields of a column are drawn.
pub(crate) fn is_drawn(kind: &ReadyKind) -> bool
    ensures { result ≡ is_drawn kind.now }
{
    match kind {
        ReadyKind::Drawn(_) => true,
        _ => false,
    }
}

/// Appends the key of a row and the number of a line, with the delimiter between them. 23 bytes must be free.
fn put_head(delimiter: u8, key: u64, number: u64, page: &mut PageBuf)
    requires number { number ≤ 64 }
    requires room { length page.old.text + HEAD_SIZE ≤ page.old.room }
    ensures text { page.new ≡ record page.old { text = page.old.text ++ (decimal key ++ delimiter ∷ decimal number) } }
    ensures size { length (decimal key ++ delimiter ∷ decimal number) ≤ HEAD_SIZE }
    ensures key { key < 2 ^ 64 }
{
    page.put_number(key);
    page.put_piece(&Piece::of_byte(delimiter));
    page.put_number(number);
}

/// Returns the unit at which the fields of a column are drawn for a row.
pub(crate) fn draw_unit(column: &ReadyColumn, row: &ParentRow) -> u64
    ensures { result ≡ (if column.now.changes then row.now.changed else row.now.born) }
{
    if column.changes {
        row.changed
    } else {
        row.born
    }
}

impl<'a> ParentAt<'a> {
    /// Returns the row that is told, to read its columns.
    fn row(&self, row: &ParentRow) -> StillRow<'a>
        requires table { self.now.table < length self.now.rows.now.schema.tables }
        requires unit { self.now.unit ≤ last_unit self.now.rows.now }
        requires lies { LiesIn (table_of self.now.rows.now self.now.table).births row.now.born row.now.ordinal }
        requires born { row.now.born ≤ self.now.unit }
        ensures { result ≡ record { plan = self.now.rows.now; table = self.now.table; unit = self.now.unit; ordinal = row.now.ordinal } }
    {
        StillRow::new(self.rows, self.table, row.ordinal, row.born, self.unit)
    }
}

impl<'a> DetailLines<'a> {
    /// Makes ready the lines of a detail table, which keeps its rules over the plan. Refuses if memory is wanting.
    pub fn new(
        alloc: Global,
        plan: &'a Plan,
        detail: &'a DetailPlan,
    ) -> Result<DetailLines<'a>, Memory>
        requires { KeepsRules plan.now detail.now }
        ensures { IfOk result (λ lines. lines ≡ record { plan = plan.now; kept = detail.now }) }
    {
        let _sound = plan.schema(); // each table is within its limits
        let declared = detail.detail();
        let seed = table_seed(count(declared.seed), 0);
        let seeds = column_seeds(alloc, seed, declared.columns.len() as u32)?;
        let counts = column_seed(seed, COUNT_COLUMN);
        let columns = line_columns(alloc, plan, detail, seed)?;
        let shown = shown_columns(alloc, plan, detail)?;
        let ready = detail.columns();
        let in_runs = come_in_runs(ready, shown.as_slice());
        let delimiter = plan.delimiter();
        let digits = Digits::new(alloc)?;
        let numbers = number_pieces(alloc, &digits, delimiter)?;
        Ok(DetailLines {
            plan,
            detail,
            delimiter,
            counts: ColumnSeeds::below(alloc, counts, plan.units(), SEED_ROOM)?,
            least: count(declared.lo),
            spread: FixedDivisor::new(count(declared.hi) - count(declared.lo) + 1),
            seeds,
            columns,
            shown,
            digits,
            numbers,
            in_runs,
        })
    }

    /// Returns the detail table.
    pub(crate) fn declared(&self) -> &Detail
        ensures value { result.now ≡ self.now.kept.detail }
        ensures limits { IsInLimits self.now.kept.lists self.now.kept.detail }
        ensures keeps { KeepsRules self.now.plan self.now.kept }
        ensures sound { IsPlanInLimits self.now.plan }
    {
        self.detail.detail()
    }

    /// Returns the greatest size of all lines of a row, in bytes.
    pub fn reach(&self) -> u64
        ensures reach { result ≡ self.now.kept.reach }
        ensures most { result ≤ 65536 }
    {
        self.detail.reach(self.plan)
    }

    /// Returns the byte between two fields.
    pub(crate) fn delimiter(&self) -> u8
        ensures { result ≡ delimiter_over self.now }
    {
        self.delimiter
    }

    /// Returns the seeds of the columns, below that of the detail table.
    fn seeds(&self) -> &[u64]
        ensures { result.now ≡ column_seeds self.now.kept }
    {
        self.seeds.as_slice()
    }

    /// Returns the number of columns.
    pub(crate) fn columns(&self) -> usize
        ensures many { result ≡ own_over self.now }
        ensures few { result ≤ MOST_COLUMNS }
    {
        self.declared().columns.len()
    }

    /// Returns how many lines a row has.
    fn count(&self, row: &ParentRow) -> u64
        ensures count { result ≡ told_count self.now row.now }
        ensures most { result ≤ count self.now.kept.detail.hi }
        ensures few { result ≤ MOST_LINES }
    {
        let _limits = self.declared(); // it has at most 64
        let seed = row_seed(self.counts.at(row.born), row.ordinal);
        self.count_of(draw(seed, 1))
    }

    /// Returns how many lines a draw gives a row.
    pub(crate) fn count_of(&self, draw: u64) -> u64
        ensures count { result ≡ lines_of_draw (layout_beside self.now.plan self.now.kept) draw }
        ensures most { result ≤ count self.now.kept.detail.hi }
        ensures few { result ≤ MOST_LINES }
    {
        let _limits = self.declared(); // a row has at most 64
        self.least + self.spread.remainder(draw)
    }

    /// Returns the seeds, by unit of birth, from which the numbers of lines are drawn.
    pub(crate) fn counts(&self) -> &ColumnSeeds
        ensures { result.now ≡ column_seed (detail_seed self.now.kept) count_column }
    {
        &self.counts
    }

    /// Returns the texts of four digits.
    pub(crate) fn digits(&self) -> &Digits {
        &self.digits
    }

    /// Returns the texts of the numbers of lines, from 0 to the greatest, each with the delimiter after it.
    pub(crate) fn numbers(&self) -> &[Piece]
        ensures { map piece_text result.now ≡ number_texts (delimiter_over self.now) }
    {
        self.numbers.as_slice()
    }

    /// Returns the columns, prepared for runs.
    pub(crate) fn prepared(&self) -> &[DrawnColumn]
        ensures { result.now ≡ prepared_columns self.now }
    {
        self.columns.as_slice()
    }

    /// Returns, for each column of the parent, that one prepared for runs. Any other column has None.
    pub(crate) fn shown(&self) -> &[Option<RunColumn>]
        ensures { result.now ≡ shown_columns self.now }
    {
        self.shown.as_slice()
    }

    /// Returns the plan.
    pub(crate) fn plan(&self) -> &'a Plan
        ensures value { result.now ≡ self.now.plan }
        ensures sound { IsPlanInLimits self.now.plan }
    {
        self.plan
    }

    /// Returns the columns, ready for lines, and after them the reference to the parent.
    pub(crate) fn ready(&self) -> &'a [ReadyColumn]
        ensures value { result.now ≡ self.now.kept.columns }
        ensures keeps { KeepsRules self.now.plan self.now.kept }
        ensures limits { IsInLimits self.now.kept.lists self.now.kept.detail }
    {
        self.detail.columns()
    }

    /// Returns the facts of the column at a place.
    pub(crate) fn facts(&self, column: usize) -> ColumnFacts
        ensures { result ≡ facts_among self.now.kept.facts column }
    {
        self.detail.facts(column)
    }

    /// Puts the seed of each column for the unit at which a row's field is drawn.
    pub(crate) fn put_seeds(&self, row: &ParentRow, seeds: &mut [u64])
        requires { length seeds.old ≡ own_over self.now }
        ensures { AreSeeds self.now (told_at row.now) seeds.new }
    {
        let columns = self.detail.columns();
        let columns_seeds = self.seeds();
        for column in 0..self.columns() {
            let unit = draw_unit(&columns[column], row);
            seeds[column] = unit_seed(columns_seeds[column], unit);
        }
    }

    /// Appends a line of a row, which is held to read its columns.
    fn put_line<L: Ledger>(
        &self,
        at: &ParentAt<'_>,
        row: &ParentRow,
        held: &StillRow<'_>,
        seeds: &[u64],
        number: u64,
        shown: &mut Shown,
        page: &mut PageBuf,
        steps: &mut Steps<L>,
    )
        requires at { IsParentAt self.now at.now }
        requires told { IsToldRow self.now at.now.unit LineKind.Whole row.now }
        requires held { held.now ≡ record { plan = at.now.rows.now; table = at.now.table; unit = at.now.unit; ordinal = row.now.ordinal } }
        requires seeds { AreSeeds self.now (told_at row.now) seeds.now }
        requires numbered { 1 ≤ number }
        requires number { number ≤ MOST_LINES }
        requires wide { IsWide shown.old }
        requires room { length page.old.text + line_size self.now.plan self.now.kept.lists self.now.kept.detail ≤ page.old.room }
        ensures wide { IsWide shown.new }
        ensures text { page.new ≡ record page.old { text = page.old.text ++ made_line self.now at.now.unit row.now.ordinal number } }
        ensures size { length (made_line self.now at.now.unit row.now.ordinal number) ≤ line_size self.now.plan self.now.kept.lists self.now.kept.detail }
    {
        let _limits = self.declared(); // a line has room for a key, a number and the fields
        let drawn = MOST_LINES * row.ordinal + (number - 1);
        put_head(self.delimiter(), row.key, number, page);
        DetailLine::new(self.detail, self.delimiter(), held, seeds, number, drawn).put_fields(
            shown, page, steps,
        );
        page.put_piece(&Piece::of_byte(b'\n'));
    }

    /// Appends all lines of a row.
    pub(crate) fn put_lines<L: Ledger>(
        &self,
        at: &ParentAt<'_>,
        row: &ParentRow,
        seeds: &[u64],
        page: &mut PageBuf,
        steps: &mut Steps<L>,
    )
        requires at { IsParentAt self.now at.now }
        requires told { IsToldRow self.now at.now.unit LineKind.Whole row.now }
        requires seeds { AreSeeds self.now (told_at row.now) seeds.now }
        requires room { length page.old.text + self.now.kept.reach ≤ page.old.room }
        ensures text { page.new ≡ record page.old { text = page.old.text ++ made_row self.now LineKind.Whole at.now.unit row.now.ordinal } }
        ensures size { length (made_row self.now LineKind.Whole at.now.unit row.now.ordinal) ≤ self.now.kept.reach }
    {
        let _limits = self.declared(); // all lines of a row are within the reach
        let held = at.row(row);
        let mut shown = Shown::new();
        for done in 0..self.count(row) {
            self.put_line(at, row, &held, seeds, done + 1, &mut shown, page, steps);
        }
    }

    /// Appends the key of a line of a row, with a line feed.
    fn put_key_line(&self, t: u64, row: &ParentRow, number: u64, page: &mut PageBuf)
        requires told { IsToldRow self.now t LineKind.KeysAlone row.now }
        requires unit { t ≤ last_unit self.now.plan }
        requires number { number ≤ MOST_LINES }
        requires room { length page.old.text + line_size self.now.plan self.now.kept.lists self.now.kept.detail ≤ page.old.room }
        ensures text { page.new ≡ record page.old { text = page.old.text ++ made_key_line self.now t row.now.ordinal number } }
        ensures size { length (made_key_line self.now t row.now.ordinal number) ≤ line_size self.now.plan self.now.kept.lists self.now.kept.detail }
    {
        let _limits = self.declared(); // a line has room for a key and a number
        put_head(self.delimiter(), row.key, number, page);
        page.put_piece(&Piece::of_byte(b'\n'));
    }

    /// Appends the keys of all lines of a row, each with a line feed.
    pub(crate) fn put_key_lines(&self, t: u64, row: &ParentRow, page: &mut PageBuf)
        requires told { IsToldRow self.now t LineKind.KeysAlone row.now }
        requires unit { t ≤ last_unit self.now.plan }
        requires room { length page.old.text + self.now.kept.reach ≤ page.old.room }
        ensures text { page.new ≡ record page.old { text = page.old.text ++ made_row self.now LineKind.KeysAlone t row.now.ordinal } }
        ensures size { length (made_row self.now LineKind.KeysAlone t row.now.ordinal) ≤ self.now.kept.reach }
    {
        let _limits = self.declared(); // all lines of a row are within the reach
        for done in 0..self.count(row) {
            self.put_key_line(t, row, done + 1, page);
        }
    }

    /// Puts the seeds for the row at a place, after those for the row before it. They stay if both rows are drawn at the same units.
    fn follow(&self, rows: &ParentRows<'_>, i: usize, many: usize, seeds: &mut [u64])
        requires many { AreMany many rows.now }
        requires within { i < many }
        requires columns { length seeds.old ≡ own_over self.now }
        requires before { AreSeedsBefore self.now rows.now i seeds.old }
        ensures { AreSeeds self.now (told_at (row_of rows.now i)) seeds.new }
    {
        let row = rows.row(i, many);
        if i == 0 {
            return self.put_seeds(&row, seeds);
        }
        let before = rows.row(i - 1, many);
        if row.born != before.born || row.changed != before.changed {
            self.put_seeds(&row, seeds);
        }
    }

    /// Appends all lines of the row at a place, whole or as keys only.
    fn put_row<L: Ledger>(
        &self,
        kind: LineKind,
        at: &ParentAt<'_>,
        rows: &ParentRows<'_>,
        i: usize,
        many: usize,
        seeds: &mut [u64],
        page: &mut PageBuf,
        steps: &mut Steps<L>,
    )
        requires at { IsParentAt self.now at.now }
        requires many { AreMany many rows.now }
        requires within { i < many }
        requires told { AreToldRows self.now at.now.unit kind rows.now }
        requires columns { length seeds.old ≡ own_over self.now }
        requires before { kind ≡ LineKind.Whole → AreSeedsBefore self.now rows.now i seeds.old }
        requires room { length page.old.text + self.now.kept.reach ≤ page.old.room }
        ensures seeds { kind ≡ LineKind.Whole → AreSeeds self.now (told_at (row_of rows.now i)) seeds.new }
        ensures columns { length seeds.new ≡ own_over self.now }
        ensures text { page.new ≡ record page.old { text = page.old.text ++ made_row self.now kind at.now.unit (row_of rows.now i).ordinal } }
        ensures size { length (made_row self.now kind at.now.unit (row_of rows.now i).ordinal) ≤ self.now.kept.reach }
    {
        let row = rows.row(i, many);
        match kind {
            LineKind::Whole => {
                self.follow(rows, i, many, seeds);
                self.put_lines(at, &row, seeds, page, steps);
            }
            LineKind::KeysAlone => self.put_key_lines(at.unit, &row, page),
        }
    }

    /// Appends all lines of the first `many` rows, whole or as keys only, one row after the other.
    fn put_each_row<L: Ledger>(
        &self,
        kind: LineKind,
        at: &ParentAt<'_>,
        rows: &ParentRows<'_>,
        many: usize,
        page: &mut PageBuf,
        steps: &mut Steps<L>,
    )
        requires at { IsParentAt self.now at.now }
        requires many { AreMany many rows.now }
        requires told { AreToldRows self.now at.now.unit kind rows.now }
        requires room { length page.old.text + many * self.now.kept.reach ≤ page.old.room }
        ensures text { page.new ≡ record page.old { text = page.old.text ++ made_rows self.now kind at.now.unit rows.now many } }
        ensures size { length (made_rows self.now kind at.now.unit rows.now many) ≤ many * self.now.kept.reach }
    {
        let mut all_seeds = [0; MOST_COLUMNS];
        let all = &mut all_seeds[..];
        let seeds = &mut all[..self.columns()];
        for i in 0..many {
            self.put_row(kind, at, rows, i, many, seeds, page, steps);
        }
    }

    /// Appends all lines of the first `many` rows, whole or as keys only.
    pub fn put_rows<L: Ledger>(
        &self,
        kind: LineKind,
        at: &ParentAt<'_>,
        rows: &ParentRows<'_>,
        many: usize,
        work: &mut LineBuf,
        page: &mut PageBuf,
        steps: &mut Steps<L>,
    )
        requires at { IsParentAt self.now at.now }
        requires few { many ≤ 256 }
        requires many { AreMany many rows.now }
        requires told { AreToldRows self.now at.now.unit kind rows.now }
        requires room { length page.old.text + many * self.now.kept.reach ≤ page.old.room }
        ensures text { page.new ≡ record page.old { text = page.old.text ++ made_rows self.now kind at.now.unit rows.now many } }
        ensures size { length (made_rows self.now kind at.now.unit rows.now many) ≤ many * self.now.kept.reach }
    {
        match kind {
            LineKind::Whole if self.in_runs => self.put_runs(at, rows, many, work, page, steps),
            _ => self.put_each_row(kind, at, rows, many, page, steps),
        }
    }
}
