//! Statements of rows, made from the rows' lines.

ghost use Rattle.std.specs.Prelude.{◌≡◌, ◌<◌, ◌≤◌, ℕ, ◌+◌, ◌-◌, ◌*◌, ◌^◌, ◌++◌, All, drop, length, take};
ghost use Rattle.schema_facts.specs.Layout.{layout_of};
ghost use Rattle.schema_facts.specs.TableFacts.{max_line};
ghost use Rattle.life_intervals.specs.Generator.{last_unit};
ghost use Rattle.row_lines.specs.RunFields.{HasSizes};
ghost use Rattle.row_lines.specs.Runs.{RunLinesOf, listed_text};
ghost use Rattle.sql_lines.specs.Reach.{statement_size};
ghost use Rattle.sql_lines.specs.Told.{AreTold, end_told, frame_for, many_told, ordinals_told, statements_told, told_range};

use crate::frame::{Frame, Verb};
use crate::written::is_plain;
use line_pages::PageBuf;
use row_lines::{RunBuf, RunLines};
use schema_plan::Plan;
use std::sync::ledger::Ledger;
use step_count::Steps;

/// The most bytes of lines that are made before their statements: no line is longer.
pub(crate) const LINE_BYTES: usize = 65536;

/// The most rows whose lines are made before their statements.
const MOST_ROWS: u64 = 256;

/// The buffers on which statements are made: those of a run of rows, and room for the lines of rows.
#[derive(Drop)]
pub(crate) struct StatementBuf {
    pub(crate) run: RunBuf,
    pub(crate) lines: [u8; LINE_BYTES],
}

impl StatementBuf {
    /// Returns room for the statements of a package.
    pub(crate) fn new() -> StatementBuf {
        StatementBuf {
            run: RunBuf::new(),
            lines: [0; LINE_BYTES],
        }
    }
}

/// Rows of a table.
#[derive(Clone, Copy)]
pub(crate) enum Told<'a> {
    /// The living among `count` rows, from the one with ordinal `first` on.
    Living { first: u64, count: u64 },
    /// The rows with these ordinals.
    Listed { ordinals: &'a [u64] },
}

impl<'a> Told<'a> {
    /// Returns the number of rows, with those that aren't alive.
    fn many(self) -> u64
        ensures { result ≡ many_told self.entry }
    {
        match self {
            Told::Living { first: _, count } => count,
            Told::Listed { ordinals } => ordinals.len() as u64,
        }
    }

    /// Returns `some` of the rows, from number `done` on.
    fn part(self, done: u64, some: u64) -> Told<'a>
        requires few { end_told self ≤ 2 ^ 62 }
        requires within { done + some ≤ many_told self }
        ensures many { many_told result ≡ some }
        ensures ordinals { (lines : RunLinesOf) → ordinals_told lines result ≡ told_range lines self.entry done (done + some) }
        ensures told { (lines : RunLinesOf) → AreTold lines self.entry → AreTold lines result }
    {
        match self {
            Told::Living { first, count: _ } => Told::Living {
                first: first + done,
                count: some,
            },
            Told::Listed { ordinals } => Told::Listed {
                ordinals: &ordinals[done as usize..(done + some) as usize],
            },
        }
    }
}

/// Returns the most rows of a table whose lines are made at once.
fn rows_at_once(plan: &Plan, table: u32) -> u64
    requires { table < length plan.now.schema.tables }
    ensures some { 1 ≤ result }
    ensures few { result ≤ MOST_ROWS }
    ensures fits { result * max_line (layout_of plan.now) table ≤ LINE_BYTES }
{
    let _limits = plan.schema(); // a line has 1 to 65,536 bytes
    MOST_ROWS.min(LINE_BYTES as u64 / plan.max_line(table))
}

/// Appends the lines of rows to a page.
fn put_lines<L: Ledger>(
    of: &RunLines<'_>,
    told: Told<'_>,
    work: &mut RunBuf,
    page: &mut PageBuf,
    steps: &mut Steps<L>,
)
    requires told { AreTold of.now told }
    requires room { length page.old.text + many_told told * max_line (layout_of of.now.plan) of.now.table ≤ page.old.room }
    ensures text { page.new ≡ record page.old { text = page.old.text ++ listed_text of.now (ordinals_told of.now told.entry) } }
    ensures size { length (listed_text of.now (ordinals_told of.now told.entry)) ≤ many_told told.entry * max_line (layout_of of.now.plan) of.now.table }
    ensures fields { All (HasSizes of.now) (ordinals_told of.now told.entry) }
{
    match told {
        Told::Living { first, count } => of.put_run(first, count, work, page, steps),
        Told::Listed { ordinals } => of.put_listed(ordinals, work, page, steps),
    }
}

/// Takes what stands on a page after its first `from` bytes. Puts it at the start of `lines`, and returns how many bytes it has.
fn take_lines(page: &mut PageBuf, from: usize, lines: &mut [u8]) -> usize
    requires from { from ≤ length page.old.text }
    requires room { length page.old.text - from ≤ length lines.old }
    ensures count { result ≡ length page.old.text - from }
    ensures lines { take result lines.new ≡ drop from page.old.text }
    ensures page { page.new ≡ record page.old { text = take from page.old.text } }
{
    let taken = &page.text()[from..];
    let count = taken.len();
    lines[..count].copy_from_slice(taken);
    page.cut(from);
    count
}

/// Appends a statement for each of some rows, whose lines are given.
fn put_statements(
    of: &RunLines<'_>,
    told: Told<'_>,
    plan: &Plan,
    frame: &Frame,
    verb: Verb,
    lines: &[u8],
    page: &mut PageBuf,
)
    requires plan { of.now.plan ≡ plan.now }
    requires table { of.now.table < length plan.now.schema.tables }
    requires frame { frame.now ≡ frame_for of.now verb }
    requires columns { 1 ≤ length frame.now.columns }
    requires lines { lines.now ≡ listed_text of.now (ordinals_told of.now told) }
    requires fields { All (HasSizes of.now) (ordinals_told of.now told) }
    requires told { AreTold of.now told }
    requires unit { of.now.unit ≤ last_unit plan.now }
    requires room { length page.old.text + many_told told * statement_size (layout_of of.now.plan) of.now.table ≤ page.old.room }
    ensures text { page.new ≡ record page.old { text = page.old.text ++ statements_told of.now verb told.entry } }
    ensures size { length (statements_told of.now verb told.entry) ≤ many_told told.entry * statement_size (layout_of of.now.plan) of.now.table }
{
    let _limits = plan.schema(); // a name has at most 32 bytes
    let delimiter = plan.delimiter();
    let plain = is_plain(lines);
    let mut at = 0;
    while at < lines.len() {
        at = frame.put_statement(verb, lines, at, delimiter, plain, page);
    }
}

/// Appends statements of a few rows.
fn put_few<L: Ledger>(
    of: &RunLines<'_>,
    told: Told<'_>,
    plan: &Plan,
    frame: &Frame,
    verb: Verb,
    work: &mut StatementBuf,
    page: &mut PageBuf,
    steps: &mut Steps<L>,
)
    requires plan { of.now.plan ≡ plan.now }
    requires table { of.now.table < length plan.now.schema.tables }
    requires frame { frame.now ≡ frame_for of.now verb }
    requires columns { 1 ≤ length frame.now.columns }
    requires told { AreTold of.now told }
    requires unit { of.now.unit ≤ last_unit plan.now }
    requires few { many_told told * max_line (layout_of of.now.plan) of.now.table ≤ LINE_BYTES }
    requires room { length page.old.text + many_told told * statement_size (layout_of of.now.plan) of.now.table ≤ page.old.room }
    ensures text { page.new ≡ record page.old { text = page.old.text ++ statements_told of.now verb told.entry } }
    ensures size { length (statements_told of.now verb told.entry) ≤ many_told told.entry * statement_size (layout_of of.now.plan) of.now.table }
{
    let from = page.text().len();
    put_lines(of, told, &mut work.run, page, steps);
    let lines = &mut work.lines[..];
    let count = take_lines(page, from, lines);
    put_statements(of, told, plan, frame, verb, &lines[..count], page);
}

/// Appends statements of rows of a table to an empty page.
pub(crate) fn put_rows<L: Ledger>(
    of: &RunLines<'_>,
    told: Told<'_>,
    plan: &Plan,
    table: u32,
    frame: &Frame,
    verb: Verb,
    work: &mut StatementBuf,
    page: &mut PageBuf,
    steps: &mut Steps<L>,
)
    requires plan { of.now.plan ≡ plan.now }
    requires table { of.now.table ≡ table }
    requires within { table < length plan.now.schema.tables }
    requires frame { frame.now ≡ frame_for of.now verb }
    requires columns { 1 ≤ length frame.now.columns }
    requires told { AreTold of.now told }
    requires unit { of.now.unit ≤ last_unit plan.now }
    requires few { end_told told ≤ 2 ^ 62 }
    requires room { length page.old.text + many_told told * statement_size (layout_of of.now.plan) of.now.table ≤ page.old.room }
    ensures text { page.new ≡ record page.old { text = page.old.text ++ statements_told of.now verb told.entry } }
    ensures size { length (statements_told of.now verb told.entry) ≤ many_told told.entry * statement_size (layout_of of.now.plan) of.now.table }
{
    let most = rows_at_once(plan, table);
    let count = told.many();
    let mut done = 0;
    while done < count {
        let some = (count - done).min(most);
        let part = told.part(done, some);
        put_few(of, part, plan, frame, verb, work, page, steps);
        done += some;
    }
}
