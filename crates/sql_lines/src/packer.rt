//! The packages of statements.

ghost use Rattle.std.specs.Prelude.{◌≡◌, ◌<◌, ◌≤◌, ◌+◌, ◌-◌, ◌*◌, ◌++◌, ◌^◌, [], All, IfOk, length, min};
ghost use Rattle.std.specs.List.{slice_range};
ghost use Rattle.cohort_sizes.specs.Births.{born_count};
ghost use Rattle.schema_facts.specs.Layout.{layout_of};
ghost use Rattle.life_intervals.specs.Generator.{last_unit, rows_in_all, table_of};
ghost use Rattle.row_lines.specs.Runs.{run_text};
ghost use Rattle.update_box.specs.Cuts.{package_count};
ghost use Rattle.update_box.specs.Packages.{IsJobOf};
ghost use Rattle.update_box.specs.Prepared.{ArePrepared, IsAmong};
ghost use Rattle.update_box.specs.TableLists.{HasLists};
ghost use Rattle.sql_lines.specs.Frames.{deletion_frame, insertion_frame, update_frame};
ghost use Rattle.sql_lines.specs.Kept.{IsLivingFrom, frame_stated};
ghost use Rattle.sql_lines.specs.Packages.{AreAlive, AreRowsOf, count_of, insertions_between, range_text, room_of, row_count, rows_stated, text_numbered};
ghost use Rattle.sql_lines.specs.Reach.{statement_reach, statement_size};
ghost use Rattle.sql_lines.specs.Script.{packages_of_part};
ghost use Rattle.sql_lines.specs.Statements.{deletions_of, updates_of};

use crate::frame::{Frame, Verb};
use crate::parts::{changes_stated, held_stated};
use crate::reach::statement_size;
use crate::rows::{StatementBuf, Told, put_rows};
use crate::spare::StatementBufs;
use crate::stated::Stated;
use life_intervals::Rows;
use line_pages::PageBuf;
use out_of_memory::Memory;
use range_workers::Packer;
use row_lines::RunLines;
use schema_plan::Plan;
use std::alloc::Global;
use std::marker::{Brand, Model};
use std::sync::ledger::{Blank, Ledger};
use step_count::Steps;
use update_box::{Content, Job, PreparedTables, UnitRows};

/// The packages of the statements of a table's rows, each of at most `size` rows. A package is made only from the plan, the prepared
/// tables and the given rows. A contract sees the plan, the table, the rows and the number of rows of a package.
pub struct StatementPacker<'a> {
    plan: &'a Plan,
    tables: &'a PreparedTables,
    table: u32,
    stated: Stated<'a>,
    size: u64,
    frame: Frame,
    count: u64,
    room: usize,
    /// If rows are inserted: an ordinal before which none is alive.
    living: u64,
    spare: StatementBufs,
}

impl Drop for StatementPacker<'_> {
    fn drop(self) {
        let StatementPacker {
            plan: _,
            tables: _,
            table: _,
            stated: _,
            size: _,
            frame,
            count: _,
            room: _,
            living: _,
            spare,
        } = self;
        drop(frame);
        drop(spare);
    }
}

impl<'a> Model for StatementPacker<'a> {
    ghost use Rattle.sql_lines.specs.Kept.{AreKept};
    ghost use Rattle.sql_lines.specs.Packages.{Packages, rows_stated};

    ghost Value = { Packages };

    ghost view = { λ p. record { plan = p.plan.now; table = p.table; rows = rows_stated p.stated; size = p.size } };

    ghost invariant = { λ p. AreKept (record { plan = p.plan.now; table = p.table; rows = rows_stated p.stated; size = p.size }) p.tables.now p.frame p.count p.room p.living };
}

/// Counts the rows of a table, with those that aren't alive.
fn row_count(plan: &Plan, table: u32, stated: &Stated<'_>) -> u64
    requires table { table < length plan.now.schema.tables }
    requires rows { AreRowsOf plan.now table (rows_stated stated.now) }
    ensures count { result ≡ row_count (rows_stated stated.now) }
    ensures few { result ≤ 2 ^ 60 }
{
    let _limits = plan.table(table); // it has at most 2^40 rows
    match stated {
        Stated::Inserted { from, to, .. } => to - from,
        Stated::Deleted { ordinals } => ordinals.len() as u64,
        Stated::Updated { ordinals, .. } => ordinals.len() as u64,
    }
}

/// Returns how many packages of at most `size` rows hold `many` rows.
fn package_count(size: u64, many: u64) -> u64
    requires some { 1 ≤ size }
    requires size { size ≤ 1000000 }
    requires many { many ≤ 2 ^ 60 }
    ensures count { result ≡ package_count size many }
    ensures few { result ≤ many }
{
    (many + (size - 1)) / size
}

/// Returns the room that a package of at most `size` rows wants, in bytes.
fn room_for(plan: &Plan, table: u32, size: u64, many: u64) -> usize
    requires table { table < length plan.now.schema.tables }
    requires size { size ≤ 1000000 }
    ensures room { result ≡ min size many * statement_size (layout_of plan.now) table }
    ensures within { result ≤ size * statement_reach (layout_of plan.now) }
{
    let _limits = plan.schema(); // no statement is longer than the longest of its table
    (size.min(many) * statement_size(plan, table)) as usize
}

/// Makes what the statements of a table's rows have in common. Returns `Memory` if memory runs out.
fn frame_of(alloc: Global, plan: &Plan, table: u32, stated: &Stated<'_>) -> Result<Frame, Memory>
    requires { table < length plan.now.schema.tables }
    ensures { IfOk result (λ frame. frame ≡ frame_stated plan.now table (rows_stated stated.now)) }
{
    match stated {
        Stated::Inserted { .. } => Frame::of_insertions(alloc, plan, table),
        Stated::Deleted { .. } => Frame::of_deletions(alloc, plan, table),
        Stated::Updated { .. } => Frame::of_updates(alloc, plan, table),
    }
}

/// Returns an ordinal before which no row that is inserted is alive; 0 if none is inserted.
fn first_living(plan: &Plan, tables: &PreparedTables, table: u32, stated: &Stated<'_>) -> u64
    requires tables { ArePrepared plan.now tables.now }
    requires among { IsAmong tables.now table }
    requires rows { AreRowsOf plan.now table (rows_stated stated.now) }
    ensures { IsLivingFrom plan.now table (rows_stated stated.now) result }
{
    match stated {
        Stated::Inserted { unit, .. } => {
            let rows = tables.rows(plan);
            tables.lines_of(&rows, *unit, table).first_living()
        }
        _ => 0,
    }
}

/// Returns the ordinal at which rows that may be alive begin, among the rows from `first` up to `end`. No row before `living` is alive.
fn begin_at(first: u64, end: u64, living: u64) -> u64
    requires { first ≤ end }
    ensures begun { first ≤ result }
    ensures within { result ≤ end }
    ensures passed { first < result → result ≤ living }
{
    if first < living {
        living.min(end)
    } else {
        first
    }
}

/// Puts the insertions of the living on an empty page, among the rows of a table with ordinals from `first` up to `end`. No row before
/// `living` is alive.
fn put_insertions<L: Ledger>(
    lines: &RunLines<'_>,
    plan: &Plan,
    table: u32,
    frame: &Frame,
    unit: u64,
    first: u64,
    end: u64,
    living: u64,
    work: &mut StatementBuf,
    page: &mut PageBuf,
    steps: &mut Steps<L>,
)
    requires lines { lines.now ≡ record { plan = plan.now; table = table; unit = unit } }
    requires table { table < length plan.now.schema.tables }
    requires unit { unit ≤ last_unit plan.now }
    requires frame { frame.now ≡ insertion_frame plan.now table }
    requires ordered { first ≤ end }
    requires rows { end ≤ born_count (table_of plan.now table).births unit }
    requires living { run_text (record { plan = plan.now; table = table; unit = unit }) 0 living ≡ [] }
    requires empty { page.old.text ≡ [] }
    requires room { (end - first) * statement_size (layout_of plan.now) table ≤ page.old.room }
    ensures text { page.new ≡ record page.old { text = insertions_between plan.now table unit first end } }
    ensures size { length (insertions_between plan.now table unit first end) ≤ (end - first) * statement_size (layout_of plan.now) table }
{
    let _limits = plan.table(table); // it has at most 2^40 rows, and a column
    let begin = begin_at(first, end, living);
    let told = Told::Living {
        first: begin,
        count: end - begin,
    };
    put_rows(
        lines,
        told,
        plan,
        table,
        frame,
        Verb::Insert,
        work,
        page,
        steps,
    );
}

/// Puts the updates of rows of a table on an empty page.
fn put_updates<L: Ledger>(
    lines: &RunLines<'_>,
    plan: &Plan,
    table: u32,
    frame: &Frame,
    ordinals: &[u64],
    work: &mut StatementBuf,
    page: &mut PageBuf,
    steps: &mut Steps<L>,
)
    requires plan { lines.now.plan ≡ plan.now }
    requires table { lines.now.table ≡ table }
    requires within { table < length plan.now.schema.tables }
    requires frame { frame.now ≡ update_frame plan.now table }
    requires rows { AreAlive plan.now table ordinals.now lines.now.unit }
    requires empty { page.old.text ≡ [] }
    requires room { length ordinals.now * statement_size (layout_of plan.now) table ≤ page.old.room }
    ensures text { page.new ≡ record page.old { text = updates_of plan.now lines.now.unit table ordinals.now } }
    ensures size { length (updates_of plan.now lines.now.unit table ordinals.now) ≤ length ordinals.now * statement_size (layout_of plan.now) table }
{
    if plan.columns(table).len() <= 1 {
        return;
    }
    let told = Told::Listed { ordinals };
    put_rows(
        lines,
        told,
        plan,
        table,
        frame,
        Verb::Update,
        work,
        page,
        steps,
    );
}

/// Puts the deletions of rows of a table on an empty page.
fn put_deletions<L: Ledger>(
    rows: &Rows<'_>,
    table: u32,
    frame: &Frame,
    ordinals: &[u64],
    page: &mut PageBuf,
    steps: &mut Steps<L>,
)
    requires table { table < length rows.now.schema.tables }
    requires frame { frame.now ≡ deletion_frame rows.now table }
    requires rows { All (λ ordinal. ordinal < rows_in_all rows.now table) ordinals.now }
    requires empty { page.old.text ≡ [] }
    requires room { length ordinals.now * statement_size (layout_of rows.now) table ≤ page.old.room }
    ensures text { page.new ≡ record page.old { text = deletions_of rows.now table ordinals.now } }
    ensures size { length (deletions_of rows.now table ordinals.now) ≤ length ordinals.now * statement_size (layout_of rows.now) table }
{
    let _limits = rows.plan().schema(); // a name has at most 32 bytes
    for ordinal in ordinals {
        let key = rows.key(table, *ordinal, steps);
        frame.put_deletion(key, page);
    }
}

impl<'a> StatementPacker<'a> {
    /// Returns the packages of the statements of rows of a table, `size` rows each, 1 to 1,000,000. The table is a prepared one. The rows
    /// are born by the unit, and those that are updated are alive at it. Returns `Memory` if memory runs out.
    pub fn new(
        alloc: Global,
        plan: &'a Plan,
        tables: &'a PreparedTables,
        table: u32,
        stated: Stated<'a>,
        size: u64,
    ) -> Result<StatementPacker<'a>, Memory>
        requires tables { ArePrepared plan.now tables.now }
        requires among { IsAmong tables.now table }
        requires rows { AreRowsOf plan.now table (rows_stated stated) }
        requires some_row { 1 ≤ size }
        requires size_limit { size ≤ 1000000 }
        ensures packages { IfOk result (λ packer. packer ≡ record { plan = plan.now; table = table; rows = rows_stated stated.entry; size = size }) }
        ensures room { IfOk result (λ packer. room_of packer ≤ size * statement_reach (layout_of plan.now)) }
    {
        let frame = frame_of(alloc, plan, table, &stated)?;
        let spare = StatementBufs::new(alloc)?;
        let living = first_living(plan, tables, table, &stated);
        let many = row_count(plan, table, &stated);
        Ok(StatementPacker {
            plan,
            tables,
            table,
            stated,
            size,
            frame,
            count: package_count(size, many),
            room: room_for(plan, table, size, many),
            living,
            spare,
        })
    }

    /// Returns the packages of the insertions of the rows that a table holds at a job's unit, of the share for its node. The tables are
    /// prepared for the job. Returns `Memory` if memory runs out.
    pub fn of_held(
        alloc: Global,
        plan: &'a Plan,
        tables: &'a PreparedTables,
        job: &Job,
        table: u32,
    ) -> Result<StatementPacker<'a>, Memory>
        requires job { IsJobOf plan.now job.now }
        requires tables { ArePrepared plan.now tables.now }
        requires among { IsAmong tables.now table }
        ensures packages { IfOk result (λ packer. packer ≡ packages_of_part plan.now job.now (record { place = table; content = Content.Snapshot })) }
        ensures room { IfOk result (λ packer. room_of packer ≤ job.now.package * statement_reach (layout_of plan.now)) }
        ensures few { IfOk result (λ packer. count_of packer ≤ 2 ^ 41) }
    {
        let stated = held_stated(plan, job, table);
        StatementPacker::new(alloc, plan, tables, table, stated, job.package)
    }

    /// Returns the packages of the statements for what a job's unit changes in a table: deletions, updates or insertions, of the share for
    /// its node. The tables are prepared for the job, and the lists are its unit's. Returns `Memory` if memory runs out.
    pub fn of_changes(
        alloc: Global,
        plan: &'a Plan,
        tables: &'a PreparedTables,
        lists: &'a UnitRows,
        job: &Job,
        table: u32,
        content: Content,
    ) -> Result<StatementPacker<'a>, Memory>
        requires job { IsJobOf plan.now job.now }
        requires tables { ArePrepared plan.now tables.now }
        requires among { IsAmong tables.now table }
        requires lists { HasLists plan.now job.now.unit lists.now table }
        ensures packages { IfOk result (λ packer. packer ≡ packages_of_part plan.now job.now (record { place = table; content = content })) }
        ensures room { IfOk result (λ packer. room_of packer ≤ job.now.package * statement_reach (layout_of plan.now)) }
        ensures few { IfOk result (λ packer. count_of packer ≤ 2 ^ 41) }
    {
        let stated = changes_stated(plan, lists, job, table, content);
        StatementPacker::new(alloc, plan, tables, table, stated, job.package)
    }
}

/// Puts the statements of the rows from position `first` up to position `end` on an empty page.
fn put_range<B: Ledger>(
    packer: &StatementPacker<'_>,
    first: u64,
    end: u64,
    work: &mut StatementBuf,
    page: &mut PageBuf,
    blank: Blank,
)
    requires name { blank.name ≡ B.name }
    requires parts { blank.parts ≡ B.parts }
    requires some { 0 < blank.parts }
    requires ordered { first ≤ end }
    requires within { end ≤ row_count packer.now.rows }
    requires empty { page.old.text ≡ [] }
    requires room { (end - first) * statement_size (layout_of packer.now.plan) packer.now.table ≤ page.old.room }
    ensures text { page.new ≡ record page.old { text = range_text packer.now.plan packer.now.table packer.now.rows first end } }
    ensures size { length (range_text packer.now.plan packer.now.table packer.now.rows first end) ≤ (end - first) * statement_size (layout_of packer.now.plan) packer.now.table }
{
    let mut steps = Steps::<B>::new(blank);
    let (plan, tables, table) = (packer.plan, packer.tables, packer.table);
    let _limits = plan.table(table); // it has at most 2^40 rows
    let frame = &packer.frame;
    let rows = tables.rows(plan);
    match packer.stated {
        Stated::Inserted { from, to: _, unit } => {
            let lines = tables.lines_of(&rows, unit, table);
            let (first, end) = (from + first, from + end);
            put_insertions(
                &lines,
                plan,
                table,
                frame,
                unit,
                first,
                end,
                packer.living,
                work,
                page,
                &mut steps,
            );
        }
        Stated::Deleted { ordinals } => {
            let ordinals = &ordinals[first as usize..end as usize];
            put_deletions(&rows, table, frame, ordinals, page, &mut steps);
        }
        Stated::Updated { ordinals, unit } => {
            let lines = tables.lines_of(&rows, unit, table);
            let ordinals = &ordinals[first as usize..end as usize];
            put_updates(&lines, plan, table, frame, ordinals, work, page, &mut steps);
        }
    }
}

impl<'a> StatementPacker<'a> {
    /// Makes a package with working lists of its own.
    #[inline(never)]
    fn pack_anew(&self, n: u64, page: &mut PageBuf)
        requires number { n < count_of self.now }
        requires empty { page.old.text ≡ [] }
        requires room { room_of self.now ≤ page.old.room }
        ensures text { page.new ≡ record page.old { text = text_numbered self.now n } }
        ensures size { length (text_numbered self.now n) ≤ room_of self.now }
    {
        self.pack_with(n, &mut StatementBuf::new(), page);
    }

    /// Makes a package with the working lists `work`.
    fn pack_with(&self, n: u64, work: &mut StatementBuf, page: &mut PageBuf)
        requires number { n < count_of self.now }
        requires empty { page.old.text ≡ [] }
        requires room { room_of self.now ≤ page.old.room }
        ensures text { page.new ≡ record page.old { text = text_numbered self.now n } }
        ensures size { length (text_numbered self.now n) ≤ room_of self.now }
    {
        let first = n * self.size;
        let many = row_count(self.plan, self.table, &self.stated);
        let end = many.min(first + self.size);
        put_range::<Brand>(self, first, end, work, page, Blank::new(1));
    }
}

impl<'a> Packer for StatementPacker<'a> {
    ghost text = { text_numbered };

    ghost count = { count_of };

    ghost room = { room_of };

    fn count(&self) -> u64 {
        self.count
    }

    fn room(&self) -> usize {
        self.room
    }

    fn pack(&self, n: u64, page: &mut PageBuf) {
        match self.spare.of(n) {
            Some(mut work) => self.pack_with(n, &mut work, page),
            None => self.pack_anew(n, page),
        }
    }
}
