//! The packages of a snapshot.

ghost use Rattle.std.specs.Prelude.{◌≡◌, ◌<◌, ◌≤◌, ◌+◌, ◌*◌, ◌-◌, [], All, IfOk, length, map};
ghost use Rattle.std.specs.Option.{option_copied};
ghost use Rattle.schema_facts.specs.Layout.{layout_of};
ghost use Rattle.schema_facts.specs.TableFacts.{max_line};
ghost use Rattle.cohort_sizes.specs.Births.{born_count};
ghost use Rattle.life_intervals.specs.Generator.{last_unit, table_of};
ghost use Rattle.range_workers.specs.Marks.{AreMarksOf, due_files};
ghost use Rattle.update_box.specs.Kept.{IsKeptShare, IsSnapshot, kept_share};
ghost use Rattle.update_box.specs.Packages.{IsJobOf, chosen_places, count_of, share_files, packages_of, room_of, share_of, text_numbered};
ghost use Rattle.update_box.specs.Parts.{parts_of, range_text, snapshot_contents};
ghost use Rattle.update_box.specs.Prepared.{AreChosen, ArePrepared, IsAmong};

use crate::names::marks_of;
use crate::parts::{Content, Job, Places};
use crate::prepared::PreparedTables;
use crate::shares::{KeptShare, Shares, cut};
use life_intervals::{Rows, born};
use line_pages::PageBuf;
use out_of_memory::Memory;
use range_workers::{Marks, Packer};
use row_lines::{RunBuf, SpareBufs};
use schema_plan::Plan;
use std::alloc::Global;
use std::marker::{Brand, Model};
use std::sync::ledger::{Blank, Ledger};
use step_count::Steps;

/// The packages of a job for the rows of tables at a unit. The job's node has a share of each table, cut into packages. A package is made
/// only from the plan and the prepared tables. A contract sees the plan, the unit, the shares and the number of entries of a package.
pub struct SnapshotPacker<'a> {
    plan: &'a Plan,
    tables: &'a PreparedTables,
    unit: u64,
    shares: Shares,
    spare: SpareBufs,
}

impl Drop for SnapshotPacker<'_> {
    fn drop(self) {
        let SnapshotPacker {
            plan: _,
            tables: _,
            unit: _,
            shares,
            spare,
        } = self;
        drop(shares);
        drop(spare);
    }
}

impl<'a> Model for SnapshotPacker<'a> {
    ghost use Rattle.std.specs.Prelude.{All};
    ghost use Rattle.update_box.specs.Kept.{AreKeptShares, IsSnapshot, packages_by};
    ghost use Rattle.update_box.specs.Packages.{Packages};

    ghost Value = { Packages };

    ghost view = { λ p. packages_by p.plan.now p.unit p.shares };

    ghost invariant = { λ p. AreKeptShares p.plan.now p.tables.now p.unit p.shares × All (IsSnapshot p.plan.now p.unit) p.shares.kept.items };
}

/// Returns the share of a table's rows at a unit for a job's node.
fn snapshot_share(rows: &Rows<'_>, tables: &PreparedTables, job: &Job, place: u32) -> KeptShare
    requires job { IsJobOf rows.now job.now }
    requires tables { ArePrepared rows.now tables.now }
    requires among { IsAmong tables.now place }
    ensures share { kept_share result ≡ share_of rows.now job.now (record { place = place; content = Content.Snapshot }) }
    ensures kept { IsKeptShare rows.now tables.now job.now.unit job.now.package result }
    ensures snapshot { IsSnapshot rows.now job.now.unit result }
{
    let living = tables.lines_of(rows, job.unit, place).first_living();
    let entries = born(rows.plan(), place, job.unit);
    cut(job, place, Content::Snapshot, entries, living)
}

/// Returns the shares of the tables' rows at a unit for a job's node.
fn snapshot_shares(
    alloc: Global,
    rows: &Rows<'_>,
    tables: &PreparedTables,
    job: &Job,
) -> Result<Vec<KeptShare>, Memory>
    requires job { IsJobOf rows.now job.now }
    requires tables { ArePrepared rows.now tables.now }
    requires chosen_places { AreChosen rows.now job.now.table tables.now }
    ensures shares { IfOk result (λ kept. map kept_share kept.items ≡ map (share_of rows.now job.now) (parts_of snapshot_contents (chosen_places rows.now job.now.table))) }
    ensures kept { IfOk result (λ kept. All (IsKeptShare rows.now tables.now job.now.unit job.now.package) kept.items) }
    ensures snapshot { IfOk result (λ kept. All (IsSnapshot rows.now job.now.unit) kept.items) }
    ensures count { IfOk result (λ kept. length kept.items ≡ length tables.now.lines) }
{
    let _limits = rows.plan().schema(); // there are at most 64 tables
    let Places { from, count } = tables.places();
    let mut shares = Vec::new(alloc);
    for number in 0..count {
        shares.push(snapshot_share(rows, tables, job, from + number))?;
    }
    Ok(shares)
}

impl<'a> SnapshotPacker<'a> {
    /// Returns the packages of a job over a plan. The tables are prepared for the job. Returns `Memory` if memory runs out.
    pub fn new(
        alloc: Global,
        plan: &'a Plan,
        tables: &'a PreparedTables,
        job: &Job,
    ) -> Result<SnapshotPacker<'a>, Memory>
        requires job { IsJobOf plan.now job.now }
        requires tables { ArePrepared plan.now tables.now }
        requires chosen_places { AreChosen plan.now job.now.table tables.now }
        ensures { IfOk result (λ packer. packer ≡ packages_of snapshot_contents plan.now job.now) }
    {
        let rows = tables.rows(plan);
        let kept = snapshot_shares(alloc, &rows, tables, job)?;
        let spare = SpareBufs::new(alloc)?;
        Ok(SnapshotPacker {
            plan,
            tables,
            unit: job.unit,
            shares: Shares::of(plan, job.package, kept),
            spare,
        })
    }

    /// Returns the names of the due files, each with the number of its first package. In a directory each table has one file. Without one
    /// there is only the standard output, `-`. Returns `Memory` if memory runs out.
    pub fn marks(&self, alloc: Global, dir: Option<&str>) -> Result<Marks, Memory>
        ensures marks { IfOk result (AreMarksOf (count_of self.now)) }
        ensures files { IfOk result (λ marks. due_files (text_numbered self.now) (count_of self.now) marks ≡ share_files self.now (option_copied dir.entry)) }
    {
        let _limits = self.plan.schema(); // so texts of entries join where they meet
        marks_of(alloc, self.plan, self.unit, &self.shares, dir)
    }

    /// Makes a package with working lists of its own.
    #[inline(never)]
    fn pack_anew(&self, n: u64, page: &mut PageBuf)
        requires number { n < count_of self.now }
        requires empty { page.old.text ≡ [] }
        requires room { room_of self.now ≤ page.old.room }
        ensures text { page.new ≡ record page.old { text = text_numbered self.now n } }
        ensures size { length (text_numbered self.now n) ≤ room_of self.now }
    {
        self.pack_with(n, &mut RunBuf::new(), page);
    }

    /// Makes a package with the working lists `work`.
    fn pack_with(&self, n: u64, work: &mut RunBuf, page: &mut PageBuf)
        requires number { n < count_of self.now }
        requires empty { page.old.text ≡ [] }
        requires room { room_of self.now ≤ page.old.room }
        ensures text { page.new ≡ record page.old { text = text_numbered self.now n } }
        ensures size { length (text_numbered self.now n) ≤ room_of self.now }
    {
        let (share, range) = self.shares.package(n);
        put_living::<Brand>(
            self.plan,
            self.tables,
            self.unit,
            share,
            range.first,
            range.end,
            work,
            page,
            Blank::new(1),
        );
    }
}

/// Returns the ordinal at which rows that may be alive begin, among the rows from `first` up to `end`. No row before `living` is alive.
fn begin_at(first: u64, end: u64, living: u64) -> u64
    requires { first ≤ end }
    ensures begun { first ≤ result }
    ensures within { result ≤ end }
    ensures passed { first < result → result ≤ living }
{
    if first < living {
        living.min(end)
    } else {
        first
    }
}

/// Puts the lines of the living on an empty page, among the rows of a table with ordinals from `first` up to `end`. Skips the rows before the
/// first one that may be alive.
fn put_living<B: Ledger>(
    plan: &Plan,
    tables: &PreparedTables,
    unit: u64,
    share: &KeptShare,
    first: u64,
    end: u64,
    work: &mut RunBuf,
    page: &mut PageBuf,
    blank: Blank,
)
    requires name { blank.name ≡ B.name }
    requires parts { blank.parts ≡ B.parts }
    requires some { 0 < blank.parts }
    requires tables { ArePrepared plan.now tables.now }
    requires unit { unit ≤ last_unit plan.now }
    requires among { IsAmong tables.now share.now.place }
    requires snapshot { IsSnapshot plan.now unit share.now }
    requires ordered { first ≤ end }
    requires rows { end ≤ born_count (table_of plan.now share.now.place).births unit }
    requires empty { page.old.text ≡ [] }
    requires room { (end - first) * max_line (layout_of plan.now) share.now.place ≤ page.old.room }
    ensures text { page.new ≡ record page.old { text = range_text plan.now unit share.now.place Content.Snapshot first end } }
    ensures size { length (range_text plan.now unit share.now.place Content.Snapshot first end) ≤ (end - first) * max_line (layout_of plan.now) share.now.place }
{
    let _sound = plan.schema(); // so the simulation is its closed form
    let begin = begin_at(first, end, share.living);
    if begin == end {
        return;
    }
    let mut steps = Steps::<B>::new(blank);
    let rows = tables.rows(plan);
    let lines = tables.lines_of(&rows, unit, share.place);
    lines.put_run(begin, end - begin, work, page, &mut steps);
}

impl<'a> Packer for SnapshotPacker<'a> {
    ghost text = { text_numbered };

    ghost count = { count_of };

    ghost room = { room_of };

    fn count(&self) -> u64 {
        self.shares.count
    }

    fn room(&self) -> usize {
        self.shares.room
    }

    fn pack(&self, n: u64, page: &mut PageBuf) {
        match self.spare.of(n) {
            Some(mut work) => self.pack_with(n, &mut work, page),
            None => self.pack_anew(n, page),
        }
    }
}
