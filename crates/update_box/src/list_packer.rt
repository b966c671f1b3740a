//! The packages of what a unit changes.

ghost use Rattle.std.specs.Prelude.{◌≡◌, ◌<◌, ◌≤◌, ◌+◌, ◌*◌, ◌-◌, ◌++◌, ◌∷◌, ◌^◌, [], All, IfOk, OnOk, length, map};
ghost use Rattle.std.specs.Option.{option_copied};
ghost use Rattle.cohort_sizes.specs.Births.{born_count, cohort_size};
ghost use Rattle.schema_facts.specs.Layout.{layout_of};
ghost use Rattle.schema_facts.specs.TableFacts.{max_line};
ghost use Rattle.life_intervals.specs.Generator.{generator_of, last_unit, table_of};
ghost use Rattle.life_intervals.specs.Streams.{deleted, updated};
ghost use Rattle.range_workers.specs.Marks.{AreMarksOf, due_files};
ghost use Rattle.update_box.specs.Kept.{HasItsLists, IsKeptShare, kept_share};
ghost use Rattle.update_box.specs.Packages.{IsJobOf, chosen_places, count_of, share_files, most_bytes, packages_of, room_of, share_of, text_numbered};
ghost use Rattle.update_box.specs.Parts.{content_count, parts_at, parts_of, range_text, unit_contents};
ghost use Rattle.update_box.specs.Prepared.{AreChosen, ArePrepared, IsAmong};
ghost use Rattle.update_box.specs.TableLists.{HasLists, HoldLists};
ghost use Rattle.update_box.specs.UnitLists.{ordinals};

use crate::names::marks_of;
use crate::parts::{Content, Job, Places};
use crate::prepared::PreparedTables;
use crate::shares::{Entries, KeptShare, Shares, cut};
use crate::units::UnitRows;
use life_intervals::{Rows, cohort};
use line_pages::{Digits, PageBuf};
use out_of_memory::Memory;
use range_workers::{Marks, Packer};
use row_lines::{KEY_LINE, RunBuf, RunLines, SpareBufs, put_keys};
use schema_plan::Plan;
use std::alloc::Global;
use std::marker::{Brand, Model};
use std::sync::ledger::{Blank, Ledger};
use step_count::Steps;

/// The packages of a job for what a unit changes in tables. Each table has three parts: the rows that the unit deletes, updates and inserts.
/// The job's node has a share of each part, cut into packages. A package is made only from the plan, the prepared tables and the unit's
/// lists. A contract sees the plan, the unit, the shares and the number of entries of a package.
pub struct ListPacker<'a> {
    plan: &'a Plan,
    tables: &'a PreparedTables,
    lists: &'a UnitRows,
    unit: u64,
    shares: Shares,
    spare: SpareBufs,
}

impl Drop for ListPacker<'_> {
    fn drop(self) {
        let ListPacker {
            plan: _,
            tables: _,
            lists: _,
            unit: _,
            shares,
            spare,
        } = self;
        drop(shares);
        drop(spare);
    }
}

impl<'a> Model for ListPacker<'a> {
    ghost use Rattle.std.specs.Prelude.{All};
    ghost use Rattle.update_box.specs.Kept.{AreKeptShares, HasItsLists, packages_by};
    ghost use Rattle.update_box.specs.Packages.{Packages};

    ghost Value = { Packages };

    ghost view = { λ p. packages_by p.plan.now p.unit p.shares };

    ghost invariant = { λ p. AreKeptShares p.plan.now p.tables.now p.unit p.shares × All (HasItsLists p.plan.now p.unit p.lists.now) p.shares.kept.items };
}

/// Returns the share of a content of a table for a job's node.
fn list_share(
    plan: &Plan,
    tables: &PreparedTables,
    job: &Job,
    place: u32,
    content: Content,
    entries: u64,
) -> KeptShare
    requires job { IsJobOf plan.now job.now }
    requires place { place < length plan.now.schema.tables }
    requires among { IsAmong tables.now place }
    requires entries { entries ≡ content_count plan.now job.now.unit place content }
    ensures place { result.place ≡ place }
    ensures share { kept_share result ≡ share_of plan.now job.now (record { place = place; content = content }) }
    ensures kept { IsKeptShare plan.now tables.now job.now.unit job.now.package result }
{
    let _sound = plan.schema(); // so there are no more entries than rows
    let _limits = plan.table(place); // and at most 2^40 of these
    cut(job, place, content, entries, 0)
}

/// Appends the three shares of what a unit changes in a table to other shares.
fn push_changes(
    plan: &Plan,
    tables: &PreparedTables,
    lists: &UnitRows,
    job: &Job,
    place: u32,
    shares: &mut Vec<KeptShare>,
) -> Result<(), Memory>
    requires job { IsJobOf plan.now job.now }
    requires place { place < length plan.now.schema.tables }
    requires among { IsAmong tables.now place }
    requires lists { HasLists plan.now job.now.unit lists.now place }
    requires kept { All (IsKeptShare plan.now tables.now job.now.unit job.now.package) shares.old.items }
    requires have { All (HasItsLists plan.now job.now.unit lists.now) shares.old.items }
    ensures shares { OnOk result (map kept_share shares.new.items ≡ map kept_share shares.old.items ++ map (share_of plan.now job.now) (parts_at unit_contents place)) }
    ensures kept { OnOk result (All (IsKeptShare plan.now tables.now job.now.unit job.now.package) shares.new.items) }
    ensures have { OnOk result (All (HasItsLists plan.now job.now.unit lists.now) shares.new.items) }
    ensures count { OnOk result (length shares.new.items ≡ length shares.old.items + 3) }
{
    let count = lists.dels(place).len() as u64;
    let deleted = list_share(plan, tables, job, place, Content::Deleted, count);
    let count = lists.upds(place).len() as u64;
    let updated = list_share(plan, tables, job, place, Content::Updated, count);
    let count = lists.ins(place).size;
    let inserted = list_share(plan, tables, job, place, Content::Inserted, count);
    push_three(deleted, updated, inserted, shares)?;
    Ok(())
}

/// Appends three shares to a list.
fn push_three(
    first: KeptShare,
    second: KeptShare,
    third: KeptShare,
    shares: &mut Vec<KeptShare>,
) -> Result<(), Memory>
    ensures { OnOk result (shares.new.items ≡ shares.old.items ++ (first ∷ second ∷ third ∷ [])) }
{
    shares.push(first)?;
    shares.push(second)?;
    shares.push(third)?;
    Ok(())
}

/// Returns the shares of what a unit changes in the tables, for a job's node.
fn list_shares(
    alloc: Global,
    plan: &Plan,
    tables: &PreparedTables,
    lists: &UnitRows,
    job: &Job,
) -> Result<Vec<KeptShare>, Memory>
    requires job { IsJobOf plan.now job.now }
    requires tables { ArePrepared plan.now tables.now }
    requires chosen_places { AreChosen plan.now job.now.table tables.now }
    requires lists { HoldLists plan.now job.now.unit job.now.table lists.now }
    ensures shares { IfOk result (λ kept. map kept_share kept.items ≡ map (share_of plan.now job.now) (parts_of unit_contents (chosen_places plan.now job.now.table))) }
    ensures kept { IfOk result (λ kept. All (IsKeptShare plan.now tables.now job.now.unit job.now.package) kept.items) }
    ensures have { IfOk result (λ kept. All (HasItsLists plan.now job.now.unit lists.now) kept.items) }
    ensures count { IfOk result (λ kept. length kept.items ≡ 3 * length tables.now.lines) }
{
    let _limits = plan.schema(); // there are at most 64 tables
    let Places { from, count } = tables.places();
    let mut shares = Vec::new(alloc);
    for number in 0..count {
        push_changes(plan, tables, lists, job, from + number, &mut shares)?;
    }
    Ok(shares)
}

/// Puts the key lines of some of the rows that a unit deletes from a table on an empty page.
fn put_deleted<B: Ledger>(
    rows: &Rows<'_>,
    digits: &Digits,
    unit: u64,
    place: u32,
    listed: &[u64],
    entries: Entries,
    work: &mut RunBuf,
    page: &mut PageBuf,
    steps: &mut Steps<B>,
)
    requires table { place < length rows.now.schema.tables }
    requires unit { unit ≤ last_unit rows.now }
    requires list { listed.now ≡ ordinals (deleted (generator_of rows.now) place unit) }
    requires ordered { entries.first ≤ entries.end }
    requires within { entries.end ≤ length listed.now }
    requires empty { page.old.text ≡ [] }
    requires room { (entries.end - entries.first) * KEY_LINE ≤ page.old.room }
    ensures text { page.new ≡ record page.old { text = range_text rows.now unit place Content.Deleted entries.first entries.end } }
    ensures size { length (range_text rows.now unit place Content.Deleted entries.first entries.end) ≤ (entries.end - entries.first) * KEY_LINE }
{
    let _sound = rows.plan().schema(); // so each of them is born before
    let listed = &listed[entries.first as usize..entries.end as usize];
    put_keys(rows, digits, place, listed, work, page, steps);
}

/// Puts the lines of some of the rows that a unit updates in a table on an empty page.
fn put_updated<B: Ledger>(
    lines: &RunLines<'_>,
    plan: &Plan,
    listed: &[u64],
    entries: Entries,
    work: &mut RunBuf,
    page: &mut PageBuf,
    steps: &mut Steps<B>,
)
    requires plan { lines.now.plan ≡ plan.now }
    requires table { lines.now.table < length plan.now.schema.tables }
    requires unit { lines.now.unit ≤ last_unit plan.now }
    requires list { listed.now ≡ ordinals (updated (generator_of plan.now) lines.now.table lines.now.unit) }
    requires ordered { entries.first ≤ entries.end }
    requires within { entries.end ≤ length listed.now }
    requires empty { page.old.text ≡ [] }
    requires room { (entries.end - entries.first) * max_line (layout_of plan.now) lines.now.table ≤ page.old.room }
    ensures text { page.new ≡ record page.old { text = range_text plan.now lines.now.unit lines.now.table Content.Updated entries.first entries.end } }
    ensures size { length (range_text plan.now lines.now.unit lines.now.table Content.Updated entries.first entries.end) ≤ (entries.end - entries.first) * max_line (layout_of plan.now) lines.now.table }
{
    let _sound = plan.schema(); // so each of them is born before, and alive
    let listed = &listed[entries.first as usize..entries.end as usize];
    lines.put_listed(listed, work, page, steps);
}

/// Puts the lines of some of the rows that a unit inserts in a table on an empty page.
fn put_inserted<B: Ledger>(
    lines: &RunLines<'_>,
    plan: &Plan,
    unit: u64,
    place: u32,
    entries: Entries,
    work: &mut RunBuf,
    page: &mut PageBuf,
    steps: &mut Steps<B>,
)
    requires lines { lines.now ≡ record { plan = plan.now; table = place; unit = unit } }
    requires table { place < length plan.now.schema.tables }
    requires unit { unit ≤ last_unit plan.now }
    requires ordered { entries.first ≤ entries.end }
    requires within { entries.end ≤ cohort_size (table_of plan.now place).births unit }
    requires empty { page.old.text ≡ [] }
    requires room { (entries.end - entries.first) * max_line (layout_of plan.now) place ≤ page.old.room }
    ensures text { page.new ≡ record page.old { text = range_text plan.now unit place Content.Inserted entries.first entries.end } }
    ensures size { length (range_text plan.now unit place Content.Inserted entries.first entries.end) ≤ (entries.end - entries.first) * max_line (layout_of plan.now) place }
{
    let _sound = plan.schema(); // so each of them is alive
    let begin = cohort(plan, place, unit).first;
    let count = entries.end - entries.first;
    lines.put_run(begin + entries.first, count, work, page, steps);
}

/// Puts the lines of the living among some of the rows of a table on an empty page.
fn put_held<B: Ledger>(
    lines: &RunLines<'_>,
    plan: &Plan,
    unit: u64,
    place: u32,
    entries: Entries,
    work: &mut RunBuf,
    page: &mut PageBuf,
    steps: &mut Steps<B>,
)
    requires lines { lines.now ≡ record { plan = plan.now; table = place; unit = unit } }
    requires unit { unit ≤ last_unit plan.now }
    requires ordered { entries.first ≤ entries.end }
    requires within { entries.end ≤ born_count (table_of plan.now place).births unit }
    requires empty { page.old.text ≡ [] }
    requires room { (entries.end - entries.first) * max_line (layout_of plan.now) place ≤ page.old.room }
    ensures text { page.new ≡ record page.old { text = range_text plan.now unit place Content.Snapshot entries.first entries.end } }
    ensures size { length (range_text plan.now unit place Content.Snapshot entries.first entries.end) ≤ (entries.end - entries.first) * max_line (layout_of plan.now) place }
{
    let _sound = plan.schema(); // so the simulation is its closed form
    let count = entries.end - entries.first;
    lines.put_run(entries.first, count, work, page, steps);
}

/// Puts the lines of a share's entries on an empty page.
fn put_entries<B: Ledger>(
    plan: &Plan,
    tables: &PreparedTables,
    lists: &UnitRows,
    unit: u64,
    share: &KeptShare,
    entries: Entries,
    work: &mut RunBuf,
    page: &mut PageBuf,
    blank: Blank,
)
    requires name { blank.name ≡ B.name }
    requires parts { blank.parts ≡ B.parts }
    requires some { 0 < blank.parts }
    requires tables { ArePrepared plan.now tables.now }
    requires unit { unit ≤ last_unit plan.now }
    requires among { IsAmong tables.now share.now.place }
    requires lists { HasLists plan.now unit lists.now share.now.place }
    requires ordered { entries.first ≤ entries.end }
    requires within { entries.end ≤ content_count plan.now unit share.now.place share.now.content }
    requires empty { page.old.text ≡ [] }
    requires room { (entries.end - entries.first) * most_bytes plan.now share.now.place share.now.content ≤ page.old.room }
    ensures text { page.new ≡ record page.old { text = range_text plan.now unit share.now.place share.now.content entries.first entries.end } }
    ensures size { length (range_text plan.now unit share.now.place share.now.content entries.first entries.end) ≤ (entries.end - entries.first) * most_bytes plan.now share.now.place share.now.content }
{
    let mut steps = Steps::<B>::new(blank);
    let place = share.place;
    let rows = tables.rows(plan);
    let lines = tables.lines_of(&rows, unit, place);
    match share.content {
        Content::Snapshot => put_held(&lines, plan, unit, place, entries, work, page, &mut steps),
        Content::Deleted => {
            let (digits, listed) = (tables.digits(), lists.dels(place));
            put_deleted(
                &rows, digits, unit, place, listed, entries, work, page, &mut steps,
            )
        }
        Content::Updated => put_updated(
            &lines,
            plan,
            lists.upds(place),
            entries,
            work,
            page,
            &mut steps,
        ),
        Content::Inserted => put_inserted(
            &lines, plan, unit, place, entries, work, page, &mut steps,
        ),
    }
}

impl<'a> ListPacker<'a> {
    /// Returns the packages of a job over a plan. The tables are prepared for the job, and the lists are its unit's. Returns `Memory` if
    /// memory runs out.
    pub fn new(
        alloc: Global,
        plan: &'a Plan,
        tables: &'a PreparedTables,
        lists: &'a UnitRows,
        job: &Job,
    ) -> Result<ListPacker<'a>, Memory>
        requires job { IsJobOf plan.now job.now }
        requires tables { ArePrepared plan.now tables.now }
        requires chosen_places { AreChosen plan.now job.now.table tables.now }
        requires lists { HoldLists plan.now job.now.unit job.now.table lists.now }
        ensures { IfOk result (λ packer. packer ≡ packages_of unit_contents plan.now job.now) }
    {
        let kept = list_shares(alloc, plan, tables, lists, job)?;
        let spare = SpareBufs::new(alloc)?;
        Ok(ListPacker {
            plan,
            tables,
            lists,
            unit: job.unit,
            shares: Shares::of(plan, job.package, kept),
            spare,
        })
    }

    /// Returns the names of the due files, each with the number of its first package. In a directory each table has three files. Without one
    /// there is only the standard output, `-`. Returns `Memory` if memory runs out.
    pub fn marks(&self, alloc: Global, dir: Option<&str>) -> Result<Marks, Memory>
        ensures marks { IfOk result (AreMarksOf (count_of self.now)) }
        ensures files { IfOk result (λ marks. due_files (text_numbered self.now) (count_of self.now) marks ≡ share_files self.now (option_copied dir.entry)) }
    {
        let _limits = self.plan.schema(); // so texts of entries join where they meet
        marks_of(alloc, self.plan, self.unit, &self.shares, dir)
    }

    /// Makes a package with working lists of its own.
    #[inline(never)]
    fn pack_anew(&self, n: u64, page: &mut PageBuf)
        requires number { n < count_of self.now }
        requires empty { page.old.text ≡ [] }
        requires room { room_of self.now ≤ page.old.room }
        ensures text { page.new ≡ record page.old { text = text_numbered self.now n } }
        ensures size { length (text_numbered self.now n) ≤ room_of self.now }
    {
        self.pack_with(n, &mut RunBuf::new(), page);
    }

    /// Makes a package with the working lists `work`.
    fn pack_with(&self, n: u64, work: &mut RunBuf, page: &mut PageBuf)
        requires number { n < count_of self.now }
        requires empty { page.old.text ≡ [] }
        requires room { room_of self.now ≤ page.old.room }
        ensures text { page.new ≡ record page.old { text = text_numbered self.now n } }
        ensures size { length (text_numbered self.now n) ≤ room_of self.now }
    {
        let (share, entries) = self.shares.package(n);
        put_entries::<Brand>(
            self.plan,
            self.tables,
            self.lists,
            self.unit,
            share,
            entries,
            work,
            page,
            Blank::new(1),
        );
    }
}

impl<'a> Packer for ListPacker<'a> {
    ghost text = { text_numbered };

    ghost count = { count_of };

    ghost room = { room_of };

    fn count(&self) -> u64 {
        self.shares.count
    }

    fn room(&self) -> usize {
        self.shares.room
    }

    fn pack(&self, n: u64, page: &mut PageBuf) {
        match self.spare.of(n) {
            Some(mut work) => self.pack_with(n, &mut work, page),
            None => self.pack_anew(n, page),
        }
    }
}
