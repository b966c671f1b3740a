//! Mode undo: the undo texts of tables at a unit. They take the texts back to the unit before.

ghost use Rattle.std.specs.Prelude.{◌≡◌, ◌<◌, ◌≤◌, ◌-◌, ◌⊎◌, false, IfErr, IfOk, IsErrOf, None, Some, OnOk, length, map, slice_index_or, IsOk};
ghost use Rattle.std.specs.List.{sum_by};
ghost use Rattle.std.specs.Option.{option_map};
ghost use Rattle.pd_outside.specs.Faults.{FailedAtLast, Unfailed};
ghost use Rattle.pd_outside.specs.Shelf.{HoldsPrefixOf, finish_files};
ghost use Rattle.range_workers.specs.Marks.{AreMarksOf, due_files};
ghost use Rattle.plan_stages.specs.Stages.{Decides};
ghost use Rattle.refusals.specs.Statuses.{job_status};
ghost use Rattle.undo_streams.specs.Packages.{count_of, text_numbered};
ghost use Rattle.undo_streams.specs.Places.{places_of};
ghost use Rattle.update_box.specs.Cuts.{text_in};
ghost use Rattle.update_box.specs.Packages.{IsJobOf, chosen_places};
ghost use Rattle.update_box.specs.TableLists.{HasLists, table_lists_at};
ghost use Rattle.run_jobs.specs.DueFiles.{most_page_bytes, page_bytes};
ghost use Rattle.run_jobs.specs.Jobs.{due_of, CanFill, CanPackBy, CanPackUnit, CanUndo, HasPlaces};
ghost use Rattle.run_jobs.specs.modes.Undo.{undo_asked, undo_due, undo_files, undo_package, undo_packages, undo_reach};

use crate::modes::unit::found_job;
use life_intervals::Rows;
use out_of_memory::Memory;
use pd_outside::{Gate, Shelf};
use range_workers::{Marks, RunFault, run};
use refusals::JobFault;
use request_words::{Format, OptionName, Request};
use run_jobs::asked::{chosen_table, default_package, is_past_last, is_past_pages};
use run_jobs::job::{Job, UndoJob, UnitJob, copied};
use run_jobs::joined::Joined;
use run_jobs::names::Directory;
use schema_plan::Plan;
use std::alloc::Global;
use std::marker::Brand;
use std::sync::ledger::{Blank, Ledger};
use std::thread::Threads;
use step_count::Steps;
use undo_streams::{Changes, UndoPacker, WORD_AND_PLACE};
use update_box::{Places, places_of};

/// The name of the standard output.
const STANDARD_OUTPUT: &str = "-";

/// Returns the most bytes of a line in the undo text of any of a plan's tables.
fn undo_reach(plan: &Plan) -> u64
    ensures most { result ≡ undo_reach plan.now }
    ensures some { 1 ≤ result }
    ensures few { result ≤ 131072 }
{
    let _limits = plan.schema(); // a line has at most 65,536 bytes
    WORD_AND_PLACE + plan.reach()
}

/// Returns how many lines a package of a request has.
fn undo_package(plan: &Plan, request: &Request) -> u64
    requires { CanPackBy request.now }
    ensures lines { result ≡ undo_package plan.now request.now }
    ensures some_line { 1 ≤ result }
    ensures line_limit { result ≤ 1000000 }
{
    match request.package {
        Some(lines) => lines,
        None => default_package(request.workers, undo_reach(plan)),
    }
}

/// Returns what a request asks of a plan's tables, whole. Refuses the first option out of range: unit, table, package.
fn undo_asked(plan: &Plan, request: &Request) -> Result<update_box::Job, JobFault>
    requires ranges { CanPackBy request.now }
    ensures asked { result ≡ undo_asked request.now plan.now }
    ensures job { IfOk result (IsJobOf plan.now) }
    ensures later { IfOk result (λ job. 1 ≤ job.unit) }
    ensures pages { IfOk result (λ job. page_bytes request.now.workers job.package (undo_reach plan.now) ≤ most_page_bytes) }
{
    if request.unit == 0 || is_past_last(plan, request.unit) {
        return Err(JobFault::Range(OptionName::Unit));
    }
    let Some(table) = chosen_table(plan, &request.table) else {
        return Err(JobFault::Range(OptionName::Table));
    };
    let package = undo_package(plan, request);
    if is_past_pages(request.workers, package, undo_reach(plan)) {
        return Err(JobFault::Range(OptionName::Package));
    }
    Ok(update_box::Job {
        unit: request.unit,
        table,
        package,
        node: 0,
        nodes: 1,
    })
}

/// Returns the job of the undo texts of a plan's tables.
pub fn plan_undo(alloc: Global, plan: Plan, request: &Request) -> Result<Job, JobFault>
    requires ranges { CanPackBy request.now }
    ensures job { Decides job_status due_of result (undo_due request.now plan) }
    ensures in_range { IfErr result (λ fault. job_status fault ≡ 7 → IsOk (undo_asked request.now plan)) }
    ensures refused { IfErr result (λ fault. (job_status fault ≡ 7) ⊎ (job_status fault ≡ 8)) }
    ensures can { IfOk result CanFill }
{
    let asked = match undo_asked(&plan, request) {
        Ok(asked) => asked,
        Err(fault) => return Err(fault),
    };
    match undo_job(alloc, plan, asked, request) {
        Ok(job) => Ok(Job::Undo(job)),
        Err(_) => Err(JobFault::Memory),
    }
}

/// Returns the job that is asked for, with the rows that its unit changes and the places of the deleted rows. Fails with `Memory`
/// if memory runs out.
fn undo_job(
    alloc: Global,
    plan: Plan,
    asked: update_box::Job,
    request: &Request,
) -> Result<UndoJob, Memory>
    requires asked { IsJobOf plan asked }
    requires later { 1 ≤ asked.unit }
    requires ranges { CanPackBy request.now }
    requires pages { page_bytes request.now.workers asked.package (undo_reach plan) ≤ most_page_bytes }
    ensures plan { IfOk result (λ job. job.of.of.plan ≡ plan) }
    ensures asked { IfOk result (λ job. job.of.of.asked ≡ asked) }
    ensures out { IfOk result (λ job. job.of.of.out ≡ request.now.out) }
    ensures can { IfOk result CanUndo }
{
    let out = copied(alloc, &request.out)?;
    let of = found_job::<Brand>(alloc, plan, asked, request, out, Blank::new(1))?;
    let places = found_places::<Brand>(alloc, &of, Blank::new(1))?;
    Ok(UndoJob { of, places })
}

/// Returns the places that the rows deleted by a job's unit had at the unit before, table by table.
fn found_places<B: Ledger>(
    alloc: Global,
    job: &UnitJob,
    blank: Blank,
) -> Result<Vec<Vec<u64>>, Memory>
    requires name { blank.name ≡ B.name }
    requires parts { blank.parts ≡ B.parts }
    requires some { 0 < blank.parts }
    requires can { CanPackUnit job.now }
    ensures { IfOk result (λ places. HasPlaces job.now places.items) }
{
    let mut steps = Steps::<B>::new(blank);
    let of = &job.of;
    let _limits = of.plan.schema(); // there are at most 64 tables
    let rows = of.tables.rows(&of.plan);
    let Places { from, count } = places_of(&of.plan, of.asked.table);
    let mut found = Vec::new(alloc);
    for number in 0..count {
        found.push(table_places(alloc, job, &rows, from + number, &mut steps)?)?;
    }
    Ok(found)
}

/// Returns the places that the deleted rows of one table had at the unit before.
fn table_places<B: Ledger>(
    alloc: Global,
    job: &UnitJob,
    rows: &Rows<'_>,
    table: u32,
    steps: &mut Steps<B>,
) -> Result<Vec<u64>, Memory>
    requires can { CanPackUnit job.now }
    requires rows { rows.now ≡ job.now.of.plan }
    requires table { table < length job.now.of.plan.schema.tables }
    requires lists { HasLists job.now.of.plan job.now.of.asked.unit job.now.rows table }
    ensures { IfOk result (λ places. places.items ≡ places_of job.now.of.plan table (job.now.of.asked.unit - 1) (table_lists_at job.now.rows table).deleted) }
{
    let _sound = rows.plan().schema(); // so the table held each row at the unit before
    let deleted = job.rows.dels(table);
    match undo_streams::places(alloc, rows, table, job.of.asked.unit - 1, deleted, steps) {
        Ok(places) => Ok(places),
        Err(_) => Err(Memory),
    }
}

/// Returns the packer of the undo text of one of a job's tables. `number` is the table's place among them.
fn undo_packer<'a>(
    alloc: Global,
    job: &'a UndoJob,
    rows: &'a Rows<'a>,
    table: u32,
    number: usize,
) -> Result<UndoPacker<'a>, Memory>
    requires can { CanUndo job.now }
    requires rows { rows.now ≡ job.now.of.of.plan }
    requires number { number < length (chosen_places job.now.of.of.plan job.now.of.of.asked.table) }
    requires table { slice_index_or (chosen_places job.now.of.of.plan job.now.of.of.asked.table) number 0 ≡ table }
    ensures { IfOk result (λ packer. packer ≡ undo_packages job.now.of.of.plan job.now.of.of.asked table) }
{
    let _sound = rows.plan().schema(); // so each cohort is within its limits
    let of = &job.of.of;
    let lists = &job.of.rows;
    let unit = of.asked.unit;
    let before = of.tables.lines_of(rows, unit - 1, table);
    let changes = Changes {
        deleted: lists.dels(table),
        places: job.places[number].as_slice(),
        updated: lists.upds(table),
        inserted: lists.ins(table),
    };
    match UndoPacker::new(alloc, rows, before, table, unit, changes, of.asked.package) {
        Ok(packer) => Ok(packer),
        Err(_) => Err(Memory),
    }
}

/// Returns the packers of the undo texts of a job's tables, one after the other.
fn undo_packers<'a>(
    alloc: Global,
    job: &'a UndoJob,
    rows: &'a Rows<'a>,
) -> Result<Joined<UndoPacker<'a>>, Memory>
    requires can { CanUndo job.now }
    requires rows { rows.now ≡ job.now.of.of.plan }
    ensures { IfOk result (λ joined. joined.parts.items ≡ map (undo_packages job.now.of.of.plan job.now.of.of.asked) (chosen_places job.now.of.of.plan job.now.of.of.asked.table)) }
{
    let _sound = rows.plan().schema(); // so there are few packages
    let of = &job.of.of;
    let Places { from, count } = places_of(&of.plan, of.asked.table);
    let mut joined = Joined::new(alloc);
    for number in 0..count {
        let packer = undo_packer(alloc, job, rows, from + number, number as usize)?;
        match joined.push(packer) {
            Ok(()) => {}
            Err(_) => return Err(Memory),
        }
    }
    Ok(joined)
}

/// Returns the mark under which the packages of a job's undo texts go to the standard output.
fn one_mark(alloc: Global, job: &UndoJob, joined: &Joined<UndoPacker<'_>>) -> Result<Marks, Memory>
    requires can { CanUndo job.now }
    requires parts { joined.now.parts.items ≡ map (undo_packages job.now.of.of.plan job.now.of.of.asked) (chosen_places job.now.of.of.plan job.now.of.of.asked.table) }
    ensures marks { IfOk result (AreMarksOf (sum_by count_of joined.now.parts.items)) }
    ensures files { IfOk result (λ marks. due_files (text_in count_of text_numbered joined.now.parts.items) (sum_by count_of joined.now.parts.items) marks
        ≡ undo_files job.now.of.of.plan None job.now.of.of.asked) }
{
    match joined.mark_of_all(alloc, STANDARD_OUTPUT) {
        Ok(marks) => Ok(marks),
        Err(_) => Err(Memory),
    }
}

/// Returns the marks under which the packages of a job's undo texts go to files in a directory.
fn file_marks(
    alloc: Global,
    job: &UndoJob,
    joined: &Joined<UndoPacker<'_>>,
    out: &str,
) -> Result<Marks, Memory>
    requires can { CanUndo job.now }
    requires parts { joined.now.parts.items ≡ map (undo_packages job.now.of.of.plan job.now.of.of.asked) (chosen_places job.now.of.of.plan job.now.of.of.asked.table) }
    ensures marks { IfOk result (AreMarksOf (sum_by count_of joined.now.parts.items)) }
    ensures files { IfOk result (λ marks. due_files (text_in count_of text_numbered joined.now.parts.items) (sum_by count_of joined.now.parts.items) marks
        ≡ undo_files job.now.of.of.plan (Some out.now) job.now.of.of.asked) }
{
    let of = &job.of.of;
    let directory = Directory {
        plan: &of.plan,
        name: out,
        format: Format::Copy,
    };
    let places = places_of(&of.plan, of.asked.table);
    let names = directory.undo_paths(alloc, places, of.asked.unit)?;
    match joined.marks(alloc, &names) {
        Ok(marks) => Ok(marks),
        Err(_) => Err(Memory),
    }
}

/// Returns the marks under which the packages of a job's undo texts are written.
fn undo_marks(
    alloc: Global,
    job: &UndoJob,
    joined: &Joined<UndoPacker<'_>>,
) -> Result<Marks, Memory>
    requires can { CanUndo job.now }
    requires parts { joined.now.parts.items ≡ map (undo_packages job.now.of.of.plan job.now.of.of.asked) (chosen_places job.now.of.of.plan job.now.of.of.asked.table) }
    ensures marks { IfOk result (AreMarksOf (sum_by count_of joined.now.parts.items)) }
    ensures files { IfOk result (λ marks. due_files (text_in count_of text_numbered joined.now.parts.items) (sum_by count_of joined.now.parts.items) marks
        ≡ undo_files job.now.of.of.plan job.now.of.of.out job.now.of.of.asked) }
{
    match &job.of.of.out {
        None => one_mark(alloc, job, joined),
        Some(out) => file_marks(alloc, job, joined, out.as_str()),
    }
}

/// Writes the undo texts of a job's tables, by its workers. All memory is taken before the first file is begun.
pub fn write_undo<R: Threads + Sync, S: Shelf, G: Gate + Sync>(
    rt: &R,
    alloc: Global,
    job: &UndoJob,
    shelf: &mut S,
    gate: &G,
) -> Result<(), RunFault>
    requires can { CanUndo job.now }
    requires none_begun { S.is_begun shelf.old ≡ false }
    ensures files { OnOk result (S.held shelf.new ≡ option_map (finish_files (undo_files job.now.of.of.plan job.now.of.of.out job.now.of.of.asked)) (S.held shelf.old)) }
    ensures prefix { IsErrOf result RunFault.Write → HoldsPrefixOf (undo_files job.now.of.of.plan job.now.of.of.out job.now.of.of.asked) (S.held shelf.old) (S.held shelf.new) }
    ensures failed { IsErrOf result RunFault.Write → FailedAtLast (S.counts shelf.old) (S.counts shelf.new) }
    ensures memory { IsErrOf result RunFault.Memory → shelf.new ≡ shelf.old }
    ensures unfailed { OnOk result (Unfailed (S.counts shelf.old) (S.counts shelf.new)) }
    ensures none_begun { OnOk result (S.is_begun shelf.new ≡ false) }
{
    let of = &job.of.of;
    let rows = of.tables.rows(&of.plan);
    let joined = match undo_packers(alloc, job, &rows) {
        Ok(joined) => joined,
        Err(_) => return Err(RunFault::Memory),
    };
    let marks = match undo_marks(alloc, job, &joined) {
        Ok(marks) => marks,
        Err(_) => return Err(RunFault::Memory),
    };
    run(rt, alloc, &joined, &marks, of.workers, shelf, gate)
}
