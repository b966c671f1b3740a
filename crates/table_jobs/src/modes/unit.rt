//! Mode unit: what a unit changes in tables.

ghost use Rattle.std.specs.Prelude.{◌≡◌, ◌≤◌, ◌⊎◌, ◌<◌, false, IfErr, IfOk, IsErrOf, IsOk, OnOk};
ghost use Rattle.std.specs.Option.{option_map};
ghost use Rattle.pd_outside.specs.Faults.{FailedAtLast, Unfailed};
ghost use Rattle.pd_outside.specs.Shelf.{HoldsPrefixOf, finish_files};
ghost use Rattle.refusals.specs.Statuses.{job_status};
ghost use Rattle.update_box.specs.Parts.{unit_contents};
ghost use Rattle.update_box.specs.TableLists.{HoldLists};
ghost use Rattle.schema_facts.specs.Layout.{layout_of};
ghost use Rattle.schema_facts.specs.TableFacts.{reach};
ghost use Rattle.update_box.specs.Packages.{IsJobOf};
ghost use Rattle.sql_lines.specs.Reach.{statement_reach};
ghost use Rattle.run_jobs.specs.CsvFiles.{IsCsvOfJob};
ghost use Rattle.run_jobs.specs.DueFiles.{most_page_bytes, page_bytes, table_files};
ghost use Rattle.run_jobs.specs.Jobs.{due_of, CanAsk, CanFill, CanPack, CanPackBy, CanPackUnit, CanState};
ghost use Rattle.run_jobs.specs.SqlFiles.{statement_files};
ghost use Rattle.run_jobs.specs.Outcome.{IsDecided};
ghost use Rattle.run_jobs.specs.declared.job.Told.TheVariants as Told;
ghost use Rattle.table_jobs.specs.modes.Unit.{IsUnitDue, unit_asked};

use crate::csv::csv_job;
use crate::text_shelf::TextShelf;
use out_of_memory::Memory;
use pd_outside::{Gate, Shelf};
use range_workers::{RunFault, run};
use refusals::JobFault;
use request_words::{Format, OptionName, Request};
use run_jobs::asked::{asked_in, is_past_last};
use run_jobs::job::{Job, ScriptJob, TablesJob, UnitJob, copied, tables_job};
use run_jobs::outputs::{UNIT_CONTENTS, name_of};
use schema_model::Text;
use schema_plan::Plan;
use std::alloc::Global;
use std::sync::ledger::{Blank, Ledger};
use std::thread::Threads;
use step_count::Steps;
use update_box::{ListPacker, UnitRows, rows_of_unit};

/// Returns the job of what a unit changes in a plan's tables. In CSV its texts are made here.
pub fn plan_unit<B: Ledger, R: Threads + Sync, G: Gate + Sync>(
    rt: &R,
    alloc: Global,
    gate: &G,
    plan: Plan,
    request: &Request,
    blank: Blank,
) -> Result<Job, JobFault>
    requires name { blank.name ≡ B.name }
    requires parts { blank.parts ≡ B.parts }
    requires some { 0 < blank.parts }
    requires ranges { CanAsk request.now }
    ensures job { IsDecided job_status due_of (IsUnitDue request.now plan) result }
    ensures refused { IfErr result (λ fault. (job_status fault ≡ 7) ⊎ (job_status fault ≡ 8)) }
    ensures in_range { IfErr result (λ fault. job_status fault ≡ 7 → IsOk (unit_asked request.now plan)) }
    ensures can { IfOk result CanFill }
{
    if request.unit == 0 || is_past_last(&plan, request.unit) {
        return Err(JobFault::Range(OptionName::Unit));
    }
    let asked = match asked_in(&plan, request) {
        Ok(asked) => asked,
        Err(fault) => return Err(fault),
    };
    match request.format {
        Format::Copy => copied_unit::<B>(alloc, plan, asked, request, blank),
        Format::Csv => csv_unit::<B, R, G>(rt, alloc, gate, plan, asked, request, blank),
        Format::Sql => match stated_unit::<B>(alloc, plan, asked, request, blank) {
            Ok(job) => Ok(Job::Script(job)),
            Err(Memory) => Err(JobFault::Memory),
        },
    }
}

/// Returns the job of what a unit changes, in COPY text form.
fn copied_unit<B: Ledger>(
    alloc: Global,
    plan: Plan,
    asked: update_box::Job,
    request: &Request,
    blank: Blank,
) -> Result<Job, JobFault>
    requires name { blank.name ≡ B.name }
    requires parts { blank.parts ≡ B.parts }
    requires some { 0 < blank.parts }
    requires asked { IsJobOf plan asked }
    requires later { 1 ≤ asked.unit }
    requires ranges { CanAsk request.now }
    requires pages { page_bytes request.now.workers asked.package (reach (layout_of plan)) ≤ most_page_bytes }
    ensures job { IfOk result (λ job. due_of job ≡ table_files unit_contents plan request.now.out asked) }
    ensures memory { IfErr result (λ fault. fault ≡ JobFault.Memory) }
    ensures can { IfOk result CanFill }
{
    let Ok(out) = copied(alloc, &request.out) else {
        return Err(JobFault::Memory);
    };
    match found_job::<B>(alloc, plan, asked, request, out, blank) {
        Ok(job) => Ok(Job::Unit(job)),
        Err(_) => Err(JobFault::Memory),
    }
}

/// Returns the job of what a unit changes, in CSV.
fn csv_unit<B: Ledger, R: Threads + Sync, G: Gate + Sync>(
    rt: &R,
    alloc: Global,
    gate: &G,
    plan: Plan,
    asked: update_box::Job,
    request: &Request,
    blank: Blank,
) -> Result<Job, JobFault>
    requires name { blank.name ≡ B.name }
    requires parts { blank.parts ≡ B.parts }
    requires some { 0 < blank.parts }
    requires asked { IsJobOf plan asked }
    requires later { 1 ≤ asked.unit }
    requires ranges { CanAsk request.now }
    requires pages { page_bytes request.now.workers asked.package (reach (layout_of plan)) ≤ most_page_bytes }
    ensures job { IsDecided job_status due_of (IsCsvOfJob unit_contents plan request.now asked) result }
    ensures refused { IfErr result (λ fault. (job_status fault ≡ 7) ⊎ (job_status fault ≡ 8)) }
    ensures can { IfOk result CanFill }
{
    let job = match found_job::<B>(alloc, plan, asked, request, Some(Text::new(alloc)), blank) {
        Ok(job) => job,
        Err(_) => return Err(JobFault::Memory),
    };
    let mut shelf = TextShelf::new(alloc);
    let written = write_unit(rt, alloc, &job, &mut shelf, gate);
    csv_job(
        alloc,
        &job.of,
        UNIT_CONTENTS.as_slice(),
        written,
        &shelf,
        request,
    )
}

/// Returns the job of what a unit changes, as statements of SQL.
fn stated_unit<B: Ledger>(
    alloc: Global,
    plan: Plan,
    asked: update_box::Job,
    request: &Request,
    blank: Blank,
) -> Result<ScriptJob, Memory>
    requires name { blank.name ≡ B.name }
    requires parts { blank.parts ≡ B.parts }
    requires some { 0 < blank.parts }
    requires asked { IsJobOf plan asked }
    requires later { 1 ≤ asked.unit }
    requires ranges { CanAsk request.now }
    requires pages { page_bytes request.now.workers asked.package (statement_reach (layout_of plan)) ≤ most_page_bytes }
    ensures job { IfOk result (λ job. due_of (Job.Script job) ≡ statement_files Told.Changes plan request.now.out asked) }
    ensures can { IfOk result CanState }
{
    let out = copied(alloc, &request.out)?;
    let job = found_job::<B>(alloc, plan, asked, request, out, blank)?;
    Ok(job.into_script())
}

/// Returns the job of what a unit changes. The files go to a directory, or to the standard output if `out` is None. Fails with
/// `Memory` if memory runs out.
pub(crate) fn found_job<B: Ledger>(
    alloc: Global,
    plan: Plan,
    asked: update_box::Job,
    request: &Request,
    out: Option<Text>,
    blank: Blank,
) -> Result<UnitJob, Memory>
    requires name { blank.name ≡ B.name }
    requires parts { blank.parts ≡ B.parts }
    requires some { 0 < blank.parts }
    requires asked { IsJobOf plan asked }
    requires later { 1 ≤ asked.unit }
    requires ranges { CanPackBy request.now }
    requires pages { page_bytes request.now.workers asked.package (reach (layout_of plan)) ≤ most_page_bytes }
    ensures plan { IfOk result (λ job. job.of.plan ≡ plan) }
    ensures asked { IfOk result (λ job. job.of.asked ≡ asked) }
    ensures out { IfOk result (λ job. job.of.out ≡ out) }
    ensures workers { IfOk result (λ job. job.of.workers ≡ request.now.workers) }
    ensures can { IfOk result CanPackUnit }
{
    let of = tables_job(alloc, plan, asked, request, out)?;
    let rows = found_rows::<B>(alloc, &of, blank)?;
    Ok(UnitJob { of, rows })
}

/// Returns the rows that a job's unit changes in its tables. They are found with the prepared orders.
fn found_rows<B: Ledger>(alloc: Global, job: &TablesJob, blank: Blank) -> Result<UnitRows, Memory>
    requires name { blank.name ≡ B.name }
    requires parts { blank.parts ≡ B.parts }
    requires some { 0 < blank.parts }
    requires can { CanPack job.now }
    requires later { 1 ≤ job.now.asked.unit }
    ensures { IfOk result (HoldLists job.now.plan job.now.asked.unit job.now.asked.table) }
{
    let mut steps = Steps::<B>::new(blank);
    let rows = job.tables.rows(&job.plan);
    rows_of_unit(alloc, &rows, job.asked.table, job.asked.unit, &mut steps)
}

/// Writes the files of what a unit changes, by the job's workers. All memory is taken before the first file is begun.
pub fn write_unit<R: Threads + Sync, S: Shelf, G: Gate + Sync>(
    rt: &R,
    alloc: Global,
    job: &UnitJob,
    shelf: &mut S,
    gate: &G,
) -> Result<(), RunFault>
    requires can { CanPackUnit job.now }
    requires none_begun { S.is_begun shelf.old ≡ false }
    ensures files { OnOk result (S.held shelf.new ≡ option_map (finish_files (table_files unit_contents job.now.of.plan job.now.of.out job.now.of.asked)) (S.held shelf.old)) }
    ensures prefix { IsErrOf result RunFault.Write → HoldsPrefixOf (table_files unit_contents job.now.of.plan job.now.of.out job.now.of.asked) (S.held shelf.old) (S.held shelf.new) }
    ensures failed { IsErrOf result RunFault.Write → FailedAtLast (S.counts shelf.old) (S.counts shelf.new) }
    ensures memory { IsErrOf result RunFault.Memory → shelf.new ≡ shelf.old }
    ensures unfailed { OnOk result (Unfailed (S.counts shelf.old) (S.counts shelf.new)) }
    ensures none_begun { OnOk result (S.is_begun shelf.new ≡ false) }
{
    let of = &job.of;
    let packer = match ListPacker::new(alloc, &of.plan, &of.tables, &job.rows, &of.asked) {
        Ok(packer) => packer,
        Err(_) => return Err(RunFault::Memory),
    };
    let marks = match packer.marks(alloc, name_of(&of.out)) {
        Ok(marks) => marks,
        Err(_) => return Err(RunFault::Memory),
    };
    run(rt, alloc, &packer, &marks, of.workers, shelf, gate)
}
