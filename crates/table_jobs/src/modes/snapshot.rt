//! Mode snapshot: the rows of tables at a unit.

ghost use Rattle.std.specs.Prelude.{◌≡◌, ◌≤◌, ◌⊎◌, false, IfErr, IfOk, IsErrOf, IsOk, OnOk};
ghost use Rattle.std.specs.Option.{option_map};
ghost use Rattle.pd_outside.specs.Faults.{FailedAtLast, Unfailed};
ghost use Rattle.pd_outside.specs.Shelf.{HoldsPrefixOf, finish_files};
ghost use Rattle.refusals.specs.Statuses.{job_status};
ghost use Rattle.update_box.specs.Parts.{snapshot_contents};
ghost use Rattle.schema_facts.specs.Layout.{layout_of};
ghost use Rattle.schema_facts.specs.TableFacts.{reach};
ghost use Rattle.update_box.specs.Packages.{IsJobOf};
ghost use Rattle.sql_lines.specs.Reach.{statement_reach};
ghost use Rattle.run_jobs.specs.CsvFiles.{IsCsvOfJob};
ghost use Rattle.run_jobs.specs.DueFiles.{most_page_bytes, page_bytes, table_files};
ghost use Rattle.run_jobs.specs.Jobs.{due_of, CanAsk, CanFill, CanPack, CanState};
ghost use Rattle.run_jobs.specs.SqlFiles.{statement_files};
ghost use Rattle.run_jobs.specs.Outcome.{IsDecided};
ghost use Rattle.run_jobs.specs.declared.job.Told.TheVariants as Told;
ghost use Rattle.table_jobs.specs.modes.Snapshot.{IsSnapshotDue, snapshot_asked};

use crate::csv::csv_job;
use crate::text_shelf::TextShelf;
use out_of_memory::Memory;
use pd_outside::{Gate, Shelf};
use range_workers::{RunFault, run};
use refusals::JobFault;
use request_words::{Format, OptionName, Request};
use run_jobs::asked::{asked_in, is_past_last};
use run_jobs::job::{Job, ScriptJob, TablesJob, copied, tables_job};
use run_jobs::outputs::{SNAPSHOT_CONTENTS, name_of};
use schema_model::Text;
use schema_plan::Plan;
use std::alloc::Global;
use std::thread::Threads;
use update_box::SnapshotPacker;

/// Returns the job of a snapshot of a plan's tables. In CSV its texts are made here.
pub fn plan_snapshot<R: Threads + Sync, G: Gate + Sync>(
    rt: &R,
    alloc: Global,
    gate: &G,
    plan: Plan,
    request: &Request,
) -> Result<Job, JobFault>
    requires { CanAsk request.now }
    ensures job { IsDecided job_status due_of (IsSnapshotDue request.now plan) result }
    ensures refused { IfErr result (λ fault. (job_status fault ≡ 7) ⊎ (job_status fault ≡ 8)) }
    ensures in_range { IfErr result (λ fault. job_status fault ≡ 7 → IsOk (snapshot_asked request.now plan)) }
    ensures can { IfOk result CanFill }
{
    if is_past_last(&plan, request.unit) {
        return Err(JobFault::Range(OptionName::Unit));
    }
    let asked = match asked_in(&plan, request) {
        Ok(asked) => asked,
        Err(fault) => return Err(fault),
    };
    match request.format {
        Format::Copy => copied_snapshot(alloc, plan, asked, request),
        Format::Csv => csv_snapshot(rt, alloc, gate, plan, asked, request),
        Format::Sql => match stated_snapshot(alloc, plan, asked, request) {
            Ok(job) => Ok(Job::Script(job)),
            Err(Memory) => Err(JobFault::Memory),
        },
    }
}

/// Returns the job of a snapshot in COPY text form.
fn copied_snapshot(
    alloc: Global,
    plan: Plan,
    asked: update_box::Job,
    request: &Request,
) -> Result<Job, JobFault>
    requires asked { IsJobOf plan asked }
    requires ranges { CanAsk request.now }
    requires pages { page_bytes request.now.workers asked.package (reach (layout_of plan)) ≤ most_page_bytes }
    ensures job { IfOk result (λ job. due_of job ≡ table_files snapshot_contents plan request.now.out asked) }
    ensures memory { IfErr result (λ fault. fault ≡ JobFault.Memory) }
    ensures can { IfOk result CanFill }
{
    let Ok(out) = copied(alloc, &request.out) else {
        return Err(JobFault::Memory);
    };
    match tables_job(alloc, plan, asked, request, out) {
        Ok(job) => Ok(Job::Snapshot(job)),
        Err(_) => Err(JobFault::Memory),
    }
}

/// Returns the job of a snapshot in CSV.
fn csv_snapshot<R: Threads + Sync, G: Gate + Sync>(
    rt: &R,
    alloc: Global,
    gate: &G,
    plan: Plan,
    asked: update_box::Job,
    request: &Request,
) -> Result<Job, JobFault>
    requires asked { IsJobOf plan asked }
    requires ranges { CanAsk request.now }
    requires pages { page_bytes request.now.workers asked.package (reach (layout_of plan)) ≤ most_page_bytes }
    ensures job { IsDecided job_status due_of (IsCsvOfJob snapshot_contents plan request.now asked) result }
    ensures refused { IfErr result (λ fault. (job_status fault ≡ 7) ⊎ (job_status fault ≡ 8)) }
    ensures can { IfOk result CanFill }
{
    let job = match tables_job(alloc, plan, asked, request, Some(Text::new(alloc))) {
        Ok(job) => job,
        Err(_) => return Err(JobFault::Memory),
    };
    let mut shelf = TextShelf::new(alloc);
    let written = write_snapshot(rt, alloc, &job, &mut shelf, gate);
    csv_job(
        alloc,
        &job,
        SNAPSHOT_CONTENTS.as_slice(),
        written,
        &shelf,
        request,
    )
}

/// Returns the job of a snapshot as statements of SQL.
fn stated_snapshot(
    alloc: Global,
    plan: Plan,
    asked: update_box::Job,
    request: &Request,
) -> Result<ScriptJob, Memory>
    requires asked { IsJobOf plan asked }
    requires ranges { CanAsk request.now }
    requires pages { page_bytes request.now.workers asked.package (statement_reach (layout_of plan)) ≤ most_page_bytes }
    ensures job { IfOk result (λ job. due_of (Job.Script job) ≡ statement_files Told.Text plan request.now.out asked) }
    ensures can { IfOk result CanState }
{
    let out = copied(alloc, &request.out)?;
    let of = tables_job(alloc, plan, asked, request, out)?;
    Ok(ScriptJob { of, changes: None })
}

/// Writes the files of a snapshot, by the job's workers. All memory is taken before the first file is begun.
pub fn write_snapshot<R: Threads + Sync, S: Shelf, G: Gate + Sync>(
    rt: &R,
    alloc: Global,
    job: &TablesJob,
    shelf: &mut S,
    gate: &G,
) -> Result<(), RunFault>
    requires can { CanPack job.now }
    requires none_begun { S.is_begun shelf.old ≡ false }
    ensures files { OnOk result (S.held shelf.new ≡ option_map (finish_files (table_files snapshot_contents job.now.plan job.now.out job.now.asked)) (S.held shelf.old)) }
    ensures prefix { IsErrOf result RunFault.Write → HoldsPrefixOf (table_files snapshot_contents job.now.plan job.now.out job.now.asked) (S.held shelf.old) (S.held shelf.new) }
    ensures failed { IsErrOf result RunFault.Write → FailedAtLast (S.counts shelf.old) (S.counts shelf.new) }
    ensures memory { IsErrOf result RunFault.Memory → shelf.new ≡ shelf.old }
    ensures unfailed { OnOk result (Unfailed (S.counts shelf.old) (S.counts shelf.new)) }
    ensures none_begun { OnOk result (S.is_begun shelf.new ≡ false) }
{
    let packer = match SnapshotPacker::new(alloc, &job.plan, &job.tables, &job.asked) {
        Ok(packer) => packer,
        Err(_) => return Err(RunFault::Memory),
    };
    let marks = match packer.marks(alloc, name_of(&job.out)) {
        Ok(marks) => marks,
        Err(_) => return Err(RunFault::Memory),
    };
    run(rt, alloc, &packer, &marks, job.workers, shelf, gate)
}
