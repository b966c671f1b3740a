//! The modes, each in a file of its own.

ghost use Rattle.std.specs.Prelude.{◌≡◌, ◌≢◌, ◌≤◌, ◌⊎◌, false, true, IfOk, IfSome};
ghost use Rattle.plan_stages.specs.Limits.{schema_limit};
ghost use Rattle.plan_stages.specs.PlanNames.{AskedNone};
ghost use Rattle.plan_stages.specs.Stages.{ended, told_files, IsReadOut};
ghost use Rattle.refusals.specs.Statuses.{job_status};
ghost use Rattle.request_words.specs.Ranges.{AreWithinRanges};
ghost use Rattle.request_words.specs.declared.usage.Mode.TheVariants.{Play};
ghost use Rattle.run_jobs.specs.Jobs.{due_of, CanFill};
ghost use Rattle.pdgf_run.specs.ReadingList.{AsksInMode, reads_on, reads_schema};
ghost use Rattle.run_jobs.specs.Outcome.{IsLimitTold, LibraryLeft, IsDecided};
ghost use Rattle.pdgf_run.specs.Verdict.{IsInMode};
ghost use Rattle.run_jobs.specs.InputFiles.{input_limit};

mod check;
mod row;

use fill_jobs::modes::details;
use pd_outside::{Gate, Library};
use refusals::JobFault;
use replay_files::modes::{apply, details_apply, revert};
use request_words::{Mode, Request};
use run_jobs::job::{Job, Told};
use schema_plan::Plan;
use std::alloc::Global;
use std::marker::Brand;
use std::sync::ledger::Blank;
use std::thread::Threads;
use table_jobs::modes::{snapshot, undo, unit};

/// Returns the job of a request over a plan of its schema. Some modes read inputs or a declaration; the other modes leave the
/// library as it is. Files that are due in CSV are made here. If they hold rows, the workers make them, and each package of lines
/// enters the gate.
pub(crate) fn job_of<R: Threads + Sync, L: Library, G: Gate + Sync>(
    rt: &R,
    alloc: Global,
    library: &mut L,
    gate: &G,
    plan: Plan,
    request: &Request,
) -> Result<Job, JobFault>
    requires ranges { AreWithinRanges request.now }
    requires reads { reads_schema request.now.mode ≡ true }
    requires unplayed { request.now.mode ≢ Play }
    requires read_out { IsReadOut (L.content library.old) }
    ensures job { IfSome (told_files (L.content library.old)) (λ files. IsDecided job_status due_of (IsInMode request.now.mode request.now plan files) result) }
    ensures can { IfOk result CanFill }
    ensures left { LibraryLeft (ended job_status result) (IsLimitTold result) (told_files (L.content library.old)) (L.content library.new)
        (L.taken library.new) (L.is_started library.new) (L.counts library.old) (L.counts library.new) }
    ensures usable { ended job_status result ≢ 2 }
    ensures schema_read { ended job_status result ≡ 3 → L.taken library.new ≤ schema_limit }
    ensures unread { reads_on request.now.mode ≡ false → library.new ≡ library.old }
    ensures within { L.taken library.old ≤ input_limit → (ended job_status result ≡ 0) ⊎ (ended job_status result ≡ 9) → L.taken library.new ≤ input_limit }
    ensures asked { AsksInMode request.now plan (told_files (L.content library.old)) (L.asked library.old) (L.asked library.new) }
    ensures unasked { AskedNone (L.asked library.old) (L.asked library.new) → L.taken library.new ≤ L.taken library.old }
{
    match request.mode {
        Mode::Check => check::plan_check(alloc, &plan),
        Mode::Snapshot => snapshot::plan_snapshot(rt, alloc, gate, plan, request),
        Mode::Unit => unit::plan_unit::<Brand, R, G>(rt, alloc, gate, plan, request, Blank::new(1)),
        Mode::Row => row::plan_row::<Brand>(alloc, plan, request, Blank::new(1)),
        Mode::Apply => apply::plan_apply(alloc, library, &plan, request),
        Mode::Sample => unreachable!(), // it has a schema of its own
        Mode::Play => unreachable!(), // it gives no job, but units to play
        Mode::Details => details::plan_details::<Brand, L>(
            alloc,
            library,
            plan,
            request,
            Told::Text,
            Blank::new(1),
        ),
        Mode::DetailsUnit => details::plan_details::<Brand, L>(
            alloc,
            library,
            plan,
            request,
            Told::Changes,
            Blank::new(1),
        ),
        Mode::DetailsApply => details_apply::plan_details_apply(alloc, library, &plan, request),
        Mode::Undo => undo::plan_undo(alloc, plan, request),
        Mode::Revert => revert::plan_revert(alloc, library, &plan, request),
    }
}
