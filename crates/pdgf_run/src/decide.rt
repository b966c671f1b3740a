//! From the words to a task, stage by stage. Nothing is read later, and no output is touched here.

ghost use Rattle.std.specs.Prelude.{◌≡◌, ◌≢◌, ◌≤◌, ◌+◌, ◌⊎◌, [], false, true, map, string_bytes, Err, IfErr, IfOk, IfSome, Ok, OnOk};
ghost use Rattle.plan_stages.specs.Limits.{dictionary_limit, schema_limit};
ghost use Rattle.plan_stages.specs.PlanNames.{AskedAlone, AskedNone};
ghost use Rattle.plan_stages.specs.Plans.{plan_in};
ghost use Rattle.plan_stages.specs.Stages.{IsReadOut, ended, told_files};
ghost use Rattle.refusals.specs.Statuses.{is_free, job_status, status_of};
ghost use Rattle.request_words.specs.Ranges.{AreWithinRanges};
ghost use Rattle.request_words.specs.Words.{request};
ghost use Rattle.schema_plan.specs.Limits.{IsInLimits};
ghost use Rattle.fill_jobs.specs.Playing.{CanDo, IsTaskOf, IsTaskOver, task_due};
ghost use Rattle.pdgf_run.specs.ReadingList.{AsksInMode, AsksInTurn, reads_on, reads_schema};
ghost use Rattle.pdgf_run.specs.TopCall.{IsLimitRefused, reads_for};
ghost use Rattle.run_jobs.specs.Outcome.{IsLimitTold, LibraryDone, LibraryLeft, IsDecided};
ghost use Rattle.pdgf_run.specs.Verdict.{IsInMode, IsJobOver, IsPlanned, IsVerdict};
ghost use Rattle.run_jobs.specs.InputFiles.{input_limit};

use crate::modes::job_of;
use fill_jobs::modes::play::plan_play;
use pd_outside::{Gate, Library};
use plan_stages::plan_of;
use refusals::{JobFault, Refusal};
use request_words::{Mode, Request, UsageFault, read_words};
use run_jobs::job::Task;
use schema_plan::Plan;
use std::alloc::Global;
use std::marker::Brand;
use std::sync::ledger::Blank;
use std::thread::Threads;
use table_jobs::modes::sample::plan_sample;

/// Decides what the words come to: a task, or why there is none. Only names of the reading list are started.
pub(crate) fn decide<R: Threads + Sync, L: Library, G: Gate + Sync>(
    rt: &R,
    alloc: Global,
    words: &[String],
    library: &mut L,
    gate: &G,
) -> Result<Task, Refusal>
    ensures verdict { IfSome (told_files (L.content library.old)) (λ files.
        IsDecided status_of task_due (IsVerdict (map string_bytes words.now) files) result) }
    ensures sampled { reads_for (request (map string_bytes words.now)) ≡ false → IsDecided status_of task_due (IsVerdict (map string_bytes words.now) []) result }
    ensures can { IfOk result CanDo }
    ensures task { IfOk (request (map string_bytes words.now)) (λ asked. IfOk result (IsTaskOf asked (told_files (L.content library.old)))) }
    ensures usage { IfErr (request (map string_bytes words.now)) (λ fault. result ≡ Err (Refusal.Words fault)) }
    ensures no_memory { IfErr (request (map string_bytes words.now)) (λ fault. fault ≢ UsageFault.Memory) }
    ensures no_usage { OnOk (request (map string_bytes words.now)) (ended status_of result ≢ 2) }
    ensures left { LibraryDone (reads_for (request (map string_bytes words.now))) (ended status_of result) (IsLimitRefused result) (told_files (L.content library.old))
        (L.content library.new) (L.taken library.new) (L.is_started library.new) (L.counts library.old) (L.counts library.new) }
    ensures unread { reads_for (request (map string_bytes words.now)) ≡ false → library.new ≡ library.old }
    ensures longer_schema { IfOk (request (map string_bytes words.now)) (λ request. AskedAlone request.schema (L.asked library.old) (L.asked library.new) →
        (L.taken library.new ≤ schema_limit) ⊎ (ended status_of result ≡ 10)) }
    ensures longer_dictionary { IfOk (request (map string_bytes words.now)) (λ request. reads_schema request.mode ≡ true → reads_on request.mode ≡ false →
        ended status_of result ≢ 7 → L.taken library.new ≡ dictionary_limit + 1 → ended status_of result ≡ 10) }
    ensures within { reads_for (request (map string_bytes words.now)) ≡ true →
        (ended status_of result ≡ 0) ⊎ (ended status_of result ≡ 9) → L.taken library.new ≤ input_limit }
    ensures schema_read { ended status_of result ≡ 3 → L.taken library.new ≤ schema_limit }
    ensures limits { IfOk (request (map string_bytes words.now)) (λ asked. reads_schema asked.mode ≡ true → is_free (ended status_of result) ≡ false →
        IfSome (told_files (L.content library.old)) (λ files. IfOk (plan_in files asked.schema) IsInLimits)) }
    ensures asked { AsksInTurn (request (map string_bytes words.now)) (told_files (L.content library.old)) (L.asked library.old) (L.asked library.new) }
{
    let request = read_words(alloc, words)?;
    Ok(job_of_request(rt, alloc, library, gate, &request)?)
}

/// Returns the task of a request. A sample has a schema of its own, and reads nothing.
fn job_of_request<R: Threads + Sync, L: Library, G: Gate + Sync>(
    rt: &R,
    alloc: Global,
    library: &mut L,
    gate: &G,
    request: &Request,
) -> Result<Task, JobFault>
    requires { AreWithinRanges request.now }
    ensures job { IfSome (told_files (L.content library.old)) (λ files. IsDecided job_status task_due (IsJobOver request.now files) result) }
    ensures sampled { reads_schema request.now.mode ≡ false → IsDecided job_status task_due (IsJobOver request.now []) result }
    ensures can { IfOk result CanDo }
    ensures task { IfOk result (IsTaskOf request.now (told_files (L.content library.old))) }
    ensures left { LibraryDone (reads_schema request.now.mode) (ended job_status result) (IsLimitTold result) (told_files (L.content library.old)) (L.content library.new)
        (L.taken library.new) (L.is_started library.new) (L.counts library.old) (L.counts library.new) }
    ensures unread { reads_schema request.now.mode ≡ false → library.new ≡ library.old }
    ensures longer_schema { AskedAlone request.now.schema (L.asked library.old) (L.asked library.new) →
        (L.taken library.new ≤ schema_limit) ⊎ (ended job_status result ≡ 10) }
    ensures longer_dictionary { reads_schema request.now.mode ≡ true → reads_on request.now.mode ≡ false →
        L.taken library.new ≡ dictionary_limit + 1 → ended job_status result ≡ 10 }
    ensures within { reads_schema request.now.mode ≡ true → (ended job_status result ≡ 0) ⊎ (ended job_status result ≡ 9) → L.taken library.new ≤ input_limit }
    ensures schema_read { ended job_status result ≡ 3 → L.taken library.new ≤ schema_limit }
    ensures usable { ended job_status result ≢ 2 }
    ensures limits { reads_schema request.now.mode ≡ true → is_free (ended job_status result) ≡ false →
        IfSome (told_files (L.content library.old)) (λ files. IfOk (plan_in files request.now.schema) IsInLimits) }
    ensures asked { AsksInTurn (Ok request.now) (told_files (L.content library.old)) (L.asked library.old) (L.asked library.new) }
{
    match request.mode {
        Mode::Sample => Ok(Task::Write(plan_sample(rt, alloc, gate, request)?)),
        _ => planned_job(rt, alloc, library, gate, request),
    }
}

/// Returns the task of a request that names a schema.
fn planned_job<R: Threads + Sync, L: Library, G: Gate + Sync>(
    rt: &R,
    alloc: Global,
    library: &mut L,
    gate: &G,
    request: &Request,
) -> Result<Task, JobFault>
    requires ranges { AreWithinRanges request.now }
    requires reads { reads_schema request.now.mode ≡ true }
    ensures job { IfSome (told_files (L.content library.old)) (λ files. IsDecided job_status task_due (IsPlanned request.now files (plan_in files request.now.schema)) result) }
    ensures can { IfOk result CanDo }
    ensures task { IfOk result (IsTaskOf request.now (told_files (L.content library.old))) }
    ensures left { LibraryLeft (ended job_status result) (IsLimitTold result) (told_files (L.content library.old)) (L.content library.new)
        (L.taken library.new) (L.is_started library.new) (L.counts library.old) (L.counts library.new) }
    ensures longer_schema { AskedAlone request.now.schema (L.asked library.old) (L.asked library.new) →
        (L.taken library.new ≤ schema_limit) ⊎ (ended job_status result ≡ 10) }
    ensures longer_dictionary { reads_on request.now.mode ≡ false → L.taken library.new ≡ dictionary_limit + 1 → ended job_status result ≡ 10 }
    ensures within { (ended job_status result ≡ 0) ⊎ (ended job_status result ≡ 9) → L.taken library.new ≤ input_limit }
    ensures schema_read { ended job_status result ≡ 3 → L.taken library.new ≤ schema_limit }
    ensures usable { ended job_status result ≢ 2 }
    ensures limits { is_free (ended job_status result) ≡ false →
        IfSome (told_files (L.content library.old)) (λ files. IfOk (plan_in files request.now.schema) IsInLimits) }
    ensures asked { AsksInTurn (Ok request.now) (told_files (L.content library.old)) (L.asked library.old) (L.asked library.new) }
{
    let plan = plan_of(alloc, library, request.schema.as_str())?;
    let _limits = plan.schema(); // a plan is in its limits
    task_of(rt, alloc, library, gate, plan, request)
}

/// Returns the task of a request over a plan of its schema: units to play, or files to write.
fn task_of<R: Threads + Sync, L: Library, G: Gate + Sync>(
    rt: &R,
    alloc: Global,
    library: &mut L,
    gate: &G,
    plan: Plan,
    request: &Request,
) -> Result<Task, JobFault>
    requires ranges { AreWithinRanges request.now }
    requires reads { reads_schema request.now.mode ≡ true }
    requires read_out { IsReadOut (L.content library.old) }
    ensures job { IfSome (told_files (L.content library.old)) (λ files. IsDecided job_status task_due (IsInMode request.now.mode request.now plan files) result) }
    ensures can { IfOk result CanDo }
    ensures task { IfOk result (IsTaskOver request.now plan) }
    ensures left { LibraryLeft (ended job_status result) (IsLimitTold result) (told_files (L.content library.old)) (L.content library.new)
        (L.taken library.new) (L.is_started library.new) (L.counts library.old) (L.counts library.new) }
    ensures usable { ended job_status result ≢ 2 }
    ensures schema_read { ended job_status result ≡ 3 → L.taken library.new ≤ schema_limit }
    ensures unread { reads_on request.now.mode ≡ false → library.new ≡ library.old }
    ensures within { L.taken library.old ≤ input_limit → (ended job_status result ≡ 0) ⊎ (ended job_status result ≡ 9) → L.taken library.new ≤ input_limit }
    ensures asked { AsksInMode request.now plan (told_files (L.content library.old)) (L.asked library.old) (L.asked library.new) }
    ensures unasked { AskedNone (L.asked library.old) (L.asked library.new) → L.taken library.new ≤ L.taken library.old }
{
    match request.mode {
        Mode::Play => Ok(Task::Play(plan_play::<Brand>(alloc, plan, request, Blank::new(1))?)),
        _ => Ok(Task::Write(job_of(rt, alloc, library, gate, plan, request)?)),
    }
}
