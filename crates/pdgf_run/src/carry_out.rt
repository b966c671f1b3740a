//! Carrying out a task.

ghost use Rattle.std.specs.Prelude.{◌≡◌, ◌≢◌, ◌≤◌, ◌⊎◌, false, true, IfSome, IsTrue, Ok};
ghost use Rattle.pd_outside.specs.Faults.{FailedAtLast, Unfailed};
ghost use Rattle.pd_outside.specs.Shelf.{HoldsPrefixOf};
ghost use Rattle.refusals.specs.Messages.{fixed_text};
ghost use Rattle.refusals.specs.Statuses.{is_status};
ghost use Rattle.run_jobs.specs.Jobs.{CanFill, due_of, is_text};
ghost use Rattle.fill_jobs.specs.Playing.{CanDo, HasBrokenOff, HasPlayed, is_playing, task_due};
ghost use Rattle.pdgf_run.specs.TopCall.{Carries};

use crate::fill::fill;
use crate::report::{done, keeper_failed, refused, write_failed};
use crate::{JobFault, Refusal, Report};
use fill_jobs::play::{PlayFault, played};
use pd_outside::{Gate, Shelf};
use range_workers::RunFault;
use row_keeper::Keeper;
use run_jobs::job::{Job, Task};
use std::alloc::Global;
use std::thread::Threads;

/// Carries out a task: plays its units, if it has any, and writes its files. The status is 0 (all is done), 6 (a write failed), 7
/// (memory ran out) or 12 (the store failed).
pub(crate) fn carry_out<R: Threads + Sync, S: Shelf, G: Gate + Sync, K: Keeper>(
    rt: &R,
    alloc: Global,
    task: Task,
    shelf: &mut S,
    gate: &G,
    keeper: &mut K,
) -> Report
    requires can { CanDo task }
    requires none_begun { S.is_begun shelf.old ≡ false }
    requires closed { (K.store keeper.old).is_open ≡ false }

    // The due files are finished.
    ensures carries { result.status ≢ 6 → result.status ≢ 7 → result.status ≢ 12 → Carries (Ok (task_due task)) result (S.held shelf.old) (S.held shelf.new) }
    ensures known { IsTrue (is_status result.status) }
    ensures message { IfSome (fixed_text result.status) (λ text. result.message ≡ text) }

    // The report is no refusal of the words or of what was read.
    ensures usable { result.status ≢ 2 }
    ensures parsed { result.status ≢ 3 }
    ensures read { result.status ≢ 5 }
    ensures short { result.status ≢ 10 }

    // At 6 one write failed, the last one, and a prefix of the due files stands. At 7 and 12 the shelf is as it was.
    ensures prefix { result.status ≡ 6 → HoldsPrefixOf (task_due task) (S.held shelf.old) (S.held shelf.new) }
    ensures write_failed { result.status ≡ 6 → FailedAtLast (S.counts shelf.old) (S.counts shelf.new) }
    ensures write_unfailed { result.status ≢ 6 → Unfailed (S.counts shelf.old) (S.counts shelf.new) }
    ensures unwritten { result.status ≢ 0 → result.status ≢ 6 → shelf.new ≡ shelf.old }
    ensures none_begun { result.status ≢ 6 → S.is_begun shelf.new ≡ false }

    // A task that plays no units leaves the keeper as it was.
    ensures unplayed { is_playing task ≡ false → keeper.new ≡ keeper.old }
    ensures unfailed { is_playing task ≡ false → result.status ≢ 12 }

    // The units are played before the files are written. If playing fails, the keeper stays open after some statements, or is as
    // it was.
    ensures played { (result.status ≡ 0) ⊎ (result.status ≡ 6) → HasPlayed task (K.store keeper.old) (K.store keeper.new) }
    ensures broken_off { (K.store keeper.new).is_open ≡ true → HasBrokenOff task (K.store keeper.old) (K.store keeper.new) }
    ensures left_open { (K.store keeper.new).is_open ≡ true → (result.status ≡ 7) ⊎ (result.status ≡ 12) }
    ensures not_opened { (result.status ≡ 7) ⊎ (result.status ≡ 12) → (K.store keeper.new).is_open ≡ false → K.store keeper.new ≡ K.store keeper.old }
    ensures keeper_failed { result.status ≡ 12 → FailedAtLast (K.counts keeper.old) (K.counts keeper.new) }
    ensures keeper_unfailed { result.status ≢ 12 → Unfailed (K.counts keeper.old) (K.counts keeper.new) }
{
    match played(alloc, task, keeper) {
        Ok(job) => written(rt, alloc, job, shelf, gate),
        Err(PlayFault::Keeper) => keeper_failed(),
        Err(PlayFault::Memory) => refused(Refusal::Job(JobFault::Memory)),
    }
}

/// Writes the files of a job. The status is 0 (all is done), 6 (a write failed) or 7 (memory ran out).
fn written<R: Threads + Sync, S: Shelf, G: Gate + Sync>(
    rt: &R,
    alloc: Global,
    job: Job,
    shelf: &mut S,
    gate: &G,
) -> Report
    requires can { CanFill job }
    requires none_begun { S.is_begun shelf.old ≡ false }
    ensures carries { result.status ≢ 6 → result.status ≢ 7 → Carries (Ok (due_of job)) result (S.held shelf.old) (S.held shelf.new) }
    ensures known { (result.status ≡ 0) ⊎ ((result.status ≡ 6) ⊎ (result.status ≡ 7)) }
    ensures message { IfSome (fixed_text result.status) (λ text. result.message ≡ text) }
    ensures text { is_text job ≡ true → result.status ≢ 7 }
    ensures prefix { result.status ≡ 6 → HoldsPrefixOf (due_of job) (S.held shelf.old) (S.held shelf.new) }
    ensures failed { result.status ≡ 6 → FailedAtLast (S.counts shelf.old) (S.counts shelf.new) }
    ensures unfailed { result.status ≢ 6 → Unfailed (S.counts shelf.old) (S.counts shelf.new) }
    ensures unwritten { result.status ≢ 0 → result.status ≢ 6 → shelf.new ≡ shelf.old }
    ensures none_begun { result.status ≢ 6 → S.is_begun shelf.new ≡ false }
{
    match fill(rt, alloc, &job, shelf, gate) {
        Ok(()) => done(),
        Err(RunFault::Write) => write_failed(),
        Err(RunFault::Memory) => refused(Refusal::Job(JobFault::Memory)),
    }
}
