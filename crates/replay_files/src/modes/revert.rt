//! Mode revert: reads the texts of tables and the undo texts of earlier units from files, and takes the texts back.

ghost use Rattle.std.specs.Prelude.{◌≡◌, ◌≢◌, ◌≤◌, ◌⊎◌, IfErr, IfOk, IfSome, OnOk};
ghost use Rattle.pd_outside.specs.Library.{AskedPrefixOf};
ghost use Rattle.plan_stages.specs.PlanNames.{AskedNone};
ghost use Rattle.plan_stages.specs.Stages.{ended, told_files, IsReadOut};
ghost use Rattle.refusals.specs.Statuses.{job_status};
ghost use Rattle.schema_facts.specs.Layout.{layout_of};
ghost use Rattle.update_box.specs.Packages.{IsChoice};
ghost use Rattle.run_jobs.specs.Jobs.{due_of, CanFill};
ghost use Rattle.run_jobs.specs.InputFiles.{input_limit};
ghost use Rattle.replay_files.specs.Replay.{CanReplay};
ghost use Rattle.run_jobs.specs.Outcome.{IsLimitTold, LibraryLeft, IsDecided};
ghost use Rattle.replay_files.specs.modes.Revert.{IsRevertDue, revert_of, tables_reverted, undo_paths_asked, undo_paths_possible};

use crate::replay::{Replay, Way, replay_files};
use out_of_memory::Memory;
use pd_outside::Library;
use refusals::JobFault;
use request_words::{OptionName, Request};
use run_jobs::asked::{chosen_table, is_past_last};
use run_jobs::job::Job;
use run_jobs::names::table_names;
use schema_plan::Plan;
use std::alloc::Global;
use update_box::places_of;

/// Returns the job of a request. The inputs are read and undone before any file is written.
pub fn plan_revert<L: Library>(
    alloc: Global,
    library: &mut L,
    plan: &Plan,
    request: &Request,
) -> Result<Job, JobFault>
    requires read_out { IsReadOut (L.content library.old) }
    ensures job { IfSome (told_files (L.content library.old)) (λ files. IsDecided job_status due_of (IsRevertDue plan.now request.now files) result) }
    ensures can { IfOk result CanFill }
    ensures left { LibraryLeft (ended job_status result) (IsLimitTold result) (told_files (L.content library.old)) (L.content library.new)
        (L.taken library.new) (L.is_started library.new) (L.counts library.old) (L.counts library.new) }
    ensures usable { ended job_status result ≢ 2 }
    ensures is_schema { ended job_status result ≢ 3 }
    ensures within { L.taken library.old ≤ input_limit → (ended job_status result ≡ 0) ⊎ (ended job_status result ≡ 9) → L.taken library.new ≤ input_limit }
    ensures asked_told { IfSome (told_files (L.content library.old)) (λ files.
        AskedPrefixOf (undo_paths_asked plan.now request.now files) (L.asked library.old) (L.asked library.new)) }
    ensures asked { AskedPrefixOf (undo_paths_possible plan.now request.now) (L.asked library.old) (L.asked library.new) }
    ensures unasked { AskedNone (L.asked library.old) (L.asked library.new) → L.taken library.new ≤ L.taken library.old }
{
    let table = tables_reverted(plan, request)?;
    let replay = match revert_of(alloc, plan, table, request) {
        Ok(replay) => replay,
        Err(Memory) => return Err(JobFault::Memory),
    };
    replay_files(alloc, library, plan.delimiter(), &replay, request)
}

/// Returns the chosen table, or no table, for all. Refuses the first option out of range: later unit, earlier unit, table.
fn tables_reverted(plan: &Plan, request: &Request) -> Result<Option<u32>, JobFault>
    ensures asked { result ≡ tables_reverted plan.now request.now }
    ensures within { IfOk result (IsChoice plan.now) }
    ensures order { OnOk result (request.now.to ≤ request.now.from) }
    ensures units { OnOk result (request.now.from ≤ (layout_of plan.now).units) }
    ensures range { IfErr result (λ fault. job_status fault ≡ 8) }
{
    if is_past_last(plan, request.from) {
        return Err(JobFault::Range(OptionName::From));
    }
    if request.from < request.to {
        return Err(JobFault::Range(OptionName::To));
    }
    match chosen_table(plan, &request.table) {
        Some(table) => Ok(table),
        None => Err(JobFault::Range(OptionName::Table)),
    }
}

/// Returns what is replayed for the chosen tables.
fn revert_of(
    alloc: Global,
    plan: &Plan,
    table: Option<u32>,
    request: &Request,
) -> Result<Replay, Memory>
    requires table { IsChoice plan.now table }
    requires order { request.now.to ≤ request.now.from }
    requires units { request.now.from ≤ (layout_of plan.now).units }
    ensures replay { IfOk result (λ replay. replay ≡ revert_of plan.now table) }
    ensures can { IfOk result (CanReplay request.now) }
{
    let _limits = plan.schema(); // there are at most 10,000 units
    Ok(Replay {
        way: Way::Undo,
        names: table_names(alloc, plan, places_of(plan, table))?,
        csv: None,
    })
}
