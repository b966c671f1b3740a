//! Mode details-apply: reads the text of a detail table and the streams of later units from files, and applies the streams.

ghost use Rattle.std.specs.Prelude.{◌≡◌, ◌≢◌, ◌≤◌, ◌⊎◌, ℕ, List, IfErr, IfOk, IfSome, OnOk, Err, Ok};
ghost use Rattle.dictionaries.specs.WordList.{WordList};
ghost use Rattle.pd_outside.specs.Library.{AskedPrefixOf};
ghost use Rattle.plan_stages.specs.Limits.{schema_limit};
ghost use Rattle.plan_stages.specs.PlanNames.{AskedNone};
ghost use Rattle.plan_stages.specs.Stages.{ended, told_files, IsReadOut};
ghost use Rattle.refusals.specs.Statuses.{job_status};
ghost use Rattle.schema_facts.specs.Layout.{layout_of};
ghost use Rattle.detail_plan.specs.declared.detail.Detail.{Detail as Declared};
ghost use Rattle.run_jobs.specs.Jobs.{due_of, CanFill};
ghost use Rattle.run_jobs.specs.InputFiles.{input_limit};
ghost use Rattle.run_jobs.specs.Outcome.{IsLimitTold, LibraryLeft, IsDecided};
ghost use Rattle.replay_files.specs.modes.DetailsApply.{AreDetailsOf, IsDetailsApplyDue, detail_asked, detail_paths_asked, detail_paths_possible, details_apply_asked, details_apply_possible, apply_of_detail};

use crate::replay::{Replay, Way, replay_files};
use detail_plan::Detail;
use out_of_memory::Memory;
use pd_outside::Library;
use refusals::JobFault;
use request_words::{OptionName, Request};
use run_jobs::asked::is_past_last;
use run_jobs::details::read_details;
use run_jobs::job::Job;
use run_jobs::names::{copy_of, put};
use schema_model::Texts;
use schema_plan::Plan;
use std::alloc::Global;
use stream_apply::KeyFields;

/// Returns the job of a request. The declaration and the inputs are read, and the streams applied, before any file is written.
pub fn plan_details_apply<L: Library>(
    alloc: Global,
    library: &mut L,
    plan: &Plan,
    request: &Request,
) -> Result<Job, JobFault>
    ensures job { IfSome (told_files (L.content library.old)) (λ files. IsDecided job_status due_of (IsDetailsApplyDue plan.now request.now files) result) }
    ensures can { IfOk result CanFill }
    ensures left { LibraryLeft (ended job_status result) (IsLimitTold result) (told_files (L.content library.old)) (L.content library.new)
        (L.taken library.new) (L.is_started library.new) (L.counts library.old) (L.counts library.new) }
    ensures usable { ended job_status result ≢ 2 }
    ensures schema_read { ended job_status result ≡ 3 → L.taken library.new ≤ schema_limit }
    ensures within { (ended job_status result ≡ 0) ⊎ (ended job_status result ≡ 9) → L.taken library.new ≤ input_limit }
    ensures asked_told { IfSome (told_files (L.content library.old)) (λ files.
        AskedPrefixOf (details_apply_asked plan.now request.now files) (L.asked library.old) (L.asked library.new)) }
    ensures asked { (details : List ℕ) × (lists : List WordList)
        × AskedPrefixOf (details_apply_possible plan.now request.now details lists) (L.asked library.old) (L.asked library.new) }
    ensures unasked { AskedNone (L.asked library.old) (L.asked library.new) → L.taken library.new ≤ L.taken library.old }
{
    match read_details(alloc, library, plan, request.spec.as_str()) {
        Ok(kept) => apply_inputs(alloc, library, plan, kept.detail(), request),
        Err(cause) => Err(JobFault::Details(cause)),
    }
}

/// Reads the inputs of a detail table and returns the job of a request.
fn apply_inputs<L: Library>(
    alloc: Global,
    library: &mut L,
    plan: &Plan,
    detail: &Detail,
    request: &Request,
) -> Result<Job, JobFault>
    requires read_out { IsReadOut (L.content library.old) }
    ensures job { IfSome (told_files (L.content library.old)) (λ files. IsDecided job_status due_of (AreDetailsOf plan.now request.now files detail.now) result) }
    ensures can { IfOk result CanFill }
    ensures left { LibraryLeft (ended job_status result) (IsLimitTold result) (told_files (L.content library.old)) (L.content library.new)
        (L.taken library.new) (L.is_started library.new) (L.counts library.old) (L.counts library.new) }
    ensures usable { ended job_status result ≢ 2 }
    ensures is_schema { ended job_status result ≢ 3 }
    ensures within { L.taken library.old ≤ input_limit → (ended job_status result ≡ 0) ⊎ (ended job_status result ≡ 9) → L.taken library.new ≤ input_limit }
    ensures asked_told { IfSome (told_files (L.content library.old)) (λ files.
        AskedPrefixOf (detail_paths_asked plan.now request.now files detail.now) (L.asked library.old) (L.asked library.new)) }
    ensures asked { AskedPrefixOf (detail_paths_possible plan.now request.now detail.now) (L.asked library.old) (L.asked library.new) }
{
    let _limits = plan.schema(); // there are at most 10,000 units
    check_units(plan, request)?;
    let replay = match apply_of_detail(alloc, detail) {
        Ok(replay) => replay,
        Err(Memory) => return Err(JobFault::Memory),
    };
    replay_files(alloc, library, plan.delimiter(), &replay, request)
}

/// Returns what is replayed for a detail table.
fn apply_of_detail(alloc: Global, detail: &Detail) -> Result<Replay, Memory>
    ensures { IfOk result (λ replay. replay ≡ apply_of_detail detail.now) }
{
    let mut names = Texts::new(alloc);
    put(&mut names, copy_of(alloc, detail.name.as_str())?)?;
    Ok(Replay {
        way: Way::Apply(KeyFields::Two),
        names,
        csv: None,
    })
}

/// Refuses the first option out of range: first unit, last unit.
fn check_units(plan: &Plan, request: &Request) -> Result<(), JobFault>
    ensures refused { IfErr result (λ fault. (detail : Declared) → detail_asked plan.now request.now detail ≡ Err fault) }
    ensures accepted { OnOk result ((detail : Declared) → detail_asked plan.now request.now detail ≡ Ok detail) }
    ensures order { OnOk result (request.now.from ≤ request.now.to) }
    ensures units { OnOk result (request.now.to ≤ (layout_of plan.now).units) }
    ensures range { IfErr result (λ fault. job_status fault ≡ 8) }
{
    if request.to < request.from {
        return Err(JobFault::Range(OptionName::From));
    }
    if is_past_last(plan, request.to) {
        return Err(JobFault::Range(OptionName::To));
    }
    Ok(())
}
