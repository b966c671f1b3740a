//! Mode apply: reads the texts of tables and the streams of later units from files, and applies the streams.

ghost use Rattle.std.specs.Prelude.{◌≡◌, ◌≢◌, ◌≤◌, ◌+◌, ◌⊎◌, IfErr, IfOk, IfSome, OnOk, length};
ghost use Rattle.std.specs.List.{range_with_len};
ghost use Rattle.pd_outside.specs.Library.{AskedPrefixOf};
ghost use Rattle.plan_stages.specs.PlanNames.{AskedNone};
ghost use Rattle.plan_stages.specs.Stages.{ended, told_files, IsReadOut};
ghost use Rattle.refusals.specs.Statuses.{job_status};
ghost use Rattle.schema_facts.specs.Layout.{layout_of};
ghost use Rattle.update_box.specs.Packages.{IsChoice};
ghost use Rattle.run_jobs.specs.Jobs.{due_of, CanFill};
ghost use Rattle.run_jobs.specs.InputFiles.{input_limit};
ghost use Rattle.replay_files.specs.Replay.{CanReplay};
ghost use Rattle.run_jobs.specs.Outcome.{IsLimitTold, LibraryLeft, IsDecided};
ghost use Rattle.replay_files.specs.modes.Apply.{IsApplyDue, apply_of, columns_by, paths_asked, paths_possible, tables_asked};

use crate::replay::{Replay, Way, replay_files};
use out_of_memory::Memory;
use pd_outside::Library;
use refusals::JobFault;
use request_words::{Format, OptionName, Request};
use run_jobs::asked::{chosen_table, is_past_last};
use run_jobs::headings::column_names;
use run_jobs::job::Job;
use run_jobs::names::table_names;
use schema_model::{Sequence, Texts};
use schema_plan::Plan;
use std::alloc::Global;
use stream_apply::KeyFields;
use update_box::{Places, places_of};

/// Returns the job of a request. The inputs are read and applied before any file is written.
pub fn plan_apply<L: Library>(
    alloc: Global,
    library: &mut L,
    plan: &Plan,
    request: &Request,
) -> Result<Job, JobFault>
    requires read_out { IsReadOut (L.content library.old) }
    ensures job { IfSome (told_files (L.content library.old)) (λ files. IsDecided job_status due_of (IsApplyDue plan.now request.now files) result) }
    ensures can { IfOk result CanFill }
    ensures left { LibraryLeft (ended job_status result) (IsLimitTold result) (told_files (L.content library.old)) (L.content library.new)
        (L.taken library.new) (L.is_started library.new) (L.counts library.old) (L.counts library.new) }
    ensures usable { ended job_status result ≢ 2 }
    ensures is_schema { ended job_status result ≢ 3 }
    ensures within { L.taken library.old ≤ input_limit → (ended job_status result ≡ 0) ⊎ (ended job_status result ≡ 9) → L.taken library.new ≤ input_limit }
    ensures asked_told { IfSome (told_files (L.content library.old)) (λ files.
        AskedPrefixOf (paths_asked plan.now request.now files) (L.asked library.old) (L.asked library.new)) }
    ensures asked { AskedPrefixOf (paths_possible plan.now request.now) (L.asked library.old) (L.asked library.new) }
    ensures unasked { AskedNone (L.asked library.old) (L.asked library.new) → L.taken library.new ≤ L.taken library.old }
{
    let table = tables_asked(plan, request)?;
    let replay = match apply_of(alloc, plan, table, request) {
        Ok(replay) => replay,
        Err(Memory) => return Err(JobFault::Memory),
    };
    replay_files(alloc, library, plan.delimiter(), &replay, request)
}

/// Returns the chosen table, or no table, for all. Refuses the first option out of range: first unit, last unit, table.
fn tables_asked(plan: &Plan, request: &Request) -> Result<Option<u32>, JobFault>
    ensures asked { result ≡ tables_asked plan.now request.now }
    ensures within { IfOk result (IsChoice plan.now) }
    ensures order { OnOk result (request.now.from ≤ request.now.to) }
    ensures units { OnOk result (request.now.to ≤ (layout_of plan.now).units) }
    ensures range { IfErr result (λ fault. job_status fault ≡ 8) }
{
    if request.to < request.from {
        return Err(JobFault::Range(OptionName::From));
    }
    if is_past_last(plan, request.to) {
        return Err(JobFault::Range(OptionName::To));
    }
    match chosen_table(plan, &request.table) {
        Some(table) => Ok(table),
        None => Err(JobFault::Range(OptionName::Table)),
    }
}

/// Returns what is replayed for the chosen tables.
fn apply_of(
    alloc: Global,
    plan: &Plan,
    table: Option<u32>,
    request: &Request,
) -> Result<Replay, Memory>
    requires table { IsChoice plan.now table }
    requires order { request.now.from ≤ request.now.to }
    requires units { request.now.to ≤ (layout_of plan.now).units }
    ensures replay { IfOk result (λ replay. replay ≡ apply_of plan.now request.now table) }
    ensures can { IfOk result (CanReplay request.now) }
{
    let _limits = plan.schema(); // there are at most 10,000 units
    let places = places_of(plan, table);
    Ok(Replay {
        way: Way::Apply(KeyFields::One),
        names: table_names(alloc, plan, places)?,
        csv: columns_by(alloc, request.format, plan, places)?,
    })
}

/// Returns, for CSV, the names of the columns of each table; None for other formats.
fn columns_by(
    alloc: Global,
    format: Format,
    plan: &Plan,
    places: Places,
) -> Result<Option<Sequence<Texts>>, Memory>
    requires { places.from + places.count ≤ length plan.now.schema.tables }
    ensures { IfOk result (λ columns. columns ≡ columns_by format plan.now (range_with_len places.from places.count)) }
{
    let _limits = plan.schema(); // there are 1 to 64 tables
    if format != Format::Csv {
        return Ok(None);
    }
    let mut tables = Sequence::new(alloc);
    for number in 0..places.count {
        let names = column_names(alloc, plan, places.from + number)?;
        match tables.push(names) {
            Ok(()) => {}
            Err(_) => return Err(Memory),
        }
    }
    Ok(Some(tables))
}
