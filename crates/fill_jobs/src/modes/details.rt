//! Modes details and details-unit: the text of a detail table at a unit, and what a unit changes in the table.

ghost use Rattle.std.specs.Prelude.{◌≡◌, ◌≢◌, ◌<◌, ◌≤◌, ◌+◌, ◌^◌, ◌⊎◌, ◌++◌, ◌∷◌, [], false, IfErr, IfOk, IfSome, IsErrOf, Ok, OnOk, Some, map, nat_lt, IsOk};
ghost use Rattle.std.specs.List.{sum_by};
ghost use Rattle.std.specs.Option.{option_map};
ghost use Rattle.pd_outside.specs.Faults.{FailedAtLast, Unfailed};
ghost use Rattle.pd_outside.specs.Shelf.{HoldsPrefixOf, finish_files};
ghost use Rattle.plan_stages.specs.Limits.{schema_limit};
ghost use Rattle.plan_stages.specs.PlanNames.{AskedNone};
ghost use Rattle.plan_stages.specs.Stages.{ended, told_files, Decides};
ghost use Rattle.range_workers.specs.Marks.{AreMarksOf, due_files};
ghost use Rattle.refusals.specs.Statuses.{job_status};
ghost use Rattle.life_intervals.specs.Generator.{last_unit};
ghost use Rattle.life_intervals.specs.JobOrders.{AreOrdersOf};
ghost use Rattle.update_box.specs.Cuts.{text_in};
ghost use Rattle.update_box.specs.TableLists.{HoldLists};
ghost use Rattle.detail_plan.specs.Kept.{KeepsRules};
ghost use Rattle.detail_lines.specs.Lines.{parent_place};
ghost use Rattle.detail_rows.specs.Packages.{AreTold, count_of, range_text, rows_in, text_numbered};
ghost use Rattle.run_jobs.specs.Details.{AsksForDetails};
ghost use Rattle.run_jobs.specs.DueFiles.{contents_of, default_package, most_page_bytes, page_bytes, told_by};
ghost use Rattle.run_jobs.specs.Formats.{in_directory};
ghost use Rattle.run_jobs.specs.Joined.{whole_text};
ghost use Rattle.run_jobs.specs.Jobs.{due_of, CanFill, CanPackBy, CanPackDetails, IsPackageSize};
ghost use Rattle.run_jobs.specs.Outcome.{IsLimitTold, LibraryLeft, IsDecided};
ghost use Rattle.run_jobs.specs.declared.job.Told.TheVariants as Told;
ghost use Rattle.run_jobs.specs.InputFiles.{input_limit};
ghost use Rattle.run_jobs.specs.modes.Details.{detail_name, detail_package, details_asked, details_due, details_of, files_by, is_refused, told_texts};

use detail_plan::{Detail, DetailPlan};
use detail_rows::{DetailPacker, PackedRows, parent_of};
use life_intervals::JobOrders;
use out_of_memory::Memory;
use pd_outside::{Gate, Library, Shelf};
use range_workers::{Marks, RunFault, run};
use refusals::JobFault;
use request_words::{Format, OptionName, Request};
use run_jobs::asked::{MOST_PAGE_BYTES, PAGES, default_package, is_past_last};
use run_jobs::details::read_details;
use run_jobs::file_names::{paths_in, push_stream_names, text_name};
use run_jobs::job::{DetailsJob, Job, Told};
use run_jobs::joined::Joined;
use run_jobs::names::put;
use run_jobs::outputs::STANDARD_OUTPUT;
use schema_model::Texts;
use schema_plan::Plan;
use std::alloc::Global;
use std::sync::ledger::{Blank, Ledger};
use std::thread::Threads;
use step_count::Steps;
use update_box::{UnitRows, rows_of_unit};

/// Returns the job of a request. The declaration is read before any file is written.
pub fn plan_details<B: Ledger, L: Library>(
    alloc: Global,
    library: &mut L,
    plan: Plan,
    request: &Request,
    told: Told,
    blank: Blank,
) -> Result<Job, JobFault>
    requires name { blank.name ≡ B.name }
    requires parts { blank.parts ≡ B.parts }
    requires some { 0 < blank.parts }
    requires ranges { CanPackBy request.now }
    ensures job { IfSome (told_files (L.content library.old)) (λ files. IsDecided job_status due_of (λ answer. answer ≡ details_due told plan request.now files) result) }
    ensures can { IfOk result CanFill }
    ensures left { LibraryLeft (ended job_status result) (IsLimitTold result) (told_files (L.content library.old)) (L.content library.new)
        (L.taken library.new) (L.is_started library.new) (L.counts library.old) (L.counts library.new) }
    ensures usable { ended job_status result ≢ 2 }
    ensures schema_read { ended job_status result ≡ 3 → L.taken library.new ≤ schema_limit }
    ensures within { (ended job_status result ≡ 0) ⊎ (ended job_status result ≡ 9) → L.taken library.new ≤ input_limit }
    ensures asked { AsksForDetails plan request.now.spec (told_files (L.content library.old)) (L.asked library.old) (L.asked library.new) }
    ensures unasked { AskedNone (L.asked library.old) (L.asked library.new) → L.taken library.new ≤ L.taken library.old }
{
    match read_details(alloc, library, &plan, request.spec.as_str()) {
        Ok(kept) => declared_job::<B>(alloc, plan, kept, request, told, blank),
        Err(cause) => Err(JobFault::Details(cause)),
    }
}

/// Returns the job of a request over a detail table.
fn declared_job<B: Ledger>(
    alloc: Global,
    plan: Plan,
    kept: DetailPlan,
    request: &Request,
    told: Told,
    blank: Blank,
) -> Result<Job, JobFault>
    requires name { blank.name ≡ B.name }
    requires parts { blank.parts ≡ B.parts }
    requires some { 0 < blank.parts }
    requires ranges { CanPackBy request.now }
    requires keeps { KeepsRules plan kept }
    ensures job { Decides job_status due_of result (details_of told plan request.now kept) }
    ensures in_range { IfErr result (λ fault. job_status fault ≡ 7 → IsOk (details_asked told plan request.now kept)) }
    ensures refused { IfErr result (λ fault. (job_status fault ≡ 7) ⊎ (job_status fault ≡ 8)) }
    ensures can { IfOk result CanFill }
{
    let size = match asked_size(&plan, &kept, request, told) {
        Ok(size) => size,
        Err(fault) => return Err(fault),
    };
    match made_job::<B>(alloc, plan, kept, request, size, told, blank) {
        Ok(job) => Ok(Job::Details(job)),
        Err(Memory) => Err(JobFault::Memory),
    }
}

// ---- what is asked

/// Whether a unit is out of range for what is told.
fn is_refused(told: Told, plan: &Plan, unit: u64) -> bool
    ensures { result ≡ is_refused told plan.now unit }
{
    match told {
        Told::Text => is_past_last(plan, unit),
        Told::Changes => unit == 0 || is_past_last(plan, unit),
    }
}

/// Returns how many rows of the parent a package of a request has.
fn package_of(plan: &Plan, kept: &DetailPlan, request: &Request) -> u64
    requires keeps { KeepsRules plan.now kept.now }
    requires ranges { CanPackBy request.now }
    ensures rows { result ≡ detail_package request.now kept.now }
    ensures some_row { 1 ≤ result }
    ensures row_limit { result ≤ 1000000 }
{
    match request.package {
        Some(rows) => rows,
        None => preset_package(plan, kept, request.workers),
    }
}

/// Returns how many rows of the parent a package has if the request doesn't say.
fn preset_package(plan: &Plan, kept: &DetailPlan, workers: u32) -> u64
    requires keeps { KeepsRules plan.now kept.now }
    requires some_worker { 1 ≤ workers }
    requires worker_limit { workers ≤ 64 }
    ensures rows { result ≡ default_package workers (kept.now.reach) }
    ensures some_row { 1 ≤ result }
    ensures row_limit { result ≤ 1000 }
{
    default_package(workers, kept.reach(plan))
}

/// Whether the pages of the workers have more bytes together than is allowed. A package has `size` rows of the parent.
fn is_past_room(plan: &Plan, kept: &DetailPlan, workers: u32, size: u64) -> bool
    requires keeps { KeepsRules plan.now kept.now }
    requires worker_limit { workers ≤ 64 }
    requires size_limit { size ≤ 1000000 }
    ensures { result ≡ nat_lt most_page_bytes (page_bytes workers size (kept.now.reach)) }
{
    MOST_PAGE_BYTES < PAGES * u64::from(workers) * size * kept.reach(plan)
}

/// Returns how many rows of the parent a package has. Refuses the first option out of range: unit, package.
fn asked_size(
    plan: &Plan,
    kept: &DetailPlan,
    request: &Request,
    told: Told,
) -> Result<u64, JobFault>
    requires keeps { KeepsRules plan.now kept.now }
    requires ranges { CanPackBy request.now }
    ensures asked { result ≡ details_asked told plan.now request.now kept.now }
    ensures rows { IfOk result IsPackageSize }
    ensures unit { OnOk result (is_refused told plan.now request.now.unit ≡ false) }
    ensures range { IfErr result (λ fault. job_status fault ≡ 8) }
{
    if is_refused(told, plan, request.unit) {
        return Err(JobFault::Range(OptionName::Unit));
    }
    let size = package_of(plan, kept, request);
    if is_past_room(plan, kept, request.workers, size) {
        return Err(JobFault::Range(OptionName::Package));
    }
    Ok(size)
}

// ---- the job

/// Returns the paths of the files for what is told of a detail table.
fn paths_of(
    alloc: Global,
    directory: &str,
    detail: &Detail,
    unit: u64,
    told: Told,
) -> Result<Texts, Memory>
    ensures { IfOk result (λ paths. paths ≡ map (λ content. in_directory directory.now (detail_name detail.now unit content)) (contents_of told)) }
{
    let name = detail.name.as_str();
    let mut names = Texts::new(alloc);
    match told {
        Told::Text => put(&mut names, text_name(alloc, name, Format::Copy)?)?,
        Told::Changes => push_stream_names(alloc, &mut names, name, Format::Copy, unit)?,
    }
    paths_in(alloc, directory, &names)
}

/// Returns the paths of a request's files; None if they go to the standard output.
fn names_of(
    alloc: Global,
    detail: &Detail,
    request: &Request,
    told: Told,
) -> Result<Option<Texts>, Memory>
    ensures { IfOk result (λ names. names
        ≡ option_map (λ directory. map (λ content. in_directory directory (detail_name detail.now request.now.unit content)) (contents_of told)) request.now.out) }
{
    match &request.out {
        None => Ok(None),
        Some(directory) => {
            let paths = paths_of(alloc, directory.as_str(), detail, request.unit, told)?;
            Ok(Some(paths))
        }
    }
}

/// Returns the orders that are kept for a detail table's parent at a unit, for its rows or for what the unit changes in them.
fn orders_of(
    alloc: Global,
    plan: &Plan,
    kept: &DetailPlan,
    unit: u64,
    told: Told,
) -> Result<JobOrders, Memory>
    requires keeps { KeepsRules plan.now kept.now }
    requires unit { unit ≤ last_unit plan.now }
    ensures { IfOk result (λ orders. AreOrdersOf plan.now orders) }
{
    let parent = parent_of(plan, kept);
    let made = match told {
        Told::Text => JobOrders::new(alloc, plan, parent, 1, unit),
        Told::Changes => JobOrders::for_changes(alloc, plan, parent, 1, unit),
    };
    match made {
        Ok(orders) => Ok(orders),
        Err(_) => Err(Memory),
    }
}

/// Returns what a unit changes in a detail table's parent; None if the table's text is told.
fn changes_of<B: Ledger>(
    alloc: Global,
    plan: &Plan,
    kept: &DetailPlan,
    orders: &JobOrders,
    unit: u64,
    told: Told,
    blank: Blank,
) -> Result<Option<UnitRows>, Memory>
    requires name { blank.name ≡ B.name }
    requires parts { blank.parts ≡ B.parts }
    requires some { 0 < blank.parts }
    requires keeps { KeepsRules plan.now kept.now }
    requires orders { AreOrdersOf plan.now orders.now }
    requires unit { is_refused told plan.now unit ≡ false }
    ensures told { IfOk result (λ changes. told_by changes ≡ told) }
    ensures found { IfOk result (λ changes. IfSome changes (λ lists. (1 ≤ unit) × HoldLists plan.now unit (Some (parent_place plan.now kept.now.detail)) lists)) }
{
    match told {
        Told::Text => Ok(None),
        Told::Changes => {
            let mut steps = Steps::<B>::new(blank);
            let rows = life_intervals::Rows::with(plan, orders);
            let parent = parent_of(plan, kept);
            let changes = rows_of_unit(alloc, &rows, Some(parent), unit, &mut steps)?;
            Ok(Some(changes))
        }
    }
}

/// Returns the job of a request over a detail table that keeps the rules. A package has `size` rows of the parent. Fails with
/// `Memory` if memory runs out.
fn made_job<B: Ledger>(
    alloc: Global,
    plan: Plan,
    kept: DetailPlan,
    request: &Request,
    size: u64,
    told: Told,
    blank: Blank,
) -> Result<DetailsJob, Memory>
    requires name { blank.name ≡ B.name }
    requires parts { blank.parts ≡ B.parts }
    requires some { 0 < blank.parts }
    requires ranges { CanPackBy request.now }
    requires keeps { KeepsRules plan kept }
    requires rows { IsPackageSize size }
    requires unit { is_refused told plan request.now.unit ≡ false }
    ensures plan { IfOk result (λ job. job.plan ≡ plan) }
    ensures kept { IfOk result (λ job. job.kept ≡ kept) }
    ensures unit { IfOk result (λ job. job.unit ≡ request.now.unit) }
    ensures told { IfOk result (λ job. told_by job.changes ≡ told) }
    ensures names { IfOk result (λ job. job.names
        ≡ option_map (λ directory. map (λ content. in_directory directory (detail_name kept.detail request.now.unit content)) (contents_of told)) request.now.out) }
    ensures can { IfOk result CanPackDetails }
{
    let names = names_of(alloc, kept.detail(), request, told)?;
    let unit = request.unit;
    let orders = orders_of(alloc, &plan, &kept, unit, told)?;
    let changes = changes_of::<B>(alloc, &plan, &kept, &orders, unit, told, blank)?;
    Ok(DetailsJob {
        plan,
        kept,
        orders,
        unit,
        size,
        workers: request.workers,
        names,
        changes,
    })
}

// ---- the files

/// Appends the packer of the lines of some rows of the parent to others.
fn push_lines<'a>(
    alloc: Global,
    packers: &mut Joined<DetailPacker<'a>>,
    job: &'a DetailsJob,
    told: PackedRows<'a>,
) -> Result<(), Memory>
    requires can { CanPackDetails job.now }
    requires told { AreTold job.now.plan job.now.kept told }
    requires few { sum_by count_of packers.old.parts.items + rows_in job.now.plan job.now.kept told ≤ 2 ^ 60 }
    ensures texts { OnOk result (map (whole_text count_of text_numbered) packers.new.parts.items
        ≡ map (whole_text count_of text_numbered) packers.old.parts.items ++ range_text job.now.plan job.now.kept told.entry 0 (rows_in job.now.plan job.now.kept told.entry) ∷ []) }
    ensures count { OnOk result (sum_by count_of packers.new.parts.items ≤ sum_by count_of packers.old.parts.items + rows_in job.now.plan job.now.kept told.entry) }
{
    let rows = life_intervals::Rows::with(&job.plan, &job.orders);
    let packer = match DetailPacker::new(alloc, rows, &job.kept, told, job.size) {
        Ok(packer) => packer,
        Err(_) => return Err(Memory),
    };
    match packers.push(packer) {
        Ok(()) => Ok(()),
        Err(_) => Err(Memory),
    }
}

/// Returns the packer of a detail table's text.
fn text_packers<'a>(alloc: Global, job: &'a DetailsJob) -> Result<Joined<DetailPacker<'a>>, Memory>
    requires can { CanPackDetails job.now }
    ensures { IfOk result (λ packers. map (whole_text count_of text_numbered) packers.parts.items ≡ told_texts Told.Text job.now.plan job.now.kept job.now.unit) }
{
    let _limits = job.plan.schema(); // a table has at most 2^40 rows
    let mut packers = Joined::new(alloc);
    push_lines(alloc, &mut packers, job, PackedRows::All { unit: job.unit })?;
    Ok(packers)
}

/// Returns the packers of what a unit changes in a detail table, by what the unit changes in the parent.
fn change_packers<'a>(
    alloc: Global,
    job: &'a DetailsJob,
    changes: &'a UnitRows,
) -> Result<Joined<DetailPacker<'a>>, Memory>
    requires can { CanPackDetails job.now }
    requires later { 1 ≤ job.now.unit }
    requires found { HoldLists job.now.plan job.now.unit (Some (parent_place job.now.plan job.now.kept.detail)) changes.now }
    ensures { IfOk result (λ packers. map (whole_text count_of text_numbered) packers.parts.items ≡ told_texts Told.Changes job.now.plan job.now.kept job.now.unit) }
{
    let _limits = job.plan.schema(); // a table has at most 2^40 rows
    let parent = parent_of(&job.plan, &job.kept);
    let unit = job.unit;
    let mut packers = Joined::new(alloc);
    let deleted = changes.dels(parent);
    push_lines(
        alloc,
        &mut packers,
        job,
        PackedRows::Keys { ordinals: deleted },
    )?;
    let updated = changes.upds(parent);
    let lines = PackedRows::Lines {
        ordinals: updated,
        unit,
    };
    push_lines(alloc, &mut packers, job, lines)?;
    push_lines(alloc, &mut packers, job, PackedRows::Born { unit })?;
    Ok(packers)
}

/// Returns the packers of a job, one for each text that is told.
fn packers_of<'a>(alloc: Global, job: &'a DetailsJob) -> Result<Joined<DetailPacker<'a>>, Memory>
    requires can { CanPackDetails job.now }
    ensures { IfOk result (λ packers. map (whole_text count_of text_numbered) packers.parts.items
        ≡ told_texts (told_by job.now.changes) job.now.plan job.now.kept job.now.unit) }
{
    match &job.changes {
        None => text_packers(alloc, job),
        Some(changes) => change_packers(alloc, job, changes),
    }
}

/// Returns the marks of a job's files: one for each packer, or one for the standard output.
fn marks_of(
    alloc: Global,
    job: &DetailsJob,
    packers: &Joined<DetailPacker<'_>>,
) -> Result<Marks, Memory>
    requires can { CanPackDetails job.now }
    requires texts { map (whole_text count_of text_numbered) packers.now.parts.items ≡ told_texts (told_by job.now.changes) job.now.plan job.now.kept job.now.unit }
    ensures marks { IfOk result (AreMarksOf (sum_by count_of packers.now.parts.items)) }
    ensures files { IfOk result (λ marks. due_files (text_in count_of text_numbered packers.now.parts.items) (sum_by count_of packers.now.parts.items) marks
        ≡ files_by job.now.names (told_texts (told_by job.now.changes) job.now.plan job.now.kept job.now.unit)) }
{
    match &job.names {
        None => match packers.mark_of_all(alloc, STANDARD_OUTPUT) {
            Ok(marks) => Ok(marks),
            Err(_) => Err(Memory),
        },
        Some(names) => match packers.marks(alloc, names) {
            Ok(marks) => Ok(marks),
            Err(_) => Err(Memory),
        },
    }
}

/// Writes the files of a detail table's lines, by the job's workers. All memory is taken before the first file is begun.
pub fn write_details<R: Threads + Sync, S: Shelf, G: Gate + Sync>(
    rt: &R,
    alloc: Global,
    job: &DetailsJob,
    shelf: &mut S,
    gate: &G,
) -> Result<(), RunFault>
    requires can { CanPackDetails job.now }
    requires none_begun { S.is_begun shelf.old ≡ false }
    ensures files { OnOk result (S.held shelf.new
        ≡ option_map (finish_files (files_by job.now.names (told_texts (told_by job.now.changes) job.now.plan job.now.kept job.now.unit))) (S.held shelf.old)) }
    ensures prefix { IsErrOf result RunFault.Write →
        HoldsPrefixOf (files_by job.now.names (told_texts (told_by job.now.changes) job.now.plan job.now.kept job.now.unit)) (S.held shelf.old) (S.held shelf.new) }
    ensures failed { IsErrOf result RunFault.Write → FailedAtLast (S.counts shelf.old) (S.counts shelf.new) }
    ensures memory { IsErrOf result RunFault.Memory → shelf.new ≡ shelf.old }
    ensures unfailed { OnOk result (Unfailed (S.counts shelf.old) (S.counts shelf.new)) }
    ensures none_begun { OnOk result (S.is_begun shelf.new ≡ false) }
{
    let packers = match packers_of(alloc, job) {
        Ok(packers) => packers,
        Err(Memory) => return Err(RunFault::Memory),
    };
    let marks = match marks_of(alloc, job, &packers) {
        Ok(marks) => marks,
        Err(Memory) => return Err(RunFault::Memory),
    };
    run(rt, alloc, &packers, &marks, job.workers, shelf, gate)
}
