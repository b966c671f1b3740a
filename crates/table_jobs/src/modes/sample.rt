//! Mode sample: what a sample's tables hold at unit 0 and at the last unit, and what the units after 0 change in them.

ghost use Rattle.std.specs.Prelude.{◌≡◌, ◌≢◌, ◌<◌, ◌≤◌, ◌⊎◌, ◌+◌, ◌++◌, ◌^◌, ℕ, List, IfErr, IfOk, OnOk, length, map, sum};
ghost use Rattle.std.specs.Bool.{OnFalse, OnTrue};
ghost use Rattle.pd_outside.specs.Files.{File, file_at};
ghost use Rattle.life_intervals.specs.Generator.{generator_of, last_unit};
ghost use Rattle.refusals.specs.Statuses.{job_status};
ghost use Rattle.row_lines.specs.Lines.{table_text};
ghost use Rattle.stream_apply.specs.InTurn.{IsAppliedText};
ghost use Rattle.update_box.specs.Packages.{IsJobOf};
ghost use Rattle.update_box.specs.TextLaws.{unit_streams};
ghost use Rattle.schema_facts.specs.Layout.{layout_of};
ghost use Rattle.run_jobs.specs.Jobs.{due_of, CanPackBy, CanFill};
ghost use Rattle.run_jobs.specs.Outcome.{IsDecided};
ghost use Rattle.table_jobs.specs.Sampled.{AreFew, AreTexts, RiseLittle, whole_job};
ghost use Rattle.table_jobs.specs.modes.Sample.{HaveRoom, IsLaterText, IsSampleDue, IsSummary, lines_in, table_line};

use crate::modes::snapshot::write_snapshot;
use crate::modes::unit::{found_job, write_unit};
use out_of_memory::Memory;
use pd_outside::{Files, Gate, MemShelf, ShelfFails};
use plan_stages::Inputs;
use refusals::JobFault;
use request_words::{OptionName, Request};
use run_jobs::asked::{is_past_room, package_of};
use run_jobs::job::{Job, TablesJob, tables_job};
use run_jobs::names::name_of;
use run_jobs::numbers::push_number;
use sample_tables::sample_plan;
use schema_model::Text;
use schema_plan::Plan;
use std::alloc::Global;
use std::marker::Brand;
use std::sync::ledger::Blank;
use std::thread::Threads;
use stream_apply::{ApplyFault, KeyFields, apply_in_turn};

/// How many lines the units delete, update and insert in a table.
#[derive(Clone, Copy)]
struct Changed {
    deleted: u128,
    updated: u128,
    inserted: u128,
}

/// The texts of a table.
struct TableTexts {
    /// The text at unit 0, and then the streams of each unit, in the order of applying them.
    inputs: Inputs,
    /// How many lines the streams have.
    changed: Changed,
    /// The text at the last unit.
    last: Vec<u8>,
}

impl Drop for TableTexts {
    fn drop(self) {
        let TableTexts {
            inputs,
            changed: _,
            last,
        } = self;
        drop(inputs);
        drop(last);
    }
}

/// Returns the job of a sample: its summary. The workers make all texts here, and each package of lines enters the gate.
pub fn plan_sample<R: Threads + Sync, G: Gate + Sync>(
    rt: &R,
    alloc: Global,
    gate: &G,
    request: &Request,
) -> Result<Job, JobFault>
    requires ranges { CanPackBy request.now }
    requires some { 1 ≤ request.now.size }
    requires limit { request.now.size ≤ 1000 }
    ensures job { IsDecided job_status due_of (IsSampleDue request.now) result }
    ensures refused { IfErr result (λ fault. (job_status fault ≡ 7) ⊎ (job_status fault ≡ 8)) }
    ensures can { IfOk result CanFill }
{
    let plan = match sample_plan(alloc, request.size) {
        Ok(plan) => plan,
        Err(_) => return Err(JobFault::Memory),
    };
    if is_past_room(&plan, request) {
        return Err(JobFault::Range(OptionName::Package));
    }
    match summary(rt, alloc, gate, plan, request) {
        Ok(text) => Ok(Job::Text(text)),
        Err(_) => Err(JobFault::Memory),
    }
}

/// Returns the summary of a plan's tables: a line for each, and the sum of the bytes of the texts that their changes make.
fn summary<R: Threads + Sync, G: Gate + Sync>(
    rt: &R,
    alloc: Global,
    gate: &G,
    plan: Plan,
    request: &Request,
) -> Result<Vec<u8>, Memory>
    requires ranges { CanPackBy request.now }
    requires room { HaveRoom plan request.now }
    ensures { IfOk result (λ text. IsSummary plan text.items) }
{
    let mut held = plan;
    let mut text = Vec::new(alloc);
    let mut sum = 0u128;
    for table in 0..held.tables() {
        let made = table_texts(rt, alloc, gate, held, request, table)?;
        held = made.0;
        push_line(&mut text, &held, table, &made.1)?;
        sum += later_sum(alloc, &held, table, &made.1)?;
    }
    text.extend_from_slice(b"sum ")?;
    push_number(&mut text, sum, b'\n')?;
    Ok(text)
}

/// Returns the job of all rows of one table at a unit.
fn whole_job(plan: &Plan, request: &Request, table: u32, unit: u64) -> update_box::Job
    requires ranges { CanPackBy request.now }
    requires table { table < length plan.now.schema.tables }
    requires unit { unit ≤ last_unit plan.now }
    ensures job { result ≡ whole_job plan.now request.now table unit }
    ensures is { IsJobOf plan.now result }
{
    update_box::Job {
        unit,
        table: Some(table),
        package: package_of(plan, request),
        node: 0,
        nodes: 1,
    }
}

/// Returns the text of a table at a unit, and the plan.
fn snapshot_text<R: Threads + Sync, G: Gate + Sync>(
    rt: &R,
    alloc: Global,
    gate: &G,
    plan: Plan,
    request: &Request,
    table: u32,
    unit: u64,
) -> Result<(Plan, Vec<u8>), Memory>
    requires ranges { CanPackBy request.now }
    requires room { HaveRoom plan request.now }
    requires table { table < length plan.schema.tables }
    requires unit { unit ≤ last_unit plan }
    ensures plan { IfOk result (λ made. made.0 ≡ plan) }
    ensures text { IfOk result (λ made. made.1.items ≡ table_text (generator_of plan) unit table) }
{
    let _limits = plan.schema(); // a plan is in its limits
    let asked = whole_job(&plan, request, table, unit);
    let job = tables_job(alloc, plan, asked, request, Some(Text::new(alloc)))?;
    let mut shelf = MemShelf::new(alloc, ShelfFails::new(alloc), usize::MAX);
    match write_snapshot(rt, alloc, &job, &mut shelf, gate) {
        Ok(()) => {}
        Err(_) => return Err(Memory),
    }
    let text = Vec::from_slice(alloc, shelf.finished().bytes(0))?;
    Ok((job.into_plan(), text))
}

/// Returns what a unit changes in a table, on a shelf, and the plan.
fn unit_shelf<R: Threads + Sync, G: Gate + Sync>(
    rt: &R,
    alloc: Global,
    gate: &G,
    plan: Plan,
    request: &Request,
    table: u32,
    unit: u64,
) -> Result<(Plan, MemShelf), Memory>
    requires ranges { CanPackBy request.now }
    requires room { HaveRoom plan request.now }
    requires table { table < length plan.schema.tables }
    requires later { 1 ≤ unit }
    requires unit { unit ≤ last_unit plan }
    ensures plan { IfOk result (λ made. made.0 ≡ plan) }
    ensures texts { IfOk result (λ made. map (λ (file : File). file.bytes) made.1.held.finished ≡ unit_streams plan table unit) }
{
    let _limits = plan.schema(); // a plan is in its limits
    let asked = whole_job(&plan, request, table, unit);
    let out = Some(Text::new(alloc));
    let job = found_job::<Brand>(alloc, plan, asked, request, out, Blank::new(1))?;
    let mut shelf = MemShelf::new(alloc, ShelfFails::new(alloc), usize::MAX);
    match write_unit(rt, alloc, &job, &mut shelf, gate) {
        Ok(()) => Ok((job.into_plan(), shelf)),
        Err(_) => Err(Memory),
    }
}

/// Returns the texts of a table, and the plan.
fn table_texts<R: Threads + Sync, G: Gate + Sync>(
    rt: &R,
    alloc: Global,
    gate: &G,
    plan: Plan,
    request: &Request,
    table: u32,
) -> Result<(Plan, TableTexts), Memory>
    requires ranges { CanPackBy request.now }
    requires room { HaveRoom plan request.now }
    requires table { table < length plan.schema.tables }
    ensures plan { IfOk result (λ made. made.0 ≡ plan) }
    ensures texts { IfOk result (λ made. AreTexts plan table made.1) }
{
    let _limits = plan.schema(); // there are at most 10,000 units
    let last = plan.units();
    let first = snapshot_text(rt, alloc, gate, plan, request, table, 0)?;
    let mut held = first.0;
    let mut inputs = Inputs::new(alloc);
    inputs.push(first.1)?;
    let mut changed = Changed {
        deleted: 0,
        updated: 0,
        inserted: 0,
    };
    for step in 0..last {
        let made = unit_shelf(rt, alloc, gate, held, request, table, step + 1)?;
        held = made.0;
        push_changes(alloc, &mut inputs, &mut changed, made.1.finished())?;
    }
    let end = snapshot_text(rt, alloc, gate, held, request, table, last)?;
    let texts = TableTexts {
        inputs,
        changed,
        last: end.1,
    };
    Ok((end.0, texts))
}

/// Appends a unit's streams to the other inputs, and counts their lines.
fn push_changes(
    alloc: Global,
    inputs: &mut Inputs,
    changed: &mut Changed,
    files: &Files,
) -> Result<(), Memory>
    requires three { length files.now ≡ 3 }
    requires few { AreFew changed.old }
    ensures inputs { OnOk result (inputs.new ≡ inputs.old ++ map (λ (file : File). file.bytes) files.now) }
    ensures deleted { OnOk result (changed.new.deleted ≡ changed.old.deleted + lines_in (file_at files.now 0).bytes) }
    ensures updated { OnOk result (changed.new.updated ≡ changed.old.updated + lines_in (file_at files.now 1).bytes) }
    ensures inserted { OnOk result (changed.new.inserted ≡ changed.old.inserted + lines_in (file_at files.now 2).bytes) }
    ensures little { OnOk result (RiseLittle changed.old changed.new) }
{
    changed.deleted += lines_in(files.bytes(0));
    changed.updated += lines_in(files.bytes(1));
    changed.inserted += lines_in(files.bytes(2));
    for place in 0..files.len() {
        inputs.push(Vec::from_slice(alloc, files.bytes(place))?)?;
    }
    Ok(())
}

/// Appends the line of a table.
fn push_line(text: &mut Vec<u8>, plan: &Plan, table: u32, texts: &TableTexts) -> Result<(), Memory>
    requires table { table < length plan.now.schema.tables }
    requires texts { AreTexts plan.now table texts.now }
    ensures { OnOk result (text.new.items ≡ text.old.items ++ table_line plan.now table) }
{
    let first = texts.inputs.get(0);
    let last = texts.last.as_slice();
    text.extend_from_slice(name_of(plan, table).as_bytes())?;
    text.push(b'\t')?;
    push_number(text, lines_in(first), b'\t')?;
    push_number(text, first.len() as u128, b'\t')?;
    push_number(text, texts.changed.deleted, b'\t')?;
    push_number(text, texts.changed.updated, b'\t')?;
    push_number(text, texts.changed.inserted, b'\t')?;
    push_number(text, lines_in(last), b'\t')?;
    push_number(text, last.len() as u128, b'\n')?;
    Ok(())
}

/// Returns how many lines a text has.
fn lines_in(text: &[u8]) -> u128
    ensures lines { result ≡ lines_in text.now }
    ensures few { result < 2 ^ 64 }
{
    text.iter().filter(|byte| **byte == b'\n').count() as u128
}

/// Returns the sum of the bytes of the text that the changes of a table make.
fn later_sum(alloc: Global, plan: &Plan, table: u32, texts: &TableTexts) -> Result<u128, Memory>
    requires table { table < length plan.now.schema.tables }
    requires texts { AreTexts plan.now table texts.now }
    ensures sum { IfOk result (λ total. (text : List ℕ) × IsLaterText plan.now table text × (total ≡ sum text)) }
    ensures few { IfOk result (λ total. total < 2 ^ 72) }
{
    let _limits = plan.schema(); // a plan is in its limits
    match apply_in_turn(
        alloc,
        texts.inputs.as_slice(),
        KeyFields::One,
        plan.delimiter(),
    ) {
        Ok(text) => Ok(sum_of(&text)),
        Err(told) if is_memory(told.fault) => Err(Memory),
        Err(_) => unreachable!(), // what the units change can be applied
    }
}

/// Whether a fault is want of memory, which no input causes.
fn is_memory(fault: ApplyFault) -> bool
    ensures memory { OnTrue result (fault ≡ ApplyFault.Memory) }
    ensures other { OnFalse result (fault ≢ ApplyFault.Memory) }
{
    matches!(fault, ApplyFault::Memory)
}

/// Returns the sum of the bytes of a text.
fn sum_of(text: &[u8]) -> u128
    ensures sum { result ≡ sum text.now }
    ensures few { result < 2 ^ 72 }
{
    let mut sum = 0u128;
    for byte in text {
        sum += u128::from(*byte);
    }
    sum
}
