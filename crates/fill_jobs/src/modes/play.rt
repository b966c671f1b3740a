//! Mode play: plays units into a store.

ghost use Rattle.std.specs.Prelude.{◌≡◌, ◌<◌, ◌≤◌, ◌++◌, ◌⊎◌, IfErr, IfOk, OnOk, codes, decimal, length, IsOk};
ghost use Rattle.life_intervals.specs.Generator.{last_unit};
ghost use Rattle.life_intervals.specs.JobOrders.{AreOrdersOf};
ghost use Rattle.plan_stages.specs.Stages.{Decides};
ghost use Rattle.refusals.specs.Statuses.{job_status};
ghost use Rattle.run_jobs.specs.DueFiles.{text_files};
ghost use Rattle.fill_jobs.specs.Playing.{CanPlay};
ghost use Rattle.run_jobs.specs.declared.job.PlayJob.{PlayJob as Played};
ghost use Rattle.fill_jobs.specs.modes.Play.{play_due, play_lines};

use life_intervals::{JobOrders, Rows};
use out_of_memory::Memory;
use refusals::JobFault;
use request_words::{OptionName, Request};
use run_jobs::asked::is_past_last;
use run_jobs::job::{PlayJob, copied_text};
use run_jobs::names::name_of;
use run_jobs::numbers::push_number;
use schema_plan::Plan;
use std::alloc::Global;
use std::sync::ledger::{Blank, Ledger};
use step_count::Steps;
use undo_streams::count_living;

/// Returns the job that plays the units of a request. It counts rows here, and puts no row into the store.
pub fn plan_play<B: Ledger>(
    alloc: Global,
    plan: Plan,
    request: &Request,
    blank: Blank,
) -> Result<PlayJob, JobFault>
    requires name { blank.name ≡ B.name }
    requires parts { blank.parts ≡ B.parts }
    requires some { 0 < blank.parts }
    ensures job { Decides job_status (λ (job : Played). text_files job.summary.items) result (play_due request.now plan) }
    ensures in_range { IfErr result (λ fault. job_status fault ≡ 7 → IsOk (play_due request.now plan)) }
    ensures refused { IfErr result (λ fault. (job_status fault ≡ 7) ⊎ (job_status fault ≡ 8)) }
    ensures can { IfOk result CanPlay }
    ensures plan { IfOk result (λ job. job.plan ≡ plan) }
    ensures to { IfOk result (λ job. job.to ≡ request.now.to) }
    ensures store { IfOk result (λ job. job.store ≡ request.now.store) }
{
    if is_past_last(&plan, request.to) {
        return Err(JobFault::Range(OptionName::To));
    }
    let Ok(orders) = JobOrders::new(alloc, &plan, 0, plan.tables(), request.to) else {
        return Err(JobFault::Memory);
    };
    let summary = summary_of::<B>(alloc, &plan, &orders, request.to, blank)?;
    let Ok(store) = copied_text(alloc, &request.store) else {
        return Err(JobFault::Memory);
    };
    Ok(PlayJob {
        plan,
        orders,
        to: request.to,
        store,
        summary,
    })
}

/// Returns a line for each table: its name, and how many rows it holds at a unit.
fn summary_of<B: Ledger>(
    alloc: Global,
    plan: &Plan,
    orders: &JobOrders,
    unit: u64,
    blank: Blank,
) -> Result<Vec<u8>, Memory>
    requires name { blank.name ≡ B.name }
    requires parts { blank.parts ≡ B.parts }
    requires some { 0 < blank.parts }
    requires orders { AreOrdersOf plan.now orders.now }
    requires unit { unit ≤ last_unit plan.now }
    ensures { IfOk result (λ text. text.items ≡ play_lines plan.now unit (length plan.now.schema.tables)) }
{
    let mut steps = Steps::<B>::new(blank);
    let rows = Rows::with(plan, orders);
    let mut text = Vec::new(alloc);
    for table in 0..plan.tables() {
        let count = count_living(&rows, table, unit, &mut steps);
        push_line(&mut text, name_of(plan, table), count)?;
    }
    Ok(text)
}

/// Appends the line of a table: its name, and how many rows it holds.
fn push_line(text: &mut Vec<u8>, name: &str, count: u64) -> Result<(), Memory>
    ensures { OnOk result (text.new.items ≡ text.old.items ++ (name.now ++ codes "\t" ++ decimal count ++ codes "\n")) }
{
    text.extend_from_slice(name.as_bytes())?;
    text.push(b'\t')?;
    push_number(text, u128::from(count), b'\n')
}
