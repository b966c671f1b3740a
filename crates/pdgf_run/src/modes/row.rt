//! Mode row: the report on a row.

ghost use Rattle.std.specs.Prelude.{◌≡◌, ◌<◌, ◌≤◌, ◌+◌, ◌⊎◌, IfErr, IfOk, IfSome, IsOk, IsSome, OnErr, length};
ghost use Rattle.std.specs.Option.{option_map};
ghost use Rattle.line_pages.specs.Pages.{Page};
ghost use Rattle.schema_facts.specs.Layout.{layout_of};
ghost use Rattle.schema_facts.specs.TableFacts.{max_line};
ghost use Rattle.life_intervals.specs.Generator.{last_unit};
ghost use Rattle.plan_stages.specs.Stages.{Decides};
ghost use Rattle.refusals.specs.Statuses.{job_status};
ghost use Rattle.row_lines.specs.Reports.{report_on};
ghost use Rattle.run_jobs.specs.Jobs.{due_of, CanFill};
ghost use Rattle.pdgf_run.specs.modes.Row.{row_due};

use life_intervals::row_of_key;
use line_pages::PageBuf;
use out_of_memory::Memory;
use refusals::JobFault;
use request_words::{OptionName, Request};
use row_lines::row_report;
use run_jobs::asked::{is_past_last, named_table};
use run_jobs::job::Job;
use schema_plan::Plan;
use std::alloc::Global;
use std::sync::ledger::{Blank, Ledger};
use step_count::Steps;

/// The most bytes of a report without the row's line.
const BESIDE_LINE: usize = 128;

/// Returns the job of the report on a row of one of a plan's tables.
pub(crate) fn plan_row<B: Ledger>(
    alloc: Global,
    plan: Plan,
    request: &Request,
    blank: Blank,
) -> Result<Job, JobFault>
    requires name { blank.name ≡ B.name }
    requires parts { blank.parts ≡ B.parts }
    requires some { 0 < blank.parts }
    ensures job { Decides job_status due_of result (row_due request.now plan) }
    ensures refused { IfErr result (λ fault. (job_status fault ≡ 7) ⊎ (job_status fault ≡ 8)) }
    ensures in_range { IfErr result (λ fault. job_status fault ≡ 7 → IsOk (row_due request.now plan)) }
    ensures can { IfOk result CanFill }
{
    if is_past_last(&plan, request.unit) {
        return Err(JobFault::Range(OptionName::Unit));
    }
    let Some(table) = named_table(&plan, &request.table) else {
        return Err(JobFault::Range(OptionName::Table));
    };
    let Some(report) = row_text::<B>(alloc, &plan, table, request.key, request.unit, blank)? else {
        return Err(JobFault::Range(OptionName::Key));
    };
    Ok(Job::Page(report))
}

/// Returns the report at a unit on the row of a table that has a key. If no row has the key, returns None and takes no memory.
fn row_text<B: Ledger>(
    alloc: Global,
    plan: &Plan,
    table: u32,
    key: u64,
    unit: u64,
    blank: Blank,
) -> Result<Option<PageBuf>, Memory>
    requires name { blank.name ≡ B.name }
    requires parts { blank.parts ≡ B.parts }
    requires some { 0 < blank.parts }
    requires table { table < length plan.now.schema.tables }
    requires unit { unit ≤ last_unit plan.now }
    ensures text { IfOk result (λ page. option_map (λ (p : Page). p.text) page ≡ report_on plan.now table unit key) }
    ensures room { IfOk result (λ page. IfSome page (λ (p : Page). p.room ≤ 128 + max_line (layout_of plan.now) table)) }
    ensures memory { OnErr result (IsSome (report_on plan.now table unit key)) }
{
    let _limits = plan.schema(); // a line has at most 65,536 bytes
    let mut steps = Steps::<B>::new(blank);
    if row_of_key(plan, table, key, &mut steps).is_none() {
        return Ok(None);
    }
    let mut page = PageBuf::with_room(alloc, BESIDE_LINE + plan.max_line(table) as usize)?;
    if row_report(plan, table, key, unit, &mut page, &mut steps) {
        Ok(Some(page))
    } else {
        Ok(None)
    }
}
