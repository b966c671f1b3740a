//! Mode check: a line for each table.

ghost use Rattle.std.specs.Prelude.{◌≡◌, ◌<◌, ◌∷◌, ◌++◌, ◌⊎◌, [], IfErr, IfOk, IsOk, OnOk, codes, decimal, length};
ghost use Rattle.plan_stages.specs.Stages.{Decides};
ghost use Rattle.refusals.specs.Statuses.{job_status};
ghost use Rattle.run_jobs.specs.Jobs.{due_of, CanFill};
ghost use Rattle.pdgf_run.specs.modes.Check.{check_due, check_line, check_lines, life_text};

use life_intervals::born;
use out_of_memory::Memory;
use refusals::JobFault;
use run_jobs::job::Job;
use run_jobs::names::name_of;
use run_jobs::numbers::push_number;
use schema_plan::Plan;
use std::alloc::Global;

/// Returns the job of a check of a plan's tables.
pub(crate) fn plan_check(alloc: Global, plan: &Plan) -> Result<Job, JobFault>
    ensures job { Decides job_status due_of result (check_due plan.now) }
    ensures refused { IfErr result (λ fault. (job_status fault ≡ 7) ⊎ (job_status fault ≡ 8)) }
    ensures in_range { IsOk (check_due plan.now) }
    ensures can { IfOk result CanFill }
{
    let text = check_text(alloc, plan)?;
    Ok(Job::Text(text))
}

/// Returns a line for each table: its name, the rows born in all units, its sure life, its cost and its longest line in bytes.
fn check_text(alloc: Global, plan: &Plan) -> Result<Vec<u8>, Memory>
    ensures { IfOk result (λ text. text.items ≡ check_lines plan.now (length plan.now.schema.tables)) }
{
    let mut text = Vec::new(alloc);
    for table in 0..plan.tables() {
        push_line(&mut text, plan, table)?;
    }
    Ok(text)
}

/// Appends the line of a table.
fn push_line(text: &mut Vec<u8>, plan: &Plan, table: u32) -> Result<(), Memory>
    requires { table < length plan.now.schema.tables }
    ensures { OnOk result (text.new.items ≡ text.old.items ++ check_line plan.now table) }
{
    text.extend_from_slice(name_of(plan, table).as_bytes())?;
    text.push(b'\t')?;
    push_number(text, u128::from(born(plan, table, plan.units())), b'\t')?;
    push_life(text, plan.sure_life(table))?;
    push_number(text, u128::from(plan.cost(table)), b'\t')?;
    push_number(text, u128::from(plan.max_line(table)), b'\n')
}

/// Appends the sure life of a table, or `none`, and a tab.
fn push_life(text: &mut Vec<u8>, life: Option<u64>) -> Result<(), Memory>
    ensures { OnOk result (text.new.items ≡ (text.old.items ++ life_text life) ++ codes "\t") }
{
    match life {
        Some(units) => push_number(text, u128::from(units), b'\t'),
        None => {
            text.extend_from_slice(b"none\t")?;
            Ok(())
        }
    }
}
