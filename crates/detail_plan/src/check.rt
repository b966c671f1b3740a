//! The check of a detail table.

ghost use Rattle.std.specs.Prelude.{◌≡◌, ◌++◌, Some, None, IfErr, IfOk};
ghost use Rattle.detail_plan.specs.Faults.{Tells};
ghost use Rattle.detail_plan.specs.Kept.{KeepsRules};
ghost use Rattle.detail_plan.specs.declared.check.DetailFault.TheVariants.{Memory as OutOfMemory};

use crate::beside::table_beside;
use crate::detail::Detail;
use crate::plan::DetailPlan;
use crate::rules::{first_broken, reach};
use out_of_memory::Memory;
use schema_facts::Dictionaries;
use schema_plan::Plan;
use std::alloc::Global;

/// Why a detail table has no plan.
#[derive(Clone, Copy, Debug, PartialEq, Eq)]
pub enum DetailFault {
    /// The first broken rule. The number 1 means E1.
    Rule { number: u32 },
    /// No memory was left to try the rules, or for the plan.
    Memory,
}

impl From<Memory> for DetailFault {
    ghost from_gives = { λ _ e. e ≡ OutOfMemory };

    fn from(_e: Memory) -> DetailFault {
        DetailFault::Memory
    }
}

/// Returns the plan of a detail table that keeps its rules over a schema's plan. Refuses any other for the first rule that it breaks. The
/// dictionaries that are handed in stand after those of the schema. At a fault the detail table and they are dropped.
pub fn check_detail(
    alloc: Global,
    plan: &Plan,
    detail: Detail,
    dictionaries: Dictionaries,
) -> Result<DetailPlan, DetailFault>
    ensures detail { IfOk result (λ kept. kept.detail ≡ detail) }
    ensures lists { IfOk result (λ kept. kept.lists ≡ plan.now.dictionaries ++ dictionaries) }
    ensures keeps { IfOk result (KeepsRules plan.now) }
    ensures refused { IfErr result (λ fault. Tells fault plan.now (plan.now.dictionaries ++ dictionaries) detail) }
{
    let lists = plan.dictionaries().followed_by(&dictionaries)?;
    let table = table_beside(alloc, &detail)?;
    let columns = table.columns.as_slice();
    let facts = plan.facts_beside(&table);
    if let Some(number) = first_broken(plan, &lists, &detail, columns, &facts) {
        return Err(DetailFault::Rule { number });
    }
    let _lists = lists.len(); // each is a word list
    let reach = reach(plan, &lists, &detail, columns);
    let ready = plan.ready_beside(alloc, &lists, columns)?;
    Ok(DetailPlan::of_accepted(detail, lists, ready, facts, reach))
}
