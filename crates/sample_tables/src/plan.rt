//! The plan of a sample's schema.

ghost use Rattle.std.specs.Prelude.{◌≡◌, ◌≤◌, IfOk};
ghost use Rattle.sample_tables.specs.Schema.{sample_project};

use crate::schema::sample_of;
use out_of_memory::Memory;
use schema_check::{CheckFault, check};
use schema_facts::Dictionaries;
use schema_plan::Plan;
use std::alloc::Global;

/// Makes the plan of the schema of a size from 1 to 1,000. The schema breaks no rule, so this refuses only if memory is wanting.
pub fn sample_plan(alloc: Global, size: u64) -> Result<Plan, Memory>
    requires some { 1 ≤ size }
    requires limit { size ≤ 1000 }
    ensures { IfOk result (λ plan. plan ≡ sample_project size) }
{
    let schema = sample_of(alloc, size)?;
    match check(alloc, schema, Dictionaries::new(alloc)) {
        Ok(plan) => Ok(plan),
        Err(CheckFault::Memory) => Err(Memory),
        Err(CheckFault::Rule { .. }) => unreachable!(), // it breaks no rule
    }
}
