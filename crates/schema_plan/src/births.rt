//! How many rows of each table are born at each unit, by the schema.

ghost use Rattle.std.specs.Prelude.{◌≡◌, ◌≤◌, All, IfOk, map};
ghost use Rattle.cohort_sizes.specs.Births.{cohort_size};
ghost use Rattle.schema_facts.specs.Layout.{births_of, rate_of};
ghost use Rattle.schema_plan.specs.Limits.{AreBirthsInLimits};
ghost use Rattle.schema_plan.specs.Planned.{births_through};

use cohort_sizes::{Cohorts, Rate};
use out_of_memory::Memory;
use schema_facts::count;
use schema_model::{Phase, Table};
use std::alloc::Global;

/// Returns how many rows of a table are born at a unit, for any list of phases.
pub fn cohort_size(table: &Table, unit: u64) -> u64
    ensures { result ≡ cohort_size (births_of table.now) unit }
{
    if unit == 0 {
        return count(table.rows);
    }
    let mut size = 0;
    for phase in table.insert.as_slice() {
        if count(phase.from) <= unit {
            size = count(phase.rate);
        }
    }
    size
}

/// Returns the cohorts of each table from unit 0 to a last one, in the order of the tables.
pub(crate) fn cohorts_of_tables(
    alloc: Global,
    tables: &[Table],
    last: u64,
) -> Result<Vec<Cohorts>, Memory>
    requires last { last ≤ 10000 }
    requires births { All (λ table. AreBirthsInLimits last (births_of table)) tables.now }
    ensures { IfOk result (λ cohorts. cohorts.items ≡ map (births_through last) tables.now) }
{
    let mut cohorts = Vec::with_capacity(alloc, tables.len())?;
    for table in tables {
        cohorts.push(cohorts_of(alloc, table, last)?)?;
    }
    Ok(cohorts)
}

/// Returns the cohorts of a table from unit 0 to a last one.
fn cohorts_of(alloc: Global, table: &Table, last: u64) -> Result<Cohorts, Memory>
    requires last { last ≤ 10000 }
    requires births { AreBirthsInLimits last (births_of table.now) }
    ensures { IfOk result (λ cohorts. cohorts ≡ births_through last table.now) }
{
    let rates = rates_of(alloc, table.insert.as_slice())?;
    Cohorts::new(alloc, count(table.rows), rates, last)
}

/// Returns the rates of some phases, in order.
fn rates_of(alloc: Global, phases: &[Phase]) -> Result<Vec<Rate>, Memory>
    ensures { IfOk result (λ rates. rates.items ≡ map rate_of phases.now) }
{
    let mut rates = Vec::with_capacity(alloc, phases.len())?;
    for phase in phases {
        rates.push(Rate {
            from: count(phase.from),
            rows: count(phase.rate),
        })?;
    }
    Ok(rates)
}
