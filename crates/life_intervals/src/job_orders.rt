//! The orders that are kept for a job.

ghost use Rattle.std.specs.Prelude.{◌≡◌, ◌+◌, ◌<◌, ◌≤◌, ◌^◌, IfOk, IfSome, length};
ghost use Rattle.life_intervals.specs.CohortOrders.{order_for};
ghost use Rattle.life_intervals.specs.CohortParents.{IsReferenceOf, deal_by, window_by};
ghost use Rattle.life_intervals.specs.Generator.{last_unit};
ghost use Rattle.life_intervals.specs.JobOrders.{AreOrdersOf, entries_of};
ghost use Rattle.schema_plan.specs.declared.ready.ReadyReference.{ReadyReference};
ghost use Rattle.schema_facts.specs.Dictionaries.{Project};

use crate::asked::{asked_tables, least_size};
use crate::kept::{Room, TableOrders};
use crate::orders::Purpose;
use crate::window::CandidateWindow;
use id_permutation::Order;
use out_of_memory::Memory;
use schema_plan::Plan;
use std::alloc::Global;
use std::marker::Model;

/// The most entries that the tables of a job's orders have together. An entry has 2 bytes, so they take at most 16 MiB.
const MOST_ENTRIES: u64 = 1 << 23;

/// The most orders that are kept for a job. Each takes some 40 bytes, with what is kept beside it.
const MOST_ORDERS: u64 = 1 << 22;

/// The orders of cohorts that are kept for a job. For each table they are those of the first units, from 0 on. No contract tells
/// how places are found. Places in orders that aren't kept are found by rounds. A contract sees what is kept of each table.
pub struct JobOrders {
    tables: Vec<TableOrders>,
}

impl Drop for JobOrders {
    fn drop(self) {
        let JobOrders { tables } = self;
        drop(tables);
    }
}

impl Model for JobOrders {
    ghost use Rattle.std.specs.Prelude.{List};
    ghost use Rattle.life_intervals.specs.declared.kept.TableOrders.{TableOrders};

    ghost Value = { List TableOrders };

    ghost view = { λ j. j.tables.items };
}

impl JobOrders {
    /// Keeps the orders that a job asks for at unit `last`: for the lines of `count` tables from `from` on, and for what the unit
    /// changes in them. The tables to which their references lead are included. The tables of the orders' rounds have at most 2^23
    /// entries together, of 2 bytes each. The greatest cohorts come first. Keeps nothing at `Memory`.
    pub fn new(
        alloc: Global,
        plan: &Plan,
        from: u32,
        count: u32,
        last: u64,
    ) -> Result<JobOrders, Memory>
        requires tables { from + count ≤ length plan.now.schema.tables }
        requires unit { last ≤ last_unit plan.now }
        ensures orders { IfOk result (λ orders. AreOrdersOf plan.now orders) }
        ensures entries { IfOk result (λ orders. entries_of orders ≤ 2 ^ 23) }
    {
        JobOrders::of_job(alloc, plan, from, count, last, false)
    }

    /// Keeps the orders for a job that asks only for what the unit changes. Such a job asks for few rows of an older cohort, so
    /// tables pay only for the greatest cohorts. Keeps nothing at `Memory`.
    pub fn for_changes(
        alloc: Global,
        plan: &Plan,
        from: u32,
        count: u32,
        last: u64,
    ) -> Result<JobOrders, Memory>
        requires tables { from + count ≤ length plan.now.schema.tables }
        requires unit { last ≤ last_unit plan.now }
        ensures orders { IfOk result (λ orders. AreOrdersOf plan.now orders) }
        ensures entries { IfOk result (λ orders. entries_of orders ≤ 2 ^ 23) }
    {
        JobOrders::of_job(alloc, plan, from, count, last, true)
    }

    fn of_job(
        alloc: Global,
        plan: &Plan,
        from: u32,
        count: u32,
        last: u64,
        changes: bool,
    ) -> Result<JobOrders, Memory>
        requires tables { from + count ≤ length plan.now.schema.tables }
        requires unit { last ≤ last_unit plan.now }
        ensures orders { IfOk result (λ orders. AreOrdersOf plan.now orders) }
        ensures entries { IfOk result (λ orders. entries_of orders ≤ 2 ^ 23) }
    {
        let _limits = plan.schema(); // there are at most 64 tables
        let asked = asked_tables(alloc, plan, from, count)?;
        let mut room = Room {
            entries: MOST_ENTRIES,
            orders: MOST_ORDERS,
            least: least_size(plan, &asked, last, MOST_ENTRIES),
            changes,
        };
        let mut tables = Vec::new(alloc);
        for table in 0..from + count {
            let asked = asked[table as usize];
            tables.push(TableOrders::new(alloc, plan, table, asked, last, &mut room)?)?;
        }
        Ok(JobOrders { tables })
    }

    /// Returns the order of the rows of a table that are born at a unit, if it is kept.
    #[inline]
    pub(crate) fn order(&self, table: u32, purpose: Purpose, unit: u64) -> Option<Order<'_>>
        ensures { IfSome result (λ order. (plan : Project) → AreOrdersOf plan self.now → order ≡ order_for plan table purpose unit) }
    {
        match self.tables.get(table as usize) {
            Some(kept) => kept.order(purpose, unit),
            None => None,
        }
    }

    /// Returns the window of these rows by the reference in the column at a place, if it is kept.
    #[inline]
    pub(crate) fn window(&self, table: u32, column: u32, unit: u64) -> Option<CandidateWindow>
        ensures { IfSome result (λ window. (plan : Project) (reference : ReadyReference) → AreOrdersOf plan self.now → IsReferenceOf plan table column reference → window ≡ window_by plan reference unit) }
    {
        match self.tables.get(table as usize) {
            Some(kept) => kept.window(column, unit),
            None => None,
        }
    }

    /// Returns the order in which the candidates of these rows are dealt by the reference in the column at a place, if it is kept.
    #[inline]
    pub(crate) fn deal(&self, table: u32, column: u32, unit: u64) -> Option<Order<'_>>
        ensures { IfSome result (λ deal. (plan : Project) (reference : ReadyReference) → AreOrdersOf plan self.now → IsReferenceOf plan table column reference → deal ≡ deal_by plan table column reference unit) }
    {
        match self.tables.get(table as usize) {
            Some(kept) => kept.deal(column, unit),
            None => None,
        }
    }
}
