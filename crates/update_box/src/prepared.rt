//! What the lines of a job's tables need, prepared once for all packages.

ghost use Rattle.std.specs.Prelude.{◌≡◌, ◌≤◌, IfOk, length};
ghost use Rattle.life_intervals.specs.Generator.{last_unit};
ghost use Rattle.life_intervals.specs.JobOrders.{AreOrdersOf};
ghost use Rattle.update_box.specs.Packages.{IsChoice};
ghost use Rattle.update_box.specs.Prepared.{AreChosen, ArePrepared, IsAmong};

use crate::parts::{Places, places_of};
use life_intervals::{JobOrders, Rows};
use line_pages::Digits;
use out_of_memory::Memory;
use row_lines::{RunLines, TableLines};
use schema_plan::Plan;
use std::alloc::Global;
use std::marker::Model;

/// What the lines of a job's tables at a unit are made from: the orders of the tables and of the tables to which they refer, and the columns
/// of each table, prepared for runs. It is made once for a job, to find what a unit changes and to make all packages. A contract sees the
/// place of the first table, the orders and the lines.
pub struct PreparedTables {
    from: u32,
    orders: JobOrders,
    digits: Digits,
    lines: Vec<TableLines>,
}

impl Drop for PreparedTables {
    fn drop(self) {
        let PreparedTables {
            from: _,
            orders,
            digits,
            lines,
        } = self;
        drop(orders);
        drop(digits);
        drop(lines);
    }
}

impl Model for PreparedTables {
    ghost use Rattle.std.specs.Prelude.{◌≤◌, ◌^◌, length};
    ghost use Rattle.update_box.specs.Prepared.{Prepared};

    ghost Value = { Prepared };

    ghost view = { λ p. record { from = p.from; orders = p.orders; lines = p.lines.items } };

    ghost invariant = { λ p. length p.lines.items ≤ 64 };
}

impl PreparedTables {
    /// Prepares the lines at a unit for all tables, or for the table at a place. Returns `Memory` if memory runs out.
    pub fn new(
        alloc: Global,
        plan: &Plan,
        unit: u64,
        table: Option<u32>,
    ) -> Result<PreparedTables, Memory>
        requires unit { unit ≤ last_unit plan.now }
        requires table { IsChoice plan.now table }
        ensures tables { IfOk result (ArePrepared plan.now) }
        ensures chosen { IfOk result (AreChosen plan.now table) }
    {
        let _limits = plan.schema(); // there are at most 64 tables
        let Places { from, count } = places_of(plan, table);
        let Ok(orders) = JobOrders::new(alloc, plan, from, count, unit) else {
            return Err(Memory);
        };
        let digits = Digits::new(alloc)?;
        let mut lines = Vec::new(alloc);
        for number in 0..count {
            lines.push(TableLines::new(alloc, plan, from + number, unit)?)?;
        }
        Ok(PreparedTables {
            from,
            orders,
            digits,
            lines,
        })
    }

    /// Returns the rows of the plan with the prepared orders.
    pub fn rows<'a>(&'a self, plan: &'a Plan) -> Rows<'a>
        requires { AreOrdersOf plan.now self.now.orders }
        ensures { result ≡ plan.now }
    {
        Rows::with(plan, &self.orders)
    }

    /// Returns the places of the tables.
    pub(crate) fn places(&self) -> Places
        ensures from { result.from ≡ self.now.from }
        ensures count { result.count ≡ length self.now.lines }
    {
        Places {
            from: self.from,
            count: self.lines.len() as u32,
        }
    }

    /// Returns the texts of four digits.
    pub(crate) fn digits(&self) -> &Digits {
        &self.digits
    }

    /// Returns the lines at a unit of the rows of the table at a place. The table is a prepared one.
    pub fn lines_of<'a>(&'a self, rows: &'a Rows<'a>, unit: u64, place: u32) -> RunLines<'a>
        requires tables { ArePrepared rows.now self.now }
        requires among { IsAmong self.now place }
        requires unit { unit ≤ last_unit rows.now }
        ensures { result ≡ record { plan = rows.now; table = place; unit = unit } }
    {
        let lines = &self.lines[(place - self.from) as usize];
        RunLines::new(rows, lines, &self.digits, place, unit)
    }
}
