//! Jobs, and the contents of their tables.

ghost use Rattle.std.specs.Prelude.{◌≡◌, ◌<◌, ◌≤◌, ◌+◌, length};
ghost use Rattle.std.specs.List.{range_with_len};
ghost use Rattle.update_box.specs.Packages.{IsChoice, chosen_places};

use schema_plan::Plan;

/// What a file holds of a table: its rows at a unit, or the rows that the unit deletes, updates or inserts.
#[derive(Clone, Copy, Debug, PartialEq, Eq)]
pub enum Content {
    /// The lines of the rows that the table holds at the unit.
    Snapshot,
    /// The key lines of the rows that the unit deletes.
    Deleted,
    /// The lines of the rows that the unit updates.
    Updated,
    /// The lines of the rows that the unit inserts.
    Inserted,
}

/// Which tables are written at a unit, and for which node.
#[derive(Clone, Copy, Debug, PartialEq, Eq)]
pub struct Job {
    /// The unit.
    pub unit: u64,
    /// The place of the chosen table, or None for all tables.
    pub table: Option<u32>,
    /// The greatest number of entries of a package, 1 to 1,000,000.
    pub package: u64,
    /// The node, counted from 0.
    pub node: u64,
    /// The number of nodes that share the job, 1 to 1,024.
    pub nodes: u64,
}

/// The places of `count` tables, from place `from` on.
#[derive(Clone, Copy, Debug, PartialEq, Eq)]
pub struct Places {
    /// The place of the first table.
    pub from: u32,
    /// The number of tables.
    pub count: u32,
}

/// Returns the places of the chosen tables: one place, or all if no table is named.
pub fn places_of(plan: &Plan, table: Option<u32>) -> Places
    requires table { IsChoice plan.now table }
    ensures places { range_with_len result.from result.count ≡ chosen_places plan.now table }
    ensures within { result.from + result.count ≤ length plan.now.schema.tables }
    ensures some { 1 ≤ result.count }
    ensures few { result.count ≤ 64 }
{
    let _limits = plan.schema(); // there are 1 to 64 tables
    match table {
        None => Places {
            from: 0,
            count: plan.tables(),
        },
        Some(from) => Places { from, count: 1 },
    }
}
