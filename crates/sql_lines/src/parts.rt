//! The parts of a job as statements.

ghost use Rattle.std.specs.Prelude.{◌≡◌, ◌≤◌, ◌<◌, ◌+◌, ◌^◌, length};
ghost use Rattle.update_box.specs.Cuts.{cut_at};
ghost use Rattle.update_box.specs.Packages.{IsJobOf};
ghost use Rattle.update_box.specs.TableLists.{HasLists};
ghost use Rattle.update_box.specs.UnitLists.{table_lists};
ghost use Rattle.sql_lines.specs.Packages.{AreRowsOf, row_count, rows_stated};
ghost use Rattle.sql_lines.specs.Script.{packages_of_part};

use crate::stated::Stated;
use life_intervals::{born, cohort};
use schema_plan::Plan;
use update_box::{Content, Job, UnitRows};

/// The entries from position `first` up to position `end`.
#[derive(Clone, Copy)]
struct Entries {
    first: u64,
    end: u64,
}

/// Returns the share of `count` entries for a job's node.
fn share_of(job: &Job, count: u64) -> Entries
    requires count { count ≤ 2 ^ 40 }
    requires node { job.now.node < job.now.nodes }
    requires node_limit { job.now.nodes ≤ 1024 }
    ensures first { result.first ≡ cut_at count job.now.node job.now.nodes }
    ensures end { result.end ≡ cut_at count (job.now.node + 1) job.now.nodes }
    ensures ordered { result.first ≤ result.end }
    ensures within { result.end ≤ count }
{
    Entries {
        first: count * job.node / job.nodes,
        end: count * (job.node + 1) / job.nodes,
    }
}

/// Returns the insertions of a job's share of the rows that a table holds at its unit.
pub(crate) fn held_stated<'a>(plan: &Plan, job: &Job, table: u32) -> Stated<'a>
    requires job { IsJobOf plan.now job.now }
    requires table { table < length plan.now.schema.tables }
    ensures rows { rows_stated result ≡ (packages_of_part plan.now job.now (record { place = table; content = Content.Snapshot })).rows }
    ensures are { AreRowsOf plan.now table (rows_stated result) }
    ensures few { row_count (rows_stated result) ≤ 2 ^ 40 }
{
    let _limits = plan.table(table); // it has at most 2^40 rows
    let share = share_of(job, born(plan, table, job.unit));
    Stated::Inserted {
        from: share.first,
        to: share.end,
        unit: job.unit,
    }
}

/// Returns the statements of a job's share of a content of a table. The lists are those of the job's unit.
pub(crate) fn changes_stated<'a>(
    plan: &Plan,
    lists: &'a UnitRows,
    job: &Job,
    table: u32,
    content: Content,
) -> Stated<'a>
    requires job { IsJobOf plan.now job.now }
    requires table { table < length plan.now.schema.tables }
    requires lists { HasLists plan.now job.now.unit lists.now table }
    ensures rows { rows_stated result ≡ (packages_of_part plan.now job.now (record { place = table; content = content })).rows }
    ensures are { AreRowsOf plan.now table (rows_stated result) }
    ensures few { row_count (rows_stated result) ≤ 2 ^ 40 }
{
    let _sound = plan.schema(); // so the simulation is its closed form
    match content {
        Content::Snapshot => held_stated(plan, job, table),
        Content::Deleted => deleted_stated(plan, lists.dels(table), job, table),
        Content::Updated => updated_stated(plan, lists.upds(table), job, table),
        Content::Inserted => inserted_stated(plan, job, table),
    }
}

/// Returns the deletions of a job's share of the rows that its unit deletes.
fn deleted_stated<'a>(plan: &Plan, ordinals: &'a [u64], job: &Job, table: u32) -> Stated<'a>
    requires job { IsJobOf plan.now job.now }
    requires table { table < length plan.now.schema.tables }
    requires list { ordinals.now ≡ (table_lists plan.now job.now.unit table).deleted }
    ensures rows { rows_stated result ≡ (packages_of_part plan.now job.now (record { place = table; content = Content.Deleted })).rows }
    ensures are { AreRowsOf plan.now table (rows_stated result) }
    ensures few { row_count (rows_stated result) ≤ 2 ^ 40 }
{
    let _sound = plan.schema(); // so each of them is born before
    let _limits = plan.table(table); // and there are at most 2^40
    let share = share_of(job, ordinals.len() as u64);
    Stated::Deleted {
        ordinals: &ordinals[share.first as usize..share.end as usize],
    }
}

/// Returns the updates of a job's share of the rows that its unit updates.
fn updated_stated<'a>(plan: &Plan, ordinals: &'a [u64], job: &Job, table: u32) -> Stated<'a>
    requires job { IsJobOf plan.now job.now }
    requires table { table < length plan.now.schema.tables }
    requires list { ordinals.now ≡ (table_lists plan.now job.now.unit table).updated }
    ensures rows { rows_stated result ≡ (packages_of_part plan.now job.now (record { place = table; content = Content.Updated })).rows }
    ensures are { AreRowsOf plan.now table (rows_stated result) }
    ensures few { row_count (rows_stated result) ≤ 2 ^ 40 }
{
    let _sound = plan.schema(); // so each of them is born before, and alive
    let _limits = plan.table(table); // and there are at most 2^40
    let share = share_of(job, ordinals.len() as u64);
    Stated::Updated {
        ordinals: &ordinals[share.first as usize..share.end as usize],
        unit: job.unit,
    }
}

/// Returns the insertions of a job's share of the rows that its unit inserts.
fn inserted_stated<'a>(plan: &Plan, job: &Job, table: u32) -> Stated<'a>
    requires job { IsJobOf plan.now job.now }
    requires table { table < length plan.now.schema.tables }
    ensures rows { rows_stated result ≡ (packages_of_part plan.now job.now (record { place = table; content = Content.Inserted })).rows }
    ensures are { AreRowsOf plan.now table (rows_stated result) }
    ensures few { row_count (rows_stated result) ≤ 2 ^ 40 }
{
    let _limits = plan.table(table); // it has at most 2^40 rows
    let born = cohort(plan, table, job.unit);
    let share = share_of(job, born.size);
    Stated::Inserted {
        from: born.first + share.first,
        to: born.first + share.end,
        unit: job.unit,
    }
}
