//! What a request comes to, before anything is written.

ghost use Rattle.std.specs.Prelude.{◌≡◌, ◌≤◌, IfOk, Some};
ghost use Rattle.schema_facts.specs.Layout.{layout_of};
ghost use Rattle.schema_facts.specs.TableFacts.{reach};
ghost use Rattle.update_box.specs.Packages.{IsJobOf};
ghost use Rattle.run_jobs.specs.DueFiles.{most_page_bytes, page_bytes};
ghost use Rattle.run_jobs.specs.Jobs.{CanPack, CanPackBy};

use detail_plan::DetailPlan;
use life_intervals::JobOrders;
use line_pages::PageBuf;
use out_of_memory::Memory;
use plan_stages::Inputs;
use request_words::Request;
use schema_model::{Text as Name, Texts};
use schema_plan::Plan;
use std::alloc::Global;
use update_box::{PreparedTables, UnitRows};

/// All that is to be written.
pub enum Job {
    /// Bytes for the standard output.
    Text(Vec<u8>),
    /// A page whose text goes to the standard output.
    Page(PageBuf),
    /// The rows of tables at a unit.
    Snapshot(TablesJob),
    /// What a unit changes in tables.
    Unit(UnitJob),
    /// The rows of tables at a unit, or what the unit changes in them, as statements of SQL.
    Script(ScriptJob),
    /// The undo texts of tables: they take the texts from a unit back to the unit before.
    Undo(UndoJob),
    /// Texts, each for a file of its own.
    Files(FilesJob),
    /// The lines of a detail table, or what a unit changes in them.
    Details(DetailsJob),
}

impl Drop for Job {
    fn drop(self) {
        match self {
            Job::Text(it) => drop(it),
            Job::Page(it) => drop(it),
            Job::Snapshot(it) => drop(it),
            Job::Unit(it) => drop(it),
            Job::Script(it) => drop(it),
            Job::Undo(it) => drop(it),
            Job::Files(it) => drop(it),
            Job::Details(it) => drop(it),
        }
    }
}

/// What a request comes to.
#[derive(Drop)]
pub enum Task {
    /// Files are written.
    Write(Job),
    /// Units are played into a store, and a summary is written.
    Play(PlayJob),
}

/// Units to play into a store, from 0 up to a last one.
pub struct PlayJob {
    /// The plan whose units are played.
    pub plan: Plan,
    /// The orders that are kept for the plan's rows.
    pub orders: JobOrders,
    /// The last unit that is played.
    pub to: u64,
    /// The name of the store.
    pub store: Name,
    /// The summary's text: a line for each table, with how many rows it holds at the last unit.
    pub summary: Vec<u8>,
}

impl Drop for PlayJob {
    fn drop(self) {
        let PlayJob {
            plan,
            orders,
            to: _,
            store,
            summary,
        } = self;
        drop(plan);
        drop(orders);
        drop(store);
        drop(summary);
    }
}

impl PlayJob {
    /// Returns the summary.
    pub fn into_summary(self) -> Vec<u8>
        ensures { result ≡ self.summary }
    {
        let PlayJob {
            plan,
            orders,
            to: _,
            store,
            summary,
        } = self;
        drop(plan);
        drop(orders);
        drop(store);
        summary
    }
}

/// Texts, with the names of their files.
pub struct FilesJob {
    /// The names of the files, one for each text.
    pub names: Texts,
    /// The texts, in order.
    pub texts: Inputs,
}

impl Drop for FilesJob {
    fn drop(self) {
        let FilesJob { names, texts } = self;
        drop(names);
        drop(texts);
    }
}

/// A job over a plan's tables.
pub struct TablesJob {
    /// The plan.
    pub plan: Plan,
    /// What is prepared of the plan's tables.
    pub tables: PreparedTables,
    /// What is asked of the tables.
    pub asked: update_box::Job,
    /// The number of workers.
    pub workers: u32,
    /// The directory of the files; None for the standard output.
    pub out: Option<Name>,
}

impl Drop for TablesJob {
    fn drop(self) {
        let TablesJob {
            plan,
            tables,
            asked: _,
            workers: _,
            out,
        } = self;
        drop(plan);
        drop(tables);
        drop(out);
    }
}

impl TablesJob {
    /// Returns the plan.
    pub fn into_plan(self) -> Plan
        ensures { result ≡ self.plan }
    {
        let TablesJob {
            plan,
            tables,
            asked: _,
            workers: _,
            out,
        } = self;
        drop(tables);
        drop(out);
        plan
    }
}

/// A job of what a unit changes in a plan's tables.
pub struct UnitJob {
    /// The tables, and what is asked of them.
    pub of: TablesJob,
    /// The rows that the unit changes, as they were found.
    pub rows: UnitRows,
}

impl Drop for UnitJob {
    fn drop(self) {
        let UnitJob { of, rows } = self;
        drop(of);
        drop(rows);
    }
}

impl UnitJob {
    /// Returns the plan.
    pub fn into_plan(self) -> Plan
        ensures { result ≡ self.of.plan }
    {
        let UnitJob { of, rows } = self;
        drop(rows);
        of.into_plan()
    }

    /// Returns the job that tells the same as statements of SQL.
    pub fn into_script(self) -> ScriptJob
        ensures { result ≡ record { of = self.of; changes = Some self.rows } }
    {
        let UnitJob { of, rows } = self;
        ScriptJob {
            of,
            changes: Some(rows),
        }
    }
}

/// A job of statements of SQL over a plan's tables.
pub struct ScriptJob {
    /// The tables, and what is asked of them.
    pub of: TablesJob,
    /// What the unit changes in the tables, if that is told; None for the rows at the unit.
    pub changes: Option<UnitRows>,
}

impl Drop for ScriptJob {
    fn drop(self) {
        let ScriptJob { of, changes } = self;
        drop(of);
        drop(changes);
    }
}

/// A job of the undo texts of a plan's tables.
pub struct UndoJob {
    /// What the unit changes in the tables.
    pub of: UnitJob,
    /// The places that the deleted rows had at the unit before, table by table.
    pub places: Vec<Vec<u64>>,
}

impl Drop for UndoJob {
    fn drop(self) {
        let UndoJob { of, places } = self;
        drop(of);
        drop(places);
    }
}

/// Which text of a table or a detail table is made: its own at a unit, or what a unit changes in it.
#[derive(Clone, Copy)]
pub enum Told {
    Text,
    Changes,
}

/// A job of the lines of a detail table at a unit.
pub struct DetailsJob {
    /// The plan.
    pub plan: Plan,
    /// The detail table.
    pub kept: DetailPlan,
    /// The orders that are kept for the parent's rows.
    pub orders: JobOrders,
    /// The unit.
    pub unit: u64,
    /// How many rows of the parent make a package.
    pub size: u64,
    /// The number of workers.
    pub workers: u32,
    /// The names of the files; None for the standard output.
    pub names: Option<Texts>,
    /// What the unit changes in the parent, for the changes of the detail table; None for its text at the unit.
    pub changes: Option<UnitRows>,
}

impl Drop for DetailsJob {
    fn drop(self) {
        let DetailsJob {
            plan,
            kept,
            orders,
            unit: _,
            size: _,
            workers: _,
            names,
            changes,
        } = self;
        drop(plan);
        drop(kept);
        drop(orders);
        drop(names);
        drop(changes);
    }
}

/// Returns the job of what is asked of a plan's tables. The files go to a directory, or to the standard output if `out` is None.
/// Fails with `Memory` if memory runs out.
pub fn tables_job(
    alloc: Global,
    plan: Plan,
    asked: update_box::Job,
    request: &Request,
    out: Option<Name>,
) -> Result<TablesJob, Memory>
    requires asked { IsJobOf plan asked }
    requires ranges { CanPackBy request.now }
    requires pages { page_bytes request.now.workers asked.package (reach (layout_of plan)) ≤ most_page_bytes }
    ensures plan { IfOk result (λ job. job.plan ≡ plan) }
    ensures asked { IfOk result (λ job. job.asked ≡ asked) }
    ensures out { IfOk result (λ job. job.out ≡ out) }
    ensures workers { IfOk result (λ job. job.workers ≡ request.now.workers) }
    ensures can { IfOk result CanPack }
{
    let tables = PreparedTables::new(alloc, &plan, asked.unit, asked.table)?;
    Ok(TablesJob {
        plan,
        tables,
        asked,
        workers: request.workers,
        out,
    })
}

/// Returns a copy of a text.
pub fn copied_text(alloc: Global, text: &Name) -> Result<Name, Memory>
    ensures { IfOk result (λ made. made ≡ text.now) }
{
    match Name::of(alloc, text.as_str()) {
        Ok(made) => Ok(made),
        Err(_) => Err(Memory),
    }
}

/// Returns a copy of an optional name.
pub fn copied(alloc: Global, name: &Option<Name>) -> Result<Option<Name>, Memory>
    ensures { IfOk result (λ made. made ≡ name.now) }
{
    match name {
        None => Ok(None),
        Some(name) => Ok(Some(copied_text(alloc, name)?)),
    }
}
