//! Files of tables as statements of SQL.

ghost use Rattle.std.specs.Prelude.{◌≡◌, ◌<◌, ◌≤◌, ◌+◌, ◌++◌, ◌∷◌, ◌^◌, [], All, false, IfOk, IsErrOf, OnOk, length, map, reverse};
ghost use Rattle.std.specs.List.{range_with_len, sum_by};
ghost use Rattle.std.specs.Option.{option_map};
ghost use Rattle.pd_outside.specs.Faults.{FailedAtLast, Unfailed};
ghost use Rattle.pd_outside.specs.Shelf.{HoldsPrefixOf, finish_files};
ghost use Rattle.range_workers.specs.Marks.{AreMarksOf, due_files};
ghost use Rattle.update_box.specs.Cuts.{text_in};
ghost use Rattle.update_box.specs.Packages.{chosen_places};
ghost use Rattle.update_box.specs.Parts.{parts_at, parts_of};
ghost use Rattle.sql_lines.specs.Packages.{count_of, text_numbered};
ghost use Rattle.sql_lines.specs.Script.{packages_of_part};
ghost use Rattle.run_jobs.specs.DueFiles.{told_by};
ghost use Rattle.run_jobs.specs.Formats.{file_name, in_directory};
ghost use Rattle.run_jobs.specs.Jobs.{CanState, IsPartOf};
ghost use Rattle.run_jobs.specs.SqlFiles.{parts_told, statement_files};

use out_of_memory::Memory;
use pd_outside::{Gate, Shelf};
use range_workers::{Marks, RunFault, run};
use request_words::Format;
use run_jobs::job::ScriptJob;
use run_jobs::joined::Joined;
use run_jobs::names::{Directory, put};
use run_jobs::outputs::{SNAPSHOT_CONTENTS, STANDARD_OUTPUT, UNIT_CONTENTS};
use schema_model::Texts;
use sql_lines::StatementPacker;
use std::alloc::Global;
use std::marker::Model;
use std::thread::Threads;
use update_box::{Content, Places, places_of};

/// A table by its place, with what is told of it.
#[derive(Drop)]
struct TablePart {
    table: u32,
    content: Content,
}

impl Model for TablePart {
    ghost use Rattle.update_box.specs.Parts.{Part};

    ghost Value = { Part };

    ghost view = { λ p. record { place = p.table; content = p.content } };
}

// ---- the parts, in the order in which they are written

/// Appends contents of a table to parts.
fn push_table(parts: &mut Vec<TablePart>, table: u32, contents: &[Content]) -> Result<(), Memory>
    ensures { OnOk result (parts.new.items ≡ parts.old.items ++ parts_at contents.now table) }
{
    match contents {
        [] => Ok(()),
        [content, rest @ ..] => {
            let content = *content;
            parts.push(TablePart { table, content })?;
            push_table(parts, table, rest)
        }
    }
}

/// Appends contents of tables to parts, from the first table to the last.
fn push_tables(
    parts: &mut Vec<TablePart>,
    places: Places,
    contents: &[Content],
) -> Result<(), Memory>
    requires { places.from + places.count ≤ 64 }
    ensures { OnOk result (parts.new.items ≡ parts.old.items ++ parts_of contents.now (range_with_len places.from places.count)) }
{
    for number in 0..places.count {
        push_table(parts, places.from + number, contents)?;
    }
    Ok(())
}

/// Appends contents of tables to parts, from the last table to the first.
fn push_backwards(
    parts: &mut Vec<TablePart>,
    places: Places,
    contents: &[Content],
) -> Result<(), Memory>
    requires { places.from + places.count ≤ 64 }
    ensures { OnOk result (parts.new.items ≡ parts.old.items ++ parts_of contents.now (reverse (range_with_len places.from places.count))) }
{
    for behind in 0..places.count {
        let number = places.count - 1 - behind;
        push_table(parts, places.from + number, contents)?;
    }
    Ok(())
}

/// Appends the parts of the script of a unit. A row refers to rows of earlier tables only. So rows are updated and inserted from the first
/// table to the last, and deleted from the last one to the first.
fn push_script(parts: &mut Vec<TablePart>, places: Places) -> Result<(), Memory>
    requires { places.from + places.count ≤ 64 }
    ensures { OnOk result (parts.new.items ≡ parts.old.items
        ++ parts_of (Content.Updated ∷ []) (range_with_len places.from places.count)
        ++ parts_of (Content.Deleted ∷ []) (reverse (range_with_len places.from places.count))
        ++ parts_of (Content.Inserted ∷ []) (range_with_len places.from places.count)) }
{
    push_tables(parts, places, &[Content::Updated])?;
    push_backwards(parts, places, &[Content::Deleted])?;
    push_tables(parts, places, &[Content::Inserted])
}

/// Appends the parts of a job: for files in a directory table by table, and for the standard output as a script.
fn push_told(parts: &mut Vec<TablePart>, job: &ScriptJob, places: Places) -> Result<(), Memory>
    requires few { places.from + places.count ≤ 64 }
    requires chosen { range_with_len places.from places.count ≡ chosen_places job.now.of.plan job.now.of.asked.table }
    ensures { OnOk result (parts.new.items ≡ parts.old.items
        ++ parts_told (told_by job.now.changes) job.now.of.plan job.now.of.out job.now.of.asked.table) }
{
    match (&job.changes, &job.of.out) {
        (None, _) => push_tables(parts, places, SNAPSHOT_CONTENTS.as_slice()),
        (Some(_), Some(_)) => push_tables(parts, places, UNIT_CONTENTS.as_slice()),
        (Some(_), None) => push_script(parts, places),
    }
}

/// Returns the parts of a job, in the order in which they are written.
fn told_parts(alloc: Global, job: &ScriptJob) -> Result<Vec<TablePart>, Memory>
    requires can { CanState job.now }
    ensures parts { IfOk result (λ parts. parts.items ≡ parts_told (told_by job.now.changes) job.now.of.plan job.now.of.out job.now.of.asked.table) }
    ensures are { IfOk result (λ parts. All (IsPartOf job.now) parts.items) }
    ensures some { IfOk result (λ parts. 0 < length parts.items) }
    ensures few { IfOk result (λ parts. length parts.items ≤ 192) }
{
    let _limits = job.of.plan.schema(); // there are 1 to 64 tables
    let places = places_of(&job.of.plan, job.of.asked.table);
    let mut parts = Vec::new(alloc);
    push_told(&mut parts, job, places)?;
    Ok(parts)
}

// ---- their statements

/// Returns the packer of the statements of a part of a job.
fn packer_of<'a>(
    alloc: Global,
    job: &'a ScriptJob,
    part: &TablePart,
) -> Result<StatementPacker<'a>, Memory>
    requires can { CanState job.now }
    requires part { IsPartOf job.now part.now }
    ensures packages { IfOk result (λ packer. packer ≡ packages_of_part job.now.of.plan job.now.of.asked part.now) }
    ensures few { IfOk result (λ packer. count_of packer ≤ 2 ^ 41) }
{
    let of = &job.of;
    match &job.changes {
        None => StatementPacker::of_held(alloc, &of.plan, &of.tables, &of.asked, part.table),
        Some(changes) => StatementPacker::of_changes(
            alloc,
            &of.plan,
            &of.tables,
            changes,
            &of.asked,
            part.table,
            part.content,
        ),
    }
}

/// Returns the packers of the statements of a job's parts, one after the other.
fn packers_of<'a>(
    alloc: Global,
    job: &'a ScriptJob,
    parts: &[TablePart],
) -> Result<Joined<StatementPacker<'a>>, Memory>
    requires can { CanState job.now }
    requires are { All (IsPartOf job.now) parts.now }
    requires few { length parts.now ≤ 192 }
    ensures { IfOk result (λ packers. packers.parts.items ≡ map (packages_of_part job.now.of.plan job.now.of.asked) parts.now) }
{
    let mut packers = Joined::new(alloc);
    for part in parts {
        let packer = packer_of(alloc, job, part)?;
        packers.push(packer)?;
    }
    Ok(packers)
}

// ---- their files

/// Returns the paths of the files that hold a job's parts in a directory.
fn paths_of(
    alloc: Global,
    job: &ScriptJob,
    directory: &str,
    parts: &[TablePart],
) -> Result<Texts, Memory>
    requires can { CanState job.now }
    requires are { All (IsPartOf job.now) parts.now }
    ensures { IfOk result (λ paths. paths
        ≡ map (λ part. in_directory directory.now (file_name Format.Sql job.now.of.plan.schema job.now.of.asked.unit part)) parts.now) }
{
    let of = &job.of;
    let directory = Directory {
        plan: &of.plan,
        name: directory,
        format: Format::Sql,
    };
    let mut paths = Texts::new(alloc);
    for part in parts {
        let path = directory.path(alloc, part.table, of.asked.unit, part.content)?;
        put(&mut paths, path)?;
    }
    Ok(paths)
}

/// Returns the marks of a job's files: one for each part in a directory, or one for the standard output.
fn marks_of(
    alloc: Global,
    job: &ScriptJob,
    parts: &[TablePart],
    packers: &Joined<StatementPacker<'_>>,
) -> Result<Marks, Memory>
    requires can { CanState job.now }
    requires parts { parts.now ≡ parts_told (told_by job.now.changes) job.now.of.plan job.now.of.out job.now.of.asked.table }
    requires are { All (IsPartOf job.now) parts.now }
    requires some { 0 < length parts.now }
    requires packers { packers.now.parts.items ≡ map (packages_of_part job.now.of.plan job.now.of.asked) parts.now }
    ensures marks { IfOk result (AreMarksOf (sum_by count_of packers.now.parts.items)) }
    ensures files { IfOk result (λ marks. due_files (text_in count_of text_numbered packers.now.parts.items) (sum_by count_of packers.now.parts.items) marks
        ≡ statement_files (told_by job.now.changes) job.now.of.plan job.now.of.out job.now.of.asked) }
{
    let _limits = job.of.plan.schema(); // so the packages of a part make its text
    match &job.of.out {
        None => packers.mark_of_all(alloc, STANDARD_OUTPUT),
        Some(out) => {
            let paths = paths_of(alloc, job, out.as_str(), parts)?;
            packers.marks(alloc, &paths)
        }
    }
}

/// Writes the files of statements, by the job's workers. All memory is taken before the first file is begun.
pub fn write_script<R: Threads + Sync, S: Shelf, G: Gate + Sync>(
    rt: &R,
    alloc: Global,
    job: &ScriptJob,
    shelf: &mut S,
    gate: &G,
) -> Result<(), RunFault>
    requires can { CanState job.now }
    requires none_begun { S.is_begun shelf.old ≡ false }
    ensures files { OnOk result (S.held shelf.new
        ≡ option_map (finish_files (statement_files (told_by job.now.changes) job.now.of.plan job.now.of.out job.now.of.asked)) (S.held shelf.old)) }
    ensures prefix { IsErrOf result RunFault.Write →
        HoldsPrefixOf (statement_files (told_by job.now.changes) job.now.of.plan job.now.of.out job.now.of.asked) (S.held shelf.old) (S.held shelf.new) }
    ensures failed { IsErrOf result RunFault.Write → FailedAtLast (S.counts shelf.old) (S.counts shelf.new) }
    ensures memory { IsErrOf result RunFault.Memory → shelf.new ≡ shelf.old }
    ensures unfailed { OnOk result (Unfailed (S.counts shelf.old) (S.counts shelf.new)) }
    ensures none_begun { OnOk result (S.is_begun shelf.new ≡ false) }
{
    let parts = match told_parts(alloc, job) {
        Ok(parts) => parts,
        Err(Memory) => return Err(RunFault::Memory),
    };
    let packers = match packers_of(alloc, job, parts.as_slice()) {
        Ok(packers) => packers,
        Err(Memory) => return Err(RunFault::Memory),
    };
    let marks = match marks_of(alloc, job, parts.as_slice(), &packers) {
        Ok(marks) => marks,
        Err(Memory) => return Err(RunFault::Memory),
    };
    run(rt, alloc, &packers, &marks, job.of.workers, shelf, gate)
}
