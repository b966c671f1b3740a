//! What files in CSV begin with: the names of their columns, if a request asks for them.

ghost use Rattle.std.specs.Prelude.{◌≡◌, ◌<◌, ◌++◌, ◌∷◌, [], IfOk, OnOk, length, map};
ghost use Rattle.schema_plan.specs.Rules.{column_names};
ghost use Rattle.update_box.specs.Packages.{IsJobOf};
ghost use Rattle.run_jobs.specs.CsvFiles.{job_headings};
ghost use Rattle.run_jobs.specs.Formats.{header_at, heading_of, names_for};

use crate::job::TablesJob;
use crate::names::{copy_of, put};
use csv_face::names_text;
use out_of_memory::Memory;
use plan_stages::Inputs;
use request_words::{Header, Request};
use schema_model::{Text, Texts};
use schema_plan::Plan;
use std::alloc::Global;
use update_box::{Content, places_of};

/// Returns the names of a table's columns.
pub fn column_names(alloc: Global, plan: &Plan, table: u32) -> Result<Texts, Memory>
    requires { table < length plan.now.schema.tables }
    ensures { IfOk result (λ names. names ≡ column_names plan.now.schema table) }
{
    let columns = &plan.table(table).columns;
    let mut names = Texts::new(alloc);
    for place in 0..columns.len() {
        let name = copy_of(alloc, columns.get(place).name.as_str())?;
        put(&mut names, name)?;
    }
    Ok(names)
}

/// Returns the names of the columns of a file that holds a content of a table. What a unit deletes has the key alone.
pub fn names_for<'a>(names: &'a [Text], content: Content) -> &'a [Text]
    ensures { result.now ≡ names_for names.entry.now content }
{
    match content {
        Content::Deleted => &names[..names.len().min(1)],
        Content::Snapshot | Content::Updated | Content::Inserted => names,
    }
}

/// Returns what a file with such columns begins with.
pub fn heading_of(alloc: Global, header: Header, names: &[Text]) -> Result<Vec<u8>, Memory>
    ensures { IfOk result (λ heading. heading.items ≡ heading_of header names.now) }
{
    match header {
        Header::None => Ok(Vec::new(alloc)),
        Header::Names => names_text(alloc, names),
    }
}

/// Returns what the files of a node's shares begin with. Only share 0 can begin with names.
fn header_at(node: u64, asked: Header) -> Header
    ensures { result ≡ header_at node asked }
{
    if node == 0 { asked } else { Header::None }
}

/// Appends a text to others.
fn push(texts: &mut Inputs, text: Vec<u8>) -> Result<(), Memory>
    ensures { OnOk result (texts.new ≡ texts.old ++ text.items ∷ []) }
{
    match texts.push(text) {
        Ok(()) => Ok(()),
        Err(_) => Err(Memory),
    }
}

/// Appends what the files of some contents of a table begin with. The table has columns with such names.
fn push_headings(
    alloc: Global,
    headings: &mut Inputs,
    header: Header,
    names: &[Text],
    contents: &[Content],
) -> Result<(), Memory>
    ensures { OnOk result (headings.new ≡ headings.old ++ map (λ content. heading_of header (names_for names.now content)) contents.now) }
{
    match contents {
        [] => Ok(()),
        [content, rest @ ..] => {
            let heading = heading_of(alloc, header, names_for(names, *content))?;
            push(headings, heading)?;
            push_headings(alloc, headings, header, names, rest)
        }
    }
}

/// Returns what the files of some contents of a job's tables begin with, table by table.
pub fn job_headings(
    alloc: Global,
    job: &TablesJob,
    contents: &[Content],
    request: &Request,
) -> Result<Inputs, Memory>
    requires { IsJobOf job.now.plan job.now.asked }
    ensures { IfOk result (λ headings. headings ≡ job_headings contents.now job.now.plan request.now job.now.asked) }
{
    let _limits = job.plan.schema(); // there are 1 to 64 tables
    let header = header_at(job.asked.node, request.header);
    let places = places_of(&job.plan, job.asked.table);
    let mut headings = Inputs::new(alloc);
    for number in 0..places.count {
        let names = column_names(alloc, &job.plan, places.from + number)?;
        push_headings(alloc, &mut headings, header, names.as_slice(), contents)?;
    }
    Ok(headings)
}
