//! The names of files that are read and written, and their paths.

ghost use Rattle.std.specs.Prelude.{◌≡◌, ◌++◌, IfOk, OnOk, map};
ghost use Rattle.run_jobs.specs.Formats.{ending_in, in_directory};
ghost use Rattle.run_jobs.specs.InputFiles.{stream_names, text_name};

use crate::names::{push, push_ending_in, put};
use out_of_memory::Memory;
use request_words::Format;
use schema_model::{Text, Texts};
use std::alloc::Global;
use update_box::Content;

/// Returns the name of the file of a content of a table at a unit.
fn file_name(
    alloc: Global,
    table: &str,
    format: Format,
    unit: u64,
    content: Content,
) -> Result<Text, Memory>
    ensures { IfOk result (λ name. name ≡ table.now ++ ending_in format unit content) }
{
    let mut name = Text::new(alloc);
    push(&mut name, table)?;
    push_ending_in(&mut name, format, unit, content)?;
    Ok(name)
}

/// Returns the name of the file of a table's text.
pub fn text_name(alloc: Global, table: &str, format: Format) -> Result<Text, Memory>
    ensures { IfOk result (λ name. name ≡ text_name format table.now) }
{
    file_name(alloc, table, format, 0, Content::Snapshot)
}

/// Appends the names of a unit's streams of a table, in the order of applying them.
pub fn push_stream_names(
    alloc: Global,
    names: &mut Texts,
    table: &str,
    format: Format,
    unit: u64,
) -> Result<(), Memory>
    ensures { OnOk result (names.new ≡ names.old ++ stream_names format table.now unit) }
{
    let deleted = file_name(alloc, table, format, unit, Content::Deleted)?;
    put(names, deleted)?;
    let updated = file_name(alloc, table, format, unit, Content::Updated)?;
    put(names, updated)?;
    let inserted = file_name(alloc, table, format, unit, Content::Inserted)?;
    put(names, inserted)
}

/// Returns the path of a name in a directory.
fn path_in(alloc: Global, directory: &str, name: &str) -> Result<Text, Memory>
    ensures { IfOk result (λ path. path ≡ in_directory directory.now name.now) }
{
    let mut path = Text::new(alloc);
    push(&mut path, directory)?;
    push(&mut path, "/")?;
    push(&mut path, name)?;
    Ok(path)
}

/// Returns the paths of names in a directory.
pub fn paths_in(alloc: Global, directory: &str, names: &Texts) -> Result<Texts, Memory>
    ensures { IfOk result (λ paths. paths ≡ map (in_directory directory.now) names.now) }
{
    let mut paths = Texts::new(alloc);
    for place in 0..names.len() {
        let path = path_in(alloc, directory, names.get(place).as_str())?;
        put(&mut paths, path)?;
    }
    Ok(paths)
}
