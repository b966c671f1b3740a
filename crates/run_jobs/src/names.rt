//! The paths of files that hold parts of tables.

ghost use Rattle.std.specs.Prelude.{◌≡◌, ◌<◌, ◌≤◌, ◌+◌, ◌++◌, ◌∷◌, [], IfOk, OnOk, length, map};
ghost use Rattle.std.specs.List.{range_with_len};
ghost use Rattle.update_box.specs.Parts.{name_at, parts_at, parts_of};
ghost use Rattle.run_jobs.specs.Formats.{ending_in, ending_with, file_name, in_directory, undo_name_of};
ghost use Rattle.run_jobs.specs.modes.Undo.{undo_path};

use itoa::Buffer;
use out_of_memory::Memory;
use request_words::Format;
use schema_model::{Text, Texts};
use schema_plan::Plan;
use std::alloc::Global;
use update_box::{Content, Places, push_ending};

/// A directory whose files hold parts of a plan's tables in a format.
#[derive(Clone, Copy)]
pub struct Directory<'a> {
    /// The plan.
    pub plan: &'a Plan,
    /// The directory's name.
    pub name: &'a str,
    /// The format of the files.
    pub format: Format,
}

/// Appends a piece to a path.
pub(crate) fn push(path: &mut Text, piece: &str) -> Result<(), Memory>
    ensures { OnOk result (path.new ≡ path.old ++ piece.now) }
{
    match path.push(piece) {
        Ok(()) => Ok(()),
        Err(_) => Err(Memory),
    }
}

/// Appends a path to others.
pub fn put(paths: &mut Texts, path: Text) -> Result<(), Memory>
    ensures { OnOk result (paths.new ≡ paths.old ++ path ∷ []) }
{
    match paths.push(path) {
        Ok(()) => Ok(()),
        Err(_) => Err(Memory),
    }
}

/// Returns the name of a table.
pub fn name_of(plan: &Plan, table: u32) -> &str
    requires { table < length plan.now.schema.tables }
    ensures { result.now ≡ name_at plan.now.schema table }
{
    plan.table(table).name.as_str()
}

/// Returns a copy of a name.
pub fn copy_of(alloc: Global, name: &str) -> Result<Text, Memory>
    ensures { IfOk result (λ copy. copy ≡ name.now) }
{
    let mut copy = Text::new(alloc);
    push(&mut copy, name)?;
    Ok(copy)
}

/// Returns the names of tables.
pub fn table_names(alloc: Global, plan: &Plan, places: Places) -> Result<Texts, Memory>
    requires { places.from + places.count ≤ length plan.now.schema.tables }
    ensures { IfOk result (λ names. names ≡ map (name_at plan.now.schema) (range_with_len places.from places.count)) }
{
    let _limits = plan.schema(); // there are 1 to 64 tables
    let mut names = Texts::new(alloc);
    for number in 0..places.count {
        let name = copy_of(alloc, name_of(plan, places.from + number))?;
        put(&mut names, name)?;
    }
    Ok(names)
}

/// Appends the ending of a file's name in a format: of the file that holds a content of a table at a unit.
pub(crate) fn push_ending_in(
    name: &mut Text,
    format: Format,
    unit: u64,
    content: Content,
) -> Result<(), Memory>
    ensures { OnOk result (name.new ≡ name.old ++ ending_in format unit content) }
{
    match format {
        Format::Copy => push_ending(name, unit, content),
        Format::Csv => push_ending_with(name, ".csv", unit, content),
        Format::Sql => push_ending_with(name, ".sql", unit, content),
    }
}

/// Appends the ending of a file's name in a format that has an ending of its own.
fn push_ending_with(
    name: &mut Text,
    ending: &str,
    unit: u64,
    content: Content,
) -> Result<(), Memory>
    ensures { OnOk result (name.new ≡ name.old ++ ending_with ending.now unit content) }
{
    match content {
        Content::Snapshot => {}
        Content::Deleted | Content::Updated | Content::Inserted => {
            push_ending(name, unit, content)?
        }
    }
    push(name, ending)
}

/// Appends the name of the file of a table's undo text of a unit.
pub fn push_undo_name(name: &mut Text, table: &str, unit: u64) -> Result<(), Memory>
    ensures { OnOk result (name.new ≡ name.old ++ undo_name_of table.now unit) }
{
    let mut digits = Buffer::new();
    push(name, table)?;
    push(name, ".")?;
    push(name, digits.format(unit))?;
    push(name, ".undo")
}

impl Directory<'_> {
    /// Returns the path of the file that holds a content of a table at a unit.
    pub fn path(
        &self,
        alloc: Global,
        table: u32,
        unit: u64,
        content: Content,
    ) -> Result<Text, Memory>
        requires { table < length self.now.plan.now.schema.tables }
        ensures { IfOk result (λ path. path
            ≡ in_directory self.now.name.now (file_name self.now.format self.now.plan.now.schema unit (record { place = table; content = content }))) }
    {
        let mut path = Text::new(alloc);
        push(&mut path, self.name)?;
        push(&mut path, "/")?;
        push(&mut path, name_of(self.plan, table))?;
        push_ending_in(&mut path, self.format, unit, content)?;
        Ok(path)
    }

    /// Returns the path of the file that holds the undo text of a table at a unit.
    pub fn undo_path(&self, alloc: Global, table: u32, unit: u64) -> Result<Text, Memory>
        requires { table < length self.now.plan.now.schema.tables }
        ensures { IfOk result (λ path. path ≡ undo_path self.now.plan.now unit self.now.name.now table) }
    {
        let mut path = Text::new(alloc);
        push(&mut path, self.name)?;
        push(&mut path, "/")?;
        push_undo_name(&mut path, name_of(self.plan, table), unit)?;
        Ok(path)
    }

    /// Returns the paths of the files that hold the undo texts of tables at a unit.
    pub fn undo_paths(&self, alloc: Global, places: Places, unit: u64) -> Result<Texts, Memory>
        requires { places.from + places.count ≤ length self.now.plan.now.schema.tables }
        ensures { IfOk result (λ paths. paths ≡ map (undo_path self.now.plan.now unit self.now.name.now) (range_with_len places.from places.count)) }
    {
        let _limits = self.plan.schema(); // there are 1 to 64 tables
        let mut paths = Texts::new(alloc);
        for number in 0..places.count {
            let path = self.undo_path(alloc, places.from + number, unit)?;
            put(&mut paths, path)?;
        }
        Ok(paths)
    }

    /// Appends the paths of the files that hold some contents of a table at a unit.
    pub fn push_paths(
        &self,
        alloc: Global,
        paths: &mut Texts,
        table: u32,
        unit: u64,
        contents: &[Content],
    ) -> Result<(), Memory>
        requires { table < length self.now.plan.now.schema.tables }
        ensures { OnOk result (paths.new ≡ paths.old
            ++ map (λ part. in_directory self.now.name.now (file_name self.now.format self.now.plan.now.schema unit part)) (parts_at contents.now table)) }
    {
        match contents {
            [] => Ok(()),
            [content, rest @ ..] => {
                let path = self.path(alloc, table, unit, *content)?;
                put(paths, path)?;
                self.push_paths(alloc, paths, table, unit, rest)
            }
        }
    }

    /// Returns the paths of the files that hold some contents of tables at a unit, table by table.
    pub fn paths(
        &self,
        alloc: Global,
        places: Places,
        unit: u64,
        contents: &[Content],
    ) -> Result<Texts, Memory>
        requires { places.from + places.count ≤ length self.now.plan.now.schema.tables }
        ensures { IfOk result (λ paths. paths
            ≡ map (λ part. in_directory self.now.name.now (file_name self.now.format self.now.plan.now.schema unit part))
            (parts_of contents.now (range_with_len places.from places.count))) }
    {
        let _limits = self.plan.schema(); // there are 1 to 64 tables
        let mut paths = Texts::new(alloc);
        for number in 0..places.count {
            self.push_paths(alloc, &mut paths, places.from + number, unit, contents)?;
        }
        Ok(paths)
    }
}
