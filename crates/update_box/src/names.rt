//! The names of the files of a job's shares.

ghost use Rattle.std.specs.Prelude.{◌≡◌, ◌<◌, ◌≤◌, ◌++◌, ◌∷◌, ◌^◌, [], All, IfOk, OnOk, length, map};
ghost use Rattle.std.specs.Option.{option_copied};
ghost use Rattle.update_box.specs.Kept.{HasPackages, kept_part, kept_share, packages_by, packages_kept};
ghost use Rattle.update_box.specs.Packages.{marks_from, marks_of, packages_in, share_path};
ghost use Rattle.update_box.specs.Parts.{ending_of, name_at, path_of, standard_output};

use crate::parts::Content;
use crate::shares::{KeptShare, Shares};
use itoa::Buffer;
use out_of_memory::Memory;
use range_workers::Marks;
use schema_model::Text;
use schema_plan::Plan;
use std::alloc::Global;

/// Returns the name of a table.
fn name_of(plan: &Plan, table: u32) -> &str
    requires { table < length plan.now.schema.tables }
    ensures { result.now ≡ name_at plan.now.schema table }
{
    plan.table(table).name.as_str()
}

/// Appends the ending of the name of a file that holds only a content of a table at a unit.
pub fn push_ending(path: &mut Text, unit: u64, content: Content) -> Result<(), Memory>
    ensures { OnOk result (path.new ≡ path.old ++ ending_of unit content) }
{
    let ending = match content {
        Content::Snapshot => return path.push(".tbl"),
        Content::Deleted => ".del",
        Content::Updated => ".upd",
        Content::Inserted => ".ins",
    };
    let mut digits = Buffer::new();
    path.push(".")?;
    path.push(digits.format(unit))?;
    path.push(ending)
}

/// Appends the name of the file that holds only a content of a table at a unit, without a directory.
pub fn push_file_name(
    path: &mut Text,
    plan: &Plan,
    table: u32,
    unit: u64,
    content: Content,
) -> Result<(), Memory>
    requires { table < length plan.now.schema.tables }
    ensures { OnOk result (path.new ≡ path.old ++ (name_at plan.now.schema table ++ ending_of unit content)) }
{
    path.push(name_of(plan, table))?;
    push_ending(path, unit, content)
}

/// Returns the name of the file of a share in a directory.
fn share_path(
    alloc: Global,
    plan: &Plan,
    unit: u64,
    share: &KeptShare,
    dir: &str,
) -> Result<Text, Memory>
    requires place { share.now.place < length plan.now.schema.tables }
    ensures { IfOk result (λ name. name ≡ path_of plan.now unit dir.now (kept_part share.now)) }
{
    let mut path = Text::new(alloc);
    path.push(dir)?;
    path.push("/")?;
    push_file_name(&mut path, plan, share.place, unit, share.content)?;
    Ok(path)
}

fn push_mark(marks: &mut Marks, first: u64, name: &str) -> Result<(), Memory>
    ensures { OnOk result (marks.new ≡ marks.old ++ record { first = first; name = name.now } ∷ []) }
{
    marks.push(first, name)
}

/// Returns the names of the files of some shares in a directory, each with the number of its share's first package.
fn marks_in(
    alloc: Global,
    plan: &Plan,
    unit: u64,
    size: u64,
    shares: &[KeptShare],
    dir: &str,
) -> Result<Marks, Memory>
    requires places { All (λ kept. kept.place < length plan.now.schema.tables) shares.now }
    requires packages { All (HasPackages size) shares.now }
    requires most { packages_kept shares.now ≤ 2 ^ 60 }
    ensures { IfOk result (λ marks. marks ≡ marks_from (packages_in size) (share_path plan.now unit dir.now) 0 (map kept_share shares.now)) }
{
    let mut marks = Marks::new(alloc);
    let mut first = 0;
    for share in shares {
        let name = share_path(alloc, plan, unit, share, dir)?;
        push_mark(&mut marks, first, name.as_str())?;
        first += share.packages;
    }
    Ok(marks)
}

/// Returns the one name of the files of all shares: the standard output.
fn mark_of_all(alloc: Global) -> Result<Marks, Memory>
    ensures { IfOk result (λ marks. marks ≡ record { first = 0; name = standard_output } ∷ []) }
{
    let mut marks = Marks::new(alloc);
    push_mark(&mut marks, 0, "-")?;
    Ok(marks)
}

/// Returns the names of the files of some shares. Each share has its own file in a directory, or all go to the standard output.
pub(crate) fn marks_of(
    alloc: Global,
    plan: &Plan,
    unit: u64,
    shares: &Shares,
    dir: Option<&str>,
) -> Result<Marks, Memory>
    requires places { All (λ kept. kept.place < length plan.now.schema.tables) shares.now.kept.items }
    requires packages { All (HasPackages shares.now.size) shares.now.kept.items }
    requires most { packages_kept shares.now.kept.items ≤ 2 ^ 60 }
    ensures { IfOk result (λ marks. marks ≡ marks_of (packages_by plan.now unit shares.now) (option_copied dir.entry)) }
{
    match dir {
        None => mark_of_all(alloc),
        Some(dir) => marks_in(alloc, plan, unit, shares.size, shares.kept.as_slice(), dir),
    }
}
