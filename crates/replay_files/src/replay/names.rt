//! The names of the files that a replay reads and writes.

ghost use Rattle.std.specs.Prelude.{◌≡◌, ◌+◌, ◌-◌, ◌++◌, ◌∷◌, IfOk, OnOk, flat_map, map};
ghost use Rattle.std.specs.List.{range_with_len};
ghost use Rattle.run_jobs.specs.Formats.{undo_name_of};
ghost use Rattle.replay_files.specs.Replay.{AreUnitsOf, CanReplay, IsInOrder, format_of, input_names, names_by, undo_names};
ghost use Rattle.run_jobs.specs.InputFiles.{stream_names, text_name};

use crate::replay::{Replay, Way};
use out_of_memory::Memory;
use request_words::{Format, Request};
use run_jobs::file_names::{push_stream_names, text_name};
use run_jobs::names::{push_undo_name, put};
use schema_model::{Text, Texts};
use std::alloc::Global;

/// Returns the name of the file of a table's undo text of a unit.
fn undo_name(alloc: Global, table: &str, unit: u64) -> Result<Text, Memory>
    ensures { IfOk result (λ name. name ≡ undo_name_of table.now unit) }
{
    let mut name = Text::new(alloc);
    push_undo_name(&mut name, table, unit)?;
    Ok(name)
}

/// Appends the names of a table's inputs to others, if streams are applied.
fn push_applied(
    alloc: Global,
    names: &mut Texts,
    table: &str,
    format: Format,
    request: &Request,
) -> Result<(), Memory>
    requires { IsInOrder request.now.from request.now.to }
    ensures { OnOk result (names.new ≡ names.old
        ++ (text_name format table.now ∷ flat_map (stream_names format table.now) (range_with_len (request.now.from + 1) (request.now.to - request.now.from)))) }
{
    put(names, text_name(alloc, table, format)?)?;
    for step in 0..request.to - request.from {
        push_stream_names(alloc, names, table, format, request.from + 1 + step)?;
    }
    Ok(())
}

/// Appends the names of a table's inputs to others, if undo texts are undone.
fn push_undone(
    alloc: Global,
    names: &mut Texts,
    table: &str,
    format: Format,
    request: &Request,
) -> Result<(), Memory>
    requires { IsInOrder request.now.to request.now.from }
    ensures { OnOk result (names.new ≡ names.old
        ++ (text_name format table.now ∷ undo_names table.now request.now.to (request.now.from - request.now.to))) }
{
    put(names, text_name(alloc, table, format)?)?;
    for step in 0..request.from - request.to {
        put(names, undo_name(alloc, table, request.from - step)?)?;
    }
    Ok(())
}

/// Appends the names of a table's inputs to others, in the order of reading them.
fn push_inputs(
    alloc: Global,
    names: &mut Texts,
    way: Way,
    table: &str,
    format: Format,
    request: &Request,
) -> Result<(), Memory>
    requires { AreUnitsOf way request.now.from request.now.to }
    ensures { OnOk result (names.new ≡ names.old ++ names_by way format request.now.from request.now.to table.now) }
{
    match way {
        Way::Apply(_) => push_applied(alloc, names, table, format, request),
        Way::Undo => push_undone(alloc, names, table, format, request),
    }
}

/// Returns the names of the inputs, in the order of reading them.
pub(super) fn input_names(
    alloc: Global,
    replay: &Replay,
    request: &Request,
) -> Result<Texts, Memory>
    requires { CanReplay request.now replay.now }
    ensures { IfOk result (λ names. names ≡ input_names request.now replay.now) }
{
    let format = replay.format();
    let mut names = Texts::new(alloc);
    for place in 0..replay.names.len() {
        let table = replay.names.get(place).as_str();
        push_inputs(alloc, &mut names, replay.way, table, format, request)?;
    }
    Ok(names)
}

/// Returns the names of the files of the texts.
pub(super) fn text_names(alloc: Global, replay: &Replay) -> Result<Texts, Memory>
    ensures { IfOk result (λ names. names ≡ map (text_name (format_of replay.now)) replay.now.names) }
{
    let format = replay.format();
    let mut names = Texts::new(alloc);
    for place in 0..replay.names.len() {
        let name = text_name(alloc, replay.names.get(place).as_str(), format)?;
        put(&mut names, name)?;
    }
    Ok(names)
}
