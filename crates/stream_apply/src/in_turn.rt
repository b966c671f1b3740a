//! A table's text and the streams of units, applied one after the other.

ghost use Rattle.std.specs.Prelude.{◌≡◌, ◌≢◌, ◌<◌, ◌≤◌, List, [], length, map, IfErr, IfOk};
ghost use Rattle.row_text.specs.Fields.{IsDelimiter};
ghost use Rattle.stream_apply.specs.InTurn.{HasFaultAt, IsAppliedText, inputs_from};
ghost use Rattle.stream_apply.specs.KeyedLines.{KeyedLine};
ghost use Rattle.stream_apply.specs.Streams.{IsFaultOf, IsStream, made_by};
ghost use Rattle.stream_apply.specs.declared.fault.ApplyFault.TheVariants.{Memory};
ghost use Rattle.stream_apply.specs.declared.kind.InputKind.TheVariants.{Snapshot};

use crate::applier::put_all;
use crate::fault::ApplyFault;
use crate::key_fields::KeyFields;
use crate::key_table::KeyTable;
use crate::kind::InputKind;
use crate::stream::read_stream;
use std::alloc::{AllocError, Global};

/// The first thing that is wrong when inputs are applied in turn. If memory runs out, `place` means nothing.
#[derive(Clone, Copy, Debug, PartialEq, Eq)]
pub struct TurnFault {
    /// The place of the input, from 0.
    pub place: usize,
    /// The fault of the input's first line at fault.
    pub fault: ApplyFault,
}

/// Returns the text that a table's text and the streams of units make. The first input is the table's text. Then come, unit by unit, what the
/// unit deletes, updates and inserts. Without inputs the table is empty. `keys` tells which fields of a line are its key, and the delimiter
/// between two fields is a tab (9) or a bar (124). Refuses the first line at fault of the first input that has one. Fails if memory runs out.
pub fn apply_in_turn(
    alloc: Global,
    inputs: &[Vec<u8>],
    keys: KeyFields,
    delimiter: u8,
) -> Result<Vec<u8>, TurnFault>
    requires { IsDelimiter delimiter }
    ensures applied { IfOk result (λ text. IsAppliedText keys delimiter (map (λ input. input.items) inputs.now) text.items) }
    ensures fault { IfErr result (λ told. told.fault ≢ Memory →
        (told.place < length inputs.now)
        × HasFaultAt keys delimiter (inputs_from Snapshot (map (λ input. input.items) inputs.now)) [] told.place told.fault) }
    ensures place { IfErr result (λ told. told.place ≤ length inputs.now) }
{
    match slices_of(alloc, inputs) {
        Ok(slices) => apply_slices(alloc, &slices, keys, delimiter),
        Err(_) => Err(TurnFault {
            place: 0,
            fault: ApplyFault::Memory,
        }),
    }
}

/// Returns what `apply_in_turn` returns, for inputs that are parts of other bytes.
pub fn apply_slices(
    alloc: Global,
    inputs: &[&[u8]],
    keys: KeyFields,
    delimiter: u8,
) -> Result<Vec<u8>, TurnFault>
    requires { IsDelimiter delimiter }
    ensures applied { IfOk result (λ text. IsAppliedText keys delimiter (map (λ input. input.now) inputs.now) text.items) }
    ensures fault { IfErr result (λ told. told.fault ≢ Memory →
        (told.place < length inputs.now)
        × HasFaultAt keys delimiter (inputs_from Snapshot (map (λ input. input.now) inputs.now)) [] told.place told.fault) }
    ensures place { IfErr result (λ told. told.place ≤ length inputs.now) }
{
    let mut table = KeyTable::new(alloc);
    let mut kind = InputKind::Snapshot;
    for (place, input) in inputs.iter().enumerate() {
        table = match apply_input(alloc, kind, table, input, keys, delimiter) {
            Ok(made) => made,
            Err(fault) => return Err(TurnFault { place, fault }),
        };
        kind = kind.next();
    }
    match table.text(alloc) {
        Ok(text) => Ok(text),
        Err(_) => Err(TurnFault {
            place: inputs.len(),
            fault: ApplyFault::Memory,
        }),
    }
}

/// Returns the inputs as parts of their bytes.
fn slices_of(alloc: Global, inputs: &[Vec<u8>]) -> Result<Vec<&[u8]>, AllocError>
    ensures { IfOk result (λ slices. map (λ slice. slice.now) slices.items ≡ map (λ input. input.items) inputs.now) }
{
    let mut slices = Vec::new(alloc);
    for input in inputs {
        slices.push(input.as_slice())?;
    }
    Ok(slices)
}

/// Returns the table that the bytes make of a table. Refuses the first line of the bytes at fault.
fn apply_input<'a>(
    alloc: Global,
    kind: InputKind,
    mut table: KeyTable<'a>,
    bytes: &'a [u8],
    keys: KeyFields,
    delimiter: u8,
) -> Result<KeyTable<'a>, ApplyFault>
    requires { IsDelimiter delimiter }
    ensures applied { IfOk result (λ made. (lines : List KeyedLine) × IsStream keys delimiter kind table.entry bytes.now lines
        × (made ≡ made_by kind table.entry lines)) }
    ensures fault { IfErr result (IsFaultOf keys delimiter kind table.entry bytes.now) }
{
    let lines = read_stream(alloc, kind, &table, bytes, keys, delimiter)?;
    match kind {
        InputKind::Snapshot => Ok(lines),
        InputKind::Deletes => {
            table.drop_all(&lines);
            Ok(table)
        }
        InputKind::Updates | InputKind::Inserts => {
            put_all(&mut table, &lines)?;
            Ok(table)
        }
    }
}
