//! A table's text and undo texts, applied one after the other.

ghost use Rattle.std.specs.Prelude.{◌≡◌, ◌≢◌, ◌<◌, ◌≤◌, length, map, IfErr, IfOk};
ghost use Rattle.row_text.specs.Fields.{IsDelimiter};
ghost use Rattle.undo_streams.specs.InTurn.{HasUndoFaultAt, IsRevertFaultAt, IsRevertedText, IsUndoneInTurn};
ghost use Rattle.undo_streams.specs.declared.fault.RevertFault.TheVariants.{Memory};

use crate::fault::RevertFault;
use crate::reverter::load_table;
use crate::weaver::undo_table;
use std::alloc::Global;
use stream_apply::KeyTable;

/// The first thing that is wrong when undo texts are applied in turn. If memory runs out, `place` means nothing.
#[derive(Clone, Copy, Debug, PartialEq, Eq)]
pub struct RevertedAt {
    /// The place of the input, from 0.
    pub place: usize,
    /// The fault of the input's first line at fault.
    pub fault: RevertFault,
}

/// Returns the text that a table's text and undo texts make. The first input is the table's text, and the others are undo texts in the order
/// in which they are applied. The delimiter between two fields is a tab (9) or a bar (124). Refuses the first line at fault of the first
/// input that has one. Fails if memory runs out.
pub fn revert_in_turn(
    alloc: Global,
    inputs: &[Vec<u8>],
    delimiter: u8,
) -> Result<Vec<u8>, RevertedAt>
    requires delimiter { IsDelimiter delimiter }
    requires table { 1 ≤ length inputs.now }
    ensures reverted { IfOk result (λ text. IsRevertedText delimiter (map (λ input. input.items) inputs.now) text.items) }
    ensures fault { IfErr result (λ told. told.fault ≢ Memory →
        (told.place < length inputs.now)
        × IsRevertFaultAt delimiter (map (λ input. input.items) inputs.now) told.place told.fault) }
{
    let table = match load_table(alloc, &inputs[0], delimiter) {
        Ok(table) => table,
        Err(fault) => return Err(RevertedAt { place: 0, fault }),
    };
    let table = match undo_in_turn(alloc, table, &inputs[1..], delimiter) {
        Ok(table) => table,
        Err(told) => {
            return Err(RevertedAt {
                place: told.place + 1,
                fault: told.fault,
            });
        }
    };
    match table.text(alloc) {
        Ok(text) => Ok(text),
        Err(_) => Err(RevertedAt {
            place: 0,
            fault: RevertFault::Memory,
        }),
    }
}

/// Returns the table that undo texts make of a table, one after the other. In a fault, places count from 0 at the first undo text.
fn undo_in_turn<'a>(
    alloc: Global,
    table: KeyTable<'a>,
    undos: &'a [Vec<u8>],
    delimiter: u8,
) -> Result<KeyTable<'a>, RevertedAt>
    requires { IsDelimiter delimiter }
    ensures undone { IfOk result (IsUndoneInTurn delimiter (map (λ undo. undo.items) undos.now) table.entry) }
    ensures place { IfErr result (λ told. told.place < length undos.now) }
    ensures fault { IfErr result (λ told. told.fault ≢ Memory → HasUndoFaultAt delimiter (map (λ undo. undo.items) undos.now) table.entry told.place told.fault) }
{
    let mut table = table;
    for (place, undo) in undos.iter().enumerate() {
        table = match undo_table(alloc, table, undo, delimiter) {
            Ok(made) => made,
            Err(fault) => return Err(RevertedAt { place, fault }),
        };
    }
    Ok(table)
}
