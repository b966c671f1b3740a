//! A table that is reverted.

ghost use Rattle.std.specs.Prelude.{◌≡◌, IfErr, IfOk};
ghost use Rattle.row_text.specs.Fields.{IsDelimiter};
ghost use Rattle.stream_apply.specs.KeyedLines.{lines_text};
ghost use Rattle.stream_apply.specs.Streams.{IsLoaded};
ghost use Rattle.stream_apply.specs.declared.key_fields.KeyFields.TheVariants.{One};
ghost use Rattle.undo_streams.specs.InTurn.{table_with};
ghost use Rattle.undo_streams.specs.Reverting.{IsLoadFault, IsUndoFault, IsUndone};

use crate::fault::RevertFault;
use crate::weaver::undo_table;
use out_of_memory::Memory;
use std::alloc::Global;
use std::marker::Model;
use stream_apply::{KeyFields, KeyTable, read_table};

/// A table to which undo texts are applied one after the other. Its lines stay where they were read, and in the table's order.
#[derive(Drop)]
pub struct Reverter<'a> {
    alloc: Global,
    delimiter: u8,
    table: KeyTable<'a>,
}

impl<'a> Model for Reverter<'a> {
    ghost use Rattle.row_text.specs.Fields.{IsDelimiter};
    ghost use Rattle.stream_apply.specs.Streams.{Table};
    ghost use Rattle.stream_apply.specs.declared.key_fields.KeyFields.TheVariants.{One};

    ghost Value = { Table };

    ghost view = { λ r. record { keys = One; delimiter = r.delimiter; lines = r.table } };

    ghost invariant = { λ r. IsDelimiter r.delimiter };
}

impl<'a> Reverter<'a> {
    /// Reads a table from its text. The delimiter between two fields, of the table and the undo texts, is a tab (9) or a bar (124). Refuses
    /// the first line of the text at fault: a `BadLine` or a `DoubleKey`.
    pub fn load(
        alloc: Global,
        snapshot: &'a [u8],
        delimiter: u8,
    ) -> Result<Reverter<'a>, RevertFault>
        requires { IsDelimiter delimiter }
        ensures loaded { IfOk result (IsLoaded snapshot.now One delimiter) }
        ensures fault { IfErr result (IsLoadFault delimiter snapshot.now) }
    {
        let table = load_table(alloc, snapshot, delimiter)?;
        Ok(Reverter {
            alloc,
            delimiter,
            table,
        })
    }

    /// Applies an undo text to the table, in time that is linear in the two. Refuses the first line of the bytes at fault; the table is then
    /// gone.
    pub fn undo(self, bytes: &'a [u8]) -> Result<Reverter<'a>, RevertFault>
        ensures undone { IfOk result (IsUndone bytes.now self.entry) }
        ensures fault { IfErr result (IsUndoFault self.entry.delimiter self.entry.lines bytes.now) }
    {
        let Reverter {
            alloc,
            delimiter,
            table,
        } = self;
        let table = undo_table(alloc, table, bytes, delimiter)?;
        Ok(Reverter {
            alloc,
            delimiter,
            table,
        })
    }

    /// Returns the text of the table: its lines in order, each with its line feed.
    pub fn text(&self) -> Result<Vec<u8>, Memory>
        ensures { IfOk result (λ text. text.items ≡ lines_text self.now.lines) }
    {
        Ok(self.table.text(self.alloc)?)
    }
}

/// Reads the lines of a table's text, by their keys.
pub(crate) fn load_table<'a>(
    alloc: Global,
    snapshot: &'a [u8],
    delimiter: u8,
) -> Result<KeyTable<'a>, RevertFault>
    requires { IsDelimiter delimiter }
    ensures loaded { IfOk result (λ lines. IsLoaded snapshot.now One delimiter (table_with delimiter lines)) }
    ensures fault { IfErr result (IsLoadFault delimiter snapshot.now) }
{
    let table = read_table(alloc, snapshot, KeyFields::One, delimiter)?;
    Ok(table)
}
