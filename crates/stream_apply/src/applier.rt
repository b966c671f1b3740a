//! A table, and streams that are applied to it.

ghost use Rattle.std.specs.Prelude.{◌≡◌, [], IfErr, IfOk, OnOk, fold};
ghost use Rattle.row_text.specs.Fields.{IsDelimiter};
ghost use Rattle.stream_apply.specs.KeyedLines.{lines_text, put};
ghost use Rattle.stream_apply.specs.Streams.{IsApplied, IsFaultOf, IsLoaded};
ghost use Rattle.stream_apply.specs.declared.kind.InputKind.TheVariants.{Deletes, Inserts, Snapshot, Updates};

use crate::fault::ApplyFault;
use crate::key_fields::KeyFields;
use crate::key_table::KeyTable;
use crate::kind::InputKind;
use crate::stream::{read_stream, read_table};
use out_of_memory::Memory;
use std::alloc::Global;
use std::marker::Model;

/// A table to which streams are applied one after the other. Its lines stay where they were read, and in the table's order.
#[derive(Drop)]
pub struct Applier<'a> {
    alloc: Global,
    keys: KeyFields,
    delimiter: u8,
    table: KeyTable<'a>,
}

impl<'a> Model for Applier<'a> {
    ghost use Rattle.row_text.specs.Fields.{IsDelimiter};
    ghost use Rattle.stream_apply.specs.Streams.{Table};

    ghost Value = { Table };

    ghost view = { λ a. record { keys = a.keys; delimiter = a.delimiter; lines = a.table } };

    ghost invariant = { λ a. IsDelimiter a.delimiter };
}

impl<'a> Applier<'a> {
    /// Reads a table from its text. `keys` tells which fields of a line are its key. The delimiter between two fields, of the table and the
    /// streams, is a tab (9) or a bar (124). Refuses the first line of the text at fault: a `BadLine` or a `DoubleKey`.
    pub fn load(
        alloc: Global,
        snapshot: &'a [u8],
        keys: KeyFields,
        delimiter: u8,
    ) -> Result<Applier<'a>, ApplyFault>
        requires { IsDelimiter delimiter }
        ensures loaded { IfOk result (IsLoaded snapshot.now keys delimiter) }
        ensures fault { IfErr result (IsFaultOf keys delimiter Snapshot [] snapshot.now) }
    {
        let table = read_table(alloc, snapshot, keys, delimiter)?;
        Ok(Applier {
            alloc,
            keys,
            delimiter,
            table,
        })
    }

    /// Drops the lines whose keys the bytes hold, one key a line. Refuses the first line of the bytes at fault.
    pub fn delete(self, bytes: &[u8]) -> Result<Applier<'a>, ApplyFault>
        ensures applied { IfOk result (IsApplied Deletes bytes.now self.entry) }
        ensures fault { IfErr result (IsFaultOf self.entry.keys self.entry.delimiter Deletes self.entry.lines bytes.now) }
    {
        let Applier {
            alloc,
            keys,
            delimiter,
            mut table,
        } = self;
        let dropped = read_stream(alloc, InputKind::Deletes, &table, bytes, keys, delimiter)?;
        table.drop_all(&dropped);
        Ok(Applier {
            alloc,
            keys,
            delimiter,
            table,
        })
    }

    /// Replaces the lines that have the keys of the bytes' lines, in place. Refuses the first line of the bytes at fault.
    pub fn update(self, bytes: &'a [u8]) -> Result<Applier<'a>, ApplyFault>
        ensures applied { IfOk result (IsApplied Updates bytes.now self.entry) }
        ensures fault { IfErr result (IsFaultOf self.entry.keys self.entry.delimiter Updates self.entry.lines bytes.now) }
    {
        let Applier {
            alloc,
            keys,
            delimiter,
            mut table,
        } = self;
        let lines = read_stream(alloc, InputKind::Updates, &table, bytes, keys, delimiter)?;
        put_all(&mut table, &lines)?;
        Ok(Applier {
            alloc,
            keys,
            delimiter,
            table,
        })
    }

    /// Appends the lines of the bytes to the table's. Refuses the first line of the bytes at fault.
    pub fn insert(self, bytes: &'a [u8]) -> Result<Applier<'a>, ApplyFault>
        ensures applied { IfOk result (IsApplied Inserts bytes.now self.entry) }
        ensures fault { IfErr result (IsFaultOf self.entry.keys self.entry.delimiter Inserts self.entry.lines bytes.now) }
    {
        let Applier {
            alloc,
            keys,
            delimiter,
            mut table,
        } = self;
        let lines = read_stream(alloc, InputKind::Inserts, &table, bytes, keys, delimiter)?;
        put_all(&mut table, &lines)?;
        Ok(Applier {
            alloc,
            keys,
            delimiter,
            table,
        })
    }

    /// Returns the text of the table: its lines in order, each with its line feed.
    pub fn text(&self) -> Result<Vec<u8>, Memory>
        ensures { IfOk result (λ text. text.items ≡ lines_text self.now.lines) }
    {
        Ok(self.table.text(self.alloc)?)
    }
}

/// Puts each line of `lines` into a table, in place of the line with its key or after the others.
pub(crate) fn put_all<'a>(table: &mut KeyTable<'a>, lines: &KeyTable<'a>) -> Result<(), Memory>
    ensures { OnOk result (table.new ≡ fold put table.old lines.now) }
{
    for index in 0..lines.len() {
        table.put(lines.key_at(index), lines.text_at(index))?;
    }
    Ok(())
}
