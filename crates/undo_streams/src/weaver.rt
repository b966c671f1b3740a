//! A table while an undo text is applied to it.

ghost use Rattle.std.specs.Prelude.{◌≡◌, ◌≢◌, ◌≤◌, ◌<◌, ◌+◌, [], ◌∷◌, ◌++◌, false, drop, length, take, IfErr, IfOk, OnOk};
ghost use Rattle.std.specs.Bool.{OnFalse, OnTrue};
ghost use Rattle.row_text.specs.Fields.{IsDelimiter};
ghost use Rattle.stream_apply.specs.KeyedLines.{has_key, keyed, put};
ghost use Rattle.stream_apply.specs.Streams.{wants_held};
ghost use Rattle.undo_streams.specs.ReadLines.{undo_of};
ghost use Rattle.undo_streams.specs.Reverting.{IsLineFault, IsPlaceIn, IsUndoFault, IsUndoneBy, begun, behind, kind_of, rank_of};
ghost use Rattle.undo_streams.specs.Weaving.{IsWoven, undoing_of};
ghost use Rattle.undo_streams.specs.declared.fault.RevertFault.TheVariants as revert_fault;
ghost use Rattle.undo_streams.specs.declared.part.Part.TheVariants.{Adds, Drops, Sets};

use crate::fault::RevertFault;
use crate::part::Part;
use crate::undo_lines::{ReadUndo, read_undo};
use out_of_memory::Memory;
use std::alloc::Global;
use stream_apply::KeyTable;

/// A table while an undo text is applied to it. Each line moves once, however many are added.
struct Weaver<'a> {
    /// The table's lines. Dropped lines leave it when the part that drops them ends.
    table: KeyTable<'a>,
    /// The lines of the text so far.
    told: KeyTable<'a>,
    /// The lines of the new list, up to the last one that is added.
    woven: KeyTable<'a>,
    /// How many of the table's lines `woven` has taken.
    next: usize,
    part: Part,
}

impl Drop for Weaver<'_> {
    fn drop(self) {
        let Weaver {
            table,
            told,
            woven,
            next: _,
            part: _,
        } = self;
        drop(table);
        drop(told);
        drop(woven);
    }
}

/// Returns the table that an undo text makes of a table. Refuses the first line of the text at fault.
pub(crate) fn undo_table<'a>(
    alloc: Global,
    table: KeyTable<'a>,
    bytes: &'a [u8],
    delimiter: u8,
) -> Result<KeyTable<'a>, RevertFault>
    requires { IsDelimiter delimiter }
    ensures undone { IfOk result (IsUndoneBy delimiter table.entry bytes.now) }
    ensures fault { IfErr result (IsUndoFault delimiter table.entry bytes.now) }
{
    let mut weaver = Weaver::new(alloc, table);
    let mut rest = bytes;
    while !rest.is_empty() {
        let number = weaver.told.len() as u64 + 1;
        match read_undo(alloc, weaver.part, rest, delimiter)? {
            None => return Err(RevertFault::BadLine { line: number }),
            Some(line) => {
                weaver.take(line, number)?;
                rest = line.rest;
            }
        }
    }
    Ok(weaver.finish()?)
}

impl<'a> Weaver<'a> {
    /// Starts before the first line.
    fn new(alloc: Global, table: KeyTable<'a>) -> Weaver<'a>
        ensures sound { IsWoven result }
        ensures begun { undoing_of result ≡ begun table.entry }
    {
        Weaver {
            table,
            told: KeyTable::new(alloc),
            woven: KeyTable::new(alloc),
            next: 0,
            part: Part::Drops,
        }
    }

    /// Takes the next line, by its number. Refuses a line with a fault.
    fn take(&mut self, line: ReadUndo<'a>, number: u64) -> Result<(), RevertFault>
        requires sound { IsWoven self.old }
        requires order { rank_of self.old.part ≤ rank_of line.part }
        ensures sound { OnOk result (IsWoven self.new) }
        ensures free { OnOk result (has_key self.old.told line.entry.key.now ≡ false) }
        ensures held { OnOk result (has_key (undoing_of self.old).lines line.entry.key.now ≡ wants_held (kind_of line.entry.part)) }
        ensures placed { OnOk result (IsPlaceIn (undoing_of self.old) line.entry.part line.entry.place) }
        ensures taken { OnOk result (undoing_of self.new ≡ behind (undoing_of self.old) (undo_of line.entry)) }
        ensures fault { IfErr result (IsLineFault (undoing_of self.old) (undo_of line.entry) number) }
    {
        self.begin(line.part);
        self.check(line, number)?;
        self.put(line)?;
        Ok(())
    }

    /// Goes on to a part, which is the same one or a later one.
    fn begin(&mut self, part: Part)
        requires sound { IsWoven self.old }
        requires order { rank_of self.old.part ≤ rank_of part }
        ensures sound { IsWoven self.new }
        ensures part { undoing_of self.new ≡ record (undoing_of self.old) { part = part } }
    {
        if matches!(self.part, Part::Drops) && !matches!(part, Part::Drops) {
            self.table.drop_all(&self.told);
        }
        self.part = part;
    }

    /// Checks a line of the part that is reached, by its number.
    fn check(&self, line: ReadUndo<'_>, number: u64) -> Result<(), RevertFault>
        requires sound { IsWoven self.now }
        requires part { self.now.part ≡ line.part }
        ensures free { OnOk result (has_key self.now.told line.entry.key.now ≡ false) }
        ensures held { OnOk result (has_key (undoing_of self.now).lines line.entry.key.now ≡ wants_held (kind_of line.entry.part)) }
        ensures placed { OnOk result (IsPlaceIn (undoing_of self.now) line.entry.part line.entry.place) }
        ensures fault { IfErr result (IsLineFault (undoing_of self.now) (undo_of line.entry) number) }
        ensures sure { IfErr result (λ fault. fault ≢ revert_fault.Memory) }
    {
        if self.told.has(line.key) {
            return Err(RevertFault::DoubleKey { line: number });
        }
        match (line.part.kind().wants_held(), self.holds(line.key)) {
            (true, false) => return Err(RevertFault::NoSuchKey { line: number }),
            (false, true) => return Err(RevertFault::KeyExists { line: number }),
            _ => {}
        }
        if self.is_place(line) {
            Ok(())
        } else {
            Err(RevertFault::BadPlace { line: number })
        }
    }

    /// Tells whether the list has a line with a key that the text hasn't told yet.
    fn holds(&self, key: &[u8]) -> bool
        requires sound { IsWoven self.now }
        requires free { has_key self.now.told key.now ≡ false }
        ensures { result ≡ has_key (undoing_of self.now).lines key.now }
    {
        self.table.has(key) || self.woven.has(key)
    }

    /// Tells whether the place of a line of the part that is reached is right.
    fn is_place(&self, line: ReadUndo<'_>) -> bool
        requires sound { IsWoven self.now }
        requires part { self.now.part ≡ line.part }
        ensures right { OnTrue result (IsPlaceIn (undoing_of self.now) line.entry.part line.entry.place) }
        ensures wrong { OnFalse result (¬ IsPlaceIn (undoing_of self.now) line.entry.part line.entry.place) }
    {
        match line.part {
            Part::Drops | Part::Sets => true,
            Part::Adds => {
                let least = self.woven.len() as u64;
                let most = least + (self.table.len() - self.next) as u64;
                least <= line.place && line.place <= most
            }
        }
    }

    /// Puts a line of the part that is reached. The line has no fault.
    fn put(&mut self, line: ReadUndo<'a>) -> Result<(), Memory>
        requires sound { IsWoven self.old }
        requires part { self.old.part ≡ line.part }
        requires free { has_key self.old.told line.key.now ≡ false }
        requires held { has_key (undoing_of self.old).lines line.key.now ≡ wants_held (kind_of line.part) }
        requires placed { IsPlaceIn (undoing_of self.old) line.part line.place }
        ensures sound { OnOk result (IsWoven self.new) }
        ensures put { OnOk result (undoing_of self.new ≡ behind (undoing_of self.old) (undo_of line.entry)) }
    {
        match line.part {
            Part::Drops => self.tell(line),
            Part::Sets => self.set(line),
            Part::Adds => self.add(line),
        }
    }

    /// Appends a line to the told lines.
    fn tell(&mut self, line: ReadUndo<'a>) -> Result<(), Memory>
        requires { has_key self.old.told line.key.now ≡ false }
        ensures { OnOk result (self.new ≡ record self.old { told = self.old.told ++ keyed line.entry.key.now line.entry.text.now ∷ [] }) }
    {
        self.told.put(line.key, line.text)?;
        Ok(())
    }

    /// Puts a line in the place of the one with its key.
    fn set(&mut self, line: ReadUndo<'a>) -> Result<(), Memory>
        requires sound { IsWoven self.old }
        requires part { self.old.part ≡ Sets }
        requires free { has_key self.old.told line.key.now ≡ false }
        ensures sound { OnOk result (IsWoven self.new) }
        ensures set { OnOk result (undoing_of self.new ≡ record (undoing_of self.old) {
          lines = put (undoing_of self.old).lines (keyed line.entry.key.now line.entry.text.now);
          told = self.old.told ++ keyed line.entry.key.now line.entry.text.now ∷ [];
        }) }
    {
        self.table.put(line.key, line.text)?;
        self.tell(line)
    }

    /// Adds a line at its place.
    fn add(&mut self, line: ReadUndo<'a>) -> Result<(), Memory>
        requires sound { IsWoven self.old }
        requires part { self.old.part ≡ Adds }
        requires free { has_key self.old.told line.key.now ≡ false }
        requires held { has_key (undoing_of self.old).lines line.key.now ≡ false }
        requires from { length self.old.woven ≤ line.place }
        requires within { line.place ≤ length (undoing_of self.old).lines }
        ensures sound { OnOk result (IsWoven self.new) }
        ensures added { OnOk result (undoing_of self.new ≡ record (undoing_of self.old) {
          lines = take line.entry.place (undoing_of self.old).lines ++ keyed line.entry.key.now line.entry.text.now ∷ drop line.entry.place (undoing_of self.old).lines;
          told = self.old.told ++ keyed line.entry.key.now line.entry.text.now ∷ [];
          least = line.entry.place + 1;
        }) }
    {
        let count = line.place as usize - self.woven.len();
        self.weave(count)?;
        self.woven.put(line.key, line.text)?;
        self.tell(line)?;
        Ok(())
    }

    /// Moves the next `count` lines of the table to the new list.
    fn weave(&mut self, count: usize) -> Result<(), Memory>
        requires sound { IsWoven self.old }
        requires part { self.old.part ≡ Adds }
        requires within { self.old.next + count ≤ length self.old.table }
        ensures sound { OnOk result (IsWoven self.new) }
        ensures woven { OnOk result (undoing_of self.new ≡ record (undoing_of self.old) { least = length self.old.woven + count }) }
    {
        for _index in 0..count {
            self.weave_one()?;
        }
        Ok(())
    }

    /// Moves the next line of the table to the new list.
    fn weave_one(&mut self) -> Result<(), Memory>
        requires sound { IsWoven self.old }
        requires part { self.old.part ≡ Adds }
        requires more { self.old.next < length self.old.table }
        ensures sound { OnOk result (IsWoven self.new) }
        ensures next { OnOk result (self.new.next ≡ self.old.next + 1) }
        ensures table { OnOk result (self.new.table ≡ self.old.table) }
        ensures woven { OnOk result (undoing_of self.new ≡ record (undoing_of self.old) { least = length self.old.woven + 1 }) }
    {
        let _apart = self.table.len();
        self.woven.put(self.table.key_at(self.next), self.table.text_at(self.next))?;
        self.next += 1;
        Ok(())
    }

    /// Returns the lines of the table, after the last line of the text.
    fn finish(self) -> Result<KeyTable<'a>, Memory>
        requires { IsWoven self }
        ensures { IfOk result (λ lines. lines ≡ (undoing_of self.entry).lines) }
    {
        match self.part {
            Part::Drops => Ok(self.drop_told()),
            Part::Sets => Ok(self.into_table()),
            Part::Adds => self.weave_rest(),
        }
    }

    /// Returns the lines if the text only drops lines.
    fn drop_told(self) -> KeyTable<'a>
        requires sound { IsWoven self }
        requires part { self.part ≡ Drops }
        ensures { result ≡ (undoing_of self.entry).lines }
    {
        let Weaver {
            mut table,
            told,
            woven,
            next: _,
            part: _,
        } = self;
        drop(woven);
        table.drop_all(&told);
        table
    }

    /// Returns the table's lines if the text ends with lines that are set.
    fn into_table(self) -> KeyTable<'a>
        ensures { result ≡ self.entry.table }
    {
        let Weaver {
            table,
            told,
            woven,
            next: _,
            part: _,
        } = self;
        drop(told);
        drop(woven);
        table
    }

    /// Returns the lines if the text ends with lines that are added.
    fn weave_rest(mut self) -> Result<KeyTable<'a>, Memory>
        requires sound { IsWoven self }
        requires part { self.part ≡ Adds }
        ensures { IfOk result (λ lines. lines ≡ self.entry.woven ++ drop self.entry.next self.entry.table) }
    {
        let left = self.table.len() - self.next;
        self.weave(left)?;
        let Weaver {
            table,
            told,
            woven,
            next: _,
            part: _,
        } = self;
        drop(table);
        drop(told);
        Ok(woven)
    }
}
