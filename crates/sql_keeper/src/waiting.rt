//! Rows that wait, so that one statement puts many.

ghost use Rattle.std.specs.Prelude.{◌≡◌, ◌+◌, ◌-◌, [], ◌++◌, IfOk, OnErr, OnOk, drop, length, take};

use crate::Refused;
use crate::numbers::{Keys, ReferenceNumber, RowNumber};
use row_keeper::RefTo;
use sqlite::types::ValueRef;
use std::alloc::Global;

/// The most rows that wait.
const MOST_ROWS: usize = 65_536;

/// The most references of the rows that wait, if there is more than one row.
const MOST_REFERENCES: usize = 131_072;

/// The most bytes of their lines, if there is more than one row.
const MOST_BYTES: usize = 4_194_304;

/// Positions from `start` up to `end`.
#[derive(Clone, Copy)]
struct Span {
    start: usize,
    end: usize,
}

/// A waiting row: its number, and where its line and its references stand in the lists of all waiting rows.
#[derive(Clone, Copy)]
pub(crate) struct WaitingRow {
    pub(crate) number: RowNumber,
    line: Span,
    references: Span,
}

/// A reference: its number, and the number of the row to which it leads.
#[derive(Clone, Copy)]
struct Reference {
    number: ReferenceNumber,
    parent: RowNumber,
}

/// Rows that wait, with their lines and their references.
pub(crate) struct Waiting {
    alloc: Global,
    rows: Vec<WaitingRow>,
    text: Vec<u8>,
    references: Vec<Reference>,
}

impl Drop for Waiting {
    fn drop(self) {
        let Waiting {
            alloc: _,
            rows,
            text,
            references,
        } = self;
        drop(rows);
        drop(text);
        drop(references);
    }
}

impl Waiting {
    /// Returns an empty list of rows.
    pub(crate) fn new(alloc: Global) -> Waiting
        ensures rows { result.rows.items ≡ [] }
        ensures text { result.text.items ≡ [] }
    {
        Waiting {
            alloc,
            rows: Vec::new(alloc),
            text: Vec::new(alloc),
            references: Vec::new(alloc),
        }
    }

    /// Tells whether there is room for another row. If no row waits, there is.
    pub(crate) fn has_room(&self, refs: &[RefTo], line: &[u8]) -> bool {
        self.rows.is_empty()
            || self.rows.len() < MOST_ROWS
                && refs.len() <= MOST_REFERENCES.saturating_sub(self.references.len())
                && line.len() <= MOST_BYTES.saturating_sub(self.text.len())
    }

    /// Adds a row with its references. They refer to rows whose keys are known. If it is refused, it doesn't wait.
    pub(crate) fn add(
        &mut self,
        keys: &Keys,
        number: RowNumber,
        refs: &[RefTo],
        line: &[u8],
    ) -> Result<(), Refused>
        ensures rows { OnOk result (length self.new.rows.items ≡ length self.old.rows.items + 1) }
        ensures text { OnOk result (self.new.text.items ≡ self.old.text.items ++ line.now) }
        ensures refused_rows { OnErr result (self.new.rows.items ≡ self.old.rows.items) }
        ensures refused_text { OnErr result (self.new.text.items ≡ self.old.text.items) }
    {
        let line_start = self.text.len();
        let references_start = self.references.len();
        let added = self.add_parts(keys, number, refs, line);
        if added.is_err() {
            self.text.truncate(line_start);
            self.references.truncate(references_start);
        }
        added
    }

    /// Adds a row with its references. If it is refused, a part of it may stay.
    fn add_parts(
        &mut self,
        keys: &Keys,
        number: RowNumber,
        refs: &[RefTo],
        line: &[u8],
    ) -> Result<(), Refused>
        ensures rows { OnOk result (length self.new.rows.items ≡ length self.old.rows.items + 1) }
        ensures text { OnOk result (self.new.text.items ≡ self.old.text.items ++ line.now) }
        ensures refused_rows { OnErr result (self.new.rows.items ≡ self.old.rows.items) }
        ensures refused_text { OnErr result (take (length self.old.text.items) self.new.text.items ≡ self.old.text.items) }
    {
        let line_start = self.text.len();
        let references_start = self.references.len();
        push_references(&mut self.references, keys, number, refs)?;
        self.text.extend_from_slice(line)?;
        self.rows.push(WaitingRow {
            number,
            line: Span {
                start: line_start,
                end: self.text.len(),
            },
            references: Span {
                start: references_start,
                end: self.references.len(),
            },
        })?;
        Ok(())
    }

    /// Forgets all rows.
    pub(crate) fn clear(&mut self)
        ensures rows { self.new.rows.items ≡ [] }
        ensures text { self.new.text.items ≡ [] }
    {
        self.rows.clear();
        self.text.clear();
        self.references.clear();
    }

    /// Sorts the rows by number. Of rows with the same number, only the last keeps its references.
    pub(crate) fn sort(&mut self) -> Result<(), Refused> {
        self.rows.sort_by_key(|row| row.number)?;
        for at in 1..self.rows.len() {
            let after = self.rows.as_slice().get(at).map(|row| row.number);
            if let Some(row) = self.rows.as_mut_slice().get_mut(at - 1) {
                if after == Some(row.number) {
                    row.references = Span { start: 0, end: 0 };
                }
            }
        }
        Ok(())
    }

    /// Returns the rows.
    pub(crate) fn rows(&self) -> &[WaitingRow] {
        self.rows.as_slice()
    }

    /// Returns the number of references of the rows.
    pub(crate) fn references(&self) -> usize {
        self.references.len()
    }

    /// Returns the line of a row.
    pub(crate) fn line(&self, row: &WaitingRow) -> Result<&[u8], Refused>
        ensures { IfOk result (λ line. line.now ≡ take (row.now.line.end - row.now.line.start) (drop row.now.line.start self.now.text.items)) }
    {
        let Span { start, end } = row.line;
        self.text.as_slice().get(start..end).ok_or(Refused)
    }

    /// Returns the number and the line of each row.
    pub(crate) fn row_values(&self, rows: &[WaitingRow]) -> Result<Vec<ValueRef<'_>>, Refused> {
        let mut values = Vec::new(self.alloc);
        for row in rows {
            values.push(row.number.value())?;
            values.push(ValueRef::Blob(self.line(row)?))?;
        }
        Ok(values)
    }

    /// Returns the number and the parent's number of each reference of the rows.
    pub(crate) fn reference_values(
        &self,
        rows: &[WaitingRow],
    ) -> Result<Vec<ValueRef<'static>>, Refused> {
        let mut values = Vec::new(self.alloc);
        for row in rows {
            let Span { start, end } = row.references;
            let references = self.references.as_slice().get(start..end);
            for reference in references.ok_or(Refused)? {
                values.push(reference.number.value())?;
                values.push(reference.parent.value())?;
            }
        }
        Ok(values)
    }
}

/// Adds the references of a row to others. They refer to rows whose keys are known. If one is refused, those before it stay.
fn push_references(
    references: &mut Vec<Reference>,
    keys: &Keys,
    number: RowNumber,
    refs: &[RefTo],
) -> Result<(), Refused> {
    for to in refs {
        let parent = keys.row(to.table, to.key)?.ok_or(Refused)?;
        let number = number.reference(to.column)?;
        references.push(Reference { number, parent })?;
    }
    Ok(())
}
