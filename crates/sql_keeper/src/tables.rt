//! The two tables of a store, and the changes to them.

use crate::Refused;
use crate::numbers::Keys;
use crate::waiting::Waiting;
use crate::writer::Writer;
use row_keeper::RefTo;
use sqlite::{Alter, Connection};
use std::alloc::Global;

/// A change to the rows of a store.
#[derive(Clone, Copy)]
pub(crate) enum Change<'a> {
    /// A row is put with its references. It replaces a row with the same key.
    Put {
        table: u32,
        key: u64,
        refs: &'a [RefTo],
        line: &'a [u8],
    },
    /// A row is dropped with its references.
    Drop {
        table: u32,
        key: u64,
    },
    /// What was put and dropped is committed.
    Commit,
}

/// An open database with the two tables, in a transaction.
///
/// Rows that are put wait until there are many, until one is dropped, or until the end. Then a few statements put them in the order of their
/// numbers, so that pages are written one after another. The references between the rows follow.
pub(crate) struct Tables<S: Alter + Drop> {
    writer: Writer<S>,
    keys: Keys,
    waiting: Waiting,
}

impl<S: Alter + Drop> Drop for Tables<S> {
    fn drop(self) {
        let Tables {
            writer,
            keys: _,
            waiting,
        } = self;
        drop(writer);
        drop(waiting);
    }
}

impl<S: Alter + Drop> Tables<S> {
    /// Makes the tables in a database that has none.
    pub(crate) fn create(alloc: Global, database: Connection<S>) -> Result<Tables<S>, Refused> {
        let writer = Writer::create(alloc, database)?;
        Ok(Tables {
            writer,
            keys: Keys::new(),
            waiting: Waiting::new(alloc),
        })
    }

    /// Makes a change.
    pub(crate) fn make(&mut self, change: Change<'_>) -> Result<(), Refused> {
        match change {
            Change::Put {
                table,
                key,
                refs,
                line,
            } => self.put(table, key, refs, line),
            Change::Drop { table, key } => self.drop_row(table, key),
            Change::Commit => self.commit(),
        }
    }

    /// Puts a row with its references. Replaces a row with the same key.
    pub(crate) fn put(
        &mut self,
        table: u32,
        key: u64,
        refs: &[RefTo],
        line: &[u8],
    ) -> Result<(), Refused> {
        let row = self.keys.add(table, key)?;
        if !self.waiting.has_room(refs, line) {
            self.put_waiting()?;
        }
        self.waiting.add(&self.keys, row, refs, line)
    }

    /// Drops a row with its references.
    pub(crate) fn drop_row(&mut self, table: u32, key: u64) -> Result<(), Refused> {
        self.put_waiting()?;
        match self.keys.row(table, key)? {
            Some(row) => self.writer.drop_row(row),
            None => Ok(()),
        }
    }

    /// Puts the rows that wait. If one is refused, none waits any more.
    pub(crate) fn put_waiting(&mut self) -> Result<(), Refused> {
        let put = self.put_sorted();
        self.waiting.clear();
        put
    }

    /// Sorts the waiting rows and puts them.
    fn put_sorted(&mut self) -> Result<(), Refused> {
        self.waiting.sort()?;
        self.writer.put_all(&self.waiting)
    }

    /// Commits what was put and dropped.
    pub(crate) fn commit(&mut self) -> Result<(), Refused> {
        self.put_waiting()?;
        self.writer.commit()
    }

    /// Returns the database, in its transaction, without the rows that wait.
    pub(crate) fn into_database(self) -> Connection<S> {
        let Tables {
            writer,
            keys: _,
            waiting,
        } = self;
        drop(waiting);
        writer.into_database()
    }
}
