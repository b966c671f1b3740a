//! Statements that put rows of two values.

use crate::prepared::Prepared;
use sqlite::types::ValueRef;
use sqlite::{Alter, Connection, Error};
use std::alloc::{AllocError, Global};

/// The most rows that one statement puts.
pub(crate) const MANY: usize = 32;

/// The number of rows that one statement puts if fewer than `MANY` are left.
const SOME: usize = 8;

/// The number of values of a row.
const WIDTH: usize = 2;

/// Statements that put rows into one table. A statement costs something by itself, so one statement puts many rows.
pub(crate) struct Inserts {
    of_many: Prepared,
    of_some: Prepared,
    of_one: Prepared,
}

impl Drop for Inserts {
    fn drop(self) {
        let Inserts {
            of_many,
            of_some,
            of_one,
        } = self;
        drop(of_many);
        drop(of_some);
        drop(of_one);
    }
}

impl Inserts {
    /// Prepares the statements that begin with a text, which names the table and its two columns.
    pub(crate) fn prepare<S: Alter>(
        database: &mut Connection<S>,
        alloc: Global,
        begin: &str,
    ) -> Result<Inserts, Error> {
        Ok(Inserts {
            of_many: prepare(database, alloc, begin, MANY)?,
            of_some: prepare(database, alloc, begin, SOME)?,
            of_one: prepare(database, alloc, begin, 1)?,
        })
    }

    /// Puts rows, whose values stand one after another.
    pub(crate) fn make<S: Alter>(
        &self,
        database: &mut Connection<S>,
        values: &[ValueRef<'_>],
    ) -> Result<(), Error> {
        for group in values.chunks(MANY * WIDTH) {
            if group.len() == MANY * WIDTH {
                self.of_many.execute(database, group)?;
            } else {
                self.make_few(database, group)?;
            }
        }
        Ok(())
    }

    /// Puts fewer than `MANY` rows.
    fn make_few<S: Alter>(
        &self,
        database: &mut Connection<S>,
        values: &[ValueRef<'_>],
    ) -> Result<(), Error> {
        for group in values.chunks(SOME * WIDTH) {
            if group.len() == SOME * WIDTH {
                self.of_some.execute(database, group)?;
            } else {
                self.make_one_by_one(database, group)?;
            }
        }
        Ok(())
    }

    /// Puts rows one by one.
    fn make_one_by_one<S: Alter>(
        &self,
        database: &mut Connection<S>,
        values: &[ValueRef<'_>],
    ) -> Result<(), Error> {
        for row in values.chunks(WIDTH) {
            self.of_one.execute(database, row)?;
        }
        Ok(())
    }
}

/// Prepares the statement that puts `rows` rows.
fn prepare<S: Alter>(
    database: &mut Connection<S>,
    alloc: Global,
    begin: &str,
    rows: usize,
) -> Result<Prepared, Error> {
    let text = insert_text(alloc, begin, rows)?;
    Prepared::new(database, text.as_str())
}

/// Returns the text of the statement that puts `rows` rows.
fn insert_text(alloc: Global, begin: &str, rows: usize) -> Result<String, AllocError> {
    let mut text = String::from_str(alloc, begin)?;
    for row in 0..rows {
        text.push_str(if row == 0 { " (?, ?)" } else { ", (?, ?)" })?;
    }
    Ok(text)
}
