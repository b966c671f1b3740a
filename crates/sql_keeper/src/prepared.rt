//! Prepared statements.

use sqlite::types::ValueRef;
use sqlite::{Alter, Connection, Error, Statement};

/// A prepared statement.
pub(crate) struct Prepared {
    statement: Statement,
}

impl Drop for Prepared {
    fn drop(self) {
        let Prepared { statement } = self;
        drop(statement);
    }
}

impl Prepared {
    /// Prepares the statement of a text.
    pub(crate) fn new<S: Alter>(
        database: &mut Connection<S>,
        text: &str,
    ) -> Result<Prepared, Error> {
        let statement = database.prepare(text)?;
        Ok(Prepared { statement })
    }

    /// Makes the statement with the values, and returns how many rows it changed.
    pub(crate) fn execute<S: Alter>(
        &self,
        database: &mut Connection<S>,
        values: &[ValueRef<'_>],
    ) -> Result<usize, Error> {
        self.statement.execute(database, values)
    }
}
