//! The statements on the two tables of a store.

ghost use Rattle.std.specs.Prelude.{◌≡◌, ◌↔◌, IsOk, pos};

use crate::Refused;
use crate::inserts::{Inserts, MANY};
use crate::numbers::RowNumber;
use crate::prepared::Prepared;
use crate::waiting::{Waiting, WaitingRow};
use sqlite::types::ValueRef;
use sqlite::{Alter, Connection, Constraint, Error, ErrorCode};
use std::alloc::Global;

/// Counts the objects of a database: tables, indexes, views and so on.
const COUNT_OBJECTS: &str = "SELECT count(*) FROM sqlite_schema";

/// Makes the tables. A row has its number and its line. A reference has its number and that of the row to which it leads.
const CREATE_TABLES: &str = "BEGIN;
CREATE TABLE kept_row (
  row_id INTEGER PRIMARY KEY,
  line BLOB NOT NULL
);
CREATE TABLE kept_reference (
  reference_id INTEGER PRIMARY KEY,
  parent_id INTEGER NOT NULL REFERENCES kept_row (row_id)
);";

/// Makes the index that finds the references to a row.
const CREATE_INDEX: &str = "CREATE INDEX kept_reference_by_parent ON kept_reference (parent_id)";

const ADD_ROWS: &str = "INSERT INTO kept_row (row_id, line) VALUES";

const ADD_REFERENCES: &str = "INSERT INTO kept_reference (reference_id, parent_id) VALUES";

const SET_LINE: &str = "UPDATE kept_row SET line = ?2 WHERE row_id = ?1";

const DROP_REFERENCES: &str = "DELETE FROM kept_reference WHERE reference_id BETWEEN ?1 AND ?2";

const DROP_ROW: &str = "DELETE FROM kept_row WHERE row_id = ?1";

const COMMIT: &str = "COMMIT";

const DROP_TABLES: &str = "BEGIN;
DROP TABLE kept_reference;
DROP TABLE kept_row;
COMMIT";

/// The most references that are put without the index. To make the index takes some 120 bytes of memory for each of them.
const UNINDEXED: usize = 1 << 19;

/// The prepared statements.
struct Statements {
    add_rows: Inserts,
    add_references: Inserts,
    set_line: Prepared,
    drop_references: Prepared,
    drop_row: Prepared,
}

impl Drop for Statements {
    fn drop(self) {
        let Statements {
            add_rows,
            add_references,
            set_line,
            drop_references,
            drop_row,
        } = self;
        drop(add_rows);
        drop(add_references);
        drop(set_line);
        drop(drop_references);
        drop(drop_row);
    }
}

impl Statements {
    /// Prepares the statements for a database with the tables.
    fn prepare<S: Alter>(
        database: &mut Connection<S>,
        alloc: Global,
    ) -> Result<Statements, Refused> {
        Ok(Statements {
            add_rows: Inserts::prepare(database, alloc, ADD_ROWS)?,
            add_references: Inserts::prepare(database, alloc, ADD_REFERENCES)?,
            set_line: Prepared::new(database, SET_LINE)?,
            drop_references: Prepared::new(database, DROP_REFERENCES)?,
            drop_row: Prepared::new(database, DROP_ROW)?,
        })
    }
}

/// Makes the statements on the tables of an open database, in a transaction.
///
/// The index is made when a row is dropped or replaced, when there are many references, or at the end. To keep it up to date from the first
/// reference on would take longer.
pub(crate) struct Writer<S: Alter + Drop> {
    database: Connection<S>,
    statements: Statements,
    is_indexed: bool,
    /// The number of references that were put without the index.
    unindexed: usize,
}

impl<S: Alter + Drop> Drop for Writer<S> {
    fn drop(self) {
        let Writer {
            database,
            statements,
            is_indexed: _,
            unindexed: _,
        } = self;
        drop(database);
        drop(statements);
    }
}

impl<S: Alter + Drop> Writer<S> {
    /// Makes the tables in a database that has none.
    pub(crate) fn create(alloc: Global, mut database: Connection<S>) -> Result<Writer<S>, Refused> {
        let statements = make_tables(&mut database, alloc)?;
        Ok(Writer {
            database,
            statements,
            is_indexed: false,
            unindexed: 0,
        })
    }

    /// Puts rows, each in place of the one with its number, and then their references.
    pub(crate) fn put_all(&mut self, waiting: &Waiting) -> Result<(), Refused> {
        for rows in waiting.rows().chunks(MANY) {
            self.put_lines(waiting, rows)?;
        }
        for rows in waiting.rows().chunks(MANY) {
            self.put_references(waiting, rows)?;
        }
        self.unindexed = self.unindexed.saturating_add(waiting.references());
        if self.unindexed < UNINDEXED {
            Ok(())
        } else {
            self.index()
        }
    }

    /// Puts rows without their references.
    fn put_lines(&mut self, waiting: &Waiting, rows: &[WaitingRow]) -> Result<(), Refused> {
        let values = waiting.row_values(rows)?;
        let statements = &self.statements.add_rows;
        match statements.make(&mut self.database, values.as_slice()) {
            Ok(()) => Ok(()),
            Err(error) if is_taken(error) => self.set_lines(waiting, rows),
            Err(_) => Err(Refused),
        }
    }

    /// Puts rows without their references one by one, since a row has one of their numbers already.
    fn set_lines(&mut self, waiting: &Waiting, rows: &[WaitingRow]) -> Result<(), Refused> {
        self.index()?;
        for row in rows {
            self.set_line(row.number, waiting.line(row)?)?;
        }
        Ok(())
    }

    /// Sets the line of the row with a number and drops its references. Puts the row if there is none.
    fn set_line(&mut self, row: RowNumber, line: &[u8]) -> Result<(), Refused> {
        self.drop_references(row)?;
        let values = [row.value(), ValueRef::Blob(line)];
        if self
            .statements
            .set_line
            .execute(&mut self.database, &values)?
            == 0
        {
            self.statements.add_rows.make(&mut self.database, &values)?;
        }
        Ok(())
    }

    /// Puts the references of rows that were put.
    fn put_references(&mut self, waiting: &Waiting, rows: &[WaitingRow]) -> Result<(), Refused> {
        let values = waiting.reference_values(rows)?;
        let statements = &self.statements.add_references;
        statements.make(&mut self.database, values.as_slice())?;
        Ok(())
    }

    /// Drops a row with its references.
    pub(crate) fn drop_row(&mut self, row: RowNumber) -> Result<(), Refused> {
        self.index()?;
        self.drop_references(row)?;
        let statement = &self.statements.drop_row;
        statement.execute(&mut self.database, &[row.value()])?;
        Ok(())
    }

    /// Drops the references of a row.
    fn drop_references(&mut self, row: RowNumber) -> Result<(), Refused> {
        let (first, last) = row.references()?;
        let statement = &self.statements.drop_references;
        statement.execute(&mut self.database, &[first.value(), last.value()])?;
        Ok(())
    }

    /// Makes the index if it isn't made yet.
    fn index(&mut self) -> Result<(), Refused> {
        if self.is_indexed {
            return Ok(());
        }
        self.is_indexed = true;
        batch(&mut self.database, CREATE_INDEX)
    }

    /// Commits what was put and dropped.
    pub(crate) fn commit(&mut self) -> Result<(), Refused> {
        self.index()?;
        batch(&mut self.database, COMMIT)
    }

    /// Returns the database, in its transaction.
    pub(crate) fn into_database(self) -> Connection<S> {
        let Writer {
            database,
            statements,
            is_indexed: _,
            unindexed: _,
        } = self;
        drop(statements);
        database
    }
}

/// Tells whether a row was refused because another has its number.
fn is_taken(error: Error) -> bool {
    matches!(
        error,
        Error::SqliteFailure(ErrorCode::ConstraintViolation(Constraint::PrimaryKey))
    )
}

/// Begins a transaction in an empty database, makes the tables, and prepares the statements on them.
fn make_tables<S: Alter>(
    database: &mut Connection<S>,
    alloc: Global,
) -> Result<Statements, Refused> {
    refuse_objects(count_objects(database)?)?;
    batch(database, CREATE_TABLES)?;
    Statements::prepare(database, alloc)
}

/// Refuses a database with objects, by their number.
fn refuse_objects(count: i64) -> Result<(), Refused>
    ensures { IsOk result ↔ (count ≡ pos 0) }
{
    if count == 0 { Ok(()) } else { Err(Refused) }
}

/// Drops the tables of a database and commits that. Refused if it has none.
pub(crate) fn drop_tables<S: Alter>(database: &mut Connection<S>) -> Result<(), Refused> {
    batch(database, DROP_TABLES)
}

/// Returns the number of objects of a database.
fn count_objects<S: Alter>(database: &mut Connection<S>) -> Result<i64, Refused> {
    Ok(database.query_row(COUNT_OBJECTS, &[])?.get(0)?)
}

/// Makes the statements of a text.
fn batch<S: Alter>(database: &mut Connection<S>, text: &str) -> Result<(), Refused> {
    Ok(database.execute_batch(text)?)
}
