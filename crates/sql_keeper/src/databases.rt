//! Where databases are opened.

ghost use Rattle.std.specs.Prelude.{◌≡◌, Bool, IfOk, false, is_ok};

use crate::Refused;
use crate::tables::Tables;
use row_keeper::RefTo;
use sqlite::{Connection, MemStore};
use std::alloc::Global;

/// An open database in a transaction, with tables that keep rows and the references between them.
///
/// A row that is put can wait, so that one statement puts many. If it is refused, a later call tells so, `commit` at the latest.
pub trait RowTables {
    /// Whether the last `commit` was made. It is false before the first.
    ghost is_committed: { Self → Bool };

    /// Puts a row with its references. Replaces a row with the same key.
    fn put(&mut self, table: u32, key: u64, refs: &[RefTo], line: &[u8]) -> Result<(), Refused>
        ensures committed { is_committed self.new ≡ is_committed self.old };

    /// Drops a row with its references.
    fn drop_row(&mut self, table: u32, key: u64) -> Result<(), Refused>
        ensures committed { is_committed self.new ≡ is_committed self.old };

    /// Commits what was put and dropped.
    fn commit(&mut self) -> Result<(), Refused>
        ensures committed { is_committed self.new ≡ is_ok result };

    /// Closes the database.
    fn close(self);
}

/// Databases that are opened by a name.
pub trait Databases {
    /// The type of an open database.
    type Tables: RowTables + Drop;

    /// Opens the database of a name, or makes it, and makes the tables in it. Refused if it has any table.
    fn open(&self, name: &str) -> Result<Self::Tables, Refused>
        ensures committed { IfOk result (λ tables. Self.Tables.is_committed tables ≡ false) };
}

/// Databases in memory. Each is a new one.
#[derive(Drop)]
pub struct MemoryDatabases {
    alloc: Global,
}

impl MemoryDatabases {
    /// Returns databases in this memory.
    pub fn new(alloc: Global) -> Self
        ensures { result.alloc ≡ alloc }
    {
        MemoryDatabases { alloc }
    }
}

/// An open database in memory.
#[derive(Drop)]
pub struct MemoryTables {
    tables: Tables<MemStore>,
    is_committed: bool,
}

impl MemoryTables {
    /// Puts the rows that wait.
    pub fn put_waiting(&mut self) -> Result<(), Refused> {
        self.tables.put_waiting()
    }

    /// Returns the database, in its transaction, without the rows that wait.
    pub fn into_database(self) -> Connection<MemStore> {
        self.tables.into_database()
    }
}

impl Databases for MemoryDatabases {
    type Tables = MemoryTables;

    fn open(&self, _name: &str) -> Result<MemoryTables, Refused> {
        let tables = Tables::create(self.alloc, Connection::open_in_memory(self.alloc)?)?;
        Ok(MemoryTables {
            tables,
            is_committed: false,
        })
    }
}

impl RowTables for MemoryTables {
    ghost is_committed = { λ database. database.is_committed };

    fn put(&mut self, table: u32, key: u64, refs: &[RefTo], line: &[u8]) -> Result<(), Refused> {
        self.tables.put(table, key, refs, line)
    }

    fn drop_row(&mut self, table: u32, key: u64) -> Result<(), Refused> {
        self.tables.drop_row(table, key)
    }

    fn commit(&mut self) -> Result<(), Refused> {
        let committed = self.tables.commit();
        self.is_committed = committed.is_ok();
        committed
    }

    fn close(self) {}
}
