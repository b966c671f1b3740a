//! A store in a database of SQLite.

ghost use Rattle.std.specs.Prelude.{◌≡◌, ◌≤◌, ◌+◌, ◌&&◌, None, false, true, IfSome, IsErr, IsTrue, OnErr, OnOk, is_err, is_ok, is_some};
ghost use Rattle.std.specs.Option.{option_map};
ghost use Rattle.pd_outside.specs.Faults.{counted, exact_counts, faults_after};

use crate::{Databases, Refused, RowTables};
use row_keeper::{KeepFailed, Keeper, RefTo};

/// A store in a database of SQLite. It tells neither its rows nor its name.
///
/// `start` opens the database of a name, which must have no table, and begins a transaction. `finish` commits it. Each refused call is
/// counted as a fault. After a refused statement all others are refused, and the transaction can't be committed.
///
/// A row that is put can wait, so that one statement puts many. If it is refused, a later call tells so, `finish` at the latest.
pub struct SqlKeeper<D: Databases + Drop> {
    /// Where the store's database is opened.
    databases: D,
    /// The open database; None if the store isn't open.
    tables: Option<D::Tables>,
    /// Whether all statements since the last `start` were made.
    is_sound: bool,
    /// The number of statements since the last `start`.
    done: u64,
    /// How often a call failed.
    faults: u64,
    /// Whether the last call failed.
    last_failed: bool,
}

impl<D: Databases + Drop> Drop for SqlKeeper<D> {
    fn drop(self) {
        let SqlKeeper {
            databases,
            tables,
            is_sound: _,
            done: _,
            faults: _,
            last_failed: _,
        } = self;
        drop(databases);
        drop(tables);
    }
}

impl<D: Databases + Drop> SqlKeeper<D> {
    /// Returns a store in one of the databases. It isn't open, and no call was made.
    pub fn new(databases: D) -> Self
        ensures closed { is_some result.tables ≡ false }
        ensures done { result.done ≡ 0 }
        ensures faults { result.faults ≡ 0 }
        ensures last { result.last_failed ≡ false }
    {
        SqlKeeper {
            databases,
            tables: None,
            is_sound: true,
            done: 0,
            faults: 0,
            last_failed: false,
        }
    }

    /// Returns the open database, with what was put so far, in its transaction; None if the store isn't open.
    pub fn into_tables(self) -> Option<D::Tables>
        ensures { result ≡ self.tables }
    {
        let SqlKeeper {
            databases,
            tables: open,
            is_sound: _,
            done: _,
            faults: _,
            last_failed: _,
        } = self;
        drop(databases);
        open
    }

    /// Returns how a statement ended, and counts it if it was made and can be counted.
    fn told(&mut self, made: Result<(), Refused>) -> Result<(), KeepFailed>
        ensures tables { self.new.tables ≡ self.old.tables }
        ensures made { OnOk result (self.new.done ≡ self.old.done + 1) }
        ensures unchanged { OnErr result (self.new.done ≡ self.old.done) }
        ensures refused { OnErr made (IsErr result) }
        ensures sound { self.new.is_sound ≡ (is_ok result && self.old.is_sound) }
        ensures never_falls { self.old.faults ≤ self.new.faults }
        ensures counted { self.new.faults ≡ faults_after result self.old.faults }
        ensures last { self.new.last_failed ≡ is_err result }
    {
        match self.done.checked_add(1) {
            Some(done) if made.is_ok() => {
                self.done = done;
                self.last_failed = false;
                Ok(())
            }
            _ => self.stop(),
        }
    }

    /// Counts a failed call as a fault.
    fn fail(&mut self) -> Result<(), KeepFailed>
        ensures failed { IsErr result }
        ensures never_falls { self.old.faults ≤ self.new.faults }
        ensures rest { self.new ≡ record self.old { faults = counted self.old.faults; last_failed = true } }
    {
        self.faults = self.faults.saturating_add(1);
        self.last_failed = true;
        Err(KeepFailed)
    }

    /// Counts a failed call as a fault, after which each further one is refused.
    fn stop(&mut self) -> Result<(), KeepFailed>
        ensures failed { IsErr result }
        ensures never_falls { self.old.faults ≤ self.new.faults }
        ensures rest { self.new ≡ record self.old { is_sound = false; faults = counted self.old.faults; last_failed = true } }
    {
        self.is_sound = false;
        self.fail()
    }

    /// Puts a row, if the store is open and no statement was refused.
    fn put_in(&mut self, table: u32, key: u64, refs: &[RefTo], line: &[u8]) -> Result<(), Refused>
        ensures tables { is_some self.new.tables ≡ is_some self.old.tables }
        ensures unsound { self.old.is_sound ≡ false → IsErr result × (self.new ≡ self.old) }
        ensures committed { option_map D.Tables.is_committed self.new.tables ≡ option_map D.Tables.is_committed self.old.tables }
        ensures rest { self.new ≡ record self.old { tables = self.new.tables } }
    {
        match &mut self.tables {
            Some(tables) if self.is_sound => tables.put(table, key, refs, line),
            _ => Err(Refused),
        }
    }

    /// Drops a row, if the store is open and no statement was refused.
    fn drop_in(&mut self, table: u32, key: u64) -> Result<(), Refused>
        ensures tables { is_some self.new.tables ≡ is_some self.old.tables }
        ensures unsound { self.old.is_sound ≡ false → IsErr result × (self.new ≡ self.old) }
        ensures committed { option_map D.Tables.is_committed self.new.tables ≡ option_map D.Tables.is_committed self.old.tables }
        ensures rest { self.new ≡ record self.old { tables = self.new.tables } }
    {
        match &mut self.tables {
            Some(tables) if self.is_sound => tables.drop_row(table, key),
            _ => Err(Refused),
        }
    }

    /// Commits what was put and dropped, if no statement was refused.
    fn commit(&mut self) -> Result<(), Refused>
        ensures tables { is_some self.new.tables ≡ is_some self.old.tables }
        ensures unsound { self.old.is_sound ≡ false → IsErr result × (self.new ≡ self.old) }
        ensures committed { OnOk result (IfSome self.new.tables (λ tables. IsTrue (D.Tables.is_committed tables))) }
        ensures told { IsTrue self.old.is_sound → IfSome self.new.tables (λ tables. D.Tables.is_committed tables ≡ is_ok result) }
        ensures rest { self.new ≡ record self.old { tables = self.new.tables } }
    {
        match &mut self.tables {
            Some(tables) if self.is_sound => tables.commit(),
            _ => Err(Refused),
        }
    }

    /// Closes the database of a store that was committed. Returns how the commit ended, and counts it if it failed. After that all further
    /// calls are refused.
    fn settle(&mut self, committed: Result<(), Refused>) -> Result<(), KeepFailed>
        requires { OnOk committed (IfSome self.old.tables (λ tables. IsTrue (D.Tables.is_committed tables))) }
        ensures told { is_ok result ≡ is_ok committed }
        ensures closed { OnOk result (is_some self.new.tables ≡ false) }
        ensures open { OnErr result (self.new.tables ≡ self.old.tables) }
        ensures sound { self.new.is_sound ≡ (is_ok result && self.old.is_sound) }
        ensures done { self.new.done ≡ self.old.done }
        ensures never_falls { self.old.faults ≤ self.new.faults }
        ensures counted { self.new.faults ≡ faults_after result self.old.faults }
        ensures last { self.new.last_failed ≡ is_err result }
    {
        match committed {
            Ok(()) => {
                self.close();
                self.last_failed = false;
                Ok(())
            }
            Err(Refused) => self.stop(),
        }
    }

    /// Closes the database, which was committed.
    fn close(&mut self)
        requires { IfSome self.old.tables (λ tables. IsTrue (D.Tables.is_committed tables)) }
        ensures tables { is_some self.new.tables ≡ false }
        ensures rest { self.new ≡ record self.old { tables = self.new.tables } }
    {
        if let Some(tables) = self.tables.take() {
            tables.close();
        }
    }
}

impl<D: Databases + Drop> Keeper for SqlKeeper<D> {
    ghost store = { λ m. record { rows = None; name = None; is_open = is_some m.tables; done = m.done } };

    ghost counts = { λ m. exact_counts m.faults m.last_failed };

    fn start(&mut self, name: &str) -> Result<(), KeepFailed> {
        match self.databases.open(name) {
            Ok(tables) => {
                self.tables = Some(tables);
                self.is_sound = true;
                self.done = 0;
                self.last_failed = false;
                Ok(())
            }
            Err(Refused) => self.fail(),
        }
    }

    fn put(&mut self, table: u32, key: u64, refs: &[RefTo], line: &[u8]) -> Result<(), KeepFailed> {
        let made = self.put_in(table, key, refs, line);
        self.told(made)
    }

    fn drop_row(&mut self, table: u32, key: u64) -> Result<(), KeepFailed> {
        let made = self.drop_in(table, key);
        self.told(made)
    }

    fn finish(&mut self) -> Result<(), KeepFailed> {
        let committed = self.commit();
        self.settle(committed)
    }
}
