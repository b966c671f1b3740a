//! Databases of the system.

ghost use Rattle.std.specs.Prelude.{◌≡◌, IfSome, IsTrue, is_ok};

use crate::mode::{reserved_bytes, set_journal_mode};
use crate::site::Site;
use crate::tables::{Change, Tables};
use crate::writer::drop_tables;
use crate::{Databases, Refused, RowTables};
use row_keeper::RefTo;
use sqlite::{Connection, File, FileStore, MemStore, Options, Unknown};
use sqlite_disk::{Disk, Files};
use sqlite_std_file::OpenError;
use std::hash::{BuildHasher, RandomState};
use std::io;

/// The name of a database in memory, as SQLite has it.
const IN_MEMORY: &str = ":memory:";

/// The number of pages of 4,096 bytes that are kept in memory after reading: 32 MiB.
const READ_PAGES: usize = 8_192;

/// The number of pages that are kept in memory after writing: 128 MiB. Keys that come in no order go to any page.
const WRITTEN_PAGES: usize = 32_768;

/// Databases in files of the system. A name is a path, or `:memory:` for a new database in memory, which is gone when it is closed.
///
/// A database that has a table, an index or a view is refused before anything is written in it or beside it. If a database is refused or
/// closed before its commit, the files that were made for it are removed, unless somebody else has it open. One that is closed after its
/// commit stands alone, without a log, as far as the system allows.
#[derive(Drop)]
pub struct SystemDatabases<'a> {
    rt: &'a HostRuntime,
}

impl<'a> SystemDatabases<'a> {
    /// Returns the databases in the system's files and memory.
    pub fn new(rt: &'a HostRuntime) -> Self
        ensures { result.rt ≡ rt.entry }
    {
        SystemDatabases { rt }
    }
}

impl<'a> Databases for SystemDatabases<'a> {
    type Tables = SystemTables<'a>;

    fn open(&self, name: &str) -> Result<SystemTables<'a>, Refused> {
        let (site, place) = if name == IN_MEMORY {
            let alloc = self.rt.alloc();
            let tables = Tables::create(alloc, Connection::open_in_memory(alloc)?)?;
            (None, Place::Memory(tables))
        } else {
            let mut site = Site::find(self.rt, name)?;
            let tables = create_at(self.rt, &mut site)?;
            (Some(site), Place::File(tables))
        };
        Ok(SystemTables {
            rt: self.rt,
            site,
            place,
            is_committed: false,
        })
    }
}

/// An open database of the system.
pub struct SystemTables<'a> {
    rt: &'a HostRuntime,
    site: Option<Site>,
    place: Place,
    is_committed: bool,
}

impl Drop for SystemTables<'_> {
    fn drop(self) {
        let SystemTables {
            rt: _,
            site,
            place,
            is_committed: _,
        } = self;
        drop(site);
        drop(place);
    }
}

/// Where an open database is.
enum Place {
    File(Tables<FileStore<File>>),
    Memory(Tables<MemStore>),
    /// It was closed after its commit failed.
    Nowhere,
}

impl Drop for Place {
    fn drop(self) {
        match self {
            Place::File(tables) => drop(tables),
            Place::Memory(tables) => drop(tables),
            Place::Nowhere => {}
        }
    }
}

impl Place {
    /// Makes a change. Only this function is proved over each store, since such a proof is costly.
    fn make(&mut self, change: Change<'_>) -> Result<(), Refused> {
        match self {
            Place::File(tables) => tables.make(change),
            Place::Memory(tables) => tables.make(change),
            Place::Nowhere => Err(Refused),
        }
    }

    /// Closes the database, and returns its files as `close_file` does.
    fn close(self) -> Option<Files<File>>
        ensures { IfSome result (λ files. IsTrue (⟦<File as Disk>⟧.is_usable files.db)) }
    {
        match self {
            Place::File(tables) => close_file(tables.into_database()),
            Place::Memory(tables) => {
                drop(tables);
                None
            }
            Place::Nowhere => None,
        }
    }
}

impl SystemTables<'_> {
    /// After a failed commit, removes the file that was made for the database. If the file still stands, drops the tables that the commit may
    /// have left in it, as far as the disk allows.
    fn take_back(&mut self) -> Result<(), Refused> {
        let is_gone = self.clear();
        // The file is locked until it is closed.
        self.place = Place::Nowhere;
        match &self.site {
            Some(site) if !is_gone => take_back_file(open_file(self.rt, site.path())?),
            _ => Ok(()),
        }
    }

    /// Keeps the files of a committed database, and takes back what a failed commit may have left. Returns how the commit ended.
    fn settle(&mut self, committed: Result<(), Refused>) -> Result<(), Refused>
        ensures same { result ≡ committed }
        ensures told { self.new.is_committed ≡ is_ok committed }
    {
        match committed {
            Ok(()) => self.keep(),
            // If that is refused too, the contents of the disk are unknown.
            Err(Refused) => {
                let _ = self.take_back();
            }
        }
        self.is_committed = committed.is_ok();
        committed
    }

    /// Removes the files that were made for the database, and tells whether it removed the file itself.
    fn clear(&mut self) -> bool {
        match &mut self.site {
            Some(site) => site.clear(self.rt),
            None => false,
        }
    }

    /// Keeps the files that were made for the database.
    fn keep(&mut self) {
        if let Some(site) = &mut self.site {
            site.keep();
        }
    }
}

impl RowTables for SystemTables<'_> {
    ghost is_committed = { λ database. database.is_committed };

    fn put(&mut self, table: u32, key: u64, refs: &[RefTo], line: &[u8]) -> Result<(), Refused> {
        self.place.make(Change::Put {
            table,
            key,
            refs,
            line,
        })
    }

    fn drop_row(&mut self, table: u32, key: u64) -> Result<(), Refused> {
        self.place.make(Change::Drop { table, key })
    }

    fn commit(&mut self) -> Result<(), Refused> {
        let committed = self.place.make(Change::Commit);
        self.settle(committed)
    }

    fn close(mut self) {
        self.clear();
        let SystemTables {
            rt,
            site,
            place,
            is_committed,
        } = self;
        let closed = place.close();
        if let (Some(site), Some(files)) = (&site, closed) {
            if is_committed {
                // If that is refused, the log or the mode stays, with all that is committed.
                let _ = leave_alone(rt, site, files);
            }
        }
    }
}

/// Closes a database. Returns its files, which are locked still, if its log was copied into the file. Else the log stays beside the file,
/// with all that is committed.
fn close_file<D: Disk + Drop>(database: Connection<FileStore<D>>) -> Option<Files<D>>
    ensures { IfSome result (λ files. IsTrue (D.Disk.is_usable files.db)) }
{
    match database.close_files() {
        Ok(files) => Some(files),
        Err((_, store)) => {
            drop(store.close());
            None
        }
    }
}

/// Leaves a closed database alone: removes its log, of which the file has all, and then gives the file the mode without one. Its files are
/// locked until then. A file whose pages can have checksums stays as it is, since the mode is in a page.
fn leave_alone(rt: &HostRuntime, site: &Site, files: Files<File>) -> io::Result<()>
    requires { IsTrue (⟦<File as Disk>⟧.is_usable files.db) }
{
    let Files { log, mut db } = files;
    if reserved_bytes(&mut db)? == 0 {
        site.remove_log(rt)?;
        set_journal_mode(&mut db)?;
    }
    drop(log);
    Ok(())
}

/// Drops the tables of a database in a file, and closes it.
fn take_back_file<D: Disk + Drop>(mut database: Connection<FileStore<D>>) -> Result<(), Refused> {
    let dropped = drop_tables(&mut database);
    drop(close_file(database));
    dropped
}

/// Makes the tables in the database of a file that has none. If that is refused, removes the files that were made for it, unless somebody
/// else has the database open.
fn create_at(rt: &HostRuntime, site: &mut Site) -> Result<Tables<FileStore<File>>, Refused> {
    let created = create_in_file(rt, site);
    if created.is_err() {
        site.clear(rt);
    }
    created
}

/// Makes the tables in the database of a file that has none.
fn create_in_file(rt: &HostRuntime, site: &mut Site) -> Result<Tables<FileStore<File>>, Refused> {
    if site.has_objects(rt)? {
        return Err(Refused);
    }
    match open_file(rt, site.path()) {
        Ok(database) => Tables::create(rt.alloc(), database),
        Err(NotOpened::Busy) => {
            site.keep();
            Err(Refused)
        }
        Err(NotOpened::Refused) => Err(Refused),
    }
}

/// Why a database in a file isn't opened.
#[derive(Clone, Copy)]
enum NotOpened {
    /// Somebody else has it open.
    Busy,
    /// The system or the database refuses it.
    Refused,
}

impl From<NotOpened> for Refused {
    fn from(_reason: NotOpened) -> Refused {
        Refused
    }
}

/// Opens the database in a file, or makes it.
fn open_file(rt: &HostRuntime, path: &str) -> Result<Connection<FileStore<File>>, NotOpened> {
    let files = match sqlite_std_file::open(rt, path, Unknown) {
        Ok(files) => files,
        Err(OpenError::Busy) => return Err(NotOpened::Busy),
        Err(_) => return Err(NotOpened::Refused),
    };
    let Ok(state) = RandomState::new(rt) else {
        return Err(NotOpened::Refused);
    };
    let mut options = Options::new(state.hash_one(&0u8));
    options.cache_pages = READ_PAGES;
    options.spill_pages = WRITTEN_PAGES;
    match Connection::open_files(rt.alloc(), files, options) {
        Ok(database) => Ok(database),
        Err(_) => Err(NotOpened::Refused),
    }
}
