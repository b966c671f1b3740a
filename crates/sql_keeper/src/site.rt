//! The files of a store: which of them existed before it was opened, and whether they hold anything.

use crate::Refused;
use database_heads::lists_objects;
use std::fs::OpenOptions;
use std::io::ErrorKind;
use std::os::unix::fs::OpenOptionsExt;
use std::{fs, io};

/// The files of a store, and which of them were made for it.
pub(crate) struct Site {
    /// The path of the file.
    path: String,
    /// The path of the log.
    log: String,
    /// Whether the file was made for the store.
    made_store: bool,
    /// Whether no log stood there before.
    made_log: bool,
}

impl Drop for Site {
    fn drop(self) {
        let Site {
            path,
            log,
            made_store: _,
            made_log: _,
        } = self;
        drop(path);
        drop(log);
    }
}

impl Site {
    /// Finds the files of the store of a name. Makes the file if there is none, so that nobody else makes it. Doesn't make a log.
    pub(crate) fn find(rt: &HostRuntime, name: &str) -> Result<Site, Refused> {
        let made_store = makes(rt, name)?;
        match Site::at(rt, name, made_store) {
            Ok(site) => Ok(site),
            Err(_) => {
                if made_store {
                    let _ = fs::remove_file(rt, name);
                }
                Err(Refused)
            }
        }
    }

    /// Returns the files of the store of a name, whose file exists. As in SQLite, they lie where a link leads.
    fn at(rt: &HostRuntime, name: &str, made_store: bool) -> io::Result<Site> {
        let path = fs::canonicalize(rt, name)?.into_string();
        let mut log = String::from_str(rt.alloc(), path.as_str())?;
        log.push_str("-wal")?;
        let made_log = !stands(rt, log.as_str())?;
        Ok(Site {
            path,
            log,
            made_store,
            made_log,
        })
    }

    /// Returns the path of the file.
    pub(crate) fn path(&self) -> &str {
        self.path.as_str()
    }

    /// Tells whether the store has a table, an index or a view. A file that is no database has none. Refused if it is no file.
    pub(crate) fn has_objects(&self, rt: &HostRuntime) -> Result<bool, Refused> {
        let log = if self.made_log {
            None
        } else {
            Some(self.log.as_str())
        };
        Ok(lists_objects(rt, self.path.as_str(), log)?)
    }

    /// Removes the files that were made for the store, and tells whether it removed the file itself.
    pub(crate) fn clear(&mut self, rt: &HostRuntime) -> bool {
        let is_gone = self.made_store && fs::remove_file(rt, self.path.as_str()).is_ok();
        if self.made_log {
            let _ = fs::remove_file(rt, self.log.as_str());
        }
        self.keep();
        is_gone
    }

    /// Removes the log, of which the file has all. Nobody else may have the file open.
    pub(crate) fn remove_log(&self, rt: &HostRuntime) -> io::Result<()> {
        fs::remove_file(rt, self.log.as_str())
    }

    /// Keeps the files, since they hold something or belong to somebody else by now.
    pub(crate) fn keep(&mut self) {
        self.made_store = false;
        self.made_log = false;
    }
}

/// Makes an empty file if nothing stands at its name, and tells whether it did.
fn makes(rt: &HostRuntime, name: &str) -> io::Result<bool> {
    if stands(rt, name)? {
        return Ok(false);
    }
    let made = OpenOptions::new()
        .read(true)
        .write(true)
        .create_new(true)
        .mode(0o644)
        .open(rt, name);
    match made {
        Ok(_) => Ok(true),
        Err(error) if error.kind() == ErrorKind::AlreadyExists => Ok(false),
        Err(error) => Err(error),
    }
}

/// Tells whether anything stands at a name.
fn stands(rt: &HostRuntime, name: &str) -> io::Result<bool> {
    match fs::symlink_metadata(rt, name) {
        Ok(_) => Ok(true),
        Err(error) if error.kind() == ErrorKind::NotFound => Ok(false),
        Err(error) => Err(error),
    }
}
