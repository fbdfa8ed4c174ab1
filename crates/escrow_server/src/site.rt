//! The files of a store.

use sqlite::Unknown;
use sqlite_std_file::OpenError;
use std::alloc::{AllocError, Global};
use std::fs::{self, File, OpenOptions};
use std::io::{self, ErrorKind, Read};
use std::os::unix::fs::MetadataExt;
use std::path::Path;

/// Where a path leads, and what was there before anything was locked.
#[derive(Drop)]
pub struct Outlook {
    database: String,
    log: String,
    makes_database: bool,
    makes_log: bool,
    // The length of the log.
    log_len: u64,
}

/// The two files of a store, the database and its log, and which of them the program makes. Both are locked.
#[derive(Drop)]
pub struct Site {
    outlook: Outlook,
    // Which files they are, and the length of the log when both were locked.
    database: Option<Identity>,
    log: Option<Identity>,
    log_len: u64,
    // Whether the store had the previous format when it was opened.
    migrated: bool,
}

/// Which file of the system a file is, whatever its name: its device, and its number there.
#[derive(Clone, Copy, PartialEq, Eq)]
struct Identity {
    device: u64,
    number: u64,
}

impl Outlook {
    /// Looks where a path leads, and what is there. If nothing is there, both files are to be made.
    /// The path names them, if it is no link.
    ///
    /// # Errors
    ///
    /// Fails with the system's error, or if memory is refused.
    pub fn look(rt: &HostRuntime, path: &str) -> io::Result<Outlook> {
        match fs::canonicalize(rt, path) {
            Ok(real) => Outlook::beside(rt, real.as_str(), false),
            Err(error) if error.kind() == ErrorKind::NotFound => Outlook::beside(rt, path, true),
            Err(error) => Err(error),
        }
    }

    /// Returns the files of a database, with the log beside it.
    fn beside(rt: &HostRuntime, database: &str, makes_database: bool) -> io::Result<Outlook> {
        let log = with_suffix(rt.alloc(), database, "-wal")?;
        let found = found(rt, log.as_str())?;
        Ok(Outlook {
            database: String::from_str(rt.alloc(), database)?,
            log,
            makes_database,
            makes_log: found.is_none(),
            log_len: found.map_or(0, |log| log.len()),
        })
    }

    /// Returns whether the file there can't become a store and must be left as it is: a file of a
    /// single byte, which SQLite would take for an empty one.
    pub(crate) fn is_one_byte(&self, rt: &HostRuntime) -> io::Result<bool> {
        Ok(
            self.makes_log
                && !self.makes_database
                && fs::metadata(rt, self.database.as_str())?.len() == 1,
        )
    }

    /// Returns whether the path is a link that leads nowhere.
    pub(crate) fn is_dangling(&self, rt: &HostRuntime) -> io::Result<bool> {
        if !self.makes_database {
            return Ok(false);
        }
        match found(rt, self.database.as_str())? {
            Some(found) => Ok(found.is_symlink()),
            None => Ok(false),
        }
    }

    /// Returns whether no database can be made there, because something is in the place of its log:
    /// a folder, a device, a link, or a file with several names.
    pub(crate) fn is_blocked(&self, rt: &HostRuntime) -> io::Result<bool> {
        if !self.makes_database {
            return Ok(false);
        }
        match found(rt, self.log.as_str())? {
            Some(log) => Ok(!log.is_file() || log.nlink() != 1),
            None => Ok(false),
        }
    }

    /// Returns whether a rollback journal of SQLite's is there, without a database. It counts if it
    /// isn't empty and doesn't begin with a zero, or if it is anything but a file.
    pub(crate) fn has_journal_alone(&self, rt: &HostRuntime) -> io::Result<bool> {
        if !self.makes_database {
            return Ok(false);
        }
        let journal = with_suffix(rt.alloc(), self.database.as_str(), "-journal")?;
        match found(rt, journal.as_str())? {
            Some(journal) if !journal.is_file() => Ok(true),
            Some(_) => begins(rt, journal.as_str()),
            None => Ok(false),
        }
    }

    /// Reads the folder of the files, which must be synced after they are made.
    ///
    /// # Errors
    ///
    /// Fails with the system's error.
    pub(crate) fn read_folder(&self, rt: &HostRuntime) -> io::Result<()> {
        let folder = match Path::new(self.database.as_str()).parent() {
            Some(folder) if !folder.as_str().is_empty() => folder.as_str(),
            _ => ".",
        };
        let _folder = File::open(rt, folder)?;
        Ok(())
    }

    /// Locks a log that is there without its database, and releases it. If another program has it
    /// open, the database was moved meanwhile. A log is locked as the file of a database is, so it
    /// is opened as one, and the files that this makes beside it are removed.
    ///
    /// # Errors
    ///
    /// Fails if it is in use, with the system's error, or if memory is refused.
    pub(crate) fn try_lone_log(&self, rt: &HostRuntime) -> Result<(), OpenError> {
        if !self.makes_database || self.makes_log {
            return Ok(());
        }
        let beside = with_suffix(rt.alloc(), self.log.as_str(), "-wal")?;
        let makes_beside = found(rt, beside.as_str())?.is_none();
        let files = sqlite_std_file::open(rt, self.log.as_str(), Unknown)?;
        if makes_beside {
            let _ = fs::remove_file(rt, beside.as_str());
        }
        drop(files);
        Ok(())
    }

    /// Looks again, with both files locked. A file that isn't empty was made by somebody else. So
    /// was a database whose log has grown, since a new database is entirely in its log.
    pub fn look_again(mut self, rt: &HostRuntime) -> Site {
        let log_len = len(rt, self.log.as_str()).unwrap_or(0);
        self.makes_database &= len(rt, self.database.as_str()) == Some(0)
            && log_len == self.log_len;
        self.makes_log &= log_len == 0;
        Site {
            database: file_at(rt, self.database.as_str()),
            log: file_at(rt, self.log.as_str()),
            outlook: self,
            log_len,
            migrated: false,
        }
    }
}

impl Site {
    /// Notes whether the store had the previous format when it was opened, and so has the known one
    /// since.
    pub fn note_migrated(&mut self, migrated: bool) {
        self.migrated = migrated;
    }

    /// Returns whether the store had the previous format when it was opened.
    pub fn is_migrated(&self) -> bool {
        self.migrated
    }

    /// Restores what was there: removes what the program has made, and cuts off what opening a log
    /// appended to it. Both files must be locked. What can't be restored stays as it is.
    pub(crate) fn put_back(&self, rt: &HostRuntime) {
        if self.outlook.makes_log {
            self.remove_log(rt);
        } else {
            let _ = cut(rt, self.outlook.log.as_str(), self.log, self.log_len);
        }
        if self.outlook.makes_database {
            remove(rt, self.outlook.database.as_str(), self.database);
        }
    }

    /// Removes a log that was copied into its database. Both files must be locked. A log that can't
    /// be removed stays, and holds nothing.
    pub(crate) fn remove_log(&self, rt: &HostRuntime) {
        remove(rt, self.outlook.log.as_str(), self.log);
    }
}

/// Returns a path with a suffix.
fn with_suffix(alloc: Global, path: &str, suffix: &str) -> Result<String, AllocError> {
    format!(in alloc; "{path}{suffix}")
}

/// Returns what is at a path, if anything is. Doesn't follow a link.
fn found(rt: &HostRuntime, path: &str) -> io::Result<Option<fs::Metadata>> {
    match fs::symlink_metadata(rt, path) {
        Ok(found) => Ok(Some(found)),
        Err(error) if error.kind() == ErrorKind::NotFound => Ok(None),
        Err(error) => Err(error),
    }
}

/// Returns how many bytes the file at a path has, if there is one.
fn len(rt: &HostRuntime, path: &str) -> Option<u64> {
    match fs::symlink_metadata(rt, path) {
        Ok(found) if found.is_file() => Some(found.len()),
        _ => None,
    }
}

/// Returns which file is at a path, if there is one.
fn file_at(rt: &HostRuntime, path: &str) -> Option<Identity> {
    match fs::symlink_metadata(rt, path) {
        Ok(found) if found.is_file() => Some(Identity {
            device: found.dev(),
            number: found.ino(),
        }),
        _ => None,
    }
}

/// Removes a file, if it is still at its path. Another file that came there since is left.
fn remove(rt: &HostRuntime, path: &str, file: Option<Identity>) {
    if file.is_some() && file_at(rt, path) == file {
        let _ = fs::remove_file(rt, path);
    }
}

/// Cuts a file off, if it is still at its path and is longer.
fn cut(rt: &HostRuntime, path: &str, file: Option<Identity>, most: u64) -> io::Result<()> {
    if file.is_some() && file_at(rt, path) == file {
        let file = OpenOptions::new().write(true).open(rt, path)?;
        if file.metadata()?.len() > most {
            file.set_len(most)?;
        }
    }
    Ok(())
}

/// Returns whether a file begins with a byte that isn't zero.
fn begins(rt: &HostRuntime, path: &str) -> io::Result<bool> {
    let mut first = [0];
    let count = fs::open(rt, path)?.read(&mut first)?;
    Ok(count == 1 && first[0] != 0)
}
