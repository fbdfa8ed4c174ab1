//! Where the stores of databases are.
ghost use Rattle.std.specs.Prelude.{◌≡◌, ℕ, IfOk, ⊤, string_bytes};
ghost use Rattle.sqlite.specs.Effect.{Database};
ghost use Rattle.sqlite.specs.Held.{state};
ghost use Rattle.escrow_cells.specs.Tables.{no_schema};
ghost use Rattle.escrow_rows.specs.Answers.{IsUsable};
ghost use Rattle.escrow_server.specs.Files.{file_of};

use crate::site::{Outlook, Site};
use escrow_memory::BlockStore;
use escrow_num::Refusal;
use sqlite::{Alter, Connection, Error, ErrorCode, File, FileStore, Options, Unknown};
use sqlite_std_file::OpenError;
use std::alloc::{AllocError, Global};
use std::hash::{BuildHasher, RandomState};
use std::io::{self, ErrorKind};
use thiserror::Error as FaultError;

/// Why a store can't be opened.
#[derive(Clone, Copy, Debug, FaultError)]
pub enum OpenFault {
    /// Memory was refused.
    #[error("out of memory")]
    Memory,
    /// A store may not have this path.
    #[error("the path is empty, is `:memory:`, or begins with `file:`")]
    Path,
    /// The path is that of a folder or a device, or of a file with several names.
    #[error("it is not a regular file, or it has several hard links")]
    NoFile,
    /// The path is a link that leads nowhere.
    #[error("it is a symbolic link to a file that doesn't exist")]
    Dangling,
    /// A folder of the path doesn't exist.
    #[error("its directory doesn't exist")]
    NoFolder,
    /// The system denies permission.
    #[error("permission denied: the file must be readable and writable, and so must its directory, where the log is made")]
    Denied,
    /// The system can't open it.
    #[error("{0}")]
    System(io::Error),
    /// Another program has it open.
    #[error("another program has it open")]
    InUse,
    /// SQLite stopped in the middle of a write, and left a rollback journal, which only SQLite can
    /// play back.
    #[error("SQLite was stopped during a write: open the file with sqlite3 once, then try again")]
    Journal,
    /// It holds something else, or it was damaged.
    #[error("it is not a store of escrowd: it holds something else, or it is damaged")]
    Foreign,
    /// It is a store of another format.
    #[error("it was made by another version of escrowd")]
    Version,
    /// The disk is full.
    #[error("the disk is full")]
    Full,
    /// It can't be read or written.
    #[error("it can't be read or written")]
    Store,
}

impl From<AllocError> for OpenFault {
    fn from(_error: AllocError) -> OpenFault {
        OpenFault::Memory
    }
}

impl From<OpenError> for OpenFault {
    fn from(error: OpenError) -> OpenFault {
        match error {
            OpenError::OutOfMemory => OpenFault::Memory,
            OpenError::Busy => OpenFault::InUse,
            OpenError::HotJournal => OpenFault::Journal,
            OpenError::Io(error) => OpenFault::from(error),
        }
    }
}

impl From<io::Error> for OpenFault {
    fn from(error: io::Error) -> OpenFault {
        match error.kind() {
            ErrorKind::OutOfMemory => OpenFault::Memory,
            ErrorKind::Unsupported => OpenFault::NoFile,
            ErrorKind::PermissionDenied | ErrorKind::ReadOnlyFilesystem => OpenFault::Denied,
            ErrorKind::StorageFull => OpenFault::Full,
            _ => OpenFault::System(error),
        }
    }
}

impl From<Error> for OpenFault {
    fn from(error: Error) -> OpenFault {
        match error {
            Error::SqliteFailure(ErrorCode::OutOfMemory) => OpenFault::Memory,
            Error::SqliteFailure(ErrorCode::NotADatabase | ErrorCode::DatabaseCorrupt) => {
                OpenFault::Foreign
            }
            Error::SqliteFailure(ErrorCode::DiskFull) => OpenFault::Full,
            _ => OpenFault::Store,
        }
    }
}

impl From<Refusal> for OpenFault {
    fn from(cause: Refusal) -> OpenFault {
        match cause {
            Refusal::Memory => OpenFault::Memory,
            Refusal::ForeignStore => OpenFault::Foreign,
            Refusal::UnknownVersion => OpenFault::Version,
            _ => OpenFault::Store,
        }
    }
}

/// Why a store can't be closed. What was committed is in its two files together.
#[derive(Clone, Copy, Debug, FaultError)]
pub enum CloseFault {
    /// Memory was refused.
    #[error("out of memory")]
    Memory,
    /// The disk is full.
    #[error("the disk is full")]
    Full,
    /// It can't be read or written.
    #[error("it can't be read or written")]
    Store,
}

impl From<Error> for CloseFault {
    fn from(error: Error) -> CloseFault {
        match error {
            Error::SqliteFailure(ErrorCode::OutOfMemory) => CloseFault::Memory,
            Error::SqliteFailure(ErrorCode::DiskFull) => CloseFault::Full,
            _ => CloseFault::Store,
        }
    }
}

/// A store that was opened, and its files, if it has any.
#[derive(Drop)]
pub struct Opened<C> {
    /// The connection to the store.
    pub connection: C,
    /// Its files.
    pub site: Option<Site>,
}

/// Opens the stores of databases.
pub trait OpenStore<S: Alter> {
    // What the store of the database at a place may hold when it is opened.
    ghost may_hold: { Self → ℕ → Database → Type 0 };

    /// Opens the store of the database at a place, counted from 0.
    fn open(&self, alloc: Global, place: u8) -> Result<Opened<Connection<S>>, OpenFault>
        ensures { IfOk result (λ o. IsUsable (state S.Store o.connection)
            → may_hold self.now place (state S.Store o.connection).now) };

    /// Restores the files of a store that is refused to what they were before it was opened. They
    /// must still be open.
    fn put_back(&self, site: &Site);
}

/// Stores in memory, which hold nothing at first.
#[derive(Clone, Copy)]
pub struct InMemory;

impl OpenStore<BlockStore> for InMemory {
    ghost use Rattle.std.specs.Prelude.{◌≡◌};
    ghost use Rattle.escrow_cells.specs.Tables.{no_schema};

    ghost may_hold = { λ _ _ db. db.schema ≡ no_schema };

    fn open(&self, alloc: Global, _place: u8) -> Result<Opened<Connection<BlockStore>>, OpenFault> {
        let connection = escrow_memory::open(alloc)?;
        Ok(Opened {
            connection,
            site: None,
        })
    }

    fn put_back(&self, _site: &Site) {}
}

/// Stores in files. No contract says what they hold.
#[derive(Clone, Copy)]
pub struct InFiles<'a> {
    /// The runtime that opens them.
    pub rt: &'a HostRuntime,
    /// The file of the first database.
    pub path: &'a str,
}

impl OpenStore<FileStore<File>> for InFiles<'_> {
    ghost use Rattle.std.specs.Prelude.{⊤};

    ghost may_hold = { λ _ _ _. ⊤ };

    fn open(
        &self,
        alloc: Global,
        place: u8,
    ) -> Result<Opened<Connection<FileStore<File>>>, OpenFault> {
        if !is_path(self.path) {
            return Err(OpenFault::Path);
        }
        let file = file_of(alloc, self.path, place)?;
        let outlook = Outlook::look(self.rt, file.as_str())?;
        open_file(self.rt, file.as_str(), outlook)
    }

    fn put_back(&self, site: &Site) {
        site.put_back(self.rt);
    }
}

/// Returns whether a path may be that of a store. The words that SQLite takes for something other
/// than a file may not.
fn is_path(path: &str) -> bool {
    !path.is_empty() && path != ":memory:" && !path.starts_with("file:")
}

/// Returns the file of the database at a place, counted from 0: the path itself, or the path, a
/// point and the database's number.
pub fn file_of(alloc: Global, path: &str, place: u8) -> Result<String, AllocError>
    ensures { IfOk result (λ file. string_bytes file ≡ file_of path.now place) }
{
    if place == 0 {
        String::from_str(alloc, path)
    } else {
        let number = u64::from(place) + 1;
        format!(in alloc; "{path}.{number}")
    }
}

/// Opens a file, or makes it. The disk is assumed to leave each byte of a write that a crash stops
/// either as it was or as it was to be. If the store is refused, its folder stays as it was, unless
/// the system itself fails between the making of the two files.
fn open_file(
    rt: &HostRuntime,
    path: &str,
    outlook: Outlook,
) -> Result<Opened<Connection<FileStore<File>>>, OpenFault> {
    test_outlook(rt, &outlook)?;
    let Ok(random) = RandomState::new(rt) else {
        return Err(OpenFault::Store);
    };
    let options = Options::new(random.hash_one(&0u8));
    let files = sqlite_std_file::open(rt, path, Unknown)?;
    let site = outlook.look_again(rt);
    match Connection::open_files_with(rt.alloc(), files, options, false) {
        Ok(connection) => Ok(Opened {
            connection,
            site: Some(site),
        }),
        Err((error, left)) => {
            // While the files are open, nobody else uses them.
            let files = left.into_files();
            site.put_back(rt);
            drop(files);
            Err(OpenFault::from(error))
        }
    }
}

/// Refuses what would be refused anyway, before a file is made beside it. Also refuses a file of a
/// single byte, which would be made a store.
fn test_outlook(rt: &HostRuntime, outlook: &Outlook) -> Result<(), OpenFault> {
    if outlook.is_dangling(rt)? {
        return Err(OpenFault::Dangling);
    }
    if outlook.is_one_byte(rt)? {
        return Err(OpenFault::Foreign);
    }
    if outlook.is_blocked(rt)? {
        return Err(OpenFault::NoFile);
    }
    if outlook.has_journal_alone(rt)? {
        return Err(OpenFault::Journal);
    }
    if let Err(error) = outlook.read_folder(rt) {
        return Err(match error.kind() {
            ErrorKind::NotFound => OpenFault::NoFolder,
            _ => OpenFault::from(error),
        });
    }
    outlook.try_lone_log(rt)?;
    Ok(())
}

/// Closes a store: copies its log into its database, and removes it.
pub fn close(
    rt: &HostRuntime,
    connection: Connection<FileStore<File>>,
    site: Option<&Site>,
) -> Result<(), CloseFault> {
    match connection.close_files() {
        Ok(files) => {
            // While the files are open, nobody else uses them.
            if let Some(site) = site {
                site.remove_log(rt);
            }
            drop(files);
            Ok(())
        }
        Err((error, store)) => {
            drop(store.close());
            Err(CloseFault::from(error))
        }
    }
}
