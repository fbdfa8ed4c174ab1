//! Databases over files in memory that stop after a number of calls. No function here has a clause,
//! so the proof of a test does not carry the state of each call.
use escrow_core::{Database, Event};
use escrow_machine::Reply;
use escrow_num::{Refusal, Session};
use escrow_recover::{Opened, StoreFault, migrate, open_store};
use escrow_reply::render;
use escrow_sql::{Request, Statement, parse};
use sqlite::{Alter, Connection, FileStore, Files, Options};
use sqlite_disk::{Disk, Fuse, Memory};
use std::alloc::{AllocError, Global};
use std::io;
use std::process::Abort;
use std::test::Fail;

/// A store over files.
type Store = FileStore<Fuse<Memory>>;

/// Statements of one session, each with its reply.
pub(super) type Asked = &'static [(&'static str, &'static str)];

/// Statements that a database is given at once, each with the number of its session and its reply.
pub(super) type AskedAtOnce = &'static [(u16, &'static str, &'static str)];

/// The log and the database file of a store.
#[derive(Drop)]
pub(super) struct Disks {
    pub(super) log: Fuse<Memory>,
    pub(super) db: Fuse<Memory>,
}

impl Disks {
    /// Returns files with these bytes, already synced. Each stops after a number of calls.
    pub(super) fn new(
        alloc: Global,
        [log, db]: [&[u8]; 2],
        [log_calls, db_calls]: [u64; 2],
    ) -> io::Result<Disks> {
        let log = Fuse::new(file_of(alloc, log)?, log_calls);
        let db = Fuse::new(file_of(alloc, db)?, db_calls);
        Ok(Disks { log, db })
    }

    /// Returns the files of a store.
    fn of(files: Files<Fuse<Memory>>) -> Disks {
        let Files { log, db } = files;
        Disks { log, db }
    }
}

/// Returns a file with these bytes, already synced.
fn file_of(alloc: Global, bytes: &[u8]) -> io::Result<Memory> {
    let mut file = Memory::new(alloc);
    file.write_at(0, bytes)?;
    file.sync()?;
    Ok(file)
}

/// A database that a test opens, asks and closes. The tests' functions are generic over it: the
/// proof of one that names a store's type takes ten times as long.
pub(super) trait Bank: Drop {
    /// Opens a store by `migrate` or by `open_store`. Returns the database, and whether the store
    /// was migrated. SQLite copies the log into the database file once it has `frames` frames.
    ///
    /// # Errors
    ///
    /// Returns the number of the refusal, and the files.
    fn open(
        alloc: Global,
        disks: Disks,
        frames: usize,
        migrates: bool,
    ) -> Result<(Self, bool), (u8, Disks)>;

    /// Serves a statement of a session.
    fn step(&mut self, alloc: Global, session: Session, statement: &Statement) -> Reply;

    /// Serves statements of sessions in one call.
    fn run(&mut self, alloc: Global, events: &[Event]) -> Result<Vec<Reply>, AllocError>;

    /// Limits how many steps of SQLite a statement may take.
    fn limit(&mut self, steps: Option<u64>);

    /// Executes statements of SQL, and copies the log into the database file. Returns whether that succeeded, and the
    /// files.
    fn close(self, statements: &[&str]) -> (bool, Disks);

    /// Returns the files as they are.
    fn stop(self) -> Disks;
}

/// A database over files.
pub(super) struct OverFiles {
    database: Database<Store>,
}

// Written out, so that tests need not prove again how its parts are dropped.
impl Drop for OverFiles {
    fn drop(self) {
        let OverFiles { database: _ } = self;
    }
}

impl Bank for OverFiles {
    fn open(
        alloc: Global,
        disks: Disks,
        frames: usize,
        migrates: bool,
    ) -> Result<(OverFiles, bool), (u8, Disks)> {
        let conn = match connect(alloc, disks, frames) {
            Ok(conn) => conn,
            Err(disks) => return Err((Refusal::Store.number(), disks)),
        };
        match database(alloc, conn, migrates) {
            Ok((database, migrated)) => Ok((OverFiles { database }, migrated)),
            Err((number, conn)) => Err((number, Disks::of(conn.into_store().close()))),
        }
    }

    fn step(&mut self, alloc: Global, session: Session, statement: &Statement) -> Reply {
        self.database.step(alloc, session, statement)
    }

    fn run(&mut self, alloc: Global, events: &[Event]) -> Result<Vec<Reply>, AllocError> {
        self.database.run(alloc, events)
    }

    fn limit(&mut self, steps: Option<u64>) {
        self.database.set_step_limit(steps);
    }

    fn close(self, statements: &[&str]) -> (bool, Disks) {
        let OverFiles { database } = self;
        let mut conn = database.into_connection();
        if !execute(&mut conn, statements) {
            return (false, Disks::of(conn.into_store().close()));
        }
        match conn.close_files() {
            Ok(files) => (true, Disks::of(files)),
            Err((_, store)) => (false, Disks::of(store.close())),
        }
    }

    fn stop(self) -> Disks {
        let OverFiles { database } = self;
        Disks::of(database.into_connection().into_store().close())
    }
}

/// Connects to a store, and keeps few of its pages in memory.
fn connect(alloc: Global, disks: Disks, frames: usize) -> Result<Connection<Store>, Disks> {
    let Disks { log, db } = disks;
    let files = Files { log, db };
    if !files.may_be_used() {
        return Err(Disks::of(files));
    }
    let options = Options {
        cache_pages: 32,
        spill_pages: 8,
        checkpoint_frames: frames,
        seed: 1,
    };
    match Connection::open_files(alloc, files, options) {
        Ok(conn) => Ok(conn),
        Err((_, left)) => Err(Disks::of(left.into_files())),
    }
}

/// Executes statements of SQL. Returns whether that succeeded.
pub(super) fn execute<S: Alter>(conn: &mut Connection<S>, statements: &[&str]) -> bool {
    for statement in statements {
        if conn.execute_batch(statement).is_err() {
            return false;
        }
    }
    true
}

/// Opens a store by `migrate` or by `open_store`.
///
/// # Errors
///
/// Returns the number of the refusal, and the connection.
pub(super) fn read<S: Alter + Drop>(
    alloc: Global,
    conn: Connection<S>,
    migrates: bool,
) -> Result<Opened<S>, (u8, Connection<S>)> {
    let opened = if migrates {
        migrate(alloc, conn)
    } else {
        open_store(alloc, conn)
    };
    match opened {
        Ok(opened) => Ok(opened),
        Err(fault) => Err(refused(fault)),
    }
}

/// Returns the number of a refusal to open a store, and the connection.
fn refused<S: Alter + Drop>(fault: StoreFault<S>) -> (u8, Connection<S>) {
    let StoreFault { connection, cause } = fault;
    (cause.number(), connection)
}

/// Opens a database over a store, as [`read`] does.
fn database<S: Alter + Drop>(
    alloc: Global,
    conn: Connection<S>,
    migrates: bool,
) -> Result<(Database<S>, bool), (u8, Connection<S>)> {
    if migrates {
        return match migrate(alloc, conn) {
            Ok(opened) => {
                let migrated = opened.migrated;
                made(Database::open(alloc, opened), migrated)
            }
            Err(fault) => Err(refused(fault)),
        };
    }
    match open_store(alloc, conn) {
        Ok(opened) => made(Database::open(alloc, opened), false),
        Err(fault) => Err(refused(fault)),
    }
}

/// Returns a database that was opened, and whether its store was migrated; or the number of the
/// refusal, and the connection.
fn made<S: Alter + Drop>(
    opened: Result<Database<S>, (Opened<S>, Refusal)>,
    migrated: bool,
) -> Result<(Database<S>, bool), (u8, Connection<S>)> {
    match opened {
        Ok(database) => Ok((database, migrated)),
        Err((opened, refusal)) => Err((refusal.number(), opened.store.into_connection())),
    }
}

/// Opens a database over a database file by `open_store`.
pub(super) fn over<R: Abort + AllocGlobal, B: Bank>(rt: &R, file: &[u8]) -> Result<B, Fail> {
    let disks = Disks::new(rt.alloc(), [&[], file], [u64::MAX; 2])?;
    let opened: Option<(B, bool)> = B::open(rt.alloc(), disks, 1000, false).ok();
    let (bank, _) = opened.expect(rt, "a store");
    Ok(bank)
}

/// Returns the database file of a new store in which statements of SQL were executed.
pub(super) fn file_with<R: Abort + AllocGlobal, B: Bank>(
    rt: &R,
    statements: &[&str],
) -> Result<Vec<u8>, Fail> {
    let bank: B = over(rt, &[])?;
    let (is_closed, disks) = bank.close(statements);
    assert!(rt; is_closed);
    let mut bytes = Vec::new(rt.alloc());
    bytes.extend_from_slice(disks.db.inner().bytes())?;
    Ok(bytes)
}

/// Returns the statement of a text.
fn statement(alloc: Global, text: &str) -> Option<Statement> {
    match parse(alloc, text) {
        Ok(Request::Statement(statement)) => Some(statement),
        _ => None,
    }
}

/// Returns what a database replies to a statement of a session, as printed.
pub(super) fn ask<R: Abort + AllocGlobal, B: Bank>(
    rt: &R,
    bank: &mut B,
    number: u16,
    text: &str,
) -> Result<String, Fail> {
    let alloc = rt.alloc();
    let session = Session::new(number).expect(rt, "a session");
    let statement = statement(alloc, text).expect(rt, "a statement");
    let reply = bank.step(alloc, session, &statement);
    printed(alloc, session, &reply)
}

/// Returns a reply to a session, as printed.
fn printed(alloc: Global, session: Session, reply: &Reply) -> Result<String, Fail> {
    let lines = render(alloc, "bank", session, reply)?;
    let text = str::from_utf8(lines.as_slice())?;
    Ok(String::from_str(alloc, text)?)
}

/// Asks statements of sessions at once, and compares the replies up to the first statement that the
/// store refuses. Returns the place of that statement.
pub(super) fn ask_at_once<R: Abort + AllocGlobal, B: Bank>(
    rt: &R,
    bank: &mut B,
    asked: AskedAtOnce,
) -> Result<Option<usize>, Fail> {
    let alloc = rt.alloc();
    let mut events = Vec::new(alloc);
    for (number, text, _) in asked {
        let session = Session::new(*number).expect(rt, "a session");
        let statement = statement(alloc, text).expect(rt, "a statement");
        events.push(Event::Statement { session, statement })?;
    }
    let replies = bank.run(alloc, events.as_slice())?;
    for (place, (reply, (number, text, wanted))) in replies.iter().zip(asked).enumerate() {
        if matches!(reply, Reply::Refused(Refusal::Store)) {
            return Ok(Some(place));
        }
        let session = Session::new(*number).expect(rt, "a session");
        let got = printed(alloc, session, reply)?;
        assert_eq!(rt; got.as_str(), *wanted, "{text}");
    }
    Ok(None)
}

/// Asks statements of a session, one after another, and compares the replies.
pub(super) fn ask_all<R: Abort + AllocGlobal, B: Bank>(
    rt: &R,
    bank: &mut B,
    number: u16,
    asked: &[(&str, &str)],
) -> Result<(), Fail> {
    for (text, reply) in asked {
        let got = ask(rt, bank, number, text)?;
        assert_eq!(rt; got.as_str(), *reply, "{text}");
    }
    Ok(())
}
