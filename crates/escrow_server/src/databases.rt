//! The databases of the program.
ghost use Rattle.std.specs.Prelude.{◌≡◌, ◌≤◌, ◌<◌, [], vec_len, IfOk, IfErr, OnOk};
ghost use Rattle.sqlite.specs.Held.{state};
ghost use Rattle.sqlite.specs.State.{HasCleanDisk};
ghost use Rattle.escrow_rows.specs.Answers.{IsUsable};
ghost use Rattle.escrow_serve.specs.Output.{states_of, HaveCleanDisks};
ghost use Rattle.escrow_server.specs.Program.{run_status, AreFound, IsFound, StartsAs};

use crate::fault::RunFault;
use crate::site::Site;
use crate::stores::{CloseFault, OpenFault, OpenStore, Opened, close};
use escrow_core::Database;
use escrow_recover::migrate;
use escrow_script::{MAX_DATABASES, database_name};
use sqlite::{Alter, Connection, File, FileStore};
use std::alloc::Global;

/// Opens this many databases, one after another, each over the store at its place, and notes where
/// their files are. If one can't be opened, those opened before it stay in `databases`.
pub(crate) fn open_databases<S: Alter + Drop, O: OpenStore<S>>(
    alloc: Global,
    stores: &O,
    count: u8,
    databases: &mut Vec<Database<S>>,
    sites: &mut Vec<Option<Site>>,
) -> Result<(), RunFault>
    requires some { 1 ≤ count }
    requires few { count ≤ MAX_DATABASES }
    requires none { databases.old.items ≡ [] }
    ensures found { HaveCleanDisks S.Store databases.new.items
        → OnOk result (AreFound (O.may_hold stores.now) count (states_of databases.new.items)) }
    ensures least { OnOk result (1 ≤ vec_len databases.new) }
    ensures most { OnOk result (vec_len databases.new ≤ MAX_DATABASES) }
    ensures kind { IfErr result (λ fault. run_status fault ≡ 3) }
{
    // Each database that is opened must be closed, so room for it is made first.
    let room = usize::from(count);
    let Ok(()) = databases.reserve(room).and(sites.reserve(room)) else {
        return Err(unopened(0, OpenFault::Memory));
    };
    for place in 0..count {
        match open_database(alloc, stores, place, sites) {
            Ok(database) => {
                if databases.push(database).is_err() {
                    return Err(unopened(place, OpenFault::Memory));
                }
            }
            Err(cause) => return Err(unopened(place, cause)),
        }
    }
    Ok(())
}

/// Returns the fault of a store that can't be opened, with its database's place.
fn unopened(place: u8, cause: OpenFault) -> RunFault
    requires { place < MAX_DATABASES }
    ensures { run_status result ≡ 3 }
{
    RunFault::Unopened {
        database: database_name(usize::from(place)),
        place,
        cause,
    }
}

/// Opens the database at a place, and notes where its files are. If it is refused, its files are
/// left as they were.
fn open_database<S: Alter + Drop, O: OpenStore<S>>(
    alloc: Global,
    stores: &O,
    place: u8,
    sites: &mut Vec<Option<Site>>,
) -> Result<Database<S>, OpenFault>
    ensures { IfOk result (λ d. HasCleanDisk (state S.Store d.store) → IsFound (O.may_hold stores.now place) d.state) }
{
    let Opened {
        connection,
        mut site,
    } = stores.open(alloc, place)?;
    match over(alloc, connection) {
        Ok((database, migrated)) => {
            if let Some(site) = &mut site {
                site.note_migrated(migrated);
            }
            if sites.push(site).is_err() {
                return Err(OpenFault::Memory);
            }
            Ok(database)
        }
        Err((cause, connection)) => {
            // While the database has its files open, nobody else uses them.
            if let Some(site) = &site {
                stores.put_back(site);
            }
            drop(connection);
            Err(cause)
        }
    }
}

/// Returns the database over what a store holds: its tables and rows, or no tables if the store has
/// no objects. Nothing is open in it. A store of the previous format is migrated to the known one,
/// and the result says so. If the store is refused, the connection is returned.
fn over<S: Alter + Drop>(
    alloc: Global,
    connection: Connection<S>,
) -> Result<(Database<S>, bool), (OpenFault, Connection<S>)>
    ensures found { IfOk result
        (λ d. HasCleanDisk (state S.Store d.0.store) → StartsAs (state S.Store connection).now d.0.state) }
    ensures usable { IfOk result (λ d. HasCleanDisk (state S.Store d.0.store) → IsUsable (state S.Store connection)) }
{
    match migrate(alloc, connection) {
        Ok(opened) => {
            let migrated = opened.migrated;
            match Database::open(alloc, opened) {
                Ok(database) => Ok((database, migrated)),
                Err((opened, _)) => Err((OpenFault::Memory, opened.store.into_connection())),
            }
        }
        Err(fault) => Err((OpenFault::from(fault.cause), fault.connection)),
    }
}

/// Why stores can't be closed, by the places of their databases.
pub(crate) type Unclosed = [Option<CloseFault>; MAX_DATABASES as usize];

/// Closes the stores of databases, each in its files. Returns why some of them can't be closed.
pub(crate) fn close_databases(
    rt: &HostRuntime,
    mut databases: Vec<Database<FileStore<File>>>,
    sites: &[Option<Site>],
) -> Unclosed {
    let mut unclosed = [None; MAX_DATABASES as usize];
    while let Some(database) = databases.pop() {
        let place = databases.len();
        let site = sites.get(place).and_then(Option::as_ref);
        if let Err(fault) = close(rt, database.into_connection(), site) {
            if let Some(slot) = unclosed.get_mut(place) {
                *slot = Some(fault);
            }
        }
    }
    unclosed
}
