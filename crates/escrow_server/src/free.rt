//! Scripts whose sessions run at the same time, in databases that the program opened.
ghost use Rattle.std.specs.Prelude.{◌≡◌, ◌≤◌, map, vec_len, IfOk, OnOk, IfSome};
ghost use Rattle.std.specs.Vec.{vec_capacity};
ghost use Rattle.std.specs.Io.KnownBytes.{IsAtEnd};
ghost use Rattle.escrow_free.specs.FreeOutput.{ServesFree};
ghost use Rattle.escrow_free.specs.Histories.{AreHistories, histories};
ghost use Rattle.escrow_server.specs.Free.{ended_of, AreEnded, HoldCleanDisks, RunsFree};
ghost use Rattle.escrow_serve.specs.Output.{states_of};

use crate::monitor::start;
use crate::screen::Screen;
use escrow_core::Database;
use escrow_free::{FreeFault, serve_free, serve_free_watched};
use escrow_script::{Duplex, MAX_DATABASES};
use escrow_shards::{Audit, Closed, NoGate};
use sqlite::Alter;
use std::alloc::Global;
use std::io::{Read, Write};
use std::mem;
use std::sync::Wait;
use std::thread::Threads;

/// Serves a script phase by phase, the sessions of a phase at the same time, and leaves the
/// databases as their histories end. After a fault no database is left. May wait.
pub(crate) fn serve_phases<
    S: Alter + Drop + Send + 'static,
    T: Threads + Wait + Sync,
    R: Read,
    W: Write,
    X: Screen + Send + Drop + 'static,
>(
    rt: &T,
    alloc: Global,
    databases: &mut Vec<Database<S>>,
    client: &mut Duplex<R, W>,
    screen: Option<X>,
) -> Result<(), FreeFault>
    requires some { 1 ≤ vec_len databases.old }
    requires few { vec_len databases.old ≤ MAX_DATABASES }
    ensures served { HoldCleanDisks S.Store → OnOk result (IfSome (R.remaining client.old.reader) (λ script.
        RunsFree script (states_of databases.old.items) (W.contents client.old.writer)
        (W.contents client.new.writer))) }
    ensures end { OnOk result
        (IfSome (R.remaining client.old.reader) (λ script. IsAtEnd (R.remaining client.new.reader))) }

    // Whatever the disks did, each database is at its place again, as its history ends.
    ensures back { OnOk result (AreEnded S.Store databases.old.items databases.new.items) }
{
    // The databases that are handed back must be kept, so room for them is made first.
    let room = Vec::with_capacity(alloc, usize::from(MAX_DATABASES))?;
    let handed = mem::replace(databases, room);
    let audit = serve_before(rt, alloc, handed, client, screen)?;
    put_back(databases, audit.closed);
    Ok(())
}

/// Serves a script as [`serve_phases`] does, in databases that are handed in. Returns the databases
/// with their histories. If there is no screen, nobody watches the databases.
fn serve_before<
    S: Alter + Drop + Send + 'static,
    T: Threads + Wait + Sync,
    R: Read,
    W: Write,
    X: Screen + Send + Drop + 'static,
>(
    rt: &T,
    alloc: Global,
    databases: Vec<Database<S>>,
    client: &mut Duplex<R, W>,
    screen: Option<X>,
) -> Result<Audit<S>, FreeFault>
    requires some { 1 ≤ vec_len databases }
    requires few { vec_len databases ≤ MAX_DATABASES }
    ensures legal { IfOk result (λ audit. AreHistories S.Store databases.items audit.parts.items audit.closed.items) }
    ensures output { IfOk result (λ audit. IfSome (R.remaining client.old.reader) (λ script.
        ServesFree script (histories audit.parts.items audit.closed.items) (W.contents client.old.writer)
        (W.contents client.new.writer))) }
    ensures end { OnOk result
        (IfSome (R.remaining client.old.reader) (λ script. IsAtEnd (R.remaining client.new.reader))) }
{
    match start(rt, alloc, screen) {
        Some(mut shower) => {
            let audit = serve_free_watched(rt, alloc, databases, client, &NoGate, &mut shower);
            shower.stop();
            audit
        }
        None => serve_free(rt, alloc, databases, client, &NoGate),
    }
}

/// Puts databases that came out of their locks into `databases`, in order. There must be room for
/// them.
fn put_back<S: Alter + Drop>(databases: &mut Vec<Database<S>>, closed: Vec<Closed<S>>)
    requires none { vec_len databases.old ≡ 0 }
    requires room { MAX_DATABASES ≤ vec_capacity databases.old }
    requires few { vec_len closed ≤ MAX_DATABASES }
    ensures { databases.new.items ≡ map ended_of closed.items }
{
    for ended in closed {
        let (database, _) = ended.into_parts();
        databases.push_reserved(database);
    }
}
