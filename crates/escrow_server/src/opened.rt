//! Serves a script in databases whose stores were opened.
ghost use Rattle.std.specs.Prelude.{◌≡◌, ◌≢◌, ◌≤◌, List, vec_len, IfErr, IfOk, IfSome, OnOk};
ghost use Rattle.std.specs.Io.KnownBytes.{IsAtEnd, Keeps};
ghost use Rattle.escrow_num.specs.declared.session.TheConstants.Session.{MAX_SHARED};
ghost use Rattle.escrow_machine.specs.State.{State};
ghost use Rattle.escrow_serve.specs.Output.{states_of, HaveCleanDisks, ServesAll, ServesWhole};
ghost use Rattle.escrow_server.specs.Free.{HoldCleanDisks, RunsFree};
ghost use Rattle.escrow_server.specs.Opened.{IsOpened};
ghost use Rattle.escrow_serve.specs.Ran.{ScriptRan};
ghost use Rattle.escrow_server.specs.Program.{run_status, LeftBy, Stops, WritesNothing};

use crate::args::{Args, Mode};
use crate::fault::RunFault;
use crate::free::serve_phases;
use crate::screen::Screen;
use escrow_core::Database;
use escrow_script::{Duplex, MAX_DATABASES};
use escrow_serve::{serve_lines, serve_script};
use sqlite::Alter;
use std::alloc::Global;
use std::io::{Read, Write};
use std::sync::Wait;
use std::thread::Threads;

/// Serves the script line by line in databases, if all of their stores were opened.
pub(crate) fn serve_in_turn<S: Alter, R: Read, W: Write>(
    alloc: Global,
    opened: Result<(), RunFault>,
    args: &Args,
    databases: &mut Vec<Database<S>>,
    client: &mut Duplex<R, W>,
) -> Result<(), RunFault>
    requires mode { args.now.mode ≢ Mode.Free }
    requires least { OnOk opened (1 ≤ vec_len databases.old) }
    requires most { OnOk opened (vec_len databases.old ≤ MAX_DATABASES) }
    requires kind { IfErr opened (λ fault. run_status fault ≡ 3) }
    // If each disk returned what was written, the script was served from the states of the
    // databases.
    ensures served { args.now.mode ≡ Mode.Run → HaveCleanDisks S.Store databases.new.items
        → OnOk result (IfSome (R.remaining client.old.reader) (λ script. (old : List State)
        × IsOpened S.Store opened databases.old.items old
        × ServesWhole MAX_SHARED script old (states_of databases.new.items) (W.contents client.old.writer)
        (W.contents client.new.writer))) }
    ensures stopped { args.now.mode ≡ Mode.Run → HaveCleanDisks S.Store databases.new.items
        → IfErr result (λ fault. IfSome (R.remaining client.old.reader) (λ script.
        Stops MAX_SHARED fault (IsOpened S.Store opened databases.old.items) (states_of databases.new.items) script
        (R.remaining client.new.reader) (W.contents client.old.writer) (W.contents client.new.writer))) }

    // The same, for lines that are served until they end, of as many sessions as are asked for.
    ensures lines { args.now.mode ≡ Mode.Serve → HaveCleanDisks S.Store databases.new.items
        → OnOk result (IfSome (R.remaining client.old.reader) (λ script. (old : List State)
        × IsOpened S.Store opened databases.old.items old
        × ServesAll args.now.sessions script old (states_of databases.new.items) (W.contents client.old.writer)
        (W.contents client.new.writer))) }
    ensures cut { args.now.mode ≡ Mode.Serve → HaveCleanDisks S.Store databases.new.items
        → IfErr result (λ fault. IfSome (R.remaining client.old.reader) (λ script.
        Stops args.now.sessions fault (IsOpened S.Store opened databases.old.items)
        (states_of databases.new.items) script (R.remaining client.new.reader) (W.contents client.old.writer)
        (W.contents client.new.writer))) }

    // However that ends, each database by itself served what its lines gave it, if its own disk
    // returned what was written. After a crash no write that was answered is missing, also if a
    // fault has shut the store.
    ensures ran { args.now.mode ≡ Mode.Run → OnOk opened (IfSome (R.remaining client.old.reader) (λ script.
        ScriptRan S.Store MAX_SHARED script databases.old.items databases.new.items (W.contents client.old.writer)
        (W.contents client.new.writer) (LeftBy result))) }
    ensures lines_ran { args.now.mode ≡ Mode.Serve → OnOk opened (IfSome (R.remaining client.old.reader) (λ script.
        ScriptRan S.Store args.now.sessions script databases.old.items databases.new.items
        (W.contents client.old.writer)
        (W.contents client.new.writer) (LeftBy result))) }

    // Whatever the stores do, all of the script was read if the call succeeds, and nothing if a store
    // can't be opened.
    ensures end { OnOk result
        (IfSome (R.remaining client.old.reader) (λ script. IsAtEnd (R.remaining client.new.reader))) }
    ensures unopened { IfErr result
        (λ fault. run_status fault ≡ 3 → Keeps (R.remaining client.old.reader) (R.remaining client.new.reader)
        × WritesNothing (W.contents client.old.writer) (W.contents client.new.writer)) }
{
    opened?;
    match args.mode {
        Mode::Run => serve_script(alloc, databases, client)?,
        Mode::Serve => serve_lines(alloc, args.sessions, databases, client)?,
        Mode::Free => unreachable!(),
    }
    Ok(())
}

/// Serves the script in databases, the sessions of a phase at the same time, if all of their stores
/// were opened. May wait.
pub(crate) fn serve_at_once<
    S: Alter + Drop + Send + 'static,
    T: Threads + Wait + Sync,
    R: Read,
    W: Write,
    X: Screen + Send + Drop + 'static,
>(
    threads: &T,
    alloc: Global,
    opened: Result<(), RunFault>,
    databases: &mut Vec<Database<S>>,
    client: &mut Duplex<R, W>,
    screen: Option<X>,
) -> Result<(), RunFault>
    requires least { OnOk opened (1 ≤ vec_len databases.old) }
    requires most { OnOk opened (vec_len databases.old ≤ MAX_DATABASES) }
    requires kind { IfErr opened (λ fault. run_status fault ≡ 3) }
    // The script was served like this if disks always return what was written.
    ensures free { HoldCleanDisks S.Store
        → OnOk result (IfSome (R.remaining client.old.reader) (λ script. (old : List State)
        × IsOpened S.Store opened databases.old.items old
        × RunsFree script old (W.contents client.old.writer) (W.contents client.new.writer))) }

    // Whatever the stores do, all of the script was read if the call succeeds, and nothing if a store
    // can't be opened.
    ensures end { OnOk result
        (IfSome (R.remaining client.old.reader) (λ script. IsAtEnd (R.remaining client.new.reader))) }
    ensures unopened { IfErr result
        (λ fault. run_status fault ≡ 3 → Keeps (R.remaining client.old.reader) (R.remaining client.new.reader)
        × WritesNothing (W.contents client.old.writer) (W.contents client.new.writer)) }
{
    opened?;
    serve_phases(threads, alloc, databases, client, screen)?;
    Ok(())
}
