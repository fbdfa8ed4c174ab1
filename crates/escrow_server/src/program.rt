ghost use Rattle.std.specs.Prelude.{◌≡◌, ◌≢◌, ◌⊎◌, ◌≤◌, ◌<◌, ◌++◌, [], List, Some, None, map, codes, string_bytes, vec_len, IfErr, IfOk, IfSome, IsErrAnd, IsSome, MatchResult, OnOk};
ghost use Rattle.std.specs.Io.KnownBytes.{Appends};
ghost use Rattle.std.specs.Process.{exit_status};
ghost use Rattle.escrow_server.specs.declared.args.Args.{Args};
ghost use Rattle.escrow_server.specs.Args.{asked_by, refused_status};
ghost use Rattle.escrow_cells.specs.Tables.{no_schema};
ghost use Rattle.escrow_server.specs.Files.{file_of};
ghost use Rattle.escrow_memory.specs.Store.{over_blocks};
ghost use Rattle.escrow_serve.specs.Output.{states_of, HaveCleanDisks};
ghost use Rattle.escrow_server.specs.Program.{migrated_line, run_status, unread_status, AreFound, AreLinesOf, EndsInMemory, EndsOverFiles, IsQuiet, SaysReason, SaysWhy, TellsOfMigrated, TellsOfStoresAlone, WritesPrefix, WritesNothing};

use crate::args::{ArgFault, Args, Mode, read_args};
use crate::databases::{Unclosed, close_databases, open_databases};
use crate::fault::RunFault;
use crate::opened::{serve_at_once, serve_in_turn};
use crate::screen::Screen;
use crate::site::Site;
use crate::stores::{CloseFault, InFiles, InMemory, file_of};
use escrow_core::Database;
use escrow_memory::BlockStore;
use escrow_script::{Duplex, MAX_DATABASES, database_name, write_whole};
use sqlite::{File, FileStore};
use std::alloc::{AllocError, Global};
use std::convert::AsStr;
use std::env::Env;
use std::io::{ErrorKind, Read, Write};
use std::process::ExitCode;
use std::sync::Wait;
use std::thread::Threads;
use std::{env, io};

/// Reads the words of the command line from `line`. Returns what they ask for, or, if that is only
/// help or they are wrong, the exit status. Help goes to `output`; what is wrong goes to `errors`.
/// Takes memory from `alloc`.
///
/// Exit status:
///
/// - 0 for help;
/// - 1 if memory is refused, the help can't be written, or the words can't be read;
/// - 2 for wrong arguments, among them one that isn't UTF-8.
pub fn read_line<E: Env, W: Write, F: Write>(
    alloc: Global,
    line: &E,
    output: &mut W,
    errors: &mut F,
) -> Result<Args, ExitCode>
    ensures databases { IfOk result (λ args. (1 ≤ args.databases) × (args.databases ≤ MAX_DATABASES)) }
    ensures same { OnOk result ((W.contents output.new ≡ W.contents output.old)
        × (F.contents errors.new ≡ F.contents errors.old)) }

    // With status 0, nothing is written to `errors`. With any other status, the program's name and a
    // text are, as far as the writer takes them.
    ensures quiet { IfErr result
        (λ code. exit_status code ≡ 0 → WritesNothing (F.contents errors.old) (F.contents errors.new)) }
    ensures said { IfErr result
        (λ code. exit_status code ≢ 0 → SaysReason (F.contents errors.old) (F.contents errors.new)) }
{
    let found = match words(alloc, line) {
        Ok(found) => found,
        Err(error) => return Err(ExitCode::from(without_words(errors, error.kind()))),
    };
    match read_words(alloc, found.as_slice(), output, errors) {
        Ok(args) => Ok(args),
        Err(status) => Err(ExitCode::from(status)),
    }
}

/// Returns the words of the command line.
fn words<E: Env>(alloc: Global, line: &E) -> io::Result<Vec<String>> {
    Ok(env::args(&(line, alloc))?.collect(alloc)?)
}

/// Says why the words can't be read, and returns the exit status.
fn without_words<F: Write>(errors: &mut F, error: ErrorKind) -> u8
    ensures status { result ≡ unread_status error }
    ensures failed { 1 ≤ result }
    ensures said { SaysReason (F.contents errors.old) (F.contents errors.new) }
{
    match error {
        ErrorKind::InvalidData => {
            say_why(errors, "the arguments must be UTF-8\n");
            2
        }
        _ => {
            say_why(errors, "the arguments can't be read\n");
            1
        }
    }
}

/// Returns what the words of the command line, its name first, ask for. If that is no script to
/// serve, prints help or says what is wrong, and returns the exit status.
fn read_words<S: AsStr, W: Write, F: Write>(
    alloc: Global,
    words: &[S],
    output: &mut W,
    errors: &mut F,
) -> Result<Args, u8>
    // Words that ask for a script to be served fail only if memory is refused. Other words end with
    // the status of what is wrong with them, or with 1 if memory is refused or help can't be
    // written. Nothing but help is written.
    ensures asked { (args : Args) → asked_by (map S.text words.now) ≡ Some args
        → MatchResult result (λ read. read ≡ args) (λ status. status ≡ 1) }
    ensures refused { asked_by (map S.text words.now) ≡ None
        → IsErrAnd result (λ status. (status ≡ 1) ⊎ (status ≡ refused_status (map S.text words.now))) }
    ensures databases { IfOk result (λ args. (1 ≤ args.databases) × (args.databases ≤ MAX_DATABASES)) }
    ensures same { OnOk result ((W.contents output.new ≡ W.contents output.old)
        × (F.contents errors.new ≡ F.contents errors.old)) }
    ensures unasked { (args : Args) → asked_by (map S.text words.now) ≡ Some args
        → WritesNothing (W.contents output.old) (W.contents output.new) }
    ensures unserved { asked_by (map S.text words.now) ≡ None → refused_status (map S.text words.now) ≢ 0
        → WritesNothing (W.contents output.old) (W.contents output.new) }
    ensures silent { IfErr result
        (λ status. status ≡ 0 → WritesNothing (F.contents errors.old) (F.contents errors.new)) }
    ensures said { IfErr result (λ status. status ≢ 0 → SaysReason (F.contents errors.old) (F.contents errors.new)) }
{
    match read_args(alloc, words) {
        Ok(args) => Ok(args),
        Err(fault) => Err(refuse(alloc, output, errors, &fault)),
    }
}

/// Serves a script line by line, in the databases that the arguments ask for: the modes `run` and
/// `serve`. Opens the databases, in memory or in files. Serves what comes from `client`, and sends
/// it the replies. If that ends early, the reason goes to `errors`. It waits for no thread.
///
/// At the end, also if that is early, the stores in files are closed. If one can't be closed, a
/// line on `errors` says so, and the status is the same.
///
/// Exit status:
///
/// - 0 if everything was served and written;
/// - 1 if the client can't be read, a reply can't be written, or memory is refused;
/// - 3 if the store of a database can't be opened; then nothing was read.
pub fn run_in_turn<R: Read, W: Write, F: Write>(
    rt: &HostRuntime,
    args: &Args,
    client: &mut Duplex<R, W>,
    errors: &mut F,
) -> ExitCode
    requires mode { args.now.mode ≢ Mode.Free }
    requires least { 1 ≤ args.now.databases }
    requires most { args.now.databases ≤ MAX_DATABASES }
    // In memory the script is served in as many databases as the arguments ask for, in their mode.
    // Of files no contract says what they hold: with status 0 all of the script was read, and with 3
    // nothing was read or written.
    ensures memory { args.now.path ≡ None → IfSome (R.remaining client.old.reader) (λ script.
        EndsInMemory args.now.mode args.now.sessions args.now.databases (exit_status result) script
        (R.remaining client.new.reader) (W.contents client.old.writer) (W.contents client.new.writer)) }
    ensures files { IfSome (R.remaining client.old.reader) (λ script.
        EndsOverFiles (exit_status result) script (R.remaining client.new.reader) (W.contents client.old.writer)
        (W.contents client.new.writer)) }

    // With status 0, nothing is written to `errors` but lines about the stores of a path: those
    // that were migrated, and those that can't be closed. With any other status, the program's name
    // and a text are, as far as the writer takes them.
    ensures silent { args.now.path ≡ None → exit_status result ≡ 0
        → WritesNothing (F.contents errors.old) (F.contents errors.new) }
    ensures quiet { exit_status result ≡ 0 → IsQuiet args.now.path (F.contents errors.old) (F.contents errors.new) }
    ensures said { exit_status result ≢ 0 → SaysWhy args.now.path (F.contents errors.old) (F.contents errors.new) }
{
    let status = match &args.path {
        None => in_turn_in_memory(rt.alloc(), args, client, errors),
        Some(path) => in_turn_over_files(rt, path.as_str(), args, client, errors),
    };
    ExitCode::from(status)
}

/// Serves a script as [`run_in_turn`] does, but the sessions of each phase at the same time: the
/// mode `free`. Its workers run in threads of `threads`. May wait.
///
/// If the script isn't served to its end, the logs of stores in files stay beside them. While
/// sessions are served at the same time, a screen, if there is one, shows their progress. `threads`
/// starts its thread. Nothing that it shows goes to `errors`: the clauses speak of that stream only.
///
/// The exit status is also 1 if a phase has statements of more than 64 sessions, or the histories
/// don't fit the replies.
pub fn run_at_once<
    T: Threads + Wait + Sync,
    R: Read,
    W: Write,
    F: Write,
    X: Screen + Send + Drop + 'static,
>(
    rt: &HostRuntime,
    threads: &T,
    args: &Args,
    client: &mut Duplex<R, W>,
    errors: &mut F,
    screen: Option<X>,
) -> ExitCode
    requires mode { args.now.mode ≡ Mode.Free }
    requires least { 1 ≤ args.now.databases }
    requires most { args.now.databases ≤ MAX_DATABASES }
    ensures memory { args.now.path ≡ None → IfSome (R.remaining client.old.reader) (λ script.
        EndsInMemory args.now.mode args.now.sessions args.now.databases (exit_status result) script
        (R.remaining client.new.reader) (W.contents client.old.writer) (W.contents client.new.writer)) }
    ensures files { IfSome (R.remaining client.old.reader) (λ script.
        EndsOverFiles (exit_status result) script (R.remaining client.new.reader) (W.contents client.old.writer)
        (W.contents client.new.writer)) }
    ensures silent { args.now.path ≡ None → exit_status result ≡ 0
        → WritesNothing (F.contents errors.old) (F.contents errors.new) }
    ensures quiet { exit_status result ≡ 0 → IsQuiet args.now.path (F.contents errors.old) (F.contents errors.new) }
    ensures said { exit_status result ≢ 0 → SaysWhy args.now.path (F.contents errors.old) (F.contents errors.new) }
{
    let status = match &args.path {
        None => at_once_in_memory(rt.alloc(), threads, args, client, errors, screen),
        Some(path) => {
            let path = path.as_str();
            at_once_over_files(rt, threads, path, args, client, errors, screen)
        }
    };
    ExitCode::from(status)
}

/// Serves the script line by line in databases in memory, and returns the exit status.
fn in_turn_in_memory<R: Read, W: Write, F: Write>(
    alloc: Global,
    args: &Args,
    client: &mut Duplex<R, W>,
    errors: &mut F,
) -> u8
    requires mode { args.now.mode ≢ Mode.Free }
    requires least { 1 ≤ args.now.databases }
    requires most { args.now.databases ≤ MAX_DATABASES }
    ensures memory { IfSome (R.remaining client.old.reader) (λ script.
        EndsInMemory args.now.mode args.now.sessions args.now.databases result script (R.remaining client.new.reader)
        (W.contents client.old.writer) (W.contents client.new.writer)) }
    ensures files { IfSome (R.remaining client.old.reader) (λ script.
        EndsOverFiles result script (R.remaining client.new.reader) (W.contents client.old.writer)
        (W.contents client.new.writer)) }
    ensures silent { result ≡ 0 → WritesNothing (F.contents errors.old) (F.contents errors.new) }
    ensures said { result ≢ 0 → SaysReason (F.contents errors.old) (F.contents errors.new) }
{
    let mut databases = Vec::new(alloc);
    let opened = open_in_memory(alloc, args.databases, &mut databases);
    let served = serve_in_turn(alloc, opened, args, &mut databases, client);
    status_in_memory(alloc, errors, served)
}

/// Serves the script line by line in databases over the files of a path, and returns the exit
/// status.
fn in_turn_over_files<R: Read, W: Write, F: Write>(
    rt: &HostRuntime,
    path: &str,
    args: &Args,
    client: &mut Duplex<R, W>,
    errors: &mut F,
) -> u8
    requires mode { args.now.mode ≢ Mode.Free }
    requires least { 1 ≤ args.now.databases }
    requires most { args.now.databases ≤ MAX_DATABASES }
    ensures files { IfSome (R.remaining client.old.reader) (λ script.
        EndsOverFiles result script (R.remaining client.new.reader) (W.contents client.old.writer)
        (W.contents client.new.writer)) }
    ensures quiet { result ≡ 0 → IsQuiet (Some path.now) (F.contents errors.old) (F.contents errors.new) }
    ensures said { result ≢ 0 → SaysWhy (Some path.now) (F.contents errors.old) (F.contents errors.new) }
{
    let alloc = rt.alloc();
    let mut databases = Vec::new(alloc);
    let mut sites = Vec::new(alloc);
    let opened = open_over_files(rt, path, args.databases, &mut databases, &mut sites, errors);
    let served = serve_in_turn(alloc, opened, args, &mut databases, client);
    close_over_files(rt, path, served, databases, sites.as_slice(), errors)
}

/// Serves the script in databases in memory, the sessions of a phase at the same time. Returns the
/// exit status. May wait.
fn at_once_in_memory<
    T: Threads + Wait + Sync,
    R: Read,
    W: Write,
    F: Write,
    X: Screen + Send + Drop + 'static,
>(
    alloc: Global,
    threads: &T,
    args: &Args,
    client: &mut Duplex<R, W>,
    errors: &mut F,
    screen: Option<X>,
) -> u8
    requires mode { args.now.mode ≡ Mode.Free }
    requires least { 1 ≤ args.now.databases }
    requires most { args.now.databases ≤ MAX_DATABASES }
    ensures memory { IfSome (R.remaining client.old.reader) (λ script.
        EndsInMemory args.now.mode args.now.sessions args.now.databases result script (R.remaining client.new.reader)
        (W.contents client.old.writer) (W.contents client.new.writer)) }
    ensures files { IfSome (R.remaining client.old.reader) (λ script.
        EndsOverFiles result script (R.remaining client.new.reader) (W.contents client.old.writer)
        (W.contents client.new.writer)) }
    ensures silent { result ≡ 0 → WritesNothing (F.contents errors.old) (F.contents errors.new) }
    ensures said { result ≢ 0 → SaysReason (F.contents errors.old) (F.contents errors.new) }
{
    let mut databases = Vec::new(alloc);
    let opened = open_in_memory(alloc, args.databases, &mut databases);
    let served = serve_at_once(threads, alloc, opened, &mut databases, client, screen);
    status_in_memory(alloc, errors, served)
}

/// Serves the script in databases over the files of a path, the sessions of a phase at the same
/// time. Returns the exit status. May wait.
fn at_once_over_files<
    T: Threads + Wait + Sync,
    R: Read,
    W: Write,
    F: Write,
    X: Screen + Send + Drop + 'static,
>(
    rt: &HostRuntime,
    threads: &T,
    path: &str,
    args: &Args,
    client: &mut Duplex<R, W>,
    errors: &mut F,
    screen: Option<X>,
) -> u8
    requires least { 1 ≤ args.now.databases }
    requires most { args.now.databases ≤ MAX_DATABASES }
    ensures files { IfSome (R.remaining client.old.reader) (λ script.
        EndsOverFiles result script (R.remaining client.new.reader) (W.contents client.old.writer)
        (W.contents client.new.writer)) }
    ensures quiet { result ≡ 0 → IsQuiet (Some path.now) (F.contents errors.old) (F.contents errors.new) }
    ensures said { result ≢ 0 → SaysWhy (Some path.now) (F.contents errors.old) (F.contents errors.new) }
{
    let alloc = rt.alloc();
    let mut databases = Vec::new(alloc);
    let mut sites = Vec::new(alloc);
    let opened = open_over_files(rt, path, args.databases, &mut databases, &mut sites, errors);
    let served = serve_at_once(threads, alloc, opened, &mut databases, client, screen);
    close_over_files(rt, path, served, databases, sites.as_slice(), errors)
}

/// Opens this many databases in memory.
fn open_in_memory(
    alloc: Global,
    count: u8,
    databases: &mut Vec<Database<BlockStore>>,
) -> Result<(), RunFault>
    requires some { 1 ≤ count }
    requires few { count ≤ MAX_DATABASES }
    requires none { databases.old.items ≡ [] }
    ensures found { HaveCleanDisks over_blocks databases.new.items
        → OnOk result (AreFound (λ _ db. db.schema ≡ no_schema) count (states_of databases.new.items)) }
    ensures least { OnOk result (1 ≤ vec_len databases.new) }
    ensures most { OnOk result (vec_len databases.new ≤ MAX_DATABASES) }
    ensures kind { IfErr result (λ fault. run_status fault ≡ 3) }
{
    let mut sites = Vec::new(alloc);
    open_databases(alloc, &InMemory, count, databases, &mut sites)
}

/// Opens this many databases over the files of a path, and notes where their files are. Says which
/// stores were migrated.
fn open_over_files<F: Write>(
    rt: &HostRuntime,
    path: &str,
    count: u8,
    databases: &mut Vec<Database<FileStore<File>>>,
    sites: &mut Vec<Option<Site>>,
    errors: &mut F,
) -> Result<(), RunFault>
    requires some { 1 ≤ count }
    requires few { count ≤ MAX_DATABASES }
    requires none { databases.old.items ≡ [] }
    ensures told { TellsOfMigrated (Some path.now) (F.contents errors.old) (F.contents errors.new) }
    ensures least { OnOk result (1 ≤ vec_len databases.new) }
    ensures most { OnOk result (vec_len databases.new ≤ MAX_DATABASES) }
    ensures kind { IfErr result (λ fault. run_status fault ≡ 3) }
{
    let alloc = rt.alloc();
    let opened = open_databases(alloc, &InFiles { rt, path }, count, databases, sites);
    tell_migrated(alloc, errors, path, sites.as_slice());
    opened
}

/// Closes the databases over the files of a path, in which a script was served. Returns the exit
/// status. If not everything was served, says why, and which stores can't be closed.
fn close_over_files<F: Write>(
    rt: &HostRuntime,
    path: &str,
    served: Result<(), RunFault>,
    databases: Vec<Database<FileStore<File>>>,
    sites: &[Option<Site>],
    errors: &mut F,
) -> u8
    ensures ok { OnOk served (result ≡ 0) }
    ensures err { IfErr served (λ fault. result ≡ run_status fault) }
    ensures quiet { result ≡ 0 → TellsOfStoresAlone (F.contents errors.old) (F.contents errors.new) }
    ensures said { result ≢ 0 → SaysReason (F.contents errors.old) (F.contents errors.new) }
{
    let unclosed = close_databases(rt, databases, sites);
    status_over_files(rt.alloc(), errors, path, served, &unclosed)
}

/// Says which stores had the previous format, if any, and have the known one now.
fn tell_migrated<F: Write>(alloc: Global, errors: &mut F, path: &str, sites: &[Option<Site>])
    ensures { TellsOfMigrated (Some path.now) (F.contents errors.old) (F.contents errors.new) }
{
    match migrated_text(alloc, path, sites) {
        Ok(text) => print(errors, text.as_str()),
        Err(_) => print(errors, MIGRATED),
    }
}

/// The line if memory for the name of a file is refused.
const MIGRATED: &str = "escrowd: a store was migrated from format 1 to format 2\n";

/// Returns a line for each store that had the previous format.
fn migrated_text(alloc: Global, path: &str, sites: &[Option<Site>]) -> Result<String, AllocError>
    ensures { IfOk result (λ text. AreLinesOf path.now (string_bytes text)) }
{
    let mut text = String::new(alloc);
    for place in 0..MAX_DATABASES {
        if let Some(Some(site)) = sites.get(usize::from(place)) {
            if site.is_migrated() {
                add_migrated(alloc, &mut text, path, place)?;
            }
        }
    }
    Ok(text)
}

/// Adds the line of the store at a place after the lines so far.
fn add_migrated(alloc: Global, text: &mut String, path: &str, place: u8) -> Result<(), AllocError>
    requires { AreLinesOf path.now (string_bytes text.old) }
    ensures { OnOk result (AreLinesOf path.now (string_bytes text.new)) }
{
    let line = migrated_line(alloc, path, place)?;
    text.push_str(line.as_str())
}

/// Returns the line of the store at a place, which had the previous format.
fn migrated_line(alloc: Global, path: &str, place: u8) -> Result<String, AllocError>
    ensures { IfOk result (λ line. string_bytes line ≡ migrated_line (file_of path.now place)) }
{
    let file = file_of(alloc, path, place)?;
    format!(in alloc; "escrowd: {file} was migrated from format 1 to format 2\n")
}

/// Prints help or the version if it was asked for, or else says what is wrong. Returns the exit
/// status.
fn refuse<W: Write, F: Write>(alloc: Global, output: &mut W, errors: &mut F, fault: &ArgFault) -> u8
    ensures status { (result ≡ 1) ⊎ (result ≡ fault.now.status) }
    ensures help { result ≡ 0 → Appends (W.contents output.old) (W.contents output.new) fault.now.text }
    ensures unserved { fault.now.status ≢ 0 → WritesNothing (W.contents output.old) (W.contents output.new) }
    ensures silent { result ≡ 0 → WritesNothing (F.contents errors.old) (F.contents errors.new) }
    ensures said { result ≢ 0 → SaysReason (F.contents errors.old) (F.contents errors.new) }
{
    match fault.status {
        0 => give_help(alloc, output, errors, fault.text.as_str()),
        1 => {
            say_why(errors, NO_MEMORY);
            1
        }
        status => {
            say_why(errors, fault.text.as_str());
            status
        }
    }
}

/// Prints help or the version, or says why it can't be written. Returns the exit status.
fn give_help<W: Write, F: Write>(alloc: Global, output: &mut W, errors: &mut F, help: &str) -> u8
    ensures status { (result ≡ 0) ⊎ (result ≡ 1) }
    ensures help { result ≡ 0 → Appends (W.contents output.old) (W.contents output.new) help.now }
    ensures silent { result ≡ 0 → WritesNothing (F.contents errors.old) (F.contents errors.new) }
    ensures said { result ≢ 0 → SaysReason (F.contents errors.old) (F.contents errors.new) }
{
    match write_whole(output, help.as_bytes()) {
        Ok(()) => 0,
        Err(fault) => {
            let text = format!(in alloc; "the text can't be written: {fault}\n");
            say_text(errors, text);
            1
        }
    }
}

/// Prints a text, as far as the writer takes it. The exit status doesn't depend on that.
fn print<W: Write>(output: &mut W, text: &str)
    ensures { WritesPrefix (W.contents output.old) (W.contents output.new) text.now }
{
    let _ = write_whole(output, text.as_bytes());
}

/// The text if memory is refused.
const NO_MEMORY: &str = "out of memory\n";

/// Returns the exit status of what was served in memory. If that isn't everything, says why.
fn status_in_memory<F: Write>(alloc: Global, errors: &mut F, served: Result<(), RunFault>) -> u8
    ensures ok { OnOk served (result ≡ 0) }
    ensures err { IfErr served (λ fault. result ≡ run_status fault) }
    ensures silent { result ≡ 0 → WritesNothing (F.contents errors.old) (F.contents errors.new) }
    ensures said { result ≢ 0 → SaysReason (F.contents errors.old) (F.contents errors.new) }
{
    match served {
        Ok(()) => 0,
        Err(fault) => {
            let text = explained(alloc, None, fault);
            stop(errors, fault, text)
        }
    }
}

/// Returns the exit status of what was served over files. If that isn't everything, says why, and
/// which stores can't be closed.
fn status_over_files<F: Write>(
    alloc: Global,
    errors: &mut F,
    path: &str,
    served: Result<(), RunFault>,
    unclosed: &Unclosed,
) -> u8
    ensures ok { OnOk served (result ≡ 0) }
    ensures err { IfErr served (λ fault. result ≡ run_status fault) }
    ensures quiet { result ≡ 0 → TellsOfStoresAlone (F.contents errors.old) (F.contents errors.new) }
    ensures said { result ≢ 0 → SaysReason (F.contents errors.old) (F.contents errors.new) }
{
    match served {
        Ok(()) => {
            tell_unclosed(alloc, errors, path, unclosed);
            0
        }
        Err(fault) => {
            let text = explained_whole(alloc, path, fault, unclosed);
            stop(errors, fault, text)
        }
    }
}

/// Says why a script isn't served to its end, and returns the exit status.
fn stop<F: Write>(errors: &mut F, fault: RunFault, text: Result<String, AllocError>) -> u8
    ensures status { result ≡ run_status fault }
    ensures failed { 1 ≤ result }
    ensures said { SaysReason (F.contents errors.old) (F.contents errors.new) }
{
    say_text(errors, text);
    fault.status()
}

/// Says why the program ends, by a text for which memory may have been refused.
fn say_text<F: Write>(errors: &mut F, text: Result<String, AllocError>)
    ensures { SaysReason (F.contents errors.old) (F.contents errors.new) }
{
    match text {
        Ok(text) => say_why(errors, text.as_str()),
        Err(_) => say_why(errors, NO_MEMORY),
    }
}

/// Returns why a script isn't served to its end, with the file of a store that can't be opened.
fn explained(alloc: Global, path: Option<&str>, fault: RunFault) -> Result<String, AllocError> {
    match fault {
        RunFault::Unserved(fault) => format!(in alloc; "{fault}\n"),
        RunFault::Unjoined(fault) => format!(in alloc; "{fault}\n"),
        RunFault::Unopened {
            database,
            place,
            cause,
        } => match path {
            None => format!(in alloc; "the store of {database} can't be opened: {cause}\n"),
            Some(path) => {
                let file = file_of(alloc, path, place)?;
                format!(in alloc; "the store of {database}, `{file}`, can't be opened: {cause}\n")
            }
        },
    }
}

/// Returns why a script isn't served to its end, and below it which stores can't be closed.
fn explained_whole(
    alloc: Global,
    path: &str,
    fault: RunFault,
    unclosed: &Unclosed,
) -> Result<String, AllocError> {
    let mut text = explained(alloc, Some(path), fault)?;
    let told = unclosed_text(alloc, path, unclosed)?;
    text.push_str(told.as_str())?;
    Ok(text)
}

/// How the line of a store that can't be closed begins.
const STORE: &str = "escrowd: the store of ";

/// Says which stores can't be closed, if any.
fn tell_unclosed<F: Write>(alloc: Global, errors: &mut F, path: &str, unclosed: &Unclosed)
    ensures { TellsOfStoresAlone (F.contents errors.old) (F.contents errors.new) }
{
    match unclosed_text(alloc, path, unclosed) {
        Ok(text) => {
            if let Some(rest) = text.as_str().strip_prefix(STORE) {
                say(errors, STORE, rest);
            }
        }
        Err(_) => say(errors, STORE, "a database can't be closed\n"),
    }
}

/// Returns a line for each store that can't be closed.
fn unclosed_text(alloc: Global, path: &str, unclosed: &Unclosed) -> Result<String, AllocError> {
    let mut text = String::new(alloc);
    for place in 0..MAX_DATABASES {
        if let Some(cause) = unclosed[usize::from(place)] {
            let line = unclosed_line(alloc, path, place, cause)?;
            text.push_str(line.as_str())?;
        }
    }
    Ok(text)
}

/// Returns the line of the store at a place, which can't be closed.
fn unclosed_line(
    alloc: Global,
    path: &str,
    place: u8,
    cause: CloseFault,
) -> Result<String, AllocError>
    requires { place < MAX_DATABASES }
{
    let database = database_name(usize::from(place));
    let file = file_of(alloc, path, place)?;
    format!(in alloc;
        "{STORE}{database}, `{file}`, can't be closed (the last commits are in `{file}-wal`): {cause}\n"
    )
}

/// Writes the program's name, a colon and a text. If they can't be written, there is nobody left to
/// tell.
fn say_why<F: Write>(errors: &mut F, text: &str)
    ensures { WritesPrefix (F.contents errors.old) (F.contents errors.new) (codes "escrowd: " ++ text.now) }
{
    say(errors, "escrowd: ", text);
}

/// Writes a head and a text, as far as the writer takes them.
fn say<F: Write>(errors: &mut F, head: &str, text: &str)
    ensures { WritesPrefix (F.contents errors.old) (F.contents errors.new) (head.now ++ text.now) }
{
    if write_whole(errors, head.as_bytes()).is_ok() {
        let _ = write_whole(errors, text.as_bytes());
    }
}
