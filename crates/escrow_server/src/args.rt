//! The arguments of the program, by clap's definition of a simple command.
ghost use Rattle.std.specs.Prelude.{◌≡◌, ◌≤◌, ◌⊎◌, false, Some, None, map, option_map, IfOk, IfSome, IsErrAnd, MatchResult};
ghost use Rattle.clap.specs.Words.{FailsBy, app_of, found_of, kind_of, matches_of, rows_of, rule_of};
ghost use Rattle.escrow_server.specs.declared.args.Args.{Args};
ghost use Rattle.escrow_server.specs.Args.{app, asked_by, databases_of, databases_rule, faults_of, mode_of, mode_rule, no_memory, refused_status, sessions_of, sessions_rule, some_sessions, status_of, store_rule, values_ask};

use clap::error::ErrorKind;
use clap::{Arg, ArgAction, ArgMatches, Command, Error};
use escrow_num::{Session, Text};
use escrow_script::MAX_DATABASES;
use std::alloc::{AllocError, Global};
use std::convert::AsStr;

/// What the program is asked to do.
#[derive(Clone, Copy, Debug, PartialEq, Eq)]
pub enum Mode {
    /// Serve a script, line after line.
    Run,
    /// Serve a script phase by phase, with the sessions of a phase at the same time.
    Free,
    /// Serve lines, one after another, until the input ends.
    Serve,
}

/// The arguments of the program.
#[derive(Drop)]
pub struct Args {
    /// What it is to do.
    pub mode: Mode,
    /// The file of the first database's store, if stores are in files. A further database's file
    /// has the same path, a point and the database's number.
    pub path: Option<Text>,
    /// How many databases there are, from 1 to 16.
    pub databases: u8,
    /// How many sessions each database has, from 1 to 65,535: 64, but for `serve` as many as its
    /// words ask for.
    pub sessions: u16,
}

/// Why there are no arguments to continue with.
#[derive(Drop)]
pub struct ArgFault {
    /// The exit status: 0 if help or the version is asked for, 1 if memory is refused, 2 for a
    /// mistake.
    pub status: u8,
    /// The text to print: help or the version, or what is wrong with the words. Empty if memory is
    /// refused.
    pub text: Text,
}

impl ArgFault {
    /// Returns the fault of refused memory. Takes no memory.
    fn memory(alloc: Global) -> Self
        ensures { result ≡ no_memory }
    {
        ArgFault {
            status: 1,
            text: Text::from_string(String::new(alloc)),
        }
    }
}

/// Reads the words of a command line, beginning with the program's name. They are `run`, `free` or
/// `serve`, an optional `--store PATH`, and an optional `--databases N`, with N from 1 to 16 and 1
/// by default. `serve` has an optional `--sessions N`, with N from 1 to 65,535 and 64 by default.
///
/// # Errors
///
/// Returns help or the version if the words ask for it, and a mistake if anything is wrong with
/// them. Memory may be refused for any words.
pub fn read_args<S: AsStr>(alloc: Global, words: &[S]) -> Result<Args, ArgFault>
    // Valid words fail only if memory is refused, and all others always fail.
    ensures asked { (args : Args) → asked_by (map S.text words.now) ≡ Some args
        → MatchResult result (λ read. read ≡ args) (λ fault. fault ≡ no_memory) }
    ensures refused { asked_by (map S.text words.now) ≡ None
        → IsErrAnd result (λ fault. (fault ≡ no_memory) ⊎ (fault.status ≡ refused_status (map S.text words.now))) }
    ensures databases { IfOk result (λ args. (1 ≤ args.databases) × (args.databases ≤ MAX_DATABASES)) }
{
    match parsed(alloc, words) {
        Ok(matches) => asked(alloc, &matches),
        Err(error) => Err(fault_of(alloc, &error)),
    }
}

/// Returns the words, as clap matches them.
fn parsed<'a, S: AsStr>(alloc: Global, words: &'a [S]) -> Result<ArgMatches<'a>, Error>
    ensures rows { IfOk result (λ matches. rows_of (found_of matches) ≡ matches_of app (map S.text words.entry.now)) }
    ensures kinds { FailsBy (faults_of (map S.text words.entry.now)) result }
{
    let command = command::<'a>(alloc)?;
    command.try_get_matches_from(words)
}

/// Returns the command line of the program.
fn command<'a>(alloc: Global) -> Result<Command<'a>, AllocError>
    ensures { IfOk result (λ command. app_of command ≡ app) }
{
    Command::new(alloc, "escrowd")
        .version(VERSION)
        .override_usage("escrowd <MODE> [--store <PATH>] [--databases <N>] [--sessions <N>]")
        .about(ABOUT)
        .after_help(AFTER_HELP)
        .arg(mode_arg(alloc))?
        .arg(store_arg(alloc))?
        .arg(databases_arg(alloc))?
        .arg(sessions_arg(alloc))
}

/// Returns the mode.
fn mode_arg<'a>(alloc: Global) -> Arg<'a>
    ensures rule { rule_of result ≡ mode_rule }
    ensures local { result.global ≡ false }
{
    Arg::new(alloc, "mode")
        .required(true)
        .action(ArgAction::Set)
        .value_name("MODE")
        .help(
            "`serve` and `run` serve one line after another; `free` serves the sessions of a phase at the same time",
        )
}

/// Returns `--store PATH`.
fn store_arg<'a>(alloc: Global) -> Arg<'a>
    ensures rule { rule_of result ≡ store_rule }
    ensures local { result.global ≡ false }
{
    Arg::new(alloc, "store")
        .long("store")
        .action(ArgAction::Set)
        .value_name("PATH")
        .help("The file that stores bank; bank2 is stored in PATH.2 and so on [default: in memory]")
}

/// Returns `--databases N`.
fn databases_arg<'a>(alloc: Global) -> Arg<'a>
    ensures rule { rule_of result ≡ databases_rule }
    ensures local { result.global ≡ false }
{
    Arg::new(alloc, "databases")
        .long("databases")
        .action(ArgAction::Set)
        .value_name("N")
        .help("The number of databases, 1 to 16: bank, bank2, bank3 and so on [default: 1]")
}

/// Returns `--sessions N`.
fn sessions_arg<'a>(alloc: Global) -> Arg<'a>
    ensures rule { rule_of result ≡ sessions_rule }
    ensures local { result.global ≡ false }
{
    Arg::new(alloc, "sessions")
        .long("sessions")
        .action(ArgAction::Set)
        .value_name("N")
        .help("With `serve`: the number of sessions of a database, 1 to 65535 [default: 64]")
}

/// The version of the program.
const VERSION: &str = "1.1";

const ABOUT: &str = "A server of tables whose RESERVABLE columns many sessions can change at once.

It reads statements from standard input, one per line, and writes the replies to
standard output.";

const AFTER_HELP: &str =
    "A line is a database, a dot, a session from 1 to 64 (or as --sessions says), a colon
and a statement:

  bank.1: CREATE TABLE ACCOUNT (ID INTEGER PRIMARY KEY, BALANCE INTEGER RESERVABLE CHECK (BALANCE >= 50))
  bank.1: INSERT INTO ACCOUNT VALUES (1, 100)
  bank.1: UPDATE ACCOUNT SET BALANCE = BALANCE - 30 WHERE ID = 1
  bank.1: COMMIT

The line `@restart bank` restarts that database, which drops its open transactions.
Empty lines and lines that begin with -- are ignored.

`serve` serves one line after another until its input ends, and writes each reply
before it reads more input. `run` does the same with a script of at most 16777216
bytes. `free` serves the lines up to `@join` as one phase. The phase's sessions, at
most 64, run at the same time. After the phase, `free` writes the replies in the
order of the lines. At the end it checks that the replies match one history of each
database. It refuses `@restart`.

If a store's file doesn't exist, it is created. The next run finds what was
committed. Without --store, data is lost when the program exits.

Exit status: 0 if everything was served and written; 1 if the input can't be read,
a reply can't be written, memory runs out, a phase has more than 64 sessions or the
replies don't match the histories; 2 for wrong arguments; 3 if a store can't be
opened, and then nothing was read.

Later versions add statements, answer the statements of this version as it does,
and read its stores. --version prints the version.";

/// Returns the arguments of the values, or what is wrong with a value.
fn asked(alloc: Global, matches: &ArgMatches<'_>) -> Result<Args, ArgFault>
    ensures values { MatchResult result (λ args. values_ask (rows_of (found_of matches.now)) ≡ Some args)
        (λ fault. (fault ≡ no_memory) ⊎ ((values_ask (rows_of (found_of matches.now)) ≡ None) × (fault.status ≡ 2))) }
    ensures databases { IfOk result (λ args. (1 ≤ args.databases) × (args.databases ≤ MAX_DATABASES)) }
{
    let Some(mode) = mode_of(matches.get_str("mode")) else {
        return Err(wrong(alloc, "the mode must be `run`, `free` or `serve`\n"));
    };
    let Some(databases) = databases_of(matches.get_str("databases")) else {
        return Err(wrong(alloc, "--databases must be a number from 1 to 16\n"));
    };
    let Some(sessions) = sessions_of(mode, matches.get_str("sessions")) else {
        return Err(wrong(
            alloc,
            "--sessions must be a number from 1 to 65535, and only `serve` has it\n",
        ));
    };
    match path_of(alloc, matches.get_str("store")) {
        Ok(path) => Ok(Args {
            mode,
            path,
            databases,
            sessions,
        }),
        Err(_) => Err(ArgFault::memory(alloc)),
    }
}

/// Returns the path of a value, if there is one.
fn path_of(alloc: Global, value: Option<&str>) -> Result<Option<Text>, AllocError>
    ensures { IfOk result (λ path. path ≡ option_map (λ s. s.now) value.entry) }
{
    match value {
        Some(path) => Ok(Some(Text::from_string(String::from_str(alloc, path)?))),
        None => Ok(None),
    }
}

/// Returns the mode with this name.
fn mode_of(name: Option<&str>) -> Option<Mode>
    ensures { result ≡ mode_of (option_map (λ s. s.now) name.entry) }
{
    match name {
        Some("run") => Some(Mode::Run),
        Some("free") => Some(Mode::Free),
        Some("serve") => Some(Mode::Serve),
        _ => None,
    }
}

/// Returns the number of databases of a value, from 1 to 16. The number is read as Rust reads a
/// `u8`, so `+3` and `00000016` are accepted.
fn databases_of(value: Option<&str>) -> Option<u8>
    ensures value { result ≡ databases_of (option_map (λ s. s.now) value.entry) }
    ensures range { IfSome result (λ count. (1 ≤ count) × (count ≤ MAX_DATABASES)) }
{
    let Some(text) = value else {
        return Some(1);
    };
    let count = text.parse::<u8>().unwrap_or(0);
    if 1 <= count && count <= MAX_DATABASES {
        Some(count)
    } else {
        None
    }
}

/// Returns the number of sessions of a value, from 1 to 65,535, which only `serve` may have. The
/// number is read as Rust reads a `u16`, so `+3` and `00000065` are accepted.
fn sessions_of(mode: Mode, value: Option<&str>) -> Option<u16>
    ensures { result ≡ sessions_of mode (option_map (λ s. s.now) value.entry) }
{
    let Some(text) = value else {
        return Some(Session::MAX_SHARED);
    };
    match mode {
        Mode::Serve => some_sessions(text.parse::<u16>().unwrap_or(0)),
        Mode::Run | Mode::Free => None,
    }
}

/// Returns a number of sessions, if it isn't 0.
fn some_sessions(count: u16) -> Option<u16>
    ensures { result ≡ some_sessions count }
{
    if count == 0 { None } else { Some(count) }
}

/// Returns what to print for a parse without matches.
fn fault_of(alloc: Global, error: &Error) -> ArgFault
    ensures status { (result ≡ no_memory) ⊎ (result.status ≡ status_of (kind_of error.now)) }
    ensures memory { kind_of error.now ≡ ErrorKind.OutOfMemory → result ≡ no_memory }
{
    let Ok(text) = error.to_string(alloc) else {
        return ArgFault::memory(alloc);
    };
    match error.kind() {
        ErrorKind::OutOfMemory => ArgFault::memory(alloc),
        ErrorKind::DisplayHelp | ErrorKind::DisplayVersion => ArgFault {
            status: 0,
            text: Text::from_string(text),
        },
        _ => wrong_words(alloc, without_prefix(text.as_str())),
    }
}

/// Returns the text without clap's word for an error at its beginning.
fn without_prefix(text: &str) -> &str {
    text.strip_prefix("error: ").unwrap_or(text)
}

/// Returns the fault of words that clap refuses with a text. An extra word is most likely a
/// script's file.
fn wrong_words(alloc: Global, text: &str) -> ArgFault
    ensures { (result ≡ no_memory) ⊎ (result.status ≡ 2) }
{
    match text.split_once('\n') {
        Some((said, usage)) if names_a_file(said) => {
            mistake(alloc, format!(in alloc; "{said}\n{FILE_TIP}{usage}"))
        }
        _ => wrong(alloc, text),
    }
}

/// The beginning of clap's text for an extra word.
const WORD: &str = "unexpected argument '";

/// The text between that and the usage.
const FILE_TIP: &str = "
  tip: a script is read from standard input, as in 'escrowd run < FILE'
";

/// Returns whether a text of clap's is about an extra word that is no option.
fn names_a_file(text: &str) -> bool {
    text.strip_prefix(WORD)
        .is_some_and(|word| !word.starts_with('-'))
}

/// Returns the fault of wrong words, with a text that says why.
fn wrong(alloc: Global, text: &str) -> ArgFault
    ensures { (result ≡ no_memory) ⊎ (result.status ≡ 2) }
{
    mistake(alloc, String::from_str(alloc, text))
}

/// Returns the fault of wrong words, with the text that says why, or that of memory if it was
/// refused for the text.
fn mistake(alloc: Global, text: Result<String, AllocError>) -> ArgFault
    ensures { (result ≡ no_memory) ⊎ (result.status ≡ 2) }
{
    match text {
        Ok(text) => ArgFault {
            status: 2,
            text: Text::from_string(text),
        },
        Err(_) => ArgFault::memory(alloc),
    }
}
