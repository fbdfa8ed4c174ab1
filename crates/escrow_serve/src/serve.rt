ghost use Rattle.std.specs.Prelude.{◌≡◌, ◌≤◌, ◌<◌, ◌+◌, ◌*◌, ◌++◌, ◌∷◌, [], Option, List, ℕ, true, false, length, take, drop, vec_len, vec_capacity, OnOk, IfOk, IfErr, IfSome};
ghost use Rattle.std.specs.Io.KnownBytes.{Appends, IsAtEnd};
ghost use Rattle.std.specs.List.{AllByRecursion};
ghost use Rattle.escrow_script.specs.Client.{ReceivesLine, ReceivesPart};
ghost use Rattle.escrow_script.specs.Line.{HasNoFeed};
ghost use Rattle.escrow_script.specs.Script.{left, has_line, most_bytes, HasEnded, Spends, TakesLine};
ghost use Rattle.escrow_script.specs.Written.{Leaves};
ghost use Rattle.escrow_script.specs.declared.limits.TheConstants.{MAX_LINE};
ghost use Rattle.escrow_num.specs.declared.session.TheConstants.Session.{MAX_SHARED};
ghost use Rattle.escrow_serve.specs.Answered.{AllAnswered, IsFresh};
ghost use Rattle.escrow_serve.specs.Batch.{Gathers, GathersLines, HasRoom, TakesLines};
ghost use Rattle.escrow_serve.specs.Left.{LeavesItsRows};
ghost use Rattle.escrow_serve.specs.Output.{states_of, HaveCleanDisks, ServesAll, ServesWhole, StopsWithin};
ghost use Rattle.escrow_serve.specs.Ran.{LeftBy, LineRan, LinesRan, ScriptRan};
ghost use Rattle.escrow_serve.specs.Totals.{LineServed, LinesServed};

use crate::alone::serve_task;
use crate::batch::Batch;
use crate::task::{Task, read_task};
use crate::totals::Totals;
use escrow_core::Database;
use escrow_num::Session;
use escrow_reply::MAX_SHORT;
use escrow_script::{
    Client, Limit, MAX_DATABASES, MOST_GATHERED, Script, ServeFault, out_of_memory, write_gathered,
};
use sqlite::Alter;
use std::alloc::Global;

/// The most lines that wait to be served together.
const MOST_WAITING: usize = 256;

/// Serves a client's script: reads its lines in order, and serves each in the database that it
/// names. Lines that are in hand are served together, so that their COMMITs can share a write.
/// Replies are gathered while the next line is in hand, and written before the client is read
/// again, so a client that waits for a reply gets it. There must be 1 to 16 databases. SHOW
/// STATISTICS shows the totals of its session in this call, since the last restart of its database.
///
/// After a fault, the databases have the lines that were served so far, and all their replies were
/// written. If that failed, a prefix of the replies was written. A line is served only if there is
/// room for a short reply. All replies are short but those to queries. If memory for a query's
/// lines is refused, the reply is 51.
pub fn serve_script<S: Alter, C: Client>(
    alloc: Global,
    databases: &mut Vec<Database<S>>,
    client: &mut C,
) -> Result<(), ServeFault>
    requires some { 1 ≤ vec_len databases.old }
    requires few { vec_len databases.old ≤ MAX_DATABASES }

    // A client can be served that lets itself be read only when all of its complete lines are
    // answered: whenever it is read, they are.
    requires fresh { IsFresh (C.received client.old) (C.sent client.old) }
    requires waits { (c : C) → AllAnswered (vec_len databases.old) MAX_SHARED (C.received c) (C.sent c) → C.may_read c }

    // If each disk returned what was written, the output and the states after it are those of the
    // script, all of which was read. This holds even if a fault has shut a store.
    ensures output { HaveCleanDisks S.Store databases.new.items
        → OnOk result (IfSome (C.remaining client.old) (λ script.
        ServesWhole MAX_SHARED script (states_of databases.old.items) (states_of databases.new.items)
        (C.sent client.old) (C.sent client.new))) }
    ensures end { OnOk result (IfSome (C.remaining client.old) (λ script. IsAtEnd (C.remaining client.new))) }

    // After a fault some lines were served, and their output was written, or a prefix of it if that
    // failed.
    ensures fault { HaveCleanDisks S.Store databases.new.items
        → IfErr result (λ fault. IfSome (C.remaining client.old) (λ script.
        StopsWithin MAX_SHARED fault script (states_of databases.old.items) (states_of databases.new.items)
        (C.sent client.old) (C.sent client.new))) }

    // If each disk has returned what was written by the end of the call, it had before the call
    // too.
    ensures clean { HaveCleanDisks S.Store databases.new.items → HaveCleanDisks S.Store databases.old.items }

    // However the call ends, a crash leaves exactly the tables and rows of the states after it, in
    // each store that can be used.
    ensures on_disk { AllByRecursion (LeavesItsRows S.Store) databases.new.items }

    // However the call ends, each database by itself served what its lines gave it, if its own disk
    // returned what was written. After a crash no write that was answered is missing, also if a
    // fault has shut the store.
    ensures ran { IfSome (C.remaining client.old)
        (λ script. ScriptRan S.Store MAX_SHARED script databases.old.items databases.new.items (C.sent client.old)
        (C.sent client.new) (LeftBy result)) }
{
    let served = serve_from(alloc, Limit::Script, Session::MAX_SHARED, databases, client);
    see_left(databases.as_slice());
    served
}

/// Serves lines as [`serve_script`] does, but with this many sessions, and until the client
/// sends no more, however many they are.
pub fn serve_lines<S: Alter, C: Client>(
    alloc: Global,
    sessions: u16,
    databases: &mut Vec<Database<S>>,
    client: &mut C,
) -> Result<(), ServeFault>
    requires some { 1 ≤ vec_len databases.old }
    requires few { vec_len databases.old ≤ MAX_DATABASES }

    // A client can be served that lets itself be read only when all of its complete lines are
    // answered: whenever it is read, they are.
    requires fresh { IsFresh (C.received client.old) (C.sent client.old) }
    requires waits { (c : C) → AllAnswered (vec_len databases.old) sessions (C.received c) (C.sent c) → C.may_read c }

    // If each disk returned what was written, the output and the states after it are those of all
    // lines, all of which were read. This holds even if a fault has shut a store.
    ensures output { HaveCleanDisks S.Store databases.new.items
        → OnOk result (IfSome (C.remaining client.old) (λ script.
        ServesAll sessions script (states_of databases.old.items) (states_of databases.new.items)
        (C.sent client.old) (C.sent client.new))) }
    ensures end { OnOk result (IfSome (C.remaining client.old) (λ script. IsAtEnd (C.remaining client.new))) }

    // After a fault some lines were served, and their output was written, or a prefix of it if that
    // failed.
    ensures fault { HaveCleanDisks S.Store databases.new.items
        → IfErr result (λ fault. IfSome (C.remaining client.old) (λ script.
        StopsWithin sessions fault script (states_of databases.old.items) (states_of databases.new.items)
        (C.sent client.old) (C.sent client.new))) }

    // If each disk has returned what was written by the end of the call, it had before the call
    // too.
    ensures clean { HaveCleanDisks S.Store databases.new.items → HaveCleanDisks S.Store databases.old.items }

    // However the call ends, a crash leaves exactly the tables and rows of the states after it, in
    // each store that can be used.
    ensures on_disk { AllByRecursion (LeavesItsRows S.Store) databases.new.items }

    // However the call ends, each database by itself served what its lines gave it, if its own disk
    // returned what was written. After a crash no write that was answered is missing, also if a
    // fault has shut the store.
    ensures ran { IfSome (C.remaining client.old)
        (λ script. ScriptRan S.Store sessions script databases.old.items databases.new.items (C.sent client.old)
        (C.sent client.new) (LeftBy result)) }
{
    let served = serve_from(alloc, Limit::Stream, sessions, databases, client);
    see_left(databases.as_slice());
    served
}

/// Serves lines as [`serve_script`] does, but reads no more of them than a limit allows.
fn serve_from<S: Alter, C: Client>(
    alloc: Global,
    limit: Limit,
    sessions: u16,
    databases: &mut Vec<Database<S>>,
    client: &mut C,
) -> Result<(), ServeFault>
    requires few { vec_len databases.old ≤ MAX_DATABASES }
    requires fresh { IsFresh (C.received client.old) (C.sent client.old) }
    requires waits { (c : C) → AllAnswered (vec_len databases.old) sessions (C.received c) (C.sent c) → C.may_read c }
    ensures output { HaveCleanDisks S.Store databases.new.items
        → OnOk result (IfSome (C.remaining client.old) (λ script. (length script ≤ most_bytes limit)
        × ServesAll sessions script (states_of databases.old.items) (states_of databases.new.items)
        (C.sent client.old) (C.sent client.new))) }
    ensures end { OnOk result (IfSome (C.remaining client.old) (λ script. IsAtEnd (C.remaining client.new))) }
    ensures fault { HaveCleanDisks S.Store databases.new.items
        → IfErr result (λ fault. IfSome (C.remaining client.old) (λ script.
        StopsWithin sessions fault script (states_of databases.old.items) (states_of databases.new.items)
        (C.sent client.old) (C.sent client.new))) }
    ensures clean { HaveCleanDisks S.Store databases.new.items → HaveCleanDisks S.Store databases.old.items }
    ensures ran { IfSome (C.remaining client.old)
        (λ script. ScriptRan S.Store sessions script databases.old.items databases.new.items (C.sent client.old)
        (C.sent client.new) (LeftBy result)) }
{
    let mut script = Script::up_to(alloc, limit)?;
    let mut totals = Totals::of_databases(alloc, databases.len())?;
    let mut batch = Batch::new(alloc, databases.len())?;
    let mut replies = Vec::new(alloc);
    while take_line(&mut script, client, &mut replies)? {
        serve_in_hand(
            alloc,
            sessions,
            databases,
            &mut totals,
            &mut script,
            &mut batch,
            &mut replies,
        );
        if replies.len() >= MOST_GATHERED || !script.has_line() {
            write_gathered(client, &mut replies)?;
        }
    }
    Ok(())
}

/// Shows that, for each database whose store can be used, a crash leaves exactly its tables and its
/// rows.
fn see_left<S: Alter>(databases: &[Database<S>])
    ensures { AllByRecursion (LeavesItsRows S.Store) databases.now }
{
    for database in databases {
        // The contract of `next_id` says what a crash leaves.
        prove!(database.next_id() != Some(0));
    }
}

/// Takes the next line, with room for a short reply to it, and returns whether there was one. If
/// memory is refused, what is gathered is written first, and a line that was taken must not be
/// served.
fn take_line<C: Client>(
    script: &mut Script,
    client: &mut C,
    replies: &mut Vec<u8>,
) -> Result<bool, ServeFault>
    requires ended { script.old.has_ended ≡ true → HasEnded script.old.unread (C.remaining client.old) }
    requires waits { has_line script.old.reads_left script.old.unread ≡ false → replies.old.items ≡ [] }
    requires may { script.old.has_ended ≡ false → HasNoFeed script.old.unread → (c : C)
        → ReceivesPart (C.received client.old) (C.received c) → C.sent c ≡ C.sent client.old → C.may_read c }
    ensures taken { IfOk result (λ found. TakesLine found (left script.old.unread (C.remaining client.old))
        (left script.new.unread (C.remaining client.new)) script.new.line.items) }
    ensures less { IfOk result (λ found. found ≡ true →
        script.new.bytes_left + length script.new.unread < script.old.bytes_left + length script.old.unread) }
    ensures spent { OnOk result
        (Spends (C.remaining client.old) (C.remaining client.new) script.old.bytes_left script.new.bytes_left) }
    ensures in_hand { IfOk result (λ found. has_line script.old.reads_left script.old.unread ≡ true → found ≡ true) }
    ensures ended { IfOk result
        (λ _. script.new.has_ended ≡ true → HasEnded script.new.unread (C.remaining client.new)) }
    ensures room { IfOk result (λ found. found ≡ true → vec_len replies.new + MAX_SHORT ≤ vec_capacity replies.new) }
    ensures gathered { OnOk result (replies.new.items ≡ replies.old.items) }
    ensures over { IfOk result (λ found. script.old.has_ended ≡ true → found ≡ false) }
    ensures received { OnOk result (script.new.has_ended ≡ false → ReceivesLine
        (C.received client.old) (C.received client.new) script.old.unread script.new.unread script.new.line.items) }
    ensures unwritten { OnOk result (C.sent client.new ≡ C.sent client.old) }
    ensures fault { IfErr result
        (λ why. (len : ℕ) × Appends (C.sent client.old) (C.sent client.new) (take len replies.old.items)
        × Leaves why (drop len replies.old.items)) }
{
    match script.next_line(client) {
        Ok(true) => match replies.reserve(MAX_SHORT) {
            Ok(()) => Ok(true),
            Err(_) => Err(out_of_memory(client, replies)),
        },
        Ok(false) => Ok(false),
        Err(ServeFault::Read(cause)) => Err(ServeFault::Read(cause)),
        Err(ServeFault::Memory | ServeFault::Write(_)) => Err(out_of_memory(client, replies)),
    }
}

/// Serves the line that was taken last and those in hand after it that may be served with it, and
/// gathers the lines of their replies. There must be room for a short reply to the first.
fn serve_in_hand<S: Alter>(
    alloc: Global,
    sessions: u16,
    databases: &mut Vec<Database<S>>,
    totals: &mut Vec<Totals>,
    script: &mut Script,
    batch: &mut Batch,
    replies: &mut Vec<u8>,
)
    requires few { vec_len databases.old ≤ MAX_DATABASES }
    requires each { vec_len totals.old ≡ vec_len databases.old }
    requires empty { Gathers sessions (vec_len databases.old) batch.old.waiting.items batch.old.parts.items [] }
    requires room { vec_len replies.old + MAX_SHORT ≤ vec_capacity replies.old }
    ensures served { (lines : List (List ℕ)) × (out : List ℕ)
        × ((rem : Option (List ℕ)) → TakesLines lines (left script.old.unread rem) (left script.new.unread rem))
        × (length lines + length script.new.unread ≤ length script.old.unread)
        × (replies.new.items ≡ replies.old.items ++ out) × (HaveCleanDisks S.Store databases.new.items →
        LinesServed sessions (states_of databases.old.items) totals.old.items (script.old.line.items ∷ lines) out
        (states_of databases.new.items) totals.new.items) }
    ensures ran { (lines : List (List ℕ)) × (out : List ℕ)
        × ((rem : Option (List ℕ)) → TakesLines lines (left script.old.unread rem) (left script.new.unread rem))
        × (length lines + length script.new.unread ≤ length script.old.unread)
        × (replies.new.items ≡ replies.old.items ++ out)
        × LinesRan S.Store sessions databases.old.items (script.old.line.items ∷ lines) out databases.new.items }
    ensures short { length script.old.line.items ≤ MAX_LINE + 1 }
    ensures empty { Gathers sessions (vec_len databases.new) batch.new.waiting.items batch.new.parts.items [] }
    ensures bytes { script.new.bytes_left ≡ script.old.bytes_left }
    ensures ended { script.new.has_ended ≡ script.old.has_ended }
    ensures len { vec_len databases.new ≡ vec_len databases.old }
    ensures each { vec_len totals.new ≡ vec_len totals.old }
    ensures clean { HaveCleanDisks S.Store databases.new.items → HaveCleanDisks S.Store databases.old.items }
{
    if !script.has_line() {
        serve_line(alloc, sessions, databases, totals, script.line(), replies);
        return;
    }
    let alone = gather_lines(alloc, databases.len(), sessions, script, batch, replies);
    batch.serve(alloc, databases, totals, replies);
    if let Some(task) = alone {
        serve_task(alloc, databases, totals, task, replies);
    }
}

/// Serves one line by itself, and gathers the lines of its reply. There must be room for a short
/// one.
fn serve_line<S: Alter>(
    alloc: Global,
    sessions: u16,
    databases: &mut Vec<Database<S>>,
    totals: &mut Vec<Totals>,
    line: &[u8],
    replies: &mut Vec<u8>,
)
    requires few { vec_len databases.old ≤ MAX_DATABASES }
    requires each { vec_len totals.old ≡ vec_len databases.old }
    requires room { vec_len replies.old + MAX_SHORT ≤ vec_capacity replies.old }
    ensures served { (out : List ℕ) × (replies.new.items ≡ replies.old.items ++ out)
        × (HaveCleanDisks S.Store databases.new.items →
        LineServed sessions (states_of databases.old.items) totals.old.items line.now out
        (states_of databases.new.items) totals.new.items) }
    ensures ran { (out : List ℕ) × (replies.new.items ≡ replies.old.items ++ out)
        × LineRan S.Store sessions databases.old.items line.now out databases.new.items }
    ensures len { vec_len databases.new ≡ vec_len databases.old }
    ensures each { vec_len totals.new ≡ vec_len totals.old }
    ensures clean { HaveCleanDisks S.Store databases.new.items → HaveCleanDisks S.Store databases.old.items }
{
    let task = read_task(alloc, databases.len(), sessions, line);
    serve_task(alloc, databases, totals, task, replies);
}

/// Adds the line that was taken last, and those in hand after it, to those that wait, up to the
/// first that may not wait. That line is taken too, and its task is returned. There must be room
/// for a short reply to each.
fn gather_lines(
    alloc: Global,
    databases: usize,
    sessions: u16,
    script: &mut Script,
    batch: &mut Batch,
    replies: &mut Vec<u8>,
) -> Option<Task>
    requires few { databases ≤ MAX_DATABASES }
    requires empty { Gathers sessions databases batch.old.waiting.items batch.old.parts.items [] }
    requires room { vec_len replies.old + MAX_SHORT ≤ vec_capacity replies.old }
    ensures gathered { GathersLines sessions databases script.old.line.items script.old.unread script.new.unread
        batch.new.waiting.items batch.new.parts.items result }
    ensures room { HasRoom result (vec_len batch.new.waiting) (vec_len replies.new) (vec_capacity replies.new) }
    ensures same { replies.new.items ≡ replies.old.items }
    ensures bytes { script.new.bytes_left ≡ script.old.bytes_left }
    ensures ended { script.new.has_ended ≡ script.old.has_ended }
{
    let mut alone = batch.admit(read_task(alloc, databases, sessions, script.line()));
    while alone.is_none() && take_next(script, batch.len(), replies) {
        alone = batch.admit(read_task(alloc, databases, sessions, script.line()));
    }
    alone
}

/// Takes the next line if it is in hand, with room for a short reply to it and to each that waits, and returns whether
/// it was taken.
fn take_next(script: &mut Script, waiting: usize, replies: &mut Vec<u8>) -> bool
    ensures taken { result ≡ true → (rem : Option (List ℕ)) →
        TakesLine true (left script.old.unread rem) (left script.new.unread rem) script.new.line.items }
    ensures fewer { result ≡ true → length script.new.unread < length script.old.unread }
    ensures stays { result ≡ false → script.new.unread ≡ script.old.unread }
    ensures room { result ≡ true → vec_len replies.new + MAX_SHORT * (waiting + 1) ≤ vec_capacity replies.new }
    ensures capacity { vec_capacity replies.old ≤ vec_capacity replies.new }
    ensures same { replies.new.items ≡ replies.old.items }
    ensures bytes { script.new.bytes_left ≡ script.old.bytes_left }
    ensures ended { script.new.has_ended ≡ script.old.has_ended }
{
    if waiting >= MOST_WAITING || !script.has_line() {
        return false;
    }
    if replies.reserve(MAX_SHORT * (waiting + 1)).is_err() {
        return false;
    }
    matches!(script.take_ready(), Ok(true))
}
