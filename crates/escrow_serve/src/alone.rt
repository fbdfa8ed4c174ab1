ghost use Rattle.std.specs.Prelude.{◌≡◌, ◌≤◌, ◌+◌, ◌⊎◌, ◌++◌, ◌∷◌, [], List, ℕ, true, false, length, vec_len, vec_capacity, OnOk, OnErr};
ghost use Rattle.sqlite.specs.Held.{state};
ghost use Rattle.sqlite.specs.State.{HasCleanDisk};
ghost use Rattle.escrow_sql.specs.Parser.{Asks};
ghost use Rattle.escrow_machine.specs.State.{State};
ghost use Rattle.escrow_machine.specs.Step.{IsServed};
ghost use Rattle.escrow_reply.specs.Text.{rendered};
ghost use Rattle.escrow_stats.specs.Text.{rendered_totals};
ghost use Rattle.escrow_machine.specs.Reply.{holds_memory};
ghost use Rattle.escrow_serve.specs.Output.{states_of, HaveCleanDisks};
ghost use Rattle.escrow_serve.specs.Ran.{LineRan, Ran};
ghost use Rattle.escrow_serve.specs.Shown.{IsShown};
ghost use Rattle.escrow_serve.specs.Task.{IsTask};
ghost use Rattle.escrow_serve.specs.Totals.{AreLeft, LineServed, TextServed};

use crate::task::Task;
use crate::totals::Totals;
use crate::waiting::give_short;
use escrow_core::{Database, Event, Reply};
use escrow_num::{Refusal, Session};
use escrow_reply::{
    MAX_FRONT, MAX_SHORT, is_short, push_short, push_short_line, push_short_whole, render,
};
use escrow_script::{MAX_DATABASES, database_name, gather};
use escrow_sql::{Request, Statement};
use escrow_stats::Tally;
use sqlite::Alter;
use std::alloc::{AllocError, Global};

/// Serves what a line asks, by itself, and gathers the lines of its reply, if it has one. There
/// must be room for a short one.
pub(crate) fn serve_task<S: Alter>(
    alloc: Global,
    databases: &mut Vec<Database<S>>,
    totals: &mut Vec<Totals>,
    task: Task,
    replies: &mut Vec<u8>,
)
    requires few { vec_len databases.old ≤ MAX_DATABASES }
    requires each { vec_len totals.old ≡ vec_len databases.old }
    requires asked { (sessions : ℕ) × (bytes : List ℕ) × IsTask sessions (vec_len databases.old) bytes task }
    requires room { vec_len replies.old + MAX_SHORT ≤ vec_capacity replies.old }
    ensures served { (out : List ℕ) × (replies.new.items ≡ replies.old.items ++ out)
        × (HaveCleanDisks S.Store databases.new.items → (sessions : ℕ) (bytes : List ℕ)
        → IsTask sessions (vec_len databases.old) bytes task
        → LineServed sessions (states_of databases.old.items) totals.old.items bytes out
        (states_of databases.new.items) totals.new.items) }
    ensures ran { (out : List ℕ) × (replies.new.items ≡ replies.old.items ++ out) × ((sessions : ℕ) (bytes : List ℕ)
        → IsTask sessions (vec_len databases.old) bytes task
        → LineRan S.Store sessions databases.old.items bytes out databases.new.items) }
    ensures len { vec_len databases.new ≡ vec_len databases.old }
    ensures each { vec_len totals.new ≡ vec_len totals.old }
    ensures clean { HaveCleanDisks S.Store databases.new.items → HaveCleanDisks S.Store databases.old.items }
{
    match task {
        Task::Nothing => {}
        Task::NoLine => push_short_line(replies, "script> ", &Reply::Refused(Refusal::Line)),
        Task::Restart { database } => {
            let reply = restart(alloc, &mut databases[database], &mut totals[database]);
            push_short_whole(replies, database_name(database), &reply);
        }
        Task::Refuse {
            database,
            session,
            refusal,
        } => {
            let name = database_name(database);
            let refused = Reply::Refused(refusal);
            give_short(name, session, &refused, &mut totals[database], replies);
        }
        Task::Statement {
            database,
            session,
            statement,
        } => {
            let name = database_name(database);
            let totals = &mut totals[database];
            serve_statement(
                alloc,
                name,
                &mut databases[database],
                totals,
                session,
                &statement,
                replies,
            );
        }
        Task::Statistics { database, session } => {
            let name = database_name(database);
            show_totals(alloc, name, session, &mut totals[database], replies);
        }
    }
}

/// Restarts a database, and returns its reply.
fn restart<S: Alter>(alloc: Global, database: &mut Database<S>, totals: &mut Totals) -> Reply
    ensures served { HasCleanDisk (state S.Store database.new.store)
        → IsServed database.old.state Event.Restart result database.new.state }
    ensures totals { AreLeft result totals.old totals.new }
    ensures short { holds_memory result ≡ false }
    ensures clean { HasCleanDisk (state S.Store database.new.store) → HasCleanDisk (state S.Store database.old.store) }
    ensures ran { Ran S.Store database.old (Event.Restart ∷ []) (result ∷ []) database.new }
{
    let outcome = database.restart(alloc);
    if outcome.is_ok() {
        totals.clear();
    }
    Reply::to_restart(outcome)
}

/// Serves a statement, and gathers the lines of its reply. There must be room for a short one.
fn serve_statement<S: Alter>(
    alloc: Global,
    name: &str,
    database: &mut Database<S>,
    totals: &mut Totals,
    session: Session,
    statement: &Statement,
    replies: &mut Vec<u8>,
)
    requires front { length name.now ≤ MAX_FRONT }
    requires room { vec_len replies.old + MAX_SHORT ≤ vec_capacity replies.old }
    ensures served { (out : List ℕ) × (replies.new.items ≡ replies.old.items ++ out)
        × (HasCleanDisk (state S.Store database.new.store) → (text : List ℕ)
        → Asks text (Request.Statement statement.now)
        → TextServed name.now database.old.state totals.old session text out database.new.state totals.new) }
    ensures clean { HasCleanDisk (state S.Store database.new.store) → HasCleanDisk (state S.Store database.old.store) }
    ensures ran { (answer : Reply) × (replies.new.items ≡ replies.old.items ++ rendered name.now session answer)
        × Ran S.Store database.old (Event.Statement session statement.now ∷ []) (answer ∷ []) database.new }
{
    let reply = database.step(alloc, session, statement);
    let given = give(alloc, name, session, reply, replies);
    totals.count(session, &given);
}

/// Gathers the lines of a session's totals. If memory is refused, the reply says so, and counts.
/// There must be room for a short one.
fn show_totals(
    alloc: Global,
    name: &str,
    session: Session,
    totals: &mut Totals,
    replies: &mut Vec<u8>,
)
    requires front { length name.now ≤ MAX_FRONT }
    requires room { vec_len replies.old + MAX_SHORT ≤ vec_capacity replies.old }
    ensures served { (out : List ℕ) × (replies.new.items ≡ replies.old.items ++ out) × ((kept : State) (text : List ℕ)
        → Asks text Request.Statistics → TextServed name.now kept totals.old session text out kept totals.new) }
    ensures shown { ((tally : Tally)
        × (replies.new.items ≡ replies.old.items ++ rendered_totals name.now session tally))
        ⊎ (replies.new.items ≡ replies.old.items ++ rendered name.now session (Reply.Refused Refusal.Memory)) }
{
    match gather_totals(alloc, name, session, totals.of(session), replies) {
        Ok(()) => {}
        Err(_) => {
            let refused = Reply::Refused(Refusal::Memory);
            push_short(replies, name, session, &refused);
            totals.count(session, &refused);
        }
    }
}

/// Gathers the lines of a reply, and returns the reply that was given: a query is refused if memory
/// for its lines is refused. There must be room for any other reply.
fn give(alloc: Global, name: &str, session: Session, reply: Reply, replies: &mut Vec<u8>) -> Reply
    requires front { length name.now ≤ MAX_FRONT }
    requires room { vec_len replies.old + MAX_SHORT ≤ vec_capacity replies.old }
    ensures gathered { replies.new.items ≡ replies.old.items ++ rendered name.now session result }
    ensures given { IsShown reply result }
{
    if is_short(&reply) {
        push_short(replies, name, session, &reply);
        return reply;
    }
    match gather_shown(alloc, name, session, &reply, replies) {
        Ok(()) => reply,
        Err(_) => {
            let refused = Reply::Refused(Refusal::Memory);
            push_short(replies, name, session, &refused);
            refused
        }
    }
}

/// Gathers the lines of a reply, for which it takes memory. If memory is refused, there is as much
/// room as before.
fn gather_shown(
    alloc: Global,
    name: &str,
    session: Session,
    reply: &Reply,
    replies: &mut Vec<u8>,
) -> Result<(), AllocError>
    ensures ok { OnOk result (replies.new.items ≡ replies.old.items ++ rendered name.now session reply.now) }
    ensures err { OnErr result (replies.new.items ≡ replies.old.items) }
    ensures room { OnErr result (vec_capacity replies.old ≤ vec_capacity replies.new) }
{
    let lines = render(alloc, name, session, reply)?;
    gather(replies, lines)
}

/// Gathers the lines of totals, for which it takes memory. If memory is refused, there is as much
/// room as before.
fn gather_totals(
    alloc: Global,
    name: &str,
    session: Session,
    totals: Tally,
    replies: &mut Vec<u8>,
) -> Result<(), AllocError>
    ensures ok { OnOk result (replies.new.items ≡ replies.old.items ++ rendered_totals name.now session totals) }
    ensures err { OnErr result (replies.new.items ≡ replies.old.items) }
    ensures room { OnErr result (vec_capacity replies.old ≤ vec_capacity replies.new) }
{
    let lines = totals.render(alloc, name, session)?;
    gather(replies, lines)
}
