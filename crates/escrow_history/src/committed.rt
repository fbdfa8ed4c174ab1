ghost use Rattle.std.specs.Prelude.{◌≡◌, ◌+◌, ◌<◌, ◌≤◌, ◌++◌, [], length, IfOk, IfErr, unwrap_or};
ghost use Rattle.std.specs.Vec.{vec_len, vec_capacity};
ghost use Rattle.escrow_machine.specs.Reply.{failure_of};
ghost use Rattle.escrow_transcript.specs.declared.transcript.TheConstants.Transcript.{MAX_NUMBER};
ghost use Rattle.escrow_history.specs.Commits.{commit_of, commits_of, NameTheirs};
ghost use Rattle.escrow_history.specs.Entered.{asked_by, commit_asked_by, AreEntered, IsNoCommit};

use crate::audited::keep;
use escrow_machine::{Event, Reply};
use escrow_num::{Failure, Session};
use escrow_statement::Statement;
use escrow_transcript::Entry;
use std::alloc::{AllocError, Global};

/// A COMMIT that was served, and is an entry of the transcript.
#[derive(Clone, Copy, Debug)]
pub struct Committed {
    /// The number of the entry.
    pub number: u64,
    /// The session whose transaction it ended.
    pub session: Session,
    /// How many reservations it applied.
    pub count: u32,
}

/// Returns COMMITs of sessions, as events.
pub(crate) fn ask_commits(alloc: Global, sessions: &[Session]) -> Result<Vec<Event>, AllocError>
    ensures { IfOk result (λ events. events.items ≡ asked_by sessions.now) }
{
    sessions
        .iter()
        .map(|session| ask_commit(session))
        .collect(alloc)
}

/// Returns a COMMIT of a session, as an event.
fn ask_commit(session: &Session) -> Event
    ensures { result ≡ commit_asked_by session.now }
{
    Event::Statement {
        session: *session,
        statement: Statement::Commit,
    }
}

/// Adds an entry for each COMMIT that was served, into room that was taken. Adds to `outcomes`, for
/// each session, whether its COMMIT was served.
pub(crate) fn enter_all(
    entries: &mut Vec<Entry>,
    before: u64,
    sessions: &[Session],
    replies: &[Reply],
    outcomes: &mut Vec<Result<Committed, Failure>>,
)
    requires replies { length replies.now ≡ length sessions.now }
    requires room { vec_len entries.old + length sessions.now ≤ vec_capacity entries.old }
    requires places { (outcomes.old.items ≡ []) × (length sessions.now ≤ vec_capacity outcomes.old) }
    requires numbers { before + vec_len entries.old + length sessions.now ≤ MAX_NUMBER }
    ensures entered { AreEntered (before + vec_len entries.old) replies.now outcomes.new.items }
    ensures named { NameTheirs sessions.now outcomes.new.items }
    ensures entries { entries.new.items ≡ entries.old.items ++ commits_of sessions.now outcomes.new.items }
    ensures capacity { vec_capacity entries.new ≡ vec_capacity entries.old }
{
    for (session, reply) in sessions.iter().zip(replies) {
        let outcome = outcome_of(before + entries.len() as u64 + 1, *session, reply);
        if let Ok(committed) = &outcome {
            keep(entries, entry_of(*session, committed));
        }
        outcomes.push_reserved(outcome);
    }
}

/// Returns a COMMIT of a session that was served, with the count that its reply says, or why it
/// wasn't served. Only a reply that reports a failure says that it wasn't.
fn outcome_of(number: u64, session: Session, answer: &Reply) -> Result<Committed, Failure>
    ensures served { IfOk result (λ c. (c.number ≡ number) × (answer.now ≡ Reply.Committed c.count)) }
    ensures named { IfOk result (λ c. c.session ≡ session) }
    ensures failed { IfErr result (λ f. IsNoCommit answer.now × (f ≡ unwrap_or (failure_of answer.now) Failure.Store)) }
{
    match answer {
        Reply::Committed { count } => Ok(Committed {
            number,
            session,
            count: *count,
        }),
        other => Err(other.failure().unwrap_or(Failure::Store)),
    }
}

/// Returns the entry of a COMMIT that was served.
fn entry_of(session: Session, committed: &Committed) -> Entry
    ensures { result ≡ commit_of session committed.now }
{
    Entry {
        number: committed.number,
        session,
        statement: Statement::Commit,
        reply: Reply::Committed {
            count: committed.count,
        },
    }
}
