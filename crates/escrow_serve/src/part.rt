ghost use Rattle.std.specs.Prelude.{◌≡◌, ◌≤◌, ◌+◌, ◌++◌, ◌∷◌, [], vec_len, vec_capacity, OnOk, OnErr, IfErr, IfNone, IfSome};

use escrow_core::{Database, Event, Reply};
use escrow_num::Session;
use escrow_sql::Statement;
use sqlite::Alter;
use std::alloc::{AllocError, Global};

/// What a batch asks of one database, and the replies.
#[derive(Drop)]
pub(crate) struct Part {
    /// The statements that wait, in order.
    events: Vec<Event>,
    /// The replies that are left to return, the next one last.
    answers: Vec<Reply>,
    ghost room: { vec_len answers + vec_len events ≤ vec_capacity answers },
}

impl Part {
    ghost use Rattle.sqlite.specs.Held.{state};
    ghost use Rattle.sqlite.specs.State.{HasCleanDisk};
    ghost use Rattle.escrow_serve.specs.Batch.{HasRun};

    /// Returns a part that asks nothing.
    pub(crate) fn new(alloc: Global) -> Part
        ensures { result.events.items ≡ [] }
    {
        Part {
            events: Vec::new(alloc),
            answers: Vec::new(alloc),
        }
    }

    /// Adds a statement to those that wait, if it may wait and there is memory for it and its
    /// reply; else returns the statement.
    pub(crate) fn ask(&mut self, session: Session, statement: Statement) -> Result<(), Statement>
        ensures asked { OnOk result
            (self.new.events.items ≡ self.old.events.items ++ Event.Statement session statement ∷ []) }
        ensures same { OnErr result (self.new.events.items ≡ self.old.events.items) }
        ensures back { IfErr result (λ back. back ≡ statement) }
    {
        if !may_wait(&statement) || self.make_room().is_err() {
            return Err(statement);
        }
        self.events
            .push_reserved(Event::Statement { session, statement });
        Ok(())
    }

    /// Takes memory for one more statement and its reply.
    fn make_room(&mut self) -> Result<(), AllocError>
        ensures same { self.new.events.items ≡ self.old.events.items }
        ensures event { OnOk result (vec_len self.new.events + 1 ≤ vec_capacity self.new.events) }
        ensures reply { OnOk result
            (vec_len self.new.answers + vec_len self.new.events + 1 ≤ vec_capacity self.new.answers) }
    {
        self.events.reserve(1)?;
        self.answers.reserve(self.events.len() + 1)
    }

    /// Has the database serve the statements that wait.
    pub(crate) fn run<S: Alter>(&mut self, alloc: Global, database: &mut Database<S>)
        ensures ran { HasRun S.Store database.old self.old database.new self.new }
        ensures clean { HasCleanDisk (state S.Store database.new.store)
            → HasCleanDisk (state S.Store database.old.store) }
    {
        self.answers.clear();
        if self.events.is_empty() {
            return;
        }
        database.run_into(alloc, self.events.as_slice(), &mut self.answers);
        self.answers.reverse();
        self.events.clear();
    }

    /// Takes the next reply, if one is left.
    pub(crate) fn next(&mut self) -> Option<Reply>
        ensures some { IfSome result (λ reply. self.old.answers.items ≡ self.new.answers.items ++ reply ∷ []) }
        ensures none { IfNone result (self.old.answers.items ≡ []) }
        ensures events { self.new.events ≡ self.old.events }
    {
        self.answers.pop()
    }
}

/// Returns whether a statement may wait for others: its reply is always short, and serving it
/// together with others saves a write.
fn may_wait(statement: &Statement) -> bool {
    matches!(
        statement,
        Statement::Update(_)
            | Statement::Commit
            | Statement::Rollback
            | Statement::RollbackTo(_)
            | Statement::Savepoint(_)
    )
}
