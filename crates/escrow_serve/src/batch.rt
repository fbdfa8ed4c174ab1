ghost use Rattle.std.specs.Prelude.{◌≡◌, ◌≤◌, ◌+◌, ◌*◌, ◌++◌, [], List, ℕ, map, vec_len, vec_capacity, IfOk, IfErr, IfNone, IfSome, MatchOption};
ghost use Rattle.escrow_serve.specs.Batch.{behind, waiting_of, AreAsked, Gathers, HaveRun, Item, MayWait};
ghost use Rattle.escrow_serve.specs.Output.{states_of, HaveCleanDisks};
ghost use Rattle.escrow_serve.specs.Ran.{LinesRan};
ghost use Rattle.escrow_serve.specs.Task.{IsTask};
ghost use Rattle.escrow_serve.specs.Totals.{LinesServed};

use crate::part::Part;
use crate::task::Task;
use crate::totals::Totals;
use crate::waiting::{Waiting, give_all};
use escrow_core::Database;
use escrow_reply::MAX_SHORT;
use escrow_script::MAX_DATABASES;
use sqlite::Alter;
use std::alloc::{AllocError, Global};

/// Lines that wait to be served together, and what they ask of each database.
#[derive(Drop)]
pub(crate) struct Batch {
    /// What each line waits for, in the script's order.
    waiting: Vec<Waiting>,
    /// What is asked of each database, by its place.
    parts: Vec<Part>,
}

impl Batch {
    /// Returns a batch without lines, for this many databases.
    pub(crate) fn new(alloc: Global, databases: usize) -> Result<Batch, AllocError>
        ensures { IfOk result (λ batch. (sessions : ℕ)
            → Gathers sessions databases batch.waiting.items batch.parts.items []) }
    {
        let mut parts = Vec::with_capacity(alloc, databases)?;
        while parts.len() < databases {
            parts.push_reserved(Part::new(alloc));
        }
        Ok(Batch {
            waiting: Vec::new(alloc),
            parts,
        })
    }

    /// Returns how many lines wait.
    pub(crate) fn len(&self) -> usize
        ensures { result ≡ vec_len self.now.waiting }
    {
        self.waiting.len()
    }

    /// Adds a line to those that wait, if its task may wait and there is memory for it; else
    /// returns the task.
    pub(crate) fn admit(&mut self, task: Task) -> Option<Task>
        requires { (sessions : ℕ) × (bytes : List ℕ) × IsTask sessions (vec_len self.old.parts) bytes task }
        ensures waits { IfNone result ((sessions databases : ℕ) (bytes : List ℕ) (items : List Item)
            → IsTask sessions databases bytes task
            → Gathers sessions databases self.old.waiting.items self.old.parts.items items
            → Gathers sessions databases self.new.waiting.items self.new.parts.items (behind items bytes task)) }
        ensures alone { IfSome result (λ back. (back ≡ task) × ((sessions databases : ℕ) (items : List Item)
            → Gathers sessions databases self.old.waiting.items self.old.parts.items items
            → Gathers sessions databases self.new.waiting.items self.new.parts.items items)) }
        ensures len { MatchOption result (vec_len self.new.waiting ≡ vec_len self.old.waiting + 1)
            (λ _. vec_len self.new.waiting ≡ vec_len self.old.waiting) }
        ensures parts { vec_len self.new.parts ≡ vec_len self.old.parts }
    {
        if self.waiting.reserve(1).is_err() {
            return Some(task);
        }
        match self.ask(task) {
            Ok(waiting) => {
                self.waiting.push_reserved(waiting);
                None
            }
            Err(task) => Some(task),
        }
    }

    /// Asks the database of a task, if it may wait, and returns what the line waits for; else
    /// returns the task.
    fn ask(&mut self, task: Task) -> Result<Waiting, Task>
        requires { (sessions : ℕ) × (bytes : List ℕ) × IsTask sessions (vec_len self.old.parts) bytes task }
        ensures waits { IfOk result
            (λ waiting. (waiting ≡ waiting_of task) × MayWait task × ((bytes : List ℕ) (items : List Item)
            → AreAsked self.old.parts.items items → AreAsked self.new.parts.items (behind items bytes task))) }
        ensures alone { IfErr result (λ back. (back ≡ task) × ((items : List Item)
            → AreAsked self.old.parts.items items → AreAsked self.new.parts.items items)) }
        ensures waiting { self.new.waiting ≡ self.old.waiting }
        ensures parts { vec_len self.new.parts ≡ vec_len self.old.parts }
    {
        match task {
            Task::Nothing => Ok(Waiting::Nothing),
            Task::NoLine => Ok(Waiting::NoLine),
            Task::Refuse {
                database,
                session,
                refusal,
            } => Ok(Waiting::Refused {
                database,
                session,
                refusal,
            }),
            Task::Statement {
                database,
                session,
                statement,
            } => match self.parts[database].ask(session, statement) {
                Ok(()) => Ok(Waiting::Asked { database, session }),
                Err(statement) => Err(Task::Statement {
                    database,
                    session,
                    statement,
                }),
            },
            alone => Err(alone),
        }
    }

    /// Serves the lines that wait, and gathers their replies in the script's order. There must be
    /// room for a short reply to each.
    pub(crate) fn serve<S: Alter>(
        &mut self,
        alloc: Global,
        databases: &mut Vec<Database<S>>,
        totals: &mut Vec<Totals>,
        replies: &mut Vec<u8>,
    )
        requires few { vec_len databases.old ≤ MAX_DATABASES }
        requires each { vec_len totals.old ≡ vec_len databases.old }
        requires gathered { (sessions : ℕ) × (items : List Item)
            × Gathers sessions (vec_len databases.old) self.old.waiting.items self.old.parts.items items }
        requires room { vec_len replies.old + MAX_SHORT * vec_len self.old.waiting ≤ vec_capacity replies.old }
        ensures served { (out : List ℕ) × (replies.new.items ≡ replies.old.items ++ out)
            × ((sessions : ℕ) (items : List Item)
            → Gathers sessions (vec_len databases.old) self.old.waiting.items self.old.parts.items items
            → HaveCleanDisks S.Store databases.new.items
            → LinesServed sessions (states_of databases.old.items) totals.old.items (map (λ item. item.bytes) items) out
            (states_of databases.new.items) totals.new.items) }
        ensures ran { (out : List ℕ) × (replies.new.items ≡ replies.old.items ++ out)
            × ((sessions : ℕ) (items : List Item)
            → Gathers sessions (vec_len databases.old) self.old.waiting.items self.old.parts.items items
            → LinesRan S.Store sessions databases.old.items (map (λ item. item.bytes) items) out databases.new.items) }
        ensures empty { (sessions : ℕ)
            → Gathers sessions (vec_len databases.new) self.new.waiting.items self.new.parts.items [] }
        ensures grown { vec_len replies.new ≤ vec_len replies.old + MAX_SHORT * vec_len self.old.waiting }
        ensures capacity { vec_capacity replies.old ≤ vec_capacity replies.new }
        ensures len { vec_len databases.new ≡ vec_len databases.old }
        ensures each { vec_len totals.new ≡ vec_len totals.old }
        ensures clean { HaveCleanDisks S.Store databases.new.items → HaveCleanDisks S.Store databases.old.items }
    {
        run_all(alloc, databases, &mut self.parts);
        give_all(self.waiting.as_slice(), &mut self.parts, totals, replies);
        self.waiting.clear();
    }
}

/// Has each database serve the statements that wait for it.
fn run_all<S: Alter>(alloc: Global, databases: &mut Vec<Database<S>>, parts: &mut Vec<Part>)
    requires { vec_len parts.old ≡ vec_len databases.old }
    ensures ran { HaveRun S.Store databases.old.items parts.old.items databases.new.items parts.new.items }
    ensures clean { HaveCleanDisks S.Store databases.new.items → HaveCleanDisks S.Store databases.old.items }
    ensures len { vec_len databases.new ≡ vec_len databases.old }
    ensures parts { vec_len parts.new ≡ vec_len parts.old }
{
    for place in 0..parts.len() {
        parts[place].run(alloc, &mut databases[place]);
    }
}
