ghost use Rattle.std.specs.Prelude.{◌≡◌, ◌+◌, ◌<◌, ◌≤◌, ◌++◌, ◌∷◌, [], List, drop, length};
ghost use Rattle.std.specs.List.{AllByRecursion};
ghost use Rattle.std.specs.Vec.{vec_len, vec_capacity};

use crate::database::Database;
use crate::database::held::HeldBack;
use escrow_machine::{Event, Reply};
use escrow_num::Session;
use sqlite::Alter;
use std::alloc::{AllocError, Global};

impl<S: Alter> Database<S> {
    ghost use Rattle.std.specs.Prelude.{◌≡◌, false, IfOk, IsTrue, OnErr};
    ghost use Rattle.sqlite.specs.Held.{Held as Shown, state};
    ghost use Rattle.sqlite.specs.State.{HasCleanDisk, Survives};
    ghost use Rattle.sqlite_trees.specs.Tree.{Trees};
    ghost use Rattle.escrow_rows.specs.Answers.{IsUsable};
    ghost use Rattle.escrow_machine.specs.State.{State};
    ghost use Rattle.escrow_machine.specs.Step.{IsServed, IsRun};
    ghost use Rattle.escrow_core.specs.Beside.{AreAfterEvent, IsLeftBatch};
    ghost use Rattle.escrow_core.specs.Left.{AreAfterAnswered, AreAfterSome, Lasts, TellNoWrite};
    ghost use Rattle.escrow_core.specs.Serves.{AreHeldOf};
    ghost use Rattle.escrow_machine.specs.Reply.{tells_write};

    /// Serves events, one after another, and returns their replies. Takes room for the replies
    /// first. If this is refused, no event was served.
    pub fn run(&mut self, alloc: Global, events: &[Event]) -> Result<Vec<Reply>, AllocError>
        ensures served { HasCleanDisk (state S.Store self.new.store)
            → IfOk result (λ replies. IsRun self.old.state events.now replies.items self.new.state) }
        ensures clean { HasCleanDisk (state S.Store self.new.store) → HasCleanDisk (state S.Store self.old.store) }
        ensures refused { OnErr result (self.new ≡ self.old) }

        // After a crash the disk has what it might have had before, or the tables and rows after
        // some first events, if the store was open. Once a write was answered, it has the latter,
        // and no event behind them was answered as written. This holds over a fault of the store.
        ensures usable { IsUsable (state S.Store self.new.store) → IsUsable (state S.Store self.old.store) }
        ensures crash { IfOk result
            (λ replies. Survives (state S.Store self.old.store) (state S.Store self.new.store)
            (λ trees. IsTrue (state S.Store self.old.store).is_open
            × AreAfterSome self.old.state events.now replies.items trees)) }
        ensures durable { IfOk result
            (λ replies. Lasts (state S.Store self.old.store) (state S.Store self.new.store) (TellNoWrite replies.items)
            (AreAfterAnswered self.old.state events.now replies.items)) }
    {
        let mut replies = Vec::with_capacity(alloc, events.len())?;
        self.run_into(alloc, events, &mut replies);
        Ok(replies)
    }

    /// Serves events, one after another, and adds their replies to others, for which there must be
    /// room. A COMMIT is held back while later events that commute with it are served. COMMITs that
    /// are held back are then written together.
    pub fn run_into(&mut self, alloc: Global, events: &[Event], replies: &mut Vec<Reply>)
        requires room { vec_len replies.old + length events.now ≤ vec_capacity replies.old }
        ensures served { (answers : List Reply) × (length answers ≡ length events.now)
            × (replies.new.items ≡ replies.old.items ++ answers)
            × (HasCleanDisk (state S.Store self.new.store) → IsRun self.old.state events.now answers self.new.state) }
        ensures clean { HasCleanDisk (state S.Store self.new.store) → HasCleanDisk (state S.Store self.old.store) }
        ensures capacity { vec_capacity replies.new ≡ vec_capacity replies.old }

        // If the store can be used, a crash leaves exactly the tables and rows after the events.
        // Only a fault shuts the store. Then after a crash the disk has what it might have had
        // before, or the tables and rows after some first events, if the store was open. Events
        // that failed may count as served. Once a write was answered, it has the latter, and no
        // event behind them was answered as written. A store that a fault has shut stays shut, and
        // is not written again. The limit of steps stays as it is.
        ensures left { IsUsable (state S.Store self.new.store) → (trees : Trees)
            → (state S.Store self.new.store).may_leave trees → AreHeldOf self.new.state trees }
        ensures usable { IsUsable (state S.Store self.new.store) → IsUsable (state S.Store self.old.store) }
        ensures crash { Survives (state S.Store self.old.store) (state S.Store self.new.store)
            (λ trees. IsTrue (state S.Store self.old.store).is_open
            × AreAfterSome self.old.state events.now (drop (length replies.old.items) replies.new.items) trees) }
        ensures durable { Lasts (state S.Store self.old.store) (state S.Store self.new.store)
            (TellNoWrite (drop (length replies.old.items) replies.new.items))
            (AreAfterAnswered self.old.state events.now (drop (length replies.old.items) replies.new.items)) }
    {
        let mut held = HeldBack::new();
        let are_shared = are_shared(events);
        for event in events {
            self.serve_next(alloc, event, are_shared, &mut held, replies);
        }
        self.settle_all(alloc, held.plan(), held.places(), replies);
        prove!(self.tables.is_at_rest());
    }

    /// Serves the next event, before or after the COMMITs that are held back are written. No COMMIT
    /// is held back if all events are of one session.
    fn serve_next(
        &mut self,
        alloc: Global,
        event: &Event,
        are_shared: bool,
        held: &mut HeldBack,
        replies: &mut Vec<Reply>,
    )
        requires room { vec_len replies.old < vec_capacity replies.old }
        requires places { AllByRecursion (λ place. place < vec_len replies.old) held.old.places }
        ensures batch { (first : Shown S) → (s : State) → (events : List Event) → (before : List Reply)
            → IsLeftBatch (state S.Store first)
            (state S.Store self.old.store) s events before replies.old.items held.old self.old.state
            → IsLeftBatch (state S.Store first) (state S.Store self.new.store) s
            (events ++ event.now ∷ []) before replies.new.items held.new self.new.state }
        ensures len { vec_len replies.new ≡ vec_len replies.old + 1 }
        ensures capacity { vec_capacity replies.new ≡ vec_capacity replies.old }
    {
        match self.serve_beside(alloc, event, are_shared, held, replies.len()) {
            Some(reply) => keep(replies, reply),
            None => {
                self.settle_all(alloc, held.plan(), held.places(), replies);
                held.clear();
                let reply = self.serve(alloc, event);
                keep(replies, reply);
            }
        }
    }

    /// Serves one event.
    fn serve(&mut self, alloc: Global, event: &Event) -> Reply
        ensures served { HasCleanDisk (state S.Store self.new.store)
            → IsServed self.old.state event.now result self.new.state }
        ensures usable { IsUsable (state S.Store self.new.store) → IsUsable (state S.Store self.old.store) }
        ensures crash { Survives (state S.Store self.old.store) (state S.Store self.new.store)
            (λ trees. IsTrue (state S.Store self.old.store).is_open × AreAfterEvent self.old.state event.now trees) }
        ensures durable { Lasts (state S.Store self.old.store) (state S.Store self.new.store)
            (tells_write result ≡ false) (AreAfterEvent self.old.state event.now) }
    {
        match event {
            Event::Statement { session, statement } => self.step(alloc, *session, statement),
            Event::Restart => Reply::to_restart(self.restart(alloc)),
        }
    }
}

/// Adds a reply, for which there must be room.
fn keep(replies: &mut Vec<Reply>, reply: Reply)
    requires { vec_len replies.old < vec_capacity replies.old }
    ensures items { replies.new.items ≡ replies.old.items ++ reply ∷ [] }
    ensures len { vec_len replies.new ≡ vec_len replies.old + 1 }
    ensures capacity { vec_capacity replies.new ≡ vec_capacity replies.old }
{
    replies.push_reserved(reply);
}

/// Returns whether events are of more than one session, so that COMMITs can share a write. Events
/// after a restart that comes first aren't looked at.
fn are_shared(events: &[Event]) -> bool {
    match events.first() {
        Some(Event::Statement { session, .. }) => events
            .iter()
            .any(|event| is_of_another(event, *session)),
        _ => false,
    }
}

/// Returns whether an event is a statement of another session.
fn is_of_another(event: &Event, session: Session) -> bool {
    match event {
        Event::Statement { session: other, .. } => *other != session,
        Event::Restart => false,
    }
}
