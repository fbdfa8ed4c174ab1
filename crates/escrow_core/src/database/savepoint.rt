use crate::database::{Answer, Database};
use escrow_machine::Reply;
use escrow_num::{Name, Session};
use escrow_statement::Statement;
use sqlite::Alter;

impl<S: Alter> Database<S> {
    ghost use Rattle.std.specs.Prelude.{◌≡◌};
    ghost use Rattle.escrow_core.specs.Serving.{Answers};
    ghost use Rattle.escrow_machine.specs.State.{open_in};
    ghost use Rattle.escrow_journal.specs.Open.{released};
    ghost use Rattle.escrow_machine.specs.Transition.{after_rollback_to};

    /// SAVEPOINT: makes a savepoint of the session. An earlier one of its name is removed.
    pub(crate) fn savepoint(&mut self, session: Session, name: Name) -> Answer
        ensures { Answers S.Store session (Statement.Savepoint name) self.old result self.new }
    {
        self.reserved.mark(session, name)?;
        Ok(Reply::Savepoint(name))
    }

    /// ROLLBACK TO: drops the open reservations of a session that came after its savepoint of a
    /// name, and the savepoints that the session made after it. Returns how many reservations there
    /// were. Returns `None` exactly if there is no such savepoint, and then nothing changes. Takes
    /// no memory, and makes no store call.
    pub fn rollback_to(&mut self, session: Session, name: Name) -> Option<u32>
        ensures count { result ≡ released session name (open_in self.old.state) }
        ensures state { self.new.state ≡ after_rollback_to self.old.state session name }
        ensures store { self.new.store ≡ self.old.store }
    {
        self.reserved.cut(session, name)
    }
}
