ghost use Rattle.std.specs.Prelude.{◌≡◌, ◌↔◌, IfOk, IsTrue};

use escrow_machine::Reply;
use escrow_num::Session;
use escrow_statement::Statement;
use std::alloc::{AllocError, Global};

/// A statement that was served: one step of the machine.
#[derive(Debug, Drop)]
pub struct Entry {
    /// Its number, counted from 1 over the whole history of its database.
    pub number: u64,
    /// The session that asked.
    pub session: Session,
    /// The statement.
    pub statement: Statement,
    /// The reply.
    pub reply: Reply,
}

impl Entry {
    /// Returns a copy of the entry. Fails only if memory is refused.
    pub fn copy(&self, alloc: Global) -> Result<Entry, AllocError>
        ensures { IfOk result (λ e. e ≡ self.now) }
    {
        Ok(Entry {
            number: self.number,
            session: self.session,
            statement: self.statement.copy(alloc)?,
            reply: self.reply.copy(alloc)?,
        })
    }

    /// Returns whether two entries are equal: in number, session, statement and reply.
    pub fn is_same(&self, other: &Entry) -> bool
        ensures { IsTrue result ↔ (self.now ≡ other.now) }
    {
        self.number == other.number
            && self.session == other.session
            && self.statement.is_same(&other.statement)
            && self.reply.is_same(&other.reply)
    }
}
