//! Hands out long histories in parts.
use crate::outbox::Outbox;
use escrow_num::Session;
use escrow_shards::{Part, Shared, UnderLock};
use sqlite::Alter;
use std::alloc::{AllocError, Global};
use std::sync::Wait;

/// The number of entries from which on a transcript is drained.
const LONG: u64 = 32_768;

/// The parts of histories that were handed out, and for each database the number of the last entry
/// in its parts.
#[derive(Drop)]
pub(crate) struct Drains<S: Alter> {
    pub(crate) parts: Vec<Part<S>>,
    pub(crate) last_drained: Vec<u64>,
}

impl<S: Alter + Drop> Drains<S> {
    ghost use Rattle.std.specs.Prelude.{◌≡◌, ◌<◌, length, vec_len, IfOk};

    /// Returns a list without parts, for this many databases. Fails only if memory is refused.
    pub(crate) fn new(alloc: Global, databases: usize) -> Result<Self, AllocError>
        ensures { IfOk result (λ drains. vec_len drains.last_drained ≡ databases) }
    {
        let last_drained = vec![in alloc; 0; databases]?;
        Ok(Drains {
            parts: Vec::new(alloc),
            last_drained,
        })
    }

    /// Drains each database whose transcript is long, by the receipts at the outboxes. Called after a
    /// phase. If the phase had no statements, no transcript has grown, so no outbox is looked at.
    pub(crate) fn drain_long<L: UnderLock<S>, R: Wait>(
        &mut self,
        rt: &R,
        alloc: Global,
        shared: &Shared<S, L>,
        outboxes: &[Outbox],
        had_statements: bool,
    )
        requires { vec_len self.old.last_drained ≡ length shared.now.openings }
        ensures { vec_len self.new.last_drained ≡ vec_len self.old.last_drained }
    {
        if !had_statements {
            return;
        }
        for database in 0..self.last_drained.len() {
            let last = last_number(database, outboxes);
            if last.saturating_sub(self.last_drained[database]) >= LONG {
                self.drain(rt, alloc, shared, database, last);
            }
        }
    }

    /// Drains a database whose last entry has this number. If that is refused, the database stays
    /// as it is.
    fn drain<L: UnderLock<S>, R: Wait>(
        &mut self,
        rt: &R,
        alloc: Global,
        shared: &Shared<S, L>,
        database: usize,
        last: u64,
    )
        requires among { database < length shared.now.openings }
        requires each { vec_len self.old.last_drained ≡ length shared.now.openings }
        ensures { vec_len self.new.last_drained ≡ vec_len self.old.last_drained }
    {
        if self.parts.reserve(1).is_err() {
            return;
        }
        if let Ok(part) = shared.drain(rt, alloc, database) {
            self.parts.push_reserved(part);
            self.last_drained[database] = last;
        }
    }
}

/// Returns the number of the last entry of a database, by the receipts at its outboxes, or 0 if there
/// is none. The outboxes of a database are consecutive.
fn last_number(database: usize, outboxes: &[Outbox]) -> u64 {
    let sessions = usize::from(Session::MAX_SHARED);
    let Some(its_outboxes) = outboxes.chunks(sessions).nth(database) else {
        return 0;
    };
    let mut last = 0;
    for outbox in its_outboxes {
        if let Some(receipt) = outbox.pass.receipts().last() {
            last = last.max(receipt.number);
        }
    }
    last
}
