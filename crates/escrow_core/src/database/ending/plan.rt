ghost use Rattle.std.specs.Prelude.{◌≡◌, ◌+◌, ◌^◌, ◌<◌, length};
ghost use Rattle.escrow_machine.specs.Walked.{counted_end};

use crate::database::Database;
use escrow_machine::{Settled, Stop};
use escrow_num::{End, Session};
use sqlite::Alter;
use std::alloc::Global;

impl<S: Alter> Database<S> {
    ghost use Rattle.std.specs.Prelude.{[], IfOk, IfErr, IsTrue, OnOk};
    ghost use Rattle.sqlite.specs.Held.{state};
    ghost use Rattle.sqlite.specs.State.{HasCleanDisk, Survives};
    ghost use Rattle.escrow_rows.specs.Answers.{IsUsable};
    ghost use Rattle.escrow_core.specs.Ends.{IsGroup, Settles};
    ghost use Rattle.escrow_machine.specs.Settle.{settled, committed_by, AreCounts, IsStop};
    ghost use Rattle.escrow_core.specs.Left.{Lasts};
    ghost use Rattle.escrow_core.specs.Serves.{AreAfterAtLeast, AreAfterEnds, done_of};

    /// Ends the transactions of sessions, in the order of a plan. A session that is named again has
    /// nothing left to end: its first entry decides. COMMITs that follow each other are written
    /// together.
    ///
    /// Stops at the first COMMIT that fails, because memory is refused or the store refuses. The
    /// entries before it in the plan are done. Its session and those after it are unchanged.
    pub fn settle(&mut self, alloc: Global, plan: &[(Session, End)]) -> Result<Settled, Stop>
        ensures ok { HasCleanDisk (state S.Store self.new.store)
            → OnOk result (self.new.state ≡ settled plan.now self.old.state) }
        ensures counts { IfOk result (λ done. AreCounts plan.now self.old.state.reservations done) }
        ensures stop { HasCleanDisk (state S.Store self.new.store)
            → IfErr result (λ stop. IsStop plan.now self.old.state stop self.new.state) }

        // After a crash the disk has what it might have had before, or what some first entries of
        // the plan make, if the store was open. Once a reservation was committed, it has what at
        // least the entries that were done make. A store that a fault has shut stays shut, and is
        // not written again. The limit of steps stays as it is.
        ensures usable { IsUsable (state S.Store self.new.store) → IsUsable (state S.Store self.old.store) }
        ensures crash { Survives (state S.Store self.old.store) (state S.Store self.new.store)
            (λ trees. IsTrue (state S.Store self.old.store).is_open × AreAfterEnds plan.now self.old.state trees) }
        ensures durable { Lasts (state S.Store self.old.store) (state S.Store self.new.store)
            (committed_by (done_of plan.now result) self.old.state.reservations ≡ [])
            (AreAfterAtLeast (length (done_of plan.now result)) plan.now self.old.state) }
    {
        // The contract of `next_id` says that no more reservations are open than can be counted.
        prove!(self.next_id() != Some(0));
        let mut settled = Settled {
            committed: 0,
            released: 0,
        };
        let mut place = 0;
        while place < plan.len() {
            let rest = &plan[place..];
            let part = &rest[..self.part_len(rest)];
            match self.settle_part(alloc, part) {
                Ok(done) => add_all(&mut settled, done),
                Err(stop) => {
                    return Err(Stop {
                        place: place + stop.place,
                        cause: stop.cause,
                    });
                }
            }
            place += part.len();
        }
        Ok(settled)
    }

    /// Settles a part of a plan. If the part has several entries, they are COMMITs, and one write
    /// does them all. If that write fails, or the part has one entry, it is settled entry by entry.
    /// So the plan stops at the first COMMIT that fails by itself.
    fn settle_part(&mut self, alloc: Global, part: &[(Session, End)]) -> Result<Settled, Stop>
        requires { 1 < length part.now → IsGroup self.old.state.reservations part.now }
        ensures { Settles S.Store part.now self.old result self.new }
    {
        if part.len() > 1 {
            match self.commit_all(alloc, part) {
                Ok(committed) => {
                    return Ok(Settled {
                        committed,
                        released: 0,
                    });
                }
                Err(cause) => {
                    // If a fault has shut the store, the first COMMIT fails too.
                    if !self.store_answers(part[0].0) {
                        return Err(Stop { place: 0, cause });
                    }
                }
            }
        }
        self.settle_each(alloc, part)
    }

    /// Settles a plan entry by entry.
    fn settle_each(&mut self, alloc: Global, plan: &[(Session, End)]) -> Result<Settled, Stop>
        ensures { Settles S.Store plan.now self.old result self.new }
    {
        // The contract of `next_id` says that no more reservations are open than can be counted.
        prove!(self.next_id() != Some(0));
        let mut settled = Settled {
            committed: 0,
            released: 0,
        };
        for (place, (session, end)) in plan.iter().enumerate() {
            match self.finish(alloc, *session, *end) {
                Ok(count) => add(&mut settled, *end, count),
                Err(cause) => return Err(Stop { place, cause }),
            }
        }
        Ok(settled)
    }
}

/// Counts the reservations of one more transaction, by how it ended.
fn add(done: &mut Settled, end: End, count: u32)
    requires { done.old.committed + done.old.released + count < 2 ^ 32 }
    ensures { done.new ≡ counted_end end count done.old }
{
    match end {
        End::Commit => done.committed += count,
        End::Rollback => done.released += count,
    }
}

/// Counts the reservations that a part of a plan ended.
fn add_all(settled: &mut Settled, done: Settled)
    requires { settled.old.committed + settled.old.released + done.committed + done.released < 2 ^ 32 }
    ensures committed { settled.new.committed ≡ settled.old.committed + done.committed }
    ensures released { settled.new.released ≡ settled.old.released + done.released }
{
    settled.committed += done.committed;
    settled.released += done.released;
}
