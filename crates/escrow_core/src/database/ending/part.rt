ghost use Rattle.std.specs.Prelude.{◌≡◌, ◌==◌};
ghost use Rattle.std.specs.List.{list_any};

use crate::database::Database;
use escrow_num::{End, Session};
use sqlite::Alter;

/// The most reservations that are written together. It bounds the memory that their write takes.
const MAX_TOGETHER: usize = 1024;

impl<S: Alter> Database<S> {
    ghost use Rattle.std.specs.Prelude.{◌<◌, ◌≤◌, length, take};
    ghost use Rattle.escrow_core.specs.Ends.{AreCommits, IsGroup};

    /// Returns how many of a plan's first entries are settled together: those that can be written
    /// at once, or one. The plan must have an entry.
    pub(crate) fn part_len(&self, plan: &[(Session, End)]) -> usize
        requires { 0 < length plan.now }
        ensures some { 0 < result }
        ensures within { result ≤ length plan.now }
        ensures run { 1 < result → IsGroup self.now.state.reservations (take result plan.now) }
    {
        let (first, _) = plan[0];
        if self.reserved.txns().reservations(first).is_empty() {
            return 1;
        }
        self.run_len(plan).max(1)
    }

    /// Returns how many of a plan's first entries are COMMITs of sessions that are named once, and
    /// hold few enough reservations to be written together.
    fn run_len(&self, plan: &[(Session, End)]) -> usize
        ensures within { result ≤ length plan.now }
        ensures commits { AreCommits (take result plan.now) }
    {
        let mut held: usize = 0;
        for (i, (session, end)) in plan.iter().enumerate() {
            held = held.saturating_add(self.reserved.txns().reservations(*session).len());
            match end {
                End::Commit if held <= MAX_TOGETHER && !is_named(&plan[..i], *session) => {}
                _ => return i,
            }
        }
        plan.len()
    }
}

/// Returns whether a plan names a session.
fn is_named(plan: &[(Session, End)], session: Session) -> bool
    ensures { result ≡ list_any (λ entry. entry.0 == session) plan.now }
{
    plan.iter().any(|(named, _)| named.get() == session.get())
}
