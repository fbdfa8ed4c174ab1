use escrow_shards::{Answer, Gate, Pass, Shared, UnderLock};
use escrow_statement::Statement;
use sqlite::Alter;
use std::alloc::Global;
use std::sync::Wait;

/// What serves statements for workers: databases that threads share. Workers use this trait, and
/// not the store, so one proof suffices that threads may share it.
pub(crate) trait Service {
    ghost use Rattle.escrow_shards.specs.Answer.{IsAnswered};
    ghost use Rattle.escrow_shards.specs.Pass.{Pass};

    /// Whether a pass is for one of its databases and sessions.
    ghost has_pass: { Self → Pass → Type 0 };

    /// Serves a statement of the session of a pass, as [`Shared::call_gated`] does.
    fn serve<R: Wait, G: Gate>(
        &self,
        rt: &R,
        alloc: Global,
        pass: &mut Pass,
        statement: &Statement,
        gate: &G,
    ) -> Answer
        requires { has_pass self.now pass.old }
        ensures answered { IsAnswered result statement.now pass.old pass.new }
        ensures seat { has_pass self.now pass.new };
}

impl<S: Alter, L: UnderLock<S>> Service for Shared<S, L> {
    ghost use Rattle.escrow_shards.specs.Shared.{HasPass};

    ghost has_pass = { HasPass };

    fn serve<R: Wait, G: Gate>(
        &self,
        rt: &R,
        alloc: Global,
        pass: &mut Pass,
        statement: &Statement,
        gate: &G,
    ) -> Answer {
        self.call_gated(rt, alloc, pass, statement, gate)
    }
}
