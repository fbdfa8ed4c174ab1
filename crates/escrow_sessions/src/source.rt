//! Where the requests of a worker come from. One such source is a list.
use escrow_statement::Request;
use std::sync::Wait;
use std::vec::IntoIter;

/// Where the requests of a worker come from.
pub(crate) trait Source {
    ghost use Rattle.std.specs.Prelude.{Option};
    ghost use Rattle.escrow_statement.specs.declared.statement.Request.{Request};

    /// What the source returns in a state, and its state after that.
    ghost gives: { Self → Option Request → Self → Type 0 };

    /// Returns the next request, or `None` at the end. May wait.
    fn next<R: Wait>(&mut self, rt: &R) -> Option<Request>
        ensures { gives self.old result self.new };
}

/// The remaining requests of a list.
#[derive(Drop)]
pub(crate) struct Listed {
    pub(crate) left: IntoIter<Request>,
}

impl Source for Listed {
    ghost use Rattle.escrow_sessions.specs.Work.{gives_listed};

    ghost gives = { gives_listed };

    fn next<R: Wait>(&mut self, _: &R) -> Option<Request> {
        self.left.next()
    }
}
