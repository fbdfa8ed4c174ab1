//! The rule of the channel to a worker.
use crossbeam_channel::protocol::{Join, Lesson, Outcome, Protocol, Split};
use escrow_statement::Request;
use std::collections::LinkedList;

/// A message to a worker.
#[derive(Drop)]
pub(crate) enum Item {
    /// A request.
    One(Request),
    /// There are no more requests.
    End,
}

/// What is known at an end of a channel: whether this is the end that sends, and what was sent;
/// whether this is the end that receives, and what was received. No value of it exists at run time.
pub(crate) struct Log {
    pub(crate) sends: bool,
    pub(crate) sent: LinkedList<Item>,
    pub(crate) takes: bool,
    pub(crate) taken: LinkedList<Item>,
}

/// The rule of a channel. What was sent is what was received, followed by what the channel holds.
pub(crate) struct InOrder;

impl Protocol<Item, Log> for InOrder {
    ghost use Rattle.escrow_sessions.specs.Rule.{Keeps, both_ends};

    ghost holds = { Keeps };

    ghost first = { both_ends };
}

/// A message is sent.
pub(crate) struct Sends;

impl Outcome<Item, Log> for Sends {
    ghost use Rattle.std.specs.Prelude.{◌≡◌};
    ghost use Rattle.escrow_sessions.specs.Rule.{with_sent};

    ghost then = { λ v x w. w ≡ with_sent v x };
}

impl Lesson<Item, Log> for Sends {
    ghost use Rattle.std.specs.Prelude.{⊤};

    ghost fact = { λ v items. ⊤ };
}

/// A message is received.
pub(crate) struct Takes;

impl Outcome<Item, Log> for Takes {
    ghost use Rattle.std.specs.Prelude.{◌≡◌};
    ghost use Rattle.escrow_sessions.specs.Rule.{with_taken};

    ghost then = { λ v x w. w ≡ with_taken v x };
}

impl Lesson<Item, Log> for Takes {
    ghost use Rattle.std.specs.Prelude.{⊤};

    ghost fact = { λ v items. ⊤ };
}

/// The two ends are separated, and brought together again.
pub(crate) struct Ends;

impl Split<Log> for Ends {
    ghost use Rattle.escrow_sessions.specs.Rule.{sending, taking};

    ghost left = { sending };

    ghost right = { taking };
}

impl Join<Log> for Ends {
    ghost use Rattle.escrow_sessions.specs.Rule.{together, no_end};

    ghost both = { together };

    ghost spent = { no_end };
}

/// What the two ends know together.
pub(crate) struct Whole;

impl Lesson<Item, Log> for Whole {
    ghost use Rattle.std.specs.Prelude.{◌≡◌, ◌++◌};

    ghost fact = { λ v items. v.sent ≡ v.taken ++ items };
}
