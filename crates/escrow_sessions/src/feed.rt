//! What workers are given, and what they return.
use escrow_shards::{Answer, Pass};
use escrow_statement::Request;
use escrow_stats::Tally;

/// The most workers that are started together.
pub const MAX_WORKERS: usize = 64;

/// The work of a worker: requests, in order, in the session of a pass.
#[derive(Debug, Drop)]
pub struct Feed {
    /// The pass of the session.
    pub pass: Pass,
    /// The requests.
    pub requests: Vec<Request>,
}

/// What a worker did.
#[derive(Debug, Drop)]
pub struct Done {
    /// Its pass, with the receipts of what was served.
    pub pass: Pass,
    /// Its answers, in the order of its requests.
    pub answers: Vec<Given>,
    /// How it ended.
    pub ended: Ended,
}

/// What a worker returns for a request.
#[derive(Debug, Drop)]
pub enum Given {
    /// The answer to the statement.
    Reply(Answer),
    /// The totals of its session's replies so far.
    Totals(Tally),
}

/// How a worker ended.
#[derive(Clone, Copy, Debug, PartialEq, Eq)]
pub enum Ended {
    /// Each request was answered.
    All,
    /// Memory for the next answer was refused. Its request and those after it weren't served.
    Stopped,
    /// The worker couldn't be started. Nothing was served.
    NotStarted,
}

/// No worker was started, and nothing was served. The feeds are returned.
#[derive(Debug, Drop)]
pub struct NotRun {
    /// The feeds, as they were.
    pub feeds: Vec<Feed>,
    /// The cause.
    pub cause: Cause,
}

/// No worker was started, and nothing was served. Passes and items are returned.
#[derive(Drop)]
pub struct NotFed<I> {
    /// The passes, as they were.
    pub passes: Vec<Pass>,
    /// The items. None of them was taken.
    pub items: I,
    /// The cause.
    pub cause: Cause,
}

/// Why no worker was started.
#[derive(Clone, Copy, Debug, PartialEq, Eq)]
pub enum Cause {
    /// There are more than 64 workers.
    TooMany,
    /// Memory was refused.
    Memory,
}
