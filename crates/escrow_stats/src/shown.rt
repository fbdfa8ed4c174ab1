//! What a board shows.
use crate::tally::Tally;
use escrow_transcript::Base;
use left_right::Absorb;
use std::alloc::AllocError;
use std::snapshot::Snapshot;

/// What is posted: the totals of the first `count` entries of a database's history, and where the
/// history begins.
#[derive(Drop)]
pub(crate) struct Post {
    pub(crate) totals: Tally,
    pub(crate) count: u64,
    // The base where the history begins. It takes no bytes.
    pub(crate) base: Snapshot<Snapshot<Base>>,
}

/// What is shown: the totals of the last post that was published.
#[derive(Drop)]
pub(crate) struct Shown {
    pub(crate) totals: Tally,
    // The post itself. It takes no bytes.
    pub(crate) post: Snapshot<Post>,
}

impl Absorb<Post> for Shown {
    type State = (Tally, Post);

    ghost state = { λ x. (x.totals, x.post.value) };

    ghost applied = { λ _ post. (post.totals, post) };

    ghost never_fails = { Unit {0} };

    fn absorb_first(&mut self, operation: &Post, _other: &Shown) -> Result<(), AllocError> {
        *self = Shown {
            totals: operation.totals,
            post: Snapshot::of(operation),
        };
        Ok(())
    }
}
