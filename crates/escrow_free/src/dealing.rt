//! Deals the items of a phase out to the workers that serve them.
ghost use Rattle.std.specs.Prelude.{◌≡◌, ◌<◌, [], length, All, IfOk, OnOk};
ghost use Rattle.escrow_free.specs.Dealing.{AreDealt, IsAdded, IsNewFeed};

use crate::outbox::each_of;
use escrow_sessions::Feed;
use escrow_shards::Pass;
use escrow_statement::Request;
use std::alloc::{AllocError, Global};

/// Returns a feed for each pass, with the requests of the items that name its place, in order.
/// Fails only if memory is refused.
pub(crate) fn deal(
    alloc: Global,
    passes: Vec<Pass>,
    items: Vec<(usize, Request)>,
) -> Result<Vec<Feed>, AllocError>
    requires { All (λ x. x.0 < length passes.items) items.items }
    ensures { IfOk result (λ feeds. AreDealt passes.items items.items feeds.items) }
{
    let mut feeds = new_feeds(alloc, passes)?;
    for (place, request) in items {
        add(&mut feeds[place], request)?;
    }
    Ok(feeds)
}

/// Returns the feeds of passes, without requests. Fails only if memory is refused.
fn new_feeds(alloc: Global, passes: Vec<Pass>) -> Result<Vec<Feed>, AllocError>
    ensures { IfOk result (λ feeds. AreDealt passes.items [] feeds.items) }
{
    each_of(alloc, passes, |pass| new_feed(alloc, pass))
}

/// Returns a feed without requests. Takes no memory.
fn new_feed(alloc: Global, pass: Pass) -> Feed
    ensures { IsNewFeed pass result }
{
    Feed {
        pass,
        requests: Vec::new(alloc),
    }
}

/// Adds a request to a feed. Fails only if memory is refused.
fn add(feed: &mut Feed, request: Request) -> Result<(), AllocError>
    ensures { OnOk result (IsAdded feed.old request feed.new) }
{
    feed.requests.push(request)?;
    Ok(())
}
