//! Separates the marked outboxes from the others, and puts all together again.
ghost use Rattle.std.specs.Prelude.{◌≡◌, IfOk};
ghost use Rattle.escrow_free.specs.Ranks.{parted, rested, merged};

use crate::outbox::Outbox;
use escrow_shards::Pass;
use std::alloc::{AllocError, Global};

/// Returns the passes of the marked outboxes, and the other outboxes. Fails only if memory is refused.
pub(crate) fn part(
    alloc: Global,
    marks: &[bool],
    outboxes: Vec<Outbox>,
) -> Result<(Vec<Pass>, Vec<Outbox>), AllocError>
    ensures passes { IfOk result (λ r. r.0.items ≡ parted marks.now outboxes.items) }
    ensures idle { IfOk result (λ r. r.1.items ≡ rested marks.now outboxes.items) }
{
    let mut passes = Vec::new(alloc);
    let mut idle = Vec::new(alloc);
    let mut outboxes = outboxes.into_iter();
    for mark in marks {
        if let Some(outbox) = outboxes.next() {
            if *mark {
                passes.push(outbox.pass)?;
            } else {
                idle.push(outbox)?;
            }
        }
    }
    Ok((passes, idle))
}

/// Returns all outboxes, in order, from the marked ones and the others. Fails only if memory is
/// refused.
pub(crate) fn merge(
    alloc: Global,
    marks: &[bool],
    served: Vec<Outbox>,
    idle: Vec<Outbox>,
) -> Result<Vec<Outbox>, AllocError>
    ensures { IfOk result (λ outboxes. outboxes.items ≡ merged marks.now served.items idle.items) }
{
    let mut outboxes = Vec::with_capacity(alloc, marks.len())?;
    let mut served = served.into_iter();
    let mut idle = idle.into_iter();
    for mark in marks {
        let next = if *mark { served.next() } else { idle.next() };
        if let Some(outbox) = next {
            outboxes.push(outbox)?;
        }
    }
    Ok(outboxes)
}
