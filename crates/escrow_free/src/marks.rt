//! The outboxes that items name, and the rank of each among these.
ghost use Rattle.std.specs.Prelude.{◌≡◌, ◌<◌, false, length, map, replicate, All, IfOk};
ghost use Rattle.escrow_free.specs.Ranks.{marked_by, ranks_from, renamed};

use escrow_statement::Request;
use std::alloc::{AllocError, Global};

/// Marks the outboxes that items name, among this many, and makes each item name its outbox by its rank
/// among the marked ones. Returns the marks. Fails only if memory is refused.
pub(crate) fn rank_outboxes(
    alloc: Global,
    outboxes: usize,
    items: &mut Vec<(usize, Request)>,
) -> Result<Vec<bool>, AllocError>
    requires { All (λ x. x.0 < outboxes) items.old.items }
    ensures marks { IfOk result (λ marks. marks.items ≡ marked_by items.old.items (replicate outboxes false)) }
    ensures items { IfOk result (λ marks. items.new.items ≡ map (renamed (ranks_from 0 marks.items)) items.old.items) }
{
    let marks = marks_of(alloc, outboxes, items.as_slice())?;
    let ranks = ranks_of(alloc, marks.as_slice())?;
    rename(ranks.as_slice(), items.as_mut_slice());
    Ok(marks)
}

/// Returns a mark for each of this many outboxes: whether an item names it. Fails only if memory is
/// refused.
fn marks_of(
    alloc: Global,
    outboxes: usize,
    items: &[(usize, Request)],
) -> Result<Vec<bool>, AllocError>
    requires { All (λ x. x.0 < outboxes) items.now }
    ensures { IfOk result (λ marks. marks.items ≡ marked_by items.now (replicate outboxes false)) }
{
    let mut marks = vec![in alloc; false; outboxes]?;
    for (outbox, _) in items {
        marks[*outbox] = true;
    }
    Ok(marks)
}

/// Returns for each outbox how many marked outboxes are before it. Fails only if memory is refused.
fn ranks_of(alloc: Global, marks: &[bool]) -> Result<Vec<usize>, AllocError>
    ensures { IfOk result (λ ranks. ranks.items ≡ ranks_from 0 marks.now) }
{
    let mut ranks = Vec::with_capacity(alloc, marks.len())?;
    let mut next = 0;
    for mark in marks {
        ranks.push(next)?;
        if *mark {
            next += 1;
        }
    }
    Ok(ranks)
}

/// Makes each item name its outbox by rank.
fn rename(ranks: &[usize], items: &mut [(usize, Request)])
    requires { All (λ x. x.0 < length ranks.now) items.old }
    ensures { items.new ≡ map (renamed ranks.now) items.old }
{
    for item in items.iter_mut() {
        item.0 = ranks[item.0];
    }
}
