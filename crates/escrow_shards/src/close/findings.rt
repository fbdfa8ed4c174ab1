//! What a close looks for, in this order: passes, parts, receipts, entries without a pass.
ghost use Rattle.std.specs.Prelude.{◌≡◌, ◌↔◌, ◌<◌, length, IfSome, IfNone, IsTrue};
ghost use Rattle.std.specs.List.{AllByRecursion};
ghost use Rattle.escrow_shards.specs.Found.{AreFound, AreSettled, IsAmong};
ghost use Rattle.escrow_shards.specs.Whole.{HasItsReceipts, IsTrueOf, LacksParts, LacksReceipts};

use crate::close::beyond::lacks_pass;
use crate::close::passes::are_all_passes;
use crate::close::{Cause, Closed};
use crate::part::Part;
use crate::pass::Pass;
use sqlite::Alter;

/// Returns the first cause of a mismatch, or `None` if everything fits together. It tests passes,
/// then parts, then receipts, and last the entries of sessions without a pass.
pub(crate) fn cause_of<S: Alter>(
    closed: &[Closed<S>],
    sessions: u16,
    passes: &[Pass],
    parts: &[Part<S>],
) -> Option<Cause>
    ensures none { IfNone result (AreFound S.Store sessions passes.now parts.now closed.now) }
    ensures some { IfSome result (λ cause. IsTrueOf sessions passes.now parts.now closed.now cause) }
{
    if !are_all_passes(closed.len(), sessions, passes) {
        return Some(Cause::Passes);
    }
    if let Some(database) = lacks_parts(closed, parts) {
        return Some(Cause::Parts { database });
    }
    if let Some(pass) = lacks_receipts(closed, parts, passes) {
        return Some(Cause::Receipts {
            database: pass.database(),
            session: pass.session(),
        });
    }
    lacks_pass(closed, sessions, parts)
}

/// Returns the first database whose parts aren't all there, in order.
fn lacks_parts<S: Alter>(closed: &[Closed<S>], parts: &[Part<S>]) -> Option<usize>
    ensures none { IfNone result (AreSettled S.Store parts.now closed.now) }
    ensures some { IfSome result (λ database. LacksParts database parts.now closed.now) }
{
    for database in 0..closed.len() {
        if !closed[database].has_all_parts(database, parts) {
            return Some(database);
        }
    }
    None
}

/// Returns the first pass whose receipts aren't exactly the entries of its session.
fn lacks_receipts<'a, S: Alter>(
    closed: &[Closed<S>],
    parts: &[Part<S>],
    passes: &'a [Pass],
) -> Option<&'a Pass>
    requires { AllByRecursion (IsAmong (length closed.now)) passes.now }
    ensures none { IfNone result (AllByRecursion (HasItsReceipts parts.now closed.now) passes.now) }
    ensures some { IfSome result
        (λ pass. LacksReceipts pass.now.database pass.now.session passes.now parts.now closed.now) }
{
    for pass in passes {
        if !has_its_receipts(closed, parts, pass) {
            return Some(pass);
        }
    }
    None
}

/// Returns whether the receipts of a pass are exactly the entries of its session.
fn has_its_receipts<S: Alter>(closed: &[Closed<S>], parts: &[Part<S>], pass: &Pass) -> bool
    requires { IsAmong (length closed.now) pass.now }
    ensures { IsTrue result ↔ HasItsReceipts parts.now closed.now pass.now }
{
    closed[pass.database()].matches(parts, pass)
}
