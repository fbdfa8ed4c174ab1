ghost use Rattle.std.specs.Prelude.{◌≡◌, ◌↔◌, IsTrue};

use crate::reply::{CheckBounds, ColumnBounds, ColumnChange, Heading, JournalEntry};
use escrow_num::{Copied, Refusal, Span, Violation, are_same, copy_all};
use std::alloc::{AllocError, Global};

impl Copied for Heading {
    fn copy(&self, _: Global) -> Result<Heading, AllocError> {
        Ok(*self)
    }

    fn is_same(&self, other: &Heading) -> bool {
        *self == *other
    }
}

impl Copied for ColumnBounds {
    fn copy(&self, _: Global) -> Result<ColumnBounds, AllocError> {
        Ok(*self)
    }

    fn is_same(&self, other: &ColumnBounds) -> bool {
        *self == *other
    }
}

impl Copied for CheckBounds {
    fn copy(&self, _: Global) -> Result<CheckBounds, AllocError> {
        Ok(*self)
    }

    fn is_same(&self, other: &CheckBounds) -> bool {
        self.check == other.check
            && self.scale == other.scale
            && self.least == other.least
            && self.greatest == other.greatest
            && same_limits(&self.limits, &other.limits)
    }
}

impl Copied for ColumnChange {
    fn copy(&self, _: Global) -> Result<ColumnChange, AllocError> {
        Ok(*self)
    }

    fn is_same(&self, other: &ColumnChange) -> bool {
        *self == *other
    }
}

impl Copied for JournalEntry {
    fn copy(&self, alloc: Global) -> Result<JournalEntry, AllocError> {
        Ok(JournalEntry {
            id: self.id,
            session: self.session,
            row: self.row.copy(alloc)?,
            key_scale: self.key_scale,
            changes: copy_all(alloc, self.changes.as_slice())?,
        })
    }

    fn is_same(&self, other: &JournalEntry) -> bool {
        self.id == other.id
            && self.session == other.session
            && self.row.is_same(&other.row)
            && self.key_scale == other.key_scale
            && are_same(self.changes.as_slice(), other.changes.as_slice())
    }
}

/// Returns whether two pairs of limits are equal.
fn same_limits(limits: &Span, others: &Span) -> bool
    ensures { IsTrue result ↔ (limits.now ≡ others.now) }
{
    *limits == *others
}

/// Returns whether two refusals are equal: in number, and in the column or the violation if they
/// have one.
pub(crate) fn are_same_refusals(refusal: &Refusal, other: &Refusal) -> bool
    ensures { IsTrue result ↔ (refusal.now ≡ other.now) }
{
    match (refusal, other) {
        (Refusal::Syntax { column: a }, Refusal::Syntax { column: b }) => *a == *b,
        (Refusal::Check(a), Refusal::Check(b)) => are_same_violations(a, b),
        (Refusal::Syntax { .. } | Refusal::Check(_), _) => false,
        (_, Refusal::Syntax { .. } | Refusal::Check(_)) => false,
        _ => refusal.number() == other.number(),
    }
}

/// Returns whether two violations are equal: in check, side, worst value, limit and scale.
fn are_same_violations(violation: &Violation, other: &Violation) -> bool
    ensures { IsTrue result ↔ (violation.now ≡ other.now) }
{
    violation.check == other.check
        && violation.side == other.side
        && violation.worst == other.worst
        && violation.limit == other.limit
        && violation.scale == other.scale
}
