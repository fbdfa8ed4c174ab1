//! The grant rule's verdict on changes of a row.
ghost use Rattle.std.specs.Prelude.{◌≡◌};
ghost use Rattle.escrow_bounds.specs.Verdict.{verdict_of};

use escrow_num::{Name, Side, Violation, Wide};

/// Whether changes of a row are granted, by the grant rule.
#[derive(Clone, Copy, Debug)]
pub enum Verdict {
    /// No choice of the open reservations with these changes breaks a check.
    Granted,
    /// Some choice breaks a check.
    Broken {
        /// The name of the first such check, in the table's order.
        check: Name,
        /// The side on which the worst value passes the limit.
        side: Side,
        /// The worst value that a choice gives the check's form, in units of the check's scale.
        worst: Wide,
        /// The limit of that side, in the same units.
        limit: Wide,
    },
}

impl Verdict {
    /// Returns the verdict on changes that break this limit, or no limit.
    pub(crate) fn of(violation: Option<Violation>) -> Verdict
        ensures { result ≡ verdict_of violation }
    {
        match violation {
            None => Verdict::Granted,
            Some(violation) => Verdict::Broken {
                check: violation.check,
                side: violation.side,
                worst: violation.worst,
                limit: violation.limit,
            },
        }
    }
}
