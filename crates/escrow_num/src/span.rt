ghost use Rattle.std.specs.Prelude.{◌≡◌, ◌≤ℤ◌, ◌↔◌, IsTrue, IsNone};
ghost use Rattle.escrow_num.specs.Span.{Holds, HoldsBetween, first_broken_of};

use crate::wide::Wide;

/// The two sides on which a value can leave its limits.
#[derive(Clone, Copy, Debug, PartialEq, Eq)]
pub enum Side {
    /// Below the low limit.
    Low,
    /// Above the high limit.
    High,
}

/// The limits of a check's form, each of which may be missing.
#[derive(Clone, Copy, Debug, PartialEq, Eq)]
pub struct Span {
    /// The least value that is allowed.
    pub lo: Option<Wide>,
    /// The greatest value that is allowed.
    pub hi: Option<Wide>,
}

impl Span {
    /// Returns whether a value is neither below the low limit nor above the high one.
    pub fn holds(&self, value: Wide) -> bool
        ensures { IsTrue result ↔ Holds self.now value }
    {
        let above = match self.lo {
            Some(lo) => lo <= value,
            None => true,
        };
        let below = match self.hi {
            Some(hi) => value <= hi,
            None => true,
        };
        above && below
    }

    /// Returns the first limit that the values from `least` to `greatest` leave, the low one before
    /// the high one: the side, the extreme past it, and the limit. Returns `None` if they leave
    /// neither, which means that each value between them is in the span. This is O'Neil's test
    /// (1986) of the bounds `inf` and `sup` of a field against its limits.
    pub fn first_broken(&self, least: Wide, greatest: Wide) -> Option<(Side, Wide, Wide)>
        requires { least ≤ℤ greatest }
        ensures first { result ≡ first_broken_of self.now least greatest }
        ensures unbroken { IsNone result ↔ HoldsBetween self.now least greatest }
    {
        if let Some(lo) = self.lo
            && least < lo
        {
            return Some((Side::Low, least, lo));
        }
        match self.hi {
            Some(hi) if greatest > hi => Some((Side::High, greatest, hi)),
            _ => None,
        }
    }
}
