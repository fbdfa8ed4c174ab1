ghost use Rattle.std.specs.Prelude.{◌≡◌, ℤ, pos, ◌+ℤ◌, ◌≤ℤ◌, ◌<◌, List, [], ◌∷◌, ◌++◌, length};
ghost use Rattle.std.specs.Int.{int_min, int_max};
ghost use Rattle.escrow_checks.specs.Contribution.{IsContribution, IsFormWithNew, IsFall, IsRise};
ghost use Rattle.escrow_checks.specs.Form.{form};
ghost use Rattle.escrow_checks.specs.declared.spread.TheConstants.Spread.{MAX_OPEN};

use escrow_num::Wide;

/// How far open reservations can move a check's form, whichever of them are applied: the sums of
/// the negative and of the positive contributions. With the form of the committed amounts these are
/// O'Neil's `inf` and `sup` (1986).
#[derive(Clone, Copy, Debug)]
pub struct Spread {
    /// The sum of the negative contributions.
    pub falls: Wide,
    /// The sum of the positive contributions.
    pub rises: Wide,
    ghost falls_within: { IsFall MAX_OPEN falls },
    ghost rises_within: { IsRise MAX_OPEN rises },
}

impl Spread {
    ghost use Rattle.escrow_checks.specs.Spread.{IsSpread};

    /// The most open reservations of a row, as many as 64 sessions with 256 each may have.
    pub const MAX_OPEN: usize = 16_384;

    /// Returns the spread of no reservations.
    pub fn new() -> Self
        ensures { (coeffs : List ℤ) → IsSpread coeffs [] result }
    {
        Spread {
            falls: Wide::ZERO,
            rises: Wide::ZERO,
        }
    }

    /// Returns the spread with one more reservation, which contributes this much to the form. Its
    /// place among the others doesn't matter.
    pub fn with(self, contribution: Wide) -> Self
        requires within { IsContribution contribution }
        requires room { (coeffs : List ℤ) × (reservations : List (List ℤ))
            × IsSpread coeffs reservations self × (length reservations < Spread.MAX_OPEN) }
        ensures added { (coeffs : List ℤ) (before after : List (List ℤ)) (changes : List ℤ)
            → IsSpread coeffs (before ++ after) self → contribution ≡ form coeffs changes
            → IsSpread coeffs (before ++ changes ∷ after) result }
    {
        let (fall, rise) = by_sign(contribution);
        Spread {
            falls: self.falls.plus(fall),
            rises: self.rises.plus(rise),
        }
    }

    /// Returns the spread without one of its reservations, which contributes this much to the form.
    /// Its place among the others doesn't matter.
    pub fn without(self, contribution: Wide) -> Self
        requires contained { (coeffs : List ℤ) × (before : List (List ℤ)) × (changes : List ℤ) × (after : List (List ℤ))
            × IsSpread coeffs (before ++ changes ∷ after) self × (contribution ≡ form coeffs changes) }
        ensures removed { (coeffs : List ℤ) (before after : List (List ℤ)) (changes : List ℤ)
            → IsSpread coeffs (before ++ changes ∷ after) self → contribution ≡ form coeffs changes
            → IsSpread coeffs (before ++ after) result }
    {
        let (fall, rise) = by_sign(contribution);
        Spread {
            falls: self.falls.minus(fall),
            rises: self.rises.minus(rise),
        }
    }

    /// Returns the least and the greatest value that the spread allows around a value of the form.
    pub(crate) fn around(&self, value: Wide) -> (Wide, Wide)
        requires { IsFormWithNew value }
        ensures least { result.0 ≡ value +ℤ self.now.falls }
        ensures greatest { result.1 ≡ value +ℤ self.now.rises }
        ensures ordered { result.0 ≤ℤ result.1 }
    {
        (value.plus(self.falls), value.plus(self.rises))
    }
}

/// Returns how far a contribution lowers a form, and how far it raises it. One of the two is zero.
fn by_sign(contribution: Wide) -> (Wide, Wide)
    ensures fall { result.0 ≡ int_min (pos 0) contribution }
    ensures rise { result.1 ≡ int_max (pos 0) contribution }
{
    if contribution < Wide::ZERO {
        (contribution, Wide::ZERO)
    } else {
        (Wide::ZERO, contribution)
    }
}
