ghost use Rattle.std.specs.Prelude.{◌≡◌, ◌++◌, OnOk, codes};
ghost use Rattle.escrow_reply.specs.Text.{limit_text};

use crate::line::Shown;
use crate::push::{push_bytes, push_measure, push_text};
use escrow_machine::{CheckBounds, ColumnBounds};
use escrow_num::{Scale, Span, Wide};
use std::alloc::AllocError;

/// Shows a column's name, its committed value, and the least and the greatest value that it can
/// have.
impl Shown for ColumnBounds {
    ghost use Rattle.escrow_reply.specs.Text.{column_text};

    ghost text = { column_text };

    #[tactic(auto, unfolding(crate::specs::Text::column_text))]
    fn push_to(&self, line: &mut Vec<u8>) -> Result<(), AllocError> {
        push_bytes(line, self.column.as_bytes())?;
        let scale = self.scale;
        push_measure(line, " value ", Wide::from(self.value), scale)?;
        push_measure(line, " inf ", self.inf, scale)?;
        push_measure(line, " sup ", self.sup, scale)
    }
}

/// Shows a check's name, the least and the greatest value of its form, and its limits.
impl Shown for CheckBounds {
    ghost use Rattle.escrow_reply.specs.Text.{check_text};

    ghost text = { check_text };

    #[tactic(auto, unfolding(crate::specs::Text::check_text))]
    fn push_to(&self, line: &mut Vec<u8>) -> Result<(), AllocError> {
        push_text(line, "CHECK ")?;
        push_bytes(line, self.check.as_bytes())?;
        push_measure(line, " least ", self.least, self.scale)?;
        push_measure(line, " greatest ", self.greatest, self.scale)?;
        push_limits(line, self.limits, self.scale)
    }
}

/// Adds the limits of a check, in units of its scale.
fn push_limits(line: &mut Vec<u8>, limits: Span, scale: Scale) -> Result<(), AllocError>
    ensures { OnOk result (line.new.items ≡ line.old.items
        ++ (codes " low " ++ limit_text scale limits.lo ++ codes " high " ++ limit_text scale limits.hi)) }
{
    push_limit(line, " low ", limits.lo, scale)?;
    push_limit(line, " high ", limits.hi, scale)
}

/// Adds words and a limit, or `none` if there is no limit.
fn push_limit(
    line: &mut Vec<u8>,
    words: &str,
    limit: Option<Wide>,
    scale: Scale,
) -> Result<(), AllocError>
    ensures { OnOk result (line.new.items ≡ line.old.items ++ (words.now ++ limit_text scale limit)) }
{
    match limit {
        Some(limit) => push_measure(line, words, limit, scale),
        None => {
            push_text(line, words)?;
            push_text(line, "none")
        }
    }
}
