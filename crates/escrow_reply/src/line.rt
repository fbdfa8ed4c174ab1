//! The lines of what is shown.
ghost use Rattle.std.specs.Prelude.{◌≡◌, ◌++◌, ◌∷◌, [], map, OnOk};
ghost use Rattle.escrow_reply.specs.Text.{with_prefix};

use crate::push::{push_bytes, push_text};
use std::alloc::AllocError;

/// Something that is shown on a line of its own.
pub(crate) trait Shown {
    ghost use Rattle.std.specs.Prelude.{◌≡◌, ◌++◌, List, ℕ, OnOk};

    /// Its text.
    ghost text: { Self → List ℕ };

    /// Adds its text to a line.
    fn push_to(&self, line: &mut Vec<u8>) -> Result<(), AllocError>
        ensures { OnOk result (line.new.items ≡ line.old.items ++ text self.now) };
}

/// A text is shown as it is.
impl Shown for &str {
    ghost text = { λ s. s.now };

    fn push_to(&self, line: &mut Vec<u8>) -> Result<(), AllocError> {
        push_text(line, self)
    }
}

/// Adds a line for something that is shown, with a prefix before it and a line feed after it.
pub(crate) fn push_line<T: Shown>(
    lines: &mut Vec<u8>,
    prefix: &[u8],
    shown: &T,
) -> Result<(), AllocError>
    ensures { OnOk result (lines.new.items ≡ lines.old.items ++ with_prefix prefix.now (T.text shown.now ∷ [])) }
{
    push_bytes(lines, prefix)?;
    shown.push_to(lines)?;
    push_text(lines, "\n")
}

/// Adds a line for each thing that is shown.
pub(crate) fn push_lines<T: Shown>(
    lines: &mut Vec<u8>,
    prefix: &[u8],
    all: &[T],
) -> Result<(), AllocError>
    ensures { OnOk result (lines.new.items ≡ lines.old.items ++ with_prefix prefix.now (map T.text all.now)) }
{
    for shown in all {
        push_line(lines, prefix, shown)?;
    }
    Ok(())
}
