ghost use Rattle.std.specs.Prelude.{◌≡◌, ◌++◌, OnOk};
ghost use Rattle.std.specs.List.{flat_map};
ghost use Rattle.escrow_reply.specs.Text.{change_text, signed_text};

use crate::line::Shown;
use crate::push::{push_bytes, push_counted, push_number, push_text, push_units};
use crate::values::push_value;
use escrow_machine::{ColumnChange, JournalEntry};
use escrow_num::{Amount, Scale, Wide};
use std::alloc::AllocError;

/// Shows an open reservation's id, its session, its row, and its changes.
impl Shown for JournalEntry {
    ghost use Rattle.escrow_reply.specs.Text.{entry_text};

    ghost text = { entry_text };

    #[tactic(auto, unfolding(crate::specs::Text::entry_text))]
    fn push_to(&self, line: &mut Vec<u8>) -> Result<(), AllocError> {
        push_number(line, self.id)?;
        push_counted(line, " session ", u64::from(self.session.get()))?;
        push_text(line, " ")?;
        push_bytes(line, self.row.table.as_bytes())?;
        push_text(line, " ")?;
        push_value(line, &self.row.key, self.key_scale)?;
        push_changes(line, self.changes.as_slice())
    }
}

/// Adds the changes of columns, one after another.
fn push_changes(line: &mut Vec<u8>, changes: &[ColumnChange]) -> Result<(), AllocError>
    ensures { OnOk result (line.new.items ≡ line.old.items ++ flat_map change_text changes.now) }
{
    for change in changes {
        push_change(line, change)?;
    }
    Ok(())
}

/// Adds a column's name and its change.
fn push_change(line: &mut Vec<u8>, change: &ColumnChange) -> Result<(), AllocError>
    ensures { OnOk result (line.new.items ≡ line.old.items ++ change_text change.now) }
{
    push_text(line, " ")?;
    push_bytes(line, change.column.as_bytes())?;
    push_text(line, " ")?;
    push_with_sign(line, change.change, change.scale)
}

/// Adds a change in units of a scale, with its sign: a plus if it isn't negative.
fn push_with_sign(line: &mut Vec<u8>, change: Amount, scale: Scale) -> Result<(), AllocError>
    ensures { OnOk result (line.new.items ≡ line.old.items ++ signed_text scale change) }
{
    if change.get() >= 0 {
        push_text(line, "+")?;
    }
    push_units(line, Wide::from(change), scale)
}
