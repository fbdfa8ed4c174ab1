//! The lines of a phase, read and planned.
ghost use Rattle.std.specs.Prelude.{◌≡◌, ◌≤◌, ◌<◌, ◌+◌, true, false, length, IfOk, OnOk};
ghost use Rattle.escrow_script.specs.Script.{left, HasEnded, Spends};
ghost use Rattle.escrow_free.specs.Phases.{IsRead, IsOver};

use crate::plan::Plan;
use escrow_script::{Client, MAX_DATABASES, Script, ServeFault};
use std::alloc::Global;

/// The lines of a phase.
#[derive(Drop)]
pub(crate) struct Phase {
    pub(crate) plan: Plan,
    // Whether a line ended the phase. If not, the script has no more lines.
    pub(crate) has_more: bool,
}

/// Reads the lines of the next phase of a client's script, up to `@join` or to the script's end,
/// and plans them.
pub(crate) fn read_phase<C: Client>(
    alloc: Global,
    databases: usize,
    script: &mut Script,
    client: &mut C,
) -> Result<Phase, ServeFault>
    requires few { databases ≤ MAX_DATABASES }
    requires ended { script.old.has_ended ≡ true → HasEnded script.old.unread (C.remaining client.old) }
    requires always { (c : C) → C.may_read c }
    ensures read { IfOk result
        (λ phase. IsRead databases (left script.old.unread (C.remaining client.old))
        (left script.new.unread (C.remaining client.new)) phase.plan) }
    ensures less { IfOk result (λ phase. phase.has_more ≡ true →
        script.new.bytes_left + length script.new.unread < script.old.bytes_left + length script.old.unread) }
    ensures spent { OnOk result
        (Spends (C.remaining client.old) (C.remaining client.new) script.old.bytes_left script.new.bytes_left) }
    ensures sent { OnOk result (C.sent client.new ≡ C.sent client.old) }
    ensures ended { OnOk result (script.new.has_ended ≡ true → HasEnded script.new.unread (C.remaining client.new)) }
    ensures over { IfOk result (λ phase. phase.has_more ≡ false →
        IsOver (left script.old.unread (C.remaining client.old)) (left script.new.unread (C.remaining client.new))) }
{
    let mut plan = Plan::new(alloc);
    'lines: while script.next_line(client)? {
        if plan.add(alloc, databases, script.line())? {
            return Ok(Phase {
                plan,
                has_more: true,
            });
        }
    }
    Ok(Phase {
        plan,
        has_more: false,
    })
}
