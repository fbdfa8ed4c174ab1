//! What the lines of a phase print, in their order.
ghost use Rattle.std.specs.Prelude.{◌≡◌, [], ◌∷◌, ◌++◌, List, ℕ, vec_len, IfOk, OnOk};
ghost use Rattle.std.specs.Io.KnownBytes.{Appends};
ghost use Rattle.std.specs.List.{AllByRecursion};
ghost use Rattle.escrow_free.specs.declared.plan.Planned.{Planned};
ghost use Rattle.escrow_free.specs.Printing.{given_text, HasItsOutbox, PassesOn, PrintsTo};

use crate::outbox::{Outbox, outbox_of};
use crate::plan::Planned;
use escrow_machine::Reply;
use escrow_num::{Refusal, Session};
use escrow_reply::{render, render_lines};
use escrow_script::{
    Client, MOST_GATHERED, ServeFault, database_name, fault_refusal, gather, out_of_memory,
    write_gathered,
};
use escrow_sessions::Given;
use escrow_shards::Answer;
use escrow_stats::Tally;
use std::alloc::{AllocError, Global};

/// Prints what is planned for the lines of a phase, in order. If a line asks for a reply, this is
/// its session's next answer, which is counted in the session's totals. If a line asks for totals,
/// these are the totals so far. If memory is refused, what is gathered is written first.
pub(crate) fn print_phase<C: Client>(
    alloc: Global,
    outboxes: &mut Vec<Outbox>,
    totals: &mut Vec<Tally>,
    lines: Vec<Planned>,
    client: &mut C,
) -> Result<(), ServeFault>
    requires lines { AllByRecursion (HasItsOutbox (vec_len outboxes.old)) lines.items }
    requires beside { vec_len totals.old ≡ vec_len outboxes.old }
    ensures printed { OnOk result ((out : List ℕ) × Appends (C.sent client.old) (C.sent client.new) out
        × PrintsTo lines.items outboxes.old.items totals.old.items out [] outboxes.new.items totals.new.items) }
    ensures unread { OnOk result (C.remaining client.new ≡ C.remaining client.old) }
    ensures count { vec_len outboxes.new ≡ vec_len outboxes.old }
    ensures beside { vec_len totals.new ≡ vec_len outboxes.new }
{
    let mut replies = Vec::new(alloc);
    for line in lines {
        let Ok(reply) = print_line(alloc, outboxes, totals, line) else {
            return Err(out_of_memory(client, &mut replies));
        };
        pass_on(client, &mut replies, reply)?;
    }
    write_gathered(client, &mut replies)
}

/// Adds a reply to those that are gathered, and writes them if they are long.
fn pass_on<C: Client>(
    client: &mut C,
    replies: &mut Vec<u8>,
    reply: Vec<u8>,
) -> Result<(), ServeFault>
    ensures unread { OnOk result (C.remaining client.new ≡ C.remaining client.old) }
    ensures passed { OnOk result (PassesOn (C.sent client.old) (C.sent client.new)
        (replies.old.items ++ reply.items) replies.new.items) }
{
    let Ok(()) = gather(replies, reply) else {
        return Err(out_of_memory(client, replies));
    };
    if replies.len() >= MOST_GATHERED {
        write_gathered(client, replies)?;
    }
    Ok(())
}

/// Returns what is printed for a line. Fails only if memory is refused.
fn print_line(
    alloc: Global,
    outboxes: &mut Vec<Outbox>,
    totals: &mut Vec<Tally>,
    line: Planned,
) -> Result<Vec<u8>, AllocError>
    requires outbox { HasItsOutbox (vec_len outboxes.old) line }
    requires beside { vec_len totals.old ≡ vec_len outboxes.old }
    ensures printed { IfOk result
        (λ out. (plan : List Planned)
        → PrintsTo (line ∷ plan) outboxes.old.items totals.old.items out.items plan outboxes.new.items
        totals.new.items) }
    ensures count { vec_len outboxes.new ≡ vec_len outboxes.old }
    ensures beside { vec_len totals.new ≡ vec_len outboxes.new }
{
    match line {
        Planned::NoLine => render_lines(alloc, "script> ", &Reply::Refused(Refusal::Line)),
        Planned::Refused {
            database,
            session,
            fault,
        } => {
            let reply = Reply::Refused(fault_refusal(fault));
            render(alloc, database_name(database), session, &reply)
        }
        Planned::Asked { database, session } => {
            let place = outbox_of(database, session);
            let given = outboxes[place].next_answer(&mut totals[place]);
            print_given(alloc, database_name(database), session, given)
        }
        Planned::Totals { database, session } => {
            let tally = totals[outbox_of(database, session)];
            tally.render(alloc, database_name(database), session)
        }
    }
}

/// Returns what is printed for an answer. If there is none, the statement wasn't served, and is
/// refused for memory. Fails only if memory is refused.
fn print_given(
    alloc: Global,
    name: &str,
    session: Session,
    given: Option<Given>,
) -> Result<Vec<u8>, AllocError>
    ensures { IfOk result (λ out. out.items ≡ given_text name.now session given) }
{
    match given {
        Some(Given::Reply(Answer::Served(reply))) => render(alloc, name, session, &reply),
        Some(Given::Reply(Answer::Unserved(refusal))) => {
            render(alloc, name, session, &Reply::Refused(refusal))
        }
        Some(Given::Totals(totals)) => totals.render(alloc, name, session),
        None => render(alloc, name, session, &Reply::Refused(Refusal::Memory)),
    }
}
