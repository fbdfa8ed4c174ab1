ghost use Rattle.std.specs.Prelude.{◌≡◌, ◌≤◌, ◌+◌, ◌*◌, ◌++◌, ◌∷◌, [], List, ℕ, length, map, vec_len, vec_capacity};
ghost use Rattle.std.specs.List.{AllByRecursion};
ghost use Rattle.escrow_machine.specs.State.{State};
ghost use Rattle.escrow_reply.specs.Text.{rendered};
ghost use Rattle.escrow_serve.specs.Batch.{waiting_of, AreAsked, AreReady, Gave, IsItem, IsWithin, Item, Runs};
ghost use Rattle.escrow_serve.specs.Output.{Answers};
ghost use Rattle.escrow_serve.specs.Shown.{IsShown};
ghost use Rattle.escrow_serve.specs.Totals.{LineServed, LinesServed, TextServed};

use crate::part::Part;
use crate::totals::Totals;
use escrow_core::Reply;
use escrow_num::{Refusal, Session};
use escrow_reply::{MAX_FRONT, MAX_SHORT, is_short, push_short, push_short_line};
use escrow_script::{MAX_DATABASES, database_name};

/// What a line waits for.
#[derive(Clone, Copy)]
pub(crate) enum Waiting {
    /// It has no reply.
    Nothing,
    /// It is refused as no line of a script.
    NoLine,
    /// Its text is refused.
    Refused {
        database: usize,
        session: Session,
        refusal: Refusal,
    },
    /// Its statement will be served, and has the next reply of its database.
    Asked {
        database: usize,
        session: Session,
    },
}

/// Gathers the replies to lines that wait, in order. There must be room for a short one to each.
pub(crate) fn give_all(
    waiting: &[Waiting],
    parts: &mut Vec<Part>,
    totals: &mut Vec<Totals>,
    replies: &mut Vec<u8>,
)
    requires few { vec_len parts.old ≤ MAX_DATABASES }
    requires each { vec_len totals.old ≡ vec_len parts.old }
    requires within { AllByRecursion (IsWithin (vec_len parts.old)) waiting.now }
    requires room { vec_len replies.old + MAX_SHORT * length waiting.now ≤ vec_capacity replies.old }
    ensures given { (out : List ℕ) × (replies.new.items ≡ replies.old.items ++ out)
        × ((sessions : ℕ) (states new : List State) (items : List Item)
        → waiting.now ≡ map (λ item. waiting_of item.task) items
        → AllByRecursion (IsItem sessions (vec_len parts.old)) items → Runs states new items parts.old.items
        → LinesServed sessions states totals.old.items (map (λ item. item.bytes) items) out new totals.new.items) }
    ensures gave { (out : List ℕ) × (replies.new.items ≡ replies.old.items ++ out)
        × ((sessions : ℕ) (items : List Item) → waiting.now ≡ map (λ item. waiting_of item.task) items
        → AllByRecursion (IsItem sessions (vec_len parts.old)) items → AreReady parts.old.items items
        → Gave sessions (vec_len parts.old) items out parts.old.items parts.new.items × AreReady parts.new.items []) }
    ensures len { vec_len replies.new ≤ vec_len replies.old + MAX_SHORT * length waiting.now }
    ensures capacity { vec_capacity replies.old ≤ vec_capacity replies.new }
    ensures each { vec_len totals.new ≡ vec_len totals.old }
    ensures asked { (items : List Item) → AreAsked parts.old.items items → AreAsked parts.new.items items }
    ensures parts { vec_len parts.new ≡ vec_len parts.old }
{
    for waits in waiting {
        give(*waits, parts, totals, replies);
    }
}

/// Gathers the reply to a line that waits, if it has one. There must be room for a short one.
fn give(waiting: Waiting, parts: &mut Vec<Part>, totals: &mut Vec<Totals>, replies: &mut Vec<u8>)
    requires few { vec_len parts.old ≤ MAX_DATABASES }
    requires each { vec_len totals.old ≡ vec_len parts.old }
    requires within { IsWithin (vec_len parts.old) waiting }
    requires room { vec_len replies.old + MAX_SHORT ≤ vec_capacity replies.old }
    ensures given { (out : List ℕ) × (replies.new.items ≡ replies.old.items ++ out)
        × ((sessions : ℕ) (states new : List State) (item : Item) (items : List Item) → waiting ≡ waiting_of item.task
        → IsItem sessions (vec_len parts.old) item
        → Runs states new (item ∷ items) parts.old.items
        → (mid : List State) × LineServed sessions states totals.old.items item.bytes out mid totals.new.items
        × Runs mid new items parts.new.items) }
    ensures gave { (out : List ℕ) × (replies.new.items ≡ replies.old.items ++ out)
        × ((sessions : ℕ) (item : Item) (items : List Item) → waiting ≡ waiting_of item.task
        → IsItem sessions (vec_len parts.old) item → AreReady parts.old.items (item ∷ items)
        → Gave sessions (vec_len parts.old) (item ∷ []) out parts.old.items parts.new.items
        × AreReady parts.new.items items) }
    ensures len { vec_len replies.new ≤ vec_len replies.old + MAX_SHORT }
    ensures capacity { vec_capacity replies.old ≤ vec_capacity replies.new }
    ensures each { vec_len totals.new ≡ vec_len totals.old }
    ensures asked { (items : List Item) → AreAsked parts.old.items items → AreAsked parts.new.items items }
    ensures parts { vec_len parts.new ≡ vec_len parts.old }
{
    match waiting {
        Waiting::Nothing => {}
        Waiting::NoLine => push_short_line(replies, "script> ", &Reply::Refused(Refusal::Line)),
        Waiting::Refused {
            database,
            session,
            refusal,
        } => {
            let refused = Reply::Refused(refusal);
            give_short(
                database_name(database),
                session,
                &refused,
                &mut totals[database],
                replies,
            );
        }
        Waiting::Asked { database, session } => {
            match parts[database].next() {
                Some(reply) => give_short(
                    database_name(database),
                    session,
                    &reply,
                    &mut totals[database],
                    replies,
                ),
                None => {}
            }
        }
    }
}

/// Gathers a short reply, for which there must be room, and counts it. A longer one would take
/// memory, and is refused for it.
pub(crate) fn give_short(
    name: &str,
    session: Session,
    reply: &Reply,
    totals: &mut Totals,
    replies: &mut Vec<u8>,
)
    requires front { length name.now ≤ MAX_FRONT }
    requires room { vec_len replies.old + MAX_SHORT ≤ vec_capacity replies.old }
    ensures given { (out : List ℕ) × (replies.new.items ≡ replies.old.items ++ out)
        × ((old new : State) (text : List ℕ) →
        Answers old session text reply.now new → TextServed name.now old totals.old session text out new totals.new) }
    ensures shown { (answer : Reply) × (replies.new.items ≡ replies.old.items ++ rendered name.now session answer)
        × IsShown reply.now answer }
    ensures len { vec_len replies.new ≤ vec_len replies.old + MAX_SHORT }
    ensures capacity { vec_capacity replies.old ≤ vec_capacity replies.new }
{
    if is_short(reply) {
        push_short(replies, name, session, reply);
        totals.count(session, reply);
    } else {
        let refused = Reply::Refused(Refusal::Memory);
        push_short(replies, name, session, &refused);
        totals.count(session, &refused);
    }
}
