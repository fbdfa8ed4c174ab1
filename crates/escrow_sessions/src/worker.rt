//! What a worker does: it answers each request of its source.
ghost use Rattle.std.specs.Prelude.{◌≡◌, ◌-◌, ◌^◌, ◌<◌, ◌++◌, List, None, length};
ghost use Rattle.std.specs.Iterator.{YieldsThen};
ghost use Rattle.escrow_statement.specs.declared.statement.Request.{Request};
ghost use Rattle.escrow_machine.specs.declared.reply.Reply.{Reply};
ghost use Rattle.escrow_stats.specs.Tally.{tally_of};
ghost use Rattle.escrow_sessions.specs.Work.{IsServed};
ghost use Rattle.escrow_sessions.specs.Kept.{reply_of, AreKept};
ghost use Rattle.escrow_sessions.specs.Serving.{replies_of, IsGiven};

use crate::feed::{Done, Ended, Given};
use crate::service::Service;
use crate::source::Source;
use escrow_shards::{Answer, Gate, Pass, Receipt};
use escrow_statement::{Request, Statement};
use escrow_stats::Tally;
use std::alloc::Global;
use std::sync::Wait;
use std::unreachable;

/// Serves what a source returns, up to its end, in the session of a pass. If memory for the next
/// answer is refused, the remaining requests are taken, and not served.
pub(crate) fn serve<H: Service, R: Wait, G: Gate, Q: Source>(
    rt: &R,
    alloc: Global,
    service: &H,
    mut pass: Pass,
    source: &mut Q,
    gate: &G,
) -> Done
    requires { H.has_pass service.now pass }
    ensures { IsServed Q.gives pass source.old result source.new }
{
    let mut answers = Vec::new(alloc);
    let mut totals = None;
    for _ in rt.forever() {
        let Some(request) = source.next(rt) else {
            return Done {
                pass,
                answers,
                ended: Ended::All,
            };
        };
        if answers.reserve(1).is_err() {
            drop(request);
            skip(rt, source);
            return Done {
                pass,
                answers,
                ended: Ended::Stopped,
            };
        }
        answers.push_reserved(give(rt, alloc, service, &mut pass, &mut totals, &request, gate));
        drop(request);
    }
    unreachable!()
}

/// Takes what a source returns, up to its end.
fn skip<R: Wait, Q: Source>(rt: &R, source: &mut Q)
    ensures { (skipped : List Request) × YieldsThen Q.gives source.old skipped None source.new }
{
    for _ in rt.forever() {
        let Some(request) = source.next(rt) else {
            return;
        };
        drop(request);
    }
    unreachable!()
}

/// Returns the answer to a request of the session of a pass. If the request asks for the session's
/// totals, they are kept from then on.
pub(crate) fn give<H: Service, R: Wait, G: Gate>(
    rt: &R,
    alloc: Global,
    service: &H,
    pass: &mut Pass,
    totals: &mut Option<Tally>,
    request: &Request,
    gate: &G,
) -> Given
    requires seat { H.has_pass service.now pass.old }
    requires kept { AreKept totals.old (replies_of pass.old.receipts) }
    ensures given { IsGiven request.now result pass.old pass.new }
    ensures seat { H.has_pass service.now pass.new }
    ensures kept { AreKept totals.new (replies_of pass.new.receipts) }
{
    match request {
        Request::Statement(statement) => {
            let n = (pass.receipts().len() as u64).saturating_add(1);
            gate.before(rt, pass.database(), pass.session(), n);
            let answer = service.serve(rt, alloc, pass, statement, gate);
            count(totals, &answer);
            Given::Reply(answer)
        }
        Request::Statistics => {
            let tally = match *totals {
                Some(tally) => tally,
                None => tally(pass.receipts()),
            };
            *totals = Some(tally);
            Given::Totals(tally)
        }
    }
}

/// Counts a reply that was served in the totals, if they are kept.
fn count(totals: &mut Option<Tally>, answer: &Answer)
    ensures { (replies : List Reply) → length replies < 2 ^ 64 - 1 → AreKept totals.old replies
        → AreKept totals.new (replies ++ reply_of answer.now) }
{
    if let (Some(tally), Answer::Served(reply)) = (*totals, answer) {
        *totals = Some(tally.with(reply));
    }
}

/// Returns the tally of the replies of receipts.
fn tally(receipts: &[Receipt]) -> Tally
    ensures { result ≡ tally_of (replies_of receipts.now) }
{
    let mut tally = Tally::new();
    for receipt in receipts {
        tally = tally.with(&receipt.reply);
    }
    tally
}
