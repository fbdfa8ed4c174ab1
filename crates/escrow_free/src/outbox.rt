//! The outbox of a session: its pass, and its answers that aren't printed yet.
ghost use Rattle.std.specs.Prelude.{◌≡◌, ◌<◌, ◌≤◌, map, IfOk};
ghost use Rattle.std.specs.List.{AllZip};
ghost use Rattle.escrow_num.specs.Session.{IsShared};
ghost use Rattle.escrow_num.specs.declared.session.TheConstants.Session.{MAX_SHARED};
ghost use Rattle.escrow_free.specs.Outboxes.{IsNewOutbox, IsDoneOutbox, IsUnservedOutbox, outbox_of, pass_of};

use escrow_num::Session;
use escrow_script::MAX_DATABASES;
use escrow_sessions::{Done, Feed, Given};
use escrow_shards::{Answer, Pass};
use escrow_stats::Tally;
use std::alloc::{AllocError, Global};
use std::vec::IntoIter;

/// A session between its calls: its pass, and the answers of a phase that aren't printed yet.
#[derive(Drop)]
pub(crate) struct Outbox {
    pub(crate) pass: Pass,
    pub(crate) answers: IntoIter<Given>,
}

impl Outbox {
    ghost use Rattle.std.specs.Prelude.{◌≡◌};
    ghost use Rattle.escrow_free.specs.Outboxes.{answers_of, IsNewOutbox, IsDoneOutbox, IsNext, IsCounted};

    /// Returns an outbox without answers. Takes no memory.
    pub(crate) fn new(alloc: Global, pass: Pass) -> Self
        ensures { IsNewOutbox pass result }
    {
        Outbox {
            pass,
            answers: Vec::new(alloc).into_iter(),
        }
    }

    /// Returns the outbox of a worker, with the worker's answers.
    fn of_done(done: Done) -> Self
        ensures { IsDoneOutbox done result }
    {
        let Done { pass, answers, .. } = done;
        let answers = answers.into_iter();
        Outbox { pass, answers }
    }

    /// Returns the next answer, if there is one, and counts its reply in the session's totals.
    pub(crate) fn next_answer(&mut self, totals: &mut Tally) -> Option<Given>
        ensures next { IsNext (answers_of self.old) result (answers_of self.new) }
        ensures pass { self.new.pass ≡ self.old.pass }
        ensures counted { IsCounted result self.old.pass totals.old totals.new }
    {
        // A total can count all receipts.
        prove!(self.pass.receipts().len() < usize::MAX);
        let given = self.answers.next();
        if let Some(Given::Reply(Answer::Served(reply))) = &given {
            *totals = totals.with(reply);
        }
        given
    }
}

/// Returns the place of a session's outbox among the outboxes of all databases.
pub(crate) fn outbox_of(database: usize, session: Session) -> usize
    requires few { database < MAX_DATABASES }
    requires shared { session ≤ MAX_SHARED }
    ensures place { result ≡ outbox_of database session }
    ensures is_session { IsShared session }
{
    let first = database * usize::from(Session::MAX_SHARED);
    first + usize::from(session.get()) - 1
}

/// Returns the outboxes of passes, without answers. Fails only if memory is refused.
pub(crate) fn outboxes_of(alloc: Global, passes: Vec<Pass>) -> Result<Vec<Outbox>, AllocError>
    ensures { IfOk result (λ outboxes. AllZip IsNewOutbox passes.items outboxes.items) }
{
    each_of(alloc, passes, |pass| Outbox::new(alloc, pass))
}

/// Returns the outboxes of workers, with the workers' answers. Fails only if memory is refused.
pub(crate) fn served_outboxes(alloc: Global, workers: Vec<Done>) -> Result<Vec<Outbox>, AllocError>
    ensures { IfOk result (λ outboxes. AllZip IsDoneOutbox workers.items outboxes.items) }
{
    each_of(alloc, workers, |done| Outbox::of_done(done))
}

/// Returns the outboxes of feeds that weren't served, without answers. Fails only if memory is
/// refused.
pub(crate) fn unserved_outboxes(alloc: Global, feeds: Vec<Feed>) -> Result<Vec<Outbox>, AllocError>
    ensures { IfOk result (λ outboxes. AllZip IsUnservedOutbox feeds.items outboxes.items) }
{
    each_of(alloc, feeds, |feed| Outbox::new(alloc, feed.pass))
}

/// Returns the passes of outboxes. Fails only if memory is refused.
pub(crate) fn passes_of(alloc: Global, outboxes: Vec<Outbox>) -> Result<Vec<Pass>, AllocError>
    ensures { IfOk result (λ passes. passes.items ≡ map pass_of outboxes.items) }
{
    each_of(alloc, outboxes, |outbox| outbox.pass)
}

/// Applies a function to each value, and returns the results. Fails only if memory is refused.
pub(crate) fn each_of<X: Drop, Y: Drop, F: Fn(X) -> Y>(
    alloc: Global,
    xs: Vec<X>,
    f: F,
) -> Result<Vec<Y>, AllocError>
    requires { F.IsAlwaysCallable f }
    ensures { IfOk result (λ ys. AllZip (λ x y. F.post f x y) xs.items ys.items) }
{
    let mut ys = Vec::with_capacity(alloc, xs.len())?;
    for x in xs {
        ys.push(f(x))?;
    }
    Ok(ys)
}
