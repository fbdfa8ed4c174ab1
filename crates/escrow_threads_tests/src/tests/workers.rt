//! Workers over shared databases, which get their requests as lists or through channels: what each
//! replies, and what is returned.
ghost use Rattle.std.specs.Prelude.{◌≡◌, length};
ghost use Rattle.std.specs.List.{AllByRecursion};
ghost use Rattle.escrow_shards.specs.Shared.{HasPass};
ghost use Rattle.escrow_sessions.specs.Serving.{HasItsPass};

use super::closes::check_hits;
use super::databases::{COUNTER, HIT, check_shown};
use super::gates::Watch;
use super::results::{made, push, refused};
use super::sharing::{close_whole, hall};
use escrow_machine::Reply;
use escrow_memory::BlockStore;
use escrow_num::Refusal;
use escrow_sessions::{
    Cause, Done, Ended, Feed, Given, MAX_WORKERS, NotFed, run_fed, run_sessions,
};
use escrow_shards::{Answer, Closed, Gate, NoGate, Pass, Shared, UnderLock};
use escrow_sql::{Request, parse};
use escrow_stats::Tally;
use std::alloc::Global;
use std::process::Abort;
use std::sync::Wait;
use std::thread::Threads;

/// How workers get their requests.
#[derive(Clone, Copy, Debug)]
pub enum By {
    /// Each has a list.
    Lists,
    /// They are fed.
    Channels,
}

/// Both ways.
pub const BOTH: [By; 2] = [By::Lists, By::Channels];

/// What the session of each pass asks: texts, one after another, repeated a number of times.
#[derive(Clone, Copy)]
pub struct Work<'a> {
    pub texts: &'a [&'a str],
    pub times: usize,
    /// If workers are fed, each item, and the end of the items, comes once this gate has seen the
    /// calls of the items before.
    pub live: Option<&'a Watch>,
}

/// Each session commits once.
pub const COMMIT: Work = Work {
    texts: &["COMMIT"],
    times: 1,
    live: None,
};

/// Serves the same work in the session of each pass, at the same time. If there are too many
/// passes, they are returned. If memory is refused before a worker is started, they are served at
/// the second attempt.
pub fn serve_all<R: Threads + Wait + Sync + Abort + AllocGlobal, G: Gate + Sync>(
    rt: &R,
    by: By,
    shared: &Shared<BlockStore>,
    passes: Vec<Pass>,
    work: Work,
    gate: &G,
) -> Result<Vec<Done>, Vec<Pass>> {
    let count = passes.len();
    let mut passes = passes;
    for _ in 0..2 {
        match try_serve(rt, by, shared, passes, work, gate) {
            Ok(done) => return Ok(done),
            Err((back, cause)) => {
                assert_eq!(rt; back.len(), count);
                if cause == Cause::TooMany {
                    return Err(back);
                }
                passes = back;
            }
        }
    }
    rt.panic("memory")
}

/// [`serve_all`] in one attempt. If no worker is started, the passes are returned, and no item was
/// requested.
fn try_serve<R: Threads + Wait + Sync + Abort + AllocGlobal, G: Gate + Sync>(
    rt: &R,
    by: By,
    shared: &Shared<BlockStore>,
    passes: Vec<Pass>,
    work: Work,
    gate: &G,
) -> Result<Vec<Done>, (Vec<Pass>, Cause)> {
    match by {
        By::Lists => {
            let feeds = feeds_of(rt, shared, passes, work);
            match run_sessions(rt, rt.alloc(), shared, feeds, gate) {
                Ok(done) => Ok(done),
                Err(refusal) => {
                    let mut passes = Vec::new(rt.alloc());
                    for feed in refusal.feeds {
                        push(rt, &mut passes, feed.pass);
                    }
                    Err((passes, refusal.cause))
                }
            }
        }
        By::Channels => match feed(rt, shared, passes, work, gate) {
            Ok(done) => Ok(done),
            Err(refusal) => {
                assert_eq!(rt; refusal.items.dealt, 0);
                Err((refusal.passes, refusal.cause))
            }
        },
    }
}

/// Feeds the same work to the session of each pass.
fn feed<'a, R: Threads + Wait + Sync + Abort + AllocGlobal, G: Gate + Sync>(
    rt: &R,
    shared: &Shared<BlockStore>,
    passes: Vec<Pass>,
    work: Work<'a>,
    gate: &G,
) -> Result<Vec<Done>, NotFed<Deal<'a>>> {
    let passes = seated(rt, shared, passes);
    let items = Deal::new(rt.alloc(), passes.len(), work);
    run_fed(rt, rt.alloc(), shared, passes, items, gate)
}

/// Returns a feed for each pass, with the same work.
pub fn feeds_of<R: Abort + AllocGlobal, L: UnderLock<BlockStore>>(
    rt: &R,
    shared: &Shared<BlockStore, L>,
    passes: Vec<Pass>,
    work: Work,
) -> Vec<Feed>
    ensures { AllByRecursion (HasItsPass shared.now) result.items }
{
    let mut feeds = Vec::new(rt.alloc());
    for pass in passes {
        assert!(rt; shared.has_pass(&pass));
        let requests = requests_of(rt, work);
        if feeds.push(Feed { pass, requests }).is_err() {
            rt.panic("memory");
        }
    }
    feeds
}

/// Returns the passes, after asserting that each is for one of the databases and sessions.
fn seated<R: Abort + AllocGlobal>(
    rt: &R,
    shared: &Shared<BlockStore>,
    passes: Vec<Pass>,
) -> Vec<Pass>
    ensures { AllByRecursion (HasPass shared.now) result.items }
{
    let mut seated = Vec::new(rt.alloc());
    for pass in passes {
        assert!(rt; shared.has_pass(&pass));
        if seated.push(pass).is_err() {
            rt.panic("memory");
        }
    }
    seated
}

/// Returns the requests of a work.
fn requests_of<R: Abort + AllocGlobal>(rt: &R, work: Work) -> Vec<Request> {
    let mut requests = Vec::new(rt.alloc());
    for _ in 0..work.times {
        for text in work.texts {
            push(
                rt,
                &mut requests,
                made(rt, parse(rt.alloc(), text), "memory"),
            );
        }
    }
    requests
}

/// The same work for each of a number of places, dealt out text by text, beginning with the first
/// place.
#[derive(Drop)]
struct Deal<'a> {
    alloc: Global,
    places: usize,
    work: Work<'a>,
    dealt: usize,
    total: usize,
}

impl<'a> Deal<'a> {
    ghost use Rattle.std.specs.Prelude.{◌≡◌};

    /// Returns the work, before any of it is dealt out.
    fn new(alloc: Global, places: usize, work: Work<'a>) -> Self
        ensures { result.places ≡ places }
    {
        let round = places.saturating_mul(work.texts.len());
        Deal {
            alloc,
            places,
            work,
            dealt: 0,
            total: round.saturating_mul(work.times),
        }
    }
}

impl Iterator for Deal<'_> {
    type Item = (usize, Request);

    ghost use Rattle.std.specs.Prelude.{◌-◌};
    ghost use Rattle.std.specs.Iterator.{at_most};
    ghost use Rattle.escrow_threads_tests.specs.Dealt.{Deals};

    ghost next_gives = { λ s r t. Deals s.places r t.places };

    ghost remaining = { λ s. at_most (s.total - s.dealt) };

    fn next(&mut self) -> Option<(usize, Request)> {
        if let Some(watch) = self.work.live {
            watch.wait_for(&watch.calls, self.dealt as u64);
        }
        if self.dealt >= self.total || self.places == 0 {
            return None;
        }
        let place = self.dealt % self.places;
        let round = self.dealt / self.places;
        let text = self
            .work
            .texts
            .get(round.checked_rem(self.work.texts.len())?)?;
        let request = parse(self.alloc, text).ok()?;
        self.dealt += 1;
        Some((place, request))
    }
}

/// Closes after the workers, and returns the result. Each worker has given this many answers, which
/// are all, and the close is Ok.
pub fn end<R: Abort + AllocGlobal>(
    rt: &R,
    by: By,
    shared: Shared<BlockStore>,
    done: Vec<Done>,
    answers: usize,
) -> Vec<Closed<BlockStore>> {
    close_whole(rt, shared, passes_of(rt, by, done, answers))
}

/// Returns the passes of workers, each of which has given this many answers, which are all.
fn passes_of<R: Abort + AllocGlobal>(rt: &R, by: By, done: Vec<Done>, answers: usize) -> Vec<Pass> {
    let mut passes = Vec::new(rt.alloc());
    for worker in done {
        assert_eq!(rt; worker.ended, Ended::All, "{by:?}");
        assert_eq!(rt; worker.answers.len(), answers, "{by:?}");
        push(rt, &mut passes, worker.pass);
    }
    passes
}

/// How many hits there are in all.
const ALL_HITS: usize = 800;

/// Each session adds a hit and commits it, a hundred times.
pub const HITS: Work = Work {
    texts: &[HIT, "COMMIT"],
    times: 100,
    live: None,
};

/// Each session then asks for the counter, and gets this reply.
const SEEN: Work = Work {
    texts: &["SELECT * FROM COUNTER"],
    times: 1,
    live: None,
};

/// Has each worker show all hits to its session. Returns the passes.
fn check_seen<R: Threads + Wait + Sync + Abort + AllocGlobal>(
    rt: &R,
    by: By,
    shared: &Shared<BlockStore>,
    passes: Vec<Pass>,
) -> Vec<Pass> {
    let done = made(
        rt,
        serve_all(rt, by, shared, passes, SEEN, &NoGate),
        "workers",
    );
    for worker in &done {
        let Some(Given::Reply(Answer::Served(reply))) = worker.answers.first() else {
            rt.panic("a reply")
        };
        let session = worker.pass.session();
        let number = session.get();
        let text = format!(in rt.alloc();
            "bank.{number}> ID | HITS\nbank.{number}> 1 | {ALL_HITS}\nbank.{number}> OK rows 1\n"
        );
        check_shown(rt, session, reply, made(rt, text, "memory").as_str());
    }
    passes_of(rt, by, done, 1)
}

/// Eight sessions hit one counter. The ids of the hits are the first ones, each granted once; all
/// hits are counted, and the close is Ok.
#[test]
fn close_honest(rt: HostRuntime) {
    for by in BOTH {
        let (shared, passes) = hall(&rt, 1, 8, &COUNTER);
        let done = made(
            &rt,
            serve_all(&rt, by, &shared, passes, HITS, &NoGate),
            "workers",
        );
        let mut granted = [false; ALL_HITS + 1];
        for worker in &done {
            for given in &worker.answers {
                if let Given::Reply(Answer::Served(Reply::Reserved { id })) = given {
                    let place = usize::try_from(*id).ok().expect(&rt, "an id");
                    let mark = granted.get_mut(place).expect(&rt, "an id of a hit");
                    assert!(rt; !*mark && place > 0, "{id}");
                    *mark = true;
                }
            }
        }
        let count = granted.iter().filter(|is_granted| **is_granted).count();
        assert_eq!(rt; count, ALL_HITS, "{by:?}");
        let passes = passes_of(&rt, by, done, 200);
        let passes = check_seen(&rt, by, &shared, passes);
        for closed in close_whole(&rt, shared, passes) {
            assert_eq!(rt; closed.entries().len(), 1_608, "{by:?}");
            check_hits(&rt, closed, ALL_HITS);
        }
    }
}

/// If one of these passes is missing, the close says so, and everything is returned.
#[test]
fn close_missing(rt: HostRuntime) {
    let (shared, passes) = hall(&rt, 1, 8, &COUNTER);
    let by = By::Channels;
    let done = made(
        &rt,
        serve_all(&rt, by, &shared, passes, HITS, &NoGate),
        "workers",
    );
    let mut passes = passes_of(&rt, by, done, 200);
    let last = passes.pop().expect(&rt, "the last pass");
    assert_eq!(rt; last.receipts().len(), 200);
    let closed = shared.close(passes, Vec::new(rt.alloc()));
    let mismatch = refused(&rt, closed, "a pass is missing");
    assert_eq!(rt; mismatch.cause, escrow_shards::Cause::Passes);
    assert_eq!(rt; (mismatch.closed.len(), mismatch.passes.len()), (1, 7));
    for closed in mismatch.closed {
        check_hits(&rt, closed, ALL_HITS);
    }
}

/// Each session asks for its totals before, between and after two statements.
const TOTALS: Work = Work {
    texts: &[
        "SHOW STATISTICS",
        "COMMIT",
        "SHOW STATISTICS",
        "ROLLBACK",
        "SHOW STATISTICS",
    ],
    times: 1,
    live: None,
};

/// Totals are those of the replies so far, and are no replies themselves.
#[test]
fn totals_so_far(rt: HostRuntime) {
    let one = Tally {
        served: 1,
        commits: 1,
        ..Tally::new()
    };
    let two = Tally {
        served: 2,
        rollbacks: 1,
        ..one
    };
    for by in BOTH {
        let (shared, passes) = hall(&rt, 1, 1, &COUNTER);
        let done = made(
            &rt,
            serve_all(&rt, by, &shared, passes, TOTALS, &NoGate),
            "workers",
        );
        for worker in &done {
            for (place, wanted) in [(0, Tally::new()), (2, one), (4, two)] {
                match worker.answers.get(place) {
                    Some(Given::Totals(tally)) => assert_eq!(rt; *tally, wanted, "{by:?}"),
                    _ => rt.panic("totals"),
                }
            }
            assert_eq!(rt; worker.pass.receipts().len(), 2, "{by:?}");
        }
        end(&rt, by, shared, done, 5);
    }
}

/// Each session commits often.
const COMMITS: Work = Work {
    texts: &["COMMIT"],
    times: 400,
    live: None,
};

/// With 65 passes no worker is started, and all are returned. With 64, all are started, and each
/// serves everything that it is asked.
#[test]
fn too_many(rt: HostRuntime) {
    for by in BOTH {
        let (shared, passes) = hall(&rt, 5, 13, &COUNTER);
        let served = serve_all(&rt, by, &shared, passes, COMMIT, &NoGate);
        let mut passes = refused(&rt, served, "too many");
        assert_eq!(rt; passes.len(), MAX_WORKERS + 1, "{by:?}");
        passes.pop();
        let done = made(
            &rt,
            serve_all(&rt, by, &shared, passes, COMMITS, &NoGate),
            "workers",
        );
        assert_eq!(rt; done.len(), MAX_WORKERS, "{by:?}");
        for worker in &done {
            assert_eq!(rt; worker.ended, Ended::All, "{by:?}");
            assert_eq!(rt; worker.pass.receipts().len(), 400, "{by:?}");
        }
    }
}

/// Each session adds a hit and commits it, three times, and asks for its totals.
const FEW_HITS: Work = Work {
    texts: &[HIT, "COMMIT", "SHOW STATISTICS"],
    times: 3,
    live: None,
};

/// How many requests each session has then.
const REQUESTS: usize = 9;

/// The outcome of requests: how many statements were served, how many reservations were committed,
/// and how many requests weren't served.
#[derive(Clone, Copy)]
struct Came {
    served: usize,
    committed: usize,
    wanting: usize,
}

/// Adds the outcome of a worker's requests. Its pass has a receipt for each that was served, and
/// all others failed for memory.
fn add_came<R: Abort>(rt: &R, came: &mut Came, worker: &Done) {
    let before = came.served;
    for given in &worker.answers {
        match given {
            Given::Totals(_) => {}
            Given::Reply(Answer::Served(reply)) => {
                came.served = came.served.saturating_add(1);
                if let Reply::Committed { count } = reply {
                    came.committed = came.committed.saturating_add(*count as usize);
                }
            }
            Given::Reply(Answer::Unserved(refusal)) => {
                assert!(rt; matches!(refusal, Refusal::Memory), "{refusal:?}");
                came.wanting = came.wanting.saturating_add(1);
            }
        }
    }
    let served = came.served.saturating_sub(before);
    assert_eq!(rt; worker.pass.receipts().len(), served);
    let unanswered = REQUESTS.saturating_sub(worker.answers.len());
    came.wanting = came.wanting.saturating_add(unanswered);
}

/// Whether memory is refused or not, the receipts, the entries and the counter are those of what
/// was answered. If it isn't refused, everything is served.
#[test]
fn what_was_answered_happened(rt: HostRuntime) {
    for by in BOTH {
        let (shared, passes) = hall(&rt, 1, 2, &COUNTER);
        let done = made(
            &rt,
            serve_all(&rt, by, &shared, passes, FEW_HITS, &NoGate),
            "workers",
        );
        let mut came = Came {
            served: 0,
            committed: 0,
            wanting: 0,
        };
        let mut passes = Vec::new(rt.alloc());
        for worker in done {
            add_came(&rt, &mut came, &worker);
            push(&rt, &mut passes, worker.pass);
        }
        if came.wanting == 0 {
            assert_eq!(rt; (came.served, came.committed), (12, 6), "{by:?}");
        }
        for closed in close_whole(&rt, shared, passes) {
            assert_eq!(rt; closed.entries().len(), came.served, "{by:?}");
            check_hits(&rt, closed, came.committed);
        }
    }
}
