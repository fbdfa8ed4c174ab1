//! What is known at the ends of a board, and the board's rule.
use crate::shown::Shown;
use atomic_table::{Join, Split};
use crossbeam_utils::rule::{Outcome, Protocol};
use escrow_transcript::{Base, Entry};
use sqlite::Alter;
use std::collections::LinkedList;
use std::marker::{Brand, PhantomData};
use std::snapshot::Snapshot;

/// What is known at an end of a board: where the history begins, once this end knows it; the
/// entries whose totals this end has seen last; how often the disk had failed to return what was
/// written, by then; and, at the end that writes, all entries. No value of it exists at run time.
pub struct Known {
    pub base: Option<Base>,
    pub shown: LinkedList<Entry>,
    pub doubts: u64,
    pub entries: LinkedList<Entry>,
}

/// The rule of a board. It shows the totals of a list of entries. The list begins with what each
/// end has seen. It is a legal history as long as the disk returned what was written.
pub struct Prefixes<S> {
    of: Snapshot<S>,
}

impl<S: Alter> Protocol<Shown, Known> for Prefixes<S> {
    ghost use Rattle.escrow_stats.specs.Prefixes.{Keeps, newcomer};

    ghost holds = { Keeps S.Store };

    ghost first = { newcomer };
}

/// What a call picks: the entry that is added to a history, and the doubts of the disk after it.
pub trait Next {
    ghost use Rattle.std.specs.Prelude.{ℕ};
    ghost use Rattle.escrow_transcript.specs.declared.entry.Entry.{Entry};

    ghost more: { Entry };

    ghost doubts: { ℕ };
}

// The marker that each call picks by: these values are never used.
impl Next for Brand {
    ghost use Rattle.escrow_stats.specs.Next.{no_entry};

    ghost more = { no_entry };

    ghost doubts = { 0 };
}

/// From now on it is known where the history begins.
pub struct Names;

impl Outcome<Shown, Known> for Names {
    ghost use Rattle.escrow_stats.specs.Prefixes.{IsNamed};

    ghost then = { IsNamed };
}

/// The end that writes knows one more entry, and the last post is shown.
pub struct Publishes<N> {
    of: PhantomData<N>,
}

impl<N: Next> Outcome<Shown, Known> for Publishes<N> {
    ghost use Rattle.escrow_stats.specs.Prefixes.{IsPublished};

    ghost then = { IsPublished N.more N.doubts };
}

/// A watcher reads what is shown.
pub struct Reads<S> {
    of: Snapshot<S>,
}

impl<S: Alter> Outcome<Shown, Known> for Reads<S> {
    ghost use Rattle.escrow_stats.specs.Prefixes.{IsRead};

    ghost then = { IsRead S.Store };
}

/// The end that writes tells a new one where the history begins.
pub struct Introduces;

impl Split<Known> for Introduces {
    ghost use Rattle.escrow_stats.specs.Prefixes.{introduced};

    ghost left = { λ v. v };

    ghost right = { introduced };
}

impl Join<Known> for Introduces {
    ghost use Rattle.escrow_stats.specs.Prefixes.{acquainted, newcomer};

    ghost both = { acquainted };

    ghost spent = { newcomer };
}
