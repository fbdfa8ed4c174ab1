//! What the lines of a phase print, and what they ask.
ghost use Rattle.std.specs.Prelude.{◌≡◌, ◌≤◌, ◌<◌, OnOk};
ghost use Rattle.escrow_num.specs.declared.session.TheConstants.Session.{MAX_SHARED};

use crate::outbox::outbox_of;
use escrow_num::Session;
use escrow_script::{Line, MAX_DATABASES, classify};
use escrow_sql::{ParseFault, Request, parse};
use std::alloc::{AllocError, Global};

/// What is printed for a line.
#[derive(Clone, Copy, Debug)]
pub(crate) enum Planned {
    /// The refusal of what is no line.
    NoLine,
    /// The refusal of its text.
    Refused {
        /// The place of the database, from 0.
        database: usize,
        /// The session that asks.
        session: Session,
        /// The fault in the text.
        fault: ParseFault,
    },
    /// The next answer of its session.
    Asked {
        /// The place of the database, from 0.
        database: usize,
        /// The session that asks.
        session: Session,
    },
    /// The totals of its session.
    Totals {
        /// The place of the database, from 0.
        database: usize,
        /// The session that asks.
        session: Session,
    },
}

/// The plan of lines: what is printed, for each line that prints something; and the statements to
/// serve, each with the place of its session's outbox. Both are in the order of the lines.
#[derive(Drop)]
pub(crate) struct Plan {
    pub(crate) lines: Vec<Planned>,
    pub(crate) items: Vec<(usize, Request)>,
}

impl Plan {
    ghost use Rattle.std.specs.Prelude.{◌≡◌, ◌≤◌, ◌<◌, [], OnOk};
    ghost use Rattle.escrow_free.specs.Adding.{Adds, AddsText};

    /// Returns the plan of no lines.
    pub(crate) fn new(alloc: Global) -> Self
        ensures lines { result.lines.items ≡ [] }
        ensures items { result.items.items ≡ [] }
    {
        Plan {
            lines: Vec::new(alloc),
            items: Vec::new(alloc),
        }
    }

    /// Adds a line of a script, with this many databases, and returns whether it ends the phase.
    /// Fails only if memory is refused.
    pub(crate) fn add(
        &mut self,
        alloc: Global,
        databases: usize,
        line: &[u8],
    ) -> Result<bool, AllocError>
        requires { databases ≤ MAX_DATABASES }
        ensures { OnOk result (Adds databases line.now self.old self.new) }
    {
        match classify(databases, Session::MAX_SHARED, line) {
            Line::Nothing => Ok(false),
            Line::Join => Ok(true),
            Line::NoLine | Line::Restart { .. } => {
                self.lines.push(Planned::NoLine)?;
                Ok(false)
            }
            Line::Statement {
                database,
                session,
                text,
            } => {
                self.add_text(alloc, database, session, text)?;
                Ok(false)
            }
        }
    }

    /// Adds the text of a session. Fails only if memory is refused.
    fn add_text(
        &mut self,
        alloc: Global,
        database: usize,
        session: Session,
        text: &str,
    ) -> Result<(), AllocError>
        requires few { database < MAX_DATABASES }
        requires shared { session ≤ MAX_SHARED }
        ensures { OnOk result (AddsText database session text.now self.old self.new) }
    {
        match parse(alloc, text) {
            Ok(Request::Statement(statement)) => {
                let place = outbox_of(database, session);
                self.items.push((place, Request::Statement(statement)))?;
                self.lines.push(Planned::Asked { database, session })?;
            }
            Ok(Request::Statistics) => self.lines.push(Planned::Totals { database, session })?,
            Err(fault) => self.lines.push(Planned::Refused {
                database,
                session,
                fault,
            })?,
        }
        Ok(())
    }
}
