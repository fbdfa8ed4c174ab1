ghost use Rattle.std.specs.Prelude.{◌≤◌};
ghost use Rattle.escrow_serve.specs.Task.{IsTask};

use escrow_num::{Refusal, Session};
use escrow_script::{Line, MAX_DATABASES, classify, fault_refusal};
use escrow_sql::{Request, Statement, parse};
use std::alloc::Global;

/// What a line asks, once its text is parsed.
#[derive(Drop)]
pub(crate) enum Task {
    /// It asks nothing, and has no reply.
    Nothing,
    /// It is no line of a script, and is refused.
    NoLine,
    /// A database is to be restarted.
    Restart {
        /// The place of the database, from 0.
        database: usize,
    },
    /// A text that no database serves is refused.
    Refuse {
        database: usize,
        session: Session,
        refusal: Refusal,
    },
    /// A statement is to be served.
    Statement {
        database: usize,
        session: Session,
        statement: Statement,
    },
    /// The totals of the session are to be shown.
    Statistics {
        database: usize,
        session: Session,
    },
}

/// Parses a line, with this many databases and sessions.
pub(crate) fn read_task(alloc: Global, databases: usize, sessions: u16, line: &[u8]) -> Task
    requires { databases ≤ MAX_DATABASES }
    ensures { IsTask sessions databases line.now result }
{
    match classify(databases, sessions, line) {
        Line::Nothing | Line::Join => Task::Nothing,
        Line::NoLine => Task::NoLine,
        Line::Restart { database } => Task::Restart { database },
        Line::Statement {
            database,
            session,
            text,
        } => match parse(alloc, text) {
            Ok(Request::Statement(statement)) => Task::Statement {
                database,
                session,
                statement,
            },
            Ok(Request::Statistics) => Task::Statistics { database, session },
            Err(fault) => Task::Refuse {
                database,
                session,
                refusal: fault_refusal(fault),
            },
        },
    }
}
