use escrow_num::Session;
use escrow_statement::Statement;

/// What may happen to a database.
#[derive(Debug, Drop)]
pub enum Event {
    /// A session asks a statement.
    Statement {
        session: Session,
        statement: Statement,
    },
    /// The database is restarted.
    Restart,
}
