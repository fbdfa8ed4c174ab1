ghost use Rattle.std.specs.Prelude.{◌≡◌, IfOk, string_bytes};
ghost use Rattle.escrow_stats.specs.Text.{rendered_totals, outcomes_text, done_text};

use crate::tally::Tally;
use escrow_num::Session;
use std::alloc::{AllocError, Global};

impl Tally {
    /// Returns the lines that show the tally, each after the database and the session that it is
    /// for, and before a line feed.
    pub fn render(
        &self,
        alloc: Global,
        database: &str,
        session: Session,
    ) -> Result<Vec<u8>, AllocError>
        ensures { IfOk result (λ bytes. bytes.items ≡ rendered_totals database.now session self.now) }
    {
        let session = session.get();
        let prefix = format!(in alloc; "{database}.{session}> ")?;
        let outcomes = self.outcomes_text(alloc)?;
        let done = self.done_text(alloc)?;
        let lines = format!(in alloc; "{prefix}{outcomes}{done}\n{prefix}OK statistics\n")?;
        Ok(lines.into_bytes())
    }

    /// Returns the text of how many statements were served, granted a reservation, and refused.
    fn outcomes_text(&self, alloc: Global) -> Result<String, AllocError>
        ensures { IfOk result (λ text. string_bytes text ≡ outcomes_text self.now) }
    {
        let Tally {
            served,
            granted,
            broken,
            refused,
            ..
        } = *self;
        format!(in alloc; "served {served} granted {granted} broken {broken} refused {refused}")
    }

    /// Returns the text of how many ended a transaction, wrote, and showed something.
    fn done_text(&self, alloc: Global) -> Result<String, AllocError>
        ensures { IfOk result (λ text. string_bytes text ≡ done_text self.now) }
    {
        let Tally {
            commits,
            rollbacks,
            writes,
            queries,
            ..
        } = *self;
        format!(in alloc;
            " commits {commits} rollbacks {rollbacks} writes {writes} queries {queries}"
        )
    }
}
