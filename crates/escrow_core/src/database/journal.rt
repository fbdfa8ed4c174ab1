ghost use Rattle.std.specs.Prelude.{◌≡◌, ◌++◌, ◌∷◌, [], IfOk, OnOk, map};
ghost use Rattle.escrow_machine.specs.Journal.{entry_of, of_table};

use crate::database::{Answer, Database};
use escrow_machine::{JournalEntry, Reply};
use escrow_num::{Name, Refusal, Reservation, Seq};
use escrow_reserved::{Reserved, journal_entry};
use escrow_statement::Statement;
use escrow_tables::Tables;
use sqlite::Alter;
use std::alloc::{AllocError, Global};

impl<S: Alter> Database<S> {
    ghost use Rattle.std.specs.Prelude.{ℕ, ◌≡◌};
    ghost use Rattle.escrow_core.specs.Serving.{Answers, is_known};

    /// SHOW JOURNAL: returns the open reservations of all sessions, or those of the rows of a
    /// table, in order of id. Nothing changes, and the store isn't asked.
    pub(crate) fn show_journal(&self, alloc: Global, table: Option<Name>) -> Answer
        ensures { (session : ℕ) → Answers S.Store session (Statement.ShowJournal table) self.now result self.now }
    {
        if !self.is_known(&table) {
            return Err(Refusal::NoSuchTable);
        }
        let entries = journal_entries(alloc, &self.tables, &self.reserved, table)?;
        Ok(Reply::Journal(entries))
    }

    /// Returns whether the named table exists, or true if none is named.
    fn is_known(&self, table: &Option<Name>) -> bool
        ensures { result ≡ is_known self.now.state table.now }
    {
        match table {
            Some(name) => self.tables.find(*name).is_some(),
            None => true,
        }
    }
}

/// Returns the open reservations of all sessions as they are shown, or those of the rows of a
/// table, in order of id. Fails only if memory is refused.
fn journal_entries<S: Alter>(
    alloc: Global,
    tables: &Tables<S>,
    reserved: &Reserved,
    table: Option<Name>,
) -> Result<Seq<JournalEntry>, AllocError>
    ensures { IfOk result (λ entries.
        entries ≡ map (entry_of tables.now.catalog) (of_table table reserved.now.txns.reservations)) }
{
    let mut entries = Seq::new(alloc);
    for r in &reserved.txns().all_in_order(alloc)? {
        push_entry(alloc, &mut entries, tables, table, *r)?;
    }
    Ok(entries)
}

/// Adds a reservation as it is shown, if it is shown: if a table is named, it must be of a row of
/// this table.
fn push_entry<S: Alter>(
    alloc: Global,
    entries: &mut Seq<JournalEntry>,
    tables: &Tables<S>,
    table: Option<Name>,
    r: &Reservation,
) -> Result<(), AllocError>
    ensures { OnOk result (entries.new ≡ entries.old
        ++ map (entry_of tables.now.catalog) (of_table table (r.now ∷ []))) }
{
    if table.is_none_or(|name| r.row.table == name) {
        entries.push(journal_entry(alloc, tables.find(r.row.table), r)?)?;
    }
    Ok(())
}
