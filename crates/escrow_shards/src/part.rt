use escrow_history::Audited;
use escrow_transcript::{Base, Entry, Transcript};
use sqlite::Alter;
use std::marker::Model;
use std::snapshot::Snapshot;

/// A part of the history of a database: what was served from its base to its end. For contracts
/// only, it remembers the store as it was when the part was handed out.
#[derive(Drop)]
pub struct Part<S: Alter> {
    database: usize,
    number: u64,
    transcript: Transcript,
    end: Base,
    // The database as it was when the part was handed out. It takes no bytes.
    was: Snapshot<Audited<S>>,
}

impl<S: Alter> Model for Part<S> {
    ghost use Rattle.escrow_shards.specs.Part.{Part, part_code, IsSound};

    ghost Value = { Part S };

    ghost coded = { part_code S.code };

    ghost view = { λ p. record {
      database = p.database;
      number = p.number;
      base = p.transcript.base;
      entries = p.transcript.entries;
      end = p.end;
      store = p.was.value.store;
    } };

    ghost invariant = { λ p. IsSound S.Store
        (record {
          database = p.database;
          number = p.number;
          base = p.transcript.base;
          entries = p.transcript.entries;
          end = p.end;
          store = p.was.value.store;
        }) };
}

impl<S: Alter> Part<S> {
    ghost use Rattle.std.specs.Prelude.{◌≡◌, ◌↔◌, ◌+◌, ◌==◌, length, IsTrue};
    ghost use Rattle.sqlite.specs.Held.{state};
    ghost use Rattle.sqlite.specs.State.{HasCleanDisk};
    ghost use Rattle.escrow_transcript.specs.Image.{started};
    ghost use Rattle.escrow_transcript.specs.Legal.{IsLegal};
    ghost use Rattle.escrow_shards.specs.Part.{IsSound};

    /// Returns a part that was just handed out of a database.
    pub(crate) fn new(
        database: usize,
        number: u64,
        transcript: Transcript,
        end: Base,
        from: &Audited<S>,
    ) -> Self
        requires legal { HasCleanDisk (state S.Store from.now.store)
            → IsLegal transcript.base transcript.entries (started end.image) }
        requires counts { end.before ≡ transcript.base.before + length transcript.entries }
        ensures { result ≡ record {
          database = database;
          number = number;
          base = transcript.base;
          entries = transcript.entries;
          end = end;
          store = from.now.store;
        } }
    {
        Part {
            database,
            number,
            transcript,
            end,
            was: Snapshot::of(from),
        }
    }

    /// Returns the database of the part, counted from 0. If the disk returned what was written
    /// until the part was handed out, the transcript of the part is legal.
    pub fn database(&self) -> usize
        ensures database { result ≡ self.now.database }
        ensures sound { IsSound S.Store self.now }
    {
        self.database
    }

    /// Returns its number among the parts of its database, from 1.
    pub fn number(&self) -> u64
        ensures { result ≡ self.now.number }
    {
        self.number
    }

    /// Returns the base where it begins.
    pub fn base(&self) -> &Base
        ensures { result.now ≡ self.now.base }
    {
        &self.transcript.base
    }

    /// Returns its entries, in order.
    pub fn entries(&self) -> &[Entry]
        ensures { result.now ≡ self.now.entries }
    {
        self.transcript.entries.as_slice()
    }

    /// Returns the base where it ends.
    pub fn end(&self) -> &Base
        ensures { result.now ≡ self.now.end }
    {
        &self.end
    }

    /// Returns its transcript, and the base where it ends.
    pub fn into_parts(self) -> (Transcript, Base)
        ensures base { result.0.base ≡ self.base }
        ensures entries { result.0.entries ≡ self.entries }
        ensures end { result.1 ≡ self.end }
    {
        (self.transcript, self.end)
    }

    /// Returns whether it is of a database.
    pub(crate) fn is_of(&self, database: usize) -> bool
        ensures { result ≡ (self.now.database == database) }
    {
        self.database == database
    }

    /// Returns whether it comes right after a part with this number that ends at this base.
    pub(crate) fn is_next(&self, number: u64, base: &Base) -> bool
        ensures sound { IsSound S.Store self.now }
        ensures next { IsTrue result ↔ ((self.now.number ≡ number + 1) × (self.now.base ≡ base.now)) }
    {
        number < self.number && self.number - 1 == number && self.transcript.base.is_same(base)
    }
}
