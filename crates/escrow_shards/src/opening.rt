use escrow_core::Database;
use escrow_transcript::Base;
use sqlite::Alter;
use std::marker::Model;
use std::snapshot::Snapshot;

/// The opening of a database that threads share: the base where its history begins. For contracts
/// only, it remembers the database as it was then.
#[derive(Drop)]
pub struct Opening<S: Alter> {
    base: Base,
    // The database as it was. It takes no bytes.
    was: Snapshot<Database<S>>,
}

impl<S: Alter> Model for Opening<S> {
    ghost use Rattle.escrow_shards.specs.Opening.{Opening, opening_code, IsOpening};

    ghost Value = { Opening S };

    ghost coded = { opening_code S.code };

    ghost view = { λ o. record { base = o.base; store = o.was.value.store; state = o.was.value.state } };

    ghost invariant = { λ o. IsOpening S.Store
        (record { base = o.base; store = o.was.value.store; state = o.was.value.state }) };
}

impl<S: Alter> Opening<S> {
    ghost use Rattle.std.specs.Prelude.{◌≡◌};
    ghost use Rattle.sqlite.specs.Held.{state};
    ghost use Rattle.sqlite.specs.State.{HasCleanDisk};
    ghost use Rattle.escrow_transcript.specs.Image.{started};
    ghost use Rattle.escrow_shards.specs.Opening.{IsOpening};

    /// Returns the opening of a database as it is, at a base.
    pub(crate) fn new(base: Base, database: &Database<S>) -> Self
        requires first { base.before ≡ 0 }
        requires whole { HasCleanDisk (state S.Store database.now.store) → database.now.state ≡ started base.image }
        ensures { result ≡ record { base = base; store = database.now.store; state = database.now.state } }
    {
        Opening {
            base,
            was: Snapshot::of(database),
        }
    }

    /// Returns the base where the history of the database begins. If the disk returned what was
    /// written, the base is the whole state of the database.
    pub fn base(&self) -> &Base
        ensures base { result.now ≡ self.now.base }
        ensures begun { IsOpening S.Store self.now }
    {
        &self.base
    }
}
