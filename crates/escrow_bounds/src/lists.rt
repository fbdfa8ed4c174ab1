//! The checks of tables, each list once.
ghost use Rattle.std.specs.Prelude.{◌≡◌, IfOk, IfSome};

use escrow_checks::Check;
use escrow_num::{Name, Seq, are_same, copy_all};
use indexmap::IndexMap;
use std::alloc::{AllocError, Global};
use std::sync::Arc;

/// Lists of checks, which the places of a table's rows share: for each table the one that was used
/// last.
#[derive(Debug)]
pub(crate) struct Lists {
    lists: IndexMap<Name, Arc<Seq<Check>>>,
}

// Written out, so that crates above need not prove again how its parts are dropped.
impl Drop for Lists {
    fn drop(self) {
        let Lists { lists: _ } = self;
    }
}

impl Lists {
    /// The most lists that are kept. Then all are forgotten; places keep their own.
    const MAX_LISTS: usize = 64;

    /// Returns one without a list. Takes no memory.
    pub(crate) fn new(alloc: Global) -> Self {
        Lists {
            lists: IndexMap::new(alloc),
        }
    }

    /// Returns the list of these checks, which are those of a table. Fails only if memory is
    /// refused.
    pub(crate) fn share(
        &mut self,
        table: Name,
        checks: &[Check],
    ) -> Result<Arc<Seq<Check>>, AllocError>
        ensures { IfOk result (λ list. list.value ≡ checks.now) }
    {
        if let Some(list) = self.find(table, checks) {
            return Ok(list.clone()?);
        }
        let alloc = *self.lists.allocator();
        let list = Arc::new(alloc, copy_all(alloc, checks)?)?;
        self.keep(table, list.clone()?)?;
        Ok(list)
    }

    /// Returns the list of a table, if it is of these checks.
    fn find(&self, table: Name, checks: &[Check]) -> Option<&Arc<Seq<Check>>>
        ensures { IfSome result (λ list. list.now.value ≡ checks.now) }
    {
        let list = self.lists.get(&table)?;
        if are_same(list.as_slice(), checks) {
            Some(list)
        } else {
            None
        }
    }

    /// Keeps the list of a table.
    fn keep(&mut self, table: Name, list: Arc<Seq<Check>>) -> Result<(), AllocError> {
        if self.lists.len() >= Lists::MAX_LISTS {
            self.lists.clear();
        }
        self.lists.insert_full(table, list)?;
        Ok(())
    }
}
