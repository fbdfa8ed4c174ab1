use crate::column::Column;
use crate::table::TableDef;
use escrow_num::{Copied, are_same, copy_all};
use std::alloc::{AllocError, Global};

impl Copied for Column {
    fn copy(&self, _: Global) -> Result<Column, AllocError> {
        Ok(*self)
    }

    fn is_same(&self, other: &Column) -> bool {
        *self == *other
    }
}

impl Copied for TableDef {
    fn copy(&self, alloc: Global) -> Result<TableDef, AllocError> {
        Ok(TableDef {
            name: self.name,
            columns: copy_all(alloc, self.columns.as_slice())?,
            key: self.key,
            checks: copy_all(alloc, self.checks.as_slice())?,
        })
    }

    fn is_same(&self, other: &TableDef) -> bool {
        self.name == other.name
            && are_same(self.columns.as_slice(), other.columns.as_slice())
            && self.key == other.key
            && are_same(self.checks.as_slice(), other.checks.as_slice())
    }
}
