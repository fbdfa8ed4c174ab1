//! Judges for the rows of a table.
ghost use Rattle.std.specs.Prelude.{◌≡◌, ℤ, Option, List, length};
ghost use Rattle.escrow_num.specs.declared.refusal.Violation.{Violation as Broken};
ghost use Rattle.escrow_num.specs.declared.value.RowName.{RowName as HeldName};
ghost use Rattle.escrow_schema.specs.Column.{reservables};
ghost use Rattle.escrow_schema.specs.declared.table.TableDef.{TableDef as Table};

use escrow_num::{Amount, RowName, Violation};

/// Judges the rows of a table, one after another, by their amounts.
pub trait RowJudge {
    // The table whose rows are judged.
    ghost table: { Self → Table };

    // What the amounts of the row of a name break, if anything.
    ghost violation: { Self → HeldName → List ℤ → Option Broken };

    /// Returns what the amounts of the row of a name break, if anything. The row is of the table.
    /// Takes no memory.
    fn violation(&self, name: &RowName, amounts: &[Amount]) -> Option<Violation>
        requires table { name.now.table ≡ (table self.now).name }
        requires amounts { length amounts.now ≡ length (reservables (table self.now).columns) }
        ensures { result ≡ violation self.now name.now amounts.now };
}
