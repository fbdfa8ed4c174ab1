ghost use Rattle.std.specs.Prelude.{◌≡◌, IfOk, false, map, string_bytes};
ghost use Rattle.std.specs.Char.{to_ascii_uppercase};
ghost use Rattle.escrow_num.specs.Name.{IsName};
ghost use Rattle.escrow_sql.specs.Scan.{undoubled};

use escrow_num::{Name, Text};
use std::alloc::{AllocError, Global};
use std::marker::Model;

/// A name as a statement writes it, in any case of its letters. Contracts see it in upper case.
#[derive(Debug, Drop)]
pub(crate) struct WrittenName<'a> {
    bytes: &'a [u8],
}

impl<'a> Model for WrittenName<'a> {
    ghost use Rattle.std.specs.Prelude.{List, ℕ, map};
    ghost use Rattle.std.specs.Char.{to_ascii_uppercase};
    ghost use Rattle.escrow_num.specs.Name.{IsName};

    ghost Value = { List ℕ };

    ghost view = { λ n. map to_ascii_uppercase n.bytes.now };

    ghost invariant = { λ n. IsName (map to_ascii_uppercase n.bytes.now) };
}

impl<'a> WrittenName<'a> {
    /// Returns the name that the bytes write.
    pub(crate) fn new(bytes: &'a [u8]) -> Self
        requires { IsName (map to_ascii_uppercase bytes.now) }
        ensures { result ≡ map to_ascii_uppercase bytes.now }
    {
        WrittenName { bytes }
    }

    /// Returns a copy of the name, which borrows from the text.
    pub(crate) fn copied(&self) -> Self
        ensures { result ≡ self.now }
    {
        WrittenName { bytes: self.bytes }
    }

    /// Returns the name itself.
    pub(crate) fn name(&self) -> Name
        ensures { result ≡ self.now }
    {
        Name::in_upper_case(self.bytes)
    }
}

/// Returns the text that is spelled like this between its quotes, with each quote in it doubled.
pub(crate) fn text_of(alloc: Global, raw: &str) -> Result<Text, AllocError>
    ensures { IfOk result (λ t. t ≡ undoubled false raw.now) }
{
    let copy = copy_undoubled(alloc, raw)?;
    Ok(Text::from_string(copy))
}

/// Returns a copy of the text with each doubled quote once.
fn copy_undoubled(alloc: Global, raw: &str) -> Result<String, AllocError>
    ensures { IfOk result (λ s. string_bytes s ≡ undoubled false raw.now) }
{
    let mut copy = String::new(alloc);
    let mut behind = false;
    for c in raw.chars() {
        if behind && c == '\'' {
            behind = false;
        } else {
            copy.push(c)?;
            behind = c == '\'';
        }
    }
    Ok(copy)
}
