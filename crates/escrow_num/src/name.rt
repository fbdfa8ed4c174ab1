ghost use Rattle.std.specs.Prelude.{◌≡◌, SomeIff, Some, refl, bytes_eq, map};
ghost use Rattle.std.specs.Char.{to_ascii_uppercase};
ghost use Rattle.std.proofs.Common.{rules};
ghost use Rattle.std.specs.Hash as fed;
ghost use Rattle.std.specs.Ordering.{nat_cmp};
ghost use Rattle.std.specs.Cmp.{partial_equiv_from_equiv};
ghost use Rattle.std.specs.Cmp.Rules.{hashing};
ghost use Rattle.std.specs.Cmp.Lexicographic.{slice_cmp, nat_list_eq_equiv, nat_list_cmp_total, texts_ties, texts_po};
ghost use Rattle.std.specs.List.{list_all};
ghost use Rattle.escrow_num.specs.Name.{IsName, is_name_byte, spells_name};

use std::cmp::Ordering;
use std::fmt;
use std::hash::{Hash, Hasher};
use std::marker::Model;

/// A name of a table, a column or a check, in upper case. It begins with a letter A to Z, and
/// continues with letters A to Z, digits, `_`, `$` and `#`. It has at most 36 bytes, and is held in
/// place, so a copy takes no memory. A name that a statement writes has at most 30 bytes. The check
/// of a RESERVABLE column's range is named `RANGE_` and the column, which takes up to 36.
#[derive(Clone, Copy)]
pub struct Name {
    bytes: [u8; 36],
    len: usize,
}

impl Model for Name {
    ghost use Rattle.std.specs.Prelude.{List, ℕ, ◌≡◌, ◌-◌, ◌≤◌, take, length};
    ghost use Rattle.escrow_num.specs.Name.{IsName};
    ghost use Rattle.escrow_num.specs.Padded.{padded};
    ghost use Rattle.escrow_num.specs.declared.name.TheConstants.Name.{MAX_LEN};

    ghost Value = { List ℕ };

    ghost view = { λ n. take n.len n.bytes };

    ghost invariant = { λ n. IsName (take n.len n.bytes) × (n.len ≤ MAX_LEN)
        × (n.bytes ≡ padded (take n.len n.bytes)) };

    ghost inverse = { λ name. record { bytes = padded name; len = length name } };

    ghost use Rattle.std.proofs.Common.{sym, ap₂};
    ghost use Rattle.escrow_num.specs.Padded.{length-held};

    ghost inverse_ok = { λ n h.
        ap₂ (λ (b : List ℕ) (l : ℕ). record { bytes = b; len = l }) (sym h.2)
        (length-held n.bytes n.len h.1 h.0.short h.2) };
}

impl Name {
    /// The most bytes of a name.
    pub const MAX_LEN: usize = 36;

    /// The most bytes of a name that a statement writes.
    pub const MAX_WRITTEN: usize = 30;

    /// Returns the name of these bytes, or `None` if they spell none.
    pub fn new(text: &[u8]) -> Option<Self>
        ensures { SomeIff result (IsName text.now) text.now }
    {
        if !spells_name(text) || Self::MAX_LEN < text.len() {
            return None;
        }
        Some(Self::in_upper_case(text))
    }

    /// Returns the name that the bytes write, in upper or lower case.
    pub fn in_upper_case(text: &[u8]) -> Self
        requires { IsName (map to_ascii_uppercase text.now) }
        ensures { result ≡ map to_ascii_uppercase text.now }
    {
        let mut bytes = [0; 36];
        for (i, byte) in text.iter().enumerate() {
            bytes[i] = byte.to_ascii_uppercase();
        }
        Name {
            bytes,
            len: text.len(),
        }
    }

    /// Returns some name, for a place that has none yet.
    pub(crate) fn blank() -> Self {
        let mut bytes = [0; 36];
        bytes[0] = b'A';
        Name { bytes, len: 1 }
    }

    /// Returns the bytes of the name.
    pub fn as_bytes(&self) -> &[u8]
        ensures value { result.now ≡ self.now }
        ensures within { IsName result.now }
    {
        &self.bytes[..self.len]
    }

    /// Returns the name's text.
    pub fn as_str(&self) -> &str
        ensures { result.now ≡ self.now }
    {
        match str::from_utf8(self.as_bytes()) {
            Ok(text) => text,
            Err(_) => unreachable!(),
        }
    }
}

/// Returns whether bytes spell a name: a letter A to Z, then letters A to Z, digits, `_`, `$` and
/// `#`.
fn spells_name(text: &[u8]) -> bool
    ensures { result ≡ spells_name text.now }
{
    match text {
        [] => false,
        [first, rest @ ..] => first.is_ascii_uppercase() && are_name_bytes(rest),
    }
}

/// Returns whether each of the bytes may follow a name's first letter.
fn are_name_bytes(bytes: &[u8]) -> bool
    ensures { result ≡ list_all is_name_byte bytes.now }
{
    bytes.iter().all(|byte| is_name_byte(*byte))
}

/// Returns whether the byte may follow a name's first letter.
fn is_name_byte(byte: u8) -> bool
    ensures { result ≡ is_name_byte byte }
{
    byte.is_ascii_uppercase()
        || byte.is_ascii_digit()
        || byte == b'_'
        || byte == b'$'
        || byte == b'#'
}

impl PartialEq for Name {
    ghost eq = { bytes_eq };

    ghost laws = { partial_equiv_from_equiv nat_list_eq_equiv };

    fn eq(&self, other: &Self) -> bool {
        self.as_bytes() == other.as_bytes()
    }
}

impl Eq for Name {
    ghost laws = { nat_list_eq_equiv };
}

/// A name is hashed as its text is: its bytes, then a byte that no text has.
impl Hash for Name {
    ghost hash_input = { fed.str };

    ghost respects_eq = { Prim.search (hashing, rules) };

    fn hash<H: Hasher>(&self, state: &mut H) {
        state.write(self.as_bytes());
        state.write_u8(0xff);
    }
}

/// Names are ordered by their bytes.
impl PartialOrd for Name {
    ghost partial_cmp = { λ a b. Some (slice_cmp nat_cmp a b) };

    ghost laws = { texts_po };

    fn partial_cmp(&self, other: &Self) -> Option<Ordering> {
        Some(self.cmp(other))
    }
}

impl Ord for Name {
    ghost cmp = { slice_cmp nat_cmp };

    ghost total = { nat_list_cmp_total };

    ghost matches_partial_cmp = { λ a b. refl };

    ghost matches_eq = { texts_ties };

    fn cmp(&self, other: &Self) -> Ordering {
        self.as_bytes().cmp(other.as_bytes())
    }
}

/// Writes the name's text.
impl fmt::Display for Name {
    ghost use Rattle.std.specs.Prelude.{Some};

    ghost output = { λ name. Some name };

    fn fmt<W: fmt::Write>(&self, f: &mut fmt::Formatter<W>) -> fmt::Result {
        fmt::Display::fmt(self.as_str(), f)
    }
}

/// Writes the name's text in quotes.
impl fmt::Debug for Name {
    fn fmt<W: fmt::Write>(&self, f: &mut fmt::Formatter<W>) -> fmt::Result {
        fmt::Debug::fmt(self.as_str(), f)
    }
}
