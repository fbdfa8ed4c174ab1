//! The names of checks.

ghost use Rattle.std.specs.Prelude.{◌≡◌, ◌≤◌, ◌++◌, if◌then◌else◌, codes, ℕ, List, Some, None};
ghost use Rattle.std.specs.Fmt.{decimal};
ghost use Rattle.escrow_checks.specs.Checks.{check_name};
ghost use Rattle.escrow_checks.specs.WrittenName.{is_written_name};

use super::MAX_CHECKS;
use escrow_num::Name;
use escrow_statement::Word;

/// Returns the name of a CHECK's condition, which is the `k`-th of the CHECK and the `n`-th of the
/// table. Returns `None` if no statement can write this name.
pub(super) fn name_of(name: Option<Name>, k: usize, n: usize) -> Option<Name>
    requires in_check { k ≤ MAX_CHECKS }
    requires in_table { n ≤ MAX_CHECKS }
    ensures { let name = check_name name k n in
        result ≡ (if is_written_name name then Some name else None) }
{
    match name {
        Some(name) => {
            if k == 1 {
                written(name)
            } else {
                numbered(name.as_bytes(), k)
            }
        }
        None => numbered(b"CHECK", n),
    }
}

/// Returns the name, if a statement can write it.
fn written(name: Name) -> Option<Name>
    ensures { result ≡ (if is_written_name name then Some name else None) }
{
    if is_written_name(&name) {
        Some(name)
    } else {
        None
    }
}

/// Returns a text followed by `_` and a number, as a name that a statement can write.
fn numbered(text: &[u8], number: usize) -> Option<Name>
    requires { number ≤ MAX_CHECKS }
    ensures { let name = text.now ++ codes "_" ++ decimal number in
        result ≡ (if is_written_name name then Some name else None) }
{
    let ones = b'0' + (number % 10) as u8;
    if number < 10 {
        joined(text, &[b'_', ones])
    } else {
        let tens = b'0' + (number / 10) as u8;
        joined(text, &[b'_', tens, ones])
    }
}

/// Returns one text followed by another, as a name that a statement can write.
fn joined(front: &[u8], back: &[u8]) -> Option<Name>
    ensures { let name = front.now ++ back.now in
        result ≡ (if is_written_name name then Some name else None) }
{
    let mut text = [0; Name::MAX_WRITTEN];
    if text.len() < front.len() || text.len() - front.len() < back.len() {
        return None;
    }
    let len = front.len() + back.len();
    text[..front.len()].copy_from_slice(front);
    text[front.len()..len].copy_from_slice(back);
    written(Name::new(&text[..len])?)
}

/// Returns whether a statement can write the name: it has at most [`Name::MAX_WRITTEN`] bytes, and
/// is no reserved word. A name is spelled as one.
#[tactic(auto, unfolding(crate::specs::WrittenName::is_written_name))]
pub fn is_written_name(name: &Name) -> bool
    ensures { result ≡ is_written_name name.now }
{
    let text = name.as_bytes();
    text.len() <= Name::MAX_WRITTEN && Word::of(text).is_none()
}
