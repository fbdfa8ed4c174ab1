ghost use Rattle.std.specs.Prelude.{◌≡◌, true, slice_index};
ghost use Rattle.std.specs.Char.{is_ascii_alphabetic};
ghost use Rattle.std.specs.List.{prefix_len};
ghost use Rattle.escrow_sql.specs.Lex.{goes_on, name_piece};
ghost use Rattle.escrow_sql.specs.Lexeme.{piece_of_scan};

use crate::lexeme::Sort;
use crate::lexer::scan::Scan;
use crate::token::Kind;
use escrow_num::Name;
use escrow_statement::Word;

/// For each byte, whether a name may continue with it.
const GOES_ON: [bool; 256] = [
    false, false, false, false, false, false, false, false, false, false, false, false, false,
    false, false, false, false, false, false, false, false, false, false, false, false, false,
    false, false, false, false, false, false, false, false, false, true, true, false, false, false,
    false, false, false, false, false, false, false, false, true, true, true, true, true, true,
    true, true, true, true, false, false, false, false, false, false, false, true, true, true,
    true, true, true, true, true, true, true, true, true, true, true, true, true, true, true, true,
    true, true, true, true, true, true, true, false, false, false, false, true, false, true, true,
    true, true, true, true, true, true, true, true, true, true, true, true, true, true, true, true,
    true, true, true, true, true, true, true, true, false, false, false, false, false, false,
    false, false, false, false, false, false, false, false, false, false, false, false, false,
    false, false, false, false, false, false, false, false, false, false, false, false, false,
    false, false, false, false, false, false, false, false, false, false, false, false, false,
    false, false, false, false, false, false, false, false, false, false, false, false, false,
    false, false, false, false, false, false, false, false, false, false, false, false, false,
    false, false, false, false, false, false, false, false, false, false, false, false, false,
    false, false, false, false, false, false, false, false, false, false, false, false, false,
    false, false, false, false, false, false, false, false, false, false, false, false, false,
    false, false, false, false, false, false, false, false, false, false, false, false, false,
    false, false, false, false, false, false, false, false, false, false,
];

/// Returns whether a name may continue with the byte.
fn goes_on(byte: u8) -> bool
    ensures { result ≡ goes_on byte }
{
    GOES_ON[usize::from(byte)]
}

/// Returns how many bytes at the front may continue a name.
fn name_len(bytes: &[u8]) -> usize
    ensures { result ≡ prefix_len goes_on bytes.now }
{
    bytes.iter().take_while(|byte| goes_on(**byte)).count()
}

/// Returns the reserved word or the name at the front of the bytes, the first of which is a letter.
#[tactic(auto, unfolding(crate::specs::Lex::name_piece))]
pub(super) fn read_name(bytes: &[u8]) -> Scan<'_>
    requires { is_ascii_alphabetic (slice_index bytes.now 0) ≡ true }
    ensures { piece_of_scan result ≡ name_piece bytes.now }
{
    let len = name_len(bytes);
    if Name::MAX_WRITTEN < len {
        return Scan::Fault(0);
    }
    let written = &bytes[..len];
    let sort = match Word::written(written) {
        Some(word) => Sort::bare(&Kind::Word(word)),
        None => Sort::name(written),
    };
    Scan::Lexeme(sort, len)
}
