ghost use Rattle.std.specs.Prelude.{◌≡◌, ℕ, List, ◌∷◌, bytes_eq, map, Some};
ghost use Rattle.std.specs.Char.{to_ascii_uppercase};

use crate::words::WORDS;

/// A reserved word. No name may be one, in upper or lower case.
#[derive(Clone, Copy, Debug, PartialEq, Eq)]
pub enum Word {
    /// `ADD`
    Add,
    /// `ALTER`
    Alter,
    /// `AND`
    And,
    /// `BETWEEN`
    Between,
    /// `BOUNDS`
    Bounds,
    /// `CHECK`
    Check,
    /// `COMMIT`
    Commit,
    /// `CONSTRAINT`
    Constraint,
    /// `CREATE`
    Create,
    /// `DELETE`
    Delete,
    /// `DROP`
    Drop,
    /// `FROM`
    From,
    /// `INSERT`
    Insert,
    /// `INTEGER`
    Integer,
    /// `INTO`
    Into,
    /// `JOURNAL`
    Journal,
    /// `KEY`
    Key,
    /// `NOT`
    Not,
    /// `NULL`
    Null,
    /// `NUMBER`
    Number,
    /// `PRIMARY`
    Primary,
    /// `RESERVABLE`
    Reservable,
    /// `ROLLBACK`
    Rollback,
    /// `SAVEPOINT`
    Savepoint,
    /// `SELECT`
    Select,
    /// `SET`
    Set,
    /// `SHOW`
    Show,
    /// `STATISTICS`
    Statistics,
    /// `TABLE`
    Table,
    /// `TO`
    To,
    /// `UPDATE`
    Update,
    /// `VALUES`
    Values,
    /// `VARCHAR2`
    Varchar2,
    /// `WHERE`
    Where,
    /// `WORK`
    Work,
}

/// The number of each reserved word in [`WORDS`], at the place that [`Word::candidate`] computes.
/// Every other place has the number after the last.
const NUMBERS: [u8; 128] = [
    35, 35, 35, 35, 35, 35, 35, 35, 35, 18, 35, 19, 35, 20, 35, 22, 33, 35, 35, 29, 0, 35, 35, 35,
    35, 35, 35, 35, 35, 35, 35, 30, 3, 35, 35, 35, 34, 27, 35, 35, 35, 9, 35, 35, 5, 35, 1, 35, 35,
    35, 2, 35, 35, 35, 35, 35, 35, 35, 35, 35, 35, 4, 35, 35, 35, 35, 6, 35, 35, 35, 7, 35, 35, 16,
    35, 8, 35, 35, 10, 35, 35, 35, 35, 35, 35, 35, 35, 35, 11, 35, 35, 14, 35, 12, 13, 35, 35, 35,
    35, 35, 35, 35, 15, 35, 35, 35, 35, 23, 28, 35, 35, 35, 35, 25, 35, 21, 24, 35, 17, 31, 35, 32,
    35, 26, 35, 35, 35, 35,
];

impl Word {
    ghost use Rattle.escrow_statement.specs.Word.{spelling, reserved};
    ghost use Rattle.escrow_statement.specs.WordNumber.{number_of};

    /// Returns the word as it is spelled, in upper case.
    pub fn spelling(self) -> &'static str
        ensures { result.now ≡ spelling self }
    {
        match self {
            Word::Add => "ADD",
            Word::Alter => "ALTER",
            Word::And => "AND",
            Word::Between => "BETWEEN",
            Word::Bounds => "BOUNDS",
            Word::Check => "CHECK",
            Word::Commit => "COMMIT",
            Word::Constraint => "CONSTRAINT",
            Word::Create => "CREATE",
            Word::Delete => "DELETE",
            Word::Drop => "DROP",
            Word::From => "FROM",
            Word::Insert => "INSERT",
            Word::Integer => "INTEGER",
            Word::Into => "INTO",
            Word::Journal => "JOURNAL",
            Word::Key => "KEY",
            Word::Not => "NOT",
            Word::Null => "NULL",
            Word::Number => "NUMBER",
            Word::Primary => "PRIMARY",
            Word::Reservable => "RESERVABLE",
            Word::Rollback => "ROLLBACK",
            Word::Savepoint => "SAVEPOINT",
            Word::Select => "SELECT",
            Word::Set => "SET",
            Word::Show => "SHOW",
            Word::Statistics => "STATISTICS",
            Word::Table => "TABLE",
            Word::To => "TO",
            Word::Update => "UPDATE",
            Word::Values => "VALUES",
            Word::Varchar2 => "VARCHAR2",
            Word::Where => "WHERE",
            Word::Work => "WORK",
        }
    }

    /// Returns the word's place in alphabetical order, from 0.
    pub fn number(self) -> u8
        ensures { result ≡ number_of self }
    {
        self as u8
    }

    /// Returns the only reserved word that the bytes can be, in upper or lower case: the one whose
    /// first two letters and length lead to the same place. Modulo 32, a letter's case doesn't
    /// count.
    fn candidate(text: &[u8]) -> Option<Self>
        ensures { (w : Word) → map to_ascii_uppercase text.now ≡ spelling w → result ≡ Some w }
    {
        let [first, second, ..] = text else {
            return None;
        };
        let first = usize::from(*first % 32);
        let second = usize::from(*second % 32);
        let place = (5 * first + 3 * second + text.len()) % NUMBERS.len();
        let number = usize::from(NUMBERS[place]);
        if number < WORDS.len() {
            Some(WORDS[number])
        } else {
            None
        }
    }

    /// Returns whether the bytes write the word, in upper or lower case.
    #[tactic(auto, using(crate::proofs::AnyCase::is_another))]
    fn is_written(self, text: &[u8]) -> bool
        ensures { result ≡ bytes_eq (spelling self) (map to_ascii_uppercase text.now) }
    {
        let spelling = self.spelling().as_bytes();
        if spelling.len() != text.len() {
            return false;
        }
        spelling == text || spelling.eq_ignore_ascii_case(text)
    }

    /// Returns the reserved word that the bytes write, in upper or lower case, if they write one.
    pub fn written(text: &[u8]) -> Option<Self>
        ensures { result ≡ reserved (map to_ascii_uppercase text.now) }
    {
        let word = Self::candidate(text)?;
        if word.is_written(text) {
            Some(word)
        } else {
            None
        }
    }

    /// Returns the reserved word that the bytes spell in upper case, if they spell one.
    pub fn of(text: &[u8]) -> Option<Self>
        ensures { result ≡ reserved text.now }
    {
        let word = Self::candidate(text)?;
        if word.spelling().as_bytes() == text {
            Some(word)
        } else {
            None
        }
    }
}
