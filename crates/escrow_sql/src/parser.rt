ghost use Rattle.std.specs.Prelude.{◌≡◌, ◌≤◌, ◌+◌, Some, None, IfOk, IfErr, MatchResult};
ghost use Rattle.escrow_sql.specs.Token.{column_at};
ghost use Rattle.escrow_sql.specs.Predictive.{run, run_whole, starts, first};
ghost use Rattle.escrow_sql.specs.Cursor.{Advances, Ends};
ghost use Rattle.escrow_sql.specs.Statement.{word, ◌then◌, optional, meaning, name, work, back, table_statement, row_statement, ending};
ghost use Rattle.escrow_sql.specs.Factored.{factored_show, factored_body, factored_request};
ghost use Rattle.escrow_sql.specs.Parser.{Asks, IsFaultIn};
ghost use Rattle.escrow_sql.specs.declared.lexer.TheConstants.{MAX_TEXT};
ghost use Rattle.escrow_statement.specs.declared.statement.Request.{Request};
ghost use Rattle.escrow_statement.specs.declared.word.Word.TheVariants as words;
ghost use Rattle.escrow_sql.specs.declared.fault.ParseFault.TheVariants.{Memory};

mod alter;
mod change;
mod check;
mod create;
mod part;
mod rows;

use crate::cursor::Cursor;
use crate::fault::ParseFault;
use crate::halt::Halt;
use crate::lexeme::Lexeme;
use crate::lexer;
use crate::token::{Kind, Symbol};
use escrow_num::Name;
use escrow_statement::{Request, Statement, Word};
use std::alloc::Global;

impl Cursor<'_> {
    /// Reads a reserved word that may be left out.
    fn optional_word(&mut self, expected: Word) -> Result<(), Halt>
        ensures { Advances self.new.tokens.now result (run (optional tt (word expected)) self.old.tokens.now) }
    {
        let _taken = self.takes_word(expected);
        Ok(())
    }

    /// `[ name ]`
    fn optional_name(&mut self) -> Result<Option<Name>, Halt>
        ensures { Advances self.new.tokens.now result
            (run (optional None (meaning (λ n. Some n) name)) self.old.tokens.now) }
    {
        if !self.is_at_name() {
            return Ok(None);
        }
        Ok(Some(self.name()?))
    }

    /// `create | drop | alter`
    #[tactic(auto, unfolding(crate::specs::Statement::table_statement, crate::specs::Statement::create, crate::specs::Statement::drop))]
    fn table_statement(&mut self, alloc: Global) -> Result<Statement, Halt>
        ensures { Advances self.new.tokens.now result (run table_statement self.old.tokens.now) }
    {
        if self.is_at_word(Word::Create) {
            return Ok(Statement::Create(self.create(alloc)?));
        }
        if self.is_at_word(Word::Drop) {
            return Ok(Statement::Drop(self.drop_table()?));
        }
        Ok(Statement::Alter(self.alter(alloc)?))
    }

    /// Returns whether a statement of a whole table comes next.
    #[tactic(auto, unfolding(crate::specs::Statement::table_statement, crate::specs::Statement::create, crate::specs::Statement::drop, crate::specs::Statement::alter))]
    fn is_at_table_statement(&self) -> bool
        ensures { result ≡ starts (first table_statement) self.now.tokens.now }
    {
        self.is_at_word(Word::Create) || self.is_at_word(Word::Drop) || self.is_at_word(Word::Alter)
    }

    /// `insert | update | delete | select`
    #[tactic(auto, unfolding(crate::specs::Statement::row_statement, crate::specs::Statement::insert, crate::specs::Statement::update, crate::specs::Statement::delete))]
    fn row_statement(&mut self, alloc: Global) -> Result<Statement, Halt>
        ensures { Advances self.new.tokens.now result (run row_statement self.old.tokens.now) }
    {
        if self.is_at_word(Word::Insert) {
            return Ok(Statement::Insert(self.insert(alloc)?));
        }
        if self.is_at_word(Word::Update) {
            return Ok(Statement::Update(self.update(alloc)?));
        }
        if self.is_at_word(Word::Delete) {
            return Ok(Statement::Delete(self.delete(alloc)?));
        }
        Ok(Statement::Select(self.select(alloc)?))
    }

    /// Returns whether a statement of rows comes next.
    #[tactic(auto, unfolding(crate::specs::Statement::row_statement, crate::specs::Statement::insert, crate::specs::Statement::update, crate::specs::Statement::delete, crate::specs::Statement::select))]
    fn is_at_row_statement(&self) -> bool
        ensures { result ≡ starts (first row_statement) self.now.tokens.now }
    {
        self.is_at_word(Word::Insert)
            || self.is_at_word(Word::Update)
            || self.is_at_word(Word::Delete)
            || self.is_at_word(Word::Select)
    }

    /// `[ WORK ]`
    #[tactic(auto, unfolding(crate::specs::Statement::work))]
    fn work(&mut self) -> Result<(), Halt>
        ensures { Advances self.new.tokens.now result (run work self.old.tokens.now) }
    {
        self.optional_word(Word::Work)
    }

    /// `[ TO [ SAVEPOINT ] name ]`
    #[tactic(auto, unfolding(crate::specs::Statement::back))]
    fn back(&mut self) -> Result<Statement, Halt>
        ensures { Advances self.new.tokens.now result (run back self.old.tokens.now) }
    {
        if !self.takes_word(Word::To) {
            return Ok(Statement::Rollback);
        }
        self.optional_word(Word::Savepoint)?;
        Ok(Statement::RollbackTo(self.name()?))
    }

    /// `SAVEPOINT name`
    fn savepoint(&mut self) -> Result<Name, Halt>
        ensures { Advances self.new.tokens.now result (run (word words.Savepoint then name) self.old.tokens.now) }
    {
        self.word(Word::Savepoint)?;
        self.name()
    }

    /// `COMMIT work | ROLLBACK work back | SAVEPOINT name`
    #[tactic(auto, unfolding(crate::specs::Statement::ending))]
    fn ending(&mut self) -> Result<Statement, Halt>
        ensures { Advances self.new.tokens.now result (run ending self.old.tokens.now) }
    {
        if self.takes_word(Word::Commit) {
            self.work()?;
            return Ok(Statement::Commit);
        }
        if self.takes_word(Word::Rollback) {
            self.work()?;
            return self.back();
        }
        Ok(Statement::Savepoint(self.savepoint()?))
    }

    /// Returns whether a statement of the transaction itself comes next.
    #[tactic(auto, unfolding(crate::specs::Statement::ending))]
    fn is_at_ending(&self) -> bool
        ensures { result ≡ starts (first ending) self.now.tokens.now }
    {
        self.is_at_word(Word::Commit)
            || self.is_at_word(Word::Rollback)
            || self.is_at_word(Word::Savepoint)
    }

    /// `SHOW ( TABLE name | JOURNAL [ name ] | BOUNDS row | STATISTICS )`
    #[tactic(auto, unfolding(crate::specs::Factored::factored_show))]
    fn show(&mut self, alloc: Global) -> Result<Request, Halt>
        ensures { Advances self.new.tokens.now result (run factored_show self.old.tokens.now) }
    {
        self.word(Word::Show)?;
        if self.takes_word(Word::Table) {
            let table = self.name()?;
            return Ok(Request::Statement(Statement::ShowTable(table)));
        }
        if self.takes_word(Word::Journal) {
            let table = self.optional_name()?;
            return Ok(Request::Statement(Statement::ShowJournal(table)));
        }
        if self.takes_word(Word::Bounds) {
            let row = self.row(alloc)?;
            return Ok(Request::Statement(Statement::ShowBounds(row)));
        }
        self.word(Word::Statistics)?;
        Ok(Request::Statistics)
    }

    /// `table_statement | row_statement | ending | show`
    #[tactic(auto, unfolding(crate::specs::Factored::factored_body))]
    fn body(&mut self, alloc: Global) -> Result<Request, Halt>
        ensures { Advances self.new.tokens.now result (run factored_body self.old.tokens.now) }
    {
        if self.is_at_table_statement() {
            return Ok(Request::Statement(self.table_statement(alloc)?));
        }
        if self.is_at_row_statement() {
            return Ok(Request::Statement(self.row_statement(alloc)?));
        }
        if self.is_at_ending() {
            return Ok(Request::Statement(self.ending()?));
        }
        self.show(alloc)
    }

    /// `body [ ";" ]`
    #[tactic(auto, unfolding(crate::specs::Factored::factored_request))]
    fn request(&mut self, alloc: Global) -> Result<Request, Halt>
        ensures { Advances self.new.tokens.now result (run factored_request self.old.tokens.now) }
    {
        let body = self.body(alloc)?;
        let _ended = self.takes(&Kind::Symbol(Symbol::Semicolon));
        Ok(body)
    }

    /// Reads a request with nothing after it.
    fn whole(&mut self, alloc: Global) -> Result<Request, Halt>
        ensures { Ends self.new.tokens.now result (run_whole factored_request self.old.tokens.now) }
    {
        let request = self.request(alloc)?;
        match self.tokens {
            [] => Ok(request),
            [_, ..] => Err(Halt::Syntax),
        }
    }
}

/// Returns the column of the first of the tokens that are left, or the column after the text if
/// none is. The text has `len` bytes.
fn column_of(rest: &[Lexeme], len: usize) -> u32
    requires { column_at rest.now len ≤ MAX_TEXT + 1 }
    ensures { result ≡ column_at rest.now len }
{
    match rest {
        [] => (len + 1) as u32,
        [token, ..] => (token.start() + 1) as u32,
    }
}

/// Returns what a text asks. `Syntax` has the column of the first fault. That is the leftmost
/// lexing fault, if there is one; else the first token such that no sentence begins with the tokens
/// up to it; or the text's length plus 1 if the text ends too early.
pub fn parse(alloc: Global, text: &str) -> Result<Request, ParseFault>
    // The request that is returned is what the text asks.
    ensures found { IfOk result (Asks text.now) }

    // If a text asks something, it is returned, unless memory runs out.
    ensures only { (r : Request) → Asks text.now r → MatchResult result (λ x. x ≡ r) (λ e. e ≡ Memory) }

    ensures fault { IfErr result (IsFaultIn text.now) }
{
    let tokens = lexer::lexemes(alloc, text)?;
    let mut cursor = Cursor {
        tokens: tokens.as_slice(),
    };
    match cursor.whole(alloc) {
        Ok(request) => Ok(request),
        Err(Halt::Memory) => Err(ParseFault::Memory),
        Err(Halt::Syntax) => Err(ParseFault::Syntax {
            column: column_of(cursor.tokens, text.len()),
        }),
    }
}
