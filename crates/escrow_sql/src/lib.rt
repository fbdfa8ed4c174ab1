//! From the text of a statement to what it asks: tokens, the grammar, and the parser.
//!
//! Its main contract is that of [`parse`]: it accepts exactly the sentences of the grammar. For any
//! other text it names the exact column of the first fault.
//!
//! Begin with [`parse`]. The grammar is in specs/Statement.antt.
#![tactic(auto)]

mod cursor;
mod fault;
mod halt;
pub mod laws;
mod lexeme;
mod lexer;
mod parser;
mod token;
mod written;

pub use escrow_statement::{
    AlterText, Assign, Assigned, CheckText, ColumnMark, ColumnText, Comparison, Condition,
    CreateText, InsertText, Item, Literal, NumberSize, Request, RowText, SelectText, Statement,
    TableChange, Term, Test, TypeText, UpdateText, WhereText, Word,
};
pub use fault::ParseFault;
pub use lexer::{MAX_TEXT, lex};
pub use parser::parse;
pub use token::{Kind, Symbol, Token};
