//! Statements as their texts say them, with nothing looked up yet, and the reserved words.
//!
//! Its main contract is that of [`Word::written`]: it returns the reserved word that bytes write,
//! in upper or lower case, and `None` exactly if they write none.
//!
//! Begin with [`Statement`], which has a variant for each statement.
#![tactic(auto)]

mod copies;
mod statement;
mod word;
mod words;

pub use statement::{
    AlterText, Assign, Assigned, CheckText, ColumnMark, ColumnText, Comparison, Condition,
    CreateText, InsertText, Item, Literal, NumberSize, Request, RowText, SelectText, Statement,
    TableChange, Term, Test, TypeText, UpdateText, WhereText,
};
pub use word::Word;
pub use words::WORDS;
