//! The statements of the language: their tree, their tokens, the grammar as a relation between the two, depths, canonical
//! tokens and which trees are proper. The grammar is to be held against `docs/SQL.md`.
#![tactic(auto)]

mod copies;
mod expr;
mod laws;
mod stmt;
mod token;
mod word;

pub use copies::both;
pub use expr::{BinaryOp, Expr};
pub use laws::canonical_tokens;
pub use stmt::{ColumnDef, ColumnKind, InsertRows, OrderTerm, ResultItem, SelectStmt, Stmt};
pub use token::Token;
pub use word::Word;
