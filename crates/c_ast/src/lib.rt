//! The syntax trees of C and of its annotations (C11 6.5 to 6.9; ACSL manual, annotations).
//!
//! `at` is where a node stands: its bytes, and the line of its first token. Parentheses make no node; a
//! node whose first operand is in parentheses begins at the opening one.
#![tactic(auto)]

mod annot;
mod build;
mod expr;
mod stmt;
mod unit;

pub use annot::{
    Annot, AnnotKind, Clause, ClauseBody, ClauseKind, Clauses, Formula, Link, Links, Loc, LocIndex,
    Locs,
};
pub use build::{assign, binary, call, cast, cond, index, step, sub, unary};
pub use expr::{Expr, Exprs, Ident, Spec, SpecWord, SpecWords};
pub use stmt::{Declr, Declrs, First, Init, Length, Spots, Stmt, Stmts, Sub};
pub use unit::{Formal, Formals, Function, Global, Item, Storage, Storages, Unit};
