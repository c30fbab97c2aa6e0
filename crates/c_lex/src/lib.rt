//! The tokens of a text of C with annotations (C11 6.4; ACSL manual, lexical rules).
#![tactic(auto)]

mod bytes;
mod fault;
mod lex;
mod number;
mod piece;
mod rows;
mod tables;
#[cfg(test)]
mod tests;
mod token;

pub use fault::LexFault;
pub use lex::tokens;
pub use token::{Keyword, Number, Punct, Token, TokenKind, Tokens, Word, tokens_are_in_place};
