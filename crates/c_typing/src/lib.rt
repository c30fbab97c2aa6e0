//! The walk that types a text (C11 6.5 to 6.9).
#![tactic(auto)]

mod body;
mod constants;
mod context;
mod declaration;
mod definitions;
mod expression;
mod file;
mod function;
mod global;
mod laws;
mod plain;
mod scope;
mod start;
mod statement;
mod text;
mod walk;
mod whole;

pub use context::Context;
pub use definitions::functions;
pub use expression::value;
pub use file::{Definition, File, Known, Start};
pub use laws::least_is_first;
pub use scope::{Scope, Undo};
pub use walk::{Allocated, Walk};
pub use whole::walked;
