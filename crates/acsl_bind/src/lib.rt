//! The annotations of a text, bound to its program (ACSL manual: function contracts, loop annotations, assertions).
#![tactic(auto)]

mod body;
mod bound;
mod contracts;
mod copy;
mod fault;
mod fns;
mod notes;
mod operators;
mod program;
mod source;
mod stmt;
mod strays;
mod walk;

pub use bound::Bound;
pub use contracts::Contract;
pub use fault::BindFault;
pub use program::bind;
pub use walk::Walk;
