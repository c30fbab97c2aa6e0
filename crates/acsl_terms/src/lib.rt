//! What annotations mean over a program's objects: the predicates and terms of their clauses, or the first breach of the
//! rules (ACSL manual, function contracts, loop annotations, assertions, terms and predicates).
#![tactic(auto)]

mod bind;
mod breach;
mod copy;
mod formula;
mod laws;
mod look;
mod sight;
mod view;

pub use bind::clause;
pub use breach::{NoteBreach, NoteFault, note_not_here};
pub use laws::{clause_fits, least_is_first};
pub use view::{Meant, View};
