//! What follows of a program's properties from its types and its calls alone: entries of the emitters `rte` and
//! `kernel`; and the list of its checked operators.
#![tactic(auto)]

mod decided;
mod laws;
mod links;
mod operators;
mod ranges;

pub use decided::type_decided;
pub use laws::{decided_are_right, links_are_right, tests_decide, unary_tests_decide};
pub use links::call_links;
pub use operators::{Sites, sites};
