//! What an analysis says of predicates in abstract cells, and how predicates narrow them (`specs/` has the
//! exact answers).
#![tactic(auto)]

mod answer;
mod frame;
mod laws;
mod narrowing;
mod passed;
mod related;
mod terms;
mod truths;

pub use answer::Truth;
pub use laws::{predicates_narrow, truths_are_right};
pub use narrowing::narrow;
pub use truths::truth;

#[cfg(test)]
mod tests;
