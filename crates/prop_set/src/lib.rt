//! Sets of properties, a bit for each.
#![tactic(auto)]

mod laws;
mod set;
#[cfg(test)]
mod tests;
mod words;

pub use laws::sets_are_lists;
pub use set::PropSet;
