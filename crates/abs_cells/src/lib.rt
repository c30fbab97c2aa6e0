//! What an analysis knows of a program's cells: a value for each, their join, their inclusion, and how relations
//! narrow them (`specs/` has the exact answers).
#![tactic(auto)]

mod cells;
mod laws;
mod narrowing;
mod reached;
mod relation;
#[cfg(test)]
mod tests;

pub use cells::Cells;
pub use laws::{cells_cover, elements_cover, relations_are_right, relations_narrow};
pub use narrowing::{Side, narrow};
pub use reached::{included, join};
pub use relation::{mirrored, opposite, said};
