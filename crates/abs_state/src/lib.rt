//! What an analysis knows at a place of a program: its cells and the properties that it used (`specs/` has
//! the exact answers).
#![tactic(auto)]

mod laws;
mod state;
#[cfg(test)]
mod tests;
mod widening;

pub use laws::{states_cover, typed_cells_are_kept};
pub use state::State;
pub use widening::{whole, widen};
