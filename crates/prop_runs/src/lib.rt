//! The runs of a program by the numbers of its properties, and their laws over the table.
#![tactic(auto)]

mod laws;

pub use laws::{fewer_are_prefix, runs_keep_laws, visits_are_rows};
