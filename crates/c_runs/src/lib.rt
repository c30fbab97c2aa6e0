//! The runs of a program, and their laws.
#![tactic(auto)]

mod laws;

pub use laws::{deep_enough, examples, fewer_are_prefix, runs_are_chained};
