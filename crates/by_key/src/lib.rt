//! Numbers by their keys.
#![tactic(auto)]

mod lists;

pub use lists::{ByKey, Keyed};
