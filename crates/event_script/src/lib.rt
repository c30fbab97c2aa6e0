//! The lines of an event script, which is a list of JSON objects, one a line.
#![tactic(auto)]

mod emission;
mod fault;
mod names;
mod registration;
mod script;
mod setting;
mod value;

pub use fault::ScriptFault;
pub use script::{Analyser, Script, Wanted};
