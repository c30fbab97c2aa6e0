//! The table of statuses: a history of changes with the verdict of each property.
#![tactic(auto)]

mod anew;
mod changes;
mod emission;
mod past;
mod placing;
mod refused;
mod rows;
mod table;

pub use table::Table;
