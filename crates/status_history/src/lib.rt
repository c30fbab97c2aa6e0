//! Histories: registrations, settings of parameters and entries; the values at each version; and what entries
//! claim of runs.
#![tactic(auto)]

mod event_laws;
mod events;
mod history;
mod laws;
#[cfg(test)]
mod tests;

pub use event_laws::kept_grows;
pub use events::{Address, Event, Events, Half, What};
pub use history::{Change, Changes, Entries, Entry, History, Hyps};
pub use laws::values_stay;
