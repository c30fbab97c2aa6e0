//! What all entries of a history come to: which of them count, which properties hold, and the verdict of each.
#![tactic(auto)]

mod by_prop;
mod consolidation;
mod counted;
mod counting;
mod flags;
mod inputs;
mod laws;
mod questions;
mod refusals;
mod steps;

pub use consolidation::{Verdicts, full};
pub use counted::counted_by_prop;
pub use counting::{CountedEntry, current};
pub use inputs::VerdictInputs;
pub use laws::{both_sorts_are_all, changed_is_last, counted_are_right, verdicts_are_true};
pub use questions::{Answer, Body, Cursor, Fetched, PropIds, Question, StatusRow, StatusRows};
pub use refusals::{BoardFault, Placed, Refusal};
pub use steps::{Reason, Step, Support};
