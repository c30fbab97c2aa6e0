//! The verdict of one property, read from the places of the entries that count, and which verdicts an emission can
//! alter.
#![tactic(auto)]

mod index;
mod laws;
mod places;
mod reading;

pub use index::{members, note_users, reached, users};
pub use laws::{emission_counts, emission_keeps, unreached_keep};
pub use places::{counted_places, placed_at, with_place};
pub use reading::Reading;
