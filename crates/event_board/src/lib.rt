//! Boards: tables of statuses that several callers share, each of whose calls is one event; and the plain programs of
//! what a change is answered and of what a fetch gives.
#![tactic(auto)]

mod board;
mod judging;
mod laws;
mod page;
mod selection;
mod standing;

pub use board::Board;
pub use judging::{judge, judge_at, judge_own};
pub use laws::{answers_are_one, openings_dont_count};
pub use page::{PlacedVerdict, fetched};
pub use standing::Standing;
