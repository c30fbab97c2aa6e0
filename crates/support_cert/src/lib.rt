//! Certificates: why a property holds, checked and computed.
#![tactic(auto)]

mod certificate;
mod finding;
mod laws;
mod past;
mod reading;
mod scan;

pub use certificate::check;
pub use finding::support;
pub use laws::{held_have_supports, supported_hold};
