//! What expressions and predicates come to in the states of an analysis, and how conditions narrow them.
#![tactic(auto)]

mod branch;
mod cond;
mod laws;
mod seen;

pub use branch::{Branches, branched};
pub use cond::{Cond, narrow};
pub use eva_terms::Truth;
pub use eva_values::{Seen, SiteMark, SiteMarks};
pub use laws::{conditions_narrow, values_are_right};
pub use seen::{truth, value};

#[cfg(test)]
mod tests;
