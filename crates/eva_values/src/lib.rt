//! What C expressions come to in cells that are known by their values: the value, marks of checks, and the cells for
//! which a condition comes out true or false (`specs/Values.antt` has the exact answers).
#![tactic(auto)]

mod laws;
mod marks;
mod nodes;
mod operators;
mod outcome;
mod seen;
mod shape;
mod walk;

pub use laws::expressions_cover;
pub use seen::{Branched, Seen, SiteMark, SiteMarks};
pub use shape::shape_of;
pub use walk::{branched, evaluated, narrowed};
