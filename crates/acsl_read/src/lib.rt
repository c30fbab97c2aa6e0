//! The grammar of annotations (ACSL manual: function contracts, loop annotations, assertions, terms and
//! predicates), cut down to whole numbers, and how the tokens of a note are read by it.
#![tactic(auto)]

mod build;
mod class;
mod clause;
mod formula;
mod level;
mod look;
mod note;
mod part;
mod place;
mod text;
mod word;

pub use class::Class;
pub use level::{Direction, Level, Side};
pub use part::{Captioned, Ended, Part, Stated};
pub use text::{AcslFault, read};
