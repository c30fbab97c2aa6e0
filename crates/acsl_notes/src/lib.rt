//! The annotations of a text: each of its notes, read by the grammar of annotations (ACSL manual, annotations).
#![tactic(auto)]

mod note;
mod text;

pub use text::{Annots, notes};
