//! The analysis of a program as a definition (`specs/`), and the law that its entries are locally right.
#![tactic(auto)]

mod laws;

pub use laws::entries_are_right;
