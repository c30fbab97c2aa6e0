//! The table of all properties of a typed program.
#![tactic(auto)]

mod calls;
mod counts;
mod fault;
mod index;
mod laws;
mod operators;
mod preconditions;
mod rows;
mod state;
mod whole;

pub use calls::calls_in;
pub use fault::TableFault;
pub use index::sites_in;
pub use laws::{one_dead, rows_belong, rows_together};
pub use whole::table;
