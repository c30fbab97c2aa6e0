//! The typed program of a text (C11 6.5 to 6.9).
#![tactic(auto)]

mod cycles;
mod fault;
mod laws;
mod program;
mod storage;

pub use fault::TypeFault;
pub use laws::one_program;
pub use program::check;
