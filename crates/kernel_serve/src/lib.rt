//! A call: its words, the files that it names, what it writes and how it ends.
#![tactic(auto)]

mod accepted;
mod batch;
mod front;
mod inputs;
mod lines;
mod opening;
mod status;
mod words;

pub use batch::report_run;
pub use status::{FrontFault, LimitFault, LineFault, Status, fault_line};
