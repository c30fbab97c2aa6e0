//! The analysis of whole programs, as `eva_rules` defines it (`specs/Code.antt` says what the parts of the program
//! give).
#![tactic(auto)]

mod analysis;
mod answer;
mod exits;
mod inside;
mod leaving;
mod numbers;
mod points;
mod run;
mod setting;
mod start;
mod tallies;
mod thresholds;
mod values;
mod writing;

pub use answer::{EvaFault, eva};
