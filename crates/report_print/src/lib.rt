//! The text of a report on properties and their verdicts.
#![tactic(auto)]

mod print;

pub use print::report;

#[cfg(test)]
mod tests;
