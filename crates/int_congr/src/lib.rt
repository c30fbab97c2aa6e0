//! Congruences of whole numbers, an abstract domain with C's operators: the result of each stands for every result
//! on numbers that the operands stand for (after Granger's domain; `specs/` has the exact answers).
#![tactic(auto)]

mod arithmetic;
mod bitwise;
mod congr;
mod laws;
mod shifts;

pub use congr::Congr;
pub use laws::{
    arithmetic_covers, bits_cover, conversion_covers, results_are_normal, set_laws, shifts_cover,
};

#[cfg(test)]
mod tests;
