//! C's operators on whole numbers, exact or cut at the bound of the integer domain, conversions, two's
//! complement, residues and greatest common divisors, and which checks of an operator the ranges of its operands
//! decide. `specs/` defines what each is; no type of C stands here: where one matters it is given by its least
//! number, its greatest number and its width.
#![tactic(auto)]

mod bits;
mod bounded;
mod convert;
mod decided;
mod divisors;
mod laws;
mod operators;

pub use bits::{and, bit_length, not, or, xor};
pub use bounded::{
    BOUND, difference, negative, power_of_two, product, quotient, remainder, shifted_left,
    shifted_right, sum, unsigned_power_of_two, within_bound,
};
pub use convert::{to_bool, wrap};
pub use decided::{Ends, always_passes, unary_always_passes};
pub use divisors::{differ_by_multiple, gcd, residue, residue_of_difference};
pub use laws::{conversions_are_typed, results_are_typed, unary_results_are_typed};
pub use operators::{Check, Operator, UnaryOperator};

#[cfg(test)]
mod tests;
