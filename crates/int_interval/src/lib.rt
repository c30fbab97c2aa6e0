//! Intervals of whole numbers, an abstract domain with C's operators: the result of each stands for every result
//! on numbers that the operands stand for (the intervals of Cousot and Cousot; `specs/` has the exact answers).
#![tactic(auto)]

mod arithmetic;
mod bitwise;
mod interval;
mod laws;
mod said;
mod shape;
mod shifts;

pub use interval::{Interval, are_one, is_one};
pub use laws::{arithmetic_covers, bits_cover, conversion_covers, set_laws, shifts_cover};
pub use said::Said;
pub use shape::Shape;

#[cfg(test)]
mod tests;
