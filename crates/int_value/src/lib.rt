//! Values of the integer domain: an interval, a congruence and whether a value may be missing, with C's operators
//! and their checks (the reduced product of both domains, after Cousot and Cousot; `specs/` has the exact answers).
#![tactic(auto)]

mod arithmetic;
mod bitwise;
mod convert;
mod laws;
mod made;
mod relation;
mod sets;
mod shifts;
mod value;
mod widen;

pub use laws::{
    conversions_cover, division_covers, marks_decide, membership, operators_are_closed,
    operators_cover, relations_are_true, second_marks_decide, set_laws, terms_are_reduced,
    terms_cover, typed_values_are_closed, unary_operators_cover, whole_type_includes,
    widen_is_upper,
};
pub use made::Made;
pub use value::Value;

#[cfg(test)]
mod tests;
