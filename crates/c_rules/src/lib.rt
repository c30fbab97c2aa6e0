//! The rules of single constructs of C's integer part: specifiers, literals, conversions, operators and names (C11
//! 6.2.4, 6.3, 6.4.4, 6.5, 6.7.2), and the breaches of these rules with their places.
//!
//! Each rule is said of a whole construct: what is typed where there is no breach, and which breaches there are.
//! Where a construct is in breach the constant 0 stands in its place, so that the walk goes on.
#![tactic(auto)]

mod breach;
mod constants;
mod found;
mod literals;
mod name;
mod operator;
mod scope;
mod specifiers;

pub use breach::{Breach, Fault};
pub use constants::{converted_value, evaluated, stops_where_a_check_fails};
pub use found::Found;
pub use literals::{constant, is_typed_literal, literal, zero};
pub use name::{
    Names, array, called, element, function, is_allowed, is_array, is_dropped, is_inner, is_scalar,
    name_target, name_value, note_call,
};
pub use operator::{assigned, binary, cast, choice, converted, unary};
pub use scope::{Array, Entry, Object, Signature};
pub use specifiers::{SpecType, is_constant, spec_type};
