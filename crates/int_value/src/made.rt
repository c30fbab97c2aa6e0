//! What an operator with checks makes.

use crate::value::Value;
use int_interval::Said;

/// An operator's value and what is said of its checks, in their order; nothing of a check that it doesn't have.
#[derive(Clone, Copy, Debug, PartialEq, Eq)]
pub struct Made {
    pub value: Value,
    pub first: Option<Said>,
    pub second: Option<Said>,
}
