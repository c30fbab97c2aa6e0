//! `~ & | ^`, which have no check.

ghost use Rattle.std.specs.Prelude.{◌≡◌, None};
ghost use Rattle.int_value.specs.Checks.{bit_and_row, bit_or_row, bit_xor_row, invert_row, made_of};

use crate::made::Made;
use crate::value::{Value, answer};
use int_interval::Shape;

impl Value {
    /// `~`.
    #[tactic(auto, unfolding(crate::specs::Checks::invert_row, crate::specs::Rows::not_raw))]
    pub fn invert(&self, shape: &Shape, overflow: bool) -> Made
        ensures { result ≡ invert_row shape.now overflow self.now }
    {
        unchecked(answer(self.range.invert(shape), self.congr.invert(shape), false))
    }

    /// `&`.
    #[tactic(auto, unfolding(crate::specs::Checks::bit_and_row, crate::specs::Rows::and_raw))]
    pub fn and(&self, other: &Value, shape: &Shape, overflow: bool) -> Made
        ensures { result ≡ bit_and_row shape.now overflow self.now other.now }
    {
        unchecked(answer(
            self.range.and(&other.range, shape),
            self.congr.and(&other.congr, shape),
            false,
        ))
    }

    /// `|`.
    #[tactic(auto, unfolding(crate::specs::Checks::bit_or_row, crate::specs::Rows::or_raw))]
    pub fn or(&self, other: &Value, shape: &Shape, overflow: bool) -> Made
        ensures { result ≡ bit_or_row shape.now overflow self.now other.now }
    {
        unchecked(answer(
            self.range.or(&other.range, shape),
            self.congr.or(&other.congr, shape),
            false,
        ))
    }

    /// `^`.
    #[tactic(auto, unfolding(crate::specs::Checks::bit_xor_row, crate::specs::Rows::xor_raw))]
    pub fn xor(&self, other: &Value, shape: &Shape, overflow: bool) -> Made
        ensures { result ≡ bit_xor_row shape.now overflow self.now other.now }
    {
        unchecked(answer(
            self.range.xor(&other.range, shape),
            self.congr.xor(&other.congr, shape),
            false,
        ))
    }
}

fn unchecked(value: Value) -> Made
    ensures { result ≡ made_of value None None }
{
    Made {
        value,
        first: None,
        second: None,
    }
}
