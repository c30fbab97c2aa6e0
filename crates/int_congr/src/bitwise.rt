//! `~ & | ^` on congruences.

ghost use Rattle.std.specs.Prelude.{◌≡◌};
ghost use Rattle.int_congr.specs.Rows.{and_row, not_row, or_row, xor_row};

use crate::arithmetic::single;
use crate::congr::{Congr, congruent, unknown};
use int_interval::Shape;
use machine_ints::{and, difference, or, xor};

impl Congr {
    /// `~`.
    #[tactic(auto, unfolding(crate::specs::Rows::not_row))]
    pub fn invert(&self, shape: &Shape) -> Congr
        ensures { result ≡ not_row shape.now self.now }
    {
        congruent(difference(shape.top(), self.rem), self.period())
    }

    /// `&`: exact on single numbers.
    #[tactic(auto, unfolding(crate::specs::Rows::and_row))]
    pub fn and(&self, other: &Congr, shape: &Shape) -> Congr
        ensures { result ≡ and_row self.now other.now }
    {
        if self.both_single(other) {
            single(and(self.rem, other.rem))
        } else {
            unknown()
        }
    }

    /// `|`: exact on single numbers.
    #[tactic(auto, unfolding(crate::specs::Rows::or_row))]
    pub fn or(&self, other: &Congr, shape: &Shape) -> Congr
        ensures { result ≡ or_row self.now other.now }
    {
        if self.both_single(other) {
            single(or(self.rem, other.rem))
        } else {
            unknown()
        }
    }

    /// `^`: exact on single numbers.
    #[tactic(auto, unfolding(crate::specs::Rows::xor_row))]
    pub fn xor(&self, other: &Congr, shape: &Shape) -> Congr
        ensures { result ≡ xor_row self.now other.now }
    {
        if self.both_single(other) {
            single(xor(self.rem, other.rem))
        } else {
            unknown()
        }
    }
}
