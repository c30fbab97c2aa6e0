//! `<<` and `>>` on congruences.

ghost use Rattle.std.specs.Prelude.{◌≡◌, ◌≤ℤ◌, ◌<ℤ◌, ◌^◌, pos, unsigned_abs};
ghost use Rattle.machine_ints.specs.Operators.{shr_of};
ghost use Rattle.int_interval.specs.Shapes.{IsShape};
ghost use Rattle.int_congr.specs.Rows.{IsShift, only, shl_row, shr_row};

use crate::arithmetic::single;
use crate::congr::{Congr, unknown};
use int_interval::Shape;
use machine_ints::{power_of_two, shifted_right};

impl Congr {
    /// `<<`, before the check of signed overflow: a product, where the right operand is one number. Asks that such a
    /// number is within 0 to the width less 1.
    #[tactic(auto, unfolding(crate::specs::Rows::shl_row))]
    pub fn shl(&self, other: &Congr, shape: &Shape) -> Congr
        requires shape { IsShape shape.now }
        requires shift { IsShift shape.now other.now }
        ensures { result ≡ shl_row self.now other.now }
    {
        if other.is_single() {
            self.product(&two_power(other.rem))
        } else {
            unknown()
        }
    }

    /// `>>`: exact on single numbers. Asks that a single right operand is within 0 to the width less 1.
    #[tactic(auto, unfolding(crate::specs::Rows::shr_row))]
    pub fn shr(&self, other: &Congr, shape: &Shape) -> Congr
        requires shape { IsShape shape.now }
        requires shift { IsShift shape.now other.now }
        ensures { result ≡ shr_row self.now other.now }
    {
        if self.both_single(other) {
            single(right_shift(self.rem, other.rem))
        } else {
            unknown()
        }
    }
}

fn two_power(by: i128) -> Congr
    requires low { pos 0 ≤ℤ by }
    requires high { by <ℤ pos 64 }
    ensures { result ≡ only (pos (2 ^ unsigned_abs by)) }
{
    Congr {
        rem: power_of_two(by as u32),
        modulus: 0,
    }
}

fn right_shift(left: i128, by: i128) -> i128
    requires low { pos 0 ≤ℤ by }
    requires high { by <ℤ pos 64 }
    ensures { result ≡ shr_of left by }
{
    shifted_right(left, by as u32)
}
