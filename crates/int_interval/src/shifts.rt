//! `<<` and `>>` on intervals.

ghost use Rattle.std.specs.Prelude.{◌≡◌, ◌≤ℤ◌, ◌<ℤ◌, pos};
ghost use Rattle.int_interval.specs.Rows.{corner_cut, shl_row, shr_row};
ghost use Rattle.int_interval.specs.Shapes.{IsShape, IsShift};
ghost use Rattle.machine_ints.specs.Bound.{bounded};
ghost use Rattle.machine_ints.specs.Operators.{shl_of, shr_of};

use crate::interval::{Interval, corners};
use crate::shape::Shape;
use machine_ints::{shifted_left, shifted_right, within_bound};

impl Interval {
    /// `<<`, before the check of signed overflow. Asks that the right operand is within 0 to the width less 1.
    #[tactic(auto, unfolding(crate::specs::Rows::shl_row))]
    pub fn shl(&self, other: &Interval, shape: &Shape) -> Interval
        requires shape { IsShape shape.now }
        requires shift { IsShift shape.now other.now }
        ensures { result ≡ shl_row self.now other.now }
    {
        match (*self, *other) {
            (Interval::Empty, _) | (_, Interval::Empty) => Interval::Empty,
            (Interval::Within { lo: a, hi: b }, Interval::Within { lo: c, hi: d }) => left_shifts(
                a, b, c, d,
            ),
            _ => Interval::All,
        }
    }

    /// `>>`. Asks that the right operand is within 0 to the width less 1.
    #[tactic(auto, unfolding(crate::specs::Rows::shr_row))]
    pub fn shr(&self, other: &Interval, shape: &Shape) -> Interval
        requires shape { IsShape shape.now }
        requires shift { IsShift shape.now other.now }
        ensures { result ≡ shr_row self.now other.now }
    {
        match (*self, *other) {
            (Interval::Empty, _) | (_, Interval::Empty) => Interval::Empty,
            (Interval::Within { lo: a, hi: b }, Interval::Within { lo: c, hi: d }) => right_shifts(
                a, b, c, d,
            ),
            _ => Interval::All,
        }
    }
}

fn left_shifts(a: i128, b: i128, c: i128, d: i128) -> Interval
    requires low { pos 0 ≤ℤ c }
    requires order { c ≤ℤ d }
    requires high { d <ℤ pos 64 }
    ensures { result ≡ corner_cut shl_of a b c d }
{
    corners(
        left_shift(a, c),
        left_shift(a, d),
        left_shift(b, c),
        left_shift(b, d),
    )
}

fn right_shifts(a: i128, b: i128, c: i128, d: i128) -> Interval
    requires low { pos 0 ≤ℤ c }
    requires order { c ≤ℤ d }
    requires high { d <ℤ pos 64 }
    ensures { result ≡ corner_cut shr_of a b c d }
{
    corners(
        right_shift(a, c),
        right_shift(a, d),
        right_shift(b, c),
        right_shift(b, d),
    )
}

fn left_shift(left: i128, by: i128) -> Option<i128>
    requires low { pos 0 ≤ℤ by }
    requires high { by <ℤ pos 64 }
    ensures { result ≡ bounded (shl_of left by) }
{
    shifted_left(left, by as u32)
}

fn right_shift(left: i128, by: i128) -> Option<i128>
    requires low { pos 0 ≤ℤ by }
    requires high { by <ℤ pos 64 }
    ensures { result ≡ bounded (shr_of left by) }
{
    within_bound(shifted_right(left, by as u32))
}
