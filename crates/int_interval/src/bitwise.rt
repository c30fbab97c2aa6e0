//! `~ & | ^` on intervals.

ghost use Rattle.std.specs.Prelude.{◌≡◌};
ghost use Rattle.machine_ints.specs.Bound.{bounded};
ghost use Rattle.int_interval.specs.Rows.{and_row, mask, not_row, or_row, xor_row};

use crate::interval::{Interval, are_not_negative, are_one, cut_range, range};
use crate::shape::Shape;
use machine_ints::{and, bit_length, difference, or, power_of_two, within_bound, xor};

impl Interval {
    /// `~`.
    #[tactic(auto, unfolding(crate::specs::Rows::not_row))]
    pub fn invert(&self, shape: &Shape) -> Interval
        ensures { result ≡ not_row shape.now self.now }
    {
        match *self {
            Interval::Empty => Interval::Empty,
            Interval::Within { lo, hi } => range(
                difference(shape.top(), hi),
                difference(shape.top(), lo),
            ),
            Interval::All => Interval::All,
        }
    }

    /// `&`.
    #[tactic(auto, unfolding(crate::specs::Rows::and_row))]
    pub fn and(&self, other: &Interval, shape: &Shape) -> Interval
        ensures { result ≡ and_row shape.now self.now other.now }
    {
        match (*self, *other) {
            (Interval::Empty, _) | (_, Interval::Empty) => Interval::Empty,
            (Interval::Within { lo: a, hi: b }, Interval::Within { lo: c, hi: d }) => {
                if are_one(a, b, c, d) {
                    let exact = and(a, c);
                    cut_range(exact, exact)
                } else if are_not_negative(a, c) {
                    cut_range(0, b.min(d))
                } else {
                    cut_range(shape.lo, shape.hi)
                }
            }
            _ => Interval::All,
        }
    }

    /// `|`.
    #[tactic(auto, unfolding(crate::specs::Rows::or_row))]
    pub fn or(&self, other: &Interval, shape: &Shape) -> Interval
        ensures { result ≡ or_row shape.now self.now other.now }
    {
        match (*self, *other) {
            (Interval::Empty, _) | (_, Interval::Empty) => Interval::Empty,
            (Interval::Within { lo: a, hi: b }, Interval::Within { lo: c, hi: d }) => {
                if are_one(a, b, c, d) {
                    let exact = or(a, c);
                    cut_range(exact, exact)
                } else if are_not_negative(a, c) {
                    range(within_bound(a.max(c)), mask_of(b, d))
                } else {
                    cut_range(shape.lo, shape.hi)
                }
            }
            _ => Interval::All,
        }
    }

    /// `^`.
    #[tactic(auto, unfolding(crate::specs::Rows::xor_row))]
    pub fn xor(&self, other: &Interval, shape: &Shape) -> Interval
        ensures { result ≡ xor_row shape.now self.now other.now }
    {
        match (*self, *other) {
            (Interval::Empty, _) | (_, Interval::Empty) => Interval::Empty,
            (Interval::Within { lo: a, hi: b }, Interval::Within { lo: c, hi: d }) => {
                if are_one(a, b, c, d) {
                    let exact = xor(a, c);
                    cut_range(exact, exact)
                } else if are_not_negative(a, c) {
                    range(within_bound(0), mask_of(b, d))
                } else {
                    cut_range(shape.lo, shape.hi)
                }
            }
            _ => Interval::All,
        }
    }
}

/// 2^k - 1, where k is the least with both numbers below 2^k, if it is within the bound.
#[tactic(auto, using(crate::proofs::Cuts::mask_out))]
fn mask_of(b: i128, d: i128) -> Option<i128>
    ensures { result ≡ bounded (mask b d) }
{
    let length = bit_length(b.unsigned_abs().max(d.unsigned_abs()));
    if length <= 126 {
        within_bound(power_of_two(length) - 1)
    } else {
        None
    }
}
