//! Relations. `a > b` is `b < a`, `a >= b` is `b <= a`, and `a != b` is `a == b` turned round.

ghost use Rattle.std.specs.Prelude.{◌≡◌, ◌&&◌, ◌||◌, int_lt};
ghost use Rattle.int_interval.specs.Rows.{are_one, is_one};
ghost use Rattle.int_value.specs.Checks.{equal_row, equal_said, less_eq_said, less_said, within_said};

use crate::arithmetic::{said, said_within};
use crate::value::Value;
use int_interval::{Interval, Said, are_one, is_one};

impl Value {
    /// `<`, by the ends.
    #[tactic(auto, unfolding(crate::specs::Checks::less_said))]
    pub fn less(&self, other: &Value) -> Said
        ensures { result ≡ less_said self.now.range other.now.range }
    {
        match (self.range, other.range) {
            (Interval::Empty, _) | (_, Interval::Empty) => Said::Unreached,
            (Interval::Within { lo: a, hi: b }, Interval::Within { lo: c, hi: d }) => said(
                b < c,
                d <= a,
            ),
            _ => Said::Maybe,
        }
    }

    /// `<=`, by the ends.
    #[tactic(auto, unfolding(crate::specs::Checks::less_eq_said))]
    pub fn less_eq(&self, other: &Value) -> Said
        ensures { result ≡ less_eq_said self.now.range other.now.range }
    {
        match (self.range, other.range) {
            (Interval::Empty, _) | (_, Interval::Empty) => Said::Unreached,
            (Interval::Within { lo: a, hi: b }, Interval::Within { lo: c, hi: d }) => said(
                b <= c,
                d < a,
            ),
            _ => Said::Maybe,
        }
    }

    /// `==`: yes for equal single numbers, no for disjoint intervals or congruences.
    #[tactic(auto, unfolding(crate::specs::Checks::equal_row))]
    pub fn equal(&self, other: &Value) -> Said
        ensures { result ≡ equal_row self.now other.now }
    {
        said_of_equality(self.range, other.range, !self.congr.meets(&other.congr))
    }

    /// Whether all, none or some of the numbers are from `lo` to `hi`: the check of an index asks it.
    pub fn within(&self, lo: i128, hi: i128) -> Said
        ensures { result ≡ within_said lo hi self.now.range }
    {
        said_within(lo, hi, &self.range)
    }
}

fn said_of_equality(left: Interval, right: Interval, apart: bool) -> Said
    ensures { result ≡ equal_said left right apart }
{
    match (left, right) {
        (Interval::Empty, _) | (_, Interval::Empty) => Said::Unreached,
        (Interval::Within { lo: a, hi: b }, Interval::Within { lo: c, hi: d }) => {
            said(are_equal(a, b, c, d), are_apart(a, b, c, d, apart))
        }
        _ => Said::Maybe,
    }
}

/// Whether the four ends are one number.
fn are_equal(a: i128, b: i128, c: i128, d: i128) -> bool
    ensures { result ≡ (are_one a b c d && is_one a c) }
{
    are_one(a, b, c, d) && is_one(a, c)
}

/// Whether the intervals are disjoint, or else `apart`.
fn are_apart(a: i128, b: i128, c: i128, d: i128, apart: bool) -> bool
    ensures { result ≡ (int_lt b c || int_lt d a || apart) }
{
    b < c || d < a || apart
}
