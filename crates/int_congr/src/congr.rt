//! Congruences: the type, and congruences as sets.

ghost use Rattle.std.specs.Prelude.{◌≡◌, ◌^◌, ◌<◌, ◌≤◌};
ghost use Rattle.machine_ints.specs.Divisors.{divides};
ghost use Rattle.int_interval.specs.Shapes.{IsShape};
ghost use Rattle.int_congr.specs.Rows.{
  congr_of,
  contains_row,
  convert_row,
  included_row,
  is_only,
  join_from,
  join_row,
  may_meet,
  modulo,
  modulo_period,
  only,
  period,
  unknown_of,
};

use int_interval::Shape;
use machine_ints::{
    BOUND, differ_by_multiple, difference, gcd, residue, unsigned_power_of_two, within_bound, wrap,
};

/// The numbers that differ from `rem` by a multiple of `modulus`; with the modulus 0, `rem` alone.
/// Each answer of an operator has `rem` from 0 to `modulus` - 1, or the modulus 0.
#[derive(Clone, Copy, Debug, PartialEq, Eq)]
pub struct Congr {
    pub rem: i128,
    pub modulus: i128,
}

/// What stands for every number.
pub(crate) fn unknown() -> Congr
    ensures { result ≡ unknown_of }
{
    Congr { rem: 0, modulus: 1 }
}

/// The numbers that differ from `rem` by a multiple of `modulus`, or all where a number is past the bound.
pub(crate) fn congruent(rem: Option<i128>, modulus: u128) -> Congr
    ensures { result ≡ modulo rem modulus }
{
    match rem {
        None => unknown(),
        Some(rem) => {
            if modulus == 0 {
                Congr { rem, modulus: 0 }
            } else {
                reduced(rem, modulus)
            }
        }
    }
}

/// The same of a modulus that isn't 0.
fn reduced(rem: i128, modulus: u128) -> Congr
    requires { 0 < modulus }
    ensures { result ≡ modulo_period rem modulus }
{
    if modulus <= BOUND {
        Congr {
            rem: residue(rem, modulus) as i128,
            modulus: modulus as i128,
        }
    } else {
        unknown()
    }
}

impl Congr {
    /// The modulus without its sign.
    pub fn period(&self) -> u128
        ensures { result ≡ period self.now }
    {
        self.modulus.unsigned_abs()
    }

    /// Whether it is one number.
    pub fn is_single(&self) -> bool
        ensures { result ≡ is_only self.now }
    {
        self.period() == 0
    }

    /// Whether the congruence stands for the number.
    #[tactic(auto, unfolding(crate::specs::Rows::contains_row))]
    pub fn contains(&self, number: i128) -> bool
        ensures { result ≡ contains_row self.now number }
    {
        differ_by_multiple(number, self.rem, self.period())
    }

    /// The least congruence with the numbers of both, if it is within the bound.
    #[tactic(auto, unfolding(crate::specs::Rows::join_row))]
    pub fn join(&self, other: &Congr) -> Congr
        ensures { result ≡ join_row self.now other.now }
    {
        match difference(self.rem, other.rem) {
            None => unknown(),
            Some(far) => congruent(
                within_bound(self.rem),
                gcd(self.period(), gcd(other.period(), far.unsigned_abs())),
            ),
        }
    }

    /// Whether each number of this congruence is in the other.
    #[tactic(auto, unfolding(crate::specs::Rows::included_row))]
    pub fn included(&self, other: &Congr) -> bool
        ensures { result ≡ included_row self.now other.now }
    {
        other.divides_period(self) && differ_by_multiple(self.rem, other.rem, other.period())
    }

    /// Whether the period divides that of the other.
    fn divides_period(&self, other: &Congr) -> bool
        ensures { result ≡ divides (period self.now) (period other.now) }
    {
        differ_by_multiple(other.modulus, 0, self.period())
    }

    /// Whether some number is in both.
    #[tactic(auto, unfolding(crate::specs::Rows::may_meet))]
    pub fn meets(&self, other: &Congr) -> bool
        ensures { result ≡ may_meet self.now other.now }
    {
        differ_by_multiple(self.rem, other.rem, gcd(self.period(), other.period()))
    }

    /// The conversion to a type (C11 6.3.1.3) of numbers that may be outside it.
    #[tactic(auto, unfolding(crate::specs::Rows::convert_row))]
    pub fn convert(&self, shape: &Shape) -> Congr
        requires { IsShape shape.now }
        ensures { result ≡ convert_row shape.now self.now }
    {
        if self.is_single() {
            congruent(within_bound(wrap(self.rem, shape.lo, shape.width)), 0)
        } else {
            congruent(
                within_bound(self.rem),
                gcd(self.period(), unsigned_power_of_two(shape.width)),
            )
        }
    }
}
