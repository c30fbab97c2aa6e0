//! `+ - * / %` and unary `-` on congruences, of whole numbers without bound and as operators of C.

ghost use Rattle.std.specs.Prelude.{◌≡◌, ◌&&◌};
ghost use Rattle.int_congr.specs.Rows.{
  congr_of,
  difference_row,
  is_only,
  negative_row,
  product_from,
  product_row,
  quotient_row,
  remainder_row,
  sum_row,
};

use crate::congr::{Congr, congruent, unknown};
use int_interval::Shape;
use machine_ints::{difference, gcd, negative, product, quotient, remainder, sum, within_bound};

impl Congr {
    /// The numbers `-x`.
    #[tactic(auto, unfolding(crate::specs::Rows::negative_row))]
    pub fn negation(&self) -> Congr
        ensures { result ≡ negative_row self.now }
    {
        congruent(negative(self.rem), self.period())
    }

    /// The sums.
    #[tactic(auto, unfolding(crate::specs::Rows::sum_row))]
    pub fn sum(&self, other: &Congr) -> Congr
        ensures { result ≡ sum_row self.now other.now }
    {
        congruent(sum(self.rem, other.rem), gcd(self.period(), other.period()))
    }

    /// The differences.
    #[tactic(auto, unfolding(crate::specs::Rows::difference_row))]
    pub fn difference(&self, other: &Congr) -> Congr
        ensures { result ≡ difference_row self.now other.now }
    {
        congruent(
            difference(self.rem, other.rem),
            gcd(self.period(), other.period()),
        )
    }

    /// The products.
    #[tactic(auto, unfolding(crate::specs::Rows::product_row))]
    pub fn product(&self, other: &Congr) -> Congr
        ensures { result ≡ product_row self.now other.now }
    {
        products(
            product(self.modulus, other.modulus),
            product(self.modulus, other.rem),
            product(other.modulus, self.rem),
            product(self.rem, other.rem),
        )
    }

    /// The quotients towards zero: exact on single numbers, but for the divisor 0.
    #[tactic(auto, unfolding(crate::specs::Rows::quotient_row))]
    pub fn quotient(&self, other: &Congr) -> Congr
        ensures { result ≡ quotient_row self.now other.now }
    {
        if self.both_single(other) {
            if other.rem == 0 {
                unknown()
            } else {
                congruent(quotient(self.rem, other.rem), 0)
            }
        } else {
            unknown()
        }
    }

    /// The remainders, with the sign of the dividend: exact on single numbers, but for the divisor 0.
    #[tactic(auto, unfolding(crate::specs::Rows::remainder_row))]
    pub fn remainder(&self, other: &Congr) -> Congr
        ensures { result ≡ remainder_row self.now other.now }
    {
        if self.both_single(other) {
            if other.rem == 0 {
                unknown()
            } else {
                single(remainder(self.rem, other.rem))
            }
        } else {
            unknown()
        }
    }

    /// Whether both are single numbers.
    pub(crate) fn both_single(&self, other: &Congr) -> bool
        ensures { result ≡ (is_only self.now && is_only other.now) }
    {
        self.is_single() && other.is_single()
    }
}

/// The same as operators of C on a type, before any check.
impl Congr {
    /// Unary `-`.
    pub fn neg(&self, shape: &Shape) -> Congr
        ensures { result ≡ negative_row self.now }
    {
        self.negation()
    }

    /// `+`.
    pub fn add(&self, other: &Congr, shape: &Shape) -> Congr
        ensures { result ≡ sum_row self.now other.now }
    {
        self.sum(other)
    }

    /// `-`.
    pub fn sub(&self, other: &Congr, shape: &Shape) -> Congr
        ensures { result ≡ difference_row self.now other.now }
    {
        self.difference(other)
    }

    /// `*`.
    pub fn mul(&self, other: &Congr, shape: &Shape) -> Congr
        ensures { result ≡ product_row self.now other.now }
    {
        self.product(other)
    }

    /// `/`.
    pub fn div(&self, other: &Congr, shape: &Shape) -> Congr
        ensures { result ≡ quotient_row self.now other.now }
    {
        self.quotient(other)
    }

    /// `%`.
    pub fn rem(&self, other: &Congr, shape: &Shape) -> Congr
        ensures { result ≡ remainder_row self.now other.now }
    {
        self.remainder(other)
    }
}

/// The one number, if it is within the bound.
pub(crate) fn single(number: i128) -> Congr
    ensures { result ≡ congr_of number 0 }
{
    congruent(within_bound(number), 0)
}

/// The congruence of a product, of the products of the moduli, of each modulus with the other's remainder and of
/// the remainders.
fn products(
    moduli: Option<i128>,
    left: Option<i128>,
    right: Option<i128>,
    rems: Option<i128>,
) -> Congr
    ensures { result ≡ product_from moduli left right rems }
{
    match (moduli, left, right) {
        (Some(moduli), Some(left), Some(right)) => congruent(
            rems,
            gcd(
                moduli.unsigned_abs(),
                gcd(left.unsigned_abs(), right.unsigned_abs()),
            ),
        ),
        _ => unknown(),
    }
}
