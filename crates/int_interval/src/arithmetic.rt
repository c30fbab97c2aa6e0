//! `+ - * / %` and unary `-` on intervals, of whole numbers without bound and as operators of C.

ghost use Rattle.std.specs.Prelude.{◌≡◌, ◌≢◌, ◌*ℤ◌, ◌≤ℤ◌, pos, int_div, int_rem, unsigned_abs};
ghost use Rattle.int_interval.specs.Rows.{
  corner_cut,
  cut,
  difference_row,
  negative_row,
  product_row,
  quotient_row,
  quotients_above,
  quotients_below,
  reach,
  remainder_high,
  remainder_low,
  remainder_row,
  remainders,
  sum_row,
};

use crate::interval::{Interval, are_one, corners, cut_range, range};
use crate::shape::Shape;
use machine_ints::{difference, negative, product, quotient, remainder, sum};

impl Interval {
    /// The numbers `-x`.
    #[tactic(auto, unfolding(crate::specs::Rows::negative_row))]
    pub fn negation(&self) -> Interval
        ensures { result ≡ negative_row self.now }
    {
        match *self {
            Interval::Empty => Interval::Empty,
            Interval::Within { lo, hi } => range(negative(hi), negative(lo)),
            Interval::All => Interval::All,
        }
    }

    /// The sums.
    #[tactic(auto, unfolding(crate::specs::Rows::sum_row))]
    pub fn sum(&self, other: &Interval) -> Interval
        ensures { result ≡ sum_row self.now other.now }
    {
        match (*self, *other) {
            (Interval::Empty, _) | (_, Interval::Empty) => Interval::Empty,
            (Interval::Within { lo: a, hi: b }, Interval::Within { lo: c, hi: d }) => range(
                sum(a, c),
                sum(b, d),
            ),
            _ => Interval::All,
        }
    }

    /// The differences.
    #[tactic(auto, unfolding(crate::specs::Rows::difference_row))]
    pub fn difference(&self, other: &Interval) -> Interval
        ensures { result ≡ difference_row self.now other.now }
    {
        match (*self, *other) {
            (Interval::Empty, _) | (_, Interval::Empty) => Interval::Empty,
            (Interval::Within { lo: a, hi: b }, Interval::Within { lo: c, hi: d }) => {
                range(difference(a, d), difference(b, c))
            }
            _ => Interval::All,
        }
    }

    /// The products.
    #[tactic(auto, unfolding(crate::specs::Rows::product_row))]
    pub fn product(&self, other: &Interval) -> Interval
        ensures { result ≡ product_row self.now other.now }
    {
        match (*self, *other) {
            (Interval::Empty, _) | (_, Interval::Empty) => Interval::Empty,
            (Interval::Within { lo: a, hi: b }, Interval::Within { lo: c, hi: d }) => {
                products(a, b, c, d)
            }
            _ => Interval::All,
        }
    }

    /// The quotients towards zero. The divisor 0 gives nothing.
    #[tactic(auto, unfolding(crate::specs::Rows::quotient_row))]
    pub fn quotient(&self, other: &Interval) -> Interval
        ensures { result ≡ quotient_row self.now other.now }
    {
        match (*self, *other) {
            (Interval::Empty, _) | (_, Interval::Empty) => Interval::Empty,
            (Interval::Within { lo: a, hi: b }, Interval::Within { lo: c, hi: d }) => {
                by_negative(a, b, c, d).join(&by_positive(a, b, c, d))
            }
            _ => Interval::All,
        }
    }

    /// The remainders, with the sign of the dividend. The divisor 0 gives nothing.
    #[tactic(auto, unfolding(crate::specs::Rows::remainder_row))]
    pub fn remainder(&self, other: &Interval) -> Interval
        ensures { result ≡ remainder_row self.now other.now }
    {
        match (*self, *other) {
            (Interval::Empty, _) | (_, Interval::Empty) => Interval::Empty,
            (Interval::Within { lo: a, hi: b }, Interval::Within { lo: c, hi: d }) => remainders_of(
                a, b, c, d,
            ),
            _ => Interval::All,
        }
    }
}

/// The same as operators of C on a type, before any check.
impl Interval {
    /// Unary `-`.
    pub fn neg(&self, shape: &Shape) -> Interval
        ensures { result ≡ negative_row self.now }
    {
        self.negation()
    }

    /// `+`.
    pub fn add(&self, other: &Interval, shape: &Shape) -> Interval
        ensures { result ≡ sum_row self.now other.now }
    {
        self.sum(other)
    }

    /// `-`.
    pub fn sub(&self, other: &Interval, shape: &Shape) -> Interval
        ensures { result ≡ difference_row self.now other.now }
    {
        self.difference(other)
    }

    /// `*`.
    pub fn mul(&self, other: &Interval, shape: &Shape) -> Interval
        ensures { result ≡ product_row self.now other.now }
    {
        self.product(other)
    }

    /// `/`.
    pub fn div(&self, other: &Interval, shape: &Shape) -> Interval
        ensures { result ≡ quotient_row self.now other.now }
    {
        self.quotient(other)
    }

    /// `%`.
    pub fn rem(&self, other: &Interval, shape: &Shape) -> Interval
        ensures { result ≡ remainder_row self.now other.now }
    {
        self.remainder(other)
    }
}

/// The products of numbers from `a` to `b` with numbers from `c` to `d`.
fn products(a: i128, b: i128, c: i128, d: i128) -> Interval
    ensures { result ≡ corner_cut ◌*ℤ◌ a b c d }
{
    corners(product(a, c), product(a, d), product(b, c), product(b, d))
}

/// The quotients at the corners.
fn quotients(a: i128, b: i128, c: i128, d: i128) -> Interval
    requires first { c ≢ pos 0 }
    requires last { d ≢ pos 0 }
    ensures { result ≡ corner_cut int_div a b c d }
{
    corners(
        quotient(a, c),
        quotient(a, d),
        quotient(b, c),
        quotient(b, d),
    )
}

#[tactic(auto, unfolding(crate::specs::Rows::quotients_below))]
fn by_negative(a: i128, b: i128, c: i128, d: i128) -> Interval
    ensures { result ≡ quotients_below a b c d }
{
    if c < 0 {
        quotients(a, b, c, d.min(-1))
    } else {
        Interval::Empty
    }
}

#[tactic(auto, unfolding(crate::specs::Rows::quotients_above))]
fn by_positive(a: i128, b: i128, c: i128, d: i128) -> Interval
    ensures { result ≡ quotients_above a b c d }
{
    if 0 < d {
        quotients(a, b, c.max(1), d)
    } else {
        Interval::Empty
    }
}

#[tactic(auto, unfolding(crate::specs::Rows::remainders))]
fn remainders_of(a: i128, b: i128, c: i128, d: i128) -> Interval
    ensures { result ≡ remainders a b c d }
{
    if are_one(c, 0, d, 0) {
        Interval::Empty
    } else if are_one(a, b, c, d) {
        one_remainder(a, c)
    } else {
        many_remainders(a, b, c, d)
    }
}

fn one_remainder(a: i128, c: i128) -> Interval
    requires { c ≢ pos 0 }
    ensures { result ≡ cut (int_rem a c) (int_rem a c) }
{
    let rest = remainder(a, c);
    cut_range(rest, rest)
}

fn many_remainders(a: i128, b: i128, c: i128, d: i128) -> Interval
    ensures { result ≡ cut (remainder_low a (reach c d)) (remainder_high b (reach c d)) }
{
    let far = farthest(c, d);
    cut_range(lowest_remainder(a, far), highest_remainder(b, far))
}

/// The greatest absolute divisor less 1.
fn farthest(c: i128, d: i128) -> i128
    ensures { result ≡ pos (reach c d) }
{
    c.unsigned_abs().max(d.unsigned_abs()).saturating_sub(1) as i128
}

fn lowest_remainder(a: i128, far: i128) -> i128
    requires { pos 0 ≤ℤ far }
    ensures { result ≡ remainder_low a (unsigned_abs far) }
{
    if 0 <= a { 0 } else { a.max(-far) }
}

fn highest_remainder(b: i128, far: i128) -> i128
    requires { pos 0 ≤ℤ far }
    ensures { result ≡ remainder_high b (unsigned_abs far) }
{
    if b <= 0 { 0 } else { b.min(far) }
}
