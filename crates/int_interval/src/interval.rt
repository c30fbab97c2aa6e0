//! Intervals: the type, and intervals as sets.

ghost use Rattle.std.specs.Prelude.{◌≡◌, ◌↔◌, IsTrue, ℤ, pos};
ghost use Rattle.machine_ints.specs.Corners.{greatest4, least4};
ghost use Rattle.int_interval.specs.Laws.{Holds};
ghost use Rattle.int_interval.specs.Rows.{
  are_natural,
  are_one,
  contains_row,
  convert_row,
  cut,
  four_of,
  included_row,
  is_empty,
  is_inside,
  is_just,
  is_one,
  join_row,
  meet_row,
  range_of,
};
ghost use Rattle.int_interval.specs.Shapes.{IsShape};

use crate::shape::Shape;
use machine_ints::{within_bound, wrap};

/// A set of whole numbers.
#[derive(Clone, Copy, Debug, PartialEq, Eq)]
pub enum Interval {
    /// No number.
    Empty,
    /// The numbers from `lo` to `hi`.
    Within { lo: i128, hi: i128 },
    /// All numbers.
    All,
}

/// The interval with these ends, or all numbers where an end is past the bound.
pub(crate) fn range(lo: Option<i128>, hi: Option<i128>) -> Interval
    ensures { result ≡ range_of lo hi }
{
    match (lo, hi) {
        (Some(lo), Some(hi)) => Interval::Within { lo, hi },
        _ => Interval::All,
    }
}

/// The same of two numbers.
pub(crate) fn cut_range(lo: i128, hi: i128) -> Interval
    ensures { result ≡ cut lo hi }
{
    range(within_bound(lo), within_bound(hi))
}

/// From the least to the greatest of four numbers, each given where it is within the bound.
pub(crate) fn corners(
    p: Option<i128>,
    q: Option<i128>,
    r: Option<i128>,
    s: Option<i128>,
) -> Interval
    ensures { result ≡ four_of p q r s }
{
    match (p, q, r, s) {
        (Some(p), Some(q), Some(r), Some(s)) => Interval::Within {
            lo: least(p, q, r, s),
            hi: greatest(p, q, r, s),
        },
        _ => Interval::All,
    }
}

fn least(p: i128, q: i128, r: i128, s: i128) -> i128
    ensures { result ≡ least4 p q r s }
{
    p.min(q).min(r.min(s))
}

fn greatest(p: i128, q: i128, r: i128, s: i128) -> i128
    ensures { result ≡ greatest4 p q r s }
{
    p.max(q).max(r.max(s))
}

/// Whether the two ends are one number.
pub fn is_one(lo: i128, hi: i128) -> bool
    ensures { result ≡ is_one lo hi }
{
    lo == hi
}

/// Whether each pair of ends is one number.
pub fn are_one(a: i128, b: i128, c: i128, d: i128) -> bool
    ensures { result ≡ are_one a b c d }
{
    a == b && c == d
}

/// Whether neither number is negative.
pub(crate) fn are_not_negative(a: i128, c: i128) -> bool
    ensures { result ≡ are_natural a c }
{
    0 <= a && 0 <= c
}

/// Whether from `a` to `b` lies within from `c` to `d`.
fn is_within(a: i128, b: i128, c: i128, d: i128) -> bool
    ensures { result ≡ is_inside a b c d }
{
    c <= a && b <= d
}

impl Interval {
    /// The interval with these ends, or all numbers where an end is past 2^126 in absolute value.
    pub fn cut(lo: i128, hi: i128) -> Interval
        ensures { result ≡ cut lo hi }
    {
        cut_range(lo, hi)
    }

    /// Whether the interval has no number.
    pub fn is_empty(&self) -> bool
        ensures { result ≡ is_empty self.now }
    {
        match *self {
            Interval::Empty => true,
            Interval::Within { lo, hi } => false,
            Interval::All => false,
        }
    }

    /// Whether the interval is this number alone.
    pub fn is_just(&self, number: i128) -> bool
        ensures { result ≡ is_just self.now number }
    {
        match *self {
            Interval::Empty => false,
            Interval::Within { lo, hi } => lo == number && hi == number,
            Interval::All => false,
        }
    }

    /// Whether the interval stands for the number.
    pub fn contains(&self, number: i128) -> bool
        ensures value { result ≡ contains_row self.now number }
        ensures member { IsTrue result ↔ Holds self.now number }
    {
        match *self {
            Interval::Empty => false,
            Interval::Within { lo, hi } => lo <= number && number <= hi,
            Interval::All => true,
        }
    }

    /// The least interval with the numbers of both.
    #[tactic(auto, unfolding(crate::specs::Rows::join_row))]
    pub fn join(&self, other: &Interval) -> Interval
        ensures { result ≡ join_row self.now other.now }
    {
        match (*self, *other) {
            (Interval::Empty, right) => right,
            (left, Interval::Empty) => left,
            (Interval::Within { lo: a, hi: b }, Interval::Within { lo: c, hi: d }) => cut_range(
                a.min(c),
                b.max(d),
            ),
            _ => Interval::All,
        }
    }

    /// The numbers that both have.
    #[tactic(auto, unfolding(crate::specs::Rows::meet_row))]
    pub fn meet(&self, other: &Interval) -> Interval
        ensures { result ≡ meet_row self.now other.now }
    {
        match (*self, *other) {
            (Interval::Empty, _) | (_, Interval::Empty) => Interval::Empty,
            (Interval::All, right) => right,
            (left, Interval::All) => left,
            (Interval::Within { lo: a, hi: b }, Interval::Within { lo: c, hi: d }) => {
                let lo = a.max(c);
                let hi = b.min(d);
                if lo <= hi {
                    Interval::Within { lo, hi }
                } else {
                    Interval::Empty
                }
            }
        }
    }

    /// Whether the ends lie within those of the other.
    #[tactic(auto, unfolding(crate::specs::Rows::included_row))]
    pub fn included(&self, other: &Interval) -> bool
        ensures { result ≡ included_row self.now other.now }
    {
        match (*self, *other) {
            (Interval::Empty, _) | (_, Interval::All) => true,
            (Interval::Within { lo: a, hi: b }, Interval::Within { lo: c, hi: d }) => is_within(
                a, b, c, d,
            ),
            _ => false,
        }
    }

    /// The conversion to a type (C11 6.3.1.3): exact within the type and of one number, else the type's range.
    #[tactic(auto, unfolding(crate::specs::Rows::convert_row))]
    pub fn convert(&self, shape: &Shape) -> Interval
        requires { IsShape shape.now }
        ensures { result ≡ convert_row shape.now self.now }
    {
        match *self {
            Interval::Empty => Interval::Empty,
            Interval::All => cut_range(shape.lo, shape.hi),
            Interval::Within { lo, hi } => converted(lo, hi, shape),
        }
    }
}

#[tactic(auto, unfolding(crate::specs::Rows::convert_row))]
fn converted(lo: i128, hi: i128, shape: &Shape) -> Interval
    requires { IsShape shape.now }
    ensures { result ≡ convert_row shape.now (Interval.Within lo hi) }
{
    if is_within(lo, hi, shape.lo, shape.hi) {
        Interval::Within { lo, hi }
    } else if is_one(lo, hi) {
        let wrapped = wrap(lo, shape.lo, shape.width);
        cut_range(wrapped, wrapped)
    } else {
        cut_range(shape.lo, shape.hi)
    }
}
