//! Values: the type and its reduction.

ghost use Rattle.std.specs.Prelude.{◌≡◌, ◌≢◌, Bool, true, false, int_lt};
ghost use Rattle.std.specs.Option.{SomeIff};
ghost use Rattle.std.specs.Int.{w128};
ghost use Rattle.std.specs.Prelude.{FitsSigned, IsTrue, IsFalse};
ghost use Rattle.int_congr.specs.Rows.{is_only, unknown_of};
ghost use Rattle.int_interval.specs.Rows as intervals;
ghost use Rattle.int_interval.specs.Rows.{is_empty};
ghost use Rattle.int_value.specs.Rows.{
  all_of,
  answer_congr,
  answer_of,
  between,
  contains_row,
  empty_of,
  lowered_to,
  number_row,
  one_of,
  raised_to,
  reduce_row,
  reduced,
  reduced_range,
  single_of,
  value_of,
  whole_of,
};

use int_congr::Congr;
use int_interval::{Interval, Shape, is_one};
use machine_ints::{BOUND, residue_of_difference};

/// The numbers that are in the interval and in the congruence, and "no value" where `unset` says so. Each answer
/// is reduced: the ends of its interval are in its congruence, and what has no number is `Interval::Empty`.
#[derive(Clone, Copy, Debug, PartialEq, Eq)]
pub struct Value {
    pub range: Interval,
    pub congr: Congr,
    pub unset: bool,
}

/// No number.
pub(crate) fn empty(unset: bool) -> Value
    ensures { result ≡ empty_of unset }
{
    Value {
        range: Interval::Empty,
        congr: Congr { rem: 0, modulus: 1 },
        unset,
    }
}

/// All numbers.
fn all(unset: bool) -> Value
    ensures { result ≡ all_of unset }
{
    Value {
        range: Interval::All,
        congr: Congr { rem: 0, modulus: 1 },
        unset,
    }
}

/// One number.
pub(crate) fn one(number: i128, unset: bool) -> Value
    ensures { result ≡ one_of number unset }
{
    Value {
        range: Interval::Within {
            lo: number,
            hi: number,
        },
        congr: Congr {
            rem: number,
            modulus: 0,
        },
        unset,
    }
}

/// An answer by its parts, reduced; with `Interval::All` nothing more is known.
pub(crate) fn answer(range: Interval, congr: Congr, unset: bool) -> Value
    ensures { result ≡ answer_of range congr unset }
{
    reduced_parts(range, known(range, congr), unset)
}

/// What an answer with this interval knows of its congruence.
fn known(range: Interval, congr: Congr) -> Congr
    ensures { result ≡ answer_congr range congr }
{
    match range {
        Interval::Empty => congr,
        Interval::Within { lo, hi } => congr,
        Interval::All => Congr { rem: 0, modulus: 1 },
    }
}

/// The parts reduced.
pub(crate) fn reduced_parts(range: Interval, congr: Congr, unset: bool) -> Value
    ensures { result ≡ reduced_range range congr unset }
{
    let (range, congr) = reduced_pair(range, congr);
    Value {
        range,
        congr,
        unset,
    }
}

/// The interval and the congruence of what is reduced. The flag is added to them once, in the caller: whole values
/// handed from function to function would cost more time than the reduction itself.
fn reduced_pair(range: Interval, congr: Congr) -> (Interval, Congr)
    ensures { value_of result.0 result.1 false ≡ reduced_range range congr false }
{
    match range {
        Interval::Empty => nothing(),
        Interval::Within { lo, hi } => reduced_within(lo, hi, congr),
        Interval::All => (range, congr),
    }
}

/// The parts of no number.
fn nothing() -> (Interval, Congr)
    ensures { value_of result.0 result.1 false ≡ empty_of false }
{
    (Interval::Empty, Congr { rem: 0, modulus: 1 })
}

/// The parts of one number.
fn only(number: i128) -> (Interval, Congr)
    ensures { value_of result.0 result.1 false ≡ one_of number false }
{
    let range = Interval::Within {
        lo: number,
        hi: number,
    };
    let congr = Congr {
        rem: number,
        modulus: 0,
    };
    (range, congr)
}

#[tactic(auto, unfolding(crate::specs::Rows::reduced))]
fn reduced_within(lo: i128, hi: i128, congr: Congr) -> (Interval, Congr)
    ensures { value_of result.0 result.1 false ≡ reduced lo hi congr false }
{
    if congr.is_single() {
        reduced_single(lo, hi, congr)
    } else {
        reduced_between(lo, hi, congr)
    }
}

#[tactic(auto, unfolding(crate::specs::Rows::reduced))]
fn reduced_single(lo: i128, hi: i128, congr: Congr) -> (Interval, Congr)
    requires { is_only congr ≡ true }
    ensures { value_of result.0 result.1 false ≡ reduced lo hi congr false }
{
    if is_from_to(congr.rem, lo, hi) {
        only(congr.rem)
    } else {
        nothing()
    }
}

/// Whether the number is from `lo` to `hi`.
fn is_from_to(number: i128, lo: i128, hi: i128) -> bool
    ensures { result ≡ intervals.contains_row (Interval.Within lo hi) number }
{
    lo <= number && number <= hi
}

fn reduced_between(lo: i128, hi: i128, congr: Congr) -> (Interval, Congr)
    requires { is_only congr ≡ false }
    ensures { value_of result.0 result.1 false
        ≡ between (raised_to congr lo) (lowered_to congr hi) congr false }
{
    match raised(lo, congr) {
        None => nothing(),
        Some(least) => match lowered(hi, congr) {
            None => nothing(),
            Some(greatest) => ends_between(least, greatest, congr),
        },
    }
}

/// `lo` raised to the next number of the congruence, if it fits.
fn raised(lo: i128, congr: Congr) -> Option<i128>
    requires { is_only congr ≡ false }
    ensures { SomeIff result (FitsSigned w128 (raised_to congr lo)) (raised_to congr lo) }
{
    lo.checked_add_unsigned(residue_of_difference(congr.rem, lo, congr.period()))
}

/// `hi` lowered to the next number of the congruence, if it fits.
fn lowered(hi: i128, congr: Congr) -> Option<i128>
    requires { is_only congr ≡ false }
    ensures { SomeIff result (FitsSigned w128 (lowered_to congr hi)) (lowered_to congr hi) }
{
    hi.checked_sub_unsigned(residue_of_difference(hi, congr.rem, congr.period()))
}

fn ends_between(lo: i128, hi: i128, congr: Congr) -> (Interval, Congr)
    ensures { value_of result.0 result.1 false ≡ between lo hi congr false }
{
    if hi < lo {
        nothing()
    } else if hi <= lo {
        only(lo)
    } else {
        (Interval::Within { lo, hi }, congr)
    }
}

impl Value {
    /// The value with its ends in its congruence: `lo` is raised and `hi` lowered to the nearest number of it. What
    /// has no number becomes empty, and what has one number a single number. An interval `All` is left as it is.
    #[tactic(auto, unfolding(crate::specs::Rows::reduce_row))]
    pub fn reduce(&self) -> Value
        ensures { result ≡ reduce_row self.now }
    {
        reduced_parts(self.range, self.congr, self.unset)
    }

    /// Whether the number is in the value.
    #[tactic(auto, unfolding(crate::specs::Rows::contains_row))]
    pub fn contains(&self, number: i128) -> bool
        ensures { result ≡ contains_row self.now number }
    {
        self.range.contains(number) && self.congr.contains(number)
    }

    /// Whether the value has no number.
    pub fn is_empty(&self) -> bool
        ensures { result ≡ is_empty self.now.range }
    {
        self.range.is_empty()
    }

    /// The one number, if there is just one.
    pub fn single(&self) -> Option<i128>
        ensures { result ≡ single_of self.now.range }
    {
        match self.range {
            Interval::Empty => None,
            Interval::Within { lo, hi } => { if is_one(lo, hi) { Some(lo) } else { None } }
            Interval::All => None,
        }
    }

    /// The value of one number; past 2^126 in absolute value it is all numbers.
    #[tactic(auto, unfolding(crate::specs::Rows::number_row))]
    pub fn number(number: i128) -> Value
        ensures { result ≡ number_row number }
    {
        if number.unsigned_abs() <= BOUND {
            one(number, false)
        } else {
            all(false)
        }
    }

    /// Each number of the type, and no value too where `unset` says so.
    pub fn whole(shape: &Shape, unset: bool) -> Value
        ensures { result ≡ whole_of shape.now unset }
    {
        Value {
            range: Interval::Within {
                lo: shape.lo,
                hi: shape.hi,
            },
            congr: Congr { rem: 0, modulus: 1 },
            unset,
        }
    }
}
