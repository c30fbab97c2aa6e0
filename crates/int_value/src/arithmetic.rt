//! `+ - * / %` and unary `-` with their checks.

ghost use Rattle.std.specs.Prelude.{◌≡◌, ◌&&◌, ◌||◌, not, false, if◌then◌else◌};
ghost use Rattle.int_interval.specs.Rows.{is_just};
ghost use Rattle.int_interval.specs.Shapes.{IsShape, is_signed};
ghost use Rattle.int_value.specs.Rows.{
  contains_row,
  convert_row,
  difference_row,
  empty_of,
  meet_row,
  negation_row,
  product_row,
  quotient_row,
  remainder_row,
  sum_row,
  type_range,
};
ghost use Rattle.int_value.specs.Typed.{IsReduced};
ghost use Rattle.int_value.specs.Checks.{
  add_row,
  div_row,
  divided_row,
  divisor_said,
  is_checked,
  is_no,
  mul_row,
  neg_row,
  quotient_said,
  rem_row,
  said_of,
  said_on,
  sub_row,
  typed_row,
  within_said,
};

use crate::convert::range_of_type;
use crate::made::Made;
use crate::value::{Value, answer, empty};
use int_interval::{Interval, Said, Shape};

/// Operators on whole numbers without bound, as terms of annotations have them. The results aren't unset.
impl Value {
    /// The numbers `-x`.
    #[tactic(auto, unfolding(crate::specs::Rows::negation_row))]
    pub fn negation(&self) -> Value
        ensures { result ≡ negation_row self.now }
    {
        answer(self.range.negation(), self.congr.negation(), false)
    }

    /// The sums.
    #[tactic(auto, unfolding(crate::specs::Rows::sum_row))]
    pub fn sum(&self, other: &Value) -> Value
        ensures { result ≡ sum_row self.now other.now }
    {
        answer(
            self.range.sum(&other.range),
            self.congr.sum(&other.congr),
            false,
        )
    }

    /// The differences.
    #[tactic(auto, unfolding(crate::specs::Rows::difference_row))]
    pub fn difference(&self, other: &Value) -> Value
        ensures { result ≡ difference_row self.now other.now }
    {
        answer(
            self.range.difference(&other.range),
            self.congr.difference(&other.congr),
            false,
        )
    }

    /// The products.
    #[tactic(auto, unfolding(crate::specs::Rows::product_row))]
    pub fn product(&self, other: &Value) -> Value
        ensures { result ≡ product_row self.now other.now }
    {
        answer(
            self.range.product(&other.range),
            self.congr.product(&other.congr),
            false,
        )
    }

    /// The quotients towards zero. The divisor 0 gives nothing.
    #[tactic(auto, unfolding(crate::specs::Rows::quotient_row))]
    pub fn quotient(&self, other: &Value) -> Value
        ensures { result ≡ quotient_row self.now other.now }
    {
        answer(
            self.range.quotient(&other.range),
            self.congr.quotient(&other.congr),
            false,
        )
    }

    /// The remainders, with the sign of the dividend. The divisor 0 gives nothing.
    #[tactic(auto, unfolding(crate::specs::Rows::remainder_row))]
    pub fn remainder(&self, other: &Value) -> Value
        ensures { result ≡ remainder_row self.now other.now }
    {
        answer(
            self.range.remainder(&other.range),
            self.congr.remainder(&other.congr),
            false,
        )
    }
}

/// Operators of C on a type. `overflow` says whether the check signed_overflow is made.
impl Value {
    /// Unary `-` with the check signed_overflow.
    #[tactic(auto, unfolding(crate::specs::Checks::neg_row))]
    pub fn neg(&self, shape: &Shape, overflow: bool) -> Made
        requires { IsShape shape.now }
        ensures { result ≡ neg_row shape.now overflow self.now }
    {
        typed(self.negation(), shape, overflow)
    }

    /// `+` with the check signed_overflow.
    #[tactic(auto, unfolding(crate::specs::Checks::add_row))]
    pub fn add(&self, other: &Value, shape: &Shape, overflow: bool) -> Made
        requires { IsShape shape.now }
        ensures { result ≡ add_row shape.now overflow self.now other.now }
    {
        typed(self.sum(other), shape, overflow)
    }

    /// `-` with the check signed_overflow.
    #[tactic(auto, unfolding(crate::specs::Checks::sub_row))]
    pub fn sub(&self, other: &Value, shape: &Shape, overflow: bool) -> Made
        requires { IsShape shape.now }
        ensures { result ≡ sub_row shape.now overflow self.now other.now }
    {
        typed(self.difference(other), shape, overflow)
    }

    /// `*` with the check signed_overflow.
    #[tactic(auto, unfolding(crate::specs::Checks::mul_row))]
    pub fn mul(&self, other: &Value, shape: &Shape, overflow: bool) -> Made
        requires { IsShape shape.now }
        ensures { result ≡ mul_row shape.now overflow self.now other.now }
    {
        typed(self.product(other), shape, overflow)
    }

    /// `/` with the checks division_by_zero and signed_overflow, which is that of the least number by -1.
    #[tactic(auto, unfolding(crate::specs::Checks::div_row))]
    pub fn div(&self, other: &Value, shape: &Shape, overflow: bool) -> Made
        requires { IsShape shape.now }
        ensures { result ≡ div_row shape.now overflow self.now other.now }
    {
        let exact = self.quotient(other);
        divided(self, other, &exact, shape, overflow)
    }

    /// `%` with the checks division_by_zero and signed_overflow, which is that of the least number by -1.
    #[tactic(auto, unfolding(crate::specs::Checks::rem_row))]
    pub fn rem(&self, other: &Value, shape: &Shape, overflow: bool) -> Made
        requires { IsShape shape.now }
        ensures { result ≡ rem_row shape.now overflow self.now other.now }
    {
        let exact = self.remainder(other);
        divided(self, other, &exact, shape, overflow)
    }
}

/// The exact value brought into the type: met with it where the overflow is checked, else converted.
#[tactic(auto, unfolding(crate::specs::Checks::typed_row))]
pub(crate) fn typed(exact: Value, shape: &Shape, overflow: bool) -> Made
    requires { IsShape shape.now }
    ensures { result ≡ typed_row shape.now overflow exact }
{
    if checks_overflow(shape, overflow) {
        Made {
            value: exact.meet(&range_of_type(shape)),
            first: Some(said_within(shape.lo, shape.hi, &exact.range)),
            second: None,
        }
    } else {
        Made {
            value: exact.convert(shape),
            first: None,
            second: None,
        }
    }
}

/// Whether the check signed_overflow is made.
pub(crate) fn checks_overflow(shape: &Shape, overflow: bool) -> bool
    ensures { result ≡ is_checked shape.now overflow }
{
    shape.lo < 0 && overflow
}

/// Whether all, none or some of the interval lies from `lo` to `hi`.
pub(crate) fn said_within(lo: i128, hi: i128, range: &Interval) -> Said
    ensures { result ≡ within_said lo hi range.now }
{
    match *range {
        Interval::Empty => Said::Unreached,
        Interval::Within { lo: a, hi: b } => said(lo <= a && b <= hi, b < lo || hi < a),
        Interval::All => Said::Maybe,
    }
}

/// Yes, no or neither, by two tests.
pub(crate) fn said(yes_if: bool, no_if: bool) -> Said
    ensures { result ≡ said_of yes_if no_if }
{
    if yes_if {
        Said::Yes
    } else if no_if {
        Said::No
    } else {
        Said::Maybe
    }
}

/// The same where both operands have numbers.
fn said_on_both(left: &Value, right: &Value, yes_if: bool, no_if: bool) -> Said
    ensures { result ≡ said_on left.now right.now yes_if no_if }
{
    if left.range.is_empty() || right.range.is_empty() {
        Said::Unreached
    } else {
        said(yes_if, no_if)
    }
}

/// What is said of division_by_zero.
fn said_of_divisor(left: &Value, right: &Value) -> Said
    ensures { result ≡ divisor_said left.now right.now }
{
    said_on_both(left, right, !right.contains(0), right.range.is_just(0))
}

/// What is said of the overflow of the least number by -1.
fn said_of_quotient(left: &Value, right: &Value, shape: &Shape) -> Said
    ensures { result ≡ quotient_said shape.now left.now right.now }
{
    said_on_both(
        left,
        right,
        lacks(left, shape.lo, right, -1),
        are_only(left, shape.lo, right, -1),
    )
}

fn lacks(left: &Value, x: i128, right: &Value, y: i128) -> bool
    ensures { result ≡ (not (contains_row left.now x) || not (contains_row right.now y)) }
{
    !left.contains(x) || !right.contains(y)
}

fn are_only(left: &Value, x: i128, right: &Value, y: i128) -> bool
    ensures { result ≡ (is_just left.now.range x && is_just right.now.range y) }
{
    left.range.is_just(x) && right.range.is_just(y)
}

/// What the checks of `/` and `%` make of the exact value.
#[tactic(auto, unfolding(crate::specs::Checks::divided_row))]
fn divided(left: &Value, right: &Value, exact: &Value, shape: &Shape, overflow: bool) -> Made
    requires shape { IsShape shape.now }
    requires exact { IsReduced exact.now }
    ensures { result ≡ divided_row shape.now overflow left.now right.now exact.now }
{
    let first = Some(said_of_divisor(left, right));
    if checks_overflow(shape, overflow) {
        let quotient = said_of_quotient(left, right, shape);
        Made {
            value: left_by(quotient, exact, shape),
            first,
            second: Some(quotient),
        }
    } else {
        Made {
            value: if_signed(exact, shape),
            first,
            second: None,
        }
    }
}

/// What the check of overflow leaves of the exact value: nothing where it fails for all, else what is in the type.
fn left_by(said: Said, exact: &Value, shape: &Shape) -> Value
    requires { IsReduced exact.now }
    ensures { result ≡ (if is_no said then empty_of false
        else meet_row exact.now (type_range shape.now)) }
{
    match said {
        Said::No => empty(false),
        Said::Yes => met_with_type(exact, shape),
        Said::Maybe => met_with_type(exact, shape),
        Said::Unreached => met_with_type(exact, shape),
    }
}

/// The value met with the type's range. What lies there, as it mostly does, is left as it is.
#[inline(always)]
fn met_with_type(exact: &Value, shape: &Shape) -> Value
    requires { IsReduced exact.now }
    ensures { result ≡ meet_row exact.now (type_range shape.now) }
{
    if exact.range.included(&range_of_type(shape)) {
        *exact
    } else {
        exact.meet(&range_of_type(shape))
    }
}

fn if_signed(exact: &Value, shape: &Shape) -> Value
    requires { IsShape shape.now }
    ensures { result ≡ (if is_signed shape.now then convert_row shape.now exact.now
        else exact.now) }
{
    if shape.lo < 0 {
        exact.convert(shape)
    } else {
        *exact
    }
}
