//! Checks that the ranges of the operands decide, whatever the operands are.

ghost use Rattle.std.specs.Prelude.{◌≡◌, ◌↔◌, ◌&&◌, negsuc, not, IsTrue};
ghost use Rattle.machine_ints.specs.Convert.{IsType};
ghost use Rattle.machine_ints.specs.Decided.{AlwaysPasses, IsOrdered, UnaryAlwaysPasses};
ghost use Rattle.machine_ints.specs.inner.Decided.{
  are_given_among,
  ends_fit,
  ends_pass,
  is_among,
  is_given_among,
  is_shifted_among,
  reach,
  unary_ends_fit,
};

use crate::bits::not;
use crate::bounded::{difference, negative, product, shifted_left, sum};
use crate::operators::{Check, Operator, UnaryOperator};

/// The numbers from `lo` to `hi`.
#[derive(Clone, Copy, Debug, PartialEq, Eq)]
pub struct Ends {
    pub lo: i128,
    pub hi: i128,
}

/// Whether every number of `left` with every number of `right` passes the check of the operator in the type, which
/// is given by its range and its width. Asks that both ranges have a number (C11 6.5.5 to 6.5.7 have the checks).
pub fn always_passes(
    check: Check,
    operator: Operator,
    of_type: &Ends,
    width: u32,
    left: &Ends,
    right: &Ends,
) -> bool
    requires is_type { IsType of_type.now.lo of_type.now.hi width }
    requires left { IsOrdered left.now }
    requires right { IsOrdered right.now }
    ensures { IsTrue result ↔ AlwaysPasses check operator of_type.now width left.now right.now }
{
    do_ends_pass(check, operator, of_type, width, left, right)
}

/// The same of the one check of an operator with one operand, that of overflow.
pub fn unary_always_passes(
    operator: UnaryOperator,
    of_type: &Ends,
    width: u32,
    operand: &Ends,
) -> bool
    requires is_type { IsType of_type.now.lo of_type.now.hi width }
    requires operand { IsOrdered operand.now }
    ensures { IsTrue result ↔ UnaryAlwaysPasses operator of_type.now operand.now }
{
    do_unary_ends_fit(operator, of_type, operand)
}

fn do_ends_pass(
    check: Check,
    operator: Operator,
    of_type: &Ends,
    width: u32,
    left: &Ends,
    right: &Ends,
) -> bool
    ensures { result ≡ ends_pass check operator of_type.now width left.now right.now }
{
    match check {
        Check::Division => !has(right, 0),
        Check::Overflow => do_ends_fit(operator, of_type, left, right),
        Check::Shift => 0 <= right.lo && right.hi < i128::from(width),
    }
}

fn do_ends_fit(operator: Operator, of_type: &Ends, left: &Ends, right: &Ends) -> bool
    ensures { result ≡ ends_fit operator of_type.now left.now right.now }
{
    match operator {
        Operator::Add => both_among(of_type, sum(left.lo, right.lo), sum(left.hi, right.hi)),
        Operator::Sub => both_among(
            of_type,
            difference(left.lo, right.hi),
            difference(left.hi, right.lo),
        ),
        Operator::Mul => products_among(of_type, left, right),
        Operator::Div => !both_have(left, of_type.lo, right, -1),
        Operator::Rem => !both_have(left, of_type.lo, right, -1),
        Operator::Shl => 0 <= left.lo && shifted_among(of_type, left.hi, farthest(right)),
        Operator::Shr => true,
        Operator::And => true,
        Operator::Or => true,
        Operator::Xor => true,
    }
}

fn do_unary_ends_fit(operator: UnaryOperator, of_type: &Ends, operand: &Ends) -> bool
    ensures { result ≡ unary_ends_fit operator of_type.now operand.now }
{
    match operator {
        UnaryOperator::Negate => both_among(of_type, negative(operand.hi), negative(operand.lo)),
        UnaryOperator::Complement => {
            both_among(of_type, Some(not(operand.hi)), Some(not(operand.lo)))
        }
    }
}

/// Whether the number is in the range.
fn has(ends: &Ends, number: i128) -> bool
    ensures { result ≡ is_among ends.now number }
{
    ends.lo <= number && number <= ends.hi
}

fn both_have(left: &Ends, x: i128, right: &Ends, y: i128) -> bool
    ensures { result ≡ (is_among left.now x && is_among right.now y) }
{
    has(left, x) && has(right, y)
}

/// Whether the number is within the bound and in the range.
fn is_in(ends: &Ends, number: Option<i128>) -> bool
    ensures { result ≡ is_given_among ends.now number }
{
    match number {
        Some(number) => has(ends, number),
        None => false,
    }
}

fn both_among(ends: &Ends, one: Option<i128>, other: Option<i128>) -> bool
    ensures { result ≡ are_given_among ends.now one other }
{
    is_in(ends, one) && is_in(ends, other)
}

fn products_among(ends: &Ends, left: &Ends, right: &Ends) -> bool
    ensures { result ≡ ends_fit Operator.Mul ends.now left.now right.now }
{
    both_among(ends, product(left.lo, right.lo), product(left.lo, right.hi))
        && both_among(ends, product(left.hi, right.lo), product(left.hi, right.hi))
}

/// The greatest absolute value of the range.
fn farthest(ends: &Ends) -> u128
    ensures { result ≡ reach ends.now }
{
    ends.lo.unsigned_abs().max(ends.hi.unsigned_abs())
}

/// Whether `top`, if it is above 0, is in the range when it is multiplied by 2^`by`.
fn shifted_among(ends: &Ends, top: i128, by: u128) -> bool
    ensures { result ≡ is_shifted_among ends.now top by }
{
    if top <= 0 {
        true
    } else if by < 127 {
        is_in(ends, shifted_left(top, by as u32))
    } else {
        false
    }
}
