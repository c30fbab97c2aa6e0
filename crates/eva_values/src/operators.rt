//! Operators on values.

ghost use Rattle.std.specs.Prelude.{◌≡◌, false};
ghost use Rattle.machine_ints.specs.Operators as operators;
ghost use Rattle.int_interval.specs.Shapes.{IsShape};
ghost use Rattle.int_value.specs.Rows as rows;
ghost use Rattle.eva_values.specs.Marks.{made_by, made_by_unary};
ghost use Rattle.eva_values.specs.Values as spec;
ghost use Rattle.eva_values.specs.inner.Forms as inner;

use fc_base::{BinaryOp, Relation};
use int_congr::Congr;
use int_interval::{Interval, Said, Shape};
use int_value::{Made, Value};
use machine_ints::{Check, Operator, UnaryOperator};

/// What stands between two operands.
pub(crate) enum Form {
    /// `&&` where it goes on after a true left operand, `||` where it does after a false one.
    Logic(bool),
    Relation(Relation),
    Operator(Operator),
}

pub(crate) fn form_of(op: BinaryOp) -> Form
    ensures { result ≡ inner.form_of op }
{
    match op {
        BinaryOp::LogicOr => Form::Logic(false),
        BinaryOp::LogicAnd => Form::Logic(true),
        BinaryOp::Or => Form::Operator(Operator::Or),
        BinaryOp::Xor => Form::Operator(Operator::Xor),
        BinaryOp::And => Form::Operator(Operator::And),
        BinaryOp::Equal => Form::Relation(Relation::Equal),
        BinaryOp::NotEqual => Form::Relation(Relation::NotEqual),
        BinaryOp::Less => Form::Relation(Relation::Less),
        BinaryOp::Greater => Form::Relation(Relation::Greater),
        BinaryOp::LessEq => Form::Relation(Relation::LessEq),
        BinaryOp::GreaterEq => Form::Relation(Relation::GreaterEq),
        BinaryOp::Shl => Form::Operator(Operator::Shl),
        BinaryOp::Shr => Form::Operator(Operator::Shr),
        BinaryOp::Add => Form::Operator(Operator::Add),
        BinaryOp::Sub => Form::Operator(Operator::Sub),
        BinaryOp::Mul => Form::Operator(Operator::Mul),
        BinaryOp::Div => Form::Operator(Operator::Div),
        BinaryOp::Rem => Form::Operator(Operator::Rem),
    }
}

/// An operator with two operands in a type (C11 6.5.5 to 6.5.12).
pub(crate) fn made(op: Operator, left: &Value, right: &Value, shape: &Shape, overflow: bool) -> Made
    requires { IsShape shape.now }
    ensures { result ≡ made_by op shape.now overflow left.now right.now }
{
    match op {
        Operator::Add => left.add(right, shape, overflow),
        Operator::Sub => left.sub(right, shape, overflow),
        Operator::Mul => left.mul(right, shape, overflow),
        Operator::Div => left.div(right, shape, overflow),
        Operator::Rem => left.rem(right, shape, overflow),
        Operator::Shl => left.shl(right, shape, overflow),
        Operator::Shr => left.shr(right, shape, overflow),
        Operator::And => left.and(right, shape, overflow),
        Operator::Or => left.or(right, shape, overflow),
        Operator::Xor => left.xor(right, shape, overflow),
    }
}

/// An operator with one operand in a type (C11 6.5.3.3).
pub(crate) fn made_unary(op: UnaryOperator, value: &Value, shape: &Shape, overflow: bool) -> Made
    requires { IsShape shape.now }
    ensures { result ≡ made_by_unary op shape.now overflow value.now }
{
    match op {
        UnaryOperator::Negate => value.neg(shape, overflow),
        UnaryOperator::Complement => value.invert(shape, overflow),
    }
}

/// The checks of an operator, in their order.
pub(crate) fn checks_of(op: Operator) -> (Option<Check>, Option<Check>)
    ensures first { result.0 ≡ operators.first_check op }
    ensures second { result.1 ≡ operators.second_check op }
{
    match op {
        Operator::Add | Operator::Sub | Operator::Mul => (Some(Check::Overflow), None),
        Operator::Div | Operator::Rem => (Some(Check::Division), Some(Check::Overflow)),
        Operator::Shl => (Some(Check::Shift), Some(Check::Overflow)),
        Operator::Shr => (Some(Check::Shift), None),
        Operator::And | Operator::Or | Operator::Xor => (None, None),
    }
}

pub(crate) fn check_of(op: UnaryOperator) -> Option<Check>
    ensures { result ≡ operators.unary_check op }
{
    match op {
        UnaryOperator::Negate => Some(Check::Overflow),
        UnaryOperator::Complement => None,
    }
}

/// The value with 0, with 1, with both or with neither.
pub(crate) fn bits(zero: bool, one: bool) -> Value
    ensures { result ≡ spec.bits zero one }
{
    match (zero, one) {
        (false, false) => empty(),
        (false, true) => single(1),
        (true, false) => single(0),
        (true, true) => Value {
            range: Interval::Within { lo: 0, hi: 1 },
            congr: Congr { rem: 0, modulus: 1 },
            unset: false,
        },
    }
}

/// No number.
pub(crate) fn empty() -> Value
    ensures { result ≡ rows.empty_of false }
{
    Value {
        range: Interval::Empty,
        congr: Congr { rem: 0, modulus: 1 },
        unset: false,
    }
}

/// One number.
pub(crate) fn single(number: i128) -> Value
    ensures { result ≡ rows.one_of number false }
{
    Value {
        range: Interval::Within {
            lo: number,
            hi: number,
        },
        congr: Congr {
            rem: number,
            modulus: 0,
        },
        unset: false,
    }
}

/// What a relation gives (C11 6.5.8, 6.5.9).
pub(crate) fn said_value(said: Said) -> Value
    ensures { result ≡ spec.said_value said }
{
    match said {
        Said::Yes => bits(false, true),
        Said::No => bits(true, false),
        Said::Maybe => bits(true, true),
        Said::Unreached => bits(false, false),
    }
}

/// Whether the value has 0.
pub(crate) fn has_zero(value: &Value) -> bool
    ensures { result ≡ spec.has_zero value.now }
{
    value.contains(0)
}

/// Whether the value has a number that isn't 0.
pub(crate) fn has_other(value: &Value) -> bool
    ensures { result ≡ spec.has_other value.now }
{
    !(value.is_empty() || value.range.is_just(0))
}

/// What `&&` and `||` give by the values reached (C11 6.5.13, 6.5.14).
pub(crate) fn logic_value(goes: bool, left: &Value, right: &Value) -> Value
    ensures { result ≡ spec.logic_value goes left.now right.now }
{
    if goes {
        bits(has_zero(left) || has_zero(right), has_other(right))
    } else {
        bits(has_zero(right), has_other(left) || has_other(right))
    }
}

/// The numbers of a cell, where it has one.
pub(crate) fn number_of(value: Value) -> Value
    ensures { result ≡ spec.number_of value }
{
    Value {
        range: value.range,
        congr: value.congr,
        unset: false,
    }
}
