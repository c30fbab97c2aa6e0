//! Constant expressions (C11 6.6): their values on the fixed machine.

ghost use Rattle.std.specs.Prelude.{◌≡◌, ◌≢◌, ◌^◌, ◌<◌, ◌*ℤ◌, pos, int_div, unsigned_abs, true, false, Some, IfSome};
ghost use Rattle.machine_ints.specs.declared.operators.Operator.TheVariants as O;
ghost use Rattle.machine_ints.specs.declared.operators.UnaryOperator.TheVariants as M;
ghost use Rattle.c_rules.specs.Constants as spec;
ghost use Rattle.c_rules.specs.inner.Constants as inner;

use c_ir::{Expr, IntType, Node};
use fc_base::{BinaryOp, UnaryOp};
use machine_ints::{
    Operator, and, difference, negative, not, or, product, remainder, shifted_left, shifted_right,
    sum, to_bool, unsigned_power_of_two, wrap, xor,
};

/// The value of a constant expression; None where a check of an operator fails, where an object is read, a function
/// called or something assigned, and where a constant or an operand isn't a number of its type, which no typed tree
/// has. What `&&`, `||` and `?:` leave unevaluated may be anything (C11 6.5, 6.6).
///
/// The recursion is as deep as the tree. Operators with two operands stay out of line, so that its frame is small.
#[tactic(auto, unfolding(crate::specs::Constants::evaluated))]
pub fn evaluated(e: &Expr) -> Option<i128>
    ensures value { result ≡ spec.evaluated e.now }
    ensures bound { IfSome result (λ v. unsigned_abs v < 2 ^ 64) }
{
    match &e.node {
        Node::Literal { value } => literal_value(e.ty, *value),
        Node::Unary { op, of } => unary_result(*op, e.ty, evaluated(of.get())?),
        Node::Binary { op, left, right } => {
            let left = evaluated(left.get())?;
            match decided(*op, left) {
                Some(value) => Some(value),
                None => binary_result(*op, e.ty, left, evaluated(right.get())?),
            }
        }
        Node::Cond { cond, yes, no } => {
            if evaluated(cond.get())? == 0 {
                evaluated(no.get())
            } else {
                evaluated(yes.get())
            }
        }
        Node::Cast { of } => Some(converted_value(e.ty, evaluated(of.get())?)),
        Node::Cell { .. } | Node::Element { .. } | Node::Call { .. } | Node::Assign { .. } => None,
    }
}

/// Whether the type has the number.
fn is_number(ty: IntType, value: i128) -> bool
    ensures { result ≡ spec.is_number ty value }
{
    ty.least() <= value && value <= ty.greatest() as i128
}

/// Whether the type has negative numbers.
fn has_negative(ty: IntType) -> bool
    ensures { result ≡ inner.has_negative ty }
{
    ty.least() < 0
}

/// 1 or 0, the result of a relation (C11 6.5.8, paragraph 6).
fn truth(holds: bool) -> i128
    ensures value { result ≡ spec.truth holds }
    ensures bound { unsigned_abs result < 2 ^ 64 }
{
    if holds { 1 } else { 0 }
}

/// The number modulo 2^width in the type.
#[tactic(auto, using(crate::proofs::Evaluations::brought_short))]
fn brought(ty: IntType, value: i128) -> i128
    ensures value { result ≡ spec.brought ty value }
    ensures bound { unsigned_abs result < 2 ^ 64 }
{
    wrap(value, ty.least(), ty.width())
}

/// A conversion to the type (C11 6.3.1.2, 6.3.1.3).
pub fn converted_value(ty: IntType, value: i128) -> i128
    ensures value { result ≡ spec.converted ty value }
    ensures bound { unsigned_abs result < 2 ^ 64 }
{
    if ty.is(IntType::Bool) {
        to_bool(value)
    } else {
        brought(ty, value)
    }
}

/// A constant, where the type has it (C11 6.4.4).
fn literal_value(ty: IntType, value: i128) -> Option<i128>
    ensures value { result ≡ spec.literal_value ty value }
    ensures bound { IfSome result (λ v. unsigned_abs v < 2 ^ 64) }
{
    if is_number(ty, value) {
        Some(value)
    } else {
        None
    }
}

/// An exact result brought into the type; None where the type is signed and doesn't have it.
fn kept(ty: IntType, exact: i128) -> Option<i128>
    ensures value { result ≡ inner.kept ty exact }
    ensures bound { IfSome result (λ v. unsigned_abs v < 2 ^ 64) }
{
    if has_negative(ty) && !is_number(ty, exact) {
        None
    } else {
        Some(brought(ty, exact))
    }
}

/// An operator before its operand (C11 6.5.3.3).
fn unary_result(op: UnaryOp, ty: IntType, value: i128) -> Option<i128>
    requires { unsigned_abs value < 2 ^ 64 }
    ensures value { result ≡ spec.unary_result op ty value }
    ensures bound { IfSome result (λ v. unsigned_abs v < 2 ^ 64) }
{
    match op {
        UnaryOp::Plus => Some(value),
        UnaryOp::Minus => negated(ty, value),
        UnaryOp::Not => Some(truth(value == 0)),
        UnaryOp::Invert => complemented(ty, value),
    }
}

/// `-value`; None where the type is signed and doesn't have the exact result.
#[tactic(auto, using(crate::proofs::Evaluations::sum_steps))]
fn negated(ty: IntType, value: i128) -> Option<i128>
    requires { unsigned_abs value < 2 ^ 64 }
    ensures value { result ≡ spec.unary_operated M.Negate ty value }
    ensures bound { IfSome result (λ v. unsigned_abs v < 2 ^ 64) }
{
    kept_if(ty, negative(value))
}

/// `~value`
#[tactic(auto, unfolding(crate::specs::Constants::unary_operated, machine_ints::specs::Operators::unary_value))]
fn complemented(ty: IntType, value: i128) -> Option<i128>
    ensures value { result ≡ spec.unary_operated M.Complement ty value }
    ensures bound { IfSome result (λ v. unsigned_abs v < 2 ^ 64) }
{
    Some(brought(ty, not(value)))
}

/// The value that the left operand of `&&` or `||` decides alone, if it does (C11 6.5.13, 6.5.14).
fn decided(op: BinaryOp, left: i128) -> Option<i128>
    ensures value { result ≡ spec.decided op left }
    ensures bound { IfSome result (λ v. unsigned_abs v < 2 ^ 64) }
{
    match op {
        BinaryOp::LogicOr => if left == 0 { None } else { Some(1) },
        BinaryOp::LogicAnd => if left == 0 { Some(0) } else { None },
        _ => None,
    }
}

/// The value of an operator by both operands (C11 6.5.5 to 6.5.14).
#[tactic(auto, unfolding(crate::specs::Constants::binary_result))]
#[inline(never)]
fn binary_result(op: BinaryOp, ty: IntType, left: i128, right: i128) -> Option<i128>
    requires left { unsigned_abs left < 2 ^ 64 }
    requires right { unsigned_abs right < 2 ^ 64 }
    ensures value { result ≡ spec.binary_result op ty left right }
    ensures bound { IfSome result (λ v. unsigned_abs v < 2 ^ 64) }
{
    match op {
        BinaryOp::LogicOr | BinaryOp::LogicAnd => Some(truth(right != 0)),
        BinaryOp::Equal => Some(truth(left == right)),
        BinaryOp::NotEqual => Some(truth(left != right)),
        BinaryOp::Less => Some(truth(left < right)),
        BinaryOp::Greater => Some(truth(left > right)),
        BinaryOp::LessEq => Some(truth(left <= right)),
        BinaryOp::GreaterEq => Some(truth(left >= right)),
        BinaryOp::Or => operated(Operator::Or, ty, left, right),
        BinaryOp::Xor => operated(Operator::Xor, ty, left, right),
        BinaryOp::And => operated(Operator::And, ty, left, right),
        BinaryOp::Shl => operated(Operator::Shl, ty, left, right),
        BinaryOp::Shr => operated(Operator::Shr, ty, left, right),
        BinaryOp::Add => operated(Operator::Add, ty, left, right),
        BinaryOp::Sub => operated(Operator::Sub, ty, left, right),
        BinaryOp::Mul => operated(Operator::Mul, ty, left, right),
        BinaryOp::Div => operated(Operator::Div, ty, left, right),
        BinaryOp::Rem => operated(Operator::Rem, ty, left, right),
    }
}

/// Whether the operator is a shift, whose right operand may be of another type (C11 6.5.7).
fn is_shift(op: Operator) -> bool
    ensures { result ≡ spec.is_shift op }
{
    matches!(op, Operator::Shl | Operator::Shr)
}

/// Whether the operands are of the type, as they are in a typed tree.
fn are_operands(op: Operator, ty: IntType, left: i128, right: i128) -> bool
    ensures { result ≡ spec.are_operands op ty left right }
{
    is_number(ty, left) && (is_shift(op) || is_number(ty, right))
}

/// The value of an operator that has an exact result; None where a check fails or an operand isn't of the type.
#[tactic(auto, unfolding(crate::specs::Constants::operated))]
fn operated(op: Operator, ty: IntType, left: i128, right: i128) -> Option<i128>
    requires left { unsigned_abs left < 2 ^ 64 }
    requires right { unsigned_abs right < 2 ^ 64 }
    ensures value { result ≡ spec.operated op ty left right }
    ensures bound { IfSome result (λ v. unsigned_abs v < 2 ^ 64) }
{
    if are_operands(op, ty, left, right) {
        checked(op, ty, left, right)
    } else {
        None
    }
}

/// The same on operands of the type.
#[tactic(auto, unfolding(crate::specs::Constants::checked, machine_ints::specs::Operators::value_of))]
fn checked(op: Operator, ty: IntType, left: i128, right: i128) -> Option<i128>
    requires operands { spec.are_operands op ty left right ≡ true }
    requires left { unsigned_abs left < 2 ^ 64 }
    requires right { unsigned_abs right < 2 ^ 64 }
    ensures { result ≡ spec.checked op ty left right }
{
    match op {
        Operator::Add => sum_of(ty, left, right),
        Operator::Sub => difference_of(ty, left, right),
        Operator::Mul => product_of(ty, left, right),
        Operator::Div => quotient_of(ty, left, right),
        Operator::Rem => remainder_of(ty, left, right),
        Operator::Shl => shift_left_of(ty, left, right),
        Operator::Shr => shift_right_of(ty, left, right),
        Operator::And => Some(and(left, right)),
        Operator::Or => Some(or(left, right)),
        Operator::Xor => Some(xor(left, right)),
    }
}

/// `left + right` (C11 6.5.6).
#[tactic(auto, using(crate::proofs::Evaluations::sum_steps))]
fn sum_of(ty: IntType, left: i128, right: i128) -> Option<i128>
    requires left { unsigned_abs left < 2 ^ 64 }
    requires right { unsigned_abs right < 2 ^ 64 }
    ensures { result ≡ spec.checked O.Add ty left right }
{
    kept_if(ty, sum(left, right))
}

/// `left - right` (C11 6.5.6).
#[tactic(auto, using(crate::proofs::Evaluations::sum_steps))]
fn difference_of(ty: IntType, left: i128, right: i128) -> Option<i128>
    requires left { unsigned_abs left < 2 ^ 64 }
    requires right { unsigned_abs right < 2 ^ 64 }
    ensures { result ≡ spec.checked O.Sub ty left right }
{
    kept_if(ty, difference(left, right))
}

/// The same of an exact result that is given within 2^126 alone: a signed type has no number past that.
fn kept_if(ty: IntType, exact: Option<i128>) -> Option<i128>
    ensures value { result ≡ inner.kept_if ty exact }
    ensures bound { IfSome result (λ v. unsigned_abs v < 2 ^ 64) }
{
    kept(ty, exact?)
}

/// The product of two numbers of an unsigned type: two of 64 bits have a product of 128 bits.
fn unsigned_product(ty: IntType, left: u128, right: u128) -> i128
    requires natural { inner.has_negative ty ≡ false }
    requires left { left < 2 ^ 64 }
    requires right { right < 2 ^ 64 }
    ensures { result ≡ spec.brought ty (pos left *ℤ pos right) }
{
    (left * right % unsigned_power_of_two(ty.width())) as i128
}

/// `left * right` (C11 6.5.5).
#[tactic(auto, using(crate::proofs::Evaluations::product_steps))]
fn product_of(ty: IntType, left: i128, right: i128) -> Option<i128>
    requires operands { spec.are_operands O.Mul ty left right ≡ true }
    requires left { unsigned_abs left < 2 ^ 64 }
    requires right { unsigned_abs right < 2 ^ 64 }
    ensures { result ≡ spec.checked O.Mul ty left right }
{
    if has_negative(ty) {
        kept_if(ty, product(left, right))
    } else {
        Some(unsigned_product(ty, left.unsigned_abs(), right.unsigned_abs()))
    }
}

/// Whether no check of a division fails.
fn divides(ty: IntType, left: i128, right: i128) -> bool
    ensures { result ≡ inner.divides ty left right }
{
    right != 0 && !(has_negative(ty) && (left == ty.least() && right == -1))
}

/// An exact result, brought into a signed type.
fn brought_if(ty: IntType, exact: i128) -> i128
    ensures { result ≡ inner.brought_if ty exact }
{
    if has_negative(ty) {
        brought(ty, exact)
    } else {
        exact
    }
}

/// `left / right` towards zero (C11 6.5.5).
fn exact_quotient(left: i128, right: i128) -> i128
    requires left { unsigned_abs left < 2 ^ 64 }
    requires right { right ≢ pos 0 }
    ensures { result ≡ int_div left right }
{
    left / right
}

/// `left / right` (C11 6.5.5).
#[tactic(auto, using(crate::proofs::Evaluations::quotient_steps))]
fn quotient_of(ty: IntType, left: i128, right: i128) -> Option<i128>
    requires { unsigned_abs left < 2 ^ 64 }
    ensures { result ≡ spec.checked O.Div ty left right }
{
    if divides(ty, left, right) {
        Some(brought_if(ty, exact_quotient(left, right)))
    } else {
        None
    }
}

/// `left % right` (C11 6.5.5).
#[tactic(auto, using(crate::proofs::Evaluations::quotient_steps))]
fn remainder_of(ty: IntType, left: i128, right: i128) -> Option<i128>
    ensures { result ≡ spec.checked O.Rem ty left right }
{
    if divides(ty, left, right) {
        Some(brought_if(ty, remainder(left, right)))
    } else {
        None
    }
}

/// Whether the right operand of a shift passes its check.
fn is_shift_by(ty: IntType, right: i128) -> bool
    ensures { result ≡ inner.is_shift_by ty right }
{
    0 <= right && right < i128::from(ty.width())
}

/// `left << right` (C11 6.5.7).
#[tactic(auto, using(crate::proofs::Evaluations::shift_steps))]
fn shift_left_of(ty: IntType, left: i128, right: i128) -> Option<i128>
    requires operands { spec.are_operands O.Shl ty left right ≡ true }
    requires left { unsigned_abs left < 2 ^ 64 }
    ensures { result ≡ spec.checked O.Shl ty left right }
{
    if !is_shift_by(ty, right) {
        None
    } else if has_negative(ty) {
        signed_shift(ty, left, right.unsigned_abs() as u32)
    } else {
        Some(unsigned_shift(ty, left.unsigned_abs(), right.unsigned_abs() as u32))
    }
}

/// `left << by` in a signed type; None where the exact result isn't in the type or `left` is negative.
fn signed_shift(ty: IntType, left: i128, by: u32) -> Option<i128>
    requires { by < 64 }
    ensures { result ≡ inner.signed_shift ty left by }
{
    if left < 0 {
        None
    } else {
        kept_if(ty, shifted_left(left, by))
    }
}

/// `left << by` in an unsigned type.
fn unsigned_shift(ty: IntType, left: u128, by: u32) -> i128
    requires natural { inner.has_negative ty ≡ false }
    requires left { left < 2 ^ 64 }
    requires by { by < 64 }
    ensures { result ≡ spec.brought ty (pos left *ℤ pos (2 ^ by)) }
{
    unsigned_product(ty, left, unsigned_power_of_two(by))
}

/// `left >> right` (C11 6.5.7).
#[tactic(auto, unfolding(crate::specs::Constants::checked, machine_ints::specs::Operators::value_of))]
fn shift_right_of(ty: IntType, left: i128, right: i128) -> Option<i128>
    ensures { result ≡ spec.checked O.Shr ty left right }
{
    if is_shift_by(ty, right) {
        Some(shifted_right(left, right.unsigned_abs() as u32))
    } else {
        None
    }
}

/// On operands that are numbers of the type of the expression, the value of an operator is None exactly where one of
/// its checks that is visited isn't passed, and else it is the operator's value in the type.
pub fn stops_where_a_check_fails()
    ensures binary { spec.BinaryStops }
    ensures unary { spec.UnaryStops }
{}
