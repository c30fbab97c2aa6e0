//! The checks of operators.

ghost use Rattle.std.specs.Prelude.{◌≡◌};
ghost use Rattle.c_ir.specs.Checks as spec;

use crate::kind::AlarmKind;
use crate::tree::{Checks, Expr, Node};
use crate::ty::IntType;
use fc_base::{BinaryOp, UnaryOp};

const NO_CHECKS: Checks = Checks {
    first: None,
    second: None,
};

fn overflow(ty: IntType) -> Option<AlarmKind>
    ensures { result ≡ spec.overflow ty }
{
    if ty.is_signed() {
        Some(AlarmKind::SignedOverflow)
    } else {
        None
    }
}

fn initialization(checked: bool) -> Option<AlarmKind>
    ensures { result ≡ spec.initialization checked }
{
    if checked {
        Some(AlarmKind::Initialization)
    } else {
        None
    }
}

/// The checks of a binary operator whose operands, or whose left operand for a shift, are of this type after their
/// conversions (C11 6.5.5 to 6.5.14).
#[tactic(auto, unfolding(crate::specs::Checks::binary_checks))]
pub fn binary_checks(op: BinaryOp, ty: IntType) -> Checks
    ensures { result ≡ spec.binary_checks op ty }
{
    match op {
        BinaryOp::Add | BinaryOp::Sub | BinaryOp::Mul => Checks {
            first: overflow(ty),
            second: None,
        },
        BinaryOp::Div | BinaryOp::Rem => Checks {
            first: Some(AlarmKind::DivisionByZero),
            second: overflow(ty),
        },
        BinaryOp::Shl => Checks {
            first: Some(AlarmKind::Shift),
            second: overflow(ty),
        },
        BinaryOp::Shr => Checks {
            first: Some(AlarmKind::Shift),
            second: None,
        },
        BinaryOp::LogicOr
        | BinaryOp::LogicAnd
        | BinaryOp::Or
        | BinaryOp::Xor
        | BinaryOp::And
        | BinaryOp::Equal
        | BinaryOp::NotEqual
        | BinaryOp::Less
        | BinaryOp::Greater
        | BinaryOp::LessEq
        | BinaryOp::GreaterEq => NO_CHECKS,
    }
}

/// The checks of a unary operator whose operand is of this type after its conversion (C11 6.5.3.3).
#[tactic(auto, unfolding(crate::specs::Checks::unary_checks))]
pub fn unary_checks(op: UnaryOp, ty: IntType) -> Checks
    ensures { result ≡ spec.unary_checks op ty }
{
    match op {
        UnaryOp::Minus => Checks {
            first: overflow(ty),
            second: None,
        },
        UnaryOp::Plus | UnaryOp::Not | UnaryOp::Invert => NO_CHECKS,
    }
}

/// The checks of reading an object that is no array; `checked` is whether it may have no value (C11 6.3.2.1).
pub fn read_checks(checked: bool) -> Checks
    ensures { result ≡ spec.read_checks checked }
{
    Checks {
        first: initialization(checked),
        second: None,
    }
}

/// The checks of reading or writing an element; `checked` is whether it is read and may have no value (C11 6.5.2.1).
pub fn element_checks(checked: bool) -> Checks
    ensures { result ≡ spec.element_checks checked }
{
    Checks {
        first: Some(AlarmKind::IndexBound),
        second: initialization(checked),
    }
}

/// The checks of the outermost operator of an expression, in their order.
#[tactic(auto, unfolding(crate::specs::Checks::checks_of))]
pub fn checks(expr: &Expr) -> Checks
    ensures { result ≡ spec.checks_of expr.now }
{
    match &expr.node {
        Node::Cell { checked, .. } => read_checks(*checked),
        Node::Element { checked, .. } => element_checks(*checked),
        Node::Unary { op, .. } => unary_checks(*op, expr.ty),
        Node::Binary { op, left, .. } => binary_checks(*op, left.get().ty),
        Node::Literal { .. }
        | Node::Call { .. }
        | Node::Assign { .. }
        | Node::Cond { .. }
        | Node::Cast { .. } => NO_CHECKS,
    }
}
