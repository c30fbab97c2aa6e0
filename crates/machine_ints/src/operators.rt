//! The operators by their names, and their checks.

/// C's operators with two operands whose result is of the type of the operands, or of the left one's for a shift
/// (C11 6.5.5 to 6.5.7, 6.5.10 to 6.5.12).
#[derive(Clone, Copy, Debug, PartialEq, Eq)]
pub enum Operator {
    Add,
    Sub,
    Mul,
    Div,
    Rem,
    Shl,
    Shr,
    And,
    Or,
    Xor,
}

/// C's arithmetic operators with one operand that change a number (C11 6.5.3.3).
#[derive(Clone, Copy, Debug, PartialEq, Eq)]
pub enum UnaryOperator {
    /// `-`
    Negate,
    /// `~`
    Complement,
}

/// A condition without which an operator is undefined: `specs/Operators.antt` says which operator has which.
#[derive(Clone, Copy, Debug, PartialEq, Eq)]
pub enum Check {
    /// The divisor isn't 0.
    Division,
    /// The exact result is a number of the type, which is signed.
    Overflow,
    /// The right operand of a shift is from 0 to the width less 1.
    Shift,
}
