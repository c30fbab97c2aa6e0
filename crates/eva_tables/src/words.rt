//! Words for types and operators.

use c_ir::{AlarmKind, IntType, Kind};
use fc_base::{BinaryOp, UnaryOp};
use int_interval::Said;

/// The type that a word stands for.
pub(crate) fn type_named(word: &str) -> Option<IntType> {
    match word {
        "bool" => Some(IntType::Bool),
        "char" => Some(IntType::Char),
        "uchar" => Some(IntType::UnsignedChar),
        "short" => Some(IntType::Short),
        "ushort" => Some(IntType::UnsignedShort),
        "int" => Some(IntType::Int),
        "uint" => Some(IntType::UnsignedInt),
        "long" => Some(IntType::Long),
        "ulong" => Some(IntType::UnsignedLong),
        _ => None,
    }
}

/// The operator of two operands that a word stands for.
pub(crate) fn binary_named(word: &str) -> Option<BinaryOp> {
    match word {
        "||" => Some(BinaryOp::LogicOr),
        "&&" => Some(BinaryOp::LogicAnd),
        "|" => Some(BinaryOp::Or),
        "^" => Some(BinaryOp::Xor),
        "&" => Some(BinaryOp::And),
        "==" => Some(BinaryOp::Equal),
        "!=" => Some(BinaryOp::NotEqual),
        "<" => Some(BinaryOp::Less),
        ">" => Some(BinaryOp::Greater),
        "<=" => Some(BinaryOp::LessEq),
        ">=" => Some(BinaryOp::GreaterEq),
        "<<" => Some(BinaryOp::Shl),
        ">>" => Some(BinaryOp::Shr),
        "+" => Some(BinaryOp::Add),
        "-" => Some(BinaryOp::Sub),
        "*" => Some(BinaryOp::Mul),
        "/" => Some(BinaryOp::Div),
        "%" => Some(BinaryOp::Rem),
        _ => None,
    }
}

/// The operator of one operand that a word stands for.
pub(crate) fn unary_named(word: &str) -> Option<UnaryOp> {
    match word {
        "pos" => Some(UnaryOp::Plus),
        "neg" => Some(UnaryOp::Minus),
        "!" => Some(UnaryOp::Not),
        "~" => Some(UnaryOp::Invert),
        _ => None,
    }
}

/// The word of a check.
pub(crate) fn check_word(kind: AlarmKind) -> &'static str {
    Kind::Alarm(kind).text()
}

/// The word of an answer.
pub(crate) fn said_word(said: Said) -> &'static str {
    match said {
        Said::Yes => "yes",
        Said::No => "no",
        Said::Maybe => "maybe",
        Said::Unreached => "unreached",
    }
}
