//! Words of the trees of C and of its annotations that several layers share: a node's place, operators
//! and the forms of a literal.

use crate::{Line, Span};

/// Where a node of a tree stands: its bytes, and the line of its first token.
#[derive(Clone, Copy, Debug, PartialEq, Eq)]
pub struct Spot {
    pub span: Span,
    pub line: Line,
}

/// How a literal is written (C11 6.4.4.1, 6.4.4.4).
#[derive(Clone, Copy, Debug, PartialEq, Eq)]
pub enum LiteralForm {
    Decimal,
    Octal,
    Hexadecimal,
    /// A character constant.
    Character,
}

/// C's unary operators that yield a value and alter nothing (C11 6.5.3.3).
#[derive(Clone, Copy, Debug, PartialEq, Eq)]
pub enum UnaryOp {
    /// `+`
    Plus,
    /// `-`
    Minus,
    /// `!`
    Not,
    /// `~`
    Invert,
}

/// C's binary operators (C11 6.5.5 to 6.5.14).
#[derive(Clone, Copy, Debug, PartialEq, Eq)]
pub enum BinaryOp {
    /// `||`
    LogicOr,
    /// `&&`
    LogicAnd,
    /// `|`
    Or,
    /// `^`
    Xor,
    /// `&`
    And,
    /// `==`
    Equal,
    /// `!=`
    NotEqual,
    /// `<`
    Less,
    /// `>`
    Greater,
    /// `<=`
    LessEq,
    /// `>=`
    GreaterEq,
    /// `<<`
    Shl,
    /// `>>`
    Shr,
    /// `+`
    Add,
    /// `-`
    Sub,
    /// `*`
    Mul,
    /// `/`
    Div,
    /// `%`
    Rem,
}

/// The binary operators of annotations, but for relations (ACSL manual, terms and predicates).
#[derive(Clone, Copy, Debug, PartialEq, Eq)]
pub enum NoteOp {
    /// `<==>`
    Iff,
    /// `==>`
    Implies,
    /// `||`
    Or,
    /// `&&`
    And,
    /// `+`
    Add,
    /// `-`
    Sub,
    /// `*`
    Mul,
    /// `/`
    Div,
    /// `%`
    Rem,
}
