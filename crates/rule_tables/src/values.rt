//! Values of expressions that a line spells.

use c_ir::{Expr, Exprs, IntType, Node};
use c_rules::{assigned, choice, constant, evaluated, zero};
use fc_base::{BinaryOp, UnaryOp};
use sqlite_items::Boxed;
use std::alloc::{AllocError, Global};

/// The type that a word stands for.
fn type_named(word: &str) -> Option<IntType> {
    match word {
        "bool" => Some(IntType::Bool),
        "char" => Some(IntType::Char),
        "uchar" => Some(IntType::UnsignedChar),
        "int" => Some(IntType::Int),
        "unsigned" => Some(IntType::UnsignedInt),
        "long" => Some(IntType::Long),
        "ulong" => Some(IntType::UnsignedLong),
        _ => None,
    }
}

/// The operator of two operands that a word stands for.
fn binary_named(word: &str) -> Option<BinaryOp> {
    match word {
        "||" => Some(BinaryOp::LogicOr),
        "&&" => Some(BinaryOp::LogicAnd),
        "|" => Some(BinaryOp::Or),
        "^" => Some(BinaryOp::Xor),
        "&" => Some(BinaryOp::And),
        "==" => Some(BinaryOp::Equal),
        "!=" => Some(BinaryOp::NotEqual),
        "<" => Some(BinaryOp::Less),
        ">" => Some(BinaryOp::Greater),
        "<=" => Some(BinaryOp::LessEq),
        ">=" => Some(BinaryOp::GreaterEq),
        "<<" => Some(BinaryOp::Shl),
        ">>" => Some(BinaryOp::Shr),
        "+" => Some(BinaryOp::Add),
        "-" => Some(BinaryOp::Sub),
        "*" => Some(BinaryOp::Mul),
        "/" => Some(BinaryOp::Div),
        "%" => Some(BinaryOp::Rem),
        _ => None,
    }
}

/// The operator of one operand that a word stands for.
fn unary_named(word: &str) -> Option<UnaryOp> {
    match word {
        "+" => Some(UnaryOp::Plus),
        "-" => Some(UnaryOp::Minus),
        "!" => Some(UnaryOp::Not),
        "~" => Some(UnaryOp::Invert),
        _ => None,
    }
}

fn expr(ty: IntType, node: Node<Boxed<Expr>, Exprs>) -> Expr {
    Expr {
        ty,
        site: None,
        node,
    }
}

fn of_two(
    alloc: Global,
    op: BinaryOp,
    ty: IntType,
    left: Expr,
    right: Expr,
) -> Result<Expr, AllocError> {
    let left = Boxed::new(alloc, left)?;
    let right = Boxed::new(alloc, right)?;
    Ok(expr(ty, Node::Binary { op, left, right }))
}

/// `cell` is cell 0, `stop` is `1 / 0`, and another word is a literal of the type.
fn operand(alloc: Global, ty: IntType, word: &str) -> Result<Expr, AllocError> {
    match word {
        "cell" => Ok(expr(
            ty,
            Node::Cell {
                cell: 0,
                checked: false,
            },
        )),
        "stop" => {
            let one = constant(IntType::Int, 1);
            of_two(alloc, BinaryOp::Div, IntType::Int, one, zero())
        }
        _ => Ok(constant(ty, word.parse::<i128>().unwrap_or(0))),
    }
}

/// The conversion of an `int` to a type.
fn converted(alloc: Global, ty: IntType, word: &str) -> Result<Expr, AllocError> {
    let of = Boxed::new(alloc, operand(alloc, IntType::Int, word)?)?;
    Ok(expr(ty, Node::Cast { of }))
}

/// An operator before its operand; the operand alone where there is no such operator.
fn of_one(alloc: Global, ty: IntType, op: &str, word: &str) -> Result<Expr, AllocError> {
    let of = operand(alloc, ty, word)?;
    match unary_named(op) {
        Some(op) => {
            let of = Boxed::new(alloc, of)?;
            Ok(expr(ty, Node::Unary { op, of }))
        }
        None => Ok(of),
    }
}

/// An operator between its operands, `=` among them; the left one alone where there is no such operator.
fn between(
    alloc: Global,
    ty: IntType,
    left: &str,
    op: &str,
    right: &str,
) -> Result<Expr, AllocError> {
    let left = operand(alloc, ty, left)?;
    let right = operand(alloc, ty, right)?;
    match binary_named(op) {
        Some(op) => of_two(alloc, op, ty, left, right),
        None => assigned(alloc, left, right),
    }
}

/// The expression of a type that words spell; 0 where they spell none.
fn spelled(alloc: Global, ty: IntType, words: &[&str]) -> Result<Expr, AllocError> {
    match *words {
        [of] => operand(alloc, ty, of),
        ["from", of] => converted(alloc, ty, of),
        [op, of] => of_one(alloc, ty, op, of),
        [left, op, right] => between(alloc, ty, left, op, right),
        [cond, "?", yes, ":", no] => {
            let cond = operand(alloc, ty, cond)?;
            let yes = operand(alloc, ty, yes)?;
            let no = operand(alloc, ty, no)?;
            choice(alloc, cond, yes, no)
        }
        _ => Ok(zero()),
    }
}

/// The value of the expression that a line spells, or `none`; the line has its type and its words.
pub(crate) fn value_text(alloc: Global, line: &str) -> Result<String, AllocError> {
    let words: Vec<&str> = line.split_whitespace().collect(alloc)?;
    let Some((first, rest)) = words.as_slice().split_first() else {
        return String::from_str(alloc, "no expression");
    };
    let Some(ty) = type_named(first) else {
        return String::from_str(alloc, "no type");
    };
    match evaluated(&spelled(alloc, ty, rest)?) {
        Some(value) => format!(in alloc; "{value}"),
        None => String::from_str(alloc, "none"),
    }
}
