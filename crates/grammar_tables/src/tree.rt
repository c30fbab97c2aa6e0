//! Expressions of C with parentheses round each operation.

use c_ast::Expr;
use fc_base::{BinaryOp, UnaryOp};
use std::alloc::{AllocError, Global};

fn op_text(op: BinaryOp) -> &'static str {
    match op {
        BinaryOp::LogicOr => "||",
        BinaryOp::LogicAnd => "&&",
        BinaryOp::Or => "|",
        BinaryOp::Xor => "^",
        BinaryOp::And => "&",
        BinaryOp::Equal => "==",
        BinaryOp::NotEqual => "!=",
        BinaryOp::Less => "<",
        BinaryOp::Greater => ">",
        BinaryOp::LessEq => "<=",
        BinaryOp::GreaterEq => ">=",
        BinaryOp::Shl => "<<",
        BinaryOp::Shr => ">>",
        BinaryOp::Add => "+",
        BinaryOp::Sub => "-",
        BinaryOp::Mul => "*",
        BinaryOp::Div => "/",
        BinaryOp::Rem => "%",
    }
}

fn unary_text(op: UnaryOp) -> &'static str {
    match op {
        UnaryOp::Plus => "+",
        UnaryOp::Minus => "-",
        UnaryOp::Not => "!",
        UnaryOp::Invert => "~",
    }
}

fn step_text(up: bool, before: bool) -> &'static str {
    match (before, up) {
        (true, true) => "pre++",
        (true, false) => "pre--",
        (false, true) => "post++",
        (false, false) => "post--",
    }
}

/// Adds a text that was made.
pub(crate) fn add(out: &mut String, text: Result<String, AllocError>) -> Result<(), AllocError> {
    let text = text?;
    out.push_str(text.as_str())
}

/// What stands before the first part.
fn show_before(alloc: Global, out: &mut String, expr: &Expr) -> Result<(), AllocError> {
    match expr {
        Expr::Literal { value, .. } => add(out, format!(in alloc; "{value}")),
        Expr::Name(ident) => out.push_str(ident.name.as_str()),
        Expr::Index { .. } | Expr::Call { .. } => Ok(()),
        Expr::Unary { op, .. } => add(out, format!(in alloc; "({}", unary_text(*op))),
        Expr::Step { up, before, .. } => {
            add(out, format!(in alloc; "({}", step_text(*up, *before)))
        }
        Expr::Cast { .. } => out.push_str("(cast "),
        Expr::Binary { .. } | Expr::Assign { .. } | Expr::Cond { .. } => out.push_str("("),
    }
}

/// What stands after the last part.
fn text_after(expr: &Expr) -> &'static str {
    match expr {
        Expr::Literal { .. } | Expr::Name(_) => "",
        Expr::Index { .. } => "]",
        _ => ")",
    }
}

/// Arguments, each with a semicolon after it.
#[cycle(show)]
fn show_args(alloc: Global, out: &mut String, args: &[Expr]) -> Result<(), AllocError> {
    for arg in args {
        show(alloc, out, arg)?;
        out.push_str(";")?;
    }
    Ok(())
}

/// The operator that stands between the two parts of an operation or an assignment.
fn operator_text(expr: &Expr) -> &'static str {
    match expr {
        Expr::Binary { op, .. } => op_text(*op),
        Expr::Assign { op, .. } => op.map_or("", op_text),
        _ => "",
    }
}

/// An expression with parentheses round each operation.
#[cycle(show)]
pub(crate) fn show(alloc: Global, out: &mut String, expr: &Expr) -> Result<(), AllocError> {
    show_before(alloc, out, expr)?;
    match expr {
        Expr::Literal { .. } | Expr::Name(_) => {}
        Expr::Index { of, index, .. } => {
            show(alloc, out, of.get())?;
            out.push_str("[")?;
            show(alloc, out, index.get())?;
        }
        Expr::Call { of, args, .. } => {
            show(alloc, out, of.get())?;
            out.push_str("(")?;
            show_args(alloc, out, args.as_slice())?;
        }
        Expr::Unary { of, .. } | Expr::Step { of, .. } | Expr::Cast { of, .. } => {
            show(alloc, out, of.get())?
        }
        Expr::Binary { left, right, .. } => {
            show(alloc, out, left.get())?;
            out.push_str(operator_text(expr))?;
            show(alloc, out, right.get())?;
        }
        Expr::Assign { to, value, .. } => {
            show(alloc, out, to.get())?;
            out.push_str(operator_text(expr))?;
            out.push_str("=")?;
            show(alloc, out, value.get())?;
        }
        Expr::Cond { cond, yes, no, .. } => {
            show(alloc, out, cond.get())?;
            out.push_str("?")?;
            show(alloc, out, yes.get())?;
            out.push_str(":")?;
            show(alloc, out, no.get())?;
        }
    }
    out.push_str(text_after(expr))
}
