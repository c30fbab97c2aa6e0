//! The calls of trees. In the C that is read a call is a statement or a whole value, so most of these are trees of no text.

use c_ir::{Expr, Exprs, Init, IntType, Node, Stmt, Stmts, callees};
use fc_base::{BinaryOp, FnId, PointId};
use sqlite_items::{Boxed, Items};
use std::alloc::{AllocError, Global};

/// The point of each statement.
const POINT: PointId = PointId(0);

fn of_node(node: Node<Boxed<Expr>, Exprs>) -> Expr {
    Expr {
        ty: IntType::Int,
        site: None,
        node,
    }
}

/// A call of the function with this number, without arguments.
fn call(alloc: Global, function: u32) -> Expr {
    of_node(Node::Call {
        function: FnId(function),
        args: Items::new(alloc),
    })
}

/// A call of `function` whose arguments are calls of `first` and `second`.
fn nested(alloc: Global, function: u32, first: u32, second: u32) -> Result<Expr, AllocError> {
    let mut args = Items::new(alloc);
    args.push(call(alloc, first))?;
    args.push(call(alloc, second))?;
    Ok(of_node(Node::Call {
        function: FnId(function),
        args,
    }))
}

/// An element whose index is a call of function 4.
fn element(alloc: Global) -> Result<Expr, AllocError> {
    Ok(of_node(Node::Element {
        first: 0,
        length: 2,
        index: Boxed::new(alloc, call(alloc, 4))?,
        checked: false,
    }))
}

/// The difference of a call of function 1, whose arguments are calls of functions 2 and 0, and of one of function 8.
fn difference(alloc: Global) -> Result<Expr, AllocError> {
    Ok(of_node(Node::Binary {
        op: BinaryOp::Sub,
        left: Boxed::new(alloc, nested(alloc, 1, 2, 0)?)?,
        right: Boxed::new(alloc, call(alloc, 8))?,
    }))
}

/// A choice by a call of function 9 between calls of function 1 and of the last one.
fn choice(alloc: Global) -> Result<Expr, AllocError> {
    Ok(of_node(Node::Cond {
        cond: Boxed::new(alloc, call(alloc, 9))?,
        yes: Boxed::new(alloc, call(alloc, 1))?,
        no: Boxed::new(alloc, call(alloc, 4_294_967_295))?,
    }))
}

/// The expression with this name; the literal 7 for another name.
fn expression(alloc: Global, name: &str) -> Result<Expr, AllocError> {
    match name {
        "arguments" => nested(alloc, 3, 5, 3),
        "element" => element(alloc),
        "difference" => difference(alloc),
        "choice" => choice(alloc),
        _ => Ok(of_node(Node::Literal { value: 7 })),
    }
}

fn list(alloc: Global, stmt: Stmt) -> Result<Stmts, AllocError> {
    let mut stmts = Items::new(alloc);
    stmts.push(stmt)?;
    Ok(stmts)
}

/// An expression statement that calls the function with this number.
fn calling(alloc: Global, function: u32) -> Result<Stmts, AllocError> {
    let expr = call(alloc, function);
    list(alloc, Stmt::Expression { point: POINT, expr })
}

/// An `if` with a call in its condition and in each branch.
fn branches(alloc: Global) -> Result<Stmt, AllocError> {
    Ok(Stmt::If {
        point: POINT,
        cond: call(alloc, 2),
        yes: calling(alloc, 1)?,
        no: calling(alloc, 0)?,
    })
}

/// A `for` with a call in each part of its head and in its body.
fn counted(alloc: Global) -> Result<Stmt, AllocError> {
    Ok(Stmt::For {
        first: calling(alloc, 1)?,
        point: POINT,
        cond: Some(call(alloc, 2)),
        body: calling(alloc, 3)?,
        update: calling(alloc, 4)?,
    })
}

/// The statement with this name; a `return` of the expression with it for another name.
fn statement(alloc: Global, name: &str) -> Result<Stmt, AllocError> {
    match name {
        "declaration" => Ok(Stmt::Declare {
            point: POINT,
            first: 0,
            length: None,
            value: Init::One(call(alloc, 6)),
        }),
        "if" => branches(alloc),
        "do" => Ok(Stmt::DoWhile {
            point: POINT,
            body: calling(alloc, 5)?,
            cond: call(alloc, 3),
        }),
        "for" => counted(alloc),
        "break" => Ok(Stmt::Break { point: POINT }),
        _ => Ok(Stmt::Return {
            point: POINT,
            value: Some(expression(alloc, name)?),
        }),
    }
}

/// The numbers of the functions that the statement with this name calls, in order of evaluation.
pub(crate) fn call_text(alloc: Global, name: &str) -> Result<String, AllocError> {
    let stmts = list(alloc, statement(alloc, name)?)?;
    let called = callees(alloc, stmts.as_slice())?;
    if called.as_slice().is_empty() {
        return String::from_str(alloc, "none");
    }
    let mut out = String::new(alloc);
    let mut separator = "";
    for number in called.as_slice() {
        out.push_str(format!(in alloc; "{separator}{number}")?.as_str())?;
        separator = " ";
    }
    Ok(out)
}
