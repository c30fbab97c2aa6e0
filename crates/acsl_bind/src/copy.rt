//! Copies of typed trees.

ghost use Rattle.std.specs.Prelude.{◌≡◌, IfOk};

use c_ir::{Expr, Exprs, Init, Node};
use sqlite_items::{Boxed, Items};
use std::alloc::{AllocError, Global};

/// The same part of an expression again.
#[cycle(copy)]
fn part(alloc: Global, of: &Boxed<Expr>) -> Result<Boxed<Expr>, AllocError>
    ensures { IfOk result (λ e. e ≡ of.now) }
{
    Ok(Boxed::new(alloc, expr(alloc, of.get())?)?)
}

/// The same expression again.
#[cycle(copy)]
pub(crate) fn expr(alloc: Global, e: &Expr) -> Result<Expr, AllocError>
    ensures { IfOk result (λ x. x ≡ e.now) }
{
    let node = match &e.node {
        Node::Literal { value } => Node::Literal { value: *value },
        Node::Cell { cell, checked } => Node::Cell {
            cell: *cell,
            checked: *checked,
        },
        Node::Element {
            first,
            length,
            index,
            checked,
        } => Node::Element {
            first: *first,
            length: *length,
            index: part(alloc, index)?,
            checked: *checked,
        },
        Node::Call { function, args } => Node::Call {
            function: *function,
            args: exprs(alloc, args.as_slice())?,
        },
        Node::Unary { op, of } => Node::Unary {
            op: *op,
            of: part(alloc, of)?,
        },
        Node::Binary { op, left, right } => Node::Binary {
            op: *op,
            left: part(alloc, left)?,
            right: part(alloc, right)?,
        },
        Node::Assign { to, value } => Node::Assign {
            to: part(alloc, to)?,
            value: part(alloc, value)?,
        },
        Node::Cond { cond, yes, no } => Node::Cond {
            cond: part(alloc, cond)?,
            yes: part(alloc, yes)?,
            no: part(alloc, no)?,
        },
        Node::Cast { of } => Node::Cast {
            of: part(alloc, of)?,
        },
    };
    Ok(Expr {
        ty: e.ty,
        site: e.site,
        node,
    })
}

/// The same expressions again.
#[cycle(copy)]
fn exprs(alloc: Global, all: &[Expr]) -> Result<Exprs, AllocError>
    ensures { IfOk result (λ xs. xs ≡ all.now) }
{
    let mut copies = Items::new(alloc);
    for e in all {
        copies.push(expr(alloc, e)?)?;
    }
    Ok(copies)
}

/// The same expression again, if there is one.
pub(crate) fn maybe(alloc: Global, e: &Option<Expr>) -> Result<Option<Expr>, AllocError>
    ensures { IfOk result (λ x. x ≡ e.now) }
{
    match e {
        None => Ok(None),
        Some(e) => Ok(Some(expr(alloc, e)?)),
    }
}

/// The same initialiser again.
pub(crate) fn init(alloc: Global, value: &Init) -> Result<Init, AllocError>
    ensures { IfOk result (λ x. x ≡ value.now) }
{
    match value {
        Init::Nothing => Ok(Init::Nothing),
        Init::One(e) => Ok(Init::One(expr(alloc, e)?)),
        Init::Many(all) => Ok(Init::Many(exprs(alloc, all.as_slice())?)),
    }
}
