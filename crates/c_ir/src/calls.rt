//! Which functions are called in a tree.

ghost use Rattle.std.specs.Prelude.{◌≡◌, ◌++◌, IfOk};
ghost use Rattle.c_ir.specs.Calls.{calls_of, calls_of_all, calls_if, calls_of_init, calls_of_stmt, calls_of_stmts};

use crate::tree::{Expr, Init, Node, Stmt};
use sqlite_items::Items;
use std::alloc::{AllocError, Global};

/// The numbers of the functions that these statements call, in order of evaluation; one that is called at several
/// places is there for each of them.
pub fn callees(alloc: Global, stmts: &[Stmt]) -> Result<Items<u32>, AllocError>
    ensures { IfOk result (λ ns. ns ≡ calls_of_stmts stmts.now) }
{
    let mut found = Items::new(alloc);
    add_stmts(&mut found, stmts)?;
    Ok(found)
}

#[cycle(calls)]
fn add(found: &mut Items<u32>, e: &Expr) -> Result<(), AllocError>
    ensures { IfOk result (λ _. found.new ≡ found.old ++ calls_of e.now) }
{
    match &e.node {
        Node::Literal { .. } | Node::Cell { .. } => Ok(()),
        Node::Element { index, .. } => add(found, index.get()),
        Node::Call { function, args } => {
            add_all(found, args.as_slice())?;
            found.push(function.0)
        }
        Node::Unary { of, .. } | Node::Cast { of } => add(found, of.get()),
        Node::Binary { left, right, .. } => {
            add(found, left.get())?;
            add(found, right.get())
        }
        Node::Assign { to, value } => {
            add(found, to.get())?;
            add(found, value.get())
        }
        Node::Cond { cond, yes, no } => {
            add(found, cond.get())?;
            add(found, yes.get())?;
            add(found, no.get())
        }
    }
}

#[cycle(calls)]
fn add_all(found: &mut Items<u32>, all: &[Expr]) -> Result<(), AllocError>
    ensures { IfOk result (λ _. found.new ≡ found.old ++ calls_of_all all.now) }
{
    for e in all {
        add(found, e)?;
    }
    Ok(())
}

fn add_if(found: &mut Items<u32>, e: &Option<Expr>) -> Result<(), AllocError>
    ensures { IfOk result (λ _. found.new ≡ found.old ++ calls_if e.now) }
{
    match e {
        None => Ok(()),
        Some(e) => add(found, e),
    }
}

fn add_init(found: &mut Items<u32>, value: &Init) -> Result<(), AllocError>
    ensures { IfOk result (λ _. found.new ≡ found.old ++ calls_of_init value.now) }
{
    match value {
        Init::Nothing => Ok(()),
        Init::One(e) => add(found, e),
        Init::Many(all) => add_all(found, all.as_slice()),
    }
}

#[cycle(stmt_calls)]
fn add_stmts(found: &mut Items<u32>, all: &[Stmt]) -> Result<(), AllocError>
    ensures { IfOk result (λ _. found.new ≡ found.old ++ calls_of_stmts all.now) }
{
    for s in all {
        add_stmt(found, s)?;
    }
    Ok(())
}

#[cycle(stmt_calls)]
fn add_stmt(found: &mut Items<u32>, s: &Stmt) -> Result<(), AllocError>
    ensures { IfOk result (λ _. found.new ≡ found.old ++ calls_of_stmt s.now) }
{
    match s {
        Stmt::Declare { value, .. } => add_init(found, value),
        Stmt::Expression { expr, .. } => add(found, expr),
        Stmt::If { cond, yes, no, .. } => {
            add(found, cond)?;
            add_stmts(found, yes.as_slice())?;
            add_stmts(found, no.as_slice())
        }
        Stmt::While { cond, body, .. } => {
            add(found, cond)?;
            add_stmts(found, body.as_slice())
        }
        Stmt::DoWhile { body, cond, .. } => {
            add_stmts(found, body.as_slice())?;
            add(found, cond)
        }
        Stmt::For {
            first,
            cond,
            body,
            update,
            ..
        } => {
            add_stmts(found, first.as_slice())?;
            add_if(found, cond)?;
            add_stmts(found, body.as_slice())?;
            add_stmts(found, update.as_slice())
        }
        Stmt::Return { value, .. } => add_if(found, value),
        Stmt::Block { stmts } => add_stmts(found, stmts.as_slice()),
        Stmt::Break { .. }
        | Stmt::Continue { .. }
        | Stmt::Empty { .. }
        | Stmt::Note { .. }
        | Stmt::Clause { .. } => Ok(()),
    }
}
