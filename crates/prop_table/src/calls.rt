//! Which functions the statements of a program call, with the points of these statements.

ghost use Rattle.std.specs.Prelude.{◌≡◌, ◌++◌, List, IfOk};
ghost use Rattle.c_ir.specs.Calls.{calls_of, calls_of_all, calls_if, calls_of_init};
ghost use Rattle.prop_table.specs.Points.{at_point, noted_in, noted_in_all, noted_calls};

use by_key::Keyed;
use c_ir::{Expr, Fun, Init, Node, Stmt};
use fc_base::PointId;
use sqlite_items::Items;
use std::alloc::{AllocError, Global};

/// The functions that are called, by their numbers and in order of evaluation, each with the point of the calling
/// statement as its key.
pub fn calls_in(alloc: Global, fns: &[Fun]) -> Result<Items<Keyed>, AllocError>
    ensures { IfOk result (λ ms. ms ≡ noted_calls fns.now) }
{
    let mut found = Items::new(alloc);
    for f in fns {
        if let Some(body) = &f.body {
            note_stmts(alloc, &mut found, body.as_slice())?;
        }
    }
    Ok(found)
}

#[cycle(stmts)]
fn note_stmts(alloc: Global, found: &mut Items<Keyed>, all: &[Stmt]) -> Result<(), AllocError>
    ensures { IfOk result (λ _. found.new ≡ found.old ++ noted_in_all all.now) }
{
    for s in all {
        note_stmt(alloc, found, s)?;
    }
    Ok(())
}

#[cycle(stmts)]
fn note_stmt(alloc: Global, found: &mut Items<Keyed>, s: &Stmt) -> Result<(), AllocError>
    ensures { IfOk result (λ _. found.new ≡ found.old ++ noted_in s.now) }
{
    match s {
        Stmt::Declare { point, value, .. } => note_init(alloc, found, *point, value),
        Stmt::Expression { point, expr } => note(alloc, found, *point, expr),
        Stmt::If {
            point,
            cond,
            yes,
            no,
        } => {
            note(alloc, found, *point, cond)?;
            note_stmts(alloc, found, yes.as_slice())?;
            note_stmts(alloc, found, no.as_slice())
        }
        Stmt::While { point, cond, body } => {
            note(alloc, found, *point, cond)?;
            note_stmts(alloc, found, body.as_slice())
        }
        Stmt::DoWhile { point, body, cond } => {
            note_stmts(alloc, found, body.as_slice())?;
            note(alloc, found, *point, cond)
        }
        Stmt::For {
            first,
            point,
            cond,
            body,
            update,
        } => {
            note_stmts(alloc, found, first.as_slice())?;
            note_if(alloc, found, *point, cond)?;
            note_stmts(alloc, found, body.as_slice())?;
            note_stmts(alloc, found, update.as_slice())
        }
        Stmt::Return { point, value } => note_if(alloc, found, *point, value),
        Stmt::Block { stmts } => note_stmts(alloc, found, stmts.as_slice()),
        Stmt::Break { .. }
        | Stmt::Continue { .. }
        | Stmt::Empty { .. }
        | Stmt::Note { .. }
        | Stmt::Clause { .. } => Ok(()),
    }
}

/// The calls of an expression that is evaluated at a point.
fn note(alloc: Global, found: &mut Items<Keyed>, point: PointId, e: &Expr) -> Result<(), AllocError>
    ensures { IfOk result (λ _. found.new ≡ found.old ++ at_point point (calls_of e.now)) }
{
    let mut callees = Items::new(alloc);
    add(&mut callees, e)?;
    note_all(found, point, callees.as_slice())
}

fn note_if(
    alloc: Global,
    found: &mut Items<Keyed>,
    point: PointId,
    e: &Option<Expr>,
) -> Result<(), AllocError>
    ensures { IfOk result (λ _. found.new ≡ found.old ++ at_point point (calls_if e.now)) }
{
    match e {
        None => Ok(()),
        Some(e) => note(alloc, found, point, e),
    }
}

fn note_init(
    alloc: Global,
    found: &mut Items<Keyed>,
    point: PointId,
    value: &Init,
) -> Result<(), AllocError>
    ensures { IfOk result (λ _. found.new ≡ found.old ++ at_point point (calls_of_init value.now)) }
{
    let mut callees = Items::new(alloc);
    add_init(&mut callees, value)?;
    note_all(found, point, callees.as_slice())
}

/// These numbers, each at this point.
fn note_all(found: &mut Items<Keyed>, point: PointId, numbers: &[u32]) -> Result<(), AllocError>
    ensures { IfOk result (λ _. found.new ≡ found.old ++ at_point point numbers.now) }
{
    for number in numbers {
        found.push(Keyed {
            key: point.0,
            number: *number,
        })?;
    }
    Ok(())
}

fn add_init(found: &mut Items<u32>, value: &Init) -> Result<(), AllocError>
    ensures { IfOk result (λ _. found.new ≡ found.old ++ calls_of_init value.now) }
{
    match value {
        Init::Nothing => Ok(()),
        Init::One(e) => add(found, e),
        Init::Many(all) => add_all(found, all.as_slice()),
    }
}

/// The functions that an expression calls, in order of evaluation.
#[cycle(exprs)]
fn add(found: &mut Items<u32>, e: &Expr) -> Result<(), AllocError>
    ensures { IfOk result (λ _. found.new ≡ found.old ++ calls_of e.now) }
{
    match &e.node {
        Node::Literal { .. } | Node::Cell { .. } => Ok(()),
        Node::Element { index, .. } => add(found, index.get()),
        Node::Call { function, args } => {
            add_all(found, args.as_slice())?;
            found.push(function.0)
        }
        Node::Unary { of, .. } | Node::Cast { of } => add(found, of.get()),
        Node::Binary { left, right, .. } => {
            add(found, left.get())?;
            add(found, right.get())
        }
        Node::Assign { to, value } => {
            add(found, to.get())?;
            add(found, value.get())
        }
        Node::Cond { cond, yes, no } => {
            add(found, cond.get())?;
            add(found, yes.get())?;
            add(found, no.get())
        }
    }
}

#[cycle(exprs)]
fn add_all(found: &mut Items<u32>, all: &[Expr]) -> Result<(), AllocError>
    ensures { IfOk result (λ _. found.new ≡ found.old ++ calls_of_all all.now) }
{
    for e in all {
        add(found, e)?;
    }
    Ok(())
}
