//! What loops are widened by.

ghost use Rattle.std.specs.Prelude.{◌≡◌, ◌≤◌, ◌++◌, ◌-◌, ◌^◌, suc, map, IfOk};
ghost use Rattle.eva_rules.specs.Thresholds as rules;
ghost use Rattle.eva_rules.specs.Writing as writing;
ghost use Rattle.eva_rules.specs.Statements as statements;
ghost use Rattle.eva_run.specs.Code.{widening_by};

use crate::setting::clauses_at;
use c_ir::{Expr, Fun, Init, Node, PointClause, Pred, Program, Stmt, Stmts};
use eva_values::shape_of;
use int_interval::Shape;
use sqlite_items::Items;
use std::alloc::{AllocError, Global};

/// The thresholds of a function, the types of all cells, and which cells may have no number.
#[derive(Drop)]
pub(crate) struct Widening {
    pub(crate) thresholds: Items<i128>,
    pub(crate) shapes: Items<Shape>,
    pub(crate) flags: Items<bool>,
}

/// 2^126, past which no number is kept.
const MOST: u128 = 85070591730234615865843651857942052864;

/// Adds a constant and its two neighbours; of one past 2^126 none.
fn add_near(found: &mut Items<i128>, number: &i128) -> Result<(), AllocError>
    ensures { IfOk result (λ _. found.new ≡ found.old ++ rules.near number.now) }
{
    if number.unsigned_abs() > MOST {
        return Ok(());
    }
    found.push(*number - 1)?;
    found.push(*number)?;
    found.push(*number + 1)
}

/// Adds the constants of an expression.
#[cycle(constants)]
fn add_expr(found: &mut Items<i128>, e: &Expr) -> Result<(), AllocError>
    ensures { IfOk result (λ _. found.new ≡ found.old ++ rules.constants_of e.now) }
{
    match &e.node {
        Node::Literal { value } => found.push(*value),
        Node::Cell { .. } => Ok(()),
        Node::Element { index, .. } => add_expr(found, index.get()),
        Node::Call { args, .. } => add_exprs(found, args.as_slice()),
        Node::Unary { of, .. } | Node::Cast { of } => add_expr(found, of.get()),
        Node::Binary { left, right, .. } => {
            add_expr(found, left.get())?;
            add_expr(found, right.get())
        }
        Node::Assign { to, value } => {
            add_expr(found, to.get())?;
            add_expr(found, value.get())
        }
        Node::Cond { cond, yes, no } => {
            add_expr(found, cond.get())?;
            add_expr(found, yes.get())?;
            add_expr(found, no.get())
        }
    }
}

#[cycle(constants)]
fn add_exprs(found: &mut Items<i128>, all: &[Expr]) -> Result<(), AllocError>
    ensures { IfOk result (λ _. found.new ≡ found.old ++ rules.all_of (map rules.constants_of all.now)) }
{
    for e in all {
        add_expr(found, e)?;
    }
    Ok(())
}

fn add_if(found: &mut Items<i128>, e: &Option<Expr>) -> Result<(), AllocError>
    ensures { IfOk result (λ _. found.new ≡ found.old ++ rules.constants_if e.now) }
{
    match e {
        None => Ok(()),
        Some(e) => add_expr(found, e),
    }
}

fn add_init(found: &mut Items<i128>, value: &Init) -> Result<(), AllocError>
    ensures { IfOk result (λ _. found.new ≡ found.old ++ rules.constants_of_init value.now) }
{
    match value {
        Init::Nothing => Ok(()),
        Init::One(e) => add_expr(found, e),
        Init::Many(all) => add_exprs(found, all.as_slice()),
    }
}

/// Adds the constants of statements.
#[cycle(stmt_constants)]
fn add_stmts(found: &mut Items<i128>, all: &[Stmt]) -> Result<(), AllocError>
    ensures { IfOk result (λ _. found.new ≡ found.old ++ rules.all_of (map rules.constants_of_stmt all.now)) }
{
    for s in all {
        add_stmt(found, s)?;
    }
    Ok(())
}

#[cycle(stmt_constants)]
fn add_stmt(found: &mut Items<i128>, s: &Stmt) -> Result<(), AllocError>
    ensures { IfOk result (λ _. found.new ≡ found.old ++ rules.constants_of_stmt s.now) }
{
    match s {
        Stmt::Declare { value, .. } => add_init(found, value),
        Stmt::Expression { expr, .. } => add_expr(found, expr),
        Stmt::If { cond, yes, no, .. } => {
            add_expr(found, cond)?;
            add_stmts(found, yes.as_slice())?;
            add_stmts(found, no.as_slice())
        }
        Stmt::While { cond, body, .. } => {
            add_expr(found, cond)?;
            add_stmts(found, body.as_slice())
        }
        Stmt::DoWhile { body, cond, .. } => {
            add_stmts(found, body.as_slice())?;
            add_expr(found, cond)
        }
        Stmt::For {
            first,
            cond,
            body,
            update,
            ..
        } => {
            add_stmts(found, first.as_slice())?;
            add_if(found, cond)?;
            add_stmts(found, body.as_slice())?;
            add_stmts(found, update.as_slice())
        }
        Stmt::Return { value, .. } => add_if(found, value),
        Stmt::Block { stmts } => add_stmts(found, stmts.as_slice()),
        Stmt::Break { .. }
        | Stmt::Continue { .. }
        | Stmt::Empty { .. }
        | Stmt::Note { .. }
        | Stmt::Clause { .. } => Ok(()),
    }
}

/// Adds the constants of a predicate.
fn add_pred(found: &mut Items<i128>, p: &Pred) -> Result<(), AllocError>
    ensures { IfOk result (λ _. found.new ≡ found.old ++ rules.constants_of_pred p.now) }
{
    match p {
        Pred::Number { value } => found.push(*value),
        Pred::Cell { .. } | Pred::Bound { .. } | Pred::True | Pred::False => Ok(()),
        Pred::Element { index, .. } => add_pred(found, index.get()),
        Pred::Old { of } | Pred::Neg { of } | Pred::Not { of } => add_pred(found, of.get()),
        Pred::Binary { left, right, .. } | Pred::Related { left, right, .. } => {
            add_pred(found, left.get())?;
            add_pred(found, right.get())
        }
        Pred::Forall {
            low,
            high,
            body,
            ..
        } => {
            add_pred(found, low.get())?;
            add_pred(found, high.get())?;
            add_pred(found, body.get())
        }
    }
}

fn add_clauses(found: &mut Items<i128>, all: &[PointClause]) -> Result<(), AllocError>
    ensures { IfOk result (λ _. found.new ≡ found.old ++ rules.constants_of_clauses all.now) }
{
    for clause in all {
        add_pred(found, &clause.pred)?;
    }
    Ok(())
}

/// Adds the constants of the clauses at points from one to another.
#[tactic(auto, using(crate::proofs::Leaves::at_step, crate::proofs::Leaves::at_end))]
fn add_points(
    found: &mut Items<i128>,
    program: &Program,
    from: u64,
    end: u64,
) -> Result<(), AllocError>
    requires { end ≤ 2 ^ 32 }
    ensures { IfOk result (λ _. found.new ≡ found.old ++ rules.constants_at program.now from (end - from)) }
{
    for point in from..end {
        add_clauses(found, clauses_at(program, point as u32))?;
    }
    Ok(())
}

/// Adds each constant with its neighbours.
fn add_all_near(found: &mut Items<i128>, constants: &[i128]) -> Result<(), AllocError>
    ensures { IfOk result (λ _. found.new ≡ found.old ++ rules.all_near constants.now) }
{
    for constant in constants {
        add_near(found, constant)?;
    }
    Ok(())
}

/// The constants of a body.
fn body_constants(alloc: Global, body: &Option<Stmts>) -> Result<Items<i128>, AllocError>
    ensures { IfOk result (λ ks. ks ≡ rules.constants_of_body body.now) }
{
    let mut found = Items::new(alloc);
    if let Some(body) = body {
        add_stmts(&mut found, body.as_slice())?;
    }
    Ok(found)
}

/// The constants of the annotations of a function, whose points follow each other from its entry to its exit.
fn note_constants(alloc: Global, program: &Program, f: &Fun) -> Result<Items<i128>, AllocError>
    ensures { IfOk result (λ ks. ks
        ≡ rules.constants_at program.now f.now.entry.0 (suc f.now.exit.0 - f.now.entry.0)) }
{
    let mut found = Items::new(alloc);
    add_points(
        &mut found,
        program,
        u64::from(f.entry.0),
        u64::from(f.exit.0) + 1,
    )?;
    Ok(found)
}

/// The thresholds of a function: -1, 0, 1, and each constant of its body and of its annotations with its neighbours.
pub(crate) fn thresholds_of(
    alloc: Global,
    program: &Program,
    f: &Fun,
) -> Result<Items<i128>, AllocError>
    ensures { IfOk result (λ ts. ts ≡ rules.thresholds_of program.now f.now) }
{
    let body = body_constants(alloc, &f.body)?;
    let notes = note_constants(alloc, program, f)?;
    let mut found = Items::new(alloc);
    found.push(-1)?;
    found.push(0)?;
    found.push(1)?;
    add_all_near(&mut found, body.as_slice())?;
    add_all_near(&mut found, notes.as_slice())?;
    Ok(found)
}

/// The types of all cells.
fn shapes_of(alloc: Global, program: &Program) -> Result<Items<Shape>, AllocError>
    ensures { IfOk result (λ ss. ss ≡ writing.shapes_of program.now) }
{
    let infos = program.cells.as_slice();
    let mut shapes = Items::new(alloc);
    for info in infos {
        shapes.push(shape_of(info.ty))?;
    }
    Ok(shapes)
}

/// For each cell whether it may have no number.
fn flags_of(alloc: Global, program: &Program) -> Result<Items<bool>, AllocError>
    ensures { IfOk result (λ fs. fs ≡ writing.flags_of program.now) }
{
    let infos = program.cells.as_slice();
    let mut flags = Items::new(alloc);
    for info in infos {
        flags.push(info.owner.is_some())?;
    }
    Ok(flags)
}

/// What the loops of a function are widened by.
pub(crate) fn widening_of(alloc: Global, program: &Program, f: &Fun) -> Result<Widening, AllocError>
    ensures { IfOk result (λ w. widening_by w ≡ statements.widening_of program.now f.now) }
{
    Ok(Widening {
        thresholds: thresholds_of(alloc, program, f)?,
        shapes: shapes_of(alloc, program)?,
        flags: flags_of(alloc, program)?,
    })
}
