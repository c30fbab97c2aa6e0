//! The walk over statements.

ghost use Rattle.std.specs.Prelude.{◌≡◌, [], IfOk, map};
ghost use Rattle.c_ir.specs.declared.tree.Stmt.TheOpen.{Stmt-F};
ghost use Rattle.acsl_bind.specs.Placing as spec;
ghost use Rattle.acsl_bind.specs.Placing.{Places, made_of, placed_of, scene};
ghost use Rattle.acsl_bind.specs.inner.Nexts.{Nexts};

use crate::body::bound_note;
use crate::bound::Bound;
use crate::copy::{expr, init, maybe};
use crate::source::Source;
use crate::walk::{Walk, moved_point, new_point};
use c_ast::Annot;
use c_ir::{Expr, Init, PointClause, PointInfo, Stmt, Stmts};
use fc_base::{FnId, PointId, Spot};
use sqlite_items::Items;
use std::alloc::{AllocError, Global};

/// Whether the statement is a loop.
fn is_loop(s: &Stmt) -> bool
    ensures { (sc : spec.Scene) → (placed_of sc s.now).is_loop ≡ result }
{
    match s {
        Stmt::While { .. } | Stmt::DoWhile { .. } | Stmt::For { .. } => true,
        Stmt::Declare { .. }
        | Stmt::Expression { .. }
        | Stmt::If { .. }
        | Stmt::Break { .. }
        | Stmt::Continue { .. }
        | Stmt::Return { .. }
        | Stmt::Empty { .. }
        | Stmt::Block { .. }
        | Stmt::Note { .. }
        | Stmt::Clause { .. } => false,
    }
}

/// The place of a note.
fn note_of(s: &Stmt) -> Option<Spot>
    ensures { (sc : spec.Scene) → (placed_of sc s.now).note ≡ result }
{
    match s {
        Stmt::Note { at } => Some(*at),
        _ => None,
    }
}

/// Whether these statements begin with a loop.
fn heads_loop(all: &[Stmt]) -> bool
    ensures { (sc : spec.Scene) → spec.heads_loop (map (placed_of sc) all.now) ≡ result }
{
    match all.split_first() {
        None => false,
        Some((s, _)) => is_loop(s),
    }
}

/// What becomes of a note, after the statements that were made: the clauses for the next statement.
fn with_bound(
    alloc: Global,
    walk: &mut Walk,
    function: FnId,
    bound: Bound,
    done: &mut Stmts,
) -> Result<Items<PointClause>, AllocError>
    ensures { Nexts (spec.with_bound function bound done.old (made_of walk.old)) result done.new walk.old walk.new }
{
    match bound {
        Bound::Nothing => Ok(Items::new(alloc)),
        Bound::Statement(clause) => {
            let line = clause.line;
            let mut clauses = Items::new(alloc);
            clauses.push(clause)?;
            let point = new_point(walk, function, line, clauses)?;
            done.push(Stmt::Clause { point })?;
            Ok(Items::new(alloc))
        }
        Bound::Invariants(clauses) => Ok(clauses),
    }
}

/// A declarator at its point.
fn declare(
    alloc: Global,
    walk: &mut Walk,
    points: &[PointInfo],
    function: FnId,
    point: PointId,
    first: u32,
    length: Option<u32>,
    value: &Init,
) -> Result<Stmt, AllocError>
    ensures { Places (spec.at_point points.now function point (λ q. Stmt-F.Declare q first length value.now) (made_of walk.old)) result walk.old walk.new }
{
    let point = moved_point(walk, points, function, point, Items::new(alloc))?;
    let value = init(alloc, value)?;
    Ok(Stmt::Declare {
        point,
        first,
        length,
        value,
    })
}

/// An expression statement at its point.
fn expression(
    alloc: Global,
    walk: &mut Walk,
    points: &[PointInfo],
    function: FnId,
    point: PointId,
    e: &Expr,
) -> Result<Stmt, AllocError>
    ensures { Places (spec.at_point points.now function point (λ q. Stmt-F.Expression q e.now) (made_of walk.old)) result walk.old walk.new }
{
    let point = moved_point(walk, points, function, point, Items::new(alloc))?;
    let expr = expr(alloc, e)?;
    Ok(Stmt::Expression { point, expr })
}

/// A `return` at its point.
fn returned(
    alloc: Global,
    walk: &mut Walk,
    points: &[PointInfo],
    function: FnId,
    point: PointId,
    value: &Option<Expr>,
) -> Result<Stmt, AllocError>
    ensures { Places (spec.at_point points.now function point (λ q. Stmt-F.Return q value.now) (made_of walk.old)) result walk.old walk.new }
{
    let point = moved_point(walk, points, function, point, Items::new(alloc))?;
    let value = maybe(alloc, value)?;
    Ok(Stmt::Return { point, value })
}

#[cycle(stmts)]
fn if_stmt(
    alloc: Global,
    walk: &mut Walk,
    source: &Source,
    annots: &[Annot],
    function: FnId,
    point: PointId,
    cond: &Expr,
    yes: &[Stmt],
    no: &[Stmt],
) -> Result<Stmt, AllocError>
    ensures { Places (spec.if_stmt (scene source.now annots.now function) point cond.now (map (placed_of (scene source.now annots.now function)) yes.now) (map (placed_of (scene source.now annots.now function)) no.now) (made_of walk.old)) result walk.old walk.new }
{
    let point = moved_point(
        walk,
        source.points.as_slice(),
        function,
        point,
        Items::new(alloc),
    )?;
    let yes = stmts(alloc, walk, source, annots, function, yes)?;
    let no = stmts(alloc, walk, source, annots, function, no)?;
    let cond = expr(alloc, cond)?;
    Ok(Stmt::If {
        point,
        cond,
        yes,
        no,
    })
}

#[cycle(stmts)]
fn while_stmt(
    alloc: Global,
    walk: &mut Walk,
    source: &Source,
    annots: &[Annot],
    function: FnId,
    clauses: Items<PointClause>,
    point: PointId,
    cond: &Expr,
    body: &[Stmt],
) -> Result<Stmt, AllocError>
    ensures { Places (spec.while_stmt (scene source.now annots.now function) point cond.now (map (placed_of (scene source.now annots.now function)) body.now) clauses (made_of walk.old)) result walk.old walk.new }
{
    let point = moved_point(walk, source.points.as_slice(), function, point, clauses)?;
    let body = stmts(alloc, walk, source, annots, function, body)?;
    let cond = expr(alloc, cond)?;
    Ok(Stmt::While { point, cond, body })
}

#[cycle(stmts)]
fn do_stmt(
    alloc: Global,
    walk: &mut Walk,
    source: &Source,
    annots: &[Annot],
    function: FnId,
    clauses: Items<PointClause>,
    point: PointId,
    body: &[Stmt],
    cond: &Expr,
) -> Result<Stmt, AllocError>
    ensures { Places (spec.do_stmt (scene source.now annots.now function) point (map (placed_of (scene source.now annots.now function)) body.now) cond.now clauses (made_of walk.old)) result walk.old walk.new }
{
    let point = moved_point(walk, source.points.as_slice(), function, point, clauses)?;
    let body = stmts(alloc, walk, source, annots, function, body)?;
    let cond = expr(alloc, cond)?;
    Ok(Stmt::DoWhile { point, body, cond })
}

#[cycle(stmts)]
fn for_stmt(
    alloc: Global,
    walk: &mut Walk,
    source: &Source,
    annots: &[Annot],
    function: FnId,
    clauses: Items<PointClause>,
    first: &[Stmt],
    point: PointId,
    cond: &Option<Expr>,
    body: &[Stmt],
    update: &[Stmt],
) -> Result<Stmt, AllocError>
    ensures { Places (spec.for_stmt (scene source.now annots.now function) (map (placed_of (scene source.now annots.now function)) first.now) point cond.now (map (placed_of (scene source.now annots.now function)) body.now) (map (placed_of (scene source.now annots.now function)) update.now) clauses (made_of walk.old)) result walk.old walk.new }
{
    let first = stmts(alloc, walk, source, annots, function, first)?;
    let point = moved_point(walk, source.points.as_slice(), function, point, clauses)?;
    let body = stmts(alloc, walk, source, annots, function, body)?;
    let update = stmts(alloc, walk, source, annots, function, update)?;
    let cond = maybe(alloc, cond)?;
    Ok(Stmt::For {
        first,
        point,
        cond,
        body,
        update,
    })
}

/// `break`, `continue` or an empty statement, at its point.
fn bare_point(
    alloc: Global,
    walk: &mut Walk,
    points: &[PointInfo],
    function: FnId,
    point: PointId,
) -> Result<PointId, AllocError>
    ensures { Places (spec.moved_point points.now function point [] (made_of walk.old)) result walk.old walk.new }
{
    moved_point(walk, points, function, point, Items::new(alloc))
}

/// A statement that is no note, with these clauses where it is a loop.
#[cycle(stmts)]
fn stmt(
    alloc: Global,
    walk: &mut Walk,
    source: &Source,
    annots: &[Annot],
    function: FnId,
    clauses: Items<PointClause>,
    s: &Stmt,
) -> Result<Stmt, AllocError>
    ensures { Places ((placed_of (scene source.now annots.now function) s.now).walk clauses (made_of walk.old)) result walk.old walk.new }
{
    let points = source.points.as_slice();
    match s {
        Stmt::Declare {
            point,
            first,
            length,
            value,
        } => declare(
            alloc, walk, points, function, *point, *first, *length, value,
        ),
        Stmt::Expression { point, expr } => {
            expression(alloc, walk, points, function, *point, expr)
        }
        Stmt::If {
            point,
            cond,
            yes,
            no,
        } => if_stmt(
            alloc,
            walk,
            source,
            annots,
            function,
            *point,
            cond,
            yes.as_slice(),
            no.as_slice(),
        ),
        Stmt::While { point, cond, body } => while_stmt(
            alloc,
            walk,
            source,
            annots,
            function,
            clauses,
            *point,
            cond,
            body.as_slice(),
        ),
        Stmt::DoWhile { point, body, cond } => do_stmt(
            alloc,
            walk,
            source,
            annots,
            function,
            clauses,
            *point,
            body.as_slice(),
            cond,
        ),
        Stmt::For {
            first,
            point,
            cond,
            body,
            update,
        } => for_stmt(
            alloc,
            walk,
            source,
            annots,
            function,
            clauses,
            first.as_slice(),
            *point,
            cond,
            body.as_slice(),
            update.as_slice(),
        ),
        Stmt::Break { point } => {
            let point = bare_point(alloc, walk, points, function, *point)?;
            Ok(Stmt::Break { point })
        }
        Stmt::Continue { point } => {
            let point = bare_point(alloc, walk, points, function, *point)?;
            Ok(Stmt::Continue { point })
        }
        Stmt::Return { point, value } => returned(alloc, walk, points, function, *point, value),
        Stmt::Empty { point } | Stmt::Clause { point } => {
            let point = bare_point(alloc, walk, points, function, *point)?;
            Ok(Stmt::Empty { point })
        }
        Stmt::Block { stmts: inner } => {
            let stmts = stmts(alloc, walk, source, annots, function, inner.as_slice())?;
            Ok(Stmt::Block { stmts })
        }
        Stmt::Note { at } => Ok(Stmt::Note { at: *at }),
    }
}

/// A statement after those that were made: the clauses for the next one.
#[cycle(stmts)]
#[tactic(auto, using(crate::proofs::Nexts::no_note, crate::proofs::Nexts::a_note))]
fn next(
    alloc: Global,
    walk: &mut Walk,
    source: &Source,
    annots: &[Annot],
    function: FnId,
    clauses: Items<PointClause>,
    s: &Stmt,
    before_loop: bool,
    done: &mut Stmts,
) -> Result<Items<PointClause>, AllocError>
    ensures { Nexts (spec.next (scene source.now annots.now function) clauses (placed_of (scene source.now annots.now function) s.now) before_loop done.old (made_of walk.old)) result done.new walk.old walk.new }
{
    match note_of(s) {
        None => {
            done.push(stmt(alloc, walk, source, annots, function, clauses, s)?)?;
            Ok(Items::new(alloc))
        }
        Some(at) => {
            let bound = bound_note(alloc, walk, source, annots, function, before_loop, at)?;
            with_bound(alloc, walk, function, bound, done)
        }
    }
}

/// Statements with their notes.
#[cycle(stmts)]
#[tactic(auto, using(crate::proofs::Nexts::one_more))]
pub(crate) fn stmts(
    alloc: Global,
    walk: &mut Walk,
    source: &Source,
    annots: &[Annot],
    function: FnId,
    all: &[Stmt],
) -> Result<Stmts, AllocError>
    ensures { Places (spec.stmts (scene source.now annots.now function) (map (placed_of (scene source.now annots.now function)) all.now) (made_of walk.old)) result walk.old walk.new }
{
    let mut done = Items::new(alloc);
    let mut clauses = Items::new(alloc);
    let mut rest = all;
    while let Some((s, more)) = rest.split_first() {
        let before_loop = heads_loop(more);
        clauses = next(
            alloc,
            walk,
            source,
            annots,
            function,
            clauses,
            s,
            before_loop,
            &mut done,
        )?;
        rest = more;
    }
    Ok(done)
}
