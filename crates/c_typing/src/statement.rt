//! The walk over statements (C11 6.8).

ghost use Rattle.std.specs.Prelude.{◌≡◌, ◌+◌, ◌<◌, ◌≤◌, ◌^◌, ◌∷◌, [], None, IfOk, length, map};
ghost use Rattle.std.specs.Option.{option_map};
ghost use Rattle.c_ir.specs.Numbers.{none, own_point, points_of_all, sites_if, stmt_sites_of_all};
ghost use Rattle.c_typing.specs.Room.{most_of, most_if, room_of_dropped, room_of_first, room_of, nodes_of, room_if, size_of_stmt, size_of_sub, room_of_declrs};
ghost use Rattle.c_typing.specs.Statements as spec;
ghost use Rattle.c_typing.specs.Statements.{meant_of, governed_of};
ghost use Rattle.c_typing.specs.Walking.{Walks, Is, HasRoom, Grows, Numbered, CountsOn, names_of, made_of, undone};

use crate::context::Context;
use crate::declaration::declaration;
use crate::expression::spot_of;
use crate::scope::{Scope, Undo, take_back};
use crate::walk::{Walk, aside, new_note, new_point, value_of};
use c_ast::{Declr, Expr as Ast, First, Spec, Stmt as AstStmt, Sub};
use c_ir::{Expr, InScope, IntType, Place, Stmt, Stmts};
use c_rules::{Fault, converted};
use fc_base::{PointId, Spot};
use shared_list::SharedList;
use sqlite_items::Items;
use std::alloc::{AllocError, Global};

/// The note that waits, if there is one, with the objects that are in scope, and with those that were.
fn noted(
    scope: &Scope,
    walk: &mut Walk,
    ctx: Context,
    waiting: Option<Spot>,
    before: SharedList<InScope>,
) -> Result<(), AllocError>
    ensures value { Walks (spec.noted ctx waiting before (names_of scope.now) (made_of walk.old)) result (names_of scope.now) walk.old walk.new }
    ensures room { IfOk result (λ _. Grows 0 walk.old walk.new) }
    ensures numbered { IfOk result (λ _. Numbered none none walk.old walk.new) }
{
    match waiting {
        None => Ok(()),
        Some(at) => new_note(scope, walk, Some(ctx.owner), at, before),
    }
}

/// The note that waits, if there is one, with the objects that are in scope.
#[tactic(auto, unfolding(crate::specs::Statements::note_waiting))]
fn note_waiting(
    scope: &Scope,
    walk: &mut Walk,
    ctx: Context,
    waiting: Option<Spot>,
) -> Result<(), AllocError>
    ensures value { Walks (spec.note_waiting ctx waiting (names_of scope.now) (made_of walk.old)) result (names_of scope.now) walk.old walk.new }
    ensures room { IfOk result (λ _. Grows 0 walk.old walk.new) }
    ensures numbered { IfOk result (λ _. Numbered none none walk.old walk.new) }
{
    noted(scope, walk, ctx, waiting, scope.declared.share()?)
}

/// A list of one statement.
fn single(alloc: Global, stmt: Stmt) -> Result<Stmts, AllocError>
    ensures { IfOk result (λ ss. ss ≡ stmt ∷ []) }
{
    let mut stmts = Items::new(alloc);
    stmts.push(stmt)?;
    Ok(stmts)
}

/// The point of a statement that begins at this place, after the note that waits.
fn point_at(
    alloc: Global,
    scope: &Scope,
    walk: &mut Walk,
    ctx: Context,
    waiting: Option<Spot>,
    at: Spot,
) -> Result<PointId, AllocError>
    requires { length walk.old.points < 2 ^ 32 }
    ensures value { Walks (spec.point_at ctx waiting at (names_of scope.now) (made_of walk.old)) result (names_of scope.now) walk.old walk.new }
    ensures room { IfOk result (λ _. Grows 1 walk.old walk.new) }
    ensures numbered { IfOk result (λ p. Numbered (own_point p) none walk.old walk.new) }
{
    note_waiting(scope, walk, ctx, waiting)?;
    new_point(alloc, scope, walk, ctx.owner, at.line)
}

/// An expression that is a statement.
#[tactic(auto, unfolding(crate::specs::Statements::dropped))]
fn dropped(
    alloc: Global,
    scope: &Scope,
    walk: &mut Walk,
    ctx: Context,
    e: &Ast,
) -> Result<Stmts, AllocError>
    requires { HasRoom (1 + most_of e.now) walk.old }
    ensures value { Walks (spec.dropped ctx e.now (names_of scope.now) (made_of walk.old)) result (names_of scope.now) walk.old walk.new }
    ensures room { IfOk result (λ _. Grows (1 + most_of e.now) walk.old walk.new) }
    ensures numbered { IfOk result (λ ss. Numbered (points_of_all ss) (stmt_sites_of_all ss) walk.old walk.new) }
{
    let point = new_point(alloc, scope, walk, ctx.owner, spot_of(e).line)?;
    let expr = value_of(alloc, scope, walk, point, Place::Dropped, e)?;
    single(alloc, Stmt::Expression { point, expr })
}

/// An expression statement.
#[tactic(auto, unfolding(crate::specs::Statements::expression))]
fn expression_stmt(
    alloc: Global,
    scope: &Scope,
    walk: &mut Walk,
    ctx: Context,
    waiting: Option<Spot>,
    at: Spot,
    e: &Ast,
) -> Result<Stmts, AllocError>
    requires { HasRoom (1 + most_of e.now) walk.old }
    ensures value { Walks (spec.expression ctx waiting at e.now (names_of scope.now) (made_of walk.old)) result (names_of scope.now) walk.old walk.new }
    ensures room { IfOk result (λ _. Grows (1 + most_of e.now) walk.old walk.new) }
    ensures numbered { IfOk result (λ ss. Numbered (points_of_all ss) (stmt_sites_of_all ss) walk.old walk.new) }
{
    let point = point_at(alloc, scope, walk, ctx, waiting, at)?;
    let expr = value_of(alloc, scope, walk, point, Place::Dropped, e)?;
    single(alloc, Stmt::Expression { point, expr })
}

/// A declaration in a block.
#[tactic(auto, unfolding(crate::specs::Statements::declare_stmt))]
fn declare_stmt(
    alloc: Global,
    scope: &mut Scope,
    log: &mut Items<Undo>,
    walk: &mut Walk,
    ctx: Context,
    waiting: Option<Spot>,
    specifiers: &Spec,
    all: &[Declr],
) -> Result<Stmts, AllocError>
    requires { HasRoom (room_of_declrs all.now) walk.old }
    ensures value { Walks (spec.declare_stmt ctx waiting specifiers.now all.now (names_of scope.old) (made_of walk.old)) result (names_of scope.new) walk.old walk.new }
    ensures kept { IfOk result (λ _. undone log.new (names_of scope.new).env ≡ undone log.old (names_of scope.old).env) }
    ensures room { IfOk result (λ _. Grows (room_of_declrs all.now) walk.old walk.new) }
    ensures numbered { IfOk result (λ ss. Numbered (points_of_all ss) (stmt_sites_of_all ss) walk.old walk.new) }
{
    note_waiting(scope, walk, ctx, waiting)?;
    declaration(alloc, scope, log, walk, ctx, specifiers, all)
}

/// What stands first in the head of a `for`.
#[tactic(auto, unfolding(crate::specs::Statements::head))]
fn head(
    alloc: Global,
    scope: &mut Scope,
    log: &mut Items<Undo>,
    walk: &mut Walk,
    ctx: Context,
    waiting: Option<Spot>,
    first: &First,
) -> Result<Stmts, AllocError>
    requires { HasRoom (room_of_first first.now) walk.old }
    ensures value { Walks (spec.head ctx waiting first.now (names_of scope.old) (made_of walk.old)) result (names_of scope.new) walk.old walk.new }
    ensures kept { IfOk result (λ _. undone log.new (names_of scope.new).env ≡ undone log.old (names_of scope.old).env) }
    ensures room { IfOk result (λ _. Grows (room_of_first first.now) walk.old walk.new) }
    ensures numbered { IfOk result (λ ss. Numbered (points_of_all ss) (stmt_sites_of_all ss) walk.old walk.new) }
{
    match first {
        First::Nothing => {
            note_waiting(scope, walk, ctx, waiting)?;
            Ok(Items::new(alloc))
        }
        First::Expression(e) => {
            note_waiting(scope, walk, ctx, waiting)?;
            dropped(alloc, scope, walk, ctx, e)
        }
        First::Declare { spec, declrs } => {
            let before = scope.declared.share()?;
            let stmts = declaration(alloc, scope, log, walk, ctx, spec, declrs.as_slice())?;
            noted(scope, walk, ctx, waiting, before)?;
            Ok(stmts)
        }
    }
}

/// The condition of a `for`, if there is one.
#[tactic(auto, unfolding(crate::specs::Statements::condition))]
fn condition(
    alloc: Global,
    scope: &Scope,
    walk: &mut Walk,
    point: PointId,
    e: &Option<Ast>,
) -> Result<Option<Expr>, AllocError>
    requires { length walk.old.found.sites + most_if e.now < 2 ^ 32 }
    ensures value { Walks (spec.condition point e.now (names_of scope.now) (made_of walk.old)) result (names_of scope.now) walk.old walk.new }
    ensures room { IfOk result (λ _. Grows (most_if e.now) walk.old walk.new) }
    ensures numbered { IfOk result (λ e. Numbered none (sites_if e) walk.old walk.new) }
{
    match e {
        None => Ok(None),
        Some(e) => Ok(Some(value_of(alloc, scope, walk, point, Place::Inner, e)?)),
    }
}

/// The expression that stands last in the head of a `for`, if there is one.
#[tactic(auto, unfolding(crate::specs::Statements::update))]
fn update(
    alloc: Global,
    scope: &Scope,
    walk: &mut Walk,
    ctx: Context,
    e: &Option<Ast>,
) -> Result<Stmts, AllocError>
    requires { HasRoom (room_of_dropped e.now) walk.old }
    ensures value { Walks (spec.update ctx e.now (names_of scope.now) (made_of walk.old)) result (names_of scope.now) walk.old walk.new }
    ensures room { IfOk result (λ _. Grows (room_of_dropped e.now) walk.old walk.new) }
    ensures numbered { IfOk result (λ ss. Numbered (points_of_all ss) (stmt_sites_of_all ss) walk.old walk.new) }
{
    match e {
        None => Ok(Items::new(alloc)),
        Some(e) => dropped(alloc, scope, walk, ctx, e),
    }
}

/// A `break`; BadType outside a loop.
#[tactic(auto, unfolding(crate::specs::Statements::break_stmt))]
fn break_stmt(
    alloc: Global,
    scope: &Scope,
    walk: &mut Walk,
    ctx: Context,
    waiting: Option<Spot>,
    at: Spot,
) -> Result<Stmts, AllocError>
    requires { length walk.old.points < 2 ^ 32 }
    ensures value { Walks (spec.break_stmt ctx waiting at (names_of scope.now) (made_of walk.old)) result (names_of scope.now) walk.old walk.new }
    ensures room { IfOk result (λ _. Grows 1 walk.old walk.new) }
    ensures numbered { IfOk result (λ ss. Numbered (points_of_all ss) (stmt_sites_of_all ss) walk.old walk.new) }
{
    let point = point_at(alloc, scope, walk, ctx, waiting, at)?;
    walk.found
        .note_if(!ctx.in_loop, at.span.from, Fault::BadType);
    single(alloc, Stmt::Break { point })
}

/// A `continue`; BadType outside a loop.
#[tactic(auto, unfolding(crate::specs::Statements::continue_stmt))]
fn continue_stmt(
    alloc: Global,
    scope: &Scope,
    walk: &mut Walk,
    ctx: Context,
    waiting: Option<Spot>,
    at: Spot,
) -> Result<Stmts, AllocError>
    requires { length walk.old.points < 2 ^ 32 }
    ensures value { Walks (spec.continue_stmt ctx waiting at (names_of scope.now) (made_of walk.old)) result (names_of scope.now) walk.old walk.new }
    ensures room { IfOk result (λ _. Grows 1 walk.old walk.new) }
    ensures numbered { IfOk result (λ ss. Numbered (points_of_all ss) (stmt_sites_of_all ss) walk.old walk.new) }
{
    let point = point_at(alloc, scope, walk, ctx, waiting, at)?;
    walk.found
        .note_if(!ctx.in_loop, at.span.from, Fault::BadType);
    single(alloc, Stmt::Continue { point })
}

/// The value of a `return`, converted to the type of the result; BadType where there is one without the other.
fn returned(
    alloc: Global,
    scope: &Scope,
    walk: &mut Walk,
    point: PointId,
    at: Spot,
    ty: Option<IntType>,
    value: &Option<Ast>,
) -> Result<Option<Expr>, AllocError>
    requires { length walk.old.found.sites + most_if value.now < 2 ^ 32 }
    ensures value { Walks (spec.returned point at ty value.now (names_of scope.now) (made_of walk.old)) result (names_of scope.now) walk.old walk.new }
    ensures room { IfOk result (λ _. Grows (most_if value.now) walk.old walk.new) }
    ensures numbered { IfOk result (λ e. Numbered none (sites_if e) walk.old walk.new) }
{
    match (ty, value) {
        (None, None) => Ok(None),
        (Some(_), None) => {
            walk.found.note(at.span.from, Fault::BadType);
            Ok(None)
        }
        (None, Some(e)) => {
            walk.found.note(at.span.from, Fault::BadType);
            aside(alloc, scope, walk, Place::Value, e)?;
            Ok(None)
        }
        (Some(ty), Some(e)) => {
            let value = value_of(alloc, scope, walk, point, Place::Value, e)?;
            Ok(Some(converted(alloc, ty, value)?))
        }
    }
}

/// A `return`.
#[tactic(auto, unfolding(crate::specs::Statements::return_stmt))]
fn return_stmt(
    alloc: Global,
    scope: &Scope,
    walk: &mut Walk,
    ctx: Context,
    waiting: Option<Spot>,
    at: Spot,
    value: &Option<Ast>,
) -> Result<Stmts, AllocError>
    requires { HasRoom (1 + most_if value.now) walk.old }
    ensures value { Walks (spec.return_stmt ctx waiting at value.now (names_of scope.now) (made_of walk.old)) result (names_of scope.now) walk.old walk.new }
    ensures room { IfOk result (λ _. Grows (1 + most_if value.now) walk.old walk.new) }
    ensures numbered { IfOk result (λ ss. Numbered (points_of_all ss) (stmt_sites_of_all ss) walk.old walk.new) }
{
    let point = point_at(alloc, scope, walk, ctx, waiting, at)?;
    let value = returned(alloc, scope, walk, point, at, ctx.result, value)?;
    single(alloc, Stmt::Return { point, value })
}

/// `;`
#[tactic(auto, unfolding(crate::specs::Statements::empty_stmt))]
fn empty_stmt(
    alloc: Global,
    scope: &Scope,
    walk: &mut Walk,
    ctx: Context,
    waiting: Option<Spot>,
    at: Spot,
) -> Result<Stmts, AllocError>
    requires { length walk.old.points < 2 ^ 32 }
    ensures value { Walks (spec.empty_stmt ctx waiting at (names_of scope.now) (made_of walk.old)) result (names_of scope.now) walk.old walk.new }
    ensures room { IfOk result (λ _. Grows 1 walk.old walk.new) }
    ensures numbered { IfOk result (λ ss. Numbered (points_of_all ss) (stmt_sites_of_all ss) walk.old walk.new) }
{
    let point = point_at(alloc, scope, walk, ctx, waiting, at)?;
    single(alloc, Stmt::Empty { point })
}

/// The notes before a governed statement; the last of them waits.
fn notes(
    alloc: Global,
    scope: &Scope,
    walk: &mut Walk,
    ctx: Context,
    all: &[Spot],
) -> Result<(Option<Spot>, Stmts), AllocError>
    ensures value { Walks (spec.notes_from ctx None all.now [] (names_of scope.now) (made_of walk.old)) result (names_of scope.now) walk.old walk.new }
    ensures room { IfOk result (λ _. Grows 0 walk.old walk.new) }
    ensures numbered { IfOk result (λ n. Numbered (points_of_all n.1) (stmt_sites_of_all n.1) walk.old walk.new) }
{
    let mut waiting = None;
    let mut done = Items::new(alloc);
    for at in all {
        note_waiting(scope, walk, ctx, waiting)?;
        done.push(Stmt::Note { at: *at })?;
        waiting = Some(*at);
    }
    Ok((waiting, done))
}

/// A governed statement, after its notes.
#[cycle(stmts)]
#[tactic(auto, using(crate::proofs::Numbering::added))]
fn sub(
    alloc: Global,
    scope: &mut Scope,
    log: &mut Items<Undo>,
    walk: &mut Walk,
    ctx: Context,
    s: &Sub,
) -> Result<Stmts, AllocError>
    requires { HasRoom (size_of_sub s.now).room walk.old }
    ensures value { Walks (governed_of s.now ctx (names_of scope.old) (made_of walk.old)) result (names_of scope.new) walk.old walk.new }
    ensures kept { IfOk result (λ _. undone log.new (names_of scope.new).env ≡ undone log.old (names_of scope.old).env) }
    ensures room { IfOk result (λ _. Grows (size_of_sub s.now).room walk.old walk.new) }
    ensures numbered { IfOk result (λ ss. Numbered (points_of_all ss) (stmt_sites_of_all ss) walk.old walk.new) }
{
    let (waiting, done) = notes(alloc, scope, walk, ctx, s.notes.as_slice())?;
    let more = stmt(alloc, scope, log, walk, ctx, waiting, s.stmt.get())?;
    let mut done = done;
    done.append(more)?;
    Ok(done)
}

/// What an `else` governs, if there is one.
#[cycle(stmts)]
fn branch(
    alloc: Global,
    scope: &mut Scope,
    log: &mut Items<Undo>,
    walk: &mut Walk,
    ctx: Context,
    s: &Option<Sub>,
) -> Result<Stmts, AllocError>
    requires { HasRoom (room_if (option_map size_of_sub s.now)) walk.old }
    ensures value { Walks (spec.branch (option_map governed_of s.now) ctx (names_of scope.old) (made_of walk.old)) result (names_of scope.new) walk.old walk.new }
    ensures kept { IfOk result (λ _. undone log.new (names_of scope.new).env ≡ undone log.old (names_of scope.old).env) }
    ensures room { IfOk result (λ _. Grows (room_if (option_map size_of_sub s.now)) walk.old walk.new) }
    ensures numbered { IfOk result (λ ss. Numbered (points_of_all ss) (stmt_sites_of_all ss) walk.old walk.new) }
{
    match s {
        None => Ok(Items::new(alloc)),
        Some(s) => sub(alloc, scope, log, walk, ctx, s),
    }
}

/// A `for`, in the scope of its head.
#[cycle(stmts)]
fn for_parts(
    alloc: Global,
    scope: &mut Scope,
    log: &mut Items<Undo>,
    walk: &mut Walk,
    ctx: Context,
    waiting: Option<Spot>,
    at: Spot,
    first: &First,
    cond: &Option<Ast>,
    last: &Option<Ast>,
    body: &Sub,
) -> Result<Stmts, AllocError>
    requires { HasRoom (1 + room_of_first first.now + most_if cond.now + room_of_dropped last.now + (size_of_sub body.now).room) walk.old }
    ensures value { Walks (spec.for_parts ctx waiting at first.now cond.now last.now (governed_of body.now) (names_of scope.old) (made_of walk.old)) result (names_of scope.new) walk.old walk.new }
    ensures kept { IfOk result (λ _. undone log.new (names_of scope.new).env ≡ undone log.old (names_of scope.old).env) }
    ensures room { IfOk result (λ _. Grows (1 + room_of_first first.now + most_if cond.now + room_of_dropped last.now + (size_of_sub body.now).room) walk.old walk.new) }
    ensures numbered { IfOk result (λ ss. Numbered (points_of_all ss) (stmt_sites_of_all ss) walk.old walk.new) }
{
    let first = head(alloc, scope, log, walk, ctx, waiting, first)?;
    let point = new_point(alloc, scope, walk, ctx.owner, at.line)?;
    let cond = condition(alloc, scope, walk, point, cond)?;
    let body = sub(alloc, scope, log, walk, looping(ctx), body)?;
    let update = update(alloc, scope, walk, ctx, last)?;
    single(
        alloc,
        Stmt::For {
            first,
            point,
            cond,
            body,
            update,
        },
    )
}

fn looping(ctx: Context) -> Context
    ensures { result ≡ spec.looping ctx }
{
    Context {
        in_loop: true,
        ..ctx
    }
}

fn from_here(ctx: Context, walk: &Walk) -> Context
    ensures { result ≡ spec.inner ctx walk.now.cells }
{
    Context {
        since: walk.cells,
        formals_to: 0,
        ..ctx
    }
}

/// A `for`, whose head has a scope of its own.
#[cycle(stmts)]
fn for_stmt(
    alloc: Global,
    scope: &mut Scope,
    walk: &mut Walk,
    ctx: Context,
    waiting: Option<Spot>,
    at: Spot,
    first: &First,
    cond: &Option<Ast>,
    last: &Option<Ast>,
    body: &Sub,
) -> Result<Stmts, AllocError>
    requires { HasRoom (1 + room_of_first first.now + most_if cond.now + room_of_dropped last.now + (size_of_sub body.now).room) walk.old }
    ensures value { Walks (spec.for_stmt ctx waiting at first.now cond.now last.now (governed_of body.now) (names_of scope.old) (made_of walk.old)) result (names_of scope.new) walk.old walk.new }
    ensures kept { IfOk result (λ _. names_of scope.new ≡ names_of scope.old) }
    ensures room { IfOk result (λ _. Grows (1 + room_of_first first.now + most_if cond.now + room_of_dropped last.now + (size_of_sub body.now).room) walk.old walk.new) }
    ensures numbered { IfOk result (λ ss. Numbered (points_of_all ss) (stmt_sites_of_all ss) walk.old walk.new) }
{
    let declared = scope.declared.share()?;
    let mut log = Items::new(alloc);
    let inner = from_here(ctx, walk);
    let stmts = for_parts(
        alloc, scope, &mut log, walk, inner, waiting, at, first, cond, last, body,
    )?;
    take_back(alloc, &mut scope.names, log)?;
    scope.declared = declared;
    Ok(stmts)
}

/// The statements of a block, which has a scope of its own.
#[cycle(stmts)]
fn block(
    alloc: Global,
    scope: &mut Scope,
    walk: &mut Walk,
    ctx: Context,
    all: &[AstStmt],
) -> Result<Stmts, AllocError>
    requires { HasRoom (room_of (map size_of_stmt all.now)) walk.old }
    ensures value { Walks (spec.block_stmts ctx (map meant_of all.now) (names_of scope.old) (made_of walk.old)) result (names_of scope.new) walk.old walk.new }
    ensures kept { IfOk result (λ _. names_of scope.new ≡ names_of scope.old) }
    ensures room { IfOk result (λ _. Grows (room_of (map size_of_stmt all.now)) walk.old walk.new) }
    ensures numbered { IfOk result (λ ss. Numbered (points_of_all ss) (stmt_sites_of_all ss) walk.old walk.new) }
{
    let declared = scope.declared.share()?;
    let mut log = Items::new(alloc);
    let inner = from_here(ctx, walk);
    let stmts = stmts(alloc, scope, &mut log, walk, inner, all)?;
    take_back(alloc, &mut scope.names, log)?;
    scope.declared = declared;
    Ok(stmts)
}

/// Statements in the block of this log.
#[cycle(stmts)]
#[tactic(auto, using(crate::proofs::Numbering::counts_on))]
pub(crate) fn stmts(
    alloc: Global,
    scope: &mut Scope,
    log: &mut Items<Undo>,
    walk: &mut Walk,
    ctx: Context,
    all: &[AstStmt],
) -> Result<Stmts, AllocError>
    requires { HasRoom (room_of (map size_of_stmt all.now)) walk.old }
    ensures value { Walks (spec.stmts_from ctx None (map meant_of all.now) [] (names_of scope.old) (made_of walk.old)) result (names_of scope.new) walk.old walk.new }
    ensures kept { IfOk result (λ _. undone log.new (names_of scope.new).env ≡ undone log.old (names_of scope.old).env) }
    ensures room { IfOk result (λ _. Grows (room_of (map size_of_stmt all.now)) walk.old walk.new) }
    ensures numbered { IfOk result (λ ss. Numbered (points_of_all ss) (stmt_sites_of_all ss) walk.old walk.new) }
{
    let mut done = Items::new(alloc);
    let mut waiting = None;
    for s in all {
        waiting = next(alloc, scope, log, walk, ctx, waiting, s, &mut done)?;
    }
    note_waiting(scope, walk, ctx, waiting)?;
    Ok(done)
}

/// Where a note stands; None for another statement.
fn note_at(s: &AstStmt) -> Option<Spot>
    ensures { result ≡ (meant_of s.now).note }
{
    match s {
        AstStmt::Note { at } => Some(*at),
        _ => None,
    }
}

/// A statement after those that were made; the answer is the note that waits.
#[cycle(stmts)]
#[tactic(auto, unfolding(crate::specs::Statements::next), using(crate::proofs::Numbering::added_on, crate::proofs::Noting::note_points_on, crate::proofs::Noting::note_sites_on))]
fn next(
    alloc: Global,
    scope: &mut Scope,
    log: &mut Items<Undo>,
    walk: &mut Walk,
    ctx: Context,
    waiting: Option<Spot>,
    s: &AstStmt,
    done: &mut Stmts,
) -> Result<Option<Spot>, AllocError>
    requires { HasRoom (size_of_stmt s.now).room walk.old }
    ensures value { IfOk result (λ n. Is (spec.next ctx waiting (meant_of s.now) done.old (names_of scope.old) (made_of walk.old)) (n, done.new) (names_of scope.new) walk.old walk.new) }
    ensures kept { IfOk result (λ _. undone log.new (names_of scope.new).env ≡ undone log.old (names_of scope.old).env) }
    ensures room { IfOk result (λ _. Grows (size_of_stmt s.now).room walk.old walk.new) }
    ensures points { IfOk result (λ _. CountsOn (points_of_all done.old) (points_of_all done.new) (length walk.old.points) (length walk.new.points)) }
    ensures sites { IfOk result (λ _. CountsOn (stmt_sites_of_all done.old) (stmt_sites_of_all done.new) (length walk.old.found.sites) (length walk.new.found.sites)) }
{
    match note_at(s) {
        Some(at) => {
            note_waiting(scope, walk, ctx, waiting)?;
            done.push(Stmt::Note { at })?;
            Ok(Some(at))
        }
        None => {
            let more = stmt(alloc, scope, log, walk, ctx, waiting, s)?;
            done.append(more)?;
            Ok(None)
        }
    }
}

/// A statement, in the block of this log, after the note that waits.
#[cycle(stmts)]
fn stmt(
    alloc: Global,
    scope: &mut Scope,
    log: &mut Items<Undo>,
    walk: &mut Walk,
    ctx: Context,
    waiting: Option<Spot>,
    s: &AstStmt,
) -> Result<Stmts, AllocError>
    requires { HasRoom (size_of_stmt s.now).room walk.old }
    ensures value { Walks ((meant_of s.now).walk ctx waiting (names_of scope.old) (made_of walk.old)) result (names_of scope.new) walk.old walk.new }
    ensures kept { IfOk result (λ _. undone log.new (names_of scope.new).env ≡ undone log.old (names_of scope.old).env) }
    ensures room { IfOk result (λ _. Grows (size_of_stmt s.now).room walk.old walk.new) }
    ensures numbered { IfOk result (λ ss. Numbered (points_of_all ss) (stmt_sites_of_all ss) walk.old walk.new) }
{
    match s {
        AstStmt::Declare {
            at: _,
            spec,
            declrs,
        } => declare_stmt(
            alloc,
            scope,
            log,
            walk,
            ctx,
            waiting,
            spec,
            declrs.as_slice(),
        ),
        AstStmt::Expression { at, expr } => {
            expression_stmt(alloc, scope, walk, ctx, waiting, *at, expr)
        }
        AstStmt::If { at, cond, yes, no } => {
            let point = point_at(alloc, scope, walk, ctx, waiting, *at)?;
            let cond = value_of(alloc, scope, walk, point, Place::Inner, cond)?;
            let yes = sub(alloc, scope, log, walk, ctx, yes)?;
            let no = branch(alloc, scope, log, walk, ctx, no)?;
            single(
                alloc,
                Stmt::If {
                    point,
                    cond,
                    yes,
                    no,
                },
            )
        }
        AstStmt::While { at, cond, body } => {
            let point = point_at(alloc, scope, walk, ctx, waiting, *at)?;
            let cond = value_of(alloc, scope, walk, point, Place::Inner, cond)?;
            let body = sub(alloc, scope, log, walk, looping(ctx), body)?;
            single(alloc, Stmt::While { point, cond, body })
        }
        AstStmt::DoWhile { at, body, cond } => {
            let point = point_at(alloc, scope, walk, ctx, waiting, *at)?;
            let body = sub(alloc, scope, log, walk, looping(ctx), body)?;
            let cond = value_of(alloc, scope, walk, point, Place::Inner, cond)?;
            single(alloc, Stmt::DoWhile { point, body, cond })
        }
        AstStmt::For {
            at,
            first,
            cond,
            update,
            body,
        } => for_stmt(
            alloc, scope, walk, ctx, waiting, *at, first, cond, update, body,
        ),
        AstStmt::Break { at } => break_stmt(alloc, scope, walk, ctx, waiting, *at),
        AstStmt::Continue { at } => continue_stmt(alloc, scope, walk, ctx, waiting, *at),
        AstStmt::Return { at, value } => {
            return_stmt(alloc, scope, walk, ctx, waiting, *at, value)
        }
        AstStmt::Empty { at } => empty_stmt(alloc, scope, walk, ctx, waiting, *at),
        AstStmt::Block { at: _, stmts } => {
            note_waiting(scope, walk, ctx, waiting)?;
            let stmts = block(alloc, scope, walk, ctx, stmts.as_slice())?;
            single(alloc, Stmt::Block { stmts })
        }
        AstStmt::Note { at } => {
            note_waiting(scope, walk, ctx, waiting)?;
            note_waiting(scope, walk, ctx, Some(*at))?;
            single(alloc, Stmt::Note { at: *at })
        }
    }
}
