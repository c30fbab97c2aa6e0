//! The formals and the body of a function, and the notes before it (C11 6.9.1).

ghost use Rattle.std.specs.Prelude.{◌≡◌, ◌+◌, ◌<◌, ◌≤◌, ◌^◌, None, IfOk, length, map};
ghost use Rattle.c_typing.specs.Functions as spec;
ghost use Rattle.c_typing.specs.Functions.{IsRoomy};
ghost use Rattle.c_typing.specs.Room.{room_of, room_of_body, size_of_stmt};
ghost use Rattle.c_typing.specs.Walking.{Walks, HasRoom, Grows, names_of, made_of, undone};

use crate::context::Context;
use crate::declaration::{declare, note_twice, object_type};
use crate::file::Definition;
use crate::scope::{Scope, Undo, name_is, take_back};
use crate::statement::stmts;
use crate::walk::{Walk, new_note, new_point};
use c_ast::{Formal, Function, Ident, Stmt as AstStmt};
use c_ir::IntType;
use c_rules::{Entry, Object, Signature, is_constant, spec_type};
use fc_base::{FnId, Line, Spot};
use sqlite_items::Items;
use std::alloc::{AllocError, Global};

fn formal_object(ty: IntType, cell: u32, constant: bool) -> Entry
    ensures { result ≡ spec.formal_object ty cell constant }
{
    Entry::Object(Object {
        ty,
        first: cell,
        length: None,
        constant,
        checked: false,
        is_open: false,
        is_set: false,
    })
}

/// A formal with a name: Twice where another formal has it.
#[tactic(auto, unfolding(crate::specs::Walking::in_scope, crate::specs::Walking::name_is))]
fn formal_named(
    alloc: Global,
    scope: &mut Scope,
    log: &mut Items<Undo>,
    walk: &mut Walk,
    ctx: Context,
    name: &Ident,
    ty: IntType,
    cell: u32,
    constant: bool,
) -> Result<(), AllocError>
    ensures value { Walks (spec.formal_named ctx name.now ty cell constant (names_of scope.old) (made_of walk.old)) result (names_of scope.new) walk.old walk.new }
    ensures kept { IfOk result (λ _. undone log.new (names_of scope.new).env ≡ undone log.old (names_of scope.old).env) }
    ensures room { IfOk result (λ _. Grows 0 walk.old walk.new) }
{
    note_twice(alloc, scope, walk, ctx, name)?;
    declare(alloc, scope, &name.name, cell, None)?;
    let entry = formal_object(ty, cell, constant);
    name_is(alloc, &mut scope.names, log, &name.name, entry)
}

/// A formal, whose cell is `cell`.
fn formal(
    alloc: Global,
    scope: &mut Scope,
    log: &mut Items<Undo>,
    walk: &mut Walk,
    ctx: Context,
    cell: u32,
    f: &Formal,
) -> Result<(), AllocError>
    ensures value { Walks (spec.formal_by ctx cell f.now f.now.name (names_of scope.old) (made_of walk.old)) result (names_of scope.new) walk.old walk.new }
    ensures kept { IfOk result (λ _. undone log.new (names_of scope.new).env ≡ undone log.old (names_of scope.old).env) }
    ensures room { IfOk result (λ _. Grows 0 walk.old walk.new) }
{
    match &f.name {
        None => Ok(()),
        Some(name) => {
            let ty = object_type(spec_type(&f.spec));
            let constant = is_constant(&f.spec);
            formal_named(alloc, scope, log, walk, ctx, name, ty, cell, constant)
        }
    }
}

/// Formals, the first of which has the cell `first`.
pub(crate) fn formals(
    alloc: Global,
    scope: &mut Scope,
    log: &mut Items<Undo>,
    walk: &mut Walk,
    ctx: Context,
    first: u32,
    all: &[Formal],
) -> Result<(), AllocError>
    requires { first + length all.now < 2 ^ 32 }
    ensures value { Walks (spec.formals_from ctx first all.now (names_of scope.old) (made_of walk.old)) result (names_of scope.new) walk.old walk.new }
    ensures kept { IfOk result (λ _. undone log.new (names_of scope.new).env ≡ undone log.old (names_of scope.old).env) }
    ensures room { IfOk result (λ _. Grows 0 walk.old walk.new) }
{
    let mut cell = first;
    for f in all {
        formal(alloc, scope, log, walk, ctx, cell, f)?;
        cell += 1;
    }
    Ok(())
}

/// The notes before an external declaration.
pub(crate) fn notes(
    scope: &Scope,
    walk: &mut Walk,
    owner: Option<FnId>,
    all: &[Spot],
) -> Result<(), AllocError>
    ensures value { Walks (spec.notes_of owner all.now (names_of scope.now) (made_of walk.old)) result (names_of scope.now) walk.old walk.new }
    ensures room { IfOk result (λ _. Grows 0 walk.old walk.new) }
{
    for at in all {
        new_note(scope, walk, owner, *at, scope.declared.share()?)?;
    }
    Ok(())
}

/// A body, with the points of the function's entry and exit.
pub(crate) fn body(
    alloc: Global,
    scope: &mut Scope,
    log: &mut Items<Undo>,
    walk: &mut Walk,
    ctx: Context,
    line: Line,
    close: Line,
    all: &[AstStmt],
) -> Result<Definition, AllocError>
    requires { HasRoom (room_of (map size_of_stmt all.now) + 2) walk.old }
    ensures value { Walks (spec.body_of ctx line close all.now (names_of scope.old) (made_of walk.old)) result (names_of scope.new) walk.old walk.new }
    ensures kept { IfOk result (λ _. undone log.new (names_of scope.new).env ≡ undone log.old (names_of scope.old).env) }
    ensures room { IfOk result (λ _. Grows (room_of (map size_of_stmt all.now) + 2) walk.old walk.new) }
{
    let entry = new_point(alloc, scope, walk, ctx.owner, line)?;
    let body = stmts(alloc, scope, log, walk, ctx, all)?;
    let exit = new_point(alloc, scope, walk, ctx.owner, close)?;
    Ok(Definition { entry, body, exit })
}

/// Where the statements of a function's outermost block stand.
fn body_context(function: &Signature, walk: &Walk) -> Context
    requires { IsRoomy function.now }
    ensures { result ≡ spec.body_context function.now walk.now.cells }
{
    Context {
        owner: function.number,
        result: function.result,
        in_loop: false,
        since: walk.cells,
        formals_from: function.first,
        formals_to: function.first + function.formals.len() as u32,
    }
}

/// The body of a function, if it has one.
fn body_if(
    alloc: Global,
    scope: &mut Scope,
    log: &mut Items<Undo>,
    walk: &mut Walk,
    ctx: Context,
    f: &Function,
) -> Result<Option<Definition>, AllocError>
    requires { HasRoom (room_of_body f.now.body) walk.old }
    ensures value { Walks (spec.body_by ctx f.now f.now.body (names_of scope.old) (made_of walk.old)) result (names_of scope.new) walk.old walk.new }
    ensures kept { IfOk result (λ _. undone log.new (names_of scope.new).env ≡ undone log.old (names_of scope.old).env) }
    ensures room { IfOk result (λ _. Grows (room_of_body f.now.body) walk.old walk.new) }
{
    match &f.body {
        None => Ok(None),
        Some(all) => {
            let line = f.name.at.line;
            let parts = body(alloc, scope, log, walk, ctx, line, f.close, all.as_slice())?;
            Ok(Some(parts))
        }
    }
}

/// The formals of a function, the notes before it, and its body.
fn parts(
    alloc: Global,
    scope: &mut Scope,
    log: &mut Items<Undo>,
    walk: &mut Walk,
    ctx: Context,
    function: &Signature,
    f: &Function,
    all_notes: &[Spot],
) -> Result<Option<Definition>, AllocError>
    requires formals { function.now.first + length f.now.formals < 2 ^ 32 }
    requires room { HasRoom (room_of_body f.now.body) walk.old }
    ensures value { Walks (spec.parts_of ctx function.now f.now all_notes.now (names_of scope.old) (made_of walk.old)) result (names_of scope.new) walk.old walk.new }
    ensures kept { IfOk result (λ _. undone log.new (names_of scope.new).env ≡ undone log.old (names_of scope.old).env) }
    ensures room { IfOk result (λ _. Grows (room_of_body f.now.body) walk.old walk.new) }
{
    formals(
        alloc,
        scope,
        log,
        walk,
        ctx,
        function.first,
        f.formals.as_slice(),
    )?;
    notes(scope, walk, Some(function.number), all_notes)?;
    body_if(alloc, scope, log, walk, ctx, f)
}

/// The formals of a function, the notes before it, and its body, in a scope of their own.
#[tactic(auto, unfolding(crate::specs::Functions::within))]
pub(crate) fn within(
    alloc: Global,
    scope: &mut Scope,
    walk: &mut Walk,
    function: &Signature,
    f: &Function,
    all_notes: &[Spot],
) -> Result<Option<Definition>, AllocError>
    requires roomy { IsRoomy function.now }
    requires formals { function.now.first + length f.now.formals < 2 ^ 32 }
    requires room { HasRoom (room_of_body f.now.body) walk.old }
    ensures value { Walks (spec.within function.now f.now all_notes.now (names_of scope.old) (made_of walk.old)) result (names_of scope.new) walk.old walk.new }
    ensures same { IfOk result (λ _. names_of scope.new ≡ names_of scope.old) }
    ensures room { IfOk result (λ _. Grows (room_of_body f.now.body) walk.old walk.new) }
{
    let declared = scope.declared.share()?;
    let mut log = Items::new(alloc);
    let ctx = body_context(function, walk);
    let parts = parts(alloc, scope, &mut log, walk, ctx, function, f, all_notes)?;
    take_back(alloc, &mut scope.names, log)?;
    scope.declared = declared;
    Ok(parts)
}
