//! Declarations of local objects (C11 6.7).

ghost use Rattle.std.specs.Prelude.{◌≡◌, ◌+◌, ◌<◌, ◌≤◌, ◌^◌, [], ◌∷◌, IfOk, length, map};
ghost use Rattle.c_rules.specs.Breaches.{least};
ghost use Rattle.c_typing.specs.Declarations as spec;
ghost use Rattle.c_typing.specs.Room.{total_of, room_of_init, room_of_length, room_of_declr, room_of_declrs};
ghost use Rattle.c_ir.specs.Numbers.{none, own_point, points_of, points_of_all, sites_of_all, init_sites, stmt_sites, stmt_sites_of_all};
ghost use Rattle.c_typing.specs.Walking.{Walks, HasRoom, Grows, Numbered, names_of, made_of, undone};

use crate::constants::{constant_value, note_constant};
use crate::context::Context;
use crate::expression::place_of;
use crate::scope::{Scope, Undo, in_scope, name_is};
use crate::walk::{Allocated, Walk, allocate, aside, new_point, value_of};
use c_ast::{Declr, Expr as Ast, Ident, Init as AstInit, Length, Spec};
use c_ir::{Exprs, InScope, Init, IntType, Place, Stmt, Stmts};
use c_rules::{Entry, Fault, Object, SpecType, converted, is_constant, spec_type};
use fc_base::{Name, PointId};
use sqlite_items::Items;
use std::alloc::{AllocError, Global};

pub(crate) fn object_type(ty: Option<SpecType>) -> IntType
    ensures { result ≡ spec.object_type ty }
{
    match ty {
        Some(SpecType::Integer(ty)) => ty,
        Some(SpecType::Void) | None => IntType::Int,
    }
}

pub(crate) fn is_object_type(ty: Option<SpecType>) -> bool
    ensures { result ≡ spec.is_object_type ty }
{
    match ty {
        Some(SpecType::Integer(_)) => true,
        Some(SpecType::Void) | None => false,
    }
}

/// Whether an array has this length.
fn is_length(value: Option<i128>) -> bool
    ensures { result ≡ spec.is_length value }
{
    match value {
        Some(n) => 0 < n && n < 4097,
        None => false,
    }
}

/// The length, 1 where no array has it.
fn length_by(value: Option<i128>) -> u32
    ensures value { result ≡ spec.length_by value }
    ensures bound { result ≤ 4096 }
{
    match value {
        Some(n) if 0 < n && n < 4097 => n as u32,
        _ => 1,
    }
}

/// The length of an array of as many values.
fn open_length(count: usize) -> u32
    ensures value { result ≡ spec.open_length count }
    ensures bound { result ≤ count + 1 }
{
    if 0 < count && count < 4097 {
        count as u32
    } else {
        1
    }
}

fn value_count(value: &AstInit) -> usize
    ensures { result ≡ spec.value_count value.now }
{
    match value {
        AstInit::Nothing | AstInit::One(_) => 1,
        AstInit::Many(all) => all.len(),
    }
}

/// Notes the breaches of an array whose length is that of its values.
fn note_open(walk: &mut Walk, at: u32, value: &AstInit)
    ensures made { made_of walk.new ≡ made_of walk.old }
    ensures first { walk.new.found.first ≡ least walk.old.found.first (spec.open_faults at value.now) }
{
    match value {
        AstInit::Nothing => walk.found.note(at, Fault::BadType),
        AstInit::One(_) => (),
        AstInit::Many(all) => {
            let count = all.len();
            walk.found
                .note_if(!(0 < count && count < 4097), at, Fault::BadType);
        }
    }
}

/// The length of an array, None of another object; its breaches are noted.
#[tactic(auto, unfolding(crate::specs::ConstantValues::constant_faults))]
pub(crate) fn length_of(
    alloc: Global,
    scope: &Scope,
    walk: &mut Walk,
    at: u32,
    length: &Length,
    value: &AstInit,
) -> Result<Option<u32>, AllocError>
    requires { room_of_length length.now value.now < 2 ^ 32 }
    ensures value { IfOk result (λ n. n ≡ spec.length_of (names_of scope.now).env length.now value.now) }
    ensures bound { IfOk result (λ n. spec.cell_count n ≤ room_of_length length.now value.now) }
    ensures made { IfOk result (λ _. made_of walk.new ≡ made_of walk.old) }
    ensures first { IfOk result (λ _. walk.new.found.first ≡ least walk.old.found.first (spec.length_faults at (names_of scope.now).env length.now value.now)) }
{
    match length {
        Length::Scalar => Ok(None),
        Length::Open => {
            note_open(walk, at, value);
            Ok(Some(open_length(value_count(value))))
        }
        Length::Of(e) => {
            let value = constant_value(alloc, scope, walk, e)?;
            note_constant(walk, is_length(value), e);
            Ok(Some(length_by(value)))
        }
    }
}

/// Values of an initialiser, converted to a type.
fn values(
    alloc: Global,
    scope: &Scope,
    walk: &mut Walk,
    point: PointId,
    ty: IntType,
    all: &[Ast],
) -> Result<Exprs, AllocError>
    requires { length walk.old.found.sites + total_of all.now < 2 ^ 32 }
    ensures value { Walks (spec.values_from point ty all.now [] (names_of scope.now) (made_of walk.old)) result (names_of scope.now) walk.old walk.new }
    ensures room { IfOk result (λ _. Grows (total_of all.now) walk.old walk.new) }
    ensures numbered { IfOk result (λ es. Numbered none (sites_of_all es) walk.old walk.new) }
{
    let mut done = Items::new(alloc);
    for e in all {
        let value = value_of(alloc, scope, walk, point, Place::Inner, e)?;
        done.push(converted(alloc, ty, value)?)?;
    }
    Ok(done)
}

fn asides(alloc: Global, scope: &Scope, walk: &mut Walk, all: &[Ast]) -> Result<(), AllocError>
    requires { total_of all.now < 2 ^ 32 }
    ensures value { Walks (spec.asides all.now (names_of scope.now) (made_of walk.old)) result (names_of scope.now) walk.old walk.new }
    ensures room { IfOk result (λ _. Grows 0 walk.old walk.new) }
    ensures numbered { IfOk result (λ _. Numbered none none walk.old walk.new) }
{
    for e in all {
        aside(alloc, scope, walk, Place::Inner, e)?;
    }
    Ok(())
}

/// Values that have no element.
#[tactic(auto, unfolding(crate::specs::Declarations::excess))]
fn excess(alloc: Global, scope: &Scope, walk: &mut Walk, all: &[Ast]) -> Result<(), AllocError>
    requires { total_of all.now < 2 ^ 32 }
    ensures value { Walks (spec.excess all.now (names_of scope.now) (made_of walk.old)) result (names_of scope.now) walk.old walk.new }
    ensures room { IfOk result (λ _. Grows 0 walk.old walk.new) }
    ensures numbered { IfOk result (λ _. Numbered none none walk.old walk.new) }
{
    if let Some(first) = all.first() {
        walk.found.note(place_of(first), Fault::BadType);
    }
    asides(alloc, scope, walk, all)
}

/// The value in braces of an object that is no array.
fn braced_scalar(
    alloc: Global,
    scope: &Scope,
    walk: &mut Walk,
    point: PointId,
    ty: IntType,
    all: &[Ast],
) -> Result<Init, AllocError>
    requires { length walk.old.found.sites + total_of all.now < 2 ^ 32 }
    ensures value { Walks (spec.braced_scalar point ty all.now (names_of scope.now) (made_of walk.old)) result (names_of scope.now) walk.old walk.new }
    ensures room { IfOk result (λ _. Grows (total_of all.now) walk.old walk.new) }
    ensures numbered { IfOk result (λ i. Numbered none (init_sites i) walk.old walk.new) }
{
    let Some((first, rest)) = all.split_first() else {
        return Ok(Init::Nothing);
    };
    let value = value_of(alloc, scope, walk, point, Place::Inner, first)?;
    excess(alloc, scope, walk, rest)?;
    Ok(Init::One(converted(alloc, ty, value)?))
}

/// The initialiser of an object that is no array.
fn scalar_init(
    alloc: Global,
    scope: &Scope,
    walk: &mut Walk,
    point: PointId,
    ty: IntType,
    value: &AstInit,
) -> Result<Init, AllocError>
    requires { length walk.old.found.sites + room_of_init value.now < 2 ^ 32 }
    ensures value { Walks (spec.scalar_init point ty value.now (names_of scope.now) (made_of walk.old)) result (names_of scope.now) walk.old walk.new }
    ensures room { IfOk result (λ _. Grows (room_of_init value.now) walk.old walk.new) }
    ensures numbered { IfOk result (λ i. Numbered none (init_sites i) walk.old walk.new) }
{
    match value {
        AstInit::Nothing => Ok(Init::Nothing),
        AstInit::One(e) => {
            let value = value_of(alloc, scope, walk, point, Place::Value, e)?;
            Ok(Init::One(converted(alloc, ty, value)?))
        }
        AstInit::Many(all) => braced_scalar(alloc, scope, walk, point, ty, all.as_slice()),
    }
}

/// The values in braces of an array of so many elements.
#[tactic(auto, using(crate::proofs::Rows::total_split))]
fn braced_array(
    alloc: Global,
    scope: &Scope,
    walk: &mut Walk,
    point: PointId,
    ty: IntType,
    count: u32,
    all: &[Ast],
) -> Result<Init, AllocError>
    requires { length walk.old.found.sites + total_of all.now < 2 ^ 32 }
    ensures value { Walks (spec.braced_array point ty count all.now (names_of scope.now) (made_of walk.old)) result (names_of scope.now) walk.old walk.new }
    ensures room { IfOk result (λ _. Grows (total_of all.now) walk.old walk.new) }
    ensures numbered { IfOk result (λ i. Numbered none (init_sites i) walk.old walk.new) }
{
    let most = (count as usize).min(all.len());
    let (inside, rest) = all.split_at(most);
    let values = values(alloc, scope, walk, point, ty, inside)?;
    excess(alloc, scope, walk, rest)?;
    Ok(Init::Many(values))
}

/// The initialiser of an array of so many elements.
fn array_init(
    alloc: Global,
    scope: &Scope,
    walk: &mut Walk,
    point: PointId,
    ty: IntType,
    count: u32,
    value: &AstInit,
) -> Result<Init, AllocError>
    requires { length walk.old.found.sites + room_of_init value.now < 2 ^ 32 }
    ensures value { Walks (spec.array_init point ty count value.now (names_of scope.now) (made_of walk.old)) result (names_of scope.now) walk.old walk.new }
    ensures room { IfOk result (λ _. Grows (room_of_init value.now) walk.old walk.new) }
    ensures numbered { IfOk result (λ i. Numbered none (init_sites i) walk.old walk.new) }
{
    match value {
        AstInit::Nothing => Ok(Init::Nothing),
        AstInit::One(e) => {
            walk.found.note(place_of(e), Fault::BadType);
            aside(alloc, scope, walk, Place::Inner, e)?;
            Ok(Init::Nothing)
        }
        AstInit::Many(all) => { braced_array(alloc, scope, walk, point, ty, count, all.as_slice()) }
    }
}

/// An initialiser, whose values are converted to the type of the object or of its elements.
#[tactic(auto, unfolding(crate::specs::Declarations::initial))]
fn initial(
    alloc: Global,
    scope: &Scope,
    walk: &mut Walk,
    point: PointId,
    ty: IntType,
    size: Option<u32>,
    value: &AstInit,
) -> Result<Init, AllocError>
    requires { length walk.old.found.sites + room_of_init value.now < 2 ^ 32 }
    ensures value { Walks (spec.initial point ty size value.now (names_of scope.now) (made_of walk.old)) result (names_of scope.now) walk.old walk.new }
    ensures room { IfOk result (λ _. Grows (room_of_init value.now) walk.old walk.new) }
    ensures numbered { IfOk result (λ i. Numbered none (init_sites i) walk.old walk.new) }
{
    match size {
        None => scalar_init(alloc, scope, walk, point, ty, value),
        Some(count) => array_init(alloc, scope, walk, point, ty, count, value),
    }
}

pub(crate) fn is_nothing(value: &AstInit) -> bool
    ensures { result ≡ spec.is_nothing value.now }
{
    match value {
        AstInit::Nothing => true,
        AstInit::One(_) | AstInit::Many(_) => false,
    }
}

pub(crate) fn cell_count(size: Option<u32>) -> u32
    ensures { result ≡ spec.cell_count size }
{
    size.unwrap_or(1)
}

/// Whether an object that begins at this cell is declared in the block.
fn is_here(ctx: Context, first: u32) -> bool
    ensures { result ≡ spec.is_here ctx first }
{
    !(first < ctx.since) || !(first < ctx.formals_from) && first < ctx.formals_to
}

/// Whether a name stands for an object of the block.
fn is_declared(scope: &Scope, ctx: Context, name: &Ident) -> bool
    ensures { result ≡ spec.is_declared ctx ((names_of scope.now).env name.now.name) }
{
    match scope.names.get(name.name.as_str()) {
        Some(Entry::Object(object)) => is_here(ctx, object.first),
        Some(Entry::Function(_)) | None => false,
    }
}

/// Notes a name that is declared twice in its block.
pub(crate) fn note_twice(
    alloc: Global,
    scope: &Scope,
    walk: &mut Walk,
    ctx: Context,
    name: &Ident,
) -> Result<(), AllocError>
    ensures made { IfOk result (λ _. made_of walk.new ≡ made_of walk.old) }
    ensures first { IfOk result (λ _. walk.new.found.first ≡ least walk.old.found.first (spec.twice_faults ctx name.now.at.span.from name.now.name (names_of scope.now).env)) }
{
    if is_declared(scope, ctx, name) {
        walk.found.note_twice(alloc, name.at.span.from, &name.name)?;
    }
    Ok(())
}

fn local(
    ty: IntType,
    first: u32,
    size: Option<u32>,
    constant: bool,
    checked: bool,
    is_open: bool,
) -> Entry
    ensures { result ≡ spec.local ty first size constant checked is_open }
{
    Entry::Object(Object {
        ty,
        first,
        length: size,
        constant,
        checked,
        is_open,
        is_set: false,
    })
}

/// The object of a declarator, with its initialiser.
#[tactic(auto, unfolding(crate::specs::Walking::in_scope, crate::specs::Walking::name_is))]
fn declared_as(
    alloc: Global,
    scope: &mut Scope,
    log: &mut Items<Undo>,
    walk: &mut Walk,
    ctx: Context,
    ty: IntType,
    constant: bool,
    d: &Declr,
    size: Option<u32>,
    point: PointId,
) -> Result<Stmt, AllocError>
    requires cells { walk.old.cells + spec.cell_count size < 2 ^ 32 }
    requires sites { length walk.old.found.sites + room_of_init d.now.value < 2 ^ 32 }
    ensures value { Walks (spec.declared_as ctx ty constant d.now size point (names_of scope.old) (made_of walk.old)) result (names_of scope.new) walk.old walk.new }
    ensures kept { IfOk result (λ _. undone log.new (names_of scope.new).env ≡ undone log.old (names_of scope.old).env) }
    ensures room { IfOk result (λ _. Grows (spec.cell_count size + room_of_init d.now.value) walk.old walk.new) }
    ensures point { IfOk result (λ s. points_of s ≡ own_point point) }
    ensures numbered { IfOk result (λ s. Numbered none (stmt_sites s) walk.old walk.new) }
{
    let checked = is_nothing(&d.value);
    let object = Allocated {
        ty,
        owner: Some(ctx.owner),
        constant,
        checked,
        length: cell_count(size),
    };
    let first = allocate(scope, walk, object)?;
    let name = &d.name.name;
    declare(alloc, scope, name, first, size)?;
    let open = local(ty, first, size, constant, checked, true);
    name_is(alloc, &mut scope.names, log, name, open)?;
    let value = initial(alloc, scope, walk, point, ty, size, &d.value)?;
    let closed = local(ty, first, size, constant, checked, false);
    name_is(alloc, &mut scope.names, log, name, closed)?;
    Ok(Stmt::Declare {
        point,
        first,
        length: size,
        value,
    })
}

/// The object is in scope from now on.
pub(crate) fn declare(
    alloc: Global,
    scope: &mut Scope,
    name: &Name,
    first: u32,
    size: Option<u32>,
) -> Result<(), AllocError>
    ensures { IfOk result (λ _. (scope.new.declared ≡ (record { name = name.now; first = first; length = size }) ∷ scope.old.declared) × (scope.new.names ≡ scope.old.names)) }
{
    let name = name.copy(alloc)?;
    in_scope(
        alloc,
        scope,
        InScope {
            name,
            first,
            length: size,
        },
    )
}

/// A declarator: its name is in scope from its end on, and has no value in its own initialiser.
#[tactic(auto, unfolding(crate::specs::Declarations::declarator))]
fn declarator(
    alloc: Global,
    scope: &mut Scope,
    log: &mut Items<Undo>,
    walk: &mut Walk,
    ctx: Context,
    ty: IntType,
    constant: bool,
    d: &Declr,
) -> Result<Stmt, AllocError>
    requires { HasRoom (room_of_declr d.now) walk.old }
    ensures value { Walks (spec.declarator ctx ty constant d.now (names_of scope.old) (made_of walk.old)) result (names_of scope.new) walk.old walk.new }
    ensures kept { IfOk result (λ _. undone log.new (names_of scope.new).env ≡ undone log.old (names_of scope.old).env) }
    ensures room { IfOk result (λ _. Grows (room_of_declr d.now) walk.old walk.new) }
    ensures numbered { IfOk result (λ s. Numbered (points_of s) (stmt_sites s) walk.old walk.new) }
{
    let point = new_point(alloc, scope, walk, ctx.owner, d.at.line)?;
    let at = d.name.at.span.from;
    let size = length_of(alloc, scope, walk, at, &d.length, &d.value)?;
    note_twice(alloc, scope, walk, ctx, &d.name)?;
    declared_as(alloc, scope, log, walk, ctx, ty, constant, d, size, point)
}

fn declarators(
    alloc: Global,
    scope: &mut Scope,
    log: &mut Items<Undo>,
    walk: &mut Walk,
    ctx: Context,
    ty: IntType,
    constant: bool,
    all: &[Declr],
) -> Result<Stmts, AllocError>
    requires { HasRoom (room_of_declrs all.now) walk.old }
    ensures value { Walks (spec.declarators_from ctx ty constant all.now [] (names_of scope.old) (made_of walk.old)) result (names_of scope.new) walk.old walk.new }
    ensures kept { IfOk result (λ _. undone log.new (names_of scope.new).env ≡ undone log.old (names_of scope.old).env) }
    ensures room { IfOk result (λ _. Grows (room_of_declrs all.now) walk.old walk.new) }
    ensures numbered { IfOk result (λ ss. Numbered (points_of_all ss) (stmt_sites_of_all ss) walk.old walk.new) }
{
    let mut done = Items::new(alloc);
    for d in all {
        done.push(declarator(alloc, scope, log, walk, ctx, ty, constant, d)?)?;
    }
    Ok(done)
}

/// A declaration in a block or in the head of a `for`: BadType at specifiers that name no integer type.
#[tactic(auto, unfolding(crate::specs::Declarations::declaration, crate::specs::Declarations::object_faults))]
pub(crate) fn declaration(
    alloc: Global,
    scope: &mut Scope,
    log: &mut Items<Undo>,
    walk: &mut Walk,
    ctx: Context,
    specifiers: &Spec,
    all: &[Declr],
) -> Result<Stmts, AllocError>
    requires { HasRoom (room_of_declrs all.now) walk.old }
    ensures value { Walks (spec.declaration ctx specifiers.now all.now (names_of scope.old) (made_of walk.old)) result (names_of scope.new) walk.old walk.new }
    ensures kept { IfOk result (λ _. undone log.new (names_of scope.new).env ≡ undone log.old (names_of scope.old).env) }
    ensures room { IfOk result (λ _. Grows (room_of_declrs all.now) walk.old walk.new) }
    ensures numbered { IfOk result (λ ss. Numbered (points_of_all ss) (stmt_sites_of_all ss) walk.old walk.new) }
{
    let named = spec_type(specifiers);
    let at = specifiers.at.span.from;
    walk.found
        .note_if(!is_object_type(named), at, Fault::BadType);
    let ty = object_type(named);
    let constant = is_constant(specifiers);
    declarators(alloc, scope, log, walk, ctx, ty, constant, all)
}
