//! Declarations of objects at file scope (C11 6.7, 6.9.2).

ghost use Rattle.std.specs.Prelude.{◌≡◌, false, ◌+◌, ◌<◌, ◌≤◌, ◌^◌, IfOk, length};
ghost use Rattle.c_rules.specs.Breaches.{least, only_if};
ghost use Rattle.c_rules.specs.declared.breach.Fault.TheVariants as Kind;
ghost use Rattle.c_typing.specs.Declarations.{cell_count, length_faults, length_of as length_is};
ghost use Rattle.c_typing.specs.FileScope as spec;
ghost use Rattle.c_typing.specs.FileScope.{Files, IsFiled, declared_of};
ghost use Rattle.c_typing.specs.Functions.{KeepsFunctions};
ghost use Rattle.c_typing.specs.Room.{room_of_declr, room_of_declrs, room_of_init, room_of_length};
ghost use Rattle.c_typing.specs.Walking.{HasRoom, Grows, names_of, made_of};

use crate::declaration::{cell_count, declare, is_nothing, is_object_type, length_of, object_type};
use crate::file::{File, Start};
use crate::scope::set;
use crate::start::start_of;
use crate::walk::{Allocated, Walk, allocate};
use c_ast::{Declr, Global as AstGlobal, Ident, Init as AstInit};
use c_ir::IntType;
use c_rules::{Entry, Fault, Object, is_constant, spec_type};
use sqlite_items::Items;
use std::alloc::{AllocError, Global};

fn same_size(size: Option<u32>, other: Option<u32>) -> bool
    ensures { result ≡ spec.same_size size other }
{
    match (size, other) {
        (None, None) => true,
        (Some(n), Some(m)) => n == m,
        _ => false,
    }
}

fn same_flag(flag: bool, other: bool) -> bool
    ensures { result ≡ spec.same_flag flag other }
{
    if flag { other } else { !other }
}

/// Whether a declaration repeats that of an object: with the same type, length and `const`.
fn is_repeat(ty: IntType, constant: bool, size: Option<u32>, object: &Object) -> bool
    ensures { result ≡ spec.is_repeat ty constant size object.now }
{
    ty.is(object.ty) && (same_flag(constant, object.constant) && same_size(size, object.length))
}

fn object(ty: IntType, first: u32, size: Option<u32>, constant: bool) -> Object
    ensures { result ≡ spec.object ty first size constant }
{
    Object {
        ty,
        first,
        length: size,
        constant,
        checked: false,
        is_open: false,
        is_set: false,
    }
}

/// A new object at file scope.
#[tactic(auto, unfolding(crate::specs::Walking::in_scope, crate::specs::Walking::name_is))]
fn bring_in(
    alloc: Global,
    file: &mut File,
    ty: IntType,
    constant: bool,
    size: Option<u32>,
    name: &Ident,
) -> Result<Option<Object>, AllocError>
    requires { file.old.walk.cells + cell_count size < 2 ^ 32 }
    ensures value { Files (spec.bring_in ty constant size name.now (declared_of file.old)) result file.old file.new }
    ensures functions { IfOk result (λ _. KeepsFunctions file.old file.new) }
    ensures room { IfOk result (λ _. Grows (cell_count size) file.old.walk file.new.walk) }
{
    let allocated = Allocated {
        ty,
        owner: None,
        constant,
        checked: false,
        length: cell_count(size),
    };
    let first = allocate(&file.scope, &mut file.walk, allocated)?;
    declare(alloc, &mut file.scope, &name.name, first, size)?;
    let object = object(ty, first, size, constant);
    let entry = Some(Entry::Object(object));
    set(alloc, &mut file.scope.names, &name.name, entry)?;
    Ok(Some(object))
}

/// The object that a declaration repeats; the initialiser of a repeat of another type counts as no second one.
fn repeated(
    file: &mut File,
    ty: IntType,
    constant: bool,
    size: Option<u32>,
    at: u32,
    object: Object,
) -> Option<Object>
    ensures value { IsFiled (spec.repeated ty constant size at object (declared_of file.old)) result file.old file.new }
    ensures functions { KeepsFunctions file.old file.new }
    ensures room { Grows 0 file.old.walk file.new.walk }
{
    let repeats = is_repeat(ty, constant, size, &object);
    file.walk.found.note_if(!repeats, at, Fault::BadType);
    let mut object = object;
    object.is_set = repeats && object.is_set;
    Some(object)
}

/// The object of a declarator, which a repeat has already; BadType at a repeat of another kind or type.
#[tactic(auto, unfolding(crate::specs::FileScope::object_of))]
fn object_of(
    alloc: Global,
    file: &mut File,
    ty: IntType,
    constant: bool,
    size: Option<u32>,
    name: &Ident,
) -> Result<Option<Object>, AllocError>
    requires { file.old.walk.cells + cell_count size < 2 ^ 32 }
    ensures value { Files (spec.object_of ty constant size name.now (declared_of file.old)) result file.old file.new }
    ensures functions { IfOk result (λ _. KeepsFunctions file.old file.new) }
    ensures room { IfOk result (λ _. Grows (cell_count size) file.old.walk file.new.walk) }
{
    let at = name.at.span.from;
    match file.scope.names.get(name.name.as_str()) {
        None => bring_in(alloc, file, ty, constant, size, name),
        Some(Entry::Object(object)) => {
            let object = *object;
            Ok(repeated(file, ty, constant, size, at, object))
        }
        Some(Entry::Function(_)) => {
            file.walk.found.note(at, Fault::BadType);
            Ok(None)
        }
    }
}

/// Notes a second initialiser.
fn note_second(alloc: Global, walk: &mut Walk, is_set: bool, name: &Ident) -> Result<(), AllocError>
    ensures made { IfOk result (λ _. made_of walk.new ≡ made_of walk.old) }
    ensures first { IfOk result (λ _. walk.new.found.first ≡ least walk.old.found.first (only_if is_set name.now.at.span.from (Kind.Twice name.now.name))) }
{
    if is_set {
        walk.found.note_twice(alloc, name.at.span.from, &name.name)?;
    }
    Ok(())
}

/// The values of an object that has an initialiser; Twice where it has one already.
#[tactic(auto, unfolding(crate::specs::Walking::name_is))]
fn set_values(
    alloc: Global,
    file: &mut File,
    name: &Ident,
    values: Items<i128>,
    object: Object,
) -> Result<(), AllocError>
    ensures value { Files (spec.set_if false name.now values object (declared_of file.old)) result file.old file.new }
    ensures functions { IfOk result (λ _. KeepsFunctions file.old file.new) }
    ensures room { IfOk result (λ _. Grows 0 file.old.walk file.new.walk) }
{
    note_second(alloc, &mut file.walk, object.is_set, name)?;
    let first = object.first;
    file.starts.push(Start { first, values })?;
    let mut object = object;
    object.is_set = true;
    let entry = Some(Entry::Object(object));
    set(alloc, &mut file.scope.names, &name.name, entry)?;
    Ok(())
}

/// The values of an object, if it has an initialiser.
#[tactic(auto, unfolding(crate::specs::FileScope::set_once))]
fn set_once(
    alloc: Global,
    file: &mut File,
    nothing: bool,
    name: &Ident,
    values: Items<i128>,
    object: Option<Object>,
) -> Result<(), AllocError>
    ensures value { Files (spec.set_once nothing name.now values object (declared_of file.old)) result file.old file.new }
    ensures functions { IfOk result (λ _. KeepsFunctions file.old file.new) }
    ensures room { IfOk result (λ _. Grows 0 file.old.walk file.new.walk) }
{
    match object {
        None => Ok(()),
        Some(_) if nothing => Ok(()),
        Some(object) => set_values(alloc, file, name, values, object),
    }
}

/// The length that a declarator gives.
#[tactic(auto, unfolding(crate::specs::FileScope::sized))]
fn sized(alloc: Global, file: &mut File, d: &Declr) -> Result<Option<u32>, AllocError>
    requires { room_of_length d.now.length d.now.value < 2 ^ 32 }
    ensures value { Files (spec.sized d.now (declared_of file.old)) result file.old file.new }
    ensures functions { IfOk result (λ _. KeepsFunctions file.old file.new) }
    ensures bound { IfOk result (λ n. cell_count n ≤ room_of_length d.now.length d.now.value) }
    ensures room { IfOk result (λ _. Grows 0 file.old.walk file.new.walk) }
{
    let at = d.name.at.span.from;
    length_of(alloc, &file.scope, &mut file.walk, at, &d.length, &d.value)
}

/// The values of an initialiser.
#[tactic(auto, unfolding(crate::specs::FileScope::starting))]
fn starting(
    alloc: Global,
    file: &mut File,
    ty: IntType,
    size: Option<u32>,
    value: &AstInit,
) -> Result<Items<i128>, AllocError>
    requires { room_of_init value.now < 2 ^ 32 }
    ensures value { Files (spec.starting ty size value.now (declared_of file.old)) result file.old file.new }
    ensures functions { IfOk result (λ _. KeepsFunctions file.old file.new) }
    ensures room { IfOk result (λ _. Grows 0 file.old.walk file.new.walk) }
{
    start_of(alloc, &file.scope, &mut file.walk, ty, size, value)
}

/// A declarator at file scope.
#[tactic(auto, unfolding(crate::specs::FileScope::global_declarator))]
fn global_declarator(
    alloc: Global,
    file: &mut File,
    ty: IntType,
    constant: bool,
    d: &Declr,
) -> Result<(), AllocError>
    requires { HasRoom (room_of_declr d.now) file.old.walk }
    ensures value { Files (spec.global_declarator ty constant d.now (declared_of file.old)) result file.old file.new }
    ensures functions { IfOk result (λ _. KeepsFunctions file.old file.new) }
    ensures room { IfOk result (λ _. Grows (room_of_declr d.now) file.old.walk file.new.walk) }
{
    let size = sized(alloc, file, d)?;
    let object = object_of(alloc, file, ty, constant, size, &d.name)?;
    let values = starting(alloc, file, ty, size, &d.value)?;
    set_once(alloc, file, is_nothing(&d.value), &d.name, values, object)
}

fn global_declarators(
    alloc: Global,
    file: &mut File,
    ty: IntType,
    constant: bool,
    all: &[Declr],
) -> Result<(), AllocError>
    requires { HasRoom (room_of_declrs all.now) file.old.walk }
    ensures value { Files (spec.global_declarators ty constant all.now (declared_of file.old)) result file.old file.new }
    ensures functions { IfOk result (λ _. KeepsFunctions file.old file.new) }
    ensures room { IfOk result (λ _. Grows (room_of_declrs all.now) file.old.walk file.new.walk) }
{
    for d in all {
        global_declarator(alloc, file, ty, constant, d)?;
    }
    Ok(())
}

/// A declaration of objects at file scope: BadType at specifiers that name no integer type.
#[tactic(auto, unfolding(crate::specs::FileScope::global, crate::specs::Declarations::object_faults))]
pub(crate) fn global_of(alloc: Global, file: &mut File, g: &AstGlobal) -> Result<(), AllocError>
    requires { HasRoom (room_of_declrs g.now.declrs) file.old.walk }
    ensures value { Files (spec.global g.now (declared_of file.old)) result file.old file.new }
    ensures functions { IfOk result (λ _. KeepsFunctions file.old file.new) }
    ensures room { IfOk result (λ _. Grows (room_of_declrs g.now.declrs) file.old.walk file.new.walk) }
{
    let named = spec_type(&g.spec);
    let at = g.spec.at.span.from;
    file.walk
        .found
        .note_if(!is_object_type(named), at, Fault::BadType);
    let ty = object_type(named);
    let constant = is_constant(&g.spec);
    global_declarators(alloc, file, ty, constant, g.declrs.as_slice())
}
