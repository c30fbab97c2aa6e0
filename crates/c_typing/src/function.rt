//! Declarations and definitions of functions (C11 6.7.6.3, 6.9.1).

ghost use Rattle.std.specs.Prelude.{◌≡◌, ◌+◌, ◌<◌, ◌≤◌, ◌^◌, IfOk, length};
ghost use Rattle.c_rules.specs.Breaches.{least};
ghost use Rattle.c_typing.specs.FileScope.{Files, declared_of};
ghost use Rattle.c_typing.specs.Functions as spec;
ghost use Rattle.c_typing.specs.Functions.{IsRoomy, AreRoomy, BeforeIsRoomy};
ghost use Rattle.c_typing.specs.Walking.{Walks, HasRoom, Grows, names_of, made_of};

use crate::declaration::{is_object_type, object_type};
use crate::file::{File, Known};
use crate::scope::{Scope, set};
use crate::walk::{Allocated, Walk, allocate};
use c_ast::{Formal, Ident};
use c_ir::{CellNums, IntType};
use c_rules::{Entry, Fault, Signature, SpecType, spec_type};
use fc_base::{FnId, Spot};
use sqlite_items::Items;
use std::alloc::{AllocError, Global};

pub(crate) fn result_of(ty: Option<SpecType>) -> Option<IntType>
    ensures { result ≡ spec.result_of ty }
{
    match ty {
        Some(SpecType::Integer(ty)) => Some(ty),
        Some(SpecType::Void) | None => None,
    }
}

/// The types of formals.
pub(crate) fn formal_types(alloc: Global, all: &[Formal]) -> Result<Items<IntType>, AllocError>
    ensures types { IfOk result (λ tys. tys ≡ spec.formal_types all.now) }
    ensures count { IfOk result (λ tys. length tys ≡ length all.now) }
{
    let mut types = Items::new(alloc);
    for formal in all {
        types.push(object_type(spec_type(&formal.spec)))?;
    }
    Ok(types)
}

/// Notes the formals that have no integer type.
#[tactic(auto, unfolding(crate::specs::Declarations::object_faults))]
pub(crate) fn note_formals(walk: &mut Walk, all: &[Formal])
    ensures made { made_of walk.new ≡ made_of walk.old }
    ensures first { walk.new.found.first ≡ least walk.old.found.first (spec.formals_faults all.now) }
{
    for formal in all {
        let is_object = is_object_type(spec_type(&formal.spec));
        let at = formal.spec.at.span.from;
        walk.found.note_if(!is_object, at, Fault::BadType);
    }
}

fn same_result(result_type: Option<IntType>, other: Option<IntType>) -> bool
    ensures { result ≡ spec.same_result result_type other }
{
    match (result_type, other) {
        (None, None) => true,
        (Some(ty), Some(other)) => ty.is(other),
        _ => false,
    }
}

/// Whether both lists have the same types in the same order.
fn same_types(types: &[IntType], others: &[IntType]) -> bool
    ensures { result ≡ spec.same_types types.now others.now }
{
    let mut left = types;
    let mut right = others;
    loop {
        match (left.split_first(), right.split_first()) {
            (None, None) => return true,
            (Some((ty, rest)), Some((other, others))) => {
                if !ty.is(*other) {
                    return false;
                }
                left = rest;
                right = others;
            }
            _ => return false,
        }
    }
}

/// The cells of formals, or of a result.
fn allocate_formals(
    scope: &Scope,
    walk: &mut Walk,
    owner: FnId,
    types: &[IntType],
) -> Result<(), AllocError>
    requires { walk.old.cells + length types.now < 2 ^ 32 }
    ensures value { Walks (spec.allocate_formals owner types.now (names_of scope.now) (made_of walk.old)) result (names_of scope.now) walk.old walk.new }
    ensures room { IfOk result (λ _. Grows (length types.now) walk.old walk.new) }
{
    for ty in types {
        let object = Allocated {
            ty: *ty,
            owner: Some(owner),
            constant: false,
            checked: false,
            length: 1,
        };
        allocate(scope, walk, object)?;
    }
    Ok(())
}

/// Cells in a row, one for each type.
fn cells_from(alloc: Global, first: u32, types: &[IntType]) -> Result<CellNums, AllocError>
    requires { first + length types.now < 2 ^ 32 }
    ensures { IfOk result (λ cells. cells ≡ spec.cells_from first types.now) }
{
    let mut cells = Items::new(alloc);
    let mut cell = first;
    for _ty in types {
        cells.push(cell)?;
        cell += 1;
    }
    Ok(cells)
}

fn result_cell(ty: Option<IntType>, cell: u32) -> Option<u32>
    ensures { result ≡ spec.result_cell ty cell }
{
    match ty {
        None => None,
        Some(_) => Some(cell),
    }
}

/// Adds a function, whose formals have the cells from `first` on.
fn new_function(
    alloc: Global,
    file: &mut File,
    name: &Ident,
    result_type: Option<IntType>,
    formals: &[IntType],
    first: u32,
) -> Result<(), AllocError>
    requires { first + length formals.now < 2 ^ 32 }
    ensures value { Files (spec.new_function name.now result_type formals.now first (declared_of file.old)) result file.old file.new }
    ensures functions { IfOk result (λ _. length file.new.functions ≤ length file.old.functions + 1) }
    ensures room { IfOk result (λ _. Grows 0 file.old.walk file.new.walk) }
{
    let known = Known {
        name: name.name.copy(alloc)?,
        line: name.at.line,
        formals: cells_from(alloc, first, formals)?,
        result: result_cell(result_type, first + formals.len() as u32),
    };
    file.functions.push(known)?;
    file.definitions.push(None)?;
    Ok(())
}

/// The type of a result as a list.
fn result_types(alloc: Global, ty: Option<IntType>) -> Result<Items<IntType>, AllocError>
    ensures { IfOk result (λ tys. tys ≡ spec.result_types ty) }
{
    let mut types = Items::new(alloc);
    if let Some(ty) = ty {
        types.push(ty)?;
    }
    Ok(types)
}

/// The next function, with cells for its formals and then for its result.
#[tactic(auto, unfolding(crate::specs::Functions::enlist))]
fn enlist(
    alloc: Global,
    file: &mut File,
    name: &Ident,
    result_type: Option<IntType>,
    formals: &[IntType],
) -> Result<Signature, AllocError>
    requires functions { length file.old.functions < 2 ^ 32 }
    requires cells { file.old.walk.cells + length formals.now + 1 < 2 ^ 32 }
    ensures value { Files (spec.enlist name.now result_type formals.now (declared_of file.old)) result file.old file.new }
    ensures room { IfOk result (λ _. Grows (length formals.now + 1) file.old.walk file.new.walk) }
    ensures roomy { IfOk result (λ g. IsRoomy g) }
    ensures count { IfOk result (λ g. length g.formals ≡ length formals.now) }
    ensures functions { IfOk result (λ _. length file.new.functions ≤ length file.old.functions + 1) }
    ensures same { IfOk result (λ _. (names_of file.new.scope).env ≡ (names_of file.old.scope).env) }
{
    let number = FnId(file.functions.len() as u32);
    let first = file.walk.cells;
    allocate_formals(&file.scope, &mut file.walk, number, formals)?;
    let result_cells = result_types(alloc, result_type)?;
    allocate_formals(&file.scope, &mut file.walk, number, result_cells.as_slice())?;
    new_function(alloc, file, name, result_type, formals, first)?;
    Ok(Signature {
        number,
        result: result_type,
        formals: Items::from_slice(alloc, formals)?,
        first,
        noted: false,
        defined: false,
    })
}

/// Whether a declaration repeats that of a function: with the same result and formals.
#[tactic(auto, unfolding(crate::specs::Functions::is_same))]
fn is_same(result_type: Option<IntType>, formals: &[IntType], function: &Signature) -> bool
    ensures { result ≡ spec.is_same result_type formals.now function.now }
{
    same_result(result_type, function.result) && same_types(formals, function.formals.as_slice())
}

/// The same signature again.
fn copy_of(alloc: Global, function: &Signature) -> Result<Signature, AllocError>
    ensures { IfOk result (λ g. g ≡ function.now) }
{
    Ok(Signature {
        number: function.number,
        result: function.result,
        formals: Items::from_slice(alloc, function.formals.as_slice())?,
        first: function.first,
        noted: function.noted,
        defined: function.defined,
    })
}

/// A function under a name that stands for something else: BadType, and the function is one of its own. A note before
/// what the name stands for counts.
fn apart(
    alloc: Global,
    file: &mut File,
    noted: bool,
    name: &Ident,
    result_type: Option<IntType>,
    formals: &[IntType],
) -> Result<(bool, Signature), AllocError>
    requires functions { length file.old.functions < 2 ^ 32 }
    requires cells { file.old.walk.cells + length formals.now + 1 < 2 ^ 32 }
    ensures value { Files (spec.apart noted name.now result_type formals.now (declared_of file.old)) result file.old file.new }
    ensures room { IfOk result (λ _. Grows (length formals.now + 1) file.old.walk file.new.walk) }
    ensures roomy { IfOk result (λ l. IsRoomy l.1) }
    ensures count { IfOk result (λ l. length l.1.formals ≡ length formals.now) }
    ensures functions { IfOk result (λ _. length file.new.functions ≤ length file.old.functions + 1) }
    ensures same { IfOk result (λ _. (names_of file.new.scope).env ≡ (names_of file.old.scope).env) }
{
    file.walk.found.note(name.at.span.from, Fault::BadType);
    let mut function = enlist(alloc, file, name, result_type, formals)?;
    function.noted = noted;
    Ok((false, function))
}

/// What a name stands for, if it is declared.
#[derive(Drop)]
pub(crate) enum Before {
    Nothing,
    Object,
    Function(Signature),
}

/// What a name stands for before its declaration as a function.
fn stands_for(alloc: Global, scope: &Scope, name: &Ident) -> Result<Before, AllocError>
    requires { AreRoomy (names_of scope.now).env }
    ensures value { IfOk result (λ b. b ≡ spec.stands_for ((names_of scope.now).env name.now.name)) }
    ensures roomy { IfOk result (λ b. BeforeIsRoomy b) }
{
    match scope.names.get(name.name.as_str()) {
        None => Ok(Before::Nothing),
        Some(Entry::Object(_)) => Ok(Before::Object),
        Some(Entry::Function(function)) => Ok(Before::Function(copy_of(alloc, function)?)),
    }
}

/// The signature of a declared function, and whether its name stands for it; BadType at a repeat of another kind or
/// type.
#[tactic(auto, unfolding(crate::specs::Functions::listed), using(crate::proofs::Roomy::is_same_count))]
fn listed(
    alloc: Global,
    file: &mut File,
    name: &Ident,
    result_type: Option<IntType>,
    formals: &[IntType],
) -> Result<(bool, Signature), AllocError>
    requires functions { length file.old.functions < 2 ^ 32 }
    requires roomy { AreRoomy (names_of file.old.scope).env }
    requires cells { file.old.walk.cells + length formals.now + 1 < 2 ^ 32 }
    ensures value { Files (spec.listed name.now result_type formals.now (declared_of file.old)) result file.old file.new }
    ensures room { IfOk result (λ _. Grows (length formals.now + 1) file.old.walk file.new.walk) }
    ensures roomy { IfOk result (λ l. IsRoomy l.1) }
    ensures count { IfOk result (λ l. length l.1.formals ≡ length formals.now) }
    ensures functions { IfOk result (λ _. length file.new.functions ≤ length file.old.functions + 1) }
    ensures same { IfOk result (λ _. (names_of file.new.scope).env ≡ (names_of file.old.scope).env) }
{
    match stands_for(alloc, &file.scope, name)? {
        Before::Nothing => Ok((true, enlist(alloc, file, name, result_type, formals)?)),
        Before::Object => apart(alloc, file, false, name, result_type, formals),
        Before::Function(function) => {
            if is_same(result_type, formals, &function) {
                return Ok((true, function));
            }
            apart(alloc, file, function.noted, name, result_type, formals)
        }
    }
}

fn has_notes(notes: &[Spot]) -> bool
    ensures { result ≡ spec.has_notes notes.now }
{
    notes.first().is_some()
}

fn has_two(notes: &[Spot]) -> bool
    ensures { result ≡ spec.has_two notes.now }
{
    match notes.split_first() {
        None => false,
        Some((_, more)) => has_notes(more),
    }
}

/// Notes a second note before the declarations of a function, and a second definition.
fn note_repeats(
    alloc: Global,
    walk: &mut Walk,
    name: &Ident,
    has_body: bool,
    notes: &[Spot],
    function: &Signature,
) -> Result<(), AllocError>
    ensures made { IfOk result (λ _. made_of walk.new ≡ made_of walk.old) }
    ensures first { IfOk result (λ _. walk.new.found.first ≡ least walk.old.found.first (spec.repeat_faults name.now has_body notes.now function.now)) }
{
    let at = name.at.span.from;
    if function.noted && has_notes(notes) || has_two(notes) {
        walk.found.note_twice(alloc, at, &name.name)?;
    }
    if function.defined && has_body {
        walk.found.note_twice(alloc, at, &name.name)?;
    }
    Ok(())
}

/// The signature after a declaration.
fn marked(
    alloc: Global,
    has_body: bool,
    notes: &[Spot],
    function: &Signature,
) -> Result<Signature, AllocError>
    ensures { IfOk result (λ g. g ≡ spec.marked has_body notes.now function.now) }
{
    let mut marked = copy_of(alloc, function)?;
    marked.noted = function.noted || has_notes(notes);
    marked.defined = function.defined || has_body;
    Ok(marked)
}

/// Lets a function's name stand for it, if it does.
#[tactic(auto, unfolding(crate::specs::Walking::name_is))]
fn name_if(
    alloc: Global,
    file: &mut File,
    named: bool,
    name: &Ident,
    function: Signature,
) -> Result<(), AllocError>
    ensures value { Files (spec.name_if named name.now function (declared_of file.old)) result file.old file.new }
    ensures functions { IfOk result (λ _. file.new.functions ≡ file.old.functions) }
    ensures room { IfOk result (λ _. Grows 0 file.old.walk file.new.walk) }
    ensures kept { IfOk result (λ _. IsRoomy function → AreRoomy (names_of file.old.scope).env → AreRoomy (names_of file.new.scope).env) }
{
    if named {
        let entry = Some(Entry::Function(function));
        set(alloc, &mut file.scope.names, &name.name, entry)?;
    }
    Ok(())
}

/// A declaration of a function: its signature before it.
#[tactic(auto, unfolding(crate::specs::Functions::declared_function))]
pub(crate) fn declared_function(
    alloc: Global,
    file: &mut File,
    name: &Ident,
    result_type: Option<IntType>,
    formals: &[IntType],
    has_body: bool,
    notes: &[Spot],
) -> Result<Signature, AllocError>
    requires functions { length file.old.functions < 2 ^ 32 }
    requires roomy { AreRoomy (names_of file.old.scope).env }
    requires cells { file.old.walk.cells + length formals.now + 1 < 2 ^ 32 }
    ensures value { Files (spec.declared_function name.now result_type formals.now has_body notes.now (declared_of file.old)) result file.old file.new }
    ensures room { IfOk result (λ _. Grows (length formals.now + 1) file.old.walk file.new.walk) }
    ensures roomy { IfOk result (λ g. IsRoomy g) }
    ensures count { IfOk result (λ g. length g.formals ≡ length formals.now) }
    ensures functions { IfOk result (λ _. length file.new.functions ≤ length file.old.functions + 1) }
    ensures kept { IfOk result (λ _. AreRoomy (names_of file.new.scope).env) }
{
    let (named, function) = listed(alloc, file, name, result_type, formals)?;
    note_repeats(alloc, &mut file.walk, name, has_body, notes, &function)?;
    let after = marked(alloc, has_body, notes, &function)?;
    name_if(alloc, file, named, name, after)?;
    Ok(function)
}
