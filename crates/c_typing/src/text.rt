//! External declarations in the order of a text (C11 6.9).

ghost use Rattle.std.specs.Prelude.{◌≡◌, ◌+◌, ◌++◌, [], ◌<◌, ◌≤◌, ◌^◌, IfOk, length};
ghost use Rattle.c_rules.specs.Breaches.{least};
ghost use Rattle.c_typing.specs.FileScope.{Files, IsFiled, declared_of};
ghost use Rattle.c_typing.specs.Functions.{IsRoomy, AreRoomy, KeepsFunctions, constant_cells, result_faults};
ghost use Rattle.c_typing.specs.Texts as spec;
ghost use Rattle.c_typing.specs.Texts.{HasFileRoom, FileGrows, room_of_function, room_of_item, room_of_items};
ghost use Rattle.c_typing.specs.Walking.{Grows, names_of, made_of};

use crate::body::{notes, within};
use crate::file::{Definition, File};
use crate::function::{declared_function, formal_types, note_formals, result_of};
use crate::global::global_of;
use crate::walk::Walk;
use c_ast::{Formal, Function, Item, Spec};
use c_rules::{Fault, Signature, is_constant, spec_type};
use fc_base::{FnId, Spot};
use sqlite_items::Items;
use std::alloc::{AllocError, Global};

/// Adds the cells of the formals that are constant, the first of which has the cell `first`.
fn add_constants(constants: &mut Items<u32>, first: u32, all: &[Formal]) -> Result<(), AllocError>
    requires { first + length all.now < 2 ^ 32 }
    ensures { IfOk result (λ _. constants.new ≡ constants.old ++ constant_cells first all.now) }
{
    let mut cell = first;
    for formal in all {
        if is_constant(&formal.spec) {
            constants.push(cell)?;
        }
        cell += 1;
    }
    Ok(())
}

/// The definition of a function.
#[tactic(auto, using(crate::proofs::Puts::no_place))]
fn set_definition(file: &mut File, function: FnId, definition: Definition)
    ensures value { IsFiled (spec.new_definition function definition (declared_of file.old)) (tt {0}) file.old file.new }
    ensures functions { KeepsFunctions file.old file.new }
    ensures room { Grows 0 file.old.walk file.new.walk }
{
    let at = function.0 as usize;
    if at < file.definitions.len() {
        file.definitions[at] = Some(definition);
    }
}

/// What a function has between its braces, if it has them.
fn define(
    file: &mut File,
    function: &Signature,
    f: &Function,
    parts: Option<Definition>,
) -> Result<(), AllocError>
    requires { function.now.first + length f.now.formals < 2 ^ 32 }
    ensures value { Files (spec.define function.now f.now parts (declared_of file.old)) result file.old file.new }
    ensures functions { IfOk result (λ _. KeepsFunctions file.old file.new) }
    ensures room { IfOk result (λ _. Grows 0 file.old.walk file.new.walk) }
{
    match parts {
        None => Ok(()),
        Some(definition) => {
            add_constants(&mut file.constants, function.first, f.formals.as_slice())?;
            set_definition(file, function.number, definition);
            Ok(())
        }
    }
}

/// Notes specifiers that name no type of a result.
fn note_result(walk: &mut Walk, named: &Spec)
    ensures made { made_of walk.new ≡ made_of walk.old }
    ensures first { walk.new.found.first ≡ least walk.old.found.first (result_faults named.now) }
{
    let at = named.at.span.from;
    let is_type = spec_type(named).is_some();
    walk.found.note_if(!is_type, at, Fault::BadType);
}

/// A declaration or a definition of a function, with the notes before it.
#[tactic(auto, unfolding(crate::specs::Texts::function))]
fn function_of(
    alloc: Global,
    file: &mut File,
    f: &Function,
    waiting: &[Spot],
) -> Result<(), AllocError>
    requires room { HasFileRoom (room_of_function f.now) file.old }
    requires roomy { AreRoomy (names_of file.old.scope).env }
    ensures value { Files (spec.function f.now waiting.now (declared_of file.old)) result file.old file.new }
    ensures room { IfOk result (λ _. FileGrows (room_of_function f.now) file.old file.new) }
    ensures roomy { IfOk result (λ _. AreRoomy (names_of file.new.scope).env) }
{
    note_result(&mut file.walk, &f.spec);
    note_formals(&mut file.walk, f.formals.as_slice());
    let formals = formal_types(alloc, f.formals.as_slice())?;
    let function = declared_function(
        alloc,
        file,
        &f.name,
        result_of(spec_type(&f.spec)),
        formals.as_slice(),
        f.body.is_some(),
        waiting,
    )?;
    let parts = within(
        alloc,
        &mut file.scope,
        &mut file.walk,
        &function,
        f,
        waiting,
    )?;
    define(file, &function, f, parts)
}

/// Notes that stand before no function.
#[tactic(auto, unfolding(crate::specs::Texts::file_notes))]
fn file_notes(file: &mut File, waiting: &[Spot]) -> Result<(), AllocError>
    ensures value { Files (spec.file_notes waiting.now (declared_of file.old)) result file.old file.new }
    ensures functions { IfOk result (λ _. KeepsFunctions file.old file.new) }
    ensures room { IfOk result (λ _. Grows 0 file.old.walk file.new.walk) }
{
    notes(&file.scope, &mut file.walk, None, waiting)
}

/// An external declaration or a note; the answer are the notes that wait for the next declaration.
#[tactic(auto, unfolding(crate::specs::Texts::item))]
fn item_of(
    alloc: Global,
    file: &mut File,
    waiting: Items<Spot>,
    item: &Item,
) -> Result<Items<Spot>, AllocError>
    requires room { HasFileRoom (room_of_item item.now) file.old }
    requires roomy { AreRoomy (names_of file.old.scope).env }
    ensures value { Files (spec.item waiting item.now (declared_of file.old)) result file.old file.new }
    ensures room { IfOk result (λ _. FileGrows (room_of_item item.now) file.old file.new) }
    ensures roomy { IfOk result (λ _. AreRoomy (names_of file.new.scope).env) }
{
    let mut waiting = waiting;
    match item {
        Item::Note(at) => {
            waiting.push(*at)?;
            return Ok(waiting);
        }
        Item::Global(g) => {
            file_notes(file, waiting.as_slice())?;
            global_of(alloc, file, g)?;
        }
        Item::Function(f) => function_of(alloc, file, f, waiting.as_slice())?,
    }
    Ok(Items::new(alloc))
}

/// External declarations and notes in the order of the text.
pub(crate) fn items(alloc: Global, file: &mut File, all: &[Item]) -> Result<(), AllocError>
    requires room { HasFileRoom (room_of_items all.now) file.old }
    requires roomy { AreRoomy (names_of file.old.scope).env }
    ensures value { Files (spec.items_from [] all.now (declared_of file.old)) result file.old file.new }
    ensures room { IfOk result (λ _. FileGrows (room_of_items all.now) file.old file.new) }
{
    let mut waiting = Items::new(alloc);
    for item in all {
        waiting = item_of(alloc, file, waiting, item)?;
    }
    file_notes(file, waiting.as_slice())
}
