//! The values that file-scope objects have at the start (C11 6.7.9).

ghost use Rattle.std.specs.Prelude.{◌≡◌, ◌<◌, ◌^◌, ◌++◌, IfOk, is_some, take, drop};
ghost use Rattle.c_rules.specs.Breaches.{least};
ghost use Rattle.c_typing.specs.Declarations.{cell_count};
ghost use Rattle.c_typing.specs.FileScope as spec;
ghost use Rattle.c_typing.specs.Room.{most_of, total_of, room_of_init};
ghost use Rattle.c_typing.specs.Walking.{names_of, made_of};

use crate::constants::{constant_value, note_constant};
use crate::expression::place_of;
use crate::scope::Scope;
use crate::walk::Walk;
use c_ast::{Expr as Ast, Init as AstInit};
use c_ir::IntType;
use c_rules::{Fault, converted_value};
use sqlite_items::Items;
use std::alloc::{AllocError, Global};

fn or_zero(ty: IntType, value: Option<i128>) -> i128
    ensures { result ≡ spec.or_zero ty value }
{
    match value {
        None => 0,
        Some(value) => converted_value(ty, value),
    }
}

/// The value of a constant, converted to a type; 0 where it is in breach.
#[tactic(auto, unfolding(crate::specs::ConstantValues::constant_faults))]
fn start_value(
    alloc: Global,
    scope: &Scope,
    walk: &mut Walk,
    ty: IntType,
    e: &Ast,
) -> Result<i128, AllocError>
    requires { most_of e.now < 2 ^ 32 }
    ensures value { IfOk result (λ v. v ≡ spec.start_value ty (names_of scope.now).env e.now) }
    ensures made { IfOk result (λ _. made_of walk.new ≡ made_of walk.old) }
    ensures first { IfOk result (λ _. walk.new.found.first ≡ least walk.old.found.first (spec.value_faults (names_of scope.now).env e.now)) }
{
    let value = constant_value(alloc, scope, walk, e)?;
    note_constant(walk, value.is_some(), e);
    Ok(or_zero(ty, value))
}

/// The values of constants, converted to a type.
fn start_values(
    alloc: Global,
    scope: &Scope,
    walk: &mut Walk,
    ty: IntType,
    all: &[Ast],
) -> Result<Items<i128>, AllocError>
    requires { total_of all.now < 2 ^ 32 }
    ensures value { IfOk result (λ vs. vs ≡ spec.start_values ty (names_of scope.now).env all.now) }
    ensures made { IfOk result (λ _. made_of walk.new ≡ made_of walk.old) }
    ensures first { IfOk result (λ _. walk.new.found.first ≡ least walk.old.found.first (spec.values_faults (names_of scope.now).env all.now)) }
{
    let mut done = Items::new(alloc);
    for e in all {
        done.push(start_value(alloc, scope, walk, ty, e)?)?;
    }
    Ok(done)
}

/// The values in braces of an object of so many cells.
#[tactic(auto, using(crate::proofs::Rows::total_split, crate::proofs::Rows::total_rest))]
fn braced(
    alloc: Global,
    scope: &Scope,
    walk: &mut Walk,
    ty: IntType,
    count: u32,
    all: &[Ast],
) -> Result<Items<i128>, AllocError>
    requires { total_of all.now < 2 ^ 32 }
    ensures value { IfOk result (λ vs. vs ≡ spec.start_values ty (names_of scope.now).env (take count all.now)) }
    ensures made { IfOk result (λ _. made_of walk.new ≡ made_of walk.old) }
    ensures first { IfOk result (λ _. walk.new.found.first ≡ least walk.old.found.first (spec.braced_faults (names_of scope.now).env count all.now)) }
{
    let most = (count as usize).min(all.len());
    let (inside, rest) = all.split_at(most);
    let values = start_values(alloc, scope, walk, ty, inside)?;
    if let Some(first) = rest.first() {
        walk.found.note(place_of(first), Fault::BadType);
    }
    start_values(alloc, scope, walk, ty, rest)?;
    Ok(values)
}

/// The one value of an object, which is no array.
fn single(
    alloc: Global,
    scope: &Scope,
    walk: &mut Walk,
    ty: IntType,
    size: Option<u32>,
    e: &Ast,
) -> Result<Items<i128>, AllocError>
    requires { most_of e.now < 2 ^ 32 }
    ensures value { IfOk result (λ vs. vs ≡ spec.single_values ty (names_of scope.now).env size e.now) }
    ensures made { IfOk result (λ _. made_of walk.new ≡ made_of walk.old) }
    ensures first { IfOk result (λ _. walk.new.found.first ≡ least walk.old.found.first (spec.single_faults (names_of scope.now).env size e.now)) }
{
    let mut values = Items::new(alloc);
    match size {
        None => values.push(start_value(alloc, scope, walk, ty, e)?)?,
        Some(_) => {
            walk.found.note(place_of(e), Fault::BadType);
            start_value(alloc, scope, walk, ty, e)?;
        }
    }
    Ok(values)
}

/// The values of an initialiser, converted to the type of the object or of its elements.
pub(crate) fn start_of(
    alloc: Global,
    scope: &Scope,
    walk: &mut Walk,
    ty: IntType,
    size: Option<u32>,
    value: &AstInit,
) -> Result<Items<i128>, AllocError>
    requires { room_of_init value.now < 2 ^ 32 }
    ensures value { IfOk result (λ vs. vs ≡ spec.start_of ty (names_of scope.now).env size value.now) }
    ensures made { IfOk result (λ _. made_of walk.new ≡ made_of walk.old) }
    ensures first { IfOk result (λ _. walk.new.found.first ≡ least walk.old.found.first (spec.start_faults (names_of scope.now).env size value.now)) }
{
    match value {
        AstInit::Nothing => Ok(Items::new(alloc)),
        AstInit::One(e) => single(alloc, scope, walk, ty, size, e),
        AstInit::Many(all) => { braced(alloc, scope, walk, ty, size.unwrap_or(1), all.as_slice()) }
    }
}
