//! The functions of a program.

ghost use Rattle.std.specs.Prelude.{◌≡◌, ◌+◌, ◌*◌, ◌<◌, ◌≤◌, ◌^◌, [], IfOk, length};
ghost use Rattle.c_typing.specs.Texts as spec;
ghost use Rattle.c_typing.specs.Walking.{Walks, Grows, names_of, made_of};

use crate::file::{Definition, Known};
use crate::scope::Scope;
use crate::walk::{Walk, new_point};
use c_ir::{Fun, Funs, Stmts};
use fc_base::{FnId, Name, PointId};
use sqlite_items::Items;
use std::alloc::{AllocError, Global};

fn function_of(
    alloc: Global,
    known: &Known,
    body: Option<Stmts>,
    entry: PointId,
    exit: PointId,
) -> Result<Fun, AllocError>
    ensures { IfOk result (λ f. f ≡ spec.function_of known.now body entry exit) }
{
    Ok(Fun {
        name: known.name.copy(alloc)?,
        formals: Items::from_slice(alloc, known.formals.as_slice())?,
        result: known.result,
        body,
        entry,
        exit,
    })
}

/// A function; one that isn't defined gets its two points.
#[tactic(auto, unfolding(crate::specs::Texts::fun))]
fn fun(
    alloc: Global,
    scope: &Scope,
    walk: &mut Walk,
    number: FnId,
    known: &Known,
    definition: Option<Definition>,
) -> Result<Fun, AllocError>
    requires { length walk.old.points + 2 < 2 ^ 32 }
    ensures value { Walks (spec.fun number known.now definition (names_of scope.now) (made_of walk.old)) result (names_of scope.now) walk.old walk.new }
    ensures room { IfOk result (λ _. length walk.new.points ≤ length walk.old.points + 2) }
{
    match definition {
        Some(Definition { entry, body, exit }) => {
            function_of(alloc, known, Some(body), entry, exit)
        }
        None => {
            let entry = new_point(alloc, scope, walk, number, known.line)?;
            let exit = new_point(alloc, scope, walk, number, known.line)?;
            function_of(alloc, known, None, entry, exit)
        }
    }
}

/// The functions in the order of their numbers.
pub fn functions(
    alloc: Global,
    scope: &Scope,
    walk: &mut Walk,
    known: Items<Known>,
    definitions: Vec<Option<Definition>>,
) -> Result<Funs, AllocError>
    requires { length walk.old.points + 2 * length known < 2 ^ 32 }
    ensures value { Walks (spec.funs_from 0 known definitions.items [] (names_of scope.now) (made_of walk.old)) result (names_of scope.now) walk.old walk.new }
    ensures few { IfOk result (λ fs. length fs ≤ length known) }
{
    let mut done = Items::new(alloc);
    let mut number = 0;
    for definition in definitions {
        let Some(known) = known.get(number) else {
            return Ok(done);
        };
        let id = FnId(number as u32);
        done.push(fun(alloc, scope, walk, id, known, definition)?)?;
        number += 1;
    }
    Ok(done)
}
