//! Which functions of a program call which, and cycles of calls.

ghost use Rattle.std.specs.Prelude.{◌≡◌, ◌<◌, ◌^◌, IfOk, length};
ghost use Rattle.c_ir.specs.Keeps.{calls_in as calls_in_is};
ghost use Rattle.c_types.specs.Programs.{FirstRecursive, below as below_is, graph as graph_is};

use c_ir::{Fun, Stmts, callees};
use call_cycles::first_on_cycle;
use fc_base::Name;
use sqlite_items::Items;
use std::alloc::{AllocError, Global};

/// The callees that are the program's functions.
fn below(alloc: Global, count: usize, all: &[u32]) -> Result<Items<u32>, AllocError>
    ensures { IfOk result (λ fs. fs ≡ below_is count all.now) }
{
    let mut found = Items::new(alloc);
    for function in all {
        if (*function as usize) < count {
            found.push(*function)?;
        }
    }
    Ok(found)
}

fn calls_in(alloc: Global, body: &Option<Stmts>) -> Result<Items<u32>, AllocError>
    ensures { IfOk result (λ fs. fs ≡ calls_in_is body.now) }
{
    match body {
        None => Ok(Items::new(alloc)),
        Some(stmts) => callees(alloc, stmts.as_slice()),
    }
}

/// Which functions each function calls.
fn graph(alloc: Global, all: &[Fun]) -> Result<Items<Items<u32>>, AllocError>
    ensures { IfOk result (λ g. g ≡ graph_is all.now) }
{
    let mut calls = Items::new(alloc);
    for f in all {
        let callees = calls_in(alloc, &f.body)?;
        calls.push(below(alloc, all.len(), callees.as_slice())?)?;
    }
    Ok(calls)
}

/// The name of the first function that leads to itself, if there is one.
pub(crate) fn first_recursive(alloc: Global, all: &[Fun]) -> Result<Option<Name>, AllocError>
    requires { length all.now < 2 ^ 32 }
    ensures { IfOk result (λ x. FirstRecursive all.now x) }
{
    let calls = graph(alloc, all)?;
    match first_on_cycle(alloc, calls.as_slice())? {
        None => Ok(None),
        Some(function) => Ok(Some(all[function as usize].name.copy(alloc)?)),
    }
}
