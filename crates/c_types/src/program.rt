//! The program of a text.

ghost use Rattle.std.specs.Prelude.{◌+◌, ◌*◌, ◌<◌, ◌≤◌, ◌^◌, IfOk, length};
ghost use Rattle.c_ast.specs.Weight.{weight_of_unit};
ghost use Rattle.c_types.specs.Noted.{NotesFit};
ghost use Rattle.c_typing.specs.FileScope.{declared_of};
ghost use Rattle.c_types.specs.Programs.{Checks, Finishes};
ghost use Rattle.c_types.specs.inner.Keeping.{KeepsIfCallsEnd};

use crate::cycles::first_recursive;
use crate::fault::{TypeFault, fault_of};
use crate::storage::cells;
use c_ast::Unit;
use c_ir::{Program, Skeleton};
use c_typing::{File, Walk, functions, walked};
use std::alloc::Global;

/// The most cells that a program has.
const MOST_CELLS: u32 = 4096;

/// The program of what is declared, which is without breach.
#[tactic(auto, using(crate::proofs::Programs::made_keeps))]
fn finish(alloc: Global, file: File) -> Result<Skeleton, TypeFault>
    requires room { length file.walk.points + 2 * length file.functions < 2 ^ 32 }
    requires keeps { KeepsIfCallsEnd (declared_of file) }
    ensures { Finishes (declared_of file) result }
{
    let File {
        scope,
        walk,
        functions: known,
        definitions,
        starts,
        constants,
    } = file;
    let mut walk = walk;
    let fns = functions(alloc, &scope, &mut walk, known, definitions)?;
    if let Some(name) = first_recursive(alloc, fns.as_slice())? {
        return Err(TypeFault::Recursive(name));
    }
    if walk.cells > MOST_CELLS {
        return Err(TypeFault::TooManyCells(walk.cells));
    }
    let cells = cells(
        alloc,
        walk.objects.as_slice(),
        starts.as_slice(),
        constants.as_slice(),
    )?;
    let Walk {
        found,
        points,
        notes,
        ..
    } = walk;
    let program = Program {
        fns,
        cells,
        points,
        sites: found.sites,
    };
    Ok(Skeleton { program, notes })
}

/// The typed program of a text, without its annotations, and the names that each note can use.
///
/// Typing follows C11 6.3 and 6.5 to 6.9 for integers and arrays of integers. A text with breaches is refused by the
/// first one: by its place, and at one place by the number of its kind, in the order `Unknown`, `Twice`, `BadType`,
/// `Arity`, `SideEffect`, `ConstWrite`. Else it is refused by `Recursive` at the first function, in the order of first
/// declarations, that calls itself directly or through others, and else by `TooManyCells` where there are more than
/// 4,096 cells: one for each scalar, each element of an array and each result. `Memory` is answered only for want of
/// memory. The tree is that of a text of at most 4 MiB. A typed expression is as deep as its tree, and this recurses as
/// deep.
///
/// The cells of each object that a note can use are among the program's cells, and are of file scope or of the function
/// of the note (C11 6.2.1).
pub fn check(alloc: Global, unit: &Unit) -> Result<Skeleton, TypeFault>
    requires { weight_of_unit unit.now ≤ 4194304 }
    ensures answer { Checks unit.now result }
    ensures notes { IfOk result (λ s. NotesFit s.program.cells s.notes) }
{
    let mut file = walked(alloc, unit)?;
    match file.walk.found.first.take() {
        Some(breach) => Err(fault_of(breach)),
        None => finish(alloc, file),
    }
}
