//! The program of a skeleton and the annotations of its notes.

ghost use Rattle.acsl_bind.specs.Programs.{Binds};
ghost use Rattle.c_types.specs.Noted.{NotesFit};

use crate::fault::{BindFault, fault_of};
use crate::fns::functions;
use crate::operators::moved_sites;
use crate::source::Source;
use crate::strays::note_strays;
use crate::walk::Walk;
use c_ast::Annot;
use c_ir::{Program, Skeleton};
use std::alloc::Global;

/// The program of a skeleton with the annotations of its notes: one annotation for each note, in the order of the text.
///
/// Each `assert`, `check` and `admit` becomes a statement with a point of its own. The invariants of a loop's note stand
/// at the point of the loop directly after it, the `requires` and `ensures` clauses of a contract at the entry and the
/// exit of the function directly after it (ACSL manual, function contracts, loop annotations, assertions). Points are
/// numbered anew, by function and then in the order of the text; cells and operators keep their numbers.
///
/// Notes in breach of the rules are refused by the first breach: by its place, and at one place by the number of its
/// kind, in the order `Unknown`, `NotHere`, `BadType`. `Memory` is answered only for want of memory, where points or
/// functions whose numbers no longer fit into 32 bits count as that. The skeleton is dropped.
///
/// What a note can name has its cells in the skeleton's program. A statement is as deep as its tree, and this recurses
/// as deep.
#[tactic(auto, using(crate::proofs::Answers::program_made, crate::proofs::Answers::refused))]
pub fn bind(alloc: Global, skeleton: Skeleton, annots: &[Annot]) -> Result<Program, BindFault>
    requires { NotesFit skeleton.program.cells skeleton.notes }
    ensures { Binds skeleton annots.now result }
{
    let Skeleton { program, notes } = skeleton;
    let Program {
        fns: old,
        cells,
        points,
        sites,
    } = program;
    let mut walk = Walk::new(alloc);
    note_strays(
        alloc,
        &mut walk.first,
        old.as_slice(),
        notes.as_slice(),
        annots,
    )?;
    let source = Source::new(alloc, notes, points)?;
    let (fns, moves) = functions(alloc, &mut walk, &source, annots, old.as_slice())?;
    let Walk { points, first, .. } = walk;
    if let Some(breach) = first {
        return Err(fault_of(breach));
    }
    let sites = moved_sites(
        alloc,
        old.as_slice(),
        source.points.as_slice(),
        moves.as_slice(),
        sites.as_slice(),
    )?;
    Ok(Program {
        fns,
        cells,
        points,
        sites,
    })
}
