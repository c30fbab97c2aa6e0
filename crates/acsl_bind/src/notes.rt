//! The notes of a text, and what their clauses become.

ghost use Rattle.std.specs.Prelude.{◌≡◌, IfOk};
ghost use Rattle.c_ir.specs.Bodies.{same_stand, stand_of};
ghost use Rattle.c_ir.specs.Formed.{on_some};
ghost use Rattle.acsl_terms.specs.Breaches.{least};
ghost use Rattle.acsl_terms.specs.Clauses.{plain};
ghost use Rattle.acsl_bind.specs.Notes.{stand_at, clauses_of, clauses_faults, standing};

use acsl_terms::{NoteBreach, View, clause};
use c_ast::Clause;
use c_ir::{InScopes, Kind, PointClause};
use sqlite_items::Items;
use std::alloc::{AllocError, Global};

/// Where a clause of an annotation stands (ACSL manual: function contracts, loop invariants, assertions).
#[derive(Clone, Copy, Debug, PartialEq, Eq)]
pub enum Where {
    Entry,
    Exit,
    Loop,
    /// At a note that is a statement.
    Note,
}

/// Whether a clause of this kind stands there.
pub(crate) fn stands(at: Where, kind: Kind) -> bool
    ensures { result ≡ on_some (same_stand (stand_at at)) (stand_of kind) }
{
    match kind {
        Kind::Requires => at == Where::Entry,
        Kind::Ensures => at == Where::Exit,
        Kind::LoopInvariant => at == Where::Loop,
        Kind::Assert | Kind::Check | Kind::Admit => at == Where::Note,
        Kind::CallRequires | Kind::Alarm(_) | Kind::Dead => false,
    }
}

/// The view of a clause that sees no formals, no result and no values at the entry.
pub(crate) fn plain(alloc: Global) -> View
    ensures { result ≡ plain }
{
    View {
        formals: Items::new(alloc),
        result: None,
        old: false,
    }
}

/// What these clauses of a note become where they stand there, in their order, and their breaches.
pub(crate) fn clauses(
    alloc: Global,
    names: &InScopes,
    view: &View,
    first: &mut Option<NoteBreach>,
    all: &[Clause],
    at: Where,
) -> Result<Items<PointClause>, AllocError>
    ensures value { IfOk result (λ cs. cs ≡ standing (stand_at at) (clauses_of names.now view.now all.now)) }
    ensures first { IfOk result (λ _. first.new ≡ least first.old (clauses_faults names.now view.now all.now)) }
{
    let mut made = Items::new(alloc);
    for one in all {
        if let Some(point_clause) = clause(alloc, names, view, first, one)? {
            if stands(at, point_clause.kind) {
                made.push(point_clause)?;
            }
        }
    }
    Ok(made)
}
