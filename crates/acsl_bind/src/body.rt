//! The notes of a body.

ghost use Rattle.std.specs.Prelude.{◌≡◌};
ghost use Rattle.acsl_bind.specs.Placing as spec;
ghost use Rattle.acsl_bind.specs.Placing.{Places, made_of};

use crate::bound::Bound;
use crate::notes::{Where, clauses, plain};
use crate::source::Source;
use crate::walk::Walk;
use acsl_terms::note_not_here;
use c_ast::{Annot, AnnotKind};
use c_ir::{NoteSpot, PointClause};
use fc_base::{FnId, Spot};
use sqlite_items::Items;
use std::alloc::{AllocError, Global};

/// The first of these clauses, as a statement.
fn statement_of(mut clauses: Items<PointClause>) -> Bound
    ensures { result ≡ spec.statement_of clauses }
{
    if clauses.is_empty() {
        return Bound::Nothing;
    }
    Bound::Statement(clauses.remove(0))
}

/// What becomes of a note of a body, where a loop comes directly after it or not.
fn bound_by(
    alloc: Global,
    walk: &mut Walk,
    before_loop: bool,
    spot: &NoteSpot,
    annot: &Annot,
) -> Result<Bound, AllocError>
    ensures { Places (spec.bound_by before_loop (record { spot = spot.now; annot = annot.now }) annot.now.kind (made_of walk.old)) result walk.old walk.new }
{
    let all = annot.clauses.as_slice();
    let view = plain(alloc);
    match annot.kind {
        AnnotKind::CodeNote => {
            let made = clauses(
                alloc,
                &spot.before,
                &view,
                &mut walk.first,
                all,
                Where::Note,
            )?;
            Ok(statement_of(made))
        }
        AnnotKind::LoopNote if before_loop => {
            let made = clauses(alloc, &spot.names, &view, &mut walk.first, all, Where::Loop)?;
            Ok(Bound::Invariants(made))
        }
        AnnotKind::LoopNote | AnnotKind::Contract => {
            note_not_here(&mut walk.first, annot.at.span.from);
            Ok(Bound::Nothing)
        }
    }
}

/// What becomes of the note at this place.
#[tactic(auto, unfolding(crate::specs::Placing::bound_note, crate::specs::Notes::note_at))]
pub(crate) fn bound_note(
    alloc: Global,
    walk: &mut Walk,
    source: &Source,
    annots: &[Annot],
    function: FnId,
    before_loop: bool,
    at: Spot,
) -> Result<Bound, AllocError>
    ensures { Places (spec.bound_note (spec.scene source.now annots.now function) before_loop at (made_of walk.old)) result walk.old walk.new }
{
    let Some(number) = source.number_at(at.span.from) else {
        return Ok(Bound::Nothing);
    };
    match (source.spots.get(number), annots.get(number)) {
        (Some(spot), Some(annot)) => {
            if spot.owner == Some(function) {
                bound_by(alloc, walk, before_loop, spot, annot)
            } else {
                Ok(Bound::Nothing)
            }
        }
        _ => Ok(Bound::Nothing),
    }
}
