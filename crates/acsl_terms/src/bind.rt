//! Clauses.

ghost use Rattle.std.specs.Prelude.{◌≡◌, IfOk};
ghost use Rattle.std.specs.Option.{option_copied};
ghost use Rattle.acsl_terms.specs.Breaches.{least};
ghost use Rattle.acsl_terms.specs.Clauses as meaning;
ghost use Rattle.acsl_terms.specs.Clauses.{clause_of, clause_faults};
ghost use Rattle.acsl_terms.specs.Meaning as meant;
ghost use Rattle.acsl_terms.specs.inner.Sights.{context_of};

use crate::breach::{NoteBreach, NoteFault, note, note_unknown};
use crate::formula::{term, value};
use crate::sight::{Sight, object};
use crate::view::View;
use c_ast::{Clause, ClauseBody, ClauseKind, Formula, Ident, Loc, LocIndex};
use c_ir::{InScope, InScopes, Kind, PointClause};
use fc_base::Name;
use shared_list::SharedList;
use std::alloc::{AllocError, Global};

/// Notes the breaches of a formula in the place of a term.
fn note_term(
    alloc: Global,
    sight: &Sight<'_>,
    first: &mut Option<NoteBreach>,
    f: &Formula,
) -> Result<(), AllocError>
    ensures { IfOk result (λ _. first.new ≡ least first.old (meant.term_faults (meant.part_of f.now) (context_of sight.now))) }
{
    term(alloc, sight, first, f)?;
    Ok(())
}

/// Notes the breaches of an index.
fn note_index(
    alloc: Global,
    sight: &Sight<'_>,
    first: &mut Option<NoteBreach>,
    index: &LocIndex,
) -> Result<(), AllocError>
    ensures { IfOk result (λ _. first.new ≡ least first.old (meaning.index_faults (context_of sight.now) index.now)) }
{
    match index {
        LocIndex::Nothing | LocIndex::Whole => Ok(()),
        LocIndex::One(index) => note_term(alloc, sight, first, index),
        LocIndex::Range(from, to) => {
            note_term(alloc, sight, first, from)?;
            note_term(alloc, sight, first, to)
        }
    }
}

/// Notes what is in breach of the name of a place.
fn note_object(
    alloc: Global,
    first: &mut Option<NoteBreach>,
    name: &Ident,
    index: &LocIndex,
    object: Option<&InScope>,
) -> Result<(), AllocError>
    ensures { IfOk result (λ _. first.new ≡ least first.old (meaning.place_faults_by name.now.at.span.from name.now.name index.now (option_copied object.entry))) }
{
    let at = name.at.span.from;
    let Some(object) = object else {
        return note_unknown(alloc, first, at, &name.name);
    };
    if object.length.is_none() && !matches!(index, LocIndex::Nothing) {
        note(first, at, NoteFault::BadType);
    }
    Ok(())
}

/// Notes the breaches of places that may be assigned.
fn note_places(
    alloc: Global,
    sight: &Sight<'_>,
    first: &mut Option<NoteBreach>,
    places: &[Loc],
) -> Result<(), AllocError>
    ensures { IfOk result (λ _. first.new ≡ least first.old (meaning.places_faults (context_of sight.now) places.now)) }
{
    for place in places {
        let object = object(sight.names, &place.name.name);
        note_object(alloc, first, &place.name, &place.index, object)?;
        note_index(alloc, sight, first, &place.index)?;
    }
    Ok(())
}

/// The kind of the property that a clause makes.
fn kind_of(kind: ClauseKind) -> Option<Kind>
    ensures { result ≡ meaning.kind_of kind }
{
    match kind {
        ClauseKind::Requires => Some(Kind::Requires),
        ClauseKind::Ensures => Some(Kind::Ensures),
        ClauseKind::LoopInvariant => Some(Kind::LoopInvariant),
        ClauseKind::Assert => Some(Kind::Assert),
        ClauseKind::Check => Some(Kind::Check),
        ClauseKind::Admit => Some(Kind::Admit),
        ClauseKind::Assigns | ClauseKind::LoopAssigns => None,
    }
}

fn label_of(alloc: Global, label: &Option<Ident>) -> Result<Name, AllocError>
    ensures { IfOk result (λ n. n ≡ meaning.label_of label.now) }
{
    match label {
        Some(label) => label.name.copy(alloc),
        None => Name::new(alloc, ""),
    }
}

/// What a clause sees.
fn seen<'a>(view: &'a View, plain: &'a View, kind: ClauseKind) -> &'a View
    requires { plain.now ≡ meaning.plain }
    ensures { result.now ≡ meaning.seen view.now kind }
{
    match kind {
        ClauseKind::Ensures => view,
        _ => plain,
    }
}

/// Binds a clause to the objects that it can name, and keeps the first of the breaches so far and its own. An `ensures`
/// sees the view, another clause sees neither formals nor result and no `\old`. The answer is what is checked or taken
/// as true at the clause's point, `None` for `assigns`; what is in breach stands in it as the number 0, and a `\forall`
/// in breach as `\true` (ACSL manual, function contracts, loop annotations, assertions). An error says that there is
/// no memory, or that a name stands under 2^32 `\forall`.
pub fn clause(
    alloc: Global,
    names: &InScopes,
    view: &View,
    first: &mut Option<NoteBreach>,
    clause: &Clause,
) -> Result<Option<PointClause>, AllocError>
    ensures value { IfOk result (λ c. c ≡ clause_of names.now view.now clause.now) }
    ensures first { IfOk result (λ _. first.new ≡ least first.old (clause_faults names.now view.now clause.now)) }
{
    let plain = View::plain(alloc);
    let bound = SharedList::new();
    match &clause.body {
        ClauseBody::Places(places) => {
            let sight = Sight {
                names,
                view: &plain,
                bound: &bound,
            };
            note_places(alloc, &sight, first, places.as_slice())?;
            Ok(None)
        }
        ClauseBody::Says(f) => {
            let sight = Sight {
                names,
                view: seen(view, &plain, clause.kind),
                bound: &bound,
            };
            let pred = value(alloc, &sight, first, f)?;
            let Some(kind) = kind_of(clause.kind) else {
                return Ok(None);
            };
            Ok(Some(PointClause {
                kind,
                label: label_of(alloc, &clause.label)?,
                line: clause.line,
                pred,
            }))
        }
    }
}
