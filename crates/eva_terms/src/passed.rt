//! What one pass over a predicate gives.

ghost use Rattle.std.specs.Prelude.{◌≡◌, Some, IfOk};
ghost use Rattle.abs_cells.specs.Cells as cells_spec;
ghost use Rattle.eva_terms.specs.Shown.{narrow_related, unless_refuted};
ghost use Rattle.eva_terms.specs.Truths.{not_truth};
ghost use Rattle.eva_terms.specs.inner.Passes as spec;

use crate::answer::{Truth, negation};
use crate::related::relation_truth;
use abs_cells::{Cells, Side, join, narrow, opposite};
use fc_base::{NoteOp, Relation};
use std::alloc::{AllocError, Global};

/// The truth of a predicate, and what is left of the cells where it holds and where it doesn't.
#[derive(Drop)]
pub(crate) struct Passed {
    pub truth: Truth,
    pub yes: Option<Cells>,
    pub no: Option<Cells>,
}

/// Nothing where it is sure that a predicate of this truth doesn't come out so.
fn kept(taken: bool, truth: Truth, cells: Option<Cells>) -> Option<Cells>
    ensures { result ≡ unless_refuted taken truth cells }
{
    match truth {
        Truth::Yes => { if taken { cells } else { None } }
        Truth::No => { if taken { None } else { cells } }
        Truth::Maybe => cells,
    }
}

fn guarded(truth: Truth, yes: Option<Cells>, no: Option<Cells>) -> Passed
    ensures { result ≡ spec.guarded_by truth yes no }
{
    Passed {
        truth,
        yes: kept(true, truth, yes),
        no: kept(false, truth, no),
    }
}

/// A predicate that narrows nothing.
pub(crate) fn unnarrowed(alloc: Global, cells: &Cells, truth: Truth) -> Result<Passed, AllocError>
    ensures { IfOk result (λ p. p ≡ spec.guarded_by truth (Some cells.now) (Some cells.now)) }
{
    let yes = cells.copy(alloc)?;
    let no = cells.copy(alloc)?;
    Ok(guarded(truth, Some(yes), Some(no)))
}

/// The other way round.
pub(crate) fn swapped(passed: Passed) -> Passed
    ensures { result ≡ spec.passed (not_truth passed.truth) passed.no passed.yes }
{
    let Passed { truth, yes, no } = passed;
    Passed {
        truth: negation(truth),
        yes: no,
        no: yes,
    }
}

/// A relation by its sides.
#[tactic(auto, unfolding(crate::specs::inner::Passes::related_passed))]
pub(crate) fn related(
    alloc: Global,
    cells: &Cells,
    relation: Relation,
    left: &Side,
    right: &Side,
) -> Result<Passed, AllocError>
    ensures { IfOk result (λ p. p ≡ spec.related_passed relation left.now right.now cells.now) }
{
    let truth = relation_truth(relation, &left.value, &right.value);
    let yes = narrowed(alloc, cells, true, relation, left, right)?;
    let no = narrowed(alloc, cells, false, relation, left, right)?;
    Ok(guarded(truth, yes, no))
}

/// What a relation leaves where it holds (`taken`) or doesn't.
#[tactic(auto, unfolding(crate::specs::Shown::narrow_related))]
fn narrowed(
    alloc: Global,
    cells: &Cells,
    taken: bool,
    relation: Relation,
    left: &Side,
    right: &Side,
) -> Result<Option<Cells>, AllocError>
    ensures { IfOk result (λ e. e ≡ narrow_related taken relation left.now right.now cells.now) }
{
    let cells = cells.copy(alloc)?;
    if taken {
        narrow(cells, relation, left, right)
    } else if left.value.unset || right.value.unset {
        Ok(Some(cells))
    } else {
        narrow(cells, opposite(relation), left, right)
    }
}

// ---- connectives

/// The cells in which the right operand is seen, and those that the left one alone decides.
pub(crate) fn parted(op: NoteOp, left: Passed) -> (Option<Cells>, Option<Cells>)
    ensures { result ≡ (spec.open_by op left, spec.decided_by op left) }
{
    let Passed { yes, no, .. } = left;
    match op {
        NoteOp::Or => (no, yes),
        _ => (yes, no),
    }
}

/// The cells of both.
fn merged(
    alloc: Global,
    left: Option<Cells>,
    right: Option<Cells>,
) -> Result<Option<Cells>, AllocError>
    ensures { IfOk result (λ e. e ≡ cells_spec.join_env left right) }
{
    match (left, right) {
        (None, right) => Ok(right),
        (left, None) => Ok(left),
        (Some(left), Some(right)) => Ok(Some(left.join(alloc, &right)?)),
    }
}

/// A connective, by what the left operand decides and by what the right one leaves.
pub(crate) fn joined(
    alloc: Global,
    op: NoteOp,
    truth: Truth,
    decided: Option<Cells>,
    yes: Option<Cells>,
    no: Option<Cells>,
) -> Result<Passed, AllocError>
    ensures { IfOk result (λ p. p ≡ spec.connected_by op truth decided yes no) }
{
    match op {
        NoteOp::And => Ok(guarded(truth, yes, merged(alloc, decided, no)?)),
        _ => Ok(guarded(truth, merged(alloc, decided, yes)?, no)),
    }
}
