//! How predicates narrow cells.

ghost use Rattle.std.specs.Prelude.{◌≡◌, [], None, Some, pos, IfOk};
ghost use Rattle.fc_base.specs.declared.relation.Relation.TheVariants as R;
ghost use Rattle.int_value.specs.Rows.{number_row};
ghost use Rattle.std.specs.Option.{option_copied};
ghost use Rattle.eva_terms.specs.Shown.{narrow_row, shown, side_of};
ghost use Rattle.eva_terms.specs.inner.Frames.{sight};
ghost use Rattle.eva_terms.specs.inner.Passes as spec;

use crate::answer::connected;
use crate::frame::Frame;
use crate::passed::{Passed, joined, parted, related, swapped, unnarrowed};
use crate::terms::term;
use crate::truths::truth_in;
use abs_cells::{Cells, Side};
use c_ir::Pred;
use fc_base::{NoteOp, Relation};
use int_value::Value;
use std::alloc::{AllocError, Global};

/// What is left of the cells where the predicate holds (`taken`) or doesn't; `entry` are the cells at the
/// function's entry. None where no run comes so far. Fails only for want of memory.
#[tactic(auto, unfolding(crate::specs::Shown::narrow_row))]
pub fn narrow(
    alloc: Global,
    now: Cells,
    entry: Option<&Cells>,
    pred: &Pred,
    taken: bool,
) -> Result<Option<Cells>, AllocError>
    ensures { IfOk result (λ e. e ≡ narrow_row taken (Some now) (option_copied entry.entry) pred.now) }
{
    let Passed { yes, no, .. } = pass(alloc, pred, &now, entry)?;
    Ok(if taken { yes } else { no })
}

/// One pass over a predicate, which goes through each operand once to narrow by it: a right operand in the
/// cells that the left one leaves. The recursion is as deep as the tree.
#[tactic(auto, unfolding(crate::specs::Shown::shown, crate::specs::inner::Passes::related_passed))]
fn pass(
    alloc: Global,
    pred: &Pred,
    cells: &Cells,
    entry: Option<&Cells>,
) -> Result<Passed, AllocError>
    ensures { IfOk result (λ p. p ≡ spec.passed_by (shown pred.now) cells.now (option_copied entry.entry)) }
{
    match pred {
        Pred::Not { of } => Ok(swapped(pass(alloc, of.get(), cells, entry)?)),
        Pred::Related {
            relation,
            left,
            right,
        } => {
            let left = side(left.get(), cells, entry);
            let right = side(right.get(), cells, entry);
            related(alloc, cells, *relation, &left, &right)
        }
        Pred::Binary { op, left, right } => match op {
            NoteOp::And | NoteOp::Or | NoteOp::Implies => {
                let second = truth_in(right.get(), Some(cells), entry, &Frame::Empty);
                let first = pass(alloc, left.get(), cells, entry)?;
                let truth = connected(*op, first.truth, second);
                let (open, decided) = parted(*op, first);
                match open {
                    None => joined(alloc, *op, truth, decided, None, None),
                    Some(rest) => {
                        let Passed { yes, no, .. } = pass(alloc, right.get(), &rest, entry)?;
                        joined(alloc, *op, truth, decided, yes, no)
                    }
                }
            }
            NoteOp::Iff => unmoved(alloc, pred, cells, entry),
            _ => by_term(alloc, pred, cells, entry),
        },
        Pred::True | Pred::False | Pred::Old { .. } | Pred::Forall { .. } => {
            unmoved(alloc, pred, cells, entry)
        }
        _ => by_term(alloc, pred, cells, entry),
    }
}

/// A predicate that narrows nothing.
fn unmoved(
    alloc: Global,
    pred: &Pred,
    cells: &Cells,
    entry: Option<&Cells>,
) -> Result<Passed, AllocError>
    ensures { IfOk result (λ p. p ≡ spec.guarded_by
        ((shown pred.now).truth (sight (Some cells.now) (option_copied entry.entry) []))
        (Some cells.now) (Some cells.now)) }
{
    unnarrowed(
        alloc,
        cells,
        truth_in(pred, Some(cells), entry, &Frame::Empty),
    )
}

/// A term as a side of a relation.
#[tactic(auto, unfolding(crate::specs::Shown::shown))]
fn side(pred: &Pred, cells: &Cells, entry: Option<&Cells>) -> Side
    ensures { result ≡ side_of (shown pred.now).cell
        ((shown pred.now).term (sight (Some cells.now) (option_copied entry.entry) [])) }
{
    let value = term(pred, Some(cells), entry, &Frame::Empty);
    match pred {
        Pred::Cell { cell } => Side {
            cell: Some(*cell),
            value,
        },
        _ => Side { cell: None, value },
    }
}

/// A term in a predicate's place: that it isn't 0.
fn by_term(
    alloc: Global,
    pred: &Pred,
    cells: &Cells,
    entry: Option<&Cells>,
) -> Result<Passed, AllocError>
    ensures { IfOk result (λ p. p ≡ spec.related_passed R.NotEqual
        (side_of (shown pred.now).cell
        ((shown pred.now).term (sight (Some cells.now) (option_copied entry.entry) [])))
        (side_of None (number_row (pos 0))) cells.now) }
{
    let zero = Side {
        cell: None,
        value: Value::number(0),
    };
    related(
        alloc,
        cells,
        Relation::NotEqual,
        &side(pred, cells, entry),
        &zero,
    )
}
