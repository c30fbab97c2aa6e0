//! The truth of predicates.

ghost use Rattle.std.specs.Prelude.{◌≡◌};
ghost use Rattle.std.specs.Option.{option_copied};
ghost use Rattle.eva_terms.specs.Shown.{not_zero, shown, truth_row};
ghost use Rattle.eva_terms.specs.inner.Frames.{bound_in, sight};

use crate::answer::{Truth, connected, negation, of_all};
use crate::frame::Frame;
use crate::related::{has_number, range, relation_truth};
use crate::terms::term;
use abs_cells::Cells;
use c_ir::Pred;
use fc_base::{NoteOp, Relation};
use int_value::Value;

/// What is said of a predicate in these cells, where `entry` are those at the function's entry. Where no
/// run comes it is Maybe.
#[tactic(auto, unfolding(crate::specs::Shown::truth_row))]
pub fn truth(now: Option<&Cells>, entry: Option<&Cells>, pred: &Pred) -> Truth
    ensures { result ≡ truth_row (option_copied now.entry) (option_copied entry.entry) pred.now }
{
    match now {
        None => Truth::Maybe,
        Some(cells) => truth_in(pred, Some(cells), entry, &Frame::Empty),
    }
}

/// The same among bound names.
#[tactic(auto, unfolding(crate::specs::Shown::shown, crate::specs::Truths::forall_truth))]
pub(crate) fn truth_in(
    pred: &Pred,
    cells: Option<&Cells>,
    entry: Option<&Cells>,
    frame: &Frame,
) -> Truth
    ensures { result ≡ (shown pred.now).truth
        (sight (option_copied cells.entry) (option_copied entry.entry) (bound_in frame.now)) }
{
    match pred {
        Pred::True => Truth::Yes,
        Pred::False => Truth::No,
        Pred::Old { of } => truth_in(of.get(), entry, entry, frame),
        Pred::Not { of } => negation(truth_in(of.get(), cells, entry, frame)),
        Pred::Binary { op, left, right } => match op {
            NoteOp::Iff | NoteOp::Implies | NoteOp::Or | NoteOp::And => {
                let left = truth_in(left.get(), cells, entry, frame);
                connected(*op, left, truth_in(right.get(), cells, entry, frame))
            }
            _ => truth_of_term(&term(pred, cells, entry, frame)),
        },
        Pred::Related {
            relation,
            left,
            right,
        } => {
            let left = term(left.get(), cells, entry, frame);
            relation_truth(*relation, &left, &term(right.get(), cells, entry, frame))
        }
        Pred::Forall {
            low,
            low_strict,
            high,
            high_strict,
            body,
        } => {
            let low = term(low.get(), cells, entry, frame);
            let high = term(high.get(), cells, entry, frame);
            let value = range(&low, &high, *high_strict);
            if value.is_empty() {
                return Truth::Yes;
            }
            let inner = Frame::Bound {
                value,
                outer: &*frame,
            };
            let truth = truth_in(body.get(), cells, entry, &inner);
            of_all(has_number(&low, *low_strict, &high, *high_strict), truth)
        }
        _ => truth_of_term(&term(pred, cells, entry, frame)),
    }
}

/// A term stands for the predicate that it isn't 0.
pub(crate) fn truth_of_term(value: &Value) -> Truth
    ensures { result ≡ not_zero value.now }
{
    relation_truth(Relation::NotEqual, value, &Value::number(0))
}
