//! The values of terms.

ghost use Rattle.std.specs.Prelude.{◌≡◌};
ghost use Rattle.std.specs.Option.{option_copied};
ghost use Rattle.int_value.specs.Checks.{divisor_said};
ghost use Rattle.abs_cells.specs.Cells.{element_of, value_in};
ghost use Rattle.eva_terms.specs.Shown.{shown};
ghost use Rattle.eva_terms.specs.Terms as spec;
ghost use Rattle.eva_terms.specs.inner.Frames.{bound_in, sight};

use crate::frame::{Frame, bound, nothing};
use abs_cells::Cells;
use c_ir::Pred;
use fc_base::NoteOp;
use int_interval::Said;
use int_value::Value;

/// The value of a term. The flag says that it may be undefined.
#[tactic(auto, unfolding(crate::specs::Shown::shown))]
pub(crate) fn term(
    pred: &Pred,
    cells: Option<&Cells>,
    entry: Option<&Cells>,
    frame: &Frame,
) -> Value
    ensures { result ≡ (shown pred.now).term
        (sight (option_copied cells.entry) (option_copied entry.entry) (bound_in frame.now)) }
{
    match pred {
        Pred::Number { value } => Value::number(*value),
        Pred::Cell { cell } => value_of(cells, *cell),
        Pred::Element {
            first,
            length,
            index,
        } => {
            let index = term(index.get(), cells, entry, frame);
            element(cells, *first, *length, &index)
        }
        Pred::Bound { between } => bound(frame, *between),
        Pred::Old { of } => term(of.get(), entry, entry, frame),
        Pred::Neg { of } => negation(&term(of.get(), cells, entry, frame)),
        Pred::Binary { op, left, right } => {
            let left = term(left.get(), cells, entry, frame);
            let right = term(right.get(), cells, entry, frame);
            combined(*op, &left, &right)
        }
        Pred::True | Pred::False | Pred::Not { .. } | Pred::Related { .. } | Pred::Forall { .. } =>
            nothing(true),
    }
}

/// The same numbers, of a term that may also be undefined if `unset` says so.
fn also_unset(unset: bool, value: Value) -> Value
    ensures { result ≡ spec.also_unset unset value }
{
    Value {
        range: value.range,
        congr: value.congr,
        unset: value.unset || unset,
    }
}

fn value_of(cells: Option<&Cells>, number: u32) -> Value
    ensures { result ≡ value_in (option_copied cells.entry) number }
{
    match cells {
        None => nothing(false),
        Some(cells) => cells.get(number as usize),
    }
}

fn element_in(cells: Option<&Cells>, first: u32, length: u32, index: &Value) -> Value
    ensures { result ≡ element_of (option_copied cells.entry) first length index.now }
{
    match cells {
        None => nothing(false),
        Some(cells) => cells.element(first, length, index),
    }
}

/// Whether each number of the index is one of an array of this length.
fn is_index(length: u32, index: &Value) -> bool
    ensures { result ≡ spec.is_index length index.now }
{
    match index.within(0, length as i128 - 1) {
        Said::Yes => true,
        Said::No | Said::Maybe | Said::Unreached => false,
    }
}

#[tactic(auto, unfolding(crate::specs::Terms::element_term))]
fn element(cells: Option<&Cells>, first: u32, length: u32, index: &Value) -> Value
    ensures { result ≡ spec.element_term (option_copied cells.entry) first length index.now }
{
    also_unset(
        index.unset || !is_index(length, index),
        element_in(cells, first, length, index),
    )
}

#[tactic(auto, unfolding(crate::specs::Terms::negated))]
fn negation(value: &Value) -> Value
    ensures { result ≡ spec.negated value.now }
{
    also_unset(value.unset, value.negation())
}

/// A term of two terms; the operators of predicates make none.
#[tactic(auto, unfolding(crate::specs::Terms::combined))]
fn combined(op: NoteOp, left: &Value, right: &Value) -> Value
    ensures { result ≡ spec.combined op left.now right.now }
{
    let unset = left.unset || right.unset;
    match op {
        NoteOp::Iff | NoteOp::Implies | NoteOp::Or | NoteOp::And => nothing(true),
        NoteOp::Add => also_unset(unset, left.sum(right)),
        NoteOp::Sub => also_unset(unset, left.difference(right)),
        NoteOp::Mul => also_unset(unset, left.product(right)),
        NoteOp::Div => by_divisor(divisor(left, right), unset, left.quotient(right)),
        NoteOp::Rem => by_divisor(divisor(left, right), unset, left.remainder(right)),
    }
}

/// What is said of the divisor not being 0.
fn divisor(left: &Value, right: &Value) -> Said
    ensures { result ≡ divisor_said left.now right.now }
{
    if left.is_empty() || right.is_empty() {
        Said::Unreached
    } else if !right.contains(0) {
        Said::Yes
    } else if right.range.is_just(0) {
        Said::No
    } else {
        Said::Maybe
    }
}

/// A quotient or a remainder, by what is said of its divisor not being 0.
fn by_divisor(said: Said, unset: bool, value: Value) -> Value
    ensures { result ≡ spec.by_divisor said unset value }
{
    match said {
        Said::Yes => also_unset(unset, value),
        Said::No => nothing(true),
        Said::Maybe | Said::Unreached => also_unset(true, value),
    }
}
