//! What is said of a predicate, and of predicates joined.

ghost use Rattle.std.specs.Prelude.{◌≡◌};
ghost use Rattle.eva_terms.specs.Truths.{
  and_truth,
  by_body,
  implies_truth,
  not_truth,
  or_truth,
  same_truth,
  truth_of,
  unless_unset,
};
ghost use Rattle.eva_terms.specs.inner.Passes as inner;

use fc_base::NoteOp;
use int_interval::Said;

/// Whether a predicate holds in all runs that come to a place, in none, or neither is known.
#[derive(Clone, Copy, Debug, PartialEq, Eq)]
pub enum Truth {
    Yes,
    No,
    Maybe,
}

pub(crate) fn negation(a: Truth) -> Truth
    ensures { result ≡ not_truth a }
{
    match a {
        Truth::Yes => Truth::No,
        Truth::No => Truth::Yes,
        Truth::Maybe => Truth::Maybe,
    }
}

fn conjunction(a: Truth, b: Truth) -> Truth
    ensures { result ≡ and_truth a b }
{
    match (a, b) {
        (Truth::Yes, b) => b,
        (Truth::No, _) => Truth::No,
        (Truth::Maybe, Truth::No) => Truth::No,
        (Truth::Maybe, Truth::Yes | Truth::Maybe) => Truth::Maybe,
    }
}

fn disjunction(a: Truth, b: Truth) -> Truth
    ensures { result ≡ or_truth a b }
{
    match (a, b) {
        (Truth::Yes, _) => Truth::Yes,
        (Truth::No, b) => b,
        (Truth::Maybe, Truth::Yes) => Truth::Yes,
        (Truth::Maybe, Truth::No | Truth::Maybe) => Truth::Maybe,
    }
}

fn implication(a: Truth, b: Truth) -> Truth
    ensures { result ≡ implies_truth a b }
{
    disjunction(negation(a), b)
}

fn equivalence(a: Truth, b: Truth) -> Truth
    ensures { result ≡ same_truth a b }
{
    match a {
        Truth::Yes => b,
        Truth::No => negation(b),
        Truth::Maybe => Truth::Maybe,
    }
}

/// The truth of a connective.
pub(crate) fn connected(op: NoteOp, left: Truth, right: Truth) -> Truth
    ensures { result ≡ inner.connected op left right }
{
    match op {
        NoteOp::Iff => equivalence(left, right),
        NoteOp::Implies => implication(left, right),
        NoteOp::Or => disjunction(left, right),
        NoteOp::And => conjunction(left, right),
        NoteOp::Add | NoteOp::Sub | NoteOp::Mul | NoteOp::Div | NoteOp::Rem => Truth::Maybe,
    }
}

/// The truth of a relation of which this is said.
pub(crate) fn by_said(said: Said) -> Truth
    ensures { result ≡ truth_of said }
{
    match said {
        Said::Yes => Truth::Yes,
        Said::No => Truth::No,
        Said::Maybe => Truth::Maybe,
        Said::Unreached => Truth::No,
    }
}

/// The same where a term may be undefined, if `unset` says so.
pub(crate) fn weakened(unset: bool, truth: Truth) -> Truth
    ensures { result ≡ unless_unset unset truth }
{
    match truth {
        Truth::Yes => { if unset { Truth::Maybe } else { Truth::Yes } }
        Truth::No => Truth::No,
        Truth::Maybe => Truth::Maybe,
    }
}

/// The truth of a quantified predicate by that of its body; `never_empty` says that its range surely has a
/// number.
pub(crate) fn of_all(never_empty: bool, body: Truth) -> Truth
    ensures { result ≡ by_body never_empty body }
{
    match body {
        Truth::Yes => Truth::Yes,
        Truth::No => { if never_empty { Truth::No } else { Truth::Maybe } }
        Truth::Maybe => Truth::Maybe,
    }
}
