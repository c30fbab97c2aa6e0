//! Laws of runs, as contracts of functions that do nothing.

ghost use Rattle.c_runs.specs.Examples.{Examples};
ghost use Rattle.c_runs.specs.Laws.{DeepEnough, FewerArePrefix, RunsAreChained};

/// What each piece of a run is, and which pieces come before it: arrivals with typed cells, in which the admitted
/// clauses hold; evaluations of the expressions of a statement after an arrival at its point; and the preconditions of
/// a callee just before the arrival at its entry, in the same cells.
pub fn runs_are_chained()
    ensures { RunsAreChained }
{}

/// The pieces of a run with fewer arrivals are a prefix of those of one with more.
pub fn fewer_are_prefix()
    ensures { FewerArePrefix }
{}

/// No run is cut for the depth of its calls: with any greater depth it is the same.
pub fn deep_enough()
    ensures { DeepEnough }
{}

/// Small expressions run as the definitions say: `%` of the least number by -1 has no quotient in its type, and the
/// right operand of `&&` isn't evaluated after a 0.
#[tactic(auto, using(crate::proofs::Rows::examples))]
pub fn examples()
    ensures { Examples }
{}
