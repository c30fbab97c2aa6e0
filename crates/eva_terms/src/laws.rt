//! Laws of predicates in abstract cells, as contracts of functions that do nothing.

ghost use Rattle.eva_terms.specs.Laws.{PredicatesNarrow, TruthsAreRight};

/// What is said of a predicate is so in each run that the cells stand for.
#[tactic(auto, using(crate::proofs::Right::truths_right))]
pub fn truths_are_right()
    ensures { TruthsAreRight }
{}

/// Narrowing keeps what the cells of each run have in which the predicate comes out so.
#[tactic(auto, using(crate::proofs::Right::predicates_keep))]
pub fn predicates_narrow()
    ensures { PredicatesNarrow }
{}
