//! Laws of what is answered, as contracts of functions that do nothing.

ghost use Rattle.acsl_terms.specs.First.{LeastIsFirst};
ghost use Rattle.acsl_terms.specs.Fits.{ClauseFits};

/// Where there are breaches, the one that is answered is among them, and none stands before it.
#[tactic(auto, using(crate::proofs::Least::least_is_first))]
pub fn least_is_first()
    ensures { LeastIsFirst }
{}

/// What a clause without breach makes has a well formed predicate.
#[tactic(auto, using(crate::proofs::Formed::clause_fits))]
pub fn clause_fits()
    ensures { ClauseFits }
{}
