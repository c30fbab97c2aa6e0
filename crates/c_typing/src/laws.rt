//! Laws of what is answered, as contracts of functions that do nothing.

ghost use Rattle.c_typing.specs.First.{LeastIsFirst};

/// Where there are breaches, the one that is answered is among them, and none stands before it.
#[tactic(auto, using(crate::proofs::Least::least_is_first))]
pub fn least_is_first()
    ensures { LeastIsFirst }
{}
