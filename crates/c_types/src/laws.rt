//! Laws of what is answered, as contracts of functions that do nothing.

ghost use Rattle.c_types.specs.Programs.{OneProgram};

/// A text that has a program has one, and is refused only for want of memory.
#[tactic(auto, using(crate::proofs::Answered::one_program))]
pub fn one_program()
    ensures { OneProgram }
{}
