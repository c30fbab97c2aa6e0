//! Laws of the properties of a program, as contracts of functions that do nothing.

ghost use Rattle.prop_table.specs.Laws.{RowsBelong, OneDead, RowsTogether};

/// Each property stands at a point of its function, and an alarm is a check of its operator.
#[tactic(auto, using(crate::proofs::Places::rows_belong))]
pub fn rows_belong()
    ensures { RowsBelong }
{}

/// Each point has one Dead.
#[tactic(auto, using(crate::proofs::Deads::one_dead))]
pub fn one_dead()
    ensures { OneDead }
{}

/// The properties of one point stand side by side.
#[tactic(auto, using(crate::proofs::Together::rows_together))]
pub fn rows_together()
    ensures { RowsTogether }
{}
