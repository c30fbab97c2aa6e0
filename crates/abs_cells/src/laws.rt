//! Laws of abstract cells, as contracts of functions that do nothing.

ghost use Rattle.abs_cells.specs.Laws.{
  ElementStands,
  IncludedKeeps,
  JoinKeeps,
  NarrowKeeps,
  RelationIsRight,
};

/// A join stands for what either place stands for, and what includes a place stands for what that one does.
#[tactic(auto, using(crate::proofs::Keeping::join_keeps, crate::proofs::Keeping::included_keeps))]
pub fn cells_cover()
    ensures join { JoinKeeps }
    ensures included { IncludedKeeps }
{}

/// The value of an element stands for what the element has whose number is the index.
pub fn elements_cover()
    ensures { ElementStands }
{}

/// What is said of a relation is true of numbers of both values.
#[tactic(auto, using(crate::proofs::Keeping::relation_right))]
pub fn relations_are_right()
    ensures { RelationIsRight }
{}

/// Where a relation holds, the narrowed cells stand for what the cells have.
#[tactic(auto, using(crate::proofs::Keeping::narrow_keeps))]
pub fn relations_narrow()
    ensures { NarrowKeeps }
{}
