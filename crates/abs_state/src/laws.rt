//! Laws of states, as contracts of functions that do nothing.

ghost use Rattle.abs_state.specs.Laws.{
  IncludedCovers,
  IncludedStands,
  JoinCovers,
  WholeStands,
  WidenKeeps,
};

/// A join covers what either state covers. What includes a state stands for what that one does, and covers
/// what that one covers where its own properties pass only if those of the other do.
pub fn states_cover()
    ensures join { JoinCovers }
    ensures included_stands { IncludedStands }
    ensures included_covers { IncludedCovers }
{}

/// Of cells with numbers of their types: widening keeps those that the old or the next values stand for, and
/// the whole types stand for all, without a number only where the flag is set.
pub fn typed_cells_are_kept()
    ensures widen { WidenKeeps }
    ensures whole { WholeStands }
{}
