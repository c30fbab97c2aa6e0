//! Laws of the analysis, as contracts of functions that do nothing.

ghost use Rattle.eva_rules.specs.Laws.{EntriesAreRight};

/// Each entry of the analysis is locally right: what it says of its property follows, in all runs under the same values
/// of the parameters, from its hypotheses.
pub fn entries_are_right()
    ensures { EntriesAreRight }
{}
