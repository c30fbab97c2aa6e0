//! Laws of the runs of a program over its table, as contracts of functions that do nothing.

ghost use Rattle.prop_runs.specs.Laws.{FewerArePrefix, RunsKeepLaws, VisitsAreRows};

/// The runs of a program keep the laws of runs over its table: a property that isn't of kind Dead is visited only in
/// runs that visit the one of kind Dead at its point, that one's visits are false, a firm property is visited in each
/// run that arrives at its point, and no visit of an admitted property is false.
pub fn runs_keep_laws()
    ensures { RunsKeepLaws }
{}

/// The visits of a run with fewer arrivals are a prefix of those of one with more.
pub fn fewer_are_prefix()
    ensures { FewerArePrefix }
{}

/// A run visits no property that isn't in the table.
pub fn visits_are_rows()
    ensures { VisitsAreRows }
{}
