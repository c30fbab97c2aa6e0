//! Laws of verdicts after a change, as contracts of functions that do nothing.

ghost use Rattle.status_rows.specs.Reached.{UnreachedKeep};
ghost use Rattle.status_rows.specs.Emission.{EmissionCounts, EmissionKeeps};

/// Where the counted entries on one property alter, each verdict that isn't reached from it stays.
pub fn unreached_keep()
    ensures { UnreachedKeep }
{}

/// An entry that is current counts in place of that of its emitter on its property; no other entry starts or ends to
/// count.
pub fn emission_counts()
    ensures { EmissionCounts }
{}

/// Each verdict that isn't reached from the property of an entry stays, when the entry is emitted.
pub fn emission_keeps()
    ensures { EmissionKeeps }
{}
