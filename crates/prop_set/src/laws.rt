//! Laws of sets, as the contract of a function that does nothing.

ghost use Rattle.prop_set.specs.Laws.{AddsAll, AddsOne, AllKeepRising, IsWithin, MembersDecide};
ghost use Rattle.prop_set.specs.Laws.{OneKeepsRising};

/// Sets are the rising lists of their members: two with the same members are equal.
pub fn sets_are_lists()
    ensures one { AddsOne }
    ensures all { AddsAll }
    ensures within { IsWithin }
    ensures one_rises { OneKeepsRising }
    ensures all_rise { AllKeepRising }
    ensures equal { MembersDecide }
{}
