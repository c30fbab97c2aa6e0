//! Laws of histories.

ghost use Rattle.status_history.specs.Laws.{ValuesStay};

/// The values of the parameters at a version stay as they are when the history grows.
pub fn values_stay()
    ensures { ValuesStay }
{}
