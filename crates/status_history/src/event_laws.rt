//! A law of events.

ghost use Rattle.status_history.specs.Events.{KeptGrows};

/// The history of more events is that of the first ones followed by the changes of the others.
pub fn kept_grows()
    ensures { KeptGrows }
{}
