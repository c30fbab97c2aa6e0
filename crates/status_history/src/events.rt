//! What happens to a table that several callers share.

use crate::history::Change;
use sqlite_items::Items;

/// One of the two halves of a pass that was split.
#[derive(Clone, Copy, Debug, PartialEq, Eq)]
pub enum Half {
    First,
    Second,
}

/// Where a pass stands among all: the halves that lead to it from the whole pass, which has none.
pub type Address = Items<Half>;

/// What one call came to.
#[derive(Debug, Drop)]
pub enum What {
    /// The table took a change.
    Done(Change),
    /// The table was looked at, or refused a change.
    Asked,
}

/// One call of a caller, by the address of its pass.
#[derive(Debug, Drop)]
pub struct Event {
    pub address: Address,
    pub what: What,
}

/// A list of events, in the order in which they happened.
pub type Events = Items<Event>;
