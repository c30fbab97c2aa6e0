//! Why a property holds, as a list of steps that anyone can check.

use fc_base::PropId;
use sqlite_items::Items;

/// Why the property of a step holds.
#[derive(Clone, Copy, Debug, PartialEq, Eq)]
pub enum Reason {
    /// It is taken as true.
    Admitted,
    /// The entry at this place of the history, where changes count from 1, says so, and earlier steps have its
    /// hypotheses.
    ByEntry(u32),
    /// It isn't of kind Dead, and an earlier step has the property of kind Dead at its point.
    ByDead,
}

/// One step of a support.
#[derive(Clone, Copy, Debug, PartialEq, Eq)]
pub struct Step {
    pub prop: PropId,
    pub reason: Reason,
}

/// Steps each of which rests on earlier ones alone; the last is that of the property whose support it is.
pub type Support = Items<Step>;
