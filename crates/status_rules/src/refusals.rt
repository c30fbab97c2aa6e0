//! How a change is answered, and why a change or a question is refused.

/// Why a change or a question is refused. Where several reasons stand, the first in this order is told.
#[derive(Clone, Copy, Debug, PartialEq, Eq)]
pub enum Refusal {
    /// No emitter has the number.
    UnknownEmitter,
    /// The emitter is one of the program's own.
    ReservedEmitter,
    /// The property isn't in the table.
    UnknownProperty,
    /// This hypothesis, counted from 0, is the first that isn't in the table.
    UnknownHyp(usize),
    /// There are this many hypotheses, more than 256.
    TooManyHyps(usize),
    /// The version is above the current one, which is this.
    FutureVersion(u32),
    /// There is no such parameter, or the value is out of its range.
    OutOfRange,
    /// An emitter has the name.
    NameTaken,
    /// There are 256 emitters.
    TooManyEmitters(u32),
    /// The history has as many changes as it may have, 200,000.
    HistoryFull(u32),
    /// There are as many events as there may be, 2^62.
    EventsFull(u64),
    /// No memory.
    Memory,
}

/// What a change came to.
#[derive(Clone, Copy, Debug, PartialEq, Eq)]
pub struct Placed {
    /// How many changes came before.
    pub at: u32,
    /// The version after the change.
    pub version: u32,
    /// The number of a registered emitter, the new version, or the place of an entry.
    pub value: u32,
}

/// Why a call on a shared table failed.
#[derive(Clone, Copy, Debug, PartialEq, Eq)]
pub enum BoardFault {
    /// It was refused; `at` and `version` are as in an answer. The reason is never want of memory.
    Refused { at: u32, version: u32, why: Refusal },
    /// No memory.
    Memory,
}
