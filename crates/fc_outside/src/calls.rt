//! Which calls of an object in memory fail.

ghost use Rattle.std.specs.Prelude.{◌≡◌, ◌≤◌, ◌+◌, if◌then◌else◌};
ghost use Rattle.fc_outside.specs.Calls.{fails_next, counted, failed_calls};

use sqlite_items::Items;

/// Numbers of the calls that fail, counted from 1. Contracts see the list.
pub type CallNums = Items<u64>;

/// The calls that fail, and how many were made.
#[derive(Debug, Drop)]
pub(crate) struct Calls {
    pub(crate) fails: CallNums,
    pub(crate) made: u64,
}

impl Calls {
    /// Counts one call, and says whether it fails.
    pub(crate) fn next_fails(&mut self) -> bool
        ensures answer { result ≡ fails_next self.old.fails self.old.made }
        ensures made { self.new.made ≡ counted self.old.made }
        ensures fails { self.new.fails ≡ self.old.fails }
        ensures count { failed_calls self.new.fails self.new.made ≡ (if result then failed_calls self.old.fails self.old.made + 1 else failed_calls self.old.fails self.old.made) }
    {
        match self.made.checked_add(1) {
            Some(call) => {
                self.made = call;
                self.fails.as_slice().contains(&call)
            }
            None => false,
        }
    }
}
