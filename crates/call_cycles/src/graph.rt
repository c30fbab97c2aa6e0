//! The calls of one function.

ghost use Rattle.std.specs.Prelude.{◌≡◌, ◌<◌, length};
ghost use Rattle.call_cycles.specs.Calls.{callees};

use sqlite_items::Items;

/// The functions that a function calls.
pub(crate) fn callees_of(calls: &[Items<u32>], function: u32) -> &[u32]
    requires function { function < length calls.now }
    ensures { result.now ≡ callees calls.now function }
{
    calls[function as usize].as_slice()
}
