//! Which functions of a program are on a cycle of calls. A program is given by the functions that each function
//! calls; a function's number is its place in that list.
#![tactic(auto)]

ghost use Rattle.std.specs.Prelude.{◌<◌, ◌^◌, length, IfOk};
ghost use Rattle.call_cycles.specs.Calls.{InRange, FirstOnCycle, EndIfNone};

mod depth_first;
mod graph;
mod laws;
mod state;
#[cfg(test)]
mod tests;

pub use laws::{chains_end, chains_of_callees};
use sqlite_items::Items;
use state::Walk;
use std::alloc::{AllocError, Global};

/// The lowest number of a function that leads to itself, directly or through others; fails only for want of memory.
/// `calls` has for each function the numbers of the functions that it calls, each below `calls.len()`. Its time is
/// linear in functions and calls. It recurses as deep as there are functions.
pub fn first_on_cycle(alloc: Global, calls: &[Items<u32>]) -> Result<Option<u32>, AllocError>
    requires range { InRange calls.now }
    requires few { length calls.now < 2 ^ 32 }
    ensures first { IfOk result (λ f. FirstOnCycle calls.now f) }
    ensures ends { IfOk result (λ f. EndIfNone calls.now f) }
{
    let mut walk = Walk::new(alloc, calls.len())?;
    walk.visit_all(calls)
}
