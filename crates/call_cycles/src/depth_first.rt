//! A depth-first walk that finds strongly connected components: Tarjan, Depth-first search and linear graph algorithms,
//! 1972.

ghost use Rattle.std.specs.Prelude.{◌≡◌, ◌<◌, ◌^◌, [], None, length, replicate, IfOk};
ghost use Rattle.call_cycles.specs.Calls.{callees, InRange, FirstOnCycle};
ghost use Rattle.call_cycles.specs.inner.Walk.{EachLeads, EachLeadsOrIs, Good, Walked, SoFar, OnCycle, Firsts};

use crate::graph::callees_of;
use crate::state::{Colour, NOTHING, Walk};
use sqlite_items::Items;
use std::alloc::AllocError;

impl Walk {
    /// Visits a function and what it leads to, unless it has been visited. The lowest place of an open function that
    /// was reached on the way; if none that was open before was reached, a number beyond their places.
    #[cycle(visit)]
    fn visit(&mut self, calls: &[Items<u32>], function: u32) -> Result<u32, AllocError>
        requires range { InRange calls.now }
        requires few { length calls.now < 2 ^ 32 }
        requires function { function < length calls.now }
        requires good { Good calls.now self.old.stack.items self.old.colours.items }
        requires leads { EachLeads calls.now self.old.stack.items function }
        requires first { OnCycle calls.now self.old.first }
        ensures walked { IfOk result (λ low. Walked calls.now self.old.stack.items self.old.colours.items
            function low self.new.stack.items self.new.colours.items) }
        ensures first { IfOk result (λ low. Firsts calls.now self.old.colours.items self.old.first
            self.new.colours.items self.new.first) }
    {
        match self.colours[function as usize] {
            Colour::Unvisited => {
                let place = self.enter(function)?;
                let low = self.visit_callees(calls, function)?;
                self.count(function, low <= place);
                self.leave(place, low);
                Ok(low)
            }
            Colour::Open(place) => Ok(place),
            Colour::Closed => Ok(NOTHING),
        }
    }

    /// Visits the callees of the function on top of the stack. The lowest place of an open function that was reached
    /// on the way; `NOTHING` if none was.
    #[cycle(visit)]
    fn visit_callees(&mut self, calls: &[Items<u32>], function: u32) -> Result<u32, AllocError>
        requires range { InRange calls.now }
        requires few { length calls.now < 2 ^ 32 }
        requires function { function < length calls.now }
        requires good { Good calls.now self.old.stack.items self.old.colours.items }
        requires leads { EachLeadsOrIs calls.now self.old.stack.items function }
        requires first { OnCycle calls.now self.old.first }
        ensures walked { IfOk result (λ low. SoFar calls.now self.old.stack.items self.old.colours.items
            function (length (callees calls.now function)) low self.new.stack.items self.new.colours.items) }
        ensures first { IfOk result (λ low. Firsts calls.now self.old.colours.items self.old.first
            self.new.colours.items self.new.first) }
    {
        let mut low = NOTHING;
        for callee in callees_of(calls, function) {
            low = low.min(self.visit(calls, *callee)?);
        }
        Ok(low)
    }

    /// Visits each function. The lowest number of one that leads to itself.
    pub(crate) fn visit_all(&mut self, calls: &[Items<u32>]) -> Result<Option<u32>, AllocError>
        requires range { InRange calls.now }
        requires few { length calls.now < 2 ^ 32 }
        requires stack { self.old.stack.items ≡ [] }
        requires colours { self.old.colours.items ≡ replicate (length calls.now) Colour.Unvisited }
        requires first { self.old.first ≡ None }
        ensures { IfOk result (λ f. FirstOnCycle calls.now f) }
    {
        for function in 0..calls.len() as u32 {
            self.visit(calls, function)?;
        }
        Ok(self.first)
    }
}
