//! The state of a depth-first walk: what it knows of each function, and what it has found.

ghost use Rattle.std.specs.Prelude.{◌≡◌, ◌<◌, ◌≤◌, ◌^◌, ◌++◌, ◌∷◌, [], ℕ, None, length, get_or, set, replicate, nat_lt, IfOk};
ghost use Rattle.call_cycles.specs.inner.Colours.{close};
ghost use Rattle.call_cycles.specs.inner.Walk.{lowest, first_with, left_stack, left_colours};

use std::alloc::{AllocError, Global};

/// A number beyond any place of the stack: no open function is reached.
pub(crate) const NOTHING: u32 = u32::MAX;

/// What the walk knows of a function.
#[derive(Clone, Copy)]
pub(crate) enum Colour {
    /// Not reached so far.
    Unvisited,
    /// On the stack, at this place.
    Open(u32),
    /// Left, with each function that it leads to.
    Closed,
}

/// A depth-first walk.
#[derive(Drop)]
pub(crate) struct Walk {
    /// The colour of each function.
    pub(crate) colours: Vec<Colour>,
    /// The open functions in the order of their visit.
    pub(crate) stack: Vec<u32>,
    /// The lowest number so far of a function that was left and leads to itself.
    pub(crate) first: Option<u32>,
}

impl Walk {
    /// A walk that has visited none of `count` functions.
    pub(crate) fn new(alloc: Global, count: usize) -> Result<Walk, AllocError>
        ensures colours { IfOk result (λ w. w.colours.items ≡ replicate count Colour.Unvisited) }
        ensures stack { IfOk result (λ w. w.stack.items ≡ []) }
        ensures first { IfOk result (λ w. w.first ≡ None) }
    {
        let colours = vec![in alloc; Colour::Unvisited; count]?;
        Ok(Walk {
            colours,
            stack: Vec::new(alloc),
            first: None,
        })
    }

    /// Puts a function on the stack, and returns its place there.
    pub(crate) fn enter(&mut self, function: u32) -> Result<u32, AllocError>
        requires function { function < length self.old.colours.items }
        requires room { length self.old.stack.items < 2 ^ 32 }
        ensures place { IfOk result (λ p. p ≡ length self.old.stack.items) }
        ensures stack { IfOk result (λ p. self.new.stack.items ≡ self.old.stack.items ++ function ∷ []) }
        ensures colours { IfOk result
            (λ p. self.new.colours.items ≡ set self.old.colours.items function (Colour.Open p)) }
        ensures first { IfOk result (λ p. self.new.first ≡ self.old.first) }
    {
        let place = self.stack.len() as u32;
        self.stack.push(function)?;
        self.colours[function as usize] = Colour::Open(place);
        Ok(place)
    }

    /// Takes account of a function that is left, and that leads to itself or not.
    pub(crate) fn count(&mut self, function: u32, is_on_cycle: bool)
        ensures stack { self.new.stack.items ≡ self.old.stack.items }
        ensures colours { self.new.colours.items ≡ self.old.colours.items }
        ensures first { self.new.first ≡ first_with is_on_cycle self.old.first function }
    {
        if is_on_cycle {
            self.first = Some(lower(self.first, function));
        }
    }

    /// Closes the functions at a place of the stack and above, unless one below that place is reached, at `low`.
    pub(crate) fn leave(&mut self, place: u32, low: u32)
        requires place { place ≤ length self.old.stack.items }
        requires range { (j : ℕ) → j < length self.old.stack.items →
            get_or self.old.stack.items j 0 < length self.old.colours.items }
        ensures stack { self.new.stack.items ≡ left_stack (nat_lt low place) place self.old.stack.items }
        ensures colours { self.new.colours.items ≡
            left_colours (nat_lt low place) place self.old.stack.items self.old.colours.items }
        ensures first { self.new.first ≡ self.old.first }
    {
        if low < place {
            return;
        }
        let (_, closing) = self.stack.split_at(place as usize);
        close_all(&mut self.colours, closing);
        self.stack.truncate(place as usize);
    }
}

/// The lower of a function's number and the lowest so far.
fn lower(first: Option<u32>, function: u32) -> u32
    ensures { result ≡ lowest first function }
{
    match first {
        Some(number) => number.min(function),
        None => function,
    }
}

/// Closes functions.
fn close_all(colours: &mut [Colour], functions: &[u32])
    requires range { (j : ℕ) → j < length functions.now → get_or functions.now j 0 < length colours.old }
    ensures { colours.new ≡ close functions.now colours.old }
{
    for function in functions {
        colours[*function as usize] = Colour::Closed;
    }
}
