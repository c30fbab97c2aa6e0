//! What a clause sees, and what its names stand for.

ghost use Rattle.std.specs.Prelude.{◌≡◌};
ghost use Rattle.acsl_terms.specs.Clauses.{plain};
ghost use Rattle.acsl_terms.specs.Meaning.{at_entry};

use sqlite_items::Items;
use std::alloc::Global;

/// What an `ensures` may see: the cells of its function's formals, the cell of the function's result, and whether
/// `\old` may stand. All other clauses see none of these (ACSL manual, function contracts).
#[derive(Debug, Drop)]
pub struct View {
    pub formals: Items<u32>,
    pub result: Option<u32>,
    pub old: bool,
}

impl View {
    /// What all clauses but an `ensures` see.
    pub(crate) fn plain(alloc: Global) -> View
        ensures { result ≡ plain }
    {
        View {
            formals: Items::new(alloc),
            result: None,
            old: false,
        }
    }

    /// Whether the value of an object's cell is that at the function's entry.
    pub(crate) fn is_at_entry(&self, cell: u32) -> bool
        ensures { result ≡ at_entry self.now cell }
    {
        self.old && self.formals.as_slice().contains(&cell)
    }
}

/// What a name stands for.
#[derive(Clone, Copy, Debug, PartialEq, Eq)]
pub enum Meant {
    /// A name that a `\forall` binds, by the number of `\forall` between it and its own.
    Bound(u32),
    /// An object: its first cell, and the length of an array.
    Object { first: u32, length: Option<u32> },
    /// No object, and no `\forall` binds it.
    Nothing,
}
