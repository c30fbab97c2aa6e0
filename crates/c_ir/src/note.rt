//! Notes that aren't read yet, with the names that they can use.

ghost use Rattle.std.specs.Prelude.{◌≡◌};
ghost use Rattle.c_ir.specs.Scopes.{nameable};

use fc_base::{FnId, Name, Spot};
use shared_list::SharedList;
use sqlite_items::Items;
use std::marker::Model;

/// A declared object: its name, its first cell, and the length of an array.
#[derive(Debug, Drop)]
pub struct InScope {
    pub name: Name,
    pub first: u32,
    pub length: Option<u32>,
}

/// The objects that a place can name, in the order of their first cells. What two places have in common they share.
#[derive(Debug, Drop)]
pub struct InScopes {
    /// The declarations in force, the newest first, with those that a newer one hides.
    declared: SharedList<InScope>,
}

impl Model for InScopes {
    ghost use Rattle.std.specs.Prelude.{List};
    ghost use Rattle.c_ir.specs.declared.note.InScope.{InScope};
    ghost use Rattle.c_ir.specs.Scopes.{nameable};

    ghost Value = { List InScope };

    ghost view = { λ s. nameable s.declared };
}

impl InScopes {
    /// What a place can name, of the declarations in force there, the newest first.
    pub fn new(declared: SharedList<InScope>) -> InScopes
        ensures { result ≡ nameable declared }
    {
        InScopes { declared }
    }

    /// The declarations in force, the newest first, with those that a newer one hides.
    pub fn declared(&self) -> &SharedList<InScope>
        ensures { nameable result.now ≡ self.now }
    {
        &self.declared
    }
}

/// A note of the text: the function whose body it is in or before which it directly stands, and the objects that it
/// can name. Directly before a `for`, `names` has those too that the head of the `for` declares, and `before` leaves
/// them out; elsewhere both are the same.
#[derive(Debug, Drop)]
pub struct NoteSpot {
    pub at: Spot,
    pub owner: Option<FnId>,
    pub names: InScopes,
    pub before: InScopes,
}

/// Notes in the order of the text.
pub type NoteSpots = Items<NoteSpot>;
