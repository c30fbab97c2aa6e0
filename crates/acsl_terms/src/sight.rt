//! What names of annotations stand for.

ghost use Rattle.std.specs.Prelude.{◌≡◌, IfOk, bytes_eq};
ghost use Rattle.std.specs.List.{position};
ghost use Rattle.std.specs.Option.{option_copied};
ghost use Rattle.acsl_terms.specs.Meaning.{stands_for};
ghost use Rattle.acsl_terms.specs.Names.{object_of};
ghost use Rattle.acsl_terms.specs.inner.Sights.{context_of};

use crate::view::{Meant, View};
use c_ir::{InScope, InScopes};
use fc_base::Name;
use shared_list::SharedList;
use std::alloc::AllocError;

/// The number of `\forall` between a name and the one that binds it, of the names that are bound there, the innermost
/// first; `None` where none binds it. An error says that there are 2^32 `\forall` between.
#[tactic(auto, using(crate::proofs::Newest::from_start))]
fn bound_place(bound: &SharedList<Name>, name: &Name) -> Result<Option<u32>, AllocError>
    ensures { IfOk result (λ n. n ≡ position (λ y. bytes_eq name.now y) bound.now) }
{
    let mut left = bound;
    let mut between: u32 = 0;
    'walk: while let Some((next, older)) = left.split() {
        if name.as_str() == next.as_str() {
            return Ok(Some(between));
        }
        between = match between.checked_add(1) {
            Some(more) => more,
            None => return Err(AllocError),
        };
        left = older;
    }
    Ok(None)
}

/// The newest of these declarations that has the name.
fn newest<'a>(declared: &'a SharedList<InScope>, name: &Name) -> Option<&'a InScope>
    ensures { option_copied result ≡ object_of name.now declared.now }
{
    let mut left = declared;
    'walk: while let Some((next, older)) = left.split() {
        if name.as_str() == next.name.as_str() {
            return Some(next);
        }
        left = older;
    }
    None
}

/// The object of this name.
#[tactic(auto, using(crate::proofs::Newest::newest_is))]
pub(crate) fn object<'a>(names: &'a InScopes, name: &Name) -> Option<&'a InScope>
    ensures { option_copied result ≡ object_of name.now names.now }
{
    newest(names.declared(), name)
}

/// Where a formula stands: the objects that it can name, what its clause sees, and the names that `\forall`s bind, the
/// innermost first.
#[derive(Clone, Copy)]
pub(crate) struct Sight<'a> {
    pub(crate) names: &'a InScopes,
    pub(crate) view: &'a View,
    pub(crate) bound: &'a SharedList<Name>,
}

impl Sight<'_> {
    /// What a name stands for.
    #[tactic(auto, unfolding(crate::specs::Names::meant))]
    pub(crate) fn meant(&self, name: &Name) -> Result<Meant, AllocError>
        ensures { IfOk result (λ m. m ≡ stands_for (context_of self.now) name.now) }
    {
        if let Some(between) = bound_place(self.bound, name)? {
            return Ok(Meant::Bound(between));
        }
        match object(self.names, name) {
            None => Ok(Meant::Nothing),
            Some(object) => Ok(Meant::Object {
                first: object.first,
                length: object.length,
            }),
        }
    }
}
