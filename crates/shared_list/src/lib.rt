//! An immutable list whose tails are shared: lists that differ by a few items at their ends take the memory
//! of those items alone, and a list is shared in constant time.
#![tactic(auto)]

ghost use Rattle.std.specs.Prelude.{◌≡◌, ◌<◌, [], ◌∷◌, length, IfOk, IfSome, MatchOption, IsTrue, ◌↔◌};

#[cfg(test)]
mod tests;

use std::alloc::{AllocError, Global};
use std::marker::Model;
use std::rc::Rc;

/// A list to which items are added at one end, and which shares its older items with the lists that it was
/// made from. Contracts see it as the list of its items, the newest first. Its items never change, and it
/// stays in one thread.
#[cycle(list)]
#[derive(Debug)]
pub struct SharedList<T> {
    newest: Option<Rc<Link<T>>>,
}

/// An item with the list that it was added to.
#[cycle(list)]
#[derive(Debug, Drop)]
struct Link<T> {
    item: T,
    older: SharedList<T>,
}

impl<T> Model for SharedList<T> {
    ghost use Rattle.std.specs.Prelude.{List, length};
    ghost use Rattle.std.specs.Coded.{coded_list};

    ghost Value = { List T };

    ghost coded = { coded_list T.code };

    ghost use Rattle.shared_list.specs.inner.Chain.{items};

    ghost view = { λ l. items l.newest };

    ghost size = { length };

    ghost use Rattle.std.proofs.Common.{arith};

    ghost size_decreases = { λ l h. Prim.grind arith };
}

impl<T> SharedList<T> {
    /// The empty list. It takes no memory.
    pub fn new() -> SharedList<T>
        ensures { result ≡ [] }
    {
        SharedList { newest: None }
    }

    /// Whether the list has no items.
    pub fn is_empty(&self) -> bool
        ensures { IsTrue result ↔ (self.now ≡ []) }
    {
        self.newest.is_none()
    }

    /// The newest item with the list that it was added to; `None` of the empty list. A walk over all items
    /// goes on with that list. It takes no memory.
    pub fn split(&self) -> Option<(&T, &SharedList<T>)>
        ensures value { MatchOption result (self.now ≡ []) (λ p. self.now ≡ p.0.now ∷ p.1.now) }
        ensures shorter { IfSome result (λ p. length p.1.now < length self.now) }
    {
        match &self.newest {
            None => None,
            Some(link) => Some((&link.item, &link.older)),
        }
    }
}

impl<T: Drop> SharedList<T> {
    /// The list with one more item, which is its newest. It takes the memory of that item alone, in constant
    /// time. An error says that there is no memory; the list and the item are then dropped.
    pub fn with(self, alloc: Global, item: T) -> Result<SharedList<T>, AllocError>
        ensures { IfOk result (λ l. l ≡ item ∷ self) }
    {
        match Rc::new(alloc, Link { item, older: self }) {
            Ok(link) => Ok(SharedList { newest: Some(link) }),
            Err(_) => Err(AllocError),
        }
    }

    /// The same list again, in constant time and with no memory taken. An error says that the list has as
    /// many owners as can be counted, which is 2^64 - 1.
    pub fn share(&self) -> Result<SharedList<T>, AllocError>
        ensures { IfOk result (λ l. l ≡ self.now) }
    {
        match &self.newest {
            None => Ok(SharedList::new()),
            Some(link) => Ok(SharedList {
                newest: Some(link.clone()?),
            }),
        }
    }
}

/// The items that no other list shares are dropped in a loop, so a long list needs no large stack.
impl<T: Drop> Drop for SharedList<T> {
    fn drop(mut self) {
        loop {
            let SharedList { newest } = self;
            match newest {
                None => return,
                Some(link) => match Rc::into_inner(link) {
                    None => return,
                    Some(Link { item, older }) => {
                        drop(item);
                        self = older;
                    }
                },
            }
        }
    }
}
