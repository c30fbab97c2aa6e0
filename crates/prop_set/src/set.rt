//! A set of properties.

ghost use Rattle.std.specs.Prelude.{◌≡◌, ◌↔◌, [], length, IsTrue, IfOk, OnOk, OnErr};
ghost use Rattle.prop_set.specs.Sets.{IsRising, is_member, is_within, prop_ids, union, with_member};

use crate::words;
use fc_base::PropId;
use sqlite_items::Items;
use std::alloc::{AllocError, Global};
use std::marker::Model;

/// A set of properties, which contracts see as the list of their numbers in rising order.
#[derive(Debug, Drop)]
pub struct PropSet {
    words: Items<u64>,
}

impl Model for PropSet {
    ghost use Rattle.std.specs.Prelude.{List, ℕ, ◌≤◌, length};

    ghost Value = { List ℕ };

    ghost use Rattle.prop_set.specs.inner.Words.{members_of};

    ghost view = { λ s. members_of s.words };

    ghost invariant = { λ s. length s.words ≤ 67108864 };
}

impl PropSet {
    /// No property.
    pub fn new(alloc: Global) -> PropSet
        ensures { result ≡ [] }
    {
        PropSet {
            words: Items::new(alloc),
        }
    }

    /// A fact for callers: the numbers rise.
    pub fn rises(&self)
        ensures { IsRising self.now }
    {
        let _words = &self.words;
    }

    /// Whether a property is in the set.
    pub fn contains(&self, prop: PropId) -> bool
        ensures { result ≡ is_member prop.0 self.now }
    {
        words::has(self.words.as_slice(), prop.0)
    }

    /// Puts a property into the set.
    pub fn insert(&mut self, prop: PropId) -> Result<(), AllocError>
        ensures added { OnOk result (self.new ≡ with_member prop.0 self.old) }
        ensures unchanged { OnErr result (self.new ≡ self.old) }
    {
        words::extend(&mut self.words, prop.0 as usize / 64 + 1)?;
        words::add(&mut self.words, prop.0);
        Ok(())
    }

    /// Puts all properties of another set into this one.
    pub fn join(&mut self, other: &PropSet) -> Result<(), AllocError>
        ensures joined { OnOk result (self.new ≡ union self.old other.now) }
        ensures unchanged { OnErr result (self.new ≡ self.old) }
    {
        let more = other.words.as_slice();
        words::extend(&mut self.words, more.len())?;
        words::add_all(&mut self.words, more);
        Ok(())
    }

    /// The same set again.
    pub fn copy(&self, alloc: Global) -> Result<PropSet, AllocError>
        ensures { IfOk result (λ s. s ≡ self.now) }
    {
        let words = Items::from_slice(alloc, self.words.as_slice())?;
        Ok(PropSet { words })
    }

    /// Whether the sets have the same properties.
    pub fn same(&self, other: &PropSet) -> bool
        ensures { IsTrue result ↔ (self.now ≡ other.now) }
    {
        words::are_same(self.words.as_slice(), other.words.as_slice())
    }

    /// Whether each property of this set is in the other.
    pub fn is_within(&self, other: &PropSet) -> bool
        ensures { result ≡ is_within self.now other.now }
    {
        words::are_within(self.words.as_slice(), other.words.as_slice())
    }

    /// How many properties are in the set.
    pub fn len(&self) -> usize
        ensures { result ≡ length self.now }
    {
        words::count(self.words.as_slice())
    }

    /// The properties by rising numbers.
    pub fn props(&self, alloc: Global) -> Result<Items<PropId>, AllocError>
        ensures { IfOk result (λ ps. ps ≡ prop_ids self.now) }
    {
        words::props(alloc, self.words.as_slice())
    }
}
