//! Lists of numbers, one for each key.

ghost use Rattle.std.specs.Prelude.{◌≡◌, ◌<◌, [], ◌++◌, ◌∷◌, ℕ, List, length, get_or, set, replicate, IfOk, OnOk};
ghost use Rattle.by_key.specs.Keys.{Groups};

use sqlite_items::Items;
use std::alloc::{AllocError, Global};
use std::marker::Model;

/// A number with its key.
#[derive(Clone, Copy, Debug)]
pub struct Keyed {
    pub key: u32,
    pub number: u32,
}

/// For each key the numbers with that key, in order.
#[derive(Debug, Drop)]
pub struct ByKey {
    lists: Vec<Items<u32>>,
}

impl Model for ByKey {
    ghost use Rattle.std.specs.Prelude.{List, ℕ};

    ghost Value = { List (List ℕ) };

    ghost view = { λ b. b.lists.items };
}

impl ByKey {
    /// The numbers by their keys, where keys go from 0 up to below `keys`; numbers of other keys are left out.
    pub fn new(alloc: Global, keys: usize, all: &[Keyed]) -> Result<ByKey, AllocError>
        ensures { IfOk result (λ b. Groups b keys all.now) }
    {
        let mut lists = ByKey::empty(alloc, keys)?;
        for keyed in all {
            lists.add(*keyed)?;
        }
        Ok(lists)
    }

    /// No number for so many keys.
    fn empty(alloc: Global, keys: usize) -> Result<ByKey, AllocError>
        ensures { IfOk result (λ b. b ≡ replicate keys []) }
    {
        let mut lists = Vec::new(alloc);
        for _key in 0..keys {
            lists.push(Items::new(alloc))?;
        }
        Ok(ByKey { lists })
    }

    /// Adds a number to those of its key, if that is one of the keys.
    fn add(&mut self, keyed: Keyed) -> Result<(), AllocError>
        ensures { OnOk result (self.new ≡ set self.old keyed.key (get_or self.old keyed.key [] ++ keyed.number ∷ [])) }
    {
        let key = keyed.key as usize;
        if key < self.lists.len() {
            self.lists[key].push(keyed.number)?;
        }
        Ok(())
    }

    /// The numbers with a key; none with a key that isn't one of them.
    pub fn at(&self, key: u32) -> &[u32]
        ensures { result.now ≡ get_or self.now key [] }
    {
        match self.lists.get(key as usize) {
            Some(list) => list.as_slice(),
            None => &[],
        }
    }
}
