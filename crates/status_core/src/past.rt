//! What a table keeps of the changes that set a parameter or register an emitter.

ghost use Rattle.std.specs.Prelude.{◌≡◌, [], ◌∷◌, ◌++◌, IfOk, OnOk, ℕ, bytes_eq, slice_get, unwrap_or};
ghost use Rattle.std.specs.List.{list_any};
ghost use Rattle.status_history.specs.Values.{sets_registered};
ghost use Rattle.status_history.specs.declared.history.History.{History};
ghost use Rattle.status_rules.specs.Counting.{is_current, sets_of};
ghost use Rattle.status_rules.specs.Judge.{names_registered};
ghost use Rattle.status_rules.specs.inner.ByProp.{placed};
ghost use Rattle.status_core.specs.inner.Kept.{IsPast};

use fc_base::{EmitterId, Name, ParamSet, ParamValues};
use param_book::{agree, own_sets};
use sqlite_items::{Items, at};
use status_history::{Change, Entry, History};
use std::alloc::{AllocError, Global};

/// The values of the parameters at each version and at the end, the correctness sets of all emitters by number, and
/// the names of those that are registered.
#[derive(Drop)]
pub(crate) struct Past {
    pub(crate) versions: Vec<ParamValues>,
    pub(crate) now: ParamValues,
    pub(crate) sets: Vec<ParamSet>,
    pub(crate) taken: Items<Name>,
}

impl Past {
    /// What is kept of a history.
    pub(crate) fn of(alloc: Global, history: &History) -> Result<Past, AllocError>
        ensures { IfOk result (λ p. IsPast history.now p.versions.items p.now p.sets.items p.taken) }
    {
        Ok(Past {
            versions: history.values_by_version(alloc)?,
            now: history.values(),
            sets: all_sets(alloc, history.changes.as_slice())?,
            taken: all_names(alloc, history.changes.as_slice())?,
        })
    }

    /// Whether an entry is current.
    pub(crate) fn is_current(&self, entry: &Entry) -> bool
        ensures { (h : History) (place : ℕ) → IsPast h self.entry.now.versions.items self.entry.now.now self.entry.now.sets.items self.entry.now.taken → result ≡ is_current h (record { place = place; entry = entry.now }) }
    {
        let set = item_or(self.sets.as_slice(), entry.emitter.0 as usize, ParamSet(0));
        let then = item_or(self.versions.as_slice(), entry.version as usize, self.now);
        agree(set, &then, &self.now)
    }

    /// Whether an emitter is registered under a name.
    pub(crate) fn has_name(&self, name: &str) -> bool
        ensures { result ≡ list_any (bytes_eq name.now) self.entry.now.taken }
    {
        for taken in self.taken.as_slice() {
            if name == taken.as_str() {
                return true;
            }
        }
        false
    }
}

/// The item at a place, and another, where there is none.
fn item_or<T: Copy>(items: &[T], place: usize, other: T) -> T
    ensures { result ≡ unwrap_or (slice_get items.now place) other }
{
    match at(items, place) {
        Some(item) => *item,
        None => other,
    }
}

/// The correctness sets of all emitters, by number.
fn all_sets(alloc: Global, changes: &[Change]) -> Result<Vec<ParamSet>, AllocError>
    ensures { IfOk result (λ sets. sets.items ≡ sets_of changes.now) }
{
    let mut sets = Vec::from_slice(alloc, &own_sets())?;
    for change in changes {
        push_set(&mut sets, change)?;
    }
    Ok(sets)
}

/// Adds the correctness set of a registration.
fn push_set(sets: &mut Vec<ParamSet>, change: &Change) -> Result<(), AllocError>
    ensures { OnOk result (sets.new.items ≡ sets.old.items ++ sets_registered (change.now ∷ [])) }
{
    if let Change::Register { correctness, .. } = change {
        sets.push(*correctness)?;
    }
    Ok(())
}

/// The names of the emitters that are registered.
fn all_names(alloc: Global, changes: &[Change]) -> Result<Items<Name>, AllocError>
    ensures { IfOk result (λ taken. taken ≡ names_registered changes.now) }
{
    let mut taken = Items::new(alloc);
    for change in changes {
        push_name(alloc, &mut taken, change)?;
    }
    Ok(taken)
}

/// Adds the name of a registration.
fn push_name(alloc: Global, taken: &mut Items<Name>, change: &Change) -> Result<(), AllocError>
    ensures { OnOk result (taken.new ≡ taken.old ++ names_registered (change.now ∷ [])) }
{
    if let Change::Register { name, .. } = change {
        taken.push(name.copy(alloc)?)?;
    }
    Ok(())
}
