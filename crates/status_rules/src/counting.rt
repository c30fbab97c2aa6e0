//! Which entries are current.

ghost use Rattle.std.specs.Prelude.{◌≡◌, [], ◌∷◌, ◌++◌, ◌+◌, ◌<◌, ◌≤◌, ◌^◌, IfOk, OnOk, map, filter, slice_get, unwrap_or, length};
ghost use Rattle.status_history.specs.Values.{params_set, all_values, values_of, values_now, sets_registered};
ghost use Rattle.status_rules.specs.Counting.{is_current, current_of, entries_from, set_of, sets_of};
ghost use Rattle.status_rules.specs.inner.ByProp.{placed};

use fc_base::{EmitterId, ParamSet, ParamValues};
use param_book::{agree, own_sets};
use sqlite_items::at;
use status_history::{Change, Entry, History};
use std::alloc::{AllocError, Global};

/// An entry and its place in the history, where changes count from 1.
#[derive(Clone, Copy)]
pub struct CountedEntry<'h> {
    pub place: usize,
    pub entry: &'h Entry,
}

/// The current entries of a history, in order: those whose emitter rests on no parameter that was changed since
/// their version, or whose value is again what it was.
pub fn current(alloc: Global, history: &History) -> Result<Vec<CountedEntry>, AllocError>
    ensures { IfOk result (λ es. map placed es.items ≡ current_of history.now) }
{
    let past = Past {
        history,
        versions: history.values_by_version(alloc)?,
        now: history.values(),
        sets: all_sets(alloc, history)?,
    };
    let mut entries = Vec::new(alloc);
    for (index, change) in history.changes.as_slice().iter().enumerate() {
        push_if_current(&mut entries, change, index + 1, &past)?;
    }
    Ok(entries)
}

/// A history with the values of each version and the correctness sets of all emitters.
#[derive(Drop)]
struct Past<'h> {
    history: &'h History,
    versions: Vec<ParamValues>,
    now: ParamValues,
    sets: Vec<ParamSet>,
    ghost versions_are: { versions.items ≡ all_values history.now.opening (params_set history.now.changes) },
    ghost now_is: { now ≡ values_now history.now },
    ghost sets_are: { sets.items ≡ sets_of history.now.changes },
}

impl Past<'_> {
    /// Whether an entry is current.
    fn is_current(&self, found: CountedEntry) -> bool
        ensures { result ≡ is_current self.entry.now.history.now (placed found.entry) }
    {
        let set = self.set(found.entry.emitter);
        let then = self.values_at(found.entry.version);
        agree(set, &then, &self.now)
    }

    /// The values of the parameters at a version; at the end, where there is no such version.
    fn values_at(&self, version: u32) -> ParamValues
        ensures { result ≡ values_of self.entry.now.history.now version }
    {
        item_or(self.versions.as_slice(), version as usize, self.now)
    }

    /// The correctness set of an emitter.
    fn set(&self, emitter: EmitterId) -> ParamSet
        ensures { result ≡ set_of self.entry.now.history.now.changes emitter.0 }
    {
        item_or(self.sets.as_slice(), emitter.0 as usize, ParamSet(0))
    }
}

/// The item at a place, and another, where there is none.
fn item_or<T: Copy>(items: &[T], place: usize, other: T) -> T
    ensures { result ≡ unwrap_or (slice_get items.now place) other }
{
    match at(items, place) {
        Some(item) => *item,
        None => other,
    }
}

/// Adds the entry of an Emit change, which has this place, if it is current.
fn push_if_current<'h>(
    entries: &mut Vec<CountedEntry<'h>>,
    change: &'h Change,
    place: usize,
    past: &Past,
) -> Result<(), AllocError>
    ensures { OnOk result (map placed entries.new.items ≡ map placed entries.old.items ++ filter (is_current past.entry.now.history.now) (entries_from place (change.now ∷ []))) }
{
    if let Change::Emit(entry) = change {
        let found = CountedEntry { place, entry };
        if past.is_current(found) {
            entries.push(found)?;
        }
    }
    Ok(())
}

/// The correctness sets of all emitters, by number.
fn all_sets(alloc: Global, history: &History) -> Result<Vec<ParamSet>, AllocError>
    ensures { IfOk result (λ sets. sets.items ≡ sets_of history.now.changes) }
{
    let mut sets = Vec::from_slice(alloc, &own_sets())?;
    for change in history.changes.as_slice() {
        push_set(&mut sets, change)?;
    }
    Ok(sets)
}

/// Adds the correctness set of a Register change.
fn push_set(sets: &mut Vec<ParamSet>, change: &Change) -> Result<(), AllocError>
    ensures { OnOk result (sets.new.items ≡ sets.old.items ++ sets_registered (change.now ∷ [])) }
{
    if let Change::Register { correctness, .. } = change {
        sets.push(*correctness)?;
    }
    Ok(())
}
