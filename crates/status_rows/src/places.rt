//! Places of entries in a history, where changes count from 1.

ghost use Rattle.std.specs.Prelude.{◌≡◌, ◌++◌, ◌∷◌, [], IfOk, OnOk, filter, map, not, option_map};
ghost use Rattle.status_rules.specs.Counting.{counted_of};
ghost use Rattle.status_rules.specs.inner.ByProp.{entries_in, placed};
ghost use Rattle.status_rows.specs.Places.{PlacesAre, is_of, placed_at, with_place};
ghost use Rattle.status_rows.specs.inner.Counted.{places_in};

use c_ir::PropTable;
use fc_base::EmitterId;
use sqlite_items::at;
use status_history::{Change, History};
use status_rules::{CountedEntry, counted_by_prop};
use std::alloc::{AllocError, Global};

/// The entry at a place; None exactly where the change there brings none, or there is no such change.
pub fn placed_at(changes: &[Change], place: usize) -> Option<CountedEntry>
    ensures { option_map placed result ≡ placed_at changes.now place }
{
    match at(changes, place.saturating_sub(1)) {
        Some(Change::Emit(entry)) => Some(CountedEntry { place, entry }),
        Some(Change::Register { .. } | Change::Param { .. }) | None => None,
    }
}

/// These places without those of an emitter's entries, and one more at the end.
pub fn with_place(
    alloc: Global,
    changes: &[Change],
    old: &[usize],
    emitter: EmitterId,
    place: usize,
) -> Result<Vec<usize>, AllocError>
    ensures { IfOk result (λ ks. ks.items ≡ with_place changes.now emitter.0 place old.now) }
{
    let mut places = Vec::new(alloc);
    for one in old {
        push_if_other(&mut places, changes, emitter, *one)?;
    }
    places.push(place)?;
    Ok(places)
}

/// Adds a place, unless the entry there is of an emitter.
fn push_if_other(
    places: &mut Vec<usize>,
    changes: &[Change],
    emitter: EmitterId,
    place: usize,
) -> Result<(), AllocError>
    ensures { OnOk result (places.new.items ≡ places.old.items ++ filter (λ x. not (is_of changes.now emitter.0 x)) (place ∷ [])) }
{
    if !is_of(changes, emitter, place) {
        places.push(place)?;
    }
    Ok(())
}

/// Whether the entry at a place is of an emitter.
fn is_of(changes: &[Change], emitter: EmitterId, place: usize) -> bool
    ensures { result ≡ is_of changes.now emitter.0 place }
{
    match placed_at(changes, place) {
        Some(found) => found.entry.emitter.0 == emitter.0,
        None => false,
    }
}

/// For each property of a table, by its number, the places of the entries on it that count.
pub fn counted_places(
    alloc: Global,
    history: &History,
    props: &PropTable,
) -> Result<Vec<Vec<usize>>, AllocError>
    ensures { IfOk result (λ lists. PlacesAre history.now.changes lists.items (counted_of history.now) props.now.rows) }
{
    let entries = counted_by_prop(alloc, history, props)?;
    let lists = all_places(alloc, &entries)?;
    Ok(lists)
}

/// The places of the entries of each list.
fn all_places(alloc: Global, entries: &[Vec<CountedEntry>]) -> Result<Vec<Vec<usize>>, AllocError>
    ensures { IfOk result (λ lists. map (λ b. b.items) lists.items ≡ map places_in entries.now) }
{
    let mut lists = Vec::new(alloc);
    for list in entries {
        lists.push(places_of(alloc, list)?)?;
    }
    Ok(lists)
}

/// The places of these entries.
fn places_of(alloc: Global, entries: &[CountedEntry]) -> Result<Vec<usize>, AllocError>
    ensures { IfOk result (λ ks. ks.items ≡ map (λ e. e.place) entries.now) }
{
    let mut places = Vec::new(alloc);
    for found in entries {
        places.push(found.place)?;
    }
    Ok(places)
}
