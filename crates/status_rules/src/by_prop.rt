//! The counted entries on each property.

ghost use Rattle.std.specs.Prelude.{◌≡◌, List, [], ◌∷◌, IfOk, OnOk, map, length, slice_set, slice_index_or, if◌then◌else◌};
ghost use Rattle.std.specs.List.{list_any};
ghost use Rattle.status_rules.specs.Counting.{last_of_each, is_same_emitter};
ghost use Rattle.status_rules.specs.Holds.{is_on, at_each, by_prop};
ghost use Rattle.status_rules.specs.inner.ByProp.{entries_in, placed, with_entry};

use crate::counting::CountedEntry;
use c_ir::Prop;
use std::alloc::{AllocError, Global};

/// For each property, by its number, the entries on it that count.
pub(crate) type EntriesByProp<'h> = Vec<Vec<CountedEntry<'h>>>;

/// For each of these properties the last entry of each emitter on it.
pub(crate) fn last_by_prop<'h>(
    alloc: Global,
    entries: &[CountedEntry<'h>],
    rows: &[Prop],
) -> Result<EntriesByProp<'h>, AllocError>
    ensures { IfOk result (λ l. entries_in l ≡ by_prop (last_of_each (map placed entries.now)) rows.now) }
{
    let mut lists = empty_lists(alloc, rows)?;
    let mut left = entries.len();
    while 0 < left {
        left -= 1;
        note_at(&mut lists, entries[left])?;
    }
    Ok(lists)
}

/// An empty list for each of these properties.
#[tactic(auto, using(crate::proofs::Each::at_each_more))]
fn empty_lists<'h>(alloc: Global, rows: &[Prop]) -> Result<EntriesByProp<'h>, AllocError>
    ensures { IfOk result (λ l. entries_in l ≡ by_prop [] rows.now) }
{
    let mut lists = Vec::new(alloc);
    for _row in rows {
        lists.push(Vec::new(alloc))?;
    }
    Ok(lists)
}

/// Notes an entry that comes before those noted, at its property, if there is none of its emitter.
fn note_at<'h>(lists: &mut EntriesByProp<'h>, found: CountedEntry<'h>) -> Result<(), AllocError>
    ensures { OnOk result (entries_in lists.new ≡ slice_set (entries_in lists.old) found.entry.entry.now.prop.0 (with_entry (placed found.entry) (slice_index_or (entries_in lists.old) found.entry.entry.now.prop.0 []))) }
{
    if let Some(list) = lists.get_mut(found.entry.prop.0 as usize) {
        note(list, found)?;
    }
    Ok(())
}

/// Notes an entry in front of the others, if there is none of its emitter.
fn note<'h>(list: &mut Vec<CountedEntry<'h>>, found: CountedEntry<'h>) -> Result<(), AllocError>
    ensures { OnOk result (map placed list.new.items ≡ with_entry (placed found.entry) (map placed list.old.items)) }
{
    if !has_emitter(list, found) {
        list.insert(0, found)?;
    }
    Ok(())
}

/// Whether one of these entries is of the emitter of another.
fn has_emitter(entries: &[CountedEntry], other: CountedEntry) -> bool
    ensures { result ≡ list_any (is_same_emitter (placed other.entry)) (map placed entries.now) }
{
    for found in entries {
        if found.entry.emitter.0 == other.entry.emitter.0 {
            return true;
        }
    }
    false
}
