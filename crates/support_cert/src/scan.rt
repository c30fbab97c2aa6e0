//! Counted entries and what properties are, found in the history and the table without taking memory.

ghost use Rattle.std.specs.Prelude.{◌≡◌, ◌≤◌, Option, Some, None, drop, length, if◌then◌else◌};
ghost use Rattle.std.specs.List.{list_all};
ghost use Rattle.std.specs.Option.{option_copied};
ghost use Rattle.status_history.specs.Values.{values_now};
ghost use Rattle.status_rules.specs.Counting.{is_current};
ghost use Rattle.status_rules.specs.Holds.{basis_of, is_admitted, nothing};
ghost use Rattle.support_cert.specs.inner.Scanned.{at_place, counted_at, entry_in, is_later, is_replaced, live_dead, says_true, some_entry, true_at, unless_replaced};

use crate::past::{set_of, values_at};
use c_ir::PropTable;
use fc_base::{LocalStatus, ParamValues, PropId};
use param_book::{ENTRY_FUNCTION, agree};
use sqlite_items::at;
use status_history::{Change, Entry, History};

/// A history and a table, with the values of the parameters at the end.
#[derive(Drop)]
pub(crate) struct Scan<'a> {
    pub(crate) history: &'a History,
    pub(crate) props: &'a PropTable,
    pub(crate) values: ParamValues,
    ghost values_are: { values ≡ values_now history.now },
}

impl<'a> Scan<'a> {
    /// Whether an entry is current.
    fn is_current(&self, entry: &Entry) -> bool
        ensures { result ≡ is_current self.entry.now.history.now (at_place 0 entry.now) }
    {
        let set = set_of(self.history, entry.emitter);
        agree(set, &values_at(self.history, entry.version), &self.values)
    }

    /// Whether another entry is a current one of the same emitter and on the same property.
    fn is_later(&self, entry: &Entry, other: &Entry) -> bool
        ensures { result ≡ is_later self.entry.now.history.now entry.now other.now }
    {
        other.prop.0 == entry.prop.0 && other.emitter.0 == entry.emitter.0 && self.is_current(other)
    }

    /// Whether a change brings such an entry.
    fn replaces(&self, entry: &Entry, change: &Change) -> bool
        ensures { result ≡ some_entry (is_later self.entry.now.history.now entry.now) (entry_in change.now) }
    {
        match change {
            Change::Emit(other) => self.is_later(entry, other),
            Change::Register { .. } | Change::Param { .. } => false,
        }
    }

    /// Whether one of these changes does.
    fn is_replaced(&self, entry: &Entry, later: &[Change]) -> bool
        ensures { result ≡ is_replaced self.entry.now.history.now entry.now later.now }
    {
        for change in later {
            if self.replaces(entry, change) {
                return true;
            }
        }
        false
    }

    /// The entry, if it is current and none of these later changes replaces it.
    fn unless_replaced<'e>(&self, entry: &'e Entry, later: &[Change]) -> Option<&'e Entry>
        ensures { option_copied result ≡ unless_replaced self.entry.now.history.now later.now entry.now }
    {
        if self.is_current(entry) && !self.is_replaced(entry, later) {
            Some(entry)
        } else {
            None
        }
    }

    /// The entry at a place, if it counts.
    fn counted_at(&self, place: u32) -> Option<&'a Entry>
        ensures { option_copied result ≡ counted_at self.entry.now.history.now place }
    {
        if place == 0 {
            return None;
        }
        let changes = self.history.changes.as_slice();
        match at(changes, place as usize - 1) {
            Some(Change::Emit(entry)) => self.unless_replaced(entry, changes_after(changes, place)),
            Some(Change::Register { .. } | Change::Param { .. }) | None => None,
        }
    }

    /// The entry at a place, if it is a counted True entry on this property.
    pub(crate) fn true_at(&self, prop: PropId, place: u32) -> Option<&'a Entry>
        ensures { option_copied result ≡ true_at self.entry.now.history.now self.entry.now.props.now prop.0 place }
    {
        if !self.props.contains(prop) {
            return None;
        }
        match self.counted_at(place) {
            Some(entry) => if_says_true(entry, prop),
            None => None,
        }
    }

    /// Whether a property is admitted.
    pub(crate) fn is_admitted(&self, prop: PropId) -> bool
        ensures { result ≡ is_admitted (basis_of self.entry.now.history.now self.entry.now.props.now) prop.0 }
    {
        match at(self.props.rows(), prop.0 as usize) {
            Some(row) => self.props.admits(row, self.values.get(ENTRY_FUNCTION)),
            None => false,
        }
    }

    /// The property of kind Dead at the point of one of another kind.
    pub(crate) fn live_dead(&self, prop: PropId) -> Option<PropId>
        ensures { result ≡ live_dead self.entry.now.props.now prop.0 }
    {
        live_dead(self.props, prop)
    }
}

/// The changes after the first ones, which are this many.
fn changes_after(changes: &[Change], count: u32) -> &[Change]
    requires { count ≤ length changes.now }
    ensures { result.now ≡ drop count changes.now }
{
    let (_, later) = changes.split_at(count as usize);
    later
}

/// The entry, if it is a True one on a property.
fn if_says_true(entry: &Entry, prop: PropId) -> Option<&Entry>
    ensures { option_copied result ≡ (if says_true prop.0 entry.now then Some entry.now else None) }
{
    if entry.prop.0 == prop.0 && entry.status == LocalStatus::True {
        Some(entry)
    } else {
        None
    }
}

/// The property of kind Dead at the point of one of another kind.
pub(crate) fn live_dead(props: &PropTable, prop: PropId) -> Option<PropId>
    ensures { result ≡ live_dead props.now prop.0 }
{
    if props.contains(prop) && props.is_live(prop) {
        props.dead_of(prop)
    } else {
        None
    }
}

/// Whether a list of hypotheses is empty.
pub(crate) fn has_none(hyps: &[PropId]) -> bool
    ensures { result ≡ list_all (λ q. nothing q.0) hyps.now }
{
    hyps.split_first().is_none()
}
