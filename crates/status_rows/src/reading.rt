//! The verdict of one property, read from the places of the counted entries.

ghost use Rattle.std.specs.Prelude.{◌≡◌, ◌<◌, ◌||◌, Some, map, length};
ghost use Rattle.std.specs.List.{list_all};
ghost use Rattle.status_history.specs.Values.{values_now};
ghost use Rattle.status_rules.specs.Counting.{counted_of};
ghost use Rattle.status_rules.specs.Holds.{basis_of, dead_passes, entries_on, is_admitted, is_claimed, is_held, is_supported, is_sure, nothing, same_status, some_prop, supports};
ghost use Rattle.status_rules.specs.Verdicts.{inputs_of, is_refuted, is_unvisited, verdict_of};
ghost use Rattle.status_rules.specs.inner.ByProp.{placed};
ghost use Rattle.status_rows.specs.Places.{PlacesAre, any_at, has_place, placed_at, some_placed};
ghost use Rattle.c_ir.specs.Table.{dead_of};
ghost use Rattle.fc_base.specs.declared.status.LocalStatus.TheVariants as Status;

use crate::places::placed_at;
use c_ir::PropTable;
use fc_base::{LocalStatus, ParamValues, PropId, Verdict};
use param_book::ENTRY_FUNCTION;
use sqlite_items::at;
use status_history::{Change, History};
use status_rules::VerdictInputs;

/// What the verdicts of a history are read from: the places of the entries that count, by property, and the values of
/// the parameters at the end.
#[derive(Drop)]
pub struct Reading<'t> {
    pub history: &'t History,
    pub props: &'t PropTable,
    pub places: &'t [Vec<usize>],
    pub values: &'t ParamValues,
    ghost places_are: { PlacesAre history.now.changes places.now (counted_of history.now) props.now.rows },
    ghost values_are: { values.now ≡ values_now history.now },
}

impl<'t> Reading<'t> {
    /// The verdict of a property of the table.
    pub fn verdict(&self, prop: PropId) -> Verdict
        requires { prop.0 < length self.now.props.now.rows }
        ensures { result ≡ verdict_of (basis_of self.now.history.now self.now.props.now) prop.0 }
    {
        self.inputs(prop).verdict()
    }

    /// What the verdict of a property is read from.
    fn inputs(&self, prop: PropId) -> VerdictInputs
        requires { prop.0 < length self.now.props.now.rows }
        ensures { result ≡ inputs_of (basis_of self.now.history.now self.now.props.now) prop.0 }
    {
        let places = self.places_on(prop);
        VerdictInputs {
            admitted: self.is_admitted(prop),
            held: self.is_held(prop),
            refuted: self.is_refuted(prop),
            unvisited: self.is_unvisited(prop),
            proven: self.is_supported(LocalStatus::True, prop),
            disproven: self.is_supported(LocalStatus::FalseIfReachable, prop),
            tried: has_place(places),
            said_true: self.has_said(LocalStatus::True, places),
            said_false: self.has_said_false(places),
        }
    }

    /// The places of the counted entries on a property.
    fn places_on(&self, prop: PropId) -> &'t [usize]
        ensures { map (placed_at self.now.history.now.changes) result.now ≡ map (λ e. Some e) (entries_on (basis_of self.now.history.now self.now.props.now) prop.0) }
    {
        match self.places.get(prop.0 as usize) {
            Some(list) => list.as_slice(),
            None => &[],
        }
    }

    /// Whether a property is admitted.
    fn is_admitted(&self, prop: PropId) -> bool
        ensures { result ≡ is_admitted (basis_of self.now.history.now self.now.props.now) prop.0 }
    {
        match at(self.props.rows(), prop.0 as usize) {
            Some(row) => self.props.admits(row, self.values.get(ENTRY_FUNCTION)),
            None => false,
        }
    }

    /// Whether a property has a counted True entry without hypotheses.
    fn is_plain(&self, prop: PropId) -> bool
        ensures { result ≡ is_claimed Status.True nothing (basis_of self.now.history.now self.now.props.now) prop.0 }
    {
        any_plain(self.history.changes.as_slice(), self.places_on(prop))
    }

    /// Whether a property is sure.
    fn is_sure(&self, prop: PropId) -> bool
        ensures { result ≡ is_sure (basis_of self.now.history.now self.now.props.now) prop.0 }
    {
        self.props.contains(prop)
            && (self.is_admitted(prop) || self.is_plain(prop) || self.is_behind_plain(prop))
    }

    /// Whether a property isn't of kind Dead, and the one of kind Dead at its point has such an entry.
    fn is_behind_plain(&self, prop: PropId) -> bool
        requires { prop.0 < length self.now.props.now.rows }
        ensures { result ≡ dead_passes self.now.props.now (is_claimed Status.True nothing (basis_of self.now.history.now self.now.props.now)) prop.0 }
    {
        self.props.is_live(prop)
            && match self.props.dead_of(prop) {
                Some(dead) => self.is_plain(dead),
                None => false,
            }
    }

    /// Whether a property has a counted entry with this status and with hypotheses that are all sure.
    fn is_supported(&self, status: LocalStatus, prop: PropId) -> bool
        ensures { result ≡ is_supported status (basis_of self.now.history.now self.now.props.now) prop.0 }
    {
        self.any_supports(status, self.places_on(prop))
    }

    /// Whether an entry at one of these places has this status and hypotheses that are all sure.
    fn any_supports(&self, status: LocalStatus, places: &[usize]) -> bool
        ensures { result ≡ any_at (supports status (is_sure (basis_of self.now.history.now self.now.props.now))) self.now.history.now.changes places.now }
    {
        for place in places {
            if self.supports_at(status, *place) {
                return true;
            }
        }
        false
    }

    /// Whether the entry at a place does.
    fn supports_at(&self, status: LocalStatus, place: usize) -> bool
        ensures { result ≡ some_placed (supports status (is_sure (basis_of self.now.history.now self.now.props.now))) (placed_at self.now.history.now.changes place) }
    {
        match placed_at(self.history.changes.as_slice(), place) {
            Some(found) => found.entry.status == status
                && self.all_sure(found.entry.hyps.as_slice()),
            None => false,
        }
    }

    /// Whether all these properties are sure.
    fn all_sure(&self, hyps: &[PropId]) -> bool
        ensures { result ≡ list_all (λ q. is_sure (basis_of self.now.history.now self.now.props.now) q.0) hyps.now }
    {
        for hyp in hyps {
            if !self.is_sure(*hyp) {
                return false;
            }
        }
        true
    }

    /// Whether a property holds.
    fn is_held(&self, prop: PropId) -> bool
        ensures { result ≡ is_held (basis_of self.now.history.now self.now.props.now) prop.0 }
    {
        self.props.contains(prop)
            && (self.is_sure(prop)
                || self.is_supported(LocalStatus::True, prop)
                || (self.props.is_live(prop) && self.dead_is_supported(LocalStatus::True, prop)))
    }

    /// Whether the property of kind Dead at the point of another has a counted entry with this status and with
    /// hypotheses that are all sure.
    fn dead_is_supported(&self, status: LocalStatus, prop: PropId) -> bool
        requires { prop.0 < length self.now.props.now.rows }
        ensures { result ≡ some_prop (is_supported status (basis_of self.now.history.now self.now.props.now)) (dead_of self.now.props.now.rows prop.0) }
    {
        match self.props.dead_of(prop) {
            Some(dead) => self.is_supported(status, dead),
            None => false,
        }
    }

    /// Whether it holds.
    fn dead_is_held(&self, prop: PropId) -> bool
        requires { prop.0 < length self.now.props.now.rows }
        ensures { result ≡ some_prop (is_held (basis_of self.now.history.now self.now.props.now)) (dead_of self.now.props.now.rows prop.0) }
    {
        match self.props.dead_of(prop) {
            Some(dead) => self.is_held(dead),
            None => false,
        }
    }

    /// Whether a property is refuted.
    fn is_refuted(&self, prop: PropId) -> bool
        requires { prop.0 < length self.now.props.now.rows }
        ensures { result ≡ is_refuted self.now.props.now (is_supported Status.FalseIfReachable (basis_of self.now.history.now self.now.props.now)) (is_supported Status.FalseAndReachable (basis_of self.now.history.now self.now.props.now)) prop.0 }
    {
        self.is_supported(LocalStatus::FalseAndReachable, prop)
            || (self.props.is_firm(prop)
                && self.is_supported(LocalStatus::FalseIfReachable, prop)
                && self.dead_is_supported(LocalStatus::FalseAndReachable, prop))
    }

    /// Whether a property is unvisited.
    fn is_unvisited(&self, prop: PropId) -> bool
        requires { prop.0 < length self.now.props.now.rows }
        ensures { result ≡ is_unvisited self.now.props.now (is_held (basis_of self.now.history.now self.now.props.now)) (is_supported Status.True (basis_of self.now.history.now self.now.props.now)) (is_supported Status.FalseIfReachable (basis_of self.now.history.now self.now.props.now)) prop.0 }
    {
        self.props.is_live(prop)
            && (self.dead_is_held(prop)
                || (self.is_supported(LocalStatus::True, prop)
                    && self.is_supported(LocalStatus::FalseIfReachable, prop)))
    }

    /// Whether an entry at one of these places is of FalseIfReachable or FalseAndReachable.
    fn has_said_false(&self, places: &[usize]) -> bool
        ensures { result ≡ (any_at (λ e. same_status e.entry.status Status.FalseIfReachable) self.now.history.now.changes places.now || any_at (λ e. same_status e.entry.status Status.FalseAndReachable) self.now.history.now.changes places.now) }
    {
        self.has_said(LocalStatus::FalseIfReachable, places)
            || self.has_said(LocalStatus::FalseAndReachable, places)
    }

    /// Whether an entry at one of these places has this status.
    fn has_said(&self, status: LocalStatus, places: &[usize]) -> bool
        ensures { result ≡ any_at (λ e. same_status e.entry.status status) self.now.history.now.changes places.now }
    {
        for place in places {
            if self.says_at(status, *place) {
                return true;
            }
        }
        false
    }

    /// Whether the entry at a place does.
    fn says_at(&self, status: LocalStatus, place: usize) -> bool
        ensures { result ≡ some_placed (λ e. same_status e.entry.status status) (placed_at self.now.history.now.changes place) }
    {
        match placed_at(self.history.changes.as_slice(), place) {
            Some(found) => found.entry.status == status,
            None => false,
        }
    }
}

/// Whether an entry at one of these places is a True one without hypotheses.
fn any_plain(changes: &[Change], places: &[usize]) -> bool
    ensures { result ≡ any_at (supports Status.True nothing) changes.now places.now }
{
    for place in places {
        if is_plain_at(changes, *place) {
            return true;
        }
    }
    false
}

/// Whether the entry at a place is one.
fn is_plain_at(changes: &[Change], place: usize) -> bool
    ensures { result ≡ some_placed (supports Status.True nothing) (placed_at changes.now place) }
{
    match placed_at(changes, place) {
        Some(found) => {
            found.entry.status == LocalStatus::True && has_none(found.entry.hyps.as_slice())
        }
        None => false,
    }
}

/// Whether there is no hypothesis.
fn has_none(hyps: &[PropId]) -> bool
    ensures { result ≡ list_all (λ q. nothing q.0) hyps.now }
{
    hyps.split_first().is_none()
}

/// Whether there is a place.
fn has_place(places: &[usize]) -> bool
    ensures { result ≡ has_place places.now }
{
    places.split_first().is_some()
}
