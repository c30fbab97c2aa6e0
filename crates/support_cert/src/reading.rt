//! What a support is computed from.

ghost use Rattle.std.specs.Prelude.{◌≡◌, ◌≤◌, IfSome, find, option_map, map};
ghost use Rattle.std.specs.List.{list_all, list_any};
ghost use Rattle.status_rules.specs.Holds.{is_admitted, is_claimed, is_sure, nothing, supports};
ghost use Rattle.status_rules.specs.inner.ByProp.{placed};
ghost use Rattle.status_rules.specs.inner.Consolidated.{basis};
ghost use Rattle.fc_base.specs.declared.status.LocalStatus.TheVariants as Status;
ghost use Rattle.support_cert.specs.inner.Found.{bare_entry, sure_entry, usable};

use crate::scan::{has_none, live_dead};
use c_ir::PropTable;
use fc_base::{LocalStatus, ParamValues, PropId};
use param_book::ENTRY_FUNCTION;
use sqlite_items::at;
use status_rules::CountedEntry;

/// The greatest place that a step can name.
const MOST: usize = 4294967295;

/// A table, the values of the parameters and the counted entries on each property.
#[derive(Drop)]
pub(crate) struct Reading<'a, 'h> {
    pub(crate) props: &'a PropTable,
    pub(crate) values: ParamValues,
    pub(crate) entries: Vec<Vec<CountedEntry<'h>>>,
}

impl<'a, 'h> Reading<'a, 'h> {
    /// Whether a property is admitted.
    pub(crate) fn is_admitted(&self, prop: PropId) -> bool
        ensures { result ≡ is_admitted (basis self.entry.now.props.now self.entry.now.values self.entry.now.entries) prop.0 }
    {
        match at(self.props.rows(), prop.0 as usize) {
            Some(row) => self.props.admits(row, self.values.get(ENTRY_FUNCTION)),
            None => false,
        }
    }

    /// Whether a property has a counted True entry without hypotheses.
    #[tactic(auto, using(crate::proofs::Listed::any_listed))]
    fn has_bare(&self, prop: PropId) -> bool
        ensures { result ≡ is_claimed Status.True nothing (basis self.entry.now.props.now self.entry.now.values self.entry.now.entries) prop.0 }
    {
        match at(self.entries.as_slice(), prop.0 as usize) {
            Some(list) => any_bare(list.as_slice()),
            None => false,
        }
    }

    /// Whether a property is sure.
    #[tactic(auto, using(crate::proofs::Counted::dead_by_live))]
    pub(crate) fn is_sure(&self, prop: PropId) -> bool
        ensures { result ≡ is_sure (basis self.entry.now.props.now self.entry.now.values self.entry.now.entries) prop.0 }
    {
        self.props.contains(prop)
            && (self.is_admitted(prop)
                || (self.has_bare(prop)
                    || match live_dead(self.props, prop) {
                        Some(dead) => self.has_bare(dead),
                        None => false,
                    }))
    }

    /// The first counted True entry on a property that has no hypotheses.
    #[tactic(auto, using(crate::proofs::Listed::find_listed))]
    pub(crate) fn bare_entry(&self, prop: PropId) -> Option<CountedEntry<'h>>
        ensures small { IfSome result (λ found. found.place ≤ 4294967295) }
        ensures value { option_map placed result ≡ bare_entry 4294967295 (basis self.entry.now.props.now self.entry.now.values self.entry.now.entries) prop.0 }
    {
        match at(self.entries.as_slice(), prop.0 as usize) {
            Some(list) => first_bare(list.as_slice()),
            None => None,
        }
    }

    /// The first counted True entry on a property whose hypotheses are all sure.
    #[tactic(auto, using(crate::proofs::Listed::find_listed))]
    pub(crate) fn sure_entry(&self, prop: PropId) -> Option<CountedEntry<'h>>
        ensures small { IfSome result (λ found. found.place ≤ 4294967295) }
        ensures value { option_map placed result ≡ sure_entry 4294967295 (basis self.entry.now.props.now self.entry.now.values self.entry.now.entries) prop.0 }
    {
        match at(self.entries.as_slice(), prop.0 as usize) {
            Some(list) => self.first_proof(list.as_slice()),
            None => None,
        }
    }

    /// The first of these entries that is a True one whose hypotheses are all sure.
    fn first_proof(&self, entries: &[CountedEntry<'h>]) -> Option<CountedEntry<'h>>
        ensures small { IfSome result (λ found. found.place ≤ 4294967295) }
        ensures value { option_map placed result ≡ find (usable 4294967295 (is_sure (basis self.entry.now.props.now self.entry.now.values self.entry.now.entries))) (map placed entries.now) }
    {
        for found in entries {
            if found.place <= MOST && self.is_proof(*found) {
                return Some(*found);
            }
        }
        None
    }

    /// Whether an entry is a True one whose hypotheses are all sure.
    fn is_proof(&self, found: CountedEntry) -> bool
        ensures { result ≡ supports Status.True (is_sure (basis self.entry.now.props.now self.entry.now.values self.entry.now.entries)) (placed found.entry) }
    {
        found.entry.status == LocalStatus::True && self.all_sure(found.entry.hyps.as_slice())
    }

    /// Whether all these properties are sure.
    fn all_sure(&self, hyps: &[PropId]) -> bool
        ensures { result ≡ list_all (λ q. is_sure (basis self.entry.now.props.now self.entry.now.values self.entry.now.entries) q.0) hyps.now }
    {
        for hyp in hyps {
            if !self.is_sure(*hyp) {
                return false;
            }
        }
        true
    }
}

/// Whether an entry is a True one without hypotheses.
fn is_bare(found: CountedEntry) -> bool
    ensures { result ≡ supports Status.True nothing (placed found.entry) }
{
    found.entry.status == LocalStatus::True && has_none(found.entry.hyps.as_slice())
}

/// Whether one of these entries is a True one without hypotheses.
fn any_bare(entries: &[CountedEntry]) -> bool
    ensures { result ≡ list_any (supports Status.True nothing) (map placed entries.now) }
{
    for found in entries {
        if is_bare(*found) {
            return true;
        }
    }
    false
}

/// The first of these entries that is a True one without hypotheses.
fn first_bare<'h>(entries: &[CountedEntry<'h>]) -> Option<CountedEntry<'h>>
    ensures small { IfSome result (λ found. found.place ≤ 4294967295) }
    ensures value { option_map placed result ≡ find (usable 4294967295 nothing) (map placed entries.now) }
{
    for found in entries {
        if found.place <= MOST && is_bare(*found) {
            return Some(*found);
        }
    }
    None
}
