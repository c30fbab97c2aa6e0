//! Whether steps are a support.

ghost use Rattle.std.specs.Prelude.{◌≡◌, ℕ, true};
ghost use Rattle.std.specs.Bool.{OnTrue, OnFalse};
ghost use Rattle.std.specs.List.{list_all};
ghost use Rattle.status_rules.specs.Holds.{basis_of, is_held};
ghost use Rattle.status_rules.specs.Support.{IsSupport, has_bare, has_plain, has_step, is_bare, is_plain, rests};
ghost use Rattle.support_cert.specs.inner.Checked.{fits, is_certificate};

use crate::scan::{Scan, has_none};
use c_ir::PropTable;
use fc_base::PropId;
use status_history::History;
use status_rules::{Reason, Step, Support};

/// Whether steps are a support of the property of the last one, which then holds. It takes no memory.
pub fn check(history: &History, props: &PropTable, support: &Support) -> bool
    ensures found { OnTrue result ((p : ℕ) × IsSupport (basis_of history.now props.now) p support.now × (is_held (basis_of history.now props.now) p ≡ true)) }
    ensures only { OnFalse result ((p : ℕ) → IsSupport (basis_of history.now props.now) p support.now → ⊥) }
{
    let scan = Scan {
        history,
        props,
        values: history.values(),
    };
    scan.is_certificate(support.as_slice())
}

impl Scan<'_> {
    /// Whether steps are some property's support.
    fn is_certificate(&self, steps: &[Step]) -> bool
        ensures { result ≡ is_certificate (basis_of self.entry.now.history.now self.entry.now.props.now) steps.now }
    {
        for place in 0..steps.len() {
            let (before, _) = steps.split_at(place);
            if !self.fits(before, steps[place]) {
                return false;
            }
        }
        !steps.is_empty()
    }

    /// Whether a step rests on these, none of which is on its property.
    fn fits(&self, before: &[Step], step: Step) -> bool
        ensures { result ≡ fits (basis_of self.entry.now.history.now self.entry.now.props.now) before.now step }
    {
        self.rests(before, step.prop, step.reason) && !has_step(before, step.prop)
    }

    /// Whether a property holds for a reason that rests on these steps alone.
    #[tactic(auto, using(crate::proofs::Counted::by_entry_is, crate::proofs::Counted::dead_by_live))]
    fn rests(&self, before: &[Step], prop: PropId, reason: Reason) -> bool
        ensures { result ≡ rests (basis_of self.entry.now.history.now self.entry.now.props.now) before.now prop.0 reason }
    {
        match reason {
            Reason::Admitted => self.is_admitted(prop),
            Reason::ByEntry(place) => match self.true_at(prop, place) {
                Some(entry) => self.all_plain(before, entry.hyps.as_slice()),
                None => false,
            },
            Reason::ByDead => match self.live_dead(prop) {
                Some(dead) => has_step(before, dead),
                None => false,
            },
        }
    }

    /// Whether all these properties have plain steps.
    fn all_plain(&self, steps: &[Step], hyps: &[PropId]) -> bool
        ensures { result ≡ list_all (λ q. has_plain (basis_of self.entry.now.history.now self.entry.now.props.now) steps.now q.0) hyps.now }
    {
        for hyp in hyps {
            if !self.has_plain(steps, *hyp) {
                return false;
            }
        }
        true
    }

    /// Whether one of these steps is on a property and plain.
    fn has_plain(&self, steps: &[Step], prop: PropId) -> bool
        ensures { result ≡ has_plain (basis_of self.entry.now.history.now self.entry.now.props.now) steps.now prop.0 }
    {
        for step in steps {
            if step.prop.0 == prop.0 && self.is_plain(steps, step.prop, step.reason) {
                return true;
            }
        }
        false
    }

    /// Whether a reason among steps is plain.
    #[tactic(auto, using(crate::proofs::Counted::dead_by_live))]
    fn is_plain(&self, steps: &[Step], prop: PropId, reason: Reason) -> bool
        ensures { result ≡ is_plain (basis_of self.entry.now.history.now self.entry.now.props.now) steps.now prop.0 reason }
    {
        match reason {
            Reason::Admitted => true,
            Reason::ByEntry(_) => self.is_bare(prop, reason),
            Reason::ByDead => match self.live_dead(prop) {
                Some(dead) => self.has_bare(steps, dead),
                None => false,
            },
        }
    }

    /// Whether one of these steps is on a property and by an entry without hypotheses.
    fn has_bare(&self, steps: &[Step], prop: PropId) -> bool
        ensures { result ≡ has_bare (basis_of self.entry.now.history.now self.entry.now.props.now) steps.now prop.0 }
    {
        for step in steps {
            if step.prop.0 == prop.0 && self.is_bare(step.prop, step.reason) {
                return true;
            }
        }
        false
    }

    /// Whether a step is by an entry without hypotheses.
    #[tactic(auto, using(crate::proofs::Counted::by_entry_is))]
    fn is_bare(&self, prop: PropId, reason: Reason) -> bool
        ensures { result ≡ is_bare (basis_of self.entry.now.history.now self.entry.now.props.now) prop.0 reason }
    {
        match reason {
            Reason::ByEntry(place) => match self.true_at(prop, place) {
                Some(entry) => has_none(entry.hyps.as_slice()),
                None => false,
            },
            Reason::Admitted | Reason::ByDead => false,
        }
    }
}

/// Whether one of these steps is on a property.
pub(crate) fn has_step(steps: &[Step], prop: PropId) -> bool
    ensures { result ≡ has_step steps.now prop.0 }
{
    for step in steps {
        if step.prop.0 == prop.0 {
            return true;
        }
    }
    false
}
