//! The verdicts of all properties.

ghost use Rattle.std.specs.Prelude.{◌≡◌, ◌<◌, IfOk, map, length};
ghost use Rattle.status_rules.specs.inner.ByProp.{entries_in, placed};
ghost use Rattle.status_rules.specs.inner.Consolidated.{basis};
ghost use Rattle.status_rules.specs.inner.Flags.{flag};
ghost use Rattle.status_rules.specs.Holds.{basis_of, entries_on, is_admitted, is_held, is_supported, same_status};
ghost use Rattle.status_rules.specs.Verdicts.{full_of, verdict_of, inputs_of, is_refuted, is_unvisited, has_entry, has_said, has_said_false};
ghost use Rattle.fc_base.specs.declared.status.LocalStatus.TheVariants as Status;

use crate::by_prop::{EntriesByProp, last_by_prop};
use crate::counting::{CountedEntry, current};
use crate::flags::{admitted, claimed, extended, flag, has_dead_flag};
use crate::inputs::VerdictInputs;
use c_ir::PropTable;
use fc_base::{LocalStatus, ParamValues, PropId, Verdict};
use sqlite_items::Items;
use status_history::History;
use std::alloc::{AllocError, Global};

/// A verdict for each property, in the order of the table.
pub type Verdicts = Items<Verdict>;

/// The verdicts of all properties, computed from all entries of the history: one for each, in the order of the
/// table.
#[tactic(auto, unfolding(crate::specs::Verdicts::full_of))]
pub fn full(alloc: Global, history: &History, props: &PropTable) -> Result<Verdicts, AllocError>
    ensures verdicts { IfOk result (λ vs. vs ≡ full_of history.now props.now) }
    ensures length { IfOk result (λ vs. length vs ≡ length props.now.rows) }
{
    let current = current(alloc, history)?;
    let entries = last_by_prop(alloc, &current, props.rows())?;
    let values = history.values();
    let consolidation = Consolidation::new(alloc, props, &values, &entries)?;
    let mut verdicts = Items::new(alloc);
    for place in 0..props.len() {
        verdicts.push(consolidation.verdict(PropId(place)))?;
    }
    Ok(verdicts)
}

/// What verdicts are read from: a table, the values of the parameters, the counted entries on each
/// property, and what follows from them for each property.
#[derive(Drop)]
struct Consolidation<'a, 'h> {
    props: &'a PropTable,
    values: &'a ParamValues,
    entries: &'a EntriesByProp<'h>,
    admitted: Vec<bool>,
    held: Vec<bool>,
    proven: Vec<bool>,
    disproven: Vec<bool>,
    refuting: Vec<bool>,
    ghost rows: { length entries.now.items ≡ length props.now.rows },
    ghost admitted_are: { flag admitted.items ≡ is_admitted (basis props.now values.now entries.now) },
    ghost held_are: { flag held.items ≡ is_held (basis props.now values.now entries.now) },
    ghost proven_are: { flag proven.items ≡ is_supported Status.True (basis props.now values.now entries.now) },
    ghost disproven_are: { flag disproven.items ≡ is_supported Status.FalseIfReachable (basis props.now values.now entries.now) },
    ghost refuting_are: { flag refuting.items ≡ is_supported Status.FalseAndReachable (basis props.now values.now entries.now) },
}

impl<'a, 'h> Consolidation<'a, 'h> {
    /// What follows for each property.
    fn new(
        alloc: Global,
        props: &'a PropTable,
        values: &'a ParamValues,
        entries: &'a EntriesByProp<'h>,
    ) -> Result<Consolidation<'a, 'h>, AllocError>
        requires { length entries.now.items ≡ length props.now.rows }
        ensures props { IfOk result (λ c. c.props.now ≡ props.now) }
        ensures values { IfOk result (λ c. c.values.now ≡ values.now) }
        ensures entries { IfOk result (λ c. c.entries.now ≡ entries.now) }
    {
        let admitted = admitted(alloc, props, values)?;
        let plain = claimed(alloc, entries, LocalStatus::True, &[])?;
        let sure = extended(alloc, props, &admitted, &plain)?;
        let proven = claimed(alloc, entries, LocalStatus::True, &sure)?;
        let disproven = claimed(alloc, entries, LocalStatus::FalseIfReachable, &sure)?;
        let refuting = claimed(alloc, entries, LocalStatus::FalseAndReachable, &sure)?;
        let held = extended(alloc, props, &sure, &proven)?;
        Ok(Consolidation {
            props,
            values,
            entries,
            admitted,
            held,
            proven,
            disproven,
            refuting,
        })
    }

    /// The verdict of a property.
    fn verdict(&self, prop: PropId) -> Verdict
        requires { prop.0 < length self.now.props.now.rows }
        ensures { result ≡ verdict_of (basis self.entry.now.props.now self.entry.now.values.now self.entry.now.entries.now) prop.0 }
    {
        self.inputs(prop).verdict()
    }

    /// What the verdict of a property is read from.
    fn inputs(&self, prop: PropId) -> VerdictInputs
        requires { prop.0 < length self.now.props.now.rows }
        ensures { result ≡ inputs_of (basis self.entry.now.props.now self.entry.now.values.now self.entry.now.entries.now) prop.0 }
    {
        let entries = self.entries_on(prop);
        VerdictInputs {
            admitted: flag(&self.admitted, prop),
            held: flag(&self.held, prop),
            refuted: self.is_refuted(prop),
            unvisited: self.is_unvisited(prop),
            proven: flag(&self.proven, prop),
            disproven: flag(&self.disproven, prop),
            tried: has_entry(entries),
            said_true: has_said(entries, LocalStatus::True),
            said_false: has_said_false(entries),
        }
    }

    /// The counted entries on a property.
    fn entries_on(&self, prop: PropId) -> &[CountedEntry<'h>]
        requires { prop.0 < length self.now.props.now.rows }
        ensures { map placed result.now ≡ entries_on (basis self.entry.now.props.now self.entry.now.values.now self.entry.now.entries.now) prop.0 }
    {
        self.entries[prop.0 as usize].as_slice()
    }

    /// Whether a property is refuted.
    fn is_refuted(&self, prop: PropId) -> bool
        requires { prop.0 < length self.now.props.now.rows }
        ensures { result ≡ is_refuted self.entry.now.props.now (flag self.entry.now.disproven.items) (flag self.entry.now.refuting.items) prop.0 }
    {
        flag(&self.refuting, prop)
            || (self.props.is_firm(prop)
                && flag(&self.disproven, prop)
                && has_dead_flag(self.props, &self.refuting, prop))
    }

    /// Whether a property is unvisited.
    fn is_unvisited(&self, prop: PropId) -> bool
        requires { prop.0 < length self.now.props.now.rows }
        ensures { result ≡ is_unvisited self.entry.now.props.now (flag self.entry.now.held.items) (flag self.entry.now.proven.items) (flag self.entry.now.disproven.items) prop.0 }
    {
        self.props.is_live(prop)
            && (has_dead_flag(self.props, &self.held, prop)
                || (flag(&self.proven, prop) && flag(&self.disproven, prop)))
    }
}

/// Whether there is an entry.
fn has_entry(entries: &[CountedEntry]) -> bool
    ensures { result ≡ has_entry (map placed entries.now) }
{
    entries.split_first().is_some()
}

/// Whether one of these entries is of FalseIfReachable or FalseAndReachable.
fn has_said_false(entries: &[CountedEntry]) -> bool
    ensures { result ≡ has_said_false (map placed entries.now) }
{
    has_said(entries, LocalStatus::FalseIfReachable)
        || has_said(entries, LocalStatus::FalseAndReachable)
}

/// Whether one of these entries has this status.
fn has_said(entries: &[CountedEntry], status: LocalStatus) -> bool
    ensures { result ≡ has_said status (map placed entries.now) }
{
    for found in entries {
        if found.entry.status == status {
            return true;
        }
    }
    false
}
