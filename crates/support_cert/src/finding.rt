//! A support of a property that holds.

ghost use Rattle.std.specs.Prelude.{◌≡◌, ◌≤◌, [], ◌∷◌, ◌++◌, IfOk, OnOk, length};
ghost use Rattle.status_rules.specs.Holds.{basis_of};
ghost use Rattle.status_rules.specs.Support.{IsSupportIfHeld};
ghost use Rattle.status_rules.specs.declared.steps.Reason.TheVariants.{ByDead};
ghost use Rattle.status_rules.specs.inner.ByProp.{placed};
ghost use Rattle.status_rules.specs.inner.Consolidated.{basis};
ghost use Rattle.support_cert.specs.inner.Found.{bare_entry, by_entry, entry_steps, step_of, support_of, sure_steps, with_dead, with_step, with_sure};

use crate::certificate::has_step;
use crate::reading::Reading;
use crate::scan::live_dead;
use c_ir::PropTable;
use fc_base::PropId;
use sqlite_items::Items;
use status_history::History;
use status_rules::{CountedEntry, Reason, Step, Support, counted_by_prop};
use std::alloc::{AllocError, Global};

/// A support of a property; None exactly where it doesn't hold. The history has fewer than 2^32 changes.
pub fn support(
    alloc: Global,
    history: &History,
    props: &PropTable,
    prop: PropId,
) -> Result<Option<Support>, AllocError>
    requires { length history.now.changes ≤ 4294967295 }
    ensures { IfOk result (λ found. IsSupportIfHeld (basis_of history.now props.now) prop.0 found) }
{
    let reading = Reading {
        props,
        values: history.values(),
        entries: counted_by_prop(alloc, history, props)?,
    };
    reading.support(alloc, prop)
}

impl<'a, 'h> Reading<'a, 'h> {
    /// A support of a property, if it holds.
    #[tactic(auto, unfolding(crate::specs::inner::Found::support_of))]
    fn support(&self, alloc: Global, prop: PropId) -> Result<Option<Support>, AllocError>
        ensures { IfOk result (λ found. found ≡ support_of 4294967295 (basis self.entry.now.props.now self.entry.now.values self.entry.now.entries) prop.0) }
    {
        let mut steps = Items::new(alloc);
        if self.is_sure(prop) {
            self.add_sure(&mut steps, prop)?;
            return Ok(Some(steps));
        }
        if let Some(found) = self.sure_entry(prop) {
            self.add_entry(&mut steps, prop, found)?;
            return Ok(Some(steps));
        }
        let Some(dead) = live_dead(self.props, prop) else {
            return Ok(None);
        };
        let Some(found) = self.sure_entry(dead) else {
            return Ok(None);
        };
        self.add_entry(&mut steps, dead, found)?;
        steps.push(Step {
            prop,
            reason: Reason::ByDead,
        })?;
        Ok(Some(steps))
    }

    /// Adds the steps of an entry whose hypotheses are all sure.
    fn add_entry(
        &self,
        steps: &mut Support,
        prop: PropId,
        found: CountedEntry,
    ) -> Result<(), AllocError>
        requires none { steps.old ≡ [] }
        requires place { found.place ≤ 4294967295 }
        ensures { OnOk result (steps.new ≡ entry_steps 4294967295 (basis self.entry.now.props.now self.entry.now.values self.entry.now.entries) prop.0 (placed found.entry)) }
    {
        for hyp in found.entry.hyps.as_slice() {
            self.add_if_missing(steps, *hyp)?;
        }
        add_step(steps, by_entry(prop, found))
    }

    /// Adds the steps of a sure property, if there is none on it.
    fn add_if_missing(&self, steps: &mut Support, prop: PropId) -> Result<(), AllocError>
        ensures { OnOk result (steps.new ≡ with_sure 4294967295 (basis self.entry.now.props.now self.entry.now.values self.entry.now.entries) steps.old prop.0) }
    {
        if has_step(steps.as_slice(), prop) {
            Ok(())
        } else {
            self.add_sure(steps, prop)
        }
    }

    /// Adds the steps of a sure property, by the first reason that it has.
    fn add_sure(&self, steps: &mut Support, prop: PropId) -> Result<(), AllocError>
        ensures { OnOk result (steps.new ≡ sure_steps 4294967295 (basis self.entry.now.props.now self.entry.now.values self.entry.now.entries) steps.old prop.0) }
    {
        if let Some(found) = self.bare_entry(prop) {
            return steps.push(by_entry(prop, found));
        }
        if self.is_admitted(prop) {
            return steps.push(Step {
                prop,
                reason: Reason::Admitted,
            });
        }
        match live_dead(self.props, prop) {
            Some(dead) => self.add_dead(steps, prop, dead),
            None => Ok(()),
        }
    }

    /// Adds the steps of a property by the one of kind Dead at its point, if that has an entry without hypotheses.
    fn add_dead(&self, steps: &mut Support, prop: PropId, dead: PropId) -> Result<(), AllocError>
        ensures { OnOk result (steps.new ≡ with_dead steps.old prop.0 dead.0 (bare_entry 4294967295 (basis self.entry.now.props.now self.entry.now.values self.entry.now.entries) dead.0)) }
    {
        match self.bare_entry(dead) {
            Some(found) => add_dead_step(steps, prop, by_entry(dead, found)),
            None => Ok(()),
        }
    }
}

/// Adds a step of a property of kind Dead, if there is none on it, and one that rests on it.
fn add_dead_step(steps: &mut Support, prop: PropId, dead: Step) -> Result<(), AllocError>
    ensures { OnOk result (steps.new ≡ with_step steps.old dead ++ step_of prop.0 ByDead ∷ []) }
{
    add_step(steps, dead)?;
    steps.push(Step {
        prop,
        reason: Reason::ByDead,
    })
}

/// Adds a step, if there is none on its property.
fn add_step(steps: &mut Support, step: Step) -> Result<(), AllocError>
    ensures { OnOk result (steps.new ≡ with_step steps.old step) }
{
    if has_step(steps.as_slice(), step.prop) {
        Ok(())
    } else {
        steps.push(step)
    }
}

/// The step of an entry on a property.
fn by_entry(prop: PropId, found: CountedEntry) -> Step
    requires { found.place ≤ 4294967295 }
    ensures { result ≡ by_entry prop.0 (placed found.entry) }
{
    Step {
        prop,
        reason: Reason::ByEntry(found.place as u32),
    }
}
