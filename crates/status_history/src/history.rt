//! What a history is made of.

ghost use Rattle.std.specs.Prelude.{◌≡◌, [], ◌∷◌, IfOk};
ghost use Rattle.status_history.specs.Values.{version_of, values_now, all_values, changed_by, changed_at, params_set};
ghost use Rattle.status_history.specs.inner.Changes.{sets_param};

use fc_base::{EmitterId, LocalStatus, Name, ParamSet, ParamValues, PropId};
use sqlite_items::Items;
use std::alloc::{AllocError, Global};

/// The hypotheses of an entry.
pub type Hyps = Items<PropId>;

/// A list of entries.
pub type Entries = Items<Entry>;

/// A list of changes.
pub type Changes = Items<Change>;

/// What one emitter said of one property.
#[derive(Debug, Drop)]
pub struct Entry {
    pub emitter: EmitterId,
    pub prop: PropId,
    pub status: LocalStatus,
    /// The properties that the status takes for granted.
    pub hyps: Hyps,
    /// How many Param changes came before the values that the emitter worked with.
    pub version: u32,
}

/// One step of a history.
#[derive(Debug, Drop)]
pub enum Change {
    /// An emitter joins, and gets the next number. Its entries rest on these parameters, and on those that
    /// runs depend on.
    Register { name: Name, correctness: ParamSet },
    /// A parameter gets a value. A number past 15 changes nothing.
    Param { number: u8, value: i64 },
    /// An emitter says something of a property.
    Emit(Entry),
}

/// All that happened, after an opening.
#[derive(Debug, Drop)]
pub struct History {
    /// The values of the parameters before the first change.
    pub opening: ParamValues,
    pub changes: Changes,
}

impl History {
    /// The number of Param changes.
    pub fn version(&self) -> usize
        ensures { result ≡ version_of self.now }
    {
        let mut count = 0;
        for change in self.changes.as_slice() {
            count += usize::from(is_param(change));
        }
        count
    }

    /// The values of the parameters at the end.
    pub fn values(&self) -> ParamValues
        ensures { result ≡ values_now self.now }
    {
        let mut values = self.opening;
        for change in self.changes.as_slice() {
            values = after(values, change);
        }
        values
    }

    /// The values of the parameters at each version, from the opening to the end.
    pub fn values_by_version(&self, alloc: Global) -> Result<Vec<ParamValues>, AllocError>
        ensures { IfOk result (λ vs. vs.items ≡ all_values self.now.opening (params_set self.now.changes)) }
    {
        let mut versions = Vec::new(alloc);
        let mut values = self.opening;
        for change in self.changes.as_slice() {
            if is_param(change) {
                versions.push(values)?;
            }
            values = after(values, change);
        }
        versions.push(values)?;
        Ok(versions)
    }
}

/// Whether a change sets a parameter.
fn is_param(change: &Change) -> bool
    ensures { result ≡ sets_param change.now }
{
    matches!(change, Change::Param { .. })
}

/// The values after a change.
fn after(values: ParamValues, change: &Change) -> ParamValues
    ensures { result ≡ changed_by values (params_set (change.now ∷ [])) }
{
    match change {
        Change::Param { number, value } => changed_at(values, *number, *value),
        Change::Register { .. } | Change::Emit(_) => values,
    }
}

/// The values with one of them changed.
#[tactic(auto, using(std::proofs::lemmas::List::set_past))]
fn changed_at(mut values: ParamValues, number: u8, value: i64) -> ParamValues
    ensures { result ≡ changed_at values (number, value) }
{
    if number < 16 {
        values.values[usize::from(number)] = value;
    }
    values
}
