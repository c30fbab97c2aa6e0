//! What a history had at a version, found by a walk over its changes that takes no memory.

ghost use Rattle.std.specs.Prelude.{◌≡◌, ℕ, ℤ, List, [], ◌∷◌, ◌++◌, take, slice_get};
ghost use Rattle.status_history.specs.Values.{changed_by, params_set, values_of, sets_registered};
ghost use Rattle.status_rules.specs.Counting.{set_of};
ghost use Rattle.fc_base.specs.declared.params.ParamSet.{ParamSet};
ghost use Rattle.support_cert.specs.inner.Scanned.{nth_set};

use fc_base::{EmitterId, ParamSet, ParamValues};
use param_book::{OWN_COUNT, own_sets};
use status_history::{Change, History};

/// Values of the parameters, and how many of the next settings are still to be made.
#[derive(Clone, Copy)]
struct Settings {
    values: ParamValues,
    left: u32,
}

/// The values of the parameters at a version; those at the end, where there is no such version.
pub(crate) fn values_at(history: &History, version: u32) -> ParamValues
    ensures { result ≡ values_of history.now version }
{
    let mut settings = Settings {
        values: history.opening,
        left: version,
    };
    for change in history.changes.as_slice() {
        settings = after(settings, change);
    }
    settings.values
}

/// The values after a change, if its setting is still to be made.
fn after(settings: Settings, change: &Change) -> Settings
    ensures { (more : List (ℕ × ℤ)) → changed_by result.values (take result.left more) ≡ changed_by settings.values (take settings.left (params_set (change.now ∷ []) ++ more)) }
{
    match change {
        Change::Param { number, value } => after_setting(settings, *number, *value),
        Change::Register { .. } | Change::Emit(_) => settings,
    }
}

/// The values after a setting, if it is still to be made.
fn after_setting(settings: Settings, number: u8, value: i64) -> Settings
    ensures { (more : List (ℕ × ℤ)) → changed_by result.values (take result.left more) ≡ changed_by settings.values (take settings.left ((number, value) ∷ more)) }
{
    if settings.left == 0 {
        return settings;
    }
    Settings {
        values: changed(settings.values, number, value),
        left: settings.left - 1,
    }
}

/// Values with one of them changed; a number past 15 changes none.
#[tactic(auto, using(std::proofs::lemmas::List::set_past))]
fn changed(mut values: ParamValues, number: u8, value: i64) -> ParamValues
    ensures { result ≡ changed_by values ((number, value) ∷ []) }
{
    if number < 16 {
        values.set(number, value);
    }
    values
}

/// The correctness set of an emitter; the empty one, where no emitter has the number.
pub(crate) fn set_of(history: &History, emitter: EmitterId) -> ParamSet
    ensures { result ≡ set_of history.now.changes emitter.0 }
{
    if emitter.0 < OWN_COUNT {
        return own_sets()[emitter.0 as usize];
    }
    match registered_set(history.changes.as_slice(), emitter.0 - OWN_COUNT) {
        Some(set) => set,
        None => ParamSet(0),
    }
}

/// A registered emitter's set, once it is found, and how many registrations are still to be passed over.
#[derive(Clone, Copy)]
struct Search {
    found: Option<ParamSet>,
    left: u32,
}

/// The correctness set of the emitter that these changes register as the one with this number, counted from 0.
fn registered_set(changes: &[Change], number: u32) -> Option<ParamSet>
    ensures { result ≡ slice_get (sets_registered changes.now) number }
{
    let mut search = Search {
        found: None,
        left: number,
    };
    for change in changes {
        search = searched(search, change);
    }
    search.found
}

/// A search after a change.
fn searched(search: Search, change: &Change) -> Search
    ensures { (more : List ParamSet) → nth_set result.found result.left more ≡ nth_set search.found search.left (sets_registered (change.now ∷ []) ++ more) }
{
    match change {
        Change::Register { correctness, .. } => at_registration(search, *correctness),
        Change::Param { .. } | Change::Emit(_) => search,
    }
}

/// A search after a registration with this set.
fn at_registration(search: Search, set: ParamSet) -> Search
    ensures { (more : List ParamSet) → nth_set result.found result.left more ≡ nth_set search.found search.left (set ∷ more) }
{
    if search.found.is_some() {
        return search;
    }
    if search.left == 0 {
        return Search {
            found: Some(set),
            left: 0,
        };
    }
    Search {
        found: None,
        left: search.left - 1,
    }
}
