//! What of a history the answer to a change rests on.

ghost use Rattle.std.specs.Prelude.{◌≡◌, ◌≤◌, ◌+◌, [], ◌∷◌, bytes_eq, length};
ghost use Rattle.std.specs.List.{list_any};
ghost use Rattle.status_history.specs.Values.{sets_registered, version_of};
ghost use Rattle.status_rules.specs.Judge.{emitters_of, is_taken, names_registered};
ghost use Rattle.event_board.specs.Standings.{has_taken, standing_of};
ghost use Rattle.event_board.specs.inner.Rows.{registers};

use param_book::{OWN_COUNT, own_named};
use status_history::{Change, History};

/// What of a history the answer to a change rests on.
#[derive(Clone, Copy, Debug)]
pub struct Standing {
    /// How many changes there are.
    pub changes: usize,
    /// How many of them set a parameter.
    pub version: usize,
    /// How many emitters there are, with the program's own.
    pub emitters: usize,
    /// Whether the change registers an emitter under a name that one has.
    pub is_taken: bool,
}

/// What the answer to a change rests on.
pub(crate) fn standing_for(history: &History, change: &Change) -> Standing
    ensures value { result ≡ standing_of history.now change.now }
    ensures within { result.version ≤ result.changes }
    ensures known { result.emitters ≤ result.changes + 4 }
{
    numbers(history, has_taken(history, change))
}

/// The numbers of a history.
#[tactic(auto, using(crate::proofs::Versions::version_within))]
pub(crate) fn numbers(history: &History, is_taken: bool) -> Standing
    ensures value { result ≡ record { changes = length history.now.changes; version = version_of history.now; emitters = emitters_of history.now; is_taken = is_taken } }
    ensures within { result.version ≤ result.changes }
    ensures known { result.emitters ≤ result.changes + 4 }
{
    Standing {
        changes: history.changes.len(),
        version: history.version(),
        emitters: emitters(history),
        is_taken,
    }
}

/// Whether a change registers an emitter under a name that one has.
fn has_taken(history: &History, change: &Change) -> bool
    ensures { result ≡ has_taken history.now change.now }
{
    match change {
        Change::Register { name, .. } => is_taken(history, name.as_str()),
        Change::Param { .. } | Change::Emit(_) => false,
    }
}

/// How many emitters there are.
fn emitters(history: &History) -> usize
    ensures value { result ≡ emitters_of history.now }
    ensures bound { result ≤ 4 + length history.now.changes }
{
    OWN_COUNT as usize + registered(history.changes.as_slice())
}

/// How many emitters these changes register.
fn registered(changes: &[Change]) -> usize
    ensures value { result ≡ length (sets_registered changes.now) }
    ensures bound { result ≤ length changes.now }
{
    let mut count = 0;
    for change in changes {
        count += usize::from(is_registration(change));
    }
    count
}

/// Whether a change registers an emitter.
fn is_registration(change: &Change) -> bool
    ensures { result ≡ registers change.now }
{
    matches!(change, Change::Register { .. })
}

/// Whether an emitter has a name.
fn is_taken(history: &History, name: &str) -> bool
    ensures { result ≡ is_taken history.now name.now }
{
    own_named(name).is_some() || is_registered(history.changes.as_slice(), name)
}

/// Whether one of these changes registers an emitter under a name.
fn is_registered(changes: &[Change], name: &str) -> bool
    ensures { result ≡ list_any (bytes_eq name.now) (names_registered changes.now) }
{
    for change in changes {
        if registers_under(change, name) {
            return true;
        }
    }
    false
}

/// Whether a change does.
fn registers_under(change: &Change, other: &str) -> bool
    ensures { result ≡ list_any (bytes_eq other.now) (names_registered (change.now ∷ [])) }
{
    match change {
        Change::Register { name, .. } => other == name.as_str(),
        Change::Param { .. } | Change::Emit(_) => false,
    }
}
