//! What a change is answered. It takes no memory.

ghost use Rattle.std.specs.Prelude.{◌≡◌, ◌<◌, ◌≤◌, ◌+◌, [], ◌∷◌, not, position, IfNone};
ghost use Rattle.c_ir.specs.Table.{is_row};
ghost use Rattle.status_history.specs.declared.history.History.{History};
ghost use Rattle.status_rules.specs.Judge.{first_of, has_unused, judge, judge_own, reserved_emitter, value_out_of_range};
ghost use Rattle.event_board.specs.Standings.{standing_of};
ghost use Rattle.event_board.specs.inner.Table.{emitter_rows, entry_rows_by, full_by, judge_by, own_by, placed_by, rows_by, unknown_by};

use crate::standing::{Standing, numbers, standing_for};
use c_ir::PropTable;
use fc_base::{ParamSet, PropId};
use param_book::{fits, is_external};
use status_history::{Change, Entry, History};
use status_rules::{Placed, Refusal};

/// The most hypotheses of an entry.
const MOST_HYPS: usize = 256;

/// The most emitters.
const MOST_EMITTERS: u32 = 256;

/// The most changes of a history.
const MOST_CHANGES: u32 = 200_000;

/// What a change after a history is answered: the first refusal of the table that stands, else its place.
pub fn judge(props: &PropTable, history: &History, change: &Change) -> Result<Placed, Refusal>
    ensures { result ≡ judge props.now history.now change.now }
{
    judge_at(props, standing_for(history, change), change)
}

/// What an entry of one of the program's own emitters is answered: as a change, but the emitter isn't refused as
/// reserved.
pub fn judge_own(props: &PropTable, history: &History, entry: &Entry) -> Result<Placed, Refusal>
    ensures { result ≡ judge_own props.now history.now entry.now }
{
    judged_own(props, numbers(history, false), entry)
}

/// What a change is answered after a history that has this standing. A caller that keeps the numbers of its history
/// needs no walk over it.
pub fn judge_at(props: &PropTable, standing: Standing, change: &Change) -> Result<Placed, Refusal>
    requires within { standing.version ≤ standing.changes }
    requires known { standing.emitters ≤ standing.changes + 4 }
    ensures { (h : History) → standing ≡ standing_of h change.now → result ≡ judge props.now h change.now }
{
    judged(props, standing, change)
}

/// The same, by the numbers.
fn judged(props: &PropTable, standing: Standing, change: &Change) -> Result<Placed, Refusal>
    requires within { standing.version ≤ standing.changes }
    requires known { standing.emitters ≤ standing.changes + 4 }
    ensures { result ≡ judge_by props.now standing change.now }
{
    match refused(props, standing, change) {
        Some(why) => Err(why),
        None => Ok(placed(standing, change)),
    }
}

/// The same of an entry of one of the program's own emitters.
fn judged_own(props: &PropTable, standing: Standing, entry: &Entry) -> Result<Placed, Refusal>
    requires within { standing.version ≤ standing.changes }
    requires known { standing.emitters ≤ standing.changes + 4 }
    ensures { result ≡ own_by props.now standing entry.now }
{
    match refused_own(props, standing, entry) {
        Some(why) => Err(why),
        None => Ok(placed_entry(standing)),
    }
}

/// The first refusal of a change that stands.
fn refused(props: &PropTable, standing: Standing, change: &Change) -> Option<Refusal>
    requires within { standing.version ≤ standing.changes }
    requires known { standing.emitters ≤ standing.changes + 4 }
    ensures value { result ≡ first_of (rows_by props.now standing change.now) }
    ensures few { IfNone result (standing.changes < 200000) }
{
    match change {
        Change::Register { correctness, .. } => refused_emitter(standing, *correctness),
        Change::Param { number, value } => refused_value(props, standing, *number, *value),
        Change::Emit(entry) => refused_entry(props, standing, entry),
    }
}

/// The first refusal of a registration that stands.
fn refused_emitter(standing: Standing, set: ParamSet) -> Option<Refusal>
    ensures value { result ≡ first_of (emitter_rows standing set) }
    ensures few { IfNone result (standing.changes < 200000) }
{
    if has_unused(set) {
        return Some(Refusal::OutOfRange);
    }
    if standing.is_taken {
        return Some(Refusal::NameTaken);
    }
    if MOST_EMITTERS as usize <= standing.emitters {
        return Some(Refusal::TooManyEmitters(MOST_EMITTERS));
    }
    if_full(standing)
}

/// The first refusal of a parameter's setting that stands.
fn refused_value(props: &PropTable, standing: Standing, number: u8, value: i64) -> Option<Refusal>
    ensures value { result ≡ first_of (value_out_of_range props.now number value ∷ full_by standing ∷ []) }
    ensures few { IfNone result (standing.changes < 200000) }
{
    if !fits(props.defined(), number, value) {
        return Some(Refusal::OutOfRange);
    }
    if_full(standing)
}

/// The first refusal of an emission that stands.
fn refused_entry(props: &PropTable, standing: Standing, entry: &Entry) -> Option<Refusal>
    requires within { standing.version ≤ standing.changes }
    requires known { standing.emitters ≤ standing.changes + 4 }
    ensures value { result ≡ first_of (unknown_by standing entry.now ∷ reserved_emitter entry.now ∷ entry_rows_by props.now standing entry.now) }
    ensures few { IfNone result (standing.changes < 200000) }
{
    if standing.emitters <= entry.emitter.0 as usize {
        return Some(Refusal::UnknownEmitter);
    }
    if !is_external(entry.emitter) {
        return Some(Refusal::ReservedEmitter);
    }
    refused_by_table(props, standing, entry)
}

/// The same for one of the program's own emitters.
fn refused_own(props: &PropTable, standing: Standing, entry: &Entry) -> Option<Refusal>
    requires within { standing.version ≤ standing.changes }
    requires known { standing.emitters ≤ standing.changes + 4 }
    ensures value { result ≡ first_of (unknown_by standing entry.now ∷ entry_rows_by props.now standing entry.now) }
    ensures few { IfNone result (standing.changes < 200000) }
{
    if standing.emitters <= entry.emitter.0 as usize {
        return Some(Refusal::UnknownEmitter);
    }
    refused_by_table(props, standing, entry)
}

/// The first refusal of an emission that stands, after those of its emitter.
fn refused_by_table(props: &PropTable, standing: Standing, entry: &Entry) -> Option<Refusal>
    requires within { standing.version ≤ standing.changes }
    requires known { standing.emitters ≤ standing.changes + 4 }
    ensures value { result ≡ first_of (entry_rows_by props.now standing entry.now) }
    ensures few { IfNone result (standing.changes < 200000) }
{
    if !props.contains(entry.prop) {
        return Some(Refusal::UnknownProperty);
    }
    if let Some(place) = first_unknown(props, entry.hyps.as_slice()) {
        return Some(Refusal::UnknownHyp(place));
    }
    let count = entry.hyps.len();
    if MOST_HYPS < count {
        return Some(Refusal::TooManyHyps(count));
    }
    if standing.version < entry.version as usize {
        return Some(Refusal::FutureVersion(standing.version as u32));
    }
    if_full(standing)
}

/// The refusal of a history that has its limit of changes.
fn if_full(standing: Standing) -> Option<Refusal>
    ensures value { result ≡ full_by standing }
    ensures few { IfNone result (standing.changes < 200000) }
{
    if MOST_CHANGES as usize <= standing.changes {
        Some(Refusal::HistoryFull(MOST_CHANGES))
    } else {
        None
    }
}

/// The place of the first of these properties that isn't in the table.
fn first_unknown(props: &PropTable, hyps: &[PropId]) -> Option<usize>
    ensures { result ≡ position (λ q. not (is_row props.now q.0)) hyps.now }
{
    hyps.iter().position(|hyp| !props.contains(*hyp))
}

/// Whether a set has a bit of no parameter: 5, 6 or 7.
fn has_unused(set: ParamSet) -> bool
    ensures { result ≡ has_unused set }
{
    (set.0 >> 5) % 2 == 1 || (set.0 >> 6) % 2 == 1 || (set.0 >> 7) % 2 == 1
}

/// What a change that isn't refused comes to.
fn placed(standing: Standing, change: &Change) -> Placed
    requires few { standing.changes < 200000 }
    requires within { standing.version ≤ standing.changes }
    requires known { standing.emitters ≤ standing.changes + 4 }
    ensures { result ≡ placed_by standing change.now }
{
    match change {
        Change::Register { .. } => placed_emitter(standing),
        Change::Param { .. } => placed_setting(standing),
        Change::Emit(_) => placed_entry(standing),
    }
}

/// What a registration comes to: the emitter's number.
fn placed_emitter(standing: Standing) -> Placed
    requires few { standing.changes < 200000 }
    requires within { standing.version ≤ standing.changes }
    requires known { standing.emitters ≤ standing.changes + 4 }
    ensures { result ≡ record { at = standing.changes; version = standing.version; value = standing.emitters } }
{
    Placed {
        at: standing.changes as u32,
        version: standing.version as u32,
        value: standing.emitters as u32,
    }
}

/// What a setting comes to: the new version.
fn placed_setting(standing: Standing) -> Placed
    requires few { standing.changes < 200000 }
    requires within { standing.version ≤ standing.changes }
    requires known { standing.emitters ≤ standing.changes + 4 }
    ensures { result ≡ record { at = standing.changes; version = standing.version + 1; value = standing.version + 1 } }
{
    let version = standing.version as u32 + 1;
    Placed {
        at: standing.changes as u32,
        version,
        value: version,
    }
}

/// What an emission comes to: the entry's place.
fn placed_entry(standing: Standing) -> Placed
    requires few { standing.changes < 200000 }
    requires within { standing.version ≤ standing.changes }
    requires known { standing.emitters ≤ standing.changes + 4 }
    ensures { result ≡ record { at = standing.changes; version = standing.version; value = standing.changes + 1 } }
{
    let at = standing.changes as u32;
    Placed {
        at,
        version: standing.version as u32,
        value: at + 1,
    }
}
