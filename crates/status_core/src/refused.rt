//! Which changes are refused, by what a table keeps. It takes no memory.

ghost use Rattle.std.specs.Prelude.{◌≡◌, ◌<◌, ◌∷◌, [], not, position, true, IfNone};
ghost use Rattle.c_ir.specs.Table.{is_row};
ghost use Rattle.param_book.specs.Emitters.{is_external};
ghost use Rattle.param_book.specs.Table.{fits_param};
ghost use Rattle.status_rules.specs.Judge.{first_of, has_unused, reserved_emitter, value_out_of_range};
ghost use Rattle.event_board.specs.inner.Table.{emitter_rows, entry_rows_by, full_by, unknown_by};

use c_ir::PropTable;
use event_board::Standing;
use fc_base::{ParamSet, PropId};
use param_book::{fits, is_external};
use status_history::Entry;
use status_rules::Refusal;

/// The most hypotheses of an entry.
const MOST_HYPS: usize = 256;

/// The most emitters.
const MOST_EMITTERS: u32 = 256;

/// The most changes of a history.
const MOST_CHANGES: u32 = 200_000;

/// The first refusal of a registration that stands.
pub(crate) fn refused_emitter(standing: Standing, set: ParamSet) -> Option<Refusal>
    ensures value { result ≡ first_of (emitter_rows standing set) }
    ensures few { IfNone result (standing.changes < 200000) }
{
    if has_unused(set) {
        return Some(Refusal::OutOfRange);
    }
    if standing.is_taken {
        return Some(Refusal::NameTaken);
    }
    if MOST_EMITTERS as usize <= standing.emitters {
        return Some(Refusal::TooManyEmitters(MOST_EMITTERS));
    }
    if_full(standing)
}

/// The first refusal of a parameter's setting that stands.
pub(crate) fn refused_value(
    props: &PropTable,
    standing: Standing,
    number: u8,
    value: i64,
) -> Option<Refusal>
    ensures value { result ≡ first_of (value_out_of_range props.now number value ∷ full_by standing ∷ []) }
    ensures few { IfNone result (standing.changes < 200000) }
    ensures fits { IfNone result (fits_param props.now.defined number value ≡ true) }
{
    if !fits(props.defined(), number, value) {
        return Some(Refusal::OutOfRange);
    }
    if_full(standing)
}

/// The first refusal of an emission that stands.
pub(crate) fn refused_entry(props: &PropTable, standing: Standing, entry: &Entry) -> Option<Refusal>
    requires { standing.version < 4294967296 }
    ensures value { result ≡ first_of (unknown_by standing entry.now ∷ reserved_emitter entry.now ∷ entry_rows_by props.now standing entry.now) }
    ensures few { IfNone result (standing.changes < 200000) }
    ensures known { IfNone result (is_row props.now entry.now.prop.0 ≡ true) }
    ensures external { IfNone result (is_external entry.now.emitter ≡ true) }
{
    if standing.emitters <= entry.emitter.0 as usize {
        return Some(Refusal::UnknownEmitter);
    }
    if !is_external(entry.emitter) {
        return Some(Refusal::ReservedEmitter);
    }
    refused_by_table(props, standing, entry)
}

/// The first refusal of an emission that stands, after those of its emitter.
fn refused_by_table(props: &PropTable, standing: Standing, entry: &Entry) -> Option<Refusal>
    requires { standing.version < 4294967296 }
    ensures value { result ≡ first_of (entry_rows_by props.now standing entry.now) }
    ensures few { IfNone result (standing.changes < 200000) }
    ensures known { IfNone result (is_row props.now entry.now.prop.0 ≡ true) }
{
    if !props.contains(entry.prop) {
        return Some(Refusal::UnknownProperty);
    }
    if let Some(place) = first_unknown(props, entry.hyps.as_slice()) {
        return Some(Refusal::UnknownHyp(place));
    }
    let count = entry.hyps.len();
    if MOST_HYPS < count {
        return Some(Refusal::TooManyHyps(count));
    }
    if standing.version < entry.version as usize {
        return Some(Refusal::FutureVersion(standing.version as u32));
    }
    if_full(standing)
}

/// The refusal of a history that has its limit of changes.
pub(crate) fn if_full(standing: Standing) -> Option<Refusal>
    ensures value { result ≡ full_by standing }
    ensures few { IfNone result (standing.changes < 200000) }
{
    if MOST_CHANGES as usize <= standing.changes {
        Some(Refusal::HistoryFull(MOST_CHANGES))
    } else {
        None
    }
}

/// The place of the first of these properties that isn't in the table.
fn first_unknown(props: &PropTable, hyps: &[PropId]) -> Option<usize>
    ensures { result ≡ position (λ q. not (is_row props.now q.0)) hyps.now }
{
    hyps.iter().position(|hyp| !props.contains(*hyp))
}

/// Whether a set has a bit of no parameter: 5, 6 or 7.
fn has_unused(set: ParamSet) -> bool
    ensures { result ≡ has_unused set }
{
    (set.0 >> 5) % 2 == 1 || (set.0 >> 6) % 2 == 1 || (set.0 >> 7) % 2 == 1
}
