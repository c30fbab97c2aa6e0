//! What an `emit` line says.

ghost use Rattle.std.specs.Prelude.{◌≡◌, codes, option_map};
ghost use Rattle.serde_json.specs.Find.{get};
ghost use Rattle.serde_json.specs.View.{view};
ghost use Rattle.event_script.specs.Lines.{emission_of, has_emit_members, version_said};
ghost use Rattle.event_script.specs.Emission.{said};

use crate::names::status_named;
use crate::value::{has_members, items_at, text_at, u32_of};
use fc_base::LocalStatus;
use serde_json::Value;

/// An `emit` line, with its names as they stand there.
#[derive(Drop)]
pub(crate) struct Emission<'v> {
    pub(crate) emitter: &'v str,
    pub(crate) prop: &'v str,
    pub(crate) status: LocalStatus,
    pub(crate) hyps: &'v [Value],
    pub(crate) version: u32,
}

/// What an `emit` line says, where `last` stands for a missing version; None exactly where the value is no such line,
/// but for its hypotheses.
#[tactic(auto, unfolding(crate::specs::Lines::emission_of))]
pub(crate) fn emission_of(value: &Value, last: u32) -> Option<Emission>
    ensures { option_map said result ≡ emission_of last (view value.now) }
{
    let emitter = text_at(value, "emit")?;
    let prop = text_at(value, "prop")?;
    let status = status_named(text_at(value, "status")?)?;
    let hyps = items_at(value, "hyps")?;
    let version = version_said(value, last)?;
    if has_emit_members(value) {
        Some(Emission {
            emitter,
            prop,
            status,
            hyps,
            version,
        })
    } else {
        None
    }
}

/// The version that a line says, where `last` stands for a missing one; None exactly where its `version` is no number
/// of 32 bits.
fn version_said(value: &Value, last: u32) -> Option<u32>
    ensures { result ≡ version_said last (get (codes "version") (view value.now)) }
{
    match value.get("version") {
        Some(version) => u32_of(version),
        None => Some(last),
    }
}

/// Whether a value has as many members as an `emit` line: four, and a fifth where one is `version`.
fn has_emit_members(value: &Value) -> bool
    ensures { result ≡ has_emit_members (view value.now) }
{
    match value.get("version") {
        Some(_) => has_members(value, 5),
        None => has_members(value, 4),
    }
}
