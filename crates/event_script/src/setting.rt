//! What a `param` line and a `run` line say.

ghost use Rattle.std.specs.Prelude.{◌≡◌};
ghost use Rattle.serde_json.specs.View.{view};
ghost use Rattle.event_script.specs.Lines.{run_of, setting_of};

use crate::names::analyser_named;
use crate::script::Analyser;
use crate::value::{has_members, i64_at, text_at};
use param_book::number;
use serde_json::Value;
use status_history::Change;

/// The change that a `param` line asks for; None exactly where the value is no such line.
#[tactic(auto, unfolding(crate::specs::Lines::setting_of))]
pub(crate) fn setting_of(value: &Value) -> Option<Change>
    ensures { result ≡ setting_of (view value.now) }
{
    let number = number(text_at(value, "param")?);
    let value_said = i64_at(value, "value")?;
    if has_members(value, 2) {
        Some(Change::Param {
            number,
            value: value_said,
        })
    } else {
        None
    }
}

/// The analyser that a `run` line is to run; None exactly where the value is no such line.
#[tactic(auto, unfolding(crate::specs::Lines::run_of))]
pub(crate) fn run_of(value: &Value) -> Option<Analyser>
    ensures { result ≡ run_of (view value.now) }
{
    let analyser = analyser_named(text_at(value, "run")?)?;
    if has_members(value, 1) {
        Some(analyser)
    } else {
        None
    }
}
