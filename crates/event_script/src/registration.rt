//! What a `register` line says.

ghost use Rattle.std.specs.Prelude.{◌≡◌, ◌≤◌, length, option_map, IfSome};
ghost use Rattle.std.specs.Bool.{OnTrue};
ghost use Rattle.serde_json.specs.View.{view, items_view};
ghost use Rattle.event_script.specs.Emission.{registered};
ghost use Rattle.event_script.specs.Lines.{is_registration, registration_of, with_params};
ghost use Rattle.event_script.specs.Names.{no_params};

use crate::names::{is_name, with_param};
use crate::value::{has_members, items_at, text_at};
use fc_base::ParamSet;
use serde_json::Value;

/// A `register` line, with its name as it stands there.
#[derive(Drop)]
pub(crate) struct Registration<'v> {
    pub(crate) name: &'v str,
    pub(crate) correctness: ParamSet,
}

/// What a `register` line says; None exactly where the value is no such line.
#[tactic(auto, unfolding(crate::specs::Lines::registration_of))]
pub(crate) fn registration_of(value: &Value) -> Option<Registration>
    ensures value { option_map registered result ≡ registration_of (view value.now) }
    ensures bound { IfSome result (λ r. length r.name.now ≤ 64) }
{
    let name = text_at(value, "register")?;
    let names = items_at(value, "correctness")?;
    let correctness = params_named(names)?;
    if is_registration(value, name) {
        Some(Registration { name, correctness })
    } else {
        None
    }
}

/// Whether a line with this name is a `register` line.
fn is_registration(value: &Value, name: &str) -> bool
    ensures value { result ≡ is_registration (view value.now) name.now }
    ensures bound { OnTrue result (length name.now ≤ 64) }
{
    is_name(name) && has_members(value, 2)
}

/// The set of the parameters that texts name; None exactly where one of the items is no text.
fn params_named(names: &[Value]) -> Option<ParamSet>
    ensures { result ≡ with_params no_params (items_view names.now) }
{
    let mut set = ParamSet(0);
    for name in names {
        let name = name.as_str()?;
        set = with_param(set, name);
    }
    Some(set)
}
