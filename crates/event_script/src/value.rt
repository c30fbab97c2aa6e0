//! Parts of a JSON value.

ghost use Rattle.std.specs.Prelude.{◌≡◌, option_map};
ghost use Rattle.serde_json.specs.View.{view, items_view};
ghost use Rattle.event_script.specs.Reading.{Gives};
ghost use Rattle.event_script.specs.Values.{value_of, text_at, items_at, i64_at, u32_of, has_members};

use crate::fault::ScriptFault;
use serde_json::Value;
use std::alloc::Global;

/// The value that a line is (RFC 8259).
pub(crate) fn value_of(alloc: Global, text: &[u8]) -> Result<Value, ScriptFault>
    ensures { Gives view result (value_of text.now) }
{
    match Value::from_slice(alloc, text) {
        Ok(value) => Ok(value),
        Err(fault) => {
            if fault.is_memory() {
                Err(ScriptFault::Memory)
            } else {
                Err(ScriptFault::Form)
            }
        }
    }
}

/// The text of a member.
pub(crate) fn text_at<'v>(value: &'v Value, key: &str) -> Option<&'v str>
    ensures { option_map (λ s. s.now) result ≡ text_at key.now (view value.now) }
{
    value.get(key)?.as_str()
}

/// The items of a member.
pub(crate) fn items_at<'v>(value: &'v Value, key: &str) -> Option<&'v [Value]>
    ensures { option_map (λ vs. items_view vs.now) result ≡ items_at key.now (view value.now) }
{
    let items = value.get(key)?.as_array()?;
    Some(items.as_slice())
}

/// The whole number of a member, where it has 64 bits with its sign.
pub(crate) fn i64_at(value: &Value, key: &str) -> Option<i64>
    ensures { result ≡ i64_at key.now (view value.now) }
{
    value.get(key)?.as_i64()
}

/// The whole number that a value is, where it has 32 bits and no sign.
pub(crate) fn u32_of(value: &Value) -> Option<u32>
    ensures { result ≡ u32_of (view value.now) }
{
    u32::try_from(value.as_u64()?).ok()
}

/// Whether the value is an object of this many members.
#[tactic(auto, using(crate::proofs::Members::count_members))]
pub(crate) fn has_members(value: &Value, count: usize) -> bool
    ensures { result ≡ has_members count (view value.now) }
{
    match value.as_object() {
        Some(members) => members.len() == count,
        None => false,
    }
}
