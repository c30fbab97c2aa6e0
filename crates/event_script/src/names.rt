//! Names in a script.

ghost use Rattle.std.specs.Prelude.{◌≡◌, ◌≤◌, [], ◌==◌, length};
ghost use Rattle.std.specs.Bool.{OnTrue};
ghost use Rattle.std.specs.List.{list_all};
ghost use Rattle.event_script.specs.Names.{is_blank, is_blank_line, is_name_byte, is_name, with_param, status_named, prop_named, analyser_named};

use crate::script::Analyser;
use c_ir::PropTable;
use fc_base::{EmitterId, LocalStatus, ParamSet, PropId};
use param_book::number;

/// What stands for an emitter that there isn't.
pub(crate) const NO_EMITTER: EmitterId = EmitterId(4_294_967_295);

/// What stands for a property that the table doesn't have.
pub(crate) const NO_PROP: PropId = PropId(4_294_967_295);

/// The most bytes of an emitter's name.
const LONGEST: usize = 64;

/// Whether a line has nothing but blanks.
pub(crate) fn is_blank_line(text: &[u8]) -> bool
    ensures { result ≡ is_blank_line text.now }
{
    for byte in text {
        if !is_blank(*byte) {
            return false;
        }
    }
    true
}

/// Whether a byte is a blank (C11 6.4, without the line feed).
fn is_blank(byte: u8) -> bool
    ensures { result ≡ is_blank byte }
{
    matches!(byte, b' ' | b'\t' | b'\r' | 11 | 12)
}

/// Whether an emitter can be registered under a name.
pub(crate) fn is_name(name: &str) -> bool
    ensures value { result ≡ is_name name.now }
    ensures bound { OnTrue result (length name.now ≤ 64) }
{
    !name.is_empty() && name.len() <= LONGEST && are_name_bytes(name.as_bytes())
}

/// Whether an emitter's name may have all these bytes.
fn are_name_bytes(bytes: &[u8]) -> bool
    ensures { result ≡ list_all is_name_byte bytes.now }
{
    for byte in bytes {
        if !is_name_byte(*byte) {
            return false;
        }
    }
    true
}

/// Whether an emitter's name may have a byte.
fn is_name_byte(byte: u8) -> bool
    ensures { result ≡ is_name_byte byte }
{
    byte.is_ascii_alphanumeric() || byte == b'_' || byte == b'-'
}

/// The status that a word stands for.
pub(crate) fn status_named(word: &str) -> Option<LocalStatus>
    ensures { result ≡ status_named word.now }
{
    match word {
        "True" => Some(LocalStatus::True),
        "Dont_know" => Some(LocalStatus::DontKnow),
        "False_if_reachable" => Some(LocalStatus::FalseIfReachable),
        "False_and_reachable" => Some(LocalStatus::FalseAndReachable),
        _ => None,
    }
}

/// The number that a property's name stands for.
pub(crate) fn prop_named(props: &PropTable, name: &str) -> PropId
    ensures { result ≡ prop_named props.now.rows name.now }
{
    props.find(name).unwrap_or(NO_PROP)
}

/// A set and the parameter with a name. Bit 7, which is no parameter's, stands for one that there isn't.
#[tactic(auto, using(crate::proofs::Params::number_below))]
pub(crate) fn with_param(set: ParamSet, name: &str) -> ParamSet
    ensures { result ≡ with_param set name.now }
{
    ParamSet(set.0 | 1 << number(name))
}

/// The analyser with a name.
pub(crate) fn analyser_named(name: &str) -> Option<Analyser>
    ensures { result ≡ analyser_named name.now }
{
    match name {
        "rte" => Some(Analyser::Rte),
        "eva" => Some(Analyser::Eva),
        _ => None,
    }
}
