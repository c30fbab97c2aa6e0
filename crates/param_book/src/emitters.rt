//! The program's own emitters (this project's own): 0 `kernel`, 1 `rte`, 2 `eva`, 3 `replay`. `eva` rests on
//! parameters 0 to 4, the others on 0 to 2.

ghost use Rattle.std.specs.Prelude.{◌≡◌};
ghost use Rattle.param_book.specs.Emitters.{own_named, own_sets, is_external};

use fc_base::{EmitterId, ParamSet};

/// How many emitters are there at the opening; those that are registered have the numbers from this one on.
pub const OWN_COUNT: u32 = 4;

/// The number of the program's own emitter with this name; None exactly where none has it.
#[tactic(auto, unfolding(crate::specs::Emitters::own_named))]
pub fn own_named(name: &str) -> Option<EmitterId>
    ensures { result ≡ own_named name.now }
{
    match name {
        "kernel" => Some(EmitterId(0)),
        "rte" => Some(EmitterId(1)),
        "eva" => Some(EmitterId(2)),
        "replay" => Some(EmitterId(3)),
        _ => None,
    }
}

/// The parameters on which the entries of the program's own emitters rest, by the emitters' numbers.
pub fn own_sets() -> [ParamSet; 4]
    ensures { result ≡ own_sets }
{
    [ParamSet(7), ParamSet(7), ParamSet(31), ParamSet(7)]
}

/// Whether a number is that of an emitter that was registered, and not of one of the program's own.
pub fn is_external(emitter: EmitterId) -> bool
    ensures { result ≡ is_external emitter }
{
    OWN_COUNT <= emitter.0
}
