//! Changes of any kind, as a board makes them.

ghost use Rattle.std.specs.Prelude.{◌≡◌, true};
ghost use Rattle.event_board.specs.Asked.{IsOwn, has_name};
ghost use Rattle.prop_runs.specs.Numbers.{runs_of};
ghost use Rattle.status_history.specs.declared.history.Change.TheVariants.{Emit};
ghost use Rattle.status_rules.specs.Judge.{judge, judge_own};
ghost use Rattle.status_core.specs.Taken.{Made, Taken};

use crate::table::Table;
use status_history::{Change, Entry};
use status_rules::{Placed, Refusal};

impl Table<'_> {
    /// Makes a change of any kind, and tells its place and the version beside its value. An emitter's name has 1 to 64
    /// ASCII letters, digits, `_` and `-`.
    pub fn change(&mut self, change: &Change) -> Result<Placed, Refusal>
        requires { has_name change.now ≡ true }
        ensures { Made (judge self.old.props self.old.history change.now) change.now self.old self.new result }
    {
        let at = self.len();
        match self.made(change) {
            Ok(value) => Ok(Placed {
                at,
                version: self.version(),
                value,
            }),
            Err(why) => Err(why),
        }
    }

    /// Takes an entry of one of the program's own emitters, as `emit_kernel`, and tells its place and the version.
    pub fn own(&mut self, entry: &Entry) -> Result<Placed, Refusal>
        requires { IsOwn self.old.props (runs_of self.old.program) self.old.history entry.now }
        ensures { Made (judge_own self.old.props self.old.history entry.now) (Emit entry.now) self.old self.new result }
    {
        let at = self.len();
        match self.emit_kernel(entry) {
            Ok(value) => Ok(Placed {
                at,
                version: self.version(),
                value,
            }),
            Err(why) => Err(why),
        }
    }

    /// Makes a change of any kind, and answers its value.
    fn made(&mut self, change: &Change) -> Result<u32, Refusal>
        requires { has_name change.now ≡ true }
        ensures { Taken (λ n. n) (judge self.old.props self.old.history change.now) change.now self.old self.new result }
    {
        match change {
            Change::Register { name, correctness } => {
                match self.register(name.as_str(), *correctness) {
                    Ok(emitter) => Ok(emitter.0),
                    Err(why) => Err(why),
                }
            }
            Change::Param { number, value } => self.set_param(*number, *value),
            Change::Emit(entry) => self.emit(entry),
        }
    }
}
