//! The calls that make a change.

ghost use Rattle.std.specs.Prelude.{◌≡◌, ◌<◌, ◌≤◌, ◌+◌, [], ◌∷◌, IfOk, length, true};
ghost use Rattle.c_ir.specs.Table.{is_row};
ghost use Rattle.event_board.specs.Asked.{IsOwn, all_fit};
ghost use Rattle.fc_base.specs.declared.ids.EmitterId.{EmitterId};
ghost use Rattle.param_book.specs.Emitters.{is_external};
ghost use Rattle.param_book.specs.Table.{fits_param};
ghost use Rattle.prop_runs.specs.Numbers.{runs_of};
ghost use Rattle.status_history.specs.Values.{extended, values_now, version_of};
ghost use Rattle.status_history.specs.declared.history.Change.TheVariants.{Emit, Param, Register};
ghost use Rattle.status_rules.specs.Judge.{emitters_of, is_emitter_name, is_taken, judge, judge_own};
ghost use Rattle.status_core.specs.Taken.{Taken};

use crate::refused::{if_full, refused_emitter, refused_entry, refused_value};
use crate::table::Table;
use event_board::Standing;
use fc_base::{EmitterId, Name, ParamSet};
use param_book::own_named;
use status_history::{Change, Entry};
use status_rules::{Placed, Refusal};
use std::alloc::AllocError;

impl Table<'_> {
    /// Registers an emitter, whose entries rest on these parameters, under a name of 1 to 64 ASCII letters, digits, `_`
    /// and `-`, and gives its number. It is refused as OutOfRange exactly where the set has a bit of no parameter, then
    /// as NameTaken, TooManyEmitters or HistoryFull.
    pub fn register(&mut self, name: &str, correctness: ParamSet) -> Result<EmitterId, Refusal>
        requires { is_emitter_name name.now ≡ true }
        ensures { Taken (λ (e : EmitterId). e.0) (judge self.old.props self.old.history (Register name.now correctness)) (Register name.now correctness) self.old self.new result }
    {
        let placed = match self.judged_emitter(name, correctness) {
            Ok(placed) => placed,
            Err(why) => return Err(why),
        };
        let name = match Name::new(self.alloc, name) {
            Ok(name) => name,
            Err(AllocError) => return Err(Refusal::Memory),
        };
        self.fits_still(name.as_str(), correctness);
        match self.append(Change::Register { name, correctness }) {
            Ok(()) => Ok(EmitterId(placed.value)),
            Err(AllocError) => Err(Refusal::Memory),
        }
    }

    /// Gives a parameter a value, and answers the new version. It is refused as OutOfRange exactly where there is no
    /// such parameter or the value is out of its range, and then as HistoryFull.
    pub fn set_param(&mut self, no: u8, value: i64) -> Result<u32, Refusal>
        ensures { Taken (λ n. n) (judge self.old.props self.old.history (Param no value)) (Param no value) self.old self.new result }
    {
        let placed = match self.judged_value(no, value) {
            Ok(placed) => placed,
            Err(why) => return Err(why),
        };
        self.fits_after(no, value);
        match self.append(Change::Param { number: no, value }) {
            Ok(()) => Ok(placed.value),
            Err(AllocError) => Err(Refusal::Memory),
        }
    }

    /// Takes an entry of a registered emitter, and answers its place. It is refused as UnknownEmitter,
    /// ReservedEmitter, UnknownProperty, UnknownHyp, TooManyHyps, FutureVersion or HistoryFull, the first that stands.
    pub fn emit(&mut self, entry: &Entry) -> Result<u32, Refusal>
        ensures { Taken (λ n. n) (judge self.old.props self.old.history (Emit entry.now)) (Emit entry.now) self.old self.new result }
    {
        let placed = match self.judged_entry(entry) {
            Ok(placed) => placed,
            Err(why) => return Err(why),
        };
        match self.append_entry(entry) {
            Ok(()) => Ok(placed.value),
            Err(AllocError) => Err(Refusal::Memory),
        }
    }

    /// Takes an entry of one of the program's own emitters, which is locally right over the program's runs, and answers
    /// its place. It is refused as HistoryFull alone.
    pub fn emit_kernel(&mut self, entry: &Entry) -> Result<u32, Refusal>
        requires { IsOwn self.old.props (runs_of self.old.program) self.old.history entry.now }
        ensures { Taken (λ n. n) (judge_own self.old.props self.old.history entry.now) (Emit entry.now) self.old self.new result }
    {
        let placed = match self.judged_own(entry) {
            Ok(placed) => placed,
            Err(why) => return Err(why),
        };
        match self.append_entry(entry) {
            Ok(()) => Ok(placed.value),
            Err(AllocError) => Err(Refusal::Memory),
        }
    }

    /// What the answer to a change rests on.
    fn standing(&self, is_taken: bool) -> Standing
        ensures value { result ≡ record { changes = length self.now.history.changes; version = version_of self.now.history; emitters = emitters_of self.now.history; is_taken = is_taken } }
        ensures within { result.version ≤ result.changes }
        ensures known { result.emitters ≤ result.changes + 4 }
        ensures few { result.changes ≤ 200000 }
    {
        Standing {
            changes: self.history.changes.len(),
            version: self.past.versions.len() - 1,
            emitters: self.past.sets.len(),
            is_taken,
        }
    }

    /// Whether an emitter has a name.
    fn is_taken(&self, name: &str) -> bool
        ensures { result ≡ is_taken self.now.history name.now }
    {
        own_named(name).is_some() || self.past.has_name(name)
    }

    /// What a registration is answered.
    fn judged_emitter(&self, name: &str, correctness: ParamSet) -> Result<Placed, Refusal>
        ensures value { result ≡ judge self.now.props self.now.history (Register name.now correctness) }
        ensures few { IfOk result (λ _. length self.now.history.changes < 200000) }
    {
        let standing = self.standing(self.is_taken(name));
        match refused_emitter(standing, correctness) {
            Some(why) => Err(why),
            None => Ok(placed(standing, standing.emitters)),
        }
    }

    /// What a setting is answered.
    fn judged_value(&self, no: u8, value: i64) -> Result<Placed, Refusal>
        ensures value { result ≡ judge self.now.props self.now.history (Param no value) }
        ensures few { IfOk result (λ _. length self.now.history.changes < 200000) }
        ensures fits { IfOk result (λ _. fits_param self.now.props.defined no value ≡ true) }
    {
        let standing = self.standing(false);
        match refused_value(self.props, standing, no, value) {
            Some(why) => Err(why),
            None => Ok(placed_setting(standing)),
        }
    }

    /// What a setting leaves: values that are all in their ranges.
    fn fits_after(&self, no: u8, value: i64)
        requires { fits_param self.now.props.defined no value ≡ true }
        ensures { all_fit self.now.props (values_now (extended self.now.history (Param no value ∷ []))) ≡ true }
    {
        let _ = &self.past;
    }

    /// What a registration leaves: the same.
    fn fits_still(&self, name: &str, correctness: ParamSet)
        ensures { all_fit self.now.props (values_now (extended self.now.history (Register name.now correctness ∷ []))) ≡ true }
    {
        let _ = &self.past;
    }

    /// What an emission is answered.
    fn judged_entry(&self, entry: &Entry) -> Result<Placed, Refusal>
        ensures value { result ≡ judge self.now.props self.now.history (Emit entry.now) }
        ensures few { IfOk result (λ _. length self.now.history.changes < 200000) }
        ensures known { IfOk result (λ _. is_row self.now.props entry.now.prop.0 ≡ true) }
        ensures external { IfOk result (λ _. is_external entry.now.emitter ≡ true) }
    {
        let standing = self.standing(false);
        match refused_entry(self.props, standing, entry) {
            Some(why) => Err(why),
            None => Ok(placed(standing, standing.changes + 1)),
        }
    }

    /// What an emission of one of the program's own emitters is answered.
    fn judged_own(&self, entry: &Entry) -> Result<Placed, Refusal>
        requires { IsOwn self.now.props (runs_of self.now.program) self.now.history entry.now }
        ensures value { result ≡ judge_own self.now.props self.now.history entry.now }
        ensures few { IfOk result (λ _. length self.now.history.changes < 200000) }
    {
        let standing = self.standing(false);
        match if_full(standing) {
            Some(why) => Err(why),
            None => Ok(placed(standing, standing.changes + 1)),
        }
    }
}

/// What a change comes to that sets no parameter.
fn placed(standing: Standing, value: usize) -> Placed
    requires few { standing.changes ≤ 200000 }
    requires within { standing.version ≤ standing.changes }
    requires small { value < 4294967296 }
    ensures { result ≡ record { at = standing.changes; version = standing.version; value = value } }
{
    Placed {
        at: standing.changes as u32,
        version: standing.version as u32,
        value: value as u32,
    }
}

/// What a setting comes to: the new version.
fn placed_setting(standing: Standing) -> Placed
    requires few { standing.changes ≤ 200000 }
    requires within { standing.version ≤ standing.changes }
    ensures { result ≡ record { at = standing.changes; version = standing.version + 1; value = standing.version + 1 } }
{
    let version = standing.version as u32 + 1;
    Placed {
        at: standing.changes as u32,
        version,
        value: version,
    }
}
