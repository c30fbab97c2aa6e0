//! The history that a script's lines make, none of which stops it.

ghost use Rattle.std.specs.Prelude.{◌≡◌, ◌≤◌, ◌<◌, ◌+◌, ◌∷◌, ◌++◌, [], IfOk, length, map, nat_lt, not};
ghost use Rattle.event_board.specs.Standings.{has_taken, standing_of};
ghost use Rattle.event_script.specs.Lines.{request_of};
ghost use Rattle.event_script.specs.Reading.{Gives};
ghost use Rattle.prop_runs.specs.Numbers.{props_of};
ghost use Rattle.status_history.specs.declared.history.Change.TheVariants.{Register, Param, Emit};
ghost use Rattle.status_history.specs.Values.{extended, values_now, version_of};
ghost use Rattle.status_rules.specs.Judge.{emitters_of, is_taken, judge};
ghost use Rattle.event_script.specs.declared.script.Analyser.TheVariants.{Rte, Eva};
ghost use Rattle.kernel_serve.specs.Limits.{most_changes};
ghost use Rattle.kernel_serve.specs.Registered.{registered};
ghost use Rattle.kernel_serve.specs.Script.{with_change, with_line, with_own, with_run};
ghost use Rattle.kernel_serve.specs.inner.Keeping.{IsFirst, IsNew, MayJoin};
ghost use Rattle.kernel_serve.specs.inner.Steps.{GivesEntries, GivesLine};

use crate::front::Entered;
use crate::opening::{copied, emit_all};
use crate::status::LineFault;
use c_ir::PropTable;
use eva_run::{EvaFault, eva};
use event_board::{Standing, judge_at};
use event_script::{Analyser, Script, ScriptFault, Wanted};
use fc_base::{EmitterId, Name, ParamSet};
use param_book::{OWN_COUNT, own_named};
use rte_alarms::{call_links, type_decided};
use status_history::{Change, Entries, Entry, History};
use status_rules::{Placed, Refusal};
use std::alloc::{AllocError, Global};
use std::marker::Model;

/// The most changes of a history.
const MOST_CHANGES: usize = 200_000;

/// Why a line stops a script, or that there is no memory.
#[derive(Clone, Copy, Debug)]
pub(crate) enum Stopped {
    At(LineFault),
    Memory,
}

impl From<AllocError> for Stopped {
    ghost use Rattle.std.specs.Prelude.{◌≡◌};
    ghost use Rattle.kernel_serve.specs.declared.accepted.Stopped.TheVariants.{Memory};

    ghost from_gives = { λ _ e. e ≡ Memory };

    fn from(_: AllocError) -> Stopped {
        Stopped::Memory
    }
}

/// The history of the lines so far, which is what contracts see.
#[derive(Drop)]
pub(crate) struct Accepted {
    history: History,
    /// How many of its changes set a parameter.
    version: usize,
    /// A reader that was told of those emitters that were registered.
    script: Script,
}

impl Model for Accepted {
    ghost use Rattle.std.specs.Prelude.{◌≡◌};
    ghost use Rattle.status_history.specs.declared.history.History.{History};
    ghost use Rattle.kernel_serve.specs.inner.Keeping.{Keeps};

    ghost Value = { History };

    ghost view = { λ a. a.history };

    ghost invariant = { λ a. Keeps a.history a.version a.script };
}

impl Accepted {
    /// A history that sets no parameter and registers no emitter.
    pub(crate) fn new(alloc: Global, history: History) -> Accepted
        requires { IsFirst history }
        ensures { result ≡ history }
    {
        Accepted {
            history,
            version: 0,
            script: Script::new(alloc),
        }
    }

    /// The history so far.
    pub(crate) fn into_history(self) -> History
        ensures { result ≡ self }
    {
        self.history
    }

    /// The history with what a line asks for.
    pub(crate) fn with_line(
        mut self,
        alloc: Global,
        entered: &Entered,
        line: &[u8],
    ) -> Result<Accepted, Stopped>
        requires { entered.now.props ≡ props_of entered.now.program }
        ensures { GivesLine (with_line entered.now.program self line.now) result }
    {
        match self.wanted(&entered.props, line) {
            Ok(Wanted::Blank) => Ok(self),
            Ok(Wanted::Do(change)) => self.with_allowed(&entered.props, change),
            Ok(Wanted::Run(analyser)) => self.with_run(alloc, entered, analyser),
            Err(ScriptFault::Form) => Err(Stopped::At(LineFault::Form)),
            Err(ScriptFault::Memory) => Err(Stopped::Memory),
        }
    }

    /// What a line asks for.
    fn wanted(&mut self, props: &PropTable, line: &[u8]) -> Result<Wanted, ScriptFault>
        ensures value { Gives (λ w. w) result (request_of (registered self.old.changes) props.now.rows (version_of self.old) line.now) }
        ensures same { self.new ≡ self.old }
    {
        let version = self.version() as u32;
        self.script.line(line, props, version)
    }

    /// The history with this change, unless it is refused.
    fn with_allowed(self, props: &PropTable, change: Change) -> Result<Accepted, Stopped>
        ensures { GivesLine (with_change props.now self change) result }
    {
        match self.judged(props, &change) {
            Ok(_) => {}
            Err(why) => return Err(Stopped::At(LineFault::Refused(why))),
        }
        match self.with(change) {
            Ok(accepted) => Ok(accepted),
            Err(AllocError) => Err(Stopped::Memory),
        }
    }

    /// The history with what an analyser says.
    fn with_run(
        self,
        alloc: Global,
        entered: &Entered,
        analyser: Analyser,
    ) -> Result<Accepted, Stopped>
        requires { entered.now.props ≡ props_of entered.now.program }
        ensures { GivesLine (with_run entered.now.program self analyser) result }
    {
        let entries = match self.said_by(alloc, entered, analyser) {
            Ok(entries) => entries,
            Err(stopped) => return Err(stopped),
        };
        self.with_own(alloc, entries.as_slice())
    }

    /// What an analyser says under the values at the end of the history.
    #[tactic(auto, unfolding(crate::specs::Script::has_too_much, crate::specs::Script::said_by))]
    fn said_by(
        &self,
        alloc: Global,
        entered: &Entered,
        analyser: Analyser,
    ) -> Result<Entries, Stopped>
        requires { entered.now.props ≡ props_of entered.now.program }
        ensures { GivesEntries entered.now.program self.now analyser result }
    {
        match analyser {
            Analyser::Rte => self.said_by_types(alloc, entered),
            Analyser::Eva => self.said_by_analysis(alloc, entered),
        }
    }

    /// The links of calls, and the alarms that operand types decide.
    #[tactic(auto, unfolding(crate::specs::Script::has_too_much, crate::specs::Script::said_by))]
    fn said_by_types(&self, alloc: Global, entered: &Entered) -> Result<Entries, Stopped>
        requires { entered.now.props ≡ props_of entered.now.program }
        ensures { GivesEntries entered.now.program self.now Rte result }
    {
        let (program, props) = (&entered.program, &entered.props);
        let values = self.history.values();
        let version = self.version() as u32;
        let links = call_links(alloc, program, props, version)?;
        let decided = type_decided(alloc, program, props, &values, version)?;
        Ok(joined(alloc, links, decided.as_slice())?)
    }

    /// The entries of the analysis.
    #[tactic(auto, unfolding(crate::specs::Script::has_too_much, crate::specs::Script::said_by))]
    fn said_by_analysis(&self, alloc: Global, entered: &Entered) -> Result<Entries, Stopped>
        requires { entered.now.props ≡ props_of entered.now.program }
        ensures { GivesEntries entered.now.program self.now Eva result }
    {
        let values = self.history.values();
        let version = self.version() as u32;
        match eva(alloc, &entered.program, &entered.props, &values, version) {
            Ok(entries) => Ok(entries),
            Err(EvaFault::TooLarge { .. }) => Err(Stopped::At(LineFault::TooLarge)),
            Err(EvaFault::Memory) => Err(Stopped::Memory),
        }
    }

    /// The history with entries of the program's own emitters, if there is room for all of them.
    fn with_own(self, alloc: Global, entries: &[Entry]) -> Result<Accepted, Stopped>
        ensures { GivesLine (with_own self entries.now) result }
    {
        if !self.has_room(entries.len()) {
            return Err(Stopped::At(LineFault::Refused(Refusal::HistoryFull(200_000))));
        }
        match self.with_entries(alloc, entries) {
            Ok(accepted) => Ok(accepted),
            Err(AllocError) => Err(Stopped::Memory),
        }
    }

    /// Whether there is room for so many changes.
    fn has_room(&self, count: usize) -> bool
        ensures { result ≡ not (nat_lt most_changes (length self.now.changes + count)) }
    {
        let changes = self.history.changes.len();
        changes <= MOST_CHANGES && count <= MOST_CHANGES - changes
    }

    /// The history with emissions.
    fn with_entries(self, alloc: Global, entries: &[Entry]) -> Result<Accepted, AllocError>
        ensures { IfOk result (λ a. a ≡ extended self (map Emit entries.now)) }
    {
        let Accepted {
            mut history,
            version,
            script,
        } = self;
        emit_all(alloc, &mut history.changes, entries)?;
        Ok(Accepted {
            history,
            version,
            script,
        })
    }

    /// The history with one more change.
    fn with(self, change: Change) -> Result<Accepted, AllocError>
        requires { MayJoin self change }
        ensures { IfOk result (λ a. a ≡ extended self (change ∷ [])) }
    {
        match change {
            Change::Register { name, correctness } => self.with_emitter(name, correctness),
            Change::Param { number, value } => self.with_setting(number, value),
            Change::Emit(entry) => self.with_entry(entry),
        }
    }

    /// The history with a registration.
    fn with_emitter(self, name: Name, correctness: ParamSet) -> Result<Accepted, AllocError>
        requires { IsNew self name }
        ensures { IfOk result (λ a. a ≡ extended self (Register name correctness ∷ [])) }
    {
        let Accepted {
            mut history,
            version,
            mut script,
        } = self;
        let number = OWN_COUNT + script.len() as u32;
        script.told(name.as_str(), EmitterId(number))?;
        history
            .changes
            .push(Change::Register { name, correctness })?;
        Ok(Accepted {
            history,
            version,
            script,
        })
    }

    /// The history with a setting of a parameter.
    fn with_setting(self, number: u8, value: i64) -> Result<Accepted, AllocError>
        requires { length self.changes < 200000 }
        ensures { IfOk result (λ a. a ≡ extended self (Param number value ∷ [])) }
    {
        let Accepted {
            mut history,
            version,
            script,
        } = self;
        history.changes.push(Change::Param { number, value })?;
        Ok(Accepted {
            history,
            version: version + 1,
            script,
        })
    }

    /// The history with an emission.
    fn with_entry(self, entry: Entry) -> Result<Accepted, AllocError>
        ensures { IfOk result (λ a. a ≡ extended self (Emit entry ∷ [])) }
    {
        let Accepted {
            mut history,
            version,
            script,
        } = self;
        history.changes.push(Change::Emit(entry))?;
        Ok(Accepted {
            history,
            version,
            script,
        })
    }

    /// What a change is answered after the history so far.
    fn judged(&self, props: &PropTable, change: &Change) -> Result<Placed, Refusal>
        ensures { result ≡ judge props.now self.now change.now }
    {
        judge_at(props, self.standing(change), change)
    }

    /// What of the history so far the answer to another change rests on.
    fn standing(&self, change: &Change) -> Standing
        ensures value { result ≡ standing_of self.now change.now }
        ensures within { result.version ≤ result.changes }
        ensures known { result.emitters ≤ result.changes + 4 }
    {
        Standing {
            changes: self.history.changes.len(),
            version: self.version(),
            emitters: self.emitters(),
            is_taken: self.has_taken(change),
        }
    }

    /// How many changes set a parameter.
    #[tactic(auto, using(crate::proofs::Emitters::version_within))]
    fn version(&self) -> usize
        ensures value { result ≡ version_of self.now }
        ensures within { result ≤ length self.now.changes }
        ensures few { result ≤ 200000 }
    {
        self.version
    }

    /// How many emitters there are, with the program's own.
    #[tactic(auto, using(crate::proofs::Emitters::emitters_are, crate::proofs::Emitters::told_within))]
    fn emitters(&self) -> usize
        ensures value { result ≡ emitters_of self.now }
        ensures within { result ≤ length self.now.changes + 4 }
    {
        let changes = self.history.changes.as_slice();
        prove!(changes.len() <= isize::MAX as usize);
        OWN_COUNT as usize + self.script.len()
    }

    /// Whether a change registers an emitter under a name that one has.
    fn has_taken(&self, change: &Change) -> bool
        ensures { result ≡ has_taken self.now change.now }
    {
        match change {
            Change::Register { name, .. } => self.is_taken(name.as_str()),
            Change::Param { .. } | Change::Emit(_) => false,
        }
    }

    /// Whether an emitter has the name.
    fn is_taken(&self, name: &str) -> bool
        ensures { result ≡ is_taken self.now name.now }
    {
        own_named(name).is_some() || self.script.number_told(name).is_some()
    }
}

/// Entries, and then others.
fn joined(alloc: Global, first: Entries, second: &[Entry]) -> Result<Entries, AllocError>
    ensures { IfOk result (λ es. es ≡ first ++ second.now) }
{
    let mut entries = first;
    for entry in second {
        entries.push(copied(alloc, entry)?)?;
    }
    Ok(entries)
}
