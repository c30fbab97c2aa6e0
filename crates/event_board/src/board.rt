//! The trait of a table of statuses that several callers share.

ghost use Rattle.std.specs.Prelude.{◌≡◌, List, true};
ghost use Rattle.fc_base.specs.declared.params.ParamValues.{ParamValues};
ghost use Rattle.c_ir.specs.Programs.{Program};
ghost use Rattle.c_ir.specs.Props.{Props};
ghost use Rattle.status_history.specs.Events.{kept};
ghost use Rattle.status_history.specs.declared.events.Event.{Event};
ghost use Rattle.status_history.specs.declared.events.Half.{Half};
ghost use Rattle.status_rules.specs.Truth.{Runs};
ghost use Rattle.event_board.specs.Asked.{IsOwn, has_limit, has_name};
ghost use Rattle.event_board.specs.Calls.{AnswerFits, Changed, Looked, Owned, Seen};

use status_history::{Change, Entry};
use status_rules::{Answer, BoardFault, Placed, Question};
use std::alloc::Global;

/// A table of statuses as one of its callers sees it. Each call is one event at the caller's address, and is answered
/// over the changes of all events before it. Want of memory alone makes no event, and neither does a call for whose
/// event there is no room.
pub trait Board {
    /// The program whose properties the table has.
    ghost program: { Self → Program };

    /// The table of its properties.
    ghost props: { Self → Props };

    /// Its runs, by the values of the run parameters.
    ghost runs: { Self → Runs };

    /// The values of the parameters at the opening.
    ghost opening: { Self → ParamValues };

    /// Where the caller's pass stands among all.
    ghost address: { Self → List Half };

    /// The events that the caller knows of, its own among them, from the first on.
    ghost seen: { Self → List Event };

    /// Answers a question. It is refused as UnknownProperty exactly where it asks for the status or the support of no
    /// property of the table, and as EventsFull exactly where there are 2^62 events. Limits are 1 to 1,000.
    fn look(&mut self, alloc: Global, question: &Question) -> Result<Answer, BoardFault>
        requires limit { has_limit question.now ≡ true }
        ensures answer { Looked (props self.old) (record { opening = opening self.old; address = address self.old; before = seen self.old; now = seen self.new }) question.now result }
        ensures fits { AnswerFits (props self.old) result }
        ensures program { program self.new ≡ program self.old }
        ensures props { props self.new ≡ props self.old }
        ensures runs { runs self.new ≡ runs self.old }
        ensures opening { opening self.new ≡ opening self.old }
        ensures address { address self.new ≡ address self.old };

    /// Makes a change, unless a refusal stands; the first in the table's order is told. An emitter's name has 1 to 64
    /// ASCII letters, digits, `_` and `-`.
    fn change(&mut self, alloc: Global, change: &Change) -> Result<Placed, BoardFault>
        requires name { has_name change.now ≡ true }
        ensures answer { Changed (props self.old) (record { opening = opening self.old; address = address self.old; before = seen self.old; now = seen self.new }) change.now result }
        ensures program { program self.new ≡ program self.old }
        ensures props { props self.new ≡ props self.old }
        ensures runs { runs self.new ≡ runs self.old }
        ensures opening { opening self.new ≡ opening self.old }
        ensures address { address self.new ≡ address self.old };

    /// Emits an entry of one of the program's own emitters, which is locally right over the program's runs under the
    /// values at its version.
    fn own(&mut self, alloc: Global, entry: &Entry) -> Result<Placed, BoardFault>
        requires own { IsOwn (props self.old) (runs self.old) (kept (opening self.old) (seen self.old)) entry.now }
        ensures answer { Owned (props self.old) (record { opening = opening self.old; address = address self.old; before = seen self.old; now = seen self.new }) entry.now result }
        ensures program { program self.new ≡ program self.old }
        ensures props { props self.new ≡ props self.old }
        ensures runs { runs self.new ≡ runs self.old }
        ensures opening { opening self.new ≡ opening self.old }
        ensures address { address self.new ≡ address self.old };
}
