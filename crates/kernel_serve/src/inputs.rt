//! The files that a command names.

ghost use Rattle.std.specs.Prelude.{◌≡◌, ◌≤◌, [], IfErr, IfOk, IfSome, length};
ghost use Rattle.std.specs.Result.{IsErrOf};
ghost use Rattle.fc_outside.specs.Causes.{Rose};
ghost use Rattle.fc_outside.specs.Contents.{told_contents};
ghost use Rattle.prop_runs.specs.Numbers.{props_of};
ghost use Rattle.kernel_serve.specs.Asked.{ReadsFile, ReadsScript};
ghost use Rattle.kernel_serve.specs.Limits.{most_script};
ghost use Rattle.kernel_serve.specs.Script.{lines_of, with_lines};
ghost use Rattle.kernel_serve.specs.inner.Keeping.{IsFirst};
ghost use Rattle.kernel_serve.specs.inner.Steps.{GivesHistory, HasTable, IsFileAnswer, IsScriptAnswer, IsStop, UnlessReadFault};

use crate::accepted::{Accepted, Stopped};
use crate::front::{Entered, MOST_FILE, program_in};
use crate::lines::first_line;
use crate::status::{LimitFault, Status};
use fc_outside::{ReadError, Shelf, read_all};
use status_history::History;
use std::alloc::Global;

/// The most bytes of a script.
const MOST_SCRIPT: usize = 16_777_216;

/// The program of the named file, whose entry function has this name; refused where its bytes are none.
pub(crate) fn entered_in<F: Shelf>(
    alloc: Global,
    shelf: &mut F,
    file: &str,
    name: &str,
) -> Result<Entered, Status>
where
    requires { length name.now ≤ 256 }
    ensures told { IfSome (told_contents file.now (F.files shelf.old)) (λ bytes. UnlessReadFault result (IsFileAnswer name.now bytes result)) }
    ensures table { IfOk result HasTable }
    ensures stops { IfErr result IsStop }
    ensures asked { ReadsFile file.now (F.asked shelf.old) (F.asked shelf.new) }
    ensures files { F.files shelf.new ≡ F.files shelf.old }
    ensures never_fails { F.never_fails shelf.new ≡ F.never_fails shelf.old }
    ensures later { F.faults shelf.old ≤ F.faults shelf.new }
    ensures fault { IsErrOf result Status.ReadFault → Rose (F.faults shelf.old) (F.faults shelf.new) }
{
    let bytes = match read_all(alloc, shelf, file, MOST_FILE) {
        Ok(bytes) => bytes,
        Err(ReadError::Fault) => return Err(Status::ReadFault),
        Err(ReadError::Memory) => return Err(Status::Memory),
    };
    match program_in(alloc, bytes.as_slice(), name) {
        Ok(entered) => Ok(entered),
        Err(status) => Err(status),
    }
}

/// The history of the named script after another one; refused where its bytes are too many, or one of its lines stops
/// it.
pub(crate) fn history_in<F: Shelf>(
    alloc: Global,
    shelf: &mut F,
    name: &str,
    entered: &Entered,
    before: History,
) -> Result<History, Status>
where
    requires table { entered.now.props ≡ props_of entered.now.program }
    requires first { IsFirst before }
    ensures told { IfSome (told_contents name.now (F.files shelf.old)) (λ bytes. UnlessReadFault result (IsScriptAnswer entered.now.program before bytes result)) }
    ensures stops { IfErr result IsStop }
    ensures asked { ReadsScript name.now (F.asked shelf.old) (F.asked shelf.new) }
    ensures files { F.files shelf.new ≡ F.files shelf.old }
    ensures never_fails { F.never_fails shelf.new ≡ F.never_fails shelf.old }
    ensures later { F.faults shelf.old ≤ F.faults shelf.new }
    ensures fault { IsErrOf result Status.ReadFault → Rose (F.faults shelf.old) (F.faults shelf.new) }
{
    let bytes = match read_all(alloc, shelf, name, MOST_SCRIPT) {
        Ok(bytes) => bytes,
        Err(ReadError::Fault) => return Err(Status::ReadFault),
        Err(ReadError::Memory) => return Err(Status::Memory),
    };
    match scripted(alloc, entered, before, bytes.as_slice()) {
        Ok(history) => Ok(history),
        Err(status) => Err(status),
    }
}

/// The history of a script after another one.
#[tactic(auto, unfolding(crate::specs::Script::scripted))]
fn scripted(
    alloc: Global,
    entered: &Entered,
    before: History,
    text: &[u8],
) -> Result<History, Status>
    requires table { entered.now.props ≡ props_of entered.now.program }
    requires first { IsFirst before }
    ensures { IsScriptAnswer entered.now.program before text.now result }
{
    if text.len() > MOST_SCRIPT {
        return Err(Status::Limit(LimitFault::ScriptTooLong(16_777_217)));
    }
    match history_of_lines(alloc, entered, before, text) {
        Ok(history) => Ok(history),
        Err(status) => Err(status),
    }
}

/// The history of the lines of a text, in order, after another one.
fn history_of_lines(
    alloc: Global,
    entered: &Entered,
    before: History,
    text: &[u8],
) -> Result<History, Status>
    requires table { entered.now.props ≡ props_of entered.now.program }
    requires first { IsFirst before }
    requires length { length text.now ≤ most_script }
    ensures { GivesHistory (with_lines entered.now.program 1 before (lines_of text.now)) result }
{
    let mut accepted = Accepted::new(alloc, before);
    let mut rest = Some(text);
    let mut number = 1;
    'lines: while let Some(text) = rest {
        let (line, more) = first_line(text);
        accepted = match accepted.with_line(alloc, entered, line) {
            Ok(accepted) => accepted,
            Err(Stopped::At(why)) => return Err(Status::ScriptLine { line: number, why }),
            Err(Stopped::Memory) => return Err(Status::Memory),
        };
        rest = more;
        number += 1;
    }
    Ok(accepted.into_history())
}
