//! Answering a call.

ghost use Rattle.std.specs.Prelude.{◌≡◌, ◌≤◌, ◌↔◌, IfErr, IfOk, IfSome, None, length, map, string_bytes};
ghost use Rattle.std.specs.Option.{option_map};
ghost use Rattle.std.specs.Result.{IsErrOf};
ghost use Rattle.fc_outside.specs.Causes.{Rose};
ghost use Rattle.prop_runs.specs.Numbers.{props_of};
ghost use Rattle.kernel_serve.specs.Asked.{AsksFiles, WasAsked};
ghost use Rattle.kernel_serve.specs.Headline.{Complete, Outcome, Says, TrueReport, Unwritten};
ghost use Rattle.kernel_serve.specs.Stages.{AtFile, entry_name, report_of};
ghost use Rattle.kernel_serve.specs.Told.{WhereTold};
ghost use Rattle.kernel_serve.specs.Words.{report_command};
ghost use Rattle.kernel_serve.specs.inner.Steps.{AsksMore, IsStop, OnlyReport, StopsAtFile, ToldHistory};
ghost use Rattle.kernel_serve.specs.inner.Taking.{command_of};

use crate::front::Entered;
use crate::inputs::{entered_in, history_in};
use crate::opening::{analysed, opening_changes};
use crate::status::Status;
use crate::words::{Command, report_command};
use eva_rules::entries_are_right;
use fc_outside::{Shelf, Sink, WriteFault, write_all};
use param_book::opening;
use prop_runs::runs_keep_laws;
use report_print::report;
use rte_alarms::{decided_are_right, links_are_right};
use status_history::{History, values_stay};
use status_rules::{full, verdicts_are_true};
use std::alloc::{AllocError, Global};

/// Answers the command that these words are, those after the program's name: `report FILE`, and then, each if it is
/// wanted and in this order, `--script EVENTS`, `--no-eva`, `--main NAME`, `--lib-entry` and `--points` (this project's
/// own). FILE may be empty, but is no option, which has two bytes or more and begins with `-`; EVENTS and NAME aren't
/// empty and don't begin with `-`, and NAME has at most 256 bytes. Other words are Usage, and then nothing is read.
///
/// The file is read first. It is refused at the first of these stages that it doesn't pass: it has at most
/// 4,194,304 bytes (Limit); it has tokens of C (`c_lex::tokens`); they are a text of C (`c_parse::parse`); each note
/// is an annotation (`acsl_notes::notes`); the text has a typed program (`c_types::check`; Limit where it has too many
/// cells); its annotations are bound (`acsl_bind::bind`); it defines the function NAME, or `main`; and it has at most
/// 65,536 properties (Limit). Without `--no-eva` it is analysed then (`eva_run::eva`; Limit where that would be too much
/// work). The links of its calls, the alarms that operand types decide (`rte_alarms`) and what the analysis says are
/// emitted in this order. Then the script, if one is named, is read, and refused where it has more than 16,777,216 bytes
/// (Limit). Its lines are taken in order (`event_script::Script::line` has their forms), up to the first that is of none
/// of these forms, whose change is refused (`status_rules::Refusal`), or that asks for an analysis that would be too much
/// work (ScriptLine). A line with `run` emits what `rte` or `eva` says under the values of the parameters at that line.
///
/// Else the report on the program's properties with the verdicts that this history comes to (`status_rules::full`) is
/// written, and all of it at Done; those of kind Dead are shown with `--points` alone. ReadFault and WriteFault come
/// only where the shelf or the sink had a fault, and Memory where there was no memory; at WriteFault a prefix of the
/// report was written, and on every other status but Done nothing.
///
/// At Done, where the counted entries of the emitters that the script registered are locally right over the runs
/// of the program (each status follows from its hypotheses; after Correnson and Signoles), each verdict is true
/// of these runs (clause `truth`); entries of `kernel`, `rte` and `eva` need no such premise. The file
/// `specs/Headline.antt` has what the first clauses say.
pub fn report_run<F: Shelf, S: Sink>(
    alloc: Global,
    words: &[String],
    shelf: &mut F,
    out: &mut S,
) -> Status
where
    ensures truth { WhereTold (F.files shelf.old) (S.held out.old) (S.held out.new) (Says (map string_bytes words.now) result) }
    ensures outcome { WhereTold (F.files shelf.old) (S.held out.old) (S.held out.new) (Outcome (map string_bytes words.now) result) }
    ensures complete { (Rose (F.faults shelf.old) (F.faults shelf.new) → ⊥) → (Rose (S.faults out.old) (S.faults out.new) → ⊥) → WhereTold (F.files shelf.old) (S.held out.old) (S.held out.new) (Complete (map string_bytes words.now) result) }
    ensures asked { WasAsked (map string_bytes words.now) (F.files shelf.old) (F.asked shelf.old) (F.asked shelf.new) }
    ensures usage { (result ≡ Status.Usage) ↔ (report_command (map string_bytes words.now) ≡ None) }
    ensures unwritten { Unwritten (S.held out.old) (S.held out.new) result }
    ensures read { result ≡ Status.ReadFault → Rose (F.faults shelf.old) (F.faults shelf.new) }
    ensures write { result ≡ Status.WriteFault → Rose (S.faults out.old) (S.faults out.new) }
    ensures reads { F.faults shelf.old ≤ F.faults shelf.new }
    ensures writes { S.faults out.old ≤ S.faults out.new }
    ensures files { F.files shelf.new ≡ F.files shelf.old }
    ensures never_fails { F.never_fails shelf.new ≡ F.never_fails shelf.old }
{
    let Some(command) = report_command(words) else {
        return Status::Usage;
    };
    let text = match prepared(alloc, shelf, command) {
        Ok(text) => text,
        Err(status) => return status,
    };
    match write_all(out, text.as_slice()) {
        Ok(()) => Status::Done,
        Err(WriteFault) => Status::WriteFault,
    }
}

/// Reads the files and makes the report.
fn prepared<F: Shelf>(alloc: Global, shelf: &mut F, command: Command) -> Result<Vec<u8>, Status>
where
    requires { IfSome command.main (λ name. length name.now ≤ 256) }
    ensures text { IfSome (F.files shelf.old) (λ files. IfOk result (λ text. AtFile files (command_of command.entry) Status.Done text.items)) }
    ensures truth { IfSome (F.files shelf.old) (λ files. IfOk result (λ text. TrueReport (command_of command.entry) files text.items)) }
    ensures stops { IfSome (F.files shelf.old) (λ files. IfErr result (StopsAtFile files (command_of command.entry))) }
    ensures only { IfSome (F.files shelf.old) (λ files. OnlyReport files (command_of command.entry) result) }
    ensures ends { IfErr result IsStop }
    ensures asked { AsksFiles (F.files shelf.old) (F.asked shelf.old) (F.asked shelf.new) (command_of command.entry) }
    ensures read { IsErrOf result Status.ReadFault → Rose (F.faults shelf.old) (F.faults shelf.new) }
    ensures later { F.faults shelf.old ≤ F.faults shelf.new }
    ensures files { F.files shelf.new ≡ F.files shelf.old }
    ensures never_fails { F.never_fails shelf.new ≡ F.never_fails shelf.old }
{
    runs_keep_laws();
    verdicts_are_true();
    links_are_right();
    decided_are_right();
    entries_are_right();
    values_stay();
    let entered = match entered_in(alloc, shelf, command.file, entry_name(command.main)) {
        Ok(entered) => entered,
        Err(refusal) => return Err(refusal),
    };
    entered.program.keeps();
    let history = match history_of(alloc, shelf, command, &entered) {
        Ok(history) => history,
        Err(status) => return Err(status),
    };
    match report_of(alloc, command, &entered, &history) {
        Ok(text) => Ok(text),
        Err(AllocError) => Err(Status::Memory),
    }
}

/// The name of the entry function.
fn entry_name(main: Option<&str>) -> &str
    requires { IfSome main (λ name. length name.now ≤ 256) }
    ensures name { result.now ≡ entry_name (option_map (λ w. w.now) main.entry) }
    ensures bound { length result.now ≤ 256 }
{
    match main {
        Some(name) => name,
        None => "main",
    }
}

/// The history of the opening and of the script, if one is named; refused where the analysis would be too much work.
fn history_of<F: Shelf>(
    alloc: Global,
    shelf: &mut F,
    command: Command,
    entered: &Entered,
) -> Result<History, Status>
where
    requires { entered.now.props ≡ props_of entered.now.program }
    ensures told { ToldHistory (F.files shelf.old) (command_of command.entry) entered.now result }
    ensures stops { IfErr result IsStop }
    ensures asked { AsksMore (command_of command.entry) entered.now (F.asked shelf.old) (F.asked shelf.new) }
    ensures files { F.files shelf.new ≡ F.files shelf.old }
    ensures never_fails { F.never_fails shelf.new ≡ F.never_fails shelf.old }
    ensures later { F.faults shelf.old ≤ F.faults shelf.new }
    ensures fault { IsErrOf result Status.ReadFault → Rose (F.faults shelf.old) (F.faults shelf.new) }
{
    let opening = opening(entered.entry, command.lib_entry);
    let found = match analysed(alloc, command, entered, &opening) {
        Ok(found) => found,
        Err(status) => return Err(status),
    };
    let Ok(changes) = opening_changes(alloc, entered, &opening, found.as_slice()) else {
        return Err(Status::Memory);
    };
    let first = History { opening, changes };
    match command.script {
        None => Ok(first),
        Some(name) => history_in(alloc, shelf, name, entered, first),
    }
}

/// The report on a program after a history.
#[tactic(auto, unfolding(crate::specs::Stages::report_of))]
fn report_of(
    alloc: Global,
    command: Command,
    entered: &Entered,
    history: &History,
) -> Result<Vec<u8>, AllocError>
    requires { entered.now.props ≡ props_of entered.now.program }
    ensures { IfOk result (λ text. text.items ≡ report_of (command_of command.entry) entered.now.program history.now) }
{
    let verdicts = full(alloc, history, &entered.props)?;
    report(alloc, &entered.props, verdicts.as_slice(), command.points)
}
