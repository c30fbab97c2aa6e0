//! What is emitted of a program before all else.

ghost use Rattle.std.specs.Prelude.{◌≡◌, ◌++◌, IfOk, OnOk, map};
ghost use Rattle.prop_runs.specs.Numbers.{props_of};
ghost use Rattle.status_history.specs.declared.history.Change.TheVariants.{Emit};
ghost use Rattle.kernel_serve.specs.Stages.{opening_with, values_of};
ghost use Rattle.kernel_serve.specs.inner.Steps.{IsWorkAnswer};
ghost use Rattle.kernel_serve.specs.inner.Taking.{command_of};

use crate::front::Entered;
use crate::status::{LimitFault, Status};
use crate::words::Command;
use c_ir::{Program, PropTable};
use eva_run::{EvaFault, eva};
use fc_base::ParamValues;
use rte_alarms::{call_links, type_decided};
use sqlite_items::Items;
use status_history::{Change, Changes, Entries, Entry};
use std::alloc::{AllocError, Global};

/// What the analysis says under these values of the parameters, if it is wanted; refused where it would be too much
/// work.
#[tactic(auto, unfolding(crate::specs::Stages::analysed, crate::specs::Stages::is_too_much, crate::specs::Stages::too_large))]
pub(crate) fn analysed(
    alloc: Global,
    command: Command,
    entered: &Entered,
    values: &ParamValues,
) -> Result<Entries, Status>
    requires table { entered.now.props ≡ props_of entered.now.program }
    requires values { values.now ≡ record { values = values_of (command_of command) entered.now.entry } }
    ensures { IsWorkAnswer (command_of command.entry) entered.now.program entered.now.entry result }
{
    if command.no_eva {
        return Ok(Items::new(alloc));
    }
    match eva(alloc, &entered.program, &entered.props, values, 0) {
        Ok(entries) => Ok(entries),
        Err(EvaFault::TooLarge { work, cells }) => {
            Err(Status::Limit(LimitFault::TooLarge { work, cells }))
        }
        Err(EvaFault::Memory) => Err(Status::Memory),
    }
}

/// The links of calls, then the alarms that operand types decide, and then these entries.
#[tactic(auto, unfolding(crate::specs::Stages::opening_with))]
pub(crate) fn opening_changes(
    alloc: Global,
    entered: &Entered,
    values: &ParamValues,
    analysed: &[Entry],
) -> Result<Changes, AllocError>
    requires { entered.now.props ≡ props_of entered.now.program }
    ensures { IfOk result (λ cs. cs ≡ opening_with entered.now.program analysed.now) }
{
    let (program, props) = (&entered.program, &entered.props);
    let links = call_links(alloc, program, props, 0)?;
    let decided = type_decided(alloc, program, props, values, 0)?;
    let mut changes = Items::new(alloc);
    emit_all(alloc, &mut changes, links.as_slice())?;
    emit_all(alloc, &mut changes, decided.as_slice())?;
    emit_all(alloc, &mut changes, analysed)?;
    Ok(changes)
}

/// Emits these entries.
pub(crate) fn emit_all(
    alloc: Global,
    changes: &mut Changes,
    entries: &[Entry],
) -> Result<(), AllocError>
    ensures { OnOk result (changes.new ≡ changes.old ++ map Emit entries.now) }
{
    for entry in entries {
        changes.push(Change::Emit(copied(alloc, entry)?))?;
    }
    Ok(())
}

/// The same entry.
pub(crate) fn copied(alloc: Global, entry: &Entry) -> Result<Entry, AllocError>
    ensures { IfOk result (λ e. e ≡ entry.now) }
{
    Ok(Entry {
        emitter: entry.emitter,
        prop: entry.prop,
        status: entry.status,
        hyps: Items::from_slice(alloc, entry.hyps.as_slice())?,
        version: entry.version,
    })
}
