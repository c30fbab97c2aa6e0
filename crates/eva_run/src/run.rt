//! The entries of the emitter `eva`.

ghost use Rattle.std.specs.Prelude.{◌≡◌, ◌++◌, IfOk, length};
ghost use Rattle.eva_rules.specs.Entries as rules;
ghost use Rattle.eva_run.specs.Entered.{entries_by, entry_unless, status_by};
ghost use Rattle.param_book.specs.Table.{entry_function};
ghost use Rattle.prop_runs.specs.Numbers.{props_of};
ghost use Rattle.prop_table.specs.Rows.{rows_of};

use crate::analysis::function_at;
use crate::numbers::Numbers;
use crate::setting::{Setting, entry_number};
use crate::start::first_state;
use crate::tallies::{Tallies, Tally, no_records};
use c_ir::{Program, Prop, PropTable};
use fc_base::{EmitterId, LocalStatus, ParamValues, PropId};
use param_book::ENTRY_FUNCTION;
use sqlite_items::Items;
use status_history::{Entries, Entry};
use std::alloc::{AllocError, Global};

/// The emitter `eva`.
const EVA: EmitterId = EmitterId(2);

/// How many hypotheses an entry may have (this project's own).
const MOST_HYPS: usize = 256;

/// What is said of a property by its records.
fn status_of(tally: &Tally) -> LocalStatus
    ensures { result ≡ status_by tally.now }
{
    if tally.may_hold {
        LocalStatus::True
    } else if tally.may_fail {
        LocalStatus::FalseIfReachable
    } else {
        LocalStatus::DontKnow
    }
}

/// The entry of the property with this number.
fn entry(alloc: Global, number: u32, tally: &Tally, version: u32) -> Result<Entry, AllocError>
    ensures { IfOk result (λ e. e ≡ rules.entry_by version number (status_by tally.now) tally.now.used) }
{
    let status = status_of(tally);
    if status == LocalStatus::DontKnow || tally.used.len() > MOST_HYPS {
        return Ok(Entry {
            emitter: EVA,
            prop: PropId(number),
            status: LocalStatus::DontKnow,
            hyps: Items::new(alloc),
            version,
        });
    }
    Ok(Entry {
        emitter: EVA,
        prop: PropId(number),
        status,
        hyps: tally.used.props(alloc)?,
        version,
    })
}

/// The entry of a property, unless it is admitted.
fn add_entry(
    alloc: Global,
    entries: &mut Entries,
    number: u32,
    is_admitted: bool,
    tally: &Tally,
    version: u32,
) -> Result<(), AllocError>
    ensures { IfOk result (λ _. entries.new ≡ entries.old ++ entry_unless is_admitted version number tally.now) }
{
    if !is_admitted {
        entries.push(entry(alloc, number, tally, version)?)?;
    }
    Ok(())
}

/// The entries of all properties that aren't admitted, by their records.
fn entries_of(
    alloc: Global,
    props: &PropTable,
    params: &ParamValues,
    table: &Tallies,
    version: u32,
) -> Result<Entries, AllocError>
    requires { length table.now ≡ length props.now.rows }
    ensures { IfOk result (λ es. es ≡ entries_by props.now (entry_function params.now.values) version 0 props.now.rows table.now) }
{
    let rows = props.rows();
    let entry_function = params.get(ENTRY_FUNCTION);
    let mut entries = Items::new(alloc);
    for number in 0..rows.len() {
        let is_admitted = props.admits(&rows[number], entry_function);
        let tally = &table.as_slice()[number];
        add_entry(
            alloc,
            &mut entries,
            number as u32,
            is_admitted,
            tally,
            version,
        )?;
    }
    Ok(entries)
}

/// The entries of `eva` under these values of the parameters.
pub(crate) fn analysed(
    alloc: Global,
    program: &Program,
    props: &PropTable,
    params: &ParamValues,
    version: u32,
) -> Result<Entries, AllocError>
    requires { props.now ≡ props_of program.now }
    ensures { IfOk result (λ es. es ≡ rules.eva_said program.now (rows_of program.now) params.now.values version) }
{
    let rows = props.rows();
    let numbers = Numbers::new(alloc, rows)?;
    let setting = Setting {
        program,
        numbers: &numbers,
        params,
    };
    let function = entry_number(program, params);
    let state = first_state(alloc, program, params, function)?;
    let mut table = no_records(alloc, rows.len())?;
    let depth = program.fns.len();
    let _exits = function_at(alloc, setting, depth, true, function, state, &mut table)?;
    entries_of(alloc, props, params, &table, version)
}
