//! The state at the start of a run.

ghost use Rattle.std.specs.Prelude.{◌≡◌, ◌++◌, if◌then◌else◌, IfOk, map};
ghost use Rattle.c_runs.specs.Programs as runs;
ghost use Rattle.eva_rules.specs.Entries as rules;
ghost use Rattle.eva_rules.specs.Writing as writing;

use crate::writing::{exactly, receive, receive_all, unset};
use abs_cells::Cells;
use abs_state::State;
use c_ir::{CellInfo, Program};
use fc_base::ParamValues;
use int_value::Value;
use prop_set::PropSet;
use sqlite_items::Items;
use std::alloc::{AllocError, Global};

/// The number of the parameter `lib_entry`.
const LIB_ENTRY: u8 = 1;

/// What a cell has at the start.
fn start_of(info: &CellInfo) -> Value
    ensures { result ≡ writing.start_of info.now }
{
    match &info.start {
        None => unset(),
        Some(number) => exactly(number),
    }
}

/// What all cells have at the start.
fn start_cells(alloc: Global, program: &Program) -> Result<Cells, AllocError>
    ensures { IfOk result (λ c. c ≡ map writing.start_of program.now.cells) }
{
    let infos = program.cells.as_slice();
    let mut values = Items::new(alloc);
    for info in infos {
        values.push(start_of(info))?;
    }
    Ok(Cells::new(values))
}

/// Whether a library call finds any number in the cell: it is at file scope and isn't `const`.
fn is_free(info: &CellInfo) -> bool
    ensures { result ≡ runs.is_free info.now }
{
    info.owner.is_none() && !info.constant
}

/// A cell gets each number of its type, if it is free.
fn receive_if(
    program: &Program,
    is_free: bool,
    cell: usize,
    env: Option<Cells>,
) -> Result<Option<Cells>, AllocError>
    ensures { IfOk result (λ e. e ≡ (if is_free then writing.receive program.now cell env else env)) }
{
    if is_free {
        receive(program, cell, env)
    } else {
        Ok(env)
    }
}

/// The free cells get each number of their types.
#[tactic(auto, using(crate::proofs::Leaves::free_step, crate::proofs::Leaves::free_end))]
fn receive_free(program: &Program, env: Option<Cells>) -> Result<Option<Cells>, AllocError>
    ensures { IfOk result (λ e. e ≡ writing.receive_all program.now (runs.free_cells 0 program.now.cells) env) }
{
    let mut now = env;
    let infos = program.cells.as_slice();
    for cell in 0..infos.len() {
        now = receive_if(program, is_free(&infos[cell]), cell, now)?;
    }
    Ok(now)
}

/// The state before the entry function, which has this number.
pub(crate) fn first_state(
    alloc: Global,
    program: &Program,
    params: &ParamValues,
    function: usize,
) -> Result<State, AllocError>
    ensures { IfOk result (λ s. s ≡ rules.first_state program.now (runs.is_lib_entry params.now.values) function) }
{
    let mut env = Some(start_cells(alloc, program)?);
    if params.get(LIB_ENTRY) != 0 {
        env = receive_free(program, env)?;
    }
    if let Some(f) = program.fns.get(function) {
        env = receive_all(program, f.formals.as_slice(), env)?;
    }
    Ok(State {
        env,
        used: PropSet::new(alloc),
    })
}
