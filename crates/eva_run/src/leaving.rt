//! How functions are entered and left.

ghost use Rattle.std.specs.Prelude.{◌≡◌, ◌+◌, ◌<◌, ◌^◌, IfOk, slice_get};
ghost use Rattle.std.specs.Option.{option_map};
ghost use Rattle.c_runs.specs.Runs.{Returns};
ghost use Rattle.c_runs.specs.Statements as runs;
ghost use Rattle.c_runs.specs.Statements.{formals_in, result_in};
ghost use Rattle.eva_rules.specs.Passing as passing;
ghost use Rattle.eva_rules.specs.Statements as rules;
ghost use Rattle.eva_rules.specs.Writing as writing;
ghost use Rattle.eva_run.specs.Code as code;
ghost use Rattle.eva_run.specs.Code.{alone, exits_of, writes_of};

use crate::exits::{Exits, ends_next, ends_returns, ends_stopped, followed};
use crate::values::converted_by;
use crate::writing::{
    To, freed_cells, receive, set_cell, set_cells, unset, value_in, write, written, zero,
};
use abs_cells::Cells;
use abs_state::State;
use c_ir::{Expr, Fun, Program};
use int_value::Value;
use std::alloc::{AllocError, Global};

/// The state in which a function is entered: its formals have these values.
pub(crate) fn entered(
    callee: Option<&Fun>,
    values: &[Value],
    state: State,
) -> Result<State, AllocError>
    ensures { IfOk result (λ s. s ≡ record {
      env = writing.written (formals_in (option_map (λ f. f.now) callee.entry)) values.now state.env;
      used = state.used;
    }) }
{
    let State { env, used } = state;
    let env = match callee {
        None => env,
        Some(f) => written(env, f.formals.as_slice(), values)?,
    };
    Ok(State { env, used })
}

/// A callee's result under the conversions of its call; one that may have no number stays so.
fn result_value(program: &Program, function: u32, expr: &Expr, env: &Option<Cells>) -> Value
    ensures { result ≡ rules.result_value (result_in (slice_get program.now.fns function)) (code.converted_by expr.now) env.now }
{
    let result = match program.fns.get(function as usize) {
        None => None,
        Some(f) => f.result,
    };
    match result {
        None => unset(),
        Some(cell) => {
            let old = value_in(env, cell);
            let new = converted_by(expr, old);
            Value {
                range: new.range,
                congr: new.congr,
                unset: old.unset,
            }
        }
    }
}

/// After a call its result is written, and then the callee's cells have no number.
pub(crate) fn left_by_call(
    alloc: Global,
    program: &Program,
    function: u32,
    expr: &Expr,
    to: &To,
    body: Exits,
) -> Result<Exits, AllocError>
    ensures { IfOk result (λ x. x ≡ exits_of (passing.followed (alone body)
        (rules.leaving program.now function (code.converted_by expr.now) (writes_of to.now) body.next))) }
{
    let value = result_value(program, function, expr, &body.next.env);
    let State { env, used } = body.next.copy(alloc)?;
    let env = write(env, to, value)?;
    let env = freed_cells(alloc, program, function, env)?;
    let end = ends_next(alloc, State { env, used });
    followed(alloc, body, end)
}

/// What is left of the cells of a brace list gets 0.
pub(crate) fn filled(
    alloc: Global,
    first: usize,
    count: usize,
    exits: Exits,
) -> Result<Exits, AllocError>
    requires { first + count < 2 ^ 64 }
    ensures { IfOk result (λ x. x ≡ exits_of (passing.followed (alone exits)
        (passing.changes (writing.set_cells first count writing.zero_value) exits.next))) }
{
    let State { env, used } = exits.next.copy(alloc)?;
    let env = set_cells(env, first, count, zero())?;
    let end = ends_next(alloc, State { env, used });
    followed(alloc, exits, end)
}

/// A `return` after its value was written.
pub(crate) fn returned(alloc: Global, given: Exits) -> Result<Exits, AllocError>
    ensures { IfOk result (λ x. x ≡ exits_of (passing.followed (alone given) (passing.ends Returns given.next))) }
{
    let state = given.next.copy(alloc)?;
    let end = ends_returns(alloc, state)?;
    followed(alloc, given, end)
}

/// Whether this is `main`.
fn is_main(f: &Fun) -> bool
    ensures { result ≡ runs.is_main f.now }
{
    f.name.as_str() == "main"
}

/// The end of a function's body is reached: the result of `main` is 0 there, and of another function with a result no
/// run goes on.
pub(crate) fn at_end(alloc: Global, f: &Fun, state: State) -> Result<Exits, AllocError>
    ensures { IfOk result (λ x. x ≡ exits_of (rules.at_end (runs.is_main f.now) f.now.result state)) }
{
    let Some(cell) = f.result else {
        return Ok(ends_next(alloc, state));
    };
    if !is_main(f) {
        return Ok(ends_stopped(alloc, state));
    }
    let State { env, used } = state;
    let env = set_cell(env, cell as usize, zero())?;
    Ok(ends_next(alloc, State { env, used }))
}

/// A function that isn't defined gives any number of its result's type.
pub(crate) fn answering(
    alloc: Global,
    program: &Program,
    to: Option<u32>,
    state: State,
) -> Result<Exits, AllocError>
    ensures { IfOk result (λ x. x ≡ exits_of (rules.answering program.now to state)) }
{
    let Some(cell) = to else {
        return Ok(ends_next(alloc, state));
    };
    let State { env, used } = state;
    let env = receive(program, cell as usize, env)?;
    Ok(ends_next(alloc, State { env, used }))
}
