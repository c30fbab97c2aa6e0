//! The analysis of statements and of functions.

ghost use Rattle.std.specs.Prelude.{◌≡◌, ◌<◌, ◌^◌, Bool, None, Some, IfOk};
ghost use Rattle.c_runs.specs.Runs.{Breaks, Next};
ghost use Rattle.c_ir.specs.Bodies.{cell_count};
ghost use Rattle.eva_rules.specs.Meant.{meant};
ghost use Rattle.eva_rules.specs.Passing as passing;
ghost use Rattle.eva_rules.specs.Statements as rules;
ghost use Rattle.eva_run.specs.Code.{IsCall, IsPassed, after_turn, ground_by, inside_by, turn_by, writes_of};

use crate::exits::{
    Exits, closed, continuing, either, ends_breaks, ends_continues, ends_next, ends_returns,
    ends_stopped, followed, join, nothing, nowhere, split_turn, unreached_as,
};
use crate::inside::{Inside, Tried, Turn, Turned, advance, finish, joined_back, settled};
use crate::leaving::{answering, at_end, entered, filled, left_by_call, returned};
use crate::points::{arrive, preconditions_noted};
use crate::setting::{Setting, entry_clauses, unrolls};
use crate::tallies::Tallies;
use crate::thresholds::widening_of;
use crate::values::{Call, Given, aim, arguments, call_in, conditioned, evaluate};
use crate::writing::{To, set_cells, unset, write};
use abs_state::State;
use c_ir::{Expr, Fun, Init, Node, Stmt};
use fc_base::PointId;
use sqlite_items::Items;
use std::alloc::{AllocError, Global};

/// One statement.
#[cycle(analysing)]
fn statement(
    alloc: Global,
    inside: Inside<'_>,
    noting: bool,
    stmt: &Stmt,
    state: State,
    table: &mut Tallies,
) -> Result<Exits, AllocError>
    ensures { IsPassed (ground_by inside.entry.setting).number result noting table.old table.new
        (rules.pass (inside_by inside.entry) stmt.now state) }
{
    match stmt {
        Stmt::Block { stmts } => block(alloc, inside, noting, stmts.as_slice(), state, table),
        Stmt::Note { at: _at } => Ok(ends_next(alloc, state)),
        Stmt::While { point, cond, body } => {
            let turn = Turn::While {
                point: *point,
                cond,
                body: body.as_slice(),
            };
            looped(alloc, inside, noting, turn, state, table)
        }
        Stmt::DoWhile { point, body, cond } => {
            let turn = Turn::DoWhile {
                point: *point,
                body: body.as_slice(),
                cond,
            };
            looped(alloc, inside, noting, turn, state, table)
        }
        Stmt::For {
            first,
            point,
            cond,
            body,
            update,
        } => {
            let (body, update) = (body.as_slice(), update.as_slice());
            for_loop(
                alloc,
                inside,
                noting,
                *point,
                first.as_slice(),
                cond,
                body,
                update,
                state,
                table,
            )
        }
        Stmt::Declare {
            point,
            first,
            length,
            value,
        } => {
            let state = arrive(alloc, inside.setting, noting, point.0, None, state, table)?;
            declare(
                alloc,
                inside,
                noting,
                *point,
                (*first, *length),
                value,
                state,
                table,
            )
        }
        Stmt::Expression { point, expr } => {
            let state = arrive(alloc, inside.setting, noting, point.0, None, state, table)?;
            drop_value(alloc, inside, noting, *point, expr, state, table)
        }
        Stmt::If {
            point,
            cond,
            yes,
            no,
        } => {
            let state = arrive(alloc, inside.setting, noting, point.0, None, state, table)?;
            choose(
                alloc,
                inside,
                noting,
                cond,
                yes.as_slice(),
                no.as_slice(),
                state,
                table,
            )
        }
        Stmt::Break { point } => {
            let state = arrive(alloc, inside.setting, noting, point.0, None, state, table)?;
            ends_breaks(alloc, state)
        }
        Stmt::Continue { point } => {
            let state = arrive(alloc, inside.setting, noting, point.0, None, state, table)?;
            ends_continues(alloc, state)
        }
        Stmt::Return { point, value } => {
            let state = arrive(alloc, inside.setting, noting, point.0, None, state, table)?;
            leave(alloc, inside, noting, *point, value, state, table)
        }
        Stmt::Empty { point } | Stmt::Clause { point } => {
            let state = arrive(alloc, inside.setting, noting, point.0, None, state, table)?;
            Ok(ends_next(alloc, state))
        }
    }
}

/// Statements, one after the other.
#[cycle(analysing)]
fn block(
    alloc: Global,
    inside: Inside<'_>,
    noting: bool,
    body: &[Stmt],
    state: State,
    table: &mut Tallies,
) -> Result<Exits, AllocError>
    ensures { IsPassed (ground_by inside.entry.setting).number result noting table.old table.new
        (rules.pass_all (inside_by inside.entry) body.now state) }
{
    let mut next = state;
    let mut breaks = nowhere(alloc);
    let mut continues = nowhere(alloc);
    let mut returns = nowhere(alloc);
    for stmt in body {
        let step = statement(alloc, inside, noting, stmt, next, table)?;
        next = step.next;
        breaks = join(alloc, breaks, step.breaks)?;
        continues = join(alloc, continues, step.continues)?;
        returns = join(alloc, returns, step.returns)?;
    }
    Ok(Exits {
        next,
        breaks,
        continues,
        returns,
    })
}

/// Both branches of an `if`.
#[cycle(analysing)]
fn choose(
    alloc: Global,
    inside: Inside<'_>,
    noting: bool,
    cond: &Expr,
    yes: &[Stmt],
    no: &[Stmt],
    state: State,
    table: &mut Tallies,
) -> Result<Exits, AllocError>
    ensures { IsPassed (ground_by inside.entry.setting).number result noting table.old table.new
        (rules.condition (inside_by inside.entry) cond.now (rules.pass_all (inside_by inside.entry) yes.now)
        (rules.pass_all (inside_by inside.entry) no.now) state) }
{
    let ways = conditioned(alloc, inside.setting, noting, cond, &state, table)?;
    let a = block(alloc, inside, noting, yes, ways.taken, table)?;
    let b = block(alloc, inside, noting, no, ways.skipped, table)?;
    either(alloc, a, b)
}

/// A `for` with its head; a missing condition is 1.
#[cycle(analysing)]
fn for_loop(
    alloc: Global,
    inside: Inside<'_>,
    noting: bool,
    point: PointId,
    first: &[Stmt],
    cond: &Option<Expr>,
    body: &[Stmt],
    update: &[Stmt],
    state: State,
    table: &mut Tallies,
) -> Result<Exits, AllocError>
    ensures { IsPassed (ground_by inside.entry.setting).number result noting table.old table.new
        (passing.seq (rules.pass_all (inside_by inside.entry) first.now) (rules.loop (inside_by inside.entry)
        (rules.at (ground_by inside.entry.setting) point (rules.condition_if (inside_by inside.entry) cond.now
        (passing.seq (passing.continuing (rules.pass_all (inside_by inside.entry) body.now))
        (rules.pass_all (inside_by inside.entry) update.now)) (passing.ends Breaks)))) state) }
{
    match cond {
        Some(cond) => {
            let turn = Turn::For {
                point,
                cond,
                body,
                update,
            };
            headed(alloc, inside, noting, first, turn, state, table)
        }
        None => {
            let turn = Turn::Endless {
                point,
                body,
                update,
            };
            headed(alloc, inside, noting, first, turn, state, table)
        }
    }
}

/// The head of a `for`, and then the loop.
#[cycle(analysing)]
fn headed(
    alloc: Global,
    inside: Inside<'_>,
    noting: bool,
    first: &[Stmt],
    turn: Turn<'_>,
    state: State,
    table: &mut Tallies,
) -> Result<Exits, AllocError>
    ensures { IsPassed (ground_by inside.entry.setting).number result noting table.old table.new
        (passing.seq (rules.pass_all (inside_by inside.entry) first.now)
        (rules.loop (inside_by inside.entry) (turn_by (inside_by inside.entry) turn.entry)) state) }
{
    let head = block(alloc, inside, noting, first, state, table)?;
    let start = head.next.copy(alloc)?;
    let rest = looped(alloc, inside, noting, turn, start, table)?;
    followed(alloc, head, rest)
}

/// A loop: its first turns one by one, then one further turn on its stable state.
#[cycle(analysing)]
fn looped(
    alloc: Global,
    inside: Inside<'_>,
    noting: bool,
    turn: Turn<'_>,
    state: State,
    table: &mut Tallies,
) -> Result<Exits, AllocError>
    ensures { IsPassed (ground_by inside.entry.setting).number result noting table.old table.new
        (rules.loop (inside_by inside.entry) (turn_by (inside_by inside.entry) turn.entry) state) }
{
    let mut exits = nothing(alloc);
    let mut now = state;
    let turns = unrolls(inside.setting.params);
    for _number in 0..turns {
        let one = make_turn(alloc, inside, noting, turn, now, table)?;
        let ways = split_turn(alloc, one)?;
        exits = either(alloc, exits, ways.left)?;
        now = ways.back;
    }
    let stable = stable(alloc, inside, turn, now)?;
    let last = make_turn(alloc, inside, noting, turn, stable, table)?;
    let ways = split_turn(alloc, last)?;
    either(alloc, exits, ways.left)
}

/// The state in which a loop is stable.
#[cycle(analysing)]
fn stable(
    alloc: Global,
    inside: Inside<'_>,
    turn: Turn<'_>,
    state: State,
) -> Result<State, AllocError>
    ensures { IfOk result (λ s. s ≡ passing.stable (inside_by inside.entry).widening
        (turn_by (inside_by inside.entry) turn.entry) 11 1 state) }
{
    let mut now = state;
    for number in 1..12u32 {
        let after = next_turn(alloc, inside, turn, now)?;
        match advance(alloc, inside.widening, number, after)? {
            Tried::Stable(state) => return Ok(state),
            Tried::Wider(state) => now = state,
        }
    }
    let after = next_turn(alloc, inside, turn, now)?;
    match finish(alloc, inside.widening, after)? {
        Tried::Stable(state) => Ok(state),
        Tried::Wider(state) => {
            let after = next_turn(alloc, inside, turn, state)?;
            settled(alloc, inside.widening, after)
        }
    }
}

/// One turn, of which nothing is noted.
#[cycle(analysing)]
fn next_turn(
    alloc: Global,
    inside: Inside<'_>,
    turn: Turn<'_>,
    state: State,
) -> Result<Turned, AllocError>
    ensures { IfOk result (λ t. t ≡ after_turn (turn_by (inside_by inside.entry) turn.entry) state) }
{
    let mut scratch = Items::new(alloc);
    let start = state.copy(alloc)?;
    let exits = make_turn(alloc, inside, false, turn, start, &mut scratch)?;
    let ways = split_turn(alloc, exits)?;
    joined_back(alloc, state, ways.back)
}

/// One turn of a loop.
#[cycle(analysing)]
fn make_turn(
    alloc: Global,
    inside: Inside<'_>,
    noting: bool,
    turn: Turn<'_>,
    state: State,
    table: &mut Tallies,
) -> Result<Exits, AllocError>
    ensures { IsPassed (ground_by inside.entry.setting).number result noting table.old table.new
        (turn_by (inside_by inside.entry) turn.entry state) }
{
    match turn {
        Turn::While { point, cond, body } => {
            let state = arrive(alloc, inside.setting, noting, point.0, None, state, table)?;
            while_turn(alloc, inside, noting, cond, body, state, table)
        }
        Turn::DoWhile { point, body, cond } => {
            let state = arrive(alloc, inside.setting, noting, point.0, None, state, table)?;
            do_turn(alloc, inside, noting, body, cond, state, table)
        }
        Turn::For {
            point,
            cond,
            body,
            update,
        } => {
            let state = arrive(alloc, inside.setting, noting, point.0, None, state, table)?;
            tested_turn(alloc, inside, noting, cond, body, update, state, table)
        }
        Turn::Endless {
            point,
            body,
            update,
        } => {
            let state = arrive(alloc, inside.setting, noting, point.0, None, state, table)?;
            endless_turn(alloc, inside, noting, body, update, state, table)
        }
    }
}

/// The condition of a `while`, and its body.
#[cycle(analysing)]
fn while_turn(
    alloc: Global,
    inside: Inside<'_>,
    noting: bool,
    cond: &Expr,
    body: &[Stmt],
    state: State,
    table: &mut Tallies,
) -> Result<Exits, AllocError>
    ensures { IsPassed (ground_by inside.entry.setting).number result noting table.old table.new
        (rules.condition (inside_by inside.entry) cond.now (rules.pass_all (inside_by inside.entry) body.now)
        (passing.ends Breaks) state) }
{
    let ways = conditioned(alloc, inside.setting, noting, cond, &state, table)?;
    let a = block(alloc, inside, noting, body, ways.taken, table)?;
    let b = ends_breaks(alloc, ways.skipped)?;
    either(alloc, a, b)
}

/// The body of a loop, after which `continue` goes on.
#[cycle(analysing)]
fn body_once(
    alloc: Global,
    inside: Inside<'_>,
    noting: bool,
    body: &[Stmt],
    state: State,
    table: &mut Tallies,
) -> Result<Exits, AllocError>
    ensures { IsPassed (ground_by inside.entry.setting).number result noting table.old table.new
        (passing.continuing (rules.pass_all (inside_by inside.entry) body.now) state) }
{
    let once = block(alloc, inside, noting, body, state, table)?;
    continuing(alloc, once)
}

/// The body of a `do`, and then its condition.
#[cycle(analysing)]
fn do_turn(
    alloc: Global,
    inside: Inside<'_>,
    noting: bool,
    body: &[Stmt],
    cond: &Expr,
    state: State,
    table: &mut Tallies,
) -> Result<Exits, AllocError>
    ensures { IsPassed (ground_by inside.entry.setting).number result noting table.old table.new
        (passing.seq (passing.continuing (rules.pass_all (inside_by inside.entry) body.now))
        (rules.condition (inside_by inside.entry) cond.now (passing.ends Next) (passing.ends Breaks)) state) }
{
    let once = body_once(alloc, inside, noting, body, state, table)?;
    let ways = conditioned(alloc, inside.setting, noting, cond, &once.next, table)?;
    let a = ends_next(alloc, ways.taken);
    let b = ends_breaks(alloc, ways.skipped)?;
    let test = either(alloc, a, b)?;
    followed(alloc, once, test)
}

/// The body of a `for`, and then what stands last in its head.
#[cycle(analysing)]
fn body_and_update(
    alloc: Global,
    inside: Inside<'_>,
    noting: bool,
    body: &[Stmt],
    update: &[Stmt],
    state: State,
    table: &mut Tallies,
) -> Result<Exits, AllocError>
    ensures { IsPassed (ground_by inside.entry.setting).number result noting table.old table.new
        (passing.seq (passing.continuing (rules.pass_all (inside_by inside.entry) body.now))
        (rules.pass_all (inside_by inside.entry) update.now) state) }
{
    let once = body_once(alloc, inside, noting, body, state, table)?;
    let start = once.next.copy(alloc)?;
    let last = block(alloc, inside, noting, update, start, table)?;
    followed(alloc, once, last)
}

/// The condition of a `for`, its body and what stands last in its head.
#[cycle(analysing)]
fn tested_turn(
    alloc: Global,
    inside: Inside<'_>,
    noting: bool,
    cond: &Expr,
    body: &[Stmt],
    update: &[Stmt],
    state: State,
    table: &mut Tallies,
) -> Result<Exits, AllocError>
    ensures { IsPassed (ground_by inside.entry.setting).number result noting table.old table.new
        (rules.condition (inside_by inside.entry) cond.now
        (passing.seq (passing.continuing (rules.pass_all (inside_by inside.entry) body.now))
        (rules.pass_all (inside_by inside.entry) update.now)) (passing.ends Breaks) state) }
{
    let ways = conditioned(alloc, inside.setting, noting, cond, &state, table)?;
    let a = body_and_update(alloc, inside, noting, body, update, ways.taken, table)?;
    let b = ends_breaks(alloc, ways.skipped)?;
    either(alloc, a, b)
}

/// The body of a `for` without a condition and what stands last in its head. A missing condition is 1.
#[cycle(analysing)]
fn endless_turn(
    alloc: Global,
    inside: Inside<'_>,
    noting: bool,
    body: &[Stmt],
    update: &[Stmt],
    state: State,
    table: &mut Tallies,
) -> Result<Exits, AllocError>
    ensures { IsPassed (ground_by inside.entry.setting).number result noting table.old table.new
        (rules.condition_if (inside_by inside.entry) None
        (passing.seq (passing.continuing (rules.pass_all (inside_by inside.entry) body.now))
        (rules.pass_all (inside_by inside.entry) update.now)) (passing.ends Breaks) state) }
{
    let other = unreached_as(alloc, &state)?;
    let a = body_and_update(alloc, inside, noting, body, update, state, table)?;
    let b = ends_breaks(alloc, other)?;
    either(alloc, a, b)
}

/// An expression whose value is dropped, or an assignment.
#[cycle(analysing)]
fn drop_value(
    alloc: Global,
    inside: Inside<'_>,
    noting: bool,
    point: PointId,
    expr: &Expr,
    state: State,
    table: &mut Tallies,
) -> Result<Exits, AllocError>
    ensures { IsPassed (ground_by inside.entry.setting).number result noting table.old table.new
        (rules.dropping (inside_by inside.entry) point.0 expr.now state) }
{
    match &expr.node {
        Node::Assign { to, value } => {
            let aimed = aim(alloc, inside.setting, noting, to.get(), state, table)?;
            give(
                alloc,
                inside,
                noting,
                point,
                value.get(),
                aimed.to,
                aimed.state,
                table,
            )
        }
        _ => give(
            alloc,
            inside,
            noting,
            point,
            expr,
            To::Nowhere,
            state,
            table,
        ),
    }
}

/// A value, which may be a call's, is written.
#[cycle(analysing)]
fn give(
    alloc: Global,
    inside: Inside<'_>,
    noting: bool,
    point: PointId,
    expr: &Expr,
    to: To,
    state: State,
    table: &mut Tallies,
) -> Result<Exits, AllocError>
    ensures { IsPassed (ground_by inside.entry.setting).number result noting table.old table.new
        (rules.giving_to (inside_by inside.entry) point.0 (writes_of to) expr.now state) }
{
    match call_in(expr) {
        Some(called) => call(alloc, inside, noting, point, called, expr, to, state, table),
        None => {
            let one = evaluate(alloc, inside.setting, noting, expr, state, table)?;
            let State { env, used } = one.state;
            let env = write(env, &to, one.value)?;
            Ok(ends_next(alloc, State { env, used }))
        }
    }
}

/// A call: its arguments, the preconditions of the callee, the callee, and its result.
#[cycle(analysing)]
fn call(
    alloc: Global,
    inside: Inside<'_>,
    noting: bool,
    point: PointId,
    called: Call<'_>,
    expr: &Expr,
    to: To,
    state: State,
    table: &mut Tallies,
) -> Result<Exits, AllocError>
    requires { (overflow : Bool) → IsCall overflow expr.now (Some called) (meant overflow expr.now).call }
    ensures { IsPassed (ground_by inside.entry.setting).number result noting table.old table.new
        (rules.giving_to (inside_by inside.entry) point.0 (writes_of to) expr.now state) }
{
    let Setting { program, .. } = inside.setting;
    let Given { values, state } = arguments(
        alloc,
        inside.setting,
        noting,
        called.args,
        state,
        table,
    )?;
    let callee = program.fns.get(called.function.0 as usize);
    let state = entered(callee, values.as_slice(), state)?;
    let clauses = entry_clauses(program, callee);
    let state = preconditions_noted(
        alloc,
        inside.setting,
        noting,
        point.0,
        clauses,
        state,
        table,
    )?;
    let body = function_at(
        alloc,
        inside.setting,
        inside.depth,
        noting,
        called.function.0 as usize,
        state,
        table,
    )?;
    left_by_call(alloc, program, called.function.0, expr, &to, body)
}

/// A declarator: its cells get the values of the initialiser, or none.
#[cycle(analysing)]
fn declare(
    alloc: Global,
    inside: Inside<'_>,
    noting: bool,
    point: PointId,
    cells: (u32, Option<u32>),
    value: &Init,
    state: State,
    table: &mut Tallies,
) -> Result<Exits, AllocError>
    ensures { IsPassed (ground_by inside.entry.setting).number result noting table.old table.new
        (rules.declaring (inside_by inside.entry) point.0 cells.0 (cell_count cells.1) value.now state) }
{
    let (first, length) = cells;
    let first = first as usize;
    let count = length.unwrap_or(1) as usize;
    match value {
        Init::Nothing => {
            let State { env, used } = state;
            let env = set_cells(env, first, count, unset())?;
            Ok(ends_next(alloc, State { env, used }))
        }
        Init::One(expr) => {
            let to = To::Cell { cell: first };
            give(alloc, inside, noting, point, expr, to, state, table)
        }
        Init::Many(values) => fill(
            alloc,
            inside,
            noting,
            point,
            (first, count),
            values.as_slice(),
            state,
            table,
        ),
    }
}

/// The values of a brace list go to cells from a first one on, and 0 to those that are left of so many.
#[cycle(analysing)]
fn fill(
    alloc: Global,
    inside: Inside<'_>,
    noting: bool,
    point: PointId,
    cells: (usize, usize),
    values: &[Expr],
    state: State,
    table: &mut Tallies,
) -> Result<Exits, AllocError>
    requires first { cells.0 < 2 ^ 32 }
    requires count { cells.1 < 2 ^ 32 }
    ensures { IsPassed (ground_by inside.entry.setting).number result noting table.old table.new
        (passing.all_pass (rules.filling (inside_by inside.entry) point.0 cells.0 cells.1 values.now) state) }
{
    let (first, count) = cells;
    let given = values.len().min(count);
    let mut next = state;
    let mut breaks = nowhere(alloc);
    let mut continues = nowhere(alloc);
    let mut returns = nowhere(alloc);
    for place in 0..given {
        let to = To::Cell {
            cell: first + place,
        };
        let step = give(
            alloc,
            inside,
            noting,
            point,
            &values[place],
            to,
            next,
            table,
        )?;
        next = step.next;
        breaks = join(alloc, breaks, step.breaks)?;
        continues = join(alloc, continues, step.continues)?;
        returns = join(alloc, returns, step.returns)?;
    }
    let exits = Exits {
        next,
        breaks,
        continues,
        returns,
    };
    if count < values.len() {
        return Ok(exits);
    }
    filled(alloc, first + given, count - given, exits)
}

/// A `return`, whose value goes to the result cell.
#[cycle(analysing)]
fn leave(
    alloc: Global,
    inside: Inside<'_>,
    noting: bool,
    point: PointId,
    value: &Option<Expr>,
    state: State,
    table: &mut Tallies,
) -> Result<Exits, AllocError>
    ensures { IsPassed (ground_by inside.entry.setting).number result noting table.old table.new
        (rules.returning (inside_by inside.entry) point.0 value.now state) }
{
    match value {
        None => ends_returns(alloc, state),
        Some(expr) => {
            let to = match inside.result {
                None => To::Nowhere,
                Some(cell) => To::Cell {
                    cell: cell as usize,
                },
            };
            let given = give(alloc, inside, noting, point, expr, to, state, table)?;
            returned(alloc, given)
        }
    }
}

/// A function by its number, with calls so deep.
#[cycle(analysing)]
pub(crate) fn function_at(
    alloc: Global,
    setting: Setting<'_>,
    depth: usize,
    noting: bool,
    number: usize,
    state: State,
    table: &mut Tallies,
) -> Result<Exits, AllocError>
    ensures { IsPassed (ground_by setting.entry).number result noting table.old table.new
        (rules.call_to (ground_by setting.entry) depth number state) }
{
    if depth == 0 {
        return Ok(ends_stopped(alloc, state));
    }
    let Setting { program, .. } = setting;
    match program.fns.get(number) {
        None => Ok(ends_stopped(alloc, state)),
        Some(f) => function(alloc, setting, depth - 1, noting, f, state, table),
    }
}

/// A function: its entry, its body and its exit.
#[cycle(analysing)]
fn function(
    alloc: Global,
    setting: Setting<'_>,
    depth: usize,
    noting: bool,
    f: &Fun,
    state: State,
    table: &mut Tallies,
) -> Result<Exits, AllocError>
    ensures { IsPassed (ground_by setting.entry).number result noting table.old table.new
        (rules.function (ground_by setting.entry) (rules.call_to (ground_by setting.entry) depth) f.now state) }
{
    let state = arrive(alloc, setting, noting, f.entry.0, None, state, table)?;
    let start = state.copy(alloc)?;
    let entry = ends_next(alloc, state);
    let rest = after_entry(alloc, setting, depth, noting, f, start, table)?;
    followed(alloc, entry, rest)
}

/// The body of a function and its exit, at which `\old` speaks of the state after the entry.
#[cycle(analysing)]
fn after_entry(
    alloc: Global,
    setting: Setting<'_>,
    depth: usize,
    noting: bool,
    f: &Fun,
    state: State,
    table: &mut Tallies,
) -> Result<Exits, AllocError>
    ensures { IsPassed (ground_by setting.entry).number result noting table.old table.new
        (rules.after_entry (ground_by setting.entry) (rules.call_to (ground_by setting.entry) depth) f.now state) }
{
    let entry = state.copy(alloc)?;
    let body = whole_body(alloc, setting, depth, noting, f, state, table)?;
    let end = body.next.copy(alloc)?;
    let end = arrive(alloc, setting, noting, f.exit.0, Some(&entry), end, table)?;
    let exit = ends_next(alloc, end);
    followed(alloc, body, exit)
}

/// The body of a function up to its end; a function that isn't defined gives any result.
#[cycle(analysing)]
fn whole_body(
    alloc: Global,
    setting: Setting<'_>,
    depth: usize,
    noting: bool,
    f: &Fun,
    state: State,
    table: &mut Tallies,
) -> Result<Exits, AllocError>
    ensures { IsPassed (ground_by setting.entry).number result noting table.old table.new
        (rules.body (ground_by setting.entry) (rules.call_to (ground_by setting.entry) depth) f.now f.now.body state) }
{
    match &f.body {
        None => answering(alloc, setting.program, f.result, state),
        Some(stmts) => {
            let widening = widening_of(alloc, setting.program, f)?;
            let inside = Inside {
                setting,
                depth,
                widening: &widening,
                result: f.result,
            };
            let body = block(alloc, inside, noting, stmts.as_slice(), state, table)?;
            let end = body.next.copy(alloc)?;
            let end = at_end(alloc, f, end)?;
            closed(alloc, body, end)
        }
    }
}
