//! What the statements of a body are in, and the turns of loops.

ghost use Rattle.std.specs.Prelude.{◌≡◌, ◌||◌, map, IfOk};
ghost use Rattle.abs_state.specs.States.{included_state, joined_state};
ghost use Rattle.eva_rules.specs.Passing as rules;
ghost use Rattle.eva_rules.specs.Passing.{chosen, wide_state};
ghost use Rattle.eva_run.specs.Code.{tried_by, widening_by};

use crate::exits::join;
use crate::setting::Setting;
use crate::thresholds::Widening;
use abs_cells::{Cells, included};
use abs_state::{State, whole, widen};
use c_ir::{Expr, Stmt};
use fc_base::PointId;
use int_interval::Shape;
use int_value::Value;
use sqlite_items::Items;
use std::alloc::{AllocError, Global};

/// What the statements of a body are in: what the analysis is under, how deep calls may go, what loops are widened by,
/// and the function's result cell.
#[derive(Clone, Copy)]
pub(crate) struct Inside<'a> {
    pub(crate) setting: Setting<'a>,
    pub(crate) depth: usize,
    pub(crate) widening: &'a Widening,
    pub(crate) result: Option<u32>,
}

/// A loop, of which a turn is made.
#[derive(Clone, Copy)]
pub(crate) enum Turn<'a> {
    While {
        point: PointId,
        cond: &'a Expr,
        body: &'a [Stmt],
    },
    DoWhile {
        point: PointId,
        body: &'a [Stmt],
        cond: &'a Expr,
    },
    For {
        point: PointId,
        cond: &'a Expr,
        body: &'a [Stmt],
        update: &'a [Stmt],
    },
    /// A `for` without a condition.
    Endless {
        point: PointId,
        body: &'a [Stmt],
        update: &'a [Stmt],
    },
}

/// The cells before a turn, the state after it joined with the one before, and whether its cells are those from before.
#[derive(Drop)]
pub(crate) struct Turned {
    pub(crate) old: Option<Cells>,
    pub(crate) next: State,
    pub(crate) is_stable: bool,
}

/// What comes of a turn.
#[derive(Drop)]
pub(crate) enum Tried {
    /// The loop is stable in this state.
    Stable(State),
    /// It goes on with this one.
    Wider(State),
}

/// The state before a turn, and what came back from it.
pub(crate) fn joined_back(alloc: Global, state: State, back: State) -> Result<Turned, AllocError>
    ensures old { IfOk result (λ t. t.old ≡ state.env) }
    ensures next { IfOk result (λ t. t.next ≡ joined_state state back) }
    ensures stable { IfOk result (λ t. t.is_stable ≡ included_state (joined_state state back) state) }
{
    let old = match &state.env {
        Some(cells) => Some(cells.copy(alloc)?),
        None => None,
    };
    let next = join(alloc, state, back)?;
    let is_stable = included(next.env.as_ref(), old.as_ref());
    Ok(Turned {
        old,
        next,
        is_stable,
    })
}

/// The cells widened by those of the next turn.
fn widened_env(
    alloc: Global,
    widening: &Widening,
    number: u32,
    old: Option<Cells>,
    next: Option<Cells>,
) -> Result<Option<Cells>, AllocError>
    ensures { IfOk result (λ e. e ≡ rules.widened_env (widening_by widening.now) number old next) }
{
    match (old, next) {
        (None, next) => Ok(next),
        (Some(old), None) => Ok(Some(old)),
        (Some(old), Some(next)) => {
            let thresholds = widening.thresholds.as_slice();
            let shapes = widening.shapes.as_slice();
            Ok(Some(widen(alloc, &old, &next, number, thresholds, shapes)?))
        }
    }
}

/// The cells of the next turn: in turns 1 to 3 those that there are now, in later ones these widened.
fn advanced_env(
    alloc: Global,
    widening: &Widening,
    number: u32,
    old: Option<Cells>,
    next: Option<Cells>,
) -> Result<Option<Cells>, AllocError>
    ensures { IfOk result (λ e. e ≡ rules.advanced_env (widening_by widening.now) number old next) }
{
    if number <= 3 {
        Ok(next)
    } else {
        widened_env(alloc, widening, number, old, next)
    }
}

/// What comes of a turn with this number, from 1 to 11.
pub(crate) fn advance(
    alloc: Global,
    widening: &Widening,
    number: u32,
    turned: Turned,
) -> Result<Tried, AllocError>
    ensures { IfOk result (λ t. t ≡ tried_by turned.is_stable (record { env = turned.old; used = turned.next.used })
        (wide_state (rules.advanced_env (widening_by widening.now) number turned.old turned.next.env) turned.next.used)) }
{
    let Turned {
        old,
        next,
        is_stable,
    } = turned;
    let State { env, used } = next;
    if is_stable {
        return Ok(Tried::Stable(State { env: old, used }));
    }
    let env = advanced_env(alloc, widening, number, old, env)?;
    Ok(Tried::Wider(State { env, used }))
}

/// A flag, or whether the cell had no number.
fn flag_of(flag: bool, value: Value) -> bool
    ensures { result ≡ (flag || value.unset) }
{
    flag || value.unset
}

/// For each cell its flag, or whether it had no number.
#[tactic(auto, using(crate::proofs::Leaves::flag_step, crate::proofs::Leaves::flag_end))]
fn either_flag(alloc: Global, flags: &[bool], cells: &Cells) -> Result<Items<bool>, AllocError>
    ensures { IfOk result (λ fs. fs ≡ rules.either_flag flags.now cells.now) }
{
    let mut all = Items::new(alloc);
    for number in 0..flags.len().min(cells.len()) {
        all.push(flag_of(flags[number], cells.get(number)))?;
    }
    Ok(all)
}

/// All cells with their whole types.
fn whole_env(
    alloc: Global,
    widening: &Widening,
    env: Option<Cells>,
) -> Result<Option<Cells>, AllocError>
    ensures { IfOk result (λ e. e ≡ rules.whole_env (widening_by widening.now) env) }
{
    match env {
        None => Ok(None),
        Some(cells) => {
            let flags = either_flag(alloc, widening.flags.as_slice(), &cells)?;
            Ok(Some(whole(alloc, widening.shapes.as_slice(), flags.as_slice())?))
        }
    }
}

/// What comes of turn 12.
pub(crate) fn finish(
    alloc: Global,
    widening: &Widening,
    turned: Turned,
) -> Result<Tried, AllocError>
    ensures { IfOk result (λ t. t ≡ tried_by turned.is_stable (record { env = turned.old; used = turned.next.used })
        (wide_state (rules.whole_env (widening_by widening.now) turned.next.env) turned.next.used)) }
{
    let Turned {
        old,
        next,
        is_stable,
    } = turned;
    let State { env, used } = next;
    if is_stable {
        return Ok(Tried::Stable(State { env: old, used }));
    }
    let env = whole_env(alloc, widening, env)?;
    Ok(Tried::Wider(State { env, used }))
}

/// A flag that is set for each type.
fn set_flags(alloc: Global, shapes: &[Shape]) -> Result<Items<bool>, AllocError>
    ensures { IfOk result (λ fs. fs ≡ map rules.set_flag shapes.now) }
{
    let mut flags = Items::new(alloc);
    for _shape in shapes {
        flags.push(true)?;
    }
    Ok(flags)
}

/// Nothing but the types is known of any cell.
fn any_env(alloc: Global, widening: &Widening) -> Result<Option<Cells>, AllocError>
    ensures { IfOk result (λ e. e ≡ rules.any_env (widening_by widening.now)) }
{
    let shapes = widening.shapes.as_slice();
    let flags = set_flags(alloc, shapes)?;
    Ok(Some(whole(alloc, shapes, flags.as_slice())?))
}

/// The stable state after turn 13.
pub(crate) fn settled(
    alloc: Global,
    widening: &Widening,
    turned: Turned,
) -> Result<State, AllocError>
    ensures { IfOk result (λ s. s ≡ chosen turned.is_stable (record { env = turned.old; used = turned.next.used })
        (wide_state (rules.any_env (widening_by widening.now)) turned.next.used)) }
{
    let Turned {
        old,
        next,
        is_stable,
    } = turned;
    let env = if is_stable {
        old
    } else {
        any_env(alloc, widening)?
    };
    Ok(State {
        env,
        used: next.used,
    })
}
