//! Conditions, and how they narrow a state.

ghost use Rattle.std.specs.Prelude.{◌≡◌, IfOk};
ghost use Rattle.eva_expr.specs.Conditions.{narrowed_by_expr, narrowed_by_pred};
ghost use Rattle.eva_expr.specs.Narrowing.{IsNarrowed};

use crate::seen::overflow;
use abs_cells::Cells;
use abs_state::State;
use c_ir::{Expr, Pred};
use fc_base::ParamValues;
use std::alloc::{AllocError, Global};

/// A condition: an expression of C, or a predicate of an annotation.
#[derive(Clone, Copy, Debug)]
pub enum Cond<'a> {
    C(&'a Expr),
    Acsl(&'a Pred),
}

/// The state with those of its cells for which the condition comes out true, or false where `taken` is false; it is
/// unreached where there are none. `entry` is the state at the function's entry, of which `\old` speaks. What the
/// state used stays. Fails only for want of memory, and then the state is gone. The recursion is as deep as the
/// tree.
pub fn narrow(
    alloc: Global,
    state: State,
    entry: &State,
    cond: Cond<'_>,
    taken: bool,
    params: &ParamValues,
) -> Result<State, AllocError>
    ensures { IfOk result (λ s. IsNarrowed params.now.values taken entry.now cond.entry state s) }
{
    match cond {
        Cond::C(expr) => by_expr(alloc, state, expr, taken, params),
        Cond::Acsl(pred) => by_pred(alloc, state, entry, pred, taken),
    }
}

#[tactic(auto, unfolding(crate::specs::Conditions::narrowed_by_expr))]
fn by_expr(
    alloc: Global,
    state: State,
    expr: &Expr,
    taken: bool,
    params: &ParamValues,
) -> Result<State, AllocError>
    ensures { IfOk result (λ s. s ≡ narrowed_by_expr params.now.values taken expr.now state) }
{
    let State { env, used } = state;
    let env = eva_values::narrowed(alloc, env.as_ref(), expr, taken, overflow(params))?;
    Ok(State { env, used })
}

#[tactic(auto, unfolding(crate::specs::Conditions::narrowed_by_pred, eva_terms::specs::Shown::narrow_row))]
fn by_pred(
    alloc: Global,
    state: State,
    entry: &State,
    pred: &Pred,
    taken: bool,
) -> Result<State, AllocError>
    ensures { IfOk result (λ s. s ≡ narrowed_by_pred taken entry.now pred.now state) }
{
    let State { env, used } = state;
    match env {
        None => Ok(State { env: None, used }),
        Some(cells) => {
            let env = eva_terms::narrow(alloc, cells, entry.env.as_ref(), pred, taken)?;
            Ok(State { env, used })
        }
    }
}
