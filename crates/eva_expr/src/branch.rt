//! Both ways of a branch.

ghost use Rattle.std.specs.Prelude.{◌≡◌, true, false, IfOk};
ghost use Rattle.eva_expr.specs.Conditions.{narrowed_by_expr, value_seen};

use crate::seen::overflow;
use abs_state::State;
use c_ir::Expr;
use eva_values::{Branched, SiteMarks};
use fc_base::ParamValues;
use int_value::Value;
use std::alloc::{AllocError, Global};

/// The value of a condition, the marks of its checks, and the states for which it comes out true, and false.
#[derive(Debug, Drop)]
pub struct Branches {
    pub value: Value,
    pub marks: SiteMarks,
    pub taken: State,
    pub skipped: State,
}

/// What a branch by this condition needs, from one pass: its value and what is said of its checks, as `value` has
/// them, and the states for which it comes out true and false, as `narrow` has them. What the state used stays in
/// both. Fails only for want of memory. The recursion is as deep as the tree.
#[tactic(auto, unfolding(crate::specs::Conditions::value_seen, crate::specs::Conditions::narrowed_by_expr))]
pub fn branched(
    alloc: Global,
    state: &State,
    cond: &Expr,
    params: &ParamValues,
) -> Result<Branches, AllocError>
    ensures value { IfOk result (λ b. b.value ≡ (value_seen params.now.values cond.now state.now).value) }
    ensures marks { IfOk result (λ b. b.marks ≡ (value_seen params.now.values cond.now state.now).marks) }
    ensures taken { IfOk result (λ b. b.taken ≡ narrowed_by_expr params.now.values true cond.now state.now) }
    ensures skipped { IfOk result (λ b. b.skipped ≡ narrowed_by_expr params.now.values false cond.now state.now) }
{
    let used = state.used.copy(alloc)?;
    let copy = state.used.copy(alloc)?;
    let Branched {
        value,
        marks,
        taken,
        skipped,
    } = eva_values::branched(alloc, state.env.as_ref(), cond, overflow(params))?;
    Ok(Branches {
        value,
        marks,
        taken: State { env: taken, used },
        skipped: State {
            env: skipped,
            used: copy,
        },
    })
}
