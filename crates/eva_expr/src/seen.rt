//! Values and truths in a state.

ghost use Rattle.std.specs.Prelude.{◌≡◌, IfOk};
ghost use Rattle.eva_expr.specs.Conditions.{checks_overflow, truth_in, value_seen};

use abs_state::State;
use c_ir::{Expr, Pred};
use eva_terms::Truth;
use eva_values::{Seen, evaluated};
use fc_base::ParamValues;
use param_book::SIGNED_OVERFLOW;
use std::alloc::{AllocError, Global};

/// Whether overflow of signed numbers is checked: the parameter `signed_overflow` isn't 0.
pub(crate) fn overflow(params: &ParamValues) -> bool
    ensures { result ≡ checks_overflow params.now.values }
{
    params.get(SIGNED_OVERFLOW) != 0
}

/// The value of an expression in the state, and what is said of each check that its evaluation visits, in order of
/// evaluation (C11 6.5). In an unreached state nothing has a number, and each check is unreached. A call, an
/// assignment has no value here. Fails only for want of memory. The recursion is as deep as the tree.
#[tactic(auto, unfolding(crate::specs::Conditions::value_seen))]
pub fn value(
    alloc: Global,
    state: &State,
    expr: &Expr,
    params: &ParamValues,
) -> Result<Seen, AllocError>
    ensures { IfOk result (λ s. s ≡ value_seen params.now.values expr.now state.now) }
{
    evaluated(alloc, state.env.as_ref(), expr, overflow(params))
}

/// Whether a predicate holds in each cells that the state stands for, in none, or in neither case for all that is
/// known (ACSL manual, 2.2); `entry` is the state at the function's entry, of which `\old` speaks. Of an unreached
/// state nothing is known. It takes no memory. The recursion is as deep as the tree.
#[tactic(auto, unfolding(crate::specs::Conditions::truth_in))]
pub fn truth(state: &State, entry: &State, pred: &Pred) -> Truth
    ensures { result ≡ truth_in state.now entry.now pred.now }
{
    eva_terms::truth(state.env.as_ref(), entry.env.as_ref(), pred)
}
