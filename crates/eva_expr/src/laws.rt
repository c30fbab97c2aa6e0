//! Laws of conditions over states, as contracts of functions that do nothing.

ghost use Rattle.eva_expr.specs.Laws.{ConditionsKeep, PredicatesKeep, TruthIsRight, ValueIsRight};

/// In cells that the state stands for: each check that the evaluation of a well-formed expression visits has a mark,
/// which is right, and the value stands for its number; and what is said of a predicate is right.
pub fn values_are_right()
    ensures value { ValueIsRight }
    ensures truth { TruthIsRight }
{}

/// A state that is narrowed by a condition still stands for the cells for which the condition came out so.
pub fn conditions_narrow()
    ensures expressions { ConditionsKeep }
    ensures predicates { PredicatesKeep }
{}
