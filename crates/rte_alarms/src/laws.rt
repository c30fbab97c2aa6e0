//! Laws of the entries and of the tests, as contracts of functions that do nothing.

ghost use Rattle.rte_alarms.specs.Laws.{DecidedAreRight, LinksAreRight, TestsDecide, UnaryTestsDecide};

/// The tests by the ends of the operands' ranges are true exactly where every choice of operands passes the check.
#[tactic(auto, using(crate::proofs::Tests::tests_decide))]
pub fn tests_decide()
    ensures { TestsDecide }
{}

/// The same of the check of an operator with one operand.
#[tactic(auto, using(crate::proofs::Tests::unary_tests_decide))]
pub fn unary_tests_decide()
    ensures { UnaryTestsDecide }
{}

/// Each link of a call is locally right: where all instances of a precondition hold in all runs, so does the
/// precondition.
pub fn links_are_right()
    ensures { LinksAreRight }
{}

/// Each alarm that operand types decide is true in all runs.
pub fn decided_are_right()
    ensures { DecidedAreRight }
{}
