//! Laws of expressions, as contracts of functions that do nothing.

ghost use Rattle.eva_values.specs.Laws.{ExpressionsCover};

/// Of a well-formed expression in typed cells that the values stand for: each check that its evaluation visits has a
/// mark, which is right; the value stands for its number, which the named cell has; and the narrowed cells stand for
/// those in which it came out so.
pub fn expressions_cover()
    ensures { ExpressionsCover }
{}
