//! Expressions without calls, assignments and steps.

ghost use Rattle.std.specs.Prelude.{◌≡◌};
ghost use Rattle.c_typing.specs.Meaning.{meaning};
ghost use Rattle.c_typing.specs.Room.{size_of};

use c_ast::Expr;

/// Whether no call, assignment or step is in an expression.
#[cycle(plain)]
pub(crate) fn is_plain(e: &Expr) -> bool
    ensures meaning { result ≡ (meaning e.now).is_plain }
    ensures size { result ≡ (size_of e.now).is_plain }
{
    match e {
        Expr::Literal { .. } | Expr::Name(_) => true,
        Expr::Call { .. } | Expr::Assign { .. } | Expr::Step { .. } => false,
        Expr::Index { of, index, .. } => is_plain(of.get()) && is_plain(index.get()),
        Expr::Unary { of, .. } | Expr::Cast { of, .. } => is_plain(of.get()),
        Expr::Binary { left, right, .. } => is_plain(left.get()) && is_plain(right.get()),
        Expr::Cond { cond, yes, no, .. } => {
            is_plain(cond.get()) && (is_plain(yes.get()) && is_plain(no.get()))
        }
    }
}
