//! Nodes over nodes, each of which takes memory for the nodes below it.

ghost use Rattle.std.specs.Prelude.{◌≡◌, IfOk};
ghost use Rattle.c_ast.specs.Subs.{sub_of};

use crate::expr::{Expr, Exprs, Spec};
use crate::stmt::{Spots, Stmt, Sub};
use fc_base::{BinaryOp, Spot, UnaryOp};
use sqlite_items::Boxed;
use std::alloc::{AllocError, Global};

/// `OF[INDEX]`
pub fn index(alloc: Global, at: Spot, of: Expr, index: Expr) -> Result<Expr, AllocError>
    ensures { IfOk result (λ e. e ≡ Expr.Index at of index) }
{
    Ok(Expr::Index {
        at,
        of: Boxed::new(alloc, of)?,
        index: Boxed::new(alloc, index)?,
    })
}

/// `OF(ARGS)`
pub fn call(alloc: Global, at: Spot, of: Expr, args: Exprs) -> Result<Expr, AllocError>
    ensures { IfOk result (λ e. e ≡ Expr.Call at of args) }
{
    Ok(Expr::Call {
        at,
        of: Boxed::new(alloc, of)?,
        args,
    })
}

/// An operator before its operand.
pub fn unary(alloc: Global, at: Spot, op: UnaryOp, of: Expr) -> Result<Expr, AllocError>
    ensures { IfOk result (λ e. e ≡ Expr.Unary at op of) }
{
    Ok(Expr::Unary {
        at,
        op,
        of: Boxed::new(alloc, of)?,
    })
}

/// An operator between its operands.
pub fn binary(
    alloc: Global,
    at: Spot,
    op: BinaryOp,
    left: Expr,
    right: Expr,
) -> Result<Expr, AllocError>
    ensures { IfOk result (λ e. e ≡ Expr.Binary at op left right) }
{
    Ok(Expr::Binary {
        at,
        op,
        left: Boxed::new(alloc, left)?,
        right: Boxed::new(alloc, right)?,
    })
}

/// An assignment.
pub fn assign(
    alloc: Global,
    at: Spot,
    op: Option<BinaryOp>,
    to: Expr,
    value: Expr,
) -> Result<Expr, AllocError>
    ensures { IfOk result (λ e. e ≡ Expr.Assign at op to value) }
{
    Ok(Expr::Assign {
        at,
        op,
        to: Boxed::new(alloc, to)?,
        value: Boxed::new(alloc, value)?,
    })
}

/// `++` or `--`.
pub fn step(alloc: Global, at: Spot, up: bool, before: bool, of: Expr) -> Result<Expr, AllocError>
    ensures { IfOk result (λ e. e ≡ Expr.Step at up before of) }
{
    Ok(Expr::Step {
        at,
        up,
        before,
        of: Boxed::new(alloc, of)?,
    })
}

/// `COND ? YES : NO`
pub fn cond(alloc: Global, at: Spot, cond: Expr, yes: Expr, no: Expr) -> Result<Expr, AllocError>
    ensures { IfOk result (λ e. e ≡ Expr.Cond at cond yes no) }
{
    Ok(Expr::Cond {
        at,
        cond: Boxed::new(alloc, cond)?,
        yes: Boxed::new(alloc, yes)?,
        no: Boxed::new(alloc, no)?,
    })
}

/// `(SPEC) OF`
pub fn cast(alloc: Global, at: Spot, spec: Spec, of: Expr) -> Result<Expr, AllocError>
    ensures { IfOk result (λ e. e ≡ Expr.Cast at spec of) }
{
    Ok(Expr::Cast {
        at,
        spec,
        of: Boxed::new(alloc, of)?,
    })
}

/// A governed statement with the notes before it.
pub fn sub(alloc: Global, notes: Spots, stmt: Stmt) -> Result<Sub, AllocError>
    ensures { IfOk result (λ s. s ≡ sub_of notes stmt) }
{
    Ok(Sub {
        notes,
        stmt: Boxed::new(alloc, stmt)?,
    })
}

#[cfg(test)]
mod tests {
    use super::*;
    use fc_base::{Line, LiteralForm, Span};
    use std::test::Fail;

    fn spot(from: u32, to: u32) -> Spot {
        Spot {
            span: Span { from, to },
            line: Line(1),
        }
    }

    fn literal(from: u32, value: u128) -> Expr {
        Expr::Literal {
            at: spot(from, from),
            value,
            form: LiteralForm::Decimal,
            unsigned: false,
            longs: 0,
        }
    }

    fn literal_of(expr: &Expr) -> u128 {
        match expr {
            Expr::Literal { value, .. } => *value,
            _ => 1_000_000,
        }
    }

    /// The numbers of the operands, in the order of the text, as digits of a number to base 10.
    fn digits(expr: &Expr) -> u128 {
        match expr {
            Expr::Index { of, index, .. } => pair(of.get(), index.get()),
            Expr::Unary { of, .. } => literal_of(of.get()),
            Expr::Step { of, .. } => literal_of(of.get()),
            Expr::Cast { of, .. } => literal_of(of.get()),
            Expr::Binary { left, right, .. } => pair(left.get(), right.get()),
            Expr::Assign { to, value, .. } => pair(to.get(), value.get()),
            Expr::Cond { cond, yes, no, .. } => {
                pair(cond.get(), yes.get())
                    .saturating_mul(10)
                    .saturating_add(literal_of(no.get()))
            }
            _ => literal_of(expr),
        }
    }

    fn pair(left: &Expr, right: &Expr) -> u128 {
        literal_of(left)
            .saturating_mul(10)
            .saturating_add(literal_of(right))
    }

    #[test]
    fn nodes_hold_their_operands(rt: HostRuntime) -> Result<(), Fail> {
        let alloc = rt.alloc();
        let at = spot(0, 9);
        assert_eq!(rt;
            digits(&index(alloc, at, literal(0, 1), literal(1, 2))?),
            12
        );
        assert_eq!(rt; digits(&unary(alloc, at, UnaryOp::Not, literal(1, 3))?), 3);
        let sum = binary(alloc, at, BinaryOp::Sub, literal(0, 4), literal(2, 5))?;
        assert_eq!(rt; digits(&sum), 45);
        assert_eq!(rt;
            digits(&assign(alloc, at, None, literal(0, 6), literal(2, 7))?),
            67
        );
        assert_eq!(rt; digits(&step(alloc, at, true, false, literal(0, 8))?), 8);
        let chosen = cond(alloc, at, literal(0, 1), literal(2, 2), literal(4, 3))?;
        assert_eq!(rt; digits(&chosen), 123);
        Ok(())
    }
}
