//! A plain evaluator of expressions in concrete cells (C11 6.5): the operands from left to right, then the
//! checks of the operator in their order, then its value. A check that fails ends the evaluation.

use crate::arithmetic::{converted, doubled, fits, flag, halved, wrapped};
use c_ir::{AlarmKind, Expr, Node};
use fc_base::{BinaryOp, SiteId, UnaryOp};
use std::alloc::AllocError;

/// Why an evaluation has no value.
#[derive(Clone, Copy, Debug, PartialEq, Eq)]
pub(crate) enum Stop {
    /// A check failed, or a cell without a value was read.
    Undefined,
    Memory,
}

impl From<AllocError> for Stop {
    fn from(_: AllocError) -> Stop {
        Stop::Memory
    }
}

/// A check that was visited, and whether it held.
#[derive(Clone, Copy)]
pub(crate) struct Visit {
    pub(crate) site: SiteId,
    pub(crate) kind: AlarmKind,
    pub(crate) holds: bool,
}

/// What an evaluation knows: the number of each cell, if it has one, whether overflow is checked, and the
/// checks that were visited.
#[derive(Drop)]
pub(crate) struct Run<'c> {
    pub(crate) cells: &'c [Option<i128>],
    pub(crate) overflow: bool,
    pub(crate) visits: Vec<Visit>,
}

impl Run<'_> {
    /// The value of an expression.
    pub(crate) fn value(&mut self, e: &Expr) -> Result<i128, Stop> {
        match &e.node {
            Node::Literal { value } => Ok(*value),
            Node::Cell { cell, checked } => self.read(e.site, i128::from(*cell), *checked),
            Node::Element {
                first,
                length,
                index,
                checked,
            } => {
                let index = self.value(index.get())?;
                self.element(e.site, *first, *length, index, *checked)
            }
            Node::Unary { op, of } => {
                let x = self.value(of.get())?;
                self.unary(e, *op, x)
            }
            Node::Binary { op, left, right } => {
                let x = self.value(left.get())?;
                if is_decided(*op, x) {
                    return Ok(flag(x != 0));
                }
                let y = self.value(right.get())?;
                self.binary(e, *op, x, y)
            }
            Node::Cond { cond, yes, no } => {
                let x = self.value(cond.get())?;
                if x != 0 {
                    self.value(yes.get())
                } else {
                    self.value(no.get())
                }
            }
            Node::Cast { of } => Ok(converted(e.ty, self.value(of.get())?)),
            Node::Call { .. } | Node::Assign { .. } => Err(Stop::Undefined),
        }
    }

    fn visit(&mut self, site: SiteId, kind: AlarmKind, holds: bool) -> Result<(), AllocError> {
        self.visits.push(Visit { site, kind, holds })?;
        Ok(())
    }

    /// Visits a check, if the operator has a number, and goes on if it holds.
    fn check(&mut self, site: Option<SiteId>, kind: AlarmKind, holds: bool) -> Result<(), Stop> {
        if let Some(site) = site {
            self.visit(site, kind, holds)?;
            if !holds {
                return Err(Stop::Undefined);
            }
        }
        Ok(())
    }

    /// What a cell has.
    fn read(&mut self, site: Option<SiteId>, cell: i128, checked: bool) -> Result<i128, Stop> {
        let mut number = None;
        if let Ok(cell) = usize::try_from(cell)
            && let Some(known) = self.cells.get(cell)
        {
            number = *known;
        }
        if checked {
            self.check(site, AlarmKind::Initialization, number.is_some())?;
        }
        match number {
            Some(number) => Ok(number),
            None => Err(Stop::Undefined),
        }
    }

    /// What an element has.
    fn element(
        &mut self,
        site: Option<SiteId>,
        first: u32,
        length: u32,
        index: i128,
        checked: bool,
    ) -> Result<i128, Stop> {
        let is_inside = 0 <= index && index < i128::from(length);
        self.check(site, AlarmKind::IndexBound, is_inside)?;
        self.read(site, i128::from(first).wrapping_add(index), checked)
    }

    /// The value of an exact result, after the check of overflow where there is one.
    fn made(&mut self, e: &Expr, exact: i128, fits: bool) -> Result<i128, Stop> {
        if e.ty.is_signed() && self.overflow {
            self.check(e.site, AlarmKind::SignedOverflow, fits)?;
        }
        Ok(wrapped(e.ty, exact))
    }

    /// The value of an exact result that overflows where it isn't in the type.
    fn summed(&mut self, e: &Expr, exact: i128) -> Result<i128, Stop> {
        self.made(e, exact, fits(e.ty, exact))
    }

    fn unary(&mut self, e: &Expr, op: UnaryOp, x: i128) -> Result<i128, Stop> {
        match op {
            UnaryOp::Plus => Ok(x),
            UnaryOp::Minus => self.summed(e, 0i128.wrapping_sub(x)),
            UnaryOp::Not => Ok(flag(x == 0)),
            UnaryOp::Invert => Ok(wrapped(e.ty, (-1i128).wrapping_sub(x))),
        }
    }

    /// An operator of two operands; where it is `&&` or `||` the left one doesn't decide.
    fn binary(&mut self, e: &Expr, op: BinaryOp, x: i128, y: i128) -> Result<i128, Stop> {
        match op {
            BinaryOp::Div | BinaryOp::Rem => self.divided(e, op, x, y),
            BinaryOp::Shl | BinaryOp::Shr => self.shifted(e, op, x, y),
            BinaryOp::Add => self.summed(e, x.wrapping_add(y)),
            BinaryOp::Sub => self.summed(e, x.wrapping_sub(y)),
            BinaryOp::Mul => self.summed(e, x.wrapping_mul(y)),
            _ => Ok(unchecked(op, x, y)),
        }
    }

    /// A quotient or a remainder. Both overflow where the quotient does.
    fn divided(&mut self, e: &Expr, op: BinaryOp, x: i128, y: i128) -> Result<i128, Stop> {
        self.check(e.site, AlarmKind::DivisionByZero, y != 0)?;
        let (Some(quotient), Some(remainder)) = (x.checked_div(y), x.checked_rem(y)) else {
            return Err(Stop::Undefined);
        };
        match op {
            BinaryOp::Div => self.summed(e, quotient),
            _ => self.made(e, remainder, fits(e.ty, quotient)),
        }
    }

    fn shifted(&mut self, e: &Expr, op: BinaryOp, x: i128, y: i128) -> Result<i128, Stop> {
        let is_inside = 0 <= y && y < i128::from(e.ty.width());
        self.check(e.site, AlarmKind::Shift, is_inside)?;
        match op {
            BinaryOp::Shl => {
                let exact = doubled(x, y);
                self.made(e, exact, 0 <= x && fits(e.ty, exact))
            }
            _ => Ok(halved(x, y)),
        }
    }
}

/// Whether the left operand decides alone.
fn is_decided(op: BinaryOp, x: i128) -> bool {
    match op {
        BinaryOp::LogicAnd => x == 0,
        BinaryOp::LogicOr => x != 0,
        _ => false,
    }
}

/// An operator without checks.
fn unchecked(op: BinaryOp, x: i128, y: i128) -> i128 {
    match op {
        BinaryOp::Or => x | y,
        BinaryOp::Xor => x ^ y,
        BinaryOp::And => x & y,
        BinaryOp::Equal => flag(x == y),
        BinaryOp::NotEqual => flag(x != y),
        BinaryOp::Less => flag(x < y),
        BinaryOp::Greater => flag(x > y),
        BinaryOp::LessEq => flag(x <= y),
        BinaryOp::GreaterEq => flag(x >= y),
        _ => flag(y != 0),
    }
}
