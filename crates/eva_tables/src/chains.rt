//! Chains of one operator, whose trees are as deep as they are long.

use crate::shown::value_text;
use abs_cells::Cells;
use c_ir::{Expr, IntType, Node};
use eva_values::evaluated;
use fc_base::{BinaryOp, SiteId};
use int_value::Value;
use sqlite_items::{Boxed, Items};
use std::alloc::{AllocError, Global};

/// A read of cell 0, which is checked.
fn operand(site: u32) -> Expr {
    Expr {
        ty: IntType::Int,
        site: Some(SiteId(site)),
        node: Node::Cell {
            cell: 0,
            checked: true,
        },
    }
}

/// So many operators in a row, from left to right, between reads of cell 0. Each node has a number.
fn chain(alloc: Global, op: BinaryOp, links: u32) -> Result<Expr, AllocError> {
    let mut expr = operand(0);
    for number in 0..links {
        let left = Boxed::new(alloc, expr)?;
        let right = Boxed::new(alloc, operand(number))?;
        expr = Expr {
            ty: IntType::Int,
            site: Some(SiteId(number)),
            node: Node::Binary { op, left, right },
        };
    }
    Ok(expr)
}

/// The value of a chain in a cell with 0 and 1 or no number, and how many marks there are.
pub(crate) fn chain_text(alloc: Global, op: BinaryOp, links: u32) -> Result<String, AllocError> {
    let expr = chain(alloc, op, links)?;
    let mut value = Value::number(0).join(&Value::number(1));
    value.unset = true;
    let mut values = Items::new(alloc);
    values.push(value)?;
    let cells = Cells::new(values);
    let seen = evaluated(alloc, Some(&cells), &expr, true)?;
    let value = value_text(alloc, &seen.value)?;
    let count = seen.marks.len();
    format!(in alloc; "{value} | {count} marks")
}
