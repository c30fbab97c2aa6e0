//! One state in which each call is made.

use crate::{Cond, Truth, branched, narrow, truth, value};
use abs_cells::Cells;
use abs_state::State;
use c_ir::{Expr, IntType, Node, Pred};
use fc_base::{BinaryOp, ParamValues, Relation};
use int_interval::{Interval, Shape};
use int_value::Value;
use prop_set::PropSet;
use sqlite_items::{Boxed, Items};
use std::alloc::{AllocError, Global};
use std::assert;

/// The cell 0 as a value of type `int`.
fn cell() -> Expr {
    Expr {
        ty: IntType::Int,
        site: None,
        node: Node::Cell {
            cell: 0,
            checked: false,
        },
    }
}

fn number(value: i128) -> Expr {
    Expr {
        ty: IntType::Int,
        site: None,
        node: Node::Literal { value },
    }
}

/// `cell 0 < 3`
fn below_three(alloc: Global) -> Result<Expr, AllocError> {
    Ok(Expr {
        ty: IntType::Int,
        site: None,
        node: Node::Binary {
            op: BinaryOp::Less,
            left: Boxed::new(alloc, cell())?,
            right: Boxed::new(alloc, number(3))?,
        },
    })
}

/// `cell 0 >= 1`, as an annotation.
fn from_one(alloc: Global) -> Result<Pred, AllocError> {
    Ok(Pred::Related {
        relation: Relation::GreaterEq,
        left: Boxed::new(alloc, Pred::Cell { cell: 0 })?,
        right: Boxed::new(alloc, Pred::Number { value: 1 })?,
    })
}

/// The cell 0 is from 0 to 9.
fn digit(alloc: Global) -> Result<State, AllocError> {
    let mut values = Items::new(alloc);
    let shape = Shape {
        lo: 0,
        hi: 9,
        width: 8,
    };
    values.push(Value::whole(&shape, false))?;
    Ok(State {
        env: Some(Cells::new(values)),
        used: PropSet::new(alloc),
    })
}

/// Whether the cell 0 is from `lo` to `hi`.
fn is_from(state: &State, lo: i128, hi: i128) -> bool {
    match &state.env {
        None => false,
        Some(cells) => cells.get(0).range == Interval::Within { lo, hi },
    }
}

/// Whether the value of the condition is 0 to 1 there, with no mark.
fn is_seen(alloc: Global, params: &ParamValues) -> Result<bool, AllocError> {
    let start = digit(alloc)?;
    let cond = below_three(alloc)?;
    let seen = value(alloc, &start, &cond, params)?;
    Ok(seen.value.range == Interval::Within { lo: 0, hi: 1 } && seen.marks.is_empty())
}

/// Whether the same is said of it in a branch, which leaves 0 to 2 and 3 to 9.
fn branches(alloc: Global, params: &ParamValues) -> Result<bool, AllocError> {
    let start = digit(alloc)?;
    let cond = below_three(alloc)?;
    let both = branched(alloc, &start, &cond, params)?;
    let is_same = both.value.range == Interval::Within { lo: 0, hi: 1 } && both.marks.is_empty();
    Ok(is_same && is_from(&both.taken, 0, 2) && is_from(&both.skipped, 3, 9))
}

/// Whether the condition leaves 0 to 2.
fn narrows_by_expr(alloc: Global, params: &ParamValues) -> Result<bool, AllocError> {
    let start = digit(alloc)?;
    let entry = digit(alloc)?;
    let cond = below_three(alloc)?;
    let state = narrow(alloc, start, &entry, Cond::C(&cond), true, params)?;
    Ok(is_from(&state, 0, 2))
}

/// Whether the predicate leaves 1 to 9, and holds there.
fn narrows_by_pred(alloc: Global, params: &ParamValues) -> Result<bool, AllocError> {
    let start = digit(alloc)?;
    let entry = digit(alloc)?;
    let pred = from_one(alloc)?;
    let state = narrow(alloc, start, &entry, Cond::Acsl(&pred), true, params)?;
    Ok(is_from(&state, 1, 9) && truth(&state, &entry, &pred) == Truth::Yes)
}

#[test]
fn each_call_is_made(rt: HostRuntime) -> Result<(), AllocError> {
    let alloc = rt.alloc();
    let params = ParamValues { values: [1; 16] };
    assert!(rt; is_seen(alloc, &params)?);
    assert!(rt; branches(alloc, &params)?);
    assert!(rt; narrows_by_expr(alloc, &params)?);
    assert!(rt; narrows_by_pred(alloc, &params)?);
    Ok(())
}
