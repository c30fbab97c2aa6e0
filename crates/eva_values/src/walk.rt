//! The pass over an expression.

ghost use Rattle.std.specs.Prelude.{◌≡◌, ◌++◌, true, false, IfOk};
ghost use Rattle.std.specs.Option.{option_copied};
ghost use Rattle.eva_values.specs.Values.{abstracted};
ghost use Rattle.eva_values.specs.inner.Outcomes.{outcome_of};

use crate::nodes::{
    binary, cast, choice, constant, element, goes_by, is_logic, nothing, object, unary,
};
use crate::outcome::Outcome;
use crate::seen::{Branched, Seen, SiteMarks};
use abs_cells::Cells;
use c_ir::{Expr, Node};
use sqlite_items::Items;
use std::alloc::{AllocError, Global};

/// The value of an expression in these cells, and what is said of its checks, in order of evaluation; without cells
/// no run comes by, and nothing has a number. `overflow` says whether overflow of signed numbers is checked. Fails
/// only for want of memory.
#[tactic(auto, using(crate::proofs::Outcomes::value_is))]
pub fn evaluated(
    alloc: Global,
    cells: Option<&Cells>,
    expr: &Expr,
    overflow: bool,
) -> Result<Seen, AllocError>
    ensures value { IfOk result (λ s. s.value
        ≡ ((abstracted overflow expr.now).side (option_copied cells.entry)).value) }
    ensures marks { IfOk result (λ s. s.marks ≡ (abstracted overflow expr.now).marks (option_copied cells.entry)) }
{
    let mut marks = Items::new(alloc);
    let outcome = walk(alloc, cells, expr, overflow, false, &mut marks)?;
    Ok(Seen {
        value: outcome.side.value,
        marks,
    })
}

/// Of these cells those for which the condition comes out true, or false where `taken` is false; None where there
/// are none. Fails only for want of memory.
#[tactic(auto, using(crate::proofs::Outcomes::yes_is, crate::proofs::Outcomes::no_is))]
pub fn narrowed(
    alloc: Global,
    cells: Option<&Cells>,
    cond: &Expr,
    taken: bool,
    overflow: bool,
) -> Result<Option<Cells>, AllocError>
    ensures { IfOk result (λ e. e ≡ (abstracted overflow cond.now).narrowed taken (option_copied cells.entry)) }
{
    let mut marks = Items::new(alloc);
    let outcome = walk(alloc, cells, cond, overflow, true, &mut marks)?;
    if taken {
        Ok(outcome.yes)
    } else {
        Ok(outcome.no)
    }
}

/// What a branch by this condition needs, from one pass: its value, what is said of its checks, in order of
/// evaluation, and the cells for which it comes out true and false. Fails only for want of memory.
#[tactic(auto, using(crate::proofs::Outcomes::value_is, crate::proofs::Outcomes::yes_is, crate::proofs::Outcomes::no_is))]
pub fn branched(
    alloc: Global,
    cells: Option<&Cells>,
    cond: &Expr,
    overflow: bool,
) -> Result<Branched, AllocError>
    ensures value { IfOk result (λ b. b.value
        ≡ ((abstracted overflow cond.now).side (option_copied cells.entry)).value) }
    ensures marks { IfOk result (λ b. b.marks ≡ (abstracted overflow cond.now).marks (option_copied cells.entry)) }
    ensures taken { IfOk result (λ b. b.taken
        ≡ (abstracted overflow cond.now).narrowed true (option_copied cells.entry)) }
    ensures skipped { IfOk result (λ b. b.skipped
        ≡ (abstracted overflow cond.now).narrowed false (option_copied cells.entry)) }
{
    let mut marks = Items::new(alloc);
    let outcome = walk(alloc, cells, cond, overflow, true, &mut marks)?;
    Ok(Branched {
        value: outcome.side.value,
        marks,
        taken: outcome.yes,
        skipped: outcome.no,
    })
}

/// One pass, which adds the marks. The cells of a condition are found where `wanted` says so. The recursion is as
/// deep as the tree; what isn't recursive stays out of line, so that its frame is small.
#[tactic(auto, unfolding(crate::specs::Values::abstracted))]
fn walk(
    alloc: Global,
    cells: Option<&Cells>,
    e: &Expr,
    overflow: bool,
    wanted: bool,
    marks: &mut SiteMarks,
) -> Result<Outcome, AllocError>
    ensures outcome { IfOk result (λ x. x
        ≡ outcome_of (abstracted overflow e.now) (option_copied cells.entry) wanted) }
    ensures marks { IfOk result (λ _. marks.new
        ≡ marks.old ++ (abstracted overflow e.now).marks (option_copied cells.entry)) }
{
    match &e.node {
        Node::Literal { value } => constant(alloc, cells, value, wanted),
        Node::Cell { cell, checked } => {
            let read = (e.site, *cell, *checked);
            object(alloc, cells, read, wanted, marks)
        }
        Node::Element {
            first,
            length,
            index,
            checked,
        } => {
            let index = walk(alloc, cells, index.get(), overflow, false, marks)?;
            let read = (e.site, *first, *length, *checked);
            element(alloc, cells, read, index, wanted, marks)
        }
        Node::Unary { op, of } => {
            let operand = walk(alloc, cells, of.get(), overflow, wanted, marks)?;
            unary(
                alloc,
                cells,
                (e.site, e.ty, *op, overflow),
                operand,
                wanted,
                marks,
            )
        }
        Node::Binary { op, left, right } => {
            let left = walk(alloc, cells, left.get(), overflow, is_logic(*op), marks)?;
            let after = left.after(*op, cells);
            let right = walk(
                alloc,
                after,
                right.get(),
                overflow,
                goes_by(*op, wanted),
                marks,
            )?;
            binary(
                alloc,
                cells,
                (e.site, e.ty, *op, overflow),
                left,
                right,
                wanted,
                marks,
            )
        }
        Node::Cond { cond, yes, no } => {
            let cond = walk(alloc, cells, cond.get(), overflow, true, marks)?;
            let yes = walk(alloc, cond.yes.as_ref(), yes.get(), overflow, false, marks)?;
            let no = walk(alloc, cond.no.as_ref(), no.get(), overflow, false, marks)?;
            choice(alloc, cells, cond, yes, no, wanted)
        }
        Node::Cast { of } => {
            let of = walk(alloc, cells, of.get(), overflow, false, marks)?;
            cast(alloc, cells, e.ty, of, wanted)
        }
        Node::Call {
            function: _function,
            args: _args,
        } => nothing(alloc, cells, wanted),
        Node::Assign {
            to: _to,
            value: _value,
        } => nothing(alloc, cells, wanted),
    }
}
