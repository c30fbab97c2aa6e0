//! What isn't recursive of the pass over an expression.

ghost use Rattle.std.specs.Prelude.{◌≡◌, ◌++◌, ◌&&◌, is_some, IfOk};
ghost use Rattle.std.specs.Option.{option_copied};
ghost use Rattle.abs_cells.specs.Cells as cells_spec;
ghost use Rattle.eva_values.specs.Marks.{
  made_by,
  made_by_unary,
  mark_read,
  marks_made,
  marks_made_unary,
};
ghost use Rattle.eva_values.specs.Shapes as shapes;
ghost use Rattle.eva_values.specs.Values as values;
ghost use Rattle.eva_values.specs.inner.Forms as forms;
ghost use Rattle.eva_values.specs.inner.Outcomes as spec;

use crate::marks::{add_check, add_index, add_read};
use crate::operators::{
    Form, check_of, checks_of, empty, form_of, made, made_unary, number_of, said_value,
};
use crate::outcome::{Outcome, unnamed};
use crate::seen::SiteMarks;
use crate::shape::{converted, shape_of};
use abs_cells::{Cells, Side, said};
use c_ir::IntType;
use fc_base::{BinaryOp, SiteId, UnaryOp};
use int_interval::Interval;
use int_value::{Made, Value};
use machine_ints::{Operator, UnaryOperator};
use std::alloc::{AllocError, Global};

/// A constant (C11 6.4.4).
pub(crate) fn constant(
    alloc: Global,
    cells: Option<&Cells>,
    number: &i128,
    wanted: bool,
) -> Result<Outcome, AllocError>
    ensures { IfOk result (λ x. x ≡ spec.compared_outcome (option_copied cells.entry)
        (values.unnamed (values.constant_in (option_copied cells.entry) number.now)) wanted) }
{
    let value = match cells {
        None => empty(),
        Some(_) => Value::number(*number),
    };
    Outcome::compared(alloc, cells, unnamed(value), wanted)
}

/// The value of a cell, with its flag.
fn value_in(cells: Option<&Cells>, cell: u32) -> Value
    ensures { result ≡ cells_spec.value_in (option_copied cells.entry) cell }
{
    match cells {
        None => empty(),
        Some(cells) => cells.get(cell as usize),
    }
}

/// An object that is no array, with its number and whether it is checked that it has one (C11 6.3.2.1).
pub(crate) fn object(
    alloc: Global,
    cells: Option<&Cells>,
    read: (Option<SiteId>, u32, bool),
    wanted: bool,
    marks: &mut SiteMarks,
) -> Result<Outcome, AllocError>
    ensures outcome { IfOk result (λ x. x ≡ spec.object_outcome (option_copied cells.entry) read.1 wanted) }
    ensures marks { IfOk result (λ _. marks.new
        ≡ marks.old ++ mark_read read.0 read.2 (cells_spec.value_in (option_copied cells.entry) read.1)) }
{
    let (site, cell, checked) = read;
    let value = value_in(cells, cell);
    add_read(marks, site, checked, &value)?;
    let side = Side {
        cell: Some(cell),
        value: number_of(value),
    };
    Outcome::compared(alloc, cells, side, wanted)
}

/// The value of an element, with its flag (C11 6.5.2.1).
fn element_of(cells: Option<&Cells>, first: u32, length: u32, index: &Value) -> Value
    ensures { result ≡ cells_spec.element_of (option_copied cells.entry) first length index.now }
{
    match cells {
        None => empty(),
        Some(cells) => cells.element(first, length, index),
    }
}

/// An element of the array of so many cells from a first one on, with whether it is checked that it has a number
/// (C11 6.5.2.1).
pub(crate) fn element(
    alloc: Global,
    cells: Option<&Cells>,
    read: (Option<SiteId>, u32, u32, bool),
    index: Outcome,
    wanted: bool,
    marks: &mut SiteMarks,
) -> Result<Outcome, AllocError>
    ensures outcome { IfOk result (λ x. x
        ≡ spec.element_outcome (option_copied cells.entry) read.1 read.2 index.side.value wanted) }
    ensures marks { IfOk result (λ _. marks.new ≡ marks.old
        ++ spec.element_marks (option_copied cells.entry) read.0 read.1 read.2 read.3 index.side.value) }
{
    let (site, first, length, checked) = read;
    let index = index.side.value;
    let value = element_of(cells, first, length, &index);
    add_index(marks, site, length, &index)?;
    add_read(marks, site, checked, &value)?;
    Outcome::compared(alloc, cells, unnamed(number_of(value)), wanted)
}

/// A conversion (C11 6.3.1).
pub(crate) fn cast(
    alloc: Global,
    cells: Option<&Cells>,
    ty: IntType,
    of: Outcome,
    wanted: bool,
) -> Result<Outcome, AllocError>
    ensures { IfOk result (λ x. x ≡ spec.cast_outcome (option_copied cells.entry) ty of.side wanted) }
{
    Outcome::compared(alloc, cells, cast_side(ty, &of.side), wanted)
}

/// `?:`, with the outcomes of the condition and of both branches (C11 6.5.15).
pub(crate) fn choice(
    alloc: Global,
    cells: Option<&Cells>,
    _cond: Outcome,
    yes: Outcome,
    no: Outcome,
    wanted: bool,
) -> Result<Outcome, AllocError>
    ensures { IfOk result (λ x. x
        ≡ spec.choice_outcome (option_copied cells.entry) yes.side.value no.side.value wanted) }
{
    let value = yes.side.value.join(&no.side.value);
    Outcome::compared(alloc, cells, unnamed(value), wanted)
}

/// What has no value: a call or an assignment.
pub(crate) fn nothing(
    alloc: Global,
    cells: Option<&Cells>,
    wanted: bool,
) -> Result<Outcome, AllocError>
    ensures { IfOk result (λ x. x ≡ spec.nothing_outcome (option_copied cells.entry) wanted) }
{
    Outcome::compared(alloc, cells, unnamed(empty()), wanted)
}

/// A conversion's side; one that keeps all numbers of the operand names its cell still.
fn cast_side(ty: IntType, of: &Side) -> Side
    ensures { result ≡ values.named_by (values.cast_cell ty of.now) (shapes.converted_row ty of.now.value) }
{
    let shape = shape_of(ty);
    let range = Interval::Within {
        lo: shape.lo,
        hi: shape.hi,
    };
    Side {
        cell: if of.value.range.included(&range) {
            of.cell
        } else {
            None
        },
        value: converted(ty, &of.value),
    }
}

/// An operator with one operand that is computed: its number, its type, what it is and whether overflow is checked.
fn unary_by(
    alloc: Global,
    cells: Option<&Cells>,
    operator: (Option<SiteId>, IntType, UnaryOperator, bool),
    value: &Value,
    wanted: bool,
    marks: &mut SiteMarks,
) -> Result<Outcome, AllocError>
    ensures outcome { IfOk result (λ x. x ≡ spec.made_outcome (option_copied cells.entry)
        (made_by_unary operator.2 (shapes.shape_of operator.1) operator.3 value.now) wanted) }
    ensures marks { IfOk result (λ _. marks.new ≡ marks.old ++ marks_made_unary operator.0 operator.2
        (made_by_unary operator.2 (shapes.shape_of operator.1) operator.3 value.now)) }
{
    let (site, ty, op, overflow) = operator;
    let made = made_unary(op, value, &shape_of(ty), overflow);
    add_check(marks, site, check_of(op), made.first)?;
    let side = unnamed(made.value);
    Outcome::compared(alloc, cells, side, wanted)
}

/// An operator with one operand: its number, its type, what it is and whether overflow is checked (C11 6.5.3.3).
pub(crate) fn unary(
    alloc: Global,
    cells: Option<&Cells>,
    operator: (Option<SiteId>, IntType, UnaryOp, bool),
    operand: Outcome,
    wanted: bool,
    marks: &mut SiteMarks,
) -> Result<Outcome, AllocError>
    ensures outcome { IfOk result (λ x. x
        ≡ spec.unary_outcome (option_copied cells.entry) operator.1 operator.2 operator.3 operand wanted) }
    ensures marks { IfOk result (λ _. marks.new
        ≡ marks.old ++ spec.unary_marks operator.0 operator.1 operator.2 operator.3 operand.side.value) }
{
    let (site, ty, op, overflow) = operator;
    let value = operand.side.value;
    let op = match op {
        UnaryOp::Plus => return Outcome::compared(alloc, cells, unnamed(value), wanted),
        UnaryOp::Not => return Ok(operand.negated()),
        UnaryOp::Minus => UnaryOperator::Negate,
        UnaryOp::Invert => UnaryOperator::Complement,
    };
    unary_by(
        alloc,
        cells,
        (site, ty, op, overflow),
        &value,
        wanted,
        marks,
    )
}

/// Whether the operator is `&&` or `||`, whose left operand says where the right one is evaluated (C11 6.5.13, 6.5.14).
pub(crate) fn is_logic(op: BinaryOp) -> bool
    ensures { result ≡ is_some (spec.goes_on op) }
{
    match op {
        BinaryOp::LogicAnd | BinaryOp::LogicOr => true,
        _ => false,
    }
}

/// Whether the cells are wanted for which the right operand comes out true and false.
pub(crate) fn goes_by(op: BinaryOp, wanted: bool) -> bool
    ensures { result ≡ (is_some (spec.goes_on op) && wanted) }
{
    is_logic(op) && wanted
}

fn add_made(
    marks: &mut SiteMarks,
    site: Option<SiteId>,
    op: Operator,
    made: &Made,
) -> Result<(), AllocError>
    ensures { IfOk result (λ _. marks.new ≡ marks.old ++ marks_made site op made.now) }
{
    let (first, second) = checks_of(op);
    add_check(marks, site, first, made.first)?;
    add_check(marks, site, second, made.second)
}

/// An operator with two operands that is computed: its number, its type, what it is and whether overflow is checked
/// (C11 6.5.5 to 6.5.7, 6.5.10 to 6.5.12).
fn binary_by(
    alloc: Global,
    cells: Option<&Cells>,
    operator: (Option<SiteId>, IntType, Operator, bool),
    left: &Side,
    right: &Side,
    wanted: bool,
    marks: &mut SiteMarks,
) -> Result<Outcome, AllocError>
    ensures outcome { IfOk result (λ x. x ≡ spec.made_outcome (option_copied cells.entry)
        (made_by operator.2 (shapes.shape_of operator.1) operator.3 left.now.value right.now.value) wanted) }
    ensures marks { IfOk result (λ _. marks.new ≡ marks.old ++ marks_made operator.0 operator.2
        (made_by operator.2 (shapes.shape_of operator.1) operator.3 left.now.value right.now.value)) }
{
    let (site, ty, op, overflow) = operator;
    let made = made(op, &left.value, &right.value, &shape_of(ty), overflow);
    add_made(marks, site, op, &made)?;
    Outcome::compared(alloc, cells, unnamed(made.value), wanted)
}

/// An operator with two operands: its number, its type, what it is and whether overflow is checked (C11 6.5.5 to
/// 6.5.14).
pub(crate) fn binary(
    alloc: Global,
    cells: Option<&Cells>,
    operator: (Option<SiteId>, IntType, BinaryOp, bool),
    left: Outcome,
    right: Outcome,
    wanted: bool,
    marks: &mut SiteMarks,
) -> Result<Outcome, AllocError>
    ensures outcome { IfOk result (λ x. x ≡ spec.form_outcome (forms.form_of operator.2) (option_copied cells.entry)
        operator.1 operator.3 left right wanted) }
    ensures marks { IfOk result (λ _. marks.new ≡ marks.old ++ spec.form_marks (forms.form_of operator.2) operator.0
        operator.1 operator.3 left.side.value right.side.value) }
{
    let (site, ty, op, overflow) = operator;
    match form_of(op) {
        Form::Logic(goes) => Outcome::logic(alloc, goes, left, right, wanted),
        Form::Relation(relation) => {
            let (left, right) = (left.side, right.side);
            let side = unnamed(said_value(said(relation, &left.value, &right.value)));
            Outcome::tested(alloc, cells, side, relation, &left, &right, wanted)
        }
        Form::Operator(op) => {
            let (left, right) = (left.side, right.side);
            let operator = (site, ty, op, overflow);
            binary_by(alloc, cells, operator, &left, &right, wanted, marks)
        }
    }
}
