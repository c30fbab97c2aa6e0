//! What cells have after they were written.

ghost use Rattle.std.specs.Prelude.{false, ◌≡◌, ◌≤◌, ◌<◌, ◌+◌, ◌-◌, ◌^◌, if◌then◌else◌, pos, slice_get, IfOk, Some};
ghost use Rattle.int_value.specs.Rows.{contains_row, one_of};
ghost use Rattle.abs_cells.specs.Cells as cells_spec;
ghost use Rattle.abs_cells.specs.Cells.{index_met, value_at};
ghost use Rattle.c_runs.specs.Statements as runs;
ghost use Rattle.eva_rules.specs.Writing as rules;
ghost use Rattle.eva_run.specs.Code.{writes_of};

use abs_cells::Cells;
use c_ir::{CellInfo, IntType, Program};
use eva_values::shape_of;
use int_congr::Congr;
use int_interval::Interval;
use int_value::Value;
use sqlite_items::Items;
use std::alloc::{AllocError, Global};

/// Where a value goes to.
#[derive(Clone, Copy)]
pub(crate) enum To {
    /// It is dropped.
    Nowhere,
    Cell {
        cell: usize,
    },
    /// An element of the array whose `length` cells begin at `first`.
    Element {
        first: u32,
        length: u32,
        index: Value,
    },
}

/// No number.
pub(crate) fn unset() -> Value
    ensures { result ≡ rules.unset }
{
    Value {
        range: Interval::Empty,
        congr: Congr { rem: 0, modulus: 1 },
        unset: true,
    }
}

/// One number.
pub(crate) fn exactly(number: &i128) -> Value
    ensures { result ≡ one_of number.now false }
{
    Value {
        range: Interval::Within {
            lo: *number,
            hi: *number,
        },
        congr: Congr {
            rem: *number,
            modulus: 0,
        },
        unset: false,
    }
}

pub(crate) fn zero() -> Value
    ensures { result ≡ rules.zero_value }
{
    exactly(&0)
}

/// The value of a cell; nothing where no run comes.
pub(crate) fn value_in(env: &Option<Cells>, cell: u32) -> Value
    ensures { result ≡ cells_spec.value_in env.now cell }
{
    match env {
        None => Value {
            range: Interval::Empty,
            congr: Congr { rem: 0, modulus: 1 },
            unset: false,
        },
        Some(cells) => cells.get(cell as usize),
    }
}

/// The cells, of which one has this value from now on.
pub(crate) fn set_cell(
    env: Option<Cells>,
    cell: usize,
    value: Value,
) -> Result<Option<Cells>, AllocError>
    ensures { IfOk result (λ e. e ≡ rules.set_cell cell value env) }
{
    match env {
        None => Ok(None),
        Some(mut cells) => {
            cells.set(cell, value)?;
            Ok(Some(cells))
        }
    }
}

/// So many cells from a first one on get this value.
#[tactic(auto, using(crate::proofs::Leaves::set_step, crate::proofs::Leaves::set_end))]
fn each_set(cells: &mut Cells, first: usize, count: usize, value: Value) -> Result<(), AllocError>
    requires { first + count < 2 ^ 64 }
    ensures { IfOk result (λ _. cells.new ≡ rules.each_set first count value cells.old) }
{
    for number in 0..count {
        cells.set(first + number, value)?;
    }
    Ok(())
}

/// The same of the cells of a place.
pub(crate) fn set_cells(
    env: Option<Cells>,
    first: usize,
    count: usize,
    value: Value,
) -> Result<Option<Cells>, AllocError>
    requires { first + count < 2 ^ 64 }
    ensures { IfOk result (λ e. e ≡ rules.set_cells first count value env) }
{
    match env {
        None => Ok(None),
        Some(mut cells) => {
            each_set(&mut cells, first, count, value)?;
            Ok(Some(cells))
        }
    }
}

/// An element is joined with the value, if its number is in the index.
fn join_if(
    cells: &mut Cells,
    first: usize,
    number: usize,
    index: &Value,
    value: &Value,
) -> Result<(), AllocError>
    requires { first + number < 2 ^ 64 }
    ensures { IfOk result (λ _. cells.new
        ≡ rules.joined_if (contains_row index.now (pos number)) (first + number) value.now cells.old) }
{
    if index.contains(number as i128) {
        let cell = first + number;
        let joined = cells.get(cell).join(value);
        cells.set(cell, joined)?;
    }
    Ok(())
}

/// The elements from number `from` to number `end` less 1 that are in the index are joined with the value.
#[tactic(auto, using(crate::proofs::Leaves::joined_step, crate::proofs::Leaves::joined_end))]
fn each_joined(
    cells: &mut Cells,
    first: u32,
    index: &Value,
    value: &Value,
    from: usize,
    end: usize,
) -> Result<(), AllocError>
    requires order { from ≤ end }
    requires bound { end ≤ 2 ^ 32 }
    ensures { IfOk result (λ _. cells.new
        ≡ rules.each_joined first index.now value.now from (end - from) cells.old) }
{
    for number in from..end {
        join_if(cells, first as usize, number, index, value)?;
    }
    Ok(())
}

/// The index as far as it lies in the array of `length` elements.
pub(crate) fn met_index(length: u32, index: &Value) -> Value
    ensures { result ≡ index_met length index.now }
{
    index.meet(&Interval::Within {
        lo: 0,
        hi: i128::from(length) - 1,
    })
}

/// The elements that the index names get the value: the one, or each of several perhaps.
fn elements_set(
    cells: &mut Cells,
    first: u32,
    length: u32,
    index: &Value,
    value: Value,
) -> Result<(), AllocError>
    ensures { IfOk result (λ _. cells.new
        ≡ rules.elements_set first length (index_met length index.now) value (index_met length index.now).range cells.old) }
{
    let met = met_index(length, index);
    match met.range {
        Interval::Empty => Ok(()),
        Interval::All => each_joined(cells, first, &met, &value, 0, length as usize),
        Interval::Within { lo, hi } => match met.single() {
            Some(number) => cells.set(first as usize + number as usize, value),
            None => each_joined(cells, first, &met, &value, lo as usize, hi as usize + 1),
        },
    }
}

/// The cells after a value was written.
pub(crate) fn write(env: Option<Cells>, to: &To, value: Value) -> Result<Option<Cells>, AllocError>
    ensures { IfOk result (λ e. e ≡ writes_of to.now value env) }
{
    match to {
        To::Nowhere => Ok(env),
        To::Cell { cell } => set_cell(env, *cell, value),
        To::Element {
            first,
            length,
            index,
        } => match env {
            None => Ok(None),
            Some(mut cells) => {
                elements_set(&mut cells, *first, *length, index, value)?;
                Ok(Some(cells))
            }
        },
    }
}

/// Cells in order get values in order.
#[tactic(auto, using(crate::proofs::Leaves::written_step, crate::proofs::Leaves::written_end))]
pub(crate) fn written(
    env: Option<Cells>,
    cells: &[u32],
    values: &[Value],
) -> Result<Option<Cells>, AllocError>
    ensures { IfOk result (λ e. e ≡ rules.written cells.now values.now env) }
{
    let mut now = env;
    for place in 0..cells.len().min(values.len()) {
        now = set_cell(now, cells[place] as usize, values[place])?;
    }
    Ok(now)
}

/// Whether a cell is one of this function.
fn is_owned_by(function: u32, info: &CellInfo) -> bool
    ensures { result ≡ runs.is_owned_by function (Some info.now) }
{
    match info.owner {
        None => false,
        Some(owner) => owner.0 == function,
    }
}

/// Whether the cell with this number is one of this function.
fn is_freed(infos: &[CellInfo], function: u32, number: usize) -> bool
    ensures { result ≡ runs.is_owned_by function (slice_get infos.now number) }
{
    match infos.get(number) {
        None => false,
        Some(info) => is_owned_by(function, info),
    }
}

/// The value of a cell after its function was left.
fn freed(infos: &[CellInfo], function: u32, number: usize, cells: &Cells) -> Value
    ensures { result ≡ (if runs.is_owned_by function (slice_get infos.now number) then rules.unset
        else value_at cells.now number) }
{
    if is_freed(infos, function, number) {
        unset()
    } else {
        cells.get(number)
    }
}

/// The cells of a function get no number.
#[tactic(auto, using(crate::proofs::Leaves::freed_step, crate::proofs::Leaves::freed_end))]
fn each_freed(
    alloc: Global,
    infos: &[CellInfo],
    function: u32,
    cells: &Cells,
) -> Result<Cells, AllocError>
    ensures { IfOk result (λ c. c ≡ rules.each_freed function infos.now cells.now) }
{
    let mut values = Items::new(alloc);
    for number in 0..cells.len() {
        values.push(freed(infos, function, number, cells))?;
    }
    Ok(Cells::new(values))
}

/// The same of a place.
pub(crate) fn freed_cells(
    alloc: Global,
    program: &Program,
    function: u32,
    env: Option<Cells>,
) -> Result<Option<Cells>, AllocError>
    ensures { IfOk result (λ e. e ≡ rules.freed_cells program.now function env) }
{
    match env {
        None => Ok(None),
        Some(cells) => Ok(Some(each_freed(alloc, program.cells.as_slice(), function, &cells)?)),
    }
}

/// Each number of a cell's type.
fn any_of(program: &Program, cell: usize) -> Value
    ensures { result ≡ rules.any_of program.now cell }
{
    let ty = match program.cells.get(cell) {
        None => IntType::Int,
        Some(info) => info.ty,
    };
    Value::whole(&shape_of(ty), false)
}

/// A cell gets each number of its type.
pub(crate) fn receive(
    program: &Program,
    cell: usize,
    env: Option<Cells>,
) -> Result<Option<Cells>, AllocError>
    ensures { IfOk result (λ e. e ≡ rules.receive program.now cell env) }
{
    set_cell(env, cell, any_of(program, cell))
}

/// So do these cells.
pub(crate) fn receive_all(
    program: &Program,
    cells: &[u32],
    env: Option<Cells>,
) -> Result<Option<Cells>, AllocError>
    ensures { IfOk result (λ e. e ≡ rules.receive_all program.now cells.now env) }
{
    let mut now = env;
    for cell in cells {
        now = receive(program, *cell as usize, now)?;
    }
    Ok(now)
}
