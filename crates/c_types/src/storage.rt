//! The cells of a program.

ghost use Rattle.std.specs.Prelude.{◌≡◌, ◌++◌, replicate, IfOk};
ghost use Rattle.c_types.specs.Programs as spec;

use c_ir::{CellInfo, CellInfos};
use c_typing::{Allocated, Start};
use fc_base::FnId;
use sqlite_items::Items;
use std::alloc::{AllocError, Global};

fn start_for(owner: Option<FnId>) -> Option<i128>
    ensures { result ≡ spec.start_for owner }
{
    match owner {
        None => Some(0),
        Some(_) => None,
    }
}

fn cell_of(object: &Allocated) -> CellInfo
    ensures { result ≡ spec.cell_of object.now }
{
    CellInfo {
        ty: object.ty,
        owner: object.owner,
        constant: object.constant,
        start: start_for(object.owner),
        checked: object.checked,
    }
}

/// Adds as many cells as the object has.
#[tactic(auto, using(crate::proofs::Puts::one_of_equal))]
fn add_cells(cells: &mut CellInfos, object: &Allocated) -> Result<(), AllocError>
    ensures { IfOk result (λ _. cells.new ≡ cells.old ++ replicate object.now.length (spec.cell_of object.now)) }
{
    let cell = cell_of(object);
    for _ in 0..object.length {
        cells.push(cell)?;
    }
    Ok(())
}

fn cells_of(alloc: Global, objects: &[Allocated]) -> Result<CellInfos, AllocError>
    ensures { IfOk result (λ cells. cells ≡ spec.cells_of objects.now) }
{
    let mut cells = Items::new(alloc);
    for object in objects {
        add_cells(&mut cells, object)?;
    }
    Ok(cells)
}

/// The cell of this number starts at this value.
#[tactic(auto, unfolding(crate::specs::Programs::changed))]
fn set_start(cells: &mut CellInfos, at: usize, value: i128)
    ensures { cells.new ≡ spec.changed (spec.starts_at value) at cells.old }
{
    if let Some(cell) = cells.get(at) {
        let mut cell = *cell;
        cell.start = Some(value);
        cells.set(at, cell);
    }
}

/// The cell of this number is constant.
#[tactic(auto, unfolding(crate::specs::Programs::changed))]
fn set_constant(cells: &mut CellInfos, at: usize)
    ensures { cells.new ≡ spec.changed spec.is_constant at cells.old }
{
    if let Some(cell) = cells.get(at) {
        let mut cell = *cell;
        cell.constant = true;
        cells.set(at, cell);
    }
}

/// The cells from the first on start at these values.
#[tactic(auto, using(crate::proofs::Puts::past))]
fn set_values(cells: &mut CellInfos, first: u32, values: &[i128])
    ensures { cells.new ≡ spec.with_values first values.now cells.old }
{
    let mut at = first as usize;
    for value in values {
        if at >= cells.len() {
            break;
        }
        set_start(cells, at, *value);
        at += 1;
    }
}

fn set_starts(cells: &mut CellInfos, starts: &[Start])
    ensures { cells.new ≡ spec.with_starts starts.now cells.old }
{
    for start in starts {
        set_values(cells, start.first, start.values.as_slice());
    }
}

fn set_constants(cells: &mut CellInfos, constants: &[u32])
    ensures { cells.new ≡ spec.with_constants constants.now cells.old }
{
    for cell in constants {
        set_constant(cells, *cell as usize);
    }
}

/// The cells of these objects, with their values at the start and with the formals that are constant.
pub(crate) fn cells(
    alloc: Global,
    objects: &[Allocated],
    starts: &[Start],
    constants: &[u32],
) -> Result<CellInfos, AllocError>
    ensures { IfOk result (λ cells. cells ≡ spec.with_constants constants.now (spec.with_starts starts.now (spec.cells_of objects.now))) }
{
    let mut cells = cells_of(alloc, objects)?;
    set_starts(&mut cells, starts);
    set_constants(&mut cells, constants);
    Ok(cells)
}
