//! All cells widened, or with their whole types.

ghost use Rattle.std.specs.Prelude.{◌≡◌, IfOk};
ghost use Rattle.abs_state.specs.Widening.{whole_cells, widened};

use abs_cells::Cells;
use int_interval::Shape;
use int_value::Value;
use sqlite_items::Items;
use std::alloc::{AllocError, Global};

/// Each old value widened by the next one, in this turn, with these thresholds and the cell's type; up to
/// the last cell that both have and that has a type. Fails only for want of memory.
pub fn widen(
    alloc: Global,
    old: &Cells,
    next: &Cells,
    turn: u32,
    thresholds: &[i128],
    shapes: &[Shape],
) -> Result<Cells, AllocError>
    ensures { IfOk result (λ c. c ≡ widened turn thresholds.now shapes.now old.now next.now) }
{
    let mut values = Items::new(alloc);
    for number in 0..shapes.len().min(old.len()).min(next.len()) {
        let value = old.get(number);
        values.push(value.widen(&next.get(number), turn, thresholds, &shapes[number]))?;
    }
    Ok(Cells::new(values))
}

/// For each cell with a type and a flag each number of the type, and no value too where the flag is set.
/// Fails only for want of memory.
#[tactic(auto, using(crate::proofs::Steps::whole_step))]
pub fn whole(alloc: Global, shapes: &[Shape], flags: &[bool]) -> Result<Cells, AllocError>
    ensures { IfOk result (λ c. c ≡ whole_cells shapes.now flags.now) }
{
    let mut values = Items::new(alloc);
    for number in 0..shapes.len().min(flags.len()) {
        values.push(Value::whole(&shapes[number], flags[number]))?;
    }
    Ok(Cells::new(values))
}
