//! The table of a program's properties.

ghost use Rattle.std.specs.Prelude.{◌≡◌, ◌≤◌, IfOk, min};
ghost use Rattle.prop_table.specs.Rows.{rows_of, defined_of};
ghost use Rattle.prop_table.specs.Tables.{Tables};
ghost use Rattle.prop_table.specs.inner.Counts.{fns_count};
ghost use Rattle.prop_table.specs.inner.Index.{IsIndex};

use crate::counts::count;
use crate::fault::TableFault;
use crate::index::Index;
use crate::rows::{defined_of, rows_of};
use c_ir::{Program, PropTable};
use std::alloc::{AllocError, Global};

/// How many properties a table may have (this project's own).
const MOST: u64 = 65_536;

/// The table of all properties of a program: by function, then by point; at one point the claim that no run arrives,
/// the clauses, the checks of the operators, and the preconditions of the callees (this project's own).
///
/// A program with more than 65,536 properties is refused.
#[tactic(auto, unfolding(crate::specs::Tables::Tables))]
pub fn table(alloc: Global, program: &Program) -> Result<PropTable, TableFault>
    ensures { Tables program.now result }
{
    let index = Index::new(alloc, program)?;
    let count = count(program, &index);
    if MOST < count {
        return Err(TableFault::TooManyProps(number_of(count)));
    }
    Ok(filled(alloc, program, &index)?)
}

/// A count as a refusal has it: 4,294,967,295 stands for that many and more.
fn number_of(count: u64) -> u32
    ensures { result ≡ min count 4294967295 }
{
    count.min(u64::from(u32::MAX)) as u32
}

/// The table of a program that has at most 65,536 properties.
fn filled(alloc: Global, program: &Program, index: &Index) -> Result<PropTable, AllocError>
    requires index { IsIndex program.now index.now }
    requires room { fns_count program.now program.now.fns ≤ 65536 }
    ensures { IfOk result (λ t. t ≡ record { rows = rows_of program.now; defined = defined_of program.now }) }
{
    let rows = rows_of(alloc, program, index)?;
    let defined = defined_of(alloc, program)?;
    PropTable::new(alloc, rows, defined)
}
