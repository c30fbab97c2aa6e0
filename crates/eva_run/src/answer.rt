//! The analysis, where it isn't too much work.

ghost use Rattle.std.specs.Prelude.{◌≡◌, ◌*◌, ◌-◌, ◌^◌, min, nat_lt};
ghost use Rattle.prop_runs.specs.Numbers.{props_of};
ghost use Rattle.eva_run.specs.Answers as answers;
ghost use Rattle.eva_run.specs.Answers.{IsAnswer};

use crate::run::analysed;
use c_ir::{Program, PropTable};
use eva_work::work;
use fc_base::ParamValues;
use status_history::Entries;
use std::alloc::Global;

/// The most work times cells.
const MOST_EFFORT: u128 = 200_000_000;

/// Why a program isn't analysed.
#[derive(Clone, Copy, Debug, PartialEq, Eq)]
pub enum EvaFault {
    /// The program's work, as `eva_work::work` counts it, times its cells is more than 200,000,000; a count of cells
    /// past 4,294,967,295 stands as that.
    TooLarge { work: u64, cells: u32 },
    /// There was no memory left.
    Memory,
}

/// Whether so much work on so many cells is too much.
fn is_too_large(work: u64, cells: usize) -> bool
    ensures { result ≡ nat_lt answers.most_effort (work * cells) }
{
    work as u128 * cells as u128 > MOST_EFFORT
}

/// The number of cells; one past 2^32 - 1 stands as that.
fn counted(cells: usize) -> u32
    ensures { result ≡ min cells (2 ^ 32 - 1) }
{
    cells.min(u32::MAX as usize) as u32
}

/// The entries of the emitter `eva`, with this version, for each property that isn't admitted, in the order of the
/// table: True where the property holds at each place where it is decided or no run comes there, False_if_reachable
/// where it is false at each place that is reached, and else Dont_know. The hypotheses are the properties that may be
/// false and that the analysis went on with as if they were true; an entry that would need more than 256 is Dont_know
/// (abstract interpretation after Cousot and Cousot; the rules are this project's own, after the Eva manual). Each is
/// locally right over the runs under these values of the parameters (`eva_rules::entries_are_right`).
///
/// TooLarge comes exactly where the program's work times its cells is more than 200,000,000, and Memory where there
/// was no memory. `props` is the program's table. The recursion is as deep as the trees and the chain of calls.
#[tactic(auto, unfolding(crate::specs::Answers::is_too_large, crate::specs::Answers::counted_cells))]
pub fn eva(
    alloc: Global,
    program: &Program,
    props: &PropTable,
    params: &ParamValues,
    version: u32,
) -> Result<Entries, EvaFault>
    requires { props.now ≡ props_of program.now }
    ensures { IsAnswer program.now params.now.values version result }
{
    let work = work(program, params);
    let cells = program.cells.len();
    if is_too_large(work, cells) {
        return Err(EvaFault::TooLarge {
            work,
            cells: counted(cells),
        });
    }
    match analysed(alloc, program, props, params, version) {
        Ok(entries) => Ok(entries),
        Err(_) => Err(EvaFault::Memory),
    }
}
