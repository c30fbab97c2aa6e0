//! The checked operators of a program.

ghost use Rattle.std.specs.Prelude.{◌≡◌, ◌≤◌, ◌<◌, ◌++◌, ◌^◌, map, IfOk};
ghost use Rattle.rte_alarms.specs.Entries.{site_id, sites_of};
ghost use Rattle.rte_alarms.specs.inner.Sites.{exits_top, sites_by};

use by_key::ByKey;
use c_ir::{Fun, Program};
use fc_base::{PointId, SiteId};
use prop_table::sites_in;
use sqlite_items::Items;
use std::alloc::{AllocError, Global};

/// Checked operators, by their numbers.
pub type Sites = Items<SiteId>;

/// All checked operators of a program, by point and at one point in order of evaluation (C11 6.5, paragraph 5: the
/// operators that have undefined behaviour). Fails only for want of memory.
pub fn sites(alloc: Global, program: &Program) -> Result<Sites, AllocError>
    ensures { IfOk result (λ s. s ≡ sites_of program.now) }
{
    program.keeps();
    let fns = program.fns.as_slice();
    see_exits(fns);
    let points = program.points.len();
    let noted = sites_in(alloc, program)?;
    let by_point = ByKey::new(alloc, points, noted.as_slice())?;
    listed(alloc, &by_point, points)
}

/// The operators of so many points.
#[tactic(auto, using(crate::proofs::Pointed::sites_end))]
fn listed(alloc: Global, by_point: &ByKey, points: usize) -> Result<Sites, AllocError>
    requires { points ≤ 2 ^ 32 }
    ensures { IfOk result (λ s. s ≡ sites_by by_point.now 0 points) }
{
    let mut all = Items::new(alloc);
    for point in 0..points {
        add_all(&mut all, by_point.at(point as u32))?;
    }
    Ok(all)
}

fn add_all(all: &mut Sites, numbers: &[u32]) -> Result<(), AllocError>
    ensures { IfOk result (λ _. all.new ≡ all.old ++ map site_id numbers.now) }
{
    for number in numbers {
        all.push(SiteId(*number))?;
    }
    Ok(())
}

/// The numbers of points fit into 32 bits, as those of the exits do; this answers nothing.
fn see_exits(fns: &[Fun])
    ensures { exits_top fns.now ≤ 2 ^ 32 }
{
    for f in fns {
        see_point(f.exit);
    }
}

fn see_point(point: PointId)
    ensures { point.0 < 2 ^ 32 }
{
    match point {
        PointId(_) => {}
    }
}
