//! What a program has at each point, found once for all points.

ghost use Rattle.std.specs.Prelude.{◌≡◌, ◌≤◌, ◌^◌, IfOk, length, get_or};
ghost use Rattle.prop_table.specs.Points.{noted_sites, requires_at};

use crate::calls::calls_in;
use crate::operators::see_fns;
use crate::preconditions::counts;
use by_key::{ByKey, Keyed};
use c_ir::{Program, SiteInfo};
use sqlite_items::Items;
use std::alloc::{AllocError, Global};

/// The operators and the callees at each point, and how many preconditions each function has.
#[derive(Drop)]
pub(crate) struct Index {
    pub(crate) sites: ByKey,
    pub(crate) calls: ByKey,
    preconditions: Items<usize>,
}

impl Index {
    ghost use Rattle.prop_table.specs.inner.Index.{IsIndex};

    /// The index of a program.
    pub(crate) fn new(alloc: Global, program: &Program) -> Result<Index, AllocError>
        ensures { IfOk result (λ i. IsIndex program.now i) }
    {
        let points = program.points.len();
        let operators = sites_in(alloc, program)?;
        let callees = calls_in(alloc, program.fns.as_slice())?;
        let sites = ByKey::new(alloc, points, operators.as_slice())?;
        let calls = ByKey::new(alloc, points, callees.as_slice())?;
        let preconditions = counts(alloc, program)?;
        Ok(Index {
            sites,
            calls,
            preconditions,
        })
    }

    /// How many preconditions the function with this number has.
    pub(crate) fn requires_of(&self, program: &Program, function: u32) -> usize
        requires { IsIndex program.now self.now }
        ensures { result ≡ length (requires_at program.now function) }
    {
        match self.preconditions.get(function as usize) {
            None => 0,
            Some(count) => *count,
        }
    }
}

/// The operators of a program by their numbers, each with its point as the key.
pub fn sites_in(alloc: Global, program: &Program) -> Result<Items<Keyed>, AllocError>
    ensures { IfOk result (λ ms. ms ≡ noted_sites 0 program.now.sites) }
{
    program.keeps();
    let fns = program.fns.as_slice();
    see_fns(fns);
    let sites = program.sites.as_slice();
    number_sites(alloc, sites)
}

fn number_sites(alloc: Global, sites: &[SiteInfo]) -> Result<Items<Keyed>, AllocError>
    requires { length sites.now ≤ 2 ^ 32 }
    ensures { IfOk result (λ ms. ms ≡ noted_sites 0 sites.now) }
{
    let mut noted = Items::new(alloc);
    for number in 0..sites.len() {
        noted.push(Keyed {
            key: sites[number].point.0,
            number: number as u32,
        })?;
    }
    Ok(noted)
}
