//! Operators at their new points.

ghost use Rattle.std.specs.Prelude.{◌≡◌, [], IfOk, map, slice_index_or};
ghost use Rattle.std.specs.Option.{option_copied};
ghost use Rattle.acsl_bind.specs.Programs.{entry_in, moved_site, moved_to};
ghost use Rattle.acsl_bind.specs.inner.Texts.{of_points};

use c_ir::{Fun, PointInfo, SiteInfo, SiteInfos};
use fc_base::PointId;
use sqlite_items::Items;
use std::alloc::{AllocError, Global};

/// The entry of a function, 0 where there is none.
fn entry_of(f: Option<&Fun>) -> u32
    ensures { result ≡ entry_in (option_copied f.entry) }
{
    match f {
        None => 0,
        Some(f) => f.entry.0,
    }
}

/// The number at this place of the list with this number, 0 where there is none.
fn number_in(lists: &[Items<u32>], list: usize, place: u32) -> u32
    ensures { result ≡ slice_index_or (slice_index_or lists.now list []) place 0 }
{
    let place = place as usize;
    if list < lists.len() {
        let numbers = lists[list].as_slice();
        if place < numbers.len() {
            return numbers[place];
        }
    }
    0
}

/// The new number of a point.
#[tactic(auto, unfolding(crate::specs::Programs::moved_to))]
fn moved_to(fns: &[Fun], points: &[PointInfo], moves: &[Items<u32>], point: PointId) -> PointId
    ensures { result ≡ moved_to (of_points fns.now points.now) moves.now point }
{
    match points.get(point.0 as usize) {
        None => point,
        Some(info) => {
            let owner = info.owner.0 as usize;
            let place = point.0.saturating_sub(entry_of(fns.get(owner)));
            PointId(number_in(moves, owner, place))
        }
    }
}

/// The operators, each at the new number of its point.
pub(crate) fn moved_sites(
    alloc: Global,
    fns: &[Fun],
    points: &[PointInfo],
    moves: &[Items<u32>],
    sites: &[SiteInfo],
) -> Result<SiteInfos, AllocError>
    ensures { IfOk result (λ moved. moved ≡ map (moved_site (of_points fns.now points.now) moves.now) sites.now) }
{
    let mut moved = Items::new(alloc);
    for site in sites {
        moved.push(SiteInfo {
            point: moved_to(fns, points, moves, site.point),
            checks: site.checks,
        })?;
    }
    Ok(moved)
}
