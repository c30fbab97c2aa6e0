//! What the walk makes.

ghost use Rattle.std.specs.Prelude.{◌≡◌, ◌∷◌, [], None};
ghost use Rattle.acsl_bind.specs.Placing as spec;
ghost use Rattle.acsl_bind.specs.Placing.{Places, made_of};
ghost use Rattle.std.specs.Option.{option_copied};

use acsl_terms::NoteBreach;
use c_ir::{PointClause, PointInfo, PointInfos};
use fc_base::{FnId, Line, PointId};
use sqlite_items::Items;
use std::alloc::{AllocError, Global};

/// The points so far, for each point of the skeleton's function so far its new number, and the first breach so far.
#[derive(Debug, Drop)]
pub struct Walk {
    pub points: PointInfos,
    pub moved: Items<u32>,
    pub first: Option<NoteBreach>,
}

impl Walk {
    /// Nothing made.
    pub(crate) fn new(alloc: Global) -> Walk
        ensures { result ≡ record { points = []; moved = []; first = None } }
    {
        Walk {
            points: Items::new(alloc),
            moved: Items::new(alloc),
            first: None,
        }
    }
}

/// A point more, with these clauses. Points whose numbers no longer fit into 32 bits count as want of memory.
#[tactic(auto, unfolding(crate::specs::Placing::new_point))]
pub(crate) fn new_point(
    walk: &mut Walk,
    owner: FnId,
    line: Line,
    clauses: Items<PointClause>,
) -> Result<PointId, AllocError>
    ensures { Places (spec.new_point owner line clauses (made_of walk.old)) result walk.old walk.new }
{
    let Ok(number) = u32::try_from(walk.points.len()) else {
        return Err(AllocError);
    };
    walk.points.push(PointInfo {
        owner,
        line,
        clauses,
    })?;
    Ok(PointId(number))
}

/// The line of a point of the skeleton.
fn line_in(point: Option<&PointInfo>) -> Line
    ensures { result ≡ spec.line_in (option_copied point.entry) }
{
    match point {
        None => Line(0),
        Some(point) => point.line,
    }
}

/// A point of the skeleton, with these clauses.
#[tactic(auto, unfolding(crate::specs::Placing::moved_point, crate::specs::Placing::new_point))]
pub(crate) fn moved_point(
    walk: &mut Walk,
    points: &[PointInfo],
    function: FnId,
    point: PointId,
    clauses: Items<PointClause>,
) -> Result<PointId, AllocError>
    ensures { Places (spec.moved_point points.now function point clauses (made_of walk.old)) result walk.old walk.new }
{
    let line = line_in(points.get(point.0 as usize));
    let moved = new_point(walk, function, line, clauses)?;
    walk.moved.push(moved.0)?;
    Ok(moved)
}
