//! What a skeleton has: its notes and its points.

ghost use Rattle.std.specs.Prelude.{◌≡◌, ◌≤◌, ℕ, Some, IfOk, length, position};
ghost use Rattle.std.specs.BTreeMap.{get};
ghost use Rattle.std.specs.Ordering.{nat_cmp};
ghost use Rattle.acsl_bind.specs.Notes.{stands_at};

use c_ir::{NoteSpot, NoteSpots, PointInfos};
use std::alloc::{AllocError, Global};
use std::collections::BTreeMap;
use std::marker::Model;

/// The notes and the points of a skeleton. The first note at a place is found by its place.
#[derive(Debug, Drop)]
pub(crate) struct Source {
    pub(crate) spots: NoteSpots,
    pub(crate) points: PointInfos,
    /// For the place of each note the number of the first note there.
    places: BTreeMap<u32, usize>,
}

impl Model for Source {
    ghost use Rattle.std.specs.Prelude.{◌≡◌, ℕ, position};
    ghost use Rattle.std.specs.BTreeMap.{get};
    ghost use Rattle.std.specs.Ordering.{nat_cmp};
    ghost use Rattle.acsl_bind.specs.Notes.{Source, stands_at};
    ghost use Rattle.std.specs.Coded.{codes};
    ghost use Rattle.c_ir.specs.contracts.tree.Pred as p;

    ghost Value = { Source };

    ghost coded = { Prim.hlevel (codes, p.the_row.coded) };

    ghost view = { λ s. record { spots = s.spots; points = s.points } };

    ghost invariant = { λ s. (at : ℕ) → get nat_cmp s.places at ≡ position (stands_at at) s.spots };
}

/// For the place of each note the number of the first note there.
#[tactic(auto, using(crate::proofs::Positions::first_from_start))]
fn index(alloc: Global, spots: &[NoteSpot]) -> Result<BTreeMap<u32, usize>, AllocError>
    ensures { IfOk result (λ m. (at : ℕ) → get nat_cmp m at ≡ position (stands_at at) spots.now) }
{
    let mut places = BTreeMap::new(alloc);
    let mut left = spots.len();
    while 0 < left {
        left -= 1;
        places.insert(spots[left].at.span.from, left)?;
    }
    Ok(places)
}

impl Source {
    /// The notes and the points of a skeleton.
    pub(crate) fn new(
        alloc: Global,
        spots: NoteSpots,
        points: PointInfos,
    ) -> Result<Source, AllocError>
        ensures { IfOk result (λ s. s ≡ record { spots = spots; points = points }) }
    {
        let places = index(alloc, spots.as_slice())?;
        Ok(Source {
            spots,
            points,
            places,
        })
    }

    /// The number of the first note at this place.
    pub(crate) fn number_at(&self, at: u32) -> Option<usize>
        ensures { result ≡ position (stands_at at) self.now.spots }
    {
        self.places.get(&at).copied()
    }
}
