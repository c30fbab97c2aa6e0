//! The properties so far.

ghost use Rattle.std.specs.Prelude.{◌≡◌, ◌≤◌, ℕ, get_or, length};

use c_ir::{AlarmKind, Fun, Kind, Prop};
use fc_base::{FnId, Line, PointId, SiteId};
use sqlite_items::Items;

/// The properties so far, and for each kind how many of them are of this kind and of the point at hand.
#[derive(Drop)]
pub(crate) struct Rows {
    pub(crate) rows: Items<Prop>,
    pub(crate) counts: [u32; 13],
    ghost wide: { length counts ≡ 13 },
    ghost few: { (k : ℕ) → get_or counts k 0 ≤ length rows },
}

/// The point at hand: its function with that one's number, and its line.
#[derive(Clone, Copy)]
pub(crate) struct At<'a> {
    pub(crate) function: FnId,
    pub(crate) fun: &'a Fun,
    pub(crate) point: PointId,
    pub(crate) line: Line,
}

/// What a property claims, without its label.
#[derive(Clone, Copy)]
pub(crate) struct Plain {
    pub(crate) kind: Kind,
    pub(crate) line: Line,
    pub(crate) site: Option<SiteId>,
}
