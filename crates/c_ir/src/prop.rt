//! A property.

use crate::kind::Kind;
use fc_base::{FnId, Line, Name, PointId, PropId, PropName, SiteId};

/// A property of the program.
#[derive(Debug, Drop)]
pub struct Prop {
    /// Its number, which is its place in the table.
    pub id: PropId,
    pub kind: Kind,
    /// The function that its point is in.
    pub function: FnId,
    pub point: PointId,
    /// The line of its clause's keyword, or of its point.
    pub line: Line,
    /// Whether each arrival at the point visits it at which no admitted predicate is false.
    pub firm: bool,
    /// The operator that an Alarm is of.
    pub site: Option<SiteId>,
    /// Its name, `FUNCTION@POINT/KIND/K`.
    pub name: PropName,
    /// The label of its clause; empty if there is none.
    pub label: Name,
}
