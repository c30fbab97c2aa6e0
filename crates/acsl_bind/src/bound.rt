//! What becomes of a note in a body.

use c_ir::PointClause;
use sqlite_items::Items;

/// What becomes of a note in a body.
#[derive(Debug, Drop)]
pub enum Bound {
    /// It isn't allowed there.
    Nothing,
    /// A statement: this clause.
    Statement(PointClause),
    /// Clauses of the loop directly after it.
    Invariants(Items<PointClause>),
}
