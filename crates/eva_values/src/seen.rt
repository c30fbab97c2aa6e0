//! What is answered of an expression.

use abs_cells::Cells;
use c_ir::AlarmKind;
use fc_base::SiteId;
use int_interval::Said;
use int_value::Value;
use sqlite_items::Items;

/// What is said of a check of an operator.
#[derive(Clone, Copy, Debug, PartialEq, Eq)]
pub struct SiteMark {
    pub site: SiteId,
    pub kind: AlarmKind,
    pub said: Said,
}

/// Marks in the order in which checks are visited.
pub type SiteMarks = Items<SiteMark>;

/// The value of an expression and the marks of its checks.
#[derive(Debug, Drop)]
pub struct Seen {
    pub value: Value,
    pub marks: SiteMarks,
}

/// The same of a condition, with the cells for which it comes out true, and false; None where there are none.
#[derive(Debug, Drop)]
pub struct Branched {
    pub value: Value,
    pub marks: SiteMarks,
    pub taken: Option<Cells>,
    pub skipped: Option<Cells>,
}
