//! What a table of statuses is asked, and what it answers.

use crate::steps::Support;
use fc_base::{ParamValues, PropId, Verdict};
use sqlite_items::Items;

/// Numbers of properties.
pub type PropIds = Items<PropId>;

/// Rows of a fetch, in its order.
pub type StatusRows = Items<StatusRow>;

/// Where a fetch goes on. Its rows are ordered by the place of the last change that altered their verdict, and then
/// by number.
#[derive(Clone, Copy, Debug, PartialEq, Eq)]
pub enum Cursor {
    /// Before all rows.
    Start,
    /// After the row of property `prop`, if the change at `place` altered its verdict last; place 0 stands for
    /// none.
    After { place: u32, prop: u32 },
}

/// A question.
#[derive(Clone, Copy, Debug, PartialEq, Eq)]
pub enum Question {
    /// The values of the parameters.
    Params,
    /// The first `limit` properties from number `from` on.
    List { from: u32, limit: u32 },
    /// The verdict of a property.
    StatusOf(PropId),
    /// Why a property holds.
    SupportOf(PropId),
    /// The first `limit` rows after a cursor.
    Fetch { cursor: Cursor, limit: u32 },
    /// How many changes there are, and the version.
    Count,
}

/// A property with its verdict.
#[derive(Clone, Copy, Debug, PartialEq, Eq)]
pub struct StatusRow {
    pub prop: PropId,
    pub verdict: Verdict,
}

/// Rows after a cursor.
#[derive(Debug, Drop)]
pub struct Fetched {
    /// Where the next fetch goes on.
    pub cursor: Cursor,
    pub rows: StatusRows,
    /// Whether rows are left after these.
    pub more: bool,
}

/// What is answered besides the counts. The variants are those of `Question`, in the same order.
#[derive(Debug, Drop)]
pub enum Body {
    Params(ParamValues),
    Rows(PropIds),
    Status(Verdict),
    /// None where the property doesn't hold.
    Support(Option<Support>),
    Fetched(Fetched),
    Count,
}

/// An answer.
#[derive(Debug, Drop)]
pub struct Answer {
    /// How many changes came before.
    pub at: u32,
    /// How many of them set a parameter.
    pub version: u32,
    pub body: Body,
}
