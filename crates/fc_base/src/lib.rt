//! What all layers speak of: numbers of things, places in a text, operators, statuses, verdicts, names
//! and the values of parameters.
#![tactic(auto)]

mod ids;
mod name;
mod params;
mod relation;
mod status;
mod syntax;
mod verdict;

pub use ids::{EmitterId, FnId, Line, PointId, PropId, SiteId, Span};
pub use name::{Bounded, Name, PropName};
pub use params::{ParamSet, ParamValues};
pub use relation::Relation;
pub use status::LocalStatus;
pub use syntax::{BinaryOp, LiteralForm, NoteOp, Spot, UnaryOp};
pub use verdict::Verdict;
