//! The typed program that the checks of C11's rules make of a text: its types, trees, cells, points and operators,
//! and the table of its properties.
#![tactic(auto)]

mod calls;
mod index;
mod kind;
mod note;
mod place;
mod program;
mod prop;
mod sites;
mod table;
mod tree;
mod ty;

pub use calls::callees;
pub use kind::{AlarmKind, Kind};
pub use note::{InScope, InScopes, NoteSpot, NoteSpots};
pub use place::Place;
pub use program::{CellInfos, Funs, PointInfos, Program, SiteInfos, Skeleton};
pub use prop::Prop;
pub use sites::{binary_checks, checks, element_checks, read_checks, unary_checks};
pub use table::PropTable;
pub use tree::{
    CellInfo, CellNums, Checks, Expr, Exprs, Fun, Init, Node, PointClause, PointInfo, Pred,
    SiteInfo, Stmt, Stmts,
};
pub use ty::IntType;
