//! What the productions below a node give.

use c_ast::{Clause, ClauseBody, Formula, Ident};
use fc_base::Spot;

/// A term or a predicate, its place with the parentheses round it, and whether it is a name alone.
#[derive(Debug, Drop)]
pub struct Part {
    pub formula: Formula,
    pub place: Spot,
    pub is_name: bool,
}

/// A predicate with its label.
#[derive(Debug, Drop)]
pub struct Captioned {
    pub label: Option<Ident>,
    pub formula: Formula,
}

/// What stands after the words of a clause, and its end.
#[derive(Debug, Drop)]
pub struct Ended {
    pub label: Option<Ident>,
    pub body: ClauseBody,
    pub end: Spot,
}

/// A clause and its place.
#[derive(Debug, Drop)]
pub struct Stated {
    pub clause: Clause,
    pub at: Spot,
}
