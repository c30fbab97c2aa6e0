//! What is declared at file scope (C11 6.9).

use crate::scope::Scope;
use crate::walk::Walk;
use c_ir::{CellNums, Stmts};
use fc_base::{Line, Name, PointId};
use sqlite_items::Items;

/// A function, from its first declaration on, with the cells of its formals and of its result.
#[derive(Debug, Drop)]
pub struct Known {
    pub name: Name,
    /// The line of its name in its first declaration.
    pub line: Line,
    pub formals: CellNums,
    pub result: Option<u32>,
}

/// The definition of a function, between the points of its entry and its exit.
#[derive(Debug, Drop)]
pub struct Definition {
    pub entry: PointId,
    pub body: Stmts,
    pub exit: PointId,
}

/// What an object has at the start: the values of its first cells; the others have 0.
#[derive(Debug, Drop)]
pub struct Start {
    pub first: u32,
    pub values: Items<i128>,
}

/// What is declared at file scope so far.
#[derive(Debug, Drop)]
pub struct File {
    pub scope: Scope,
    pub walk: Walk,
    pub functions: Items<Known>,
    /// That of each function, where it has one.
    pub definitions: Vec<Option<Definition>>,
    pub starts: Items<Start>,
    /// The cells of formals that are constant in a body.
    pub constants: Items<u32>,
}
