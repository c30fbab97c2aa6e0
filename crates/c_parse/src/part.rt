//! What the productions below a node give.

use c_ast::{Declrs, Expr, Exprs, First, Formals, Init, Length, Stmt, Stmts, Storages, Sub};
use fc_base::{Line, Spot};

/// An expression, its place with the parentheses round it, and whether it is a unary expression.
#[derive(Debug, Drop)]
pub struct Part {
    pub expr: Expr,
    pub place: Spot,
    pub is_unary: bool,
}

/// What stands after a primary expression.
#[derive(Debug, Drop)]
pub enum Ending {
    At(Expr),
    With(Exprs),
    /// `++` or `--`
    Step,
}

/// What stands between the brackets of a declarator, and their end.
#[derive(Debug, Drop)]
pub struct Bracketed {
    pub length: Length,
    pub end: Option<Spot>,
}

/// An initialiser and its end.
#[derive(Debug, Drop)]
pub struct Started {
    pub value: Init,
    pub end: Option<Spot>,
}

/// What stands after a declarator's name, and its end.
#[derive(Debug, Drop)]
pub struct DeclrRest {
    pub length: Length,
    pub value: Init,
    pub end: Option<Spot>,
}

/// A statement and its place.
#[derive(Debug, Drop)]
pub struct Placed {
    pub stmt: Stmt,
    pub at: Spot,
}

/// A governed statement and its end.
#[derive(Debug, Drop)]
pub struct Governed {
    pub sub: Sub,
    pub end: Spot,
}

/// The statements of a block, its place and the line of its closing brace.
#[derive(Debug, Drop)]
pub struct Braced {
    pub stmts: Stmts,
    pub at: Spot,
    pub close: Line,
}

/// What stands between the parentheses of a `for`.
#[derive(Debug, Drop)]
pub struct Head {
    pub first: First,
    pub cond: Option<Expr>,
    pub update: Option<Expr>,
}

/// Storage classes, and where they begin.
#[derive(Debug, Drop)]
pub struct Stored {
    pub storage: Storages,
    pub start: Option<Spot>,
}

/// A function's body, if there is one, the end, and the line of the closing brace.
#[derive(Debug, Drop)]
pub struct Ended {
    pub body: Option<Stmts>,
    pub end: Spot,
    pub close: Option<Line>,
}

/// What stands after the name of an external declaration.
#[derive(Debug, Drop)]
pub enum Named {
    Function(Formals, Ended),
    Global(DeclrRest, Declrs, Spot),
}
