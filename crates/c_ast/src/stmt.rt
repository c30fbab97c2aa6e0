//! Declarators and statements (C11 6.7, 6.8).

use crate::expr::{Expr, Exprs, Ident, Spec};
use fc_base::Spot;
use sqlite_items::{Boxed, Items};

/// Whether a declarator makes an array, and of which length.
#[derive(Debug, Drop)]
pub enum Length {
    /// No array.
    Scalar,
    /// `[]`
    Open,
    /// `[LENGTH]`
    Of(Expr),
}

/// The initialiser of a declarator.
#[derive(Debug, Drop)]
pub enum Init {
    Nothing,
    One(Expr),
    /// Values in braces, at least one.
    Many(Exprs),
}

/// A declarator, which begins at its name.
#[derive(Debug, Drop)]
pub struct Declr {
    pub at: Spot,
    pub name: Ident,
    pub length: Length,
    pub value: Init,
}

/// Declarators in the order of the text.
pub type Declrs = Items<Declr>;

/// Places in the order of the text.
pub type Spots = Items<Spot>;

/// Statements in the order of the text.
pub type Stmts = Items<Stmt>;

/// A declaration, a statement or a note of a block. `at` reaches to the semicolon or the closing brace.
#[derive(Debug, Drop)]
#[cycle(stmt)]
pub enum Stmt {
    Declare {
        at: Spot,
        spec: Spec,
        declrs: Declrs,
    },
    Expression {
        at: Spot,
        expr: Expr,
    },
    If {
        at: Spot,
        cond: Expr,
        yes: Sub,
        no: Option<Sub>,
    },
    While {
        at: Spot,
        cond: Expr,
        body: Sub,
    },
    DoWhile {
        at: Spot,
        body: Sub,
        cond: Expr,
    },
    For {
        at: Spot,
        first: First,
        cond: Option<Expr>,
        update: Option<Expr>,
        body: Sub,
    },
    Break {
        at: Spot,
    },
    Continue {
        at: Spot,
    },
    Return {
        at: Spot,
        value: Option<Expr>,
    },
    /// `;`
    Empty {
        at: Spot,
    },
    Block {
        at: Spot,
        stmts: Stmts,
    },
    /// A note of the text, from its opening to its end.
    Note {
        at: Spot,
    },
}

/// The statement that an `if`, an `else` or a loop governs, with the notes before it.
#[derive(Debug, Drop)]
#[cycle(stmt)]
pub struct Sub {
    pub notes: Spots,
    pub stmt: Boxed<Stmt>,
}

/// What stands first in the head of a `for`.
#[derive(Debug, Drop)]
pub enum First {
    Nothing,
    Expression(Expr),
    Declare { spec: Spec, declrs: Declrs },
}
