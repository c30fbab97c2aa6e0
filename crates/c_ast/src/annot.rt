//! Annotations (ACSL manual: function contracts, loop annotations, assertions, terms and predicates).

use crate::expr::Ident;
use fc_base::{Line, NoteOp, Relation, Spot};
use sqlite_items::{Boxed, Items};

/// A note of the text, from its first word.
#[derive(Debug, Drop)]
pub struct Annot {
    pub at: Spot,
    pub kind: AnnotKind,
    pub clauses: Clauses,
}

#[derive(Clone, Copy, Debug, PartialEq, Eq)]
pub enum AnnotKind {
    /// Clauses before a function.
    Contract,
    /// Clauses before a loop.
    LoopNote,
    /// `assert`, `check` or `admit`.
    CodeNote,
}

/// Clauses in the order of the text.
pub type Clauses = Items<Clause>;

/// A clause. Its line is that of its keyword, of a loop's clause that of `loop`.
#[derive(Debug, Drop)]
pub struct Clause {
    pub kind: ClauseKind,
    pub label: Option<Ident>,
    pub body: ClauseBody,
    pub line: Line,
}

#[derive(Clone, Copy, Debug, PartialEq, Eq)]
pub enum ClauseKind {
    Requires,
    Ensures,
    Assigns,
    LoopInvariant,
    LoopAssigns,
    Assert,
    Check,
    Admit,
}

#[derive(Debug, Drop)]
pub enum ClauseBody {
    Says(Formula),
    /// Places that may be assigned; none for `\nothing`.
    Places(Locs),
}

/// Places in the order of the text.
pub type Locs = Items<Loc>;

/// A place that may be assigned.
#[derive(Debug, Drop)]
pub struct Loc {
    pub name: Ident,
    pub index: LocIndex,
}

#[derive(Debug, Drop)]
pub enum LocIndex {
    Nothing,
    /// `[INDEX]`
    One(Formula),
    /// `[FROM .. TO]`
    Range(Formula, Formula),
    /// `[..]`
    Whole,
}

/// A term or a predicate.
#[derive(Debug, Drop)]
#[cycle(formula)]
pub enum Formula {
    Number {
        at: Spot,
        value: u128,
    },
    Name(Ident),
    /// `OF[INDEX]`
    Index {
        at: Spot,
        of: Ident,
        index: Boxed<Formula>,
    },
    /// `\result`
    Result {
        at: Spot,
    },
    /// `\old(OF)`
    Old {
        at: Spot,
        of: Boxed<Formula>,
    },
    /// `\true`
    True {
        at: Spot,
    },
    /// `\false`
    False {
        at: Spot,
    },
    /// `-OF`
    Neg {
        at: Spot,
        of: Boxed<Formula>,
    },
    /// `!OF`
    Not {
        at: Spot,
        of: Boxed<Formula>,
    },
    Binary {
        at: Spot,
        op: NoteOp,
        left: Boxed<Formula>,
        right: Boxed<Formula>,
    },
    /// One relation or several in a row, as `a <= b < c`.
    Chain {
        at: Spot,
        first: Boxed<Formula>,
        rest: Links,
    },
    /// `\forall integer NAME; BODY`
    Forall {
        at: Spot,
        name: Ident,
        body: Boxed<Formula>,
    },
}

/// Links in the order of the text.
pub type Links = Items<Link>;

/// A relation of a chain with what stands to its right.
#[derive(Debug, Drop)]
#[cycle(formula)]
pub struct Link {
    pub relation: Relation,
    pub right: Formula,
}
