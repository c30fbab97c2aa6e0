//! Typed expressions and statements (C11 6.5, 6.8).

use crate::kind::{AlarmKind, Kind};
use crate::ty::IntType;
use fc_base::{BinaryOp, FnId, Line, Name, NoteOp, PointId, Relation, SiteId, Spot, UnaryOp};
use sqlite_items::{Boxed, Items};

/// The checks of an operator, in the order in which a run visits them. One without a first has no second.
#[derive(Clone, Copy, Debug, PartialEq, Eq)]
pub struct Checks {
    pub first: Option<AlarmKind>,
    pub second: Option<AlarmKind>,
}

/// What stands at the top of a typed expression, over its parts `E` and lists of parts `L`. Cells and functions
/// are named by their numbers; `checked` is true exactly where a cell is read that may have no value.
#[derive(Debug, Drop)]
pub enum Node<E, L> {
    /// A constant.
    Literal {
        value: i128,
    },
    /// An object that is no array.
    Cell {
        cell: u32,
        checked: bool,
    },
    /// An element of the array whose `length` cells begin at `first`.
    Element {
        first: u32,
        length: u32,
        index: E,
        checked: bool,
    },
    Call {
        function: FnId,
        args: L,
    },
    /// An operator before its operand.
    Unary {
        op: UnaryOp,
        of: E,
    },
    Binary {
        op: BinaryOp,
        left: E,
        right: E,
    },
    /// `to = value`
    Assign {
        to: E,
        value: E,
    },
    /// `cond ? yes : no`
    Cond {
        cond: E,
        yes: E,
        no: E,
    },
    /// A conversion to the type of the expression.
    Cast {
        of: E,
    },
}

/// An expression with its type, and with the number of its operator where that has checks. The type of a call of
/// a function without result is `int`.
#[derive(Debug, Drop)]
pub struct Expr {
    pub ty: IntType,
    pub site: Option<SiteId>,
    pub node: Node<Boxed<Expr>, Exprs>,
}

/// Expressions in the order of the text.
pub type Exprs = Items<Expr>;

/// The initialiser of a declarator. The elements of an array after the last value are 0.
#[derive(Debug, Drop)]
pub enum Init {
    Nothing,
    One(Expr),
    /// Values of an array's elements, from the first element on.
    Many(Exprs),
}

/// Statements in the order of the text.
pub type Stmts = Items<Stmt>;

/// A statement. Each declarator is one, and what an `if` or a loop governs is a list, with the notes before it.
#[derive(Debug, Drop)]
pub enum Stmt {
    /// A declarator of a local object, whose cells begin at `first`; `length` is that of an array.
    Declare {
        point: PointId,
        first: u32,
        length: Option<u32>,
        value: Init,
    },
    Expression {
        point: PointId,
        expr: Expr,
    },
    /// `no` is empty where there is no `else`.
    If {
        point: PointId,
        cond: Expr,
        yes: Stmts,
        no: Stmts,
    },
    While {
        point: PointId,
        cond: Expr,
        body: Stmts,
    },
    DoWhile {
        point: PointId,
        body: Stmts,
        cond: Expr,
    },
    /// `first` are the declarators or the expression that stand first in the head, `update` is the expression that
    /// stands last there; a missing one is empty. The point is that of the loop, after `first`.
    For {
        first: Stmts,
        point: PointId,
        cond: Option<Expr>,
        body: Stmts,
        update: Stmts,
    },
    Break {
        point: PointId,
    },
    Continue {
        point: PointId,
    },
    Return {
        point: PointId,
        value: Option<Expr>,
    },
    /// `;`
    Empty {
        point: PointId,
    },
    Block {
        stmts: Stmts,
    },
    /// A note that isn't read yet.
    Note {
        at: Spot,
    },
    /// An `assert`, `check` or `admit`: the clause of its point.
    Clause {
        point: PointId,
    },
}

/// A predicate or a term of an annotation (ACSL manual). A chain of relations is the conjunction of its links.
#[derive(Debug, Drop)]
pub enum Pred {
    Number {
        value: i128,
    },
    Cell {
        cell: u32,
    },
    Element {
        first: u32,
        length: u32,
        index: Boxed<Pred>,
    },
    /// A name that a `\forall` binds, by the number of `\forall` between it and its own.
    Bound {
        between: u32,
    },
    /// `\old(of)`
    Old {
        of: Boxed<Pred>,
    },
    /// `\true`
    True,
    /// `\false`
    False,
    Neg {
        of: Boxed<Pred>,
    },
    Not {
        of: Boxed<Pred>,
    },
    Binary {
        op: NoteOp,
        left: Boxed<Pred>,
        right: Boxed<Pred>,
    },
    Related {
        relation: Relation,
        left: Boxed<Pred>,
        right: Boxed<Pred>,
    },
    /// `\forall integer i; low <= i <= high ==> body`; a strict bound leaves its number out.
    Forall {
        low: Boxed<Pred>,
        low_strict: bool,
        high: Boxed<Pred>,
        high_strict: bool,
        body: Boxed<Pred>,
    },
}

/// Numbers of cells, in order.
pub type CellNums = Items<u32>;

/// A function. `formals` are the cells of its formals, `result` is that of its result, if it has one.
#[derive(Debug, Drop)]
pub struct Fun {
    pub name: Name,
    pub formals: CellNums,
    pub result: Option<u32>,
    /// None where the function isn't defined.
    pub body: Option<Stmts>,
    pub entry: PointId,
    pub exit: PointId,
}

/// A cell: a scalar object, an element of an array, or a function's result. `start` is the number that a
/// file-scope cell has at the start; `checked` says that it is of a local object without initialiser.
#[derive(Clone, Copy, Debug, PartialEq, Eq)]
pub struct CellInfo {
    pub ty: IntType,
    /// The function whose cell it is; None at file scope.
    pub owner: Option<FnId>,
    pub constant: bool,
    pub start: Option<i128>,
    pub checked: bool,
}

/// A clause at a point.
#[derive(Debug, Drop)]
pub struct PointClause {
    pub kind: Kind,
    pub label: Name,
    pub line: Line,
    pub pred: Pred,
}

/// A point: its function, its line, and its clauses in order.
#[derive(Debug, Drop)]
pub struct PointInfo {
    pub owner: FnId,
    pub line: Line,
    pub clauses: Items<PointClause>,
}

/// A checked operator: the point at which it is evaluated, and its checks.
#[derive(Clone, Copy, Debug, PartialEq, Eq)]
pub struct SiteInfo {
    pub point: PointId,
    pub checks: Checks,
}
