//! Expressions and specifiers (C11 6.5, 6.7.2).

use fc_base::{BinaryOp, LiteralForm, Name, Spot, UnaryOp};
use sqlite_items::{Boxed, Items};

/// A name and where it stands.
#[derive(Debug, Drop)]
pub struct Ident {
    pub at: Spot,
    pub name: Name,
}

/// A specifier or a qualifier of a type (C11 6.7.2, 6.7.3).
#[derive(Clone, Copy, Debug, PartialEq, Eq)]
pub enum SpecWord {
    Const,
    Signed,
    Unsigned,
    Char,
    Short,
    Int,
    Long,
    /// `_Bool`
    Bool,
    Void,
}

/// Specifiers in the order of the text.
pub type SpecWords = Items<SpecWord>;

/// The specifiers of a declaration or of a cast, at least one.
#[derive(Debug, Drop)]
pub struct Spec {
    pub at: Spot,
    pub words: SpecWords,
}

/// Expressions in the order of the text.
pub type Exprs = Items<Expr>;

/// An expression.
#[derive(Debug, Drop)]
pub enum Expr {
    /// A constant: its value, how it is written, whether its suffix has `u`, and its number of `l`.
    Literal {
        at: Spot,
        value: u128,
        form: LiteralForm,
        unsigned: bool,
        longs: u8,
    },
    Name(Ident),
    /// `OF[INDEX]`
    Index {
        at: Spot,
        of: Boxed<Expr>,
        index: Boxed<Expr>,
    },
    /// `OF(ARGS)`
    Call {
        at: Spot,
        of: Boxed<Expr>,
        args: Exprs,
    },
    /// An operator before its operand.
    Unary {
        at: Spot,
        op: UnaryOp,
        of: Boxed<Expr>,
    },
    Binary {
        at: Spot,
        op: BinaryOp,
        left: Boxed<Expr>,
        right: Boxed<Expr>,
    },
    /// `TO = VALUE`, or with an operator as in `TO += VALUE`.
    Assign {
        at: Spot,
        op: Option<BinaryOp>,
        to: Boxed<Expr>,
        value: Boxed<Expr>,
    },
    /// `++` or `--`, before or after its operand.
    Step {
        at: Spot,
        up: bool,
        before: bool,
        of: Boxed<Expr>,
    },
    /// `COND ? YES : NO`
    Cond {
        at: Spot,
        cond: Boxed<Expr>,
        yes: Boxed<Expr>,
        no: Boxed<Expr>,
    },
    /// `(SPEC) OF`
    Cast {
        at: Spot,
        spec: Spec,
        of: Boxed<Expr>,
    },
}
