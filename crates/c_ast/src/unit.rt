//! External declarations (C11 6.9).

use crate::expr::{Ident, Spec};
use crate::stmt::{Declrs, Stmts};
use fc_base::{Line, Spot};
use sqlite_items::Items;

/// The tree of a text.
#[derive(Debug, Drop)]
pub struct Unit {
    pub items: Items<Item>,
}

/// A note or an external declaration. A note reaches from its opening to its end.
#[derive(Debug, Drop)]
pub enum Item {
    Note(Spot),
    Global(Global),
    Function(Function),
}

/// A storage-class specifier (C11 6.7.1).
#[derive(Clone, Copy, Debug, PartialEq, Eq)]
pub enum Storage {
    Static,
    Extern,
}

/// Storage-class specifiers in the order of the text.
pub type Storages = Items<Storage>;

/// A declaration of objects, up to its semicolon.
#[derive(Debug, Drop)]
pub struct Global {
    pub at: Spot,
    pub storage: Storages,
    pub spec: Spec,
    pub declrs: Declrs,
}

/// A declaration or a definition of a function. `close` is the line of the closing brace, or of the name
/// where there is no body.
#[derive(Debug, Drop)]
pub struct Function {
    pub at: Spot,
    pub storage: Storages,
    pub spec: Spec,
    pub name: Ident,
    pub formals: Formals,
    pub body: Option<Stmts>,
    pub close: Line,
}

/// A formal parameter.
#[derive(Debug, Drop)]
pub struct Formal {
    pub at: Spot,
    pub spec: Spec,
    pub name: Option<Ident>,
}

/// Formal parameters in the order of the text.
pub type Formals = Items<Formal>;
