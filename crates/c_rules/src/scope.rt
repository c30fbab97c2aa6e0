//! What names stand for.

use c_ir::IntType;
use fc_base::FnId;
use sqlite_items::Items;

/// A declared object.
#[derive(Clone, Copy, Debug)]
pub struct Object {
    /// Its type, or that of its elements.
    pub ty: IntType,
    /// Its first cell.
    pub first: u32,
    /// The length of an array.
    pub length: Option<u32>,
    /// Whether it is declared with `const`.
    pub constant: bool,
    /// Whether it is a local object without initialiser, so that a read asks for a value.
    pub checked: bool,
    /// Whether its own initialiser is being read, so that it has no value yet.
    pub is_open: bool,
    /// Whether a declaration at file scope has given it an initialiser.
    pub is_set: bool,
}

/// An array of `length` cells.
#[derive(Clone, Copy, Debug)]
pub struct Array {
    pub object: Object,
    pub length: u32,
}

/// A declared function.
#[derive(Debug, Drop)]
pub struct Signature {
    pub number: FnId,
    /// The type of its result, if it has one.
    pub result: Option<IntType>,
    /// The types of its formals.
    pub formals: Items<IntType>,
    /// The cell of its first formal, or of its result.
    pub first: u32,
    /// Whether a note stands before one of its declarations.
    pub noted: bool,
    /// Whether it is defined.
    pub defined: bool,
}

/// What a name stands for.
#[derive(Debug, Drop)]
pub enum Entry {
    Object(Object),
    Function(Signature),
}
