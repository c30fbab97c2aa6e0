//! Where expressions stand.

/// Where an expression stands.
#[derive(Clone, Copy, Debug, PartialEq, Eq)]
pub enum Place {
    /// It is a statement, and its value is dropped.
    Dropped,
    /// It is the value of an initialiser, of a `return`, or of an assignment that is a statement.
    Value,
    /// It is part of another expression.
    Inner,
}
