//! What the domain says of a check or of a relation.

/// An answer about all pairs of numbers that the operands stand for.
#[derive(Clone, Copy, Debug, PartialEq, Eq)]
pub enum Said {
    /// It is true of all.
    Yes,
    /// It is true of none.
    No,
    /// Neither is known.
    Maybe,
    /// There is no pair.
    Unreached,
}
