//! The range of a type.

ghost use Rattle.std.specs.Prelude.{◌≡◌};
ghost use Rattle.int_interval.specs.Shapes.{top_of};

/// A C integer type by its least number, its greatest number and its width in bits (C11 6.2.6.2). The operators
/// that ask for a shape ask that it is that of a type: `specs/Shapes.antt`.
#[derive(Clone, Copy, Debug, PartialEq, Eq)]
pub struct Shape {
    /// The least number.
    pub lo: i128,
    /// The greatest number.
    pub hi: i128,
    /// The width in bits, from 1 to 64.
    pub width: u32,
}

impl Shape {
    /// The sum of a number of the type and its complement `~`: -1, or the greatest number of an unsigned type.
    pub fn top(&self) -> i128
        ensures { result ≡ top_of self.now }
    {
        if self.lo < 0 { -1 } else { self.hi }
    }
}
