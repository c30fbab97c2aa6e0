//! The levels of binary operators, and the direction of a chain of relations.

ghost use Rattle.std.specs.Prelude.{◌≡◌};
ghost use Rattle.acsl_read.specs.Table.{ops, inner, prefixes};
ghost use Rattle.acsl_read.specs.inner.Outcome.{turn};

use crate::class::Class;

/// Where an operand of arithmetic stands: first in a relation, or elsewhere.
#[derive(Clone, Copy, Debug, PartialEq, Eq)]
pub enum Side {
    /// A run of `!` before `\forall` is no operand here.
    Lead,
    Inner,
}

impl Side {
    /// The classes of operators before an operand.
    pub(crate) fn prefixes(self) -> &'static [Class]
        ensures { result.now ≡ prefixes self }
    {
        match self {
            Side::Lead => &[Class::Minus, Class::Bang],
            Side::Inner => &[Class::Minus, Class::Bang, Class::BangForall],
        }
    }
}

/// The levels of binary operators that group to the left, the loosest first (ACSL manual, precedence).
#[derive(Clone, Copy, Debug, PartialEq, Eq)]
pub enum Level {
    /// `<==>`
    Iff,
    /// `||`
    Or,
    /// `&&`
    And,
    /// `+`, `-`
    Sum(Side),
    /// `*`, `/`, `%`
    Product(Side),
}

impl Level {
    /// The classes of its operators.
    pub(crate) fn classes(self) -> &'static [Class]
        ensures { result.now ≡ ops self }
    {
        match self {
            Level::Iff => &[Class::Iff],
            Level::Or => &[Class::Or],
            Level::And => &[Class::And],
            Level::Sum(_) => &[Class::Plus, Class::Minus],
            Level::Product(_) => &[Class::Multiplicative],
        }
    }

    /// The level of the operands after the first.
    pub(crate) fn inner(self) -> Level
        ensures { result ≡ inner self }
    {
        match self {
            Level::Sum(_) => Level::Sum(Side::Inner),
            Level::Product(_) => Level::Product(Side::Inner),
            _ => self,
        }
    }
}

/// Which relations may follow in a chain (ACSL manual, chains of relations).
#[derive(Clone, Copy, Debug, PartialEq, Eq)]
pub enum Direction {
    /// There is none yet: each may follow.
    Open,
    /// There is `==` alone: all but `!=` may follow.
    Level,
    /// `<`, `<=` and `==` may follow.
    Rising,
    /// `>`, `>=` and `==` may follow.
    Falling,
    /// There is a `!=`: none may follow.
    Closed,
}

impl Direction {
    /// The direction after a relation of this class, if it may follow.
    pub(crate) fn turn(self, class: Class) -> Option<Direction>
        ensures { result ≡ turn self class }
    {
        match (self, class) {
            (Direction::Open, Class::Equal) => Some(Direction::Level),
            (Direction::Open, Class::Rising) => Some(Direction::Rising),
            (Direction::Open, Class::Falling) => Some(Direction::Falling),
            (Direction::Open, Class::Distinct) => Some(Direction::Closed),
            (Direction::Level, Class::Equal) => Some(Direction::Level),
            (Direction::Level, Class::Rising) => Some(Direction::Rising),
            (Direction::Level, Class::Falling) => Some(Direction::Falling),
            (Direction::Rising, Class::Equal) => Some(Direction::Rising),
            (Direction::Rising, Class::Rising) => Some(Direction::Rising),
            (Direction::Falling, Class::Equal) => Some(Direction::Falling),
            (Direction::Falling, Class::Falling) => Some(Direction::Falling),
            _ => None,
        }
    }
}
