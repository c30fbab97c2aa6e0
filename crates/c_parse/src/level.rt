//! The levels of binary operators.

ghost use Rattle.std.specs.Prelude.{◌≡◌};
ghost use Rattle.c_parse.specs.Table.{IsTighter, ops};

use crate::class::Class;

/// The levels of binary operators, the loosest first (C11 6.5.5 to 6.5.14).
#[derive(Clone, Copy, Debug, PartialEq, Eq)]
pub enum Level {
    LogicOr,
    LogicAnd,
    Or,
    Xor,
    And,
    Equality,
    Relation,
    Shift,
    Additive,
    Multiplicative,
}

impl Level {
    /// The level of its operands, if they aren't unary.
    pub(crate) fn tighter(self) -> Option<Level>
        ensures { IsTighter self result }
    {
        match self {
            Level::LogicOr => Some(Level::LogicAnd),
            Level::LogicAnd => Some(Level::Or),
            Level::Or => Some(Level::Xor),
            Level::Xor => Some(Level::And),
            Level::And => Some(Level::Equality),
            Level::Equality => Some(Level::Relation),
            Level::Relation => Some(Level::Shift),
            Level::Shift => Some(Level::Additive),
            Level::Additive => Some(Level::Multiplicative),
            Level::Multiplicative => None,
        }
    }

    /// The class of its operators.
    pub(crate) fn classes(self) -> &'static [Class]
        ensures { result.now ≡ ops self }
    {
        match self {
            Level::LogicOr => &[Class::LogicOr],
            Level::LogicAnd => &[Class::LogicAnd],
            Level::Or => &[Class::Or],
            Level::Xor => &[Class::Xor],
            Level::And => &[Class::And],
            Level::Equality => &[Class::Equality],
            Level::Relation => &[Class::Relation],
            Level::Shift => &[Class::Shift],
            Level::Additive => &[Class::Additive],
            Level::Multiplicative => &[Class::Multiplicative],
        }
    }
}
