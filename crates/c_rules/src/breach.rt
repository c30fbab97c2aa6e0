//! Breaches of the rules, and the first of them.

ghost use Rattle.std.specs.Prelude.{◌≡◌};
ghost use Rattle.c_rules.specs.Breaches.{number, is_before};

use fc_base::Name;

/// What is in breach, and how.
#[derive(Debug, Drop)]
pub enum Fault {
    /// A name that isn't declared (C11 6.5.1).
    Unknown(Name),
    /// A name that is declared or defined twice, or a function with two contracts (C11 6.7, 6.9).
    Twice(Name),
    /// Types or forms that the language doesn't allow there.
    BadType,
    /// A call with too few or too many arguments (C11 6.5.2.2).
    Arity,
    /// A call, an assignment or a step inside an expression (this project's own).
    SideEffect,
    /// A constant object that is written to (C11 6.5.16).
    ConstWrite,
}

impl Fault {
    /// The number by which faults at one place are ordered.
    pub fn number(&self) -> u8
        ensures { result ≡ number self.now }
    {
        match self {
            Fault::Unknown(_) => 1,
            Fault::Twice(_) => 2,
            Fault::BadType => 3,
            Fault::Arity => 4,
            Fault::SideEffect => 5,
            Fault::ConstWrite => 7,
        }
    }
}

/// A breach, with the offset of the first byte of the part that is in breach.
#[derive(Debug, Drop)]
pub struct Breach {
    pub at: u32,
    pub fault: Fault,
}

impl Breach {
    /// Whether it stands before the other in the text; at one place the lower number comes first.
    pub(crate) fn is_before(&self, other: &Breach) -> bool
        ensures { result ≡ is_before self.now other.now }
    {
        self.at < other.at || self.at == other.at && self.fault.number() < other.fault.number()
    }
}
