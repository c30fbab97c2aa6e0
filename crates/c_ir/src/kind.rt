//! Kinds of properties.

ghost use Rattle.std.specs.Prelude.{◌≡◌};
ghost use Rattle.c_ir.specs.Kinds.{kind_text, is_firm, is_dead};

/// What an operator's check asks (after Frama-C's RTE manual).
#[derive(Clone, Copy, Debug, PartialEq, Eq)]
pub enum AlarmKind {
    /// The divisor isn't 0 (C11 6.5.5).
    DivisionByZero,
    /// The exact result is in the type (C11 6.5, paragraph 5).
    SignedOverflow,
    /// The right operand is from 0 to below the width (C11 6.5.7).
    Shift,
    /// The index is within the array (C11 6.5.6).
    IndexBound,
    /// The object that is read has a value (C11 6.3.2.1).
    Initialization,
}

/// What a property is made from: a clause of a note (ACSL manual), an operator's check, or the claim that
/// a point is reached by no run.
#[derive(Clone, Copy, Debug, PartialEq, Eq)]
pub enum Kind {
    /// A precondition of a function.
    Requires,
    /// A precondition at one call.
    CallRequires,
    /// A postcondition of a function.
    Ensures,
    /// An `assert`, which later analysis may use.
    Assert,
    /// A `check`, which later analysis doesn't use.
    Check,
    /// An `admit`, which is taken as true.
    Admit,
    /// An invariant of a loop.
    LoopInvariant,
    /// A check of an operator.
    Alarm(AlarmKind),
    /// No run arrives at the point.
    Dead,
}

impl Kind {
    /// The word of the kind in a property's name.
    pub fn text(self) -> &'static str
        ensures { result.now ≡ kind_text self }
    {
        match self {
            Kind::Requires => "requires",
            Kind::CallRequires => "call_requires",
            Kind::Ensures => "ensures",
            Kind::Assert => "assert",
            Kind::Check => "check",
            Kind::Admit => "admit",
            Kind::LoopInvariant => "loop_invariant",
            Kind::Alarm(AlarmKind::DivisionByZero) => "division_by_zero",
            Kind::Alarm(AlarmKind::SignedOverflow) => "signed_overflow",
            Kind::Alarm(AlarmKind::Shift) => "shift",
            Kind::Alarm(AlarmKind::IndexBound) => "index_bound",
            Kind::Alarm(AlarmKind::Initialization) => "initialization",
            Kind::Dead => "dead",
        }
    }

    /// Whether a property of the kind is visited each time that a run arrives at its point and no admitted
    /// predicate of the point is false.
    pub fn is_firm(self) -> bool
        ensures { result ≡ is_firm self }
    {
        match self {
            Kind::Assert | Kind::Check | Kind::LoopInvariant | Kind::Requires => true,
            Kind::CallRequires | Kind::Ensures | Kind::Admit | Kind::Alarm(_) | Kind::Dead => false,
        }
    }
    /// Whether a property of the kind claims that no run arrives at its point.
    pub fn is_dead(self) -> bool
        ensures { result ≡ is_dead self }
    {
        matches!(self, Kind::Dead)
    }
}
