//! Breaches of the rules of annotations, and the first of them.

ghost use Rattle.std.specs.Prelude.{◌≡◌, IfOk};
ghost use Rattle.acsl_terms.specs.Breaches.{number, is_before, least, one, only_if};
ghost use Rattle.acsl_terms.specs.declared.breach.NoteFault.TheVariants as Kind;

use fc_base::Name;
use std::alloc::{AllocError, Global};

/// How a part of a clause is in breach.
#[derive(Debug, Drop)]
pub enum NoteFault {
    /// A name that no `\forall` binds and no declaration in force declares (C11 6.5.1).
    Unknown(Name),
    /// A `\result` or an `\old` where the clause doesn't see it (ACSL manual, function contracts).
    NotHere,
    /// A form that the rules don't allow there.
    BadType,
}

impl NoteFault {
    /// The number by which faults at one place are ordered.
    pub fn number(&self) -> u8
        ensures { result ≡ number self.now }
    {
        match self {
            NoteFault::Unknown(_) => 1,
            NoteFault::NotHere => 2,
            NoteFault::BadType => 3,
        }
    }
}

/// A breach, with the offset of the first byte of the part that is in breach.
#[derive(Debug, Drop)]
pub struct NoteBreach {
    pub at: u32,
    pub fault: NoteFault,
}

impl NoteBreach {
    /// Whether it stands before the other in the text; at one place the lower number comes first.
    pub(crate) fn is_before(&self, other: &NoteBreach) -> bool
        ensures { result ≡ is_before self.now other.now }
    {
        self.at < other.at || self.at == other.at && self.fault.number() < other.fault.number()
    }
}

/// Notes a breach, where none before it is noted.
pub(crate) fn note(first: &mut Option<NoteBreach>, at: u32, fault: NoteFault)
    ensures { first.new ≡ least first.old (one at fault) }
{
    let breach = NoteBreach { at, fault };
    let is_sooner = match &*first {
        None => true,
        Some(first) => breach.is_before(first),
    };
    if is_sooner {
        *first = Some(breach);
    }
}

/// Notes a breach where `holds`.
pub(crate) fn note_if(first: &mut Option<NoteBreach>, holds: bool, at: u32, fault: NoteFault)
    ensures { first.new ≡ least first.old (only_if holds at fault) }
{
    if holds {
        note(first, at, fault);
    }
}

/// Notes that a name stands for nothing.
pub(crate) fn note_unknown(
    alloc: Global,
    first: &mut Option<NoteBreach>,
    at: u32,
    name: &Name,
) -> Result<(), AllocError>
    ensures { IfOk result (λ _. first.new ≡ least first.old (one at (Kind.Unknown name.now))) }
{
    let name = name.copy(alloc)?;
    note(first, at, NoteFault::Unknown(name));
    Ok(())
}

/// Notes that something doesn't stand where it may, in the first of the breaches so far.
pub fn note_not_here(first: &mut Option<NoteBreach>, at: u32)
    ensures { first.new ≡ least first.old (one at Kind.NotHere) }
{
    note(first, at, NoteFault::NotHere);
}
