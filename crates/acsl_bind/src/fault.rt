//! Why notes can't be bound.

ghost use Rattle.std.specs.Prelude.{◌≡◌};
ghost use Rattle.acsl_bind.specs.Programs.{fault_of};

use acsl_terms::{NoteBreach, NoteFault};
use fc_base::Name;
use std::alloc::{AllocError, AllocFailed};
use thiserror::Error;

/// Why the notes of a text can't be bound. Places are offsets of bytes in the text.
#[derive(Debug, Drop, Error)]
pub enum BindFault {
    /// A name that isn't declared where it is used.
    #[error("undeclared name in a note")]
    Unknown(Name),
    /// A note, `\result` or `\old` that isn't allowed there (ACSL manual, function contracts, loop annotations).
    #[error("not allowed here in a note at offset {0}")]
    NotHere(u32),
    /// A term, a predicate or a place of a form that isn't allowed there.
    #[error("bad type in a note at offset {0}")]
    BadType(u32),
    /// No memory.
    #[error("out of memory")]
    Memory,
}

impl From<AllocError> for BindFault {
    ghost use Rattle.std.specs.Prelude.{◌≡◌};
    ghost use Rattle.acsl_bind.specs.declared.fault.BindFault.TheVariants.{Memory};

    ghost from_gives = { λ _ e. e ≡ Memory };

    fn from(_: AllocError) -> BindFault {
        BindFault::Memory
    }
}

impl<T: Drop> From<AllocFailed<T>> for BindFault {
    ghost use Rattle.std.specs.Prelude.{◌≡◌};
    ghost use Rattle.acsl_bind.specs.declared.fault.BindFault.TheVariants.{Memory};

    ghost from_gives = { λ _ e. e ≡ Memory };

    fn from(_: AllocFailed<T>) -> BindFault {
        BindFault::Memory
    }
}

/// The answer of a breach.
pub(crate) fn fault_of(breach: NoteBreach) -> BindFault
    ensures { result ≡ fault_of breach }
{
    let NoteBreach { at, fault } = breach;
    match fault {
        NoteFault::Unknown(name) => BindFault::Unknown(name),
        NoteFault::NotHere => BindFault::NotHere(at),
        NoteFault::BadType => BindFault::BadType(at),
    }
}
