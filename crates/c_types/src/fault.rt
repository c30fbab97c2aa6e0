//! Why a text has no program.

ghost use Rattle.std.specs.Prelude.{◌≡◌};
ghost use Rattle.c_types.specs.Programs.{fault_of};

use c_rules::{Breach, Fault};
use fc_base::Name;
use std::alloc::{AllocError, AllocFailed};
use thiserror::Error;

/// Why a text has no program. Places are offsets of bytes in the text.
#[derive(Debug, Drop, Error)]
pub enum TypeFault {
    /// A name that isn't declared where it is used (C11 6.5.1).
    #[error("undeclared name")]
    Unknown(Name),
    /// A name that is declared or defined twice (C11 6.7, 6.9), or a function with two notes before it.
    #[error("name declared twice")]
    Twice(Name),
    /// Types or forms that aren't allowed there.
    #[error("bad type at offset {0}")]
    BadType(u32),
    /// A call with too few or too many arguments (C11 6.5.2.2).
    #[error("wrong number of arguments at offset {0}")]
    Arity(u32),
    /// A call, an assignment or a step inside another expression (this project's own).
    #[error("side effect inside an expression at offset {0}")]
    SideEffect(u32),
    /// A function that calls itself, directly or through others (this project's own).
    #[error("recursive function")]
    Recursive(Name),
    /// A constant object that is written to (C11 6.5.16).
    #[error("assignment to a constant at offset {0}")]
    ConstWrite(u32),
    /// More than 4,096 cells; how many.
    #[error("{0} cells")]
    TooManyCells(u32),
    /// No memory.
    #[error("out of memory")]
    Memory,
}

impl From<AllocError> for TypeFault {
    ghost use Rattle.std.specs.Prelude.{◌≡◌};
    ghost use Rattle.c_types.specs.declared.fault.TypeFault.TheVariants.{Memory};

    ghost from_gives = { λ _ e. e ≡ Memory };

    fn from(_: AllocError) -> TypeFault {
        TypeFault::Memory
    }
}

impl<T: Drop> From<AllocFailed<T>> for TypeFault {
    ghost use Rattle.std.specs.Prelude.{◌≡◌};
    ghost use Rattle.c_types.specs.declared.fault.TypeFault.TheVariants.{Memory};

    ghost from_gives = { λ _ e. e ≡ Memory };

    fn from(_: AllocFailed<T>) -> TypeFault {
        TypeFault::Memory
    }
}

/// The answer of a breach.
pub(crate) fn fault_of(breach: Breach) -> TypeFault
    ensures { result ≡ fault_of breach.at breach.fault }
{
    let Breach { at, fault } = breach;
    match fault {
        Fault::Unknown(name) => TypeFault::Unknown(name),
        Fault::Twice(name) => TypeFault::Twice(name),
        Fault::BadType => TypeFault::BadType(at),
        Fault::Arity => TypeFault::Arity(at),
        Fault::SideEffect => TypeFault::SideEffect(at),
        Fault::ConstWrite => TypeFault::ConstWrite(at),
    }
}
