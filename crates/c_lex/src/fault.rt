//! Why a text has no tokens.

use fc_base::Line;
use std::alloc::{AllocError, AllocFailed};
use thiserror::Error;

/// Why a text has no tokens: the first place where there is none, by its offset or line.
#[derive(Clone, Copy, Debug, PartialEq, Eq, Error)]
pub enum LexFault {
    /// The byte begins nothing, or spoils the number before it. For a string literal that isn't closed on its
    /// line it is the opening quote.
    #[error("unexpected byte at offset {0}")]
    BadByte(u32),
    /// The comment or note that begins here is never closed.
    #[error("comment at offset {0} is not closed")]
    OpenComment(u32),
    /// The integer constant that begins here isn't below 2^127.
    #[error("integer constant at offset {0} is too large")]
    LiteralTooWide(u32),
    /// The `#` that stands first on this line makes no line marker.
    #[error("preprocessing directive on line {line}", line = .0.0)]
    Directive(Line),
    /// The word that begins here has more than 256 bytes.
    #[error("word at offset {0} is too long")]
    NameTooLong(u32),
    /// No memory.
    #[error("out of memory")]
    Memory,
}

impl From<AllocError> for LexFault {
    ghost use Rattle.std.specs.Prelude.{◌≡◌};
    ghost use Rattle.c_lex.specs.declared.fault.LexFault.TheVariants.{Memory};

    ghost from_gives = { λ _ e. e ≡ Memory };

    fn from(_: AllocError) -> LexFault {
        LexFault::Memory
    }
}

impl<T: Drop> From<AllocFailed<T>> for LexFault {
    ghost use Rattle.std.specs.Prelude.{◌≡◌};
    ghost use Rattle.c_lex.specs.declared.fault.LexFault.TheVariants.{Memory};

    ghost from_gives = { λ _ e. e ≡ Memory };

    fn from(_: AllocFailed<T>) -> LexFault {
        LexFault::Memory
    }
}
