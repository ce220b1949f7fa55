//! Why a text was not made.

ghost use Rattle.std.specs.Prelude.{◌≡◌};
ghost use Rattle.strings.specs.declared.fault.StrFault.{StrFault};
ghost use Rattle.strings.specs.declared.fault.StrFault.TheVariants.{Memory};

use std::alloc::{AllocError, AllocFailed};

/// Why a text was not made.
#[derive(Clone, Copy, Debug, PartialEq, Eq)]
pub enum StrFault {
    /// A growth of memory was refused.
    Memory,
    /// Longer than the limit.
    TooLong,
}

impl From<AllocError> for StrFault {
    ghost from_gives = { λ _ fault. fault ≡ Memory };

    fn from(_refused: AllocError) -> StrFault {
        StrFault::Memory
    }
}

impl<T: Drop> From<AllocFailed<T>> for StrFault {
    ghost from_gives = { λ _ fault. fault ≡ Memory };

    fn from(_refused: AllocFailed<T>) -> StrFault {
        StrFault::Memory
    }
}
