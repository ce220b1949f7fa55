//! Why nothing is read.

ghost use Rattle.std.specs.Prelude.{◌≡◌};
ghost use Rattle.stmt_parser.specs.declared.stop.Stop.TheVariants as stop;

use std::alloc::{AllocError, AllocFailed};

#[derive(Clone, Copy)]
pub(crate) enum Stop {
    /// No tree has the tokens.
    NoTree,
    /// A growth of memory was refused.
    Memory,
}

impl From<AllocError> for Stop {
    ghost from_gives = { λ _ s. s ≡ stop.Memory };

    fn from(_e: AllocError) -> Stop {
        Stop::Memory
    }
}

impl<T: Drop> From<AllocFailed<T>> for Stop {
    ghost from_gives = { λ _ s. s ≡ stop.Memory };

    fn from(_e: AllocFailed<T>) -> Stop {
        Stop::Memory
    }
}
