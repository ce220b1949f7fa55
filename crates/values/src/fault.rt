//! Why a call gave nothing.

ghost use Rattle.std.specs.Prelude.{◌≡◌};
ghost use Rattle.values.specs.declared.fault.Fault.TheVariants.{Error, Stop as Stopped};
ghost use Rattle.values.specs.Answers.{fault_of};
ghost use Rattle.model.specs.declared.run.Stop.TheVariants.{NoMemory};

use model::{ErrorCode, Stop};
use std::alloc::{AllocError, AllocFailed};
use strings::StrFault;

/// Why a call gave nothing.
#[derive(Clone, Copy)]
pub enum Fault {
    /// An error, which ends the run.
    Error(ErrorCode),
    /// A unit refused a call, or there is no memory.
    Stop(Stop),
}

impl From<ErrorCode> for Fault {
    ghost from_gives = { λ code fault. fault ≡ Error code };

    fn from(code: ErrorCode) -> Fault {
        Fault::Error(code)
    }
}

impl From<AllocError> for Fault {
    ghost from_gives = { λ _ fault. fault ≡ Stopped NoMemory };

    fn from(_refused: AllocError) -> Fault {
        Fault::Stop(Stop::NoMemory)
    }
}

impl<T: Drop> From<AllocFailed<T>> for Fault {
    ghost from_gives = { λ _ fault. fault ≡ Stopped NoMemory };

    fn from(_refused: AllocFailed<T>) -> Fault {
        Fault::Stop(Stop::NoMemory)
    }
}

impl From<StrFault> for Fault {
    ghost from_gives = { λ refused fault. fault ≡ fault_of refused };

    fn from(refused: StrFault) -> Fault {
        match refused {
            StrFault::Memory => Fault::Stop(Stop::NoMemory),
            StrFault::TooLong => Fault::Error(ErrorCode::StringTooLong),
        }
    }
}
