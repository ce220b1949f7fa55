//! How runs and units end.

ghost use Rattle.std.specs.Prelude.{◌≡◌};
ghost use Rattle.model.specs.declared.run.UnitFault.TheVariants.{Memory};

use std::alloc::{AllocError, AllocFailed};

/// An error that ends a run.
#[derive(Clone, Copy, PartialEq, Eq)]
pub enum ErrorCode {
    /// A value of a type that the operation doesn't take.
    WrongType,
    /// Overflow, a zero divisor or a negative exponent.
    Arithmetic,
    /// A string that isn't an integer in range.
    NotAnInteger,
    /// A function that isn't defined.
    UndefinedFunction,
    /// The null string as a name, or no name where one is wanted.
    NotAName,
    /// A label that isn't defined.
    UndefinedLabel,
    /// A return at level zero.
    ReturnAtLevelZero,
    /// A failure inside a goto.
    FailureInGoto,
    /// A string longer than `&MAXLNGTH`.
    StringTooLong,
    /// An argument of a pattern function that is negative or null.
    BadPatternArgument,
    /// A value that the keyword doesn't take.
    BadKeywordValue,
    /// A faulty prototype of DEFINE or DATA.
    BadPrototype,
    /// A faulty array prototype, too large an array, or a wrong number of subscripts.
    BadArray,
    /// A printed value that is neither string nor integer.
    NotPrintable,
    /// A unit that isn't in 0 to 99.
    BadUnit,
    /// Too many arguments of a primitive called by APPLY.
    TooManyArguments,
}

/// How a run ends.
#[derive(Clone, Copy, PartialEq, Eq)]
pub enum Ending {
    /// END was reached.
    Normal,
    /// An error came.
    Error {
        /// Which one.
        code: ErrorCode,
        /// `&STNO` when it came.
        statement: i64,
    },
    /// `&STLIMIT` statements were begun.
    StLimit {
        /// The statement that would have begun.
        statement: u32,
    },
}

/// Why a unit refused a call.
#[derive(Clone, Copy, Debug, PartialEq, Eq)]
pub enum UnitFault {
    /// The unit isn't open that way.
    NotOpen,
    /// The record that was asked for could not be read.
    ReadFailed,
    /// The record was not written.
    WriteFailed,
    /// A growth of memory was refused.
    Memory,
}

impl From<AllocError> for UnitFault {
    ghost from_gives = { λ _ fault. fault ≡ Memory };

    fn from(_e: AllocError) -> UnitFault {
        UnitFault::Memory
    }
}

impl<T: Drop> From<AllocFailed<T>> for UnitFault {
    ghost from_gives = { λ _ fault. fault ≡ Memory };

    fn from(_e: AllocFailed<T>) -> UnitFault {
        UnitFault::Memory
    }
}

/// Why a run was broken off.
#[derive(Clone, Copy, PartialEq, Eq)]
pub enum Stop {
    /// A unit refused a call.
    Unit {
        /// The unit's number.
        unit: u8,
        /// What it refused the call for.
        cause: UnitFault,
    },
    /// A growth of memory was refused.
    NoMemory,
}

/// How far a run has come.
#[derive(Clone, Copy, PartialEq, Eq)]
pub enum Status {
    /// The steps that were allowed are done, and the run may go on.
    Running,
    /// The run ended.
    Ended(Ending),
    /// The run was broken off.
    Stopped(Stop),
}
