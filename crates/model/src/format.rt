//! Why bytes are no module's.

ghost use Rattle.std.specs.Prelude.{◌≡◌};
ghost use Rattle.model.specs.declared.format.ReadError.TheVariants.{Fault, Memory};

use std::alloc::{AllocError, AllocFailed};

/// A version of the module format.
#[derive(Clone, Copy)]
pub enum Version {
    /// Without level and cards.
    One,
    /// As modules are written.
    Two,
}

/// A rule of the module format that bytes break.
#[derive(Clone, Copy, PartialEq, Eq)]
pub enum FormatRule {
    /// The first bytes aren't a module's.
    BadMagic,
    /// Another version of the format.
    BadVersion,
    /// A field isn't whole.
    Truncated,
    /// Bytes after the last field.
    TrailingBytes,
    /// A count over its limit, or entries out of order or equal.
    BadTable,
    /// An instruction, primitive or keyword that isn't known, or an instruction that isn't whole.
    UnknownInstruction,
    /// A growth of memory was refused.
    Memory,
}

/// A broken rule of the format, and the offset at which it is reported.
#[derive(Clone, Copy, PartialEq, Eq)]
pub struct FormatFault {
    /// Counts the bytes before it.
    pub offset: usize,
    /// The rule that is broken there.
    pub rule: FormatRule,
}

/// A broken rule of the format, and how many bytes are left where it is reported.
#[derive(Clone, Copy)]
pub struct Miss {
    /// How many bytes stand from there to the end.
    pub left: usize,
    /// The rule that is broken there.
    pub rule: FormatRule,
}

/// Why a field was not read.
#[derive(Drop)]
pub enum ReadError {
    /// A growth of memory was refused.
    Memory,
    /// The bytes break a rule of the format.
    Fault(Miss),
}

impl From<AllocError> for ReadError {
    ghost from_gives = { λ _ e. e ≡ Memory };

    fn from(_e: AllocError) -> ReadError {
        ReadError::Memory
    }
}

impl<T: Drop> From<AllocFailed<T>> for ReadError {
    ghost from_gives = { λ _ e. e ≡ Memory };

    fn from(_e: AllocFailed<T>) -> ReadError {
        ReadError::Memory
    }
}

impl From<Miss> for ReadError {
    ghost from_gives = { λ miss e. e ≡ Fault miss };

    fn from(miss: Miss) -> ReadError {
        ReadError::Fault(miss)
    }
}

/// A condition of well-formed modules that an image breaks.
#[derive(Clone, Copy, PartialEq, Eq)]
pub enum ModuleRule {
    /// An index, name or number that isn't there or isn't allowed.
    BadIndex,
    /// An offset that no instruction of the needed kind begins at.
    BadTarget,
    /// An instruction that lacks its operands, or is reached in two ways that differ.
    BadFlow,
    /// A jump out of its pattern.
    BadJump,
    /// A last statement that isn't END.
    NoEnd,
}

/// A broken condition of well-formed modules, and the offset at which it is reported.
#[derive(Clone, Copy, PartialEq, Eq)]
pub struct ModuleFault {
    /// Counts the module's bytes before the instruction, the table entry or the field.
    pub offset: usize,
    /// The condition that is broken there.
    pub rule: ModuleRule,
}

/// Why a module is refused.
#[derive(Clone, Copy, PartialEq, Eq)]
pub enum LoadFault {
    /// The bytes spell no image.
    Format(FormatFault),
    /// The image that they spell isn't well-formed.
    Module(ModuleFault),
}
