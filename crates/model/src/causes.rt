//! Why a statement is faulty.

use crate::seq::Seq;

/// The one cause for which a statement is faulty.
#[derive(Clone, Copy, PartialEq, Eq)]
pub enum Cause {
    /// A byte outside literals that begins no token.
    StrayByte,
    /// A literal without its closing quote.
    UnclosedLiteral,
    /// An integer over 9223372036854775807.
    IntegerTooLarge,
    /// Too many brackets open at once.
    TooManyBrackets,
    /// Too many marks of unary operators in a row.
    TooManyMarks,
    /// No tree has these tokens.
    NoTree,
    /// A label that is a return's, or is given by an earlier statement.
    LabelTaken,
    /// More arguments than the primitive takes.
    TooManyArguments,
    /// A keyword that isn't known.
    UnknownKeyword,
    /// An operand that must be a target and isn't one.
    NotATarget,
    /// An entry label that no statement gives.
    EntryMissing,
    /// A growth of memory was refused.
    Memory,
}

/// A faulty statement's number and cause.
#[derive(Clone, Copy, PartialEq, Eq)]
pub struct StmtFault {
    /// The statement's number, from 1.
    pub number: u32,
    /// The one cause that is reported for it.
    pub cause: Cause,
}

/// Why the statements of a deck are refused.
#[derive(Drop)]
pub enum DeckFault {
    /// The faulty statements in order, at least one.
    Faulty(Seq<StmtFault>),
    /// A growth of memory was refused.
    Memory,
}
