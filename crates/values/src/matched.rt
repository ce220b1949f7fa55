//! What a match begins with, and the part of a subject that it found.

use pattern_compiler::PatCode;
use strings::Text;

/// What a match begins with.
#[derive(Drop)]
pub struct Begun {
    pub subject: Text,
    pub pattern: PatCode,
    /// Whether it matches at the first place alone.
    pub anchored: bool,
}

/// A part of a subject, which a match found.
#[derive(Drop)]
pub struct Span {
    pub subject: Text,
    pub start: usize,
    pub end: usize,
}
