//! What a match assigns when it is over.

use pattern_compiler::Name;
use strings::Text;

/// An assignment that is made after the match.
#[derive(Drop)]
pub struct Assignment {
    pub name: Name,
    pub value: Text,
}
