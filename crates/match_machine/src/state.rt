//! One state of a match.

use crate::event::{Answer, Told};
use backtrack::Trail;
use pattern_compiler::{Kind, Name};

/// Where one attempt stands, with the choices.
#[derive(Drop)]
pub struct Thread {
    pub place: usize,
    pub cursor: usize,
    pub trail: Trail,
}

/// What an answer is awaited for.
#[derive(Drop)]
pub enum Waiting {
    Pattern(u32),
    Argument(Kind, u32),
    Said(Name, Told),
}

#[derive(Clone, Copy)]
pub enum Mode {
    Starting,
    Going,
    Returning,
    Waiting,
    Matched,
    Failed,
}

/// A match between two steps.
#[derive(Drop)]
pub struct Run {
    pub mode: Mode,
    pub start: usize,
    /// How many further starts there are.
    pub left: usize,
    pub thread: Thread,
    pub waiting: Option<Waiting>,
    pub answer: Option<Answer>,
}
