//! What a match asks and reports, and the answers that it takes.

use backtrack::Assignment;
use pattern_compiler::{Name, PatCode};
use strings::Text;

/// What the value of an expression is converted to.
#[derive(Clone, Copy)]
pub enum Want {
    Pattern,
    /// An integer that isn't negative.
    Count,
    /// A string that isn't null.
    Bytes,
}

/// What is assigned within a match.
#[derive(Drop)]
pub enum Told {
    Text(Text),
    /// A cursor.
    Number(u64),
}

/// What a match has come to, with names and values where they are.
#[derive(Clone, Copy)]
pub enum Event<'a> {
    /// Nothing yet.
    Running,
    /// The value of this expression is asked for.
    Ask {
        expr: u32,
        want: Want,
    },
    /// An assignment is asked for.
    Say {
        name: &'a Name,
        value: &'a Told,
    },
    /// The first success, with its assignments in order.
    Matched {
        start: usize,
        end: usize,
        pending: &'a [Assignment],
    },
    Failed,
}

/// The answer to a question.
#[derive(Drop)]
pub enum Answer {
    Pattern(PatCode),
    Count(u64),
    Bytes(Text),
    /// The evaluation failed.
    Failed,
    /// The assignment is made.
    Said,
}
