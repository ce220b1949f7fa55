//! What waits for the code that runs.

use crate::matching::Matching;
use match_machine::Want;
use world::Kept;

/// What waits, and for what.
#[derive(Drop)]
pub enum Waiting {
    /// What called a function, for its value or its name. It goes on at the place. The values that the call saved are
    /// held beside the frames, those of the newest call last.
    Call {
        kept: Kept,
        place: usize,
        want_name: bool,
    },
    /// A match, for the value of an expression.
    Match {
        matching: Matching,
        want: Want,
    },
}

/// What waits, and how many of the operands and handlers under those of the code that runs are its own.
#[derive(Drop)]
pub struct Frame {
    pub operands: usize,
    pub handlers: usize,
    pub waiting: Waiting,
}
