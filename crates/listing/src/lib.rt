//! What the program `sno_list` does: lists decks, and explains the errors of runs.
//!
//! `run(runtime, input, output, errors)` holds the numbers of the standard streams that are closed, reads the words, does
//! what they ask, reports what is wrong with files or words as a line of `errors`, and returns the exit status.
//! `output_style` is how lines are written on standard output. docs/listing.md has the rules.
//!
//!     let status = run(&runtime, &runtime.stdin(), &runtime.stdout(), &mut errors);
//!
//! Promised: each call returns. Words and statuses are tested.
#![tactic(auto)]

mod files;
mod terminal;
mod words;

pub use files::run;
pub use terminal::{columns, output_style};
