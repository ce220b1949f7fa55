//! The words of the program `snobol`.
//!
//! `read_words(alloc, words)` gives what the words after the program's name ask for, or why they ask for nothing.
//!
//!     let job = read_words(alloc, &["check", "deck.sno"])?;
//!
//! Promised: the call returns. Words and help are tested.
#![tactic(auto)]

mod commands;
mod given;
mod jobs;
mod words;

pub use given::{BadWord, GivenFiles, WORDS_UNIT};
pub use jobs::{NoJob, Port, ReportFiles, Reporting, Request, Warnings};
pub use words::{COLUMNS, VERSION, read_words};
