//! What the program is asked to do.

use crate::given::{BadWord, GivenFiles, Unsorted};
use clap::Error;
use messages::Form;
use std::alloc::AllocError;

/// What becomes of warnings.
#[derive(Clone, Copy, PartialEq, Eq)]
pub enum Warnings {
    Shown,
    /// They are shown, and the deck is refused for them.
    Errors,
    Hidden,
}

/// What becomes of a deck that is refused.
#[derive(Clone, Copy, PartialEq, Eq)]
pub enum Port {
    /// It is written anew as a deck of this language, with small letters of names raised or not, and run then.
    Anew { folds: bool },
    /// It stays refused.
    Never,
}

/// The files for what is reported of a run besides messages, where it is wanted; `-` is standard error.
#[derive(Clone, Copy)]
pub struct ReportFiles<'a> {
    /// A line for each statement that begins.
    pub trace: Option<&'a str>,
    /// How often each statement ran, and its steps.
    pub profile: Option<&'a str>,
    /// What the run holds at its end.
    pub dump: Option<&'a str>,
}

impl ReportFiles<'_> {
    /// Whether any is wanted.
    pub fn are_wanted(&self) -> bool {
        self.trace.is_some() || self.profile.is_some() || self.dump.is_some()
    }
}

/// How what is wrong in a deck is reported.
#[derive(Clone, Copy)]
pub struct Reporting {
    pub form: Option<Form>,
    pub warnings: Warnings,
}

/// What the program is asked to do.
#[derive(Drop)]
pub enum Request<'a> {
    /// Compile decks as one and run the module.
    Run {
        given: GivenFiles<'a>,
        records: Vec<&'a str>,
        steps: u64,
        port: Port,
        reports: ReportFiles<'a>,
        form: Option<Form>,
    },
    /// Report what is wrong in decks, read as one.
    Check {
        decks: Vec<&'a str>,
        reporting: Reporting,
    },
    /// List decks, read as one.
    List {
        decks: Vec<&'a str>,
        has_code: bool,
        reporting: Reporting,
    },
    /// Say what a code means.
    Explain {
        code: &'a str,
    },
    /// Compile a deck to a module.
    Compile {
        deck: &'a str,
        module: &'a str,
        form: Option<Form>,
    },
    /// Write a deck of another SNOBOL4 as one of this language.
    Port {
        deck: &'a str,
        folds: bool,
        form: Option<Form>,
    },
    /// Show a module's instructions.
    Show {
        module: &'a str,
        /// The deck whose cards are shown with them.
        source: Option<&'a str>,
        form: Option<Form>,
    },
}

/// Why words ask for nothing that is done: a request for help or the version, or a mistake.
#[derive(Drop)]
pub enum NoJob<'a> {
    /// What `clap` says, help and the version too.
    Said(Error),
    Bad(BadWord<'a>),
    /// A word isn't UTF-8.
    NotText,
    NoMemory,
}

impl From<AllocError> for NoJob<'_> {
    fn from(_e: AllocError) -> Self {
        NoJob::NoMemory
    }
}

impl<'a> From<Unsorted<'a>> for NoJob<'a> {
    fn from(unsorted: Unsorted<'a>) -> Self {
        match unsorted {
            Unsorted::Bad(bad) => NoJob::Bad(bad),
            Unsorted::NoMemory => NoJob::NoMemory,
        }
    }
}
