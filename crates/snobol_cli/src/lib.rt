//! What the program `snobol` does, which is for people.
//!
//! `run(runtime, input, output, errors)` holds the numbers of the standard streams that are closed, reads the words, does
//! what they ask by the calls of `driver` and `deck_listing`, writes messages to `errors`, and returns the exit status.
//! docs/snobol.md has the rules.
//!
//!     let status = run(&runtime, &runtime.stdin(), &runtime.stdout(), &mut errors);
//!
//! Promised, of `status_of`: the exit status is the run's. A deck is compiled and run by `run_deck` of `driver`, with what
//! that promises. Words, messages and warnings are tested.
#![tactic(auto)]

mod files;
mod included;
mod jobs;
mod looking;
mod porting;
mod reporting;
mod running;
mod showing;
mod statuses;
mod watching;
mod words_unit;

use crate::jobs::perform;
use crate::statuses::{BAD_WORDS, DONE, FAILED};
use snobol_words::{NoJob, read_words};
pub use statuses::status_of;
use std::alloc::AllocError;
use std::env::{self, Env};
use std::fs::Files;
use std::io::{self, ErrorKind, Input, IsTerminal, Print, Write};
use std::os::fd::AsFd;
use std::process::ExitCode;
use streams::{Stream, Streams};

// The words after the program's name, or the exit status where there are none.
fn read_arguments<R: Env + AllocGlobal>(rt: &R) -> Result<Vec<String>, NoJob<'static>> {
    let arguments = match env::args(rt) {
        Ok(arguments) => arguments,
        Err(error) if error.kind() == ErrorKind::OutOfMemory => return Err(NoJob::NoMemory),
        Err(_) => return Err(NoJob::NotText),
    };
    let mut words = Vec::new(rt.alloc());
    for argument in arguments.skip(1) {
        if words.push(argument).is_err() {
            return Err(NoJob::NoMemory);
        }
    }
    Ok(words)
}

fn borrowed<'a, R: AllocGlobal>(
    rt: &R,
    arguments: &'a [String],
) -> Result<Vec<&'a str>, AllocError> {
    let mut words = Vec::new(rt.alloc());
    for argument in arguments {
        words.push(argument.as_str())?;
    }
    Ok(words)
}

// Says why nothing is done, and returns the exit status.
fn say<R: Print, W: Write>(rt: &R, why: &NoJob<'_>, errors: &mut W) -> io::Result<u8> {
    match why {
        NoJob::Said(error) if !error.use_stderr() => {
            print!(rt; "{error}")?;
            return Ok(DONE);
        }
        NoJob::Said(error) => write!(errors, "{error}")?,
        NoJob::Bad(bad) => writeln!(
            errors,
            "error: {bad}\n\nFor more information, try '--help'."
        )?,
        NoJob::NotText => writeln!(errors, "error: a word that isn't UTF-8")?,
        NoJob::NoMemory => {
            writeln!(errors, "error: no memory")?;
            return Ok(FAILED);
        }
    }
    Ok(BAD_WORDS)
}

fn perform_words<R: Env + Files + Input + Print + AllocGlobal, W: Write + IsTerminal>(
    rt: &R,
    errors: &mut W,
) -> u8 {
    let arguments = match read_arguments(rt) {
        Ok(arguments) => arguments,
        Err(why) => return say(rt, &why, errors).unwrap_or(FAILED),
    };
    let Ok(words) = borrowed(rt, &arguments) else {
        return say(rt, &NoJob::NoMemory, errors).unwrap_or(FAILED);
    };
    match read_words(rt.alloc(), &words) {
        Ok(job) => perform(rt, job, errors),
        Err(why) => say(rt, &why, errors).unwrap_or(FAILED),
    }
}

// What is reported where the number of a standard stream can't be held.
fn not_held<W: Write>(stream: Stream, errors: &mut W) -> u8 {
    let what = match stream {
        Stream::Input => "standard input can't be read",
        Stream::Output => "standard output can't be written",
        Stream::Error => "standard error can't be written",
    };
    let _ = writeln!(errors, "error: {what}");
    FAILED
}

/// Does what the program's words ask for, writes messages to `errors`, and returns the exit status. The standard
/// streams that are closed are held first.
pub fn run<
    R: Env + Files + Input + Print + AllocGlobal,
    I: AsFd,
    O: AsFd,
    W: Write + IsTerminal + AsFd,
>(rt: &R, input: &I, output: &O, errors: &mut W) -> ExitCode {
    let status = match Streams::hold(rt, input, output, errors) {
        Ok(_held) => perform_words(rt, errors),
        Err(stream) => not_held(stream, errors),
    };
    ExitCode::from(status)
}
