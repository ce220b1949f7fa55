//! What the program does: its words, its files, its lines and its exit status.
//!
//! `run(runtime, input, output, errors)` holds the numbers of the standard streams that are closed, reads the words,
//! does what they ask by the calls of `driver`, reports what is to be reported as lines of `errors`, and returns the
//! exit status. docs/program.md has the rules.
//!
//!     let mut files = SystemFiles::new(&runtime);
//!     let status = run(&runtime, &mut files, &runtime.stdin(), &runtime.stdout(), &mut errors);
//!
//! The program `snobol` too runs decks on the units that `units_of` gives, on the system of `system_of`.
//!
//! Promised, whatever the files are (`WholeFiles`): some word is done, as `HasDone` says, or nothing is; what is reported
//! stands on standard error, and the exit status is a function of it, and one of those that docs/program.md has for the
//! word. Which word it is, and what the system's files and terminals hold and give, isn't stated. Decks and commands of
//! tests/ show the rest.
#![tactic(auto)]

ghost use Rattle.std.specs.Prelude.{IfErr, Option, Some};
ghost use Rattle.std.specs.Process.{exit_status};
ghost use Rattle.driver.specs.declared.telling.FinalReport.{FinalReport as AnyTold};
ghost use Rattle.driver.specs.Exits.{IsOfBadWords};
ghost use Rattle.program.specs.Words.{HasAnswered, IsOfNoWord, IsReported};

mod files;
mod jobs;
mod records;
mod system;

use crate::jobs::perform;
use driver::{FinalReport, read_words, report};
pub use files::{SystemFiles, WholeFiles, write_whole};
pub use jobs::{system_of, units_of};
use std::alloc::AllocError;
use std::env::{self, Env};
use std::fs::Files;
use std::io::{ErrorKind, Print, Write};
use std::os::fd::AsFd;
use std::process::ExitCode;
use streams::{Stream, Streams};
pub use system::RunSystem;

/// The exit status where nothing can be reported, since standard error takes no line.
const NOTHING_TOLD: u8 = 6;

/// The words after the program's name. One that isn't UTF-8 makes the command line a bad one.
fn read_arguments<R: Env + AllocGlobal>(rt: &R) -> Result<Vec<String>, FinalReport<'static>>
    ensures { IfErr result IsOfBadWords }
{
    let arguments = match env::args(rt) {
        Ok(arguments) => arguments,
        Err(error) if error.kind() == ErrorKind::OutOfMemory => return Err(FinalReport::NoMemory),
        Err(_) => return Err(FinalReport::BadCommandLine),
    };
    let mut words = Vec::new(rt.alloc());
    for argument in arguments.skip(1) {
        if words.push(argument).is_err() {
            return Err(FinalReport::NoMemory);
        }
    }
    Ok(words)
}

fn borrowed<'a, R: AllocGlobal>(
    rt: &R,
    arguments: &'a [String],
) -> Result<Vec<&'a str>, AllocError> {
    let mut words = Vec::new(rt.alloc());
    for argument in arguments {
        words.push(argument.as_str())?;
    }
    Ok(words)
}

/// Does what words ask for, and says what is to be reported, if anything.
fn answer<'a, R: Print + AllocGlobal, F: WholeFiles>(
    rt: &R,
    whole: &mut F,
    words: &'a [&'a str],
) -> Option<FinalReport<'a>>
    ensures { HasAnswered F.holds F.input_holds F.writes F.System.exposes F.System.input_bytes F.System.source_bytes
        whole.old whole.new result }
{
    match read_words(rt.alloc(), words) {
        Ok(job) => perform(rt, whole, job),
        Err(told) => Some(told),
    }
}

/// Reports it, and returns the exit status, which is `NOTHING_TOLD` where standard error took no line.
fn tell<W: Write>(told: &FinalReport<'_>, errors: &mut W) -> ExitCode
    ensures { IsReported (Some told.now) (exit_status result) (W.contents errors.old) (W.contents errors.new) }
{
    match report(told, errors) {
        Ok(status) => ExitCode::from(status),
        Err(_) => ExitCode::from(NOTHING_TOLD),
    }
}

/// What is reported where the number of a standard stream can't be held.
fn not_held(stream: Stream) -> FinalReport<'static>
    ensures { IsOfNoWord result }
{
    match stream {
        Stream::Input => FinalReport::CannotRead("standard input"),
        Stream::Output => FinalReport::CannotWrite("standard output"),
        Stream::Error => FinalReport::CannotWrite("standard error"),
    }
}

/// Reports what is to be reported, if anything, and returns the exit status.
fn finish<W: Write>(outcome: Option<FinalReport<'_>>, errors: &mut W) -> ExitCode
    ensures { IsReported outcome.entry (exit_status result) (W.contents errors.old) (W.contents errors.new) }
{
    match outcome {
        Some(told) => tell(&told, errors),
        None => ExitCode::SUCCESS,
    }
}

fn perform_words<R: Env + Print + AllocGlobal, F: WholeFiles, W: Write>(
    rt: &R,
    whole: &mut F,
    errors: &mut W,
) -> ExitCode
    ensures { (told : Option AnyTold) × IsReported told (exit_status result) (W.contents errors.old) (W.contents errors.new)
        × HasAnswered F.holds F.input_holds F.writes F.System.exposes F.System.input_bytes F.System.source_bytes
        whole.old whole.new told }
{
    let arguments = match read_arguments(rt) {
        Ok(arguments) => arguments,
        Err(told) => return tell(&told, errors),
    };
    let Ok(words) = borrowed(rt, &arguments) else {
        return tell(&FinalReport::NoMemory, errors);
    };
    finish(answer(rt, whole, &words), errors)
}

/// Does what the program's words ask for, reports what is to be reported as lines of `errors`, and returns the exit
/// status. The standard streams that are closed are held first.
pub fn run<R: Env + Files + Print + AllocGlobal, F: WholeFiles, I: AsFd, O: AsFd, W: Write + AsFd>(
    rt: &R,
    whole: &mut F,
    input: &I,
    output: &O,
    errors: &mut W,
) -> ExitCode
    // Some word is done, or nothing is; the lines on standard error report what came of it, and this is its exit status.
    ensures { (told : Option AnyTold) × IsReported told (exit_status result) (W.contents errors.old) (W.contents errors.new)
        × HasAnswered F.holds F.input_holds F.writes F.System.exposes F.System.input_bytes F.System.source_bytes
        whole.old whole.new told }
{
    match Streams::hold(rt, input, output, errors) {
        Ok(_held) => perform_words(rt, whole, errors),
        Err(stream) => tell(&not_held(stream), errors),
    }
}
