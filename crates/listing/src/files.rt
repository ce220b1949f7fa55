//! The program's words, its files and its exit status.

use crate::terminal::output_style;
use crate::words::{Job, read_job};
use codes::{Code, run_code_named};
use deck_listing::{Trouble, list};
use std::alloc::AllocError;
use std::env::{self, Env};
use std::fs::{self, Files};
use std::io::{self, BufWriter, ErrorKind, Input, Print, Read, Write};
use std::os::fd::AsFd;
use std::process::ExitCode;
use streams::{Stream, Streams};

/// Exit statuses, as `sno` has them.
const BAD_WORDS: u8 = 2;

const REFUSED: u8 = 3;

const FAILED: u8 = 6;

/// Why the program ends without what it was asked for.
#[derive(Drop)]
enum Told<'a> {
    BadCommandLine,
    NoSuchError(&'a str),
    CannotRead(&'a str),
    CannotWrite,
    NoMemory,
}

fn of_trouble(trouble: Trouble) -> Told<'static> {
    match trouble {
        Trouble::Memory => Told::NoMemory,
        Trouble::Write(_) => Told::CannotWrite,
    }
}

fn read_arguments<R: Env + AllocGlobal>(rt: &R) -> Result<Vec<String>, Told<'static>> {
    let arguments = match env::args(rt) {
        Ok(arguments) => arguments,
        Err(error) if error.kind() == ErrorKind::OutOfMemory => return Err(Told::NoMemory),
        Err(_) => return Err(Told::BadCommandLine),
    };
    let mut words = Vec::new(rt.alloc());
    for argument in arguments.skip(1) {
        if words.push(argument).is_err() {
            return Err(Told::NoMemory);
        }
    }
    Ok(words)
}

fn borrowed<'a, R: AllocGlobal>(
    rt: &R,
    arguments: &'a [String],
) -> Result<Vec<&'a str>, AllocError> {
    let mut words = Vec::new(rt.alloc());
    for argument in arguments {
        words.push(argument.as_str())?;
    }
    Ok(words)
}

fn not_read<'a>(error: &io::Error, name: &'a str) -> Told<'a> {
    match error.kind() {
        ErrorKind::OutOfMemory => Told::NoMemory,
        _ => Told::CannotRead(name),
    }
}

fn read_input<R: Input + AllocGlobal>(rt: &R) -> Result<Vec<u8>, Told<'static>> {
    let mut bytes = Vec::new(rt.alloc());
    match rt.reader().read_to_end(&mut bytes) {
        Ok(_) => Ok(bytes),
        Err(error) => Err(not_read(&error, "standard input")),
    }
}

fn read_deck<'a, R: Files + Input + AllocGlobal>(
    rt: &R,
    deck: Option<&'a str>,
) -> Result<Vec<u8>, Told<'a>> {
    let Some(file) = deck else {
        return read_input(rt);
    };
    match fs::read(rt, file) {
        Ok(bytes) => Ok(bytes),
        Err(error) => Err(not_read(&error, file)),
    }
}

fn list_deck<'a, R: Env + Files + Input + Print + AllocGlobal>(
    rt: &R,
    deck: Option<&'a str>,
    has_code: bool,
) -> Result<u8, Told<'a>> {
    let bytes = read_deck(rt, deck)?;
    let Ok(mut out) = BufWriter::new(rt.alloc(), io::writer(rt)) else {
        return Err(Told::NoMemory);
    };
    let is_faultless = match list(rt.alloc(), output_style(rt), has_code, &bytes, &mut out) {
        Ok(is_faultless) => is_faultless,
        Err(trouble) => return Err(of_trouble(trouble)),
    };
    match out.flush() {
        Ok(()) => Ok(if is_faultless { 0 } else { REFUSED }),
        Err(_) => Err(Told::CannotWrite),
    }
}

fn print_error<R: Print>(rt: &R, error: Code) -> io::Result<()> {
    println!(rt; "{}: {}", error.name, error.text)?;
    println!(rt; "\n{}\n", error.help)?;
    println!(rt; "A deck that ends so:\n\n{}", error.deck)
}

fn explain<'a, R: Print>(rt: &R, name: &'a str) -> Result<u8, Told<'a>> {
    let Some(error) = run_code_named(name) else {
        return Err(Told::NoSuchError(name));
    };
    match print_error(rt, error) {
        Ok(()) => Ok(0),
        Err(_) => Err(Told::CannotWrite),
    }
}

fn answer<'a, R: Env + Files + Input + Print + AllocGlobal>(
    rt: &R,
    words: &[&'a str],
) -> Result<u8, Told<'a>> {
    match read_job(words) {
        None => Err(Told::BadCommandLine),
        Some(Job::List { deck, has_code }) => list_deck(rt, deck, has_code),
        Some(Job::Explain { error }) => explain(rt, error),
    }
}

// Reports it, and returns the exit status.
fn tell<W: Write>(told: &Told<'_>, errors: &mut W) -> io::Result<u8> {
    match told {
        Told::BadCommandLine => {
            writeln!(errors, "bad command line")?;
            Ok(BAD_WORDS)
        }
        Told::NoSuchError(name) => {
            writeln!(errors, "no error {name}")?;
            Ok(BAD_WORDS)
        }
        Told::CannotRead(name) => {
            writeln!(errors, "cannot read {name}")?;
            Ok(FAILED)
        }
        Told::CannotWrite => {
            writeln!(errors, "cannot write standard output")?;
            Ok(FAILED)
        }
        Told::NoMemory => {
            writeln!(errors, "no memory")?;
            Ok(FAILED)
        }
    }
}

fn status<W: Write>(done: Result<u8, Told<'_>>, errors: &mut W) -> ExitCode {
    ExitCode::from(match done {
        Ok(status) => status,
        Err(told) => tell(&told, errors).unwrap_or(FAILED),
    })
}

// What is reported where the number of a standard stream can't be held.
fn not_held(stream: Stream) -> Told<'static> {
    match stream {
        Stream::Input => Told::CannotRead("standard input"),
        Stream::Output | Stream::Error => Told::CannotWrite,
    }
}

fn perform_words<R: Env + Files + Input + Print + AllocGlobal, W: Write>(
    rt: &R,
    errors: &mut W,
) -> ExitCode {
    let arguments = match read_arguments(rt) {
        Ok(arguments) => arguments,
        Err(told) => return status(Err(told), errors),
    };
    match borrowed(rt, &arguments) {
        Ok(words) => status(answer(rt, &words), errors),
        Err(_) => status(Err(Told::NoMemory), errors),
    }
}

/// Does what the program's words ask for, reports what is to be reported as lines of `errors`, and returns the exit
/// status. The standard streams that are closed are held first.
pub fn run<R: Env + Files + Input + Print + AllocGlobal, I: AsFd, O: AsFd, W: Write + AsFd>(
    rt: &R,
    input: &I,
    output: &O,
    errors: &mut W,
) -> ExitCode {
    match Streams::hold(rt, input, output, errors) {
        Ok(_held) => perform_words(rt, errors),
        Err(stream) => status(Err(not_held(stream)), errors),
    }
}
