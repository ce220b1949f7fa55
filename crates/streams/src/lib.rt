//! The numbers of the standard streams, held where they were closed.
//!
//! A program may begin with standard input, output or error closed. The next file that it opens then takes that
//! stream's number: what it prints goes into the file, and what it reads comes from there. `Streams::hold` puts the
//! null device in the place of each stream that is closed, before any file is opened.
//!
//!     let held = Streams::hold(rt, &rt.stdin(), &rt.stdout(), &rt.stderr());
//!
//! Promised: the call returns. What the system does is tested: a read of standard input and a write to standard output
//! or error fail, as they do where the stream is closed, as long as the value stands.
#![tactic(auto)]

use std::fs::{Files, OpenOptions};
use std::io;
use std::os::fd::AsFd;

/// The null device of the system.
const NULL_DEVICE: &str = "/dev/null";

/// The number of the system's error for a descriptor that isn't open.
const NOT_OPEN: i32 = 9;

/// A standard stream.
#[derive(Clone, Copy, PartialEq, Eq, Drop)]
pub enum Stream {
    /// Standard input.
    Input,
    /// Standard output.
    Output,
    /// Standard error.
    Error,
}

/// What stands in the place of the standard streams that were closed; their numbers are free again where it is dropped.
#[derive(Drop)]
pub struct Streams<F: Drop> {
    input: Option<F>,
    output: Option<F>,
    error: Option<F>,
}

// Whether a stream's number is free. Where the system can't say it, no file can be opened either.
fn is_closed<S: AsFd>(stream: &S) -> bool {
    match stream.as_fd().try_clone_to_owned() {
        Ok(_) => false,
        Err(error) => error.raw_os_error() == Some(NOT_OPEN),
    }
}

// Opens the null device where the stream is closed. It takes the least free number, which is that of the stream where
// those before it aren't free.
fn stand_in<R: Files, S: AsFd>(
    rt: &R,
    stream: &S,
    how: &OpenOptions,
) -> io::Result<Option<R::File>> {
    if is_closed(stream) {
        Ok(Some(how.open(rt, NULL_DEVICE)?))
    } else {
        Ok(None)
    }
}

impl<F: Drop> Streams<F> {
    /// Holds the numbers of the standard streams that are closed, or names one that it can't hold. What stands for
    /// standard input is open for writing alone, and what stands for the others for reading alone, so that their use
    /// fails.
    pub fn hold<R: Files<File = F>, I: AsFd, O: AsFd, E: AsFd>(
        rt: &R,
        input: &I,
        output: &O,
        error: &E,
    ) -> Result<Streams<F>, Stream> {
        let mut to_read = OpenOptions::new();
        to_read.read(true);
        let mut to_write = OpenOptions::new();
        to_write.write(true);
        let Ok(input) = stand_in(rt, input, &to_write) else {
            return Err(Stream::Input);
        };
        let Ok(output) = stand_in(rt, output, &to_read) else {
            return Err(Stream::Output);
        };
        let Ok(error) = stand_in(rt, error, &to_read) else {
            return Err(Stream::Error);
        };
        Ok(Streams {
            input,
            output,
            error,
        })
    }
}
