//! Files, and why they can't be read or written.

use driver::{FinalReport, UnitFile};
use messages::Sources;
use program::write_whole;
use std::fs::{self, Files, OpenOptions};
use std::io::{self, ErrorKind, Input, Read};

/// The word for standard input.
const STANDARD_INPUT: &str = "-";

/// What is reported at the end, and the system's reason, if there is one.
#[derive(Drop)]
pub(crate) struct Outcome<'a> {
    pub(crate) told: FinalReport<'a>,
    pub(crate) reason: Option<io::Error>,
}

impl<'a> From<FinalReport<'a>> for Outcome<'a> {
    fn from(told: FinalReport<'a>) -> Self {
        Outcome { told, reason: None }
    }
}

fn not_read<'a>(error: io::Error, file: &'a str) -> Outcome<'a> {
    match error.kind() {
        ErrorKind::OutOfMemory => Outcome::from(FinalReport::NoMemory),
        _ => Outcome {
            told: FinalReport::CannotRead(file),
            reason: Some(error),
        },
    }
}

pub(crate) fn not_written<'a>(error: io::Error, file: &'a str) -> Outcome<'a> {
    match error.kind() {
        ErrorKind::OutOfMemory => Outcome::from(FinalReport::NoMemory),
        _ => Outcome {
            told: FinalReport::CannotWrite(file),
            reason: Some(error),
        },
    }
}

/// All of a file, or of standard input for the word `-`.
pub(crate) fn read_file<'a, R: Files + Input + AllocGlobal>(
    rt: &R,
    file: &'a str,
) -> Result<Vec<u8>, Outcome<'a>> {
    if file == STANDARD_INPUT {
        let mut bytes = Vec::new(rt.alloc());
        return match rt.reader().read_to_end(&mut bytes) {
            Ok(_) => Ok(bytes),
            Err(error) => Err(not_read(error, file)),
        };
    }
    match fs::read(rt, file) {
        Ok(bytes) => Ok(bytes),
        Err(error) => Err(not_read(error, file)),
    }
}

/// Decks, read as one.
pub(crate) fn read_decks<'a, R: Files + Input + AllocGlobal>(
    rt: &R,
    decks: &[&'a str],
) -> Result<Sources<'a>, Outcome<'a>> {
    let mut sources = Sources::new(rt.alloc());
    for deck in decks.iter().copied() {
        let bytes = read_file(rt, deck)?;
        if sources.add(deck, &bytes).is_err() {
            return Err(Outcome::from(FinalReport::NoMemory));
        }
    }
    Ok(sources)
}

/// Writes a file, whose old bytes go.
pub(crate) fn write_file<'a, R: Files + AllocGlobal>(
    rt: &R,
    file: &'a str,
    bytes: &[u8],
) -> Result<(), Outcome<'a>> {
    match write_whole(rt, file, bytes) {
        Ok(()) => Ok(()),
        Err(error) => Err(not_written(error, file)),
    }
}

/// Why a file can't be read, if the system says so before it is read.
pub(crate) fn why_not_read<R: Files>(rt: &R, file: &str) -> Option<io::Error> {
    match fs::metadata(rt, file) {
        Err(error) => Some(error),
        Ok(found) if found.is_dir() => Some(io::Error::from(ErrorKind::IsADirectory)),
        // What isn't a plain file may wait for another program when it is opened.
        Ok(found) if found.is_file() => fs::open(rt, file).err(),
        Ok(_) => None,
    }
}

/// The folder of a file.
pub(crate) fn folder(file: &str) -> &str {
    match file.rsplit_once('/') {
        Some((folder, _)) if !folder.is_empty() => folder,
        Some(_) => "/",
        None => ".",
    }
}

/// Why a file can't be written, if the system says so before it is written.
pub(crate) fn why_not_written<R: Files>(rt: &R, file: &str) -> Option<io::Error> {
    match fs::metadata(rt, file) {
        Err(error) if error.kind() != ErrorKind::NotFound => Some(error),
        Err(_) => fs::metadata(rt, folder(file)).err(),
        Ok(found) if found.is_dir() => Some(io::Error::from(ErrorKind::IsADirectory)),
        Ok(found) if found.is_file() => OpenOptions::new().append(true).open(rt, file).err(),
        Ok(_) => None,
    }
}

/// The first file of a unit that can't be read, though it is to be: unit 5's, or a folder.
pub(crate) fn unreadable<R: Files>(rt: &R, files: &[UnitFile<'_>]) -> Option<(u8, io::Error)> {
    for given in files {
        let reason = why_not_read(rt, given.file);
        if let Some(reason) = reason {
            if given.unit == 5 || reason.kind() == ErrorKind::IsADirectory {
                return Some((given.unit, reason));
            }
        }
    }
    None
}

/// Whether what is written on standard output goes to another program, so that a write fails only where that is gone.
pub(crate) fn is_output_piped<R: Files + AllocGlobal>(rt: &R) -> bool {
    match rt.read_link(rt.alloc(), "/proc/self/fd/1") {
        Ok(path) => {
            let name = path.as_str();
            name.starts_with("pipe:") || name.starts_with("socket:")
        }
        Err(_) => false,
    }
}
