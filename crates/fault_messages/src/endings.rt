//! Messages of runs.

use crate::faults::{of_memory, of_whole};
use codes::{Topic, error_code, topic_code, unit_code};
use driver::{Ran, UnitFile};
use messages::{Message, Sources};
use model::{Ending, Status, Stop, UnitFault};
use std::alloc::{AllocError, Global};
use std::io;

fn of_ending(
    alloc: Global,
    sources: &Sources<'_>,
    card: u32,
    ending: Ending,
) -> Result<Option<Message>, AllocError> {
    let (code, statement) = match ending {
        Ending::Normal => return Ok(None),
        Ending::Error { code, statement } => (error_code(code), statement),
        Ending::StLimit { statement } => (topic_code(Topic::StatementLimit), i64::from(statement)),
    };
    let text = String::from_str(alloc, code.text)?;
    let (file, place) = sources.message_place(alloc, card)?;
    Ok(Some(Message::of_statement(file, place, statement, code, text)))
}

/// The variable that is associated with a unit at first.
fn variable_of(unit: u8) -> Option<&'static str> {
    match unit {
        5 => Some("INPUT"),
        6 => Some("OUTPUT"),
        7 => Some("PUNCH"),
        _ => None,
    }
}

// The file that is given for a unit, or what stands for one.
fn file_of<'a>(unit: u8, files: &[UnitFile<'a>]) -> Option<&'a str> {
    match (files.iter().find(|given| given.unit == unit), unit) {
        (Some(given), _) => Some(given.file),
        (None, 5) => Some("standard input"),
        (None, 6) => Some("standard output"),
        (None, _) => None,
    }
}

// A unit as a message names it: with its file, or with its variable.
fn unit_name(alloc: Global, unit: u8, files: &[UnitFile<'_>]) -> Result<String, AllocError> {
    match (file_of(unit, files), variable_of(unit)) {
        (Some(file), _) => format!(in alloc; "unit {unit} ({file})"),
        (None, Some(variable)) => format!(in alloc; "unit {unit} ({variable})"),
        (None, None) => format!(in alloc; "unit {unit}"),
    }
}

// What is reported of a unit's fault.
fn unit_text(
    alloc: Global,
    unit: u8,
    cause: UnitFault,
    files: &[UnitFile<'_>],
    reason: Option<&io::Error>,
) -> Result<String, AllocError> {
    let mut text = unit_name(alloc, unit, files)?;
    let is_given = file_of(unit, files).is_some();
    match cause {
        UnitFault::NotOpen if is_given => {
            text.push_str(" is read and written; a unit is open one way")?;
        }
        UnitFault::NotOpen => write!(text, " isn't open; give it as {unit}=FILE")?,
        UnitFault::ReadFailed => text.push_str(" can't be read")?,
        UnitFault::WriteFailed | UnitFault::Memory => text.push_str(" can't be written")?,
    }
    if let Some(reason) = reason {
        write!(text, ": {reason}")?;
    }
    Ok(text)
}

fn of_stop(
    alloc: Global,
    sources: &Sources<'_>,
    stop: Stop,
    files: &[UnitFile<'_>],
    reason: Option<&io::Error>,
) -> Result<Message, AllocError> {
    match stop {
        Stop::Unit {
            cause: UnitFault::Memory,
            ..
        }
        | Stop::NoMemory => of_memory(alloc, sources.last_name()),
        Stop::Unit { unit, cause } => {
            let text = unit_text(alloc, unit, cause, files, reason)?;
            of_whole(alloc, sources.last_name(), unit_code(cause), text)
        }
    }
}

/// The message of a run, if it didn't end normally.
pub fn of_run(
    alloc: Global,
    sources: &Sources<'_>,
    ran: Ran,
    files: &[UnitFile<'_>],
    reason: Option<&io::Error>,
) -> Result<Option<Message>, AllocError> {
    match ran.status {
        Status::Ended(ending) => of_ending(alloc, sources, ran.card, ending),
        Status::Stopped(stop) => Ok(Some(of_stop(alloc, sources, stop, files, reason)?)),
        Status::Running => {
            let code = topic_code(Topic::StepsUsedUp);
            let text = String::from_str(alloc, code.text)?;
            Ok(Some(of_whole(alloc, sources.last_name(), code, text)?))
        }
    }
}
