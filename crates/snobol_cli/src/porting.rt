//! Decks of other SNOBOL4 systems.

use crate::files::Outcome;
use crate::included::read_whole;
use crate::reporting::{no_memory, report_outcome, unwritten};
use crate::statuses::{DONE, FAILED};
use codes::{Topic, topic_code};
use driver::{FinalReport, Refusal, compile_deck};
use messages::{Form, Message, Severity, Sources, write_messages};
use port::{Change, PortNote, port};
use std::alloc::{AllocError, Global};
use std::env::Env;
use std::fs::Files;
use std::io::{Input, Print, Write};

/// Decks that are written anew as a deck of this language: its bytes, the card from which each of its cards comes, what
/// was changed, and the words that give units the files which the decks name.
#[derive(Drop)]
pub(crate) struct Written {
    deck: Vec<u8>,
    origins: Vec<u32>,
    notes: Vec<PortNote>,
    files: String,
}

impl Written {
    /// Whether anything was changed.
    pub(crate) fn is_changed(&self) -> bool {
        !self.notes.is_empty()
    }

    /// Whether the decks end by an error as they are: functions are defined that they call and don't define, or
    /// prototypes have blanks.
    pub(crate) fn is_needed(&self) -> bool {
        self.notes.iter().any(|note| matches!(note.change, Change::Functions | Change::Prototypes))
    }
}

/// Writes decks anew as a deck of this language.
pub(crate) fn written_anew(
    alloc: Global,
    sources: &Sources<'_>,
    folds: bool,
) -> Result<Written, AllocError> {
    let ported = port(alloc, sources.bytes(), folds)?;
    let mut origins = Vec::new(alloc);
    for card in ported.origins.iter().copied() {
        origins.push(sources.origin(card))?;
    }
    let mut notes = Vec::new(alloc);
    for note in ported.notes.iter().copied() {
        notes.push(PortNote {
            change: note.change,
            card: sources.origin(note.card),
        })?;
    }
    Ok(Written {
        deck: ported.deck,
        origins,
        notes,
        files: String::from_utf8_lossy(alloc, &ported.files)?,
    })
}

/// What was changed, and the words that give units the files which the decks named.
#[derive(Drop)]
struct Made {
    notes: Vec<PortNote>,
    files: String,
}

// A message of what was written anew.
fn ported_message(
    alloc: Global,
    sources: &Sources<'_>,
    card: u32,
    text: &str,
) -> Result<Message, AllocError> {
    let (file, place) = sources.old_place(alloc, card)?;
    Ok(Message {
        file,
        place,
        statement: None,
        severity: Severity::Note,
        code: topic_code(Topic::Ported),
        text: String::from_str(alloc, text)?,
    })
}

fn messages_of(
    alloc: Global,
    sources: &Sources<'_>,
    made: &Made,
) -> Result<Vec<Message>, AllocError> {
    let mut messages = Vec::new(alloc);
    let files = made.files.as_str();
    for note in made.notes.iter().copied() {
        let said = note.change.text();
        let message = if note.change == Change::Files && !files.is_empty() {
            let text = format!(in alloc; "{said}: {files}")?;
            ported_message(alloc, sources, note.card, text.as_str())?
        } else {
            ported_message(alloc, sources, note.card, said)?
        };
        messages.push(message)?;
    }
    Ok(messages)
}

// Says what was changed.
fn report_notes<W: Write>(
    alloc: Global,
    form: Form,
    sources: &Sources<'_>,
    made: &Made,
    errors: &mut W,
) -> u8 {
    let Ok(messages) = messages_of(alloc, sources, made) else {
        return FAILED;
    };
    match write_messages(alloc, form, &messages, &[], errors) {
        Ok(()) => DONE,
        Err(_) => FAILED,
    }
}

// Says what is wrong in a deck that was written anew, if anything, and returns the exit status.
fn report_faults<W: Write>(alloc: Global, form: Form, sources: &Sources<'_>, errors: &mut W) -> u8 {
    match compile_deck(alloc, sources.bytes()) {
        Ok(_) => DONE,
        Err(refusal) => {
            let outcome = Outcome::from(FinalReport::Refused(refusal));
            report_outcome(alloc, form, &outcome, sources, &[], "", errors)
        }
    }
}

/// Writes a deck as one of this language to standard output, says what was changed and what is wrong in it then, and
/// gives the exit status.
pub(crate) fn port_deck<R: Env + Files + Input + Print + AllocGlobal, W: Write>(
    rt: &R,
    deck: &str,
    folds: bool,
    form: Form,
    errors: &mut W,
) -> u8 {
    let alloc = rt.alloc();
    let mut sources = match read_whole(rt, &[deck], form, errors) {
        Ok(sources) => sources,
        Err(status) => return status,
    };
    let Ok(written) = written_anew(alloc, &sources, folds) else {
        return no_memory(rt, form, errors);
    };
    let made = put_written(&mut sources, written);
    if rt.write_all(sources.bytes()).is_err() {
        return unwritten(rt, form, errors);
    }
    match report_notes(alloc, form, &sources, &made, errors) {
        DONE => report_faults(alloc, form, &sources, errors),
        status => status,
    }
}

/// Whether a deck is refused for what may be written anew.
pub(crate) fn is_foreign(told: &FinalReport<'_>) -> bool {
    matches!(
        told,
        FinalReport::Refused(Refusal::Card(_) | Refusal::Statements(_))
    )
}

// Puts what is written anew in the place of decks, and gives what was changed.
fn put_written(sources: &mut Sources<'_>, written: Written) -> Made {
    let Written {
        deck,
        origins,
        notes,
        files,
    } = written;
    sources.write_anew(deck, origins);
    Made { notes, files }
}

/// Puts what is written anew in the place of decks, and says so in one line.
pub(crate) fn use_written<W: Write>(
    alloc: Global,
    sources: &mut Sources<'_>,
    written: Written,
    form: Form,
    errors: &mut W,
) -> Result<(), FinalReport<'static>> {
    let _ = put_written(sources, written);
    let text = topic_code(Topic::Ported).text;
    let Ok(message) = ported_message(alloc, sources, 0, text) else {
        return Err(FinalReport::NoMemory);
    };
    match write_messages(alloc, form, &[message], &[], errors) {
        Ok(()) => Ok(()),
        Err(_) => Err(FinalReport::CannotWrite("standard error")),
    }
}
