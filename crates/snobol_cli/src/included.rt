//! Files that decks take in by cards `-INCLUDE 'FILE'`.

use crate::files::{folder, read_decks};
use crate::reporting::{no_memory, report_alone};
use crate::statuses::FAILED;
use card_text::next_line;
use codes::{Topic, topic_code};
use driver::{FinalReport, report};
use messages::{Form, Message, Sources, write_messages};
use port::include_of;
use std::alloc::{AllocError, Global};
use std::env::{self, Env, VarError};
use std::fs::{self, Files};
use std::io::{self, Input, Write};

/// How deep files may take in others.
const DEEPEST: u32 = 16;

/// The variable of the environment that names folders, with `:` between.
const FOLDERS: &str = "SNOPATH";

/// Why decks can't be read with the files that they take in.
#[derive(Drop)]
enum NotTaken {
    Memory,
    /// A card takes in a file that can't be read.
    File {
        card: u32,
        name: String,
        reason: io::Error,
    },
}

impl From<AllocError> for NotTaken {
    fn from(_error: AllocError) -> Self {
        NotTaken::Memory
    }
}

/// A file that was found.
#[derive(Drop)]
struct Found {
    path: String,
    bytes: Vec<u8>,
}

/// Cards, and for each the card of the decks from which it comes.
#[derive(Drop)]
struct Taken {
    bytes: Vec<u8>,
    origins: Vec<u32>,
}

/// The folders that are searched behind a deck's own, and the files that were taken in.
#[derive(Drop)]
struct Finder {
    folders: Vec<String>,
    files: Vec<String>,
}

// Whether a deck takes in a file.
fn has_include(deck: &[u8]) -> bool {
    let mut rest = deck;
    for _ in 0..deck.len() {
        let Some((line, more)) = next_line(rest) else {
            break;
        };
        if include_of(line).is_some() {
            return true;
        }
        rest = more;
    }
    false
}

// Puts the folders of SNOPATH, and behind them that of the library that is installed with the program.
fn put_folders<R: Env + Files + AllocGlobal>(
    rt: &R,
    folders: &mut Vec<String>,
) -> Result<(), AllocError> {
    match env::var(rt, FOLDERS) {
        Ok(named) => {
            for each in env::split_paths(named.as_str()) {
                if !each.as_str().is_empty() {
                    folders.push(String::from_str(rt.alloc(), each.as_str())?)?;
                }
            }
        }
        Err(VarError::OutOfMemory) => return Err(AllocError),
        Err(_) => (),
    }
    if let Ok(program) = env::current_exe(rt) {
        let prefix = folder(folder(program.as_str()));
        folders.push(format!(in rt.alloc(); "{prefix}/share/snobol")?)?;
    }
    Ok(())
}

impl Taken {
    // Puts a card, or the cards of a file, that come from one.
    fn put(&mut self, cards: &[u8], origin: u32) -> Result<(), AllocError> {
        let mut rest = cards;
        for _ in 0..cards.len().saturating_add(1) {
            let (line, more) = next_line(rest).unwrap_or((&[], &[]));
            self.bytes.extend_from_slice(line)?;
            self.bytes.push(b'\n')?;
            self.origins.push(origin)?;
            if more.is_empty() {
                break;
            }
            rest = more;
        }
        Ok(())
    }
}

impl Finder {
    fn new<R: Env + Files + AllocGlobal>(rt: &R) -> Result<Finder, AllocError> {
        let mut folders = Vec::new(rt.alloc());
        put_folders(rt, &mut folders)?;
        Ok(Finder {
            folders,
            files: Vec::new(rt.alloc()),
        })
    }

    // The file of a name, from the folder of the deck that takes it in, or the first of the others that has it.
    fn find<R: Files + AllocGlobal>(
        &self,
        rt: &R,
        own: &str,
        name: &str,
    ) -> Result<Result<Found, io::Error>, AllocError> {
        let is_whole = name.starts_with('/');
        let path = if is_whole {
            String::from_str(rt.alloc(), name)?
        } else {
            format!(in rt.alloc(); "{own}/{name}")?
        };
        let reason = match fs::read(rt, path.as_str()) {
            Ok(bytes) => return Ok(Ok(Found { path, bytes })),
            Err(reason) if is_whole => return Ok(Err(reason)),
            Err(reason) => reason,
        };
        for other in self.folders.iter() {
            let path = format!(in rt.alloc(); "{other}/{name}")?;
            if let Ok(bytes) = fs::read(rt, path.as_str()) {
                return Ok(Ok(Found { path, bytes }));
            }
        }
        Ok(Err(reason))
    }

    // Puts the cards of a file that a card takes in, unless they were put before.
    fn put_file<R: Files + AllocGlobal>(
        &mut self,
        rt: &R,
        sources: &Sources<'_>,
        card: u32,
        name: &[u8],
        taken: &mut Taken,
    ) -> Result<(), NotTaken> {
        let origin = sources.origin(card);
        let (deck, _) = sources.old_place(rt.alloc(), origin)?;
        let name = String::from_utf8_lossy(rt.alloc(), name)?;
        let found = match self.find(rt, folder(deck.as_str()), name.as_str())? {
            Ok(found) => found,
            Err(reason) => return Err(NotTaken::File { card, name, reason }),
        };
        let path = found.path.as_str();
        if self.files.iter().any(|file| file.as_str() == path) {
            return Ok(());
        }
        taken.put(&found.bytes, origin)?;
        if self.files.push(found.path).is_err() {
            return Err(NotTaken::Memory);
        }
        Ok(())
    }

    // The decks with the files that their cards take in, but not those that these take in.
    fn once<R: Files + AllocGlobal>(
        &mut self,
        rt: &R,
        sources: &Sources<'_>,
    ) -> Result<Taken, NotTaken> {
        let mut taken = Taken {
            bytes: Vec::new(rt.alloc()),
            origins: Vec::new(rt.alloc()),
        };
        let mut rest = sources.bytes();
        let mut card: u32 = 1;
        for _ in 0..sources.bytes().len() {
            let Some((line, more)) = next_line(rest) else {
                break;
            };
            match include_of(line) {
                Some(name) => self.put_file(rt, sources, card, name, &mut taken)?,
                None => taken.put(line, sources.origin(card))?,
            }
            card = card.saturating_add(1);
            rest = more;
        }
        Ok(taken)
    }
}

// Puts the files that decks take in where they are taken in, each once.
fn put_included<R: Env + Files + AllocGlobal>(
    rt: &R,
    sources: &mut Sources<'_>,
) -> Result<(), NotTaken> {
    if !has_include(sources.bytes()) {
        return Ok(());
    }
    let mut finder = Finder::new(rt)?;
    for _ in 0..DEEPEST {
        if !has_include(sources.bytes()) {
            break;
        }
        let taken = finder.once(rt, sources)?;
        sources.write_anew(taken.bytes, taken.origins);
    }
    Ok(())
}

// The message of a file that can't be read.
fn missing_message(
    alloc: Global,
    sources: &Sources<'_>,
    card: u32,
    name: &str,
    reason: &io::Error,
) -> Result<Message, AllocError> {
    let code = topic_code(Topic::CannotRead);
    let (file, place) = sources.message_place(alloc, card)?;
    let said = code.text;
    let text = format!(in alloc; "{said}: {name}: {reason}")?;
    Ok(Message::new(file, place, code, text))
}

// Reports a file that can't be read.
fn report_missing<W: Write>(
    alloc: Global,
    sources: &Sources<'_>,
    card: u32,
    name: &str,
    reason: &io::Error,
    form: Form,
    errors: &mut W,
) -> u8 {
    if form == Form::Codes {
        return report(&FinalReport::CannotRead(name), errors).unwrap_or(FAILED);
    }
    if let Ok(message) = missing_message(alloc, sources, card, name, reason) {
        let _ = write_messages(alloc, form, &[message], sources.bytes(), errors);
    }
    FAILED
}

/// Puts the files that decks take in where they are taken in, each once; the exit status where one can't be read, which is
/// reported.
pub(crate) fn take_in<R: Env + Files + AllocGlobal, W: Write>(
    rt: &R,
    sources: &mut Sources<'_>,
    form: Form,
    errors: &mut W,
) -> Result<(), u8> {
    match put_included(rt, sources) {
        Ok(()) => Ok(()),
        Err(NotTaken::Memory) => Err(no_memory(rt, form, errors)),
        Err(NotTaken::File { card, name, reason }) => Err(report_missing(
            rt.alloc(),
            sources,
            card,
            name.as_str(),
            &reason,
            form,
            errors,
        )),
    }
}

/// Decks, read as one with the files that they take in; the exit status where one can't be read, which is reported.
pub(crate) fn read_whole<'a, R: Env + Files + Input + AllocGlobal, W: Write>(
    rt: &R,
    decks: &[&'a str],
    form: Form,
    errors: &mut W,
) -> Result<Sources<'a>, u8> {
    let mut sources = match read_decks(rt, decks) {
        Ok(sources) => sources,
        Err(outcome) => return Err(report_alone(rt.alloc(), form, &outcome, "", errors)),
    };
    take_in(rt, &mut sources, form, errors)?;
    Ok(sources)
}
