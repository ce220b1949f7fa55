//! The instructions of modules.

use crate::files::{Outcome, read_file};
use crate::included::read_whole;
use crate::looking::write_list;
use crate::reporting::{no_memory, report_alone, report_outcome, unwritten};
use crate::statuses::{BAD_MODULE, DONE, FAILED};
use codes::{Topic, topic_code};
use deck_listing::Trouble;
use driver::{FinalReport, ShowFault, check_module, compile_deck, show};
use messages::{CardPlace, Form, Message, Sources, write_messages};
use std::alloc::{AllocError, Global};
use std::env::Env;
use std::fs::Files;
use std::io::{self, BufWriter, Input, Print, Write};

// Writes a module's instructions.
fn write_module<W: Write>(alloc: Global, bytes: &[u8], out: &mut W) -> Result<(), ShowFault> {
    show(alloc, bytes, out)?;
    out.flush()?;
    Ok(())
}

/// Shows a module's instructions, and returns the exit status.
pub(crate) fn show_module<R: Files + Input + Print + AllocGlobal, W: Write>(
    rt: &R,
    module: &str,
    form: Form,
    errors: &mut W,
) -> u8 {
    let alloc = rt.alloc();
    let Ok(mut out) = BufWriter::new(alloc, io::writer(rt)) else {
        return no_memory(rt, form, errors);
    };
    let bytes = match read_file(rt, module) {
        Ok(bytes) => bytes,
        Err(outcome) => return report_alone(alloc, form, &outcome, module, errors),
    };
    match write_module(alloc, &bytes, &mut out) {
        Ok(()) => DONE,
        Err(ShowFault::Module(fault)) => {
            let outcome = Outcome::from(FinalReport::BadModule(fault));
            report_alone(alloc, form, &outcome, module, errors)
        }
        Err(ShowFault::Write(_)) => unwritten(rt, form, errors),
    }
}

// The message of a module that isn't the one of a deck.
fn other_deck(alloc: Global, module: &str, deck: &str) -> Result<Message, AllocError> {
    let code = topic_code(Topic::OtherDeck);
    let said = code.text;
    let text = format!(in alloc; "{said}: {deck}")?;
    let file = String::from_str(alloc, module)?;
    Ok(Message::new(file, CardPlace::whole(), code, text))
}

// Reports a module that isn't the one of a deck.
fn report_other<W: Write>(
    alloc: Global,
    module: &str,
    deck: &str,
    form: Form,
    errors: &mut W,
) -> u8 {
    let form = if form == Form::Codes {
        Form::Lines
    } else {
        form
    };
    let Ok(message) = other_deck(alloc, module, deck) else {
        return FAILED;
    };
    match write_messages(alloc, form, &[message], &[], errors) {
        Ok(()) => BAD_MODULE,
        Err(_) => FAILED,
    }
}

// Writes the instructions of decks under their cards, and returns the exit status.
fn list_code<R: Env + Files + Print + AllocGlobal, W: Write>(
    rt: &R,
    sources: &Sources<'_>,
    form: Form,
    errors: &mut W,
) -> u8 {
    match write_list(rt, sources, true) {
        Ok(()) => DONE,
        Err(Trouble::Memory) => no_memory(rt, form, errors),
        Err(Trouble::Write(_)) => unwritten(rt, form, errors),
    }
}

/// Shows a module's instructions under the cards of the deck from which it was compiled, and returns the exit status.
pub(crate) fn show_with_cards<R: Env + Files + Input + Print + AllocGlobal, W: Write>(
    rt: &R,
    module: &str,
    deck: &str,
    form: Form,
    errors: &mut W,
) -> u8 {
    let alloc = rt.alloc();
    let bytes = match read_file(rt, module) {
        Ok(bytes) => bytes,
        Err(outcome) => return report_alone(alloc, form, &outcome, module, errors),
    };
    if let Err(fault) = check_module(alloc, &bytes) {
        let outcome = Outcome::from(FinalReport::BadModule(fault));
        return report_alone(alloc, form, &outcome, module, errors);
    }
    let sources = match read_whole(rt, &[deck], form, errors) {
        Ok(sources) => sources,
        Err(status) => return status,
    };
    match compile_deck(alloc, sources.bytes()) {
        Ok(compiled) if compiled.as_slice() == bytes.as_slice() => {
            list_code(rt, &sources, form, errors)
        }
        Ok(_) => report_other(alloc, module, deck, form, errors),
        Err(refusal) => {
            let outcome = Outcome::from(FinalReport::Refused(refusal));
            report_outcome(alloc, form, &outcome, &sources, &[], module, errors)
        }
    }
}
