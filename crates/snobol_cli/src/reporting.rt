//! What is reported at the end, and the exit status.

use crate::files::{Outcome, is_output_piped};
use crate::statuses::{BAD_MODULE, BAD_WORDS, FAILED, REFUSED, status_of};
use codes::Topic;
use driver::{FinalReport, Refusal, UnitFile, report};
use fault_messages::{of_file, of_memory, of_module, of_refusal, of_run};
use listing::columns;
use messages::{Form, Message, Sources, write_messages};
use model::{FormatFault, FormatRule, LoadFault};
use snobol_words::COLUMNS;
use std::alloc::{AllocError, Global};
use std::env::Env;
use std::fs::Files;
use std::io::{IsTerminal, Write};

/// The form in which messages are written, where the words may say none.
pub(crate) fn form_for<R: Env, W: IsTerminal>(rt: &R, asked: Option<Form>, errors: &W) -> Form {
    match asked {
        Some(Form::Text(usual)) => Form::Text(columns(rt).unwrap_or(usual)),
        Some(form) => form,
        None if errors.is_terminal() => Form::Text(columns(rt).unwrap_or(COLUMNS)),
        None => Form::Lines,
    }
}

// The messages of what is reported.
fn messages_of(
    alloc: Global,
    outcome: &Outcome<'_>,
    sources: &Sources<'_>,
    files: &[UnitFile<'_>],
    module: &str,
) -> Result<Vec<Message>, AllocError> {
    let reason = outcome.reason.as_ref();
    let message = match &outcome.told {
        FinalReport::Refused(refusal) => return of_refusal(alloc, sources, refusal),
        FinalReport::BadModule(fault) => Some(of_module(alloc, module, *fault)?),
        FinalReport::Ran(ran) => of_run(alloc, sources, *ran, files, reason)?,
        FinalReport::CannotRead(file) => Some(of_file(alloc, file, Topic::CannotRead, reason)?),
        FinalReport::CannotWrite(file) => Some(of_file(alloc, file, Topic::CannotWrite, reason)?),
        FinalReport::NoMemory | FinalReport::BadCommandLine => Some(of_memory(
            alloc,
            sources.last_name(),
        )?),
    };
    let mut messages = Vec::new(alloc);
    if let Some(message) = message {
        messages.push(message)?;
    }
    Ok(messages)
}

// The exit status of what is reported.
fn exit_status(told: &FinalReport<'_>) -> u8 {
    match told {
        FinalReport::BadCommandLine => BAD_WORDS,
        FinalReport::Refused(Refusal::Memory) => FAILED,
        FinalReport::Refused(_) => REFUSED,
        FinalReport::BadModule(
            LoadFault::Format(
                FormatFault {
                    rule: FormatRule::Memory,
                    ..
                },
            ),
        ) => FAILED,
        FinalReport::BadModule(_) => BAD_MODULE,
        FinalReport::Ran(ran) => status_of(ran.status),
        FinalReport::CannotRead(_) | FinalReport::CannotWrite(_) | FinalReport::NoMemory => FAILED,
    }
}

/// Writes what is reported to `errors`, as far as that and memory permit, and returns the exit status.
pub(crate) fn report_outcome<W: Write>(
    alloc: Global,
    form: Form,
    outcome: &Outcome<'_>,
    sources: &Sources<'_>,
    files: &[UnitFile<'_>],
    module: &str,
    errors: &mut W,
) -> u8 {
    if form == Form::Codes {
        return report(&outcome.told, errors).unwrap_or(FAILED);
    }
    let Ok(messages) = messages_of(alloc, outcome, sources, files, module) else {
        return report(&FinalReport::NoMemory, errors).unwrap_or(FAILED);
    };
    match write_messages(alloc, form, &messages, sources.bytes(), errors) {
        Ok(()) => exit_status(&outcome.told),
        Err(_) => FAILED,
    }
}

/// Writes what is reported where there is no deck and no unit, and returns the exit status.
pub(crate) fn report_alone<W: Write>(
    alloc: Global,
    form: Form,
    outcome: &Outcome<'_>,
    module: &str,
    errors: &mut W,
) -> u8 {
    let sources = Sources::new(alloc);
    report_outcome(alloc, form, outcome, &sources, &[], module, errors)
}

/// What is reported where standard output took no line; nothing where nobody reads it.
pub(crate) fn unwritten<R: Files + AllocGlobal, W: Write>(
    rt: &R,
    form: Form,
    errors: &mut W,
) -> u8 {
    if is_output_piped(rt) {
        return FAILED;
    }
    let alloc = rt.alloc();
    let outcome = Outcome::from(FinalReport::CannotWrite("standard output"));
    report_alone(alloc, form, &outcome, "", errors)
}

/// What is reported where memory was refused.
pub(crate) fn no_memory<R: AllocGlobal, W: Write>(rt: &R, form: Form, errors: &mut W) -> u8 {
    let alloc = rt.alloc();
    let outcome = Outcome::from(FinalReport::NoMemory);
    report_alone(alloc, form, &outcome, "", errors)
}
