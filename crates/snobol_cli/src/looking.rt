//! Decks that are looked at: checked and listed.

use crate::files::Outcome;
use crate::included::read_whole;
use crate::reporting::{form_for, no_memory, report_outcome, unwritten};
use crate::statuses::{DONE, FAILED, REFUSED};
use deck_listing::{Trouble, list};
use driver::{FinalReport, Refusal, compile_deck};
use listing::output_style;
use messages::{Form, Severity, Sources, write_messages};
use model::StmtFault;
use snobol_words::{Reporting, Warnings};
use std::alloc::Global;
use std::env::Env;
use std::fs::Files;
use std::io::{self, BufWriter, Input, IsTerminal, Print, Write};
use warnings::warnings_of;

/// How a deck that is looked at is reported.
#[derive(Clone, Copy)]
pub(crate) struct How {
    form: Form,
    warnings: Warnings,
}

/// How it is reported, where standard error is this.
pub(crate) fn how_for<R: Env, W: IsTerminal>(rt: &R, reporting: Reporting, errors: &W) -> How {
    How {
        form: form_for(rt, reporting.form, errors),
        warnings: reporting.warnings,
    }
}

// Writes the warnings of a deck whose statements have these faults. The exit status, where it had this one before.
fn warn<W: Write>(
    alloc: Global,
    sources: &Sources<'_>,
    faults: &[StmtFault],
    how: How,
    status: u8,
    errors: &mut W,
) -> u8 {
    let severity = match how.warnings {
        Warnings::Hidden => return status,
        Warnings::Shown => Severity::Warning,
        Warnings::Errors => Severity::Error,
    };
    let Ok(warnings) = warnings_of(alloc, sources, severity, faults) else {
        return FAILED;
    };
    match write_messages(alloc, how.form, &warnings, sources.bytes(), errors) {
        Ok(()) if severity == Severity::Error && !warnings.is_empty() => REFUSED,
        Ok(()) => status,
        Err(_) => FAILED,
    }
}

// Reports why a deck is refused, unless a listing did, and warns of what else it has.
fn report_refusal<W: Write>(
    alloc: Global,
    sources: &Sources<'_>,
    refusal: Refusal,
    is_listed: bool,
    how: How,
    errors: &mut W,
) -> u8 {
    let outcome = Outcome::from(FinalReport::Refused(refusal));
    let status = if is_listed {
        REFUSED
    } else {
        report_outcome(alloc, how.form, &outcome, sources, &[], "", errors)
    };
    match &outcome.told {
        FinalReport::Refused(Refusal::Statements(faults)) => {
            warn(alloc, sources, faults.as_slice(), how, status, errors)
        }
        _ => status,
    }
}

fn check_sources<W: Write>(
    alloc: Global,
    sources: &Sources<'_>,
    is_listed: bool,
    how: How,
    errors: &mut W,
) -> u8 {
    match compile_deck(alloc, sources.bytes()) {
        Ok(_) => warn(alloc, sources, &[], how, DONE, errors),
        Err(refusal) => report_refusal(alloc, sources, refusal, is_listed, how, errors),
    }
}

/// Says what is wrong in decks, read as one, and returns the exit status.
pub(crate) fn check<R: Env + Files + Input + AllocGlobal, W: Write>(
    rt: &R,
    decks: &[&str],
    how: How,
    errors: &mut W,
) -> u8 {
    let alloc = rt.alloc();
    match read_whole(rt, decks, how.form, errors) {
        Ok(sources) => check_sources(alloc, &sources, false, how, errors),
        Err(status) => status,
    }
}

/// Writes a listing.
pub(crate) fn write_list<R: Env + Files + Print + AllocGlobal>(
    rt: &R,
    sources: &Sources<'_>,
    has_code: bool,
) -> Result<(), Trouble> {
    let Ok(mut out) = BufWriter::new(rt.alloc(), io::writer(rt)) else {
        return Err(Trouble::Memory);
    };
    let style = output_style(rt);
    let _ = list(rt.alloc(), style, has_code, sources.bytes(), &mut out)?;
    out.flush()?;
    Ok(())
}

/// Lists decks, read as one, and returns the exit status.
pub(crate) fn list_decks<R: Env + Files + Input + Print + AllocGlobal, W: Write>(
    rt: &R,
    decks: &[&str],
    has_code: bool,
    how: How,
    errors: &mut W,
) -> u8 {
    let alloc = rt.alloc();
    let sources = match read_whole(rt, decks, how.form, errors) {
        Ok(sources) => sources,
        Err(status) => return status,
    };
    match write_list(rt, &sources, has_code) {
        Ok(()) => check_sources(alloc, &sources, true, how, errors),
        Err(Trouble::Memory) => no_memory(rt, how.form, errors),
        Err(Trouble::Write(_)) => unwritten(rt, how.form, errors),
    }
}
